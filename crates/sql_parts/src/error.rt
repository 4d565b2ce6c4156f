//! The error of a call that fails.
ghost use Rattle.std.specs.Prelude.{◌≡◌};
ghost use Rattle.sql_parts.specs.Error.{message_text};

use std::alloc::{AllocError, AllocFailed};
use std::error::Error;
use std::fmt;

/// The error of a call that fails.
#[derive(Debug, Drop)]
pub enum SqlBuilderError {
    /// The table text is empty.
    NoTableName,
    /// An INSERT has neither rows nor a query, or a SELECT of values has none.
    NoValues,
    /// An UPDATE sets nothing.
    NoSetFields,
    /// `binds` has a text with a `?`, and no argument.
    NoArguments,
    /// Memory ran out.
    Memory(AllocError),
    /// A query has a HAVING and no GROUP BY.
    NoGroupBy,
}

impl SqlBuilderError {
    /// Returns the error's message, which Display prints too. Never fails.
    /// `SqlBuilderError::NoTableName.message()` gives `No table name`
    pub fn message(&self) -> &'static str
        ensures text { result.now ≡ message_text self.now }
    {
        match self {
            SqlBuilderError::NoTableName => "No table name",
            SqlBuilderError::NoValues => "No values",
            SqlBuilderError::NoSetFields => "No set fields",
            SqlBuilderError::NoArguments => "No arguments",
            SqlBuilderError::Memory(_) => "Out of memory",
            SqlBuilderError::NoGroupBy => "No group by",
        }
    }
}

impl fmt::Display for SqlBuilderError {
    ghost use Rattle.std.specs.Prelude.{Some};
    ghost use Rattle.sql_parts.specs.Error.{message_text};

    ghost output = { λ e. Some (message_text e) };

    ghost styled_output = { λ e _. Some (message_text e) };

    fn fmt<W: fmt::Write>(&self, f: &mut fmt::Formatter<W>) -> fmt::Result {
        f.write_str(self.message())
    }
}

impl Error for SqlBuilderError {}

impl From<AllocError> for SqlBuilderError {
    ghost use Rattle.std.specs.Prelude.{◌≡◌};
    ghost use Rattle.sql_parts.specs.declared.error.SqlBuilderError.TheVariants.{Memory};

    ghost from_gives = { λ failed error. error ≡ Memory failed };

    fn from(error: AllocError) -> SqlBuilderError {
        SqlBuilderError::Memory(error)
    }
}

impl<T: Drop> From<AllocFailed<T>> for SqlBuilderError {
    ghost use Rattle.std.specs.Prelude.{◌≡◌, alloc_error};
    ghost use Rattle.sql_parts.specs.declared.error.SqlBuilderError.TheVariants.{Memory};

    ghost from_gives = { λ _ error. error ≡ Memory alloc_error };

    fn from(_: AllocFailed<T>) -> SqlBuilderError {
        SqlBuilderError::Memory(AllocError)
    }
}

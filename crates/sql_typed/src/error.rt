//! The error of a call that fails.
ghost use Rattle.std.specs.Prelude.{◌≡◌};
ghost use Rattle.sql_typed.specs.Faults.{message_text};

use crate::template::TemplateError;
use sql_parts::SqlBuilderError;
use sql_parts::lex::Violation;
use std::alloc::{AllocError, AllocFailed};
use std::{error, fmt};

/// The error of a call that fails. Functions that print statements return it, since `?` makes it of
/// the other errors.
#[derive(Debug, Drop)]
pub enum Error {
    /// A call of the builder failed, or memory ran out.
    Builder(SqlBuilderError),
    /// A text is no fragment or no operand, for this reason.
    Violation(Violation),
    /// A text is no template, or a template isn't what it is to be, for this reason.
    Template(TemplateError),
    /// An UPDATE or a DELETE has neither a filter nor `all_rows`.
    NoCondition,
    /// The constraint of a join is before the first join.
    NoJoin,
    /// A query has a union and an ORDER BY.
    OrderBesideUnion,
    /// An INSERT that a clause is to follow has a RETURNING.
    ReturningFirst,
}

impl Error {
    /// Returns the error's message, which Display prints too. Never fails.
    /// `Error::NoJoin.message()` gives `A constraint before the first join`
    pub fn message(&self) -> &'static str
        ensures text { result.now ≡ message_text self.now }
    {
        match self {
            Error::Builder(error) => error.message(),
            Error::Violation(violation) => violation.message(),
            Error::Template(error) => error.message(),
            Error::NoCondition => "No condition: say all_rows where every row is meant",
            Error::NoJoin => "A constraint before the first join",
            Error::OrderBesideUnion => "An ORDER BY beside a union",
            Error::ReturningFirst => "A RETURNING before a clause",
        }
    }
}

impl fmt::Display for Error {
    ghost use Rattle.std.specs.Prelude.{Some};
    ghost use Rattle.sql_typed.specs.Faults.{message_text};

    ghost output = { λ e. Some (message_text e) };

    ghost styled_output = { λ e _. Some (message_text e) };

    fn fmt<W: fmt::Write>(&self, f: &mut fmt::Formatter<W>) -> fmt::Result {
        f.write_str(self.message())
    }
}

impl error::Error for Error {}

impl From<SqlBuilderError> for Error {
    ghost use Rattle.std.specs.Prelude.{◌≡◌};
    ghost use Rattle.sql_typed.specs.declared.error.Error.TheVariants.{Builder};

    ghost from_gives = { λ failed error. error ≡ Builder failed };

    fn from(error: SqlBuilderError) -> Error {
        Error::Builder(error)
    }
}

impl From<AllocError> for Error {
    ghost use Rattle.std.specs.Prelude.{◌≡◌};
    ghost use Rattle.sql_parts.specs.declared.error.SqlBuilderError.TheVariants.{Memory};
    ghost use Rattle.sql_typed.specs.declared.error.Error.TheVariants.{Builder};

    ghost from_gives = { λ failed error. error ≡ Builder (Memory failed) };

    fn from(error: AllocError) -> Error {
        Error::Builder(SqlBuilderError::Memory(error))
    }
}

impl<T: Drop> From<AllocFailed<T>> for Error {
    ghost use Rattle.std.specs.Prelude.{◌≡◌, alloc_error};
    ghost use Rattle.sql_parts.specs.declared.error.SqlBuilderError.TheVariants.{Memory};
    ghost use Rattle.sql_typed.specs.declared.error.Error.TheVariants.{Builder};

    ghost from_gives = { λ _ error. error ≡ Builder (Memory alloc_error) };

    fn from(_: AllocFailed<T>) -> Error {
        Error::Builder(SqlBuilderError::Memory(AllocError))
    }
}

impl From<Violation> for Error {
    ghost use Rattle.std.specs.Prelude.{◌≡◌};
    ghost use Rattle.sql_typed.specs.declared.error.Error.TheVariants as errors;

    ghost from_gives = { λ violation error. error ≡ errors.Violation violation };

    fn from(violation: Violation) -> Error {
        Error::Violation(violation)
    }
}

impl From<TemplateError> for Error {
    ghost use Rattle.std.specs.Prelude.{◌≡◌};
    ghost use Rattle.sql_typed.specs.declared.error.Error.TheVariants.{Template};

    ghost from_gives = { λ failed error. error ≡ Template failed };

    fn from(error: TemplateError) -> Error {
        Error::Template(error)
    }
}

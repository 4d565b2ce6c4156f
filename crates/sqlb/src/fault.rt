//! The faults that stop a run.
ghost use Rattle.std.specs.Prelude.{◌≡◌};
ghost use Rattle.sqlb.specs.Fault.{fault_status, reason_text};

use sql_builder::SqlBuilderError;
use std::alloc::AllocError;

/// The reason why a line is not accepted.
#[derive(Debug, Drop)]
pub enum Reason {
    /// The line begins with no known name.
    UnknownCall,
    /// The arguments don't fit the name.
    WrongArguments,
    /// The line is a call or a finish, and no statement is open.
    NoStatement,
    /// The line is a start, and a statement is open.
    StatementOpen,
    /// The line is the last one, and leaves a statement open.
    NoEnd,
    /// The line is not UTF-8.
    NotUtf8,
    /// The line is a finish, and the builder fails with this error. It is never out of memory.
    Builder(SqlBuilderError),
}

/// The fault that stops a run.
#[derive(Debug, Drop)]
pub enum Fault {
    /// The line of this number is not accepted. The first line has the number 1.
    At(usize, Reason),
    /// Memory ran out.
    Memory,
    /// A read returned an error.
    Read,
    /// A write returned an error, or took no byte.
    Write,
}

/// The reason why a line is not run.
#[derive(Drop)]
pub(crate) enum LineError {
    /// The line is not accepted.
    Rejected(Reason),
    /// Memory ran out.
    Memory,
}

impl From<Reason> for LineError {
    ghost use Rattle.std.specs.Prelude.{◌≡◌};
    ghost use Rattle.sqlb.specs.declared.fault.LineError.TheVariants.{Rejected};

    ghost from_gives = { λ reason error. error ≡ Rejected reason };

    fn from(reason: Reason) -> LineError {
        LineError::Rejected(reason)
    }
}

impl From<AllocError> for LineError {
    ghost use Rattle.std.specs.Prelude.{◌≡◌};
    ghost use Rattle.sqlb.specs.declared.fault.LineError.TheVariants.{Memory};

    ghost from_gives = { λ _ error. error ≡ Memory };

    fn from(_: AllocError) -> LineError {
        LineError::Memory
    }
}

impl From<SqlBuilderError> for LineError {
    ghost use Rattle.std.specs.Prelude.{◌≡◌};
    ghost use Rattle.sqlb.specs.Fault.{line_error};

    ghost from_gives = { λ error line. line ≡ line_error error };

    fn from(error: SqlBuilderError) -> LineError {
        match error {
            SqlBuilderError::Memory(_) => LineError::Memory,
            error => LineError::Rejected(Reason::Builder(error)),
        }
    }
}

impl Reason {
    /// Returns the reason's text. Never fails.
    pub fn message(&self) -> &'static str
        ensures text { result.now ≡ reason_text self.now }
    {
        match self {
            Reason::UnknownCall => "unknown call",
            Reason::WrongArguments => "wrong arguments",
            Reason::NoStatement => "no statement",
            Reason::StatementOpen => "statement open",
            Reason::NoEnd => "no end",
            Reason::NotUtf8 => "not UTF-8",
            Reason::Builder(error) => error.message(),
        }
    }
}

impl Fault {
    /// Returns the exit status: 1 for a line or for memory, 2 for a failed reader or writer. Never
    /// fails.
    pub fn status(&self) -> u8
        ensures status { result ≡ fault_status self.now }
    {
        match self {
            Fault::At(_, _) | Fault::Memory => 1,
            Fault::Read | Fault::Write => 2,
        }
    }
}

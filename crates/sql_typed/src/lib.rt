//! SQL statements by value. No call that prints takes a bare text, so each contract holds with no
//! premise on any text. A `Value` can't leave its literal, if the database reads literals as these
//! contracts do. By their defaults MySQL and MariaDB don't. What the program itself gives as an
//! `Operand`, a `Fragment` or a name is printed as SQL.
//!
//! In an example, what the code prints comes after `gives`, or its error after `fails with`. In a
//! block it is in the last line's comment. `alloc` is the allocator.
#![tactic(auto)]

pub mod changes;
pub mod clauses;
pub mod condition;
pub mod error;
pub mod laws;
mod marks;
pub mod mask;
pub mod operand_text;
pub mod printed;
pub mod select;
pub mod statement;
pub mod template;
pub mod texts;

pub use changes::{Delete, Insert, Update};
pub use condition::Condition;
pub use error::Error;
pub use operand_text::{CountText, FragmentText, OperandText, operand};
pub use printed::{Lock, Printed, Wait, With};
pub use select::{JoinKind, Select};
use sql_parts::SqlBuilderError;
pub use statement::Statement;
pub use template::{Operands, Template, TemplateError};
pub use texts::{Query, Row, TableQuery};

/// What a call returns, or why it fails. Calls that print statements fail with an `Error`.
pub type Result<T, E = SqlBuilderError> = std::result::Result<T, E>;

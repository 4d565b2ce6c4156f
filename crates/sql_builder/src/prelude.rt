//! What a builder of statements mostly needs.

pub use crate::builder::SqlBuilder;
pub use sql_parts::arg::{Literal, SqlArg, Value};
pub use sql_parts::bind::{Bind, BindNames, Marks};
pub use sql_parts::name::SqlName;
pub use sql_parts::quote;
pub use sql_parts::text::ToText;

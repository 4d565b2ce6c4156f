//! The parts of SQL statements: texts, quoted texts, literals, names, binding, and the error that
//! all calls share.
//!
//! In an example, what the code prints comes after `gives`, or its error after `fails with`. In a
//! block it is in the last line's comment. `alloc` is the allocator.
#![tactic(auto)]

pub mod arg;
pub mod bind;
mod bind_names;
mod dangling;
mod decimal;
mod delimiters;
mod depth;
pub mod error;
mod fragment;
pub mod holes;
pub mod laws;
pub mod lex;
mod like;
pub mod loan;
mod marks;
pub mod name;
pub mod parameter;
mod placeholders;
pub mod positional;
mod quoting;
mod roles;
mod search;
mod substitution;
pub mod text;
mod tokenizer;
mod violations;

pub use arg::{Literal, SqlArg, Value};
pub use bind::{Bind, BindNames, Marks};
pub use error::SqlBuilderError;
pub use name::SqlName;
pub use parameter::{Parameters, Placeholder, Style};
pub use positional::{Positional, PositionalError};
pub use quoting::{
    baquote, brquote, dquote, esc, escaped, push_escaped, push_quoted, quote, split_at_quote,
};
pub use text::ToText;

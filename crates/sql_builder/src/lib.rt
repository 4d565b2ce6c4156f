//! A builder of SQL statements, and lists of its calls as values.
//!
//! In an example, what the code prints comes after `gives`, or its error after `fails with`. In a
//! block it is in the last line's comment. `alloc` is the allocator.
#![tactic(auto)]

mod builder;
pub mod calls;
mod chain;
mod checks;
mod clauses;
mod concat;
mod condition;
mod ghost_list;
pub mod laws;
mod optional_text;
mod phrases;
pub mod prelude;
mod printed_list;
mod printing;
mod sink;
mod steps;
mod text_list;
mod where_calls;

pub use builder::SqlBuilder;
pub use sql_parts::{
    SqlBuilderError, SqlName, arg, baname, baquote, bind, brname, brquote, dname, dquote, error,
    esc, lex, name, parameter, qname, quote, text,
};

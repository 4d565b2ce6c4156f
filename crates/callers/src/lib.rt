//! Examples for those who call `sql_parts` and `sql_builder` in code with contracts of its own: each
//! is proved. `docs/CALLING.md` reads them one by one.
#![tactic(auto)]

pub mod chains;
pub mod form;
pub mod interference;
pub mod lists;
pub mod parameters;
pub mod searches;
pub mod typed;
pub mod untrusted;
pub mod values;

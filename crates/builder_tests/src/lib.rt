//! Tests of the libraries that aren't rows. Rows of statements are lines, in `tests/rows/statements` and
//! `docs/reference/conditions.md`, and rows of calls are in `tests/rows/calls.md` and `docs/reference/every_call.md`.
#![tactic(auto)]

#[cfg(test)]
mod allocations;
#[cfg(test)]
mod binding;
#[cfg(test)]
mod borrowed_texts;
#[cfg(test)]
mod checked_lists;
#[cfg(test)]
mod clauses;
#[cfg(test)]
mod clones;
#[cfg(test)]
mod conditions;
#[cfg(test)]
mod every_call;
#[cfg(test)]
mod examples;
#[cfg(test)]
mod hostile;
#[cfg(test)]
mod lists_of_calls;
#[cfg(test)]
mod names;
#[cfg(test)]
mod parameters;
#[cfg(test)]
mod quoting;
#[cfg(test)]
mod readers;
#[cfg(test)]
mod reused_buffers;
#[cfg(test)]
mod stated_laws;
#[cfg(test)]
mod templates;
#[cfg(test)]
mod typed;
#[cfg(test)]
mod untrusted_texts;

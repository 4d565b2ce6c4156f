//! Masks of LIKE, made of a word whose wildcards are escaped by `!`. A mask is no SQL: it is bound as a parameter, or printed
//! as a `Value`. Each function fails only if memory runs out.
ghost use Rattle.std.specs.Prelude.{◌≡◌, IfOk, string_bytes};
ghost use Rattle.sql_parts.specs.Error.{FailsOnlyByMemory};
ghost use Rattle.sql_builder.specs.declared.condition.Percent.TheVariants as percent;
ghost use Rattle.sql_typed.specs.Conditions.{escaped_mask};

use crate::Result;
use sql_parts::text::{LikeEscape, escape_like};
use std::alloc::Global;

/// Returns the mask that matches what contains this word. Fails only if memory runs out.
/// `containing(alloc, "50%")?` gives `%50!%%`
pub fn containing(alloc: Global, word: &str) -> Result<String>
    ensures text { IfOk result (λ mask. string_bytes mask ≡ escaped_mask percent.Any word.now) }
    ensures memory { FailsOnlyByMemory result }
{
    let mut mask = ending_with(alloc, word)?;
    mask.push_str("%")?;
    Ok(mask)
}

/// Returns the mask that matches what starts with this word. Fails only if memory runs out.
/// `starting_with(alloc, "50%")?` gives `50!%%`
pub fn starting_with(alloc: Global, word: &str) -> Result<String>
    ensures text { IfOk result (λ mask. string_bytes mask ≡ escaped_mask percent.Left word.now) }
    ensures memory { FailsOnlyByMemory result }
{
    let mut mask = escape_like(alloc, word, LikeEscape::Exclamation)?;
    mask.push_str("%")?;
    Ok(mask)
}

/// Returns the mask that matches what ends with this word. Fails only if memory runs out.
/// `ending_with(alloc, "50%")?` gives `%50!%`
pub fn ending_with(alloc: Global, word: &str) -> Result<String>
    ensures text { IfOk result (λ mask. string_bytes mask ≡ escaped_mask percent.Right word.now) }
    ensures memory { FailsOnlyByMemory result }
{
    let mut escaped = escape_like(alloc, word, LikeEscape::Exclamation)?;
    escaped.insert_str(0, "%")?;
    Ok(escaped)
}

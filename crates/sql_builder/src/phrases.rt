//! Lists of texts with commas between them.
ghost use Rattle.std.specs.Prelude.{◌≡◌, ◌++◌, OnErr, OnOk, codes, flat_map, map, string_bytes};
ghost use Rattle.std.specs.Io.{StartsWith};
ghost use Rattle.sql_parts.specs.Error.{FailsOnlyByMemory};
ghost use Rattle.sql_parts.specs.Quoting.{quoted};
ghost use Rattle.sql_builder.specs.{byte_units, comma_list, row};

use sql_parts::text::{Texts, ToText};
use sql_parts::{SqlBuilderError, push_quoted};
use std::alloc::Global;

// Each text, with `, ` in front of it.
#[tactic(auto, using(sql_parts::proofs::bytes::DoublingLemmas::starts_with_more))]
fn push_further<'a, T: Texts<'a>>(
    alloc: Global,
    out: &mut String,
    mut texts: T,
) -> Result<(), SqlBuilderError>
    ensures pushed { OnOk result (string_bytes out.new
        ≡ string_bytes out.old ++ flat_map (λ item. codes ", " ++ item) (T.left texts)) }
    ensures kept { OnErr result (StartsWith (string_bytes out.new) (string_bytes out.old)) }
    ensures memory { FailsOnlyByMemory result }
{
    while let Some(text) = texts.next_text() {
        out.push_str(", ")?;
        text.push_text(alloc, out)?;
    }
    Ok(())
}

/// Appends the texts, with `, ` between each and the next.
#[tactic(auto, using(std::proofs::Transfers::starts_with_of_append, std::proofs::Transfers::starts_with_trans))]
pub(crate) fn push_items<'a, T: Texts<'a>>(
    alloc: Global,
    out: &mut String,
    mut texts: T,
) -> Result<(), SqlBuilderError>
    ensures pushed { OnOk result (string_bytes out.new
        ≡ string_bytes out.old ++ comma_list byte_units (T.left texts)) }
    ensures kept { OnErr result (StartsWith (string_bytes out.new) (string_bytes out.old)) }
    ensures memory { FailsOnlyByMemory result }
{
    if let Some(first) = texts.next_text() {
        first.push_text(alloc, out)?;
        push_further(alloc, out, texts)?;
    }
    Ok(())
}

// Each text, quoted, with `, ` in front of it.
fn push_further_quoted<'a, T: Texts<'a>>(
    alloc: Global,
    out: &mut String,
    mut texts: T,
) -> Result<(), SqlBuilderError>
    ensures pushed { OnOk result (string_bytes out.new ≡ string_bytes out.old
        ++ flat_map (λ item. codes ", " ++ item) (map quoted (T.left texts))) }
    ensures memory { FailsOnlyByMemory result }
{
    while let Some(text) = texts.next_text() {
        out.push_str(", ")?;
        push_quoted(out, text.as_text(alloc)?.as_str())?;
    }
    Ok(())
}

/// Appends the texts, each quoted, with `, ` between each and the next.
pub(crate) fn push_quoted_items<'a, T: Texts<'a>>(
    alloc: Global,
    out: &mut String,
    mut texts: T,
) -> Result<(), SqlBuilderError>
    ensures pushed { OnOk result (string_bytes out.new
        ≡ string_bytes out.old ++ comma_list byte_units (map quoted (T.left texts))) }
    ensures memory { FailsOnlyByMemory result }
{
    if let Some(first) = texts.next_text() {
        push_quoted(out, first.as_text(alloc)?.as_str())?;
        push_further_quoted(alloc, out, texts)?;
    }
    Ok(())
}

/// Appends the values in brackets, with commas between them.
#[tactic(auto, using(std::proofs::Transfers::starts_with_of_append, std::proofs::Transfers::starts_with_trans))]
pub(crate) fn push_row<'a, T: Texts<'a>>(
    alloc: Global,
    out: &mut String,
    values: T,
) -> Result<(), SqlBuilderError>
    ensures pushed { OnOk result (string_bytes out.new
        ≡ string_bytes out.old ++ row byte_units (T.left values)) }
    ensures kept { OnErr result (StartsWith (string_bytes out.new) (string_bytes out.old)) }
    ensures memory { FailsOnlyByMemory result }
{
    out.push_str("(")?;
    push_items(alloc, out, values)?;
    out.push_str(")")?;
    Ok(())
}

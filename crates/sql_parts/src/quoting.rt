//! Texts between quotes.
ghost use Rattle.std.specs.Prelude.{◌≡◌, ◌<◌, [], ◌∷◌, ◌++◌, codes, string_bytes, IfOk, IfSome, IsTrue, MatchOption, OnErr, OnOk};
ghost use Rattle.std.specs.Cow.{cow_str_bytes};
ghost use Rattle.std.specs.Io.{StartsWith};
ghost use Rattle.sql_parts.specs.{FailsOnlyByMemory, baquoted, between, brquoted, doubled, dquoted, escaped, quoted, Str, closed, quoted_token, tokens};
ghost use Rattle.sql_parts.specs.Tokens.{Name};

use crate::delimiters::{Quotes, push_doubled, push_parts_doubled, split_at_delimiter};
use crate::error::SqlBuilderError;
use crate::text::ToText;
use std::alloc::{AllocError, Global};
use std::borrow::CowStr;

// Appends the text with each `delimiter` in it written twice, and the delimiter behind it.
#[tactic(auto, using(crate::proofs::bytes::DoublingLemmas::starts_with_more))]
fn push_closed(out: &mut String, delimiter: char, text: &str) -> Result<(), AllocError>
    requires one_byte { delimiter < 128 }
    ensures text { OnOk result (string_bytes out.new
        ≡ string_bytes out.old ++ doubled delimiter text.now ++ delimiter ∷ []) }
    ensures kept { OnErr result (StartsWith (string_bytes out.new) (string_bytes out.old)) }
{
    push_doubled(out, delimiter, text)?;
    out.push(delimiter)
}

/// Appends the text between its delimiters, with each closing delimiter in it written twice.
#[tactic(auto, using(crate::proofs::bytes::DoublingLemmas::starts_with_front))]
pub(crate) fn push_enclosed(out: &mut String, quotes: Quotes, text: &str) -> Result<(), AllocError>
    ensures text { OnOk result
        (string_bytes out.new ≡ string_bytes out.old ++ between quotes text.now) }
    ensures kept { OnErr result (string_bytes out.new ≡ string_bytes out.old) }
{
    let before = out.len();
    out.push(quotes.opening())?;
    let pushed = push_closed(out, quotes.closing(), text);
    if pushed.is_err() {
        out.truncate(before);
    }
    pushed
}

#[tactic(auto, using(crate::proofs::tokens::TokenFacts::between_token, crate::proofs::tokens::TokenFacts::between_closed))]
fn enclose<S: ToText>(alloc: Global, quotes: Quotes, text: S) -> Result<String, SqlBuilderError>
    ensures text { IfOk result (λ s. string_bytes s ≡ between quotes (S.text text)) }
    ensures token { IfOk result (λ s. tokens (string_bytes s)
        ≡ quoted_token quotes (S.text text) ∷ []) }
    ensures closed { IfOk result (λ s. IsTrue (closed (string_bytes s))) }
    ensures memory { FailsOnlyByMemory result }
{
    let text = text.as_text(alloc)?;
    let text = text.as_str();
    let mut out = String::with_capacity(alloc, text.len().saturating_add(2))?;
    push_enclosed(&mut out, quotes, text)?;
    Ok(out)
}

/// Returns the text with each `'` in it doubled. Between two `'` it is an SQL text. Fails only if
/// memory runs out.
/// `esc(alloc, "it's")?` gives `it''s`
#[tactic(auto, using(crate::proofs::tokens::TokenFacts::escaped_token))]
pub fn esc<S: ToText>(alloc: Global, text: S) -> Result<String, SqlBuilderError>
    ensures text { IfOk result (λ s. string_bytes s ≡ escaped (S.text text)) }
    ensures token { IfOk result (λ s. tokens (codes "'" ++ (string_bytes s ++ codes "'"))
        ≡ Str (S.text text) ∷ []) }
    ensures memory { FailsOnlyByMemory result }
{
    let text = text.as_text(alloc)?;
    let mut out = String::new(alloc);
    push_doubled(&mut out, Quotes::Single.closing(), text.as_str())?;
    Ok(out)
}

/// Returns the text before the first `'` and the text after it, if there is one. Never fails.
/// `split_at_quote("it's").unwrap_or(("", "")).1` gives `s`
pub fn split_at_quote(text: &str) -> Option<(&str, &str)>
    ensures cut { IfSome result (λ parts. text.now ≡ parts.0.now ++ (codes "'" ++ parts.1.now)) }
    ensures doubled { MatchOption result (escaped text.now ≡ text.now)
        (λ parts. escaped text.now ≡ parts.0.now ++ (codes "''" ++ escaped parts.1.now)) }
{
    split_at_delimiter(text, '\'')
}

// Room for so many delimiters that are doubled is taken at once.
const SOME_DELIMITERS: usize = 8;

/// Returns the text with each `'` in it doubled, borrowed if it has none. Fails only if memory runs
/// out.
/// `escaped(alloc, "it's")?` gives `it''s`
pub fn escaped(alloc: Global, text: &str) -> Result<CowStr<'_>, AllocError>
    ensures { IfOk result (λ s. cow_str_bytes s ≡ escaped text.now) }
{
    let Some((before, after)) = split_at_quote(text) else {
        return Ok(CowStr::Borrowed(text));
    };
    let mut out = String::with_capacity(alloc, text.len().saturating_add(SOME_DELIMITERS))?;
    push_parts_doubled(&mut out, '\'', before, after)?;
    Ok(CowStr::Owned(out))
}

/// Appends the text with each `'` in it doubled. Fails only if memory runs out, and `out` then still
/// begins with what it had. For the crates here alone.
/// ```
/// let mut text = String::new(alloc);
/// push_escaped(&mut text, "it's")?;
/// text; // it''s
/// ```
#[inline(always)]
pub fn push_escaped(out: &mut String, text: &str) -> Result<(), AllocError>
    ensures text { OnOk result (string_bytes out.new ≡ string_bytes out.old ++ escaped text.now) }
    ensures kept { OnErr result (StartsWith (string_bytes out.new) (string_bytes out.old)) }
{
    push_doubled(out, '\'', text)
}

/// Appends the text between single quotes, with each `'` in it doubled. Fails only if memory runs
/// out, and then leaves `out` unchanged.
/// ```
/// let mut text = String::new(alloc);
/// push_quoted(&mut text, "it's")?;
/// text; // 'it''s'
/// ```
pub fn push_quoted(out: &mut String, text: &str) -> Result<(), AllocError>
    ensures text { OnOk result (string_bytes out.new ≡ string_bytes out.old ++ quoted text.now) }
    ensures kept { OnErr result (string_bytes out.new ≡ string_bytes out.old) }
{
    push_enclosed(out, Quotes::Single, text)
}

/// Returns the text between single quotes, with each `'` in it doubled: an SQL text. Fails only if
/// memory runs out.
/// `quote(alloc, "it's")?` gives `'it''s'`
pub fn quote<S: ToText>(alloc: Global, text: S) -> Result<String, SqlBuilderError>
    ensures text { IfOk result (λ s. string_bytes s ≡ quoted (S.text text)) }
    ensures token { IfOk result (λ s. tokens (string_bytes s) ≡ Str (S.text text) ∷ []) }
    ensures closed { IfOk result (λ s. IsTrue (closed (string_bytes s))) }
    ensures memory { FailsOnlyByMemory result }
{
    enclose(alloc, Quotes::Single, text)
}

/// Returns the text between backquotes, with each backquote in it doubled: an SQL name. Fails only
/// if memory runs out.
/// `` baquote(alloc, "a`b")? `` gives ``` `a``b` ```
pub fn baquote<S: ToText>(alloc: Global, text: S) -> Result<String, SqlBuilderError>
    ensures text { IfOk result (λ s. string_bytes s ≡ baquoted (S.text text)) }
    ensures token { IfOk result (λ s. tokens (string_bytes s) ≡ Name (S.text text) ∷ []) }
    ensures closed { IfOk result (λ s. IsTrue (closed (string_bytes s))) }
    ensures memory { FailsOnlyByMemory result }
{
    enclose(alloc, Quotes::Back, text)
}

/// Returns the text between square brackets, with each `]` in it doubled: an SQL name. Fails only
/// if memory runs out.
/// `brquote(alloc, "a]")?` gives `[a]]]`
pub fn brquote<S: ToText>(alloc: Global, text: S) -> Result<String, SqlBuilderError>
    ensures text { IfOk result (λ s. string_bytes s ≡ brquoted (S.text text)) }
    ensures token { IfOk result (λ s. tokens (string_bytes s) ≡ Name (S.text text) ∷ []) }
    ensures closed { IfOk result (λ s. IsTrue (closed (string_bytes s))) }
    ensures memory { FailsOnlyByMemory result }
{
    enclose(alloc, Quotes::Square, text)
}

/// Returns the text between double quotes, with each `"` in it doubled: an SQL name. Fails only if
/// memory runs out.
/// `dquote(alloc, "a\"b")?` gives `"a""b"`
pub fn dquote<S: ToText>(alloc: Global, text: S) -> Result<String, SqlBuilderError>
    ensures text { IfOk result (λ s. string_bytes s ≡ dquoted (S.text text)) }
    ensures token { IfOk result (λ s. tokens (string_bytes s) ≡ Name (S.text text) ∷ []) }
    ensures closed { IfOk result (λ s. IsTrue (closed (string_bytes s))) }
    ensures memory { FailsOnlyByMemory result }
{
    enclose(alloc, Quotes::Double, text)
}

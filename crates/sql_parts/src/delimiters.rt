//! The delimiters that a text is put between.
ghost use Rattle.std.specs.Prelude.{◌≡◌, ◌<◌, ◌≤◌, [], ◌∷◌, ◌++◌, length, string_bytes, IfSome, MatchOption, OnErr, OnOk};
ghost use Rattle.std.specs.Io.{StartsWith};
ghost use Rattle.sql_parts.specs.Quoting.{closing, doubled, opening};

use crate::search::find_byte;
use std::alloc::AllocError;

/// The delimiters that a text is put between.
#[derive(Clone, Copy)]
pub enum Quotes {
    /// `'` and `'`, round an SQL text.
    Single,
    /// Two backquotes, round an SQL name.
    Back,
    /// `[` and `]`, round an SQL name.
    Square,
    /// `"` and `"`, round an SQL name.
    Double,
}

impl Quotes {
    /// Returns the delimiter before a text. Never fails.
    /// `Quotes::Square.opening()` gives `[`
    pub fn opening(self) -> char
        ensures delimiter { result ≡ opening self }
        ensures one_byte { result < 128 }
    {
        match self {
            Quotes::Single => '\'',
            Quotes::Back => '`',
            Quotes::Square => '[',
            Quotes::Double => '"',
        }
    }

    /// Returns the delimiter behind a text. It is written twice where the text has it. Never fails.
    /// `Quotes::Square.closing()` gives `]`
    pub fn closing(self) -> char
        ensures delimiter { result ≡ closing self }
        ensures one_byte { result < 128 }
    {
        match self {
            Quotes::Single => '\'',
            Quotes::Back => '`',
            Quotes::Square => ']',
            Quotes::Double => '"',
        }
    }
}

/// The text before the first delimiter, and the text behind that delimiter.
pub(crate) fn split_at_delimiter(text: &str, delimiter: char) -> Option<(&str, &str)>
    requires one_byte { delimiter < 128 }
    ensures doubled { MatchOption result (doubled delimiter text.now ≡ text.now)
        (λ parts. doubled delimiter text.now
        ≡ parts.0.now ++ delimiter ∷ delimiter ∷ doubled delimiter parts.1.now) }
    ensures cut { IfSome result (λ parts. text.now ≡ parts.0.now ++ delimiter ∷ parts.1.now) }
    ensures shorter { IfSome result (λ parts. length parts.1.now < length text.now) }
{
    let place = find_byte(text.as_bytes(), delimiter as u8)?;
    Some((&text[..place], &text[place + 1..]))
}

// The delimiters at the front of a text, and the text behind them.
fn split_delimiters(text: &str, delimiter: char) -> (&str, &str)
    requires one_byte { delimiter < 128 }
    ensures doubled { doubled delimiter text.now
        ≡ result.0.now ++ (result.0.now ++ doubled delimiter result.1.now) }
    ensures shorter { length result.1.now ≤ length text.now }
{
    let bytes = text.as_bytes();
    let mut end = 0;
    while end < bytes.len() && char::from(bytes[end]) == delimiter {
        end += 1;
    }
    text.split_at(end)
}

// Appends the text, and the delimiter twice behind it. It is inlined, since a loop calls it.
#[inline(always)]
#[tactic(auto, using(crate::proofs::bytes::DoublingLemmas::starts_with_more))]
fn push_with_delimiter(out: &mut String, text: &str, delimiter: char) -> Result<(), AllocError>
    requires one_byte { delimiter < 128 }
    ensures text { OnOk result
        (string_bytes out.new ≡ string_bytes out.old ++ text.now ++ delimiter ∷ delimiter ∷ []) }
    ensures kept { OnErr result (StartsWith (string_bytes out.new) (string_bytes out.old)) }
{
    if !text.is_empty() {
        out.push_str(text)?;
    }
    out.push(delimiter)?;
    out.push(delimiter)
}

// Appends delimiters that follow one another, each written twice.
#[tactic(auto, using(crate::proofs::bytes::DoublingLemmas::starts_with_more))]
fn push_twice(out: &mut String, delimiters: &str) -> Result<(), AllocError>
    ensures text { OnOk result
        (string_bytes out.new ≡ string_bytes out.old ++ delimiters.now ++ delimiters.now) }
    ensures kept { OnErr result (StartsWith (string_bytes out.new) (string_bytes out.old)) }
{
    if delimiters.is_empty() {
        return Ok(());
    }
    out.push_str(delimiters)?;
    out.push_str(delimiters)
}

// Appends a text, the delimiter behind it twice, and the rest with each delimiter twice. It is a
// function of its own, so that callers keep fewer registers for texts without a delimiter.
#[inline(never)]
#[tactic(auto, using(crate::proofs::bytes::DoublingLemmas::starts_with_more, std::proofs::lemmas::List::append_assoc))]
pub(crate) fn push_parts_doubled(
    out: &mut String,
    delimiter: char,
    before: &str,
    after: &str,
) -> Result<(), AllocError>
    requires one_byte { delimiter < 128 }
    ensures text { OnOk result (string_bytes out.new
        ≡ string_bytes out.old ++ before.now ++ delimiter ∷ delimiter ∷ doubled delimiter after.now) }
    ensures kept { OnErr result (StartsWith (string_bytes out.new) (string_bytes out.old)) }
{
    push_with_delimiter(out, before, delimiter)?;
    let mut rest = after;
    'delimiters: while let Some((before, after)) = split_at_delimiter(rest, delimiter) {
        push_with_delimiter(out, before, delimiter)?;
        let (delimiters, behind) = split_delimiters(after, delimiter);
        push_twice(out, delimiters)?;
        rest = behind;
    }
    out.push_str(rest)
}

/// Appends the text with each `delimiter` in it written twice. Room for a closing delimiter is taken too.
pub(crate) fn push_doubled(out: &mut String, delimiter: char, text: &str) -> Result<(), AllocError>
    requires one_byte { delimiter < 128 }
    ensures text { OnOk result
        (string_bytes out.new ≡ string_bytes out.old ++ doubled delimiter text.now) }
    ensures kept { OnErr result (StartsWith (string_bytes out.new) (string_bytes out.old)) }
{
    out.reserve(text.len().saturating_add(1))?;
    match split_at_delimiter(text, delimiter) {
        Some((before, after)) => push_parts_doubled(out, delimiter, before, after),
        None => out.push_str(text),
    }
}

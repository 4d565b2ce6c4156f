//! The marks of a statement's text: its numbered placeholders, and `?` without a number.
ghost use Rattle.std.specs.Prelude.{◌≡◌, ◌≢◌, ◌<◌, ◌∷◌, ◌⊎◌, [], IfSome, MatchOption, None, drop, length};
ghost use Rattle.std.specs.List.{prefix_len};
ghost use Rattle.sql_parts.specs.{IsMark, is_name_byte, mark_at};
ghost use Rattle.sql_parts.specs.Marks.{IsRead};
ghost use Rattle.sql_parts.specs.Positional as positional;
ghost use Rattle.sql_parts.specs.Positional.{cut};
ghost use Rattle.sql_parts.specs.declared.parameter.Style.{Style};

use crate::parameter::{Style, prefix_of};
use crate::placeholders::{begins_with_digit, number};
use crate::tokenizer::{is_word_byte, read};

/// What the values go by in a text.
#[derive(Clone, Copy)]
pub(crate) enum Mark {
    /// The placeholder of a number, or of one that doesn't fit.
    Numbered(Option<usize>),
    /// A `?` without a number.
    Bare,
}

/// The text before a mark, the mark, and the text behind it.
#[derive(Clone, Copy)]
pub(crate) struct Marked<'t> {
    pub(crate) segment: &'t str,
    pub(crate) mark: Mark,
    pub(crate) rest: &'t str,
}

#[inline(always)]
fn is_name_byte(byte: u8) -> bool
    ensures { result ≡ is_name_byte byte }
{
    is_word_byte(byte) || byte == b'$'
}

// The text behind the name bytes at the front of a text.
#[inline(always)]
fn behind_name(text: &str) -> &str
    ensures { result.now ≡ drop (prefix_len is_name_byte text.now) text.now }
{
    let bytes = text.as_bytes();
    let mut end = 0;
    while end < bytes.len() && is_name_byte(bytes[end]) {
        end += 1;
    }
    &text[end..]
}

// What is at a `?` or a `$`: the mark, if it is one, and the text behind it.
#[inline(always)]
fn read_sign(style: Style, sign: u8, behind: &str) -> (Option<Mark>, &str)
    requires sign { (sign ≡ 63) ⊎ (sign ≡ 36) }
    ensures { IsRead behind.now result (mark_at style sign behind.now) }
{
    if sign == prefix_of(style) && begins_with_digit(behind) {
        let (number, rest) = number(behind);
        return (Some(Mark::Numbered(number)), rest);
    }
    if sign == b'?' {
        return (Some(Mark::Bare), behind);
    }
    (None, behind_name(behind))
}

// The text behind a name, or behind what the first rule of tokens reads.
#[inline(always)]
fn behind_text(first: u8, text: &str) -> &str
    requires first { text.now ≡ first ∷ drop 1 text.now }
    requires no_sign { (first ≢ 63) × (first ≢ 36) }
    ensures { (style : Style) → ((mark_at style first (drop 1 text.now)).0 ≡ None)
        × (result.now ≡ drop (mark_at style first (drop 1 text.now)).1 (drop 1 text.now)) }
{
    if is_word_byte(first) {
        behind_name(text)
    } else {
        read(first, text).1
    }
}

// The mark at the front of a text, if one is there, and the text behind what is read there.
#[inline(always)]
fn read_mark(style: Style, first: u8, text: &str) -> (Option<Mark>, &str)
    requires first { text.now ≡ first ∷ drop 1 text.now }
    ensures { IsRead (drop 1 text.now) result (mark_at style first (drop 1 text.now)) }
{
    match first {
        b'?' | b'$' => read_sign(style, first, &text[1..]),
        _ => (None, behind_text(first, text)),
    }
}

/// The first mark of a text.
#[inline(always)]
pub(crate) fn first_mark(style: Style, text: &str) -> Option<Marked<'_>>
    ensures mark { MatchOption result (cut style text.now ≡ (text.now, []))
        (λ found. (mark : positional.Mark) × IsMark found.mark mark
        × (cut style text.now ≡ (found.segment.now, (mark, (cut style found.rest.now).0) ∷ (cut style found.rest.now).1))) }
    ensures shorter { IfSome result (λ found. length found.rest.now < length text.now) }
{
    let mut rest = text;
    while let Some(first) = rest.as_bytes().first() {
        let (mark, behind) = read_mark(style, *first, rest);
        if let Some(mark) = mark {
            let segment = &text[..text.len() - rest.len()];
            return Some(Marked {
                segment,
                mark,
                rest: behind,
            });
        }
        rest = behind;
    }
    None
}

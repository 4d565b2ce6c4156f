//! The placeholders of a template: which ones a call binds, and what is read at a place.
ghost use Rattle.std.specs.Prelude.{◌≡◌, ◌<◌, ◌+◌, ◌*◌, ◌==◌, ℕ, [], IfOk, IfSome, MatchOption, codes, drop, length, not, string_bytes, take};
ghost use Rattle.std.specs.Char.{is_ascii_digit};
ghost use Rattle.std.specs.Cow.{cow_str_bytes};
ghost use Rattle.std.specs.List.{prefix_len};
ghost use Rattle.std.specs.Str.Parse.{digits_value};
ghost use Rattle.sql_parts.specs.{FailsOnlyByMemory, IsNumber, RepresentsContent, marks_of, content_of, front_of, Writes, counted, named, numbered, place_behind};
ghost use Rattle.sql_parts.specs.{resolved_from};
ghost use Rattle.sql_parts.specs.Templates as templates;
ghost use Rattle.sql_parts.specs.Templates.{followed_by, prefix};

use crate::arg::SqlArg;
use crate::error::SqlBuilderError;
use crate::search::{Front, split_at_first};
use std::alloc::Global;
use std::borrow::CowStr;

/// The call of binding that is meant, which says what a placeholder is. In contracts it is the
/// `Marks` of `specs/Templates.antt`, by `marks_of`.
#[derive(Clone, Copy)]
pub enum Marks<'a> {
    /// `bind`: the first `?`.
    First,
    /// `binds`: each `?`, with this many arguments.
    Cycle(usize),
    /// `bind_num`: `$` and this number, where no ASCII digit follows.
    Num(u16),
    /// `bind_nums`: `$` and any number, with this many arguments.
    Nums(usize),
    /// `bind_name`: this name between colons.
    Name(&'a str),
    /// `bind_names`: any name between colons.
    Names,
}

/// What a placeholder is replaced by.
#[derive(Clone, Copy)]
pub(crate) enum Replacement<'t> {
    /// The argument with this number, from 0.
    Argument(usize),
    /// What this name is bound to.
    Named(&'t str),
}

/// What is at a place.
#[derive(Clone, Copy)]
pub(crate) enum Content<'t> {
    /// The prefix itself, as text.
    Prefix,
    /// A text, perhaps another than is read there.
    Writes(&'t str),
    /// A placeholder.
    Holds(Replacement<'t>),
}

/// The text before a place, what is there, and the text behind it.
#[derive(Clone, Copy)]
pub(crate) struct Found<'t> {
    pub(crate) segment: &'t str,
    pub(crate) content: Content<'t>,
    pub(crate) rest: &'t str,
}

/// The text that every placeholder and every escape begins with.
pub(crate) fn prefix(alloc: Global, marks: Marks<'_>) -> Result<CowStr<'static>, SqlBuilderError>
    ensures text { IfOk result (λ s. cow_str_bytes s ≡ prefix (marks_of marks.entry)) }
    ensures memory { FailsOnlyByMemory result }
{
    Ok(match marks {
        Marks::First | Marks::Cycle(_) => CowStr::Borrowed("?"),
        Marks::Num(number) => CowStr::Owned(number_prefix(alloc, number)?),
        Marks::Nums(_) => CowStr::Borrowed("$"),
        Marks::Name(name) => CowStr::Owned(name_prefix(alloc, name)?),
        Marks::Names => CowStr::Borrowed(":"),
    })
}

fn number_prefix(alloc: Global, number: u16) -> Result<String, SqlBuilderError>
    ensures text { IfOk result (λ s. string_bytes s ≡ prefix (templates.Num number)) }
    ensures memory { FailsOnlyByMemory result }
{
    // The sign and at most five digits.
    let mut text = String::with_capacity(alloc, 6)?;
    text.push('$')?;
    number.push_sql_arg(alloc, &mut text)?;
    Ok(text)
}

fn name_prefix(alloc: Global, name: &str) -> Result<String, SqlBuilderError>
    ensures text { IfOk result (λ s. string_bytes s ≡ prefix (templates.Name name.now)) }
    ensures memory { FailsOnlyByMemory result }
{
    let mut text = String::with_capacity(alloc, name.len().saturating_add(2))?;
    text.push(':')?;
    text.push_str(name)?;
    text.push(':')?;
    Ok(text)
}

// The number with one more digit behind it.
fn with_digit(number: Option<usize>, digit: u8) -> Option<usize>
    ensures { (n : ℕ) → IsNumber number n → IsNumber result (n * 10 + digit) }
{
    number?.checked_mul(10)?.checked_add(usize::from(digit))
}

// The number that the digits at the front make, where it fits, and the text behind them.
pub(crate) fn number(text: &str) -> (Option<usize>, &str)
    ensures number { IsNumber result.0
        (digits_value 10 (take (prefix_len is_ascii_digit text.now) text.now)) }
    ensures rest { result.1.now ≡ drop (prefix_len is_ascii_digit text.now) text.now }
{
    let bytes = text.as_bytes();
    let mut number = Some(0);
    let mut end = 0;
    while end < bytes.len() && bytes[end].is_ascii_digit() {
        number = with_digit(number, bytes[end] - b'0');
        end += 1;
    }
    (number, &text[end..])
}

// What is read at a `$`, where there are so many arguments.
fn numbered(count: usize, behind: &str) -> (Content<'_>, &str)
    ensures { RepresentsContent (codes "$") behind.now result (numbered count behind.now) }
{
    let (number, rest) = number(behind);
    match number {
        Some(0) => match rest.strip_prefix("$") {
            Some(rest) => (Content::Writes("$"), rest),
            None => (Content::Writes(""), rest),
        },
        Some(number) if number <= count => (
            Content::Holds(Replacement::Argument(number - 1)),
            rest,
        ),
        _ => (Content::Writes(""), rest),
    }
}

// What is read at a `:`.
fn named(behind: &str) -> (Content<'_>, &str)
    ensures { RepresentsContent (codes ":") behind.now result (named behind.now) }
{
    match behind.split_once(':') {
        None => (Content::Writes(":"), behind),
        Some((name, rest)) => {
            if name.is_empty() {
                (Content::Writes(":"), rest)
            } else {
                (Content::Holds(Replacement::Named(name)), rest)
            }
        }
    }
}

pub(crate) fn begins_with_digit(text: &str) -> bool
    ensures { result ≡ not (prefix_len is_ascii_digit text.now == 0) }
{
    match text.as_bytes().first() {
        None => false,
        Some(byte) => byte.is_ascii_digit(),
    }
}

// What is read at a prefix, and the text behind it.
#[inline(always)]
fn place_behind<'t>(marks: Marks<'_>, seen: usize, behind: &'t str) -> (Content<'t>, &'t str)
    requires first { marks_of marks ≡ templates.First → seen ≡ 0 }
    ensures { RepresentsContent (prefix (marks_of marks.entry)) behind.now result
        (place_behind (marks_of marks.entry) seen behind.now) }
{
    match marks {
        Marks::Num(_) if begins_with_digit(behind) => (Content::Prefix, behind),
        Marks::First | Marks::Num(_) | Marks::Name(_) => {
            (Content::Holds(Replacement::Argument(0)), behind)
        }
        Marks::Cycle(count) => {
            // No count is 0 here, since callers then refuse a `?`: the definition is total.
            let argument = seen.checked_rem(count).unwrap_or(seen);
            (Content::Holds(Replacement::Argument(argument)), behind)
        }
        Marks::Nums(count) => numbered(count, behind),
        Marks::Names => named(behind),
    }
}

/// The first prefix of a text and what is read there, where `seen` placeholders precede the text.
#[inline(always)]
pub(crate) fn first_place<'t>(
    marks: Marks<'_>,
    prefix: &str,
    front: Front,
    seen: usize,
    text: &'t str,
) -> Option<Found<'t>>
    requires prefix { prefix.now ≡ templates.prefix (marks_of marks) }
    requires front { front ≡ front_of prefix.now }
    ensures found { MatchOption result
        (resolved_from (marks_of marks.entry) seen 0 text.now ≡ (text.now, []))
        (λ f. let content = content_of (templates.prefix (marks_of marks.entry)) f.content in
        resolved_from (marks_of marks.entry) seen 0 text.now
        ≡ followed_by (Writes f.segment.now) (followed_by content
        (resolved_from (marks_of marks.entry) (counted content seen) 0 f.rest.now))) }
    ensures shorter { IfSome result (λ f. length f.rest.now < length text.now) }
{
    match marks {
        // `bind` has one placeholder, so the text behind it is copied at once.
        Marks::First if seen > 0 => None,
        _ => {
            let (segment, behind) = split_at_first(text, prefix, front)?;
            let (content, rest) = place_behind(marks, seen, behind);
            Some(Found {
                segment,
                content,
                rest,
            })
        }
    }
}

//! Values that can be written as texts.

ghost use Rattle.std.specs.Prelude.{◌≡◌, ◌++◌, [], ◌∷◌, ℕ, List, MatchOption, map, string_bytes, IfOk, OnErr, OnOk};
ghost use Rattle.std.specs.Char.{encode_utf8};
ghost use Rattle.std.specs.Cow.{cow_str_bytes};
ghost use Rattle.sql_parts.specs.{FailsOnlyByMemory, escape_character, like_escaped, bool_text, decimal_text, has_byte, number_text, optional_text, texts};

use crate::decimal::{push_signed, push_unsigned, signed_text, unsigned_text};
pub use crate::delimiters::Quotes;
use crate::error::SqlBuilderError;
pub use crate::fragment::{Fragment, Operand, OwnedOperand};
pub use crate::like::LikeEscape;
use crate::like::push_like_escaped;
use crate::search::find_byte;
use std::alloc::Global;
use std::borrow::CowStr;

/// A value that has a text. Implement it for types of your own.
pub trait ToText: Drop {
    /// The text, as its bytes.
    ghost text: { Self → List ℕ };

    /// Returns the text. Fails only if memory runs out.
    /// `25.to_text(alloc)?` gives `25`
    fn to_text(&self, alloc: Global) -> Result<String, SqlBuilderError>
        ensures text { IfOk result (λ s. string_bytes s ≡ text self.now) }
        ensures memory { FailsOnlyByMemory result };

    /// Returns the text, borrowed if the value has it, and else made. Fails only if memory runs
    /// out.
    /// `"it's".as_text(alloc)?` gives `it's`
    fn as_text(&self, alloc: Global) -> Result<CowStr<'_>, SqlBuilderError>
        ensures text { IfOk result (λ s. cow_str_bytes s ≡ text self.now) }
        ensures memory { FailsOnlyByMemory result }
    {
        Ok(CowStr::Owned(self.to_text(alloc)?))
    }

    /// Appends the text to another. Fails only if memory runs out, and then leaves `out` unchanged.
    /// ```
    /// let mut text = String::from_str(alloc, "price = ")?;
    /// 25.push_text(alloc, &mut text)?;
    /// text; // price = 25
    /// ```
    fn push_text(&self, alloc: Global, out: &mut String) -> Result<(), SqlBuilderError>
        ensures text { OnOk result (string_bytes out.new ≡ string_bytes out.old ++ text self.now) }
        ensures kept { OnErr result (string_bytes out.new ≡ string_bytes out.old) }
        ensures memory { FailsOnlyByMemory result }
    {
        let text = self.as_text(alloc)?;
        Ok(out.push_str(text.as_str())?)
    }
}

/// Texts that are taken one after another, so that a list of them need not be made. For the crates
/// here alone.
pub trait Texts<'a>: Drop {
    /// The type that has one of the texts.
    type Text: ToText;

    /// The texts that are left.
    ghost left: { Self → List (List ℕ) };

    /// Takes the next text, if one is left. Never fails.
    /// `Items { items: &["a"] }.next_text().copied()` gives `Some(a)`
    fn next_text(&mut self) -> Option<Self::Text>
        ensures next { MatchOption result
            ((left self.old ≡ []) × (left self.new ≡ []))
            (λ text. left self.old ≡ Self.Text.text text ∷ left self.new) };
}

/// The texts of a slice. For the crates here alone.
#[derive(Drop)]
pub struct Items<'a, S> {
    /// What is left of the slice.
    pub items: &'a [S],
}

impl<'a, S: ToText> Texts<'a> for Items<'a, S> {
    type Text = &'a S;

    ghost left = { λ it. map S.text it.items.now };

    fn next_text(&mut self) -> Option<&'a S> {
        let (first, further) = self.items.split_first()?;
        self.items = further;
        Some(first)
    }
}

/// Returns the text of each item. Fails only if memory runs out. For the crates here alone.
/// `copies(alloc, &[1, 2])?` gives `[1, 2]`
pub fn copies<S: ToText>(alloc: Global, items: &[S]) -> Result<Vec<String>, SqlBuilderError>
    ensures copied { IfOk result (λ copied. texts copied.items ≡ map S.text items.now) }
    ensures memory { FailsOnlyByMemory result }
{
    let mut copied = Vec::with_capacity(alloc, items.len())?;
    for item in items {
        copied.push(item.to_text(alloc)?)?;
    }
    Ok(copied)
}

/// Returns a copy of the text, if there is one. Fails only if memory runs out. For the crates here
/// alone.
/// `copy(alloc, &Some(String::from_str(alloc, "a")?))?` gives `Some(a)`
pub fn copy(alloc: Global, text: &Option<String>) -> Result<Option<String>, SqlBuilderError>
    ensures copied { IfOk result (λ copied. optional_text copied ≡ optional_text text.now) }
    ensures memory { FailsOnlyByMemory result }
{
    match text {
        Some(text) => Ok(Some(text.to_text(alloc)?)),
        None => Ok(None),
    }
}

/// Returns whether the text has a zero byte. Programs that read statements from their input, as
/// `sqlite3` and `psql` do, drop what is behind one on its line. They then drop the quote that
/// closes a literal. Never fails.
/// `has_zero("x\0")` gives `true`
#[tactic(auto, using(crate::proofs::bytes::ByteFacts::found_byte))]
pub fn has_zero(text: &str) -> bool
    ensures { result ≡ has_byte 0 text.now }
{
    find_byte(text.as_bytes(), 0).is_some()
}

// Room for so many characters that are escaped is taken at once, and for wildcards behind them.
const SOME_ESCAPES: usize = 8;

/// Returns the text with the escape character before each `%`, each `_` and each escape character.
/// As a mask of LIKE it matches this text alone, if ESCAPE names the character.
///
/// With `%` behind it the mask matches what begins with the text, and with `%` in front what ends
/// with it. With `%` on both sides it matches what contains it. A quote is left as it is, for the
/// call that quotes or binds the mask. Fails only if memory runs out.
/// `escape_like(alloc, "50%", LikeEscape::Exclamation)?` gives `50!%`
pub fn escape_like<S: ToText>(
    alloc: Global,
    text: S,
    escape: LikeEscape,
) -> Result<String, SqlBuilderError>
    ensures text { IfOk result (λ s. string_bytes s
        ≡ like_escaped (escape_character escape) (S.text text)) }
    ensures memory { FailsOnlyByMemory result }
{
    let text = text.as_text(alloc)?;
    let text = text.as_str();
    let mut out = String::with_capacity(alloc, text.len().saturating_add(SOME_ESCAPES))?;
    push_like_escaped(&mut out, text, escape)?;
    Ok(out)
}

impl ToText for &str {
    ghost text = { λ s. s.now };

    fn to_text(&self, alloc: Global) -> Result<String, SqlBuilderError> {
        Ok(String::from_str(alloc, self)?)
    }

    fn as_text(&self, _alloc: Global) -> Result<CowStr<'_>, SqlBuilderError> {
        Ok(CowStr::Borrowed(self))
    }
}

impl ToText for String {
    ghost text = { λ s. string_bytes s };

    fn to_text(&self, alloc: Global) -> Result<String, SqlBuilderError> {
        Ok(String::from_str(alloc, self.as_str())?)
    }

    fn as_text(&self, _alloc: Global) -> Result<CowStr<'_>, SqlBuilderError> {
        Ok(CowStr::Borrowed(self.as_str()))
    }
}

impl ToText for CowStr<'_> {
    ghost text = { λ s. cow_str_bytes s };

    fn to_text(&self, alloc: Global) -> Result<String, SqlBuilderError> {
        Ok(String::from_str(alloc, self.as_str())?)
    }

    fn as_text(&self, _alloc: Global) -> Result<CowStr<'_>, SqlBuilderError> {
        Ok(CowStr::Borrowed(self.as_str()))
    }
}

fn bool_word(value: bool) -> &'static str
    ensures { result.now ≡ bool_text value }
{
    if value { "true" } else { "false" }
}

impl ToText for bool {
    ghost text = { bool_text };

    fn to_text(&self, alloc: Global) -> Result<String, SqlBuilderError> {
        Ok(String::from_str(alloc, bool_word(*self))?)
    }

    fn as_text(&self, _alloc: Global) -> Result<CowStr<'_>, SqlBuilderError> {
        Ok(CowStr::Borrowed(bool_word(*self)))
    }
}

impl ToText for char {
    ghost text = { encode_utf8 };

    fn to_text(&self, alloc: Global) -> Result<String, SqlBuilderError> {
        Ok(self.to_string(alloc)?)
    }
}

impl ToText for u8 {
    ghost text = { decimal_text };

    fn to_text(&self, alloc: Global) -> Result<String, SqlBuilderError> {
        Ok(unsigned_text(alloc, u128::from(*self))?)
    }

    fn push_text(&self, _alloc: Global, out: &mut String) -> Result<(), SqlBuilderError> {
        Ok(push_unsigned(out, u128::from(*self))?)
    }
}

impl ToText for u16 {
    ghost text = { decimal_text };

    fn to_text(&self, alloc: Global) -> Result<String, SqlBuilderError> {
        Ok(unsigned_text(alloc, u128::from(*self))?)
    }

    fn push_text(&self, _alloc: Global, out: &mut String) -> Result<(), SqlBuilderError> {
        Ok(push_unsigned(out, u128::from(*self))?)
    }
}

impl ToText for u32 {
    ghost text = { decimal_text };

    fn to_text(&self, alloc: Global) -> Result<String, SqlBuilderError> {
        Ok(unsigned_text(alloc, u128::from(*self))?)
    }

    fn push_text(&self, _alloc: Global, out: &mut String) -> Result<(), SqlBuilderError> {
        Ok(push_unsigned(out, u128::from(*self))?)
    }
}

impl ToText for u64 {
    ghost text = { decimal_text };

    fn to_text(&self, alloc: Global) -> Result<String, SqlBuilderError> {
        Ok(unsigned_text(alloc, u128::from(*self))?)
    }

    fn push_text(&self, _alloc: Global, out: &mut String) -> Result<(), SqlBuilderError> {
        Ok(push_unsigned(out, u128::from(*self))?)
    }
}

impl ToText for u128 {
    ghost text = { decimal_text };

    fn to_text(&self, alloc: Global) -> Result<String, SqlBuilderError> {
        Ok(unsigned_text(alloc, *self)?)
    }

    fn push_text(&self, _alloc: Global, out: &mut String) -> Result<(), SqlBuilderError> {
        Ok(push_unsigned(out, *self)?)
    }
}

impl ToText for usize {
    ghost text = { decimal_text };

    fn to_text(&self, alloc: Global) -> Result<String, SqlBuilderError> {
        Ok(unsigned_text(alloc, *self as u128)?)
    }

    fn push_text(&self, _alloc: Global, out: &mut String) -> Result<(), SqlBuilderError> {
        Ok(push_unsigned(out, *self as u128)?)
    }
}

impl ToText for i8 {
    ghost text = { number_text };

    fn to_text(&self, alloc: Global) -> Result<String, SqlBuilderError> {
        Ok(signed_text(alloc, i128::from(*self))?)
    }

    fn push_text(&self, _alloc: Global, out: &mut String) -> Result<(), SqlBuilderError> {
        Ok(push_signed(out, i128::from(*self))?)
    }
}

impl ToText for i16 {
    ghost text = { number_text };

    fn to_text(&self, alloc: Global) -> Result<String, SqlBuilderError> {
        Ok(signed_text(alloc, i128::from(*self))?)
    }

    fn push_text(&self, _alloc: Global, out: &mut String) -> Result<(), SqlBuilderError> {
        Ok(push_signed(out, i128::from(*self))?)
    }
}

impl ToText for i32 {
    ghost text = { number_text };

    fn to_text(&self, alloc: Global) -> Result<String, SqlBuilderError> {
        Ok(signed_text(alloc, i128::from(*self))?)
    }

    fn push_text(&self, _alloc: Global, out: &mut String) -> Result<(), SqlBuilderError> {
        Ok(push_signed(out, i128::from(*self))?)
    }
}

impl ToText for i64 {
    ghost text = { number_text };

    fn to_text(&self, alloc: Global) -> Result<String, SqlBuilderError> {
        Ok(signed_text(alloc, i128::from(*self))?)
    }

    fn push_text(&self, _alloc: Global, out: &mut String) -> Result<(), SqlBuilderError> {
        Ok(push_signed(out, i128::from(*self))?)
    }
}

impl ToText for i128 {
    ghost text = { number_text };

    fn to_text(&self, alloc: Global) -> Result<String, SqlBuilderError> {
        Ok(signed_text(alloc, *self)?)
    }

    fn push_text(&self, _alloc: Global, out: &mut String) -> Result<(), SqlBuilderError> {
        Ok(push_signed(out, *self)?)
    }
}

impl ToText for isize {
    ghost text = { number_text };

    fn to_text(&self, alloc: Global) -> Result<String, SqlBuilderError> {
        Ok(signed_text(alloc, *self as i128)?)
    }

    fn push_text(&self, _alloc: Global, out: &mut String) -> Result<(), SqlBuilderError> {
        Ok(push_signed(out, *self as i128)?)
    }
}

impl<T: ToText> ToText for &T {
    ghost text = { λ x. T.text x.now };

    fn to_text(&self, alloc: Global) -> Result<String, SqlBuilderError> {
        (**self).to_text(alloc)
    }

    fn as_text(&self, alloc: Global) -> Result<CowStr<'_>, SqlBuilderError> {
        (**self).as_text(alloc)
    }

    #[inline(always)]
    fn push_text(&self, alloc: Global, out: &mut String) -> Result<(), SqlBuilderError> {
        (**self).push_text(alloc, out)
    }
}

//! Values by their order in a statement's text, for databases whose placeholders have no numbers.
ghost use Rattle.std.specs.Prelude.{◌≡◌, ◌++◌, IfErr, IfOk, IfSome, MatchResult, None, OnOk, Some, length, map, string_bytes};
ghost use Rattle.sql_parts.specs.{IsMark, error_of, first_error, marks, positional_text};
ghost use Rattle.sql_parts.specs.Positional as positional;
ghost use Rattle.sql_parts.specs.Positional.{IsMemory, message_text, value_of};

use crate::marks::{Mark, first_mark};
use crate::parameter::{Parameters, Style};
use std::alloc::{AllocError, AllocFailed, Global};
use std::error::Error;
use std::fmt;

/// A text whose values go by their order. The values are borrowed, so a number that occurs twice
/// copies none.
#[derive(Drop)]
pub struct Positional<'a, V> {
    /// The text, with a `?` in place of each placeholder.
    pub text: String,
    /// The values in the order of the placeholders.
    pub values: Vec<&'a V>,
}

/// The reason why a text has no values by their order.
#[derive(Debug, Drop)]
pub enum PositionalError {
    /// A placeholder has this number, and no value does.
    NoValue(usize),
    /// A `?` has no number: a driver would take a value for it.
    NoNumber,
    /// Memory ran out.
    Memory(AllocError),
}

impl PositionalError {
    /// Returns the error's message, which Display prints too. Never fails.
    /// `PositionalError::NoNumber.message()` gives `A ? without a number`
    pub fn message(&self) -> &'static str
        ensures text { result.now ≡ message_text self.now }
    {
        match self {
            PositionalError::NoValue(_) => "No value for a placeholder",
            PositionalError::NoNumber => "A ? without a number",
            PositionalError::Memory(_) => "Out of memory",
        }
    }
}

impl fmt::Display for PositionalError {
    ghost use Rattle.std.specs.Prelude.{Some};
    ghost use Rattle.sql_parts.specs.Positional.{message_text};

    ghost output = { λ e. Some (message_text e) };

    ghost styled_output = { λ e _. Some (message_text e) };

    fn fmt<W: fmt::Write>(&self, f: &mut fmt::Formatter<W>) -> fmt::Result {
        f.write_str(self.message())
    }
}

impl Error for PositionalError {}

impl From<AllocError> for PositionalError {
    ghost use Rattle.std.specs.Prelude.{◌≡◌};
    ghost use Rattle.sql_parts.specs.declared.positional.PositionalError.TheVariants.{Memory};

    ghost from_gives = { λ failed error. error ≡ Memory failed };

    fn from(error: AllocError) -> PositionalError {
        PositionalError::Memory(error)
    }
}

impl<T: Drop> From<AllocFailed<T>> for PositionalError {
    ghost use Rattle.std.specs.Prelude.{◌≡◌, alloc_error};
    ghost use Rattle.sql_parts.specs.declared.positional.PositionalError.TheVariants.{Memory};

    ghost from_gives = { λ _ error. error ≡ Memory alloc_error };

    fn from(_: AllocFailed<T>) -> PositionalError {
        PositionalError::Memory(AllocError)
    }
}

// The value of a mark, or why it has none.
#[inline(always)]
fn value_of<V>(values: &[V], mark: Mark) -> Result<&V, PositionalError>
    ensures { (defined : positional.Mark) → IsMark mark defined → MatchResult result
        (λ value. value_of values.now defined ≡ Some value.now)
        (λ error. (value_of values.now defined ≡ None) × (error ≡ error_of defined)) }
{
    match mark {
        Mark::Bare => Err(PositionalError::NoNumber),
        Mark::Numbered(None) => Err(PositionalError::NoValue(usize::MAX)),
        Mark::Numbered(Some(0)) => Err(PositionalError::NoValue(0)),
        Mark::Numbered(Some(number)) => match values.get(number - 1) {
            Some(value) => Ok(value),
            None => Err(PositionalError::NoValue(number)),
        },
    }
}

// How many marks the text has, each with a value.
fn count_marks<V>(style: Style, values: &[V], sql: &str) -> Result<usize, PositionalError>
    ensures { MatchResult result (λ count. (first_error values.now (marks style sql.now) ≡ None) × (count ≡ length (marks style sql.now)))
        (λ error. first_error values.now (marks style sql.now) ≡ Some error) }
{
    let mut count = 0;
    let mut rest = sql;
    while let Some(found) = first_mark(style, rest) {
        value_of(values, found.mark)?;
        count += 1;
        rest = found.rest;
    }
    Ok(count)
}

impl<'a, V> Positional<'a, V> {
    // Appends the text with a `?` in place of each mark, and the values of these.
    fn push_marked(
        &mut self,
        style: Style,
        values: &'a [V],
        sql: &str,
    ) -> Result<(), PositionalError>
        ensures text { OnOk result (string_bytes self.new.text ≡ string_bytes self.old.text ++ positional_text style sql.now) }
        ensures values { OnOk result (map (λ value. Some value.now) self.new.values.items
            ≡ map (λ value. Some value.now) self.old.values.items ++ map (value_of values.now) (marks style sql.now)) }
        ensures memory { first_error values.now (marks style sql.now) ≡ None → IfErr result IsMemory }
    {
        let mut rest = sql;
        while let Some(found) = first_mark(style, rest) {
            self.text.push_str(found.segment)?;
            self.text.push('?')?;
            self.values.push(value_of(values, found.mark)?)?;
            rest = found.rest;
        }
        Ok(self.text.push_str(rest)?)
    }
}

impl<V: Drop> Parameters<V> {
    /// Returns the text with a `?` in place of each numbered placeholder, and the values in the
    /// order of these. MySQL, MariaDB and ODBC take them this way. The calls numbered the
    /// placeholders, and a clause may be printed before one that was set earlier. A number that
    /// occurs twice has its value twice.
    ///
    /// A placeholder is the style's `?` or `$` with digits at once behind it. It is outside of
    /// strings, quoted names and comments, by the rules of tokens. By these a backslash escapes
    /// nothing, `$$` begins no string, `#` and `/*!` mean nothing special, and `[1]` is a name. A
    /// name goes on over letters, digits, `_` and `$`, and a `$` with no digit behind it begins
    /// one. So neither `a$1` nor `$$1` has a placeholder. With `Style::Question` a `$1` is no
    /// placeholder, and with `Style::Dollar` a `?1` is a `?` without a number. All other bytes stay
    /// as they are.
    ///
    /// Fails with `NoValue` if no value has a number, and with `NoNumber` if a `?` has none, such
    /// as PostgreSQL's operator `?`. The first of these in the text is returned, before any memory
    /// is asked for. Otherwise it fails only if memory runs out. Its time is linear in the text.
    /// `Parameters { style: Style::Dollar, values: vec![in alloc; 7, 8]? }.positional(alloc, "a = $2 OR b = $1").map(|it| it.text)` gives
    /// `a = ? OR b = ?`
    pub fn positional(&self, alloc: Global, sql: &str) -> Result<Positional<'_, V>, PositionalError>
        ensures text { IfOk result (λ positional. string_bytes positional.text ≡ positional_text self.now.style sql.now) }
        ensures values { IfOk result (λ positional. map (λ value. Some value.now) positional.values.items
            ≡ map (value_of self.now.values.items) (marks self.now.style sql.now)) }
        ensures refused { IfSome (first_error self.now.values.items (marks self.now.style sql.now)) (λ error. result ≡ Err error) }
        ensures memory { first_error self.now.values.items (marks self.now.style sql.now) ≡ None → IfErr result IsMemory }
    {
        let values = self.values.as_slice();
        let count = count_marks(self.style, values, sql)?;
        let mut positional = Positional {
            text: String::with_capacity(alloc, sql.len())?,
            values: Vec::with_capacity(alloc, count)?,
        };
        positional.push_marked(self.style, values, sql)?;
        Ok(positional)
    }
}

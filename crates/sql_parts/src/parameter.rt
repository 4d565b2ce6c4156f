//! Values beside a statement: its text has a placeholder for each of them, and no byte of theirs.
ghost use Rattle.std.specs.Prelude.{◌≡◌, ◌<◌, ◌++◌, suc, [], ◌∷◌, length, vec_capacity, vec_len, IfOk, IsOk, OnErr, OnOk};
ghost use Rattle.sql_parts.specs.{FailsOnlyByMemory, placeholder_text, placeholders_behind, prefix};

use crate::decimal::{prefixed_text, push_prefixed};
use crate::error::SqlBuilderError;
use crate::text::ToText;
use std::alloc::Global;

/// The style in which a database writes placeholders.
#[derive(Clone, Copy, Debug, PartialEq, Eq)]
pub enum Style {
    /// `?1`, for SQLite.
    Question,
    /// `$1`, for PostgreSQL.
    Dollar,
}

/// The placeholder of a value, which `Parameters` returns.
#[derive(Clone, Copy, Debug, PartialEq, Eq)]
pub struct Placeholder {
    /// How it is written.
    pub style: Style,
    /// The number of the value: the first one has 1.
    pub number: usize,
}

/// The values of a statement, in the order of their numbers. A value is of the type that the
/// database's driver takes. Use one list for all parts of a statement, inner queries too: two lists
/// have the same numbers.
#[derive(Drop)]
pub struct Parameters<V: Drop> {
    /// How their placeholders are written: set it once.
    pub style: Style,
    /// The values: the first one has the number 1. If there are many, reserve room for them here.
    pub values: Vec<V>,
}

/// How much room is asked for at the least, so that most statements allocate once.
const FIRST_ROOM: usize = 8;

pub(crate) fn prefix_of(style: Style) -> u8
    ensures { result ≡ prefix style }
{
    match style {
        Style::Question => b'?',
        Style::Dollar => b'$',
    }
}

impl ToText for Placeholder {
    ghost text = { λ placeholder. placeholder_text placeholder.style placeholder.number };

    fn to_text(&self, alloc: Global) -> Result<String, SqlBuilderError> {
        let Placeholder { style, number } = *self;
        Ok(prefixed_text(alloc, prefix_of(style), number as u64)?)
    }

    #[inline(always)]
    fn push_text(&self, _alloc: Global, out: &mut String) -> Result<(), SqlBuilderError> {
        let Placeholder { style, number } = *self;
        Ok(push_prefixed(out, prefix_of(style), number as u64)?)
    }
}

// Room for more values, apart from `bind`, which callers inline.
#[inline(never)]
fn grow<V: Drop>(values: &mut Vec<V>) -> Result<(), SqlBuilderError>
    ensures same { values.new.items ≡ values.old.items }
    ensures room { IsOk result → vec_len values.new < vec_capacity values.new }
    ensures memory { FailsOnlyByMemory result }
{
    Ok(values.reserve(FIRST_ROOM)?)
}

impl<V: Drop> Parameters<V> {
    /// Returns a list without values. Never fails.
    /// `Parameters::<i64>::new(alloc, Style::Dollar).values.len()` gives `0`
    pub fn new(alloc: Global, style: Style) -> Parameters<V>
        ensures values { result.values.items ≡ [] }
        ensures style { result.style ≡ style }
    {
        Parameters {
            style,
            values: Vec::new(alloc),
        }
    }

    /// Adds a value behind the others, and returns its placeholder. Fails only if memory runs out,
    /// and then leaves the values unchanged. Never fails while `values` has room.
    /// `Parameters::new(alloc, Style::Dollar).bind("it's")?.to_text(alloc)?` gives `$1`
    #[inline(always)]
    pub fn bind(&mut self, value: V) -> Result<Placeholder, SqlBuilderError>
        ensures placeholder { IfOk result (λ placeholder. placeholder
            ≡ record { style = self.old.style; number = suc (length self.old.values.items) }) }
        ensures values { OnOk result (self.new.values.items ≡ self.old.values.items ++ value ∷ []) }
        ensures kept { OnErr result (self.new.values.items ≡ self.old.values.items) }
        ensures style { self.new.style ≡ self.old.style }
        ensures room { vec_len self.old.values < vec_capacity self.old.values → IsOk result }
        ensures memory { FailsOnlyByMemory result }
    {
        if self.values.len() == self.values.capacity() {
            grow(&mut self.values)?;
        }
        self.values.push_reserved(value);
        Ok(Placeholder {
            style: self.style,
            number: self.values.len(),
        })
    }

    /// Drops the values and keeps their memory. The next values take their numbers: a statement is
    /// printed once, and run with each list of values. Never fails.
    /// ```
    /// let mut values = Parameters::new(alloc, Style::Dollar);
    /// values.bind(7)?;
    /// values.clear();
    /// values.bind(8)?.to_text(alloc)?; // $1
    /// ```
    pub fn clear(&mut self)
        ensures values { self.new.values.items ≡ [] }
        ensures style { self.new.style ≡ self.old.style }
        ensures capacity { vec_capacity self.new.values ≡ vec_capacity self.old.values }
    {
        self.values.clear();
    }
}

impl<V: Copy + Drop> Parameters<V> {
    /// Adds each of the values, as `bind` does, and returns their placeholders, as an IN takes
    /// them. Fails only if memory runs out, and then leaves the values unchanged.
    /// `Parameters::new(alloc, Style::Dollar).bind_all(alloc, &[7, 9])?[1].to_text(alloc)?` gives
    /// `$2`
    pub fn bind_all(
        &mut self,
        alloc: Global,
        given: &[V],
    ) -> Result<Vec<Placeholder>, SqlBuilderError>
        ensures placeholders { IfOk result (λ places. places.items
            ≡ placeholders_behind self.old.style (length self.old.values.items) given.now) }
        ensures values { OnOk result (self.new.values.items ≡ self.old.values.items ++ given.now) }
        ensures kept { OnErr result (self.new.values.items ≡ self.old.values.items) }
        ensures style { self.new.style ≡ self.old.style }
        ensures memory { FailsOnlyByMemory result }
    {
        let mut places = Vec::with_capacity(alloc, given.len())?;
        self.values.reserve(given.len())?;
        for value in given {
            self.values.push_reserved(*value);
            let (style, number) = (self.style, self.values.len());
            places.push_reserved(Placeholder { style, number });
        }
        Ok(places)
    }
}

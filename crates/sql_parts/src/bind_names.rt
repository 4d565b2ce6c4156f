//! Names that are bound to values.
ghost use Rattle.std.specs.Prelude.{◌≡◌, ◌<◌, ◌++◌, ℕ, List, Option, IfOk, OnErr, OnOk, length, option_copied, option_map, string_bytes, unwrap_or, ⊤};
ghost use Rattle.std.specs.BTreeMap.{IsFromIterResult};
ghost use Rattle.std.specs.Borrow.{Bor};
ghost use Rattle.std.specs.Cmp.Lexicographic.{slice_cmp};
ghost use Rattle.std.specs.HashMap.{get_by};
ghost use Rattle.std.specs.Map.{lookup};
ghost use Rattle.std.specs.Ordering.{nat_cmp};
ghost use Rattle.std.specs.Str.{bytes_eq};
ghost use Rattle.sql_parts.specs.{FailsOnlyByMemory, LiteralValue, literal_text, null, ArePlaces, last_value};

use crate::arg::SqlArg;
use crate::error::SqlBuilderError;
use std::alloc::{AllocError, Global};
use std::collections::{BTreeMap, HashMap};

/// Names that are bound to literals: a map, or pairs of which the last one with a name counts.
///
/// Pairs are found in n log n, whatever their names are. The time of a map is the map's own. The
/// map of std has a fixed seed, so names from users can collide in it: pairs are safer.
pub trait BindNames {
    /// The literal of each name that has one.
    ghost literals: { Self → List ℕ → Option LiteralValue };

    /// Whether these are the places of the names in a list.
    ghost are_places: { Self → List (Bor (List ℕ) × ℕ) → Type 0 } = { λ _ _. ⊤ };

    /// Returns the literal of the name as SQL writes it, if it has one. Fails only if memory runs
    /// out.
    /// `{ let mut names: Vec<(&str, Box<dyn SqlArg>)> = Vec::new(alloc); names.push(("a", Box::new(alloc, 1)?))?; names }.look_up(alloc, "a")?` gives
    /// `Some(1)`
    fn look_up(&self, alloc: Global, name: &str) -> Result<Option<String>, SqlBuilderError>
        ensures literal { IfOk result (λ text. option_map string_bytes text
            ≡ option_map literal_text (literals self.now name.now)) }
        ensures memory { FailsOnlyByMemory result };

    /// Returns the places of the names in a list, by which `push_named` finds them in a longer
    /// text. Returns none if the names are found as fast without them. Fails only if memory runs
    /// out.
    /// `{ let mut names: Vec<(&str, Box<dyn SqlArg>)> = Vec::new(alloc); names.push(("a", Box::new(alloc, 1)?))?; names }.places(alloc)?.len()` gives
    /// `0`
    fn places(&self, alloc: Global) -> Result<BTreeMap<&str, usize>, SqlBuilderError>
        ensures places { IfOk result (λ places. 0 < length places.entries
            → are_places self.now places.entries) }
        ensures memory { FailsOnlyByMemory result }
    {
        Ok(BTreeMap::new(alloc))
    }

    /// Appends the literal of the name, or NULL if it has none. The places are those that `places`
    /// returned, or none. Fails only if memory runs out, and then leaves `out` unchanged.
    /// ```
    /// let mut text = String::new(alloc);
    /// { let mut names: Vec<(&str, Box<dyn SqlArg>)> = Vec::new(alloc); names.push(("a", Box::new(alloc, 1)?))?; names }.push_named(alloc, &{ let mut names: Vec<(&str, Box<dyn SqlArg>)> = Vec::new(alloc); names.push(("a", Box::new(alloc, 1)?))?; names }.places(alloc)?, "a", &mut text)?;
    /// text; // 1
    /// ```
    fn push_named(
        &self,
        alloc: Global,
        places: &BTreeMap<&str, usize>,
        name: &str,
        out: &mut String,
    ) -> Result<(), SqlBuilderError>
        requires places { 0 < length places.now.entries
            → are_places self.now places.now.entries }
        ensures literal { OnOk result (string_bytes out.new ≡ string_bytes out.old
            ++ literal_text (unwrap_or (literals self.now name.now) null)) }
        ensures kept { OnErr result (string_bytes out.new ≡ string_bytes out.old) }
        ensures memory { FailsOnlyByMemory result }
    {
        let _ = places;
        let text = self.look_up(alloc, name)?;
        let text = match &text {
            None => "NULL",
            Some(text) => text.as_str(),
        };
        Ok(out.push_str(text)?)
    }
}

/// From how many pairs on their places are stored.
const LONG: usize = 16;

// The literal in a box, where there is one.
fn found_text(
    alloc: Global,
    found: Option<&Box<dyn SqlArg>>,
) -> Result<Option<String>, SqlBuilderError>
    ensures literal { IfOk result (λ text. option_map string_bytes text
        ≡ option_map literal_text (option_map (λ b. literal b) (option_copied found.entry))) }
    ensures memory { FailsOnlyByMemory result }
{
    match found {
        None => Ok(None),
        Some(arg) => Ok(Some(arg.sql_arg(alloc)?)),
    }
}

// Appends the literal in a box, or NULL.
pub(crate) fn push_found(
    alloc: Global,
    found: Option<&Box<dyn SqlArg>>,
    out: &mut String,
) -> Result<(), SqlBuilderError>
    ensures literal { OnOk result (string_bytes out.new ≡ string_bytes out.old
        ++ literal_text (unwrap_or (option_map (λ b. literal b) (option_copied found.entry)) null)) }
    ensures kept { OnErr result (string_bytes out.new ≡ string_bytes out.old) }
    ensures memory { FailsOnlyByMemory result }
{
    match found {
        None => Ok(out.push_str("NULL")?),
        Some(arg) => arg.push_sql_arg(alloc, out),
    }
}

// The value of the last pair with the name.
fn last_value<'a, V>(pairs: &'a [(&str, V)], name: &str) -> Option<&'a V>
    ensures { option_copied result ≡ last_value name.now pairs.now }
{
    let (_, value) = pairs.iter().rev().find(|pair| name == pair.0)?;
    Some(value)
}

// A map of the last place of each name, which is sorted once, in place of a search for each.
fn sorted<'a>(
    alloc: Global,
    places: Vec<(&'a str, usize)>,
) -> Result<BTreeMap<&'a str, usize>, AllocError>
    ensures { IfOk result (IsFromIterResult (λ one other. slice_cmp nat_cmp one.now other.now) places.entry.items) }
{
    places.into_iter().collect(alloc)
}

// The place of the last pair with each name, where there are many pairs.
fn places_of<'a, V>(
    alloc: Global,
    pairs: &'a [(&'a str, V)],
) -> Result<BTreeMap<&'a str, usize>, SqlBuilderError>
    ensures places { IfOk result (λ places. 0 < length places.entries
        → ArePlaces pairs.now places.entries) }
    ensures memory { FailsOnlyByMemory result }
{
    if pairs.len() < LONG {
        return Ok(BTreeMap::new(alloc));
    }
    let mut places = Vec::with_capacity(alloc, pairs.len())?;
    for (place, (name, _)) in pairs.iter().enumerate() {
        places.push((*name, place))?;
    }
    Ok(sorted(alloc, places)?)
}

// The place of the name.
fn place_of(places: &BTreeMap<&str, usize>, name: &str) -> Option<usize>
    ensures { result ≡ lookup (λ key. bytes_eq name.now key.now) places.now.entries }
{
    places.get(name).copied()
}

// The value of the last pair with the name, by their places.
fn value_by<'a, V>(
    pairs: &'a [(&str, V)],
    places: &BTreeMap<&str, usize>,
    name: &str,
) -> Option<&'a V>
    requires places { 0 < length places.now.entries → ArePlaces pairs.now places.now.entries }
    ensures { option_copied result ≡ last_value name.now pairs.now }
{
    if places.is_empty() {
        return last_value(pairs, name);
    }
    let place = place_of(places, name)?;
    let (_, value) = pairs.get(place)?;
    Some(value)
}

// The slice behind a reference, which the borrow checker copies only where its items are of a type
// parameter.
fn whole<'a, T>(slice: &&'a [T]) -> &'a [T]
    ensures { result.now ≡ slice.now.now }
{
    *slice
}

impl BindNames for HashMap<&str, Box<dyn SqlArg>> {
    ghost literals = { λ map name. option_map (λ b. (SqlArg-box b).literal b.value)
        (get_by (λ key. bytes_eq name key.now) map) };

    fn look_up(&self, alloc: Global, name: &str) -> Result<Option<String>, SqlBuilderError> {
        found_text(alloc, self.get(name))
    }

    fn push_named(
        &self,
        alloc: Global,
        _places: &BTreeMap<&str, usize>,
        name: &str,
        out: &mut String,
    ) -> Result<(), SqlBuilderError> {
        push_found(alloc, self.get(name), out)
    }
}

impl BindNames for Vec<(&str, Box<dyn SqlArg>)> {
    ghost literals = { λ pairs name. option_map (λ b. (SqlArg-box b).literal b.value)
        (last_value name pairs.items) };

    ghost are_places = { λ pairs places. ArePlaces pairs.items places };

    fn look_up(&self, alloc: Global, name: &str) -> Result<Option<String>, SqlBuilderError> {
        found_text(alloc, last_value(self.as_slice(), name))
    }

    fn places(&self, alloc: Global) -> Result<BTreeMap<&str, usize>, SqlBuilderError> {
        places_of(alloc, self.as_slice())
    }

    fn push_named(
        &self,
        alloc: Global,
        places: &BTreeMap<&str, usize>,
        name: &str,
        out: &mut String,
    ) -> Result<(), SqlBuilderError> {
        push_found(alloc, value_by(self.as_slice(), places, name), out)
    }
}

impl BindNames for &[(&str, Box<dyn SqlArg>)] {
    ghost literals = { λ pairs name. option_map (λ b. (SqlArg-box b).literal b.value)
        (last_value name pairs.now) };

    ghost are_places = { λ pairs places. ArePlaces pairs.now places };

    fn look_up(&self, alloc: Global, name: &str) -> Result<Option<String>, SqlBuilderError> {
        found_text(alloc, last_value(whole(self), name))
    }

    fn places(&self, alloc: Global) -> Result<BTreeMap<&str, usize>, SqlBuilderError> {
        places_of(alloc, whole(self))
    }

    fn push_named(
        &self,
        alloc: Global,
        places: &BTreeMap<&str, usize>,
        name: &str,
        out: &mut String,
    ) -> Result<(), SqlBuilderError> {
        push_found(alloc, value_by(whole(self), places, name), out)
    }
}

impl<N: BindNames> BindNames for &N {
    ghost literals = { λ names. N.literals names.now };

    ghost are_places = { λ names places. N.are_places names.now places };

    fn look_up(&self, alloc: Global, name: &str) -> Result<Option<String>, SqlBuilderError> {
        (**self).look_up(alloc, name)
    }

    fn places(&self, alloc: Global) -> Result<BTreeMap<&str, usize>, SqlBuilderError> {
        (**self).places(alloc)
    }

    fn push_named(
        &self,
        alloc: Global,
        places: &BTreeMap<&str, usize>,
        name: &str,
        out: &mut String,
    ) -> Result<(), SqlBuilderError> {
        (**self).push_named(alloc, places, name, out)
    }
}

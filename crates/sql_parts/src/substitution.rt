//! One pass over a template, which puts literals in place of its placeholders.
ghost use Rattle.std.specs.Prelude.{◌≡◌, ◌<◌, ◌++◌, ⊤, IfOk, None, OnOk, Some, if◌then◌else◌, length, map, string_bytes};
ghost use Rattle.sql_parts.specs.{FailsOnlyByMemory, LiteralValue, literal_text, marks_of, value_of, alone, listed, looked_up, resolve, resolved_from, written};
ghost use Rattle.sql_parts.specs.{HasBoundTokens, IsClosedIfApart, IsSupplied};
ghost use Rattle.sql_parts.specs.Templates as templates;

use crate::arg::SqlArg;
use crate::bind_names::{BindNames, push_found};
use crate::error::SqlBuilderError;
use crate::placeholders::{Content, Marks, Replacement, first_place, prefix};
use crate::search::Front;
use std::alloc::{AllocError, Global};
use std::collections::BTreeMap;

/// The literals of the values of a template.
pub(crate) trait Literals: Drop {
    /// The literal of each value.
    ghost literals: { Self → templates.Replacement → LiteralValue };

    /// That a text which is stored of a literal is its text.
    ghost is_kept: { Self → Type 0 } = { λ _. ⊤ };

    /// Appends the literal of a value. Fails only if memory runs out.
    fn push_literal(
        &self,
        alloc: Global,
        value: &Replacement<'_>,
        out: &mut String,
    ) -> Result<(), SqlBuilderError>
        requires kept { is_kept self.now }
        ensures text { OnOk result (string_bytes out.new
            ≡ string_bytes out.old ++ literal_text (literals self.now (value_of value.now))) }
        ensures memory { FailsOnlyByMemory result };
}

/// One argument, for a template with one value.
#[derive(Drop)]
pub(crate) struct Alone<A> {
    pub(crate) arg: A,
}

impl<A: SqlArg> Literals for Alone<A> {
    ghost literals = { λ single. alone (A.literal single.arg) };

    fn push_literal(
        &self,
        alloc: Global,
        _value: &Replacement<'_>,
        out: &mut String,
    ) -> Result<(), SqlBuilderError> {
        self.arg.push_sql_arg(alloc, out)
    }
}

/// One argument for every value, and its literal's text, which is made once for all of them.
#[derive(Drop)]
pub(crate) struct Repeated<A> {
    arg: A,
    text: String,
}

impl<A: SqlArg> Repeated<A> {
    /// Fails only if memory runs out.
    pub(crate) fn new(alloc: Global, arg: A) -> Result<Self, SqlBuilderError>
        ensures arg { IfOk result (λ repeated. repeated.arg ≡ arg) }
        ensures text { IfOk result (λ repeated.
            string_bytes repeated.text ≡ literal_text (A.literal arg)) }
        ensures memory { FailsOnlyByMemory result }
    {
        let text = arg.sql_arg(alloc)?;
        Ok(Repeated { arg, text })
    }
}

impl<A: SqlArg> Literals for Repeated<A> {
    ghost literals = { λ repeated. alone (A.literal repeated.arg) };

    ghost is_kept = { λ repeated.
        string_bytes repeated.text ≡ literal_text (A.literal repeated.arg) };

    fn push_literal(
        &self,
        _alloc: Global,
        _value: &Replacement<'_>,
        out: &mut String,
    ) -> Result<(), SqlBuilderError> {
        Ok(out.push_str(self.text.as_str())?)
    }
}

impl Literals for &[Box<dyn SqlArg>] {
    ghost literals = { λ args. listed (map (λ b. (SqlArg-box b).literal b.value) args.now) };

    fn push_literal(
        &self,
        alloc: Global,
        value: &Replacement<'_>,
        out: &mut String,
    ) -> Result<(), SqlBuilderError> {
        match value {
            Replacement::Argument(at) => push_found(alloc, self.get(*at), out),
            // `binds` and `bind_nums` look for no names: the definition is total.
            Replacement::Named(_) => Ok(out.push_str("NULL")?),
        }
    }
}

/// What names are bound to, and their places where these are stored.
#[derive(Drop)]
pub(crate) struct LookedUp<'a, N> {
    pub(crate) names: N,
    pub(crate) places: BTreeMap<&'a str, usize>,
}

impl<N: BindNames + Drop> Literals for LookedUp<'_, N> {
    ghost literals = { λ bound. looked_up (N.literals bound.names) };

    ghost is_kept = { λ bound. 0 < length bound.places.entries
        → N.are_places bound.names bound.places.entries };

    fn push_literal(
        &self,
        alloc: Global,
        value: &Replacement<'_>,
        out: &mut String,
    ) -> Result<(), SqlBuilderError> {
        match value {
            // `bind_names` looks for no numbers: the definition is total.
            Replacement::Argument(_) => Ok(out.push_str("NULL")?),
            Replacement::Named(name) => self.names.push_named(alloc, &self.places, name, out),
        }
    }
}

/// A template of so few bytes, or with so few colons, has few names, and finds them faster than their
/// places are stored.
const SHORT: usize = 64;

const FEW: usize = 32;

fn has_few_names(template: &str) -> bool {
    let mut rest = template;
    for _colon in 0..FEW {
        match rest.split_once(':') {
            Some((_, behind)) => rest = behind,
            None => return true,
        }
    }
    false
}

/// The places of the names, or none. Fails only if memory runs out.
pub(crate) fn places_for<'a, N: BindNames>(
    alloc: Global,
    template: &str,
    names: &'a N,
) -> Result<BTreeMap<&'a str, usize>, SqlBuilderError>
    ensures places { IfOk result (λ places. 0 < length places.entries
        → N.are_places names.now places.entries) }
    ensures memory { FailsOnlyByMemory result }
{
    if template.len() < SHORT || has_few_names(template) {
        return Ok(BTreeMap::new(alloc));
    }
    names.places(alloc)
}

/// Whether the template has a `?` and there is no argument to put there.
pub(crate) fn lacks_arguments(template: &str, count: usize) -> bool
    ensures { resolve template.now (templates.Cycle count)
        ≡ (if result then None else Some (resolved_from (templates.Cycle count) 0 0 template.now)) }
{
    count == 0 && template.contains("?")
}

// Appends the text before a place. Between placeholders that touch there is none.
#[inline(always)]
fn push_segment(out: &mut String, segment: &str) -> Result<(), AllocError>
    ensures { OnOk result (string_bytes out.new ≡ string_bytes out.old ++ segment.now) }
{
    if !segment.is_empty() {
        out.push_str(segment)?;
    }
    Ok(())
}

// Appends the template with literals in place of its placeholders. Each kind of place appends its
// segment, so that what a place is need not be stored till then.
#[inline(always)]
fn push_bound<L: Literals>(
    alloc: Global,
    out: &mut String,
    template: &str,
    marks: Marks<'_>,
    literals: &L,
) -> Result<(), SqlBuilderError>
    requires kept { L.is_kept literals.now }
    ensures text { OnOk result (string_bytes out.new ≡ string_bytes out.old
        ++ written (L.literals literals.now) (resolved_from (marks_of marks.entry) 0 0 template.now)) }
    ensures memory { FailsOnlyByMemory result }
{
    let prefix = prefix(alloc, marks)?;
    let prefix = prefix.as_str();
    let front = Front::of(prefix);
    let mut rest = template;
    let mut seen = 0;
    while let Some(found) = first_place(marks, prefix, front, seen, rest) {
        match found.content {
            Content::Prefix => {
                push_segment(out, found.segment)?;
                out.push_str(prefix)?;
            }
            Content::Writes(text) => {
                push_segment(out, found.segment)?;
                out.push_str(text)?;
            }
            Content::Holds(value) => {
                push_segment(out, found.segment)?;
                literals.push_literal(alloc, &value, out)?;
                seen += 1;
            }
        }
        rest = found.rest;
    }
    Ok(out.push_str(rest)?)
}

/// How many bytes most literals have at the most.
const LITERAL: usize = 32;

/// The template with literals in place of its placeholders. Fails only if memory runs out.
#[inline(always)]
#[tactic(auto, using(crate::proofs::templates::ApartFacts::has_bound_tokens, crate::proofs::templates::ApartFacts::is_closed_if_apart))]
pub(crate) fn bound_text<L: Literals>(
    alloc: Global,
    template: &str,
    marks: Marks<'_>,
    literals: &L,
) -> Result<String, SqlBuilderError>
    requires kept { L.is_kept literals.now }
    ensures text { IfOk result (λ s. string_bytes s
        ≡ written (L.literals literals.now) (resolved_from (marks_of marks.entry) 0 0 template.now)) }
    ensures tokens { IfOk result (λ s. IsSupplied template.now (marks_of marks.entry)
        → HasBoundTokens template.now (marks_of marks.entry) (L.literals literals.now)
        (string_bytes s)) }
    ensures closed { IfOk result (λ s. IsSupplied template.now (marks_of marks.entry)
        → IsClosedIfApart template.now (marks_of marks.entry) (string_bytes s)) }
    ensures memory { FailsOnlyByMemory result }
{
    let mut out = String::with_capacity(alloc, template.len().saturating_add(LITERAL))?;
    push_bound(alloc, &mut out, template, marks, literals)?;
    Ok(out)
}

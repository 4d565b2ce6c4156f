//! Conditions, and their texts.
ghost use Rattle.std.specs.Prelude.{◌≡◌, ◌++◌, codes, if◌then◌else◌, map, string_bytes, IfOk};
ghost use Rattle.sql_parts.specs.Error.{FailsOnlyByMemory};
ghost use Rattle.sql_builder.specs.Concat.{HasRoom, Writes};
ghost use Rattle.sql_builder.specs.Condition.{Between, Compare, InList, InQuery, InQuoted, IsNotNull, IsNull, Like, borrowed_view, condition_bytes, condition_view, has_trailing, has_leading, not_text, relation_text};

use crate::concat::{Part, concat, push_text};
use crate::phrases::{push_items, push_quoted_items};
use crate::text_list::FIRST_ROOM;
use sql_parts::text::{Items, Texts};
use sql_parts::{SqlBuilderError, ToText, push_escaped};
use std::alloc::{AllocError, Global};

/// The most bytes that LIKE takes beside its field and its mask.
const LIKE_ROOM: usize = 14;

/// The family that a condition's call belongs to.
#[derive(Clone, Copy)]
pub enum Family {
    /// The condition opens a group of its own.
    And,
    /// The condition joins the last group, or opens one if there is none.
    Or,
}

/// A comparison of two texts.
#[derive(Clone, Copy)]
pub enum Relation {
    /// Equal.
    Eq,
    /// Not equal.
    Ne,
    /// Greater than.
    Gt,
    /// Greater than or equal.
    Ge,
    /// Less than.
    Lt,
    /// Less than or equal.
    Le,
}

/// The places of the percent signs in a mask of LIKE.
#[derive(Clone, Copy)]
pub enum Percent {
    /// Nowhere.
    Plain,
    /// In front of the mask, so that the text matches it at its right end.
    Right,
    /// Behind the mask, so that the text matches it at its left end.
    Left,
    /// On both sides.
    Any,
}

/// A condition, of texts `S` and lists of them `L`. A truth value says whether it is the NOT form.
#[derive(Drop)]
pub enum Condition<S = String, L = Vec<String>> {
    /// A raw condition, which is printed unchanged.
    Raw(S),
    /// A field compared with a value.
    Compare(Relation, S, S),
    /// A field that is like a mask, which is quoted with its percent signs.
    Like(bool, Percent, S, S),
    /// A field that is NULL.
    IsNull(S),
    /// A field that is not NULL.
    IsNotNull(S),
    /// A field that is one of a list of values.
    InList(bool, S, L),
    /// A field that is one of a list of values, each of which is quoted.
    InQuoted(bool, S, L),
    /// A field that is one of what a query gives.
    InQuery(bool, S, S),
    /// A field between a least and a greatest value.
    Between(bool, S, S, S),
}

/// A condition whose texts are borrowed, and whose lists are taken text by text. For `sqlb` and
/// `sql_typed`.
pub type BorrowedCondition<'a, T> = Condition<&'a str, T>;

impl Relation {
    /// Returns the sign, between blanks. Never fails.
    /// `Relation::Ge.sign().trim()` gives `>=`
    pub fn sign(self) -> &'static str
        ensures { result.now ≡ relation_text self }
    {
        match self {
            Relation::Eq => " = ",
            Relation::Ne => " <> ",
            Relation::Gt => " > ",
            Relation::Ge => " >= ",
            Relation::Lt => " < ",
            Relation::Le => " <= ",
        }
    }
}

impl Percent {
    fn has_leading(self) -> bool
        ensures { result ≡ has_leading self }
    {
        matches!(self, Percent::Right | Percent::Any)
    }

    fn has_trailing(self) -> bool
        ensures { result ≡ has_trailing self }
    {
        matches!(self, Percent::Left | Percent::Any)
    }
}

impl Condition<String, Vec<String>> {
    /// The condition with its texts borrowed.
    pub(crate) fn borrowed(&self) -> BorrowedCondition<'_, Items<'_, String>>
        ensures { borrowed_view (λ values. map (λ s. string_bytes s) values.items.now) result ≡ condition_view self.now }
    {
        match self {
            Condition::Raw(condition) => Condition::Raw(condition),
            Condition::Compare(relation, field, value) => {
                Condition::Compare(*relation, field, value)
            }
            Condition::Like(negated, percent, field, mask) => {
                Condition::Like(*negated, *percent, field, mask)
            }
            Condition::IsNull(field) => Condition::IsNull(field),
            Condition::IsNotNull(field) => Condition::IsNotNull(field),
            Condition::InList(negated, field, values) => {
                Condition::InList(*negated, field, Items { items: values })
            }
            Condition::InQuoted(negated, field, values) => {
                Condition::InQuoted(*negated, field, Items { items: values })
            }
            Condition::InQuery(negated, field, query) => {
                Condition::InQuery(*negated, field, query)
            }
            Condition::Between(negated, field, least, greatest) => {
                Condition::Between(*negated, field, least, greatest)
            }
        }
    }
}

impl<'a, T: Texts<'a>> Condition<&'a str, T> {
    /// The condition's text. It is a part of its caller, where the condition need not be made first.
    #[inline(always)]
    pub(crate) fn text(self, alloc: Global) -> Result<String, SqlBuilderError>
        ensures made { IfOk result (λ s. string_bytes s
            ≡ condition_bytes (borrowed_view T.left self.entry)) }
        ensures memory { FailsOnlyByMemory result }
    {
        match self {
            Condition::Raw(condition) => condition.to_text(alloc),
            Condition::Compare(relation, field, value) => { compare(alloc, relation, field, value) }
            Condition::Like(negated, percent, field, mask) => {
                Ok(like(alloc, negated, percent, field, mask)?)
            }
            Condition::IsNull(field) => is_null(alloc, field),
            Condition::IsNotNull(field) => is_not_null(alloc, field),
            Condition::InList(negated, field, values) => { in_list(alloc, negated, field, values) }
            Condition::InQuoted(negated, field, values) => {
                in_quoted(alloc, negated, field, values)
            }
            Condition::InQuery(negated, field, query) => { in_query(alloc, negated, field, query) }
            Condition::Between(negated, field, least, greatest) => {
                between(alloc, negated, field, least, greatest)
            }
        }
    }
}

// The words behind a field, with NOT where the condition is the NOT form. They are single constants,
// since each part of a text is copied by a call.
fn in_words(negated: bool) -> &'static str
    ensures { result.now ≡ not_text negated ++ codes " IN (" }
{
    if negated { " NOT IN (" } else { " IN (" }
}

fn between_words(negated: bool) -> &'static str
    ensures { result.now ≡ not_text negated ++ codes " BETWEEN " }
{
    if negated {
        " NOT BETWEEN "
    } else {
        " BETWEEN "
    }
}

/// A field compared with a value.
pub(crate) fn compare<'a>(
    alloc: Global,
    relation: Relation,
    field: &'a str,
    value: &'a str,
) -> Result<String, SqlBuilderError>
    ensures made { IfOk result (λ s. string_bytes s
        ≡ condition_bytes (Compare relation field.now value.now)) }
    ensures memory { FailsOnlyByMemory result }
{
    Ok(concat(alloc, &[Part(field), Part(relation.sign()), Part(value)])?)
}

/// A field that is NULL.
pub(crate) fn is_null(alloc: Global, field: &str) -> Result<String, SqlBuilderError>
    ensures made { IfOk result (λ s. string_bytes s ≡ condition_bytes (IsNull field.now)) }
    ensures memory { FailsOnlyByMemory result }
{
    Ok(concat(alloc, &[Part(field), Part(" IS NULL")])?)
}

/// A field that is not NULL.
pub(crate) fn is_not_null(alloc: Global, field: &str) -> Result<String, SqlBuilderError>
    ensures made { IfOk result (λ s. string_bytes s ≡ condition_bytes (IsNotNull field.now)) }
    ensures memory { FailsOnlyByMemory result }
{
    Ok(concat(alloc, &[Part(field), Part(" IS NOT NULL")])?)
}

// Appends LIKE and what precedes the mask. Each text is a constant, so that no call copies it.
#[inline(always)]
fn push_like_words(out: &mut String, negated: bool, percent: Percent)
    requires room { HasRoom out.old ((not_text negated ++ codes " LIKE ")
        ++ (if has_leading percent then codes "'%" else codes "'")) }
    ensures { Writes out.old out.new ((not_text negated ++ codes " LIKE ")
        ++ (if has_leading percent then codes "'%" else codes "'")) }
{
    match (negated, percent.has_leading()) {
        (false, false) => push_text(out, " LIKE '"),
        (false, true) => push_text(out, " LIKE '%"),
        (true, false) => push_text(out, " NOT LIKE '"),
        (true, true) => push_text(out, " NOT LIKE '%"),
    }
}

/// A field that is like a mask, which is quoted with its percent signs. As a part of its callers it
/// took more instructions.
#[inline(never)]
#[tactic(auto, using(crate::proofs::conditions::QuotedMaskFacts::quoted_mask))]
pub(crate) fn like(
    alloc: Global,
    negated: bool,
    percent: Percent,
    field: &str,
    mask: &str,
) -> Result<String, AllocError>
    ensures made { IfOk result (λ s. string_bytes s
        ≡ condition_bytes (Like negated percent field.now mask.now)) }
{
    let room = field.len().saturating_add(mask.len());
    let mut text = String::with_capacity(alloc, room.saturating_add(LIKE_ROOM))?;
    push_text(&mut text, field);
    push_like_words(&mut text, negated, percent);
    push_escaped(&mut text, mask)?;
    if percent.has_trailing() {
        text.push_str("%'")?;
    } else {
        text.push_str("'")?;
    }
    Ok(text)
}

// A field and the words in front of a list, with room for the list.
fn field_in(alloc: Global, negated: bool, field: &str) -> Result<String, AllocError>
    ensures { IfOk result (λ s. string_bytes s ≡ field.now ++ (not_text negated ++ codes " IN (")) }
{
    let room = field.len().saturating_add(FIRST_ROOM);
    let mut text = String::with_capacity(alloc, room)?;
    text.push_str(field)?;
    // Each text is a constant, so that no call copies it.
    if negated {
        text.push_str(" NOT IN (")?;
    } else {
        text.push_str(" IN (")?;
    }
    Ok(text)
}

/// A field that is one of a list of values.
pub(crate) fn in_list<'a, T: Texts<'a>>(
    alloc: Global,
    negated: bool,
    field: &str,
    values: T,
) -> Result<String, SqlBuilderError>
    ensures made { IfOk result (λ s. string_bytes s
        ≡ condition_bytes (InList negated field.now (T.left values))) }
    ensures memory { FailsOnlyByMemory result }
{
    let mut text = field_in(alloc, negated, field)?;
    push_items(alloc, &mut text, values)?;
    text.push_str(")")?;
    Ok(text)
}

/// A field that is one of a list of values, each of which is quoted.
pub(crate) fn in_quoted<'a, T: Texts<'a>>(
    alloc: Global,
    negated: bool,
    field: &str,
    values: T,
) -> Result<String, SqlBuilderError>
    ensures made { IfOk result (λ s. string_bytes s
        ≡ condition_bytes (InQuoted negated field.now (T.left values))) }
    ensures memory { FailsOnlyByMemory result }
{
    let mut text = field_in(alloc, negated, field)?;
    push_quoted_items(alloc, &mut text, values)?;
    text.push_str(")")?;
    Ok(text)
}

/// A field that is one of what a query gives.
pub(crate) fn in_query<'a>(
    alloc: Global,
    negated: bool,
    field: &'a str,
    query: &'a str,
) -> Result<String, SqlBuilderError>
    ensures made { IfOk result (λ s. string_bytes s
        ≡ condition_bytes (InQuery negated field.now query.now)) }
    ensures memory { FailsOnlyByMemory result }
{
    let words = in_words(negated);
    Ok(concat(alloc, &[Part(field), Part(words), Part(query), Part(")")])?)
}

/// A field between a least and a greatest value.
pub(crate) fn between<'a>(
    alloc: Global,
    negated: bool,
    field: &'a str,
    least: &'a str,
    greatest: &'a str,
) -> Result<String, SqlBuilderError>
    ensures made { IfOk result (λ s. string_bytes s
        ≡ condition_bytes (Between negated field.now least.now greatest.now)) }
    ensures memory { FailsOnlyByMemory result }
{
    let words = between_words(negated);
    Ok(concat(
        alloc,
        &[
            Part(field),
            Part(words),
            Part(least),
            Part(" AND "),
            Part(greatest),
        ],
    )?)
}

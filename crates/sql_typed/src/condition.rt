//! Conditions as values, whose types say that their texts fit. Each function fails only if memory runs out.
ghost use Rattle.std.specs.Prelude.{◌≡◌, ◌++◌, [], ◌∷◌, IfOk, IsTrue, OnOk, codes, false, if◌then◌else◌, map, option_map, string_bytes, true};
ghost use Rattle.sql_parts.specs.Error.{FailsOnlyByMemory};
ghost use Rattle.sql_parts.specs.Fragments.{balanced, is_symbol};
ghost use Rattle.sql_parts.specs.Quoting.{quoted};
ghost use Rattle.sql_parts.specs.Tokens.{begins_with, is_one_of, tokens};
ghost use Rattle.sql_builder.specs.Combined.{IsCombined, combined_text, constant_text, exists_text, like_text, negation_text};
ghost use Rattle.sql_builder.specs.Condition.{borrowed_view, condition_bytes, not_text};
ghost use Rattle.sql_builder.specs.declared.condition.Condition.TheVariants.{Between, Compare, InList, InQuery, IsNotNull, IsNull, Like};
ghost use Rattle.sql_builder.specs.Layout.{byte_units};
ghost use Rattle.sql_builder.specs.Phrases.{in_brackets};
ghost use Rattle.sql_builder.specs.Truths.{IsAtom, Valuation, and_all, not3, or_all, truth};
ghost use Rattle.sql_builder.specs.declared.condition.Percent.TheVariants as percent;
ghost use Rattle.sql_builder.specs.declared.condition.Relation.TheVariants.{Eq, Ge, Gt, Le, Lt, Ne};
ghost use Rattle.sql_typed.specs.Conditions.{OperandsServe, bracket_fronts, equal_or_null, escaped_mask, list_text, may_begin_bracketed};
ghost use Rattle.sql_typed.specs.Results.{Prints};

use crate::mask::{containing, ending_with, starting_with};
use crate::operand_text::OperandText;
pub use crate::texts::Condition;
use crate::texts::Query;
use sql_builder::calls::{BorrowedCondition, Percent, Relation, condition_text};
use sql_parts::Value;
use sql_parts::text::{Fragment, Items, OwnedOperand, Texts, ToText};
use std::alloc::{AllocError, Global};

type Result = crate::Result<Condition>;

// How many bytes are asked for at first, so that a short condition takes one allocation.
const FIRST_ROOM: usize = 64;

// A condition without a list.
type Plain<'a> = BorrowedCondition<'a, Items<'a, String>>;

// A condition on a field.
#[inline(always)]
fn made<'a, T: Texts<'a>>(alloc: Global, condition: BorrowedCondition<'a, T>) -> Result
    requires operands { OperandsServe (borrowed_view T.left condition) }
    ensures text { Prints result (condition_bytes (borrowed_view T.left condition.entry)) }
    ensures atom { IfOk result (λ c. IsAtom (tokens (string_bytes c.text))) }
{
    let text = condition_text(alloc, condition)?;
    Ok(Condition { text })
}

// Two operands with words between them.
fn phrase<F: OperandText, V: OperandText>(
    alloc: Global,
    field: F,
    words: &str,
    value: V,
) -> crate::Result<String>
    ensures text { IfOk result (λ s. string_bytes s ≡ F.text field ++ (words.now ++ V.text value)) }
    ensures memory { FailsOnlyByMemory result }
{
    let mut text = String::with_capacity(alloc, FIRST_ROOM)?;
    field.push_text(alloc, &mut text)?;
    text.push_str(words)?;
    value.push_text(alloc, &mut text)?;
    Ok(text)
}

#[inline(always)]
fn compare<F: OperandText, V: OperandText>(
    alloc: Global,
    relation: Relation,
    field: F,
    value: V,
) -> Result
    ensures text { Prints result (condition_bytes (Compare relation (F.text field) (V.text value))) }
    ensures atom { IfOk result (λ c. IsAtom (tokens (string_bytes c.text))) }
{
    let text = phrase(alloc, field, relation.sign(), value)?;
    Ok(Condition { text })
}

/// Returns the condition `field = value`. Fails only if memory runs out.
/// `eq(alloc, Operand::of("a"), Value("it's"))?.text` gives `a = 'it''s'`
pub fn eq<F: OperandText, V: OperandText>(alloc: Global, field: F, value: V) -> Result
    ensures text { Prints result (condition_bytes (Compare Eq (F.text field) (V.text value))) }
    ensures atom { IfOk result (λ c. IsAtom (tokens (string_bytes c.text))) }
{
    compare(alloc, Relation::Eq, field, value)
}

/// Returns the condition `field <> value`. Fails only if memory runs out.
/// `ne(alloc, Operand::of("a"), Value("it's"))?.text` gives `a <> 'it''s'`
pub fn ne<F: OperandText, V: OperandText>(alloc: Global, field: F, value: V) -> Result
    ensures text { Prints result (condition_bytes (Compare Ne (F.text field) (V.text value))) }
    ensures atom { IfOk result (λ c. IsAtom (tokens (string_bytes c.text))) }
{
    compare(alloc, Relation::Ne, field, value)
}

/// Returns the condition `field > value`. A query that has one value is an operand, as `subquery`
/// prints it. Fails only if memory runs out.
/// `gt(alloc, Operand::of("a"), Value("it's"))?.text` gives `a > 'it''s'`,
/// `gt(alloc, Operand::of("a"), Select::from(alloc, Fragment::of("t"))?.field(Operand::of("AVG(a)"))?.subquery()?)?.text` gives
/// `a > (SELECT AVG(a) FROM t)`
pub fn gt<F: OperandText, V: OperandText>(alloc: Global, field: F, value: V) -> Result
    ensures text { Prints result (condition_bytes (Compare Gt (F.text field) (V.text value))) }
    ensures atom { IfOk result (λ c. IsAtom (tokens (string_bytes c.text))) }
{
    compare(alloc, Relation::Gt, field, value)
}

/// Returns the condition `field >= value`. Fails only if memory runs out.
/// `ge(alloc, Operand::of("a"), Value("it's"))?.text` gives `a >= 'it''s'`
pub fn ge<F: OperandText, V: OperandText>(alloc: Global, field: F, value: V) -> Result
    ensures text { Prints result (condition_bytes (Compare Ge (F.text field) (V.text value))) }
    ensures atom { IfOk result (λ c. IsAtom (tokens (string_bytes c.text))) }
{
    compare(alloc, Relation::Ge, field, value)
}

/// Returns the condition `field < value`. Fails only if memory runs out.
/// `lt(alloc, Operand::of("a"), Value("it's"))?.text` gives `a < 'it''s'`
pub fn lt<F: OperandText, V: OperandText>(alloc: Global, field: F, value: V) -> Result
    ensures text { Prints result (condition_bytes (Compare Lt (F.text field) (V.text value))) }
    ensures atom { IfOk result (λ c. IsAtom (tokens (string_bytes c.text))) }
{
    compare(alloc, Relation::Lt, field, value)
}

/// Returns the condition `field <= value`. Fails only if memory runs out.
/// `le(alloc, Operand::of("a"), Value("it's"))?.text` gives `a <= 'it''s'`
pub fn le<F: OperandText, V: OperandText>(alloc: Global, field: F, value: V) -> Result
    ensures text { Prints result (condition_bytes (Compare Le (F.text field) (V.text value))) }
    ensures atom { IfOk result (λ c. IsAtom (tokens (string_bytes c.text))) }
{
    compare(alloc, Relation::Le, field, value)
}

/// Returns the condition `field IS NULL`. Fails only if memory runs out.
/// `is_null(alloc, Operand::of("a"))?.text` gives `a IS NULL`
pub fn is_null<F: OperandText>(alloc: Global, field: F) -> Result
    ensures text { Prints result (condition_bytes (IsNull (F.text field))) }
    ensures atom { IfOk result (λ c. IsAtom (tokens (string_bytes c.text))) }
{
    let field = field.as_text(alloc)?;
    made(alloc, Plain::IsNull(field.as_str()))
}

/// Returns the condition `field IS NOT NULL`. Fails only if memory runs out.
/// `is_not_null(alloc, Operand::of("a"))?.text` gives `a IS NOT NULL`
pub fn is_not_null<F: OperandText>(alloc: Global, field: F) -> Result
    ensures text { Prints result (condition_bytes (IsNotNull (F.text field))) }
    ensures atom { IfOk result (λ c. IsAtom (tokens (string_bytes c.text))) }
{
    let field = field.as_text(alloc)?;
    made(alloc, Plain::IsNotNull(field.as_str()))
}

/// Returns the condition `field = value`, or `field IS NULL` without a value. `Some(Value(None))`
/// is a value: `= NULL` finds no row. A plain `None` is of no type: write `is_null` for it. Fails
/// only if memory runs out.
/// `eq_or_null(alloc, Operand::of("a"), None::<i64>)?.text` gives `a IS NULL`
pub fn eq_or_null<F: OperandText, V: OperandText>(
    alloc: Global,
    field: F,
    value: Option<V>,
) -> Result
    ensures text { Prints result (equal_or_null (F.text field) (option_map V.text value)) }
    ensures atom { IfOk result (λ c. IsAtom (tokens (string_bytes c.text))) }
{
    match value {
        Some(value) => eq(alloc, field, value),
        None => is_null(alloc, field),
    }
}

/// Returns a raw condition, which is printed unchanged. Fails only if memory runs out.
/// `raw(alloc, Fragment::of("a = b"))?.text` gives `a = b`
pub fn raw(alloc: Global, fragment: Fragment<'_>) -> Result
    ensures text { Prints result fragment.entry.text.now }
{
    let text = fragment.to_text(alloc)?;
    Ok(Condition { text })
}

fn masked<F: OperandText>(
    alloc: Global,
    negated: bool,
    percent: Percent,
    field: F,
    mask: Value<&str>,
) -> Result
    ensures text { Prints result (condition_bytes (Like negated percent (F.text field) mask.entry.0.now)) }
    ensures atom { IfOk result (λ c. IsAtom (tokens (string_bytes c.text))) }
{
    let field = field.as_text(alloc)?;
    made(alloc, Plain::Like(negated, percent, field.as_str(), mask.0))
}

/// Returns the condition `field LIKE 'mask'`, with the percent signs that `percent` says. A `%` or
/// `_` of the mask is a wildcard too. A backslash escapes on PostgreSQL, MySQL and MariaDB. Fails
/// only if memory runs out.
/// `like(alloc, Percent::Left, Operand::of("a"), Value("b"))?.text` gives `a LIKE 'b%'`
pub fn like<F: OperandText>(alloc: Global, percent: Percent, field: F, mask: Value<&str>) -> Result
    ensures text { Prints result (condition_bytes (Like false percent (F.text field) mask.entry.0.now)) }
    ensures atom { IfOk result (λ c. IsAtom (tokens (string_bytes c.text))) }
{
    masked(alloc, false, percent, field, mask)
}

/// Returns the condition `field NOT LIKE 'mask'`, with the percent signs that `percent` says. A `%`
/// or `_` of the mask is a wildcard too. A backslash escapes on PostgreSQL, MySQL and MariaDB.
/// Fails only if memory runs out.
/// `not_like(alloc, Percent::Any, Operand::of("a"), Value("b"))?.text` gives `a NOT LIKE '%b%'`
pub fn not_like<F: OperandText>(
    alloc: Global,
    percent: Percent,
    field: F,
    mask: Value<&str>,
) -> Result
    ensures text { Prints result (condition_bytes (Like true percent (F.text field) mask.entry.0.now)) }
    ensures atom { IfOk result (λ c. IsAtom (tokens (string_bytes c.text))) }
{
    masked(alloc, true, percent, field, mask)
}

// What is printed between a field and a mask.
fn like_words(negated: bool) -> &'static str
    ensures { result.now ≡ not_text negated ++ codes " LIKE " }
{
    if negated { " NOT LIKE " } else { " LIKE " }
}

fn like_escaped<F: OperandText, M: OperandText>(
    alloc: Global,
    negated: bool,
    field: F,
    mask: M,
) -> Result
    ensures text { Prints result (like_text negated (F.text field) (M.text mask)) }
    ensures atom { IfOk result (λ c. IsAtom (tokens (string_bytes c.text))) }
{
    let mut text = phrase(alloc, field, like_words(negated), mask)?;
    text.push_str(" ESCAPE '!'")?;
    Ok(Condition { text })
}

/// Returns the condition `field LIKE mask ESCAPE '!'`. The mask is any operand, such as a parameter
/// of a mask that `mask::containing` makes. Fails only if memory runs out.
/// `like_mask(alloc, Operand::of("a"), Operand::of("?1"))?.text` gives `a LIKE ?1 ESCAPE '!'`
pub fn like_mask<F: OperandText, M: OperandText>(alloc: Global, field: F, mask: M) -> Result
    ensures text { Prints result (like_text false (F.text field) (M.text mask)) }
    ensures atom { IfOk result (λ c. IsAtom (tokens (string_bytes c.text))) }
{
    like_escaped(alloc, false, field, mask)
}

/// Returns the condition `field NOT LIKE mask ESCAPE '!'`. The mask is any operand, such as a
/// parameter of a mask that `mask::containing` makes. Fails only if memory runs out.
/// `not_like_mask(alloc, Operand::of("a"), Operand::of("?1"))?.text` gives
/// `a NOT LIKE ?1 ESCAPE '!'`
pub fn not_like_mask<F: OperandText, M: OperandText>(alloc: Global, field: F, mask: M) -> Result
    ensures text { Prints result (like_text true (F.text field) (M.text mask)) }
    ensures atom { IfOk result (λ c. IsAtom (tokens (string_bytes c.text))) }
{
    like_escaped(alloc, true, field, mask)
}

/// Returns the condition that the field contains this text, whose wildcards are escaped. Fails only
/// if memory runs out.
/// `contains(alloc, Operand::of("a"), Value("50%"))?.text` gives `a LIKE '%50!%%' ESCAPE '!'`
pub fn contains<F: OperandText>(alloc: Global, field: F, word: Value<&str>) -> Result
    ensures text { Prints result (like_text false (F.text field) (quoted (escaped_mask percent.Any word.entry.0.now))) }
    ensures atom { IfOk result (λ c. IsAtom (tokens (string_bytes c.text))) }
{
    let mask = containing(alloc, word.0)?;
    like_escaped(alloc, false, field, Value(mask))
}

/// Returns the condition that the field does not contain this text, whose wildcards are escaped.
/// Fails only if memory runs out.
/// `not_contains(alloc, Operand::of("a"), Value("50%"))?.text` gives
/// `a NOT LIKE '%50!%%' ESCAPE '!'`
pub fn not_contains<F: OperandText>(alloc: Global, field: F, word: Value<&str>) -> Result
    ensures text { Prints result (like_text true (F.text field) (quoted (escaped_mask percent.Any word.entry.0.now))) }
    ensures atom { IfOk result (λ c. IsAtom (tokens (string_bytes c.text))) }
{
    let mask = containing(alloc, word.0)?;
    like_escaped(alloc, true, field, Value(mask))
}

/// Returns the condition that the field starts with this text, whose wildcards are escaped. Fails
/// only if memory runs out.
/// `starts_with(alloc, Operand::of("a"), Value("50%"))?.text` gives `a LIKE '50!%%' ESCAPE '!'`
pub fn starts_with<F: OperandText>(alloc: Global, field: F, word: Value<&str>) -> Result
    ensures text { Prints result (like_text false (F.text field) (quoted (escaped_mask percent.Left word.entry.0.now))) }
    ensures atom { IfOk result (λ c. IsAtom (tokens (string_bytes c.text))) }
{
    let mask = starting_with(alloc, word.0)?;
    like_escaped(alloc, false, field, Value(mask))
}

/// Returns the condition that the field does not start with this text, whose wildcards are escaped.
/// Fails only if memory runs out.
/// `not_starts_with(alloc, Operand::of("a"), Value("50%"))?.text` gives
/// `a NOT LIKE '50!%%' ESCAPE '!'`
pub fn not_starts_with<F: OperandText>(alloc: Global, field: F, word: Value<&str>) -> Result
    ensures text { Prints result (like_text true (F.text field) (quoted (escaped_mask percent.Left word.entry.0.now))) }
    ensures atom { IfOk result (λ c. IsAtom (tokens (string_bytes c.text))) }
{
    let mask = starting_with(alloc, word.0)?;
    like_escaped(alloc, true, field, Value(mask))
}

/// Returns the condition that the field ends with this text, whose wildcards are escaped. Fails
/// only if memory runs out.
/// `ends_with(alloc, Operand::of("a"), Value("50%"))?.text` gives `a LIKE '%50!%' ESCAPE '!'`
pub fn ends_with<F: OperandText>(alloc: Global, field: F, word: Value<&str>) -> Result
    ensures text { Prints result (like_text false (F.text field) (quoted (escaped_mask percent.Right word.entry.0.now))) }
    ensures atom { IfOk result (λ c. IsAtom (tokens (string_bytes c.text))) }
{
    let mask = ending_with(alloc, word.0)?;
    like_escaped(alloc, false, field, Value(mask))
}

/// Returns the condition that the field does not end with this text, whose wildcards are escaped.
/// Fails only if memory runs out.
/// `not_ends_with(alloc, Operand::of("a"), Value("50%"))?.text` gives
/// `a NOT LIKE '%50!%' ESCAPE '!'`
pub fn not_ends_with<F: OperandText>(alloc: Global, field: F, word: Value<&str>) -> Result
    ensures text { Prints result (like_text true (F.text field) (quoted (escaped_mask percent.Right word.entry.0.now))) }
    ensures atom { IfOk result (λ c. IsAtom (tokens (string_bytes c.text))) }
{
    let mask = ending_with(alloc, word.0)?;
    like_escaped(alloc, true, field, Value(mask))
}

fn in_list<F: OperandText, V: OperandText>(
    alloc: Global,
    negated: bool,
    field: F,
    values: &[V],
) -> Result
    ensures text { Prints result (condition_bytes (InList negated (F.text field) (map V.text values.now))) }
    ensures atom { IfOk result (λ c. IsAtom (tokens (string_bytes c.text))) }
{
    let field = field.as_text(alloc)?;
    let values = Items { items: values };
    made(
        alloc,
        BorrowedCondition::InList(negated, field.as_str(), values),
    )
}

// Whether the first byte is `(`, or one that databases skip before it.
fn begins_at_front(text: &str) -> bool
    ensures { result ≡ begins_with (is_one_of bracket_fronts) text.now }
{
    match text.as_bytes().first() {
        // The last two are the vertical TAB and the form feed.
        Some(b'(' | b' ' | b'\t' | b'\n' | b'\r' | b'/' | b'#' | 11 | 12) => true,
        _ => false,
    }
}

// Whether the text may begin with `(`, which is then one value where a list takes it.
fn may_begin_bracketed(text: &str) -> bool
    ensures text { result ≡ may_begin_bracketed text.now }
    ensures found { IsTrue (begins_with (is_symbol 40) (tokens text.now)) → IsTrue result }
{
    let dashes = text.starts_with("--");
    begins_at_front(text) || dashes
}

// An operand in brackets.
pub(crate) fn bracketed(alloc: Global, operand: &str) -> crate::Result<OwnedOperand>
    requires balanced { IsTrue (balanced operand.now) }
    ensures text { IfOk result (λ o. string_bytes o.text ≡ in_brackets byte_units operand.now) }
    ensures memory { FailsOnlyByMemory result }
{
    let mut text = String::new(alloc);
    push_bracketed(&mut text, operand)?;
    Ok(OwnedOperand::of_built(text))
}

fn in_one<F: OperandText, V: OperandText>(
    alloc: Global,
    negated: bool,
    field: F,
    value: &V,
) -> Result
    ensures text { Prints result (list_text negated (F.text field) (V.text value.now ∷ [])) }
    ensures atom { IfOk result (λ c. IsAtom (tokens (string_bytes c.text))) }
{
    let text = value.as_text(alloc)?;
    if may_begin_bracketed(text.as_str()) {
        let relation = if negated { Relation::Ne } else { Relation::Eq };
        let value = bracketed(alloc, text.as_str())?;
        compare(alloc, relation, field, value)
    } else {
        in_list(alloc, negated, field, &[value])
    }
}

#[tactic(auto, using(crate::proofs::ConditionLemmas::list_given))]
fn listed<F: OperandText, V: OperandText>(
    alloc: Global,
    negated: bool,
    field: F,
    values: &[V],
) -> Result
    ensures text { Prints result (list_text negated (F.text field) (map V.text values.now)) }
    ensures atom { IfOk result (λ c. IsAtom (tokens (string_bytes c.text))) }
{
    match values {
        [] => constant(alloc, negated),
        [value] => in_one(alloc, negated, field, value),
        [_, _, ..] => in_list(alloc, negated, field, values),
    }
}

/// Returns the condition `field IN (values)`. Without values it is `1 = 0`, which is false. A query
/// in brackets is one value: alone it makes `field = ((query))`. For its rows take `in_query`.
/// Fails only if memory runs out.
/// `in_values(alloc, Operand::of("a"), &[1, 2])?.text` gives `a IN (1, 2)`
pub fn in_values<F: OperandText, V: OperandText>(alloc: Global, field: F, values: &[V]) -> Result
    ensures text { Prints result (list_text false (F.text field) (map V.text values.now)) }
    ensures atom { IfOk result (λ c. IsAtom (tokens (string_bytes c.text))) }
{
    listed(alloc, false, field, values)
}

/// Returns the condition `field NOT IN (values)`. Without values it is `1 = 1`, which is true. With
/// a NULL among them it is true of no row. A query in brackets is one value: alone it makes
/// `field <> ((query))`. For its rows take `not_in_query`. Fails only if memory runs out.
/// `not_in_values(alloc, Operand::of("a"), &[1, 2])?.text` gives `a NOT IN (1, 2)`
pub fn not_in_values<F: OperandText, V: OperandText>(
    alloc: Global,
    field: F,
    values: &[V],
) -> Result
    ensures text { Prints result (list_text true (F.text field) (map V.text values.now)) }
    ensures atom { IfOk result (λ c. IsAtom (tokens (string_bytes c.text))) }
{
    listed(alloc, true, field, values)
}

fn queried<F: OperandText>(alloc: Global, negated: bool, field: F, query: &Query) -> Result
    ensures text { Prints result (condition_bytes (InQuery negated (F.text field) (string_bytes query.now.text))) }
    ensures atom { IfOk result (λ c. IsAtom (tokens (string_bytes c.text))) }
{
    let field = field.as_text(alloc)?;
    let condition = Plain::InQuery(negated, field.as_str(), query.text.as_str());
    made(alloc, condition)
}

/// Returns the condition `field IN (query)`: whether the field is in a row of the query. Fails only
/// if memory runs out.
/// `in_query(alloc, Operand::of("a"), &query)?.text` gives `a IN (SELECT b FROM t)`
pub fn in_query<F: OperandText>(alloc: Global, field: F, query: &Query) -> Result
    ensures text { Prints result (condition_bytes (InQuery false (F.text field) (string_bytes query.now.text))) }
    ensures atom { IfOk result (λ c. IsAtom (tokens (string_bytes c.text))) }
{
    queried(alloc, false, field, query)
}

/// Returns the condition `field NOT IN (query)`: whether the field is in no row of the query. Fails
/// only if memory runs out.
/// `not_in_query(alloc, Operand::of("a"), &query)?.text` gives `a NOT IN (SELECT b FROM t)`
pub fn not_in_query<F: OperandText>(alloc: Global, field: F, query: &Query) -> Result
    ensures text { Prints result (condition_bytes (InQuery true (F.text field) (string_bytes query.now.text))) }
    ensures atom { IfOk result (λ c. IsAtom (tokens (string_bytes c.text))) }
{
    queried(alloc, true, field, query)
}

// Words that open brackets, a text in them, and the bracket that closes them.
fn opened(alloc: Global, words: &str, text: &str) -> crate::Result<String>
    ensures text { IfOk result (λ s. string_bytes s ≡ words.now ++ (text.now ++ codes ")")) }
    ensures memory { FailsOnlyByMemory result }
{
    let room = words.len().saturating_add(text.len()).saturating_add(1);
    let mut opened = String::with_capacity(alloc, room)?;
    opened.push_str(words)?;
    opened.push_str(text)?;
    opened.push_str(")")?;
    Ok(opened)
}

/// Returns the condition `EXISTS (query)`: whether the query has a row. Fails only if memory runs
/// out.
/// `exists(alloc, &query)?.text` gives `EXISTS (SELECT b FROM t)`
pub fn exists(alloc: Global, query: &Query) -> Result
    ensures text { Prints result (exists_text false (string_bytes query.now.text)) }
    ensures atom { IfOk result (λ c. IsAtom (tokens (string_bytes c.text))) }
{
    let text = opened(alloc, "EXISTS (", query.text.as_str())?;
    Ok(Condition { text })
}

/// Returns the condition `NOT EXISTS (query)`: whether the query has no row. Fails only if memory
/// runs out.
/// `not_exists(alloc, &query)?.text` gives `NOT EXISTS (SELECT b FROM t)`
pub fn not_exists(alloc: Global, query: &Query) -> Result
    ensures text { Prints result (exists_text true (string_bytes query.now.text)) }
    ensures truth { IfOk result (λ c. (facts : Valuation) → truth facts (tokens (string_bytes c.text))
        ≡ not3 (truth facts (tokens (exists_text false (string_bytes query.now.text))))) }
{
    let text = opened(alloc, "NOT EXISTS (", query.text.as_str())?;
    Ok(Condition { text })
}

fn ranged<F: OperandText, L: OperandText, G: OperandText>(
    alloc: Global,
    negated: bool,
    field: F,
    least: L,
    greatest: G,
) -> Result
    ensures text { Prints result (condition_bytes (Between negated (F.text field) (L.text least) (G.text greatest))) }
    ensures atom { IfOk result (λ c. IsAtom (tokens (string_bytes c.text))) }
{
    let field = field.as_text(alloc)?;
    let least = least.as_text(alloc)?;
    let greatest = greatest.as_text(alloc)?;
    let condition = Plain::Between(negated, field.as_str(), least.as_str(), greatest.as_str());
    made(alloc, condition)
}

/// Returns the condition `field BETWEEN least AND greatest`. Fails only if memory runs out.
/// `between(alloc, Operand::of("a"), 1, 2)?.text` gives `a BETWEEN 1 AND 2`
pub fn between<F: OperandText, L: OperandText, G: OperandText>(
    alloc: Global,
    field: F,
    least: L,
    greatest: G,
) -> Result
    ensures text { Prints result (condition_bytes (Between false (F.text field) (L.text least) (G.text greatest))) }
    ensures atom { IfOk result (λ c. IsAtom (tokens (string_bytes c.text))) }
{
    ranged(alloc, false, field, least, greatest)
}

/// Returns the condition `field NOT BETWEEN least AND greatest`. Fails only if memory runs out.
/// `not_between(alloc, Operand::of("a"), 1, 2)?.text` gives `a NOT BETWEEN 1 AND 2`
pub fn not_between<F: OperandText, L: OperandText, G: OperandText>(
    alloc: Global,
    field: F,
    least: L,
    greatest: G,
) -> Result
    ensures text { Prints result (condition_bytes (Between true (F.text field) (L.text least) (G.text greatest))) }
    ensures atom { IfOk result (λ c. IsAtom (tokens (string_bytes c.text))) }
{
    ranged(alloc, true, field, least, greatest)
}

fn constant(alloc: Global, holds: bool) -> Result
    ensures text { Prints result (constant_text holds) }
    ensures atom { IfOk result (λ c. IsAtom (tokens (string_bytes c.text))) }
{
    let text = String::from_str(alloc, if holds { "1 = 1" } else { "1 = 0" })?;
    Ok(Condition { text })
}

pub(crate) fn push_bracketed(out: &mut String, text: &str) -> std::result::Result<(), AllocError>
    ensures { OnOk result (string_bytes out.new
        ≡ string_bytes out.old ++ in_brackets byte_units text.now) }
{
    out.push_str("(")?;
    out.push_str(text)?;
    out.push_str(")")
}

// How much room `joined` asks for.
fn joined_room(first: &Condition, further: &[Condition]) -> usize {
    let room = first.text.len().saturating_add("(())".len());
    further.iter().fold(room, |room, condition| {
        room.saturating_add(condition.text.len())
            .saturating_add(" AND ()".len())
    })
}

// The text of conditions, each in brackets, joined by AND or OR, in brackets.
fn joined(
    alloc: Global,
    conjunction: bool,
    first: &Condition,
    further: &[Condition],
) -> crate::Result<String>
    ensures text { IfOk result (λ s. string_bytes s ≡ combined_text conjunction
        (string_bytes first.now.text ∷ map (λ c. string_bytes c.text) further.now)) }
    ensures memory { FailsOnlyByMemory result }
{
    let word = if conjunction { " AND " } else { " OR " };
    let mut text = String::with_capacity(alloc, joined_room(first, further))?;
    text.push_str("(")?;
    push_bracketed(&mut text, first.text.as_str())?;
    for condition in further {
        text.push_str(word)?;
        push_bracketed(&mut text, condition.text.as_str())?;
    }
    text.push_str(")")?;
    Ok(text)
}

fn combined(alloc: Global, conjunction: bool, conditions: &[Condition]) -> Result
    ensures text { Prints result (combined_text conjunction (map (λ c. string_bytes c.text) conditions.now)) }
    ensures truth { IfOk result (λ c. IsCombined (if conjunction then and_all else or_all)
        (map (λ c. string_bytes c.text) conditions.now) (string_bytes c.text)) }
{
    let text = match conditions {
        [] => return constant(alloc, conjunction),
        [first, further @ ..] => joined(alloc, conjunction, first, further)?,
    };
    Ok(Condition { text })
}

/// Returns the AND of these conditions, with brackets round each and round all. Without conditions
/// it is `1 = 1`, which is true. Fails only if memory runs out.
/// `all(alloc, &[eq(alloc, Operand::of("a"), 1)?, is_null(alloc, Operand::of("b"))?])?.text` gives
/// `((a = 1) AND (b IS NULL))`
pub fn all(alloc: Global, conditions: &[Condition]) -> Result
    ensures text { Prints result (combined_text true (map (λ c. string_bytes c.text) conditions.now)) }
    ensures truth { IfOk result (λ c. IsCombined and_all
        (map (λ c. string_bytes c.text) conditions.now) (string_bytes c.text)) }
{
    combined(alloc, true, conditions)
}

/// Returns the OR of these conditions, with brackets round each and round all. Without conditions
/// it is `1 = 0`, which is false. Fails only if memory runs out.
/// `any(alloc, &[eq(alloc, Operand::of("a"), 1)?, is_null(alloc, Operand::of("b"))?])?.text` gives
/// `((a = 1) OR (b IS NULL))`
pub fn any(alloc: Global, conditions: &[Condition]) -> Result
    ensures text { Prints result (combined_text false (map (λ c. string_bytes c.text) conditions.now)) }
    ensures truth { IfOk result (λ c. IsCombined or_all
        (map (λ c. string_bytes c.text) conditions.now) (string_bytes c.text)) }
{
    combined(alloc, false, conditions)
}

/// Returns NOT of a condition, which is in brackets. Fails only if memory runs out.
/// `not(alloc, &eq(alloc, Operand::of("a"), 1)?)?.text` gives `NOT (a = 1)`
pub fn not(alloc: Global, condition: &Condition) -> Result
    ensures text { Prints result (negation_text (string_bytes condition.now.text)) }
    ensures truth { IfOk result (λ c. (facts : Valuation) → truth facts (tokens (string_bytes c.text))
        ≡ not3 (truth facts (tokens (string_bytes condition.now.text)))) }
{
    let text = opened(alloc, "NOT (", condition.text.as_str())?;
    Ok(Condition { text })
}

//! Lists of calls, as values, and the statement that a list makes.
ghost use Rattle.std.specs.Prelude.{◌≡◌, [], ◌⊎◌, ◌≤◌, ◌+◌, ◌-◌, ◌^◌, ◌++◌, length, map, min, IfErr, IfOk, IfSome, IsNone, IsOk, IsTrue, List, Ok, OnErr, OnOk, string_bytes, string_capacity, string_len, ℕ};
ghost use Rattle.sql_parts.specs.Error.{FailsOnlyByMemory, IsMemory};
ghost use Rattle.sql_builder.specs.{started, IsCallError, with_call, SelectValues, kind_of, call_view, finish_view, of_list, start_on, start_view};
ghost use Rattle.sql_builder.specs.{HasBalancedFragments, HasFitFragments, HasTruthOf, condition_groups, is_nested, is_unenclosed, prints_where};
ghost use Rattle.sql_builder.specs.{has_fit_conditions, is_fit, Bare, clause_list, read, HasClosedFragments, shape, error_at, statement, text_at, made_by};
ghost use Rattle.sql_builder.specs.{makes_table, needs_brackets};
ghost use Rattle.sql_parts.specs.Tokens.{closed, tokens};

use crate::builder::SqlBuilder;
pub use crate::checks::{
    CheckedError, InvalidText, Place, check, check_confined, run_checked, run_confined,
};
use crate::clauses::Kind;
pub use crate::condition::{BorrowedCondition, Condition, Family, Percent, Relation};
pub use crate::ghost_list::GhostList;
use crate::sink::Count;
pub use crate::steps::{
    BinaryClause, NullaryClause, UnaryClause, VariadicClause, add_condition, add_row,
    condition_text, make_binary, make_condition, make_nullary, make_order, make_unary,
    make_variadic, restart_on, restart_values,
};
pub use crate::text_list::TextList;
use sql_parts::SqlBuilderError;
use sql_parts::text::Items;
use std::alloc::{AllocError, Global};

/// The start of a list of calls.
#[derive(Drop)]
pub enum Start {
    /// A call of `select_from` with this table.
    SelectFrom(String),
    /// A call of `select_values` with these values.
    SelectValues(Vec<String>),
    /// A call of `insert_into` with this table.
    InsertInto(String),
    /// A call of `update_table` with this table.
    UpdateTable(String),
    /// A call of `delete_from` with this table.
    DeleteFrom(String),
}

/// The start of a statement on a table. For `restart_on`, and for the crates here alone.
#[derive(Clone, Copy)]
pub enum TableStart {
    /// A call of `select_from`.
    SelectFrom,
    /// A call of `insert_into`.
    InsertInto,
    /// A call of `update_table`.
    UpdateTable,
    /// A call of `delete_from`.
    DeleteFrom,
}

/// A call that changes a builder.
#[derive(Drop)]
pub enum Call {
    /// A call of `natural`.
    Natural,
    /// A call of `left`.
    Left,
    /// A call of `left_outer`.
    LeftOuter,
    /// A call of `right`.
    Right,
    /// A call of `right_outer`.
    RightOuter,
    /// A call of `inner`.
    Inner,
    /// A call of `cross`.
    Cross,
    /// A call of `distinct`.
    Distinct,
    /// A call of `and_table` with this table.
    AndTable(String),
    /// A call of `join` with this table.
    Join(String),
    /// A call of `on` with this constraint.
    On(String),
    /// A call of `on_eq` with these two texts.
    OnEq(String, String),
    /// A call of `fields` with this list.
    Fields(Vec<String>),
    /// A call of `set_fields` with this list.
    SetFields(Vec<String>),
    /// A call of `field` with this text.
    Field(String),
    /// A call of `set_field` with this text.
    SetField(String),
    /// A call of `count` with this field.
    Count(String),
    /// A call of `count_as` with this field and this name.
    CountAs(String, String),
    /// A call of `set` with this field and this value.
    SetTo(String, String),
    /// A call of `set_str` with this field and this text, which is quoted.
    SetStr(String, String),
    /// A call of `values` with this row.
    Values(Vec<String>),
    /// A call of `select` with this query.
    Select(String),
    /// A call of `returning` with this text.
    Returning(String),
    /// A call of `returning_id`.
    ReturningId,
    /// A call of `group_by` with this field.
    GroupBy(String),
    /// A call of `having` with this condition.
    Having(String),
    /// A call of `union` with this query.
    Union(String),
    /// A call of `union_all` with this query.
    UnionAll(String),
    /// A call of `order_by` with this field, descending where the truth value says so.
    OrderBy(String, bool),
    /// A call of `order_asc` with this field.
    OrderAsc(String),
    /// A call of `order_desc` with this field.
    OrderDesc(String),
    /// A call of `limit` with this text.
    Limit(String),
    /// A call of `offset` with this text.
    Offset(String),
    /// The call of this family that adds this condition.
    Cond(Family, Condition),
}

/// The finish of a list of calls.
#[derive(Drop)]
pub enum Finish {
    /// A call of `sql`.
    Sql,
    /// A call of `query`.
    Query,
    /// A call of `query_values`.
    QueryValues,
    /// A call of `subquery`.
    Subquery,
    /// A call of `subquery_as` with this name.
    SubqueryAs(String),
}

/// Returns the builder that a start makes. Fails only if memory runs out.
/// `begin(alloc, &Start::SelectFrom(String::from_str(alloc, "t")?))?.sql()?` gives
/// `SELECT * FROM t;`
pub fn begin(alloc: Global, start: &Start) -> Result<SqlBuilder, SqlBuilderError>
    ensures made { IfOk result (λ b. b ≡ started (start_view start.now)) }
    ensures memory { FailsOnlyByMemory result }
{
    match start {
        Start::SelectFrom(table) => SqlBuilder::select_from(alloc, table),
        Start::SelectValues(values) => SqlBuilder::select_values(alloc, values.as_slice()),
        Start::InsertInto(table) => SqlBuilder::insert_into(alloc, table),
        Start::UpdateTable(table) => SqlBuilder::update_table(alloc, table),
        Start::DeleteFrom(table) => SqlBuilder::delete_from(alloc, table),
    }
}

impl TableStart {
    #[inline(always)]
    pub(crate) fn kind(self) -> Kind
        ensures { (table : List ℕ) → result ≡ kind_of (start_on self table) }
    {
        match self {
            TableStart::SelectFrom => Kind::SelectFrom,
            TableStart::InsertInto => Kind::InsertInto,
            TableStart::UpdateTable => Kind::UpdateTable,
            TableStart::DeleteFrom => Kind::DeleteFrom,
        }
    }
}

/// Returns the builder of a statement on this table. Never fails. It is inlined, so that
/// `sql_typed` makes the builder in its box. For the crates here alone.
/// `begin_on(alloc, TableStart::SelectFrom, String::from_str(alloc, "t")?).sql()?` gives
/// `SELECT * FROM t;`
#[inline(always)]
pub fn begin_on(alloc: Global, start: TableStart, table: String) -> SqlBuilder
    ensures started { result ≡ started (start_on start (string_bytes table)) }
{
    SqlBuilder::new(alloc, start.kind(), table, TextList::new(alloc))
}

/// Turns a builder into that of another start, and keeps its buffers. Fails only if memory runs
/// out, and then leaves the builder unchanged.
/// ```
/// let mut b = SqlBuilder::select_from(alloc, "t")?;
/// b.field("a")?;
/// restart(&mut b, &Start::DeleteFrom(String::from_str(alloc, "u")?))?;
/// b.sql()?; // DELETE FROM u;
/// ```
pub fn restart(builder: &mut SqlBuilder, start: &Start) -> Result<(), SqlBuilderError>
    ensures restarted { OnOk result (builder.new ≡ started (start_view start.now)) }
    ensures unchanged { OnErr result (builder.new ≡ builder.old) }
    ensures memory { FailsOnlyByMemory result }
{
    match start {
        Start::SelectFrom(table) => restart_on(builder, TableStart::SelectFrom, table),
        Start::SelectValues(values) => restart_values(builder, Items { items: values }),
        Start::InsertInto(table) => restart_on(builder, TableStart::InsertInto, table),
        Start::UpdateTable(table) => restart_on(builder, TableStart::UpdateTable, table),
        Start::DeleteFrom(table) => restart_on(builder, TableStart::DeleteFrom, table),
    }
}

/// Makes a call of a builder. Fails only if memory runs out, and then leaves the builder unchanged.
/// Never fails for `natural`, `distinct` and the six operators, nor for `on` and `on_eq` without a
/// join.
/// ```
/// let mut b = begin(alloc, &Start::SelectFrom(String::from_str(alloc, "t")?))?;
/// make(&mut b, &Call::Field(String::from_str(alloc, "a")?))?;
/// b.sql()?; // SELECT a FROM t;
/// ```
pub fn make(builder: &mut SqlBuilder, call: &Call) -> Result<(), SqlBuilderError>
    ensures made { OnOk result (builder.new ≡ with_call (call_view call.now) builder.old) }
    ensures unchanged { OnErr result (builder.new ≡ builder.old) }
    ensures memory { IfErr result (IsCallError (call_view call.now) builder.old) }
{
    match call {
        Call::Natural => make_nullary(builder, NullaryClause::Natural),
        Call::Left => make_nullary(builder, NullaryClause::Left),
        Call::LeftOuter => make_nullary(builder, NullaryClause::LeftOuter),
        Call::Right => make_nullary(builder, NullaryClause::Right),
        Call::RightOuter => make_nullary(builder, NullaryClause::RightOuter),
        Call::Inner => make_nullary(builder, NullaryClause::Inner),
        Call::Cross => make_nullary(builder, NullaryClause::Cross),
        Call::Distinct => make_nullary(builder, NullaryClause::Distinct),
        Call::ReturningId => make_nullary(builder, NullaryClause::ReturningId),
        Call::AndTable(table) => make_unary(builder, UnaryClause::AndTable, table),
        Call::Join(table) => make_unary(builder, UnaryClause::Join, table),
        Call::On(constraint) => make_unary(builder, UnaryClause::On, constraint),
        Call::Field(field) => make_unary(builder, UnaryClause::Field, field),
        Call::SetField(field) => make_unary(builder, UnaryClause::SetField, field),
        Call::Count(field) => make_unary(builder, UnaryClause::Count, field),
        Call::Select(query) => make_unary(builder, UnaryClause::Select, query),
        Call::Returning(fields) => make_unary(builder, UnaryClause::Returning, fields),
        Call::GroupBy(field) => make_unary(builder, UnaryClause::GroupBy, field),
        Call::Having(condition) => make_unary(builder, UnaryClause::Having, condition),
        Call::Union(query) => make_unary(builder, UnaryClause::Union, query),
        Call::UnionAll(query) => make_unary(builder, UnaryClause::UnionAll, query),
        Call::OrderAsc(field) => make_unary(builder, UnaryClause::OrderAsc, field),
        Call::OrderDesc(field) => make_unary(builder, UnaryClause::OrderDesc, field),
        Call::Limit(limit) => make_unary(builder, UnaryClause::Limit, limit),
        Call::Offset(offset) => make_unary(builder, UnaryClause::Offset, offset),
        Call::OnEq(left, right) => make_binary(builder, BinaryClause::OnEq, left, right),
        Call::CountAs(field, name) => make_binary(builder, BinaryClause::CountAs, field, name),
        Call::SetTo(field, value) => make_binary(builder, BinaryClause::SetTo, field, value),
        Call::SetStr(field, value) => make_binary(builder, BinaryClause::SetStr, field, value),
        Call::Fields(fields) => make_variadic(
            builder,
            VariadicClause::Fields,
            Items { items: fields },
        ),
        Call::SetFields(fields) => make_variadic(
            builder,
            VariadicClause::SetFields,
            Items { items: fields },
        ),
        Call::Values(values) => make_variadic(
            builder,
            VariadicClause::Values,
            Items { items: values },
        ),
        Call::OrderBy(field, descending) => make_order(builder, field, *descending),
        Call::Cond(family, condition) => make_condition(builder, *family, condition.borrowed()),
    }
}

#[tactic(auto, using(crate::proofs::statements::RunLemmas::clauses_start))]
fn build(alloc: Global, start: &Start, calls: &[Call]) -> Result<SqlBuilder, SqlBuilderError>
    ensures made { IfOk result (λ b. b
        ≡ made_by (start_view start.now) (map call_view calls.now)) }
    ensures memory { FailsOnlyByMemory result }
{
    let mut builder = begin(alloc, start)?;
    for call in calls {
        make(&mut builder, call)?;
    }
    Ok(builder)
}

// An empty text with room for just what `print` gives.
#[inline(always)]
fn room_for(builder: &SqlBuilder, finish: &Finish) -> Result<String, AllocError>
    ensures empty { IfOk result (λ s. string_bytes s ≡ []) }
    ensures exact { IfOk result (λ s. string_capacity s
        ≡ length (text_at (finish_view finish.now) builder.now)) }
{
    String::with_capacity(builder.alloc, printed_length(builder, finish))
}

/// Returns what a finish prints of a builder. Fails as the printing call that is meant does, or if
/// memory runs out.
///
/// A builder that `begin` and `make` made prints the statement of its start and calls, as `run`
/// does. `laws::builders_print_statements` says so. The laws of statements say the rest of it.
/// `print(&begin(alloc, &Start::SelectFrom(String::from_str(alloc, "t")?))?, &Finish::Query)?`
/// gives `SELECT * FROM t`
pub fn print(builder: &SqlBuilder, finish: &Finish) -> Result<String, SqlBuilderError>
    ensures text { IfOk result (λ s. string_bytes s
        ≡ text_at (finish_view finish.now) builder.now) }
    ensures error { IfSome (error_at (finish_view finish.now) builder.now)
        (λ error. result ≡ Err error) }
    ensures memory { IsNone (error_at (finish_view finish.now) builder.now)
        → FailsOnlyByMemory result }
{
    builder.check_finish(finish)?;
    let mut out = room_for(builder, finish)?;
    builder.push_finished(finish, &mut out);
    Ok(out)
}

/// Returns how many bytes `print` returns, or the greatest `usize` if there are more. It is the
/// same if `print` fails. Never fails.
/// `printed_length(&begin(alloc, &Start::SelectFrom(String::from_str(alloc, "t")?))?, &Finish::Query)` gives
/// `15`
pub fn printed_length(builder: &SqlBuilder, finish: &Finish) -> usize
    ensures { result ≡ min (length (text_at (finish_view finish.now) builder.now)) (2 ^ 64 - 1) }
{
    let mut count = Count::with_room(GhostList::of(&(builder, finish)));
    builder.push_finished(finish, &mut count);
    count.len()
}

/// Appends to a text what `print` returns. Fails as `print` does, and then leaves `out` unchanged.
/// Memory can't run out if the text has room for `printed_length` more bytes.
/// ```
/// let mut s = String::from_str(alloc, "-- ")?;
/// print_to(&begin(alloc, &Start::SelectFrom(String::from_str(alloc, "t")?))?, &Finish::Query, &mut s)?;
/// s; // -- SELECT * FROM t
/// ```
pub fn print_to(
    builder: &SqlBuilder,
    finish: &Finish,
    out: &mut String,
) -> Result<(), SqlBuilderError>
    ensures appended { OnOk result (string_bytes out.new
        ≡ string_bytes out.old ++ text_at (finish_view finish.now) builder.now) }
    ensures unchanged { OnErr result (string_bytes out.new ≡ string_bytes out.old) }
    ensures error { IfSome (error_at (finish_view finish.now) builder.now)
        (λ error. result ≡ Err error) }
    ensures memory { IsNone (error_at (finish_view finish.now) builder.now)
        → FailsOnlyByMemory result }
    ensures succeeds { IsNone (error_at (finish_view finish.now) builder.now)
        → string_len out.old + length (text_at (finish_view finish.now) builder.now)
        ≤ string_capacity out.old → IsOk result }
{
    builder.check_finish(finish)?;
    out.reserve(printed_length(builder, finish))?;
    builder.push_finished(finish, out);
    Ok(())
}

/// Returns whether the builder has a UNION, an ORDER BY, a LIMIT or an OFFSET. Behind the UNION of
/// another query they would apply to the whole. Never fails. For the crates here alone.
/// `needs_brackets(&begin(alloc, &Start::SelectFrom(String::from_str(alloc, "t")?))?)` gives
/// `false`
pub fn needs_brackets(builder: &SqlBuilder) -> bool
    ensures { result ≡ needs_brackets builder.now }
{
    !builder.unions.is_empty()
        || !builder.order_fields.is_empty()
        || builder.limit.is_some()
        || builder.offset.is_some()
}

/// Makes the builder, makes the calls in order, and returns the statement that the whole list
/// means. Fails with the error of the list, if it has one. Memory may run out in place of either.
///
/// The fragments are the texts that it prints unchanged. If each fragment is closed, the text has
/// their tokens, and one token for each text that is quoted.
///
/// What `sql`, `query` and `query_values` print parses back, up to the first UNION, as the clauses
/// that the calls say. For this, each fragment before that UNION has to be balanced. It may have a
/// top-level clause keyword only if brackets of the builder's own are round it.
///
/// The truth of a WHERE is the AND of the groups, each the OR of its conditions. For this, the same
/// has to hold of the fragments of each condition, by the condition's own brackets. The WHERE is
/// that of a query, or of what `sql` prints of a SELECT from a table, an UPDATE or a DELETE.
///
/// If each fragment is balanced, those behind a UNION too, what `query` and `subquery_as` print is
/// balanced. What `subquery` prints is then an operand without a top-level clause keyword. What
/// `subquery_as` prints has no such word either, if its name has none.
/// `run(alloc, &Start::SelectFrom(String::from_str(alloc, "t")?), &[Call::Field(String::from_str(alloc, "a")?)], &Finish::Sql)?` gives
/// `SELECT a FROM t;`
pub fn run(
    alloc: Global,
    start: &Start,
    calls: &[Call],
    finish: &Finish,
) -> Result<String, SqlBuilderError>
    ensures text { IfOk result (λ s.
        of_list statement start.now calls.now finish.now ≡ Ok (string_bytes s)) }
    ensures error { IfErr result (λ e. IsMemory e
        ⊎ (of_list statement start.now calls.now finish.now ≡ Err e)) }
    ensures shape { of_list HasClosedFragments start.now calls.now finish.now → IfOk result (λ s.
        of_list shape start.now calls.now finish.now ≡ Ok (tokens (string_bytes s))) }
    ensures closed { of_list HasClosedFragments start.now calls.now finish.now → IfOk result (λ s.
        IsTrue (closed (string_bytes s))) }
    ensures clauses { IsTrue (is_unenclosed (finish_view finish.now))
        → of_list HasFitFragments start.now calls.now finish.now → IfOk result (λ s.
        of_list clause_list start.now calls.now finish.now ≡ Ok (read (tokens (string_bytes s)))) }
    ensures truth { IsTrue (prints_where (finish_view finish.now) (kind_of (start_view start.now)))
        → of_list HasFitFragments start.now calls.now finish.now
        → IsTrue (has_fit_conditions (map call_view calls.now)) → IfOk result (λ s.
        HasTruthOf (condition_groups (map call_view calls.now)) (string_bytes s)) }
    ensures nests { of_list HasBalancedFragments start.now calls.now finish.now → IfOk result (λ s.
        IsTrue (is_nested (finish_view finish.now) (string_bytes s))) }
    ensures nests_as_table { IsTrue (makes_table (finish_view finish.now))
        → of_list HasBalancedFragments start.now calls.now finish.now → IfOk result (λ s.
        IsTrue (is_fit (Bare (string_bytes s)))) }
{
    let builder = build(alloc, start, calls)?;
    print(&builder, finish)
}

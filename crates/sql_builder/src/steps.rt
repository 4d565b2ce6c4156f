//! The steps of the calls: one for each way to be given texts. A constant says which clause is
//! meant. One step adds a condition, and two restart a builder. Those that borrow their texts are
//! public in `calls`.
ghost use Rattle.std.specs.Prelude.{◌≡◌, [], ◌∷◌, ◌++◌, map, codes, drop, string_bytes, IfErr, IfOk, OnOk, OnErr};
ghost use Rattle.sql_parts.specs.Error.{FailsOnlyByMemory};
ghost use Rattle.sql_parts.specs.Quoting.{escaped};
ghost use Rattle.sql_builder.specs.{with_condition, with_condition_bytes, with_order, with_returning, IsBinaryError, IsNullaryError, IsUnaryError, with_binary};
ghost use Rattle.sql_builder.specs.{SelectValues, start_on, started, with_nullary, with_row, with_unary, with_variadic, concat_bytes, borrowed_view, condition_bytes, AddsBinary, Applies};

use crate::builder::SqlBuilder;
use crate::calls::TableStart;
use crate::clauses::{GroupedCondition, JoinOperator, Kind};
use crate::concat::{Part, append, replace};
use crate::condition::{BorrowedCondition, Family};
use crate::ghost_list::GhostList;
use crate::text_list::TextList;
use sql_parts::loan::Loan;
use sql_parts::text::{Items, Texts};
use sql_parts::{SqlBuilderError, ToText, escaped, split_at_quote};
use std::alloc::Global;
use std::mem::swap;

/// A call without a text. For the crates here alone.
#[derive(Clone, Copy)]
pub enum NullaryClause {
    /// A call of `natural`.
    Natural,
    /// A call of `left`.
    Left,
    /// A call of `left_outer`.
    LeftOuter,
    /// A call of `right`.
    Right,
    /// A call of `right_outer`.
    RightOuter,
    /// A call of `inner`.
    Inner,
    /// A call of `cross`.
    Cross,
    /// A call of `distinct`.
    Distinct,
    /// A call of `returning_id`.
    ReturningId,
}

/// A call with one text. For the crates here alone.
#[derive(Clone, Copy)]
pub enum UnaryClause {
    /// A call of `and_table` with a table.
    AndTable,
    /// A call of `join` with a table.
    Join,
    /// A call of `on` with a constraint.
    On,
    /// A call of `field` with a field.
    Field,
    /// A call of `set_field` with a field.
    SetField,
    /// A call of `count` with a field.
    Count,
    /// A call of `select` with a query.
    Select,
    /// A call of `returning` with fields.
    Returning,
    /// A call of `group_by` with a field.
    GroupBy,
    /// A call of `having` with a condition.
    Having,
    /// A call of `union` with a query.
    Union,
    /// A call of `union_all` with a query.
    UnionAll,
    /// A call of `order_asc` with a field.
    OrderAsc,
    /// A call of `order_desc` with a field.
    OrderDesc,
    /// A call of `limit` with a number.
    Limit,
    /// A call of `offset` with a number.
    Offset,
}

/// A call with two texts. For the crates here alone.
#[derive(Clone, Copy)]
pub enum BinaryClause {
    /// A call of `on_eq` with two texts.
    OnEq,
    /// A call of `count_as` with a field and a name.
    CountAs,
    /// A call of `set` with a field and a value.
    SetTo,
    /// A call of `set_str` with a field and a text, which is quoted.
    SetStr,
}

/// A call with a list of texts. For the crates here alone.
#[derive(Clone, Copy)]
pub enum VariadicClause {
    /// A call of `fields`.
    Fields,
    /// A call of `set_fields`.
    SetFields,
    /// A call of `values` with a row.
    Values,
}

/// How many conditions have room at first, so that lists of them grow less often.
const SOME_CONDITIONS: usize = 16;

impl SqlBuilder {
    ghost use Rattle.sql_builder.specs.Builder.{IsConstraintError, with_distinct, with_fields, with_fields_set, with_group_field, with_having, with_join, with_limit, with_natural, with_offset, with_on, with_operator, with_query, with_set, with_table, with_union};

    fn push_table(&mut self, table: &str) -> Result<(), SqlBuilderError>
        ensures { Applies result self.old self.new (with_table table.now) }
    {
        Ok(append(&mut self.table, &[Part(", "), Part(table)])?)
    }

    pub(crate) fn put_natural(&mut self)
        ensures { self.new ≡ with_natural self.old }
    {
        self.natural = true;
    }

    pub(crate) fn put_operator(&mut self, operator: JoinOperator)
        ensures { self.new ≡ with_operator operator self.old }
    {
        self.operator = Some(operator);
    }

    pub(crate) fn put_distinct(&mut self)
        ensures { self.new ≡ with_distinct self.old }
    {
        self.distinct = true;
    }

    // A function of its own, as the two that print constraints and unions, so that the others have less
    // to clear.
    #[inline(never)]
    fn push_join(&mut self, table: &str) -> Result<(), SqlBuilderError>
        ensures { Applies result self.old self.new (with_join table.now) }
    {
        let natural = if self.natural { "NATURAL " } else { "" };
        let words = JoinOperator::words(self.operator);
        let parts = [Part(" "), Part(natural), Part(words), Part(table)];
        let joins = GhostList::of(&(&self.joins, parts));
        self.joins.print(&parts, joins)?;
        self.natural = false;
        Ok(())
    }

    // A constraint of the last join, in parts of which the first is ` ON `. Without a join it does nothing,
    // and can't fail.
    #[inline(always)]
    fn push_constraint(&mut self, parts: &[Part<'_>]) -> Result<(), SqlBuilderError>
        requires on { concat_bytes parts.now ≡ codes " ON " ++ drop 4 (concat_bytes parts.now) }
        ensures done { Applies result self.old self.new (with_on (drop 4 (concat_bytes parts.now))) }
        ensures memory { IfErr result (IsConstraintError self.old) }
    {
        if self.joins.is_empty() {
            return Ok(());
        }
        let added: GhostList<u8> = GhostList::of(&parts);
        let joins = GhostList::of(&(&self.joins, &added));
        Ok(self.joins.print(parts, joins)?)
    }

    #[inline(never)]
    fn push_on(&mut self, condition: &str) -> Result<(), SqlBuilderError>
        ensures done { Applies result self.old self.new (with_on condition.now) }
        ensures memory { IfErr result (IsConstraintError self.old) }
    {
        self.push_constraint(&[Part(" ON "), Part(condition)])
    }

    #[inline(never)]
    fn push_on_eq<'a>(&mut self, left: &'a str, right: &'a str) -> Result<(), SqlBuilderError>
        ensures done { Applies result self.old self.new
            (with_on (left.now ++ (codes " = " ++ right.now))) }
        ensures memory { IfErr result (IsConstraintError self.old) }
    {
        self.push_constraint(&[Part(" ON "), Part(left), Part(" = "), Part(right)])
    }

    fn push_field(&mut self, parts: &[Part<'_>]) -> Result<(), SqlBuilderError>
        ensures { Applies result self.old self.new (with_fields (concat_bytes parts.now ∷ [])) }
    {
        Ok(self.fields.push(parts)?)
    }

    fn set_only_field(&mut self, field: &str) -> Result<(), SqlBuilderError>
        ensures { Applies result self.old self.new (with_fields_set (field.now ∷ [])) }
    {
        Ok(self.fields.replace(&[Part(field)])?)
    }

    // A part of each caller, where the number of parts is known.
    #[inline(always)]
    fn push_set(&mut self, parts: &[Part<'_>]) -> Result<(), SqlBuilderError>
        ensures { Applies result self.old self.new (with_set (concat_bytes parts.now)) }
    {
        Ok(self.sets.push(parts)?)
    }

    // A text without a quote. A function of its own has less to clear where it is called, as has the next.
    #[inline(never)]
    fn push_plain_set<'a>(&mut self, field: &'a str, text: &'a str) -> Result<(), SqlBuilderError>
        ensures { Applies result self.old self.new (with_set
            (field.now ++ (codes " = '" ++ (text.now ++ codes "'")))) }
    {
        self.push_set(&[Part(field), Part(" = '"), Part(text), Part("'")])
    }

    // What is before the first quote of a text and, with its quotes doubled, what is after it.
    #[inline(never)]
    fn push_doubled_set<'a>(
        &mut self,
        field: &'a str,
        before: &'a str,
        after: &'a str,
    ) -> Result<(), SqlBuilderError>
        ensures { Applies result self.old self.new (with_set (field.now
            ++ (codes " = '" ++ (before.now ++ (codes "''" ++ (after.now ++ codes "'")))))) }
    {
        self.push_set(&[
            Part(field),
            Part(" = '"),
            Part(before),
            Part("''"),
            Part(after),
            Part("'"),
        ])
    }

    #[tactic(auto, using(std::proofs::lemmas::List::append_assoc))]
    fn push_quoted_set(&mut self, field: &str, text: &str) -> Result<(), SqlBuilderError>
        ensures { Applies result self.old self.new (with_set
            (field.now ++ (codes " = '" ++ (escaped text.now ++ codes "'")))) }
    {
        let Some((before, after)) = split_at_quote(text) else {
            return self.push_plain_set(field, text);
        };
        let after = escaped(self.alloc, after)?;
        self.push_doubled_set(field, before, after.as_str())
    }

    fn put_query(&mut self, query: &str) -> Result<(), SqlBuilderError>
        ensures { Applies result self.old self.new (with_query query.now) }
    {
        self.query.set(query)?;
        self.rows.clear();
        Ok(())
    }

    pub(crate) fn put_returning(&mut self, fields: &str) -> Result<(), SqlBuilderError>
        ensures { Applies result self.old self.new (with_returning fields.now) }
    {
        Ok(self.returning.set(fields)?)
    }

    fn push_group_field(&mut self, field: &str) -> Result<(), SqlBuilderError>
        ensures { Applies result self.old self.new (with_group_field field.now) }
    {
        Ok(self.group_fields.push(&[Part(field)])?)
    }

    fn put_having(&mut self, condition: &str) -> Result<(), SqlBuilderError>
        ensures { Applies result self.old self.new (with_having condition.now) }
    {
        Ok(self.having.set(condition)?)
    }

    #[inline(never)]
    #[tactic(auto, using(crate::proofs::output::LoopFacts::printed_push))]
    fn push_union(&mut self, all: bool, query: &str) -> Result<(), SqlBuilderError>
        ensures { Applies result self.old self.new (with_union all query.now) }
    {
        let words = if all { " UNION ALL " } else { " UNION " };
        let unions = GhostList::of(&(&self.unions, all, query));
        Ok(self.unions.print(&[Part(words), Part(query)], unions)?)
    }

    fn put_limit(&mut self, limit: &str) -> Result<(), SqlBuilderError>
        ensures { Applies result self.old self.new (with_limit limit.now) }
    {
        Ok(self.limit.set(limit)?)
    }

    fn put_offset(&mut self, offset: &str) -> Result<(), SqlBuilderError>
        ensures { Applies result self.old self.new (with_offset offset.now) }
    {
        Ok(self.offset.set(offset)?)
    }

    #[tactic(auto, using(crate::proofs::lists::GroupLemmas::one_more_condition))]
    pub(crate) fn push_condition(
        &mut self,
        family: Family,
        condition: String,
    ) -> Result<(), SqlBuilderError>
        ensures { Applies result self.old self.new
            (with_condition_bytes family (string_bytes condition)) }
    {
        if self.conditions.len() == self.conditions.capacity() {
            self.conditions.reserve(SOME_CONDITIONS)?;
        }
        self.conditions.push_reserved(GroupedCondition {
            opens_group: matches!(family, Family::And),
            text: condition,
        });
        Ok(())
    }
}

/// Turns a builder into that of a statement on this table, and keeps its buffers. Fails only if
/// memory runs out, and then leaves the builder unchanged. For `sqlb`: as `restart`, with its text
/// borrowed.
/// ```
/// let mut b = SqlBuilder::select_from(alloc, "t")?;
/// restart_on(&mut b, TableStart::DeleteFrom, "u")?;
/// b.sql()?; // DELETE FROM u;
/// ```
pub fn restart_on(
    builder: &mut SqlBuilder,
    start: TableStart,
    table: &str,
) -> Result<(), SqlBuilderError>
    ensures restarted { OnOk result (builder.new ≡ started (start_on start table.now)) }
    ensures unchanged { OnErr result (builder.new ≡ builder.old) }
    ensures memory { FailsOnlyByMemory result }
{
    let kind = start.kind();
    replace(&mut builder.table, table)?;
    builder.fields.clear();
    builder.clear(kind);
    Ok(())
}

/// Turns a builder into that of a SELECT of these values, without a table, and keeps its buffers.
/// The values are taken one after another. Fails only if memory runs out, and then leaves the
/// builder unchanged. For `sqlb`: as `restart`, with its texts borrowed.
/// ```
/// let mut b = SqlBuilder::select_from(alloc, "t")?;
/// restart_values(&mut b, Items { items: &[1, 2] })?;
/// b.sql()?; // SELECT 1, 2;
/// ```
pub fn restart_values<'a, T: Texts<'a>>(
    builder: &mut SqlBuilder,
    values: T,
) -> Result<(), SqlBuilderError>
    ensures restarted { OnOk result (builder.new ≡ started (SelectValues (T.left values))) }
    ensures unchanged { OnErr result (builder.new ≡ builder.old) }
    ensures memory { FailsOnlyByMemory result }
{
    builder.spare.refill(builder.alloc, values)?;
    swap(&mut builder.fields, &mut builder.spare);
    builder.table.clear();
    builder.clear(Kind::SelectValues);
    Ok(())
}

/// Makes a call without a text, for `make`, `sqlb` and `sql_typed`. `returning_id` fails only if
/// memory runs out, and then leaves the builder unchanged. The others never fail.
/// ```
/// let mut b = SqlBuilder::select_from(alloc, "t")?;
/// make_nullary(&mut b, NullaryClause::Distinct)?;
/// b.sql()?; // SELECT DISTINCT * FROM t;
/// ```
pub fn make_nullary(builder: &mut SqlBuilder, clause: NullaryClause) -> Result<(), SqlBuilderError>
    ensures made { OnOk result (builder.new ≡ with_nullary clause builder.old) }
    ensures unchanged { OnErr result (builder.new ≡ builder.old) }
    ensures memory { IfErr result (IsNullaryError clause) }
{
    match clause {
        NullaryClause::Natural => builder.put_natural(),
        NullaryClause::Left => builder.put_operator(JoinOperator::Left),
        NullaryClause::LeftOuter => builder.put_operator(JoinOperator::LeftOuter),
        NullaryClause::Right => builder.put_operator(JoinOperator::Right),
        NullaryClause::RightOuter => builder.put_operator(JoinOperator::RightOuter),
        NullaryClause::Inner => builder.put_operator(JoinOperator::Inner),
        NullaryClause::Cross => builder.put_operator(JoinOperator::Cross),
        NullaryClause::Distinct => builder.put_distinct(),
        NullaryClause::ReturningId => return builder.put_returning("id"),
    }
    Ok(())
}

/// Makes a call with one text. Fails only if memory runs out, and then leaves the builder
/// unchanged. Never fails for `on` without a join. For `sqlb` and `sql_typed`: its text is
/// borrowed.
/// ```
/// let mut b = SqlBuilder::select_from(alloc, "t")?;
/// make_unary(&mut b, UnaryClause::Field, "a")?;
/// b.sql()?; // SELECT a FROM t;
/// ```
#[inline(always)]
pub fn make_unary(
    builder: &mut SqlBuilder,
    clause: UnaryClause,
    text: &str,
) -> Result<(), SqlBuilderError>
    ensures made { OnOk result (builder.new ≡ with_unary clause text.now builder.old) }
    ensures unchanged { OnErr result (builder.new ≡ builder.old) }
    ensures memory { IfErr result (IsUnaryError clause builder.old) }
{
    match clause {
        UnaryClause::AndTable => builder.push_table(text),
        UnaryClause::Join => builder.push_join(text),
        UnaryClause::On => builder.push_on(text),
        UnaryClause::Field => builder.push_field(&[Part(text)]),
        UnaryClause::SetField => builder.set_only_field(text),
        UnaryClause::Count => builder.push_field(&[Part("COUNT("), Part(text), Part(")")]),
        UnaryClause::Select => builder.put_query(text),
        UnaryClause::Returning => builder.put_returning(text),
        UnaryClause::GroupBy => builder.push_group_field(text),
        UnaryClause::Having => builder.put_having(text),
        UnaryClause::Union => builder.push_union(false, text),
        UnaryClause::UnionAll => builder.push_union(true, text),
        UnaryClause::OrderAsc => make_order(builder, text, false),
        UnaryClause::OrderDesc => make_order(builder, text, true),
        UnaryClause::Limit => builder.put_limit(text),
        UnaryClause::Offset => builder.put_offset(text),
    }
}

/// Makes a call with two texts. Fails only if memory runs out, and then leaves the builder
/// unchanged. Never fails for `on_eq` without a join. For `sqlb` and `sql_typed`: its texts are
/// borrowed.
/// ```
/// let mut b = SqlBuilder::update_table(alloc, "t")?;
/// make_binary(&mut b, BinaryClause::SetTo, "a", "1")?;
/// b.sql()?; // UPDATE t SET a = 1;
/// ```
pub fn make_binary<'a>(
    builder: &mut SqlBuilder,
    clause: BinaryClause,
    first: &'a str,
    second: &'a str,
) -> Result<(), SqlBuilderError>
    ensures made { OnOk result (builder.new
        ≡ with_binary clause first.now second.now builder.old) }
    ensures unchanged { OnErr result (builder.new ≡ builder.old) }
    ensures memory { IfErr result (IsBinaryError clause builder.old) }
{
    match clause {
        BinaryClause::OnEq => builder.push_on_eq(first, second),
        BinaryClause::CountAs => builder.push_field(&[
            Part("COUNT("),
            Part(first),
            Part(") AS "),
            Part(second),
        ]),
        BinaryClause::SetTo => builder.push_set(&[Part(first), Part(" = "), Part(second)]),
        BinaryClause::SetStr => builder.push_quoted_set(first, second),
    }
}

/// Makes a call with a list of texts. Fails only if memory runs out, and then leaves the builder
/// unchanged. For `sqlb` and `sql_typed`: its texts are taken one after another.
/// ```
/// let mut b = SqlBuilder::select_from(alloc, "t")?;
/// make_variadic(&mut b, VariadicClause::Fields, Items { items: &["a", "b"] })?;
/// b.sql()?; // SELECT a, b FROM t;
/// ```
pub fn make_variadic<'a, T: Texts<'a>>(
    builder: &mut SqlBuilder,
    clause: VariadicClause,
    texts: T,
) -> Result<(), SqlBuilderError>
    ensures made { OnOk result (builder.new ≡ with_variadic clause (T.left texts) builder.old) }
    ensures unchanged { OnErr result (builder.new ≡ builder.old) }
    ensures memory { FailsOnlyByMemory result }
{
    let spare = &mut builder.spare;
    match clause {
        VariadicClause::Fields if !builder.fields.is_empty() => {
            spare.refill(builder.alloc, texts)?;
            builder.fields.append(spare)?;
        }
        VariadicClause::Fields | VariadicClause::SetFields => {
            spare.refill(builder.alloc, texts)?;
            swap(&mut builder.fields, spare);
        }
        VariadicClause::Values => {
            builder.rows.push_row(builder.alloc, texts)?;
            builder.query.clear();
        }
    }
    Ok(())
}

/// Makes the call of VALUES with a row whose texts are stored. Fails only if memory runs out, and
/// then leaves the builder unchanged. For `sql_typed`: the row is borrowed.
/// ```
/// let mut b = SqlBuilder::insert_into(alloc, "t")?;
/// let mut row = TextList::new(alloc);
/// row.push_text(alloc, &1)?;
/// add_row(&mut b, &row)?;
/// b.field("a")?.sql()?; // INSERT INTO t (a) VALUES (1);
/// ```
pub fn add_row(builder: &mut SqlBuilder, row: &TextList) -> Result<(), SqlBuilderError>
    ensures made { OnOk result (builder.new
        ≡ with_row row.now builder.old) }
    ensures unchanged { OnErr result (builder.new ≡ builder.old) }
    ensures memory { FailsOnlyByMemory result }
{
    let parts = [Part("("), Part(row.as_str()), Part(")")];
    builder.rows.push(&parts)?;
    builder.query.clear();
    Ok(())
}

/// Makes a call of ORDER BY. Fails only if memory runs out, and then leaves the builder unchanged.
/// For `sqlb`: its text is borrowed.
/// ```
/// let mut b = SqlBuilder::select_from(alloc, "t")?;
/// make_order(&mut b, "a", true)?;
/// b.sql()?; // SELECT * FROM t ORDER BY a DESC;
/// ```
pub fn make_order(
    builder: &mut SqlBuilder,
    field: &str,
    descending: bool,
) -> Result<(), SqlBuilderError>
    ensures made { OnOk result (builder.new ≡ with_order descending field.now builder.old) }
    ensures unchanged { OnErr result (builder.new ≡ builder.old) }
    ensures memory { FailsOnlyByMemory result }
{
    let words = if descending { " DESC" } else { "" };
    Ok(builder.order_fields.push(&[Part(field), Part(words)])?)
}

/// Makes the call of this family that adds this condition. Fails only if memory runs out, and then
/// leaves the builder unchanged. For `sqlb`: its texts are borrowed.
/// ```
/// let mut b = SqlBuilder::select_from(alloc, "t")?;
/// make_condition(&mut b, Family::And, BorrowedCondition::InList(false, "a", Items { items: &["1", "2"] }))?;
/// b.sql()?; // SELECT * FROM t WHERE a IN (1, 2);
/// ```
pub fn make_condition<'a, T: Texts<'a>>(
    builder: &mut SqlBuilder,
    family: Family,
    condition: BorrowedCondition<'a, T>,
) -> Result<(), SqlBuilderError>
    ensures made { OnOk result (builder.new
        ≡ with_condition family (borrowed_view T.left condition.entry) builder.old) }
    ensures unchanged { OnErr result (builder.new ≡ builder.old) }
    ensures memory { FailsOnlyByMemory result }
{
    let text = condition.text(builder.alloc)?;
    builder.push_condition(family, text)
}

/// Returns the text of a condition, for a condition of `sql_typed` that it is a part of. Fails only
/// if memory runs out.
/// `condition_text(alloc, BorrowedCondition::InList(false, "a", Items { items: &["1", "2"] }))?`
/// gives `a IN (1, 2)`
pub fn condition_text<'a, T: Texts<'a>>(
    alloc: Global,
    condition: BorrowedCondition<'a, T>,
) -> Result<String, SqlBuilderError>
    ensures text { IfOk result (λ s. string_bytes s
        ≡ condition_bytes (borrowed_view T.left condition.entry)) }
    ensures memory { FailsOnlyByMemory result }
{
    condition.text(alloc)
}

/// Makes the call of this family that adds the condition of this text, which isn't copied. Fails
/// only if memory runs out, and then leaves the builder unchanged. For `sql_typed`.
/// ```
/// let mut b = SqlBuilder::select_from(alloc, "t")?;
/// add_condition(&mut b, Family::And, String::from_str(alloc, "a IN (1, 2)")?)?;
/// b.sql()?; // SELECT * FROM t WHERE a IN (1, 2);
/// ```
pub fn add_condition(
    builder: &mut SqlBuilder,
    family: Family,
    condition: String,
) -> Result<(), SqlBuilderError>
    ensures made { OnOk result (builder.new
        ≡ with_condition_bytes family (string_bytes condition) builder.old) }
    ensures unchanged { OnErr result (builder.new ≡ builder.old) }
    ensures memory { FailsOnlyByMemory result }
{
    builder.push_condition(family, condition)
}

// The same with texts that may have to be made. A constraint without a join makes none.
impl SqlBuilder {
    fn push_unary<S: ToText>(&mut self, clause: UnaryClause, text: S) -> Result<(), SqlBuilderError>
        ensures ok { OnOk result (self.new ≡ with_unary clause (S.text text) self.old) }
        ensures err { OnErr result (self.new ≡ self.old) }
        ensures memory { IfErr result (IsUnaryError clause self.old) }
    {
        if matches!(clause, UnaryClause::On) && self.joins.is_empty() {
            return Ok(());
        }
        let text = text.as_text(self.alloc)?;
        make_unary(self, clause, text.as_str())
    }

    fn push_binary<S: ToText, T: ToText>(
        &mut self,
        clause: BinaryClause,
        first: S,
        second: T,
    ) -> Result<(), SqlBuilderError>
        ensures ok { OnOk result (self.new
            ≡ with_binary clause (S.text first) (T.text second) self.old) }
        ensures err { OnErr result (self.new ≡ self.old) }
        ensures memory { IfErr result (IsBinaryError clause self.old) }
    {
        if matches!(clause, BinaryClause::OnEq) && self.joins.is_empty() {
            return Ok(());
        }
        let first = first.as_text(self.alloc)?;
        let second = second.as_text(self.alloc)?;
        make_binary(self, clause, first.as_str(), second.as_str())
    }
}

impl SqlBuilder {
    ghost use Rattle.std.specs.Borrow.{sem};
    ghost use Rattle.sql_builder.specs.BuilderLoans.{IsUnchangedIfLoanErr};
    ghost use Rattle.sql_parts.specs.Loans.{IsLoanChangedSoThat, IsLoanChangedTo};

    pub(crate) fn step_unary<S: ToText>(
        &mut self,
        clause: UnaryClause,
        text: S,
    ) -> Result<Loan<'_, SqlBuilder>, SqlBuilderError>
        ensures* unchanged { sem 𝓛 (IsUnchangedIfLoanErr self.entry result) }
        ensures changed { IsLoanChangedTo self.entry
            (with_unary clause (S.text text) self.old) result }
        ensures memory { IfErr result (IsUnaryError clause self.old) }
    {
        self.push_unary(clause, text)?;
        Ok(Loan(self))
    }

    pub(crate) fn step_returning_id(&mut self) -> Result<Loan<'_, SqlBuilder>, SqlBuilderError>
        ensures* unchanged { sem 𝓛 (IsUnchangedIfLoanErr self.entry result) }
        ensures changed { IsLoanChangedTo self.entry (with_returning (codes "id") self.old) result }
        ensures memory { FailsOnlyByMemory result }
    {
        self.put_returning("id")?;
        Ok(Loan(self))
    }

    #[tactic(auto, using(crate::proofs::pieces::ClauseShapeLemmas::adds_binary))]
    pub(crate) fn step_binary<S: ToText, T: ToText>(
        &mut self,
        clause: BinaryClause,
        first: S,
        second: T,
    ) -> Result<Loan<'_, SqlBuilder>, SqlBuilderError>
        ensures* unchanged { sem 𝓛 (IsUnchangedIfLoanErr self.entry result) }
        ensures changed { IsLoanChangedSoThat self.entry
            (AddsBinary clause (S.text first) (T.text second) self.old) result }
        ensures memory { IfErr result (IsBinaryError clause self.old) }
    {
        self.push_binary(clause, first, second)?;
        Ok(Loan(self))
    }

    pub(crate) fn step_variadic<S: ToText>(
        &mut self,
        clause: VariadicClause,
        items: &[S],
    ) -> Result<Loan<'_, SqlBuilder>, SqlBuilderError>
        ensures* unchanged { sem 𝓛 (IsUnchangedIfLoanErr self.entry result) }
        ensures changed { IsLoanChangedTo self.entry
            (with_variadic clause (map S.text items.now) self.old) result }
        ensures memory { FailsOnlyByMemory result }
    {
        make_variadic(self, clause, Items { items })?;
        Ok(Loan(self))
    }

    pub(crate) fn step_order<S: ToText>(
        &mut self,
        field: S,
        descending: bool,
    ) -> Result<Loan<'_, SqlBuilder>, SqlBuilderError>
        ensures* unchanged { sem 𝓛 (IsUnchangedIfLoanErr self.entry result) }
        ensures changed { IsLoanChangedTo self.entry
            (with_order descending (S.text field) self.old) result }
        ensures memory { FailsOnlyByMemory result }
    {
        let field = field.as_text(self.alloc)?;
        make_order(self, field.as_str(), descending)?;
        Ok(Loan(self))
    }
}

//! A statement by value.
ghost use Rattle.std.specs.Prelude.{◌≡◌, ◌+◌, ◌≤◌, [], IfErr, IfOk, IsNone, IsOk, length, string_capacity, string_len, IsTrue, List, MatchResult, None, Ok, Some, map, OnErr, OnOk, ℕ, refl, string_bytes};
ghost use Rattle.std.specs.List.{list_all};
ghost use Rattle.sql_parts.specs.Error.{FailsOnlyByMemory};
ghost use Rattle.sql_parts.specs.Fragments.{balanced};
ghost use Rattle.sql_builder.specs.Builder.{IsNullaryError, with_call};
ghost use Rattle.sql_builder.specs.Calls.{Cond, Returning, ReturningId, Sql, Values, binary_call, finish_raw_texts, finish_view, kind_of, nullary_call, start_on, unary_call};
ghost use Rattle.sql_builder.specs.declared.condition.Condition.TheVariants.{Raw};
ghost use Rattle.sql_builder.specs.FitCalls.{call_fits};
ghost use Rattle.sql_builder.specs.Meaning.{prints_where};
ghost use Rattle.sql_builder.specs.RawFragments.{is_fit};
ghost use Rattle.sql_builder.specs.Statement.{error_at, text_at};
ghost use Rattle.sql_builder.specs.StatementLaws.{made_by};
ghost use Rattle.sql_builder.specs.declared.clauses.Kind.{Kind};
ghost use Rattle.sql_builder.specs.declared.clauses.Kind.TheVariants.{DeleteFrom, InsertInto, SelectFrom, UpdateTable};
ghost use Rattle.sql_builder.specs.declared.condition.Family.TheVariants.{And, Or};
ghost use Rattle.sql_typed.specs.Faults.{FailsAs, fault_of};
ghost use Rattle.sql_typed.specs.Fits.{IsFitBy, Made, adding, beginning, meaning_all_rows};
ghost use Rattle.sql_typed.specs.Printed.{IsPrinted, PrintsBehind};
ghost use Rattle.sql_typed.specs.Results.{Gives};
ghost use Rattle.sql_typed.specs.AddedCalls.{IsAddedError, prints_added, added_call};

use crate::Result;
use crate::condition::Condition;
use crate::error::Error;
use crate::marks::Marks;
use crate::operand_text::{FragmentText, OperandText};
use sql_builder::SqlBuilder;
use sql_builder::calls::{
    BinaryClause, Family, Finish, GhostList, NullaryClause, TableStart, TextList, UnaryClause,
    VariadicClause, add_condition, add_row, begin_on, make_binary, make_nullary, make_unary,
    make_variadic, print, print_to,
};
use sql_parts::SqlBuilderError;
use sql_parts::text::{Items, ToText};
use std::alloc::{AllocError, Global};
use std::marker::{Model, PhantomData};

/// The kind of a SELECT.
#[derive(Drop)]
pub struct SelectKind {}

/// The kind of an INSERT.
#[derive(Drop)]
pub struct InsertKind {}

/// The kind of an UPDATE.
#[derive(Drop)]
pub struct UpdateKind {}

/// The kind of a DELETE.
#[derive(Drop)]
pub struct DeleteKind {}

/// The kinds of statements. Each statement is begun as its type says.
pub trait Begins {
    /// How a statement of this type is begun.
    ghost kind: { Kind };
}

impl Begins for SelectKind {
    ghost kind = { SelectFrom };
}

impl Begins for InsertKind {
    ghost kind = { InsertInto };
}

impl Begins for UpdateKind {
    ghost kind = { UpdateTable };
}

impl Begins for DeleteKind {
    ghost kind = { DeleteFrom };
}

/// The kinds of statements that have a WHERE.
pub trait Filters: Begins {
    /// That such a statement has a WHERE, if there is a condition.
    ghost has_where: { IsTrue (prints_where Sql Self.kind) };
}

impl Filters for SelectKind {
    ghost has_where = { refl };
}

impl Filters for UpdateKind {
    ghost has_where = { refl };
}

impl Filters for DeleteKind {
    ghost has_where = { refl };
}

/// The kinds of statements that change the rows of a table.
pub trait Changes: Begins {}

impl Changes for UpdateKind {}

impl Changes for DeleteKind {}

/// The kinds of statements that have a RETURNING.
pub trait Returns {}

impl Returns for InsertKind {}

impl Returns for UpdateKind {}

impl Returns for DeleteKind {}

// The type of what has made a statement.
#[derive(Drop)]
pub(crate) struct MadeOf {}

impl Model for MadeOf {
    ghost use Rattle.std.specs.Prelude.{[]};
    ghost use Rattle.sql_builder.specs.Calls.{SelectFrom};
    ghost use Rattle.sql_typed.specs.Fits.{Made, beginning};

    ghost Value = { Made };

    ghost view = { λ _. beginning (SelectFrom []) };
}

/// A builder in a box, since a call moves its statement.
pub(crate) struct BoxedBuilder {
    pub(crate) it: Box<SqlBuilder>,
}

// Not inlined: if one function alone drops it, the builder isn't copied from its box first.
impl Drop for BoxedBuilder {
    #[inline(never)]
    fn drop(self) {
        let BoxedBuilder { it: _ } = self;
    }
}

/// A statement on a table. Contracts see its start and the calls that were made after it.
#[derive(Drop)]
pub struct Statement<K: Begins> {
    pub(crate) alloc: Global,
    pub(crate) builder: BoxedBuilder,
    pub(crate) marks: Marks,
    // has one item
    pub(crate) made: GhostList<MadeOf>,
    pub(crate) kind: PhantomData<K>,
}

impl<K: Begins> Model for Statement<K> {
    ghost use Rattle.std.specs.Prelude.{◌≡◌};
    ghost use Rattle.sql_builder.specs.Calls.{kind_of};
    ghost use Rattle.sql_typed.specs.Fits.{IsFitBy, Made, made_in};
    ghost use Rattle.sql_typed.specs.Marks.{marks_of};

    ghost Value = { Made };

    ghost view = { λ s. made_in s.made.items };

    ghost invariant = { λ s. IsFitBy (made_in s.made.items) s.builder.it.value
        × (s.marks ≡ marks_of (made_in s.made.items))
        × (kind_of (made_in s.made.items).start ≡ K.kind) };
}

/// A call that is added to a statement.
#[derive(Drop)]
pub(crate) enum AddedCall<'a> {
    Unary(UnaryClause, &'a str),
    Binary(BinaryClause, &'a str, &'a str),
    Condition(Family, String),
    Nullary(NullaryClause),
    Row(TextList),
}

#[inline(always)]
fn make_call(builder: &mut SqlBuilder, added: AddedCall<'_>) -> Result<()>
    ensures made { OnOk result (builder.new ≡ with_call (added_call added.entry) builder.old) }
    ensures memory { FailsOnlyByMemory result }
    ensures error { IfErr result (IsAddedError added.entry) }
{
    match added {
        AddedCall::Unary(clause, text) => make_unary(builder, clause, text),
        AddedCall::Binary(clause, first, second) => make_binary(builder, clause, first, second),
        AddedCall::Condition(family, condition) => add_condition(builder, family, condition),
        AddedCall::Nullary(clause) => make_nullary(builder, clause),
        AddedCall::Row(values) => add_row(builder, &values),
    }
}

impl<K: Begins> Statement<K> {
    #[inline(always)]
    pub(crate) fn begin<T: FragmentText>(
        alloc: Global,
        start: TableStart,
        table: T,
    ) -> Result<Statement<K>>
        requires { kind_of (start_on start (T.text table)) ≡ K.kind }
        ensures made { Gives result (beginning (start_on start (T.text table))) }
    {
        let made = GhostList::of(&(&start, &table));
        let builder = begin_on(alloc, start, table.to_text(alloc)?);
        // A `?` would copy the builder that an error holds.
        let Ok(builder) = Box::new(alloc, builder) else {
            return Err(SqlBuilderError::Memory(AllocError));
        };
        Ok(Statement {
            alloc,
            builder: BoxedBuilder { it: builder },
            marks: Marks::of(start),
            made,
            kind: PhantomData,
        })
    }

    // One more call, whose texts fit.
    #[inline(always)]
    pub(crate) fn add(mut self, added: AddedCall<'_>) -> Result<Statement<K>>
        requires fits { IsTrue (call_fits (added_call added)) }
        requires prints { IsTrue (prints_added K.kind added) }
        ensures made { Gives result (adding (added_call added.entry) self) }
        ensures error { IfErr result (IsAddedError added.entry) }
    {
        let call: GhostList<MadeOf> = GhostList::of(&added);
        let made = GhostList::of(&(&self.made, &call));
        let marks = self.marks.with(&added);
        make_call(&mut self.builder.it, added)?;
        self.marks = marks;
        self.made = made;
        Ok(self)
    }

    // One more row, whose texts are balanced. (`add` takes a row as a list, which is allocated.)
    pub(crate) fn with_values<V: ToText>(mut self, values: &[V]) -> Result<Statement<K>>
        requires fits { IsTrue (list_all balanced (map V.text values.now)) }
        ensures made { Gives result (adding (Values (map V.text values.now)) self) }
    {
        let made = GhostList::of(&(&self.made, &values));
        let values = Items { items: values };
        make_variadic(&mut self.builder.it, VariadicClause::Values, values)?;
        self.made = made;
        Ok(self)
    }

    #[inline(always)]
    pub(crate) fn with_operand<F: OperandText>(
        self,
        clause: UnaryClause,
        text: F,
    ) -> Result<Statement<K>>
        ensures made { Gives result (adding (unary_call clause (F.text text)) self) }
    {
        let text = text.as_text(self.alloc)?;
        self.add(AddedCall::Unary(clause, text.as_str()))
    }

    #[inline(always)]
    pub(crate) fn with_fragment<T: FragmentText>(
        self,
        clause: UnaryClause,
        text: T,
    ) -> Result<Statement<K>>
        ensures made { Gives result (adding (unary_call clause (T.text text)) self) }
    {
        let text = text.as_text(self.alloc)?;
        self.add(AddedCall::Unary(clause, text.as_str()))
    }

    #[inline(always)]
    pub(crate) fn with_pair<F: OperandText, V: OperandText>(
        self,
        clause: BinaryClause,
        first: F,
        second: V,
    ) -> Result<Statement<K>>
        ensures made { Gives result
            (adding (binary_call clause (F.text first) (V.text second)) self) }
    {
        let first = first.as_text(self.alloc)?;
        let second = second.as_text(self.alloc)?;
        self.add(AddedCall::Binary(clause, first.as_str(), second.as_str()))
    }

    // A call without texts.
    #[tactic(auto, using(crate::proofs::FitLemmas::nullary_fits))]
    pub(crate) fn with_nullary(self, clause: NullaryClause) -> Result<Statement<K>>
        ensures made { Gives result (adding (nullary_call clause) self) }
        ensures error { IfErr result (IsNullaryError clause) }
    {
        self.add(AddedCall::Nullary(clause))
    }

    // Why it isn't printed, whatever the builder says.
    pub(crate) fn check(&self) -> Result<(), Error>
        ensures { MatchResult result (λ _. fault_of self.now ≡ None) (λ e. fault_of self.now ≡ Some e) }
    {
        match self.marks.fault() {
            Some(fault) => Err(fault),
            None => Ok(()),
        }
    }

    pub(crate) fn clauses(&self) -> &SqlBuilder
        ensures { IsFitBy self.now result.now }
    {
        &self.builder.it
    }

    // What a finish prints, whose name, if it has one, fits.
    pub(crate) fn print(&self, finish: &Finish) -> Result<String, Error>
        requires fits { IsTrue (list_all is_fit (finish_raw_texts (finish_view finish.now))) }
        ensures printed { IfOk result (λ s.
            IsPrinted self.now (finish_view finish.now) (string_bytes s)) }
        ensures error { FailsAs self.now (finish_view finish.now) result }
    {
        self.check()?;
        let text = print(self.clauses(), finish)?;
        Ok(text)
    }

    /// Returns an equal statement, for example for a count and a page of one search. Fails only if
    /// memory runs out.
    /// `Select::from(alloc, Fragment::of("t"))?.clone()?.sql()?` gives `SELECT * FROM t;`
    pub fn clone(&self) -> Result<Statement<K>>
        ensures equal { Gives result self.now }
    {
        let made = GhostList::of(&self.made);
        let builder = self.builder.it.clone()?;
        Ok(Statement {
            alloc: self.alloc,
            builder: BoxedBuilder {
                it: Box::new(self.alloc, builder)?,
            },
            marks: self.marks,
            made,
            kind: PhantomData,
        })
    }

    /// Returns the statement. Nothing is asked of any text.
    ///
    /// Fails with `NoCondition` if an UPDATE or a DELETE has neither a filter nor `all_rows`. What
    /// an empty list or word makes is no filter: `1 = 1`, `NOT (1 = 0)`, and LIKE of `%` or `%%`.
    /// Inside another condition it counts as one. Fails with `NoJoin` if a constraint is before the
    /// first join. Fails with `OrderBesideUnion` if an ORDER BY is beside a union.
    ///
    /// After that it fails with the builder's `NoValues` for an INSERT without a row, and
    /// `NoSetFields` for an UPDATE that sets nothing. It fails with the builder's `NoGroupBy` for a
    /// HAVING without a GROUP BY. Otherwise it fails only if memory runs out.
    /// `Select::from(alloc, Fragment::of("t"))?.and_where(eq(alloc, Operand::of("a"), Value("it's"))?)?.sql()?` gives `SELECT * FROM t WHERE a = 'it''s';`
    pub fn sql(&self) -> Result<String, Error>
        ensures printed { IfOk result (λ s. IsPrinted self.now Sql (string_bytes s)) }
        ensures error { FailsAs self.now Sql result }
    {
        self.print(&Finish::Sql)
    }

    /// Appends to a text what `sql` prints. Fails as `sql` does, and then leaves `out` unchanged.
    /// Memory can't run out if `out` has room for it.
    /// ```
    /// let mut s = String::from_str(alloc, "-- ")?;
    /// Select::from(alloc, Fragment::of("t"))?.print_to(&mut s)?;
    /// s; // -- SELECT * FROM t;
    /// ```
    pub fn print_to(&self, out: &mut String) -> Result<(), Error>
        ensures appended { OnOk result
            (PrintsBehind self.now (string_bytes out.old) (string_bytes out.new)) }
        ensures unchanged { OnErr result (string_bytes out.new ≡ string_bytes out.old) }
        ensures error { FailsAs self.now Sql result }
        ensures succeeds { let clauses = made_by self.now.start self.now.calls in
            IsNone (fault_of self.now) → IsNone (error_at Sql clauses)
            → string_len out.old + length (text_at Sql clauses) ≤ string_capacity out.old
            → IsOk result }
    {
        self.check()?;
        print_to(self.clauses(), &Finish::Sql, out)?;
        Ok(())
    }
}

impl<K: Filters> Statement<K> {
    /// Adds a condition in a group of its own. The groups are joined by AND. Fails only if memory
    /// runs out.
    /// `Delete::from(alloc, Fragment::of("t"))?.and_where(eq(alloc, Operand::of("a"), Value("it's"))?)?.sql()?` gives `DELETE FROM t WHERE a = 'it''s';`
    pub fn and_where(self, condition: Condition) -> Result<Statement<K>>
        ensures made { (text : List ℕ) → string_bytes condition.text ≡ text
            → Gives result (adding (Cond And (Raw text)) self) }
    {
        self.add(AddedCall::Condition(Family::And, condition.text))
    }

    /// Adds a condition that joins the last group by OR, or opens one if there is none. Fails only
    /// if memory runs out.
    /// `Delete::from(alloc, Fragment::of("t"))?.and_where(eq(alloc, Operand::of("a"), 1)?)?.or_where(is_null(alloc, Operand::of("b"))?)?.sql()?` gives
    /// `DELETE FROM t WHERE a = 1 OR b IS NULL;`
    pub fn or_where(self, condition: Condition) -> Result<Statement<K>>
        ensures made { (text : List ℕ) → string_bytes condition.text ≡ text
            → Gives result (adding (Cond Or (Raw text)) self) }
    {
        self.add(AddedCall::Condition(Family::Or, condition.text))
    }
}

impl<K: Changes> Statement<K> {
    /// Says that every row is meant. Without this call or a filter, printing fails with `NoCondition`.
    /// Never fails.
    /// `Delete::from(alloc, Fragment::of("t"))?.all_rows().sql()?` gives `DELETE FROM t;`
    pub fn all_rows(mut self) -> Statement<K>
        ensures made { result ≡ meaning_all_rows self }
    {
        self.marks.has_filter = true;
        self.made = GhostList::of(&self.made);
        self
    }
}

impl<K: Begins + Returns> Statement<K> {
    /// Sets what RETURNING returns. The last call counts. Fails only if memory runs out.
    /// `Delete::from(alloc, Fragment::of("t"))?.all_rows().returning(Operand::of("id"))?.sql()?` gives `DELETE FROM t RETURNING id;`
    pub fn returning<F: OperandText>(self, field: F) -> Result<Statement<K>>
        ensures made { Gives result (adding (Returning (F.text field)) self) }
    {
        self.with_operand(UnaryClause::Returning, field)
    }

    /// Sets RETURNING id. The last call counts. Fails only if memory runs out.
    /// `Delete::from(alloc, Fragment::of("t"))?.all_rows().returning_id()?.sql()?` gives
    /// `DELETE FROM t RETURNING id;`
    pub fn returning_id(self) -> Result<Statement<K>>
        ensures made { Gives result (adding ReturningId self) }
    {
        self.with_nullary(NullaryClause::ReturningId)
    }
}

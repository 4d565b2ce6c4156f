//! The builder: calls add clauses to it, and it prints a statement of them.
ghost use Rattle.std.specs.Prelude.{◌≡◌, [], map, IfOk, string_bytes};
ghost use Rattle.sql_parts.specs.Error.{FailsOnlyByMemory};
ghost use Rattle.sql_builder.specs.{started, SelectFrom, SelectValues, InsertInto, UpdateTable, DeleteFrom, new_clauses};

use crate::clauses::{GroupedCondition, JoinOperator, Kind, copy_conditions};
use crate::concat::copied;
use crate::ghost_list::Bytes;
use crate::optional_text::OptionalText;
use crate::printed_list::PrintedList;
use crate::text_list::TextList;
use sql_parts::text::Items;
use sql_parts::{SqlBuilderError, ToText};
use std::alloc::Global;
use std::marker::Model;

/// A builder of a statement. Contracts see it as its clauses, each text as its bytes.
pub struct SqlBuilder {
    pub(crate) alloc: Global,
    pub(crate) kind: Kind,
    // The table text, with every table that was added.
    pub(crate) table: String,
    // Each join with its constraints.
    pub(crate) joins: PrintedList<Bytes>,
    // The operator of the joins to come.
    pub(crate) operator: Option<JoinOperator>,
    // Whether the next join is NATURAL.
    pub(crate) natural: bool,
    pub(crate) distinct: bool,
    pub(crate) fields: TextList,
    pub(crate) sets: TextList,
    pub(crate) rows: TextList,
    pub(crate) query: OptionalText,
    pub(crate) returning: OptionalText,
    pub(crate) group_fields: TextList,
    pub(crate) having: OptionalText,
    pub(crate) conditions: Vec<GroupedCondition>,
    pub(crate) unions: PrintedList<(bool, Bytes)>,
    pub(crate) order_fields: TextList,
    pub(crate) limit: OptionalText,
    pub(crate) offset: OptionalText,
    // Texts on their way into a list, which is then changed in one step or not at all.
    pub(crate) spare: TextList,
}

// A function of its own, so that a caller's proof sees one step where a builder is dropped, and not
// one for each of its clauses. It is inlined, so that a builder that is made in its box isn't copied.
impl Drop for SqlBuilder {
    #[inline(always)]
    fn drop(self) {
        let SqlBuilder {
            alloc: _,
            kind: _,
            table: _,
            joins: _,
            operator: _,
            natural: _,
            distinct: _,
            fields: _,
            sets: _,
            rows: _,
            query: _,
            returning: _,
            group_fields: _,
            having: _,
            conditions: _,
            unions: _,
            order_fields: _,
            limit: _,
            offset: _,
            spare: _,
        } = self;
    }
}

impl Model for SqlBuilder {
    ghost use Rattle.std.specs.Prelude.{List, ℕ, string_bytes};
    ghost use Rattle.sql_builder.specs.Builder.{group_texts};
    ghost use Rattle.sql_builder.specs.Clauses.{Clauses};

    ghost Value = { Clauses (List ℕ) };

    ghost view = { λ b. record {
      kind = b.kind;
      table = string_bytes b.table;
      joins = b.joins;
      operator = b.operator;
      natural = b.natural;
      distinct = b.distinct;
      fields = b.fields;
      sets = b.sets;
      rows = b.rows;
      query = b.query;
      returning = b.returning;
      group_fields = b.group_fields;
      having = b.having;
      groups = group_texts b.conditions.items;
      unions = b.unions;
      order_fields = b.order_fields;
      limit = b.limit;
      offset = b.offset;
    } };
}

// Copies of the query, RETURNING, HAVING, LIMIT and OFFSET.
type OptionalTexts = (
    OptionalText,
    OptionalText,
    OptionalText,
    OptionalText,
    OptionalText,
);

// Copies of the conditions, GROUP BY, the unions and ORDER BY.
type FurtherClauses = (
    Vec<GroupedCondition>,
    TextList,
    PrintedList<(bool, Bytes)>,
    TextList,
);

impl SqlBuilder {
    ghost use Rattle.sql_builder.specs.Builder.{group_texts};

    #[inline(always)]
    pub(crate) fn new(alloc: Global, kind: Kind, table: String, fields: TextList) -> SqlBuilder
        ensures { result ≡ new_clauses kind (string_bytes table) fields }
    {
        SqlBuilder {
            alloc,
            kind,
            table,
            joins: PrintedList::new(alloc),
            operator: None,
            natural: false,
            distinct: false,
            fields,
            sets: TextList::new(alloc),
            rows: TextList::new(alloc),
            query: OptionalText::new(alloc),
            returning: OptionalText::new(alloc),
            group_fields: TextList::new(alloc),
            having: OptionalText::new(alloc),
            conditions: Vec::new(alloc),
            unions: PrintedList::new(alloc),
            order_fields: TextList::new(alloc),
            limit: OptionalText::new(alloc),
            offset: OptionalText::new(alloc),
            spare: TextList::new(alloc),
        }
    }

    fn starting_from<S: ToText>(
        alloc: Global,
        kind: Kind,
        table: S,
    ) -> Result<SqlBuilder, SqlBuilderError>
        ensures made { IfOk result (λ b. b ≡ new_clauses kind (S.text table) []) }
        ensures memory { FailsOnlyByMemory result }
    {
        let table = table.to_text(alloc)?;
        Ok(SqlBuilder::new(alloc, kind, table, TextList::new(alloc)))
    }

    /// Removes every clause but the table and the fields, and keeps the buffers.
    #[inline(always)]
    pub(crate) fn clear(&mut self, kind: Kind)
        ensures { self.new ≡ new_clauses kind self.old.table self.old.fields }
    {
        self.kind = kind;
        self.joins.clear();
        self.operator = None;
        self.natural = false;
        self.distinct = false;
        self.sets.clear();
        self.rows.clear();
        self.query.clear();
        self.returning.clear();
        self.group_fields.clear();
        self.having.clear();
        self.conditions.clear();
        self.unions.clear();
        self.order_fields.clear();
        self.limit.clear();
        self.offset.clear();
    }

    // The four starts are functions of their own, since as parts of their callers they copied a builder
    // more often.
    /// Returns a SELECT from this table, with no other clause. Fails only if memory runs out.
    /// `SqlBuilder::select_from(alloc, "t")?.sql()?` gives `SELECT * FROM t;`
    #[inline(never)]
    pub fn select_from<S: ToText>(alloc: Global, table: S) -> Result<SqlBuilder, SqlBuilderError>
        ensures made { IfOk result (λ b. b ≡ started (SelectFrom (S.text table))) }
        ensures memory { FailsOnlyByMemory result }
    {
        SqlBuilder::starting_from(alloc, Kind::SelectFrom, table)
    }

    /// Returns a SELECT of these values, without a table. Fails only if memory runs out.
    /// `SqlBuilder::select_values(alloc, &[1, 2])?.sql()?` gives `SELECT 1, 2;`
    pub fn select_values<S: ToText>(
        alloc: Global,
        values: &[S],
    ) -> Result<SqlBuilder, SqlBuilderError>
        ensures made { IfOk result (λ b. b ≡ started (SelectValues (map S.text values.now))) }
        ensures memory { FailsOnlyByMemory result }
    {
        let mut fields = TextList::new(alloc);
        fields.refill(alloc, Items { items: values })?;
        Ok(SqlBuilder::new(alloc, Kind::SelectValues, String::new(alloc), fields))
    }

    /// Returns an INSERT into this table, with no other clause. Fails only if memory runs out.
    /// `SqlBuilder::insert_into(alloc, "t")?.field("a")?.values(&[1])?.sql()?` gives
    /// `INSERT INTO t (a) VALUES (1);`
    #[inline(never)]
    pub fn insert_into<S: ToText>(alloc: Global, table: S) -> Result<SqlBuilder, SqlBuilderError>
        ensures made { IfOk result (λ b. b ≡ started (InsertInto (S.text table))) }
        ensures memory { FailsOnlyByMemory result }
    {
        SqlBuilder::starting_from(alloc, Kind::InsertInto, table)
    }

    /// Returns an UPDATE of this table, with no other clause. Fails only if memory runs out.
    /// `SqlBuilder::update_table(alloc, "t")?.set("a", 1)?.sql()?` gives `UPDATE t SET a = 1;`
    #[inline(never)]
    pub fn update_table<S: ToText>(alloc: Global, table: S) -> Result<SqlBuilder, SqlBuilderError>
        ensures made { IfOk result (λ b. b ≡ started (UpdateTable (S.text table))) }
        ensures memory { FailsOnlyByMemory result }
    {
        SqlBuilder::starting_from(alloc, Kind::UpdateTable, table)
    }

    /// Returns a DELETE from this table, with no other clause. Fails only if memory runs out.
    /// `SqlBuilder::delete_from(alloc, "t")?.sql()?` gives `DELETE FROM t;`
    #[inline(never)]
    pub fn delete_from<S: ToText>(alloc: Global, table: S) -> Result<SqlBuilder, SqlBuilderError>
        ensures made { IfOk result (λ b. b ≡ started (DeleteFrom (S.text table))) }
        ensures memory { FailsOnlyByMemory result }
    {
        SqlBuilder::starting_from(alloc, Kind::DeleteFrom, table)
    }

    // A copy of all clauses is made in four steps, none of which holds more than five copies where
    // it fails: the proof of all in one takes long.
    fn copy_tables(&self) -> Result<(String, PrintedList<Bytes>), SqlBuilderError>
        ensures tables { IfOk result (λ copy. string_bytes copy.0 ≡ self.now.table) }
        ensures joins { IfOk result (λ copy. copy.1 ≡ self.now.joins) }
        ensures memory { FailsOnlyByMemory result }
    {
        Ok((
            copied(self.alloc, self.table.as_str())?,
            self.joins.copy(self.alloc)?,
        ))
    }

    fn copy_lists(&self) -> Result<(TextList, TextList, TextList), SqlBuilderError>
        ensures fields { IfOk result (λ copy. copy.0 ≡ self.now.fields) }
        ensures sets { IfOk result (λ copy. copy.1 ≡ self.now.sets) }
        ensures rows { IfOk result (λ copy. copy.2 ≡ self.now.rows) }
        ensures memory { FailsOnlyByMemory result }
    {
        Ok((
            self.fields.copy(self.alloc)?,
            self.sets.copy(self.alloc)?,
            self.rows.copy(self.alloc)?,
        ))
    }

    fn copy_texts(&self) -> Result<OptionalTexts, SqlBuilderError>
        ensures query { IfOk result (λ copy. copy.0 ≡ self.now.query) }
        ensures returning { IfOk result (λ copy. copy.1 ≡ self.now.returning) }
        ensures having { IfOk result (λ copy. copy.2 ≡ self.now.having) }
        ensures limit { IfOk result (λ copy. copy.3 ≡ self.now.limit) }
        ensures offset { IfOk result (λ copy. copy.4 ≡ self.now.offset) }
        ensures memory { FailsOnlyByMemory result }
    {
        Ok((
            self.query.copy(self.alloc)?,
            self.returning.copy(self.alloc)?,
            self.having.copy(self.alloc)?,
            self.limit.copy(self.alloc)?,
            self.offset.copy(self.alloc)?,
        ))
    }

    fn copy_further_clauses(&self) -> Result<FurtherClauses, SqlBuilderError>
        ensures groups { IfOk result (λ copy. group_texts copy.0.items ≡ self.now.groups) }
        ensures group_fields { IfOk result (λ copy. copy.1 ≡ self.now.group_fields) }
        ensures unions { IfOk result (λ copy. copy.2 ≡ self.now.unions) }
        ensures order_fields { IfOk result (λ copy. copy.3 ≡ self.now.order_fields) }
        ensures memory { FailsOnlyByMemory result }
    {
        Ok((
            copy_conditions(self.alloc, &self.conditions)?,
            self.group_fields.copy(self.alloc)?,
            self.unions.copy(self.alloc)?,
            self.order_fields.copy(self.alloc)?,
        ))
    }

    /// Returns an equal builder. Fails only if memory runs out.
    /// `SqlBuilder::select_from(alloc, "t")?.field("a")?.clone()?.field("b")?.sql()?` gives
    /// `SELECT a, b FROM t;`
    pub fn clone(&self) -> Result<SqlBuilder, SqlBuilderError>
        ensures equal { IfOk result (λ b. b ≡ self.now) }
        ensures memory { FailsOnlyByMemory result }
    {
        let (table, joins) = self.copy_tables()?;
        let (fields, sets, rows) = self.copy_lists()?;
        let (query, returning, having, limit, offset) = self.copy_texts()?;
        let (conditions, group_fields, unions, order_fields) = self.copy_further_clauses()?;
        Ok(SqlBuilder {
            alloc: self.alloc,
            kind: self.kind,
            table,
            joins,
            operator: self.operator,
            natural: self.natural,
            distinct: self.distinct,
            fields,
            sets,
            rows,
            query,
            returning,
            group_fields,
            having,
            conditions,
            unions,
            order_fields,
            limit,
            offset,
            spare: TextList::new(self.alloc),
        })
    }
}

//! The calls that give a builder a clause. Each returns the builder, so that calls form a chain.
//! Each that can fail fails only if memory runs out, and then leaves the builder unchanged.
ghost use Rattle.std.specs.Prelude.{◌≡◌, [], ◌∷◌, codes, false, map, true, IfErr};
ghost use Rattle.sql_parts.specs.Error.{FailsOnlyByMemory};
ghost use Rattle.sql_parts.specs.Quoting.{quoted};
ghost use Rattle.sql_builder.specs.{AddsText, fixed_piece, quoted_piece, raw_piece, byte_units, count, count_as, equation};

use crate::builder::SqlBuilder;
use crate::clauses::JoinOperator;
use crate::steps::{BinaryClause, UnaryClause, VariadicClause};
use sql_parts::loan::release;
use sql_parts::{SqlBuilderError, ToText};

impl SqlBuilder {
    ghost use Rattle.std.specs.Borrow.{sem};
    ghost use Rattle.sql_builder.specs.Builder.{IsConstraintError, with_fields, with_fields_set, with_group_field, with_having, with_join, with_limit, with_offset, with_on, with_order, with_query, with_returning, with_row, with_set, with_table, with_union};
    ghost use Rattle.sql_builder.specs.BuilderLoans.{IsUnchangedIfErr};
    ghost use Rattle.sql_parts.specs.Loans.{IsChangedSoThat, IsChangedTo};

    /// Adds a table: appends `, ` and the table to the table text, also to an empty one. Fails only
    /// if memory runs out, and then leaves the builder unchanged.
    /// `SqlBuilder::select_from(alloc, "t")?.and_table("u")?.sql()?` gives `SELECT * FROM t, u;`
    pub fn and_table<S: ToText>(&mut self, table: S) -> Result<&mut Self, SqlBuilderError>
        ensures* unchanged { sem 𝓛 (IsUnchangedIfErr self.entry result) }
        ensures changed { IsChangedTo self.entry (with_table (S.text table) self.old) result }
        ensures memory { FailsOnlyByMemory result }
    {
        release(self.step_unary(UnaryClause::AndTable, table))
    }

    /// Adds a join with this table, with the operator in force. It is NATURAL if a `natural` waits
    /// for it, which then makes no later join NATURAL. Fails only if memory runs out, and then
    /// leaves the builder unchanged.
    /// `SqlBuilder::select_from(alloc, "t")?.left().join("u")?.sql()?` gives
    /// `SELECT * FROM t LEFT JOIN u;`
    pub fn join<S: ToText>(&mut self, table: S) -> Result<&mut Self, SqlBuilderError>
        ensures* unchanged { sem 𝓛 (IsUnchangedIfErr self.entry result) }
        ensures changed { IsChangedTo self.entry (with_join (S.text table) self.old) result }
        ensures memory { FailsOnlyByMemory result }
    {
        release(self.step_unary(UnaryClause::Join, table))
    }

    /// Adds a constraint to the last join. Without a join it does nothing and never fails.
    /// Otherwise it fails only if memory runs out, and then leaves the builder unchanged.
    /// `SqlBuilder::select_from(alloc, "t")?.join("u")?.on("a = b")?.sql()?` gives
    /// `SELECT * FROM t JOIN u ON a = b;`
    pub fn on<S: ToText>(&mut self, constraint: S) -> Result<&mut Self, SqlBuilderError>
        ensures* unchanged { sem 𝓛 (IsUnchangedIfErr self.entry result) }
        ensures changed { IsChangedTo self.entry (with_on (S.text constraint) self.old) result }
        ensures memory { IfErr result (IsConstraintError self.old) }
    {
        release(self.step_unary(UnaryClause::On, constraint))
    }

    /// Adds the constraint `left = right` to the last join. Without a join it does nothing and
    /// never fails. Otherwise it fails only if memory runs out, and then leaves the builder
    /// unchanged.
    /// `SqlBuilder::select_from(alloc, "t")?.join("u")?.on_eq("a", "b")?.sql()?` gives
    /// `SELECT * FROM t JOIN u ON a = b;`
    pub fn on_eq<S: ToText, T: ToText>(
        &mut self,
        left: S,
        right: T,
    ) -> Result<&mut Self, SqlBuilderError>
        ensures* unchanged { sem 𝓛 (IsUnchangedIfErr self.entry result) }
        ensures changed { IsChangedSoThat self.entry (AddsText (λ added. with_on added self.old)
            (equation byte_units (S.text left) (T.text right))
            (equation fixed_piece (raw_piece (S.text left)) (raw_piece (T.text right)))) result }
        ensures memory { IfErr result (IsConstraintError self.old) }
    {
        release(self.step_binary(BinaryClause::OnEq, left, right))
    }

    /// Appends fields. Fails only if memory runs out, and then leaves the builder unchanged.
    /// `SqlBuilder::select_from(alloc, "t")?.fields(&["a", "b"])?.sql()?` gives
    /// `SELECT a, b FROM t;`
    pub fn fields<S: ToText>(&mut self, fields: &[S]) -> Result<&mut Self, SqlBuilderError>
        ensures* unchanged { sem 𝓛 (IsUnchangedIfErr self.entry result) }
        ensures changed { IsChangedTo self.entry
            (with_fields (map S.text fields.now) self.old) result }
        ensures memory { FailsOnlyByMemory result }
    {
        release(self.step_variadic(VariadicClause::Fields, fields))
    }

    /// Puts these fields in the place of all others. Fails only if memory runs out, and then leaves
    /// the builder unchanged.
    /// `SqlBuilder::select_from(alloc, "t")?.field("a")?.set_fields(&["b", "c"])?.sql()?` gives
    /// `SELECT b, c FROM t;`
    pub fn set_fields<S: ToText>(&mut self, fields: &[S]) -> Result<&mut Self, SqlBuilderError>
        ensures* unchanged { sem 𝓛 (IsUnchangedIfErr self.entry result) }
        ensures changed { IsChangedTo self.entry
            (with_fields_set (map S.text fields.now) self.old) result }
        ensures memory { FailsOnlyByMemory result }
    {
        release(self.step_variadic(VariadicClause::SetFields, fields))
    }

    /// Appends a field. Fails only if memory runs out, and then leaves the builder unchanged.
    /// `SqlBuilder::select_from(alloc, "t")?.field("a")?.sql()?` gives `SELECT a FROM t;`
    pub fn field<S: ToText>(&mut self, field: S) -> Result<&mut Self, SqlBuilderError>
        ensures* unchanged { sem 𝓛 (IsUnchangedIfErr self.entry result) }
        ensures changed { IsChangedTo self.entry
            (with_fields (S.text field ∷ []) self.old) result }
        ensures memory { FailsOnlyByMemory result }
    {
        release(self.step_unary(UnaryClause::Field, field))
    }

    /// Puts this field in the place of all others. Fails only if memory runs out, and then leaves
    /// the builder unchanged.
    /// `SqlBuilder::select_from(alloc, "t")?.field("a")?.set_field("b")?.sql()?` gives
    /// `SELECT b FROM t;`
    pub fn set_field<S: ToText>(&mut self, field: S) -> Result<&mut Self, SqlBuilderError>
        ensures* unchanged { sem 𝓛 (IsUnchangedIfErr self.entry result) }
        ensures changed { IsChangedTo self.entry
            (with_fields_set (S.text field ∷ []) self.old) result }
        ensures memory { FailsOnlyByMemory result }
    {
        release(self.step_unary(UnaryClause::SetField, field))
    }

    /// Appends the field `COUNT(field)`. Fails only if memory runs out, and then leaves the builder
    /// unchanged.
    /// `SqlBuilder::select_from(alloc, "t")?.count("a")?.sql()?` gives `SELECT COUNT(a) FROM t;`
    pub fn count<S: ToText>(&mut self, field: S) -> Result<&mut Self, SqlBuilderError>
        ensures* unchanged { sem 𝓛 (IsUnchangedIfErr self.entry result) }
        ensures changed { IsChangedTo self.entry
            (with_fields (count byte_units (S.text field) ∷ []) self.old) result }
        ensures memory { FailsOnlyByMemory result }
    {
        release(self.step_unary(UnaryClause::Count, field))
    }

    /// Appends the field `COUNT(field) AS name`. Fails only if memory runs out, and then leaves the
    /// builder unchanged.
    /// `SqlBuilder::select_from(alloc, "t")?.count_as("a", "n")?.sql()?` gives
    /// `SELECT COUNT(a) AS n FROM t;`
    pub fn count_as<S: ToText, T: ToText>(
        &mut self,
        field: S,
        name: T,
    ) -> Result<&mut Self, SqlBuilderError>
        ensures* unchanged { sem 𝓛 (IsUnchangedIfErr self.entry result) }
        ensures changed { IsChangedSoThat self.entry
            (AddsText (λ added. with_fields (added ∷ []) self.old)
            (count_as byte_units (S.text field) (T.text name))
            (count_as fixed_piece (raw_piece (S.text field)) (raw_piece (T.text name)))) result }
        ensures memory { FailsOnlyByMemory result }
    {
        release(self.step_binary(BinaryClause::CountAs, field, name))
    }

    /// Adds `field = value` to what UPDATE sets. Fails only if memory runs out, and then leaves the
    /// builder unchanged.
    /// `SqlBuilder::update_table(alloc, "t")?.set("a", "a + 1")?.sql()?` gives
    /// `UPDATE t SET a = a + 1;`
    pub fn set<S: ToText, T: ToText>(
        &mut self,
        field: S,
        value: T,
    ) -> Result<&mut Self, SqlBuilderError>
        ensures* unchanged { sem 𝓛 (IsUnchangedIfErr self.entry result) }
        ensures changed { IsChangedSoThat self.entry (AddsText (λ added. with_set added self.old)
            (equation byte_units (S.text field) (T.text value))
            (equation fixed_piece (raw_piece (S.text field)) (raw_piece (T.text value)))) result }
        ensures memory { FailsOnlyByMemory result }
    {
        release(self.step_binary(BinaryClause::SetTo, field, value))
    }

    /// Adds `field = 'value'` to what UPDATE sets, with the value between single quotes as `quote`
    /// writes it. Fails only if memory runs out, and then leaves the builder unchanged.
    /// `SqlBuilder::update_table(alloc, "t")?.set_str("a", "it's")?.sql()?` gives
    /// `UPDATE t SET a = 'it''s';`
    pub fn set_str<S: ToText, T: ToText>(
        &mut self,
        field: S,
        value: T,
    ) -> Result<&mut Self, SqlBuilderError>
        ensures* unchanged { sem 𝓛 (IsUnchangedIfErr self.entry result) }
        ensures changed { IsChangedSoThat self.entry (AddsText (λ added. with_set added self.old)
            (equation byte_units (S.text field) (quoted (T.text value)))
            (equation fixed_piece (raw_piece (S.text field)) (quoted_piece (T.text value))))
            result }
        ensures memory { FailsOnlyByMemory result }
    {
        release(self.step_binary(BinaryClause::SetStr, field, value))
    }

    /// Adds a row to an INSERT, with the values in brackets, and drops its query. Fails only if
    /// memory runs out, and then leaves the builder unchanged.
    /// `SqlBuilder::insert_into(alloc, "t")?.field("a")?.values(&[1])?.values(&[2])?.sql()?` gives
    /// `INSERT INTO t (a) VALUES (1), (2);`
    pub fn values<S: ToText>(&mut self, values: &[S]) -> Result<&mut Self, SqlBuilderError>
        ensures* unchanged { sem 𝓛 (IsUnchangedIfErr self.entry result) }
        ensures changed { IsChangedTo self.entry
            (with_row (map S.text values.now) self.old) result }
        ensures memory { FailsOnlyByMemory result }
    {
        release(self.step_variadic(VariadicClause::Values, values))
    }

    /// Sets the query of an INSERT, and drops all rows. Fails only if memory runs out, and then
    /// leaves the builder unchanged.
    /// `SqlBuilder::insert_into(alloc, "t")?.field("a")?.select("SELECT 1")?.sql()?` gives
    /// `INSERT INTO t (a) SELECT 1;`
    pub fn select<S: ToText>(&mut self, query: S) -> Result<&mut Self, SqlBuilderError>
        ensures* unchanged { sem 𝓛 (IsUnchangedIfErr self.entry result) }
        ensures changed { IsChangedTo self.entry (with_query (S.text query) self.old) result }
        ensures memory { FailsOnlyByMemory result }
    {
        release(self.step_unary(UnaryClause::Select, query))
    }

    /// Sets what RETURNING returns, in an INSERT, an UPDATE and a DELETE. The last call of
    /// `returning` or `returning_id` counts. Fails only if memory runs out, and then leaves the
    /// builder unchanged.
    /// `SqlBuilder::delete_from(alloc, "t")?.returning("a")?.sql()?` gives
    /// `DELETE FROM t RETURNING a;`
    pub fn returning<S: ToText>(&mut self, fields: S) -> Result<&mut Self, SqlBuilderError>
        ensures* unchanged { sem 𝓛 (IsUnchangedIfErr self.entry result) }
        ensures changed { IsChangedTo self.entry
            (with_returning (S.text fields) self.old) result }
        ensures memory { FailsOnlyByMemory result }
    {
        release(self.step_unary(UnaryClause::Returning, fields))
    }

    /// Sets RETURNING id, in an INSERT, an UPDATE and a DELETE. The last call of `returning` or
    /// `returning_id` counts. Fails only if memory runs out, and then leaves the builder unchanged.
    /// `SqlBuilder::delete_from(alloc, "t")?.returning_id()?.sql()?` gives
    /// `DELETE FROM t RETURNING id;`
    pub fn returning_id(&mut self) -> Result<&mut Self, SqlBuilderError>
        ensures* unchanged { sem 𝓛 (IsUnchangedIfErr self.entry result) }
        ensures changed { IsChangedTo self.entry (with_returning (codes "id") self.old) result }
        ensures memory { FailsOnlyByMemory result }
    {
        release(self.step_returning_id())
    }

    /// Appends a field to GROUP BY. Fails only if memory runs out, and then leaves the builder
    /// unchanged.
    /// `SqlBuilder::select_from(alloc, "t")?.group_by("a")?.sql()?` gives
    /// `SELECT * FROM t GROUP BY a;`
    pub fn group_by<S: ToText>(&mut self, field: S) -> Result<&mut Self, SqlBuilderError>
        ensures* unchanged { sem 𝓛 (IsUnchangedIfErr self.entry result) }
        ensures changed { IsChangedTo self.entry
            (with_group_field (S.text field) self.old) result }
        ensures memory { FailsOnlyByMemory result }
    {
        release(self.step_unary(UnaryClause::GroupBy, field))
    }

    /// Sets the condition of HAVING, which follows GROUP BY. The last call counts. Fails only if
    /// memory runs out, and then leaves the builder unchanged. Without a GROUP BY, printing a query
    /// then fails with `NoGroupBy`.
    /// `SqlBuilder::select_from(alloc, "t")?.group_by("a")?.having("b")?.sql()?` gives
    /// `SELECT * FROM t GROUP BY a HAVING b;`
    pub fn having<S: ToText>(&mut self, condition: S) -> Result<&mut Self, SqlBuilderError>
        ensures* unchanged { sem 𝓛 (IsUnchangedIfErr self.entry result) }
        ensures changed { IsChangedTo self.entry
            (with_having (S.text condition) self.old) result }
        ensures memory { FailsOnlyByMemory result }
    {
        release(self.step_unary(UnaryClause::Having, condition))
    }

    /// Appends UNION and the query. Fails only if memory runs out, and then leaves the builder
    /// unchanged.
    /// `SqlBuilder::select_from(alloc, "t")?.union("SELECT 1")?.sql()?` gives
    /// `SELECT * FROM t UNION SELECT 1;`
    pub fn union<S: ToText>(&mut self, query: S) -> Result<&mut Self, SqlBuilderError>
        ensures* unchanged { sem 𝓛 (IsUnchangedIfErr self.entry result) }
        ensures changed { IsChangedTo self.entry
            (with_union false (S.text query) self.old) result }
        ensures memory { FailsOnlyByMemory result }
    {
        release(self.step_unary(UnaryClause::Union, query))
    }

    /// Appends UNION ALL and the query. Fails only if memory runs out, and then leaves the builder
    /// unchanged.
    /// `SqlBuilder::select_from(alloc, "t")?.union_all("SELECT 1")?.sql()?` gives
    /// `SELECT * FROM t UNION ALL SELECT 1;`
    pub fn union_all<S: ToText>(&mut self, query: S) -> Result<&mut Self, SqlBuilderError>
        ensures* unchanged { sem 𝓛 (IsUnchangedIfErr self.entry result) }
        ensures changed { IsChangedTo self.entry
            (with_union true (S.text query) self.old) result }
        ensures memory { FailsOnlyByMemory result }
    {
        release(self.step_unary(UnaryClause::UnionAll, query))
    }

    /// Appends a field to ORDER BY, with DESC if it is descending. ORDER BY is left out beside a
    /// union. Fails only if memory runs out, and then leaves the builder unchanged.
    /// `SqlBuilder::select_from(alloc, "t")?.order_by("a", true)?.sql()?` gives
    /// `SELECT * FROM t ORDER BY a DESC;`
    pub fn order_by<S: ToText>(
        &mut self,
        field: S,
        descending: bool,
    ) -> Result<&mut Self, SqlBuilderError>
        ensures* unchanged { sem 𝓛 (IsUnchangedIfErr self.entry result) }
        ensures changed { IsChangedTo self.entry
            (with_order descending (S.text field) self.old) result }
        ensures memory { FailsOnlyByMemory result }
    {
        release(self.step_order(field, descending))
    }

    /// Appends a field to ORDER BY. ORDER BY is left out beside a union. Fails only if memory runs
    /// out, and then leaves the builder unchanged.
    /// `SqlBuilder::select_from(alloc, "t")?.order_asc("a")?.sql()?` gives
    /// `SELECT * FROM t ORDER BY a;`
    pub fn order_asc<S: ToText>(&mut self, field: S) -> Result<&mut Self, SqlBuilderError>
        ensures* unchanged { sem 𝓛 (IsUnchangedIfErr self.entry result) }
        ensures changed { IsChangedTo self.entry
            (with_order false (S.text field) self.old) result }
        ensures memory { FailsOnlyByMemory result }
    {
        release(self.step_unary(UnaryClause::OrderAsc, field))
    }

    /// Appends a field with DESC to ORDER BY. ORDER BY is left out beside a union. Fails only if
    /// memory runs out, and then leaves the builder unchanged.
    /// `SqlBuilder::select_from(alloc, "t")?.order_desc("a")?.sql()?` gives
    /// `SELECT * FROM t ORDER BY a DESC;`
    pub fn order_desc<S: ToText>(&mut self, field: S) -> Result<&mut Self, SqlBuilderError>
        ensures* unchanged { sem 𝓛 (IsUnchangedIfErr self.entry result) }
        ensures changed { IsChangedTo self.entry
            (with_order true (S.text field) self.old) result }
        ensures memory { FailsOnlyByMemory result }
    {
        release(self.step_unary(UnaryClause::OrderDesc, field))
    }

    /// Sets the text of a query's LIMIT. The last call counts. Fails only if memory runs out, and
    /// then leaves the builder unchanged.
    /// `SqlBuilder::select_from(alloc, "t")?.limit(3)?.sql()?` gives `SELECT * FROM t LIMIT 3;`
    pub fn limit<S: ToText>(&mut self, limit: S) -> Result<&mut Self, SqlBuilderError>
        ensures* unchanged { sem 𝓛 (IsUnchangedIfErr self.entry result) }
        ensures changed { IsChangedTo self.entry (with_limit (S.text limit) self.old) result }
        ensures memory { FailsOnlyByMemory result }
    {
        release(self.step_unary(UnaryClause::Limit, limit))
    }

    /// Sets the text of a query's OFFSET. The last call counts. Fails only if memory runs out, and
    /// then leaves the builder unchanged.
    /// `SqlBuilder::select_from(alloc, "t")?.limit(3)?.offset(2)?.sql()?` gives
    /// `SELECT * FROM t LIMIT 3 OFFSET 2;`
    pub fn offset<S: ToText>(&mut self, offset: S) -> Result<&mut Self, SqlBuilderError>
        ensures* unchanged { sem 𝓛 (IsUnchangedIfErr self.entry result) }
        ensures changed { IsChangedTo self.entry (with_offset (S.text offset) self.old) result }
        ensures memory { FailsOnlyByMemory result }
    {
        release(self.step_unary(UnaryClause::Offset, offset))
    }
}

impl SqlBuilder {
    ghost use Rattle.sql_builder.specs.Builder.{with_distinct, with_natural, with_operator};
    ghost use Rattle.sql_builder.specs.BuilderLoans.{IsSameLoan};
    ghost use Rattle.sql_builder.specs.declared.clauses.JoinOperator.TheVariants.{Left, LeftOuter, Right, RightOuter, Inner, Cross};

    /// Makes the next join NATURAL, and returns the builder. Never fails.
    /// `SqlBuilder::select_from(alloc, "t")?.natural().join("u")?.join("v")?.sql()?` gives
    /// `SELECT * FROM t NATURAL JOIN u JOIN v;`
    pub fn natural(&mut self) -> &mut Self
        ensures same { IsSameLoan self.entry result }
        ensures changed { result.now ≡ with_natural self.old }
    {
        self.put_natural();
        self
    }

    /// Makes the joins to come LEFT joins, until another operator is chosen, and returns the
    /// builder. Never fails.
    /// `SqlBuilder::select_from(alloc, "t")?.left().join("u")?.join("v")?.sql()?` gives
    /// `SELECT * FROM t LEFT JOIN u LEFT JOIN v;`
    pub fn left(&mut self) -> &mut Self
        ensures same { IsSameLoan self.entry result }
        ensures changed { result.now ≡ with_operator Left self.old }
    {
        self.put_operator(JoinOperator::Left);
        self
    }

    /// Makes the joins to come LEFT OUTER joins, until another operator is chosen, and returns the
    /// builder. Never fails.
    /// `SqlBuilder::select_from(alloc, "t")?.left_outer().join("u")?.sql()?` gives
    /// `SELECT * FROM t LEFT OUTER JOIN u;`
    pub fn left_outer(&mut self) -> &mut Self
        ensures same { IsSameLoan self.entry result }
        ensures changed { result.now ≡ with_operator LeftOuter self.old }
    {
        self.put_operator(JoinOperator::LeftOuter);
        self
    }

    /// Makes the joins to come RIGHT joins, until another operator is chosen, and returns the
    /// builder. Never fails.
    /// `SqlBuilder::select_from(alloc, "t")?.right().join("u")?.sql()?` gives
    /// `SELECT * FROM t RIGHT JOIN u;`
    pub fn right(&mut self) -> &mut Self
        ensures same { IsSameLoan self.entry result }
        ensures changed { result.now ≡ with_operator Right self.old }
    {
        self.put_operator(JoinOperator::Right);
        self
    }

    /// Makes the joins to come RIGHT OUTER joins, until another operator is chosen, and returns the
    /// builder. Never fails.
    /// `SqlBuilder::select_from(alloc, "t")?.right_outer().join("u")?.sql()?` gives
    /// `SELECT * FROM t RIGHT OUTER JOIN u;`
    pub fn right_outer(&mut self) -> &mut Self
        ensures same { IsSameLoan self.entry result }
        ensures changed { result.now ≡ with_operator RightOuter self.old }
    {
        self.put_operator(JoinOperator::RightOuter);
        self
    }

    /// Makes the joins to come INNER joins, until another operator is chosen, and returns the
    /// builder. Never fails.
    /// `SqlBuilder::select_from(alloc, "t")?.inner().join("u")?.sql()?` gives
    /// `SELECT * FROM t INNER JOIN u;`
    pub fn inner(&mut self) -> &mut Self
        ensures same { IsSameLoan self.entry result }
        ensures changed { result.now ≡ with_operator Inner self.old }
    {
        self.put_operator(JoinOperator::Inner);
        self
    }

    /// Makes the joins to come CROSS joins, until another operator is chosen, and returns the
    /// builder. Never fails.
    /// `SqlBuilder::select_from(alloc, "t")?.cross().join("u")?.sql()?` gives
    /// `SELECT * FROM t CROSS JOIN u;`
    pub fn cross(&mut self) -> &mut Self
        ensures same { IsSameLoan self.entry result }
        ensures changed { result.now ≡ with_operator Cross self.old }
    {
        self.put_operator(JoinOperator::Cross);
        self
    }

    /// Selects equal rows once, and returns the builder. Never fails.
    /// `SqlBuilder::select_from(alloc, "t")?.distinct().field("a")?.sql()?` gives
    /// `SELECT DISTINCT a FROM t;`
    pub fn distinct(&mut self) -> &mut Self
        ensures same { IsSameLoan self.entry result }
        ensures changed { result.now ≡ with_distinct self.old }
    {
        self.put_distinct();
        self
    }
}

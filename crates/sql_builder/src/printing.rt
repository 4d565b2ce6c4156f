//! Prints a builder's clauses as a statement or a query. The first pass counts the bytes, so that
//! room for them is asked for in one allocation. The second pass prints to a text, and can't fail.
ghost use Rattle.std.specs.Prelude.{◌≡◌, ◌∷◌, ◌++◌, IfOk, IfSome, IsNone, map, string_bytes};
ghost use Rattle.std.specs.List.{list_any};
ghost use Rattle.sql_parts.specs.Error.{FailsOnlyByMemory};
ghost use Rattle.sql_builder.specs.{condition_in_group, group_texts, Query, Sql, Subquery, SubqueryAs, finish_view, Fits, Prints, byte_units, fields_or_star};
ghost use Rattle.sql_builder.specs.{query, query_error, query_values, sql_error, select_opening, sql, subquery, subquery_as, HasTruthOfGroups, Nests, ReadsBack};
ghost use Rattle.sql_builder.specs.{comma_list, delete_bytes, further_bytes, further_condition, group_by_bytes, insert_bytes, inserted_bytes, optional_bytes};
ghost use Rattle.sql_builder.specs.{order_by_bytes, query_end, query_start, statement_bytes, update_bytes, where_bytes, where_end, where_opening, HasShape};
ghost use Rattle.sql_builder.specs.{IsClosedAs, as_fragments, error_at, text_at, unless_error, NestsAsTable, fixed_piece, raw_piece};

use crate::builder::SqlBuilder;
use crate::calls::{Finish, print};
use crate::clauses::{GroupedCondition, Kind, any_opens_group};
use crate::ghost_list::Bytes;
use crate::optional_text::OptionalText;
use crate::printed_list::PrintedList;
use crate::sink::Out;
use crate::text_list::TextList;
use sql_parts::{SqlBuilderError, ToText};

// Words, and a text behind them. It is a part of each caller, where the words' length is known.
#[inline(always)]
fn push_clause<O: Out>(out: &mut O, words: &str, text: &str)
    requires room { Fits (O.room out.old) (words.now ++ text.now) }
    ensures { Prints O.printed O.room out.old out.new (words.now ++ text.now) }
{
    out.push(words);
    out.push(text);
}

// The words, and the text behind them, if there is one.
#[inline(always)]
fn push_optional<O: Out>(out: &mut O, words: &str, text: &OptionalText)
    requires room { Fits (O.room out.old) (optional_bytes words.now text.now) }
    ensures { Prints O.printed O.room out.old out.new (optional_bytes words.now text.now) }
{
    if let Some(text) = text.get() {
        push_clause(out, words, text);
    }
}

// Words, and a list of texts with commas between them.
#[inline(always)]
fn push_list<O: Out>(out: &mut O, words: &str, items: &TextList)
    requires room { Fits (O.room out.old) (words.now ++ comma_list byte_units items.now) }
    ensures { Prints O.printed O.room out.old out.new (words.now ++ comma_list byte_units items.now) }
{
    push_clause(out, words, items.as_str());
}

// The fields, or `*` where there are none.
#[tactic(auto, using(crate::proofs::output::PrintingLemmas::some_fields, crate::proofs::output::PrintingLemmas::no_fields))]
fn fields_text(fields: &TextList) -> &str
    ensures { result.now ≡ fields_or_star byte_units fields.now }
{
    if fields.is_empty() {
        "*"
    } else {
        fields.as_str()
    }
}

fn push_select<O: Out>(out: &mut O, distinct: bool, fields: &TextList)
    requires room { Fits (O.room out.old) (select_opening distinct ++ fields_or_star byte_units fields.now) }
    ensures { Prints O.printed O.room out.old out.new (select_opening distinct ++ fields_or_star byte_units fields.now) }
{
    let words = if distinct {
        "SELECT DISTINCT "
    } else {
        "SELECT "
    };
    push_clause(out, words, fields_text(fields));
}

// The brackets of two neighbours are written at once, and by words of a length that is known here.
#[inline(always)]
fn push_further_condition<O: Out>(out: &mut O, condition: &GroupedCondition)
    requires room { Fits (O.room out.old) (further_condition (condition_in_group condition.now)) }
    ensures { Prints O.printed O.room out.old out.new (further_condition (condition_in_group condition.now)) }
{
    if condition.opens_group {
        out.push(") AND (");
    } else {
        out.push(" OR ");
    }
    out.push(condition.text.as_str());
}

#[tactic(auto, using(crate::proofs::output::LoopFacts::one_more))]
fn push_further_conditions<O: Out>(out: &mut O, conditions: &[GroupedCondition])
    requires room { Fits (O.room out.old) (further_bytes (map condition_in_group conditions.now)) }
    ensures { Prints O.printed O.room out.old out.new (further_bytes (map condition_in_group conditions.now)) }
{
    for condition in conditions {
        push_further_condition(out, condition);
    }
}

// What is in front of the first condition and behind the last.
fn where_words(further: &[GroupedCondition]) -> (&'static str, &'static str)
    ensures opening { result.0.now ≡ where_opening (list_any (λ c. c.opens_group) further.now) }
    ensures end { result.1.now ≡ where_end (list_any (λ c. c.opens_group) further.now) }
{
    if any_opens_group(further) {
        (" WHERE (", ")")
    } else {
        (" WHERE ", "")
    }
}

fn push_conditions<O: Out>(out: &mut O, first: &GroupedCondition, further: &[GroupedCondition])
    requires room { Fits (O.room out.old) (where_bytes (group_texts (first.now ∷ further.now))) }
    ensures { Prints O.printed O.room out.old out.new (where_bytes (group_texts (first.now ∷ further.now))) }
{
    let (opening, end) = where_words(further);
    push_clause(out, opening, first.text.as_str());
    push_further_conditions(out, further);
    out.push(end);
}

fn push_where<O: Out>(out: &mut O, conditions: &[GroupedCondition])
    requires room { Fits (O.room out.old) (where_bytes (group_texts conditions.now)) }
    ensures { Prints O.printed O.room out.old out.new (where_bytes (group_texts conditions.now)) }
{
    if let Some((first, further)) = conditions.split_first() {
        push_conditions(out, first, further);
    }
}

#[tactic(auto, using(crate::proofs::output::PrintingLemmas::some_group_fields, std::proofs::lemmas::List::append_assoc))]
fn push_group_by<O: Out>(out: &mut O, fields: &TextList, having: &OptionalText)
    requires room { Fits (O.room out.old) (group_by_bytes fields.now having.now) }
    ensures { Prints O.printed O.room out.old out.new (group_by_bytes fields.now having.now) }
{
    if !fields.is_empty() {
        push_list(out, " GROUP BY ", fields);
        push_optional(out, " HAVING ", having);
    }
}

// ORDER BY is printed only where there is no union.
#[tactic(auto, using(crate::proofs::output::PrintingLemmas::ordered))]
fn push_order_by<O: Out>(out: &mut O, unions: &PrintedList<(bool, Bytes)>, fields: &TextList)
    requires room { Fits (O.room out.old) (order_by_bytes unions.now fields.now) }
    ensures { Prints O.printed O.room out.old out.new (order_by_bytes unions.now fields.now) }
{
    if unions.is_empty() && !fields.is_empty() {
        push_list(out, " ORDER BY ", fields);
    }
}

impl SqlBuilder {
    #[tactic(auto, using(crate::proofs::output::PrintingLemmas::query_is))]
    fn push_query<O: Out>(&self, out: &mut O)
        requires room { Fits (O.room out.old) (query byte_units self.now) }
        ensures { Prints O.printed O.room out.old out.new (query byte_units self.now) }
    {
        self.push_query_start(out);
        push_where(out, &self.conditions);
        self.push_query_end(out);
    }

    // What precedes the conditions of a query.
    fn push_query_start<O: Out>(&self, out: &mut O)
        requires room { Fits (O.room out.old) (query_start self.now) }
        ensures { Prints O.printed O.room out.old out.new (query_start self.now) }
    {
        push_select(out, self.distinct, &self.fields);
        push_clause(out, " FROM ", self.table.as_str());
        out.push(self.joins.as_str());
    }

    // What follows the conditions of a query.
    fn push_query_end<O: Out>(&self, out: &mut O)
        requires room { Fits (O.room out.old) (query_end self.now) }
        ensures { Prints O.printed O.room out.old out.new (query_end self.now) }
    {
        push_group_by(out, &self.group_fields, &self.having);
        out.push(self.unions.as_str());
        push_order_by(out, &self.unions, &self.order_fields);
        push_optional(out, " LIMIT ", &self.limit);
        push_optional(out, " OFFSET ", &self.offset);
    }

    fn push_values<O: Out>(&self, out: &mut O)
        requires room { Fits (O.room out.old) (query_values byte_units self.now) }
        ensures { Prints O.printed O.room out.old out.new (query_values byte_units self.now) }
    {
        push_list(out, "SELECT ", &self.fields);
    }

    // What an INSERT inserts, its query or its rows, and the words between its fields and that.
    fn inserted(&self) -> (&'static str, &str)
        ensures { result.0.now ++ result.1.now ≡ inserted_bytes self.now.query self.now.rows }
    {
        match self.query.get() {
            Some(query) => (") ", query),
            None => (") VALUES ", self.rows.as_str()),
        }
    }

    fn push_insert<O: Out>(&self, out: &mut O)
        requires room { Fits (O.room out.old) (insert_bytes self.now) }
        ensures { Prints O.printed O.room out.old out.new (insert_bytes self.now) }
    {
        push_clause(out, "INSERT INTO ", self.table.as_str());
        push_list(out, " (", &self.fields);
        let (words, inserted) = self.inserted();
        push_clause(out, words, inserted);
        push_optional(out, " RETURNING ", &self.returning);
    }

    fn push_update<O: Out>(&self, out: &mut O)
        requires room { Fits (O.room out.old) (update_bytes self.now) }
        ensures { Prints O.printed O.room out.old out.new (update_bytes self.now) }
    {
        push_clause(out, "UPDATE ", self.table.as_str());
        push_list(out, " SET ", &self.sets);
        push_where(out, &self.conditions);
        push_optional(out, " RETURNING ", &self.returning);
    }

    fn push_delete<O: Out>(&self, out: &mut O)
        requires room { Fits (O.room out.old) (delete_bytes self.now) }
        ensures { Prints O.printed O.room out.old out.new (delete_bytes self.now) }
    {
        push_clause(out, "DELETE FROM ", self.table.as_str());
        push_where(out, &self.conditions);
        push_optional(out, " RETURNING ", &self.returning);
    }

    fn push_statement<O: Out>(&self, out: &mut O)
        requires room { Fits (O.room out.old) (statement_bytes self.now) }
        ensures { Prints O.printed O.room out.old out.new (statement_bytes self.now) }
    {
        match self.kind {
            Kind::SelectFrom => self.push_query(out),
            Kind::SelectValues => self.push_values(out),
            Kind::InsertInto => self.push_insert(out),
            Kind::UpdateTable => self.push_update(out),
            Kind::DeleteFrom => self.push_delete(out),
        }
    }

    fn push_sql<O: Out>(&self, out: &mut O)
        requires room { Fits (O.room out.old) (sql byte_units self.now) }
        ensures { Prints O.printed O.room out.old out.new (sql byte_units self.now) }
    {
        self.push_statement(out);
        out.push(";");
    }

    fn push_subquery<O: Out>(&self, out: &mut O)
        requires room { Fits (O.room out.old) (subquery byte_units self.now) }
        ensures { Prints O.printed O.room out.old out.new (subquery byte_units self.now) }
    {
        out.push("(");
        self.push_query(out);
        out.push(")");
    }

    fn push_subquery_as<O: Out>(&self, name: &str, out: &mut O)
        requires room { Fits (O.room out.old) (subquery_as byte_units name.now self.now) }
        ensures { Prints O.printed O.room out.old out.new (subquery_as byte_units name.now self.now) }
    {
        out.push("(");
        self.push_query(out);
        push_clause(out, ") AS ", name);
    }

    /// Prints what a finish gives, also where it fails.
    pub(crate) fn push_finished<O: Out>(&self, finish: &Finish, out: &mut O)
        requires room { Fits (O.room out.old) (text_at (finish_view finish.now) self.now) }
        ensures { Prints O.printed O.room out.old out.new (text_at (finish_view finish.now) self.now) }
    {
        match finish {
            Finish::Sql => self.push_sql(out),
            Finish::Query => self.push_query(out),
            Finish::QueryValues => self.push_values(out),
            Finish::Subquery => self.push_subquery(out),
            Finish::SubqueryAs(name) => self.push_subquery_as(name.as_str(), out),
        }
    }
}

impl SqlBuilder {
    fn check_query(&self) -> Result<(), SqlBuilderError>
        ensures { result ≡ unless_error (query_error self.now) tt }
    {
        if self.having.is_some() && self.group_fields.is_empty() {
            return Err(SqlBuilderError::NoGroupBy);
        }
        Ok(())
    }

    fn check(&self) -> Result<(), SqlBuilderError>
        ensures { result ≡ unless_error (sql_error self.now) tt }
    {
        let values = matches!(self.kind, Kind::SelectValues);
        if !values && self.table.is_empty() {
            return Err(SqlBuilderError::NoTableName);
        }
        match self.kind {
            Kind::SelectFrom => self.check_query(),
            Kind::SelectValues if self.fields.is_empty() => Err(SqlBuilderError::NoValues),
            Kind::InsertInto if !self.query.is_some() && self.rows.is_empty() => {
                Err(SqlBuilderError::NoValues)
            }
            Kind::UpdateTable if self.sets.is_empty() => Err(SqlBuilderError::NoSetFields),
            _ => Ok(()),
        }
    }

    /// The error of a finish, if it has one, memory apart.
    pub(crate) fn check_finish(&self, finish: &Finish) -> Result<(), SqlBuilderError>
        ensures { result ≡ unless_error (error_at (finish_view finish.now) self.now) tt }
    {
        match finish {
            Finish::Sql => self.check(),
            Finish::QueryValues => Ok(()),
            Finish::Query | Finish::Subquery | Finish::SubqueryAs(_) => self.check_query(),
        }
    }

    /// Returns the statement, ended by `;`.
    ///
    /// Fails with `NoTableName` if the table text is empty and the statement is no SELECT of
    /// values. After that it fails with `NoValues` if an INSERT has neither rows nor a query, or a
    /// SELECT of values no value. Fails with `NoSetFields` if an UPDATE sets nothing. Fails with
    /// `NoGroupBy` if a SELECT from a table has a HAVING and no GROUP BY. Each comes whether there
    /// is memory or not. Otherwise it fails only if memory runs out.
    ///
    /// The statement parses back as the builder's clauses, and the truth of a WHERE is the AND of
    /// the builder's groups. For this, the builder's texts before the first UNION have to be
    /// balanced. A top-level clause keyword may be in them only between brackets.
    /// `SqlBuilder::select_from(alloc, "t")?.sql()?` gives `SELECT * FROM t;`
    /// `SqlBuilder::select_from(alloc, "")?.sql()` fails with `NoTableName`
    #[tactic(auto, using(crate::proofs::pieces::LayoutShapeLemmas::sql_shape, crate::proofs::pieces::LayoutShapeLemmas::sql_closed, crate::proofs::reading::ReadBackLemmas::sql_clauses, crate::proofs::reading::ReadBackLemmas::sql_truth))]
    pub fn sql(&self) -> Result<String, SqlBuilderError>
        ensures text { IfOk result (λ s. string_bytes s ≡ sql byte_units self.now) }
        ensures shape { IfOk result (λ s.
            HasShape (sql fixed_piece (as_fragments self.now)) (string_bytes s)) }
        ensures closed { IfOk result (λ s.
            IsClosedAs (sql fixed_piece (as_fragments self.now)) (string_bytes s)) }
        ensures clauses { IfOk result (λ s.
            ReadsBack (sql fixed_piece (as_fragments self.now)) (string_bytes s)) }
        ensures truth { IfOk result (λ s.
            HasTruthOfGroups Sql self.now (sql fixed_piece (as_fragments self.now)) (string_bytes s)) }
        ensures error { IfSome (sql_error self.now) (λ error. result ≡ Err error) }
        ensures memory { IsNone (sql_error self.now) → FailsOnlyByMemory result }
    {
        let statement = print(self, &Finish::Sql)?;
        Ok(statement)
    }

    /// Returns the query, on a builder of any kind. Fails with `NoGroupBy` if there is a HAVING and
    /// no GROUP BY, whether there is memory or not. Otherwise it fails only if memory runs out. The
    /// query parses back, and has the truth of its groups, as what `sql` prints does. If the
    /// builder's texts are balanced, also behind UNION, so is the query.
    /// `SqlBuilder::select_from(alloc, "t")?.query()?` gives `SELECT * FROM t`
    /// `SqlBuilder::select_from(alloc, "t")?.having("a")?.query()` fails with `NoGroupBy`
    #[tactic(auto, using(crate::proofs::pieces::LayoutShapeLemmas::query_shape, crate::proofs::pieces::LayoutShapeLemmas::query_closed, crate::proofs::reading::ReadBackLemmas::query_clauses, crate::proofs::reading::ReadBackLemmas::query_truth, crate::proofs::reading::ReadBackLemmas::query_nests))]
    pub fn query(&self) -> Result<String, SqlBuilderError>
        ensures text { IfOk result (λ s. string_bytes s ≡ query byte_units self.now) }
        ensures shape { IfOk result (λ s.
            HasShape (query fixed_piece (as_fragments self.now)) (string_bytes s)) }
        ensures closed { IfOk result (λ s.
            IsClosedAs (query fixed_piece (as_fragments self.now)) (string_bytes s)) }
        ensures clauses { IfOk result (λ s.
            ReadsBack (query fixed_piece (as_fragments self.now)) (string_bytes s)) }
        ensures truth { IfOk result (λ s.
            HasTruthOfGroups Query self.now (query fixed_piece (as_fragments self.now)) (string_bytes s)) }
        ensures nests { IfOk result (λ s.
            Nests Query (query fixed_piece (as_fragments self.now)) (string_bytes s)) }
        ensures error { IfSome (query_error self.now) (λ error. result ≡ Err error) }
        ensures memory { IsNone (query_error self.now) → FailsOnlyByMemory result }
    {
        let query = print(self, &Finish::Query)?;
        Ok(query)
    }

    /// Returns `SELECT` and the fields, nothing else, on a builder of any kind. Fails only if
    /// memory runs out. The text parses back as what `sql` prints does.
    /// `SqlBuilder::select_values(alloc, &[1, 2])?.query_values()?` gives `SELECT 1, 2`
    #[tactic(auto, using(crate::proofs::pieces::LayoutShapeLemmas::query_values_shape, crate::proofs::pieces::LayoutShapeLemmas::query_values_closed, crate::proofs::reading::ReadBackLemmas::query_values_clauses))]
    pub fn query_values(&self) -> Result<String, SqlBuilderError>
        ensures text { IfOk result (λ s. string_bytes s ≡ query_values byte_units self.now) }
        ensures shape { IfOk result (λ s.
            HasShape (query_values fixed_piece (as_fragments self.now)) (string_bytes s)) }
        ensures closed { IfOk result (λ s.
            IsClosedAs (query_values fixed_piece (as_fragments self.now)) (string_bytes s)) }
        ensures clauses { IfOk result (λ s.
            ReadsBack (query_values fixed_piece (as_fragments self.now)) (string_bytes s)) }
        ensures memory { FailsOnlyByMemory result }
    {
        let query = print(self, &Finish::QueryValues)?;
        Ok(query)
    }

    /// Returns the query in brackets. It is an operand without a top-level clause keyword, if the
    /// builder's texts are balanced. Fails as `query` does.
    /// `SqlBuilder::select_from(alloc, "t")?.subquery()?` gives `(SELECT * FROM t)`
    #[tactic(auto, using(crate::proofs::pieces::LayoutShapeLemmas::subquery_shape, crate::proofs::pieces::LayoutShapeLemmas::subquery_closed, crate::proofs::reading::ReadBackLemmas::subquery_nests))]
    pub fn subquery(&self) -> Result<String, SqlBuilderError>
        ensures text { IfOk result (λ s. string_bytes s ≡ subquery byte_units self.now) }
        ensures shape { IfOk result (λ s.
            HasShape (subquery fixed_piece (as_fragments self.now)) (string_bytes s)) }
        ensures closed { IfOk result (λ s.
            IsClosedAs (subquery fixed_piece (as_fragments self.now)) (string_bytes s)) }
        ensures nests { IfOk result (λ s.
            Nests Subquery (subquery fixed_piece (as_fragments self.now)) (string_bytes s)) }
        ensures error { IfSome (query_error self.now) (λ error. result ≡ Err error) }
        ensures memory { IsNone (query_error self.now) → FailsOnlyByMemory result }
    {
        let query = print(self, &Finish::Subquery)?;
        Ok(query)
    }

    /// Returns the query in brackets, `AS` and the name, which serves as a table. It is balanced if
    /// the builder's texts and the name are. It has no top-level clause keyword if the name has
    /// none. Fails as `query` does.
    /// `SqlBuilder::select_from(alloc, "t")?.subquery_as("s")?` gives `(SELECT * FROM t) AS s`
    pub fn subquery_as<S: ToText>(&self, name: S) -> Result<String, SqlBuilderError>
        ensures text { IfOk result (λ s. string_bytes s
            ≡ subquery_as byte_units (S.text name) self.now) }
        ensures shape { IfOk result (λ s. HasShape (subquery_as fixed_piece
            (raw_piece (S.text name)) (as_fragments self.now)) (string_bytes s)) }
        ensures closed { IfOk result (λ s. IsClosedAs (subquery_as fixed_piece
            (raw_piece (S.text name)) (as_fragments self.now)) (string_bytes s)) }
        ensures nests { IfOk result (λ s. Nests (SubqueryAs (S.text name)) (subquery_as fixed_piece
            (raw_piece (S.text name)) (as_fragments self.now)) (string_bytes s)) }
        ensures nests_as_table { IfOk result (λ s. NestsAsTable (SubqueryAs (S.text name))
            (subquery_as fixed_piece (raw_piece (S.text name)) (as_fragments self.now))
            (string_bytes s)) }
        ensures error { IfSome (query_error self.now) (λ error. result ≡ Err error) }
        ensures memory { IsNone (query_error self.now) → FailsOnlyByMemory result }
    {
        self.check_query()?;
        let name = name.to_text(self.alloc)?;
        let query = print(self, &Finish::SubqueryAs(name))?;
        Ok(query)
    }
}

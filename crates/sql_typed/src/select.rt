//! The calls of SELECT, each of which fails only if memory runs out, and what it prints as a query.
ghost use Rattle.std.specs.Prelude.{◌≡◌, IfOk, IsOk, string_bytes};
ghost use Rattle.sql_builder.specs.Calls.{AndTable, Count, CountAs, Distinct, Field, GroupBy, Having, Join, Limit, Natural, Offset, On, OnEq, OrderAsc, OrderDesc, SelectFrom, Subquery, SubqueryAs, Union, UnionAll, nullary_call};
ghost use Rattle.sql_builder.specs.Calls as finish;
ghost use Rattle.sql_builder.specs.StatementLaws.{made_by};
ghost use Rattle.sql_builder.specs.Unions.{needs_brackets};
ghost use Rattle.sql_typed.specs.Fits.{adding, beginning};
ghost use Rattle.sql_typed.specs.Faults.{FailsAs};
ghost use Rattle.sql_typed.specs.Printed.{IsPrinted};
ghost use Rattle.sql_typed.specs.Results.{Gives};
ghost use Rattle.sql_typed.specs.AddedCalls.{operator_call};
ghost use Rattle.sql_typed.specs.Unions.{united_text};

use crate::Result;
use crate::condition::Condition;
use crate::error::Error;
use crate::operand_text::{CountText, FragmentText, OperandText};
use crate::statement::{AddedCall, SelectKind, Statement};
use crate::texts::{Query, TableQuery};
use sql_builder::calls::{
    BinaryClause, Finish, NullaryClause, TableStart, UnaryClause, needs_brackets,
};
use sql_parts::text::OwnedOperand;
use std::alloc::Global;

/// A SELECT from a table.
pub type Select = Statement<SelectKind>;

/// The operator of a join.
#[derive(Clone, Copy)]
pub enum JoinKind {
    /// INNER.
    Inner,
    /// LEFT.
    Left,
    /// LEFT OUTER.
    LeftOuter,
    /// RIGHT.
    Right,
    /// RIGHT OUTER.
    RightOuter,
    /// CROSS.
    Cross,
}

fn join_operator(kind: JoinKind) -> NullaryClause
    ensures { nullary_call result ≡ operator_call kind }
{
    match kind {
        JoinKind::Inner => NullaryClause::Inner,
        JoinKind::Left => NullaryClause::Left,
        JoinKind::LeftOuter => NullaryClause::LeftOuter,
        JoinKind::Right => NullaryClause::Right,
        JoinKind::RightOuter => NullaryClause::RightOuter,
        JoinKind::Cross => NullaryClause::Cross,
    }
}

impl Statement<SelectKind> {
    /// Returns a SELECT from this table. Fails only if memory runs out.
    /// `Select::from(alloc, Fragment::of("t"))?.sql()?` gives `SELECT * FROM t;`
    #[inline(always)]
    pub fn from<T: FragmentText>(alloc: Global, table: T) -> Result<Select>
        ensures made { Gives result (beginning (SelectFrom (T.text table))) }
    {
        Statement::begin(alloc, TableStart::SelectFrom, table)
    }

    /// Adds a field. Fails only if memory runs out.
    /// `Select::from(alloc, Fragment::of("t"))?.field(Operand::of("a"))?.sql()?` gives
    /// `SELECT a FROM t;`
    #[inline(always)]
    pub fn field<F: OperandText>(self, field: F) -> Result<Select>
        ensures made { Gives result (adding (Field (F.text field)) self) }
    {
        self.with_operand(UnaryClause::Field, field)
    }

    /// Adds the field `COUNT(field)`, the number of its values. Fails only if memory runs out.
    /// `Select::from(alloc, Fragment::of("t"))?.count(Operand::of("*"))?.sql()?` gives
    /// `SELECT COUNT(*) FROM t;`
    pub fn count<F: OperandText>(self, field: F) -> Result<Select>
        ensures made { Gives result (adding (Count (F.text field)) self) }
    {
        self.with_operand(UnaryClause::Count, field)
    }

    /// Adds the field `COUNT(field) AS name`, the number of its values under a name. Fails only if
    /// memory runs out.
    /// `Select::from(alloc, Fragment::of("t"))?.count_as(Operand::of("*"), Operand::of("n"))?.sql()?` gives `SELECT COUNT(*) AS n FROM t;`
    pub fn count_as<F: OperandText, N: OperandText>(self, field: F, name: N) -> Result<Select>
        ensures made { Gives result (adding (CountAs (F.text field) (N.text name)) self) }
    {
        self.with_pair(BinaryClause::CountAs, field, name)
    }

    /// Selects equal rows once. Never fails.
    /// `Select::from(alloc, Fragment::of("t"))?.distinct()?.field(Operand::of("a"))?.sql()?` gives
    /// `SELECT DISTINCT a FROM t;`
    pub fn distinct(self) -> Result<Select>
        ensures made { Gives result (adding Distinct self) }
        ensures succeeds { IsOk result }
    {
        self.with_nullary(NullaryClause::Distinct)
    }

    /// Adds a table. Fails only if memory runs out.
    /// `Select::from(alloc, Fragment::of("t"))?.and_table(Fragment::of("u"))?.sql()?` gives
    /// `SELECT * FROM t, u;`
    pub fn and_table<T: FragmentText>(self, table: T) -> Result<Select>
        ensures made { Gives result (adding (AndTable (T.text table)) self) }
    {
        self.with_fragment(UnaryClause::AndTable, table)
    }

    /// Makes the next join NATURAL. Never fails.
    /// `Select::from(alloc, Fragment::of("t"))?.natural()?.join(JoinKind::Left, Fragment::of("u"))?.sql()?` gives `SELECT * FROM t NATURAL LEFT JOIN u;`
    pub fn natural(self) -> Result<Select>
        ensures made { Gives result (adding Natural self) }
        ensures succeeds { IsOk result }
    {
        self.with_nullary(NullaryClause::Natural)
    }

    /// Adds a join with this table. Fails only if memory runs out.
    /// `Select::from(alloc, Fragment::of("t"))?.join(JoinKind::Left, Fragment::of("u"))?.sql()?` gives `SELECT * FROM t LEFT JOIN u;`
    pub fn join<T: FragmentText>(self, kind: JoinKind, table: T) -> Result<Select>
        ensures made { Gives result (adding (Join (T.text table)) (adding (operator_call kind) self)) }
    {
        let statement = self.with_nullary(join_operator(kind))?;
        statement.with_fragment(UnaryClause::Join, table)
    }

    /// Adds a constraint to the last join. Fails only if memory runs out. Before the first join,
    /// printing fails with `NoJoin`. Make one constraint of several by `all`: a database may give a
    /// second one to the join before.
    /// `Select::from(alloc, Fragment::of("t"))?.join(JoinKind::Cross, Fragment::of("u"))?.on(&is_null(alloc, Operand::of("a"))?)?.sql()?` gives
    /// `SELECT * FROM t CROSS JOIN u ON a IS NULL;`
    pub fn on(self, condition: &Condition) -> Result<Select>
        ensures made { Gives result (adding (On (string_bytes condition.now.text)) self) }
    {
        self.with_fragment(UnaryClause::On, condition.as_fragment())
    }

    /// Adds the constraint `left = right` to the last join, which has no other. Fails only if
    /// memory runs out. Before the first join, printing fails with `NoJoin`.
    /// `Select::from(alloc, Fragment::of("t"))?.join(JoinKind::Inner, Fragment::of("u"))?.on_eq(Operand::of("t.a"), Operand::of("u.b"))?.sql()?` gives
    /// `SELECT * FROM t INNER JOIN u ON t.a = u.b;`
    pub fn on_eq<L: OperandText, R: OperandText>(self, left: L, right: R) -> Result<Select>
        ensures made { Gives result (adding (OnEq (L.text left) (R.text right)) self) }
    {
        self.with_pair(BinaryClause::OnEq, left, right)
    }

    /// Adds a field to GROUP BY. Fails only if memory runs out.
    /// `Select::from(alloc, Fragment::of("t"))?.group_by(Operand::of("a"))?.sql()?` gives
    /// `SELECT * FROM t GROUP BY a;`
    pub fn group_by<F: OperandText>(self, field: F) -> Result<Select>
        ensures made { Gives result (adding (GroupBy (F.text field)) self) }
    {
        self.with_operand(UnaryClause::GroupBy, field)
    }

    /// Sets the condition of HAVING. The last call counts. Fails only if memory runs out. Without a
    /// GROUP BY, printing fails with `NoGroupBy`.
    /// `Select::from(alloc, Fragment::of("t"))?.group_by(Operand::of("a"))?.having(&gt(alloc, Operand::of("a"), 1)?)?.sql()?` gives
    /// `SELECT * FROM t GROUP BY a HAVING a > 1;`
    pub fn having(self, condition: &Condition) -> Result<Select>
        ensures made { Gives result (adding (Having (string_bytes condition.now.text)) self) }
    {
        self.with_fragment(UnaryClause::Having, condition.as_fragment())
    }

    /// Adds a field to ORDER BY. Fails only if memory runs out. Beside a union, printing fails with
    /// `OrderBesideUnion`.
    /// `Select::from(alloc, Fragment::of("t"))?.order_asc(Operand::of("a"))?.sql()?` gives
    /// `SELECT * FROM t ORDER BY a;`
    pub fn order_asc<F: OperandText>(self, field: F) -> Result<Select>
        ensures made { Gives result (adding (OrderAsc (F.text field)) self) }
    {
        self.with_operand(UnaryClause::OrderAsc, field)
    }

    /// Adds a field to ORDER BY, descending. Fails only if memory runs out. Beside a union,
    /// printing fails with `OrderBesideUnion`.
    /// `Select::from(alloc, Fragment::of("t"))?.order_desc(Operand::of("a"))?.sql()?` gives
    /// `SELECT * FROM t ORDER BY a DESC;`
    pub fn order_desc<F: OperandText>(self, field: F) -> Result<Select>
        ensures made { Gives result (adding (OrderDesc (F.text field)) self) }
    {
        self.with_operand(UnaryClause::OrderDesc, field)
    }

    /// Sets LIMIT. The last call counts. Beside a union it applies to the whole. Fails only if
    /// memory runs out.
    /// `Select::from(alloc, Fragment::of("t"))?.limit(3)?.sql()?` gives `SELECT * FROM t LIMIT 3;`
    pub fn limit<N: CountText>(self, most: N) -> Result<Select>
        ensures made { Gives result (adding (Limit (N.text most)) self) }
    {
        self.with_operand(UnaryClause::Limit, most)
    }

    /// Sets OFFSET. The last call counts. Beside a union it applies to the whole. SQLite, MySQL and
    /// MariaDB take it only behind a LIMIT. Fails only if memory runs out.
    /// `Select::from(alloc, Fragment::of("t"))?.limit(3)?.offset(2)?.sql()?` gives
    /// `SELECT * FROM t LIMIT 3 OFFSET 2;`
    pub fn offset<N: CountText>(self, skipped: N) -> Result<Select>
        ensures made { Gives result (adding (Offset (N.text skipped)) self) }
    {
        self.with_operand(UnaryClause::Offset, skipped)
    }

    /// Adds UNION and a query. A query that has a UNION, an ORDER BY, a LIMIT or an OFFSET is a
    /// table there, since these would apply to the whole. Fails only if memory runs out.
    /// `Select::from(alloc, Fragment::of("t"))?.union(&query)?.sql()?` gives
    /// `SELECT * FROM t UNION SELECT b FROM t;`,
    /// or of a query with a LIMIT `SELECT * FROM t UNION SELECT * FROM (SELECT b FROM t LIMIT 1) AS u;`
    #[tactic(auto, using(crate::proofs::BracketLemmas::united_balanced))]
    pub fn union(self, query: &Query) -> Result<Select>
        ensures made { Gives result (adding
            (Union (united_text query.now.needs_brackets (string_bytes query.now.text))) self) }
    {
        let query = query.united(self.alloc)?;
        self.add(AddedCall::Unary(UnaryClause::Union, query.as_str()))
    }

    /// Adds UNION ALL and a query, which is a table there if `union` makes it one. Fails only if
    /// memory runs out.
    /// `Select::from(alloc, Fragment::of("t"))?.union_all(&query)?.sql()?` gives
    /// `SELECT * FROM t UNION ALL SELECT b FROM t;`
    #[tactic(auto, using(crate::proofs::BracketLemmas::united_balanced))]
    pub fn union_all(self, query: &Query) -> Result<Select>
        ensures made { Gives result (adding
            (UnionAll (united_text query.now.needs_brackets (string_bytes query.now.text))) self) }
    {
        let query = query.united(self.alloc)?;
        self.add(AddedCall::Unary(UnaryClause::UnionAll, query.as_str()))
    }

    /// Returns the query, as a type that says that it is balanced. Fails as `sql` does.
    /// `Select::from(alloc, Fragment::of("t"))?.query()?.text` gives `SELECT * FROM t`
    pub fn query(&self) -> Result<Query, Error>
        ensures printed { IfOk result (λ q. IsPrinted self.now finish.Query (string_bytes q.text)) }
        ensures united { IfOk result (λ q.
            q.needs_brackets ≡ needs_brackets (made_by self.now.start self.now.calls)) }
        ensures error { FailsAs self.now finish.Query result }
    {
        let needs_brackets = needs_brackets(self.clauses());
        let text = self.print(&Finish::Query)?;
        Ok(Query {
            text,
            needs_brackets,
        })
    }

    /// Returns the query in brackets, as an operand or a table. Fails as `sql` does.
    /// `Select::from(alloc, Fragment::of("t"))?.subquery()?.text` gives `(SELECT * FROM t)`
    pub fn subquery(&self) -> Result<OwnedOperand, Error>
        ensures printed { IfOk result (λ q. IsPrinted self.now Subquery (string_bytes q.text)) }
        ensures error { FailsAs self.now Subquery result }
    {
        let text = self.print(&Finish::Subquery)?;
        Ok(OwnedOperand::of_built(text))
    }

    /// Returns the query in brackets under a name, as a table. Fails as `sql` does.
    /// `Select::from(alloc, Fragment::of("t"))?.subquery_as(Operand::of("s"))?.text` gives
    /// `(SELECT * FROM t) AS s`
    pub fn subquery_as<N: OperandText>(&self, name: N) -> Result<TableQuery, Error>
        ensures printed { IfOk result (λ q.
            IsPrinted self.now (SubqueryAs (N.text name)) (string_bytes q.text)) }
        ensures error { FailsAs self.now (SubqueryAs (N.text name)) result }
    {
        self.check()?;
        let text = self.clauses().subquery_as(name)?;
        Ok(TableQuery { text })
    }
}

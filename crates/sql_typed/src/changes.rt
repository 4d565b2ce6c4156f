//! The calls of INSERT, UPDATE and DELETE. Each call fails only if memory runs out.
ghost use Rattle.std.specs.Prelude.{map};
ghost use Rattle.sql_builder.specs.Calls.{DeleteFrom, Field, InsertInto, SetStr, SetTo, UpdateTable, Values};
ghost use Rattle.sql_typed.specs.Fits.{adding, beginning};
ghost use Rattle.sql_typed.specs.Results.{Gives};

use crate::Result;
use crate::operand_text::{FragmentText, OperandText};
use crate::statement::{AddedCall, DeleteKind, InsertKind, Statement, UpdateKind};
use crate::texts::Row;
use sql_builder::calls::{BinaryClause, TableStart, UnaryClause};
use sql_parts::Value;
use std::alloc::Global;

/// An INSERT into a table.
pub type Insert = Statement<InsertKind>;

/// An UPDATE of a table. It needs a filter, or `all_rows`.
pub type Update = Statement<UpdateKind>;

/// A DELETE from a table. It needs a filter, or `all_rows`.
pub type Delete = Statement<DeleteKind>;

impl Statement<InsertKind> {
    /// Returns an INSERT into this table. Fails only if memory runs out.
    /// `Insert::into(alloc, Fragment::of("t"))?.field(Operand::of("a"))?.values(&[1])?.sql()?` gives `INSERT INTO t (a) VALUES (1);`
    pub fn into<T: FragmentText>(alloc: Global, table: T) -> Result<Insert>
        ensures made { Gives result (beginning (InsertInto (T.text table))) }
    {
        Statement::begin(alloc, TableStart::InsertInto, table)
    }

    /// Adds a field that is inserted. Fails only if memory runs out.
    /// `Insert::into(alloc, Fragment::of("t"))?.field(Operand::of("a"))?.values(&[1])?.sql()?` gives `INSERT INTO t (a) VALUES (1);`
    pub fn field<F: OperandText>(self, field: F) -> Result<Insert>
        ensures made { Gives result (adding (Field (F.text field)) self) }
    {
        self.with_operand(UnaryClause::Field, field)
    }

    /// Adds a row, whose values may be of different types. Fails only if memory runs out.
    /// `Insert::into(alloc, Fragment::of("t"))?.field(Operand::of("a"))?.row(Row::new(alloc).value(Value("it's"))?)?.sql()?` gives
    /// `INSERT INTO t (a) VALUES ('it''s');`
    #[tactic(auto, using(sql_builder::proofs::fragments::FitListLemmas::row_fits))]
    pub fn row(self, row: Row) -> Result<Insert>
        ensures made { Gives result (adding (Values row.values) self) }
    {
        self.add(AddedCall::Row(row.values))
    }

    /// Adds a row, whose values are of one type, such as `Literal`. Fails only if memory runs out.
    /// `Insert::into(alloc, Fragment::of("t"))?.field(Operand::of("a"))?.values(&[Literal::Null])?.sql()?` gives `INSERT INTO t (a) VALUES (NULL);`
    pub fn values<V: OperandText>(self, values: &[V]) -> Result<Insert>
        ensures made { Gives result (adding (Values (map V.text values.now)) self) }
    {
        self.with_values(values)
    }
}

impl Statement<UpdateKind> {
    /// Returns an UPDATE of this table. Fails only if memory runs out.
    /// `Update::table(alloc, Fragment::of("t"))?.set(Operand::of("a"), Value("b"))?.all_rows().sql()?` gives `UPDATE t SET a = 'b';`
    pub fn table<T: FragmentText>(alloc: Global, table: T) -> Result<Update>
        ensures made { Gives result (beginning (UpdateTable (T.text table))) }
    {
        Statement::begin(alloc, TableStart::UpdateTable, table)
    }

    /// Sets a field to a value. Fails only if memory runs out.
    /// `Update::table(alloc, Fragment::of("t"))?.set(Operand::of("a"), Value("b"))?.all_rows().sql()?` gives `UPDATE t SET a = 'b';`
    pub fn set<F: OperandText, V: OperandText>(self, field: F, value: V) -> Result<Update>
        ensures made { Gives result (adding (SetTo (F.text field) (V.text value)) self) }
    {
        self.with_pair(BinaryClause::SetTo, field, value)
    }

    /// Sets a field to a text, which is quoted in place. Fails only if memory runs out.
    /// `Update::table(alloc, Fragment::of("t"))?.set_str(Operand::of("a"), Value("it's"))?.all_rows().sql()?` gives `UPDATE t SET a = 'it''s';`
    #[tactic(auto, using(sql_builder::proofs::truth::CombinedLemmas::fits_as))]
    pub fn set_str<F: OperandText>(self, field: F, value: Value<&str>) -> Result<Update>
        ensures made { Gives result (adding (SetStr (F.text field) value.entry.0.now) self) }
    {
        let field = field.as_text(self.alloc)?;
        self.add(AddedCall::Binary(BinaryClause::SetStr, field.as_str(), value.0))
    }
}

impl Statement<DeleteKind> {
    /// Returns a DELETE from this table. Fails only if memory runs out.
    /// `Delete::from(alloc, Fragment::of("t"))?.all_rows().sql()?` gives `DELETE FROM t;`
    pub fn from<T: FragmentText>(alloc: Global, table: T) -> Result<Delete>
        ensures made { Gives result (beginning (DeleteFrom (T.text table))) }
    {
        Statement::begin(alloc, TableStart::DeleteFrom, table)
    }
}

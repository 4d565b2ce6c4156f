//! Texts, literals, names and bound values.
ghost use Rattle.std.specs.Prelude.{◌≡◌, ◌++◌, codes, pos, string_bytes, IfOk, IsTrue};
ghost use Rattle.sql_builder.specs.Error.{FailsOnlyByMemory};
ghost use Rattle.sql_builder.specs.Literal.{whole};
ghost use Rattle.sql_builder.specs.Quoting.{quoted};
ghost use Rattle.sql_builder.specs.Text.{decimal_text};
ghost use Rattle.sql_builder.specs.Tokens.{closed};
ghost use Rattle.callers.specs.Columns.{column_text};

use sql_builder::prelude::*;
use sql_builder::{SqlBuilderError, name};
use sql_typed::OperandText;
use std::alloc::Global;

/// A column of the table of books: untrusted text is none.
#[derive(Clone, Copy, Drop)]
pub enum Column {
    /// The title.
    Title,
    /// The price.
    Price,
}

impl ToText for Column {
    ghost text = { column_text };

    fn to_text(&self, alloc: Global) -> Result<String, SqlBuilderError> {
        let name = match self {
            Column::Title => "title",
            Column::Price => "price",
        };
        Ok(String::from_str(alloc, name)?)
    }
}

impl OperandText for Column {
    ghost use Rattle.std.specs.Prelude.{refl};
    ghost use Rattle.callers.specs.declared.values.Column.TheVariants.{Title, Price};

    ghost serves_as_operand = { elim [
      | Title ↦ record { is_operand = refl; is_balanced = refl; is_closed = refl; no_clause_word = refl }
      | Price ↦ record { is_operand = refl; is_balanced = refl; is_closed = refl; no_clause_word = refl }
    ] };
}

/// A price in cents.
#[derive(Drop)]
pub struct Cents(pub u64);

impl SqlArg for Cents {
    ghost literal = { λ cents. whole (pos cents.0) };

    fn sql_arg(&self, alloc: Global) -> Result<String, SqlBuilderError> {
        self.0.sql_arg(alloc)
    }
}

/// The condition of this title, whatever text it is.
pub fn of_title(alloc: Global, title: &str) -> Result<String, SqlBuilderError>
    ensures text { IfOk result (λ s. string_bytes s ≡ codes "title = " ++ quoted title.now) }
    ensures closed { IfOk result (λ s. IsTrue (closed (string_bytes s))) }
    ensures memory { FailsOnlyByMemory result }
{
    "title = ?".bind(alloc, &title)
}

/// The condition of a price above this one.
pub fn above(alloc: Global, price: Cents) -> Result<String, SqlBuilderError>
    ensures text { IfOk result (λ s. string_bytes s ≡ codes "price > " ++ decimal_text price.0) }
    ensures memory { FailsOnlyByMemory result }
{
    "price > ?".bind(alloc, &price)
}

/// The title, in the table under its short name.
pub fn title(alloc: Global) -> Result<String, SqlBuilderError>
    ensures text { IfOk result (λ s. string_bytes s ≡ codes "b.title") }
    ensures memory { FailsOnlyByMemory result }
{
    Ok(name!(alloc, "b", "title"))
}

/// The condition of a price between these two.
pub fn between(alloc: Global, least: u64, most: u64) -> Result<String, SqlBuilderError>
    ensures text { IfOk result (λ s. string_bytes s ≡ codes "price BETWEEN "
        ++ (decimal_text least ++ (codes " AND " ++ decimal_text most))) }
    ensures memory { FailsOnlyByMemory result }
{
    let mut args: Vec<Box<dyn SqlArg>> = Vec::new(alloc);
    args.push(Box::new(alloc, least)?)?;
    args.push(Box::new(alloc, most)?)?;
    "price BETWEEN ? AND ?".binds(alloc, args.as_slice())
}

/// The condition of this title in this shop, whatever texts they are.
pub fn sold_in(alloc: Global, title: &str, shop: &str) -> Result<String, SqlBuilderError>
    ensures text { IfOk result (λ s. string_bytes s ≡ codes "title = "
        ++ (quoted title.now ++ (codes " AND shop = " ++ quoted shop.now))) }
    ensures memory { FailsOnlyByMemory result }
{
    let mut args: Vec<Box<dyn SqlArg>> = Vec::new(alloc);
    args.push(Box::new(alloc, String::from_str(alloc, title)?)?)?;
    args.push(Box::new(alloc, String::from_str(alloc, shop)?)?)?;
    "title = ? AND shop = ?".binds(alloc, args.as_slice())
}

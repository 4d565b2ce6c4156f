//! Chains of calls, and calls one by one.
ghost use Rattle.std.specs.Prelude.{◌≡◌, [], ◌∷◌, ◌++◌, codes, false, string_bytes, IfOk, Ok, OnOk};
ghost use Rattle.sql_builder.specs.Builder.{started, with_fields, with_limit, with_order};
ghost use Rattle.sql_builder.specs.Calls.{Cond, Field, SelectFrom, Sql};
ghost use Rattle.sql_builder.specs.declared.condition.Condition.TheVariants.{Compare};
ghost use Rattle.sql_builder.specs.Error.{FailsOnlyByMemory};
ghost use Rattle.sql_builder.specs.Layout.{byte_units, sql};
ghost use Rattle.sql_builder.specs.Quoting.{quoted};
ghost use Rattle.sql_builder.specs.Statement.{statement};
ghost use Rattle.sql_builder.specs.Text.{decimal_text};
ghost use Rattle.sql_builder.specs.declared.condition.Family.TheVariants.{And};
ghost use Rattle.sql_builder.specs.declared.condition.Relation.TheVariants.{Gt};
ghost use Rattle.callers.specs.Columns.{limited};

use sql_builder::SqlBuilderError;
use sql_builder::prelude::*;
use std::alloc::Global;

/// Asks for at most so many books, where a number is given.
pub fn limit(builder: &mut SqlBuilder, most: Option<u64>) -> Result<(), SqlBuilderError>
    ensures made { OnOk result (builder.new ≡ limited most builder.old) }
    ensures memory { FailsOnlyByMemory result }
{
    if let Some(most) = most {
        builder.limit(most)?;
    }
    Ok(())
}

/// Asks for at most so many books, the cheapest first.
pub fn cheapest_first(builder: &mut SqlBuilder, most: u64) -> Result<(), SqlBuilderError>
    ensures made { OnOk result (builder.new
        ≡ with_limit (decimal_text most) (with_order false (codes "price") builder.old)) }
    ensures memory { FailsOnlyByMemory result }
{
    builder.order_asc("price")?.limit(most)?;
    Ok(())
}

/// The titles of books, of at most so many where a number is given.
pub fn titles(alloc: Global, most: Option<u64>) -> Result<SqlBuilder, SqlBuilderError>
    ensures made { IfOk result (λ b. b ≡ limited most
        (with_fields (codes "title" ∷ []) (started (SelectFrom (codes "books"))))) }
    ensures memory { FailsOnlyByMemory result }
{
    let mut builder = SqlBuilder::select_from(alloc, "books")?;
    builder.field("title")?;
    if let Some(most) = most {
        builder.limit(most)?;
    }
    Ok(builder)
}

/// The same as a statement.
pub fn titles_printed(alloc: Global, most: Option<u64>) -> Result<String, SqlBuilderError>
    ensures text { IfOk result (λ s. string_bytes s ≡ sql byte_units (limited most
        (with_fields (codes "title" ∷ []) (started (SelectFrom (codes "books")))))) }
    ensures memory { FailsOnlyByMemory result }
{
    let builder = titles(alloc, most)?;
    builder.sql()
}

/// The titles of the books above this price.
pub fn dearer(alloc: Global, price: u64) -> Result<String, SqlBuilderError>
    ensures text { IfOk result (λ s. string_bytes s
        ≡ codes "SELECT title FROM books WHERE price > " ++ (decimal_text price ++ codes ";")) }
    ensures statement { IfOk result (λ s. statement (SelectFrom (codes "books"))
        (Field (codes "title") ∷ Cond And (Compare Gt (codes "price") (decimal_text price)) ∷ []) Sql
        ≡ Ok (string_bytes s)) }
    ensures memory { FailsOnlyByMemory result }
{
    SqlBuilder::select_from(alloc, "books")?
        .field("title")?
        .and_where_gt("price", price)?
        .sql()
}

/// Gives the books that cost less than `most` this title and this price.
pub fn repriced(
    alloc: Global,
    title: &str,
    price: u64,
    most: u64,
) -> Result<String, SqlBuilderError>
    ensures text { IfOk result (λ s. string_bytes s ≡ codes "UPDATE books SET title = "
        ++ (quoted title.now ++ (codes ", price = " ++ (decimal_text price
        ++ (codes " WHERE price < " ++ (decimal_text most ++ codes ";")))))) }
    ensures memory { FailsOnlyByMemory result }
{
    SqlBuilder::update_table(alloc, "books")?
        .set_str("title", title)?
        .set("price", price)?
        .and_where_lt("price", most)?
        .sql()
}

//! A search whose filters are optional.
ghost use Rattle.std.specs.Prelude.{◌≡◌, codes, string_bytes, IfOk, IsTrue, Ok};
ghost use Rattle.sql_builder.specs.Calls.{SelectFrom, Sql};
ghost use Rattle.sql_builder.specs.Error.{FailsOnlyByMemory};
ghost use Rattle.sql_builder.specs.Meaning.{HasTruthOf, condition_groups};
ghost use Rattle.sql_builder.specs.Shape.{EndsInOneSemicolon};
ghost use Rattle.sql_builder.specs.Statement.{statement};
ghost use Rattle.sql_builder.specs.StatementLaws.{made_by};
ghost use Rattle.sql_builder.specs.Tokens.{closed, tokens};
ghost use Rattle.callers.specs.Searches.{calls};

use sql_builder::SqlBuilderError;
use sql_builder::prelude::*;
use std::alloc::Global;

/// What books are looked for: each filter that is given narrows the search.
#[derive(Clone, Copy)]
pub struct Search<'a> {
    /// What the title contains.
    pub title: Option<&'a str>,
    /// Who wrote it.
    pub author: Option<&'a str>,
    /// What it costs at least.
    pub least_price: Option<u32>,
    /// Whether it has to be in stock.
    pub in_stock: bool,
}

/// The builder of a search.
pub fn searching(alloc: Global, search: &Search<'_>) -> Result<SqlBuilder, SqlBuilderError>
    ensures made { IfOk result (λ b. b ≡ made_by (SelectFrom (codes "books")) (calls search.now)) }
    ensures memory { FailsOnlyByMemory result }
{
    let mut builder = SqlBuilder::select_from(alloc, "books")?;
    builder.field("title")?;
    if let Some(title) = search.title {
        builder.and_where_like_any("title", title)?;
    }
    if let Some(author) = search.author {
        builder.and_where_eq("author", quote(alloc, author)?)?;
    }
    if let Some(price) = search.least_price {
        builder.and_where_ge("price", price)?;
    }
    if search.in_stock {
        builder.and_where_gt("stock", 0)?;
    }
    builder.order_asc("title")?;
    Ok(builder)
}

/// The titles of the books that a search asks for, in order. Whatever its texts are, the statement is closed
/// and ends in its only `;`, and its WHERE has the truth of the filters that are given.
pub fn search_printed(alloc: Global, search: &Search<'_>) -> Result<String, SqlBuilderError>
    ensures statement { IfOk result (λ s. statement (SelectFrom (codes "books"))
        (calls search.now) Sql ≡ Ok (string_bytes s)) }
    ensures closed { IfOk result (λ s. IsTrue (closed (string_bytes s))) }
    ensures semicolon { IfOk result (λ s. EndsInOneSemicolon (tokens (string_bytes s))) }
    ensures truth { IfOk result (λ s. HasTruthOf (condition_groups (calls search.now))
        (string_bytes s)) }
    ensures memory { FailsOnlyByMemory result }
{
    let builder = searching(alloc, search)?;
    builder.sql()
}

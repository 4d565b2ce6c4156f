//! A search form: what users type narrows a search and orders it. No proof is written for it.
ghost use Rattle.std.specs.Prelude.{◌≡◌, string_bytes, IfOk, IsTrue, Ok};
ghost use Rattle.sql_builder.specs.Calls.{Sql};
ghost use Rattle.sql_builder.specs.Meaning.{HasTruthOf, condition_groups};
ghost use Rattle.sql_builder.specs.Shape.{EndsInOneSemicolon};
ghost use Rattle.sql_builder.specs.Statement.{statement};
ghost use Rattle.sql_builder.specs.Tokens.{closed, tokens};
ghost use Rattle.sql_typed.specs.Results.{Gives};
ghost use Rattle.callers.specs.Forms.{asked, from_price, in_stock, of_author, of_genres, of_title};

use crate::values::Column;
use sql_builder::arg::Value;
use sql_builder::text::{Fragment, Operand};
use sql_typed::condition::{contains, eq_or_null, ge, gt, in_values};
use sql_typed::{Error, Result, Select};
use std::alloc::Global;

/// What a user asks for: each filter that is given narrows the search.
#[derive(Clone, Copy)]
pub struct Form<'a> {
    /// What the title contains; `%` and `_` mean themselves.
    pub title: Option<&'a str>,
    /// Who wrote it, or `None` where that isn't known.
    pub author: Option<Option<Value<&'a str>>>,
    /// What it costs at least.
    pub price: Option<u32>,
    /// One of these genres; of none there is no book.
    pub genres: Option<&'a [Value<&'a str>]>,
    /// Whether it has to be in stock.
    pub in_stock: bool,
    /// The column that orders what is found.
    pub column: Column,
}

fn with_title(alloc: Global, books: Select, title: Option<&str>) -> Result<Select>
    ensures made { Gives result (of_title title.entry books) }
{
    match title {
        Some(title) => books.and_where(contains(alloc, Operand::of("title"), Value(title))?),
        None => Ok(books),
    }
}

fn by_author(alloc: Global, books: Select, author: Option<Option<Value<&str>>>) -> Result<Select>
    ensures made { Gives result (of_author author.entry books) }
{
    match author {
        Some(author) => books.and_where(eq_or_null(alloc, Operand::of("author"), author)?),
        None => Ok(books),
    }
}

fn priced_from(alloc: Global, books: Select, price: Option<u32>) -> Result<Select>
    ensures made { Gives result (from_price price books) }
{
    match price {
        Some(price) => books.and_where(ge(alloc, Operand::of("price"), price)?),
        None => Ok(books),
    }
}

fn of_these(alloc: Global, books: Select, genres: Option<&[Value<&str>]>) -> Result<Select>
    ensures made { Gives result (of_genres genres.entry books) }
{
    match genres {
        Some(genres) => books.and_where(in_values(alloc, Operand::of("genre"), genres)?),
        None => Ok(books),
    }
}

fn stocked(alloc: Global, books: Select, stocked: bool) -> Result<Select>
    ensures made { Gives result (in_stock stocked books) }
{
    if stocked {
        books.and_where(gt(alloc, Operand::of("stock"), 0)?)
    } else {
        Ok(books)
    }
}

/// The SELECT of a form. It fails only if memory runs out.
pub fn asking(alloc: Global, form: &Form<'_>) -> Result<Select>
    ensures made { Gives result (asked form.now) }
{
    let books = Select::from(alloc, Fragment::of("books"))?.field(Operand::of("title"))?;
    let books = with_title(alloc, books, form.title)?;
    let books = by_author(alloc, books, form.author)?;
    let books = priced_from(alloc, books, form.price)?;
    let books = of_these(alloc, books, form.genres)?;
    let books = stocked(alloc, books, form.in_stock)?;
    books.order_asc(form.column)
}

/// The statement of a form, whatever was typed: closed, with one `;`, and a WHERE that has the truth
/// of the filters that are given.
pub fn search(alloc: Global, form: &Form<'_>) -> Result<String, Error>
    ensures statement { IfOk result (λ s. let asked = asked form.now in
        statement asked.start asked.calls Sql ≡ Ok (string_bytes s)) }
    ensures closed { IfOk result (λ s. IsTrue (closed (string_bytes s))) }
    ensures semicolon { IfOk result (λ s. EndsInOneSemicolon (tokens (string_bytes s))) }
    ensures truth { IfOk result (λ s. HasTruthOf (condition_groups (asked form.now).calls)
        (string_bytes s)) }
{
    let books = asking(alloc, form)?;
    books.sql()
}

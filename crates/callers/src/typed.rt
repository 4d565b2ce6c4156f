//! Statements by types that are the same whatever the user's texts are: a search, and an upsert.
ghost use Rattle.std.specs.Prelude.{◌≡◌, codes, string_bytes, IfOk};
ghost use Rattle.sql_builder.specs.StringTexts.{outline};
ghost use Rattle.sql_builder.specs.Tokens.{tokens};
ghost use Rattle.sql_typed.specs.Results.{Gives};
ghost use Rattle.callers.specs.TypedSearches.{asked_of_author, asked_to_name, by_author};

use sql_builder::arg::Value;
use sql_builder::text::{Fragment, Operand};
use sql_typed::condition::eq;
use sql_typed::laws::values_do_not_interfere;
use sql_typed::{Error, Insert, Result, Select};
use std::alloc::Global;

fn written_by(alloc: Global, books: Select, author: &str) -> Result<Select>
    ensures made { Gives result (by_author author.now books) }
{
    books.and_where(eq(alloc, Operand::of("author"), Value(author))?)
}

fn of_one_author(alloc: Global, author: &str) -> Result<Select>
    ensures made { Gives result (asked_of_author author.now) }
{
    let books = Select::from(alloc, Fragment::of("books"))?;
    written_by(alloc, books, author)
}

/// The books of this author. Whoever it is, the tokens are the same, but for the text of the string.
pub fn of_author(alloc: Global, author: &str) -> Result<String, Error>
    ensures same { IfOk result (λ s. outline (string_bytes s)
        ≡ tokens (codes "SELECT * FROM books WHERE author = '';")) }
{
    let books = of_one_author(alloc, author)?;
    books.sql()
}

fn naming(alloc: Global, name: &str) -> Result<Insert>
    ensures made { Gives result (asked_to_name name.now) }
{
    let users = Insert::into(alloc, Fragment::of("users"))?.field(Operand::of("name"))?;
    users.values(&[Value(name)])
}

/// Stores a user of this name, or that one has it. Whatever it is, the tokens are the same, but for
/// the texts of both strings.
pub fn named(alloc: Global, name: &str) -> Result<String, Error>
    ensures same { IfOk result (λ s. outline (string_bytes s)
        ≡ tokens (codes "INSERT INTO users (name) VALUES ('') ON DUPLICATE KEY UPDATE name = '';")) }
{
    values_do_not_interfere();
    let rows = naming(alloc, name)?.rows()?;
    let upsert = rows.on_duplicate_key(Operand::of("name"), Value(name))?;
    let statement = upsert.sql()?;
    Ok(statement)
}

//! A search form by parameters: the statement that is printed has no value in it, and the values go
//! beside it. No proof is written for it.
ghost use Rattle.std.specs.Prelude.{◌≡◌, ◌++◌, ◌+◌, length, string_bytes, IfOk, IsTrue, Ok, OnOk};
ghost use Rattle.sql_builder.specs.Calls.{Sql};
ghost use Rattle.sql_builder.specs.Meaning.{HasTruthOf, condition_groups};
ghost use Rattle.sql_builder.specs.Shape.{EndsInOneSemicolon};
ghost use Rattle.sql_builder.specs.Statement.{statement};
ghost use Rattle.sql_builder.specs.Tokens.{closed, tokens};
ghost use Rattle.sql_typed.specs.Faults.{FailsAs};
ghost use Rattle.sql_typed.specs.Results.{Gives};
ghost use Rattle.callers.specs.Parameters.{asked, count, from_price, like_mask, list_values, number_values, of_ids, of_title, text_values, to_price, with_values};

use sql_builder::text::{Fragment, Operand};
use sql_parts::Parameters;
use sql_typed::condition::{eq, ge, in_values, le, like_mask};
use sql_typed::{Error, Result, Select};
use std::alloc::Global;

/// A value as a driver takes it.
#[derive(Clone, Copy, Debug, PartialEq, Drop)]
pub enum Given<'a> {
    /// What a user typed.
    Text(&'a str),
    /// A number.
    Number(u32),
}

/// What a user asks for: each filter that is given narrows the search.
#[derive(Clone, Copy)]
pub struct Wanted<'a> {
    /// The title.
    pub title: Option<&'a str>,
    /// A mask of the title, which `mask::containing` makes of a word.
    pub mask: Option<&'a str>,
    /// What it costs at least.
    pub least: Option<u32>,
    /// What it costs at most.
    pub most: Option<u32>,
    /// Its id is one of these; it is none of an empty list.
    pub ids: Option<&'a [Given<'a>]>,
}

fn titled<'a>(
    alloc: Global,
    books: Select,
    title: Option<&'a str>,
    values: &mut Parameters<Given<'a>>,
) -> Result<Select>
    ensures made { Gives result (of_title values.old.style (length values.old.values.items) title.entry books) }
    ensures values { OnOk result (values.new.values.items ≡ values.old.values.items ++ text_values title.entry) }
    ensures count { OnOk result (length values.new.values.items
        ≡ length values.old.values.items + count title.entry) }
    ensures style { values.new.style ≡ values.old.style }
{
    match title {
        Some(title) => {
            let place = values.bind(Given::Text(title))?;
            books.and_where(eq(alloc, Operand::of("title"), place)?)
        }
        None => Ok(books),
    }
}

fn masked<'a>(
    alloc: Global,
    books: Select,
    mask: Option<&'a str>,
    values: &mut Parameters<Given<'a>>,
) -> Result<Select>
    ensures made { Gives result (like_mask values.old.style (length values.old.values.items) mask.entry books) }
    ensures values { OnOk result (values.new.values.items ≡ values.old.values.items ++ text_values mask.entry) }
    ensures count { OnOk result (length values.new.values.items
        ≡ length values.old.values.items + count mask.entry) }
    ensures style { values.new.style ≡ values.old.style }
{
    match mask {
        Some(mask) => {
            let place = values.bind(Given::Text(mask))?;
            books.and_where(like_mask(alloc, Operand::of("title"), place)?)
        }
        None => Ok(books),
    }
}

fn priced_from<'a>(
    alloc: Global,
    books: Select,
    price: Option<u32>,
    values: &mut Parameters<Given<'a>>,
) -> Result<Select>
    ensures made { Gives result (from_price values.old.style (length values.old.values.items) price books) }
    ensures values { OnOk result (values.new.values.items ≡ values.old.values.items ++ number_values price) }
    ensures count { OnOk result (length values.new.values.items
        ≡ length values.old.values.items + count price) }
    ensures style { values.new.style ≡ values.old.style }
{
    match price {
        Some(price) => {
            let place = values.bind(Given::Number(price))?;
            books.and_where(ge(alloc, Operand::of("price"), place)?)
        }
        None => Ok(books),
    }
}

fn priced_to<'a>(
    alloc: Global,
    books: Select,
    price: Option<u32>,
    values: &mut Parameters<Given<'a>>,
) -> Result<Select>
    ensures made { Gives result (to_price values.old.style (length values.old.values.items) price books) }
    ensures values { OnOk result (values.new.values.items ≡ values.old.values.items ++ number_values price) }
    ensures count { OnOk result (length values.new.values.items
        ≡ length values.old.values.items + count price) }
    ensures style { values.new.style ≡ values.old.style }
{
    match price {
        Some(price) => {
            let place = values.bind(Given::Number(price))?;
            books.and_where(le(alloc, Operand::of("price"), place)?)
        }
        None => Ok(books),
    }
}

fn numbered<'a>(
    alloc: Global,
    books: Select,
    ids: Option<&[Given<'a>]>,
    values: &mut Parameters<Given<'a>>,
) -> Result<Select>
    ensures made { Gives result (of_ids values.old.style (length values.old.values.items) ids.entry books) }
    ensures values { OnOk result (values.new.values.items ≡ values.old.values.items ++ list_values ids.entry) }
    ensures style { values.new.style ≡ values.old.style }
{
    match ids {
        Some(ids) => {
            let places = values.bind_all(alloc, ids)?;
            books.and_where(in_values(alloc, Operand::of("id"), &places)?)
        }
        None => Ok(books),
    }
}

/// The SELECT of a form, and its values. It fails only if memory runs out.
pub fn asking<'a>(
    alloc: Global,
    wanted: &Wanted<'a>,
    values: &mut Parameters<Given<'a>>,
) -> Result<Select>
    ensures made { Gives result (asked values.old.style (length values.old.values.items) wanted.now) }
    ensures values { OnOk result (values.new.values.items
        ≡ with_values values.old.values.items wanted.now) }
    ensures style { values.new.style ≡ values.old.style }
{
    let books = Select::from(alloc, Fragment::of("books"))?.field(Operand::of("title"))?;
    let books = titled(alloc, books, wanted.title, values)?;
    let books = masked(alloc, books, wanted.mask, values)?;
    let books = priced_from(alloc, books, wanted.least, values)?;
    let books = priced_to(alloc, books, wanted.most, values)?;
    numbered(alloc, books, wanted.ids, values)
}

/// The statement of a form, whatever was typed: closed, with one `;`, and a WHERE that has the truth
/// of the filters that are given. Behind the values that were there are those of the form.
pub fn search<'a>(
    alloc: Global,
    wanted: &Wanted<'a>,
    values: &mut Parameters<Given<'a>>,
) -> Result<String, Error>
    ensures statement { IfOk result (λ s.
        let asked = asked values.old.style (length values.old.values.items) wanted.now in
        statement asked.start asked.calls Sql ≡ Ok (string_bytes s)) }
    ensures values { OnOk result (values.new.values.items
        ≡ with_values values.old.values.items wanted.now) }
    ensures style { values.new.style ≡ values.old.style }
    ensures closed { IfOk result (λ s. IsTrue (closed (string_bytes s))) }
    ensures semicolon { IfOk result (λ s. EndsInOneSemicolon (tokens (string_bytes s))) }
    ensures truth { IfOk result (λ s. HasTruthOf
        (condition_groups (asked values.old.style (length values.old.values.items) wanted.now).calls)
        (string_bytes s)) }
    ensures error { FailsAs (asked values.old.style (length values.old.values.items) wanted.now) Sql result }
{
    let books = asking(alloc, wanted, values)?;
    books.sql()
}

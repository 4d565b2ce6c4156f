//! Builders that start again, and statements behind each other in one text.

use crate::every_call::add_every_call;
use sql_builder::calls::{Finish, Start, print, print_to, printed_length, restart};
use sql_builder::{SqlBuilder, SqlBuilderError};
use std::alloc::Global;
use std::test::Fail;

/// Makes a start. Its texts have to be made.
type MakeStart = fn(Global) -> Result<Start, SqlBuilderError>;

/// Makes a finish.
type MakeFinish = fn(Global) -> Result<Finish, SqlBuilderError>;

fn select_from(alloc: Global) -> Result<Start, SqlBuilderError> {
    Ok(Start::SelectFrom(String::from_str(alloc, "books")?))
}

fn select_values(alloc: Global) -> Result<Start, SqlBuilderError> {
    let mut values = Vec::new(alloc);
    values.push(String::from_str(alloc, "1")?)?;
    values.push(String::from_str(alloc, "'a'")?)?;
    Ok(Start::SelectValues(values))
}

fn insert_into(alloc: Global) -> Result<Start, SqlBuilderError> {
    Ok(Start::InsertInto(String::from_str(alloc, "books")?))
}

fn update_table(alloc: Global) -> Result<Start, SqlBuilderError> {
    Ok(Start::UpdateTable(String::from_str(alloc, "books")?))
}

fn delete_from(alloc: Global) -> Result<Start, SqlBuilderError> {
    Ok(Start::DeleteFrom(String::from_str(alloc, "books")?))
}

/// Each start, what `sql` prints of it or why it prints nothing, and what `query` prints behind a join.
const EVERY_START: [(MakeStart, &str, &str); 5] = [
    (
        select_from,
        "SELECT * FROM books;",
        "SELECT * FROM books JOIN shops",
    ),
    (
        select_values,
        "SELECT 1, 'a';",
        "SELECT 1, 'a' FROM  JOIN shops",
    ),
    (insert_into, "No values", "SELECT * FROM books JOIN shops"),
    (
        update_table,
        "No set fields",
        "SELECT * FROM books JOIN shops",
    ),
    (
        delete_from,
        "DELETE FROM books;",
        "SELECT * FROM books JOIN shops",
    ),
];

fn is_said(made: Result<String, SqlBuilderError>, wanted: &str) -> bool {
    match made {
        Ok(text) => text.as_str() == wanted,
        Err(error) => error.message() == wanted,
    }
}

/// Whether a builder that starts again says this by `sql`, and this by `query` behind a join.
fn is_restarted(
    builder: &mut SqlBuilder,
    start: &Start,
    sql: &str,
    query: &str,
) -> Result<bool, SqlBuilderError> {
    restart(builder, start)?;
    let is_alone = is_said(builder.sql(), sql);
    builder.join("shops")?;
    Ok(is_alone && is_said(builder.query(), query))
}

/// Every kind of clause, and NATURAL for a join to come.
fn add_all(builder: &mut SqlBuilder) -> Result<(), SqlBuilderError> {
    add_every_call(builder)?;
    builder.natural();
    Ok(())
}

#[test]
fn a_builder_that_starts_again_has_no_other_clause(rt: HostRuntime) -> Result<(), Fail> {
    let mut builder = SqlBuilder::select_from(rt.alloc(), "t")?;
    for (start, sql, query) in EVERY_START.iter() {
        let start = start(rt.alloc())?;
        add_all(&mut builder)?;
        assert!(rt; is_restarted(&mut builder, &start, sql, query)?, "{sql}");
        // The query of an INSERT, which takes the place of all rows.
        builder.select("SELECT 3")?;
        assert!(rt; is_restarted(&mut builder, &start, sql, query)?, "{sql}");
    }
    Ok(())
}

fn sql(_alloc: Global) -> Result<Finish, SqlBuilderError> {
    Ok(Finish::Sql)
}

fn query(_alloc: Global) -> Result<Finish, SqlBuilderError> {
    Ok(Finish::Query)
}

fn query_values(_alloc: Global) -> Result<Finish, SqlBuilderError> {
    Ok(Finish::QueryValues)
}

fn subquery(_alloc: Global) -> Result<Finish, SqlBuilderError> {
    Ok(Finish::Subquery)
}

fn subquery_as(alloc: Global) -> Result<Finish, SqlBuilderError> {
    Ok(Finish::SubqueryAs(String::from_str(alloc, "s")?))
}

/// Each finish, and what it prints of `of_titles`.
const EVERY_FINISH: [(MakeFinish, &str); 5] = [
    (
        sql,
        "SELECT title FROM books WHERE (price > 9) AND (new) LIMIT 1;",
    ),
    (
        query,
        "SELECT title FROM books WHERE (price > 9) AND (new) LIMIT 1",
    ),
    (query_values, "SELECT title"),
    (
        subquery,
        "(SELECT title FROM books WHERE (price > 9) AND (new) LIMIT 1)",
    ),
    (
        subquery_as,
        "(SELECT title FROM books WHERE (price > 9) AND (new) LIMIT 1) AS s",
    ),
];

fn of_titles(alloc: Global) -> Result<SqlBuilder, SqlBuilderError> {
    let mut builder = SqlBuilder::select_from(alloc, "books")?;
    builder.field("title")?.and_where_gt("price", 9)?;
    builder.and_where("new")?.limit(1)?;
    Ok(builder)
}

/// Whether a finish prints this twice, one behind the other, into the room that a text had, and the
/// length is that of what `print` gives.
fn is_printed_twice(
    alloc: Global,
    builder: &SqlBuilder,
    finish: &Finish,
    wanted: &str,
) -> Result<bool, SqlBuilderError> {
    let length = printed_length(builder, finish);
    let mut text = String::with_capacity(alloc, length.saturating_mul(2))?;
    let room = text.capacity();
    print_to(builder, finish, &mut text)?;
    print_to(builder, finish, &mut text)?;
    Ok(
        text.capacity() == room
            && text.as_str().strip_prefix(wanted) == Some(wanted)
            && print(builder, finish)?.len() == length,
    )
}

#[test]
fn statements_are_printed_behind_each_other(rt: HostRuntime) -> Result<(), Fail> {
    let alloc = rt.alloc();
    let builder = of_titles(alloc)?;
    for (finish, wanted) in EVERY_FINISH.iter() {
        let finish = finish(alloc)?;
        assert!(rt;
            is_printed_twice(alloc, &builder, &finish, wanted)?,
            "{wanted}"
        );
    }
    Ok(())
}

/// Why a finish prints nothing, or that it does.
fn error_of(builder: &SqlBuilder, finish: &Finish, text: &mut String) -> &'static str {
    match print_to(builder, finish, text) {
        Ok(()) => "is printed",
        Err(error) => error.message(),
    }
}

#[test]
fn a_text_stays_where_a_statement_is_not_printed(rt: HostRuntime) -> Result<(), Fail> {
    let alloc = rt.alloc();
    let mut builder = SqlBuilder::update_table(alloc, "t")?;
    builder.having("a")?;
    let mut text = String::from_str(alloc, "-- ")?;
    let sql = error_of(&builder, &Finish::Sql, &mut text);
    let query = error_of(&builder, &Finish::Query, &mut text);
    assert_eq!(rt;
        (sql, query, text.as_str()),
        ("No set fields", "No group by", "-- ")
    );
    Ok(())
}

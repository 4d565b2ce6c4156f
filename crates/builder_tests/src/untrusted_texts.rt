//! Untrusted text as a literal of the builder, and what it needs beside quotes: tests for backslashes and zero bytes, and masks
//! of LIKE.

use crate::every_call::is_made;
use sql_builder::SqlBuilderError;
use sql_builder::lex::has_backslash;
use sql_builder::prelude::*;
use sql_builder::text::{LikeEscape, escape_like, has_zero};
use std::alloc::Global;
use std::test::Fail;

fn inserted(alloc: Global) -> Result<String, SqlBuilderError> {
    let text = Literal::Text(String::from_str(alloc, "it's")?);
    SqlBuilder::insert_into(alloc, "t")?
        .fields(&["a", "b", "c"])?
        .values(&[text, Literal::Whole(5), Literal::Null])?
        .sql()
}

fn selected(alloc: Global) -> Result<String, SqlBuilderError> {
    SqlBuilder::select_from(alloc, "t")?
        .and_where_eq("a", Value("it's"))?
        .and_where_in("b", &[Value("c"), Value("'d")])?
        .and_where_gt("e", Literal::Whole(5))?
        .sql()
}

fn updated(alloc: Global) -> Result<String, SqlBuilderError> {
    SqlBuilder::update_table(alloc, "t")?
        .set("a", Value("it's"))?
        .set("b", Value(None::<i32>))?
        .sql()
}

#[test]
fn takes_values_and_literals(rt: HostRuntime) -> Result<(), Fail> {
    let alloc = rt.alloc();
    assert!(rt;
        is_made(
            selected(alloc),
            "SELECT * FROM t WHERE (a = 'it''s') AND (b IN ('c', '''d')) AND (e > 5);"
        )
    );
    assert!(rt; is_made(updated(alloc), "UPDATE t SET a = 'it''s', b = NULL;"));
    assert!(rt;
        is_made(
            inserted(alloc),
            "INSERT INTO t (a, b, c) VALUES ('it''s', 5, NULL);"
        )
    );
    Ok(())
}

#[test]
fn finds_a_backslash(rt: HostRuntime) -> Result<(), Fail> {
    assert!(rt; has_backslash("\\'; DROP TABLE t; --"));
    assert!(rt; !has_backslash("'; DROP TABLE t; --"));
    Ok(())
}

#[test]
fn finds_a_zero_byte(rt: HostRuntime) -> Result<(), Fail> {
    assert!(rt; has_zero("x\0"));
    assert!(rt; !has_zero("); DROP TABLE t; --0\\0"));
    Ok(())
}

fn begins_with(alloc: Global, text: &str, escape: LikeEscape) -> Result<String, SqlBuilderError> {
    let mut mask = escape_like(alloc, text, escape)?;
    mask.push('%')?;
    "title LIKE ? ESCAPE '!'".bind(alloc, &mask)
}

#[test]
fn escapes_wildcards(rt: HostRuntime) -> Result<(), Fail> {
    let escape = LikeEscape::Exclamation;
    assert_eq!(rt; escape.character(), '!');
    assert!(rt;
        is_made(
            begins_with(rt.alloc(), "50% of_a!", escape),
            "title LIKE '50!% of!_a!!%' ESCAPE '!'"
        )
    );
    Ok(())
}

//! The calls that take borrowed texts, or none, each once.

use crate::every_call::{Made, is_made};
use sql_builder::calls::{
    BinaryClause, BorrowedCondition, Family, NullaryClause, TextList, UnaryClause, VariadicClause,
    add_row, make_binary, make_condition, make_nullary, make_order, make_unary, make_variadic,
};
use sql_builder::text::{Items, Texts};
use sql_builder::{SqlBuilder, SqlBuilderError};
use sql_parts::{escaped, push_escaped, push_quoted, split_at_quote};
use std::alloc::Global;
use std::test::Fail;

fn add_fields(builder: &mut SqlBuilder) -> Result<(), SqlBuilderError> {
    make_nullary(builder, NullaryClause::Distinct)?;
    make_unary(builder, UnaryClause::Field, "a")?;
    make_binary(builder, BinaryClause::CountAs, "b", "n")?;
    let fields = Items { items: &["c", "d"] };
    make_variadic(builder, VariadicClause::Fields, fields)
}

fn add_condition_and_order(builder: &mut SqlBuilder) -> Result<(), SqlBuilderError> {
    let values = Items { items: &["1", "2"] };
    let condition = BorrowedCondition::InList(false, "a", values);
    make_condition(builder, Family::And, condition)?;
    make_order(builder, "a", true)
}

#[test]
fn makes_calls_of_borrowed_texts(rt: HostRuntime) -> Result<(), Fail> {
    let mut builder = SqlBuilder::select_from(rt.alloc(), "t")?;
    add_fields(&mut builder)?;
    add_condition_and_order(&mut builder)?;
    assert!(rt;
        is_made(
            builder.sql(),
            "SELECT DISTINCT a, COUNT(b) AS n, c, d FROM t WHERE a IN (1, 2) ORDER BY a DESC;"
        )
    );
    Ok(())
}

fn push_texts(alloc: Global, row: &mut TextList) -> Result<(), SqlBuilderError> {
    row.push_text(alloc, &1)?;
    row.push_text(alloc, &"b")
}

fn insert_row(alloc: Global) -> Made {
    let mut row = TextList::new(alloc);
    push_texts(alloc, &mut row)?;
    let mut builder = SqlBuilder::insert_into(alloc, "t")?;
    add_row(builder.field("a")?, &row)?;
    builder.sql()
}

#[test]
fn makes_a_row_of_texts(rt: HostRuntime) -> Result<(), Fail> {
    let made = insert_row(rt.alloc());
    assert!(rt; is_made(made, "INSERT INTO t (a) VALUES (1, b);"));
    Ok(())
}

/// Whether the next text of a list is this.
fn is_next(mut items: Items<'_, &str>, wanted: &str) -> bool {
    items.next_text().is_some_and(|text| *text == wanted)
}

#[test]
fn takes_texts_one_by_one(rt: HostRuntime) -> Result<(), Fail> {
    let items = Items { items: &["a", "b"] };
    assert!(rt; is_next(items, "a"));
    Ok(())
}

fn equation(alloc: Global) -> Result<String, SqlBuilderError> {
    let mut text = String::from_str(alloc, "a = ")?;
    push_quoted(&mut text, "it's")?;
    Ok(text)
}

fn inside_of_quotes(alloc: Global) -> Result<String, SqlBuilderError> {
    let mut text = String::from_str(alloc, "a = '")?;
    push_escaped(&mut text, "it's")?;
    Ok(text)
}

#[test]
fn quotes_borrowed_texts(rt: HostRuntime) -> Result<(), Fail> {
    let alloc = rt.alloc();
    assert!(rt; is_made(equation(alloc), "a = 'it''s'"));
    assert!(rt; escaped(alloc, "it's")?.as_str() == "it''s");
    assert!(rt; is_made(inside_of_quotes(alloc), "a = 'it''s"));
    Ok(())
}

#[test]
fn splits_a_text_at_its_first_quote(rt: HostRuntime) {
    assert_eq!(rt; split_at_quote("it's o'k"), Some(("it", "s o'k")));
    assert_eq!(rt; split_at_quote("its").is_none(), true);
}

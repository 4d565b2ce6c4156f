//! Quoting, and the text and the literal of each type, each once.

use crate::every_call::is_made;
use sql_builder::prelude::*;
use sql_builder::text::{copies, copy};
use sql_builder::{SqlBuilderError, baquote, brquote, dquote, esc};
use std::alloc::Global;
use std::borrow::CowStr;
use std::test::Fail;

#[test]
fn quotes_texts(rt: HostRuntime) -> Result<(), Fail> {
    let alloc = rt.alloc();
    assert!(rt; is_made(esc(alloc, "it's"), "it''s"), "esc");
    assert!(rt; is_made(quote(alloc, "it's"), "'it''s'"), "quote");
    assert!(rt; is_made(baquote(alloc, "a`b"), "`a``b`"), "baquote");
    assert!(rt; is_made(brquote(alloc, "a]"), "[a]]]"), "brquote");
    assert!(rt; is_made(dquote(alloc, "a\"b"), "\"a\"\"b\""), "dquote");
    Ok(())
}

/// Whether a value's text is this, both borrowed and made.
fn is_text<T: ToText>(alloc: Global, value: T, wanted: &str) -> bool {
    let is_borrowed = match value.as_text(alloc) {
        Ok(text) => text.as_str() == wanted,
        Err(_) => false,
    };
    is_borrowed && is_made(value.to_text(alloc), wanted)
}

#[test]
fn writes_texts(rt: HostRuntime) -> Result<(), Fail> {
    let alloc = rt.alloc();
    let owned = String::from_str(alloc, "it's")?;
    assert!(rt; is_text(alloc, owned, "it's"), "String");
    assert!(rt; is_text(alloc, "it's", "it's"), "&str");
    assert!(rt; is_text(alloc, CowStr::Borrowed("it's"), "it's"), "CowStr");
    assert!(rt; is_text(alloc, &"it's", "it's"), "&&str");
    assert!(rt; is_text(alloc, true, "true"), "bool");
    assert!(rt; is_text(alloc, '\'', "'"), "char");
    Ok(())
}

#[test]
fn writes_unsigned_numbers(rt: HostRuntime) -> Result<(), Fail> {
    let alloc = rt.alloc();
    assert!(rt; is_text(alloc, 5_u8, "5"), "u8");
    assert!(rt; is_text(alloc, 5_u16, "5"), "u16");
    assert!(rt; is_text(alloc, 5_u32, "5"), "u32");
    assert!(rt; is_text(alloc, 5_u64, "5"), "u64");
    assert!(rt; is_text(alloc, 5_u128, "5"), "u128");
    assert!(rt; is_text(alloc, 5_usize, "5"), "usize");
    Ok(())
}

#[test]
fn writes_signed_numbers(rt: HostRuntime) -> Result<(), Fail> {
    let alloc = rt.alloc();
    assert!(rt; is_text(alloc, -5_i8, "-5"), "i8");
    assert!(rt; is_text(alloc, -5_i16, "-5"), "i16");
    assert!(rt; is_text(alloc, -5_i32, "-5"), "i32");
    assert!(rt; is_text(alloc, -5_i64, "-5"), "i64");
    assert!(rt; is_text(alloc, -5_i128, "-5"), "i128");
    assert!(rt; is_text(alloc, -5_isize, "-5"), "isize");
    Ok(())
}

fn appended<A: SqlArg>(alloc: Global, value: &A) -> Result<String, SqlBuilderError> {
    let mut text = String::from_str(alloc, "a = ")?;
    value.push_sql_arg(alloc, &mut text)?;
    Ok(text)
}

/// Whether a value's literal is what this equation compares with, both made and appended.
fn is_literal<A: SqlArg>(alloc: Global, value: A, equation: &str) -> bool {
    is_made(appended(alloc, &value), equation)
        && match value.sql_arg(alloc) {
            Ok(text) => Some(text.as_str()) == equation.strip_prefix("a = "),
            Err(_) => false,
        }
}

#[test]
fn writes_literals_of_texts(rt: HostRuntime) -> Result<(), Fail> {
    let alloc = rt.alloc();
    let owned = String::from_str(alloc, "it's")?;
    assert!(rt; is_literal(alloc, owned, "a = 'it''s'"), "String");
    assert!(rt; is_literal(alloc, "it's", "a = 'it''s'"), "&str");
    assert!(rt;
        is_literal(alloc, CowStr::Borrowed("it's"), "a = 'it''s'"),
        "CowStr"
    );
    assert!(rt; is_literal(alloc, &"it's", "a = 'it''s'"), "&&str");
    assert!(rt; is_literal(alloc, Some("foo"), "a = 'foo'"), "Some");
    assert!(rt; is_literal(alloc, None::<bool>, "a = NULL"), "None");
    assert!(rt; is_literal(alloc, true, "a = TRUE"), "bool");
    Ok(())
}

#[test]
fn writes_literals_as_values(rt: HostRuntime) -> Result<(), Fail> {
    let alloc = rt.alloc();
    let text = Literal::Text(String::from_str(alloc, "it's")?);
    assert!(rt; is_literal(alloc, text, "a = 'it''s'"), "Text");
    let boxed: Box<dyn SqlArg> = Box::new(alloc, 7)?;
    assert!(rt; is_literal(alloc, boxed, "a = 7"), "Box");
    assert!(rt; is_literal(alloc, Literal::Null, "a = NULL"), "Null");
    assert!(rt;
        is_literal(alloc, Literal::Truth(true), "a = TRUE"),
        "Truth"
    );
    assert!(rt; is_literal(alloc, Literal::Whole(-5), "a = -5"), "Whole");
    Ok(())
}

#[test]
fn writes_unsigned_literals(rt: HostRuntime) -> Result<(), Fail> {
    let alloc = rt.alloc();
    assert!(rt; is_literal(alloc, 5_u8, "a = 5"), "u8");
    assert!(rt; is_literal(alloc, 5_u16, "a = 5"), "u16");
    assert!(rt; is_literal(alloc, 5_u32, "a = 5"), "u32");
    assert!(rt; is_literal(alloc, 5_u64, "a = 5"), "u64");
    assert!(rt; is_literal(alloc, 5_u128, "a = 5"), "u128");
    assert!(rt; is_literal(alloc, 5_usize, "a = 5"), "usize");
    Ok(())
}

#[test]
fn writes_signed_literals(rt: HostRuntime) -> Result<(), Fail> {
    let alloc = rt.alloc();
    assert!(rt; is_literal(alloc, -5_i8, "a = -5"), "i8");
    assert!(rt; is_literal(alloc, -5_i16, "a = -5"), "i16");
    assert!(rt; is_literal(alloc, -5_i32, "a = -5"), "i32");
    assert!(rt; is_literal(alloc, -5_i64, "a = -5"), "i64");
    assert!(rt; is_literal(alloc, -5_i128, "a = -5"), "i128");
    assert!(rt; is_literal(alloc, -5_isize, "a = -5"), "isize");
    Ok(())
}

#[test]
fn copies_lists_of_texts(rt: HostRuntime) -> Result<(), Fail> {
    let copied = copies(rt.alloc(), &[1, 2])?;
    assert_eq!(rt; copied.get(1).map(|text| text.as_str()), Some("2"));
    Ok(())
}

#[test]
fn copies_texts(rt: HostRuntime) -> Result<(), Fail> {
    let text = Some(String::from_str(rt.alloc(), "it's")?);
    assert_eq!(rt; copy(rt.alloc(), &text)?.as_deref(), Some("it's"));
    Ok(())
}

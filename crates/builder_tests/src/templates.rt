//! Templates: what they print, each error by name, and attacks in each hole.

use sql_builder::SqlBuilderError;
use sql_builder::prelude::*;
use sql_builder::text::{Fragment, Operand, OwnedOperand};
use sql_parts::holes::hole_count;
use sql_parts::lex::{Requirement, Violation};
use sql_parts::{Placeholder, Style};
use sql_typed::condition::{Condition, eq};
use sql_typed::{OperandText, Operands, Select, Template, TemplateError};
use std::alloc::Global;
use std::test::Fail;

type Made<T> = Result<T, SqlBuilderError>;

fn single<V: OperandText>(alloc: Global, operand: V) -> Made<Operands> {
    Operands::new(alloc).with(operand)
}

fn is_written<V: OperandText>(alloc: Global, operand: V, wanted: &str) -> bool {
    match single(alloc, operand) {
        Ok(operands) => match operands.written.first() {
            Some(text) => text.as_str() == wanted,
            None => false,
        },
        Err(_) => false,
    }
}

// The condition of a text that is known only when the program runs.
fn trusted(alloc: Global, text: &str, operands: &Operands) -> Result<Condition, TemplateError> {
    let template = Template::of_trusted(text)?;
    template.check(Requirement::TypedFragment, operands)?;
    Ok(template.condition(alloc, operands)?)
}

fn trusted_operand(
    alloc: Global,
    text: &str,
    operands: &Operands,
) -> Result<OwnedOperand, TemplateError> {
    if hole_count(text) != operands.written.len() {
        return Err(TemplateError::OperandCount);
    }
    let template = Template::of_trusted(text)?;
    template.check(Requirement::TypedOperand, operands)?;
    Ok(template.operand(alloc, operands)?)
}

fn trusted_statement(
    alloc: Global,
    text: &str,
    operands: &Operands,
) -> Result<String, TemplateError> {
    if hole_count(text) != operands.written.len() {
        return Err(TemplateError::OperandCount);
    }
    let template = Template::of_trusted(text)?;
    Ok(template.sql(alloc, operands)?)
}

fn is_condition(alloc: Global, text: &str, operands: &Operands, wanted: &str) -> bool {
    match trusted(alloc, text, operands) {
        Ok(condition) => condition.text.as_str() == wanted,
        Err(_) => false,
    }
}

fn is_operand(alloc: Global, text: &str, operands: &Operands, wanted: &str) -> bool {
    match trusted_operand(alloc, text, operands) {
        Ok(operand) => operand.text.as_str() == wanted,
        Err(_) => false,
    }
}

fn is_statement(alloc: Global, text: &str, operands: &Operands, wanted: &str) -> bool {
    match trusted_statement(alloc, text, operands) {
        Ok(statement) => statement.as_str() == wanted,
        Err(_) => false,
    }
}

#[test]
fn writes_operands_in_holes(rt: HostRuntime) -> Result<(), Fail> {
    let alloc = rt.alloc();
    let placeholder = Placeholder {
        style: Style::Dollar,
        number: 1,
    };
    assert!(rt; is_written(alloc, Value("a + b"), "'a + b'"), "a text");
    assert!(rt; is_written(alloc, Literal::Null, "NULL"), "NULL");
    assert!(rt; is_written(alloc, 12, "12"), "a number");
    assert!(rt; is_written(alloc, -1, "(-1)"), "a negative number");
    assert!(rt; is_written(alloc, true, "true"), "a truth value");
    assert!(rt; is_written(alloc, placeholder, "$1"), "a placeholder");
    assert!(rt;
        is_written(alloc, Operand::of("b.price"), "b.price"),
        "a name"
    );
    assert!(rt; is_written(alloc, Operand::of("a + b"), "(a + b)"), "a sum");
    assert!(rt;
        is_written(alloc, Operand::of("(a) + (b)"), "((a) + (b))"),
        "a sum of brackets"
    );
    let books = Select::from(alloc, Fragment::of("books"))?.subquery()?;
    assert!(rt;
        is_written(alloc, &books, "(SELECT * FROM books)"),
        "a query"
    );
    Ok(())
}

#[test]
fn makes_conditions(rt: HostRuntime) -> Result<(), Fail> {
    let alloc = rt.alloc();
    let word = single(alloc, Value("it's"))?;
    assert!(rt;
        is_condition(
            alloc,
            "instr(title, ?) > 0",
            &word,
            "instr(title, 'it''s') > 0"
        ),
        "instr"
    );
    assert!(rt;
        is_condition(
            alloc,
            "lower(a) = lower(?)",
            &word,
            "lower(a) = lower('it''s')"
        ),
        "lower"
    );
    assert!(rt;
        is_condition(alloc, "data->>'k' = ?", &word, "data->>'k' = 'it''s'"),
        "JSON"
    );
    assert!(rt;
        is_condition(alloc, "a = ? OR b", &word, "a = 'it''s' OR b"),
        "OR"
    );
    let query = single(alloc, Select::from(alloc, Fragment::of("t"))?.subquery()?)?;
    assert!(rt;
        is_condition(alloc, "EXISTS ?", &query, "EXISTS (SELECT * FROM t)"),
        "EXISTS"
    );
    let two = single(alloc, Operand::of("a + b"))?.with(2)?;
    assert!(rt;
        is_condition(alloc, "price * ? > ?", &two, "price * (a + b) > 2"),
        "a product"
    );
    Ok(())
}

#[test]
fn makes_operands(rt: HostRuntime) -> Result<(), Fail> {
    let alloc = rt.alloc();
    let date = single(alloc, Value("2026-01-31"))?;
    assert!(rt;
        is_operand(
            alloc,
            "CAST(? AS date)",
            &date,
            "CAST('2026-01-31' AS date)"
        ),
        "CAST"
    );
    let case = "CASE WHEN ? THEN 1 ELSE 0 END";
    let holds = single(alloc, true)?;
    assert!(rt;
        is_operand(alloc, case, &holds, "CASE WHEN true THEN 1 ELSE 0 END"),
        "CASE"
    );
    let equal = Operands::new(alloc).with_condition(&eq(alloc, Operand::of("a"), 1)?)?;
    assert!(rt;
        is_operand(alloc, case, &equal, "CASE WHEN (a = 1) THEN 1 ELSE 0 END"),
        "CASE of a condition"
    );
    assert!(rt;
        is_operand(alloc, "price", &Operands::new(alloc), "price"),
        "no hole"
    );
    Ok(())
}

#[test]
fn makes_statements(rt: HostRuntime) -> Result<(), Fail> {
    let alloc = rt.alloc();
    let both = single(alloc, Value("it's; --"))?.with(-1)?;
    assert!(rt;
        is_statement(
            alloc,
            "INSERT INTO t (a, b) VALUES (?, ?) ON CONFLICT DO NOTHING;",
            &both,
            "INSERT INTO t (a, b) VALUES ('it''s; --', (-1)) ON CONFLICT DO NOTHING;"
        ),
        "an upsert"
    );
    assert!(rt;
        is_statement(
            alloc,
            "WITH u AS (SELECT ? AS a) SELECT a FROM u WHERE a <> ?",
            &both,
            "WITH u AS (SELECT 'it''s; --' AS a) SELECT a FROM u WHERE a <> (-1)"
        ),
        "WITH"
    );
    Ok(())
}

#[test]
fn fails_by_name(rt: HostRuntime) -> Result<(), Fail> {
    let alloc = rt.alloc();
    let one = single(alloc, 1)?;
    let rows = [
        ("a = ?", "a = 1"),
        ("a = '?'", "HolesTouch"),
        ("a = \" ? \"", "HolesTouch"),
        ("a -- ? \n", "HolesTouch"),
        ("a = ?b", "HolesTouch"),
        ("a -?", "HolesTouch"),
        ("a = 'b", "HolesTouch"),
        ("a = ? OR a = ?", "OperandCount"),
        ("a = b", "OperandCount"),
        ("a = ?; DROP TABLE t", "Semicolon"),
        ("a = (?", "Brackets"),
        ("a UNION SELECT ?", "ClauseWord"),
        ("a FOR ?", "DialectWord"),
        ("", "Blank"),
    ];
    for (text, wanted) in rows {
        let found = match trusted(alloc, text, &one) {
            Ok(condition) => condition.text.as_str() == wanted,
            Err(TemplateError::HolesTouch) => wanted == "HolesTouch",
            Err(TemplateError::OperandCount) => wanted == "OperandCount",
            Err(TemplateError::Violation(Violation::Semicolon)) => wanted == "Semicolon",
            Err(TemplateError::Violation(Violation::Brackets)) => wanted == "Brackets",
            Err(TemplateError::Violation(Violation::ClauseWord)) => wanted == "ClauseWord",
            Err(TemplateError::Violation(Violation::DialectWord)) => wanted == "DialectWord",
            Err(TemplateError::Violation(Violation::Blank)) => wanted == "Blank",
            Err(_) => false,
        };
        assert!(rt; found, "{text}");
    }
    Ok(())
}

#[test]
fn says_why(rt: HostRuntime) -> Result<(), Fail> {
    let touching = "A ? is in a literal, a name or a comment, or has no separator beside it";
    let rows = [
        (TemplateError::HolesTouch, touching),
        (TemplateError::OperandCount, "Not one operand for each ?"),
        (TemplateError::Violation(Violation::Blank), "No token"),
        (TemplateError::from(SqlBuilderError::NoValues), "No values"),
    ];
    for (error, wanted) in rows {
        assert!(rt; error.message() == wanted, "{wanted}");
        assert!(rt;
            format!(in rt.alloc(); "{error}")?.as_str() == wanted,
            "{wanted}, printed"
        );
    }
    Ok(())
}

#[test]
fn holds_attacks(rt: HostRuntime) -> Result<(), Fail> {
    let alloc = rt.alloc();
    let rows = [
        ("'", "''''"),
        ("' OR 1=1 --", "''' OR 1=1 --'"),
        ("?", "'?'"),
        ("\\' OR ?; /*", "'\\'' OR ?; /*'"),
    ];
    for (attack, quoted) in rows {
        for (other, other_quoted) in rows {
            let both = single(alloc, Value(attack))?.with(Value(other))?;
            let made = trusted(alloc, "instr(?, title) > 0 AND a = ?", &both)?;
            let wanted = format!(in alloc; "instr({quoted}, title) > 0 AND a = {other_quoted}")?;
            assert!(rt;
                made.text.as_str() == wanted.as_str(),
                "{attack} and {other}"
            );
        }
    }
    Ok(())
}

//! Values beside a statement: each call once, and values of several types.

use crate::every_call::is_made;
use callers::parameters::{self, Wanted, search};
use sql_builder::SqlBuilderError;
use sql_builder::prelude::*;
use sql_builder::text::{Fragment, Operand};
use sql_parts::{Parameters, Placeholder, PositionalError, Style};
use sql_typed::condition::{eq, in_values};
use sql_typed::mask::containing;
use sql_typed::{Error, Select};
use std::alloc::Global;
use std::test::Fail;

/// A value as a driver takes it.
#[derive(Clone, Copy, Debug, PartialEq, Drop)]
enum Given<'a> {
    Text(&'a str),
    Number(i64),
}

#[test]
fn writes_placeholders(rt: HostRuntime) -> Result<(), Fail> {
    let alloc = rt.alloc();
    let rows = [
        (Style::Question, 1, "?1"),
        (Style::Question, 12, "?12"),
        (Style::Dollar, 1, "$1"),
        (Style::Dollar, usize::MAX, "$18446744073709551615"),
    ];
    for (style, number, wanted) in rows {
        let placeholder = Placeholder { style, number };
        assert!(rt; is_made(placeholder.to_text(alloc), wanted), "{wanted}");
        let mut text = String::from_str(alloc, "a = ")?;
        placeholder.push_text(alloc, &mut text)?;
        assert!(rt;
            text.as_str().strip_prefix("a = ") == Some(wanted),
            "{wanted} pushed"
        );
    }
    Ok(())
}

#[test]
fn binds_values_by_their_numbers(rt: HostRuntime) -> Result<(), Fail> {
    let alloc = rt.alloc();
    let mut values = Parameters::new(alloc, Style::Dollar);
    assert!(rt;
        is_made(values.bind(Given::Text("it's"))?.to_text(alloc), "$1"),
        "the first"
    );
    assert!(rt;
        is_made(values.bind(Given::Number(7))?.to_text(alloc), "$2"),
        "the second"
    );
    assert!(rt;
        values.values.as_slice() == [Given::Text("it's"), Given::Number(7)].as_slice(),
        "values"
    );
    values.clear();
    assert!(rt;
        values.values.is_empty() && values.values.capacity() >= 2,
        "no values"
    );
    assert!(rt;
        is_made(values.bind(Given::Number(8))?.to_text(alloc), "$1"),
        "the first again"
    );
    assert!(rt;
        values.values.as_slice() == [Given::Number(8)].as_slice(),
        "values again"
    );
    Ok(())
}

// Whether a list behind another value is bound, and printed so.
fn is_listed(alloc: Global, given: &[Given<'_>], wanted: &str) -> Result<bool, SqlBuilderError> {
    let mut values = Parameters::new(alloc, Style::Question);
    values.bind(Given::Number(1))?;
    let places = values.bind_all(alloc, given)?;
    let listed = in_values(alloc, Operand::of("id"), &places)?;
    let is_bound = values.values.iter().skip(1).eq(given.iter());
    Ok(is_bound && listed.text.as_str() == wanted)
}

#[test]
fn binds_a_list_of_values(rt: HostRuntime) -> Result<(), Fail> {
    let alloc = rt.alloc();
    assert!(rt; is_listed(alloc, &[], "1 = 0")?, "none");
    assert!(rt; is_listed(alloc, &[Given::Number(7)], "id IN (?2)")?, "one");
    let two = [Given::Number(7), Given::Text("it's")];
    assert!(rt; is_listed(alloc, &two, "id IN (?2, ?3)")?, "two");
    Ok(())
}

#[test]
fn binds_owned_values(rt: HostRuntime) -> Result<(), Fail> {
    let alloc = rt.alloc();
    let mut texts = Parameters::new(alloc, Style::Question);
    assert!(rt;
        is_made(
            texts.bind(String::from_str(alloc, "a")?)?.to_text(alloc),
            "?1"
        ),
        "String"
    );
    assert!(rt; texts.values[0].as_str() == "a", "String");
    let mut boxes: Parameters<Box<dyn SqlArg>> = Parameters::new(alloc, Style::Question);
    assert!(rt;
        is_made(boxes.bind(Box::new(alloc, 7)?)?.to_text(alloc), "?1"),
        "Box"
    );
    assert!(rt; is_made(boxes.values[0].sql_arg(alloc), "7"), "Box");
    Ok(())
}

fn titled_or_listed<'a>(
    alloc: Global,
    title: &'a str,
    prices: [i64; 2],
    values: &mut Parameters<Given<'a>>,
) -> Result<String, Error> {
    let title = values.bind(Given::Text(title))?;
    let [low, high] = prices;
    let prices = [
        values.bind(Given::Number(low))?,
        values.bind(Given::Number(high))?,
    ];
    Select::from(alloc, Fragment::of("books"))?
        .field(Operand::of("id"))?
        .and_where(eq(alloc, Operand::of("title"), title)?)?
        .and_where(in_values(alloc, Operand::of("price"), &prices)?)?
        .sql()
}

#[test]
fn prints_a_statement_without_its_values(rt: HostRuntime) -> Result<(), Fail> {
    let alloc = rt.alloc();
    let rows = [
        (
            Style::Question,
            "SELECT id FROM books WHERE (title = ?1) AND (price IN (?2, ?3));",
        ),
        (
            Style::Dollar,
            "SELECT id FROM books WHERE (title = $1) AND (price IN ($2, $3));",
        ),
    ];
    for (style, wanted) in rows {
        for title in ["", "'; DROP TABLE books; --", "a\0b\\"] {
            let mut values = Parameters::new(alloc, style);
            let sql = titled_or_listed(alloc, title, [1, 2], &mut values);
            assert!(rt; is_made(sql, wanted), "{wanted} of {title}");
            let given = [Given::Text(title), Given::Number(1), Given::Number(2)];
            assert!(rt;
                values.values.as_slice() == given.as_slice(),
                "values of {title}"
            );
        }
    }
    Ok(())
}

// Whether a form has this statement, and these values behind one that was there.
fn is_asked(
    alloc: Global,
    form: &Wanted<'_>,
    sql: &str,
    given: &[parameters::Given<'_>],
) -> Result<bool, Error> {
    let mut values = Parameters::new(alloc, Style::Dollar);
    values.bind(parameters::Given::Number(1))?;
    let made = search(alloc, form, &mut values)?;
    Ok(made.as_str() == sql && values.values.iter().skip(1).eq(given.iter()))
}

const SEVEN: parameters::Given<'static> = parameters::Given::Number(7);

const NINE: parameters::Given<'static> = parameters::Given::Number(9);

fn asks_without_texts(alloc: Global, ids: Option<&[parameters::Given<'_>]>) -> Result<bool, Error> {
    let form = Wanted {
        title: None,
        mask: None,
        least: None,
        most: Some(7),
        ids,
    };
    match ids {
        None => is_asked(
            alloc,
            &form,
            "SELECT title FROM books WHERE price <= $2;",
            &[SEVEN],
        ),
        Some([]) => is_asked(
            alloc,
            &form,
            "SELECT title FROM books WHERE (price <= $2) AND (1 = 0);",
            &[SEVEN],
        ),
        Some(_) => is_asked(
            alloc,
            &form,
            "SELECT title FROM books WHERE (price <= $2) AND (id IN ($3, $4));",
            &[SEVEN, SEVEN, NINE],
        ),
    }
}

#[test]
fn asks_by_parameters(rt: HostRuntime) -> Result<(), Fail> {
    let alloc = rt.alloc();
    let none = Wanted {
        title: None,
        mask: None,
        least: None,
        most: None,
        ids: None,
    };
    assert!(rt;
        is_asked(alloc, &none, "SELECT title FROM books;", &[])?,
        "none"
    );
    assert!(rt; asks_without_texts(alloc, None)?, "one");
    assert!(rt; asks_without_texts(alloc, Some(&[]))?, "no ids");
    assert!(rt; asks_without_texts(alloc, Some(&[SEVEN, NINE]))?, "ids");
    Ok(())
}

#[test]
fn asks_by_five_parameters(rt: HostRuntime) -> Result<(), Fail> {
    let alloc = rt.alloc();
    let mask = containing(alloc, "5%")?;
    let all = Wanted {
        title: Some("'; DROP TABLE books; --"),
        mask: Some(mask.as_str()),
        least: Some(9),
        most: Some(7),
        ids: Some(&[SEVEN, NINE]),
    };
    let sql =
        "SELECT title FROM books WHERE (title = $2) AND (title LIKE $3 ESCAPE '!') AND (price >= $4) AND (price <= $5) AND (id IN ($6, $7));";
    let (title, mask) = (
        parameters::Given::Text("'; DROP TABLE books; --"),
        parameters::Given::Text("%5!%%"),
    );
    assert!(rt;
        is_asked(alloc, &all, sql, &[title, mask, NINE, SEVEN, SEVEN, NINE])?,
        "all"
    );
    Ok(())
}

/// Whether the text and the values are these, by their order.
fn is_positional(
    alloc: Global,
    values: &Parameters<Given<'_>>,
    sql: &str,
    wanted: (&str, &[Given<'_>]),
) -> bool {
    let Ok(positional) = values.positional(alloc, sql) else {
        return false;
    };
    let (text, given) = wanted;
    positional.text.as_str() == text
        && positional.values.len() == given.len()
        && positional
            .values
            .iter()
            .zip(given.iter())
            .all(|(one, other)| **one == *other)
}

fn bound<'a>(alloc: Global, style: Style) -> Result<Parameters<Given<'a>>, SqlBuilderError> {
    let mut values = Parameters::new(alloc, style);
    for number in 1..11 {
        values.bind(Given::Number(number))?;
    }
    values.bind(Given::Text("it's"))?;
    Ok(values)
}

#[test]
fn orders_values_by_the_text(rt: HostRuntime) -> Result<(), Fail> {
    let alloc = rt.alloc();
    let dollars = bound(alloc, Style::Dollar)?;
    let [one, two, ten, text] = [
        Given::Number(1),
        Given::Number(2),
        Given::Number(10),
        Given::Text("it's"),
    ];
    assert!(rt;
        is_positional(
            alloc,
            &dollars,
            "a = $2 HAVING b > $1",
            ("a = ? HAVING b > ?", &[two, one])
        ),
        "HAVING"
    );
    assert!(rt;
        is_positional(
            alloc,
            &dollars,
            "$10,$1 , $11",
            ("?,? , ?", &[ten, one, text])
        ),
        "two digits"
    );
    assert!(rt;
        is_positional(alloc, &dollars, "$1 $1", ("? ?", &[one, one])),
        "twice"
    );
    assert!(rt;
        is_positional(
            alloc,
            &dollars,
            "'$1''?' -- $1 ?\n$2",
            ("'$1''?' -- $1 ?\n?", &[two])
        ),
        "strings"
    );
    assert!(rt;
        is_positional(alloc, &dollars, "é$1 $$2 $a", ("é$1 $$2 $a", &[])),
        "names"
    );
    assert!(rt;
        is_positional(alloc, &dollars, "", ("", &[])),
        "an empty text"
    );
    let questions = bound(alloc, Style::Question)?;
    assert!(rt;
        is_positional(
            alloc,
            &questions,
            "é?002 = $1 [?1] `?`",
            ("é? = $1 [?1] `?`", &[two])
        ),
        "?"
    );
    Ok(())
}

/// What the text's error is.
fn error_of(alloc: Global, values: &Parameters<Given<'_>>, sql: &str) -> Option<PositionalError> {
    values.positional(alloc, sql).err()
}

#[test]
fn says_why_there_is_no_order(rt: HostRuntime) -> Result<(), Fail> {
    let alloc = rt.alloc();
    let values = bound(alloc, Style::Dollar)?;
    assert!(rt;
        matches!(
            error_of(alloc, &values, "$12 ?"),
            Some(PositionalError::NoValue(12))
        ),
        "past the list"
    );
    assert!(rt;
        matches!(
            error_of(alloc, &values, "$0"),
            Some(PositionalError::NoValue(0))
        ),
        "0"
    );
    let great = "$100000000000000000000000000000000000000000";
    assert!(rt;
        matches!(
            error_of(alloc, &values, great),
            Some(PositionalError::NoValue(usize::MAX))
        ),
        "great"
    );
    assert!(rt;
        matches!(
            error_of(alloc, &values, "$1 ? $12"),
            Some(PositionalError::NoNumber)
        ),
        "no number"
    );
    assert!(rt;
        matches!(
            error_of(alloc, &values, "a ?1"),
            Some(PositionalError::NoNumber)
        ),
        "the other style"
    );
    assert!(rt;
        PositionalError::NoValue(1).message() == "No value for a placeholder",
        "a message"
    );
    assert!(rt;
        format!(in alloc; "{}", PositionalError::NoNumber)?.as_str() == "A ? without a number",
        "Display"
    );
    Ok(())
}

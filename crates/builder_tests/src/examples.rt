//! Each example of the crate `callers` runs.

use crate::every_call::is_made;
use callers::chains::{cheapest_first, dearer, limit, repriced, titles, titles_printed};
use callers::interference::remarked;
use callers::lists::{books_where, of_books, titled_above};
use callers::searches::{Search, search_printed};
use callers::untrusted::{filled, sought_printed, titled, titled_bound};
use callers::values::{Cents, Column, above, between, of_title, sold_in, title};
use sql_builder::SqlBuilderError;
use sql_builder::prelude::*;
use std::alloc::Global;
use std::test::Fail;

#[test]
fn writes_values(rt: HostRuntime) -> Result<(), Fail> {
    let alloc = rt.alloc();
    assert!(rt; is_made(above(alloc, Cents(900)), "price > 900"));
    assert!(rt; is_made(title(alloc), "b.title"));
    assert!(rt; is_made(between(alloc, 5, 9), "price BETWEEN 5 AND 9"));
    assert!(rt; is_made(of_title(alloc, "it's"), "title = 'it''s'"));
    assert!(rt;
        is_made(
            sold_in(alloc, "it's", "?"),
            "title = 'it''s' AND shop = '?'"
        )
    );
    Ok(())
}

fn cheapest(alloc: Global) -> Result<String, SqlBuilderError> {
    let mut builder = SqlBuilder::select_from(alloc, "books")?;
    builder.field(Column::Title)?.order_asc(Column::Price)?;
    limit(&mut builder, Some(2))?;
    builder.sql()
}

fn cheap_titles(alloc: Global) -> Result<String, SqlBuilderError> {
    let mut builder = titles(alloc, None)?;
    cheapest_first(&mut builder, 3)?;
    builder.sql()
}

#[test]
fn makes_chains(rt: HostRuntime) -> Result<(), Fail> {
    let alloc = rt.alloc();
    assert!(rt;
        is_made(
            cheapest(alloc),
            "SELECT title FROM books ORDER BY price LIMIT 2;"
        )
    );
    assert!(rt;
        is_made(
            cheap_titles(alloc),
            "SELECT title FROM books ORDER BY price LIMIT 3;"
        )
    );
    assert!(rt; is_made(titles_printed(alloc, None), "SELECT title FROM books;"));
    assert!(rt; is_made(dearer(alloc, 9), "SELECT title FROM books WHERE price > 9;"));
    assert!(rt;
        is_made(
            repriced(alloc, "it's", 5, 9),
            "UPDATE books SET title = 'it''s', price = 5 WHERE price < 9;"
        )
    );
    Ok(())
}

#[test]
fn seeks_untrusted_texts(rt: HostRuntime) -> Result<(), Fail> {
    let alloc = rt.alloc();
    assert!(rt;
        is_made(
            titled_bound(alloc, "it's; --"),
            "SELECT * FROM books WHERE title = 'it''s; --';"
        )
    );
    assert!(rt;
        is_made(
            sought_printed(alloc, "it's", None),
            "SELECT * FROM books WHERE title = 'it''s';"
        )
    );
    assert!(rt;
        is_made(
            sought_printed(alloc, "it's", Some("') OR (1 = 1")),
            "SELECT * FROM books WHERE (title = 'it''s') AND (author = ''') OR (1 = 1');"
        )
    );
    Ok(())
}

#[test]
fn searches_by_the_filters_that_are_given(rt: HostRuntime) -> Result<(), Fail> {
    let alloc = rt.alloc();
    let all = Search {
        title: None,
        author: None,
        least_price: None,
        in_stock: false,
    };
    assert!(rt;
        is_made(
            search_printed(alloc, &all),
            "SELECT title FROM books ORDER BY title;"
        )
    );
    let narrow = Search {
        title: Some("it's"),
        author: Some("') OR (1 = 1; --"),
        least_price: Some(5),
        in_stock: true,
    };
    assert!(rt;
        is_made(
            search_printed(alloc, &narrow),
            "SELECT title FROM books WHERE (title LIKE '%it''s%') AND (author = ''') OR (1 = 1; --') AND (price >= 5) AND (stock > 0) ORDER BY title;"
        )
    );
    Ok(())
}

#[test]
fn says_the_same_of_other_texts(rt: HostRuntime) -> Result<(), Fail> {
    let alloc = rt.alloc();
    assert!(rt;
        is_made(
            remarked(alloc, "sea", "out of print"),
            "UPDATE books SET remark = 'out of print' WHERE title LIKE '%sea%';"
        )
    );
    assert!(rt;
        is_made(
            remarked(alloc, "' OR 1 = 1; --", "', price = '0"),
            "UPDATE books SET remark = ''', price = ''0' WHERE title LIKE '%'' OR 1 = 1; --%';"
        )
    );
    Ok(())
}

#[test]
fn quotes_untrusted_texts(rt: HostRuntime) -> Result<(), Fail> {
    let alloc = rt.alloc();
    assert!(rt;
        is_made(
            titled(alloc, "it's; --"),
            "SELECT * FROM books WHERE title = 'it''s; --';"
        )
    );
    let mut args: Vec<Box<dyn SqlArg>> = Vec::new(alloc);
    args.push(Box::new(alloc, 7)?)?;
    assert_eq!(rt;
        filled(alloc, "a = ?", args.as_slice())?.as_deref(),
        Some("a = 7")
    );
    let none = filled(alloc, "a = '?'", args.as_slice())?;
    assert!(rt; none.is_none(), "a placeholder between quotes");
    Ok(())
}

#[test]
fn takes_conditions_that_keep_the_statement(rt: HostRuntime) -> Result<(), Fail> {
    let alloc = rt.alloc();
    assert!(rt; is_made(of_books(alloc, &[]), "SELECT * FROM books;"));
    let made = books_where(alloc, "price < 9 OR new", "stock > 0")?;
    assert_eq!(rt;
        made.as_deref(),
        Some("SELECT * FROM books WHERE (price < 9 OR new) AND (stock > 0);")
    );
    let none = books_where(alloc, "a) OR (b", "stock > 0")?;
    assert!(rt; none.is_none(), "brackets that close too early");
    let none = books_where(alloc, "stock > 0", "a UNION SELECT b")?;
    assert!(rt; none.is_none(), "a word that begins a clause");
    Ok(())
}

#[test]
fn takes_values_without_a_test(rt: HostRuntime) -> Result<(), Fail> {
    let alloc = rt.alloc();
    assert!(rt;
        is_made(
            titled_above(alloc, "it's) OR (1 = 1", 9),
            "SELECT * FROM books WHERE (title = 'it''s) OR (1 = 1') AND (price > 9);"
        )
    );
    Ok(())
}

//! Statements by types: each call once, and an attack as a value that is set and in a condition.
//! `tests/databases/texts.py` puts each attack of SECURITY into each argument.

use crate::every_call::is_made;
use callers::form::{Form, search};
use callers::searches::{Search, search_printed};
use callers::values::Column;
use sql_builder::SqlBuilderError;
use sql_builder::calls::Percent;
use sql_builder::prelude::*;
use sql_builder::text::{Fragment, Operand, OwnedOperand, Quotes};
use sql_parts::{Parameters, Style};
use sql_typed::condition::{
    Condition, all, any, between, contains, ends_with, eq, eq_or_null, exists, ge, gt, in_query,
    in_values, is_not_null, is_null, le, like, like_mask, lt, ne, not, not_between, not_contains,
    not_ends_with, not_exists, not_in_query, not_in_values, not_like, not_like_mask,
    not_starts_with, raw, starts_with,
};
use sql_typed::mask::{containing, ending_with, starting_with};
use sql_typed::{Delete, Error, Insert, JoinKind, Query, Row, Select, Update, operand};
use std::alloc::Global;
use std::test::Fail;

// What ends a string, opens a comment, and joins a condition.
const ATTACK: &str = "'; DROP TABLE t; -- \" OR 1=1 /*";

const QUOTED: &str = "'''; DROP TABLE t; -- \" OR 1=1 /*'";

fn a() -> Operand<'static> {
    Operand::of("a")
}

fn books(alloc: Global) -> Result<Query, Error> {
    Select::from(alloc, Fragment::of("t"))?.field(a())?.query()
}

/// Whether this condition was made.
fn prints(made: Result<Condition, SqlBuilderError>, wanted: &str) -> bool {
    match made {
        Ok(condition) => condition.text.as_str() == wanted,
        Err(_) => false,
    }
}

#[test]
fn compares(rt: HostRuntime) -> Result<(), Fail> {
    let alloc = rt.alloc();
    assert!(rt; prints(eq(alloc, a(), Value("it's")), "a = 'it''s'"));
    assert!(rt; prints(ne(alloc, a(), 1), "a <> 1"));
    assert!(rt; prints(gt(alloc, a(), Literal::Null), "a > NULL"));
    assert!(rt; prints(ge(alloc, a(), -1), "a >= -1"));
    assert!(rt; prints(lt(alloc, a(), true), "a < true"));
    assert!(rt; prints(le(alloc, a(), Operand::of("b")), "a <= b"));
    assert!(rt; prints(is_null(alloc, a()), "a IS NULL"));
    assert!(rt; prints(is_not_null(alloc, a()), "a IS NOT NULL"));
    assert!(rt; prints(eq_or_null(alloc, a(), Some(Value("b"))), "a = 'b'"));
    assert!(rt; prints(eq_or_null(alloc, a(), None::<i64>), "a IS NULL"));
    assert!(rt; prints(between(alloc, a(), 1, 2), "a BETWEEN 1 AND 2"));
    assert!(rt; prints(not_between(alloc, a(), 1, 2), "a NOT BETWEEN 1 AND 2"));
    Ok(())
}

#[test]
fn asks_for_rows_of_queries(rt: HostRuntime) -> Result<(), Fail> {
    let alloc = rt.alloc();
    let query = books(alloc)?;
    assert!(rt; prints(exists(alloc, &query), "EXISTS (SELECT a FROM t)"));
    assert!(rt; prints(not_exists(alloc, &query), "NOT EXISTS (SELECT a FROM t)"));
    let average = Select::from(alloc, Fragment::of("t"))?
        .field(Operand::of("AVG(a)"))?
        .subquery()?;
    assert!(rt; prints(eq(alloc, a(), &average), "a = (SELECT AVG(a) FROM t)"));
    assert!(rt; prints(lt(alloc, average, a()), "(SELECT AVG(a) FROM t) < a"));
    Ok(())
}

#[test]
fn copies_searches(rt: HostRuntime) -> Result<(), Fail> {
    let alloc = rt.alloc();
    let filter = eq(alloc, a(), Value("it's"))?;
    let search = Select::from(alloc, Fragment::of("t"))?
        .and_where(filter.clone()?)?
        .or_where(not(alloc, &filter)?)?;
    let count = search.clone()?.count(Operand::of("*"))?;
    let page = search.clone()?.order_asc(a())?.limit(10)?;
    let all = "SELECT * FROM t WHERE a = 'it''s' OR NOT (a = 'it''s');";
    assert!(rt; is_made(search.sql(), all));
    assert!(rt;
        is_made(
            count.sql(),
            "SELECT COUNT(*) FROM t WHERE a = 'it''s' OR NOT (a = 'it''s');"
        )
    );
    assert!(rt;
        is_made(
            page.sql(),
            "SELECT * FROM t WHERE a = 'it''s' OR NOT (a = 'it''s') ORDER BY a LIMIT 10;"
        )
    );
    let row = Insert::into(alloc, Fragment::of("t"))?.values(&[1])?;
    assert!(rt;
        is_made(
            row.clone()?.values(&[2])?.sql(),
            "INSERT INTO t () VALUES (1), (2);"
        )
    );
    assert!(rt; is_made(row.sql(), "INSERT INTO t () VALUES (1);"));
    Ok(())
}

#[test]
fn matches_masks(rt: HostRuntime) -> Result<(), Fail> {
    let alloc = rt.alloc();
    let word = Value("50%'");
    assert!(rt; prints(like(alloc, Percent::Left, a(), word), "a LIKE '50%''%'"));
    assert!(rt;
        prints(
            not_like(alloc, Percent::Plain, a(), word),
            "a NOT LIKE '50%'''"
        )
    );
    assert!(rt; prints(contains(alloc, a(), word), "a LIKE '%50!%''%' ESCAPE '!'"));
    assert!(rt; prints(starts_with(alloc, a(), word), "a LIKE '50!%''%' ESCAPE '!'"));
    assert!(rt; prints(ends_with(alloc, a(), word), "a LIKE '%50!%''' ESCAPE '!'"));
    assert!(rt;
        prints(
            not_contains(alloc, a(), word),
            "a NOT LIKE '%50!%''%' ESCAPE '!'"
        )
    );
    assert!(rt;
        prints(
            not_starts_with(alloc, a(), word),
            "a NOT LIKE '50!%''%' ESCAPE '!'"
        )
    );
    assert!(rt;
        prints(
            not_ends_with(alloc, a(), word),
            "a NOT LIKE '%50!%''' ESCAPE '!'"
        )
    );
    Ok(())
}

#[test]
fn makes_masks(rt: HostRuntime) -> Result<(), Fail> {
    let alloc = rt.alloc();
    let word = "50%_!'";
    assert!(rt; is_made(containing(alloc, word), "%50!%!_!!'%"));
    assert!(rt; is_made(starting_with(alloc, word), "50!%!_!!'%"));
    assert!(rt; is_made(ending_with(alloc, word), "%50!%!_!!'"));
    let mask = Value(containing(alloc, word)?);
    assert!(rt;
        prints(
            like_mask(alloc, a(), mask),
            "a LIKE '%50!%!_!!''%' ESCAPE '!'"
        )
    );
    let mut values = Parameters::new(alloc, Style::Question);
    let mask = values.bind(containing(alloc, word)?)?;
    assert!(rt; prints(like_mask(alloc, a(), mask), "a LIKE ?1 ESCAPE '!'"));
    assert!(rt; prints(not_like_mask(alloc, a(), mask), "a NOT LIKE ?1 ESCAPE '!'"));
    Ok(())
}

#[test]
fn compares_with_one_query(rt: HostRuntime) -> Result<(), Fail> {
    let alloc = rt.alloc();
    let query = Select::from(alloc, Fragment::of("t"))?.subquery()?;
    let rows = [
        (
            query.as_operand(),
            "a = ((SELECT * FROM t))",
            "a <> ((SELECT * FROM t))",
        ),
        (Operand::of(" (b)"), "a = ( (b))", "a <> ( (b))"),
        (
            Operand::of("/* c */(b)"),
            "a = (/* c */(b))",
            "a <> (/* c */(b))",
        ),
        (
            Operand::of("-- c\n(b)"),
            "a = (-- c\n(b))",
            "a <> (-- c\n(b))",
        ),
        (Operand::of("-b"), "a IN (-b)", "a NOT IN (-b)"),
        (Operand::of("b"), "a IN (b)", "a NOT IN (b)"),
    ];
    for (value, inside, outside) in rows {
        assert!(rt; prints(in_values(alloc, a(), &[value]), inside), "{inside}");
        assert!(rt;
            prints(not_in_values(alloc, a(), &[value]), outside),
            "{outside}"
        );
    }
    let two = [query.as_operand(), Operand::of("b")];
    assert!(rt; prints(in_values(alloc, a(), &two), "a IN ((SELECT * FROM t), b)"));
    Ok(())
}

#[test]
fn combines(rt: HostRuntime) -> Result<(), Fail> {
    let alloc = rt.alloc();
    let both = [eq(alloc, a(), 1)?, raw(alloc, Fragment::of("b OR c"))?];
    assert!(rt; prints(all(alloc, &both), "((a = 1) AND (b OR c))"));
    assert!(rt; prints(any(alloc, &both), "((a = 1) OR (b OR c))"));
    assert!(rt; prints(all(alloc, &[]), "1 = 1"));
    assert!(rt; prints(any(alloc, &[]), "1 = 0"));
    assert!(rt; prints(not(alloc, &is_null(alloc, a())?), "NOT (a IS NULL)"));
    assert!(rt; prints(in_values(alloc, a(), &[1, 2]), "a IN (1, 2)"));
    assert!(rt; prints(not_in_values(alloc, a(), &[Value("b")]), "a NOT IN ('b')"));
    let none: [i64; 0] = [];
    assert!(rt; prints(in_values(alloc, a(), &none), "1 = 0"));
    assert!(rt; prints(not_in_values(alloc, a(), &none), "1 = 1"));
    let query = books(alloc)?;
    assert!(rt; prints(in_query(alloc, a(), &query), "a IN (SELECT a FROM t)"));
    assert!(rt;
        prints(
            not_in_query(alloc, a(), &query),
            "a NOT IN (SELECT a FROM t)"
        )
    );
    Ok(())
}

fn selected(alloc: Global, name: &OwnedOperand) -> Result<String, Error> {
    Select::from(alloc, Fragment::of("t"))?
        .distinct()?
        .field(name)?
        .count(Operand::of("*"))?
        .count_as(a(), Operand::of("n"))?
        .and_table(Operand::of("u"))?
        .join(JoinKind::Left, Fragment::of("v"))?
        .on_eq(a(), Operand::of("v.a"))?
        .natural()?
        .join(JoinKind::Cross, Fragment::of("w"))?
        .on(&is_null(alloc, a())?)?
        .and_where(eq(alloc, a(), 1)?)?
        .or_where(eq(alloc, a(), 2)?)?
        .group_by(name)?
        .having(&gt(alloc, a(), 3)?)?
        .order_asc(a())?
        .order_desc(name)?
        .limit(4)?
        .offset(5)?
        .sql()
}

#[test]
fn selects(rt: HostRuntime) -> Result<(), Fail> {
    let name = SqlName::new(rt.alloc(), "b\"")?.operand(Quotes::Double)?;
    assert_eq!(rt;
        selected(rt.alloc(), &name)?.as_str(),
        "SELECT DISTINCT \"b\"\"\", COUNT(*), COUNT(a) AS n FROM t, u LEFT JOIN v ON a = v.a NATURAL CROSS JOIN w ON a IS NULL WHERE a = 1 OR a = 2 GROUP BY \"b\"\"\" HAVING a > 3 ORDER BY a, \"b\"\"\" DESC LIMIT 4 OFFSET 5;"
    );
    Ok(())
}

#[test]
fn unites_queries(rt: HostRuntime) -> Result<(), Fail> {
    let query = books(rt.alloc())?;
    let union = Select::from(rt.alloc(), Fragment::of("u"))?
        .union(&query)?
        .union_all(&query)?;
    let wanted = "SELECT * FROM u UNION SELECT a FROM t UNION ALL SELECT a FROM t;";
    assert!(rt; is_made(union.sql(), wanted));
    let mut out = String::from_str(rt.alloc(), "-- ")?;
    union.print_to(&mut out)?;
    assert_eq!(rt; out.as_str().strip_prefix("-- "), Some(wanted));
    Ok(())
}

// A SELECT with UNION and this query.
fn united(alloc: Global, query: Result<Select, SqlBuilderError>) -> Result<String, Error> {
    let query = query?.query()?;
    Select::from(alloc, Fragment::of("u"))?
        .union(&query)?
        .limit(1)?
        .sql()
}

#[test]
fn unites_queries_as_tables(rt: HostRuntime) -> Result<(), Fail> {
    let alloc = rt.alloc();
    let t = || Select::from(alloc, Fragment::of("t"));
    let query = t()?.query()?;
    let rows = [
        (t()?.limit(2), "SELECT * FROM t LIMIT 2"),
        (t()?.offset(2), "SELECT * FROM t OFFSET 2"),
        (t()?.order_asc(a()), "SELECT * FROM t ORDER BY a"),
        (t()?.order_desc(a()), "SELECT * FROM t ORDER BY a DESC"),
        (
            t()?.union_all(&query),
            "SELECT * FROM t UNION ALL SELECT * FROM t",
        ),
    ];
    for (select, text) in rows {
        let mut wanted = String::from_str(alloc, "SELECT * FROM u UNION SELECT * FROM (")?;
        wanted.push_str(text)?;
        wanted.push_str(") AS u LIMIT 1;")?;
        assert!(rt; is_made(united(alloc, select), wanted.as_str()), "{text}");
    }
    let plain = "SELECT * FROM u UNION SELECT * FROM t LIMIT 1;";
    assert!(rt; is_made(united(alloc, t()), plain));
    Ok(())
}

#[test]
fn takes_placeholders(rt: HostRuntime) -> Result<(), Fail> {
    let alloc = rt.alloc();
    let mut values = Parameters::new(alloc, Style::Question);
    let select = Select::from(alloc, Fragment::of("t"))?
        .field(values.bind(1)?)?
        .join(JoinKind::Left, Fragment::of("u"))?
        .on(&eq(alloc, a(), values.bind(2)?)?)?
        .and_where(in_values(alloc, a(), &[values.bind(3)?, values.bind(4)?])?)?
        .and_where(not_in_values(alloc, a(), &[values.bind(5)?])?)?
        .and_where(between(alloc, a(), values.bind(6)?, values.bind(7)?)?)?
        .group_by(a())?
        .having(&gt(alloc, a(), values.bind(8)?)?)?
        .limit(values.bind(9)?)?
        .offset(values.bind(10)?)?;
    assert!(rt;
        is_made(
            select.sql(),
            "SELECT ?1 FROM t LEFT JOIN u ON a = ?2 WHERE (a IN (?3, ?4)) AND (a NOT IN (?5)) AND (a BETWEEN ?6 AND ?7) GROUP BY a HAVING a > ?8 LIMIT ?9 OFFSET ?10;"
        )
    );
    let mut values = Parameters::new(alloc, Style::Dollar);
    let insert = Insert::into(alloc, Fragment::of("t"))?
        .row(
            Row::new(alloc)
                .value(values.bind(1)?)?
                .value(Literal::Null)?,
        )?
        .values(&[values.bind(2)?, values.bind(3)?])?
        .returning(values.bind(4)?)?;
    assert!(rt;
        is_made(
            insert.sql(),
            "INSERT INTO t () VALUES ($1, NULL), ($2, $3) RETURNING $4;"
        )
    );
    let mut values = Parameters::new(alloc, Style::Dollar);
    let update = Update::table(alloc, Fragment::of("t"))?
        .set(a(), values.bind(1)?)?
        .and_where(not(alloc, &eq_or_null(alloc, a(), Some(values.bind(2)?))?)?)?;
    assert!(rt; is_made(update.sql(), "UPDATE t SET a = $1 WHERE NOT (a = $2);"));
    Ok(())
}

#[test]
fn nests_queries(rt: HostRuntime) -> Result<(), Fail> {
    let inner = Select::from(rt.alloc(), Fragment::of("t"))?;
    let table = inner.subquery_as(Operand::of("s"))?;
    let outer = Select::from(rt.alloc(), table)?.field(inner.subquery()?)?;
    assert!(rt;
        is_made(
            outer.sql(),
            "SELECT (SELECT * FROM t) FROM (SELECT * FROM t) AS s;"
        )
    );
    Ok(())
}

#[test]
fn changes(rt: HostRuntime) -> Result<(), Fail> {
    let alloc = rt.alloc();
    let insert = Insert::into(alloc, Fragment::of("t"))?
        .field(a())?
        .field(Operand::of("b"))?
        .row(Row::new(alloc).value(Value("it's"))?.value(2)?)?
        .values(&[Literal::Text(String::from_str(alloc, "c")?), Literal::Null])?
        .values(&[operand(alloc, Value("d"))?, operand(alloc, 3)?])?
        .returning(Operand::of("id"))?;
    assert!(rt;
        is_made(
            insert.sql(),
            "INSERT INTO t (a, b) VALUES ('it''s', 2), ('c', NULL), ('d', 3) RETURNING id;"
        )
    );
    let update = Update::table(alloc, Fragment::of("t"))?
        .set(a(), Value("b"))?
        .set_str(Operand::of("b"), Value("it's"))?
        .and_where(is_null(alloc, a())?)?;
    assert!(rt;
        is_made(
            update.sql(),
            "UPDATE t SET a = 'b', b = 'it''s' WHERE a IS NULL;"
        )
    );
    let delete = Delete::from(alloc, Fragment::of("t"))?.and_where(eq(alloc, a(), 1)?)?;
    assert!(rt;
        is_made(
            delete.returning_id()?.sql(),
            "DELETE FROM t WHERE a = 1 RETURNING id;"
        )
    );
    Ok(())
}

fn attacked(alloc: Global) -> Result<String, Error> {
    Update::table(alloc, Fragment::of("t"))?
        .set(a(), Value(ATTACK))?
        .and_where(eq(alloc, a(), Value(ATTACK))?)?
        .sql()
}

#[test]
fn attacks_stay_values(rt: HostRuntime) -> Result<(), Fail> {
    let alloc = rt.alloc();
    let wanted = format!(in alloc; "UPDATE t SET a = {QUOTED} WHERE a = {QUOTED};")?;
    assert!(rt; is_made(attacked(alloc), wanted.as_str()));
    Ok(())
}

#[test]
fn searches_alike(rt: HostRuntime) -> Result<(), Fail> {
    let alloc = rt.alloc();
    let form = Form {
        title: None,
        author: Some(Some(Value(ATTACK))),
        price: Some(3),
        genres: None,
        in_stock: true,
        column: Column::Title,
    };
    let same = Search {
        title: None,
        author: Some(ATTACK),
        least_price: Some(3),
        in_stock: true,
    };
    assert_eq!(rt;
        search(alloc, &form)?.as_str(),
        search_printed(alloc, &same)?.as_str()
    );
    Ok(())
}

#[test]
fn asks_by_a_form(rt: HostRuntime) -> Result<(), Fail> {
    let alloc = rt.alloc();
    let nothing = Form {
        title: None,
        author: None,
        price: None,
        genres: None,
        in_stock: false,
        column: Column::Price,
    };
    assert!(rt;
        is_made(
            search(alloc, &nothing),
            "SELECT title FROM books ORDER BY price;"
        )
    );
    let everything = Form {
        title: Some("50%_'"),
        author: Some(None),
        price: Some(3),
        genres: Some(&[]),
        in_stock: true,
        column: Column::Title,
    };
    assert!(rt;
        is_made(
            search(alloc, &everything),
            "SELECT title FROM books WHERE (title LIKE '%50!%!_''%' ESCAPE '!') AND (author IS NULL) AND (price >= 3) AND (1 = 0) AND (stock > 0) ORDER BY title;"
        )
    );
    let genres = [Value("it's"), Value("b")];
    let some = Form {
        author: Some(Some(Value("O'Neill"))),
        genres: Some(&genres),
        ..nothing
    };
    assert!(rt;
        is_made(
            search(alloc, &some),
            "SELECT title FROM books WHERE (author = 'O''Neill') AND (genre IN ('it''s', 'b')) ORDER BY price;"
        )
    );
    Ok(())
}

//! Clauses that the builder hasn't, and statements that aren't printed, by name.

use crate::every_call::is_made;
use sql_builder::SqlBuilderError;
use sql_builder::calls::Percent;
use sql_builder::prelude::*;
use sql_builder::text::{Fragment, Operand};
use sql_parts::lex::Violation;
use sql_typed::condition::{
    all, any, contains, eq, is_null, like, not, not_contains, not_in_values, starts_with,
};
use sql_typed::printed::{Conflict, Rows, Whole};
use sql_typed::{
    Delete, Error, Insert, JoinKind, Lock, Operands, Printed, Query, Row, Select, Template,
    TemplateError, Update, Wait, With,
};
use std::alloc::Global;
use std::test::Fail;

// What ends a string, opens a comment, and ends a statement.
const ATTACK: &str = "'; DROP TABLE t; -- /*";

const QUOTED: &str = "'''; DROP TABLE t; -- /*'";

fn id() -> Operand<'static> {
    Operand::of("id")
}

fn n() -> Operand<'static> {
    Operand::of("n")
}

fn t(alloc: Global) -> Result<Select, SqlBuilderError> {
    Select::from(alloc, Fragment::of("t"))?.field(id())
}

fn query(alloc: Global) -> Result<Query, Error> {
    t(alloc)?.query()
}

fn update(alloc: Global) -> Result<Update, SqlBuilderError> {
    Update::table(alloc, Fragment::of("t"))?.set(n(), 1)
}

fn delete(alloc: Global) -> Result<Delete, SqlBuilderError> {
    Delete::from(alloc, Fragment::of("t"))
}

fn insert(alloc: Global) -> Result<Insert, SqlBuilderError> {
    Insert::into(alloc, Fragment::of("t"))?
        .field(id())?
        .field(n())?
        .row(Row::new(alloc).value(1)?.value(Value(ATTACK))?)
}

fn conflict(alloc: Global) -> Result<Printed<Conflict>, Error> {
    Ok(insert(alloc)?.rows()?.on_conflict(&[id()])?)
}

// Its message, where it fails.
fn message<T>(made: Result<T, Error>) -> &'static str
where
    T: Drop,
{
    match made {
        Ok(_) => "",
        Err(error) => error.message(),
    }
}

#[test]
fn rows_need_a_condition(rt: HostRuntime) -> Result<(), Fail> {
    let alloc = rt.alloc();
    let wanted = "No condition: say all_rows where every row is meant";
    assert_eq!(rt; message(update(alloc)?.sql()), wanted);
    assert_eq!(rt; message(delete(alloc)?.sql()), wanted);
    assert_eq!(rt; message(delete(alloc)?.returning(id())?.printed()), wanted);
    let mut out = String::from_str(alloc, "-- ")?;
    assert_eq!(rt; message(delete(alloc)?.print_to(&mut out)), wanted);
    assert_eq!(rt; out.as_str(), "-- ");
    assert!(rt; is_made(update(alloc)?.all_rows().sql(), "UPDATE t SET n = 1;"));
    assert!(rt; is_made(delete(alloc)?.all_rows().sql(), "DELETE FROM t;"));
    let filtered = delete(alloc)?.and_where(eq(alloc, id(), 1)?)?;
    assert!(rt; is_made(filtered.all_rows().sql(), "DELETE FROM t WHERE id = 1;"));
    let filtered = update(alloc)?.or_where(is_null(alloc, id())?)?;
    assert!(rt; is_made(filtered.sql(), "UPDATE t SET n = 1 WHERE id IS NULL;"));
    Ok(())
}

#[test]
fn empty_lists_filter_nothing(rt: HostRuntime) -> Result<(), Fail> {
    let alloc = rt.alloc();
    let wanted = "No condition: say all_rows where every row is meant";
    let none: [i64; 0] = [];
    let others = delete(alloc)?.and_where(not_in_values(alloc, id(), &none)?)?;
    assert_eq!(rt; message(others.sql()), wanted);
    let all_of_none = all(alloc, &[])?;
    assert_eq!(rt;
        message(delete(alloc)?.or_where(all_of_none)?.sql()),
        wanted
    );
    let not_any = not(alloc, &any(alloc, &[])?)?;
    assert_eq!(rt; message(update(alloc)?.and_where(not_any)?.sql()), wanted);
    let filtered = others.and_where(eq(alloc, id(), 1)?)?;
    assert!(rt; is_made(filtered.sql(), "DELETE FROM t WHERE (1 = 1) AND (id = 1);"));
    Ok(())
}

#[test]
fn empty_words_filter_nothing(rt: HostRuntime) -> Result<(), Fail> {
    let alloc = rt.alloc();
    let wanted = "No condition: say all_rows where every row is meant";
    let any_n = contains(alloc, n(), Value(""))?;
    assert_eq!(rt; message(delete(alloc)?.and_where(any_n)?.sql()), wanted);
    let any_start = starts_with(alloc, Operand::of("lower(n)"), Value(""))?;
    assert_eq!(rt; message(update(alloc)?.or_where(any_start)?.sql()), wanted);
    let any_like = like(alloc, Percent::Right, n(), Value(""))?;
    assert_eq!(rt; message(delete(alloc)?.and_where(any_like)?.sql()), wanted);
    let no_n = not_contains(alloc, n(), Value(""))?;
    assert!(rt;
        is_made(
            delete(alloc)?.and_where(no_n)?.sql(),
            "DELETE FROM t WHERE n NOT LIKE '%%' ESCAPE '!';",
        )
    );
    Ok(())
}

#[test]
fn selects_that_are_not_printed(rt: HostRuntime) -> Result<(), Fail> {
    let alloc = rt.alloc();
    let wanted = "An ORDER BY beside a union";
    let query = query(alloc)?;
    assert_eq!(rt;
        message(t(alloc)?.union(&query)?.order_asc(id())?.sql()),
        wanted
    );
    assert_eq!(rt;
        message(t(alloc)?.order_desc(id())?.union_all(&query)?.query()),
        wanted
    );
    let wanted = "A constraint before the first join";
    let u = Fragment::of("u");
    assert_eq!(rt; message(t(alloc)?.on_eq(id(), n())?.subquery()), wanted);
    let early = t(alloc)?
        .on(&is_null(alloc, id())?)?
        .join(JoinKind::Left, u)?;
    assert_eq!(rt; message(early.subquery_as(n())), wanted);
    let joined = t(alloc)?.join(JoinKind::Left, u)?.on_eq(id(), n())?;
    assert!(rt; is_made(joined.sql(), "SELECT id FROM t LEFT JOIN u ON id = n;"));
    Ok(())
}

#[test]
fn upserts(rt: HostRuntime) -> Result<(), Fail> {
    let alloc = rt.alloc();
    let any = insert(alloc)?
        .rows()?
        .on_conflict::<Operand<'_>>(&[])?
        .do_nothing()?;
    let updated = conflict(alloc)?
        .do_update(n(), Value(ATTACK))?
        .set(id(), Operand::of("excluded.id"))?
        .set(Operand::of("m"), Operand::of("t.m + 1"))?
        .returning(id())?;
    let rows = [
        (any.sql(), " ON CONFLICT DO NOTHING;"),
        (
            conflict(alloc)?.do_nothing()?.returning(n())?.sql(),
            " ON CONFLICT (id) DO NOTHING RETURNING n;",
        ),
        (
            insert(alloc)?
                .rows()?
                .on_conflict(&[id(), n()])?
                .do_update(n(), Operand::of("excluded.n"))?
                .sql(),
            " ON CONFLICT (id, n) DO UPDATE SET n = excluded.n;",
        ),
        (
            updated.sql(),
            " ON CONFLICT (id) DO UPDATE SET n = '''; DROP TABLE t; -- /*', id = excluded.id, m = t.m + 1 RETURNING id;",
        ),
        (
            insert(alloc)?
                .rows()?
                .on_duplicate_key(n(), 2)?
                .set(id(), 3)?
                .set_inserted(n())?
                .sql(),
            " ON DUPLICATE KEY UPDATE n = 2, id = 3, n = VALUES(n);",
        ),
    ];
    for (made, clause) in rows {
        let mut wanted = String::from_str(alloc, "INSERT INTO t (id, n) VALUES (1, ")?;
        wanted.push_str(QUOTED)?;
        wanted.push_str(")")?;
        wanted.push_str(clause)?;
        assert!(rt; is_made(made, wanted.as_str()), "{clause}");
    }
    let early = insert(alloc)?.returning(id())?;
    assert_eq!(rt; message(early.rows()), "A RETURNING before a clause");
    Ok(())
}

fn inserted(alloc: Global) -> Result<Printed<Rows>, Error> {
    insert(alloc)?.rows_of(&query(alloc)?)
}

fn locked(alloc: Global, lock: Lock, wait: Wait) -> Result<Printed<Whole>, Error> {
    Ok(t(alloc)?.query()?.printed(alloc)?.locked(lock, wait)?)
}

#[test]
fn prints_behind_queries(rt: HostRuntime) -> Result<(), Fail> {
    let alloc = rt.alloc();
    let query = query(alloc)?;
    let limited = t(alloc)?.limit(1)?.query()?;
    let except = query.except(alloc, &limited)?;
    let rows = [
        (
            inserted(alloc)?.sql(),
            "INSERT INTO t (id, n) SELECT id FROM t;",
        ),
        (
            inserted(alloc)?
                .on_conflict(&[id()])?
                .do_nothing()?
                .returning(id())?
                .sql(),
            "INSERT INTO t (id, n) SELECT id FROM t ON CONFLICT (id) DO NOTHING RETURNING id;",
        ),
        (
            locked(alloc, Lock::Update, Wait::Block)?.sql(),
            "SELECT id FROM t FOR UPDATE;",
        ),
        (
            locked(alloc, Lock::Update, Wait::SkipLocked)?.sql(),
            "SELECT id FROM t FOR UPDATE SKIP LOCKED;",
        ),
        (
            locked(alloc, Lock::Share, Wait::NoWait)?.sql(),
            "SELECT id FROM t FOR SHARE NOWAIT;",
        ),
        (
            query.intersect(alloc, &query)?.printed(alloc)?.sql(),
            "SELECT id FROM t INTERSECT SELECT id FROM t;",
        ),
        (
            except.printed(alloc)?.sql(),
            "SELECT id FROM t EXCEPT SELECT * FROM (SELECT id FROM t LIMIT 1) AS u;",
        ),
        (
            query.except(alloc, &except)?.printed(alloc)?.sql(),
            "SELECT id FROM t EXCEPT SELECT * FROM (SELECT id FROM t EXCEPT SELECT * FROM (SELECT id FROM t LIMIT 1) AS u) AS u;",
        ),
    ];
    for (made, wanted) in rows {
        assert!(rt; is_made(made, wanted), "{wanted}");
    }
    Ok(())
}

#[test]
fn names_queries(rt: HostRuntime) -> Result<(), Fail> {
    let alloc = rt.alloc();
    let attacked = t(alloc)?.and_where(eq(alloc, n(), Value(ATTACK))?)?;
    let with = With::of(alloc, Operand::of("q"), &attacked.query()?)?;
    let select = Select::from(alloc, Fragment::of("q"))?.printed()?;
    assert!(rt;
        is_made(
            with.before(&select)?.sql(),
            "WITH q AS (SELECT id FROM t WHERE n = '''; DROP TABLE t; -- /*') SELECT * FROM q;"
        )
    );
    let query = query(alloc)?;
    let with = With::of(alloc, Operand::of("RECURSIVE q(id)"), &query)?.and(
        Operand::of("r"),
        &query,
    )?;
    assert!(rt;
        is_made(
            with.before(&delete(alloc)?.all_rows().printed()?)?.sql(),
            "WITH RECURSIVE q(id) AS (SELECT id FROM t), r AS (SELECT id FROM t) DELETE FROM t;"
        )
    );
    Ok(())
}

fn failing(alloc: Global, step: u8) -> Result<String, Error> {
    match step {
        0 => Err(Violation::Semicolon)?,
        1 => Err(TemplateError::OperandCount)?,
        2 => Err(SqlBuilderError::NoSetFields)?,
        _ => {
            let template = Template::of_trusted("a = ?")?;
            template.check(
                sql_parts::lex::Requirement::TypedFragment,
                &Operands::new(alloc),
            )?;
            Ok(String::from_str(alloc, template.text)?)
        }
    }
}

#[test]
fn errors_become_one(rt: HostRuntime) -> Result<(), Fail> {
    let alloc = rt.alloc();
    let wanted = [
        "A semicolon",
        "Not one operand for each ?",
        "No set fields",
        "Not one operand for each ?",
    ];
    for (step, wanted) in (0..).zip(wanted) {
        assert_eq!(rt; message(failing(alloc, step)), wanted);
    }
    Ok(())
}

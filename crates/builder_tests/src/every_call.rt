//! One call of each case after each start, and what each finish prints of it.

use sql_builder::{SqlBuilder, SqlBuilderError};
use std::alloc::Global;
use std::test::Fail;

/// What a builder prints, or why it prints nothing.
pub(crate) type Made = Result<String, SqlBuilderError>;

/// Whether this was printed.
pub(crate) fn is_made<E: Drop>(made: Result<String, E>, wanted: &str) -> bool {
    match made {
        Ok(text) => text.as_str() == wanted,
        Err(_) => false,
    }
}

/// The call that begins a builder.
pub(crate) type Start = fn(Global) -> Result<SqlBuilder, SqlBuilderError>;

/// The call that prints a builder.
pub(crate) type Finish = fn(&SqlBuilder) -> Made;

type Started = Result<SqlBuilder, SqlBuilderError>;

fn select_from(alloc: Global) -> Started {
    SqlBuilder::select_from(alloc, "t")
}

fn select_values(alloc: Global) -> Started {
    SqlBuilder::select_values(alloc, &["1"])
}

fn insert_into(alloc: Global) -> Started {
    SqlBuilder::insert_into(alloc, "t")
}

fn update_table(alloc: Global) -> Started {
    SqlBuilder::update_table(alloc, "t")
}

fn delete_from(alloc: Global) -> Started {
    SqlBuilder::delete_from(alloc, "t")
}

pub(crate) fn sql(builder: &SqlBuilder) -> Made {
    builder.sql()
}

pub(crate) fn query(builder: &SqlBuilder) -> Made {
    builder.query()
}

pub(crate) fn query_values(builder: &SqlBuilder) -> Made {
    builder.query_values()
}

pub(crate) fn subquery(builder: &SqlBuilder) -> Made {
    builder.subquery()
}

fn subquery_as(builder: &SqlBuilder) -> Made {
    builder.subquery_as("s")
}

/// Each start and each finish, and what they make of one call of each case.
pub(crate) const EVERY_START_AND_FINISH: [(Start, Finish, &str); 9] = [
    (
        select_from,
        sql,
        "SELECT DISTINCT k, l, COUNT(m), COUNT(n) AS o FROM t, u NATURAL LEFT JOIN a ON x ON y = \
            z LEFT OUTER JOIN b RIGHT JOIN c RIGHT OUTER JOIN d INNER JOIN e CROSS JOIN f WHERE \
            (r) AND (s > 7) GROUP BY v, w HAVING x > 8 UNION SELECT 9 UNION ALL SELECT 10 LIMIT \
            11 OFFSET 12;",
    ),
    (select_values, sql, "SELECT k, l, COUNT(m), COUNT(n) AS o;"),
    (
        insert_into,
        sql,
        "INSERT INTO t, u (k, l, COUNT(m), COUNT(n) AS o) VALUES (4, 5), (6) RETURNING id;",
    ),
    (
        update_table,
        sql,
        "UPDATE t, u SET p = 1, q = 'it''s' WHERE (r) AND (s > 7) RETURNING id;",
    ),
    (
        delete_from,
        sql,
        "DELETE FROM t, u WHERE (r) AND (s > 7) RETURNING id;",
    ),
    (
        delete_from,
        query,
        "SELECT DISTINCT k, l, COUNT(m), COUNT(n) AS o FROM t, u NATURAL LEFT JOIN a ON x ON y = \
            z LEFT OUTER JOIN b RIGHT JOIN c RIGHT OUTER JOIN d INNER JOIN e CROSS JOIN f WHERE \
            (r) AND (s > 7) GROUP BY v, w HAVING x > 8 UNION SELECT 9 UNION ALL SELECT 10 LIMIT \
            11 OFFSET 12",
    ),
    (
        select_from,
        query_values,
        "SELECT k, l, COUNT(m), COUNT(n) AS o",
    ),
    (
        select_from,
        subquery,
        "(SELECT DISTINCT k, l, COUNT(m), COUNT(n) AS o FROM t, u NATURAL LEFT JOIN a ON x ON y \
            = z LEFT OUTER JOIN b RIGHT JOIN c RIGHT OUTER JOIN d INNER JOIN e CROSS JOIN f \
            WHERE (r) AND (s > 7) GROUP BY v, w HAVING x > 8 UNION SELECT 9 UNION ALL SELECT 10 \
            LIMIT 11 OFFSET 12)",
    ),
    (
        select_from,
        subquery_as,
        "(SELECT DISTINCT k, l, COUNT(m), COUNT(n) AS o FROM t, u NATURAL LEFT JOIN a ON x ON y \
            = z LEFT OUTER JOIN b RIGHT JOIN c RIGHT OUTER JOIN d INNER JOIN e CROSS JOIN f \
            WHERE (r) AND (s > 7) GROUP BY v, w HAVING x > 8 UNION SELECT 9 UNION ALL SELECT 10 \
            LIMIT 11 OFFSET 12) AS s",
    ),
];

fn add_distinct_and_tables(builder: &mut SqlBuilder) -> Result<(), SqlBuilderError> {
    builder.distinct().and_table("u")?;
    Ok(())
}

fn add_a_join(builder: &mut SqlBuilder) -> Result<(), SqlBuilderError> {
    builder.natural().left().join("a")?;
    builder.on("x")?.on_eq("y", "z")?;
    Ok(())
}

fn add_further_joins(builder: &mut SqlBuilder) -> Result<(), SqlBuilderError> {
    builder.left_outer().join("b")?.right().join("c")?;
    builder.right_outer().join("d")?.inner().join("e")?;
    builder.cross().join("f")?;
    Ok(())
}

fn add_fields(builder: &mut SqlBuilder) -> Result<(), SqlBuilderError> {
    builder
        .fields(&["g", "h"])?
        .set_fields(&["i", "j"])?
        .set_field("k")?
        .field("l")?
        .count("m")?
        .count_as("n", "o")?;
    Ok(())
}

fn add_sets(builder: &mut SqlBuilder) -> Result<(), SqlBuilderError> {
    builder.set("p", "1")?.set_str("q", "it's")?;
    Ok(())
}

fn add_rows_and_returning(builder: &mut SqlBuilder) -> Result<(), SqlBuilderError> {
    builder.select("SELECT 3")?.values(&["4", "5"])?;
    builder.values(&["6"])?.returning("p")?.returning_id()?;
    Ok(())
}

fn add_conditions(builder: &mut SqlBuilder) -> Result<(), SqlBuilderError> {
    builder.and_where("r")?.and_where_gt("s", "7")?;
    Ok(())
}

fn add_groups(builder: &mut SqlBuilder) -> Result<(), SqlBuilderError> {
    builder.group_by("v")?.group_by("w")?.having("x > 8")?;
    Ok(())
}

fn add_unions(builder: &mut SqlBuilder) -> Result<(), SqlBuilderError> {
    builder.union("SELECT 9")?.union_all("SELECT 10")?;
    Ok(())
}

fn add_order(builder: &mut SqlBuilder) -> Result<(), SqlBuilderError> {
    builder.order_by("y", true)?.order_asc("z")?;
    builder.order_desc("z")?;
    Ok(())
}

fn add_limits(builder: &mut SqlBuilder) -> Result<(), SqlBuilderError> {
    builder.limit("11")?.offset("12")?;
    Ok(())
}

/// One call of each case. A function for each few, since the proof of all in one takes long.
pub(crate) fn add_every_call(builder: &mut SqlBuilder) -> Result<(), SqlBuilderError> {
    add_distinct_and_tables(builder)?;
    add_a_join(builder)?;
    add_further_joins(builder)?;
    add_fields(builder)?;
    add_sets(builder)?;
    add_rows_and_returning(builder)?;
    add_conditions(builder)?;
    add_groups(builder)?;
    add_unions(builder)?;
    add_order(builder)?;
    add_limits(builder)
}

pub(crate) fn start_and_add_every_call(alloc: Global, start: Start) -> Started
    requires { IsAlwaysCallable start }
{
    let mut builder = start(alloc)?;
    add_every_call(&mut builder)?;
    Ok(builder)
}

fn made_of_every_call(alloc: Global, start: Start, finish: Finish) -> Made
    requires start { Start.IsAlwaysCallable start }
    requires finish { Finish.IsAlwaysCallable finish }
{
    let builder = start_and_add_every_call(alloc, start)?;
    finish(&builder)
}

#[test]
fn makes_every_call_after_every_start(rt: HostRuntime) -> Result<(), Fail> {
    for (start, finish, wanted) in EVERY_START_AND_FINISH.iter() {
        let made = made_of_every_call(rt.alloc(), *start, *finish)?;
        assert_eq!(rt; made.as_str(), *wanted, "{wanted}");
    }
    Ok(())
}

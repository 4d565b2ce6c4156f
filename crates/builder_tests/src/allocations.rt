//! What prints twice. `tests/program/allocations` runs each of these with each of its allocations failing, and
//! reads what is shown.

use crate::every_call::{Finish, Made, query, query_values, sql, subquery};
use sql_builder::arg::Value;
use sql_builder::text::{Fragment, Operand, OwnedOperand, Quotes};
use sql_builder::{SqlBuilder, SqlBuilderError, SqlName};
use sql_typed::{Error, Operands, Select, TableQuery, Template};
use std::alloc::Global;
use std::io::Write;
use std::test::Fail;

fn add_joins(builder: &mut SqlBuilder) -> Result<(), SqlBuilderError> {
    builder.left().join("b")?.on_eq("b.x", "a.x")?.join("c")?;
    Ok(())
}

fn add_groups(builder: &mut SqlBuilder) -> Result<(), SqlBuilderError> {
    builder
        .and_where("p")?
        .or_where("q")?
        .and_where_gt("r", "7")?
        .and_where_like_any("s", "it's")?
        .order_asc("p")?
        .order_desc("q")?;
    Ok(())
}

fn build(alloc: Global) -> Result<SqlBuilder, SqlBuilderError> {
    let mut builder = SqlBuilder::select_from(alloc, "a")?;
    builder.field("x")?;
    add_joins(&mut builder)?;
    add_groups(&mut builder)?;
    Ok(builder)
}

/// Shows what was printed, or why nothing was, on a line of standard output, for which it asks for no memory.
fn show(rt: &HostRuntime, made: &Result<String, Error>) {
    let mut out = rt.stdout();
    let text = match made {
        Ok(text) => text.as_str(),
        Err(error) => error.message(),
    };
    let _ = out.write_all(text.as_bytes());
    let _ = out.write_all(b"\n");
}

fn is_shown<E: Into<Error>>(rt: &HostRuntime, made: Result<String, E>, wanted: &str) -> bool {
    let made = made.map_err(E::into);
    show(rt, &made);
    made.is_ok_and(|text| text.as_str() == wanted)
}

fn prints_twice(rt: &HostRuntime, finish: Finish, wanted: &str) -> Result<bool, SqlBuilderError>
    requires { IsAlwaysCallable finish }
{
    let builder = build(rt.alloc())?;
    let first = is_shown(rt, finish(&builder), wanted);
    let second = is_shown(rt, finish(&builder), wanted);
    Ok(first && second)
}

fn subquery_as_b(builder: &SqlBuilder) -> Made {
    builder.subquery_as("b")
}

#[test]
fn prints_sql_twice(rt: HostRuntime) -> Result<(), Fail> {
    let wanted = "SELECT x FROM a LEFT JOIN b ON b.x = a.x LEFT JOIN c WHERE (p OR q) AND (r > 7) \
        AND (s LIKE '%it''s%') ORDER BY p, q DESC;";
    assert!(rt; prints_twice(&rt, sql, wanted)?);
    Ok(())
}

#[test]
fn prints_query_twice(rt: HostRuntime) -> Result<(), Fail> {
    let wanted = "SELECT x FROM a LEFT JOIN b ON b.x = a.x LEFT JOIN c WHERE (p OR q) AND (r > 7) \
        AND (s LIKE '%it''s%') ORDER BY p, q DESC";
    assert!(rt; prints_twice(&rt, query, wanted)?);
    Ok(())
}

#[test]
fn prints_query_values_twice(rt: HostRuntime) -> Result<(), Fail> {
    assert!(rt; prints_twice(&rt, query_values, "SELECT x")?);
    Ok(())
}

#[test]
fn prints_subquery_twice(rt: HostRuntime) -> Result<(), Fail> {
    let wanted = "(SELECT x FROM a LEFT JOIN b ON b.x = a.x LEFT JOIN c WHERE (p OR q) AND (r > 7) \
        AND (s LIKE '%it''s%') ORDER BY p, q DESC)";
    assert!(rt; prints_twice(&rt, subquery, wanted)?);
    Ok(())
}

#[test]
fn prints_subquery_as_twice(rt: HostRuntime) -> Result<(), Fail> {
    let wanted = "(SELECT x FROM a LEFT JOIN b ON b.x = a.x LEFT JOIN c WHERE (p OR q) AND (r > 7) \
        AND (s LIKE '%it''s%') ORDER BY p, q DESC) AS b";
    assert!(rt; prints_twice(&rt, subquery_as_b, wanted)?);
    Ok(())
}

fn name(alloc: Global) -> Result<SqlName, SqlBuilderError> {
    let mut name = SqlName::new(alloc, "a")?;
    name.add("B")?;
    Ok(name)
}

#[test]
fn prints_name_twice(rt: HostRuntime) -> Result<(), Fail> {
    let mut name = name(rt.alloc())?;
    name.alias("C")?;
    let wanted = "`a`.`B` AS `C`";
    let first = is_shown(&rt, name.baquoted(), wanted);
    let second = is_shown(&rt, name.baquoted(), wanted);
    assert!(rt; first && second);
    Ok(())
}

fn text(operand: Result<OwnedOperand, SqlBuilderError>) -> Made {
    Ok(operand?.text)
}

#[test]
fn prints_operand_twice(rt: HostRuntime) -> Result<(), Fail> {
    let name = name(rt.alloc())?;
    let wanted = "\"a\".\"B\"";
    let first = is_shown(&rt, text(name.operand(Quotes::Double)), wanted);
    let second = is_shown(&rt, text(name.operand(Quotes::Double)), wanted);
    assert!(rt; first && second);
    Ok(())
}

fn table(alloc: Global) -> Result<TableQuery, Error> {
    Select::from(alloc, Fragment::of("a"))?.subquery_as(Operand::of("b"))
}

#[test]
fn prints_typed_twice(rt: HostRuntime) -> Result<(), Fail> {
    let select = Select::from(rt.alloc(), table(rt.alloc())?)?;
    let wanted = "SELECT * FROM (SELECT * FROM a) AS b;";
    let first = is_shown(&rt, select.sql(), wanted);
    let second = is_shown(&rt, select.sql(), wanted);
    assert!(rt; first && second);
    Ok(())
}

fn with_table(alloc: Global, table: &TableQuery) -> Result<String, Error> {
    Select::from(alloc, Fragment::of("c"))?
        .and_table(table)?
        .sql()
}

#[test]
fn prints_table_twice(rt: HostRuntime) -> Result<(), Fail> {
    let table = table(rt.alloc())?;
    let wanted = "SELECT * FROM c, (SELECT * FROM a) AS b;";
    let first = is_shown(&rt, with_table(rt.alloc(), &table), wanted);
    let second = is_shown(&rt, with_table(rt.alloc(), &table), wanted);
    assert!(rt; first && second);
    Ok(())
}

#[test]
fn prints_template_twice(rt: HostRuntime) -> Result<(), Fail> {
    let alloc = rt.alloc();
    let template = Template::of("INSERT INTO t (a, b) VALUES (?, ?) ON CONFLICT DO NOTHING;");
    let row = Operands::new(alloc)
        .with(Value("it's a text that is longer than its hole"))?
        .with(-1)?;
    let wanted =
        "INSERT INTO t (a, b) VALUES ('it''s a text that is longer than its hole', (-1)) ON CONFLICT DO NOTHING;";
    let first = is_shown(&rt, template.sql(alloc, &row), wanted);
    let second = is_shown(&rt, template.sql(alloc, &row), wanted);
    assert!(rt; first && second);
    Ok(())
}

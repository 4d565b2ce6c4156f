//! Each call that adds a condition, once.

use crate::every_call::{Made, is_made};
use sql_builder::{SqlBuilder, SqlBuilderError};
use std::alloc::Global;
use std::test::Fail;

/// Adds conditions to a builder.
type AddConditions = fn(&mut SqlBuilder) -> Result<(), SqlBuilderError>;

fn and_tests(builder: &mut SqlBuilder) -> Result<(), SqlBuilderError> {
    builder
        .and_where("f")?
        .and_where_is_null("f")?
        .and_where_is_not_null("f")?;
    Ok(())
}

fn and_equations(builder: &mut SqlBuilder) -> Result<(), SqlBuilderError> {
    builder
        .and_where_eq("f", "1")?
        .and_where_ne("f", "1")?
        .and_where_gt("f", "1")?;
    Ok(())
}

fn and_comparisons(builder: &mut SqlBuilder) -> Result<(), SqlBuilderError> {
    builder
        .and_where_ge("f", "1")?
        .and_where_lt("f", "1")?
        .and_where_le("f", "1")?;
    Ok(())
}

fn and_likes(builder: &mut SqlBuilder) -> Result<(), SqlBuilderError> {
    builder
        .and_where_like("f", "it's")?
        .and_where_like_right("f", "it's")?
        .and_where_like_left("f", "it's")?
        .and_where_like_any("f", "it's")?;
    Ok(())
}

fn and_not_likes(builder: &mut SqlBuilder) -> Result<(), SqlBuilderError> {
    builder
        .and_where_not_like("f", "it's")?
        .and_where_not_like_right("f", "it's")?
        .and_where_not_like_left("f", "it's")?
        .and_where_not_like_any("f", "it's")?;
    Ok(())
}

fn and_lists(builder: &mut SqlBuilder) -> Result<(), SqlBuilderError> {
    builder
        .and_where_in("f", &["1", "2"])?
        .and_where_in_quoted("f", &["1", "2"])?
        .and_where_in_query("f", "SELECT 1")?
        .and_where_between("f", "1", "2")?;
    Ok(())
}

fn and_not_lists(builder: &mut SqlBuilder) -> Result<(), SqlBuilderError> {
    builder
        .and_where_not_in("f", &["1", "2"])?
        .and_where_not_in_quoted("f", &["1", "2"])?
        .and_where_not_in_query("f", "SELECT 1")?
        .and_where_not_between("f", "1", "2")?;
    Ok(())
}

fn or_tests(builder: &mut SqlBuilder) -> Result<(), SqlBuilderError> {
    builder
        .or_where("f")?
        .or_where_is_null("f")?
        .or_where_is_not_null("f")?;
    Ok(())
}

fn or_equations(builder: &mut SqlBuilder) -> Result<(), SqlBuilderError> {
    builder
        .or_where_eq("f", "1")?
        .or_where_ne("f", "1")?
        .or_where_gt("f", "1")?;
    Ok(())
}

fn or_comparisons(builder: &mut SqlBuilder) -> Result<(), SqlBuilderError> {
    builder
        .or_where_ge("f", "1")?
        .or_where_lt("f", "1")?
        .or_where_le("f", "1")?;
    Ok(())
}

fn or_likes(builder: &mut SqlBuilder) -> Result<(), SqlBuilderError> {
    builder
        .or_where_like("f", "it's")?
        .or_where_like_right("f", "it's")?
        .or_where_like_left("f", "it's")?
        .or_where_like_any("f", "it's")?;
    Ok(())
}

fn or_not_likes(builder: &mut SqlBuilder) -> Result<(), SqlBuilderError> {
    builder
        .or_where_not_like("f", "it's")?
        .or_where_not_like_right("f", "it's")?
        .or_where_not_like_left("f", "it's")?
        .or_where_not_like_any("f", "it's")?;
    Ok(())
}

fn or_lists(builder: &mut SqlBuilder) -> Result<(), SqlBuilderError> {
    builder
        .or_where_in("f", &["1", "2"])?
        .or_where_in_quoted("f", &["1", "2"])?
        .or_where_in_query("f", "SELECT 1")?
        .or_where_between("f", "1", "2")?;
    Ok(())
}

fn or_not_lists(builder: &mut SqlBuilder) -> Result<(), SqlBuilderError> {
    builder
        .or_where_not_in("f", &["1", "2"])?
        .or_where_not_in_quoted("f", &["1", "2"])?
        .or_where_not_in_query("f", "SELECT 1")?
        .or_where_not_between("f", "1", "2")?;
    Ok(())
}

/// Conditions, and a statement that has them.
const EVERY_CONDITION: [(AddConditions, &str); 14] = [
    (
        and_tests,
        "DELETE FROM t WHERE (f) AND (f IS NULL) AND (f IS NOT NULL);",
    ),
    (
        and_equations,
        "DELETE FROM t WHERE (f = 1) AND (f <> 1) AND (f > 1);",
    ),
    (
        and_comparisons,
        "DELETE FROM t WHERE (f >= 1) AND (f < 1) AND (f <= 1);",
    ),
    (
        and_likes,
        "DELETE FROM t WHERE (f LIKE 'it''s') AND (f LIKE '%it''s') AND (f LIKE 'it''s%') AND (f LIKE '%it''s%');",
    ),
    (
        and_not_likes,
        "DELETE FROM t WHERE (f NOT LIKE 'it''s') AND (f NOT LIKE '%it''s') AND (f NOT LIKE 'it''s%') AND (f NOT LIKE '%it''s%');",
    ),
    (
        and_lists,
        "DELETE FROM t WHERE (f IN (1, 2)) AND (f IN ('1', '2')) AND (f IN (SELECT 1)) AND (f BETWEEN 1 AND 2);",
    ),
    (
        and_not_lists,
        "DELETE FROM t WHERE (f NOT IN (1, 2)) AND (f NOT IN ('1', '2')) AND (f NOT IN (SELECT 1)) AND (f NOT BETWEEN 1 AND 2);",
    ),
    (
        or_tests,
        "DELETE FROM t WHERE f OR f IS NULL OR f IS NOT NULL;",
    ),
    (
        or_equations,
        "DELETE FROM t WHERE f = 1 OR f <> 1 OR f > 1;",
    ),
    (
        or_comparisons,
        "DELETE FROM t WHERE f >= 1 OR f < 1 OR f <= 1;",
    ),
    (
        or_likes,
        "DELETE FROM t WHERE f LIKE 'it''s' OR f LIKE '%it''s' OR f LIKE 'it''s%' OR f LIKE '%it''s%';",
    ),
    (
        or_not_likes,
        "DELETE FROM t WHERE f NOT LIKE 'it''s' OR f NOT LIKE '%it''s' OR f NOT LIKE 'it''s%' OR f NOT LIKE '%it''s%';",
    ),
    (
        or_lists,
        "DELETE FROM t WHERE f IN (1, 2) OR f IN ('1', '2') OR f IN (SELECT 1) OR f BETWEEN 1 AND 2;",
    ),
    (
        or_not_lists,
        "DELETE FROM t WHERE f NOT IN (1, 2) OR f NOT IN ('1', '2') OR f NOT IN (SELECT 1) OR f NOT BETWEEN 1 AND 2;",
    ),
];

fn deletes_where(alloc: Global, add_conditions: AddConditions) -> Made
    requires { IsAlwaysCallable add_conditions }
{
    let mut builder = SqlBuilder::delete_from(alloc, "t")?;
    add_conditions(&mut builder)?;
    builder.sql()
}

#[test]
fn adds_every_condition(rt: HostRuntime) -> Result<(), Fail> {
    for (add_conditions, wanted) in EVERY_CONDITION.iter() {
        assert!(rt;
            is_made(deletes_where(rt.alloc(), *add_conditions), wanted),
            "{wanted}"
        );
    }
    Ok(())
}

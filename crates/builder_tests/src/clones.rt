//! Clones: each has every clause of its builder, and neither sees what the other is given.

use crate::every_call::{
    EVERY_START_AND_FINISH, Finish, Made, add_every_call, sql, start_and_add_every_call,
};
use sql_builder::{SqlBuilder, SqlBuilderError};
use std::test::Fail;

fn is_printed(builder: &SqlBuilder, finish: Finish, wanted: &str) -> Result<bool, SqlBuilderError>
    requires { IsAlwaysCallable finish }
{
    let made = finish(builder)?;
    Ok(made.as_str() == wanted)
}

fn join_to_clone(builder: &SqlBuilder) -> Made {
    let mut clone = builder.clone()?;
    clone.join("b")?.sql()
}

#[test]
fn a_clone_is_a_builder_of_its_own(rt: HostRuntime) -> Result<(), Fail> {
    let mut builder = SqlBuilder::select_from(rt.alloc(), "a")?;
    builder.natural().left();
    let made = join_to_clone(&builder)?;
    assert_eq!(rt; made.as_str(), "SELECT * FROM a NATURAL LEFT JOIN b;");
    assert!(rt; is_printed(&builder, sql, "SELECT * FROM a;")?);
    Ok(())
}

fn add_calls_to_both(builder: &mut SqlBuilder) -> Made {
    let mut clone = builder.clone()?;
    builder.or_where("b")?;
    clone.or_where("c")?.and_where("d")?.sql()
}

#[test]
fn a_clone_does_not_see_later_calls_of_its_builder(rt: HostRuntime) -> Result<(), Fail> {
    let mut builder = SqlBuilder::select_from(rt.alloc(), "t")?;
    builder.and_where("a")?;
    let made = add_calls_to_both(&mut builder)?;
    assert_eq!(rt; made.as_str(), "SELECT * FROM t WHERE (a OR c) AND (d);");
    assert!(rt; is_printed(&builder, sql, "SELECT * FROM t WHERE a OR b;")?);
    Ok(())
}

/// Whether a clone of this builder prints this, and so does the builder once the clone has changed.
fn is_cloned(builder: &SqlBuilder, finish: Finish, wanted: &str) -> Result<bool, SqlBuilderError>
    requires { IsAlwaysCallable finish }
{
    let mut clone = builder.clone()?;
    let is_same = is_printed(&clone, finish, wanted)?;
    add_every_call(&mut clone)?;
    Ok(is_same && is_printed(builder, finish, wanted)?)
}

#[test]
fn a_clone_has_every_clause(rt: HostRuntime) -> Result<(), Fail> {
    for (start, finish, wanted) in EVERY_START_AND_FINISH.iter() {
        let builder = start_and_add_every_call(rt.alloc(), *start)?;
        assert!(rt; is_cloned(&builder, *finish, wanted)?, "{wanted}");
    }
    Ok(())
}

//! Names and texts that are chosen to be slow to bind, each in two sizes: `tests/program/hostile` compares
//! what they take.

use sql_builder::SqlBuilderError;
use sql_builder::prelude::*;
use std::alloc::Global;
use std::test::Fail;

/// Names that begin so and go on with eight digits collide in std's `HashMap`, whose seed is fixed.
const COLLIDING: &str = "sltgzdusqyrawqsbxl4ePHbk";

fn colliding_names(alloc: Global, count: usize) -> Result<Vec<String>, SqlBuilderError> {
    let mut names = Vec::new(alloc);
    for number in 0..count {
        names.push(format!(in alloc; "{COLLIDING}{number:08}")?)?;
    }
    Ok(names)
}

/// How many bytes a text has in which so many names are bound to a digit.
fn bind_colliding_names(alloc: Global, count: usize) -> Result<usize, SqlBuilderError> {
    let names = colliding_names(alloc, count)?;
    let mut pairs: Vec<(&str, Box<dyn SqlArg>)> = Vec::new(alloc);
    let mut template = String::new(alloc);
    for name in &names {
        pairs.push((name.as_str(), Box::new(alloc, 1)?))?;
        template.push(':')?;
        template.push_str(name.as_str())?;
        template.push(':')?;
    }
    Ok(template.bind_names(alloc, &pairs)?.len())
}

fn colons(alloc: Global, count: usize) -> Result<String, SqlBuilderError> {
    let mut text = String::new(alloc);
    for _colon in 0..count {
        text.push(':')?;
    }
    Ok(text)
}

/// How many bytes are left of a text of colons in which a name of a tenth of them and a letter is sought.
fn bind_colons(alloc: Global, count: usize) -> Result<usize, SqlBuilderError> {
    let mut name = colons(alloc, count / 10)?;
    name.push('x')?;
    Ok(colons(alloc, count)?.bind_name(alloc, &name, &1)?.len())
}

#[test]
fn binds_names_that_collide(rt: HostRuntime) -> Result<(), Fail> {
    assert_eq!(rt; bind_colliding_names(rt.alloc(), 1_600)?, 1_600);
    Ok(())
}

#[test]
fn binds_ten_times_the_names_that_collide(rt: HostRuntime) -> Result<(), Fail> {
    assert_eq!(rt; bind_colliding_names(rt.alloc(), 16_000)?, 16_000);
    Ok(())
}

#[test]
fn binds_a_name_of_colons(rt: HostRuntime) -> Result<(), Fail> {
    assert_eq!(rt; bind_colons(rt.alloc(), 20_000)?, 20_000);
    Ok(())
}

#[test]
fn binds_a_name_of_ten_times_the_colons(rt: HostRuntime) -> Result<(), Fail> {
    assert_eq!(rt; bind_colons(rt.alloc(), 200_000)?, 200_000);
    Ok(())
}

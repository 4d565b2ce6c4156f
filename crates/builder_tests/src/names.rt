//! Each form of a name, by its call and by its macro.

use crate::every_call::{Made, is_made};
use sql_builder::prelude::*;
use sql_builder::{SqlBuilderError, baname, brname, dname, name, qname};
use std::alloc::Global;
use std::test::Fail;

fn sub(alloc: Global) -> Result<SqlName, SqlBuilderError> {
    let mut name = SqlName::new(alloc, "safe_name")?;
    name.add("sub")?;
    name.alias("sn")?;
    Ok(name)
}

#[test]
fn prints_names(rt: HostRuntime) -> Result<(), Fail> {
    let name = sub(rt.alloc())?;
    assert!(rt; is_made(name.safe(), "safe_name.sub AS sn"), "safe");
    assert!(rt; is_made(name.quoted(), "'safe_name'.'sub' AS sn"), "quoted");
    assert!(rt;
        is_made(name.baquoted(), "`safe_name`.`sub` AS sn"),
        "baquoted"
    );
    assert!(rt;
        is_made(name.brquoted(), "[safe_name].[sub] AS sn"),
        "brquoted"
    );
    assert!(rt;
        is_made(name.dquoted(), "\"safe_name\".\"sub\" AS sn"),
        "dquoted"
    );
    Ok(())
}

#[test]
fn prints_clones_of_names(rt: HostRuntime) -> Result<(), Fail> {
    let clone = sub(rt.alloc())?.clone()?;
    assert!(rt; is_made(clone.safe(), "safe_name.sub AS sn"));
    Ok(())
}

fn safe(alloc: Global) -> Made {
    Ok(name!(alloc, "safe_name", "sub"; "sn"))
}

fn quoted(alloc: Global) -> Made {
    Ok(qname!(alloc, "some 'awesome' name"))
}

fn backquoted(alloc: Global) -> Made {
    Ok(baname!(alloc, "safe_name", "sub"))
}

fn bracketed(alloc: Global) -> Made {
    Ok(brname!(alloc, "safe_name"; "sn"))
}

fn double_quoted(alloc: Global) -> Made {
    Ok(dname!(alloc, "safe_name"))
}

#[test]
fn prints_names_by_macros(rt: HostRuntime) -> Result<(), Fail> {
    let alloc = rt.alloc();
    assert!(rt; is_made(safe(alloc), "safe_name.sub AS sn"), "name");
    assert!(rt; is_made(quoted(alloc), "'some ''awesome'' name'"), "qname");
    assert!(rt; is_made(backquoted(alloc), "`safe_name`.`sub`"), "baname");
    assert!(rt; is_made(bracketed(alloc), "[safe_name] AS sn"), "brname");
    assert!(rt; is_made(double_quoted(alloc), "\"safe_name\""), "dname");
    Ok(())
}

//! The calls that make one call of a list, and those that start a builder again.

use crate::every_call::{Made, is_made};
use sql_builder::SqlBuilder;
use sql_builder::calls::{
    BorrowedCondition, Call, Family, Finish, Start, TableStart, add_condition, begin,
    condition_text, make, print, restart_on, restart_values, run,
};
use sql_builder::text::Items;
use std::alloc::Global;
use std::test::Fail;

fn chain_start(alloc: Global) -> Made {
    let start = Start::SelectFrom(String::from_str(alloc, "t")?);
    let builder = begin(alloc, &start)?;
    print(&builder, &Finish::Sql)
}

fn made(alloc: Global) -> Made {
    let mut builder = SqlBuilder::select_from(alloc, "t")?;
    let call = Call::Field(String::from_str(alloc, "a")?);
    make(&mut builder, &call)?;
    builder.sql()
}

fn condition_added(alloc: Global) -> Made {
    let values = Items { items: &["1", "2"] };
    let text = condition_text(alloc, BorrowedCondition::InList(false, "a", values))?;
    let mut builder = SqlBuilder::select_from(alloc, "t")?;
    add_condition(&mut builder, Family::And, text)?;
    builder.sql()
}

fn ran(alloc: Global) -> Made {
    let start = Start::SelectFrom(String::from_str(alloc, "t")?);
    run(alloc, &start, &[Call::Distinct], &Finish::Sql)
}

fn started_on_a_table(alloc: Global) -> Made {
    let mut builder = SqlBuilder::select_from(alloc, "t")?;
    restart_on(&mut builder, TableStart::DeleteFrom, "u")?;
    builder.sql()
}

fn started_on_values(alloc: Global) -> Made {
    let mut builder = SqlBuilder::select_from(alloc, "t")?;
    restart_values(
        &mut builder,
        Items {
            items: &["1", "'a'"],
        },
    )?;
    builder.sql()
}

#[test]
fn makes_one_call_of_a_list(rt: HostRuntime) -> Result<(), Fail> {
    let alloc = rt.alloc();
    assert!(rt; is_made(chain_start(alloc), "SELECT * FROM t;"), "begin");
    assert!(rt; is_made(made(alloc), "SELECT a FROM t;"), "make");
    assert!(rt; is_made(ran(alloc), "SELECT DISTINCT * FROM t;"), "run");
    assert!(rt;
        is_made(condition_added(alloc), "SELECT * FROM t WHERE a IN (1, 2);"),
        "add_condition"
    );
    Ok(())
}

#[test]
fn starts_again(rt: HostRuntime) -> Result<(), Fail> {
    let alloc = rt.alloc();
    assert!(rt;
        is_made(started_on_a_table(alloc), "DELETE FROM u;"),
        "restart_on"
    );
    assert!(rt;
        is_made(started_on_values(alloc), "SELECT 1, 'a';"),
        "restart_values"
    );
    Ok(())
}

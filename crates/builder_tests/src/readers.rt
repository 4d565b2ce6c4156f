//! What databases are in behind a text, by the numbers of `database_readers`' `specs/`, and which
//! statements they read as meant.

use database_readers::Database;
use sql_builder::SqlBuilderError;
use sql_builder::prelude::*;
use std::alloc::Global;
use std::test::Fail;

#[test]
fn reads_as_databases(rt: HostRuntime) -> Result<(), Fail> {
    assert_eq!(rt; Database::Sqlite.state(b"SELECT 'a"), 11);
    assert_eq!(rt; Database::Sqlite.state(b"/* /* */ SELECT 'it''s' "), 0);
    assert_eq!(rt; Database::Postgres.state(b"SELECT E'a\\'"), 24);
    assert_eq!(rt; Database::Postgres.state(b"/* /* */ SELECT 'it''s' "), 48);
    assert_eq!(rt; Database::Mysql.state(b"SELECT 'a\\'"), 39);
    assert_eq!(rt;
        Database::MysqlNoBackslashEscapes.state(b"SELECT 'a\\'"),
        295
    );
    Ok(())
}

/// Whether each database reads this template as meant, with empty texts.
fn is_read(alloc: Global, template: &str) -> Result<[bool; 4], SqlBuilderError> {
    let text = template.bind(alloc, &"")?;
    Ok([
        Database::Sqlite.reads_as_meant(text.as_str()),
        Database::Postgres.reads_as_meant(text.as_str()),
        Database::Mysql.reads_as_meant(text.as_str()),
        Database::MysqlNoBackslashEscapes.reads_as_meant(text.as_str()),
    ])
}

#[test]
fn reads_as_meant(rt: HostRuntime) -> Result<(), Fail> {
    let alloc = rt.alloc();
    assert_eq!(rt; is_read(alloc, "title LIKE ?")?, [true; 4]);
    assert_eq!(rt; is_read(alloc, "title LIKE '%?%'")?, [false; 4]);
    assert_eq!(rt;
        is_read(alloc, "a = 'it\\'s' AND b = ?")?,
        [false, false, true, false]
    );
    assert_eq!(rt;
        is_read(alloc, "a = /* /* */ ?")?,
        [true, false, true, true]
    );
    assert_eq!(rt; is_read(alloc, "a # ?")?, [true, true, false, false]);
    assert_eq!(rt; is_read(alloc, "a = x?")?, [false; 4]);
    assert_eq!(rt; is_read(alloc, "a = E?")?, [true, false, true, true]);
    let all = SqlBuilder::select_from(alloc, "t")?
        .and_where_like_any("a", "")?
        .sql()?;
    assert!(rt; Database::Sqlite.reads_as_meant(all.as_str()));
    Ok(())
}

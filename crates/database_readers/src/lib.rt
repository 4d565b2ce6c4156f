//! How databases read a text, as the readers that the laws speak of, and whether they read a statement as
//! meant. `tests/databases/lexed.py` compares them with SQLite, PostgreSQL and MariaDB.
#![tactic(auto)]

ghost use Rattle.std.specs.Prelude.{◌≡◌, ◌↔◌, IsTrue};
ghost use Rattle.sql_parts.specs.Readers.{after};
ghost use Rattle.database_readers.specs.EmptyValues.{EmptyValueBegins, IsBeforeQuote, IsInsideAtEmptyValues};

pub mod mysql;
pub mod postgres;
pub mod sqlite;

/// A database, and how it reads.
#[derive(Clone, Copy)]
pub enum Database {
    /// SQLite.
    Sqlite,
    /// PostgreSQL with `standard_conforming_strings`, as by default.
    Postgres,
    /// MySQL or MariaDB by their default modes, where a backslash escapes.
    Mysql,
    /// MySQL or MariaDB with `NO_BACKSLASH_ESCAPES`.
    MysqlNoBackslashEscapes,
}

fn is_before_quote(text: &[u8]) -> bool
    ensures { IsTrue result ↔ IsBeforeQuote text.now }
{
    let mut rest = text;
    while let Some((b'%', behind)) = rest.split_first() {
        rest = behind;
    }
    matches!(rest.first(), Some(b'\''))
}

impl Database {
    ghost use Rattle.database_readers.specs.AsMeant.{OpensStringsOfStatements, OpensStringsOfTemplates, in_string, reader_of};

    fn next(self, state: u64, byte: u8) -> u64
        ensures { result ≡ reader_of self state byte }
    {
        match self {
            Database::Sqlite => sqlite::next(state, byte),
            Database::Postgres => postgres::next(state, byte),
            Database::Mysql => mysql::next(true, state, byte),
            Database::MysqlNoBackslashEscapes => mysql::next(false, state, byte),
        }
    }

    fn in_string(self) -> u64
        ensures { result ≡ in_string self }
    {
        match self {
            Database::Sqlite => 11,
            Database::Postgres => 16,
            Database::Mysql | Database::MysqlNoBackslashEscapes => 39,
        }
    }

    // Where a quote is the first of an empty value, the state behind it is in a string.
    fn is_as_meant(self, state: u64, byte: u8, behind: &[u8]) -> bool
        ensures { IsTrue result ↔ (EmptyValueBegins byte behind.now → state ≡ in_string self) }
    {
        byte != b'\'' || !is_before_quote(behind) || state == self.in_string()
    }

    /// Returns what the database is in behind a text, by its number in `specs/`. Never fails.
    /// `Database::Mysql.state(b"SELECT 'a\\'")` gives `39`
    pub fn state(self, text: &[u8]) -> u64
        ensures { result ≡ after (reader_of self) 0 text.now }
    {
        let mut state = 0;
        let mut rest = text;
        while let Some((byte, behind)) = rest.split_first() {
            state = self.next(state, *byte);
            rest = behind;
        }
        state
    }

    /// Returns whether the database reads a printed statement as meant. Print it with an empty text
    /// for each value: the database has to open a string at each. Then no text of plain bytes changes
    /// the rest, by `readers_ignore_quoted_texts` and `readers_ignore_bound_texts`.
    ///
    /// Two quotes with nothing between them, or percent signs, are taken for a value. So a doubled
    /// quote in a string of yours gives `false`. Never fails.
    /// `Database::Sqlite.reads_as_meant("title LIKE ''")`, of `title LIKE ?`, gives `true`, and
    /// `Database::Sqlite.reads_as_meant("title LIKE '%''%'")`, of `title LIKE '%?%'`, gives `false`
    pub fn reads_as_meant(self, text: &str) -> bool
        ensures exact { IsTrue result ↔ IsInsideAtEmptyValues (reader_of self) (in_string self) 0 text.now }
        ensures statements { IsTrue result → OpensStringsOfStatements self text.now }
        ensures templates { IsTrue result → OpensStringsOfTemplates self text.now }
    {
        let mut state = 0;
        let mut rest = text.as_bytes();
        while let Some((byte, behind)) = rest.split_first() {
            state = self.next(state, *byte);
            if !self.is_as_meant(state, *byte, behind) {
                return false;
            }
            rest = behind;
        }
        true
    }
}

//! The reasons why a text doesn't fit where a statement takes it.
ghost use Rattle.std.specs.Prelude.{◌≡◌};
ghost use Rattle.sql_parts.specs.Violations.{violation_text};

use std::error::Error;
use std::fmt;

/// What a text has to meet.
#[derive(Clone, Copy)]
pub enum Requirement {
    /// That it is balanced, as a query behind UNION is.
    Balanced,
    /// That it is balanced, and has no top-level clause keyword, as a table is.
    Fragment,
    /// That it is a fragment and an operand, as a field or a value is.
    Operand,
    /// That it is a fragment, and has no top-level word that begins a clause in some databases,
    /// such as INTO. The type `Fragment` takes this.
    TypedFragment,
    /// That it is an operand, and has no top-level word that begins a clause in some databases. The
    /// type `Operand` takes this.
    TypedOperand,
}

/// The reason why a text doesn't fit. It is the first of these that holds and counts for the
/// requirement.
#[derive(Clone, Copy, Debug, Drop)]
pub enum Violation {
    /// It has no token.
    Blank,
    /// A quote or a comment has no end.
    Open,
    /// A `;` is among its tokens.
    Semicolon,
    /// Its brackets don't match: `(` and CASE, `)` and END.
    Brackets,
    /// It has a top-level clause keyword, such as FROM or UNION, and is to be a fragment or an
    /// operand.
    ClauseWord,
    /// It has a top-level word that begins a clause in some databases, and is to be a `Fragment` or
    /// an `Operand` by its type. The words are INTO, INTERSECT, EXCEPT, MINUS, TABLE, FETCH, FOR,
    /// WITH and WINDOW.
    DialectWord,
    /// It has a top-level OR, AND or BETWEEN, or begins with NOT, and is to be an operand.
    Joined,
    /// It is to be a `Fragment` or an `Operand` by its type, and some database takes CASE and END
    /// for names. That database would read a clause outside of brackets, or brackets that don't
    /// match.
    CaseWord,
}

impl Violation {
    /// Returns the reason as a message, which Display prints too. Never fails.
    /// `Violation::Brackets.message()` gives `Brackets don't match`
    pub fn message(&self) -> &'static str
        ensures text { result.now ≡ violation_text self.now }
    {
        match self {
            Violation::Blank => "No token",
            Violation::Open => "A quote or a comment has no end",
            Violation::Semicolon => "A semicolon",
            Violation::Brackets => "Brackets don't match",
            Violation::ClauseWord => "A top-level clause keyword",
            Violation::DialectWord => "A top-level word that begins a clause in some databases",
            Violation::Joined => "A top-level OR, AND or BETWEEN, or a leading NOT",
            Violation::CaseWord => "A clause keyword or an open bracket between CASE and END",
        }
    }
}

impl fmt::Display for Violation {
    ghost use Rattle.std.specs.Prelude.{Some};
    ghost use Rattle.sql_parts.specs.Violations.{violation_text};

    ghost output = { λ violation. Some (violation_text violation) };

    ghost styled_output = { λ violation _. Some (violation_text violation) };

    fn fmt<W: fmt::Write>(&self, f: &mut fmt::Formatter<W>) -> fmt::Result {
        f.write_str(self.message())
    }
}

impl Error for Violation {}

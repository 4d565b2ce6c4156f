//! What tokens mean to the tests of fragments.
ghost use Rattle.std.specs.Prelude.{◌≡◌, ◌<◌, [], ◌∷◌, IfSome, MatchOption, codes, if◌then◌else◌, length};
ghost use Rattle.std.specs.Str.{str_eq_ignore_ascii_case};
ghost use Rattle.sql_parts.specs.{starts_clause, is_clause_word, is_closing, is_dialect_word, is_joining, is_opening, is_whole, is_word, lowers, needs_left};
ghost use Rattle.sql_parts.specs.{needs_right, raises, Represents, HasRole, Token, Symbol, Word, tokens};

use crate::tokenizer;

/// What a token means to the tests of fragments.
#[derive(Clone, Copy)]
pub(crate) enum Role {
    /// `(` or CASE, which raise the nesting depth.
    Raises,
    /// `)` or END, which lower it.
    Lowers,
    /// `,`, WHEN, THEN or ELSE, which separate operands.
    Parts,
    Or,
    And,
    Between,
    Not,
    /// A word that begins a clause.
    Clause,
    /// A word that begins a clause in some databases.
    Dialect,
    /// What no fragment has: `;`, and a quote or a comment that has no end.
    Breaks,
    /// Any other token.
    Plain,
}

impl Role {
    pub(crate) fn raises(self) -> bool
        ensures { (defined : Token) → HasRole self defined → result ≡ raises defined }
    {
        matches!(self, Role::Raises)
    }

    pub(crate) fn lowers(self) -> bool
        ensures { (defined : Token) → HasRole self defined → result ≡ lowers defined }
    {
        matches!(self, Role::Lowers)
    }

    // Whether an operand may begin behind it.
    pub(crate) fn opens(self) -> bool
        ensures { (defined : Token) → HasRole self defined → result ≡ is_opening defined }
    {
        matches!(
            self,
            Role::Raises | Role::Parts | Role::Or | Role::And | Role::Between | Role::Not
        )
    }

    // Whether an operand may end before it.
    pub(crate) fn closes(self) -> bool
        ensures { (defined : Token) → HasRole self defined → result ≡ is_closing defined }
    {
        matches!(self, Role::Lowers | Role::Parts | Role::Or | Role::And)
    }

    // Whether it joins an operand before it.
    pub(crate) fn needs_left(self) -> bool
        ensures { (defined : Token) → HasRole self defined → result ≡ needs_left defined }
    {
        matches!(self, Role::Or | Role::And)
    }

    // Whether it takes an operand behind it.
    pub(crate) fn needs_right(self) -> bool
        ensures { (defined : Token) → HasRole self defined → result ≡ needs_right defined }
    {
        matches!(self, Role::Or | Role::And | Role::Not)
    }

    // Whether it joins conditions, or the ends of a range.
    pub(crate) fn joins(self) -> bool
        ensures { (defined : Token) → HasRole self defined → result ≡ is_joining defined }
    {
        matches!(self, Role::Or | Role::And | Role::Between)
    }

    pub(crate) fn is_not(self) -> bool
        ensures { (defined : Token) → HasRole self defined → result ≡ is_word (codes "NOT") defined }
    {
        matches!(self, Role::Not)
    }

    pub(crate) fn is_clause(self) -> bool
        ensures { (defined : Token) → HasRole self defined → result ≡ is_clause_word defined }
    {
        matches!(self, Role::Clause)
    }

    pub(crate) fn is_dialect(self) -> bool
        ensures { (defined : Token) → HasRole self defined → result ≡ is_dialect_word defined }
    {
        matches!(self, Role::Dialect)
    }

    pub(crate) fn is_whole(self) -> bool
        ensures { (defined : Token) → HasRole self defined → result ≡ is_whole defined }
    {
        !matches!(self, Role::Breaks)
    }
}

// The role of a keyword where the word is that, in capitals or not.
#[inline(always)]
fn named(word: &str, keyword: &str, role: Role, otherwise: Role) -> Role
    ensures { result ≡ (if str_eq_ignore_ascii_case word.now keyword.now then role else otherwise) }
{
    if word.eq_ignore_ascii_case(keyword) {
        role
    } else {
        otherwise
    }
}

// The role of a word, by its first letter first.
#[inline(always)]
fn word_role(word: &str) -> Role
    ensures { HasRole result (Word word.now) }
{
    let Some(first) = word.as_bytes().first() else {
        return Role::Plain;
    };
    let plain = Role::Plain;
    match first.to_ascii_lowercase() {
        b'a' => named(word, "AND", Role::And, plain),
        b'b' => named(word, "BETWEEN", Role::Between, plain),
        b'c' => named(word, "CASE", Role::Raises, plain),
        b'd' => named(word, "DELETE", Role::Clause, plain),
        b'e' => {
            let other = named(word, "EXCEPT", Role::Dialect, plain);
            let other = named(word, "ELSE", Role::Parts, other);
            named(word, "END", Role::Lowers, other)
        }
        b'f' => {
            let other = named(word, "FETCH", Role::Dialect, plain);
            let other = named(word, "FOR", Role::Dialect, other);
            named(word, "FROM", Role::Clause, other)
        }
        b'g' => named(word, "GROUP", Role::Clause, plain),
        b'h' => named(word, "HAVING", Role::Clause, plain),
        b'i' => {
            let other = named(word, "INTERSECT", Role::Dialect, plain);
            let other = named(word, "INTO", Role::Dialect, other);
            named(word, "INSERT", Role::Clause, other)
        }
        b'l' => named(word, "LIMIT", Role::Clause, plain),
        b'm' => named(word, "MINUS", Role::Dialect, plain),
        b'n' => named(word, "NOT", Role::Not, plain),
        b'o' => {
            let other = named(word, "OFFSET", Role::Clause, plain);
            let other = named(word, "ORDER", Role::Clause, other);
            named(word, "OR", Role::Or, other)
        }
        b'r' => named(word, "RETURNING", Role::Clause, plain),
        b's' => {
            let other = named(word, "SET", Role::Clause, plain);
            named(word, "SELECT", Role::Clause, other)
        }
        b't' => {
            let other = named(word, "TABLE", Role::Dialect, plain);
            named(word, "THEN", Role::Parts, other)
        }
        b'u' => {
            let other = named(word, "UPDATE", Role::Clause, plain);
            named(word, "UNION", Role::Clause, other)
        }
        b'v' => named(word, "VALUES", Role::Clause, plain),
        b'w' => {
            let other = named(word, "WINDOW", Role::Dialect, plain);
            let other = named(word, "WITH", Role::Dialect, other);
            let other = named(word, "WHERE", Role::Clause, other);
            named(word, "WHEN", Role::Parts, other)
        }
        _ => plain,
    }
}

/// Whether a word begins a clause, in every database or in some.
pub(crate) fn starts_clause(word: &str) -> bool
    ensures { result ≡ starts_clause (Word word.now) }
{
    let role = word_role(word);
    role.is_clause() || role.is_dialect()
}

fn symbol_role(sign: u8) -> Role
    ensures { HasRole result (Symbol sign) }
{
    match sign {
        b'(' => Role::Raises,
        b')' => Role::Lowers,
        b',' => Role::Parts,
        b';' => Role::Breaks,
        _ => Role::Plain,
    }
}

// The role of a token.
#[inline(always)]
fn role_of(token: tokenizer::Token<'_>) -> Role
    ensures { (defined : Token) → Represents token.entry defined → HasRole result defined }
{
    match token {
        tokenizer::Token::Word(word) => word_role(word),
        tokenizer::Token::Symbol(sign) => symbol_role(sign),
        tokenizer::Token::Open => Role::Breaks,
        tokenizer::Token::Quoted => Role::Plain,
    }
}

/// The role of the first token of a text, and the text behind it.
#[inline(always)]
pub(crate) fn first_role(text: &str) -> Option<(Role, &str)>
    ensures token { MatchOption result (tokens text.now ≡ [])
        (λ found. (token : Token) × HasRole found.0 token × (tokens text.now ≡ token ∷ tokens found.1.now)) }
    ensures shorter { IfSome result (λ found. length found.1.now < length text.now) }
{
    match tokenizer::first_token(text) {
        Some((token, behind)) => Some((role_of(token), behind)),
        None => None,
    }
}

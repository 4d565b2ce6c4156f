//! Literals of SQL, and values that have one.
ghost use Rattle.std.specs.Prelude.{◌≡◌, ◌++◌, pos, string_bytes, IfOk, OnErr, OnOk};
ghost use Rattle.std.specs.Cow.{cow_str_bytes};
ghost use Rattle.sql_parts.specs.{FailsOnlyByMemory, LiteralValue, literal_or_null, literal_text, literal_value, truth, whole, words};

use crate::delimiters::Quotes;
use crate::error::SqlBuilderError;
use crate::quoting::{push_enclosed, quote};
use crate::text::ToText;
use std::alloc::Global;
use std::borrow::CowStr;

/// A literal of SQL as a value.
#[derive(Drop)]
pub enum Literal {
    /// NULL.
    Null,
    /// TRUE or FALSE.
    Truth(bool),
    /// A whole number.
    Whole(i128),
    /// A text.
    Text(String),
}

/// A value in a statement, whose text is its literal. A text is quoted, a number is written in
/// decimal, and what isn't there is NULL. If a call prints its value unchanged, give it untrusted
/// text as a `Value`.
/// `Value("it's").to_text(alloc)?` gives `'it''s'`
#[derive(Clone, Copy, Drop)]
pub struct Value<A>(pub A);

/// A value that has a literal. Implement it for types of your own.
pub trait SqlArg: Drop {
    /// The literal.
    ghost literal: { Self → LiteralValue };

    /// Returns the literal as SQL writes it. Fails only if memory runs out.
    /// `"it's".sql_arg(alloc)?` gives `'it''s'`
    fn sql_arg(&self, alloc: Global) -> Result<String, SqlBuilderError>
        ensures literal { IfOk result (λ s. string_bytes s ≡ literal_text (literal self.now)) }
        ensures memory { FailsOnlyByMemory result };

    /// Appends the literal to a text. Fails only if memory runs out, and then leaves `out`
    /// unchanged.
    /// ```
    /// let mut text = String::new(alloc);
    /// true.push_sql_arg(alloc, &mut text)?;
    /// text; // TRUE
    /// ```
    fn push_sql_arg(&self, alloc: Global, out: &mut String) -> Result<(), SqlBuilderError>
        ensures literal { OnOk result (string_bytes out.new
            ≡ string_bytes out.old ++ literal_text (literal self.now)) }
        ensures kept { OnErr result (string_bytes out.new ≡ string_bytes out.old) }
        ensures memory { FailsOnlyByMemory result }
    {
        let text = self.sql_arg(alloc)?;
        Ok(out.push_str(text.as_str())?)
    }
}

impl SqlArg for &str {
    ghost literal = { λ s. words s.now };

    fn sql_arg(&self, alloc: Global) -> Result<String, SqlBuilderError> {
        quote(alloc, *self)
    }

    fn push_sql_arg(&self, _alloc: Global, out: &mut String) -> Result<(), SqlBuilderError> {
        Ok(push_enclosed(out, Quotes::Single, self)?)
    }
}

impl SqlArg for String {
    ghost literal = { λ s. words (string_bytes s) };

    fn sql_arg(&self, alloc: Global) -> Result<String, SqlBuilderError> {
        quote(alloc, self.as_str())
    }

    fn push_sql_arg(&self, _alloc: Global, out: &mut String) -> Result<(), SqlBuilderError> {
        Ok(push_enclosed(out, Quotes::Single, self.as_str())?)
    }
}

impl SqlArg for CowStr<'_> {
    ghost literal = { λ s. words (cow_str_bytes s) };

    fn sql_arg(&self, alloc: Global) -> Result<String, SqlBuilderError> {
        quote(alloc, self.as_str())
    }

    fn push_sql_arg(&self, _alloc: Global, out: &mut String) -> Result<(), SqlBuilderError> {
        Ok(push_enclosed(out, Quotes::Single, self.as_str())?)
    }
}

fn truth_word(value: bool) -> &'static str
    ensures { result.now ≡ literal_text (truth value) }
{
    if value { "TRUE" } else { "FALSE" }
}

impl SqlArg for bool {
    ghost literal = { truth };

    fn sql_arg(&self, alloc: Global) -> Result<String, SqlBuilderError> {
        Ok(if *self {
            String::from_str(alloc, "TRUE")?
        } else {
            String::from_str(alloc, "FALSE")?
        })
    }

    fn push_sql_arg(&self, _alloc: Global, out: &mut String) -> Result<(), SqlBuilderError> {
        Ok(out.push_str(truth_word(*self))?)
    }
}

impl SqlArg for u8 {
    ghost literal = { λ n. whole (pos n) };

    fn sql_arg(&self, alloc: Global) -> Result<String, SqlBuilderError> {
        self.to_text(alloc)
    }

    fn push_sql_arg(&self, alloc: Global, out: &mut String) -> Result<(), SqlBuilderError> {
        self.push_text(alloc, out)
    }
}

impl SqlArg for u16 {
    ghost literal = { λ n. whole (pos n) };

    fn sql_arg(&self, alloc: Global) -> Result<String, SqlBuilderError> {
        self.to_text(alloc)
    }

    fn push_sql_arg(&self, alloc: Global, out: &mut String) -> Result<(), SqlBuilderError> {
        self.push_text(alloc, out)
    }
}

impl SqlArg for u32 {
    ghost literal = { λ n. whole (pos n) };

    fn sql_arg(&self, alloc: Global) -> Result<String, SqlBuilderError> {
        self.to_text(alloc)
    }

    fn push_sql_arg(&self, alloc: Global, out: &mut String) -> Result<(), SqlBuilderError> {
        self.push_text(alloc, out)
    }
}

impl SqlArg for u64 {
    ghost literal = { λ n. whole (pos n) };

    fn sql_arg(&self, alloc: Global) -> Result<String, SqlBuilderError> {
        self.to_text(alloc)
    }

    fn push_sql_arg(&self, alloc: Global, out: &mut String) -> Result<(), SqlBuilderError> {
        self.push_text(alloc, out)
    }
}

impl SqlArg for u128 {
    ghost literal = { λ n. whole (pos n) };

    fn sql_arg(&self, alloc: Global) -> Result<String, SqlBuilderError> {
        self.to_text(alloc)
    }

    fn push_sql_arg(&self, alloc: Global, out: &mut String) -> Result<(), SqlBuilderError> {
        self.push_text(alloc, out)
    }
}

impl SqlArg for usize {
    ghost literal = { λ n. whole (pos n) };

    fn sql_arg(&self, alloc: Global) -> Result<String, SqlBuilderError> {
        self.to_text(alloc)
    }

    fn push_sql_arg(&self, alloc: Global, out: &mut String) -> Result<(), SqlBuilderError> {
        self.push_text(alloc, out)
    }
}

impl SqlArg for i8 {
    ghost literal = { whole };

    fn sql_arg(&self, alloc: Global) -> Result<String, SqlBuilderError> {
        self.to_text(alloc)
    }

    fn push_sql_arg(&self, alloc: Global, out: &mut String) -> Result<(), SqlBuilderError> {
        self.push_text(alloc, out)
    }
}

impl SqlArg for i16 {
    ghost literal = { whole };

    fn sql_arg(&self, alloc: Global) -> Result<String, SqlBuilderError> {
        self.to_text(alloc)
    }

    fn push_sql_arg(&self, alloc: Global, out: &mut String) -> Result<(), SqlBuilderError> {
        self.push_text(alloc, out)
    }
}

impl SqlArg for i32 {
    ghost literal = { whole };

    fn sql_arg(&self, alloc: Global) -> Result<String, SqlBuilderError> {
        self.to_text(alloc)
    }

    fn push_sql_arg(&self, alloc: Global, out: &mut String) -> Result<(), SqlBuilderError> {
        self.push_text(alloc, out)
    }
}

impl SqlArg for i64 {
    ghost literal = { whole };

    fn sql_arg(&self, alloc: Global) -> Result<String, SqlBuilderError> {
        self.to_text(alloc)
    }

    fn push_sql_arg(&self, alloc: Global, out: &mut String) -> Result<(), SqlBuilderError> {
        self.push_text(alloc, out)
    }
}

impl SqlArg for i128 {
    ghost literal = { whole };

    fn sql_arg(&self, alloc: Global) -> Result<String, SqlBuilderError> {
        self.to_text(alloc)
    }

    fn push_sql_arg(&self, alloc: Global, out: &mut String) -> Result<(), SqlBuilderError> {
        self.push_text(alloc, out)
    }
}

impl SqlArg for isize {
    ghost literal = { whole };

    fn sql_arg(&self, alloc: Global) -> Result<String, SqlBuilderError> {
        self.to_text(alloc)
    }

    fn push_sql_arg(&self, alloc: Global, out: &mut String) -> Result<(), SqlBuilderError> {
        self.push_text(alloc, out)
    }
}

impl SqlArg for Literal {
    ghost literal = { literal_value };

    fn sql_arg(&self, alloc: Global) -> Result<String, SqlBuilderError> {
        match self {
            Literal::Null => Ok(String::from_str(alloc, "NULL")?),
            Literal::Truth(value) => value.sql_arg(alloc),
            Literal::Whole(number) => number.sql_arg(alloc),
            Literal::Text(text) => text.sql_arg(alloc),
        }
    }

    fn push_sql_arg(&self, alloc: Global, out: &mut String) -> Result<(), SqlBuilderError> {
        match self {
            Literal::Null => Ok(out.push_str("NULL")?),
            Literal::Truth(value) => value.push_sql_arg(alloc, out),
            Literal::Whole(number) => number.push_sql_arg(alloc, out),
            Literal::Text(text) => text.push_sql_arg(alloc, out),
        }
    }
}

impl ToText for Literal {
    ghost text = { λ literal. literal_text (literal_value literal) };

    fn to_text(&self, alloc: Global) -> Result<String, SqlBuilderError> {
        self.sql_arg(alloc)
    }

    fn push_text(&self, alloc: Global, out: &mut String) -> Result<(), SqlBuilderError> {
        self.push_sql_arg(alloc, out)
    }
}

impl<A: SqlArg> ToText for Value<A> {
    ghost text = { λ value. literal_text (A.literal value.0) };

    fn to_text(&self, alloc: Global) -> Result<String, SqlBuilderError> {
        self.0.sql_arg(alloc)
    }

    fn push_text(&self, alloc: Global, out: &mut String) -> Result<(), SqlBuilderError> {
        self.0.push_sql_arg(alloc, out)
    }
}

impl<T: SqlArg> SqlArg for &T {
    ghost literal = { λ x. T.literal x.now };

    fn sql_arg(&self, alloc: Global) -> Result<String, SqlBuilderError> {
        (**self).sql_arg(alloc)
    }

    fn push_sql_arg(&self, alloc: Global, out: &mut String) -> Result<(), SqlBuilderError> {
        (**self).push_sql_arg(alloc, out)
    }
}

impl<T: SqlArg> SqlArg for Option<T> {
    ghost literal = { literal_or_null T.literal };

    #[inline(always)]
    fn sql_arg(&self, alloc: Global) -> Result<String, SqlBuilderError> {
        match self {
            None => Ok(String::from_str(alloc, "NULL")?),
            Some(value) => value.sql_arg(alloc),
        }
    }

    fn push_sql_arg(&self, alloc: Global, out: &mut String) -> Result<(), SqlBuilderError> {
        match self {
            None => Ok(out.push_str("NULL")?),
            Some(value) => value.push_sql_arg(alloc, out),
        }
    }
}

impl SqlArg for Box<dyn SqlArg> {
    ghost literal = { λ b. (SqlArg-box b).literal b.value };

    fn sql_arg(&self, alloc: Global) -> Result<String, SqlBuilderError> {
        (**self).sql_arg(alloc)
    }

    fn push_sql_arg(&self, alloc: Global, out: &mut String) -> Result<(), SqlBuilderError> {
        (**self).push_sql_arg(alloc, out)
    }
}

//! Texts whose types say that they fit where a statement takes a fragment or an operand.
ghost use Rattle.std.specs.Prelude.{◌≡◌, is_ok, string_bytes, IfErr, IfOk, IsTrue, Some};
ghost use Rattle.sql_parts.specs.{violation, ServesAsOperand, is_fragment, is_typed_fragment, is_typed_operand};
ghost use Rattle.sql_parts.specs.declared.violations.Requirement.TheVariants as requirement;

use crate::error::SqlBuilderError;
use crate::lex::{Requirement, Violation, violation};
use crate::text::ToText;
use std::alloc::Global;
use std::borrow::CowStr;

/// A borrowed text that is balanced and has no top-level clause keyword, such as the text of a
/// table. For a constant this is proved where it is written, and costs nothing when the program
/// runs.
/// `Fragment::of("books AS b").text` gives `books AS b`
#[derive(Clone, Copy)]
#[non_exhaustive]
pub struct Fragment<'a> {
    /// The text.
    pub text: &'a str,
    pub ghost fits: { IsTrue (is_fragment text.now) },
}

/// A borrowed text that is an operand without a top-level clause keyword: a field, or a value. For
/// a constant this is proved where it is written, and costs nothing when the program runs.
/// `Operand::of("price").text` gives `price`
#[derive(Clone, Copy)]
#[non_exhaustive]
pub struct Operand<'a> {
    /// The text.
    pub text: &'a str,
    pub ghost fits: { ServesAsOperand text.now },
}

/// An owned text that is an operand without a top-level clause keyword: a name between quotes, or a
/// query in brackets.
#[derive(Drop)]
#[non_exhaustive]
pub struct OwnedOperand {
    /// The text.
    pub text: String,
    pub ghost fits: { ServesAsOperand (string_bytes text) },
}

impl<'a> Fragment<'a> {
    /// Returns the fragment of this text. The text has to fit, and must have no top-level word that
    /// begins a clause in some databases, such as INTO. Only a proof tests this: `rt try` doesn't.
    /// `lex::violation` says why a text doesn't fit. Never fails.
    /// `Fragment::of("books AS b").text` gives `books AS b`
    pub fn of(text: &'a str) -> Fragment<'a>
        requires fits { IsTrue (is_typed_fragment text.now) }
        ensures { result.text ≡ text.entry }
    {
        Fragment::of_built(text)
    }

    /// Returns a text that is proved to fit, as a fragment, without the further test of `of`.
    /// Conditions are borrowed this way. For the crates here alone. Never fails.
    /// `Fragment::of_built("a = b").text` gives `a = b`
    pub fn of_built(text: &'a str) -> Fragment<'a>
        requires fits { IsTrue (is_fragment text.now) }
        ensures { result.text ≡ text.entry }
    {
        Fragment { text }
    }

    /// Returns a text of the program's own as a fragment, with the test of `of`. Fails with the
    /// `Violation` that the test finds. Takes no memory, and reads a text that fits once. Never
    /// give it untrusted text: what fits may still name another table or be a query.
    /// `Fragment::of_trusted("a UNION SELECT b")` fails with `ClauseWord`
    /// `Fragment::of_trusted("books FOR SHARE")` fails with `DialectWord`
    pub fn of_trusted(text: &'a str) -> Result<Fragment<'a>, Violation>
        ensures fits { is_ok result ≡ is_typed_fragment text.entry.now }
        ensures text { IfOk result (λ fragment. fragment.text ≡ text.entry) }
        ensures violation { IfErr result (λ reason.
            violation requirement.TypedFragment text.entry.now ≡ Some reason) }
    {
        match violation(text, Requirement::TypedFragment) {
            None => Ok(Fragment { text }),
            Some(reason) => Err(reason),
        }
    }
}

impl<'a> Operand<'a> {
    /// Returns the operand of this text. The text has to fit, and must have no top-level word that
    /// begins a clause in some databases, such as INTO. Only a proof tests this: `rt try` doesn't.
    /// `lex::violation` says why a text doesn't fit. Never fails.
    /// `Operand::of("price").text` gives `price`
    pub fn of(text: &'a str) -> Operand<'a>
        requires fits { IsTrue (is_typed_operand text.now) }
        ensures { result.text ≡ text.entry }
    {
        Operand { text }
    }

    /// Returns a text of the program's own as an operand, with the test of `of`. Fails with the
    /// `Violation` that the test finds. Takes no memory, and reads a text that fits once. Never
    /// give it untrusted text: what fits may still name another column or be a query.
    /// `Operand::of_trusted("a OR 1=1")` fails with `Joined`
    /// `Operand::of_trusted("a INTO b")` fails with `DialectWord`
    pub fn of_trusted(text: &'a str) -> Result<Operand<'a>, Violation>
        ensures fits { is_ok result ≡ is_typed_operand text.entry.now }
        ensures text { IfOk result (λ operand. operand.text ≡ text.entry) }
        ensures violation { IfErr result (λ reason.
            violation requirement.TypedOperand text.entry.now ≡ Some reason) }
    {
        match violation(text, Requirement::TypedOperand) {
            None => Ok(Operand { text }),
            Some(reason) => Err(reason),
        }
    }

    /// Returns the operand as a fragment, since every operand is one. Never fails.
    /// `Operand::of("books").as_fragment().text` gives `books`
    pub fn as_fragment(self) -> Fragment<'a>
        ensures { result.text ≡ self.entry.text }
    {
        Fragment { text: self.text }
    }
}

impl OwnedOperand {
    /// Returns a text that is proved to fit, as an operand, without the further test of
    /// `Operand::of`. Queries in brackets are made this way. For the crates here alone. Never
    /// fails.
    /// `OwnedOperand::of_built(String::from_str(alloc, "(SELECT a)")?).text` gives `(SELECT a)`
    pub fn of_built(text: String) -> OwnedOperand
        requires fits { ServesAsOperand (string_bytes text) }
        ensures { result.text ≡ text }
    {
        OwnedOperand { text }
    }

    /// Returns the same operand, borrowed. Never fails.
    /// `SqlName::new(alloc, "a")?.operand(Quotes::Double)?.as_operand().text` gives `"a"`
    pub fn as_operand(&self) -> Operand<'_>
        ensures { result.text.now ≡ string_bytes self.now.text }
    {
        Operand {
            text: self.text.as_str(),
        }
    }
}

impl ToText for Fragment<'_> {
    ghost text = { λ fragment. fragment.text.now };

    fn to_text(&self, alloc: Global) -> Result<String, SqlBuilderError> {
        self.text.to_text(alloc)
    }

    fn as_text(&self, _alloc: Global) -> Result<CowStr<'_>, SqlBuilderError> {
        Ok(CowStr::Borrowed(self.text))
    }
}

impl ToText for Operand<'_> {
    ghost text = { λ operand. operand.text.now };

    fn to_text(&self, alloc: Global) -> Result<String, SqlBuilderError> {
        self.text.to_text(alloc)
    }

    fn as_text(&self, _alloc: Global) -> Result<CowStr<'_>, SqlBuilderError> {
        Ok(CowStr::Borrowed(self.text))
    }
}

impl ToText for OwnedOperand {
    ghost text = { λ operand. string_bytes operand.text };

    fn to_text(&self, alloc: Global) -> Result<String, SqlBuilderError> {
        self.text.to_text(alloc)
    }

    fn as_text(&self, _alloc: Global) -> Result<CowStr<'_>, SqlBuilderError> {
        Ok(CowStr::Borrowed(self.text.as_str()))
    }
}

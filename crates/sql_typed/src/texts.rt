//! Texts of their own, whose types say where they fit.
ghost use Rattle.std.specs.Prelude.{◌≡◌, ◌++◌, [], ◌∷◌, IfOk, IsTrue, string_bytes};
ghost use Rattle.std.specs.Cow.{cow_str_bytes};
ghost use Rattle.std.specs.List.{list_all};
ghost use Rattle.sql_parts.specs.Error.{FailsOnlyByMemory};
ghost use Rattle.sql_parts.specs.Fragments.{balanced};
ghost use Rattle.sql_parts.specs.Operands.{is_fragment};
ghost use Rattle.sql_typed.specs.Unions.{united_text};

use crate::Result;
use crate::operand_text::{FragmentText, OperandText};
use sql_builder::calls::TextList;
use sql_parts::ToText;
use sql_parts::text::Fragment;
use std::alloc::Global;
use std::borrow::CowStr;

/// A condition: its text is balanced and has no top-level clause keyword.
#[derive(Drop)]
#[non_exhaustive]
pub struct Condition {
    /// The text.
    pub text: String,
    pub ghost fits: { IsTrue (is_fragment (string_bytes text)) },
}

impl Condition {
    /// Returns the condition, borrowed as a fragment. Never fails.
    /// `is_null(alloc, Operand::of("a"))?.as_fragment().text` gives `a IS NULL`
    pub fn as_fragment(&self) -> Fragment<'_>
        ensures { result.text.now ≡ string_bytes self.now.text }
    {
        Fragment::of_built(self.text.as_str())
    }

    /// Returns a condition of the same text. Fails only if memory runs out.
    /// `is_null(alloc, Operand::of("a"))?.clone()?.text` gives `a IS NULL`
    pub fn clone(&self) -> Result<Condition>
        ensures text { IfOk result (λ c. string_bytes c.text ≡ string_bytes self.now.text) }
        ensures memory { FailsOnlyByMemory result }
    {
        let text = self.text.clone()?;
        Ok(Condition { text })
    }
}

/// A printed query: its text is balanced.
#[derive(Drop)]
#[non_exhaustive]
pub struct Query {
    /// The text.
    pub text: String,
    /// Whether it has a UNION, an ORDER BY, a LIMIT or an OFFSET. `union` makes a table of it then.
    /// `query` sets it.
    pub needs_brackets: bool,
    pub ghost fits: { IsTrue (balanced (string_bytes text)) },
}

impl Query {
    // No form of brackets works on every database, so a query that needs them becomes a table.
    pub(crate) fn united(&self, alloc: Global) -> Result<CowStr<'_>>
        ensures text { IfOk result (λ s.
            cow_str_bytes s ≡ united_text self.now.needs_brackets (string_bytes self.now.text)) }
        ensures memory { FailsOnlyByMemory result }
    {
        let query = self.text.as_str();
        if !self.needs_brackets {
            return Ok(CowStr::Borrowed(query));
        }
        let mut text = String::from_str(alloc, "SELECT * FROM (")?;
        text.push_str(query)?;
        text.push_str(") AS u")?;
        Ok(CowStr::Owned(text))
    }
}

/// A printed query in brackets with a name, as a table.
#[derive(Drop)]
#[non_exhaustive]
pub struct TableQuery {
    /// The text.
    pub text: String,
    pub ghost fits: { IsTrue (is_fragment (string_bytes text)) },
}

impl ToText for TableQuery {
    ghost text = { λ table. string_bytes table.text };

    fn to_text(&self, alloc: Global) -> Result<String> {
        self.text.to_text(alloc)
    }

    fn as_text(&self, _alloc: Global) -> Result<CowStr<'_>> {
        Ok(CowStr::Borrowed(self.text.as_str()))
    }
}

impl FragmentText for TableQuery {
    ghost fits_as_fragment = { λ table. table.fits };
}

/// A row of an INSERT, whose values may be of different types.
#[derive(Drop)]
pub struct Row {
    alloc: Global,
    /// The texts of the values.
    pub values: TextList,
    pub ghost fits: { IsTrue (list_all balanced values) },
}

impl Row {
    /// Returns a row without values. Never fails.
    /// `Row::new(alloc).values.as_str().len()` gives `0`
    pub fn new(alloc: Global) -> Row
        ensures { result.values ≡ [] }
    {
        let values = TextList::new(alloc);
        Row { alloc, values }
    }

    /// Returns the row with one more value. Fails only if memory runs out.
    /// `Row::new(alloc).value(Value("it's"))?.value(Literal::Null)?.values.as_str()` gives
    /// `'it''s', NULL`
    #[inline(always)]
    pub fn value<V: OperandText>(self, value: V) -> Result<Row>
        ensures values { IfOk result (λ row. row.values ≡ self.values ++ V.text value ∷ []) }
        ensures memory { FailsOnlyByMemory result }
    {
        let Row { alloc, mut values } = self;
        values.push_text(alloc, &value)?;
        Ok(Row { alloc, values })
    }
}

//! Lists of texts that are stored in one text, with commas between them.
ghost use Rattle.std.specs.Prelude.{◌≡◌, ◌++◌, [], ◌∷◌, ◌==◌, codes, if◌then◌else◌, length, IfOk, OnErr, OnOk};
ghost use Rattle.sql_parts.specs.Error.{FailsOnlyByMemory};
ghost use Rattle.sql_parts.specs.Text.{join_with};
ghost use Rattle.sql_builder.specs.{HasRoom, Writes, concat_bytes, byte_units, row};

use crate::concat::{Part, copied, push_all, push_text, total_len};
use crate::ghost_list::{Bytes, GhostList};
use crate::phrases::push_row;
use sql_parts::SqlBuilderError;
use sql_parts::text::{Texts, ToText};
use std::alloc::{AllocError, Global};
use std::marker::Model;

/// How many bytes are asked for at first, so that few short texts take one allocation.
pub(crate) const FIRST_ROOM: usize = 64;

/// A list of texts, stored in one text with `, ` between each and the next. Contracts see the list.
/// For the crates here alone.
#[derive(Drop)]
pub struct TextList {
    text: String,
    // One empty text and none are printed alike.
    has_items: bool,
    items: GhostList<Bytes>,
}

impl Model for TextList {
    ghost use Rattle.std.specs.Prelude.{◌≡◌, ◌==◌, ℕ, List, codes, length, not, string_bytes};
    ghost use Rattle.sql_parts.specs.Text.{join_with};

    ghost Value = { List (List ℕ) };

    ghost view = { λ list. list.items.items };

    ghost invariant = { λ list. (join_with (codes ", ") list.items.items ≡ string_bytes list.text) × (not list.has_items ≡ (length list.items.items == 0)) };
}

// Writes what is in front of a text, which may be the first.
#[inline(always)]
fn push_comma(out: &mut String, is_first: bool)
    requires room { HasRoom out.old (if is_first then [] else codes ", ") }
    ensures { Writes out.old out.new (if is_first then [] else codes ", ") }
{
    if !is_first {
        push_text(out, ", ");
    }
}

impl TextList {
    /// Returns a list without texts. Never fails.
    /// `TextList::new(alloc).as_str().len()` gives `0`
    pub fn new(alloc: Global) -> TextList
        ensures { result ≡ [] }
    {
        TextList {
            text: String::new(alloc),
            has_items: false,
            items: GhostList::new(),
        }
    }

    pub(crate) fn is_empty(&self) -> bool
        ensures { result ≡ (length self.now == 0) }
    {
        !self.has_items
    }

    /// Returns the texts with `, ` between each and the next. Never fails.
    /// `TextList::new(alloc).as_str().is_empty()` gives `true`
    pub fn as_str(&self) -> &str
        ensures { result.now ≡ join_with (codes ", ") self.now }
    {
        self.text.as_str()
    }

    /// Appends a text that is made of parts. Where memory runs out, the list is as it was. It is a part
    /// of each caller, where the number of parts is known.
    #[inline(always)]
    pub(crate) fn push(&mut self, parts: &[Part<'_>]) -> Result<(), AllocError>
        ensures pushed { OnOk result (self.new ≡ self.old ++ concat_bytes parts.now ∷ []) }
        ensures unchanged { OnErr result (self.new ≡ self.old) }
    {
        let is_first = self.is_empty();
        let len = total_len(parts);
        let least = if is_first { FIRST_ROOM } else { 0 };
        self.text
            .reserve(least.max(len.saturating_add(", ".len())))?;
        push_comma(&mut self.text, is_first);
        push_all(&mut self.text, parts);
        self.has_items = true;
        self.items.append(&GhostList::of(&parts));
        Ok(())
    }

    /// Appends the text of a value. Fails only if memory runs out, and then leaves the list
    /// unchanged.
    /// ```
    /// let mut list = TextList::new(alloc);
    /// list.push_text(alloc, &25)?;
    /// list.as_str().to_text(alloc)?; // 25
    /// ```
    pub fn push_text<S: ToText>(&mut self, alloc: Global, text: &S) -> Result<(), SqlBuilderError>
        ensures pushed { OnOk result (self.new ≡ self.old ++ S.text text.now ∷ []) }
        ensures unchanged { OnErr result (self.new ≡ self.old) }
        ensures memory { FailsOnlyByMemory result }
    {
        let is_first = self.is_empty();
        let before = self.text.len();
        let room = if is_first { FIRST_ROOM } else { ", ".len() };
        self.text.reserve(room)?;
        push_comma(&mut self.text, is_first);
        let pushed = text.push_text(alloc, &mut self.text);
        if pushed.is_err() {
            self.text.truncate(before);
            return pushed;
        }
        self.has_items = true;
        self.items.append(&GhostList::of(text));
        Ok(())
    }

    /// Puts a text that is made of parts in the place of all others. Where memory runs out, the
    /// list is as it was.
    pub(crate) fn replace(&mut self, parts: &[Part<'_>]) -> Result<(), AllocError>
        ensures replaced { OnOk result (self.new ≡ concat_bytes parts.now ∷ []) }
        ensures unchanged { OnErr result (self.new ≡ self.old) }
    {
        let len = total_len(parts);
        self.text.reserve(len.saturating_sub(self.text.len()))?;
        self.text.clear();
        push_all(&mut self.text, parts);
        self.has_items = true;
        self.items = GhostList::of(&parts);
        Ok(())
    }

    /// Removes all texts.
    pub(crate) fn clear(&mut self)
        ensures { self.new ≡ [] }
    {
        self.text.clear();
        self.has_items = false;
        self.items = GhostList::new();
    }

    /// Appends the texts of another list. Where memory runs out, the list is as it was.
    pub(crate) fn append(&mut self, further: &TextList) -> Result<(), AllocError>
        ensures appended { OnOk result (self.new ≡ self.old ++ further.now) }
        ensures unchanged { OnErr result (self.new ≡ self.old) }
    {
        if further.is_empty() {
            return Ok(());
        }
        let is_first = self.is_empty();
        self.text
            .reserve(further.text.len().saturating_add(", ".len()))?;
        push_comma(&mut self.text, is_first);
        push_text(&mut self.text, further.text.as_str());
        self.has_items = true;
        self.items.append(&further.items);
        Ok(())
    }

    /// Puts texts that are taken one after another in the place of all. Where memory runs out, some
    /// of them are there.
    pub(crate) fn refill<'a, T: Texts<'a>>(
        &mut self,
        alloc: Global,
        mut texts: T,
    ) -> Result<(), SqlBuilderError>
        ensures refilled { OnOk result (self.new ≡ T.left texts) }
        ensures memory { FailsOnlyByMemory result }
    {
        self.clear();
        while let Some(text) = texts.next_text() {
            self.push_text(alloc, &text)?;
        }
        Ok(())
    }

    /// Appends one text: a row of the values, which are taken one after another. Where memory runs out,
    /// the list is as it was.
    pub(crate) fn push_row<'a, T: Texts<'a>>(
        &mut self,
        alloc: Global,
        values: T,
    ) -> Result<(), SqlBuilderError>
        ensures pushed { OnOk result (self.new ≡ self.old ++ row byte_units (T.left values) ∷ []) }
        ensures unchanged { OnErr result (self.new ≡ self.old) }
        ensures memory { FailsOnlyByMemory result }
    {
        let before = self.text.len();
        self.text.reserve(FIRST_ROOM)?;
        push_comma(&mut self.text, !self.has_items);
        let start = self.text.len();
        let pushed = push_row(alloc, &mut self.text, values);
        if pushed.is_err() {
            self.text.truncate(before);
            return pushed;
        }
        self.has_items = true;
        self.items.append(&GhostList::of(&(&self.text, start)));
        Ok(())
    }

    /// An equal list.
    pub(crate) fn copy(&self, alloc: Global) -> Result<TextList, AllocError>
        ensures { IfOk result (λ copy. copy ≡ self.now) }
    {
        Ok(TextList {
            text: copied(alloc, self.text.as_str())?,
            has_items: self.has_items,
            items: GhostList::of(&self.items),
        })
    }
}

//! Lists that are stored in one text, as they are printed: the joins, and the queries of UNION.
ghost use Rattle.std.specs.Prelude.{◌≡◌, ◌++◌, [], ◌==◌, ℕ, List, codes, flat_map, length, IfOk, OnErr, OnOk};
ghost use Rattle.sql_builder.specs.{concat_bytes, HasByte, union_has_byte, union_opening};

use crate::concat::{Part, append, copied};
use crate::ghost_list::{Bytes, GhostList};
use std::alloc::{AllocError, Global};
use std::marker::Model;

/// What a list is of, and how an item is printed, which takes a byte at least.
pub(crate) trait Printed {
    ghost printed: { Self → List ℕ };

    ghost has_byte: { (item : Self) → HasByte (printed item) };
}

// A join.
impl Printed for Bytes {
    ghost printed = { λ join. codes " " ++ join };

    ghost has_byte = { λ join. tt };
}

// A query of UNION, and whether it is UNION ALL.
impl Printed for (bool, Bytes) {
    ghost printed = { λ union. union_opening union.0 ++ union.1 };

    ghost has_byte = { λ union. union_has_byte union.0 union.1 };
}

/// Items, stored in one text as they are printed. Contracts see the list.
#[derive(Drop)]
pub(crate) struct PrintedList<T: Printed> {
    text: String,
    items: GhostList<T>,
}

impl<T: Printed> Model for PrintedList<T> {
    ghost use Rattle.std.specs.Prelude.{◌≡◌, List, flat_map, string_bytes};

    ghost Value = { List T };

    ghost view = { λ list. list.items.items };

    ghost invariant = { λ list. flat_map T.printed list.items.items ≡ string_bytes list.text };
}

impl<T: Printed> PrintedList<T> {
    /// No item.
    pub(crate) fn new(alloc: Global) -> PrintedList<T>
        ensures { result ≡ [] }
    {
        PrintedList {
            text: String::new(alloc),
            items: GhostList::new(),
        }
    }

    pub(crate) fn is_empty(&self) -> bool
        ensures { result ≡ (length self.now == 0) }
    {
        self.as_str().is_empty()
    }

    /// The items as they are printed, one after another.
    pub(crate) fn as_str(&self) -> &str
        ensures { result.now ≡ flat_map T.printed self.now }
    {
        self.text.as_str()
    }

    /// Appends parts to what is printed, which is then that of these items. Where memory runs out,
    /// the list is as it was. It is a part of each caller, where the number of parts is known.
    #[inline(always)]
    pub(crate) fn print(
        &mut self,
        parts: &[Part<'_>],
        items: GhostList<T>,
    ) -> Result<(), AllocError>
        requires printed { flat_map T.printed items.items
            ≡ flat_map T.printed self.old ++ concat_bytes parts.now }
        ensures done { OnOk result (self.new ≡ items.items) }
        ensures unchanged { OnErr result (self.new ≡ self.old) }
    {
        append(&mut self.text, parts)?;
        self.items = items;
        Ok(())
    }

    /// Removes all items.
    pub(crate) fn clear(&mut self)
        ensures { self.new ≡ [] }
    {
        self.text.clear();
        self.items = GhostList::new();
    }

    /// An equal list.
    pub(crate) fn copy(&self, alloc: Global) -> Result<PrintedList<T>, AllocError>
        ensures { IfOk result (λ copy. copy ≡ self.now) }
    {
        Ok(PrintedList {
            text: copied(alloc, self.text.as_str())?,
            items: GhostList::of(&self.items),
        })
    }
}

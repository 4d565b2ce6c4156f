//! Lists that only proofs read. They take no memory, and their methods do nothing when they run.
ghost use Rattle.std.specs.Prelude.{◌≡◌, ◌++◌, [], List};
ghost use Rattle.std.specs.Borrow.{ftrue};

use std::marker::{Model, PhantomData};

/// The type of an item that is the bytes of a text.
pub(crate) struct Bytes {}

impl Model for Bytes {
    ghost use Rattle.std.specs.Prelude.{[], List, ℕ};

    ghost Value = { List ℕ };

    ghost view = { λ _. [] };
}

/// A list that only proofs read. Public for `sql_typed` alone.
#[derive(Drop)]
pub struct GhostList<T> {
    of: PhantomData<T>,
    pub ghost items: { List T },
}

impl<T> Model for GhostList<T> {
    ghost also_owns = { λ _. ftrue };
}

// It owns nothing. A struct with `also_owns` has neither by itself.
unsafe impl<T: Send> Send for GhostList<T> {}

unsafe impl<T: Sync> Sync for GhostList<T> {}

impl<T> GhostList<T> {
    /// Returns the list that the caller's proof picks, made of what is passed. Never fails.
    /// `{ let _: GhostList<u8> = GhostList::of(&1); 0 }` gives `0`
    pub fn of<X>(from: &X) -> GhostList<T>
        ghost picked: { List T }
        ensures { result.items ≡ picked }
    {
        GhostList { of: PhantomData }
    }

    /// No item.
    pub(crate) fn new() -> GhostList<T>
        ensures { result.items ≡ [] }
    {
        GhostList::of(&())
    }

    /// Appends the items of another list.
    pub(crate) fn append(&mut self, further: &GhostList<T>)
        ensures { self.new.items ≡ self.old.items ++ further.now.items }
    {
        *self = GhostList::of(&(&*self, further));
    }
}

//! Texts that may be missing, whose buffers are reused.
ghost use Rattle.std.specs.Prelude.{◌≡◌, IfOk, MatchOption, None, OnErr, OnOk, Some, is_some};

use crate::concat::{copied, replace};
use std::alloc::{AllocError, Global};
use std::marker::Model;

/// A text, or none. Contracts see the text's bytes, if there is one.
#[derive(Drop)]
pub(crate) struct OptionalText {
    text: String,
    is_some: bool,
}

impl Model for OptionalText {
    ghost use Rattle.std.specs.Prelude.{List, None, Option, Some, if◌then◌else◌, string_bytes, ℕ};

    ghost Value = { Option (List ℕ) };

    ghost view = { λ it. if it.is_some then Some (string_bytes it.text) else None };
}

impl OptionalText {
    /// No text.
    pub(crate) fn new(alloc: Global) -> OptionalText
        ensures { result ≡ None }
    {
        OptionalText {
            text: String::new(alloc),
            is_some: false,
        }
    }

    pub(crate) fn is_some(&self) -> bool
        ensures { result ≡ is_some self.now }
    {
        self.is_some
    }

    /// The text, if there is one.
    pub(crate) fn get(&self) -> Option<&str>
        ensures { MatchOption result (self.now ≡ None) (λ text. self.now ≡ Some text.now) }
    {
        if self.is_some {
            Some(self.text.as_str())
        } else {
            None
        }
    }

    /// Puts a text in the place of the one before. Where memory runs out, that one stays.
    pub(crate) fn set(&mut self, text: &str) -> Result<(), AllocError>
        ensures set { OnOk result (self.new ≡ Some text.now) }
        ensures unchanged { OnErr result (self.new ≡ self.old) }
    {
        replace(&mut self.text, text)?;
        self.is_some = true;
        Ok(())
    }

    /// Removes the text.
    pub(crate) fn clear(&mut self)
        ensures { self.new ≡ None }
    {
        self.is_some = false;
    }

    /// An equal text, if there is one.
    pub(crate) fn copy(&self, alloc: Global) -> Result<OptionalText, AllocError>
        ensures { IfOk result (λ copy. copy ≡ self.now) }
    {
        Ok(OptionalText {
            text: copied(alloc, self.get().unwrap_or(""))?,
            is_some: self.is_some,
        })
    }
}

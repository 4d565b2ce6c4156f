//! The nesting depth at a place of a text, counted token by token.
ghost use Rattle.std.specs.Prelude.{◌≡◌, ◌==◌, ◌+◌, ◌<◌, nat_lt};
ghost use Rattle.sql_parts.specs.{lowers, raises, weight, HasRole};
ghost use Rattle.sql_parts.specs.Tokens as tokens;

use crate::roles::Role;

/// How many tokens before a place raised the depth, and how many lowered it.
#[derive(Clone, Copy)]
pub(crate) struct Depth {
    raised: usize,
    lowered: usize,
}

impl Depth {
    // The depth at the front of a text.
    pub(crate) fn start() -> Depth
        ensures { result ≡ record { raised = 0; lowered = 0 } }
    {
        Depth {
            raised: 0,
            lowered: 0,
        }
    }

    pub(crate) fn is_top_level(self) -> bool
        ensures { result ≡ (self.raised == self.lowered) }
    {
        self.raised == self.lowered
    }

    pub(crate) fn is_below(self) -> bool
        ensures { result ≡ nat_lt self.raised self.lowered }
    {
        self.raised < self.lowered
    }

    // The depth behind a token.
    pub(crate) fn behind(self, role: Role) -> Depth
        requires raised { self.raised < usize.MAX }
        requires lowered { self.lowered < usize.MAX }
        ensures { (defined : tokens.Token) → HasRole role defined
            → result ≡ record { raised = self.raised + weight raises defined; lowered = self.lowered + weight lowers defined } }
    {
        Depth {
            raised: self.raised + usize::from(role.raises()),
            lowered: self.lowered + usize::from(role.lowers()),
        }
    }
}

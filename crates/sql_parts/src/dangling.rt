//! What dangles: an OR, AND or NOT where it may not be, and a BETWEEN without its AND.
ghost use Rattle.std.specs.Prelude.{◌≡◌, ◌&&◌, [], ◌∷◌, List, IfErr, IfOk, IsTrue, false, not, true};
ghost use Rattle.sql_parts.specs.{IsMemory, is_closing, is_opening, needs_left, needs_right, raises, HasRole, all_have_ands, open_ranges};
ghost use Rattle.sql_parts.specs.Tokens as tokens;

use crate::error::SqlBuilderError;
use crate::roles::Role;
use std::alloc::Global;

/// What may not be at the place reached.
#[derive(Clone, Copy)]
pub(crate) struct Sides {
    /// No OR or AND: a text begins there, or a token that opens precedes it.
    begins: bool,
    /// No token that closes, and no end: OR, AND or NOT precedes it.
    wants: bool,
}

impl Sides {
    // At the front of a text.
    pub(crate) fn start() -> Sides
        ensures { result ≡ record { begins = true; wants = false } }
    {
        Sides {
            begins: true,
            wants: false,
        }
    }

    // Whether the token may be there.
    pub(crate) fn fits(self, role: Role) -> bool
        ensures { (defined : tokens.Token) → HasRole role defined
            → result ≡ (not (self.begins && needs_left defined) && not (self.wants && is_closing defined)) }
    {
        !(self.begins && role.needs_left()) && !(self.wants && role.closes())
    }

    // Behind the token.
    pub(crate) fn behind(role: Role) -> Sides
        ensures { (defined : tokens.Token) → HasRole role defined
            → result ≡ record { begins = is_opening defined; wants = needs_right defined } }
    {
        Sides {
            begins: role.opens(),
            wants: role.needs_right(),
        }
    }

    // Whether the text may end there.
    pub(crate) fn may_end(self) -> bool
        ensures { result ≡ not self.wants }
    {
        !self.wants
    }
}

/// The BETWEENs that wait for their AND.
#[derive(Drop)]
pub(crate) struct OpenRanges {
    /// Whether one waits at the depth reached.
    waits: bool,
    /// Whether one waits at each depth outside it.
    outside: Vec<bool>,
}

impl OpenRanges {
    pub(crate) fn new(alloc: Global) -> OpenRanges
        ensures { open_ranges result ≡ false ∷ [] }
    {
        OpenRanges {
            waits: false,
            outside: Vec::new(alloc),
        }
    }

    // Reads the next token. It returns false where a BETWEEN that waits can't have its AND any
    // more.
    pub(crate) fn read(&mut self, role: Role) -> Result<bool, SqlBuilderError>
        ensures reads { (defined : tokens.Token) → HasRole role defined
            → IfOk result (λ may. (ts : List tokens.Token) → (may && all_have_ands self.new ts) ≡ all_have_ands self.old (defined ∷ ts)) }
        ensures memory { (defined : tokens.Token) → HasRole role defined
            → IfErr result (λ e. IsMemory e × IsTrue (raises defined)) }
    {
        match role {
            Role::Raises => {
                self.outside.push(self.waits)?;
                self.waits = false;
                Ok(true)
            }
            Role::Lowers => {
                let may = !self.waits;
                self.waits = self.outside.pop().unwrap_or(false);
                Ok(may)
            }
            Role::And => {
                self.waits = false;
                Ok(true)
            }
            Role::Or => {
                let may = !self.waits;
                self.waits = false;
                Ok(may)
            }
            Role::Between => {
                let may = !self.waits;
                self.waits = true;
                Ok(may)
            }
            _ => Ok(true),
        }
    }

    // Whether none waits.
    pub(crate) fn is_empty(&self) -> bool
        ensures { result ≡ all_have_ands self.now [] }
    {
        !self.waits && !self.outside.contains(&true)
    }
}

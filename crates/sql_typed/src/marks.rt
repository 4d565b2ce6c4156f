//! What a statement has, as far as it decides whether it is printed.
ghost use Rattle.std.specs.Prelude.{◌≡◌, ◌&&◌, ◌||◌, nat_eq, not, List, ℕ};
ghost use Rattle.std.specs.List.{ends_with};
ghost use Rattle.sql_parts.specs.Fragments.{operand};
ghost use Rattle.sql_builder.specs.Calls.{start_on, unary_call};
ghost use Rattle.sql_typed.specs.Faults.{selects_every_row};
ghost use Rattle.sql_typed.specs.Fits.{beginning};
ghost use Rattle.sql_typed.specs.Marks.{fault, marks_of, noted};
ghost use Rattle.sql_typed.specs.AddedCalls.{added_call};

use crate::error::Error;
use crate::statement::AddedCall;
use sql_builder::calls::{BinaryClause, NullaryClause, TableStart, UnaryClause};
use sql_parts::lex::is_operand;

/// What a statement has.
#[derive(Clone, Copy)]
pub(crate) struct Marks {
    /// A condition came that an empty list or word doesn't make, or none is needed.
    pub(crate) has_filter: bool,
    pub(crate) has_join: bool,
    /// A constraint came before the first join.
    pub(crate) has_stray_constraint: bool,
    pub(crate) has_union: bool,
    pub(crate) has_order: bool,
    pub(crate) has_returning: bool,
}

// Whether an operand is like a mask.
#[tactic(auto, using(std::proofs::lemmas::Str::Pattern::ends_text))]
fn is_like(condition: &str, like: &str, not_like: &str) -> bool
    ensures { result ≡ (ends_with nat_eq condition.now like.now
        && not (ends_with nat_eq condition.now not_like.now) && operand condition.now) }
{
    condition.ends_with(like) && !condition.ends_with(not_like) && is_operand(condition)
}

#[tactic(auto, unfolding(crate::specs::Faults::selects_every_row))]
fn selects_every_row(text: &str) -> bool
    ensures { result ≡ selects_every_row text.now }
{
    text == "1 = 1"
        || text == "NOT (1 = 0)"
        || is_like(text, " LIKE '%'", " NOT LIKE '%'")
        || is_like(text, " LIKE '%%'", " NOT LIKE '%%'")
        || is_like(text, " LIKE '%' ESCAPE '!'", " NOT LIKE '%' ESCAPE '!'")
        || is_like(text, " LIKE '%%' ESCAPE '!'", " NOT LIKE '%%' ESCAPE '!'")
}

impl Marks {
    pub(crate) fn of(start: TableStart) -> Marks
        ensures { (table : List ℕ) → result ≡ marks_of (beginning (start_on start table)) }
    {
        Marks {
            has_filter: match start {
                TableStart::SelectFrom | TableStart::InsertInto => true,
                TableStart::UpdateTable | TableStart::DeleteFrom => false,
            },
            has_join: false,
            has_stray_constraint: false,
            has_union: false,
            has_order: false,
            has_returning: false,
        }
    }

    // With one more call.
    #[tactic(auto, using(crate::proofs::Imports::or_comm))]
    #[inline(always)]
    pub(crate) fn with(mut self, added: &AddedCall<'_>) -> Marks
        ensures { result ≡ noted (added_call added.now) self }
    {
        match added {
            AddedCall::Unary(clause, _) => return self.with_unary(*clause),
            AddedCall::Binary(BinaryClause::OnEq, _, _) => return self.with_constraint(),
            AddedCall::Condition(_, condition) => {
                self.has_filter = self.has_filter || !selects_every_row(condition.as_str());
            }
            AddedCall::Nullary(NullaryClause::ReturningId) => self.has_returning = true,
            AddedCall::Binary(_, _, _) | AddedCall::Nullary(_) | AddedCall::Row(_) => {}
        }
        self
    }

    #[inline(always)]
    fn with_unary(mut self, clause: UnaryClause) -> Marks
        ensures { (text : List ℕ) → result ≡ noted (unary_call clause text) self }
    {
        match clause {
            UnaryClause::Join => self.has_join = true,
            UnaryClause::On => return self.with_constraint(),
            UnaryClause::Union | UnaryClause::UnionAll => self.has_union = true,
            UnaryClause::OrderAsc | UnaryClause::OrderDesc => self.has_order = true,
            UnaryClause::Returning => self.has_returning = true,
            _ => {}
        }
        self
    }

    fn with_constraint(mut self) -> Marks
        ensures { result ≡ record self { has_stray_constraint = not self.has_join || self.has_stray_constraint } }
    {
        self.has_stray_constraint = !self.has_join || self.has_stray_constraint;
        self
    }

    // Why a statement isn't printed.
    pub(crate) fn fault(self) -> Option<Error>
        ensures { result ≡ fault self }
    {
        if !self.has_filter {
            Some(Error::NoCondition)
        } else if self.has_stray_constraint {
            Some(Error::NoJoin)
        } else if self.has_union && self.has_order {
            Some(Error::OrderBesideUnion)
        } else {
            None
        }
    }
}

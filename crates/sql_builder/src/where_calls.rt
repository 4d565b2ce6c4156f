//! The condition calls, in two families. One opens a group of its own. The other joins the last
//! group by OR, or opens one if there is none. Each call returns the builder. It fails only if
//! memory runs out, and then leaves the builder unchanged. If its texts are operands, what it adds
//! is an atom of truth, unless the condition is raw.
ghost use Rattle.std.specs.Prelude.{◌≡◌};
ghost use Rattle.sql_builder.specs.Steps.{is_negated};

mod comparisons;
mod condition_steps;
mod like;
mod membership;

/// Whether a call adds the NOT form of its condition.
#[derive(Clone, Copy)]
pub(crate) enum Polarity {
    Plain,
    Negated,
}

impl Polarity {
    fn is_negated(self) -> bool
        ensures { result ≡ is_negated self }
    {
        matches!(self, Polarity::Negated)
    }
}

//! The steps of the calls: one for each condition. Constants say what the names of the calls do.
ghost use Rattle.std.specs.Prelude.{false, map, true};
ghost use Rattle.sql_parts.specs.Error.{FailsOnlyByMemory};

use crate::builder::SqlBuilder;
use crate::condition::{
    Family, Percent, Relation, between, compare, in_list, in_query, in_quoted, is_not_null,
    is_null, like,
};
use crate::where_calls::Polarity;
use sql_parts::loan::Loan;
use sql_parts::text::Items;
use sql_parts::{SqlBuilderError, ToText};

impl SqlBuilder {
    ghost use Rattle.std.specs.Borrow.{sem};
    ghost use Rattle.sql_builder.specs.BuilderLoans.{IsUnchangedIfLoanErr};
    ghost use Rattle.sql_parts.specs.Loans.{IsLoanChangedSoThat};
    ghost use Rattle.sql_builder.specs.Condition.{Raw, Compare, Like, IsNull, IsNotNull, InList, InQuoted, InQuery, Between};
    ghost use Rattle.sql_builder.specs.Steps.{StepAddsCondition, is_negated};

    #[tactic(auto, using(crate::proofs::pieces::ClauseShapeLemmas::step_adds_condition))]
    pub(super) fn step_raw<S: ToText>(
        &mut self,
        family: Family,
        condition: S,
    ) -> Result<Loan<'_, SqlBuilder>, SqlBuilderError>
        ensures* unchanged { sem 𝓛 (IsUnchangedIfLoanErr self.entry result) }
        ensures changed { IsLoanChangedSoThat self.entry
            (StepAddsCondition family (Raw (S.text condition)) self.old) result }
        ensures memory { FailsOnlyByMemory result }
    {
        let text = condition.to_text(self.alloc)?;
        self.push_condition(family, text)?;
        Ok(Loan(self))
    }

    #[tactic(auto, using(crate::proofs::pieces::ClauseShapeLemmas::step_adds_condition))]
    pub(super) fn step_is_null<S: ToText>(
        &mut self,
        family: Family,
        field: S,
    ) -> Result<Loan<'_, SqlBuilder>, SqlBuilderError>
        ensures* unchanged { sem 𝓛 (IsUnchangedIfLoanErr self.entry result) }
        ensures changed { IsLoanChangedSoThat self.entry
            (StepAddsCondition family (IsNull (S.text field)) self.old) result }
        ensures memory { FailsOnlyByMemory result }
    {
        let field = field.as_text(self.alloc)?;
        let text = is_null(self.alloc, field.as_str())?;
        self.push_condition(family, text)?;
        Ok(Loan(self))
    }

    #[tactic(auto, using(crate::proofs::pieces::ClauseShapeLemmas::step_adds_condition))]
    pub(super) fn step_is_not_null<S: ToText>(
        &mut self,
        family: Family,
        field: S,
    ) -> Result<Loan<'_, SqlBuilder>, SqlBuilderError>
        ensures* unchanged { sem 𝓛 (IsUnchangedIfLoanErr self.entry result) }
        ensures changed { IsLoanChangedSoThat self.entry
            (StepAddsCondition family (IsNotNull (S.text field)) self.old) result }
        ensures memory { FailsOnlyByMemory result }
    {
        let field = field.as_text(self.alloc)?;
        let text = is_not_null(self.alloc, field.as_str())?;
        self.push_condition(family, text)?;
        Ok(Loan(self))
    }

    #[tactic(auto, using(crate::proofs::pieces::ClauseShapeLemmas::step_adds_condition))]
    pub(super) fn step_compare<S: ToText, T: ToText>(
        &mut self,
        family: Family,
        relation: Relation,
        field: S,
        value: T,
    ) -> Result<Loan<'_, SqlBuilder>, SqlBuilderError>
        ensures* unchanged { sem 𝓛 (IsUnchangedIfLoanErr self.entry result) }
        ensures changed { IsLoanChangedSoThat self.entry
            (StepAddsCondition family (Compare relation (S.text field) (T.text value)) self.old) result }
        ensures memory { FailsOnlyByMemory result }
    {
        let field = field.as_text(self.alloc)?;
        let value = value.as_text(self.alloc)?;
        let text = compare(self.alloc, relation, field.as_str(), value.as_str())?;
        self.push_condition(family, text)?;
        Ok(Loan(self))
    }

    #[tactic(auto, using(crate::proofs::pieces::ClauseShapeLemmas::step_adds_condition))]
    pub(super) fn step_like<S: ToText, T: ToText>(
        &mut self,
        family: Family,
        percent: Percent,
        field: S,
        mask: T,
    ) -> Result<Loan<'_, SqlBuilder>, SqlBuilderError>
        ensures* unchanged { sem 𝓛 (IsUnchangedIfLoanErr self.entry result) }
        ensures changed { IsLoanChangedSoThat self.entry
            (StepAddsCondition family (Like false percent (S.text field) (T.text mask)) self.old) result }
        ensures memory { FailsOnlyByMemory result }
    {
        let field = field.as_text(self.alloc)?;
        let mask = mask.as_text(self.alloc)?;
        let text = like(self.alloc, false, percent, field.as_str(), mask.as_str())?;
        self.push_condition(family, text)?;
        Ok(Loan(self))
    }

    // A step of its own: with a `Polarity` too the calls would pass three constants, and the lemmas
    // that prove such calls (`proofs/chains/`) would be longer.
    #[tactic(auto, using(crate::proofs::pieces::ClauseShapeLemmas::step_adds_condition))]
    pub(super) fn step_not_like<S: ToText, T: ToText>(
        &mut self,
        family: Family,
        percent: Percent,
        field: S,
        mask: T,
    ) -> Result<Loan<'_, SqlBuilder>, SqlBuilderError>
        ensures* unchanged { sem 𝓛 (IsUnchangedIfLoanErr self.entry result) }
        ensures changed { IsLoanChangedSoThat self.entry
            (StepAddsCondition family (Like true percent (S.text field) (T.text mask)) self.old) result }
        ensures memory { FailsOnlyByMemory result }
    {
        let field = field.as_text(self.alloc)?;
        let mask = mask.as_text(self.alloc)?;
        let text = like(self.alloc, true, percent, field.as_str(), mask.as_str())?;
        self.push_condition(family, text)?;
        Ok(Loan(self))
    }

    #[tactic(auto, using(crate::proofs::pieces::ClauseShapeLemmas::step_adds_condition))]
    pub(super) fn step_in_list<S: ToText, T: ToText>(
        &mut self,
        family: Family,
        polarity: Polarity,
        field: S,
        values: &[T],
    ) -> Result<Loan<'_, SqlBuilder>, SqlBuilderError>
        ensures* unchanged { sem 𝓛 (IsUnchangedIfLoanErr self.entry result) }
        ensures changed { IsLoanChangedSoThat self.entry
            (StepAddsCondition family (InList (is_negated polarity) (S.text field) (map T.text values.now)) self.old) result }
        ensures memory { FailsOnlyByMemory result }
    {
        let field = field.as_text(self.alloc)?;
        let values = Items { items: values };
        let text = in_list(self.alloc, polarity.is_negated(), field.as_str(), values)?;
        self.push_condition(family, text)?;
        Ok(Loan(self))
    }

    #[tactic(auto, using(crate::proofs::pieces::ClauseShapeLemmas::step_adds_condition))]
    pub(super) fn step_in_quoted<S: ToText, T: ToText>(
        &mut self,
        family: Family,
        polarity: Polarity,
        field: S,
        values: &[T],
    ) -> Result<Loan<'_, SqlBuilder>, SqlBuilderError>
        ensures* unchanged { sem 𝓛 (IsUnchangedIfLoanErr self.entry result) }
        ensures changed { IsLoanChangedSoThat self.entry
            (StepAddsCondition family (InQuoted (is_negated polarity) (S.text field) (map T.text values.now)) self.old) result }
        ensures memory { FailsOnlyByMemory result }
    {
        let field = field.as_text(self.alloc)?;
        let values = Items { items: values };
        let text = in_quoted(self.alloc, polarity.is_negated(), field.as_str(), values)?;
        self.push_condition(family, text)?;
        Ok(Loan(self))
    }

    #[tactic(auto, using(crate::proofs::pieces::ClauseShapeLemmas::step_adds_condition))]
    pub(super) fn step_in_query<S: ToText, T: ToText>(
        &mut self,
        family: Family,
        polarity: Polarity,
        field: S,
        query: T,
    ) -> Result<Loan<'_, SqlBuilder>, SqlBuilderError>
        ensures* unchanged { sem 𝓛 (IsUnchangedIfLoanErr self.entry result) }
        ensures changed { IsLoanChangedSoThat self.entry
            (StepAddsCondition family (InQuery (is_negated polarity) (S.text field) (T.text query)) self.old) result }
        ensures memory { FailsOnlyByMemory result }
    {
        let field = field.as_text(self.alloc)?;
        let query = query.as_text(self.alloc)?;
        let text = in_query(
            self.alloc,
            polarity.is_negated(),
            field.as_str(),
            query.as_str(),
        )?;
        self.push_condition(family, text)?;
        Ok(Loan(self))
    }

    #[tactic(auto, using(crate::proofs::pieces::ClauseShapeLemmas::step_adds_condition))]
    pub(super) fn step_between<S: ToText, T: ToText, U: ToText>(
        &mut self,
        family: Family,
        polarity: Polarity,
        field: S,
        least: T,
        greatest: U,
    ) -> Result<Loan<'_, SqlBuilder>, SqlBuilderError>
        ensures* unchanged { sem 𝓛 (IsUnchangedIfLoanErr self.entry result) }
        ensures changed { IsLoanChangedSoThat self.entry
            (StepAddsCondition family (Between (is_negated polarity) (S.text field) (T.text least) (U.text greatest)) self.old) result }
        ensures memory { FailsOnlyByMemory result }
    {
        let field = field.as_text(self.alloc)?;
        let least = least.as_text(self.alloc)?;
        let greatest = greatest.as_text(self.alloc)?;
        let text = between(
            self.alloc,
            polarity.is_negated(),
            field.as_str(),
            least.as_str(),
            greatest.as_str(),
        )?;
        self.push_condition(family, text)?;
        Ok(Loan(self))
    }
}

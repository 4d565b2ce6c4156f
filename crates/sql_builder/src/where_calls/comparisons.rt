//! The condition calls that take a condition, or compare a field.
ghost use Rattle.sql_parts.specs.Error.{FailsOnlyByMemory};

use crate::builder::SqlBuilder;
use crate::condition::{Family, Relation};
use sql_parts::loan::release;
use sql_parts::{SqlBuilderError, ToText};

impl SqlBuilder {
    ghost use Rattle.std.specs.Borrow.{sem};
    ghost use Rattle.sql_builder.specs.Meaning.{AddsCondition};
    ghost use Rattle.sql_builder.specs.BuilderLoans.{IsUnchangedIfErr};
    ghost use Rattle.sql_parts.specs.Loans.{IsChangedSoThat};
    ghost use Rattle.sql_builder.specs.Condition.{Raw, Compare, IsNull, IsNotNull};
    ghost use Rattle.sql_builder.specs.declared.condition.Family.TheVariants.{And, Or};
    ghost use Rattle.sql_builder.specs.declared.condition.Relation.TheVariants.{Eq, Ne, Gt, Ge, Lt, Le};

    /// Adds the condition unchanged, in a group of its own. Fails only if memory runs out, and then
    /// leaves the builder unchanged.
    /// `SqlBuilder::select_from(alloc, "t")?.and_where("a")?.and_where("b")?.sql()?` gives
    /// `SELECT * FROM t WHERE (a) AND (b);`
    pub fn and_where<S: ToText>(&mut self, condition: S) -> Result<&mut Self, SqlBuilderError>
        ensures* unchanged { sem 𝓛 (IsUnchangedIfErr self.entry result) }
        ensures changed { IsChangedSoThat self.entry
            (AddsCondition And (Raw (S.text condition)) self.old) result }
        ensures memory { FailsOnlyByMemory result }
    {
        release(self.step_raw(Family::And, condition))
    }

    /// Adds `field IS NULL`, in a group of its own. Fails only if memory runs out, and then leaves
    /// the builder unchanged.
    /// `SqlBuilder::select_from(alloc, "t")?.and_where_is_null("a")?.sql()?` gives
    /// `SELECT * FROM t WHERE a IS NULL;`
    pub fn and_where_is_null<S: ToText>(&mut self, field: S) -> Result<&mut Self, SqlBuilderError>
        ensures* unchanged { sem 𝓛 (IsUnchangedIfErr self.entry result) }
        ensures changed { IsChangedSoThat self.entry
            (AddsCondition And (IsNull (S.text field)) self.old) result }
        ensures memory { FailsOnlyByMemory result }
    {
        release(self.step_is_null(Family::And, field))
    }

    /// Adds `field IS NOT NULL`, in a group of its own. Fails only if memory runs out, and then
    /// leaves the builder unchanged.
    /// `SqlBuilder::select_from(alloc, "t")?.and_where_is_not_null("a")?.sql()?` gives
    /// `SELECT * FROM t WHERE a IS NOT NULL;`
    pub fn and_where_is_not_null<S: ToText>(
        &mut self,
        field: S,
    ) -> Result<&mut Self, SqlBuilderError>
        ensures* unchanged { sem 𝓛 (IsUnchangedIfErr self.entry result) }
        ensures changed { IsChangedSoThat self.entry
            (AddsCondition And (IsNotNull (S.text field)) self.old) result }
        ensures memory { FailsOnlyByMemory result }
    {
        release(self.step_is_not_null(Family::And, field))
    }

    /// Adds `field = value`, in a group of its own. Fails only if memory runs out, and then leaves
    /// the builder unchanged.
    /// `SqlBuilder::select_from(alloc, "t")?.and_where_eq("a", 1)?.sql()?` gives
    /// `SELECT * FROM t WHERE a = 1;`
    pub fn and_where_eq<S: ToText, T: ToText>(
        &mut self,
        field: S,
        value: T,
    ) -> Result<&mut Self, SqlBuilderError>
        ensures* unchanged { sem 𝓛 (IsUnchangedIfErr self.entry result) }
        ensures changed { IsChangedSoThat self.entry
            (AddsCondition And (Compare Eq (S.text field) (T.text value)) self.old) result }
        ensures memory { FailsOnlyByMemory result }
    {
        release(self.step_compare(Family::And, Relation::Eq, field, value))
    }

    /// Adds `field <> value`, in a group of its own. Fails only if memory runs out, and then leaves
    /// the builder unchanged.
    /// `SqlBuilder::select_from(alloc, "t")?.and_where_ne("a", 1)?.sql()?` gives
    /// `SELECT * FROM t WHERE a <> 1;`
    pub fn and_where_ne<S: ToText, T: ToText>(
        &mut self,
        field: S,
        value: T,
    ) -> Result<&mut Self, SqlBuilderError>
        ensures* unchanged { sem 𝓛 (IsUnchangedIfErr self.entry result) }
        ensures changed { IsChangedSoThat self.entry
            (AddsCondition And (Compare Ne (S.text field) (T.text value)) self.old) result }
        ensures memory { FailsOnlyByMemory result }
    {
        release(self.step_compare(Family::And, Relation::Ne, field, value))
    }

    /// Adds `field > value`, in a group of its own. Fails only if memory runs out, and then leaves
    /// the builder unchanged.
    /// `SqlBuilder::select_from(alloc, "t")?.and_where_gt("a", 1)?.sql()?` gives
    /// `SELECT * FROM t WHERE a > 1;`
    pub fn and_where_gt<S: ToText, T: ToText>(
        &mut self,
        field: S,
        value: T,
    ) -> Result<&mut Self, SqlBuilderError>
        ensures* unchanged { sem 𝓛 (IsUnchangedIfErr self.entry result) }
        ensures changed { IsChangedSoThat self.entry
            (AddsCondition And (Compare Gt (S.text field) (T.text value)) self.old) result }
        ensures memory { FailsOnlyByMemory result }
    {
        release(self.step_compare(Family::And, Relation::Gt, field, value))
    }

    /// Adds `field >= value`, in a group of its own. Fails only if memory runs out, and then leaves
    /// the builder unchanged.
    /// `SqlBuilder::select_from(alloc, "t")?.and_where_ge("a", 1)?.sql()?` gives
    /// `SELECT * FROM t WHERE a >= 1;`
    pub fn and_where_ge<S: ToText, T: ToText>(
        &mut self,
        field: S,
        value: T,
    ) -> Result<&mut Self, SqlBuilderError>
        ensures* unchanged { sem 𝓛 (IsUnchangedIfErr self.entry result) }
        ensures changed { IsChangedSoThat self.entry
            (AddsCondition And (Compare Ge (S.text field) (T.text value)) self.old) result }
        ensures memory { FailsOnlyByMemory result }
    {
        release(self.step_compare(Family::And, Relation::Ge, field, value))
    }

    /// Adds `field < value`, in a group of its own. Fails only if memory runs out, and then leaves
    /// the builder unchanged.
    /// `SqlBuilder::select_from(alloc, "t")?.and_where_lt("a", 1)?.sql()?` gives
    /// `SELECT * FROM t WHERE a < 1;`
    pub fn and_where_lt<S: ToText, T: ToText>(
        &mut self,
        field: S,
        value: T,
    ) -> Result<&mut Self, SqlBuilderError>
        ensures* unchanged { sem 𝓛 (IsUnchangedIfErr self.entry result) }
        ensures changed { IsChangedSoThat self.entry
            (AddsCondition And (Compare Lt (S.text field) (T.text value)) self.old) result }
        ensures memory { FailsOnlyByMemory result }
    {
        release(self.step_compare(Family::And, Relation::Lt, field, value))
    }

    /// Adds `field <= value`, in a group of its own. Fails only if memory runs out, and then leaves
    /// the builder unchanged.
    /// `SqlBuilder::select_from(alloc, "t")?.and_where_le("a", 1)?.sql()?` gives
    /// `SELECT * FROM t WHERE a <= 1;`
    pub fn and_where_le<S: ToText, T: ToText>(
        &mut self,
        field: S,
        value: T,
    ) -> Result<&mut Self, SqlBuilderError>
        ensures* unchanged { sem 𝓛 (IsUnchangedIfErr self.entry result) }
        ensures changed { IsChangedSoThat self.entry
            (AddsCondition And (Compare Le (S.text field) (T.text value)) self.old) result }
        ensures memory { FailsOnlyByMemory result }
    {
        release(self.step_compare(Family::And, Relation::Le, field, value))
    }

    /// Adds the condition unchanged. It joins the last group by OR, or opens one if there is none.
    /// Fails only if memory runs out, and then leaves the builder unchanged.
    /// `SqlBuilder::select_from(alloc, "t")?.and_where("a")?.or_where("b")?.sql()?` gives
    /// `SELECT * FROM t WHERE a OR b;`
    pub fn or_where<S: ToText>(&mut self, condition: S) -> Result<&mut Self, SqlBuilderError>
        ensures* unchanged { sem 𝓛 (IsUnchangedIfErr self.entry result) }
        ensures changed { IsChangedSoThat self.entry
            (AddsCondition Or (Raw (S.text condition)) self.old) result }
        ensures memory { FailsOnlyByMemory result }
    {
        release(self.step_raw(Family::Or, condition))
    }

    /// Adds `field IS NULL`. It joins the last group by OR, or opens one if there is none. Fails
    /// only if memory runs out, and then leaves the builder unchanged.
    /// `SqlBuilder::select_from(alloc, "t")?.and_where("b")?.or_where_is_null("a")?.sql()?` gives
    /// `SELECT * FROM t WHERE b OR a IS NULL;`
    pub fn or_where_is_null<S: ToText>(&mut self, field: S) -> Result<&mut Self, SqlBuilderError>
        ensures* unchanged { sem 𝓛 (IsUnchangedIfErr self.entry result) }
        ensures changed { IsChangedSoThat self.entry
            (AddsCondition Or (IsNull (S.text field)) self.old) result }
        ensures memory { FailsOnlyByMemory result }
    {
        release(self.step_is_null(Family::Or, field))
    }

    /// Adds `field IS NOT NULL`. It joins the last group by OR, or opens one if there is none.
    /// Fails only if memory runs out, and then leaves the builder unchanged.
    /// `SqlBuilder::select_from(alloc, "t")?.and_where("b")?.or_where_is_not_null("a")?.sql()?`
    /// gives `SELECT * FROM t WHERE b OR a IS NOT NULL;`
    pub fn or_where_is_not_null<S: ToText>(
        &mut self,
        field: S,
    ) -> Result<&mut Self, SqlBuilderError>
        ensures* unchanged { sem 𝓛 (IsUnchangedIfErr self.entry result) }
        ensures changed { IsChangedSoThat self.entry
            (AddsCondition Or (IsNotNull (S.text field)) self.old) result }
        ensures memory { FailsOnlyByMemory result }
    {
        release(self.step_is_not_null(Family::Or, field))
    }

    /// Adds `field = value`. It joins the last group by OR, or opens one if there is none. Fails
    /// only if memory runs out, and then leaves the builder unchanged.
    /// `SqlBuilder::select_from(alloc, "t")?.and_where("b")?.or_where_eq("a", 1)?.sql()?` gives
    /// `SELECT * FROM t WHERE b OR a = 1;`
    pub fn or_where_eq<S: ToText, T: ToText>(
        &mut self,
        field: S,
        value: T,
    ) -> Result<&mut Self, SqlBuilderError>
        ensures* unchanged { sem 𝓛 (IsUnchangedIfErr self.entry result) }
        ensures changed { IsChangedSoThat self.entry
            (AddsCondition Or (Compare Eq (S.text field) (T.text value)) self.old) result }
        ensures memory { FailsOnlyByMemory result }
    {
        release(self.step_compare(Family::Or, Relation::Eq, field, value))
    }

    /// Adds `field <> value`. It joins the last group by OR, or opens one if there is none. Fails
    /// only if memory runs out, and then leaves the builder unchanged.
    /// `SqlBuilder::select_from(alloc, "t")?.and_where("b")?.or_where_ne("a", 1)?.sql()?` gives
    /// `SELECT * FROM t WHERE b OR a <> 1;`
    pub fn or_where_ne<S: ToText, T: ToText>(
        &mut self,
        field: S,
        value: T,
    ) -> Result<&mut Self, SqlBuilderError>
        ensures* unchanged { sem 𝓛 (IsUnchangedIfErr self.entry result) }
        ensures changed { IsChangedSoThat self.entry
            (AddsCondition Or (Compare Ne (S.text field) (T.text value)) self.old) result }
        ensures memory { FailsOnlyByMemory result }
    {
        release(self.step_compare(Family::Or, Relation::Ne, field, value))
    }

    /// Adds `field > value`. It joins the last group by OR, or opens one if there is none. Fails
    /// only if memory runs out, and then leaves the builder unchanged.
    /// `SqlBuilder::select_from(alloc, "t")?.and_where("b")?.or_where_gt("a", 1)?.sql()?` gives
    /// `SELECT * FROM t WHERE b OR a > 1;`
    pub fn or_where_gt<S: ToText, T: ToText>(
        &mut self,
        field: S,
        value: T,
    ) -> Result<&mut Self, SqlBuilderError>
        ensures* unchanged { sem 𝓛 (IsUnchangedIfErr self.entry result) }
        ensures changed { IsChangedSoThat self.entry
            (AddsCondition Or (Compare Gt (S.text field) (T.text value)) self.old) result }
        ensures memory { FailsOnlyByMemory result }
    {
        release(self.step_compare(Family::Or, Relation::Gt, field, value))
    }

    /// Adds `field >= value`. It joins the last group by OR, or opens one if there is none. Fails
    /// only if memory runs out, and then leaves the builder unchanged.
    /// `SqlBuilder::select_from(alloc, "t")?.and_where("b")?.or_where_ge("a", 1)?.sql()?` gives
    /// `SELECT * FROM t WHERE b OR a >= 1;`
    pub fn or_where_ge<S: ToText, T: ToText>(
        &mut self,
        field: S,
        value: T,
    ) -> Result<&mut Self, SqlBuilderError>
        ensures* unchanged { sem 𝓛 (IsUnchangedIfErr self.entry result) }
        ensures changed { IsChangedSoThat self.entry
            (AddsCondition Or (Compare Ge (S.text field) (T.text value)) self.old) result }
        ensures memory { FailsOnlyByMemory result }
    {
        release(self.step_compare(Family::Or, Relation::Ge, field, value))
    }

    /// Adds `field < value`. It joins the last group by OR, or opens one if there is none. Fails
    /// only if memory runs out, and then leaves the builder unchanged.
    /// `SqlBuilder::select_from(alloc, "t")?.and_where("b")?.or_where_lt("a", 1)?.sql()?` gives
    /// `SELECT * FROM t WHERE b OR a < 1;`
    pub fn or_where_lt<S: ToText, T: ToText>(
        &mut self,
        field: S,
        value: T,
    ) -> Result<&mut Self, SqlBuilderError>
        ensures* unchanged { sem 𝓛 (IsUnchangedIfErr self.entry result) }
        ensures changed { IsChangedSoThat self.entry
            (AddsCondition Or (Compare Lt (S.text field) (T.text value)) self.old) result }
        ensures memory { FailsOnlyByMemory result }
    {
        release(self.step_compare(Family::Or, Relation::Lt, field, value))
    }

    /// Adds `field <= value`. It joins the last group by OR, or opens one if there is none. Fails
    /// only if memory runs out, and then leaves the builder unchanged.
    /// `SqlBuilder::select_from(alloc, "t")?.and_where("b")?.or_where_le("a", 1)?.sql()?` gives
    /// `SELECT * FROM t WHERE b OR a <= 1;`
    pub fn or_where_le<S: ToText, T: ToText>(
        &mut self,
        field: S,
        value: T,
    ) -> Result<&mut Self, SqlBuilderError>
        ensures* unchanged { sem 𝓛 (IsUnchangedIfErr self.entry result) }
        ensures changed { IsChangedSoThat self.entry
            (AddsCondition Or (Compare Le (S.text field) (T.text value)) self.old) result }
        ensures memory { FailsOnlyByMemory result }
    {
        release(self.step_compare(Family::Or, Relation::Le, field, value))
    }
}

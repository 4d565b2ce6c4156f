//! The condition calls by LIKE.
ghost use Rattle.std.specs.Prelude.{false, true};
ghost use Rattle.sql_parts.specs.Error.{FailsOnlyByMemory};

use crate::builder::SqlBuilder;
use crate::condition::{Family, Percent};
use sql_parts::loan::release;
use sql_parts::{SqlBuilderError, ToText};

impl SqlBuilder {
    ghost use Rattle.std.specs.Borrow.{sem};
    ghost use Rattle.sql_builder.specs.Meaning.{AddsCondition};
    ghost use Rattle.sql_builder.specs.BuilderLoans.{IsUnchangedIfErr};
    ghost use Rattle.sql_parts.specs.Loans.{IsChangedSoThat};
    ghost use Rattle.sql_builder.specs.Condition.{Like};
    ghost use Rattle.sql_builder.specs.declared.condition.Family.TheVariants.{And, Or};
    ghost use Rattle.sql_builder.specs.declared.condition.Percent.TheVariants.{Plain, Right, Left, Any};

    /// Adds `field LIKE 'mask'`, with `'mask'` as `quote` writes it, in a group of its own. Fails
    /// only if memory runs out, and then leaves the builder unchanged.
    /// `SqlBuilder::select_from(alloc, "t")?.and_where_like("a", "it's")?.sql()?` gives
    /// `SELECT * FROM t WHERE a LIKE 'it''s';`
    pub fn and_where_like<S: ToText, T: ToText>(
        &mut self,
        field: S,
        mask: T,
    ) -> Result<&mut Self, SqlBuilderError>
        ensures* unchanged { sem 𝓛 (IsUnchangedIfErr self.entry result) }
        ensures changed { IsChangedSoThat self.entry
            (AddsCondition And (Like false Plain (S.text field) (T.text mask)) self.old) result }
        ensures memory { FailsOnlyByMemory result }
    {
        release(self.step_like(Family::And, Percent::Plain, field, mask))
    }

    /// Adds `field LIKE '%mask'`, with `'%mask'` as `quote` writes it, in a group of its own. Fails
    /// only if memory runs out, and then leaves the builder unchanged.
    /// `SqlBuilder::select_from(alloc, "t")?.and_where_like_right("a", "it's")?.sql()?` gives
    /// `SELECT * FROM t WHERE a LIKE '%it''s';`
    pub fn and_where_like_right<S: ToText, T: ToText>(
        &mut self,
        field: S,
        mask: T,
    ) -> Result<&mut Self, SqlBuilderError>
        ensures* unchanged { sem 𝓛 (IsUnchangedIfErr self.entry result) }
        ensures changed { IsChangedSoThat self.entry
            (AddsCondition And (Like false Right (S.text field) (T.text mask)) self.old) result }
        ensures memory { FailsOnlyByMemory result }
    {
        release(self.step_like(Family::And, Percent::Right, field, mask))
    }

    /// Adds `field LIKE 'mask%'`, with `'mask%'` as `quote` writes it, in a group of its own. Fails
    /// only if memory runs out, and then leaves the builder unchanged.
    /// `SqlBuilder::select_from(alloc, "t")?.and_where_like_left("a", "it's")?.sql()?` gives
    /// `SELECT * FROM t WHERE a LIKE 'it''s%';`
    pub fn and_where_like_left<S: ToText, T: ToText>(
        &mut self,
        field: S,
        mask: T,
    ) -> Result<&mut Self, SqlBuilderError>
        ensures* unchanged { sem 𝓛 (IsUnchangedIfErr self.entry result) }
        ensures changed { IsChangedSoThat self.entry
            (AddsCondition And (Like false Left (S.text field) (T.text mask)) self.old) result }
        ensures memory { FailsOnlyByMemory result }
    {
        release(self.step_like(Family::And, Percent::Left, field, mask))
    }

    /// Adds `field LIKE '%mask%'`, with `'%mask%'` as `quote` writes it, in a group of its own.
    /// Fails only if memory runs out, and then leaves the builder unchanged.
    /// `SqlBuilder::select_from(alloc, "t")?.and_where_like_any("a", "it's")?.sql()?` gives
    /// `SELECT * FROM t WHERE a LIKE '%it''s%';`
    pub fn and_where_like_any<S: ToText, T: ToText>(
        &mut self,
        field: S,
        mask: T,
    ) -> Result<&mut Self, SqlBuilderError>
        ensures* unchanged { sem 𝓛 (IsUnchangedIfErr self.entry result) }
        ensures changed { IsChangedSoThat self.entry
            (AddsCondition And (Like false Any (S.text field) (T.text mask)) self.old) result }
        ensures memory { FailsOnlyByMemory result }
    {
        release(self.step_like(Family::And, Percent::Any, field, mask))
    }

    /// Adds `field NOT LIKE 'mask'`, with `'mask'` as `quote` writes it, in a group of its own.
    /// Fails only if memory runs out, and then leaves the builder unchanged.
    /// `SqlBuilder::select_from(alloc, "t")?.and_where_not_like("a", "it's")?.sql()?` gives
    /// `SELECT * FROM t WHERE a NOT LIKE 'it''s';`
    pub fn and_where_not_like<S: ToText, T: ToText>(
        &mut self,
        field: S,
        mask: T,
    ) -> Result<&mut Self, SqlBuilderError>
        ensures* unchanged { sem 𝓛 (IsUnchangedIfErr self.entry result) }
        ensures changed { IsChangedSoThat self.entry
            (AddsCondition And (Like true Plain (S.text field) (T.text mask)) self.old) result }
        ensures memory { FailsOnlyByMemory result }
    {
        release(self.step_not_like(Family::And, Percent::Plain, field, mask))
    }

    /// Adds `field NOT LIKE '%mask'`, with `'%mask'` as `quote` writes it, in a group of its own.
    /// Fails only if memory runs out, and then leaves the builder unchanged.
    /// `SqlBuilder::select_from(alloc, "t")?.and_where_not_like_right("a", "it's")?.sql()?` gives
    /// `SELECT * FROM t WHERE a NOT LIKE '%it''s';`
    pub fn and_where_not_like_right<S: ToText, T: ToText>(
        &mut self,
        field: S,
        mask: T,
    ) -> Result<&mut Self, SqlBuilderError>
        ensures* unchanged { sem 𝓛 (IsUnchangedIfErr self.entry result) }
        ensures changed { IsChangedSoThat self.entry
            (AddsCondition And (Like true Right (S.text field) (T.text mask)) self.old) result }
        ensures memory { FailsOnlyByMemory result }
    {
        release(self.step_not_like(Family::And, Percent::Right, field, mask))
    }

    /// Adds `field NOT LIKE 'mask%'`, with `'mask%'` as `quote` writes it, in a group of its own.
    /// Fails only if memory runs out, and then leaves the builder unchanged.
    /// `SqlBuilder::select_from(alloc, "t")?.and_where_not_like_left("a", "it's")?.sql()?` gives
    /// `SELECT * FROM t WHERE a NOT LIKE 'it''s%';`
    pub fn and_where_not_like_left<S: ToText, T: ToText>(
        &mut self,
        field: S,
        mask: T,
    ) -> Result<&mut Self, SqlBuilderError>
        ensures* unchanged { sem 𝓛 (IsUnchangedIfErr self.entry result) }
        ensures changed { IsChangedSoThat self.entry
            (AddsCondition And (Like true Left (S.text field) (T.text mask)) self.old) result }
        ensures memory { FailsOnlyByMemory result }
    {
        release(self.step_not_like(Family::And, Percent::Left, field, mask))
    }

    /// Adds `field NOT LIKE '%mask%'`, with `'%mask%'` as `quote` writes it, in a group of its own.
    /// Fails only if memory runs out, and then leaves the builder unchanged.
    /// `SqlBuilder::select_from(alloc, "t")?.and_where_not_like_any("a", "it's")?.sql()?` gives
    /// `SELECT * FROM t WHERE a NOT LIKE '%it''s%';`
    pub fn and_where_not_like_any<S: ToText, T: ToText>(
        &mut self,
        field: S,
        mask: T,
    ) -> Result<&mut Self, SqlBuilderError>
        ensures* unchanged { sem 𝓛 (IsUnchangedIfErr self.entry result) }
        ensures changed { IsChangedSoThat self.entry
            (AddsCondition And (Like true Any (S.text field) (T.text mask)) self.old) result }
        ensures memory { FailsOnlyByMemory result }
    {
        release(self.step_not_like(Family::And, Percent::Any, field, mask))
    }

    /// Adds `field LIKE 'mask'`, with `'mask'` as `quote` writes it. It joins the last group by OR,
    /// or opens one if there is none. Fails only if memory runs out, and then leaves the builder
    /// unchanged.
    /// `SqlBuilder::select_from(alloc, "t")?.and_where("b")?.or_where_like("a", "it's")?.sql()?`
    /// gives `SELECT * FROM t WHERE b OR a LIKE 'it''s';`
    pub fn or_where_like<S: ToText, T: ToText>(
        &mut self,
        field: S,
        mask: T,
    ) -> Result<&mut Self, SqlBuilderError>
        ensures* unchanged { sem 𝓛 (IsUnchangedIfErr self.entry result) }
        ensures changed { IsChangedSoThat self.entry
            (AddsCondition Or (Like false Plain (S.text field) (T.text mask)) self.old) result }
        ensures memory { FailsOnlyByMemory result }
    {
        release(self.step_like(Family::Or, Percent::Plain, field, mask))
    }

    /// Adds `field LIKE '%mask'`, with `'%mask'` as `quote` writes it. It joins the last group by
    /// OR, or opens one if there is none. Fails only if memory runs out, and then leaves the
    /// builder unchanged.
    /// `SqlBuilder::select_from(alloc, "t")?.and_where("b")?.or_where_like_right("a", "it's")?.sql()?` gives
    /// `SELECT * FROM t WHERE b OR a LIKE '%it''s';`
    pub fn or_where_like_right<S: ToText, T: ToText>(
        &mut self,
        field: S,
        mask: T,
    ) -> Result<&mut Self, SqlBuilderError>
        ensures* unchanged { sem 𝓛 (IsUnchangedIfErr self.entry result) }
        ensures changed { IsChangedSoThat self.entry
            (AddsCondition Or (Like false Right (S.text field) (T.text mask)) self.old) result }
        ensures memory { FailsOnlyByMemory result }
    {
        release(self.step_like(Family::Or, Percent::Right, field, mask))
    }

    /// Adds `field LIKE 'mask%'`, with `'mask%'` as `quote` writes it. It joins the last group by
    /// OR, or opens one if there is none. Fails only if memory runs out, and then leaves the
    /// builder unchanged.
    /// `SqlBuilder::select_from(alloc, "t")?.and_where("b")?.or_where_like_left("a", "it's")?.sql()?` gives
    /// `SELECT * FROM t WHERE b OR a LIKE 'it''s%';`
    pub fn or_where_like_left<S: ToText, T: ToText>(
        &mut self,
        field: S,
        mask: T,
    ) -> Result<&mut Self, SqlBuilderError>
        ensures* unchanged { sem 𝓛 (IsUnchangedIfErr self.entry result) }
        ensures changed { IsChangedSoThat self.entry
            (AddsCondition Or (Like false Left (S.text field) (T.text mask)) self.old) result }
        ensures memory { FailsOnlyByMemory result }
    {
        release(self.step_like(Family::Or, Percent::Left, field, mask))
    }

    /// Adds `field LIKE '%mask%'`, with `'%mask%'` as `quote` writes it. It joins the last group by
    /// OR, or opens one if there is none. Fails only if memory runs out, and then leaves the
    /// builder unchanged.
    /// `SqlBuilder::select_from(alloc, "t")?.and_where("b")?.or_where_like_any("a", "it's")?.sql()?` gives
    /// `SELECT * FROM t WHERE b OR a LIKE '%it''s%';`
    pub fn or_where_like_any<S: ToText, T: ToText>(
        &mut self,
        field: S,
        mask: T,
    ) -> Result<&mut Self, SqlBuilderError>
        ensures* unchanged { sem 𝓛 (IsUnchangedIfErr self.entry result) }
        ensures changed { IsChangedSoThat self.entry
            (AddsCondition Or (Like false Any (S.text field) (T.text mask)) self.old) result }
        ensures memory { FailsOnlyByMemory result }
    {
        release(self.step_like(Family::Or, Percent::Any, field, mask))
    }

    /// Adds `field NOT LIKE 'mask'`, with `'mask'` as `quote` writes it. It joins the last group by
    /// OR, or opens one if there is none. Fails only if memory runs out, and then leaves the
    /// builder unchanged.
    /// `SqlBuilder::select_from(alloc, "t")?.and_where("b")?.or_where_not_like("a", "it's")?.sql()?` gives
    /// `SELECT * FROM t WHERE b OR a NOT LIKE 'it''s';`
    pub fn or_where_not_like<S: ToText, T: ToText>(
        &mut self,
        field: S,
        mask: T,
    ) -> Result<&mut Self, SqlBuilderError>
        ensures* unchanged { sem 𝓛 (IsUnchangedIfErr self.entry result) }
        ensures changed { IsChangedSoThat self.entry
            (AddsCondition Or (Like true Plain (S.text field) (T.text mask)) self.old) result }
        ensures memory { FailsOnlyByMemory result }
    {
        release(self.step_not_like(Family::Or, Percent::Plain, field, mask))
    }

    /// Adds `field NOT LIKE '%mask'`, with `'%mask'` as `quote` writes it. It joins the last group
    /// by OR, or opens one if there is none. Fails only if memory runs out, and then leaves the
    /// builder unchanged.
    /// `SqlBuilder::select_from(alloc, "t")?.and_where("b")?.or_where_not_like_right("a", "it's")?.sql()?` gives
    /// `SELECT * FROM t WHERE b OR a NOT LIKE '%it''s';`
    pub fn or_where_not_like_right<S: ToText, T: ToText>(
        &mut self,
        field: S,
        mask: T,
    ) -> Result<&mut Self, SqlBuilderError>
        ensures* unchanged { sem 𝓛 (IsUnchangedIfErr self.entry result) }
        ensures changed { IsChangedSoThat self.entry
            (AddsCondition Or (Like true Right (S.text field) (T.text mask)) self.old) result }
        ensures memory { FailsOnlyByMemory result }
    {
        release(self.step_not_like(Family::Or, Percent::Right, field, mask))
    }

    /// Adds `field NOT LIKE 'mask%'`, with `'mask%'` as `quote` writes it. It joins the last group
    /// by OR, or opens one if there is none. Fails only if memory runs out, and then leaves the
    /// builder unchanged.
    /// `SqlBuilder::select_from(alloc, "t")?.and_where("b")?.or_where_not_like_left("a", "it's")?.sql()?` gives
    /// `SELECT * FROM t WHERE b OR a NOT LIKE 'it''s%';`
    pub fn or_where_not_like_left<S: ToText, T: ToText>(
        &mut self,
        field: S,
        mask: T,
    ) -> Result<&mut Self, SqlBuilderError>
        ensures* unchanged { sem 𝓛 (IsUnchangedIfErr self.entry result) }
        ensures changed { IsChangedSoThat self.entry
            (AddsCondition Or (Like true Left (S.text field) (T.text mask)) self.old) result }
        ensures memory { FailsOnlyByMemory result }
    {
        release(self.step_not_like(Family::Or, Percent::Left, field, mask))
    }

    /// Adds `field NOT LIKE '%mask%'`, with `'%mask%'` as `quote` writes it. It joins the last
    /// group by OR, or opens one if there is none. Fails only if memory runs out, and then leaves
    /// the builder unchanged.
    /// `SqlBuilder::select_from(alloc, "t")?.and_where("b")?.or_where_not_like_any("a", "it's")?.sql()?` gives
    /// `SELECT * FROM t WHERE b OR a NOT LIKE '%it''s%';`
    pub fn or_where_not_like_any<S: ToText, T: ToText>(
        &mut self,
        field: S,
        mask: T,
    ) -> Result<&mut Self, SqlBuilderError>
        ensures* unchanged { sem 𝓛 (IsUnchangedIfErr self.entry result) }
        ensures changed { IsChangedSoThat self.entry
            (AddsCondition Or (Like true Any (S.text field) (T.text mask)) self.old) result }
        ensures memory { FailsOnlyByMemory result }
    {
        release(self.step_not_like(Family::Or, Percent::Any, field, mask))
    }
}

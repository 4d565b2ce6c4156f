//! The condition calls by IN and BETWEEN.
ghost use Rattle.std.specs.Prelude.{false, map, true};
ghost use Rattle.sql_parts.specs.Error.{FailsOnlyByMemory};

use crate::builder::SqlBuilder;
use crate::condition::Family;
use crate::where_calls::Polarity;
use sql_parts::loan::release;
use sql_parts::{SqlBuilderError, ToText};

impl SqlBuilder {
    ghost use Rattle.std.specs.Borrow.{sem};
    ghost use Rattle.sql_builder.specs.Meaning.{AddsCondition};
    ghost use Rattle.sql_builder.specs.BuilderLoans.{IsUnchangedIfErr};
    ghost use Rattle.sql_parts.specs.Loans.{IsChangedSoThat};
    ghost use Rattle.sql_builder.specs.Condition.{InList, InQuoted, InQuery, Between};
    ghost use Rattle.sql_builder.specs.declared.condition.Family.TheVariants.{And, Or};

    /// Adds `field IN (..)` of these values, in a group of its own. Fails only if memory runs out,
    /// and then leaves the builder unchanged.
    /// `SqlBuilder::select_from(alloc, "t")?.and_where_in("a", &[1, 2])?.sql()?` gives
    /// `SELECT * FROM t WHERE a IN (1, 2);`
    pub fn and_where_in<S: ToText, T: ToText>(
        &mut self,
        field: S,
        values: &[T],
    ) -> Result<&mut Self, SqlBuilderError>
        ensures* unchanged { sem 𝓛 (IsUnchangedIfErr self.entry result) }
        ensures changed { IsChangedSoThat self.entry
            (AddsCondition And
            (InList false (S.text field) (map T.text values.now)) self.old) result }
        ensures memory { FailsOnlyByMemory result }
    {
        release(self.step_in_list(Family::And, Polarity::Plain, field, values))
    }

    /// Adds `field IN (..)` of these values, each as `quote` writes it, in a group of its own.
    /// Fails only if memory runs out, and then leaves the builder unchanged.
    /// `SqlBuilder::select_from(alloc, "t")?.and_where_in_quoted("a", &["b", "it's"])?.sql()?`
    /// gives `SELECT * FROM t WHERE a IN ('b', 'it''s');`
    pub fn and_where_in_quoted<S: ToText, T: ToText>(
        &mut self,
        field: S,
        values: &[T],
    ) -> Result<&mut Self, SqlBuilderError>
        ensures* unchanged { sem 𝓛 (IsUnchangedIfErr self.entry result) }
        ensures changed { IsChangedSoThat self.entry
            (AddsCondition And
            (InQuoted false (S.text field) (map T.text values.now)) self.old) result }
        ensures memory { FailsOnlyByMemory result }
    {
        release(self.step_in_quoted(Family::And, Polarity::Plain, field, values))
    }

    /// Adds `field IN (query)`, in a group of its own. Fails only if memory runs out, and then
    /// leaves the builder unchanged.
    /// `SqlBuilder::select_from(alloc, "t")?.and_where_in_query("a", "SELECT 1")?.sql()?` gives
    /// `SELECT * FROM t WHERE a IN (SELECT 1);`
    pub fn and_where_in_query<S: ToText, T: ToText>(
        &mut self,
        field: S,
        query: T,
    ) -> Result<&mut Self, SqlBuilderError>
        ensures* unchanged { sem 𝓛 (IsUnchangedIfErr self.entry result) }
        ensures changed { IsChangedSoThat self.entry
            (AddsCondition And (InQuery false (S.text field) (T.text query)) self.old) result }
        ensures memory { FailsOnlyByMemory result }
    {
        release(self.step_in_query(Family::And, Polarity::Plain, field, query))
    }

    /// Adds `field BETWEEN least AND greatest`, in a group of its own. Fails only if memory runs
    /// out, and then leaves the builder unchanged.
    /// `SqlBuilder::select_from(alloc, "t")?.and_where_between("a", 1, 2)?.sql()?` gives
    /// `SELECT * FROM t WHERE a BETWEEN 1 AND 2;`
    pub fn and_where_between<S: ToText, T: ToText, U: ToText>(
        &mut self,
        field: S,
        least: T,
        greatest: U,
    ) -> Result<&mut Self, SqlBuilderError>
        ensures* unchanged { sem 𝓛 (IsUnchangedIfErr self.entry result) }
        ensures changed { IsChangedSoThat self.entry
            (AddsCondition And
            (Between false (S.text field) (T.text least) (U.text greatest)) self.old) result }
        ensures memory { FailsOnlyByMemory result }
    {
        release(self.step_between(Family::And, Polarity::Plain, field, least, greatest))
    }

    /// Adds `field NOT IN (..)` of these values, in a group of its own. Fails only if memory runs
    /// out, and then leaves the builder unchanged.
    /// `SqlBuilder::select_from(alloc, "t")?.and_where_not_in("a", &[1, 2])?.sql()?` gives
    /// `SELECT * FROM t WHERE a NOT IN (1, 2);`
    pub fn and_where_not_in<S: ToText, T: ToText>(
        &mut self,
        field: S,
        values: &[T],
    ) -> Result<&mut Self, SqlBuilderError>
        ensures* unchanged { sem 𝓛 (IsUnchangedIfErr self.entry result) }
        ensures changed { IsChangedSoThat self.entry
            (AddsCondition And
            (InList true (S.text field) (map T.text values.now)) self.old) result }
        ensures memory { FailsOnlyByMemory result }
    {
        release(self.step_in_list(Family::And, Polarity::Negated, field, values))
    }

    /// Adds `field NOT IN (..)` of these values, each as `quote` writes it, in a group of its own.
    /// Fails only if memory runs out, and then leaves the builder unchanged.
    /// `SqlBuilder::select_from(alloc, "t")?.and_where_not_in_quoted("a", &["b", "it's"])?.sql()?`
    /// gives `SELECT * FROM t WHERE a NOT IN ('b', 'it''s');`
    pub fn and_where_not_in_quoted<S: ToText, T: ToText>(
        &mut self,
        field: S,
        values: &[T],
    ) -> Result<&mut Self, SqlBuilderError>
        ensures* unchanged { sem 𝓛 (IsUnchangedIfErr self.entry result) }
        ensures changed { IsChangedSoThat self.entry
            (AddsCondition And
            (InQuoted true (S.text field) (map T.text values.now)) self.old) result }
        ensures memory { FailsOnlyByMemory result }
    {
        release(self.step_in_quoted(Family::And, Polarity::Negated, field, values))
    }

    /// Adds `field NOT IN (query)`, in a group of its own. Fails only if memory runs out, and then
    /// leaves the builder unchanged.
    /// `SqlBuilder::select_from(alloc, "t")?.and_where_not_in_query("a", "SELECT 1")?.sql()?` gives
    /// `SELECT * FROM t WHERE a NOT IN (SELECT 1);`
    pub fn and_where_not_in_query<S: ToText, T: ToText>(
        &mut self,
        field: S,
        query: T,
    ) -> Result<&mut Self, SqlBuilderError>
        ensures* unchanged { sem 𝓛 (IsUnchangedIfErr self.entry result) }
        ensures changed { IsChangedSoThat self.entry
            (AddsCondition And (InQuery true (S.text field) (T.text query)) self.old) result }
        ensures memory { FailsOnlyByMemory result }
    {
        release(self.step_in_query(Family::And, Polarity::Negated, field, query))
    }

    /// Adds `field NOT BETWEEN least AND greatest`, in a group of its own. Fails only if memory
    /// runs out, and then leaves the builder unchanged.
    /// `SqlBuilder::select_from(alloc, "t")?.and_where_not_between("a", 1, 2)?.sql()?` gives
    /// `SELECT * FROM t WHERE a NOT BETWEEN 1 AND 2;`
    pub fn and_where_not_between<S: ToText, T: ToText, U: ToText>(
        &mut self,
        field: S,
        least: T,
        greatest: U,
    ) -> Result<&mut Self, SqlBuilderError>
        ensures* unchanged { sem 𝓛 (IsUnchangedIfErr self.entry result) }
        ensures changed { IsChangedSoThat self.entry
            (AddsCondition And
            (Between true (S.text field) (T.text least) (U.text greatest)) self.old) result }
        ensures memory { FailsOnlyByMemory result }
    {
        release(self.step_between(Family::And, Polarity::Negated, field, least, greatest))
    }

    /// Adds `field IN (..)` of these values. It joins the last group by OR, or opens one if there
    /// is none. Fails only if memory runs out, and then leaves the builder unchanged.
    /// `SqlBuilder::select_from(alloc, "t")?.and_where("b")?.or_where_in("a", &[1, 2])?.sql()?`
    /// gives `SELECT * FROM t WHERE b OR a IN (1, 2);`
    pub fn or_where_in<S: ToText, T: ToText>(
        &mut self,
        field: S,
        values: &[T],
    ) -> Result<&mut Self, SqlBuilderError>
        ensures* unchanged { sem 𝓛 (IsUnchangedIfErr self.entry result) }
        ensures changed { IsChangedSoThat self.entry
            (AddsCondition Or
            (InList false (S.text field) (map T.text values.now)) self.old) result }
        ensures memory { FailsOnlyByMemory result }
    {
        release(self.step_in_list(Family::Or, Polarity::Plain, field, values))
    }

    /// Adds `field IN (..)` of these values, each as `quote` writes it. It joins the last group by
    /// OR, or opens one if there is none. Fails only if memory runs out, and then leaves the
    /// builder unchanged.
    /// `SqlBuilder::select_from(alloc, "t")?.and_where("b")?.or_where_in_quoted("a", &["b", "it's"])?.sql()?` gives
    /// `SELECT * FROM t WHERE b OR a IN ('b', 'it''s');`
    pub fn or_where_in_quoted<S: ToText, T: ToText>(
        &mut self,
        field: S,
        values: &[T],
    ) -> Result<&mut Self, SqlBuilderError>
        ensures* unchanged { sem 𝓛 (IsUnchangedIfErr self.entry result) }
        ensures changed { IsChangedSoThat self.entry
            (AddsCondition Or
            (InQuoted false (S.text field) (map T.text values.now)) self.old) result }
        ensures memory { FailsOnlyByMemory result }
    {
        release(self.step_in_quoted(Family::Or, Polarity::Plain, field, values))
    }

    /// Adds `field IN (query)`. It joins the last group by OR, or opens one if there is none. Fails
    /// only if memory runs out, and then leaves the builder unchanged.
    /// `SqlBuilder::select_from(alloc, "t")?.and_where("b")?.or_where_in_query("a", "SELECT 1")?.sql()?` gives
    /// `SELECT * FROM t WHERE b OR a IN (SELECT 1);`
    pub fn or_where_in_query<S: ToText, T: ToText>(
        &mut self,
        field: S,
        query: T,
    ) -> Result<&mut Self, SqlBuilderError>
        ensures* unchanged { sem 𝓛 (IsUnchangedIfErr self.entry result) }
        ensures changed { IsChangedSoThat self.entry
            (AddsCondition Or (InQuery false (S.text field) (T.text query)) self.old) result }
        ensures memory { FailsOnlyByMemory result }
    {
        release(self.step_in_query(Family::Or, Polarity::Plain, field, query))
    }

    /// Adds `field BETWEEN least AND greatest`. It joins the last group by OR, or opens one if
    /// there is none. Fails only if memory runs out, and then leaves the builder unchanged.
    /// `SqlBuilder::select_from(alloc, "t")?.and_where("b")?.or_where_between("a", 1, 2)?.sql()?`
    /// gives `SELECT * FROM t WHERE b OR a BETWEEN 1 AND 2;`
    pub fn or_where_between<S: ToText, T: ToText, U: ToText>(
        &mut self,
        field: S,
        least: T,
        greatest: U,
    ) -> Result<&mut Self, SqlBuilderError>
        ensures* unchanged { sem 𝓛 (IsUnchangedIfErr self.entry result) }
        ensures changed { IsChangedSoThat self.entry
            (AddsCondition Or
            (Between false (S.text field) (T.text least) (U.text greatest)) self.old) result }
        ensures memory { FailsOnlyByMemory result }
    {
        release(self.step_between(Family::Or, Polarity::Plain, field, least, greatest))
    }

    /// Adds `field NOT IN (..)` of these values. It joins the last group by OR, or opens one if
    /// there is none. Fails only if memory runs out, and then leaves the builder unchanged.
    /// `SqlBuilder::select_from(alloc, "t")?.and_where("b")?.or_where_not_in("a", &[1, 2])?.sql()?`
    /// gives `SELECT * FROM t WHERE b OR a NOT IN (1, 2);`
    pub fn or_where_not_in<S: ToText, T: ToText>(
        &mut self,
        field: S,
        values: &[T],
    ) -> Result<&mut Self, SqlBuilderError>
        ensures* unchanged { sem 𝓛 (IsUnchangedIfErr self.entry result) }
        ensures changed { IsChangedSoThat self.entry
            (AddsCondition Or
            (InList true (S.text field) (map T.text values.now)) self.old) result }
        ensures memory { FailsOnlyByMemory result }
    {
        release(self.step_in_list(Family::Or, Polarity::Negated, field, values))
    }

    /// Adds `field NOT IN (..)` of these values, each as `quote` writes it. It joins the last group
    /// by OR, or opens one if there is none. Fails only if memory runs out, and then leaves the
    /// builder unchanged.
    /// `SqlBuilder::select_from(alloc, "t")?.and_where("b")?.or_where_not_in_quoted("a", &["b", "it's"])?.sql()?` gives
    /// `SELECT * FROM t WHERE b OR a NOT IN ('b', 'it''s');`
    pub fn or_where_not_in_quoted<S: ToText, T: ToText>(
        &mut self,
        field: S,
        values: &[T],
    ) -> Result<&mut Self, SqlBuilderError>
        ensures* unchanged { sem 𝓛 (IsUnchangedIfErr self.entry result) }
        ensures changed { IsChangedSoThat self.entry
            (AddsCondition Or
            (InQuoted true (S.text field) (map T.text values.now)) self.old) result }
        ensures memory { FailsOnlyByMemory result }
    {
        release(self.step_in_quoted(Family::Or, Polarity::Negated, field, values))
    }

    /// Adds `field NOT IN (query)`. It joins the last group by OR, or opens one if there is none.
    /// Fails only if memory runs out, and then leaves the builder unchanged.
    /// `SqlBuilder::select_from(alloc, "t")?.and_where("b")?.or_where_not_in_query("a", "SELECT 1")?.sql()?` gives
    /// `SELECT * FROM t WHERE b OR a NOT IN (SELECT 1);`
    pub fn or_where_not_in_query<S: ToText, T: ToText>(
        &mut self,
        field: S,
        query: T,
    ) -> Result<&mut Self, SqlBuilderError>
        ensures* unchanged { sem 𝓛 (IsUnchangedIfErr self.entry result) }
        ensures changed { IsChangedSoThat self.entry
            (AddsCondition Or (InQuery true (S.text field) (T.text query)) self.old) result }
        ensures memory { FailsOnlyByMemory result }
    {
        release(self.step_in_query(Family::Or, Polarity::Negated, field, query))
    }

    /// Adds `field NOT BETWEEN least AND greatest`. It joins the last group by OR, or opens one if
    /// there is none. Fails only if memory runs out, and then leaves the builder unchanged.
    /// `SqlBuilder::select_from(alloc, "t")?.and_where("b")?.or_where_not_between("a", 1, 2)?.sql()?` gives
    /// `SELECT * FROM t WHERE b OR a NOT BETWEEN 1 AND 2;`
    pub fn or_where_not_between<S: ToText, T: ToText, U: ToText>(
        &mut self,
        field: S,
        least: T,
        greatest: U,
    ) -> Result<&mut Self, SqlBuilderError>
        ensures* unchanged { sem 𝓛 (IsUnchangedIfErr self.entry result) }
        ensures changed { IsChangedSoThat self.entry
            (AddsCondition Or
            (Between true (S.text field) (T.text least) (U.text greatest)) self.old) result }
        ensures memory { FailsOnlyByMemory result }
    {
        release(self.step_between(Family::Or, Polarity::Negated, field, least, greatest))
    }
}

//! Laws of what values do to statements, each the contract of a function that does nothing.
ghost use Rattle.sql_builder.specs.Combined.{CombinedFollowTheirParts, ConditionsFollowTheirPieces, ExistsFollowsItsQuery, MasksFollowTheirField, NegationsFollowTheirPart};
ghost use Rattle.sql_builder.specs.Interference.{QuotesKeepTheirOutline};
ghost use Rattle.sql_typed.specs.Filled.{TemplatesFollowTheirOperands};
ghost use Rattle.sql_typed.specs.Whole.{FrontsFollowTheirStatements};

/// States that values don't interfere. Let the parts of conditions differ in texts of strings
/// alone, as `Value`s of texts do. The conditions then have the same tokens, except for these
/// texts.
///
/// This holds of comparisons, IN, BETWEEN and EXISTS, LIKE of any mask, and what `all`, `any` and
/// `not` make of such conditions. So statements of these have the same tokens too, by
/// `no_interference` of `sql`, also without their `;`. Templates with such operands have them too.
/// Each clause of `Printed` is such a template, with a `?` for each part: an upsert, WITH, an INSERT
/// of a query, RETURNING, a lock, INTERSECT and EXCEPT. Does nothing when it runs. Never fails.
/// `eq(alloc, Operand::of("a"), Value("b OR 1=1"))?.text` gives `a = 'b OR 1=1'`
#[tactic(auto, using(sql_builder::proofs::truth::CombinedLemmas::condition_outline, sql_builder::proofs::truth::CombinedLemmas::mask_outline, sql_builder::proofs::truth::CombinedLemmas::combined_outline, sql_builder::proofs::truth::CombinedLemmas::negation_outline, sql_builder::proofs::truth::CombinedLemmas::exists_outline, crate::proofs::InterferenceLemmas::templates_follow, crate::proofs::InterferenceLemmas::fronts_follow))]
pub fn values_do_not_interfere()
    ensures conditions { ConditionsFollowTheirPieces }
    ensures masks { MasksFollowTheirField }
    ensures combined { CombinedFollowTheirParts }
    ensures negations { NegationsFollowTheirPart }
    ensures exists { ExistsFollowsItsQuery }
    ensures templates { TemplatesFollowTheirOperands }
    ensures fronts { FrontsFollowTheirStatements }
    ensures values { QuotesKeepTheirOutline }
{}

//! Tests of the raw texts of a list of calls, and lists that are tested before they are run.
ghost use Rattle.std.specs.Prelude.{◌≡◌, ◌<◌, [], ◌∷◌, is_ok, map, string_bytes, Err, IfErr, IfOk, IsTrue, Ok};
ghost use Rattle.sql_parts.specs.Fragments.{balanced};
ghost use Rattle.sql_parts.specs.Violations.{violation};
ghost use Rattle.sql_parts.specs.Text.{texts};
ghost use Rattle.sql_parts.specs.Tokens.{closed, tokens};
ghost use Rattle.sql_parts.specs.declared.violations.Requirement.TheVariants as requirement;
ghost use Rattle.sql_builder.specs.declared.checks.CheckedError.TheVariants as error;
ghost use Rattle.sql_builder.specs.{Sql, call_raw_texts, call_view, field_text, finish_raw_texts, finish_view, kind_of, of_list, start_raw_texts, start_view};
ghost use Rattle.sql_builder.specs.{condition_raw_texts, condition_view, HasTruthOf, condition_groups, is_nested, is_unenclosed, prints_where, encloses_fields};
ghost use Rattle.sql_builder.specs.{has_fit_texts, is_fit, Bare, Enclosed, clause_list, read, EndsInOneSemicolon, shape, statement, makes_table, texts_pass};
ghost use Rattle.sql_builder.specs.{IsCheckedError, calls_test, checked_message, list_test, raw_test, texts_test, unless_violation};

use crate::calls::{Call, Condition, Finish, Start, run};
use sql_parts::SqlBuilderError;
use sql_parts::lex::{Requirement, Violation, violation};
use std::alloc::Global;
use std::error::Error;
use std::fmt;

/// The place of a text in a list of calls.
#[derive(Clone, Copy, Debug, Drop)]
pub enum Place {
    /// In the start.
    Start,
    /// In the call of this index, from 0.
    Call(usize),
    /// In the finish.
    Finish,
}

/// The first text of a list of calls that doesn't fit in its place.
#[derive(Clone, Copy, Debug, Drop)]
pub struct InvalidText {
    /// Where it is.
    pub place: Place,
    /// Its index, from 0, among the texts there that are printed unchanged.
    pub text: usize,
    /// Why it doesn't fit.
    pub violation: Violation,
}

/// The reason why a list of calls that is tested has no statement.
#[derive(Debug, Drop)]
pub enum CheckedError {
    /// A text doesn't fit in its place.
    InvalidText(InvalidText),
    /// `run` failed.
    Failed(SqlBuilderError),
}

impl CheckedError {
    /// Returns the error's message, which Display prints too. For a text that doesn't fit, it says
    /// why. Never fails.
    /// `CheckedError::Failed(SqlBuilderError::NoValues).message()` gives `No values`
    pub fn message(&self) -> &'static str
        ensures text { result.now ≡ checked_message self.now }
    {
        match self {
            CheckedError::InvalidText(invalid) => invalid.violation.message(),
            CheckedError::Failed(error) => error.message(),
        }
    }
}

impl fmt::Display for CheckedError {
    ghost use Rattle.std.specs.Prelude.{Some};
    ghost use Rattle.sql_builder.specs.InvalidTexts.{checked_message};

    ghost output = { λ e. Some (checked_message e) };

    ghost styled_output = { λ e _. Some (checked_message e) };

    fn fmt<W: fmt::Write>(&self, f: &mut fmt::Formatter<W>) -> fmt::Result {
        f.write_str(self.message())
    }
}

impl Error for CheckedError {}

impl From<InvalidText> for CheckedError {
    ghost use Rattle.std.specs.Prelude.{◌≡◌};
    ghost use Rattle.sql_builder.specs.declared.checks.CheckedError.TheVariants as error;

    ghost from_gives = { λ invalid made. made ≡ error.InvalidText invalid };

    fn from(invalid: InvalidText) -> CheckedError {
        CheckedError::InvalidText(invalid)
    }
}

impl From<SqlBuilderError> for CheckedError {
    ghost use Rattle.std.specs.Prelude.{◌≡◌};
    ghost use Rattle.sql_builder.specs.declared.checks.CheckedError.TheVariants as error;

    ghost from_gives = { λ failure made. made ≡ error.Failed failure };

    fn from(error: SqlBuilderError) -> CheckedError {
        CheckedError::Failed(error)
    }
}

/// What the texts at a place have to meet.
#[derive(Clone, Copy)]
struct Requirements {
    place: Place,
    /// What a text that is printed bare has to meet.
    bare: Requirement,
    /// Whether fields are printed between brackets.
    encloses: bool,
}

impl Requirements {
    // Tests a text that has this index at its place.
    fn test(self, index: usize, text: &str, requirement: Requirement) -> Result<(), InvalidText>
        ensures { result ≡ unless_violation self.place index (violation requirement text.now) }
    {
        match violation(text, requirement) {
            None => Ok(()),
            Some(violation) => Err(InvalidText {
                place: self.place,
                text: index,
                violation,
            }),
        }
    }

    // A field, or a value between brackets.
    fn test_field(self, index: usize, text: &str, encloses: bool) -> Result<(), InvalidText>
        ensures { result ≡ raw_test self.bare self.place index (field_text encloses text.now) }
    {
        if encloses {
            self.test(index, text, Requirement::Balanced)
        } else {
            self.test(index, text, self.bare)
        }
    }

    // Texts of which the first has this index.
    fn test_list(self, first: usize, items: &[String], encloses: bool) -> Result<(), InvalidText>
        requires { first < 2 }
        ensures { result ≡ texts_test self.bare self.place first
            (map (field_text encloses) (texts items.now)) }
    {
        let mut index = first;
        let mut rest = items;
        while let [item, further @ ..] = rest {
            self.test_field(index, item.as_str(), encloses)?;
            index += 1;
            rest = further;
        }
        Ok(())
    }

    #[tactic(auto, using(crate::proofs::fragments::InvalidTextLemmas::alone))]
    fn test_bare(self, text: &str) -> Result<(), InvalidText>
        ensures { result ≡ texts_test self.bare self.place 0 (Bare text.now ∷ []) }
    {
        self.test(0, text, self.bare)
    }

    #[tactic(auto, using(crate::proofs::fragments::InvalidTextLemmas::alone))]
    fn test_enclosed(self, text: &str) -> Result<(), InvalidText>
        ensures { result ≡ texts_test self.bare self.place 0 (Enclosed text.now ∷ []) }
    {
        self.test(0, text, Requirement::Balanced)
    }

    #[tactic(auto, using(crate::proofs::fragments::InvalidTextLemmas::alone))]
    fn test_two(self, one: &str, other: &str) -> Result<(), InvalidText>
        ensures { result ≡ texts_test self.bare self.place 0 (Bare one.now ∷ Bare other.now ∷ []) }
    {
        self.test(0, one, self.bare)?;
        self.test(1, other, self.bare)
    }

    #[tactic(auto, using(crate::proofs::fragments::InvalidTextLemmas::alone))]
    fn test_field_alone(self, text: &str) -> Result<(), InvalidText>
        ensures { result ≡ texts_test self.bare self.place 0
            (field_text self.encloses text.now ∷ []) }
    {
        self.test_field(0, text, self.encloses)
    }

    fn test_condition(self, condition: &Condition) -> Result<(), InvalidText>
        ensures { result ≡ texts_test self.bare self.place 0
            (condition_raw_texts (condition_view condition.now)) }
    {
        match condition {
            Condition::Raw(text)
            | Condition::Like(_, _, text, _)
            | Condition::IsNull(text)
            | Condition::IsNotNull(text)
            | Condition::InQuoted(_, text, _) => self.test_bare(text),
            Condition::Compare(_, field, value) => self.test_two(field, value),
            Condition::InList(_, field, values) => {
                self.test(0, field, self.bare)?;
                self.test_list(1, values, true)
            }
            Condition::InQuery(_, field, query) => {
                self.test(0, field, self.bare)?;
                self.test(1, query, Requirement::Balanced)
            }
            Condition::Between(_, field, least, greatest) => {
                self.test(0, field, self.bare)?;
                self.test(1, least, self.bare)?;
                self.test(2, greatest, self.bare)
            }
        }
    }

    fn test_call(self, call: &Call) -> Result<(), InvalidText>
        ensures { result ≡ texts_test self.bare self.place 0
            (call_raw_texts self.encloses (call_view call.now)) }
    {
        match call {
            Call::Natural
            | Call::Left
            | Call::LeftOuter
            | Call::Right
            | Call::RightOuter
            | Call::Inner
            | Call::Cross
            | Call::Distinct
            | Call::ReturningId => Ok(()),
            Call::AndTable(text)
            | Call::Join(text)
            | Call::On(text)
            | Call::SetStr(text, _)
            | Call::Select(text)
            | Call::Returning(text)
            | Call::GroupBy(text)
            | Call::Having(text)
            | Call::OrderBy(text, _)
            | Call::OrderAsc(text)
            | Call::OrderDesc(text)
            | Call::Limit(text)
            | Call::Offset(text) => self.test_bare(text),
            Call::Count(text) | Call::Union(text) | Call::UnionAll(text) => {
                self.test_enclosed(text)
            }
            Call::Field(field) | Call::SetField(field) => self.test_field_alone(field),
            Call::Fields(fields) | Call::SetFields(fields) => {
                self.test_list(0, fields, self.encloses)
            }
            Call::Values(values) => self.test_list(0, values, true),
            Call::OnEq(one, other) | Call::SetTo(one, other) => self.test_two(one, other),
            Call::CountAs(field, name) => {
                self.test(0, field, Requirement::Balanced)?;
                self.test_field(1, name, self.encloses)
            }
            Call::Cond(_, condition) => self.test_condition(condition),
        }
    }

    fn test_start(self, start: &Start) -> Result<(), InvalidText>
        ensures { result ≡ texts_test self.bare self.place 0
            (start_raw_texts (start_view start.now)) }
    {
        match start {
            Start::SelectValues(values) => self.test_list(0, values, false),
            Start::SelectFrom(table)
            | Start::InsertInto(table)
            | Start::UpdateTable(table)
            | Start::DeleteFrom(table) => self.test_bare(table),
        }
    }

    fn test_finish(self, finish: &Finish) -> Result<(), InvalidText>
        ensures { result ≡ texts_test self.bare self.place 0
            (finish_raw_texts (finish_view finish.now)) }
    {
        match finish {
            Finish::Sql | Finish::Query | Finish::QueryValues | Finish::Subquery => Ok(()),
            Finish::SubqueryAs(name) => self.test_bare(name),
        }
    }
}

// Whether the finish prints fields between brackets.
fn encloses_fields(start: &Start, finish: &Finish) -> bool
    ensures { result ≡ encloses_fields (start_view start.now) (finish_view finish.now) }
{
    matches!((start, finish), (Start::InsertInto(_), Finish::Sql))
}

fn test_calls(bare: Requirement, encloses: bool, calls: &[Call]) -> Result<(), InvalidText>
    ensures { result ≡ calls_test bare 0 encloses (map call_view calls.now) }
{
    let mut index = 0;
    let mut rest = calls;
    while let [call, further @ ..] = rest {
        let requirements = Requirements {
            place: Place::Call(index),
            bare,
            encloses,
        };
        requirements.test_call(call)?;
        index += 1;
        rest = further;
    }
    Ok(())
}

// The texts of a list, where this is asked of those that are printed bare.
fn test_texts(
    bare: Requirement,
    start: &Start,
    calls: &[Call],
    finish: &Finish,
) -> Result<(), InvalidText>
    ensures { result ≡ of_list (list_test bare) start.now calls.now finish.now }
{
    let encloses = encloses_fields(start, finish);
    let begin = Requirements {
        place: Place::Start,
        bare,
        encloses,
    };
    begin.test_start(start)?;
    test_calls(bare, encloses, calls)?;
    let end = Requirements {
        place: Place::Finish,
        bare,
        encloses,
    };
    end.test_finish(finish)
}

/// Tests whether each text that the statement of a list prints unchanged fits in its place. The
/// text has to be balanced. It may have a top-level clause keyword only if brackets of the
/// builder's own are round it, or UNION precedes it. The fragments are then fit for all that `run`
/// says of them.
///
/// Fails with the first text that doesn't fit, such as a query of `select` that begins with SELECT.
/// Takes no memory, and reads a text that fits once.
/// `check(&Start::DeleteFrom(String::from_str(alloc, "t; u")?), &[], &Finish::Sql)` fails with
/// `InvalidText { place: Start, text: 0, violation: Semicolon }`
#[tactic(auto, using(crate::proofs::fragments::InvalidTextLemmas::list_is_fit))]
pub fn check(start: &Start, calls: &[Call], finish: &Finish) -> Result<(), InvalidText>
    ensures fit { is_ok result ≡ of_list has_fit_texts start.now calls.now finish.now }
    ensures tests { result ≡ of_list (list_test requirement.Fragment) start.now calls.now finish.now }
{
    test_texts(Requirement::Fragment, start, calls, finish)
}

/// Tests whether each text that the statement of a list prints unchanged is balanced. Its quotes
/// and comments are then closed, it has no `;`, and its brackets match by count. Fails with the
/// first text that isn't balanced. Takes no memory, and reads a text that is balanced once.
/// `check_confined(&Start::DeleteFrom(String::from_str(alloc, "t)")?), &[], &Finish::Sql)` fails with
/// `InvalidText { place: Start, text: 0, violation: Brackets }`
#[tactic(auto, using(crate::proofs::fragments::InvalidTextLemmas::list_is_balanced))]
pub fn check_confined(start: &Start, calls: &[Call], finish: &Finish) -> Result<(), InvalidText>
    ensures balanced { is_ok result ≡ of_list (texts_pass balanced) start.now calls.now finish.now }
    ensures tests { result ≡ of_list (list_test requirement.Balanced) start.now calls.now finish.now }
{
    test_texts(Requirement::Balanced, start, calls, finish)
}

/// Tests a list by `check`, and then runs it, without a premise. What it prints is the statement of
/// the list, is closed, has the tokens of its parts, and nests. It parses back as the clauses that
/// were given, and has the truth of its groups. If `sql` prints it, it has one `;`. Fails as
/// `check` does, or else as `run` does.
/// ```
/// let start = Start::DeleteFrom(String::from_str(alloc, "t")?);
/// run_checked(alloc, &start, &[], &Finish::Sql); // DELETE FROM t;
/// ```
pub fn run_checked(
    alloc: Global,
    start: &Start,
    calls: &[Call],
    finish: &Finish,
) -> Result<String, CheckedError>
    ensures text { IfOk result (λ s.
        of_list statement start.now calls.now finish.now ≡ Ok (string_bytes s)) }
    ensures fit { IfOk result (λ s. IsTrue (of_list has_fit_texts start.now calls.now finish.now)) }
    ensures error { IfErr result
        (IsCheckedError (of_list (list_test requirement.Fragment) start.now calls.now finish.now)
        (of_list statement start.now calls.now finish.now)) }
    ensures refused { IfErr (of_list (list_test requirement.Fragment) start.now calls.now finish.now)
        (λ invalid. result ≡ Err (error.InvalidText invalid)) }
    ensures shape { IfOk result (λ s.
        of_list shape start.now calls.now finish.now ≡ Ok (tokens (string_bytes s))) }
    ensures closed { IfOk result (λ s. IsTrue (closed (string_bytes s))) }
    ensures semicolon { finish_view finish.now ≡ Sql → IfOk result (λ s.
        EndsInOneSemicolon (tokens (string_bytes s))) }
    ensures clauses { IsTrue (is_unenclosed (finish_view finish.now)) → IfOk result (λ s.
        of_list clause_list start.now calls.now finish.now ≡ Ok (read (tokens (string_bytes s)))) }
    ensures truth { IsTrue (prints_where (finish_view finish.now) (kind_of (start_view start.now)))
        → IfOk result (λ s.
        HasTruthOf (condition_groups (map call_view calls.now)) (string_bytes s)) }
    ensures nests { IfOk result (λ s.
        IsTrue (is_nested (finish_view finish.now) (string_bytes s))) }
    ensures nests_as_table { IsTrue (makes_table (finish_view finish.now)) → IfOk result (λ s.
        IsTrue (is_fit (Bare (string_bytes s)))) }
{
    check(start, calls, finish)?;
    Ok(run(alloc, start, calls, finish)?)
}

/// Tests a list by `check_confined`, and then runs it. So a list can have a query that `select`
/// gives an INSERT. What it prints is the statement of the list, is closed, has the tokens of its
/// parts, and nests. If `sql` prints it, it has one `;`. Its raw texts may change which clauses it
/// has, and the truth of its WHERE. Fails as `check_confined` does, or else as `run` does.
/// ```
/// let start = Start::InsertInto(String::from_str(alloc, "t")?);
/// let field = Call::Field(String::from_str(alloc, "a")?);
/// let query = Call::Select(String::from_str(alloc, "SELECT 1")?);
/// run_confined(alloc, &start, &[field, query], &Finish::Sql); // INSERT INTO t (a) SELECT 1;
/// ```
pub fn run_confined(
    alloc: Global,
    start: &Start,
    calls: &[Call],
    finish: &Finish,
) -> Result<String, CheckedError>
    ensures text { IfOk result (λ s.
        of_list statement start.now calls.now finish.now ≡ Ok (string_bytes s)) }
    ensures balanced { IfOk result (λ s.
        IsTrue (of_list (texts_pass balanced) start.now calls.now finish.now)) }
    ensures error { IfErr result
        (IsCheckedError (of_list (list_test requirement.Balanced) start.now calls.now finish.now)
        (of_list statement start.now calls.now finish.now)) }
    ensures refused { IfErr (of_list (list_test requirement.Balanced) start.now calls.now finish.now)
        (λ invalid. result ≡ Err (error.InvalidText invalid)) }
    ensures shape { IfOk result (λ s.
        of_list shape start.now calls.now finish.now ≡ Ok (tokens (string_bytes s))) }
    ensures closed { IfOk result (λ s. IsTrue (closed (string_bytes s))) }
    ensures semicolon { finish_view finish.now ≡ Sql → IfOk result (λ s.
        EndsInOneSemicolon (tokens (string_bytes s))) }
    ensures nests { IfOk result (λ s.
        IsTrue (is_nested (finish_view finish.now) (string_bytes s))) }
    ensures nests_as_table { IsTrue (makes_table (finish_view finish.now)) → IfOk result (λ s.
        IsTrue (is_fit (Bare (string_bytes s)))) }
{
    check_confined(start, calls, finish)?;
    Ok(run(alloc, start, calls, finish)?)
}

//! Texts that don't fit, and lists of calls that are tested before they are run.

use sql_builder::SqlBuilderError;
use sql_builder::calls::{
    Call, CheckedError, Condition, Family, Finish, InvalidText, Place, Relation, Start, check,
    check_confined, run_checked, run_confined,
};
use sql_builder::lex::{Requirement, Violation, has_clause_word, has_dialect_word, violation};
use sql_builder::text::{Fragment, Operand};
use std::alloc::{AllocError, Global};
use std::test::Fail;

/// Whether a text has this message as a fragment, and this as an operand; none where it fits.
fn has_messages(text: &str, as_fragment: Option<&str>, as_operand: Option<&str>) -> bool {
    message(violation(text, Requirement::Fragment)) == as_fragment
        && message(violation(text, Requirement::Operand)) == as_operand
        && has_typed_messages(text, as_fragment, as_operand)
}

/// The same of `Fragment` and `Operand`.
fn has_typed_messages(text: &str, as_fragment: Option<&str>, as_operand: Option<&str>) -> bool {
    let fragment = Fragment::of_trusted(text).err();
    let operand = Operand::of_trusted(text).err();
    message(violation(text, Requirement::TypedFragment)) == as_fragment
        && message(fragment) == as_fragment
        && message(violation(text, Requirement::TypedOperand)) == as_operand
        && message(operand) == as_operand
}

fn message(violation: Option<Violation>) -> Option<&'static str> {
    match violation {
        Some(violation) => Some(violation.message()),
        None => None,
    }
}

#[test]
fn says_why_a_text_does_not_fit(rt: HostRuntime) -> Result<(), Fail> {
    let clause = Some("A top-level clause keyword");
    let joined = Some("A top-level OR, AND or BETWEEN, or a leading NOT");
    assert!(rt; has_messages("price", None, None), "a column");
    assert!(rt; has_messages("a UNION SELECT b", clause, clause), "a union");
    assert!(rt; has_messages("a OR 1=1", None, joined), "an OR");
    assert!(rt; has_messages("NOT a", None, joined), "a NOT");
    for (text, message) in [
        ("", "No token"),
        ("-- a\n", "No token"),
        ("a'; --", "A quote or a comment has no end"),
        ("a; DROP TABLE b", "A semicolon"),
        ("a) OR (b", "Brackets don't match"),
    ] {
        assert!(rt; has_messages(text, Some(message), Some(message)), "{text}");
    }
    Ok(())
}

#[test]
fn refuses_clauses_of_some_databases(rt: HostRuntime) -> Result<(), Fail> {
    let dialect = Some("A top-level word that begins a clause in some databases");
    for text in [
        "a INTO evil",
        "a INTO OUTFILE '/x'",
        "true INTERSECT (SELECT b FROM secrets)",
        "a except (SELECT b)",
        "a MINUS (SELECT b)",
        "TABLE secrets",
        "a FETCH FIRST ROW ONLY",
        "a FOR SHARE",
        "a WITH TIES",
        "a window b AS (c)",
    ] {
        assert!(rt; has_typed_messages(text, dialect, dialect), "{text}");
        assert!(rt; has_dialect_word(text) && !has_clause_word(text), "{text}");
        let as_before = violation(text, Requirement::Operand).is_none();
        assert!(rt;
            as_before && violation(text, Requirement::Fragment).is_none(),
            "{text}"
        );
    }
    Ok(())
}

#[test]
fn takes_their_words_elsewhere(rt: HostRuntime) -> Result<(), Fail> {
    for text in [
        "substring(a FROM 1 FOR 2)",
        "CAST(a AS timestamp with time zone)",
        "(SELECT a INTERSECT TABLE b)",
        "\"into\"",
        "`for`",
        "[with]",
        "'a INTO b'",
        "format",
        "into_x",
    ] {
        assert!(rt; has_typed_messages(text, None, None), "{text}");
        assert!(rt; !has_dialect_word(text), "{text}");
    }
    Ok(())
}

/// Whether Display prints the message of the reason, and of a list of calls that has it.
fn is_displayed(alloc: Global, violation: Violation, message: &str) -> Result<bool, Fail> {
    let invalid = InvalidText {
        place: Place::Start,
        text: 0,
        violation,
    };
    let error = CheckedError::InvalidText(invalid);
    Ok(
        format!(in alloc; "{violation}")?.as_str() == message
            && format!(in alloc; "{error}")?.as_str() == message,
    )
}

#[test]
fn displays_its_errors(rt: HostRuntime) -> Result<(), Fail> {
    let alloc = rt.alloc();
    for (violation, message) in [
        (Violation::Blank, "No token"),
        (Violation::Open, "A quote or a comment has no end"),
        (
            Violation::DialectWord,
            "A top-level word that begins a clause in some databases",
        ),
        (
            Violation::CaseWord,
            "A clause keyword or an open bracket between CASE and END",
        ),
    ] {
        assert!(rt; is_displayed(alloc, violation, message)?, "{message}");
    }
    let error = SqlBuilderError::NoTableName;
    assert_eq!(rt; format!(in alloc; "{error}")?.as_str(), "No table name");
    Ok(())
}

fn at_most(alloc: Global, value: &str) -> Result<Call, AllocError> {
    let field = String::from_str(alloc, "b")?;
    let value = String::from_str(alloc, value)?;
    let condition = Condition::Compare(Relation::Le, field, value);
    Ok(Call::Cond(Family::And, condition))
}

/// The field `a`, and that `b` is at most the value.
fn of_a_field(alloc: Global, value: &str) -> Result<[Call; 2], AllocError> {
    let field = Call::Field(String::from_str(alloc, "a")?);
    Ok([field, at_most(alloc, value)?])
}

/// What comes of a SELECT from a table by the calls of `of_a_field`.
fn run_list(
    alloc: Global,
    table: &str,
    value: &str,
    finish: &Finish,
) -> Result<Result<String, CheckedError>, AllocError> {
    let start = Start::SelectFrom(String::from_str(alloc, table)?);
    Ok(run_checked(alloc, &start, &of_a_field(alloc, value)?, finish))
}

/// Whether the error is that this text doesn't fit, as its message says.
fn is_invalid(
    ran: &Result<String, CheckedError>,
    place: Place,
    text: usize,
    message: &str,
) -> bool {
    match ran {
        Err(CheckedError::InvalidText(invalid)) => {
            is_same_place(invalid.place, place)
                && invalid.text == text
                && invalid.violation.message() == message
        }
        _ => false,
    }
}

fn is_same_place(one: Place, other: Place) -> bool {
    match (one, other) {
        (Place::Start, Place::Start) => true,
        (Place::Call(one), Place::Call(other)) => one == other,
        (Place::Finish, Place::Finish) => true,
        _ => false,
    }
}

fn is_text(ran: &Result<String, CheckedError>, wanted: &str) -> bool {
    match ran {
        Ok(text) => text.as_str() == wanted,
        Err(_) => false,
    }
}

#[test]
fn runs_a_list_that_fits(rt: HostRuntime) -> Result<(), Fail> {
    let alloc = rt.alloc();
    let fits = run_list(alloc, "t", "5", &Finish::Sql)?;
    assert!(rt; is_text(&fits, "SELECT a FROM t WHERE b <= 5;"), "fits");
    let table = run_list(alloc, "t; u", "5", &Finish::Sql)?;
    assert!(rt;
        is_invalid(&table, Place::Start, 0, "A semicolon"),
        "the table"
    );
    let value = run_list(alloc, "t", "5 UNION SELECT 1", &Finish::Sql)?;
    assert!(rt;
        is_invalid(&value, Place::Call(1), 1, "A top-level clause keyword"),
        "the value"
    );
    let name = Finish::SubqueryAs(String::from_str(alloc, "s)")?);
    let name = run_list(alloc, "t", "5", &name)?;
    assert!(rt;
        is_invalid(&name, Place::Finish, 0, "Brackets don't match"),
        "the name"
    );
    Ok(())
}

/// A call that tests a list of calls and runs it.
type Run = fn(Global, &Start, &[Call], &Finish) -> Result<String, CheckedError>;

/// What comes of an INSERT into `t` by these calls.
fn run_insert(
    alloc: Global,
    calls: &[Call],
    run: Run,
) -> Result<Result<String, CheckedError>, AllocError>
    requires { IsAlwaysCallable run }
{
    let start = Start::InsertInto(String::from_str(alloc, "t")?);
    Ok(run(alloc, &start, calls, &Finish::Sql))
}

fn of_a_query(alloc: Global) -> Result<[Call; 2], AllocError> {
    let field = Call::Field(String::from_str(alloc, "a")?);
    Ok([
        field,
        Call::Select(String::from_str(alloc, "SELECT b FROM u")?),
    ])
}

fn run_query(alloc: Global, run: Run) -> Result<Result<String, CheckedError>, AllocError>
    requires { IsAlwaysCallable run }
{
    run_insert(alloc, &of_a_query(alloc)?, run)
}

fn run_comment(alloc: Global) -> Result<Result<String, CheckedError>, AllocError> {
    let calls = [Call::Select(String::from_str(alloc, "SELECT a; --")?)];
    run_insert(alloc, &calls, run_confined)
}

/// Whether the texts of an INSERT of a query pass `check`, and whether they pass `check_confined`.
fn check_query(alloc: Global) -> Result<(bool, bool), AllocError> {
    let start = Start::InsertInto(String::from_str(alloc, "t")?);
    let calls = of_a_query(alloc)?;
    let fits = check(&start, &calls, &Finish::Sql).is_ok();
    Ok((fits, check_confined(&start, &calls, &Finish::Sql).is_ok()))
}

#[test]
fn runs_an_insert_of_a_query(rt: HostRuntime) -> Result<(), Fail> {
    let alloc = rt.alloc();
    assert_eq!(rt; check_query(alloc)?, (false, true));
    let ran = run_query(alloc, run_checked)?;
    let clause = "A top-level clause keyword";
    assert!(rt; is_invalid(&ran, Place::Call(1), 0, clause), "run_checked");
    let ran = run_query(alloc, run_confined)?;
    assert!(rt;
        is_text(&ran, "INSERT INTO t (a) SELECT b FROM u;"),
        "run_confined"
    );
    let ran = run_comment(alloc)?;
    assert!(rt;
        is_invalid(&ran, Place::Call(0), 0, "A quote or a comment has no end"),
        "a comment"
    );
    Ok(())
}

#[test]
fn fails_as_run_does(rt: HostRuntime) -> Result<(), Fail> {
    let alloc = rt.alloc();
    let start = Start::InsertInto(String::from_str(alloc, "t")?);
    match run_checked(alloc, &start, &[], &Finish::Sql) {
        Err(error) => {
            assert!(rt;
                format!(in alloc; "{error}")?.as_str() == "No values",
                "its message"
            );
        }
        Ok(_) => assert!(rt; false, "an INSERT of nothing"),
    }
    Ok(())
}

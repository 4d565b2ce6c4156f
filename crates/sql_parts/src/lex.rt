//! Tests of fragments, which read a text as the tokens of SQL.
ghost use Rattle.std.specs.Prelude.{◌≡◌, ◌&&◌, IfErr, IfOk, codes, if◌then◌else◌, is_none, not, true};
ghost use Rattle.sql_parts.specs.{has_backslash, FailsOnlyByMemory, IsMemoryForNesting, balanced, dangling, has_clause_word, encloses_clauses, has_dialect_word};
ghost use Rattle.sql_parts.specs.{has_top_level, is_balanced, is_clause_word, is_dialect_word, is_word, operand, meets, violation, marks_of, HasRole, is_barred};
ghost use Rattle.sql_parts.specs.{resolved_from, apart, segment_apart, segments_apart, begins_with, ends_with, has_semicolon, is_empty, is_separator};
ghost use Rattle.sql_parts.specs.Tokens as tokens;

use crate::dangling::{OpenRanges, Sides};
use crate::depth::Depth;
use crate::error::SqlBuilderError;
use crate::placeholders::{Content, Marks, first_place, prefix};
use crate::roles::{Role, first_role, starts_clause};
use crate::search::{Front, find_byte};
use crate::substitution::lacks_arguments;
pub use crate::tokenizer::is_closed;
use crate::tokenizer::{Token, first_token};
pub use crate::violations::{Requirement, Violation};
use std::alloc::Global;

/// Returns whether a `;` is among the tokens of the text. Never fails.
/// `has_semicolon("a; b")` gives `true`
pub fn has_semicolon(text: &str) -> bool
    ensures { result ≡ has_semicolon text.now }
{
    let mut rest = text;
    while let Some((token, behind)) = first_token(rest) {
        if matches!(token, Token::Symbol(b';')) {
            return true;
        }
        rest = behind;
    }
    false
}

// Whether the token may not be first, where the text is to be an operand.
fn bars_first(operand: bool, role: Role) -> bool
    ensures { (defined : tokens.Token) → HasRole role defined → result ≡ (operand && is_word (codes "NOT") defined) }
{
    operand && role.is_not()
}

// Whether the token may not be at depth 0, where the text is to have no clause keyword there, no word
// that begins a clause in some databases, or to be an operand.
fn bars_top_level(bare: bool, typed: bool, operand: bool, role: Role) -> bool
    ensures { (defined : tokens.Token) → HasRole role defined
        → result ≡ is_barred bare typed operand defined }
{
    bare && role.is_clause() || (typed && role.is_dialect() || operand && role.joins())
}

// Whether the text is balanced, has no clause keyword at depth 0 where it is to be bare, no word there
// that begins a clause in some databases where it is to be typed, and, where it is to be an operand,
// has no OR, AND or BETWEEN at depth 0 and doesn't begin with NOT.
#[inline(always)]
fn is_balanced_as(text: &str, bare: bool, typed: bool, operand: bool) -> bool
    ensures { result ≡ (is_balanced (tokens.tokens text.now)
        && not (has_top_level (is_barred bare typed operand) (tokens.tokens text.now))
        && not (begins_with (λ token. operand && is_word (codes "NOT") token)
        (tokens.tokens text.now))) }
{
    let mut depth = Depth::start();
    let mut is_empty = true;
    let mut rest = text;
    while let Some((role, behind)) = first_role(rest) {
        if is_empty && bars_first(operand, role)
            || depth.is_top_level() && bars_top_level(bare, typed, operand, role)
        {
            return false;
        }
        depth = depth.behind(role);
        if !role.is_whole() || depth.is_below() {
            return false;
        }
        is_empty = false;
        rest = behind;
    }
    !is_empty && depth.is_top_level()
}

/// Returns whether the text has a token, no quote or comment without an end, no `;`, and brackets
/// that match. `(` and CASE are counted together as brackets that open, `)` and END as brackets
/// that close. As many close as open, and at no place have more closed than opened. Which closes
/// which isn't asked. Never fails.
/// `is_balanced("a) OR (b")` gives `false`
pub fn is_balanced(text: &str) -> bool
    ensures { result ≡ balanced text.now }
{
    is_balanced_as(text, false, false, false)
}

/// Returns whether the text is balanced, has no OR, AND or BETWEEN at depth 0, and doesn't begin
/// with NOT. Never fails.
/// `is_operand("a OR b")` gives `false`
pub fn is_operand(text: &str) -> bool
    ensures { result ≡ operand text.now }
{
    is_balanced_as(text, false, false, true)
}

// Whether the token begins a clause: by the rules, or beyond them in some databases.
fn begins_clause(dialect: bool, role: Role) -> bool
    ensures { (defined : tokens.Token) → HasRole role defined
        → result ≡ (if dialect then is_dialect_word defined else is_clause_word defined) }
{
    if dialect {
        role.is_dialect()
    } else {
        role.is_clause()
    }
}

// Whether such a token is at depth 0 of the text.
#[inline(always)]
fn has_clause(text: &str, dialect: bool) -> bool
    ensures { result ≡ has_top_level (λ token.
        if dialect then is_dialect_word token else is_clause_word token) (tokens.tokens text.now) }
{
    let mut depth = Depth::start();
    let mut rest = text;
    while let Some((role, behind)) = first_role(rest) {
        if depth.is_top_level() && begins_clause(dialect, role) {
            return true;
        }
        depth = depth.behind(role);
        rest = behind;
    }
    false
}

/// Returns whether a clause keyword is at depth 0 of the text. As many `(` and CASE precede it
/// there as `)` and END. Never fails.
/// `has_clause_word("a UNION SELECT b")` gives `true`
pub fn has_clause_word(text: &str) -> bool
    ensures { result ≡ has_clause_word text.now }
{
    has_clause(text, false)
}

/// Returns whether a word that begins a clause in some databases is at depth 0 of the text, apart
/// from clause keywords. The words are INTO, INTERSECT, EXCEPT, MINUS, TABLE, FETCH, FOR, WITH and
/// WINDOW. Never fails.
/// `has_dialect_word("a INTO b")` gives `true`
/// `has_dialect_word("substring(a FROM 1 FOR 2)")` gives `false`
pub fn has_dialect_word(text: &str) -> bool
    ensures { result ≡ has_dialect_word text.now }
{
    has_clause(text, true)
}

// Whether brackets match and enclose each word that begins a clause, where CASE and END are names.
fn encloses_clauses(text: &str) -> bool
    ensures { result ≡ encloses_clauses 0 (tokens.tokens text.now) }
{
    let mut level = 0usize;
    let mut rest = text;
    while let Some((token, behind)) = first_token(rest) {
        match token {
            Token::Symbol(b'(') => level += 1,
            Token::Symbol(b')') if level == 0 => return false,
            Token::Symbol(b')') => level -= 1,
            Token::Word(word) if level == 0 && starts_clause(word) => return false,
            _ => {}
        }
        rest = behind;
    }
    level == 0
}

// Whether the text meets the requirement.
fn meets(text: &str, requirement: Requirement) -> bool
    ensures { result ≡ meets requirement text.now }
{
    match requirement {
        Requirement::Balanced => is_balanced(text),
        Requirement::Fragment => is_balanced_as(text, true, false, false),
        Requirement::Operand => is_balanced_as(text, true, false, true),
        Requirement::TypedFragment => {
            is_balanced_as(text, true, true, false) && encloses_clauses(text)
        }
        Requirement::TypedOperand => is_balanced_as(text, true, true, true)
            && encloses_clauses(text),
    }
}

fn is_blank(text: &str) -> bool
    ensures { result ≡ is_empty (tokens.tokens text.now) }
{
    first_token(text).is_none()
}

// Why the text doesn't meet the requirement, in as many readings as there are reasons.
#[cold]
#[tactic(auto, unfolding(crate::specs::Violations::violation))]
fn reason(text: &str, requirement: Requirement) -> Option<Violation>
    ensures { result ≡ violation requirement text.now }
{
    if is_blank(text) {
        return Some(Violation::Blank);
    }
    if !is_closed(text) {
        return Some(Violation::Open);
    }
    if has_semicolon(text) {
        return Some(Violation::Semicolon);
    }
    if !is_balanced(text) {
        return Some(Violation::Brackets);
    }
    match requirement {
        Requirement::Balanced => None,
        _ if has_clause_word(text) => Some(Violation::ClauseWord),
        Requirement::TypedFragment | Requirement::TypedOperand if has_dialect_word(text) => {
            Some(Violation::DialectWord)
        }
        Requirement::Operand | Requirement::TypedOperand if !is_operand(text) => Some(
            Violation::Joined,
        ),
        Requirement::TypedFragment | Requirement::TypedOperand if !encloses_clauses(text) => {
            Some(Violation::CaseWord)
        }
        _ => None,
    }
}

/// Returns why the text doesn't meet the requirement, if it doesn't. Never fails. Takes no memory.
/// Reads a text that fits once, or twice if the requirement is of a type.
/// `violation("a UNION SELECT b", Requirement::Fragment)` gives `Some(ClauseWord)`
/// `violation("a OR 1=1", Requirement::Operand)` gives `Some(Joined)`
/// `violation("a INTO b", Requirement::TypedOperand)` gives `Some(DialectWord)`
/// `violation("@case UNION SELECT @end", Requirement::TypedFragment)` gives `Some(CaseWord)`
pub fn violation(text: &str, requirement: Requirement) -> Option<Violation>
    ensures reason { result ≡ violation requirement text.now }
    ensures fits { is_none result ≡ meets requirement text.now }
{
    if meets(text, requirement) {
        None
    } else {
        reason(text, requirement)
    }
}

/// Returns whether something dangles in the text. It may be an OR or AND that is the first token or
/// follows one that opens. It may be an OR, AND or NOT that is the last token or precedes one that
/// closes. It may be a BETWEEN without an AND of its own depth behind it. Fails only if memory runs
/// out, and never if no token raises the depth.
/// `has_dangling(alloc, "a AND")?` gives `true`
pub fn has_dangling(alloc: Global, text: &str) -> Result<bool, SqlBuilderError>
    ensures dangling { IfOk result (λ b. b ≡ dangling text.now) }
    ensures memory { IfErr result (IsMemoryForNesting text.now) }
{
    let mut sides = Sides::start();
    let mut ranges = OpenRanges::new(alloc);
    let mut rest = text;
    while let Some((role, behind)) = first_role(rest) {
        if !sides.fits(role) || !ranges.read(role)? {
            return Ok(true);
        }
        sides = Sides::behind(role);
        rest = behind;
    }
    Ok(!sides.may_end() || !ranges.is_empty())
}

fn is_separator(byte: u8) -> bool
    ensures { result ≡ is_separator byte }
{
    matches!(
        byte,
        b' ' | b'\t' | b'\n' | b'\r' | b'(' | b')' | b',' | b';' | b'=' | b'<' | b'>'
    )
}

fn begins_apart(segment: &str) -> bool
    ensures { result ≡ begins_with is_separator segment.now }
{
    match segment.as_bytes().first() {
        None => false,
        Some(byte) => is_separator(*byte),
    }
}

fn ends_apart(segment: &str) -> bool
    ensures { result ≡ ends_with is_separator segment.now }
{
    match segment.as_bytes().last() {
        None => false,
        Some(byte) => is_separator(*byte),
    }
}

pub(crate) fn segment_apart(first: bool, last: bool, segment: &str) -> bool
    ensures { result ≡ segment_apart first last segment.now }
{
    is_closed(segment)
        && (last || first && segment.is_empty() || ends_apart(segment))
        && (first || last && segment.is_empty() || begins_apart(segment))
}

// Whether the segments of a template are apart from its values, for a `?` without arguments too.
fn segments_apart(alloc: Global, template: &str, marks: Marks<'_>) -> Result<bool, SqlBuilderError>
    ensures apart { let resolved = resolved_from (marks_of marks.entry) 0 0 template.now in
        IfOk result (λ b. b ≡ segments_apart true resolved.0 resolved.1) }
    ensures memory { FailsOnlyByMemory result }
{
    let prefix = prefix(alloc, marks)?;
    let prefix = prefix.as_str();
    let front = Front::of(prefix);
    let mut segment = String::new(alloc);
    let mut rest = template;
    let mut seen = 0;
    while let Some(found) = first_place(marks, prefix, front, seen, rest) {
        segment.push_str(found.segment)?;
        match found.content {
            Content::Prefix => segment.push_str(prefix)?,
            Content::Writes(text) => segment.push_str(text)?,
            Content::Holds(_) => {
                if !segment_apart(seen == 0, false, segment.as_str()) {
                    return Ok(false);
                }
                segment.clear();
                seen += 1;
            }
        }
        rest = found.rest;
    }
    segment.push_str(rest)?;
    Ok(segment_apart(seen == 0, true, segment.as_str()))
}

/// Returns whether the values that these marks bind stand apart in a template. No `?` lacks an
/// argument then, each segment is closed, and only a separator or an end of the text touches a
/// value.
///
/// The rules of tokens know no dollar quotes and no nested comments. By these rules, a text that is
/// bound there can't leave its literal. Fails only if memory runs out.
/// `stands_apart(alloc, "a = ?", &Marks::First)?` gives `true`
/// `stands_apart(alloc, "a = '?'", &Marks::First)?` gives `false`
pub fn stands_apart(
    alloc: Global,
    template: &str,
    marks: &Marks<'_>,
) -> Result<bool, SqlBuilderError>
    ensures apart { IfOk result (λ b. b ≡ apart template.now (marks_of marks.now)) }
    ensures memory { FailsOnlyByMemory result }
{
    match marks {
        Marks::Cycle(count) if lacks_arguments(template, *count) => Ok(false),
        _ => segments_apart(alloc, template, *marks),
    }
}

/// Returns whether the text has a backslash. Some databases take it to escape the character behind
/// it in a literal, as MySQL and MariaDB do by default. Never fails.
/// `has_backslash("a\\b")` gives `true`
#[tactic(auto, using(crate::proofs::bytes::ByteFacts::found_byte))]
pub fn has_backslash(text: &str) -> bool
    ensures { result ≡ has_backslash text.now }
{
    find_byte(text.as_bytes(), b'\\').is_some()
}

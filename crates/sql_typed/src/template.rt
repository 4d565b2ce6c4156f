//! Templates: texts of the program's own with a `?`, a hole, for each operand.
ghost use Rattle.std.specs.Prelude.{◌≡◌, ◌+◌, ◌++◌, [], ◌∷◌, IfErr, IfOk, IsTrue, is_ok, length, string_bytes};
ghost use Rattle.std.specs.List.{list_all};
ghost use Rattle.sql_parts.specs.Error.{FailsOnlyByMemory};
ghost use Rattle.sql_parts.specs.Holes.{filled, hole_count, holes_apart, in_hole};
ghost use Rattle.sql_parts.specs.Violations.{violation};
ghost use Rattle.sql_parts.specs.Operands.{is_bare_operand, is_typed_fragment, is_typed_operand};
ghost use Rattle.sql_parts.specs.Text.{texts};
ghost use Rattle.sql_parts.specs.Tokens.{closed, tokens};
ghost use Rattle.sql_builder.specs.Layout.{byte_units};
ghost use Rattle.sql_builder.specs.Phrases.{in_brackets};
ghost use Rattle.sql_builder.specs.Shape.{EndsInOneSemicolon};
ghost use Rattle.sql_typed.specs.Filled.{ReadersIgnoreOperandTexts, fault, message_text, takes};
ghost use Rattle.sql_typed.specs.Results.{Prints};
ghost use Rattle.sql_typed.specs.declared.template.TemplateError.TheVariants.{HolesTouch};

use crate::Result;
use crate::condition::{bracketed, push_bracketed};
use crate::operand_text::OperandText;
use crate::texts::Condition;
use sql_parts::SqlBuilderError;
use sql_parts::holes::{hole_count, holes_apart, is_unit};
use sql_parts::lex::{Requirement, Violation, violation};
use sql_parts::text::OwnedOperand;
use std::alloc::Global;
use std::error::Error;
use std::fmt;

/// The reason why a text is no template, or a template with its operands isn't what it is to be.
#[derive(Debug, Drop)]
pub enum TemplateError {
    /// A `?` is in a literal, a name or a comment, or something else than a separator is beside it.
    HolesTouch,
    /// There is not one operand for each `?`.
    OperandCount,
    /// Its text is no condition or no operand, whatever is in its holes, for this reason.
    Violation(Violation),
    /// Another call failed.
    Builder(SqlBuilderError),
}

impl TemplateError {
    /// Returns the error's message, which Display prints too. Never fails.
    /// `TemplateError::OperandCount.message()` gives `Not one operand for each ?`
    pub fn message(&self) -> &'static str
        ensures text { result.now ≡ message_text self.now }
    {
        match self {
            TemplateError::HolesTouch => {
                "A ? is in a literal, a name or a comment, or has no separator beside it"
            }
            TemplateError::OperandCount => "Not one operand for each ?",
            TemplateError::Violation(reason) => reason.message(),
            TemplateError::Builder(error) => error.message(),
        }
    }
}

impl fmt::Display for TemplateError {
    ghost use Rattle.std.specs.Prelude.{Some};
    ghost use Rattle.sql_typed.specs.Filled.{message_text};

    ghost output = { λ e. Some (message_text e) };

    ghost styled_output = { λ e _. Some (message_text e) };

    fn fmt<W: fmt::Write>(&self, f: &mut fmt::Formatter<W>) -> fmt::Result {
        f.write_str(self.message())
    }
}

impl Error for TemplateError {}

impl From<SqlBuilderError> for TemplateError {
    ghost use Rattle.std.specs.Prelude.{◌≡◌};
    ghost use Rattle.sql_typed.specs.declared.template.TemplateError.TheVariants.{Builder};

    ghost from_gives = { λ failed error. error ≡ Builder failed };

    fn from(error: SqlBuilderError) -> TemplateError {
        TemplateError::Builder(error)
    }
}

/// Operands for the holes of a template, in their order. They may be of different types.
#[derive(Drop)]
pub struct Operands {
    alloc: Global,
    /// The operands as they are written in holes: in brackets, but for literals that aren't negative,
    /// placeholders, names and texts in brackets.
    pub written: Vec<String>,
    pub ghost serve: { IsTrue (list_all is_bare_operand (texts written.items)) },
}

impl Operands {
    /// Returns a list without operands. Never fails.
    /// `Operands::new(alloc).written.len()` gives `0`
    pub fn new(alloc: Global) -> Operands
        ensures { result.written.items ≡ [] }
    {
        let written = Vec::new(alloc);
        Operands { alloc, written }
    }

    /// Adds an operand. Fails only if memory runs out.
    /// `Operands::new(alloc).with(Value("it's"))?.with(Operand::of("a + b"))?.written` gives
    /// `['it''s', (a + b)]`
    pub fn with<V: OperandText>(mut self, operand: V) -> Result<Operands>
        ensures texts { IfOk result (λ operands. texts operands.written.items
            ≡ texts self.written.items ++ in_hole (V.text operand) ∷ []) }
        ensures count { IfOk result (λ operands. length operands.written.items ≡ length self.written.items + 1) }
        ensures memory { FailsOnlyByMemory result }
    {
        let text = for_hole(self.alloc, operand.to_text(self.alloc)?)?;
        self.written.push(text)?;
        Ok(self)
    }

    /// Adds a condition in brackets, as an operand. Fails only if memory runs out.
    /// `Operands::new(alloc).with_condition(&is_null(alloc, Operand::of("a"))?)?.written` gives
    /// `[(a IS NULL)]`
    #[tactic(auto, using(crate::proofs::FilledLemmas::bracketed_in_hole, crate::proofs::FilledLemmas::condition_balanced))]
    pub fn with_condition(self, condition: &Condition) -> Result<Operands>
        ensures texts { IfOk result (λ operands. texts operands.written.items
            ≡ texts self.written.items ++ in_brackets byte_units (string_bytes condition.now.text) ∷ []) }
        ensures count { IfOk result (λ operands. length operands.written.items ≡ length self.written.items + 1) }
        ensures memory { FailsOnlyByMemory result }
    {
        let operand = bracketed(self.alloc, condition.text.as_str())?;
        let operands = self.with(operand)?;
        Ok(operands)
    }
}

// The text of an operand as it is written in a hole.
fn for_hole(alloc: Global, text: String) -> Result<String>
    ensures text { IfOk result (λ s. string_bytes s ≡ in_hole (string_bytes text)) }
    ensures memory { FailsOnlyByMemory result }
{
    if is_unit(text.as_str()) {
        return Ok(text);
    }
    let mut bracketed = String::with_capacity(alloc, text.len().saturating_add(2))?;
    push_bracketed(&mut bracketed, text.as_str())?;
    Ok(bracketed)
}

/// A text of the program's own with a hole for each operand. A hole is a `?` with a separator or an
/// end of the text at both sides. An operator of the database's own can't be written this way: for
/// `data ? 'key'` take `jsonb_exists(data, ?)`.
#[derive(Clone, Copy)]
#[non_exhaustive]
pub struct Template<'a> {
    /// The text.
    pub text: &'a str,
    pub ghost apart: { IsTrue (holes_apart text.now) },
}

impl<'a> Template<'a> {
    /// Returns the template of this text, whose holes have to stand apart. Only a proof tests this:
    /// `rt try` doesn't. Never fails.
    /// `Template::of("price * ? > ?").text` gives `price * ? > ?`
    pub fn of(text: &'a str) -> Template<'a>
        requires apart { IsTrue (holes_apart text.now) }
        ensures text { result.text ≡ text.entry }
        ensures operand { IsTrue (is_typed_operand text.entry.now) → IsTrue (is_typed_operand result.text.now) }
        ensures condition { IsTrue (is_typed_fragment text.entry.now) → IsTrue (is_typed_fragment result.text.now) }
    {
        Template { text }
    }

    /// Returns a text of the program's own as a template. Fails with `HolesTouch` if its holes
    /// don't stand apart. Takes no memory. Never give it untrusted text.
    /// `Template::of_trusted("title = '?'")` fails with `HolesTouch`
    pub fn of_trusted(text: &'a str) -> std::result::Result<Template<'a>, TemplateError>
        ensures apart { is_ok result ≡ holes_apart text.entry.now }
        ensures text { IfOk result (λ template. template.text ≡ text.entry) }
        ensures error { IfErr result (λ error. error ≡ HolesTouch) }
    {
        if holes_apart(text) {
            Ok(Template { text })
        } else {
            Err(TemplateError::HolesTouch)
        }
    }

    /// Tests what the calls below require, if the text or the operands aren't known before the
    /// program runs. Fails with the `Violation` if the text doesn't meet the requirement, and else with
    /// `OperandCount`. Takes no memory.
    /// `Template::of("a OR ?").check(Requirement::TypedOperand, &Operands::new(alloc))` fails with `Violation(Joined)`
    pub fn check(
        self,
        requirement: Requirement,
        operands: &Operands,
    ) -> std::result::Result<(), TemplateError>
        ensures takes { is_ok result ≡ takes requirement self.entry.text.now (length operands.now.written.items) }
        ensures error { IfErr result (λ error. error ≡ fault (violation requirement self.entry.text.now)) }
    {
        if let Some(reason) = violation(self.text, requirement) {
            return Err(TemplateError::Violation(reason));
        }
        if hole_count(self.text) != operands.written.len() {
            return Err(TemplateError::OperandCount);
        }
        Ok(())
    }

    /// Returns the template with these operands in its holes, as an operand. The text with a word
    /// in each hole has to be one. Fails only if memory runs out.
    /// `Template::of("lower(?)").operand(alloc, &Operands::new(alloc).with(Value("It's"))?)?.text` gives `lower('It''s')`
    pub fn operand(self, alloc: Global, operands: &Operands) -> Result<OwnedOperand>
        requires fits { IsTrue (is_typed_operand self.text.now) }
        requires count { hole_count self.text.now ≡ length operands.now.written.items }
        ensures text { IfOk result (λ owned. string_bytes owned.text
            ≡ filled (texts operands.now.written.items) self.entry.text.now) }
        ensures memory { FailsOnlyByMemory result }
    {
        let text = filled(alloc, self.text, &operands.written)?;
        Ok(OwnedOperand::of_built(text))
    }

    /// Returns the template with these operands in its holes, as a condition. `as_fragment` borrows
    /// that as a fragment. Fails only if memory runs out.
    /// `Template::of("instr(title, ?) > 0").condition(alloc, &Operands::new(alloc).with(Value("it's"))?)?.text` gives
    /// `instr(title, 'it''s') > 0`
    #[tactic(auto, using(crate::proofs::FilledLemmas::fragment_filled))]
    pub fn condition(self, alloc: Global, operands: &Operands) -> Result<Condition>
        requires fits { IsTrue (is_typed_fragment self.text.now) }
        requires count { hole_count self.text.now ≡ length operands.now.written.items }
        ensures text { Prints result (filled (texts operands.now.written.items) self.entry.text.now) }
    {
        let text = filled(alloc, self.text, &operands.written)?;
        Ok(Condition { text })
    }

    /// Returns the template with these operands in its holes, as a statement of any kind. No test
    /// of a fragment reads it. No operand ends a literal or a comment, or has a `;`. Fails only if
    /// memory runs out.
    /// ```
    /// let name = Operands::new(alloc).with(Value("it's"))?;
    /// let upsert = Template::of("INSERT INTO t (a) VALUES (?) ON CONFLICT DO NOTHING;");
    /// upsert.sql(alloc, &name)?; // INSERT INTO t (a) VALUES ('it''s') ON CONFLICT DO NOTHING;
    /// ```
    #[tactic(auto, using(crate::proofs::FilledStatementLemmas::closed_filled))]
    pub fn sql(self, alloc: Global, operands: &Operands) -> Result<String>
        requires count { hole_count self.text.now ≡ length operands.now.written.items }
        ensures text { IfOk result (λ s. string_bytes s
            ≡ filled (texts operands.now.written.items) self.entry.text.now) }
        ensures closed { IfOk result (λ s. IsTrue (closed (string_bytes s))) }
        ensures semicolon { EndsInOneSemicolon (tokens self.entry.text.now)
            → IfOk result (λ s. EndsInOneSemicolon (tokens (string_bytes s))) }
        ensures readers { IfOk result (λ s.
            ReadersIgnoreOperandTexts (texts operands.now.written.items) self.entry.text.now) }
        ensures memory { FailsOnlyByMemory result }
    {
        let statement = filled(alloc, self.text, &operands.written)?;
        Ok(statement)
    }
}

// How much room `filled` asks for: an operand is in the place of each `?`.
fn filled_room(template: &str, operands: &[String]) -> usize {
    let words = template.len().saturating_sub(operands.len());
    operands
        .iter()
        .fold(words, |room, operand| room.saturating_add(operand.len()))
}

// The template with these texts in its holes.
fn filled(alloc: Global, template: &str, operands: &[String]) -> Result<String>
    ensures text { IfOk result (λ s. string_bytes s ≡ filled (texts operands.now) template.now) }
    ensures memory { FailsOnlyByMemory result }
{
    let mut text = String::with_capacity(alloc, filled_room(template, operands))?;
    let mut rest = template;
    for operand in operands {
        let Some((segment, behind)) = rest.split_once('?') else {
            break;
        };
        text.push_str(segment)?;
        text.push_str(operand.as_str())?;
        rest = behind;
    }
    text.push_str(rest)?;
    Ok(text)
}

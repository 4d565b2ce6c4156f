//! Names of tables and columns, as parts with dots between them and perhaps an alias.
ghost use Rattle.std.specs.Prelude.{◌≡◌, ◌++◌, Some, codes, flat_map, map, string_bytes, IfOk, IsTrue, OnErr, OnOk};
ghost use Rattle.std.specs.List.{list_all};
ghost use Rattle.sql_parts.specs.{FailsOnlyByMemory, alias_text, fits_form, is_plain, is_plain_byte, name_of, name_parts, name_text, name_token, name_tokens};
ghost use Rattle.sql_parts.specs.{safe_form, safe_text, safe_tokens, str_token, tokens_in, with_alias, with_part, with_change, written_in, baquoted, between};
ghost use Rattle.sql_parts.specs.{brquoted, dquoted, quoted, join_with, optional_texts, texts, closed, tokens};

use crate::error::SqlBuilderError;
use crate::loan::{Loan, release};
use crate::quoting::push_enclosed;
use crate::text::{OwnedOperand, Quotes, ToText, copies, copy};
use std::alloc::{AllocError, Global};
use std::marker::Model;

/// A name of at least one part, and perhaps an alias. Each form writes the parts with dots between
/// them, and then ` AS ` and the alias. A plain alias is bare, and any other is between backquotes.
/// A text is plain if each byte is one of `a` to `z`, `0` to `9` and `_`. The empty text is plain
/// too.
#[derive(Drop)]
pub struct SqlName {
    alloc: Global,
    first: String,
    // The second part and those behind it, so that a name of two parts takes no list.
    rest: Option<(String, Vec<String>)>,
    alias: Option<String>,
}

impl Model for SqlName {
    ghost use Rattle.std.specs.Prelude.{string_bytes};
    ghost use Rattle.sql_parts.specs.Name.{Name};
    ghost use Rattle.sql_parts.specs.Text.{optional_text, optional_texts};

    ghost Value = { Name };

    ghost view = { λ name. record {
      first = string_bytes name.first;
      rest = optional_texts name.rest;
      alias = optional_text name.alias;
    } };
}

/// How the parts of a name are written: bare, or between delimiters.
#[derive(Clone, Copy)]
enum Form {
    Bare,
    Between(Quotes),
}

impl Form {
    fn push_part(self, out: &mut String, part: &str) -> Result<(), AllocError>
        ensures text { OnOk result
            (string_bytes out.new ≡ string_bytes out.old ++ written_in self part.now) }
    {
        match self {
            Form::Bare => out.push_str(part),
            Form::Between(quotes) => push_enclosed(out, quotes, part),
        }
    }

    // Parts behind the first, each with a dot before it.
    fn push_further(self, out: &mut String, parts: &[String]) -> Result<(), AllocError>
        ensures text { OnOk result (string_bytes out.new
            ≡ string_bytes out.old ++ flat_map (λ part. codes "." ++ part) (map (written_in self) (texts parts.now))) }
    {
        for part in parts {
            out.push('.')?;
            self.push_part(out, part.as_str())?;
        }
        Ok(())
    }
}

// Most bytes are letters, which two comparisons tell.
fn is_plain_byte(byte: u8) -> bool
    ensures { result ≡ is_plain_byte byte }
{
    if byte >= b'a' {
        byte <= b'z'
    } else {
        matches!(byte, b'0'..=b'9' | b'_')
    }
}

fn is_plain(text: &str) -> bool
    ensures { result ≡ is_plain text.now }
{
    text.bytes().all(|byte| is_plain_byte(byte))
}

fn are_plain(parts: &[String]) -> bool
    ensures { result ≡ list_all is_plain (texts parts.now) }
{
    parts.iter().all(|part| is_plain(part.as_str()))
}

/// What a call changes of a name.
#[derive(Clone, Copy)]
pub(crate) enum Change {
    Part,
    Alias,
}

impl SqlName {
    ghost use Rattle.std.specs.Borrow.{sem};
    ghost use Rattle.sql_parts.specs.NameLoans.{IsUnchangedIfErr, IsUnchangedIfLoanErr};
    ghost use Rattle.sql_parts.specs.Loans.{IsChangedTo, IsLoanChangedTo};

    /// Returns a name of one part, without an alias. Fails only if memory runs out.
    /// `SqlName::new(alloc, "a")?.safe()?` gives `a`
    pub fn new<S: ToText>(alloc: Global, part: S) -> Result<SqlName, SqlBuilderError>
        ensures name { IfOk result (λ name. name ≡ name_of (S.text part)) }
        ensures memory { FailsOnlyByMemory result }
    {
        Ok(SqlName {
            alloc,
            first: part.to_text(alloc)?,
            rest: None,
            alias: None,
        })
    }

    fn push_part(&mut self, part: String) -> Result<(), SqlBuilderError>
        ensures added { OnOk result (self.new ≡ with_part (string_bytes part) self.old) }
        ensures unchanged { OnErr result (self.new ≡ self.old) }
        ensures memory { FailsOnlyByMemory result }
    {
        match &mut self.rest {
            Some((_, further)) => further.push(part)?,
            None => self.rest = Some((part, Vec::new(self.alloc))),
        }
        Ok(())
    }

    fn step<S: ToText>(
        &mut self,
        change: Change,
        text: S,
    ) -> Result<Loan<'_, SqlName>, SqlBuilderError>
        ensures* unchanged { sem 𝓛 (IsUnchangedIfLoanErr self.entry result) }
        ensures changed { IsLoanChangedTo self.entry (with_change change (S.text text) self.old) result }
        ensures memory { FailsOnlyByMemory result }
    {
        let text = text.to_text(self.alloc)?;
        match change {
            Change::Part => self.push_part(text)?,
            Change::Alias => self.alias = Some(text),
        }
        Ok(Loan(self))
    }

    /// Adds a part behind the others. Fails only if memory runs out, and then leaves the name
    /// unchanged.
    /// `SqlName::new(alloc, "a")?.add("b")?.safe()?` gives `a.b`
    pub fn add<S: ToText>(&mut self, part: S) -> Result<&mut Self, SqlBuilderError>
        ensures* unchanged { sem 𝓛 (IsUnchangedIfErr self.entry result) }
        ensures changed { IsChangedTo self.entry (with_part (S.text part) self.old) result }
        ensures memory { FailsOnlyByMemory result }
    {
        release(self.step(Change::Part, part))
    }

    /// Sets the alias, in place of any other. An alias that isn't plain is between backquotes in
    /// every form, which not every database reads as quotes. Fails only if memory runs out, and
    /// then leaves the name unchanged.
    /// `SqlName::new(alloc, "a")?.alias("b")?.safe()?` gives `a AS b`
    pub fn alias<S: ToText>(&mut self, alias: S) -> Result<&mut Self, SqlBuilderError>
        ensures* unchanged { sem 𝓛 (IsUnchangedIfErr self.entry result) }
        ensures changed { IsChangedTo self.entry (with_alias (S.text alias) self.old) result }
        ensures memory { FailsOnlyByMemory result }
    {
        release(self.step(Change::Alias, alias))
    }

    fn copy_rest(&self) -> Result<Option<(String, Vec<String>)>, SqlBuilderError>
        ensures equal { IfOk result (λ rest. optional_texts rest ≡ self.now.rest) }
        ensures memory { FailsOnlyByMemory result }
    {
        match &self.rest {
            Some((second, further)) => Ok(Some((
                second.to_text(self.alloc)?,
                copies(self.alloc, further)?,
            ))),
            None => Ok(None),
        }
    }

    /// Returns a name with the same parts and the same alias. Fails only if memory runs out.
    /// `SqlName::new(alloc, "a")?.clone()?.safe()?` gives `a`
    pub fn clone(&self) -> Result<SqlName, SqlBuilderError>
        ensures equal { IfOk result (λ name. name ≡ self.now) }
        ensures memory { FailsOnlyByMemory result }
    {
        Ok(SqlName {
            alloc: self.alloc,
            first: self.first.to_text(self.alloc)?,
            rest: self.copy_rest()?,
            alias: copy(self.alloc, &self.alias)?,
        })
    }

    /// Returns the name with bare parts if all are plain, or else with each part between
    /// backquotes. Fails only if memory runs out.
    /// `SqlName::new(alloc, "a")?.add("B")?.safe()?` gives `` `a`.`B` ``
    #[tactic(auto, using(crate::proofs::tokens::NameFacts::safe_fits))]
    pub fn safe(&self) -> Result<String, SqlBuilderError>
        ensures text { IfOk result (λ s. string_bytes s ≡ safe_text self.now) }
        ensures tokens { IfOk result (λ s. tokens (string_bytes s) ≡ safe_tokens self.now) }
        ensures closed { IfOk result (λ s. IsTrue (closed (string_bytes s))) }
        ensures memory { FailsOnlyByMemory result }
    {
        self.print(self.safe_form())
    }

    /// Returns the name with each part between single quotes. Fails only if memory runs out.
    /// `SqlName::new(alloc, "a")?.add("b")?.quoted()?` gives `'a'.'b'`
    pub fn quoted(&self) -> Result<String, SqlBuilderError>
        ensures text { IfOk result (λ s. string_bytes s ≡ name_text quoted self.now) }
        ensures tokens { IfOk result (λ s. tokens (string_bytes s)
            ≡ name_tokens str_token self.now) }
        ensures closed { IfOk result (λ s. IsTrue (closed (string_bytes s))) }
        ensures memory { FailsOnlyByMemory result }
    {
        self.print(Form::Between(Quotes::Single))
    }

    /// Returns the name with each part between backquotes. Fails only if memory runs out.
    /// `SqlName::new(alloc, "a")?.add("b")?.baquoted()?` gives `` `a`.`b` ``
    pub fn baquoted(&self) -> Result<String, SqlBuilderError>
        ensures text { IfOk result (λ s. string_bytes s ≡ name_text baquoted self.now) }
        ensures tokens { IfOk result (λ s. tokens (string_bytes s)
            ≡ name_tokens name_token self.now) }
        ensures closed { IfOk result (λ s. IsTrue (closed (string_bytes s))) }
        ensures memory { FailsOnlyByMemory result }
    {
        self.print(Form::Between(Quotes::Back))
    }

    /// Returns the name with each part between square brackets. Fails only if memory runs out.
    /// `SqlName::new(alloc, "a")?.add("b")?.brquoted()?` gives `[a].[b]`
    pub fn brquoted(&self) -> Result<String, SqlBuilderError>
        ensures text { IfOk result (λ s. string_bytes s ≡ name_text brquoted self.now) }
        ensures tokens { IfOk result (λ s. tokens (string_bytes s)
            ≡ name_tokens name_token self.now) }
        ensures closed { IfOk result (λ s. IsTrue (closed (string_bytes s))) }
        ensures memory { FailsOnlyByMemory result }
    {
        self.print(Form::Between(Quotes::Square))
    }

    /// Returns the name with each part between double quotes. Fails only if memory runs out.
    /// `SqlName::new(alloc, "a")?.add("b")?.dquoted()?` gives `"a"."b"`
    pub fn dquoted(&self) -> Result<String, SqlBuilderError>
        ensures text { IfOk result (λ s. string_bytes s ≡ name_text dquoted self.now) }
        ensures tokens { IfOk result (λ s. tokens (string_bytes s)
            ≡ name_tokens name_token self.now) }
        ensures closed { IfOk result (λ s. IsTrue (closed (string_bytes s))) }
        ensures memory { FailsOnlyByMemory result }
    {
        self.print(Form::Between(Quotes::Double))
    }

    /// Returns the parts of the name between these quotes, without the alias. The type says that it
    /// is an operand, whatever the parts are. Fails only if memory runs out.
    /// `SqlName::new(alloc, "a\"b")?.operand(Quotes::Double)?.text` gives `"a""b"`
    pub fn operand(&self, quotes: Quotes) -> Result<OwnedOperand, SqlBuilderError>
        ensures text { IfOk result (λ name. string_bytes name.text
            ≡ join_with (codes ".") (map (between quotes) (name_parts self.now))) }
        ensures memory { FailsOnlyByMemory result }
    {
        let mut text = String::with_capacity(self.alloc, self.room())?;
        let form = Form::Between(quotes);
        form.push_part(&mut text, self.first.as_str())?;
        self.push_rest(&mut text, form)?;
        Ok(OwnedOperand { text })
    }

    fn safe_form(&self) -> Form
        ensures { result ≡ safe_form self.now }
    {
        if is_plain(self.first.as_str()) && self.is_rest_plain() {
            Form::Bare
        } else {
            Form::Between(Quotes::Back)
        }
    }

    fn is_rest_plain(&self) -> bool
        ensures { result ≡ list_all is_plain self.now.rest }
    {
        match &self.rest {
            Some((second, further)) => is_plain(second.as_str()) && are_plain(further),
            None => true,
        }
    }

    fn push_rest(&self, out: &mut String, form: Form) -> Result<(), AllocError>
        ensures text { OnOk result (string_bytes out.new ≡ string_bytes out.old
            ++ flat_map (λ part. codes "." ++ part) (map (written_in form) self.now.rest)) }
    {
        if let Some((second, further)) = &self.rest {
            out.push('.')?;
            form.push_part(out, second.as_str())?;
            form.push_further(out, further)?;
        }
        Ok(())
    }

    fn push_in(&self, out: &mut String, form: Form) -> Result<(), AllocError>
        ensures text { OnOk result (string_bytes out.new
            ≡ string_bytes out.old ++ name_text (written_in form) self.now) }
    {
        form.push_part(out, self.first.as_str())?;
        self.push_rest(out, form)?;
        match &self.alias {
            Some(alias) => push_alias(out, alias.as_str()),
            None => Ok(()),
        }
    }

    // Room for the name, as long as no part has a delimiter to double.
    fn room(&self) -> usize {
        let mut room = self.first.len().saturating_add("``".len());
        if let Some((second, further)) = &self.rest {
            room = room
                .saturating_add(second.len())
                .saturating_add(".``".len());
            for part in further {
                room = room.saturating_add(part.len()).saturating_add(".``".len());
            }
        }
        match &self.alias {
            Some(alias) => room
                .saturating_add(alias.len())
                .saturating_add(" AS ``".len()),
            None => room,
        }
    }

    #[tactic(auto, using(crate::proofs::tokens::NameFacts::name_is, crate::proofs::tokens::NameFacts::name_closed))]
    fn print(&self, form: Form) -> Result<String, SqlBuilderError>
        ensures text { IfOk result (λ s. string_bytes s ≡ name_text (written_in form) self.now) }
        ensures tokens { IfOk result (λ s. IsTrue (fits_form form (name_parts self.now))
            → tokens (string_bytes s) ≡ name_tokens (tokens_in form) self.now) }
        ensures closed { IfOk result (λ s. IsTrue (fits_form form (name_parts self.now))
            → IsTrue (closed (string_bytes s))) }
        ensures memory { FailsOnlyByMemory result }
    {
        let mut out = String::with_capacity(self.alloc, self.room())?;
        self.push_in(&mut out, form)?;
        Ok(out)
    }
}

fn push_alias(out: &mut String, alias: &str) -> Result<(), AllocError>
    ensures text { OnOk result
        (string_bytes out.new ≡ string_bytes out.old ++ alias_text (Some alias.now)) }
{
    out.push_str(" AS ")?;
    let form = if is_plain(alias) {
        Form::Bare
    } else {
        Form::Between(Quotes::Back)
    };
    form.push_part(out, alias)
}

/// The text of a name in the form that is given first: what the five macros below share.
#[doc(hidden)]
#[macro_export]
macro_rules! name_in_form {
    ($form:ident; $alloc:expr, $first:expr $(; $alias:expr)?) => {
        $crate::name_in_form!($form; $alloc, $first, $(; $alias)?)
    };
    ($form:ident; $alloc:expr, $first:expr, $($part:expr),* $(; $alias:expr)?) => {{
        let mut name = SqlName::new($alloc, $first)?;
        $(name.add($part)?;)*
        $(name.alias($alias)?;)?
        name.$form()?
    }};
}

/// Returns the name that `safe` writes: `name!(alloc, part, ..; alias)`, with one part or more and
/// perhaps an alias. An alias that isn't plain is between backquotes. `SqlName` has to be in the
/// caller's scope. Fails only if memory runs out, and then the caller's function returns, by `?`.
/// `name!(alloc, "a", "b"; "c")` gives `a.b AS c`
#[macro_export]
macro_rules! name {
    ($($name:tt)*) => { $crate::name_in_form!(safe; $($name)*) };
}

/// Returns the name that `quoted` writes, and is called as `name!`. Fails only if memory runs out.
/// `qname!(alloc, "a", "b"; "c")` gives `'a'.'b' AS c`
#[macro_export]
macro_rules! qname {
    ($($name:tt)*) => { $crate::name_in_form!(quoted; $($name)*) };
}

/// Returns the name that `baquoted` writes, and is called as `name!`. Fails only if memory runs
/// out.
/// `baname!(alloc, "a", "b"; "c")` gives `` `a`.`b` AS c ``
#[macro_export]
macro_rules! baname {
    ($($name:tt)*) => { $crate::name_in_form!(baquoted; $($name)*) };
}

/// Returns the name that `brquoted` writes, and is called as `name!`. Fails only if memory runs
/// out.
/// `brname!(alloc, "a", "b"; "c")` gives `[a].[b] AS c`
#[macro_export]
macro_rules! brname {
    ($($name:tt)*) => { $crate::name_in_form!(brquoted; $($name)*) };
}

/// Returns the name that `dquoted` writes, and is called as `name!`. Fails only if memory runs out.
/// `dname!(alloc, "a", "b"; "c")` gives `"a"."b" AS c`
#[macro_export]
macro_rules! dname {
    ($($name:tt)*) => { $crate::name_in_form!(dquoted; $($name)*) };
}

//! Untrusted values in statements.
ghost use Rattle.std.specs.Prelude.{◌≡◌, [], ◌∷◌, ◌++◌, codes, length, map, option_map, string_bytes, IfOk, IfSome, IsTrue, Some};
ghost use Rattle.sql_builder.specs.Templates.{bound_tokens};
ghost use Rattle.sql_builder.specs.Builder.{started, with_condition};
ghost use Rattle.sql_builder.specs.Calls.{SelectFrom};
ghost use Rattle.sql_builder.specs.declared.condition.Condition.TheVariants.{Compare};
ghost use Rattle.sql_builder.specs.Error.{FailsOnlyByMemory};
ghost use Rattle.sql_builder.specs.Layout.{byte_units, sql};
ghost use Rattle.sql_builder.specs.Meaning.{HasTruthOf};
ghost use Rattle.sql_builder.specs.Quoting.{quoted};
ghost use Rattle.sql_builder.specs.Shape.{EndsInOneSemicolon};
ghost use Rattle.sql_builder.specs.Templates as templates;
ghost use Rattle.sql_builder.specs.Templates.{listed, resolve};
ghost use Rattle.sql_builder.specs.Tokens.{Str, closed, tokens};
ghost use Rattle.sql_builder.specs.declared.condition.Family.TheVariants.{And};
ghost use Rattle.sql_builder.specs.declared.condition.Relation.TheVariants.{Eq};
ghost use Rattle.callers.specs.Columns.{by_author};

use sql_builder::SqlBuilderError;
use sql_builder::laws::{fit_texts_make_fit_fragments, literals_are_operands};
use sql_builder::lex::stands_apart;
use sql_builder::prelude::*;
use std::alloc::Global;

/// The books with this title, whatever text it is: the WHERE is true where the title is this one.
pub fn titled(alloc: Global, title: &str) -> Result<String, SqlBuilderError>
    ensures tokens { IfOk result (λ s. tokens (string_bytes s)
        ≡ tokens (codes "SELECT * FROM books WHERE title =") ++ (Str title.now ∷ tokens (codes ";"))) }
    ensures closed { IfOk result (λ s. IsTrue (closed (string_bytes s))) }
    ensures semicolon { IfOk result (λ s. EndsInOneSemicolon (tokens (string_bytes s))) }
    ensures truth { IfOk result (λ s. HasTruthOf
        (((tokens (codes "title =") ++ Str title.now ∷ []) ∷ []) ∷ []) (string_bytes s)) }
    ensures memory { FailsOnlyByMemory result }
{
    fit_texts_make_fit_fragments();
    literals_are_operands();
    let title = quote(alloc, title)?;
    SqlBuilder::select_from(alloc, "books")?
        .and_where_eq("title", title)?
        .sql()
}

/// The same statement, as a template with one placeholder.
pub fn titled_bound(alloc: Global, title: &str) -> Result<String, SqlBuilderError>
    ensures tokens { IfOk result (λ s. tokens (string_bytes s)
        ≡ tokens (codes "SELECT * FROM books WHERE title =") ++ (Str title.now ∷ tokens (codes ";"))) }
    ensures closed { IfOk result (λ s. IsTrue (closed (string_bytes s))) }
    ensures semicolon { IfOk result (λ s. EndsInOneSemicolon (tokens (string_bytes s))) }
    ensures memory { FailsOnlyByMemory result }
{
    "SELECT * FROM books WHERE title = ?;".bind(alloc, &title)
}

/// The template with the values in it, where they stand apart.
pub fn filled(
    alloc: Global,
    template: &str,
    args: &[Box<dyn SqlArg>],
) -> Result<Option<String>, SqlBuilderError>
    ensures tokens { IfOk result (λ found. IfSome found (λ s. Some (tokens (string_bytes s))
        ≡ option_map (bound_tokens (listed (map (λ b. literal b) args.now)))
        (resolve template.now (templates.Cycle (length args.now))))) }
    ensures closed { IfOk result (λ found. IfSome found (λ s. IsTrue (closed (string_bytes s)))) }
    ensures memory { FailsOnlyByMemory result }
{
    if !stands_apart(alloc, template, &Marks::Cycle(args.len()))? {
        return Ok(None);
    }
    Ok(Some(template.binds(alloc, args)?))
}

/// What is known of the books of this title, and of this author where one is given.
pub fn sought(
    alloc: Global,
    title: &str,
    author: Option<&str>,
) -> Result<SqlBuilder, SqlBuilderError>
    ensures made { IfOk result (λ b. b ≡ by_author (option_map (λ s. s.now) author.entry)
        (with_condition And (Compare Eq (codes "title") (quoted title.now))
        (started (SelectFrom (codes "books"))))) }
    ensures memory { FailsOnlyByMemory result }
{
    let mut builder = SqlBuilder::select_from(alloc, "books")?;
    builder.and_where_eq("title", quote(alloc, title)?)?;
    if let Some(author) = author {
        builder.and_where_eq("author", quote(alloc, author)?)?;
    }
    Ok(builder)
}

/// The same as a statement.
pub fn sought_printed(
    alloc: Global,
    title: &str,
    author: Option<&str>,
) -> Result<String, SqlBuilderError>
    ensures text { IfOk result (λ s. string_bytes s
        ≡ sql byte_units (by_author (option_map (λ s. s.now) author.entry)
        (with_condition And (Compare Eq (codes "title") (quoted title.now))
        (started (SelectFrom (codes "books")))))) }
    ensures closed { IfOk result (λ s. IsTrue (closed (string_bytes s))) }
    ensures memory { FailsOnlyByMemory result }
{
    literals_are_operands();
    let builder = sought(alloc, title, author)?;
    builder.sql()
}

//! Statements that are the same whatever the user's texts are.
ghost use Rattle.std.specs.Prelude.{◌≡◌, [], ◌∷◌, codes, false, string_bytes, IfOk, Ok};
ghost use Rattle.sql_builder.specs.StringTexts.{outline};
ghost use Rattle.sql_builder.specs.Calls.{Cond, SetStr, Sql, UpdateTable};
ghost use Rattle.sql_builder.specs.declared.condition.Condition.TheVariants.{Like};
ghost use Rattle.sql_builder.specs.Error.{FailsOnlyByMemory};
ghost use Rattle.sql_builder.specs.Statement.{statement};
ghost use Rattle.sql_builder.specs.Tokens.{tokens};
ghost use Rattle.sql_builder.specs.declared.condition.Family.TheVariants.{And};
ghost use Rattle.sql_builder.specs.declared.condition.Percent.TheVariants.{Any};
ghost use Rattle.sql_parts.specs.Readers.{parts_bytes};
ghost use Rattle.callers.specs.Titles.{IsReadAlike, title_parts};

use sql_builder::SqlBuilderError;
use sql_builder::laws::{quoted_texts_do_not_interfere, readers_ignore_quoted_parts};
use sql_builder::prelude::*;
use std::alloc::Global;

/// Gives the books with this word in their titles this remark. Whatever the two texts are, the
/// tokens are the same, but for the texts of the strings.
pub fn remarked(alloc: Global, word: &str, remark: &str) -> Result<String, SqlBuilderError>
    ensures same { IfOk result (λ s. outline (string_bytes s)
        ≡ tokens (codes "UPDATE books SET remark = '' WHERE title LIKE '';")) }
    ensures statement { IfOk result (λ s. statement (UpdateTable (codes "books"))
        (SetStr (codes "remark") remark.now ∷ Cond And (Like false Any (codes "title") word.now) ∷ [])
        Sql ≡ Ok (string_bytes s)) }
    ensures memory { FailsOnlyByMemory result }
{
    quoted_texts_do_not_interfere();
    SqlBuilder::update_table(alloc, "books")?
        .set_str("remark", remark)?
        .and_where_like_any("title", word)?
        .sql()
}

/// The books of this title. Where a database's lexer opens a string at an empty title, it reads the
/// rest of the statement alike with every title of bytes that are plain to it.
pub fn of_title(alloc: Global, title: &str) -> Result<String, SqlBuilderError>
    ensures text { IfOk result (λ s. string_bytes s ≡ parts_bytes (title_parts title.now)) }
    ensures read { IfOk result (λ s. IsReadAlike title.now (string_bytes s)) }
    ensures memory { FailsOnlyByMemory result }
{
    readers_ignore_quoted_parts();
    let title = quote(alloc, title)?;
    SqlBuilder::select_from(alloc, "books")?
        .and_where_eq("title", title)?
        .sql()
}

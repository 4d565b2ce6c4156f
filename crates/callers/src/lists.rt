//! Lists of calls, as values.
ghost use Rattle.std.specs.Prelude.{◌≡◌, ◌&&◌, ◌⊎◌, [], ◌∷◌, ◌++◌, codes, false, is_some, map, string_bytes, Err, IfErr, IfOk, IfSome, IsOk, Ok};
ghost use Rattle.sql_builder.specs.Calls.{SelectFrom, Sql, call_view};
ghost use Rattle.sql_builder.specs.Error.{FailsOnlyByMemory, IsMemory};
ghost use Rattle.sql_builder.specs.RawTexts.{Bare};
ghost use Rattle.sql_builder.specs.RawFragments.{is_fit};
ghost use Rattle.sql_builder.specs.Meaning.{HasTruthOf};
ghost use Rattle.sql_builder.specs.Quoting.{quoted};
ghost use Rattle.sql_builder.specs.Statement.{statement};
ghost use Rattle.sql_builder.specs.Text.{decimal_text};
ghost use Rattle.sql_builder.specs.Tokens.{Str, tokens};

use sql_builder::SqlBuilderError;
use sql_builder::calls::{Call, Condition, Family, Finish, Relation, Start, run};
use sql_builder::laws::{fit_texts_make_fit_fragments, literals_are_operands};
use sql_builder::lex::{has_clause_word, is_balanced};
use sql_builder::prelude::*;
use std::alloc::Global;

/// The statement that these calls make of the table of books.
pub fn of_books(alloc: Global, calls: &[Call]) -> Result<String, SqlBuilderError>
    ensures statement { IfOk result (λ s. statement (SelectFrom (codes "books"))
        (map call_view calls.now) Sql ≡ Ok (string_bytes s)) }
    ensures error { IfErr result (λ e. IsMemory e ⊎ (statement (SelectFrom (codes "books"))
        (map call_view calls.now) Sql ≡ Err e)) }
{
    let start = Start::SelectFrom(String::from_str(alloc, "books")?);
    run(alloc, &start, calls, &Finish::Sql)
}

/// The books that meet both conditions, where these leave the statement as it is: its WHERE is
/// true where both of them are, whatever they say. Else there is none, and nothing can fail.
pub fn books_where(alloc: Global, one: &str, other: &str) -> Result<Option<String>, SqlBuilderError>
    ensures asked { IfOk result (λ found. is_some found
        ≡ (is_fit (Bare one.now) && is_fit (Bare other.now))) }
    ensures refused { (is_fit (Bare one.now) && is_fit (Bare other.now)) ≡ false → IsOk result }
    ensures text { IfOk result (λ found. IfSome found (λ text. string_bytes text
        ≡ codes "SELECT * FROM books WHERE (" ++ (one.now ++ (codes ") AND ("
        ++ (other.now ++ codes ");"))))) }
    ensures truth { IfOk result (λ found. IfSome found (λ statement. HasTruthOf
        ((tokens one.now ∷ []) ∷ (tokens other.now ∷ []) ∷ []) (string_bytes statement))) }
    ensures memory { FailsOnlyByMemory result }
{
    if !is_balanced(one) || has_clause_word(one) || !is_balanced(other) || has_clause_word(other) {
        return Ok(None);
    }
    fit_texts_make_fit_fragments();
    let first = String::from_str(alloc, one)?;
    let second = String::from_str(alloc, other)?;
    let start = Start::SelectFrom(String::from_str(alloc, "books")?);
    let calls = [
        Call::Cond(Family::And, Condition::Raw(first)),
        Call::Cond(Family::And, Condition::Raw(second)),
    ];
    Ok(Some(run(alloc, &start, &calls, &Finish::Sql)?))
}

/// The books of this title above this price: its WHERE is true where both comparisons are, whatever
/// text the title is. Nothing is tested, since a literal is an operand.
pub fn titled_above(alloc: Global, title: &str, price: u64) -> Result<String, SqlBuilderError>
    ensures text { IfOk result (λ s. string_bytes s ≡ codes "SELECT * FROM books WHERE (title = "
        ++ (quoted title.now ++ (codes ") AND (price > " ++ (decimal_text price ++ codes ");")))) }
    ensures truth { IfOk result (λ s. HasTruthOf
        (((tokens (codes "title =") ++ Str title.now ∷ []) ∷ [])
        ∷ ((tokens (codes "price >") ++ tokens (decimal_text price)) ∷ []) ∷ []) (string_bytes s)) }
    ensures memory { FailsOnlyByMemory result }
{
    fit_texts_make_fit_fragments();
    literals_are_operands();
    let mut calls = Vec::new(alloc);
    let field = String::from_str(alloc, "title")?;
    let title = quote(alloc, title)?;
    let condition = Condition::Compare(Relation::Eq, field, title);
    calls.push(Call::Cond(Family::And, condition))?;
    let field = String::from_str(alloc, "price")?;
    let price = price.to_text(alloc)?;
    let condition = Condition::Compare(Relation::Gt, field, price);
    calls.push(Call::Cond(Family::And, condition))?;
    let start = Start::SelectFrom(String::from_str(alloc, "books")?);
    run(alloc, &start, &calls, &Finish::Sql)
}

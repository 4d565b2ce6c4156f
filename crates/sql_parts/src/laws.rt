//! Facts about the definitions that the contracts of this crate speak of.
ghost use Rattle.std.specs.Prelude.{◌≡◌, ◌++◌, ◌∷◌, [], Bool, IsTrue, List, codes, length, nat_eq, not, ℕ, ℤ};
ghost use Rattle.std.specs.List.{count_by, ends_with, list_any, starts_with};
ghost use Rattle.std.specs.Str.Iter.{HasSubslice};
ghost use Rattle.sql_parts.specs.{balanced, dangling, has_clause_word, has_top_level, is_balanced, is_clause_word, is_dangling, is_operand, operand};
ghost use Rattle.sql_parts.specs.{ArgumentsDifferInTexts, BlankSomewhere, BoundTextsAreStrings, BoundTextsDoNotInterfere, BoundTextsKeepTheirPlaces};
ghost use Rattle.sql_parts.specs.{IgnoresBoundTexts, IgnoresStrings, NamesDifferInTexts, outline, semicolon_count, DifferInTexts, EndsAsWritten, HasOneReading};
ghost use Rattle.sql_parts.specs.{LeavesTextWithout, MasksMatch, UndoesDoubling, IsInjective, colon, dollar, question_mark, token_count, IsInsideUntilItsEnd};
ghost use Rattle.sql_parts.specs.{LeadsAsNoText, PartsAreAtPlaces, ReadersIgnoreBoundTexts, ReadersIgnoreDoubledTexts, StaysInside, baquoted, brquoted, dquoted};
ghost use Rattle.sql_parts.specs.{escaped, quoted, LiteralValue, literal_text, words, safe_text, NamesAreOperands, ServesAsOperand, has_operand_parts};
ghost use Rattle.sql_parts.specs.Name.{Name};
ghost use Rattle.sql_parts.specs.{is_operand_alias, NumbersAreBound, PlaceholdersAreBound, TextsBindApart, placeholder_text, prefix, bool_text, decimal_text};
ghost use Rattle.sql_parts.specs.{number_text, Cycle, First, Names, Nums, Replacement, bound, apart, literal_tokens, HasNoBackslash, OpensEveryLiteral};
ghost use Rattle.sql_parts.specs.{OpensWithoutBackslashes, ReadsClosed, Symbol, Word, clean, closed, is_open, is_semicolon, tokens};
ghost use Rattle.sql_parts.specs.declared.delimiters.Quotes.TheVariants.{Back, Double, Single, Square};
ghost use Rattle.sql_parts.specs.Templates.{Marks};
ghost use Rattle.sql_parts.specs.declared.parameter.Style.{Style};

/// States that two texts whose quoted texts are equal are equal, in each of the five forms of
/// quoting. Does nothing when it runs. Never fails.
/// `quote(alloc, "a'")?` gives `'a'''`
pub fn quoting_is_injective()
    ensures esc { IsInjective escaped }
    ensures quote { IsInjective quoted }
    ensures baquote { IsInjective baquoted }
    ensures brquote { IsInjective brquoted }
    ensures dquote { IsInjective dquoted }
{}

/// States that `bind_nums` undoes the doubling of each `$` of a text, and `bind_names` that of each
/// `:`, whatever is bound. Does nothing when it runs. Never fails.
/// `"$$1 $$".bind_nums(alloc, &[Box::new(alloc, 7)?])?` gives `$1 $`
pub fn doubling_is_undone()
    ensures bind_nums { (count : ℕ) → UndoesDoubling dollar (Nums count) }
    ensures bind_names { UndoesDoubling colon Names }
{}

/// States that `bind` leaves a text without a `?` as it is. So does `binds` with any number of
/// arguments, even none. Does nothing when it runs. Never fails.
/// `"a = 1".bind(alloc, &7)?` gives `a = 1`
pub fn unmarked_is_unchanged()
    ensures bind { LeavesTextWithout question_mark First }
    ensures binds { (count : ℕ) → LeavesTextWithout question_mark (Cycle count) }
{}

/// States that tokens join at edges. Let a text be closed, and let an edge be beside the seam. The
/// tokens on both sides then stay what they are, whatever the second text is. If the second text is
/// closed too, so are both together. Does nothing when it runs. Never fails.
/// `is_closed("a, -- b")` gives `false`
pub fn tokens_join_at_edges()
    ensures tokens { (one other : List ℕ) → IsTrue (closed one) → IsTrue (clean one other)
        → tokens (one ++ other) ≡ tokens one ++ tokens other }
    ensures closed { (one other : List ℕ) → IsTrue (closed one) → IsTrue (closed other)
        → IsTrue (clean one other) → IsTrue (closed (one ++ other)) }
{}

/// States that the texts of string tokens decide nothing. Tokens that are equal except for some or
/// all of these texts are as many, and as many of them are a `;`. Each test of fragments gives the
/// same answer for both. Does nothing when it runs. Never fails.
/// `is_balanced("a = ')'")` gives `true`
pub fn string_texts_decide_nothing()
    ensures somewhere { BlankSomewhere }
    ensures count { IgnoresStrings length }
    ensures semicolons { IgnoresStrings (count_by is_semicolon) }
    ensures closed { IgnoresStrings (λ ts. not (list_any is_open ts)) }
    ensures balanced { IgnoresStrings is_balanced }
    ensures operand { IgnoresStrings is_operand }
    ensures clause_word { IgnoresStrings (has_top_level is_clause_word) }
    ensures dangling { IgnoresStrings is_dangling }
{}

/// States that untrusted texts that are bound don't interfere. Let the values of a template stand
/// apart, and let the literals that are bound have the same kinds in the same places. The bound
/// texts then have the same tokens, except for the texts of the string tokens at these places. So
/// neither the number of `;` nor a test of fragments depends on texts that are bound. Does nothing
/// when it runs. Never fails.
/// `"a = ?".bind(alloc, &"x' OR 1=1; --")?` gives `a = 'x'' OR 1=1; --'`
pub fn bound_texts_do_not_interfere()
    ensures tokens { BoundTextsDoNotInterfere }
    ensures places { BoundTextsKeepTheirPlaces }
    ensures strings { BoundTextsAreStrings }
    ensures outline { IgnoresBoundTexts outline }
    ensures semicolons { IgnoresBoundTexts semicolon_count }
    ensures closed { IgnoresBoundTexts closed }
    ensures balanced { IgnoresBoundTexts balanced }
    ensures operand { IgnoresBoundTexts operand }
    ensures clause_word { IgnoresBoundTexts has_clause_word }
    ensures dangling { IgnoresBoundTexts dangling }
    ensures arguments { ArgumentsDifferInTexts }
    ensures names { NamesDifferInTexts }
{}

/// States that other texts leave the number of tokens of a bound text as it is, if the values of
/// the template stand apart. Does nothing when it runs. Never fails.
/// `"a = ?".bind(alloc, &"b; c")?` gives `a = 'b; c'`
pub fn bound_texts_keep_the_count()
    ensures count { (template : List ℕ) (marks : Marks) (one other : Replacement → LiteralValue)
        → IsTrue (apart template marks) → DifferInTexts one other
        → token_count (bound template marks one) ≡ token_count (bound template marks other) }
{}

/// States that `bind_nums` goes part by part. A text keeps its literals before another one, if that
/// begins with neither a digit nor a `$`. A text without a `$` stays as it is. The placeholder of a
/// value becomes its literal. Does nothing when it runs. Never fails.
/// `"a = $1".bind_nums(alloc, &[Box::new(alloc, 7)?])?` gives `a = 7`
pub fn numbers_bind_part_by_part()
    ensures bound { NumbersAreBound }
    ensures parts { TextsBindApart }
    ensures unmarked { (count : ℕ) → LeavesTextWithout dollar (Nums count) }
    ensures placeholders { PlaceholdersAreBound }
{}

/// States that the text of each literal is an operand, balanced and closed, without a top-level
/// clause keyword. So is each number and each truth value as `ToText` writes it, and what `quote`
/// returns. Does nothing when it runs. Never fails.
/// `quote(alloc, "a OR b")?` gives `'a OR b'`
pub fn literals_are_operands()
    ensures literals { (literal : LiteralValue) → ServesAsOperand (literal_text literal) }
    ensures numbers { (number : ℤ) → ServesAsOperand (number_text number) }
    ensures truths { (value : Bool) → ServesAsOperand (bool_text value) }
    ensures quote { (text : List ℕ) → ServesAsOperand (quoted text) }
{}

/// States that the text of each literal has the tokens of that literal and no other. NULL, TRUE and
/// FALSE are a word, and a number is one behind its minus. A text is one string that stands for it.
/// Does nothing when it runs. Never fails.
/// `quote(alloc, "it's; --")?` gives `'it''s; --'`
pub fn literals_have_their_tokens()
    ensures tokens { (literal : LiteralValue)
        → tokens (literal_text literal) ≡ literal_tokens literal }
{}

/// States that the text of each placeholder is an operand, as that of a literal is. Its tokens are
/// a symbol and a number. Does nothing when it runs. Never fails.
/// `Placeholder { style: Style::Dollar, number: 12 }.to_text(alloc)?` gives `$12`
pub fn placeholders_are_operands()
    ensures operands { (style : Style) (number : ℕ) → ServesAsOperand (placeholder_text style number) }
    ensures tokens { (style : Style) (number : ℕ) → tokens (placeholder_text style number)
        ≡ Symbol (prefix style) ∷ Word (decimal_text number) ∷ [] }
{}

/// States that a text between quotes is an operand, as the text of a literal is, with each of the
/// four kinds of quotes. So is a name in each form that quotes its parts, or with bare parts that
/// are such operands themselves. It may have an alias that is between quotes or such an operand.
/// Does nothing when it runs. Never fails.
/// `SqlName::new(alloc, "a")?.add("b c")?.safe()?` gives `` `a`.`b c` ``
pub fn quoted_names_are_operands()
    ensures baquote { (text : List ℕ) → ServesAsOperand (baquoted text) }
    ensures brquote { (text : List ℕ) → ServesAsOperand (brquoted text) }
    ensures dquote { (text : List ℕ) → ServesAsOperand (dquoted text) }
    ensures quoted { NamesAreOperands quoted }
    ensures baquoted { NamesAreOperands baquoted }
    ensures brquoted { NamesAreOperands brquoted }
    ensures dquoted { NamesAreOperands dquoted }
    ensures safe { (name : Name) → IsTrue (has_operand_parts name)
        → IsTrue (is_operand_alias name.alias) → ServesAsOperand (safe_text name) }
{}

/// States that literals without backslashes read alike where a backslash escapes, as in MySQL and
/// MariaDB by default. The literal that `quote` or binding writes of a text without a backslash
/// ends at its last byte. It stands for the text, whatever follows it except a quote. If a
/// statement has no backslash, each of its literals is the same as where none escapes. Does nothing
/// when it runs. Never fails.
/// `has_backslash("it's")` gives `false`
pub fn literals_without_backslashes_read_alike()
    ensures quote { EndsAsWritten quoted }
    ensures bound { EndsAsWritten (λ text. literal_text (words text)) }
    ensures statements { HasOneReading }
{}

/// States that a mask of LIKE that `escape_like` makes of a text matches that text alone. With `%`
/// behind, it matches what begins with the text, and with `%` in front what ends with it. With `%`
/// on both sides, it matches what contains it. Letters are compared as they are. Does nothing when
/// it runs. Never fails.
/// `escape_like(alloc, "50%", LikeEscape::Exclamation)?` gives `50!%`
pub fn escaped_masks_match_their_text()
    ensures exact { MasksMatch (λ mask. mask) (λ other text. other ≡ text) }
    ensures begins { MasksMatch (λ mask. mask ++ codes "%") (λ other text. IsTrue (starts_with nat_eq other text)) }
    ensures ends { MasksMatch (λ mask. codes "%" ++ mask) (λ other text. IsTrue (ends_with nat_eq other text)) }
    ensures contains { MasksMatch (λ mask. codes "%" ++ mask ++ codes "%") (λ other text. HasSubslice other text) }
{}

/// States where a literal ends for any reader, such as a database's lexer. The literal is what
/// `quote`, `baquote`, `brquote` or `dquote` returns, or what `esc` returns between single quotes.
///
/// A reader that opens a literal at the first quote comes to the same state as by these quotes
/// without a text. Until then it is inside of the literal. Each byte of the text has to be plain to
/// the reader: a backslash isn't where it escapes. Does nothing when it runs. Never fails.
/// `quote(alloc, "it's; --")?` gives `'it''s; --'`
pub fn literals_end_for_any_reader()
    ensures quote { LeadsAsNoText Single quoted }
    ensures baquote { LeadsAsNoText Back baquoted }
    ensures brquote { LeadsAsNoText Square brquoted }
    ensures dquote { LeadsAsNoText Double dquoted }
    ensures esc { LeadsAsNoText Single (λ text. codes "'" ++ escaped text ++ codes "'") }
    ensures quote_inside { IsInsideUntilItsEnd Single quoted }
    ensures baquote_inside { IsInsideUntilItsEnd Back baquoted }
    ensures brquote_inside { IsInsideUntilItsEnd Square brquoted }
    ensures dquote_inside { IsInsideUntilItsEnd Double dquoted }
    ensures esc_inside { IsInsideUntilItsEnd Single (λ text. codes "'" ++ escaped text ++ codes "'") }
    ensures esc_stays { StaysInside Single escaped }
{}

/// States that quoted texts make no difference to any reader. Let two texts differ only in texts
/// that are quoted, or escaped inside of quotes. If a reader is inside of a literal at each of
/// these in the one, it is so in the other. Outside of them it goes through the same states.
/// `places_from` says where they are in the bytes. Does nothing when it runs. Never fails.
/// `quote(alloc, "b), (")?` gives `'b), ('`
pub fn readers_ignore_quoted_parts()
    ensures alike { ReadersIgnoreDoubledTexts }
    ensures places { PartsAreAtPlaces }
{}

/// States that bound texts make no difference to any reader. Let two bindings of a template differ
/// only in texts. If a reader is inside of a string at each of these in the one bound text, it is
/// so in the other. Outside of them it goes through the same states.
///
/// The values needn't stand apart. If a placeholder is inside of a literal already, the reader
/// isn't at such a place, and nothing is promised. Does nothing when it runs. Never fails.
/// `"a = ?".bind(alloc, &"x' OR 1=1; --")?` gives `a = 'x'' OR 1=1; --'`
pub fn readers_ignore_bound_texts()
    ensures { ReadersIgnoreBoundTexts }
{}

/// States that the rules of tokens are a reader. Between two tokens it opens a literal at each
/// delimiter, and a text is closed if it ends outside of literals and comments. The rules by which
/// a backslash escapes are a reader too: to them each byte but a backslash is plain. Does nothing
/// when it runs. Never fails.
/// `is_closed("a = 'b")` gives `false`
pub fn rules_are_readers()
    ensures tokens { OpensEveryLiteral }
    ensures closed { ReadsClosed }
    ensures backslashes { OpensWithoutBackslashes }
    ensures plain { HasNoBackslash }
{}

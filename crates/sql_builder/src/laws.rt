//! Laws of lists of calls, of clauses and of truth, each the contract of a function that does
//! nothing.
ghost use Rattle.std.specs.Prelude.{IfOk, IsTrue, List, codes};
ghost use Rattle.sql_builder.specs.{BindGivesTheNext, ValuesAreBesideStatements, CombinedBindByParts, ConditionsBindByFragments, ConditionsBindByPieces};
ghost use Rattle.sql_builder.specs.{ExistsBindsByQuery, MasksBindByParts, NegationsBindByPart, StatementsBindByCalls, StatementsBindByClauses};
ghost use Rattle.sql_builder.specs.{StatementsBindByPieces, CallText, Sql, StartText, having_in, limit_in, offset_in, returning_in};
ghost use Rattle.sql_builder.specs.{ClosedTextsMakeClosedFragments, FitTextsMakeClosedFragments, PlainTextsEndInOneSemicolon, PlainTextsMakePlainFragments};
ghost use Rattle.sql_builder.specs.{SelectsNeedGroupBy, TextsAreFitCallByCall, TextsPassCallByCall, QuotedTextsDecideNoTest, TestsPassBalancedTexts};
ghost use Rattle.sql_builder.specs.{TestsPassFitTexts, BuildersOfInsertsReadBack, BuildersOfQueriesAreOne, FitTextsMakeFitTargets, InsertsReadBack};
ghost use Rattle.sql_builder.specs.{QueriesAreOne, ConditionsKeepTheirOutline, EquationsKeepTheirOutline, FragmentsDoNotInterfere, IgnoresQuotedTexts};
ghost use Rattle.sql_builder.specs.{OutlinesDecideOutlines, QuotedTextsAreStrings, QuotedTextsDoNotInterfere, QuotedTextsKeepTheirPlaces};
ghost use Rattle.sql_builder.specs.{QuotesKeepTheirOutline, blank_clauses, clauses_but, BuildersEndInOneSemicolon, ConditionsAreAtoms, ConditionsKeepTokens};
ghost use Rattle.sql_builder.specs.{BracketsMakeOperands, CountsKeepTokens, EquationsKeepTokens, FieldsJoin, FitTextsMakeBalancedFragments};
ghost use Rattle.sql_builder.specs.{FitTextsMakeFitConditions, FitTextsMakeFitFragments, IsValued, OnlyLastCounts, QuotedEquationsKeepTokens};
ghost use Rattle.sql_builder.specs.{StatementsReadBack, TruthOfAnd, TruthOfBrackets, TruthOfNot, TruthOfOr, TruthOfWhere, a_without_c, brackets_and_not};
ghost use Rattle.sql_builder.specs.{range_and_case, False, True, Unknown, EndsInOneSemicolon, has_closed_fragments, has_no_semicolons, pieces, statement};
ghost use Rattle.sql_builder.specs.{BuildersFollowCalls, BuildersPrintStatements, StatementsAreClosed, StatementsHaveTruth, StatementsKeepTokens};
ghost use Rattle.sql_builder.specs.{StatementsNest, ClosedFragmentsOpenStrings, NoTextsDecide, PlainTextsArePrinted, QuotedBytesAreBytes};
ghost use Rattle.sql_builder.specs.{ReadersIgnoreQuotedFragments, ReadersIgnoreQuotedTexts, printed_by, SubqueriesNestAsTables, pieces_text};
ghost use Rattle.sql_parts.specs.Fragments.{balanced, dangling, has_clause_word, operand};
ghost use Rattle.sql_parts.specs.StringTexts.{IgnoresBoundTexts, IgnoresStrings, length_in_tokens, outline, semicolon_count};
ghost use Rattle.sql_parts.specs.Tokens.{closed, tokens};

pub use sql_parts::laws::{
    bound_texts_do_not_interfere, bound_texts_keep_the_count, doubling_is_undone,
    escaped_masks_match_their_text, literals_are_operands, literals_end_for_any_reader,
    literals_have_their_tokens, literals_without_backslashes_read_alike, numbers_bind_part_by_part,
    placeholders_are_operands, quoted_names_are_operands, quoting_is_injective,
    readers_ignore_bound_texts, readers_ignore_quoted_parts, rules_are_readers,
    string_texts_decide_nothing, tokens_join_at_edges, unmarked_is_unchanged,
};

/// States that `fields` of a list and then of another is `fields` of the two joined. Does nothing
/// when it runs. Never fails.
/// `SqlBuilder::select_from(alloc, "t")?.fields(&["a"])?.fields(&["b"])?.sql()?` gives
/// `SELECT a, b FROM t;`
#[tactic(auto, using(crate::proofs::statements::LaterCallLemmas::fields_join))]
pub fn fields_join()
    ensures joined { FieldsJoin }
{}

/// States that of the calls of `limit`, `offset`, `having` and `returning`, only the last of each
/// counts. `returning_id` is a `returning`. Does nothing when it runs. Never fails.
/// `SqlBuilder::select_from(alloc, "t")?.limit(1)?.limit(2)?.sql()?` gives
/// `SELECT * FROM t LIMIT 2;`
#[tactic(auto, using(crate::proofs::statements::LaterCallLemmas::limit_counts_last, crate::proofs::statements::LaterCallLemmas::offset_counts_last, crate::proofs::statements::LaterCallLemmas::having_counts_last, crate::proofs::statements::LaterCallLemmas::returning_counts_last))]
pub fn only_last_counts()
    ensures limit { OnlyLastCounts limit_in }
    ensures offset { OnlyLastCounts offset_in }
    ensures having { OnlyLastCounts having_in }
    ensures returning { OnlyLastCounts returning_in }
{}

/// States that a condition call, `on_eq`, `set`, `set_str` or `count_as` adds the tokens of its
/// parts, if the raw fragments are closed. A text that it quotes is one token. What it adds is
/// closed. Does nothing when it runs. Never fails.
/// `SqlBuilder::update_table(alloc, "t")?.set_str("a", "b; c")?.sql()?` gives
/// `UPDATE t SET a = 'b; c';`
#[tactic(auto, using(crate::proofs::pieces::ClauseShapeLemmas::condition_keeps, crate::proofs::pieces::ClauseShapeLemmas::equation_keeps, crate::proofs::pieces::ClauseShapeLemmas::quoted_equation_keeps, crate::proofs::pieces::ClauseShapeLemmas::count_as_keeps))]
pub fn added_texts_keep_tokens()
    ensures conditions { ConditionsKeepTokens }
    ensures equations { EquationsKeepTokens }
    ensures quoted_equations { QuotedEquationsKeepTokens }
    ensures counts { CountsKeepTokens }
{}

/// States that untrusted texts don't interfere. Let two lists of calls differ only in texts that
/// calls quote, and let their raw fragments be closed. `run` then prints the same tokens, except
/// for the texts of the string tokens at these places, or returns the same error. So does a builder
/// that these calls made. The law is about the statement, which `run` returns.
///
/// The number of tokens, that of `;` and each test of fragments don't depend on texts that calls
/// quote. Nor do the clauses that are parsed back, except for the texts of strings. Does nothing
/// when it runs. Never fails.
/// `SqlBuilder::update_table(alloc, "t")?.set_str("a", "x', b = 'y")?.sql()?` gives
/// `UPDATE t SET a = 'x'', b = ''y';`
pub fn quoted_texts_do_not_interfere()
    ensures tokens { QuotedTextsDoNotInterfere }
    ensures places { QuotedTextsKeepTheirPlaces }
    ensures strings { QuotedTextsAreStrings }
    ensures outline { IgnoresQuotedTexts outline }
    ensures count { IgnoresQuotedTexts length_in_tokens }
    ensures semicolons { IgnoresQuotedTexts semicolon_count }
    ensures clauses { IgnoresQuotedTexts clauses_but }
    ensures closed { IgnoresQuotedTexts closed }
    ensures balanced { IgnoresQuotedTexts balanced }
    ensures operand { IgnoresQuotedTexts operand }
    ensures clause_word { IgnoresQuotedTexts has_clause_word }
    ensures dangling { IgnoresQuotedTexts dangling }
{}

/// States that no untrusted text changes what any reader, such as a database's lexer, makes of a
/// statement. Let two lists of calls differ only in texts that calls quote, of bytes that are plain
/// to the reader. Let the reader open a string at each of these texts in what is printed of the
/// one. It then does so in what is printed of the other, and goes through the same states over the
/// bytes outside of them. Or both lists fail with the same error.
///
/// This holds of what `run` prints, and of what `print` prints of the builder that `begin` and
/// `make` make. It holds of any builder where texts are quoted inside of raw fragments. So a
/// statement that a database reads as meant with empty texts is read the same with any such texts.
/// Does nothing when it runs. Never fails.
/// `SqlBuilder::update_table(alloc, "t")?.set_str("a", "x'; --")?.sql()?` gives
/// `UPDATE t SET a = 'x''; --';`
pub fn readers_ignore_quoted_texts()
    ensures statements { ReadersIgnoreQuotedTexts statement }
    ensures printed { ReadersIgnoreQuotedTexts printed_by }
    ensures bytes { QuotedBytesAreBytes statement }
    ensures printed_bytes { QuotedBytesAreBytes printed_by }
    ensures fragments { ReadersIgnoreQuotedFragments }
    ensures closed { ClosedFragmentsOpenStrings }
    ensures plain { PlainTextsArePrinted }
    ensures no_texts { NoTextsDecide statement }
    ensures no_texts_printed { NoTextsDecide printed_by }
{}

/// States that untrusted texts in raw fragments don't interfere, if `quote` or a binding call put
/// them there. Let the pieces of two lists of calls, or the texts of two builders, have the same
/// tokens, except for the texts of string tokens. Let those of the first be closed. What is printed
/// then has the same tokens, except for the texts of string tokens. What `quote` returns and what a
/// call that quotes adds differ in this way for different texts. Does nothing when it runs. Never
/// fails.
/// `SqlBuilder::select_from(alloc, "t")?.and_where_eq("a", quote(alloc, "b), (")?)?.sql()?` gives
/// `SELECT * FROM t WHERE a = 'b), (';`
pub fn quoted_fragments_do_not_interfere()
    ensures lists { FragmentsDoNotInterfere }
    ensures builders { OutlinesDecideOutlines }
    ensures conditions { ConditionsKeepTheirOutline }
    ensures equations { EquationsKeepTheirOutline }
    ensures quotes { QuotesKeepTheirOutline }
{}

/// States that no text of a string token begins a clause. Tokens that are equal except for these
/// texts are parsed back as clauses that are equal except for these texts. So are statements that
/// are bound to different texts, if the values of the template stand apart. Does nothing when it
/// runs. Never fails.
/// `"SELECT a FROM b WHERE c = ?".bind(alloc, &"d FROM e")?` gives
/// `SELECT a FROM b WHERE c = 'd FROM e'`
pub fn string_texts_begin_no_clause()
    ensures tokens { IgnoresStrings blank_clauses }
    ensures bound { IgnoresBoundTexts clauses_but }
{}

/// States that a condition whose texts are operands is an atom, unless it is raw. Its truth is what
/// is known of its tokens. Of an IN only the field has to be an operand, and what is in its
/// brackets has to be balanced. Does nothing when it runs. Never fails.
/// `is_operand("a OR b")` gives `false`
#[tactic(auto, using(crate::proofs::conditions::ConditionLemmas::condition_atom))]
pub fn conditions_are_atoms()
    ensures { ConditionsAreAtoms }
{}

/// States that the tokens of a statement that `sql` prints have one `;`, and that it is the last.
/// Each fragment that is printed has to be closed, without a `;` among its tokens. The same holds
/// of a builder and its texts. Does nothing when it runs. Never fails.
/// `SqlBuilder::select_from(alloc, "t")?.field("';'")?.sql()?` gives `SELECT ';' FROM t;`
#[tactic(auto, using(crate::proofs::pieces::ClauseShapeLemmas::last_semicolon, crate::proofs::pieces::ClauseShapeLemmas::builder_semicolon))]
pub fn only_the_end_is_a_semicolon()
    ensures last { (start : StartText) (calls : List CallText) → IfOk (pieces start calls Sql)
        (λ printed. IsTrue (has_closed_fragments printed) → IsTrue (has_no_semicolons printed)
        → EndsInOneSemicolon (tokens (pieces_text printed))) }
    ensures of_builders { BuildersEndInOneSemicolon }
{}

/// States that what `sql`, `query` and `query_values` print of a list of calls parses back as the
/// clauses that the list says. The fragments before the first UNION have to be fit. Does nothing
/// when it runs. Never fails.
/// `has_clause_word("a FROM b")` gives `true`
#[tactic(auto, using(crate::proofs::statements::StatementLawLemmas::statements_read_back))]
pub fn statements_read_back()
    ensures { StatementsReadBack }
{}

/// States that a statement has the tokens of its pieces, and is closed, if each fragment that is
/// printed is closed. A text that was quoted is one token that parses back as that text. Does
/// nothing when it runs. Never fails.
/// `SqlBuilder::update_table(alloc, "t")?.set_str("a", "b; c")?.sql()?` gives
/// `UPDATE t SET a = 'b; c';`
#[tactic(auto, using(crate::proofs::statements::StatementLawLemmas::statements_keep_tokens, crate::proofs::statements::StatementLawLemmas::statements_are_closed))]
pub fn statements_keep_tokens()
    ensures shape { StatementsKeepTokens }
    ensures closed { StatementsAreClosed }
{}

/// States that a WHERE is the AND of its groups, each the OR of its conditions, in SQL's
/// three-valued logic. It is the WHERE of a query, or of what `sql` prints of a SELECT from a
/// table, an UPDATE or a DELETE. The fragments before the first UNION have to be fit, and so do
/// those of each condition. Does nothing when it runs. Never fails.
/// `SqlBuilder::select_from(alloc, "t")?.and_where("a")?.or_where("b")?.and_where("c")?.sql()?`
/// gives `SELECT * FROM t WHERE (a OR b) AND (c);`
#[tactic(auto, using(crate::proofs::statements::StatementLawLemmas::statements_have_truth))]
pub fn statements_have_truth()
    ensures { StatementsHaveTruth }
{}

/// States that what `query` and `subquery_as` print is balanced, if each fragment is balanced. What
/// `subquery` prints is then an operand without a top-level clause keyword. Does nothing when it
/// runs. Never fails.
/// `begin(alloc, &Start::SelectFrom(String::from_str(alloc, "t")?))?.subquery()?` gives
/// `(SELECT * FROM t)`
#[tactic(auto, using(crate::proofs::statements::StatementLawLemmas::statements_nest))]
pub fn statements_nest()
    ensures { StatementsNest }
{}

/// States that a builder prints the statement of its start and calls, or fails with its error.
/// `begin` made it of the start, and `make` of one call after another. Does nothing when it runs.
/// Never fails.
/// `print(&begin(alloc, &Start::SelectFrom(String::from_str(alloc, "t")?))?, &Finish::Query)?`
/// gives `SELECT * FROM t`
#[tactic(auto, using(crate::proofs::statements::StatementLawLemmas::builders_follow_calls, crate::proofs::statements::StatementLawLemmas::builders_print_statements))]
pub fn builders_print_statements()
    ensures calls { BuildersFollowCalls }
    ensures printed { BuildersPrintStatements }
{}

/// States that fit texts make fit fragments. Each text of a list of calls has to be balanced,
/// without a top-level clause keyword. Such a word may be in what a call puts between brackets, and
/// in a query behind UNION. It may also be in a field of an INSERT that `sql` prints. The fragments
/// that are printed then have what `run` asks of them for clauses, for WHERE and for nesting. Does
/// nothing when it runs. Never fails.
/// `is_balanced("a) OR (b")` gives `false`
#[tactic(auto, using(crate::proofs::fragments::FitLemmas::fit_fragments, crate::proofs::fragments::FitLemmas::fit_conditions, crate::proofs::fragments::FitLemmas::balanced_fragments))]
pub fn fit_texts_make_fit_fragments()
    ensures fragments { FitTextsMakeFitFragments }
    ensures conditions { FitTextsMakeFitConditions }
    ensures nesting { FitTextsMakeBalancedFragments }
{}

/// States that each fragment that is printed is closed, if each text of a list of calls is closed,
/// or each is fit. If no text has a `;`, no fragment has one. The statement that `sql` prints of
/// closed fragments then ends in its only `;`. Does nothing when it runs. Never fails.
/// `SqlBuilder::select_from(alloc, "t")?.and_where("a = ';'")?.sql()?` gives
/// `SELECT * FROM t WHERE a = ';';`
#[tactic(auto, using(crate::proofs::fragments::TextTestLemmas::closed_texts, crate::proofs::fragments::TextTestLemmas::fit_texts_are_closed, crate::proofs::fragments::TextTestLemmas::plain_texts, crate::proofs::fragments::TextTestLemmas::plain_texts_end))]
pub fn closed_texts_make_closed_fragments()
    ensures closed { ClosedTextsMakeClosedFragments }
    ensures of_fit { FitTextsMakeClosedFragments }
    ensures plain { PlainTextsMakePlainFragments }
    ensures semicolon { PlainTextsEndInOneSemicolon }
{}

/// States that the texts of a list pass a test, or are fit, call by call. Those of a longer list do
/// exactly if those of the list and those of each further call do. So it takes one fact for each
/// call, however many of them are optional. Does nothing when it runs. Never fails.
/// `is_closed("a = 'b")` gives `false`
#[tactic(auto, using(crate::proofs::fragments::TextTestLemmas::texts_pass_call_by_call, crate::proofs::fragments::TextTestLemmas::texts_are_fit_call_by_call))]
pub fn texts_pass_call_by_call()
    ensures passing { TextsPassCallByCall }
    ensures fit { TextsAreFitCallByCall }
{}

/// States that the tests of `check` pass exactly if each text is fit, and those of `check_confined`
/// exactly if each is balanced. No text that calls quote decides a test. Lists of calls that differ
/// only in these have the same first text that doesn't fit, or none. Does nothing when it runs.
/// Never fails.
/// `check(&Start::DeleteFrom(String::from_str(alloc, "t")?), &[], &Finish::Sql)` gives `()`
#[tactic(auto, using(crate::proofs::fragments::InvalidTextLemmas::list_is_fit, crate::proofs::fragments::InvalidTextLemmas::list_is_balanced, crate::proofs::fragments::InvalidTextLemmas::quoted_texts_decide_none))]
pub fn tests_pass_fit_texts()
    ensures fit { TestsPassFitTexts }
    ensures balanced { TestsPassBalancedTexts }
    ensures quoted { QuotedTextsDecideNoTest }
{}

/// States when `sql` of a SELECT from a table that has a name fails, apart from memory. It fails
/// exactly if the list of calls has a `having` and no `group_by`. The error is then `NoGroupBy`.
/// Does nothing when it runs. Never fails.
/// `SqlBuilder::select_from(alloc, "t")?.having("a > 1")?.sql()` fails with `NoGroupBy`
#[tactic(auto, using(crate::proofs::fragments::TextTestLemmas::selects_need_group_by))]
pub fn selects_need_group_by()
    ensures { SelectsNeedGroupBy }
{}

/// States how the truth of a condition follows from its form. An OR whose left side is balanced is
/// the OR of both sides. An AND is the AND of both sides, if the left side is balanced and neither
/// side has a top-level OR. No BETWEEN on the left may own that AND. A NOT is the negation, if no
/// top-level OR, AND or BETWEEN is behind it.
///
/// Brackets have the truth of the inside, if that is balanced and has no top-level clause keyword.
/// A WHERE of such conditions is the AND of its groups, each the OR of its conditions. Does nothing
/// when it runs. Never fails.
/// `SqlBuilder::select_from(alloc, "t")?.and_where("a")?.or_where("b")?.and_where("c")?.sql()?`
/// gives `SELECT * FROM t WHERE (a OR b) AND (c);`
#[tactic(auto, using(crate::proofs::truth::TruthLemmas::of_or, crate::proofs::truth::TruthLemmas::of_and, crate::proofs::truth::TruthLemmas::of_not, crate::proofs::truth::TruthLemmas::of_brackets, crate::proofs::truth::TruthLemmas::of_where))]
pub fn truth_follows_the_form()
    ensures of_or { TruthOfOr }
    ensures of_and { TruthOfAnd }
    ensures of_not { TruthOfNot }
    ensures of_brackets { TruthOfBrackets }
    ensures of_where { TruthOfWhere }
{}

/// States that what is balanced is an operand between brackets, without a top-level clause keyword,
/// whatever it holds. Does nothing when it runs. Never fails.
/// `is_operand("(a OR b)")` gives `true`
#[tactic(auto, using(crate::proofs::truth::TruthLemmas::brackets_make_operands))]
pub fn brackets_make_operands()
    ensures { BracketsMakeOperands }
{}

/// States the truth of worked conditions. The first is the AND of two groups. The one is
/// `x BETWEEN 1 AND 2 OR NOT (p OR q)`, and the other compares a CASE. Let the range be false, the
/// comparison true and p unknown. The whole is unknown if q is false, and false if q is true.
///
/// The second is the AND of `(a) OR (b)` and `NOT c AND d`. It is unknown if a is false, b and d
/// are true and c is unknown. The third shows that groups need their brackets. If a is true and c
/// is false, `(a OR b) AND (c)` is false, but `a OR b AND c` is true. Does nothing when it runs.
/// Never fails.
/// `SqlBuilder::select_from(alloc, "t")?.and_where("a OR b")?.and_where("c")?.sql()?` gives
/// `SELECT * FROM t WHERE (a OR b) AND (c);`
#[tactic(auto, using(crate::proofs::rows::MeaningRows::unknown_or, crate::proofs::rows::MeaningRows::unknown_not, crate::proofs::rows::MeaningRows::unknown_group, crate::proofs::rows::MeaningRows::true_group, crate::proofs::rows::MeaningRows::unknown_whole, crate::proofs::rows::MeaningRows::false_group, crate::proofs::rows::MeaningRows::false_whole, crate::proofs::rows::MeaningRows::own_brackets, crate::proofs::rows::MeaningRows::own_not, crate::proofs::rows::MeaningRows::own_whole, crate::proofs::rows::MeaningRows::with_brackets, crate::proofs::rows::MeaningRows::without_brackets))]
pub fn worked_truths()
    ensures unknown_or { IsValued (range_and_case False) (codes "p OR q") Unknown }
    ensures unknown_not { IsValued (range_and_case False) (codes "NOT (p OR q)") Unknown }
    ensures unknown_group { IsValued (range_and_case False)
        (codes "x BETWEEN 1 AND 2 OR NOT (p OR q)") Unknown }
    ensures true_group { IsValued (range_and_case False)
        (codes "CASE WHEN a OR b THEN c END = 1") True }
    ensures unknown_whole { IsValued (range_and_case False)
        (codes "(x BETWEEN 1 AND 2 OR NOT (p OR q)) AND (CASE WHEN a OR b THEN c END = 1)") Unknown }
    ensures false_group { IsValued (range_and_case True)
        (codes "x BETWEEN 1 AND 2 OR NOT (p OR q)") False }
    ensures false_whole { IsValued (range_and_case True)
        (codes "(x BETWEEN 1 AND 2 OR NOT (p OR q)) AND (CASE WHEN a OR b THEN c END = 1)") False }
    ensures own_brackets { IsValued brackets_and_not (codes "(a) OR (b)") True }
    ensures own_not { IsValued brackets_and_not (codes "NOT c AND d") Unknown }
    ensures own_whole { IsValued brackets_and_not
        (codes "((a) OR (b)) AND (NOT c AND d)") Unknown }
    ensures with_brackets { IsValued a_without_c (codes "(a OR b) AND (c)") False }
    ensures without_brackets { IsValued a_without_c (codes "a OR b AND c") True }
{}

/// States that what `subquery` prints of a query is fit as a table: balanced, and without a
/// top-level clause keyword. Each fragment of the query has to be balanced, those behind a UNION
/// too. So is what `subquery_as` prints, if its name has no such word. Does nothing when it runs.
/// Never fails.
/// `SqlBuilder::select_from(alloc, "t")?.subquery_as("s")?` gives `(SELECT * FROM t) AS s`
#[tactic(auto, using(crate::proofs::reading::SubqueryLemmas::subqueries_nest))]
pub fn subqueries_nest_as_tables()
    ensures { SubqueriesNestAsTables }
{}

/// States that what `sql` prints of an INSERT of a balanced query parses back. It does so as the
/// INSERT's own clause, then what the query's tokens parse back as, and RETURNING. The other
/// fragments have to be fit, as they are if its texts are. The same holds of a builder.
///
/// Behind a top-level UNION no RETURNING is read. What `query` prints has none, if it has no union
/// and its fragments are fit. Does nothing when it runs. Never fails.
/// `SqlBuilder::insert_into(alloc, "t")?.field("a")?.select("SELECT b FROM c")?.sql()?` gives
/// `INSERT INTO t (a) SELECT b FROM c;`
#[tactic(auto, using(crate::proofs::reading::InsertLemmas::inserts_read_back, crate::proofs::reading::InsertLemmas::builders_of_inserts_read_back, crate::proofs::reading::InsertLemmas::queries_are_one, crate::proofs::reading::InsertLemmas::builders_of_queries_are_one, crate::proofs::fragments::InsertFitLemmas::fit_targets))]
pub fn inserts_read_back()
    ensures statements { InsertsReadBack }
    ensures of_builders { BuildersOfInsertsReadBack }
    ensures queries { QueriesAreOne }
    ensures queries_of_builders { BuildersOfQueriesAreOne }
    ensures texts { FitTextsMakeFitTargets }
{}

/// States that `bind_nums` of a statement binds each of its texts, and leaves the builder's own
/// words as they are. A fragment without a `$` stays as it is. One with a `$` gets the literals of
/// its numbers, and so does each quoted text. The same holds of the text of a condition, of
/// conditions that are joined or negated, of EXISTS, and of LIKE and a mask. It holds of the
/// clauses of a builder too.
///
/// If quoted texts have no `$`, `bind_nums` returns what the same calls and conditions print, each
/// fragment with these literals. So the statement of placeholders becomes that of `Value`s, byte
/// for byte, if its other fragments have no `$`. But a negative number in a template's hole has
/// brackets as a `Value` alone. Does nothing when it runs. Never fails.
/// `SqlBuilder::select_from(alloc, "t")?.and_where("a = $1")?.sql()?.bind_nums(alloc, &[Box::new(alloc, 7)?])?` gives
/// `SELECT * FROM t WHERE a = 7;`
pub fn statements_bind_part_by_part()
    ensures statements { StatementsBindByPieces }
    ensures clauses { StatementsBindByClauses }
    ensures conditions { ConditionsBindByPieces }
    ensures fragments { ConditionsBindByFragments }
    ensures combined { CombinedBindByParts }
    ensures negations { NegationsBindByPart }
    ensures exists { ExistsBindsByQuery }
    ensures masks { MasksBindByParts }
    ensures calls { StatementsBindByCalls }
{}

/// States that a statement that is made of placeholders has no value in it. With as many other
/// values, of any types and any bytes, its text or its error is the same, byte for byte. Does
/// nothing when it runs. Never fails.
/// `Parameters::new(alloc, Style::Dollar).bind("it's")?.to_text(alloc)?` gives `$1`
pub fn values_are_beside_statements<V, W>()
    ensures bind { BindGivesTheNext V }
    ensures statements { ValuesAreBesideStatements V W }
{}

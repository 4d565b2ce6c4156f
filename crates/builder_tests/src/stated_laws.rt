//! The laws of the builder, and of statements by types.

use sql_builder::laws;
use sql_typed::laws::values_do_not_interfere;

// The contracts of these say all: here each is only called once.
#[test]
fn states_its_laws() {
    laws::quoting_is_injective();
    laws::doubling_is_undone();
    laws::unmarked_is_unchanged();
    laws::tokens_join_at_edges();
    laws::bound_texts_keep_the_count();
    laws::literals_are_operands();
    laws::literals_have_their_tokens();
    laws::placeholders_are_operands();
    laws::numbers_bind_part_by_part();
    laws::quoted_names_are_operands();
    laws::literals_without_backslashes_read_alike();
    laws::escaped_masks_match_their_text();
    laws::literals_end_for_any_reader();
    laws::readers_ignore_quoted_parts();
    laws::readers_ignore_bound_texts();
    laws::rules_are_readers();
    laws::bound_texts_do_not_interfere();
    laws::string_texts_decide_nothing();
    laws::string_texts_begin_no_clause();
    laws::quoted_texts_do_not_interfere();
    laws::quoted_fragments_do_not_interfere();
    laws::readers_ignore_quoted_texts();
    laws::fields_join();
    laws::only_last_counts();
    laws::only_the_end_is_a_semicolon();
    laws::added_texts_keep_tokens();
    laws::conditions_are_atoms();
    laws::statements_read_back();
    laws::statements_keep_tokens();
    laws::statements_have_truth();
    laws::statements_nest();
    laws::statements_bind_part_by_part();
    laws::values_are_beside_statements::<String, u64>();
    laws::builders_print_statements();
    laws::inserts_read_back();
    laws::fit_texts_make_fit_fragments();
    laws::closed_texts_make_closed_fragments();
    laws::texts_pass_call_by_call();
    laws::tests_pass_fit_texts();
    laws::selects_need_group_by();
    laws::subqueries_nest_as_tables();
    laws::truth_follows_the_form();
    laws::brackets_make_operands();
    laws::worked_truths();
    values_do_not_interfere();
}

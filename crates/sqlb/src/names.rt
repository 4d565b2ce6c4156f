//! The names that a line may begin with, and the conditions that some of them add.
ghost use Rattle.std.specs.Prelude.{◌≡◌, MatchOption, None, OnOk, Some, ok_or};
ghost use Rattle.sql_builder.specs.Condition.{borrowed_view};
ghost use Rattle.sqlb.specs.{IsTaken, comparisons, condition_of, condition_kind, likes, memberships, condition_call, ends, found_in, lists, call_named, nullaries, split_family};
ghost use Rattle.sqlb.specs.{tables, Checks};
ghost use Rattle.sqlb.specs.declared.fault.Reason.TheVariants.{WrongArguments};

use crate::arguments::Arguments;
use crate::fault::Reason;
use sql_builder::calls::{
    BinaryClause, BorrowedCondition, Family, NullaryClause, Percent, Relation, TableStart,
    UnaryClause, VariadicClause,
};

/// What a name calls, by how many arguments it takes.
#[derive(Clone, Copy)]
pub(crate) enum NamedCall {
    /// A call without arguments.
    Nullary(NullaryClause),
    /// A finish without arguments, which prints the statement.
    Prints(Printing),
    /// A start on one table.
    Start(TableStart),
    /// A start with any number of values.
    SelectValues,
    /// A call with one argument.
    Unary(UnaryClause),
    /// A call with two arguments.
    Binary(BinaryClause),
    /// An ORDER BY of a field, and `true` or `false`.
    OrderBy,
    /// A call with any number of arguments.
    Variadic(VariadicClause),
    /// A condition of this family. Its kind says how many arguments it takes.
    Where(Family, ConditionKind),
    /// A finish with a name, which prints a subquery.
    SubqueryAs,
}

/// A finish without an argument. `Finish`, which may hold a text, is slower to return.
#[derive(Clone, Copy)]
pub(crate) enum Printing {
    Sql,
    Query,
    QueryValues,
    Subquery,
}

/// A condition without its texts. A truth value says whether it is the NOT form.
#[derive(Clone, Copy)]
pub(crate) enum ConditionKind {
    Raw,
    IsNull,
    IsNotNull,
    Compare(Relation),
    Like(bool, Percent),
    InList(bool),
    InQuoted(bool),
    InQuery(bool),
    Between(bool),
}

impl ConditionKind {
    /// Returns the kind of condition that this ending names, if it is known. Endings are compared
    /// exactly.
    #[tactic(auto, unfolding(crate::specs::Names::condition_kind))]
    fn of(ending: &str) -> Option<ConditionKind>
        ensures kind { result ≡ condition_kind ending.now }
    {
        ConditionKind::comparison(ending)
            .or_else(|| ConditionKind::like(ending))
            .or_else(|| ConditionKind::membership(ending))
    }

    // The endings of a condition by itself, of NULL, and of comparisons.
    #[tactic(auto, unfolding(crate::specs::Names::comparisons))]
    fn comparison(ending: &str) -> Option<ConditionKind>
        ensures { result ≡ found_in comparisons ending.now }
    {
        Some(match ending {
            "" => ConditionKind::Raw,
            "_is_null" => ConditionKind::IsNull,
            "_is_not_null" => ConditionKind::IsNotNull,
            "_eq" => ConditionKind::Compare(Relation::Eq),
            "_ne" => ConditionKind::Compare(Relation::Ne),
            "_gt" => ConditionKind::Compare(Relation::Gt),
            "_ge" => ConditionKind::Compare(Relation::Ge),
            "_lt" => ConditionKind::Compare(Relation::Lt),
            "_le" => ConditionKind::Compare(Relation::Le),
            _ => return None,
        })
    }

    // The endings of LIKE.
    #[tactic(auto, unfolding(crate::specs::Names::likes))]
    fn like(ending: &str) -> Option<ConditionKind>
        ensures { result ≡ found_in likes ending.now }
    {
        Some(match ending {
            "_like" => ConditionKind::Like(false, Percent::Plain),
            "_like_right" => ConditionKind::Like(false, Percent::Right),
            "_like_left" => ConditionKind::Like(false, Percent::Left),
            "_like_any" => ConditionKind::Like(false, Percent::Any),
            "_not_like" => ConditionKind::Like(true, Percent::Plain),
            "_not_like_right" => ConditionKind::Like(true, Percent::Right),
            "_not_like_left" => ConditionKind::Like(true, Percent::Left),
            "_not_like_any" => ConditionKind::Like(true, Percent::Any),
            _ => return None,
        })
    }

    // The endings of IN and BETWEEN.
    #[tactic(auto, unfolding(crate::specs::Names::memberships))]
    fn membership(ending: &str) -> Option<ConditionKind>
        ensures { result ≡ found_in memberships ending.now }
    {
        Some(match ending {
            "_in" => ConditionKind::InList(false),
            "_in_quoted" => ConditionKind::InQuoted(false),
            "_in_query" => ConditionKind::InQuery(false),
            "_between" => ConditionKind::Between(false),
            "_not_in" => ConditionKind::InList(true),
            "_not_in_quoted" => ConditionKind::InQuoted(true),
            "_not_in_query" => ConditionKind::InQuery(true),
            "_not_between" => ConditionKind::Between(true),
            _ => return None,
        })
    }

    /// Returns the condition that the arguments make. Fails with `WrongArguments` if they don't
    /// fit. It is inlined, so the condition is made in place.
    #[inline(always)]
    pub(crate) fn condition<'a>(
        self,
        arguments: &mut Arguments<'a>,
    ) -> Result<BorrowedCondition<'a, Arguments<'a>>, Reason>
        ensures condition { Checks (borrowed_view (λ left. left.parts)) result
            (ok_or (condition_of self arguments.old.parts) WrongArguments) }
        ensures taken { OnOk result (IsTaken arguments.old arguments.new) }
    {
        match self {
            ConditionKind::Raw => Ok(BorrowedCondition::Raw(arguments.one()?)),
            ConditionKind::IsNull => Ok(BorrowedCondition::IsNull(arguments.one()?)),
            ConditionKind::IsNotNull => Ok(BorrowedCondition::IsNotNull(arguments.one()?)),
            ConditionKind::Compare(relation) => {
                let (field, value) = arguments.two()?;
                Ok(BorrowedCondition::Compare(relation, field, value))
            }
            ConditionKind::Like(negated, percent) => {
                let (field, mask) = arguments.two()?;
                Ok(BorrowedCondition::Like(negated, percent, field, mask))
            }
            ConditionKind::InList(negated) => {
                let field = arguments.first()?;
                Ok(BorrowedCondition::InList(negated, field, arguments.others()))
            }
            ConditionKind::InQuoted(negated) => {
                let field = arguments.first()?;
                Ok(BorrowedCondition::InQuoted(negated, field, arguments.others()))
            }
            ConditionKind::InQuery(negated) => {
                let (field, query) = arguments.two()?;
                Ok(BorrowedCondition::InQuery(negated, field, query))
            }
            ConditionKind::Between(negated) => {
                let (field, least, greatest) = arguments.three()?;
                Ok(BorrowedCondition::Between(negated, field, least, greatest))
            }
        }
    }
}

// The family whose prefix a name begins with, and what follows that.
#[inline(always)]
fn split_family(name: &str) -> Option<(Family, &str)>
    ensures { MatchOption result (split_family name.now ≡ None)
        (λ parts. split_family name.now ≡ Some (parts.0, parts.1.now)) }
{
    if let Some(ending) = name.strip_prefix("and_where") {
        return Some((Family::And, ending));
    }
    let ending = name.strip_prefix("or_where")?;
    Some((Family::Or, ending))
}

// A condition's call. Its ending is sought in one place, which is a part of the loop over lines.
#[inline(always)]
fn condition_call(name: &str) -> Option<NamedCall>
    ensures { result ≡ condition_call name.now }
{
    let (family, ending) = split_family(name)?;
    Some(NamedCall::Where(family, ConditionKind::of(ending)?))
}

// The names are in four tables, since a long `match` over texts proves slowly. Those that take no argument.
#[tactic(auto, unfolding(crate::specs::Names::nullaries))]
fn nullary_call(name: &str) -> Option<NamedCall>
    ensures { result ≡ found_in nullaries name.now }
{
    Some(match name {
        "natural" => NamedCall::Nullary(NullaryClause::Natural),
        "left" => NamedCall::Nullary(NullaryClause::Left),
        "left_outer" => NamedCall::Nullary(NullaryClause::LeftOuter),
        "right" => NamedCall::Nullary(NullaryClause::Right),
        "right_outer" => NamedCall::Nullary(NullaryClause::RightOuter),
        "inner" => NamedCall::Nullary(NullaryClause::Inner),
        "cross" => NamedCall::Nullary(NullaryClause::Cross),
        "distinct" => NamedCall::Nullary(NullaryClause::Distinct),
        "returning_id" => NamedCall::Nullary(NullaryClause::ReturningId),
        "sql" => NamedCall::Prints(Printing::Sql),
        "query" => NamedCall::Prints(Printing::Query),
        "query_values" => NamedCall::Prints(Printing::QueryValues),
        "subquery" => NamedCall::Prints(Printing::Subquery),
        _ => return None,
    })
}

// The names that open a statement, and those of tables and joins.
#[tactic(auto, unfolding(crate::specs::Names::tables))]
fn table_call(name: &str) -> Option<NamedCall>
    ensures { result ≡ found_in tables name.now }
{
    Some(match name {
        "on" => NamedCall::Unary(UnaryClause::On),
        "join" => NamedCall::Unary(UnaryClause::Join),
        "on_eq" => NamedCall::Binary(BinaryClause::OnEq),
        "and_table" => NamedCall::Unary(UnaryClause::AndTable),
        "select_from" => NamedCall::Start(TableStart::SelectFrom),
        "insert_into" => NamedCall::Start(TableStart::InsertInto),
        "delete_from" => NamedCall::Start(TableStart::DeleteFrom),
        "update_table" => NamedCall::Start(TableStart::UpdateTable),
        "select_values" => NamedCall::SelectValues,
        _ => return None,
    })
}

// The names of what is selected, set, inserted and returned: fields, values and rows.
#[tactic(auto, unfolding(crate::specs::Names::lists))]
fn list_call(name: &str) -> Option<NamedCall>
    ensures { result ≡ found_in lists name.now }
{
    Some(match name {
        "set" => NamedCall::Binary(BinaryClause::SetTo),
        "field" => NamedCall::Unary(UnaryClause::Field),
        "count" => NamedCall::Unary(UnaryClause::Count),
        "fields" => NamedCall::Variadic(VariadicClause::Fields),
        "values" => NamedCall::Variadic(VariadicClause::Values),
        "select" => NamedCall::Unary(UnaryClause::Select),
        "set_str" => NamedCall::Binary(BinaryClause::SetStr),
        "count_as" => NamedCall::Binary(BinaryClause::CountAs),
        "set_field" => NamedCall::Unary(UnaryClause::SetField),
        "returning" => NamedCall::Unary(UnaryClause::Returning),
        "set_fields" => NamedCall::Variadic(VariadicClause::SetFields),
        _ => return None,
    })
}

// The names of groups, order, limits, unions and subqueries.
#[tactic(auto, unfolding(crate::specs::Names::ends))]
fn end_call(name: &str) -> Option<NamedCall>
    ensures { result ≡ found_in ends name.now }
{
    Some(match name {
        "limit" => NamedCall::Unary(UnaryClause::Limit),
        "union" => NamedCall::Unary(UnaryClause::Union),
        "having" => NamedCall::Unary(UnaryClause::Having),
        "offset" => NamedCall::Unary(UnaryClause::Offset),
        "group_by" => NamedCall::Unary(UnaryClause::GroupBy),
        "order_by" => NamedCall::OrderBy,
        "order_asc" => NamedCall::Unary(UnaryClause::OrderAsc),
        "union_all" => NamedCall::Unary(UnaryClause::UnionAll),
        "order_desc" => NamedCall::Unary(UnaryClause::OrderDesc),
        "subquery_as" => NamedCall::SubqueryAs,
        _ => return None,
    })
}

impl NamedCall {
    /// Returns what the name calls, if it is known. Names are compared exactly.
    #[tactic(auto, unfolding(crate::specs::Names::call_named))]
    pub(crate) fn of(name: &str) -> Option<NamedCall>
        ensures call { result ≡ call_named name.now }
    {
        condition_call(name)
            .or_else(|| nullary_call(name))
            .or_else(|| table_call(name))
            .or_else(|| list_call(name))
            .or_else(|| end_call(name))
    }
}

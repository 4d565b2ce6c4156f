//! What a builder keeps of its clauses.
ghost use Rattle.std.specs.List.{list_any};
ghost use Rattle.std.specs.Prelude.{◌≡◌, map, IfOk};
ghost use Rattle.sql_builder.specs.{condition_in_group, operator_text};

use std::alloc::{AllocError, Global};

/// The kind of a statement.
#[derive(Clone, Copy)]
pub(crate) enum Kind {
    SelectFrom,
    SelectValues,
    InsertInto,
    UpdateTable,
    DeleteFrom,
}

/// The operator of a join.
#[derive(Clone, Copy)]
pub(crate) enum JoinOperator {
    Left,
    LeftOuter,
    Right,
    RightOuter,
    Inner,
    Cross,
}

/// A condition of WHERE.
#[derive(Drop)]
pub(crate) struct GroupedCondition {
    /// Whether a group begins with it; the first begins one in any case.
    pub(crate) opens_group: bool,
    pub(crate) text: String,
}

impl JoinOperator {
    /// The words of a join with the operator in force, if there is one.
    pub(crate) fn words(operator: Option<JoinOperator>) -> &'static str
        ensures { result.now ≡ operator_text operator }
    {
        match operator {
            None => "JOIN ",
            Some(JoinOperator::Left) => "LEFT JOIN ",
            Some(JoinOperator::LeftOuter) => "LEFT OUTER JOIN ",
            Some(JoinOperator::Right) => "RIGHT JOIN ",
            Some(JoinOperator::RightOuter) => "RIGHT OUTER JOIN ",
            Some(JoinOperator::Inner) => "INNER JOIN ",
            Some(JoinOperator::Cross) => "CROSS JOIN ",
        }
    }
}

/// Whether a group begins with one of these.
pub(crate) fn any_opens_group(conditions: &[GroupedCondition]) -> bool
    ensures { result ≡ list_any (λ condition. condition.opens_group) conditions.now }
{
    conditions.iter().any(|condition| condition.opens_group)
}

/// Copies of the conditions. As a part of `clone` it took a step more for each.
#[inline(never)]
pub(crate) fn copy_conditions(
    alloc: Global,
    conditions: &[GroupedCondition],
) -> Result<Vec<GroupedCondition>, AllocError>
    ensures { IfOk result (λ copied. map condition_in_group copied.items
        ≡ map condition_in_group conditions.now) }
{
    let mut copied = Vec::with_capacity(alloc, conditions.len())?;
    for condition in conditions {
        copied.push_reserved(GroupedCondition {
            opens_group: condition.opens_group,
            text: String::from_str(alloc, condition.text.as_str())?,
        });
    }
    Ok(copied)
}

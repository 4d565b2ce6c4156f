//! The statement that is open, and what each line does to it. A line's step returns whether it
//! finished the statement.
ghost use Rattle.std.specs.Prelude.{◌≡◌, IfErr, IfOk, IfSome, IsErrOf, IsSome, None, Ok, OnErr, OnOk, is_some, ok_or, string_bytes};
ghost use Rattle.sql_builder.specs.Builder.{HasJoin};
ghost use Rattle.sql_builder.specs.Calls.{Cond, OrderBy, SelectValues, SubqueryAs};
ghost use Rattle.sql_builder.specs.Calls.{binary_call, finish_view, nullary_call, start_on, unary_call, variadic_call};
ghost use Rattle.sql_builder.specs.Condition.{borrowed_view};
ghost use Rattle.sql_builder.specs.declared.steps.BinaryClause.TheVariants.{OnEq};
ghost use Rattle.sql_builder.specs.declared.steps.NullaryClause.TheVariants.{ReturningId};
ghost use Rattle.sql_builder.specs.declared.steps.UnaryClause.TheVariants.{On};
ghost use Rattle.sqlb.specs.{Calls, Finishes, Starts, RunsCommand, Runs, IsTaken, command, command_in_parts, finish_of, flag_in, Answers, Checks, printed_if, given_after, given_answer};
ghost use Rattle.sqlb.specs.declared.fault.Fault.TheVariants.{Memory};
ghost use Rattle.sqlb.specs.declared.fault.LineError.TheVariants as out;
ghost use Rattle.sqlb.specs.declared.fault.Reason.TheVariants.{NoStatement, StatementOpen, WrongArguments};

use crate::arguments::Arguments;
use crate::fault::{Fault, LineError, Reason};
use crate::names::{NamedCall, Printing};
use sql_builder::SqlBuilder;
use sql_builder::calls::{
    BinaryClause, BorrowedCondition, Family, Finish, NullaryClause, TableStart, UnaryClause,
    VariadicClause, make_binary, make_condition, make_nullary, make_order, make_unary,
    make_variadic, print_to, restart_on, restart_values,
};
use std::alloc::Global;
use std::marker::Model;

fn read_flag(text: &str) -> Result<bool, Reason>
    ensures { Checks (λ flag. flag) result (ok_or (flag_in text.now) WrongArguments) }
{
    match text {
        "true" => Ok(true),
        "false" => Ok(false),
        _ => Err(Reason::WrongArguments),
    }
}

/// The open statement, if there is one, and the buffers of earlier statements. Contracts see what
/// the builder of the open statement was given.
#[derive(Drop)]
pub(crate) struct Script {
    builder: SqlBuilder,
    is_open: bool,
}

impl Model for Script {
    ghost use Rattle.std.specs.Prelude.{List, None, Option, Some, if◌then◌else◌, ℕ};
    ghost use Rattle.sql_builder.specs.Clauses.{Clauses};

    ghost Value = { Option (Clauses (List ℕ)) };

    ghost view = { λ script. if script.is_open then Some script.builder else None };
}

impl Script {
    /// Returns a script without an open statement. Fails only if memory runs out.
    pub(crate) fn new(alloc: Global) -> Result<Script, Fault>
        ensures closed { IfOk result (λ script. script ≡ None) }
        ensures memory { IfErr result (λ fault. fault ≡ Memory) }
    {
        match SqlBuilder::select_from(alloc, "") {
            Ok(builder) => Ok(Script {
                builder,
                is_open: false,
            }),
            Err(_) => Err(Fault::Memory),
        }
    }

    /// Returns whether a statement is open. Never fails.
    pub(crate) fn is_open(&self) -> bool
        ensures is_open { result ≡ is_some self.now }
    {
        self.is_open
    }

    // The check of a start: no statement is open.
    #[inline(always)]
    fn check_closed(&self) -> Result<(), Reason>
        ensures ok { OnOk result (self.now ≡ None) }
        ensures err { IfErr result (λ reason. (reason ≡ StatementOpen) × IsSome self.now) }
    {
        if self.is_open {
            return Err(Reason::StatementOpen);
        }
        Ok(())
    }

    // The check of a call and of a finish: a statement is open.
    #[inline(always)]
    fn check_open(&self) -> Result<(), Reason>
        ensures ok { OnOk result (IsSome self.now) }
        ensures err { IfErr result (λ reason. (reason ≡ NoStatement) × (self.now ≡ None)) }
    {
        if !self.is_open {
            return Err(Reason::NoStatement);
        }
        Ok(())
    }

    /// Opens a statement on a table. Fails with `StatementOpen` if one is open.
    fn start_on(&mut self, start: TableStart, table: &str) -> Result<bool, LineError>
        ensures { RunsCommand result self.old self.new (Starts (start_on start table.now)) }
    {
        self.check_closed()?;
        restart_on(&mut self.builder, start, table)?;
        self.is_open = true;
        Ok(false)
    }

    /// Opens a statement of values. Fails with `StatementOpen` if one is open.
    #[inline(never)]
    fn start_values(&mut self, values: Arguments<'_>) -> Result<bool, LineError>
        ensures { RunsCommand result self.old self.new (Starts (SelectValues values.entry.parts)) }
    {
        self.check_closed()?;
        restart_values(&mut self.builder, values)?;
        self.is_open = true;
        Ok(false)
    }

    /// Makes a call without a text. Fails with `NoStatement` if no statement is open.
    fn add_nullary(&mut self, clause: NullaryClause) -> Result<bool, LineError>
        ensures given { RunsCommand result self.old self.new (Calls (nullary_call clause)) }
        ensures memory { IsErrOf result out.Memory → clause ≡ ReturningId }
    {
        self.check_open()?;
        make_nullary(&mut self.builder, clause)?;
        Ok(false)
    }

    /// Makes a call with one text. Fails with `NoStatement` if no statement is open. This call and
    /// the next are not inlined, so that `take` stays a part of the loop over lines.
    #[inline(never)]
    fn add_unary(&mut self, clause: UnaryClause, text: &str) -> Result<bool, LineError>
        ensures given { RunsCommand result self.old self.new (Calls (unary_call clause text.now)) }
        ensures memory { IsErrOf result out.Memory
            → IfSome self.old (λ r. clause ≡ On → HasJoin r) }
    {
        self.check_open()?;
        make_unary(&mut self.builder, clause, text)?;
        Ok(false)
    }

    /// Makes a call with two texts. Fails with `NoStatement` if no statement is open.
    #[inline(never)]
    fn add_binary<'a>(
        &mut self,
        clause: BinaryClause,
        first: &'a str,
        second: &'a str,
    ) -> Result<bool, LineError>
        ensures given { RunsCommand result self.old self.new
            (Calls (binary_call clause first.now second.now)) }
        ensures memory { IsErrOf result out.Memory
            → IfSome self.old (λ r. clause ≡ OnEq → HasJoin r) }
    {
        self.check_open()?;
        make_binary(&mut self.builder, clause, first, second)?;
        Ok(false)
    }

    /// Orders the open statement by a field. Fails with `NoStatement` if no statement is open.
    fn add_order(&mut self, field: &str, descending: bool) -> Result<bool, LineError>
        ensures { RunsCommand result self.old self.new (Calls (OrderBy field.now descending)) }
    {
        self.check_open()?;
        make_order(&mut self.builder, field, descending)?;
        Ok(false)
    }

    /// Makes a call with a list of texts. Fails with `NoStatement` if no statement is open.
    fn add_variadic(
        &mut self,
        clause: VariadicClause,
        texts: Arguments<'_>,
    ) -> Result<bool, LineError>
        ensures { RunsCommand result self.old self.new (Calls (variadic_call clause texts.entry.parts)) }
    {
        self.check_open()?;
        make_variadic(&mut self.builder, clause, texts)?;
        Ok(false)
    }

    /// Adds a condition to the open statement. Fails with `NoStatement` if no statement is open.
    fn add_condition<'a>(
        &mut self,
        family: Family,
        condition: BorrowedCondition<'a, Arguments<'a>>,
    ) -> Result<bool, LineError>
        ensures { RunsCommand result self.old self.new
            (Calls (Cond family (borrowed_view (λ left. left.parts) condition.entry))) }
    {
        self.check_open()?;
        make_condition(&mut self.builder, family, condition)?;
        Ok(false)
    }

    /// Prints the open statement in the place of the one before it, and closes it. Fails with
    /// `NoStatement` if no statement is open.
    fn finish(&mut self, finish: &Finish, statement: &mut String) -> Result<bool, LineError>
        ensures { Runs result self.old self.new (string_bytes statement.new)
            (Ok (Finishes (finish_view finish.now))) }
    {
        self.check_open()?;
        statement.clear();
        print_to(&self.builder, finish, statement)?;
        self.is_open = false;
        Ok(true)
    }

    /// Prints the open statement as a subquery of this name, and closes it. Fails with
    /// `NoStatement` if no statement is open.
    fn finish_as(&mut self, name: &str, statement: &mut String) -> Result<bool, LineError>
        ensures { Runs result self.old self.new (string_bytes statement.new)
            (Ok (Finishes (SubqueryAs name.now))) }
    {
        self.check_open()?;
        *statement = self.builder.subquery_as(name)?;
        self.is_open = false;
        Ok(true)
    }

    /// Runs a line, and returns whether it finished a statement. On failure the same statement
    /// stays open.
    pub(crate) fn take_line(
        &mut self,
        arguments: &mut Arguments<'_>,
        statement: &mut String,
    ) -> Result<bool, LineError>
        ensures answer { Answers (printed_if (string_bytes statement.new)) result
            (given_answer self.old (command_in_parts arguments.old.parts)) }
        ensures after { OnOk result
            (self.new ≡ given_after self.old (command_in_parts arguments.old.parts)) }
        ensures err { OnErr result (self.new ≡ self.old) }
        ensures taken { OnOk result (IsTaken arguments.old arguments.new) }
    {
        let name = arguments.next().ok_or(Reason::UnknownCall)?;
        let call = NamedCall::of(name).ok_or(Reason::UnknownCall)?;
        self.take(call, arguments, statement)
    }

    fn take(
        &mut self,
        call: NamedCall,
        arguments: &mut Arguments<'_>,
        statement: &mut String,
    ) -> Result<bool, LineError>
        ensures ran { Runs result self.old self.new (string_bytes statement.new)
            (ok_or (command call arguments.old.parts) WrongArguments) }
        ensures taken { OnOk result (IsTaken arguments.old arguments.new) }
    {
        match call {
            NamedCall::Nullary(clause) => {
                arguments.none()?;
                self.add_nullary(clause)
            }
            NamedCall::Prints(printing) => {
                arguments.none()?;
                self.print(printing, statement)
            }
            NamedCall::Start(start) => self.start_on(start, arguments.one()?),
            NamedCall::SelectValues => self.start_values(arguments.others()),
            NamedCall::Unary(clause) => self.add_unary(clause, arguments.one()?),
            NamedCall::Binary(clause) => {
                let (first, second) = arguments.two()?;
                self.add_binary(clause, first, second)
            }
            NamedCall::OrderBy => {
                let (field, flag) = arguments.two()?;
                self.add_order(field, read_flag(flag)?)
            }
            NamedCall::Variadic(clause) => self.add_variadic(clause, arguments.others()),
            NamedCall::Where(family, kind) => {
                self.add_condition(family, kind.condition(arguments)?)
            }
            NamedCall::SubqueryAs => self.finish_as(arguments.one()?, statement),
        }
    }

    fn print(&mut self, printing: Printing, statement: &mut String) -> Result<bool, LineError>
        ensures { Runs result self.old self.new (string_bytes statement.new)
            (Ok (Finishes (finish_of printing))) }
    {
        match printing {
            Printing::Sql => self.finish(&Finish::Sql, statement),
            Printing::Query => self.finish(&Finish::Query, statement),
            Printing::QueryValues => self.finish(&Finish::QueryValues, statement),
            Printing::Subquery => self.finish(&Finish::Subquery, statement),
        }
    }
}

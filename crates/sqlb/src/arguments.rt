//! The lines of a text, and the parts of a line between TABs: its name and its arguments.
ghost use Rattle.std.specs.Prelude.{◌≡◌, ◌<◌, [], ◌∷◌, false, IsTrue, MatchOption, OnOk};
ghost use Rattle.sqlb.specs.{IsNextLine, IsTaken, first_of, none_of, one_of, three_of, two_of, Checks};

use crate::fault::Reason;
use crate::scan::end_at;
use sql_builder::text::Texts;
use std::marker::Model;

/// A text that is read line by line, part by part. The first part of a line is its name. Contracts
/// see what is left of the text.
#[derive(Drop)]
pub(crate) struct Arguments<'a> {
    text: &'a str,
    // Where what is left begins.
    at: usize,
    // Whether that is inside of a line, or the next one is not read yet.
    in_line: bool,
}

impl<'a> Model for Arguments<'a> {
    ghost use Rattle.std.specs.Prelude.{drop};
    ghost use Rattle.std.specs.Str.{IsCharBoundary};
    ghost use Rattle.sqlb.specs.Arguments.{Remaining, remaining_of};

    ghost Value = { Remaining };

    ghost view = { λ arguments. remaining_of arguments.in_line
        (drop arguments.at arguments.text.now) };

    ghost invariant = { λ arguments. IsCharBoundary arguments.text.now arguments.at };
}

impl<'a> Arguments<'a> {
    /// Returns the lines of a text, none of which is read yet. Never fails.
    pub(crate) fn of(text: &'a str) -> Arguments<'a>
        ensures parts { result.parts ≡ [] }
        ensures behind { result.behind ≡ text.now }
    {
        Arguments {
            text,
            at: 0,
            in_line: false,
        }
    }

    /// Goes on to the next line, and returns whether there is one. All parts of the line before
    /// have to be taken.
    pub(crate) fn next_line(&mut self) -> bool
        requires taken { self.old.parts ≡ [] }
        ensures line { IsTrue result → IsNextLine self.old.behind self.new }
        ensures none { result ≡ false → self.old.behind ≡ [] }
    {
        self.in_line = self.at < self.text.as_bytes().len();
        self.in_line
    }

    /// Takes the next part of the line, if there is one.
    pub(crate) fn next(&mut self) -> Option<&'a str>
        ensures next { MatchOption result ((self.old.parts ≡ []) × (self.new.parts ≡ []))
            (λ part. self.old.parts ≡ part.now ∷ self.new.parts) }
        ensures behind { self.new.behind ≡ self.old.behind }
    {
        if !self.in_line {
            return None;
        }
        let text = self.text;
        let end = end_at(text.as_bytes(), self.at, b'\t');
        let part = &text[self.at..end];
        if end == text.len() {
            self.in_line = false;
            self.at = end;
            return Some(part);
        }
        self.in_line = text.as_bytes()[end] == b'\t';
        self.at = end + 1;
        Some(part)
    }

    /// Takes the next part. Fails with `WrongArguments` if there is none.
    pub(crate) fn first(&mut self) -> Result<&'a str, Reason>
        ensures first { Checks (λ part. (part.now, self.new.parts)) result
            (first_of self.old.parts) }
        ensures behind { self.new.behind ≡ self.old.behind }
    {
        match self.next() {
            Some(part) => Ok(part),
            None => Err(Reason::WrongArguments),
        }
    }

    /// Checks that no part is left. Fails with `WrongArguments` if one is.
    pub(crate) fn none(&mut self) -> Result<(), Reason>
        ensures none { Checks (λ done. done) result (none_of self.old.parts) }
        ensures taken { OnOk result (IsTaken self.old self.new) }
    {
        match self.next() {
            None => Ok(()),
            Some(_) => Err(Reason::WrongArguments),
        }
    }

    /// Takes the only part. Fails with `WrongArguments` if there is none or more than one.
    #[inline(always)]
    pub(crate) fn one(&mut self) -> Result<&'a str, Reason>
        ensures one { Checks (λ part. part.now) result (one_of self.old.parts) }
        ensures taken { OnOk result (IsTaken self.old self.new) }
    {
        let part = self.first()?;
        self.none()?;
        Ok(part)
    }

    /// Takes the only two parts. Fails with `WrongArguments` if there are fewer or more.
    #[inline(always)]
    pub(crate) fn two(&mut self) -> Result<(&'a str, &'a str), Reason>
        ensures two { Checks (λ parts. (parts.0.now, parts.1.now)) result
            (two_of self.old.parts) }
        ensures taken { OnOk result (IsTaken self.old self.new) }
    {
        let first = self.first()?;
        Ok((first, self.one()?))
    }

    /// Takes the only three parts. Fails with `WrongArguments` if there are fewer or more.
    pub(crate) fn three(&mut self) -> Result<(&'a str, &'a str, &'a str), Reason>
        ensures three { Checks (λ parts. (parts.0.now, parts.1.now, parts.2.now)) result
            (three_of self.old.parts) }
        ensures taken { OnOk result (IsTaken self.old self.new) }
    {
        let first = self.first()?;
        let (second, third) = self.two()?;
        Ok((first, second, third))
    }

    /// Takes all parts that are left.
    pub(crate) fn others(&mut self) -> Arguments<'a>
        ensures others { result.parts ≡ self.old.parts }
        ensures taken { IsTaken self.old self.new }
    {
        let others = Arguments {
            text: self.text,
            at: self.at,
            in_line: self.in_line,
        };
        if !self.in_line {
            return others;
        }
        let text = self.text;
        let feed = end_at(text.as_bytes(), self.at, b'\n');
        self.in_line = false;
        if feed == text.len() {
            self.at = feed;
            return others;
        }
        self.at = feed + 1;
        others
    }
}

impl<'a> Texts<'a> for Arguments<'a> {
    type Text = &'a str;

    ghost left = { λ arguments. arguments.parts };

    fn next_text(&mut self) -> Option<&'a str> {
        self.next()
    }
}

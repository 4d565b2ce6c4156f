//! Values in place of the placeholders of a text.
ghost use Rattle.std.specs.Prelude.{◌≡◌, Err, IfOk, IsSome, List, None, Some, length, map, string_bytes, ℕ};
ghost use Rattle.sql_parts.specs.{FailsOnlyByMemory, alone, bound, listed, looked_up, resolve, HasBoundTokens, IsClosedIfApart};
ghost use Rattle.sql_parts.specs.Templates as templates;
ghost use Rattle.sql_parts.specs.declared.error.SqlBuilderError.TheVariants.{NoArguments};

use crate::arg::SqlArg;
pub use crate::bind_names::BindNames;
use crate::error::SqlBuilderError;
pub use crate::placeholders::Marks;
use crate::substitution::{Alone, LookedUp, Repeated, bound_text, lacks_arguments, places_for};
use crate::text::ToText;
use std::alloc::Global;

/// A text whose placeholders can be bound. Each call goes through the text once, from the left, and
/// returns a new one. It doesn't look again at what it put in. Quotes in the text mean nothing to
/// it.
pub trait Bind {
    /// The text, as its bytes.
    ghost template: { Self → List ℕ };

    /// Returns the text with the argument in place of the first `?`. Fails only if memory runs out.
    /// `"a = ? OR ?".bind(alloc, &"it's")?` gives `a = 'it''s' OR ?`
    fn bind<A: SqlArg>(&self, alloc: Global, arg: &A) -> Result<String, SqlBuilderError>
        ensures text { IfOk result (λ s. Some (string_bytes s)
            ≡ bound (template self.now) templates.First (alone (A.literal arg.now))) }
        ensures tokens { IfOk result (λ s. HasBoundTokens (template self.now)
            templates.First (alone (A.literal arg.now)) (string_bytes s)) }
        ensures closed { IfOk result (λ s. IsClosedIfApart (template self.now)
            templates.First (string_bytes s)) }
        ensures memory { FailsOnlyByMemory result };

    /// Returns the text with the arguments in place of each `?` in turn, the first again after the
    /// last.
    ///
    /// Fails with `NoArguments` if the text has a `?` and there is no argument, whether there is
    /// memory or not. Otherwise it fails only if memory runs out.
    /// `"? ? ?".binds(alloc, &[Box::new(alloc, 1)?, Box::new(alloc, String::from_str(alloc, "b")?)?])?` gives
    /// `1 'b' 1`
    /// `"?".binds(alloc, &[])` fails with `NoArguments`
    fn binds(&self, alloc: Global, args: &[Box<dyn SqlArg>]) -> Result<String, SqlBuilderError>
        ensures text { IfOk result (λ s. Some (string_bytes s)
            ≡ bound (template self.now) (templates.Cycle (length args.now))
            (listed (map (λ b. literal b) args.now))) }
        ensures tokens { IfOk result (λ s. HasBoundTokens (template self.now)
            (templates.Cycle (length args.now)) (listed (map (λ b. literal b) args.now))
            (string_bytes s)) }
        ensures closed { IfOk result (λ s. IsClosedIfApart (template self.now)
            (templates.Cycle (length args.now)) (string_bytes s)) }
        ensures error { resolve (template self.now) (templates.Cycle (length args.now)) ≡ None
            → result ≡ Err NoArguments }
        ensures memory { IsSome (resolve (template self.now) (templates.Cycle (length args.now)))
            → FailsOnlyByMemory result };

    /// Returns the text with the argument in place of each `$` with this number, if no ASCII digit
    /// follows. Fails only if memory runs out.
    /// `"$1 $12".bind_num(alloc, 1, &7)?` gives `7 $12`
    fn bind_num<A: SqlArg>(
        &self,
        alloc: Global,
        num: u16,
        arg: &A,
    ) -> Result<String, SqlBuilderError>
        ensures text { IfOk result (λ s. Some (string_bytes s)
            ≡ bound (template self.now) (templates.Num num) (alone (A.literal arg.now))) }
        ensures tokens { IfOk result (λ s. HasBoundTokens (template self.now)
            (templates.Num num) (alone (A.literal arg.now)) (string_bytes s)) }
        ensures closed { IfOk result (λ s. IsClosedIfApart (template self.now)
            (templates.Num num) (string_bytes s)) }
        ensures memory { FailsOnlyByMemory result };

    /// Returns the text with the arguments in place of `$1`, `$2` and so on. `$$` becomes `$`, also
    /// with zeros between. A number without an argument and a `$` without a number become nothing.
    /// Fails only if memory runs out.
    /// `"$2 $1 $$".bind_nums(alloc, &[Box::new(alloc, 1)?, Box::new(alloc, String::from_str(alloc, "b")?)?])?` gives
    /// `'b' 1 $`
    fn bind_nums(&self, alloc: Global, args: &[Box<dyn SqlArg>]) -> Result<String, SqlBuilderError>
        ensures text { IfOk result (λ s. Some (string_bytes s)
            ≡ bound (template self.now) (templates.Nums (length args.now))
            (listed (map (λ b. literal b) args.now))) }
        ensures tokens { IfOk result (λ s. HasBoundTokens (template self.now)
            (templates.Nums (length args.now)) (listed (map (λ b. literal b) args.now))
            (string_bytes s)) }
        ensures closed { IfOk result (λ s. IsClosedIfApart (template self.now)
            (templates.Nums (length args.now)) (string_bytes s)) }
        ensures memory { FailsOnlyByMemory result };

    /// Returns the text with the argument in place of each `:name:`, from the left and without
    /// overlap. The name may be empty. Fails only if memory runs out.
    /// `":a: :b:".bind_name(alloc, &"a", &1)?` gives `1 :b:`
    fn bind_name<K: ToText, A: SqlArg>(
        &self,
        alloc: Global,
        name: &K,
        arg: &A,
    ) -> Result<String, SqlBuilderError>
        ensures text { IfOk result (λ s. Some (string_bytes s)
            ≡ bound (template self.now) (templates.Name (K.text name.now))
            (alone (A.literal arg.now))) }
        ensures tokens { IfOk result (λ s. HasBoundTokens (template self.now)
            (templates.Name (K.text name.now)) (alone (A.literal arg.now)) (string_bytes s)) }
        ensures closed { IfOk result (λ s. IsClosedIfApart (template self.now)
            (templates.Name (K.text name.now)) (string_bytes s)) }
        ensures memory { FailsOnlyByMemory result };

    /// Returns the text with the literal of each name in place of `:name:`, or NULL if the name has
    /// none. `::` becomes `:`. A `:` that no other one closes stays, with all behind it. Fails only
    /// if memory runs out.
    /// `":a: :b: ::".bind_names(alloc, &{ let mut names: Vec<(&str, Box<dyn SqlArg>)> = Vec::new(alloc); names.push(("a", Box::new(alloc, 1)?))?; names })?` gives
    /// `1 NULL :`
    fn bind_names<N: BindNames>(&self, alloc: Global, names: &N) -> Result<String, SqlBuilderError>
        ensures text { IfOk result (λ s. Some (string_bytes s)
            ≡ bound (template self.now) templates.Names (looked_up (N.literals names.now))) }
        ensures tokens { IfOk result (λ s. HasBoundTokens (template self.now)
            templates.Names (looked_up (N.literals names.now)) (string_bytes s)) }
        ensures closed { IfOk result (λ s. IsClosedIfApart (template self.now)
            templates.Names (string_bytes s)) }
        ensures memory { FailsOnlyByMemory result };
}

impl Bind for &str {
    ghost template = { λ s. s.now };

    fn bind<A: SqlArg>(&self, alloc: Global, arg: &A) -> Result<String, SqlBuilderError> {
        bound_text(alloc, self, Marks::First, &Alone { arg })
    }

    fn binds(&self, alloc: Global, args: &[Box<dyn SqlArg>]) -> Result<String, SqlBuilderError> {
        if lacks_arguments(self, args.len()) {
            return Err(SqlBuilderError::NoArguments);
        }
        bound_text(alloc, self, Marks::Cycle(args.len()), &args)
    }

    fn bind_num<A: SqlArg>(
        &self,
        alloc: Global,
        num: u16,
        arg: &A,
    ) -> Result<String, SqlBuilderError> {
        let argument = Repeated::new(alloc, arg)?;
        bound_text(alloc, self, Marks::Num(num), &argument)
    }

    fn bind_nums(
        &self,
        alloc: Global,
        args: &[Box<dyn SqlArg>],
    ) -> Result<String, SqlBuilderError> {
        bound_text(alloc, self, Marks::Nums(args.len()), &args)
    }

    fn bind_name<K: ToText, A: SqlArg>(
        &self,
        alloc: Global,
        name: &K,
        arg: &A,
    ) -> Result<String, SqlBuilderError> {
        let name = name.to_text(alloc)?;
        let argument = Repeated::new(alloc, arg)?;
        bound_text(alloc, self, Marks::Name(name.as_str()), &argument)
    }

    fn bind_names<N: BindNames>(
        &self,
        alloc: Global,
        names: &N,
    ) -> Result<String, SqlBuilderError> {
        let places = places_for(alloc, self, names)?;
        bound_text(alloc, self, Marks::Names, &LookedUp { names, places })
    }
}

impl Bind for String {
    ghost template = { λ s. string_bytes s };

    fn bind<A: SqlArg>(&self, alloc: Global, arg: &A) -> Result<String, SqlBuilderError> {
        self.as_str().bind(alloc, arg)
    }

    fn binds(&self, alloc: Global, args: &[Box<dyn SqlArg>]) -> Result<String, SqlBuilderError> {
        self.as_str().binds(alloc, args)
    }

    fn bind_num<A: SqlArg>(
        &self,
        alloc: Global,
        num: u16,
        arg: &A,
    ) -> Result<String, SqlBuilderError> {
        self.as_str().bind_num(alloc, num, arg)
    }

    fn bind_nums(
        &self,
        alloc: Global,
        args: &[Box<dyn SqlArg>],
    ) -> Result<String, SqlBuilderError> {
        self.as_str().bind_nums(alloc, args)
    }

    fn bind_name<K: ToText, A: SqlArg>(
        &self,
        alloc: Global,
        name: &K,
        arg: &A,
    ) -> Result<String, SqlBuilderError> {
        self.as_str().bind_name(alloc, name, arg)
    }

    fn bind_names<N: BindNames>(
        &self,
        alloc: Global,
        names: &N,
    ) -> Result<String, SqlBuilderError> {
        self.as_str().bind_names(alloc, names)
    }
}

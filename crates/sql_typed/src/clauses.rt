//! Clauses that the builder doesn't have: upserts, INSERT of a query, locks, INTERSECT, EXCEPT and
//! WITH. Each is printed behind a text that is printed already, so types say what may follow what.
ghost use Rattle.std.specs.Prelude.{◌≡◌, ◌++◌, ◌⊎◌, codes, IfErr, IfOk, IsTrue, MatchResult, None, Ok, Some, map, string_bytes, true};
ghost use Rattle.sql_parts.specs.Error.{FailsOnlyByMemory, IsMemory};
ghost use Rattle.sql_parts.specs.Fragments.{balanced};
ghost use Rattle.sql_parts.specs.Tokens.{closed, tokens};
ghost use Rattle.sql_builder.specs.Calls.{Sql};
ghost use Rattle.sql_builder.specs.Shape.{EndsInOneSemicolon};
ghost use Rattle.sql_builder.specs.Statement.{error_at, statement, text_at};
ghost use Rattle.sql_builder.specs.StatementLaws.{made_by};
ghost use Rattle.sql_typed.specs.Faults.{FailsAs, FailsBy, MayFailBy, following_fault_of};
ghost use Rattle.sql_typed.specs.Printed.{FailsWith, IsPrinted};
ghost use Rattle.sql_typed.specs.Results.{Continues};
ghost use Rattle.sql_typed.specs.Whole.{HasWholeFront, asking, combined_text, conflict_text, inserted_text, is_whole, lock_text, may_follow, may_join, named_text, set_text};

use crate::Result;
use crate::error::Error;
use crate::operand_text::OperandText;
use crate::printed::{
    Complete, Conflict, DoNothing, DoUpdate, DuplicateKey, Lock, Named, Printed, Rows, Selected,
    Sets, Wait, Whole, With,
};
use crate::statement::{Begins, InsertKind, Returns, Statement};
use crate::texts::Query;
use sql_builder::SqlBuilder;
use sql_builder::calls::{Finish, TextList, UnaryClause, make_unary, print};
use std::alloc::Global;
use std::marker::PhantomData;

// What `sql` prints of the builder, without the `;`.
fn bare<K>(alloc: Global, builder: &SqlBuilder) -> Result<Printed<K>>
    requires front { HasWholeFront builder.now }
    ensures text { IfOk result (λ p. string_bytes p.text ++ codes ";" ≡ text_at Sql builder.now) }
    ensures error { FailsWith (error_at Sql builder.now) result }
{
    let mut text = print(builder, &Finish::Sql)?;
    text.pop();
    Ok(Printed::of_text(alloc, text))
}

impl<K> Printed<K> {
    fn of_text(alloc: Global, text: String) -> Printed<K>
        requires whole { IsTrue (is_whole (string_bytes text)) }
        ensures { result.text ≡ text }
    {
        Printed {
            alloc,
            text,
            kind: PhantomData,
        }
    }

    // Words and a text behind it.
    #[tactic(auto, using(crate::proofs::WholeLemmas::followed_whole))]
    fn followed<L>(self, words: &str, text: &str) -> Result<Printed<L>>
        requires words { IsTrue (may_join words.now) }
        requires text { IsTrue (is_whole text.now) }
        ensures text { Continues result (string_bytes self.text ++ (words.now ++ text.now)) }
    {
        let mut out = self.text;
        out.push_str(words)?;
        out.push_str(text)?;
        Ok(Printed::of_text(self.alloc, out))
    }

    // Words behind it.
    #[tactic(auto, using(crate::proofs::WholeLemmas::ended_whole))]
    fn ended<L>(self, words: &str) -> Result<Printed<L>>
        requires words { IsTrue (may_follow words.now) }
        ensures text { Continues result (string_bytes self.text ++ words.now) }
    {
        let mut out = self.text;
        out.push_str(words)?;
        Ok(Printed::of_text(self.alloc, out))
    }

    // Words and an operand behind it.
    fn with<L, F: OperandText>(self, words: &str, operand: F) -> Result<Printed<L>>
        requires words { IsTrue (may_join words.now) }
        ensures text { Continues result (string_bytes self.text ++ (words.now ++ F.text operand)) }
    {
        let operand = operand.as_text(self.alloc)?;
        self.followed(words, operand.as_str())
    }

    // A field that is set to a value, with words between them.
    fn set_to<L, F: OperandText, V: OperandText>(
        self,
        words: &str,
        field: F,
        value: V,
    ) -> Result<Printed<L>>
        requires words { IsTrue (may_join words.now) }
        ensures text { Continues result (string_bytes self.text ++ set_text words.now (F.text field) (V.text value)) }
    {
        let printed: Printed<L> = self.with(words, field)?;
        printed.with(" = ", value)
    }

    // A query under a name.
    #[tactic(auto, using(crate::proofs::WholeLemmas::balanced_is_whole))]
    fn named<N: OperandText>(self, words: &str, name: N, query: &Query) -> Result<With>
        requires words { IsTrue (may_join words.now) }
        ensures text { Continues result (string_bytes self.text ++ named_text words.now (N.text name) (string_bytes query.now.text)) }
    {
        let printed: With = self.with(words, name)?;
        let printed: With = printed.followed(" AS (", query.text.as_str())?;
        printed.ended(")")
    }
}

impl<K: Complete> Printed<K> {
    /// Returns the statement. Fails only if memory runs out.
    /// `Select::from(alloc, Fragment::of("t"))?.printed()?.sql()?` gives `SELECT * FROM t;`
    #[tactic(auto, using(crate::proofs::WholeLemmas::whole_closed))]
    pub fn sql(self) -> Result<String>
        ensures text { IfOk result (λ s. string_bytes s ≡ string_bytes self.text ++ codes ";") }
        ensures closed { IfOk result (λ s. IsTrue (closed (string_bytes s))) }
        ensures semicolon { IfOk result (λ s. EndsInOneSemicolon (tokens (string_bytes s))) }
        ensures memory { FailsOnlyByMemory result }
    {
        let mut text = self.text;
        text.push_str(";")?;
        Ok(text)
    }
}

impl<K: Returns> Printed<K> {
    /// Adds RETURNING of a field, as the last clause. Fails only if memory runs out.
    /// `Insert::into(alloc, Fragment::of("t"))?.values(&[1])?.rows()?.returning(Operand::of("id"))?.sql()?` gives
    /// `INSERT INTO t () VALUES (1) RETURNING id;`
    pub fn returning<F: OperandText>(self, field: F) -> Result<Printed<Whole>>
        ensures text { Continues result (string_bytes self.text ++ (codes " RETURNING " ++ F.text field)) }
    {
        self.with(" RETURNING ", field)
    }
}

impl Printed<Rows> {
    /// Adds ON CONFLICT of these columns, or of any conflict if there are none. Fails only if
    /// memory runs out.
    /// `Insert::into(alloc, Fragment::of("t"))?.field(Operand::of("id"))?.values(&[1])?.rows()?.on_conflict(&[Operand::of("id")])?.do_nothing()?.sql()?` gives
    /// `INSERT INTO t (id) VALUES (1) ON CONFLICT (id) DO NOTHING;`
    pub fn on_conflict<F: OperandText>(self, columns: &[F]) -> Result<Printed<Conflict>>
        ensures text { Continues result (string_bytes self.text ++ conflict_text (map F.text columns.now)) }
    {
        if columns.is_empty() {
            return self.ended(" ON CONFLICT");
        }
        let list = listed(self.alloc, columns)?;
        let printed: Printed<Conflict> = self.followed(" ON CONFLICT (", list.as_str())?;
        printed.ended(")")
    }

    /// Adds MySQL's ON DUPLICATE KEY UPDATE of a field to a value. Fails only if memory runs out.
    /// `Insert::into(alloc, Fragment::of("t"))?.field(Operand::of("id"))?.values(&[1])?.rows()?.on_duplicate_key(Operand::of("n"), 2)?.sql()?` gives
    /// `INSERT INTO t (id) VALUES (1) ON DUPLICATE KEY UPDATE n = 2;`
    pub fn on_duplicate_key<F: OperandText, V: OperandText>(
        self,
        field: F,
        value: V,
    ) -> Result<Printed<DuplicateKey>>
        ensures text { Continues result (string_bytes self.text
            ++ set_text (codes " ON DUPLICATE KEY UPDATE ") (F.text field) (V.text value)) }
    {
        self.set_to(" ON DUPLICATE KEY UPDATE ", field, value)
    }
}

// Operands with commas between them.
fn listed<F: OperandText>(alloc: Global, operands: &[F]) -> Result<TextList>
    ensures list { IfOk result (λ list. list ≡ map F.text operands.now) }
    ensures memory { FailsOnlyByMemory result }
{
    let mut list = TextList::new(alloc);
    for operand in operands {
        list.push_text(alloc, operand)?;
    }
    Ok(list)
}

impl Printed<Conflict> {
    /// Adds DO NOTHING. Fails only if memory runs out.
    /// `Insert::into(alloc, Fragment::of("t"))?.field(Operand::of("id"))?.values(&[1])?.rows()?.on_conflict(&[Operand::of("id")])?.do_nothing()?.sql()?` gives
    /// `INSERT INTO t (id) VALUES (1) ON CONFLICT (id) DO NOTHING;`
    pub fn do_nothing(self) -> Result<Printed<DoNothing>>
        ensures text { Continues result (string_bytes self.text ++ codes " DO NOTHING") }
    {
        self.ended(" DO NOTHING")
    }

    /// Adds DO UPDATE, which sets a field to a value. The value that was to be inserted is an
    /// operand, such as `Operand::of("excluded.n")`. Fails only if memory runs out.
    /// `Insert::into(alloc, Fragment::of("t"))?.field(Operand::of("id"))?.values(&[1])?.rows()?.on_conflict(&[Operand::of("id")])?.do_update(Operand::of("n"), Value("it's"))?.sql()?` gives
    /// `INSERT INTO t (id) VALUES (1) ON CONFLICT (id) DO UPDATE SET n = 'it''s';`
    pub fn do_update<F: OperandText, V: OperandText>(
        self,
        field: F,
        value: V,
    ) -> Result<Printed<DoUpdate>>
        ensures text { Continues result (string_bytes self.text ++ set_text (codes " DO UPDATE SET ") (F.text field) (V.text value)) }
    {
        self.set_to(" DO UPDATE SET ", field, value)
    }
}

impl<K: Sets> Printed<K> {
    /// Sets one more field to a value. Fails only if memory runs out.
    /// `Insert::into(alloc, Fragment::of("t"))?.field(Operand::of("id"))?.values(&[1])?.rows()?.on_conflict(&[Operand::of("id")])?.do_update(Operand::of("n"), 2)?.set(Operand::of("m"), Operand::of("excluded.m"))?.sql()?` gives
    /// `INSERT INTO t (id) VALUES (1) ON CONFLICT (id) DO UPDATE SET n = 2, m = excluded.m;`
    pub fn set<F: OperandText, V: OperandText>(self, field: F, value: V) -> Result<Printed<K>>
        ensures text { Continues result (string_bytes self.text ++ set_text (codes ", ") (F.text field) (V.text value)) }
    {
        self.set_to(", ", field, value)
    }
}

impl Printed<DuplicateKey> {
    /// Sets one more field to the value that was to be inserted. Fails only if memory runs out.
    /// `Insert::into(alloc, Fragment::of("t"))?.field(Operand::of("id"))?.values(&[1])?.rows()?.on_duplicate_key(Operand::of("n"), 2)?.set_inserted(Operand::of("m"))?.sql()?` gives
    /// `INSERT INTO t (id) VALUES (1) ON DUPLICATE KEY UPDATE n = 2, m = VALUES(m);`
    pub fn set_inserted<F: OperandText>(self, field: F) -> Result<Printed<DuplicateKey>>
        ensures text { Continues result (string_bytes self.text ++ inserted_text (codes ", ") (F.text field)) }
    {
        let printed: Printed<DuplicateKey> = self.with(", ", &field)?;
        let printed: Printed<DuplicateKey> = printed.with(" = VALUES(", field)?;
        printed.ended(")")
    }
}

impl Printed<Named> {
    /// Returns WITH and a query under a name, which may begin with RECURSIVE. Fails only if memory
    /// runs out.
    /// `With::of(alloc, Operand::of("q"), &query)?.before(&Select::from(alloc, Fragment::of("q"))?.printed()?)?.sql()?` gives
    /// `WITH q AS (SELECT b FROM t) SELECT * FROM q;`
    pub fn of<N: OperandText>(alloc: Global, name: N, query: &Query) -> Result<With>
        ensures text { Continues result (named_text (codes "WITH ") (N.text name) (string_bytes query.now.text)) }
    {
        let front: With = Printed::of_text(alloc, String::from_str(alloc, "WITH")?);
        front.named(" ", name, query)
    }

    /// Adds a query under a name. Fails only if memory runs out.
    /// `With::of(alloc, Operand::of("q"), &query)?.and(Operand::of("r"), &query)?.before(&Select::from(alloc, Fragment::of("r"))?.printed()?)?.sql()?` gives
    /// `WITH q AS (SELECT b FROM t), r AS (SELECT b FROM t) SELECT * FROM r;`
    pub fn and<N: OperandText>(self, name: N, query: &Query) -> Result<With>
        ensures text { Continues result (string_bytes self.text
            ++ named_text (codes ", ") (N.text name) (string_bytes query.now.text)) }
    {
        self.named(", ", name, query)
    }

    /// Adds the statement that these queries are for. Fails only if memory runs out.
    /// `With::of(alloc, Operand::of("q"), &query)?.before(&Select::from(alloc, Fragment::of("q"))?.printed()?)?.text` gives
    /// `WITH q AS (SELECT b FROM t) SELECT * FROM q`
    pub fn before<K: Complete>(self, statement: &Printed<K>) -> Result<Printed<Whole>>
        ensures text { Continues result (string_bytes self.text ++ (codes " " ++ string_bytes statement.now.text)) }
    {
        self.followed(" ", statement.text.as_str())
    }
}

impl<K: Begins> Statement<K> {
    /// Returns the statement without its `;`, for clauses that follow it. Fails as `sql` does.
    /// `Select::from(alloc, Fragment::of("t"))?.printed()?.text` gives `SELECT * FROM t`
    pub fn printed(&self) -> Result<Printed<Whole>, Error>
        ensures printed { IfOk result (λ p. IsPrinted self.now Sql (string_bytes p.text ++ codes ";")) }
        ensures error { FailsAs self.now Sql result }
    {
        self.check()?;
        let printed = bare(self.alloc, self.clauses())?;
        Ok(printed)
    }
}

fn lock_words(lock: Lock, wait: Wait) -> &'static str
    ensures text { result.now ≡ lock_text lock wait }
    ensures follows { IsTrue (may_follow result.now) }
{
    match (lock, wait) {
        (Lock::Update, Wait::Block) => " FOR UPDATE",
        (Lock::Update, Wait::SkipLocked) => " FOR UPDATE SKIP LOCKED",
        (Lock::Update, Wait::NoWait) => " FOR UPDATE NOWAIT",
        (Lock::Share, Wait::Block) => " FOR SHARE",
        (Lock::Share, Wait::SkipLocked) => " FOR SHARE SKIP LOCKED",
        (Lock::Share, Wait::NoWait) => " FOR SHARE NOWAIT",
    }
}

impl Printed<Selected> {
    /// Adds a lock on the rows. Fails only if memory runs out.
    /// `Select::from(alloc, Fragment::of("t"))?.query()?.printed(alloc)?.locked(Lock::Update, Wait::SkipLocked)?.sql()?` gives
    /// `SELECT * FROM t FOR UPDATE SKIP LOCKED;`
    pub fn locked(self, lock: Lock, wait: Wait) -> Result<Printed<Whole>>
        ensures text { Continues result (string_bytes self.text ++ lock_text lock wait) }
    {
        self.ended(lock_words(lock, wait))
    }
}

impl Statement<InsertKind> {
    /// Returns the INSERT, for clauses behind its rows. Fails with `ReturningFirst` if it has a
    /// RETURNING. That comes last: call `returning` of what is printed. Otherwise it fails as `sql`
    /// does.
    /// `Insert::into(alloc, Fragment::of("t"))?.values(&[1])?.rows()?.text` gives
    /// `INSERT INTO t () VALUES (1)`
    pub fn rows(&self) -> Result<Printed<Rows>, Error>
        ensures printed { IfOk result (λ p. IsPrinted self.now Sql (string_bytes p.text ++ codes ";")) }
        ensures error { FailsBy (following_fault_of self.now) (error_at Sql (made_by self.now.start self.now.calls)) result }
    {
        self.check_following()?;
        let printed = bare(self.alloc, self.clauses())?;
        Ok(printed)
    }

    /// Returns an INSERT of the rows of a query, in place of rows of its own. Fails with
    /// `ReturningFirst` if it has a RETURNING. Otherwise it fails with the builder's `NoTableName`,
    /// or if memory runs out.
    /// `Insert::into(alloc, Fragment::of("u"))?.field(Operand::of("a"))?.rows_of(&query)?.sql()?` gives `INSERT INTO u (a) SELECT b FROM t;`
    pub fn rows_of(self, query: &Query) -> Result<Printed<Rows>, Error>
        ensures statement { IfOk result (λ p. statement self.start (asking (string_bytes query.now.text) self.calls) Sql
            ≡ Ok (string_bytes p.text ++ codes ";")) }
        ensures error { MayFailBy (following_fault_of self)
            (error_at Sql (made_by self.start (asking (string_bytes query.now.text) self.calls))) result }
    {
        self.check_following()?;
        let printed = self.asking(query)?;
        Ok(printed)
    }

    fn check_following(&self) -> Result<(), Error>
        ensures { MatchResult result (λ _. following_fault_of self.now ≡ None) (λ e. following_fault_of self.now ≡ Some e) }
    {
        if self.marks.has_returning {
            return Err(Error::ReturningFirst);
        }
        self.check()
    }

    fn asking(self, query: &Query) -> Result<Printed<Rows>>
        ensures statement { IfOk result (λ p. statement self.start (asking (string_bytes query.now.text) self.calls) Sql
            ≡ Ok (string_bytes p.text ++ codes ";")) }
        ensures error { IfErr result (λ e. IsMemory e
            ⊎ (error_at Sql (made_by self.start (asking (string_bytes query.now.text) self.calls)) ≡ Some e)) }
    {
        let mut builder = self.builder;
        make_unary(&mut builder.it, UnaryClause::Select, query.text.as_str())?;
        bare(self.alloc, &builder.it)
    }
}

impl Query {
    /// Returns a query of the rows that both queries have, by INTERSECT. A query that `union` would
    /// make a table is one here. Fails only if memory runs out.
    /// `query.intersect(alloc, &query)?.text` gives `SELECT b FROM t INTERSECT SELECT b FROM t`
    pub fn intersect(&self, alloc: Global, other: &Query) -> Result<Query>
        ensures text { IfOk result (λ q. string_bytes q.text ≡ combined_text (codes " INTERSECT ")
            self.now.needs_brackets (string_bytes self.now.text) other.now.needs_brackets (string_bytes other.now.text)) }
        ensures united { IfOk result (λ q. q.needs_brackets ≡ true) }
        ensures memory { FailsOnlyByMemory result }
    {
        self.combined(alloc, " INTERSECT ", other)
    }

    /// Returns a query of the rows that the other query doesn't have, by EXCEPT. Fails only if
    /// memory runs out.
    /// `query.except(alloc, &query)?.text` gives `SELECT b FROM t EXCEPT SELECT b FROM t`
    pub fn except(&self, alloc: Global, other: &Query) -> Result<Query>
        ensures text { IfOk result (λ q. string_bytes q.text ≡ combined_text (codes " EXCEPT ")
            self.now.needs_brackets (string_bytes self.now.text) other.now.needs_brackets (string_bytes other.now.text)) }
        ensures united { IfOk result (λ q. q.needs_brackets ≡ true) }
        ensures memory { FailsOnlyByMemory result }
    {
        self.combined(alloc, " EXCEPT ", other)
    }

    fn combined(&self, alloc: Global, words: &str, other: &Query) -> Result<Query>
        requires words { IsTrue (may_join words.now) }
        requires even { IsTrue (balanced words.now) }
        ensures text { IfOk result (λ q. string_bytes q.text ≡ combined_text words.now
            self.now.needs_brackets (string_bytes self.now.text) other.now.needs_brackets (string_bytes other.now.text)) }
        ensures united { IfOk result (λ q. q.needs_brackets ≡ true) }
        ensures memory { FailsOnlyByMemory result }
    {
        let one = self.united(alloc)?;
        let other = other.united(alloc)?;
        let mut text = String::from_str(alloc, one.as_str())?;
        text.push_str(words)?;
        text.push_str(other.as_str())?;
        Ok(Query {
            text,
            needs_brackets: true,
        })
    }

    /// Returns the query as a statement, which may have a lock. Fails only if memory runs out.
    /// `query.except(alloc, &query)?.printed(alloc)?.sql()?` gives
    /// `SELECT b FROM t EXCEPT SELECT b FROM t;`
    #[tactic(auto, using(crate::proofs::WholeLemmas::balanced_is_whole))]
    pub fn printed(&self, alloc: Global) -> Result<Printed<Selected>>
        ensures text { Continues result (string_bytes self.now.text) }
    {
        let text = String::from_str(alloc, self.text.as_str())?;
        Ok(Printed::of_text(alloc, text))
    }
}

//! The text of a statement that further clauses may follow, by types that say which.
ghost use Rattle.std.specs.Prelude.{IsTrue, string_bytes};
ghost use Rattle.sql_typed.specs.Whole.{is_whole};

use crate::statement::Returns;
use std::alloc::Global;
use std::marker::PhantomData;

/// A statement that is done.
#[derive(Drop)]
pub struct Whole {}

/// A query as a statement.
#[derive(Drop)]
pub struct Selected {}

/// An INSERT up to its rows, or its query.
#[derive(Drop)]
pub struct Rows {}

/// An INSERT up to ON CONFLICT.
#[derive(Drop)]
pub struct Conflict {}

/// An INSERT up to DO NOTHING.
#[derive(Drop)]
pub struct DoNothing {}

/// An INSERT up to DO UPDATE SET.
#[derive(Drop)]
pub struct DoUpdate {}

/// An INSERT up to ON DUPLICATE KEY UPDATE.
#[derive(Drop)]
pub struct DuplicateKey {}

/// WITH and its queries, without a statement.
#[derive(Drop)]
pub struct Named {}

/// A kind of text that is a statement as it is.
pub trait Complete {}

impl Complete for Whole {}

impl Complete for Selected {}

impl Complete for Rows {}

impl Complete for DoNothing {}

impl Complete for DoUpdate {}

impl Complete for DuplicateKey {}

/// A kind of text that sets fields.
pub trait Sets {}

impl Sets for DoUpdate {}

impl Sets for DuplicateKey {}

impl Returns for Rows {}

impl Returns for DoNothing {}

impl Returns for DoUpdate {}

impl Returns for DuplicateKey {}

/// The text of a statement, or of how it begins, without its `;`. Each quote and comment in it is
/// closed.
#[derive(Drop)]
#[non_exhaustive]
pub struct Printed<K> {
    pub(crate) alloc: Global,
    /// The text.
    pub text: String,
    pub(crate) kind: PhantomData<K>,
    pub ghost whole: { IsTrue (is_whole (string_bytes text)) },
}

/// WITH and its queries.
pub type With = Printed<Named>;

/// A lock on the rows of a SELECT.
#[derive(Clone, Copy)]
pub enum Lock {
    /// FOR UPDATE.
    Update,
    /// FOR SHARE.
    Share,
}

/// What a SELECT does with rows that another has locked.
#[derive(Clone, Copy)]
pub enum Wait {
    /// It waits for them.
    Block,
    /// SKIP LOCKED.
    SkipLocked,
    /// NOWAIT: it fails.
    NoWait,
}

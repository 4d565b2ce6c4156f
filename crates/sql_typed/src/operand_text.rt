//! Types all of whose texts fit where a statement takes an operand, or a fragment: by their types
//! alone.
ghost use Rattle.std.specs.Prelude.{◌≡◌, pos, IfOk, IsTrue, string_bytes};
ghost use Rattle.std.proofs.Common.{inl, inr, refl};
ghost use Rattle.sql_parts.specs.Error.{FailsOnlyByMemory};
ghost use Rattle.sql_parts.specs.Literal.{literal_value, whole};
ghost use Rattle.sql_parts.specs.Operands.{ServesAsOperand, is_fragment};
ghost use Rattle.sql_parts.proofs.fragments.OperandFacts.{bool-serves, is-fragment, literal-serves};
ghost use Rattle.sql_parts.proofs.fragments.PlaceholderFacts.{placeholder-serves};
ghost use Rattle.sql_typed.specs.Counts.{IsCount};

use crate::Result;
use sql_parts::text::{Fragment, Operand, OwnedOperand, ToText};
use sql_parts::{Literal, Placeholder, SqlArg, Value};
use std::alloc::Global;

/// A type each of whose texts is an operand without a top-level clause keyword. Implement it for
/// types of your own. Write `Value(text)` where the compiler says "the trait bound
/// `&str: OperandText` is not satisfied".
pub trait OperandText: ToText {
    /// Each text of the type is one.
    ghost serves_as_operand: { (x : Self) → ServesAsOperand (Self.text x) };
}

/// A type each of whose texts is balanced and has no top-level clause keyword, as that of a table.
pub trait FragmentText: ToText {
    /// Each text of the type is one.
    ghost fits_as_fragment: { (x : Self) → IsTrue (is_fragment (Self.text x)) };
}

/// A type each of whose texts is a number of rows, as LIMIT and OFFSET take it: `u64`, and a placeholder.
pub trait CountText: OperandText {
    /// Each text of the type is a number in decimal, or a placeholder.
    ghost is_count: { (x : Self) → IsCount (Self.text x) };
}

impl CountText for u64 {
    ghost is_count = { λ n. inl (n, refl) };
}

impl CountText for Placeholder {
    ghost is_count = { λ placeholder. inr (placeholder.style, placeholder.number, refl) };
}

/// Returns an operand's text as a value of its own. So values of different types become a row of
/// one type. Fails only if memory runs out.
/// `Insert::into(alloc, Fragment::of("t"))?.field(Operand::of("a"))?.values(&[operand(alloc, Value("b"))?])?.sql()?` gives
/// `INSERT INTO t (a) VALUES ('b');`
pub fn operand<V: OperandText>(alloc: Global, value: V) -> Result<OwnedOperand>
    ensures text { IfOk result (λ owned. string_bytes owned.text ≡ V.text value) }
    ensures memory { FailsOnlyByMemory result }
{
    let text = value.to_text(alloc)?;
    Ok(OwnedOperand::of_built(text))
}

impl<A: SqlArg> OperandText for Value<A> {
    ghost serves_as_operand = { λ value. literal-serves (A.literal value.0) };
}

impl OperandText for Literal {
    ghost serves_as_operand = { λ literal. literal-serves (literal_value literal) };
}

impl OperandText for Operand<'_> {
    ghost serves_as_operand = { λ operand. operand.fits };
}

impl OperandText for OwnedOperand {
    ghost serves_as_operand = { λ operand. operand.fits };
}

impl OperandText for Placeholder {
    ghost serves_as_operand = { λ placeholder. placeholder-serves placeholder.style placeholder.number };
}

impl OperandText for bool {
    ghost serves_as_operand = { bool-serves };
}

impl OperandText for u8 {
    ghost serves_as_operand = { λ n. literal-serves (whole (pos n)) };
}

impl OperandText for u16 {
    ghost serves_as_operand = { λ n. literal-serves (whole (pos n)) };
}

impl OperandText for u32 {
    ghost serves_as_operand = { λ n. literal-serves (whole (pos n)) };
}

impl OperandText for u64 {
    ghost serves_as_operand = { λ n. literal-serves (whole (pos n)) };
}

impl OperandText for u128 {
    ghost serves_as_operand = { λ n. literal-serves (whole (pos n)) };
}

impl OperandText for usize {
    ghost serves_as_operand = { λ n. literal-serves (whole (pos n)) };
}

impl OperandText for i8 {
    ghost serves_as_operand = { λ n. literal-serves (whole n) };
}

impl OperandText for i16 {
    ghost serves_as_operand = { λ n. literal-serves (whole n) };
}

impl OperandText for i32 {
    ghost serves_as_operand = { λ n. literal-serves (whole n) };
}

impl OperandText for i64 {
    ghost serves_as_operand = { λ n. literal-serves (whole n) };
}

impl OperandText for i128 {
    ghost serves_as_operand = { λ n. literal-serves (whole n) };
}

impl OperandText for isize {
    ghost serves_as_operand = { λ n. literal-serves (whole n) };
}

impl<T: OperandText> OperandText for &T {
    ghost serves_as_operand = { λ x. T.serves_as_operand x.now };
}

impl FragmentText for Fragment<'_> {
    ghost fits_as_fragment = { λ fragment. fragment.fits };
}

impl FragmentText for Operand<'_> {
    ghost fits_as_fragment = { λ operand. is-fragment operand.fits };
}

impl FragmentText for OwnedOperand {
    ghost fits_as_fragment = { λ operand. is-fragment operand.fits };
}

impl<T: FragmentText> FragmentText for &T {
    ghost fits_as_fragment = { λ x. T.fits_as_fragment x.now };
}

//! Mutable borrows that a call returns once it has changed the value, so that calls form a chain.
ghost use Rattle.std.specs.Prelude.{◌≡◌};
ghost use Rattle.std.specs.Result.{result_map_both};

use crate::error::SqlBuilderError;

/// The mutable borrow of a value that a step has changed, on its way back to the caller. That a
/// failed call leaves the value unchanged is proved only if the borrow comes in a struct. For the
/// crates here alone.
#[derive(Drop)]
pub struct Loan<'a, T>(pub &'a mut T);

/// Returns the borrow that a step lends. Fails with the step's error. For the crates here alone.
/// `release(Ok(Loan(&mut 1)))?` gives `1`
pub fn release<T>(loan: Result<Loan<'_, T>, SqlBuilderError>) -> Result<&mut T, SqlBuilderError>
    ensures { result ≡ result_map_both (λ loan. loan.0) (λ error. error) loan.entry }
{
    match loan {
        Ok(loan) => {
            let Loan(borrowed) = loan;
            Ok(borrowed)
        }
        Err(error) => Err(error),
    }
}

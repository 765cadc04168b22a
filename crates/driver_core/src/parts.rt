//! Parts that are made one after the other.

ghost use Rattle.std.specs.Prelude.{◌≡◌, IfOk, Ok, is_ok, true};

use std::alloc::AllocError;

/// Both parts. Where there was no memory for the second, the first is given back: so who makes many parts owns nothing where
/// it may have to stop, and stops by a short way.
pub fn both<A: Drop, B>(first: A, second: Result<B, AllocError>) -> Result<(A, B), AllocError>
    ensures first { IfOk result (λ pair. pair.0 ≡ first) }
    ensures second { IfOk result (λ pair. second ≡ Ok pair.1) }
    ensures made { IfOk second (λ _. is_ok result ≡ true) }
{
    match second {
        Ok(second) => Ok((first, second)),
        Err(error) => {
            drop(first);
            Err(error)
        }
    }
}

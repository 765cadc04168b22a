//! A poll by one pair, a few fragments at a time.

ghost use Rattle.driver_service.specs.Calls.{Writes};
ghost use Rattle.driver_service.specs.Gathering.{Gathered, IsOver, with_last};
ghost use Rattle.driver_service.specs.Requests.{fragments};
ghost use Rattle.std.specs.Prelude.{◌≡◌, ◌<◌, ◌≤◌, false, length, true, Ok};

use crate::reason::Refusal;
use crate::seat::Seat;

/// How many fragments a poll gives at most.
const FRAGMENTS: u32 = 4_096;

/// How many fragments one call of a poll asks for, at most.
const SOME: u32 = 16;

/// How many calls a poll makes at most.
const CALLS: u32 = 256;

/// How many bytes of answers stand at most before no more are made.
pub(crate) const FULL: usize = 65_536;

/// A poll gives so many fragments at most.
fn few(limit: u32) -> u32
    ensures { result ≡ fragments limit }
{
    limit.min(FRAGMENTS)
}

/// Whether another call follows one that was answered so, where so many fragments were wanted and so much stands there now.
fn goes_on(told: &Result<u32, Refusal>, left: u32, length: usize) -> bool
    ensures yes { result ≡ true → (told.now ≡ Ok 16) × (16 < left) × (length < 65536) }
    ensures no { result ≡ false → IsOver left length told.now }
{
    match told {
        Ok(count) => *count == SOME && left > SOME && length < FULL,
        Err(_) => false,
    }
}

/// So many fragments, and those of the last call.
fn add_last(before: u32, told: Result<u32, Refusal>) -> Result<u32, Refusal>
    ensures { result ≡ with_last before told }
{
    match told {
        Ok(count) => Ok(before.saturating_add(count)),
        Err(refusal) => Err(refusal),
    }
}

/// Polls by a pair, call after call, for as long as each gives what it asked for, more is wanted, and what is to be written is
/// short: how many fragments there are.
pub(crate) fn gather<S: Seat>(
    seat: &mut S,
    subscription: u64,
    source: u64,
    limit: u32,
    out: &mut Vec<u8>,
) -> Result<u32, Refusal>
    ensures gathered { Writes out.old.items out.new.items (λ written. Gathered S.does subscription source limit (length out.old.items) seat.old seat.new written result) }
    ensures nothing { result ≡ Ok 0 → out.new.items ≡ out.old.items }
{
    let limit = few(limit);
    for count in 0..CALLS {
        let given = count * SOME;
        let left = limit.saturating_sub(given);
        let wants = left.min(SOME);
        let told = seat.poll(subscription, source, wants, out);
        if !goes_on(&told, left, out.len()) {
            return add_last(given, told);
        }
    }
    unreachable!()
}

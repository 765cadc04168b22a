//! The pairs of a subscription and a source that a client reads.

ghost use Rattle.reading_progress.specs.Pairs.{IsAdded, has_pair, is_any_stuck, is_other, is_pair, pair_at, seen_at};
ghost use Rattle.std.specs.Prelude.{◌≡◌, filter, map};

use crate::marks::{Mark, is_stuck, next_mark};
use std::alloc::AllocError;

/// A subscription with a source that it reads.
#[derive(Clone, Copy, Debug, PartialEq, Eq, Drop)]
pub struct Pair {
    pub subscription: u64,
    pub source: u64,
    /// What there was to read, if something was.
    mark: Option<Mark>,
}

impl Pair {
    fn is(self, subscription: u64, source: u64) -> bool
        ensures { result ≡ is_pair subscription source self }
    {
        self.subscription == subscription && self.source == source
    }

    /// It is seen at that position, with the stream there up to the other one, if it is that pair.
    fn seen(self, subscription: u64, source: u64, now: u64, position: u64, received: u64) -> Pair
        ensures { result ≡ seen_at subscription source now position received self }
    {
        if self.is(subscription, source) {
            Pair {
                mark: next_mark(self.mark, now, position, received),
                ..self
            }
        } else {
            self
        }
    }
}

/// Whether that pair is one of these.
fn has(pairs: &[Pair], subscription: u64, source: u64) -> bool
    ensures { result ≡ has_pair subscription source pairs.now }
{
    for pair in pairs {
        if pair.is(subscription, source) {
            return true;
        }
    }
    false
}

/// One more, unless it is there.
pub(crate) fn add(pairs: &mut Vec<Pair>, subscription: u64, source: u64) -> Result<(), AllocError>
    ensures { IsAdded subscription source pairs.old.items pairs.new.items result }
{
    if has(pairs.as_slice(), subscription, source) {
        return Ok(());
    }
    pairs.push(Pair {
        subscription,
        source,
        mark: None,
    })?;
    Ok(())
}

/// The pair in that place.
pub(crate) fn at(pairs: &[Pair], place: usize) -> Option<Pair>
    ensures { result ≡ pair_at place pairs.now }
{
    pairs.get(place).copied()
}

/// That pair is seen at that position, with the stream there up to the other one.
pub(crate) fn see(
    pairs: &mut [Pair],
    subscription: u64,
    source: u64,
    now: u64,
    position: u64,
    received: u64,
)
    ensures { pairs.new ≡ map (seen_at subscription source now position received) pairs.old }
{
    for pair in pairs.iter_mut() {
        *pair = pair.seen(subscription, source, now, position, received);
    }
}

/// That subscription reads that source no more.
pub(crate) fn forget(pairs: &mut Vec<Pair>, subscription: u64, source: u64)
    ensures { pairs.new.items ≡ filter (is_other subscription source) pairs.old.items }
{
    pairs.retain(|pair| !pair.is(subscription, source));
}

/// Whether one of them had something to read for longer than so many nanoseconds and did not go on.
pub(crate) fn is_any_stuck(pairs: &[Pair], now: u64, longest: u64) -> bool
    ensures { result ≡ is_any_stuck now longest pairs.now }
{
    for pair in pairs {
        if is_stuck(pair.mark, now, longest) {
            return true;
        }
    }
    false
}

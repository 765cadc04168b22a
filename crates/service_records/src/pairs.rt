//! The pairs that a request polls: they are its tail.

ghost use Rattle.service_records.specs.Fields.{number_bytes};
ghost use Rattle.service_records.specs.Pairs.{IsFirst, pairs_of};
ghost use Rattle.std.specs.Prelude.{◌≡◌, ◌++◌, OnOk};

use crate::fields;
use std::alloc::AllocError;

/// A subscription, and a log that it reads: 16 bytes.
#[derive(Clone, Copy, Debug, PartialEq, Eq)]
pub struct Pair {
    /// The registration of the subscription.
    pub subscription: u64,
    /// The log's source, as ON_AVAILABLE_IMAGE names it.
    pub source: u64,
}

impl Pair {
    /// Writes the pair at the end.
    ///
    /// # Errors
    /// There is no memory. Then bytes of it may stand at the end.
    pub fn put(&self, out: &mut Vec<u8>) -> Result<(), AllocError>
        ensures { OnOk result (out.new.items ≡ out.old.items ++ number_bytes 8 self.now.subscription ++ number_bytes 8 self.now.source) }
    {
        fields::put_u64(out, self.subscription)?;
        fields::put_u64(out, self.source)
    }
}

/// A pair that was cut from the front of some.
#[derive(Clone, Copy, Debug)]
pub struct FirstPair<'a> {
    pub pair: Pair,
    /// What follows it.
    pub rest: &'a [u8],
}

/// The first pair, and the bytes after it; `None` where not all of one is there.
#[tactic(auto, using(crate::proofs::PairLemmas::no_pairs, crate::proofs::PairLemmas::a_pair))]
pub fn first_pair(bytes: &[u8]) -> Option<FirstPair<'_>>
    ensures { IsFirst result (pairs_of bytes.now) }
{
    if bytes.len() < 16 {
        return None;
    }
    let (_, second) = bytes.split_at(8);
    let (_, rest) = second.split_at(8);
    let pair = Pair {
        subscription: fields::u64_in(bytes),
        source: fields::u64_in(second),
    };
    Some(FirstPair { pair, rest })
}

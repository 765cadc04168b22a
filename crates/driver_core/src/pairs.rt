//! Which subscription reads which log, as pairs: those there are, those that come and go with an event and what is told of
//! them, and the images that go with their last one.

pub(crate) mod coming;
pub(crate) mod readers;
pub(crate) mod renewal;
pub(crate) mod unread;

ghost use Rattle.driver_core.specs.Pairs.{pairs_of};
ghost use Rattle.std.specs.Prelude.{◌≡◌, [], true, IfOk};

use crate::state::registry::Registry;
use byte_strings::Items;
use std::alloc::{AllocError, Global};
use stream_registry::Pair;

/// How many pairs there are at most.
pub(crate) const PAIRS: usize = 4096;

impl Registry {
    /// Whether the policy in force stands for good as it does.
    pub(crate) fn is_settled(&self) -> bool
        ensures { result ≡ true → self.now.prospects ≡ [] }
    {
        self.compiled.is_settled()
    }

    /// Which subscription reads which log, by source and then subscription.
    pub fn pairs(&self, alloc: Global) -> Result<Items<Pair>, AllocError>
        ensures { IfOk result (λ pairs. pairs ≡ pairs_of self.now) }
    {
        self.readers.pairs(alloc, &self.streams)
    }
}

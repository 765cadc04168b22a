ghost use Rattle.driver_core.specs.Pairs.{pairs_of};
ghost use Rattle.policy_core.specs.Question.{question_of};
ghost use Rattle.policy_core.specs.Rules.{verdict_of};
ghost use Rattle.published_registry.specs.Histories.{IsHistory, registry_of};
ghost use Rattle.std.specs.Prelude.{◌≡◌, length, IfOk};

use crate::pass::Pass;
use crate::receipt::Receipt;
use crate::rule::Glance;
use byte_strings::Items;
use counters::Counter;
use driver_core::{Registry, View};
use policy_core::{Request, Verdict};
use std::alloc::{AllocError, Global};
use std::marker::Model;
use std::sync::Arc;
use std::sync::atomic::AtomicU64;
use stream_registry::Pair;

/// A look at one registry. It stays the same until the look ends, whatever is committed meanwhile. A look can't be let go:
/// [`Look::leave`] ends it and gives its pass back.
pub struct Look {
    pub(crate) reading: Glance,
    pub(crate) shown: Arc<AtomicU64>,
}

impl Model for Look {
    ghost use Rattle.published_registry.specs.Histories.{History};
    ghost use Rattle.published_registry.specs.Rules.{Fits, told};
    ghost use Rattle.std.specs.Prelude.{◌≡◌};

    ghost Value = { History };

    ghost view = { λ look. record { book = look.reading.part.value.front.book; opening = look.reading.place.me.0.client.opening; entries = look.reading.part.value.front.entries } };

    ghost invariant = { λ look. (look.reading.place.me.0.client ≡ told look.reading.place.me.0.client.opening look.reading.part.value.front)
        × Fits look.reading.place.me.0.client.opening look.reading.part.value.front look.reading.part.value };
}

impl View for Look {
    ghost shows = { registry_of };

    fn registry(&self) -> &Registry {
        &self.reading.get().registry
    }
}

impl Look {
    /// The number of the registry: how many entries were committed up to it.
    pub fn number(&self) -> u64
        ensures number { result ≡ length self.now.entries }
        ensures legal { IsHistory self.now }
    {
        self.reading.get().front.count()
    }

    /// It names the registry of the look: who learns it sees none before this one. It takes no memory.
    pub fn receipt(&self) -> Receipt
        ensures { result ≡ record { book = self.now.book; entries = self.now.entries } }
    {
        Receipt {
            front: self.reading.get().front.again(),
        }
    }

    /// The greatest moment that the events up to the registry told, in nanoseconds: the policy in force stands as it does then.
    pub fn moment(&self) -> u64
        ensures { result ≡ (registry_of self.now).moment }
    {
        self.registry().moment()
    }

    /// The number of the policy in force.
    pub fn epoch(&self) -> u64
        ensures { result ≡ (registry_of self.now).epoch }
    {
        self.registry().epoch()
    }

    /// What the policy in force decides of a request at the look's moment. It takes no memory.
    pub fn verdict(&self, request: &Request<'_>) -> Verdict
        ensures { result ≡ verdict_of (registry_of self.now).policy (registry_of self.now).epoch (question_of request.now) }
    {
        self.registry().verdict(request)
    }

    /// Which subscription reads which log, by source and then subscription.
    pub fn pairs(&self, alloc: Global) -> Result<Items<Pair>, AllocError>
        ensures { IfOk result (λ pairs. pairs ≡ pairs_of (registry_of self.now)) }
    {
        self.registry().pairs(alloc)
    }

    /// The counters of the clients, in the order in which they came.
    pub fn counters(&self) -> &[Counter]
        ensures { result.now ≡ (registry_of self.now).counters }
    {
        self.registry().counters()
    }

    /// Ends the look, and gives its pass back.
    pub fn leave(self) -> Pass
        ensures { result ≡ self }
    {
        let Look { reading, shown } = self;
        let front = reading.get().front.again();
        Pass {
            reader: reading.leave(),
            front,
            shown,
        }
    }
}

ghost use Rattle.published_registry.specs.Histories.{IsHistory, registry_of};
ghost use Rattle.std.specs.Prelude.{◌≡◌, length};

use crate::copies::Pending;
use crate::publisher::Publisher;
use crate::receipt::Receipt;
use driver_core::Registry;
use std::marker::Model;
use std::sync::Wait;

/// A commit between its two halves: the entry stands in the history, and readers are not shown the registry after it yet.
/// Meanwhile nobody has a receipt of it. It can't be let go: [`Begun::show`] ends it.
pub struct Begun {
    pub(crate) pending: Pending,
}

impl Model for Begun {
    ghost use Rattle.published_registry.specs.Histories.{History};

    ghost Value = { History };

    ghost view = { λ begun. begun.pending };
}

impl Begun {
    /// The registry after the entry, which will be shown.
    pub fn newest(&self) -> &Registry
        ensures newest { result.now ≡ registry_of self.now }
        ensures legal { IsHistory self.now }
    {
        self.pending.newest()
    }

    /// The number of that registry: how many entries were committed, this one among them.
    pub fn number(&self) -> u64
        ensures { result ≡ length self.now.entries }
    {
        self.pending.number()
    }

    /// Shows readers the registry. The receipt names it. It waits until each look has ended that may still be at the copy
    /// that is changed, and takes no memory.
    pub fn show<R: Wait>(self, rt: &R) -> (Publisher, Receipt)
        ensures publisher { result.0 ≡ self }
        ensures receipt { result.1 ≡ record { book = self.book; entries = self.entries } }
    {
        let Begun { pending } = self;
        let (copies, receipt) = pending.show(rt);
        let publisher = Publisher {
            copies: Some(copies),
        };
        (publisher, receipt)
    }
}

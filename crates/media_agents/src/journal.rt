//! What a driver keeps of its agents' steps: what was decided on them, and what was dropped, lost or kept back.

ghost use Rattle.media_agents.specs.Journals.{blank, stamp_of};
ghost use Rattle.std.specs.Prelude.{◌≡◌, IfOk};

use audit_ring::AuditOf;
use driver_core::View;
use drop_tallies::Tallies;
use policy_core::Decision;
use published_registry::Look;
use std::alloc::{AllocError, Global};

/// By which registry a step was taken.
#[derive(Clone, Copy, Debug, PartialEq, Eq)]
pub struct Stamp {
    /// The number of the registry: how many entries were committed up to it.
    pub registry: u64,
    /// Its moment, in nanoseconds: that of the conductor's last entry up to it. By that moment the policy decides.
    pub moment: u64,
}

/// A decision, and by which registry it was taken.
#[derive(Clone, Copy, Debug, PartialEq, Eq)]
pub struct Dated {
    pub stamp: Stamp,
    pub decision: Decision,
}

/// What the agents of a driver decided and dropped. The receiver's steps decide nothing.
#[derive(Drop)]
pub struct Journal {
    /// What the sender and the receiver dropped, lost or kept back.
    pub tallies: Tallies,
    /// The last decisions on entries.
    pub conductor: AuditOf<Dated>,
    /// The last decisions on what the sender sends, is asked to send again, and learns.
    pub sender: AuditOf<Dated>,
}

impl Stamp {
    /// That of a look.
    pub fn of(look: &Look) -> Stamp
        ensures { result ≡ stamp_of look.now }
    {
        Stamp {
            registry: look.number(),
            moment: look.moment(),
        }
    }
}

impl Journal {
    /// Nothing happened yet. The memory for all that it will keep is taken here.
    pub fn new(alloc: Global) -> Result<Journal, AllocError>
        ensures { IfOk result (λ journal. journal ≡ blank) }
    {
        Ok(Journal {
            tallies: Tallies::new(),
            conductor: AuditOf::new(alloc)?,
            sender: AuditOf::new(alloc)?,
        })
    }
}

ghost use Rattle.std.specs.Prelude.{◌≡◌, ◌≤◌, [], ◌∷◌, ◌++◌, List, IfOk, length};
ghost use Rattle.std.specs.Map.Iter.{ShowsInOrder, deref};
ghost use Rattle.audit_ring.specs.Audit.{kept_of, pushed};

use circular_buffer::{HeapCircularBuffer, Iter};
use policy_core::Decision;
use std::alloc::{AllocError, Global};
use std::marker::Model;

/// No memory was left.
pub type NoMemory = AllocError;

/// How many an audit keeps.
const ROOM: usize = 4096;

/// The last 4,096 decisions that were pushed, and the number of those before them.
pub type Audit = AuditOf<Decision>;

/// The last 4,096 that were pushed, and the number of those before them.
#[derive(Debug, Drop)]
pub struct AuditOf<D> {
    /// The last ones, the oldest of them first.
    ring: HeapCircularBuffer<D>,
    /// How many were dropped; it stays at the greatest number of 64 bits.
    dropped: u64,
}

impl<D> Model for AuditOf<D> {
    ghost use Rattle.std.specs.Prelude.{◌≡◌, ◌≤◌, length};
    ghost use Rattle.audit_ring.specs.Audit.{KeptOf};

    ghost Value = { KeptOf D };

    ghost view = { λ audit. record { items = audit.ring.items; dropped = audit.dropped } };

    ghost invariant = { λ audit. (audit.ring.capacity ≡ 4096) × (length audit.ring.items ≤ 4096) };
}

impl<D: Copy> AuditOf<D> {
    /// An audit to which nothing was pushed. The memory for all that it will keep is taken here.
    ///
    /// # Errors
    ///
    /// `NoMemory` where there is none for 4,096 of them.
    #[tactic(auto, unfolding(crate::specs::Audit::kept_of))]
    pub fn new(alloc: Global) -> Result<AuditOf<D>, NoMemory>
        ensures { IfOk result (λ audit. audit ≡ kept_of []) }
    {
        Ok(AuditOf {
            ring: HeapCircularBuffer::with_capacity(alloc, ROOM)?,
            dropped: 0,
        })
    }

    /// Adds one after the others. Where 4,096 are kept already, the oldest one is dropped. This takes no memory.
    #[tactic(auto, unfolding(crate::specs::Audit::kept_of, crate::specs::Audit::pushed))]
    pub fn push(&mut self, it: D)
        ensures exact { self.new ≡ pushed self.old it }

        // The same over all that was ever pushed, of which the audit keeps the end.
        ensures history { (pushes : List D) → self.old ≡ kept_of pushes → self.new ≡ kept_of (pushes ++ it ∷ []) }
    {
        if self.ring.push_back(it).is_some() {
            self.dropped = self.dropped.saturating_add(1);
        }
    }

    /// Those that are kept, the oldest one first: at most 4,096.
    pub fn items(&self) -> Iter<'_, D>
        ensures rest { result ≡ self.now.items }
        ensures room { length self.now.items ≤ 4096 }
        ensures runs { ShowsInOrder (deref {X = D}) }
    {
        self.ring.iter()
    }

    /// The number of those that were dropped. It stays at the greatest number of 64 bits.
    pub fn dropped(&self) -> u64
        ensures { result ≡ self.now.dropped }
    {
        self.dropped
    }
}

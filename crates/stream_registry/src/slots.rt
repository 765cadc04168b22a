ghost use Rattle.stream_registry.specs.Slots.{free_slot, has_slot, is_slot_taken};
ghost use Rattle.std.specs.Prelude.{◌≡◌, ◌≤◌, length};

use crate::row::LogRow;

/// Whether it is of that kind, and has the slot.
fn has_slot(log: &LogRow, published: bool, slot: u16) -> bool
    ensures { result ≡ has_slot published slot log.now }
{
    log.is_of_kind(published) && log.slot == slot
}

/// Whether a live log of that kind has the slot.
fn is_slot_taken(logs: &[LogRow], published: bool, slot: u16) -> bool
    ensures { result ≡ is_slot_taken published logs.now slot }
{
    logs.iter().any(|log| has_slot(log, published, slot))
}

/// The least slot that no live log of that kind has.
#[tactic(auto, unfolding(crate::specs::Slots::free_slot))]
pub(crate) fn free_slot(logs: &[LogRow], published: bool) -> u16
    requires { length logs.now ≤ 768 }
    ensures { result ≡ free_slot published logs.now }
{
    let mut slot = 0u16;
    for _other in logs {
        if !is_slot_taken(logs, published, slot) {
            return slot;
        }
        slot += 1;
    }
    slot
}

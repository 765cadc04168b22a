// The end of a driver: the amounts come together, and how many messages were taken is answered.
ghost use Rattle.std.specs.Prelude.{◌≡◌, ◌*◌, ◌^◌, IfSome};

use crate::hands::{Hand, together};
use log_slots::{Naming, OfMessages, ROOM, Slot, settle_all};
use std::sync::ledger::Total;
use std::sync::{Mutex, Wait};

/// How many messages the slots' logs took, by what they have left, and how many the two clients saw taken. None where a slot's
/// amount is missing.
pub(crate) fn ended<N: Naming, R: Wait>(
    rt: &R,
    total: &Total<OfMessages<N>>,
    slots: &[Mutex<Slot<N>>],
    clients: (Hand<N>, Hand<N>),
) -> Option<(u64, u64)>
    requires { (total.now.amount ≡ 2 * 2 ^ 55) × (total.now.parts ≡ 4) }
    ensures { IfSome result (λ counts. counts.0 ≡ counts.1) }
{
    let (mut all, taken) = together(clients.0, clients.1, total)?;
    let counted = all.number();
    if settle_all(rt, slots, &mut all, total) != 2 {
        return None;
    }
    all.audit(total);
    Some((2 * ROOM - (all.number() - counted), taken))
}

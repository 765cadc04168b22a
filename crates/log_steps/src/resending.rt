//! A NAK that comes for a publication.

ghost use Rattle.log_steps.specs.Held.{LiesAsBefore};
ghost use Rattle.log_steps.specs.Hearing.{answer_asked, nak_move};
ghost use Rattle.log_steps.specs.Memory.{Gives};
ghost use Rattle.log_steps.specs.Moves.{Does};
ghost use Rattle.std.specs.Prelude.{◌≡◌, IfOk, OnErr};

use crate::answer::Answer;
use crate::cause::Cause;
use crate::open_log::OpenLog;
use driver_core::{Address, Astray};
use frame_codec::Nak;
use log_traffic::NakReply;
use policy_core::Decision;
use std::alloc::{AllocError, Global};

/// What became of a NAK is answered by; what is sent again goes to who asks.
fn answer_asked(from: &Address, reply: Option<NakReply>) -> Answer
    ensures { result ≡ answer_asked from.now reply }
{
    match reply {
        None => Answer::Dropped(Cause::Astray(Astray::NoStream)),
        Some(NakReply::Denied(verdict)) => Answer::Dropped(Cause::Denied(verdict)),
        Some(NakReply::Empty) => Answer::Dropped(Cause::Empty),
        Some(NakReply::OutOfWindow) => Answer::Dropped(Cause::OutOfWindow),
        Some(NakReply::Lingering) => Answer::Dropped(Cause::Lingering),
        Some(NakReply::Busy) => Answer::Dropped(Cause::Busy),
        Some(NakReply::Resent(datagrams)) => Answer::Resent {
            to: *from,
            datagrams,
        },
    }
}

/// A NAK of the log's session and stream came from an address at a moment; `decision` is what the policy says of sending
/// again to that address.
///
/// The answer is the first that applies: dropped by the verdict where it denies; dropped as [`Cause::Empty`],
/// [`Cause::OutOfWindow`], [`Cause::Lingering`] or [`Cause::Busy`], as the log's gate says; else what it asks for is sent
/// again to that address alone.
///
/// # Errors
/// Nothing is changed where there is no memory for the datagrams. Any other answer takes none.
#[inline(never)]
pub(crate) fn nak_step(
    log: &mut OpenLog,
    alloc: Global,
    now: u64,
    from: &Address,
    nak: &Nak,
    decision: &Decision,
) -> Result<Answer, AllocError>
    ensures does { IfOk result (λ answer. Does (nak_move now from.now decision.now nak.now) log.old log.new answer) }
    ensures lies { LiesAsBefore log.old log.new }
    ensures err { OnErr result (log.new ≡ log.old) }
    ensures without_memory { OnErr result (Gives (nak_move now from.now decision.now nak.now) log.old) }
{
    let reply = log
        .log
        .answer_nak(alloc, &mut log.recovery.gate, now, nak, decision)?;
    Ok(answer_asked(from, reply))
}

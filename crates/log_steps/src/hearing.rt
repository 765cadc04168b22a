//! A status message that comes for a publication.

ghost use Rattle.log_steps.specs.Held.{LiesAsBefore};
ghost use Rattle.log_steps.specs.Hearing.{answer_heard, heard_move, join_move, status_move};
ghost use Rattle.log_steps.specs.Moves.{Does};
ghost use Rattle.std.specs.Prelude.{◌≡◌};

use crate::answer::Answer;
use crate::cause::Cause;
use crate::open_log::OpenLog;
use driver_core::{Address, Astray};
use frame_codec::StatusMessage;
use learnt_addresses::Learning;
use log_traffic::StatusAnswer;
use policy_core::Decision;

/// What the log made of a status message is answered by.
fn answer_heard(heard: Option<StatusAnswer>) -> Answer
    ensures { result ≡ answer_heard heard }
{
    match heard {
        None => Answer::Dropped(Cause::Astray(Astray::NoStream)),
        Some(StatusAnswer::Elicited) => Answer::Elicited,
        Some(StatusAnswer::Limit(position)) => Answer::Limited(position),
        Some(StatusAnswer::OutOfWindow) => Answer::Dropped(Cause::OutOfWindow),
    }
}

/// The log hears a status message.
fn hear(log: &mut OpenLog, now: u64, message: &StatusMessage) -> Answer
    ensures does { Does (heard_move now message.now) log.old log.new result }
    ensures lies { LiesAsBefore log.old log.new }
{
    answer_heard(log.log.hear_status(now, message))
}

/// A status message came from an address, which becomes a destination by it, or stays one. Where the decision denies that, it
/// is a destination no more.
fn join(
    log: &mut OpenLog,
    now: u64,
    from: &Address,
    decision: &Decision,
    message: &StatusMessage,
) -> Answer
    ensures does { Does (join_move now from.now decision.now message.now) log.old log.new result }
    ensures lies { LiesAsBefore log.old log.new }
{
    if !decision.verdict.allow {
        log.recovery.forget(from);
        return Answer::Dropped(Cause::Denied(decision.verdict));
    }
    match log.recovery.learn(now, from) {
        Learning::Full => Answer::Dropped(Cause::Full),
        _ => hear(log, now, message),
    }
}

/// A status message of the log's session and stream came from an address at a moment; where the log learns its destinations,
/// `decision` is what the policy says of that address becoming one. It takes no memory.
///
/// Then the address is forgotten and the message dropped by the verdict where it denies; and the message is dropped as
/// [`Cause::Full`] where 32 others were learnt. Else the address is learnt or heard of again.
///
/// With the flag that asks for a SETUP the message does only that. One that names a position that was not sent is dropped as
/// [`Cause::OutOfWindow`]. Else the log is connected, and the answer says up to which position it may be sent.
pub(crate) fn status_step(
    log: &mut OpenLog,
    now: u64,
    from: &Address,
    message: &StatusMessage,
    decision: &Option<Decision>,
) -> Answer
    ensures does { Does (status_move now from.now decision.now message.now) log.old log.new result }
    ensures lies { LiesAsBefore log.old log.new }
{
    match decision {
        None => hear(log, now, message),
        Some(decision) => join(log, now, from, decision, message),
    }
}

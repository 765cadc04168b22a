//! A datagram of a remote publisher that comes: data, or a heartbeat.

ghost use Rattle.log_steps.specs.Held.{LiesAsBefore};
ghost use Rattle.log_steps.specs.Memory.{Gives};
ghost use Rattle.log_steps.specs.Moves.{Does, for_source};
ghost use Rattle.log_steps.specs.Receiving.{beat_move, receive_move, unheard};
ghost use Rattle.frame_codec.specs.Frames.{frames_left};
ghost use Rattle.log_traffic.specs.Held.{AreFor, made_held};
ghost use Rattle.std.specs.Prelude.{◌≡◌, IfOk, OnErr};

use crate::answer::Answer;
use crate::cause::Cause;
use crate::open_log::OpenLog;
use driver_core::Astray;
use frame_codec::{Frames, TermPlace};
use std::alloc::{AllocError, Global};

/// The frames of a datagram of the log's session and stream came at a moment.
///
/// # Errors
/// Nothing is changed where there is no memory for a word for each frame.
#[inline(always)]
pub(crate) fn receive_step(
    log: &mut OpenLog,
    alloc: Global,
    now: u64,
    frames: Frames<'_>,
) -> Result<Answer, AllocError>
    requires { AreFor (made_held log.old.log) (frames_left frames) }
    ensures does { IfOk result (λ answer. Does (receive_move now (frames_left frames.entry)) log.old log.new answer) }
    ensures lies { LiesAsBefore log.old log.new }
    ensures err { OnErr result (log.new ≡ log.old) }
    ensures without_memory { OnErr result (Gives (receive_move now (frames_left frames.entry)) log.old) }
{
    let words = log.log.receive(alloc, now, frames)?;
    Ok(Answer::Received(words))
}

/// A heartbeat of the log's session and stream came at a moment. It takes no memory.
pub(crate) fn beat_step(log: &mut OpenLog, now: u64, place: &TermPlace) -> Answer
    ensures does { Does (beat_move now place.now) log.old log.new result }
    ensures lies { LiesAsBefore log.old log.new }
{
    log.log.receive_beat(now, place);
    Answer::Heard
}

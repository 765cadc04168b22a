//! A turn of the sender with a publication.

ghost use Rattle.log_steps.specs.Held.{LiesAsBefore};
ghost use Rattle.log_steps.specs.Memory.{Gives};
ghost use Rattle.log_steps.specs.declared.answer.Answer.TheVariants.{Gone};
ghost use Rattle.log_steps.specs.Moves.{Does, for_source};
ghost use Rattle.log_steps.specs.Sending.{pace_of, send_move};
ghost use Rattle.std.specs.Prelude.{◌≡◌, IfOk, OnErr};

use crate::answer::Answer;
use crate::open_log::OpenLog;
use byte_strings::{Bytes, Items};
use driver_core::{Settings, View};
use log_traffic::Pace;
use std::alloc::{AllocError, Global};

/// How often a sender says what.
fn pace_of(settings: Settings) -> Pace
    ensures { result ≡ pace_of settings }
{
    Pace {
        connection_timeout: settings.connection_timeout,
        setup_interval: settings.setup_interval,
        heartbeat_interval: settings.heartbeat_interval,
    }
}

/// As [`send_step`], of the log of that source. It is made in place, and a lack of memory is matched by hand: `?` has its answer
/// in memory, where it is read again at once.
#[inline(always)]
#[tactic(auto, unfolding(crate::specs::Sending::send_move))]
pub fn send_own<V: View>(
    view: &V,
    log: &mut OpenLog,
    alloc: Global,
    now: u64,
) -> Result<Answer, AllocError>
    ensures does { IfOk result (λ answer. Does (send_move (V.shows view.now) now) log.old log.new answer) }
    ensures lies { LiesAsBefore log.old log.new }
    ensures err { OnErr result (log.new ≡ log.old) }
    ensures without_memory { OnErr result (Gives (send_move (V.shows view.now) now) log.old) }
{
    let registry = view.registry();
    let Some(source) = registry.sending(log.source) else {
        return Ok(Answer::Gone);
    };
    let settings = registry.settings();
    let timeout = settings.destination_timeout;
    let pace = pace_of(settings);
    let lingers = source.lingering_since().is_some();
    match log.log.next_datagram(alloc, now, &pace, lingers) {
        Ok(None) => {
            log.recovery.expire(now, timeout);
            Ok(Answer::Gone)
        }
        Ok(Some(None)) => {
            log.recovery.expire(now, timeout);
            Ok(Answer::Idle)
        }
        Ok(Some(Some(next))) => {
            let mut outlets = Items::new(alloc);
            let learnt = log.recovery.learnt.destinations();
            match registry.outlets(source, learnt, now, &mut outlets) {
                Ok(()) => {
                    log.recovery.expire(now, timeout);
                    log.log.pass(now, &next.cut);
                    Ok(Answer::Sent {
                        bytes: Bytes::from(next.bytes),
                        outlets,
                    })
                }
                Err(fault) => Err(fault),
            }
        }
        Err(fault) => Err(fault),
    }
}

/// The sender has a turn with the log of a publication over datagrams, at the moment `now` in nanoseconds, as the registry
/// that the view shows says: one datagram, if one is due.
///
/// The answer is [`Answer::Gone`] where it is the log of another source, or the registry has no such publication;
/// [`Answer::Idle`] where nothing is due; else the datagram, with each destination of the publication and whether the policy of
/// that registry lets it go there. The log moves on by what was cut, whoever gets it. Addresses that it has learnt are forgotten
/// first where nothing was heard of them for longer than the timeout.
///
/// # Errors
/// Nothing is changed where there is no memory for the datagram and the list of destinations. Any other answer takes none.
pub fn send_step<V: View>(
    view: &V,
    log: &mut OpenLog,
    alloc: Global,
    now: u64,
    source: u64,
) -> Result<Answer, AllocError>
    ensures does { IfOk result (λ answer. Does (for_source source (send_move (V.shows view.now) now) Gone) log.old log.new answer) }
    ensures lies { LiesAsBefore log.old log.new }
    ensures err { OnErr result (log.new ≡ log.old) }
    ensures without_memory { OnErr result (Gives (for_source source (send_move (V.shows view.now) now) Gone) log.old) }
{
    if log.source() != source {
        return Ok(Answer::Gone);
    }
    send_own(view, log, alloc, now)
}

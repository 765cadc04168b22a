//! A turn of the receiver with an image.

ghost use Rattle.log_steps.specs.Held.{LiesAsBefore};
ghost use Rattle.log_steps.specs.Memory.{Gives};
ghost use Rattle.log_steps.specs.declared.answer.Answer.TheVariants.{Gone};
ghost use Rattle.log_steps.specs.Moves.{Does, for_source};
ghost use Rattle.log_steps.specs.Reporting.{answer_reported, image_move, report_move};
ghost use Rattle.std.specs.Prelude.{◌≡◌, IfOk, OnErr};

use crate::answer::Answer;
use crate::open_log::OpenLog;
use byte_strings::{Bytes, Items};
use driver_core::{Address, View};
use std::alloc::{AllocError, Global};

/// What is due goes to the publisher's address.
fn answer_reported(to: &Address, report: Option<Items<Bytes>>) -> Answer
    ensures { result ≡ answer_reported to.now report }
{
    match report {
        None => Answer::Gone,
        Some(datagrams) => Answer::Reported { to: *to, datagrams },
    }
}

/// The receiver, whose id is `receiver_id`, has a turn with an image whose publisher is at the address `to`: a NAK of the
/// image's gap by the two delays, and a status message, where they are due. What is due counts as reported, whoever gets it. The
/// log of a publication is [`Answer::Gone`].
///
/// # Errors
/// Nothing is changed where there is no memory for what is due. Where nothing is, it takes none.
fn report_step(
    log: &mut OpenLog,
    alloc: Global,
    now: u64,
    receiver_id: u64,
    to: &Address,
) -> Result<Answer, AllocError>
    ensures does { IfOk result (λ answer. Does (report_move now receiver_id to.now) log.old log.new answer) }
    ensures lies { LiesAsBefore log.old log.new }
    ensures err { OnErr result (log.new ≡ log.old) }
    ensures without_memory { OnErr result (Gives (report_move now receiver_id to.now) log.old) }
{
    let report = log
        .log
        .report(alloc, &mut log.recovery.receiver, receiver_id, now)?;
    Ok(answer_reported(to, report))
}

/// As [`image_step`], of the log of that source.
fn image_own<V: View>(
    view: &V,
    log: &mut OpenLog,
    alloc: Global,
    now: u64,
) -> Result<Answer, AllocError>
    ensures does { IfOk result (λ answer. Does (image_move (V.shows view.now) now) log.old log.new answer) }
    ensures lies { LiesAsBefore log.old log.new }
    ensures err { OnErr result (log.new ≡ log.old) }
    ensures without_memory { OnErr result (Gives (image_move (V.shows view.now) now) log.old) }
{
    let registry = view.registry();
    let Some(to) = registry.publisher_of(log.source()) else {
        return Ok(Answer::Gone);
    };
    report_step(log, alloc, now, registry.settings().receiver_id, &to)
}

/// The receiver has a turn with the log of an image, at the moment `now` in nanoseconds, as the registry that the view shows
/// says who publishes it: a NAK of the image's gap by the two delays, and a status message, where they are due. What is due
/// counts as reported, whoever gets it.
///
/// The answer is [`Answer::Gone`] where it is the log of another source, or the registry has no such image; else what is due,
/// if anything, and to which address it goes.
///
/// # Errors
/// Nothing is changed where there is no memory for what is due. Where nothing is, it takes none.
pub fn image_step<V: View>(
    view: &V,
    log: &mut OpenLog,
    alloc: Global,
    now: u64,
    source: u64,
) -> Result<Answer, AllocError>
    ensures does { IfOk result (λ answer. Does (for_source source (image_move (V.shows view.now) now) Gone) log.old log.new answer) }
    ensures lies { LiesAsBefore log.old log.new }
    ensures err { OnErr result (log.new ≡ log.old) }
    ensures without_memory { OnErr result (Gives (for_source source (image_move (V.shows view.now) now) Gone) log.old) }
{
    if log.source() != source {
        return Ok(Answer::Gone);
    }
    image_own(view, log, alloc, now)
}

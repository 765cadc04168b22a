//! A log that a client polls.

ghost use Rattle.log_steps.specs.Decided.{Decides, decision_for, poll_decision};
ghost use Rattle.log_steps.specs.declared.answer.Answer.TheVariants.{Gone};
ghost use Rattle.log_steps.specs.Held.{LiesAsBefore};
ghost use Rattle.log_steps.specs.Memory.{Gives};
ghost use Rattle.log_steps.specs.Moves.{Does, for_source, poll_move};
ghost use Rattle.std.specs.Prelude.{◌≡◌, None, IfOk, OnErr};

use crate::answer::Answer;
use crate::answered::Answered;
use crate::asking::Asks;
use crate::open_log::OpenLog;
use driver_core::View;
use std::alloc::{AllocError, Global};

/// No such subscription of the client reads the log.
fn gone() -> Answered
    ensures { result ≡ record { answer = Gone; decision = None } }
{
    Answered {
        answer: Answer::Gone,
        decision: None,
    }
}

/// As [`poll_step`], of the log of that source.
#[tactic(auto, unfolding(crate::specs::Moves::poll_move))]
fn poll_own<V: View, A: Asks>(
    view: &V,
    log: &mut OpenLog,
    asker: &mut A,
    alloc: Global,
    client: u64,
    subscription: u64,
    limit: u32,
) -> Result<Answered, AllocError>
    requires { A.is_right asker.old (V.shows view.now) }
    ensures does { IfOk result (λ told. Does (poll_move (V.shows view.now) client subscription limit) log.old log.new told.answer) }
    ensures decides { IfOk result (λ told. Decides (poll_decision (V.shows view.now) client subscription) log.old told.decision) }
    ensures lies { LiesAsBefore log.old log.new }
    ensures right { A.is_right asker.new (V.shows view.now) }
    ensures err { OnErr result (log.new ≡ log.old) }
    ensures without_memory { OnErr result (Gives (poll_move (V.shows view.now) client subscription limit) log.old) }
{
    let registry = view.registry();
    let Some(request) = asker.receiving(registry, client, subscription, log.source) else {
        return Ok(gone());
    };
    if log.log.pair_position(subscription).is_none() {
        return Ok(gone());
    }
    if !request.decision.verdict.allow {
        return Ok(Answered {
            answer: Answer::Denied(request.decision.verdict),
            decision: Some(request.decision),
        });
    }
    let fragments = log.log.poll(alloc, subscription, limit as usize)?;
    Ok(Answered {
        answer: Answer::Polled(fragments),
        decision: Some(request.decision),
    })
}

/// A client polls the log of a source by one of its subscriptions, as the registry that the view shows says, and is given so
/// many fragments at most. The verdict is that of whom it asks, as the client's cache.
///
/// The answer is the first that applies: [`Answer::Gone`] where it is the log of another source, or no such subscription of
/// the client reads it; [`Answer::Denied`] by the policy of that registry; else the fragments from where the subscription
/// stands, which moves on after them. Pads are passed uncounted. The decision is reported where such a subscription reads
/// the log.
///
/// # Errors
/// Nothing is changed where there is no memory for the fragments. A poll that is gone or denied takes none.
pub fn poll_step<V: View, A: Asks>(
    view: &V,
    log: &mut OpenLog,
    asker: &mut A,
    alloc: Global,
    client: u64,
    subscription: u64,
    source: u64,
    limit: u32,
) -> Result<Answered, AllocError>
    requires { A.is_right asker.old (V.shows view.now) }
    ensures does { IfOk result (λ told. Does (for_source source (poll_move (V.shows view.now) client subscription limit) Gone) log.old log.new told.answer) }
    ensures decides { IfOk result (λ told. Decides (decision_for source (poll_decision (V.shows view.now) client subscription)) log.old told.decision) }
    ensures lies { LiesAsBefore log.old log.new }
    ensures right { A.is_right asker.new (V.shows view.now) }
    ensures err { OnErr result (log.new ≡ log.old) }
    ensures without_memory { OnErr result (Gives (for_source source (poll_move (V.shows view.now) client subscription limit) Gone) log.old) }
{
    if log.source() != source {
        return Ok(gone());
    }
    poll_own(view, log, asker, alloc, client, subscription, limit)
}

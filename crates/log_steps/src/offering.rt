//! A message that a client offers to a log.
//!
//! Each call on its way is made in place (`inline`): the answer of an offer is larger than what it takes to find it out.

ghost use Rattle.log_steps.specs.declared.answer.Answer.TheVariants.{Offered as OfferedAs};
ghost use Rattle.log_steps.specs.declared.answer.Offered.TheVariants.{Closed};
ghost use Rattle.log_steps.specs.Decided.{Decides, offer_decision, offer_decision_by};
ghost use Rattle.log_steps.specs.Held.{LiesAsBefore};
ghost use Rattle.log_steps.specs.Moves.{Does, offer_move, offer_under, offers, term_held};
ghost use Rattle.log_steps.specs.Recovery.{Recovering};
ghost use Rattle.driver_core.specs.LogRequests.{offering_of};
ghost use Rattle.log_traffic.specs.declared.any_log.AnyLog.TheVariants.{Term};
ghost use Rattle.log_traffic.specs.Held.{Lies};
ghost use Rattle.std.specs.Prelude.{◌≡◌, ℕ, None, Some};

use crate::answer::{Answer, Offered};
use crate::answered::Answered;
use crate::open_log::OpenLog;
use driver_core::{LogRequest, View};
use log_traffic::AnyLog;
use policy_core::Verdict;
use term_log::TermLog;

/// A message is offered to a publication's log, where the verdict is that: denied, too long, to nobody, or taken as the log
/// can.
#[inline(always)]
fn offer_to(log: &mut TermLog, now: u64, timeout: u64, verdict: Verdict, message: &[u8]) -> Answer
    ensures does { (source : ℕ) (recovery : Recovering) → Does (offers now timeout verdict message.now) (term_held source recovery log.old) (term_held source recovery log.new) result }
    ensures lies { Lies (Term log.old) (Term log.new) }
{
    if !verdict.allow {
        return Answer::Denied(verdict);
    }
    if message.len() > log.greatest_message() {
        return Answer::Offered(Offered::TooLong);
    }
    if !log.connected(now, timeout) {
        return Answer::Offered(Offered::NotConnected);
    }
    Answer::Offered(Offered::of(log.offer(message)))
}

/// The client has no such registration, or one with another log.
#[inline(always)]
pub fn closed() -> Answered
    ensures { result ≡ record { answer = OfferedAs Closed; decision = None } }
{
    Answered {
        answer: Answer::Offered(Offered::Closed),
        decision: None,
    }
}

/// A client offers a message to a log, at the moment `now` in nanoseconds, where that was decided of its offer, and the last
/// status message stands for `timeout` nanoseconds. It takes no memory.
///
/// The answer is the first that applies: [`Offered::Closed`] where the client has no such registration, or one with another
/// log, or the log is that of a remote stream; [`Answer::Denied`] by the verdict; [`Offered::TooLong`];
/// [`Offered::NotConnected`]; [`Offered::MaxPositionExceeded`]; [`Offered::BackPressured`]; [`Offered::AdminAction`], by
/// which the rest of the term is filled; else the message is appended, and the answer is the position after it. The decision
/// is reported where the registration is with that log, whatever comes of the message.
pub fn offer_step(
    log: &mut OpenLog,
    timeout: u64,
    request: &Option<LogRequest>,
    now: u64,
    message: &[u8],
) -> Answered
    ensures does { Does (offer_under timeout request.now now message.now) log.old log.new result.answer }
    ensures decides { Decides (offer_decision_by request.now) log.old result.decision }
    ensures lies { LiesAsBefore log.old log.new }
{
    let Some(request) = request else {
        return closed();
    };
    if request.source != log.source {
        return closed();
    }
    let answer = match &mut log.log {
        AnyLog::Term(term) => offer_to(term, now, timeout, request.decision.verdict, message),
        AnyLog::Image(_) => Answer::Offered(Offered::Closed),
    };
    Answered {
        answer,
        decision: Some(request.decision),
    }
}

/// A client offers a message to the log that its registration is with, as the registry that the view shows says, where whom
/// it asks answered that, as [`offer_step`] says.
#[tactic(auto, unfolding(crate::specs::Moves::offer_move, crate::specs::Decided::offer_decision))]
#[inline(always)]
pub fn offer_asked<V: View>(
    view: &V,
    log: &mut OpenLog,
    now: u64,
    _client: u64,
    _registration: u64,
    request: &LogRequest,
    message: &[u8],
) -> Answered
    requires { offering_of (V.shows view.now) _client _registration ≡ Some request.now }
    ensures does { Does (offer_move (V.shows view.now) now _client _registration message.now) log.old log.new result.answer }
    ensures decides { Decides (offer_decision (V.shows view.now) _client _registration) log.old result.decision }
    ensures lies { LiesAsBefore log.old log.new }
{
    let timeout = view.registry().settings().connection_timeout;
    offer_step(log, timeout, &Some(*request), now, message)
}

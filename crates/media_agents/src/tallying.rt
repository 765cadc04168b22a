//! What was dropped, lost or kept back is counted.

ghost use Rattle.channel_uri.specs.declared.address.Address.{Address as Whence};
ghost use Rattle.drop_tallies.specs.Tallies.{Table};
ghost use Rattle.media_agents.specs.Tallying.{after_answer, after_cut, after_event, after_outlet, after_report, is_asking, miss_by, miss_of, miss_of_set_up};
ghost use Rattle.std.specs.Prelude.{◌≡◌, fold, MatchBool, ⊤};

use channel_uri::Address;
use driver_core::{Astray, Event, Outlet, Response, SetupFault};
use drop_tallies::{Miss, Tallies};
use frame_codec::{Datagram, Packet};
use log_steps::{Answer, Cause};
use policy_core::Verdict;

/// As what a cause is counted, and by which verdict.
fn miss_by(cause: &Cause) -> (Miss, Option<Verdict>)
    ensures { result ≡ miss_by cause.now }
{
    match cause {
        Cause::Unread(_) => (Miss::Unread, None),
        Cause::Astray(Astray::NoStream) => (Miss::NoStream, None),
        Cause::Astray(Astray::Stranger) => (Miss::Stranger, None),
        Cause::Denied(verdict) => (Miss::Denied, Some(*verdict)),
        Cause::Full => (Miss::Full, None),
        Cause::Empty => (Miss::Empty, None),
        Cause::OutOfWindow => (Miss::OutOfWindow, None),
        Cause::Lingering => (Miss::Lingering, None),
        Cause::Busy => (Miss::Busy, None),
    }
}

/// As what a datagram is counted whose step was answered that; `None` where it was not dropped.
fn miss_of(answer: &Answer) -> Option<(Miss, Option<Verdict>)>
    ensures { result ≡ miss_of answer.now }
{
    match answer {
        Answer::Dropped(cause) => Some(miss_by(cause)),
        Answer::NoMemory => Some((Miss::NoMemory, None)),
        _ => None,
    }
}

/// As what a SETUP is counted of which that came; `None` where its image was made, or is there.
fn miss_of_set_up(response: &Response) -> Option<(Miss, Option<Verdict>)>
    ensures { result ≡ miss_of_set_up response.now }
{
    match response {
        Response::Dropped(SetupFault::BadSetup) => Some((Miss::BadSetup, None)),
        Response::Dropped(SetupFault::NoSubscription) => Some((Miss::NoSubscription, None)),
        Response::Dropped(SetupFault::Denied(verdict)) => Some((Miss::Unimaged, Some(*verdict))),
        Response::Dropped(SetupFault::Full) => Some((Miss::TooMany, None)),
        Response::Dropped(SetupFault::NoRoom) => Some((Miss::NoRoom, None)),
        _ => None,
    }
}

/// Whether a NAK is due by the answer of the receiver's step.
pub(crate) fn is_asking(answer: &Answer) -> bool
    ensures { result ≡ is_asking answer.now }
{
    let Answer::Reported { datagrams, .. } = answer else {
        return false;
    };
    match datagrams.as_slice() {
        [first, ..] => matches!(Datagram::read(first.as_slice()), Ok(Packet::Nak(_))),
        [] => false,
    }
}

/// Whether the answer of a datagram's step changes anything that is counted.
pub(crate) fn is_counted(answer: &Answer) -> bool
    ensures { MatchBool result ⊤ ((from : Whence) (table : Table) → after_answer from answer.now table ≡ table) }
{
    matches!(
        answer,
        Answer::Resent { .. } | Answer::Dropped(_) | Answer::NoMemory
    )
}

/// What is counted of the answer of a datagram's step.
pub(crate) fn count_answer(tallies: &mut Tallies, answer: &Answer, from: &Address)
    ensures { tallies.new ≡ after_answer from.now answer.now tallies.old }
{
    if let Answer::Resent { datagrams, .. } = answer {
        tallies.resend(datagrams.len() as u64);
    }
    if let Some((miss, verdict)) = miss_of(answer) {
        tallies.note(miss, verdict, from);
    }
}

/// What is counted of the answer of a receiver's step.
pub(crate) fn count_report(tallies: &mut Tallies, answer: &Answer)
    ensures { tallies.new ≡ after_report answer.now tallies.old }
{
    if is_asking(answer) {
        tallies.ask();
    }
}

/// What is counted of one destination of a datagram.
fn count_outlet(tallies: &mut Tallies, outlet: &Outlet)
    ensures { tallies.new ≡ after_outlet tallies.old outlet.now }
{
    if !outlet.decision.verdict.allow {
        tallies.note(Miss::Withheld, Some(outlet.decision.verdict), &outlet.to);
    }
}

/// What is counted of all its destinations.
fn count_outlets(tallies: &mut Tallies, outlets: &[Outlet])
    ensures { tallies.new ≡ fold after_outlet tallies.old outlets.now }
{
    for outlet in outlets {
        count_outlet(tallies, outlet);
    }
}

/// What is counted of the answer of a sender's step.
pub(crate) fn count_cut(tallies: &mut Tallies, answer: &Answer)
    ensures { tallies.new ≡ after_cut answer.now tallies.old }
{
    if let Answer::Sent { outlets, .. } = answer {
        count_outlets(tallies, outlets.as_slice());
    }
}

/// What is counted of an event that the conductor took.
pub(crate) fn count_event(tallies: &mut Tallies, event: &Event, response: &Response)
    ensures { tallies.new ≡ after_event event.now response.now tallies.old }
{
    let Event::Setup { from, .. } = event else {
        return;
    };
    if let Some((miss, verdict)) = miss_of_set_up(response) {
        tallies.note(miss, verdict, from);
    }
}

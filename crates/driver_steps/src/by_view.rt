//! Steps of actors on the open logs, by whichever registry is shown.

ghost use Rattle.driver_core.specs.LogRequests.{offering_of};
ghost use Rattle.log_steps.specs.declared.answer.Answer.TheVariants.{Gone, NoMemory};
ghost use Rattle.driver_steps.specs.EndDecisions.{DecidesAs, DecidesUnless, offer_decided, poll_decided};
ghost use Rattle.driver_steps.specs.Ends.{on_log, on_offered};
ghost use Rattle.log_steps.specs.Moves.{poll_move};
ghost use Rattle.driver_steps.specs.Requests.{IsForRequest, LogsDecide, on_request, request_decided};
ghost use Rattle.log_steps.specs.Reporting.{image_move};
ghost use Rattle.driver_steps.specs.Standing.{KeepMatch, LogsServe};
ghost use Rattle.log_steps.specs.Sending.{send_move};
ghost use Rattle.frame_codec.specs.Datagram.{content};
ghost use Rattle.std.specs.Prelude.{◌≡◌, None};

use crate::open_logs::OpenLogs;
use driver_core::{Address, Astray, View};
use frame_codec::Packet;
use log_steps::{Answer, Answered, Asks, Cause, PacketRequest, closed};
use std::alloc::Global;

/// A step was refused memory. It is made in place: a call would return it where other steps return theirs, which then could not
/// stay in registers.
#[inline(always)]
fn refused() -> Answered
    ensures { result ≡ record { answer = NoMemory; decision = None } }
{
    Answered {
        answer: Answer::NoMemory,
        decision: None,
    }
}

/// A client offers a message. It takes no memory.
pub(crate) fn offer_by<V: View, A: Asks>(
    view: &V,
    logs: &mut OpenLogs,
    asker: &mut A,
    now: u64,
    client: u64,
    registration: u64,
    message: &[u8],
) -> Answered
    requires { A.is_right asker.old (V.shows view.now) }
    ensures serves { LogsServe logs.old logs.new (λ e. on_offered (V.shows view.now) e now client registration message.now (offering_of (V.shows view.now) client registration)) result.answer }
    ensures decides { DecidesAs (record { registry = V.shows view.now; logs = logs.old.logs }) (λ e. offer_decided e client registration) result.decision }
    ensures kept { KeepMatch logs.old logs.new }
    ensures right { A.is_right asker.new (V.shows view.now) }
{
    match asker.offering(view.registry(), client, registration) {
        Some(request) => logs.offer(view, now, client, registration, &request, message),
        None => closed(),
    }
}

/// A client polls a log.
pub(crate) fn poll_by<V: View, A: Asks>(
    view: &V,
    logs: &mut OpenLogs,
    asker: &mut A,
    alloc: Global,
    client: u64,
    subscription: u64,
    source: u64,
    limit: u32,
) -> Answered
    requires { A.is_right asker.old (V.shows view.now) }
    ensures serves { LogsServe logs.old logs.new (λ e. on_log e source (poll_move (V.shows view.now) client subscription limit) Gone) result.answer }
    ensures decides { DecidesUnless (record { registry = V.shows view.now; logs = logs.old.logs }) (λ e. poll_decided e client subscription source) result.answer result.decision }
    ensures kept { KeepMatch logs.old logs.new }
    ensures right { A.is_right asker.new (V.shows view.now) }
{
    match logs.poll(view, asker, alloc, source, client, subscription, limit) {
        Ok(told) => told,
        Err(_) => refused(),
    }
}

/// The sender has a turn with a publication.
#[inline(always)]
pub(crate) fn send_by<V: View>(
    view: &V,
    logs: &mut OpenLogs,
    alloc: Global,
    now: u64,
    source: u64,
) -> Answer
    ensures serves { LogsServe logs.old logs.new (λ e. on_log e source (send_move (V.shows view.now) now) Gone) result }
    ensures kept { KeepMatch logs.old logs.new }
{
    match logs.send(view, alloc, source, now) {
        Ok(answer) => answer,
        Err(_) => Answer::NoMemory,
    }
}

/// The receiver has a turn with an image.
pub(crate) fn report_by<V: View>(
    view: &V,
    logs: &mut OpenLogs,
    alloc: Global,
    now: u64,
    source: u64,
) -> Answer
    ensures serves { LogsServe logs.old logs.new (λ e. on_log e source (image_move (V.shows view.now) now) Gone) result }
    ensures kept { KeepMatch logs.old logs.new }
{
    match logs.image(view, alloc, source, now) {
        Ok(answer) => answer,
        Err(_) => Answer::NoMemory,
    }
}

/// A datagram came from the address `from`, of which the registry says that. The decision is reported where the log is open that
/// it is for, whatever comes of it.
#[inline(always)]
pub(crate) fn packet_by(
    logs: &mut OpenLogs,
    alloc: Global,
    now: u64,
    from: &Address,
    packet: Packet<'_>,
    request: Result<PacketRequest, Astray>,
) -> Answered
    requires { IsForRequest logs.old.logs request (content packet) }
    ensures serves { LogsServe logs.old logs.new (λ e. on_request e now from.now (content packet.entry) request) result.answer }
    ensures decides { LogsDecide logs.old (λ e. request_decided e request) result.answer result.decision }
    ensures kept { KeepMatch logs.old logs.new }
{
    match request {
        Ok(request) => match logs.packet(alloc, now, from, packet, &request) {
            Ok(told) => told,
            Err(_) => refused(),
        },
        Err(why) => Answered {
            answer: Answer::Dropped(Cause::Astray(why)),
            decision: None,
        },
    }
}

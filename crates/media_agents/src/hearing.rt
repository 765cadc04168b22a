//! One datagram, and the log that it is for.

ghost use Rattle.log_steps.specs.Packets.{IsSoundContent};
ghost use Rattle.driver_core.specs.declared.state.event.Event.TheVariants.{Setup as SetUp};
ghost use Rattle.frame_codec.specs.Datagram.{content, packet_of};
ghost use Rattle.media_agents.specs.Acts.{GoesOn, Trail};
ghost use Rattle.published_registry.specs.Histories.{IsContinuedBy};
ghost use Rattle.media_agents.specs.declared.stepping.Stepped.{Stepped as It};
ghost use Rattle.media_agents.specs.SetUps.{Goes, IsLost, SetsUpIfRead};
ghost use Rattle.media_agents.specs.Traffic.{Answers, ReceiverHears, SenderHears, Takes};
ghost use Rattle.std.specs.Prelude.{IfSome, MatchBool, Option};

use crate::set_ups::SetUps;
use crate::stepping::Stepping;
use crate::telling::tell;
use channel_uri::Address;
use driver_core::Event;
use drop_tallies::Miss;
use frame_codec::{Datagram, Packet, Setup, frames_are_of_one_term, frames_are_told};
use media_wire::Wire;
use published_registry::Pass;
use std::alloc::Global;
use std::sync::Wait;

/// Data or a heartbeat comes to the image that it is for, and what comes of it is noted.
fn take<R: Wait, S: Stepping>(
    rt: &R,
    steps: &mut S,
    pass: Pass,
    alloc: Global,
    now: u64,
    local: &Address,
    from: &Address,
    packet: Packet<'_>,
) -> Pass
    requires { IsSoundContent (content packet) }
    ensures known { IsContinuedBy pass result }
    ensures takes { GoesOn (Takes now local.now from.now (content packet.entry) pass result) (S.did steps.old) (S.did steps.new) }
{
    let (pass, it) = steps.hear(rt, pass, alloc, now, local, from, packet);
    match it {
        Some(it) => {
            steps.note_packet(rt, &it, from);
            pass
        }
        None => pass,
    }
}

/// A NAK or a status message comes to the publication that it is for. What comes of it is noted, and what it asks for is sent,
/// from the address `local`.
fn answer<R: Wait, S: Stepping, W: Wire>(
    rt: &R,
    steps: &mut S,
    pass: Pass,
    wire: &mut W,
    alloc: Global,
    now: u64,
    local: &Address,
    at: &Address,
    from: &Address,
    packet: Packet<'_>,
) -> Pass
    requires { IsSoundContent (content packet) }
    ensures known { IsContinuedBy pass result }
    ensures answers { (it : Option It)
        × GoesOn (Answers now local.now at.now from.now (content packet.entry) it pass result) (Trail (S.did steps.old) (W.went wire.old)) (Trail (S.did steps.new) (W.went wire.new)) }
{
    let (pass, it) = steps.hear(rt, pass, alloc, now, at, from, packet);
    match it {
        Some(it) => {
            steps.note_packet(rt, &it, from);
            tell(rt, steps, wire, local, &it.answer);
            pass
        }
        None => pass,
    }
}

/// A datagram came to the address `at`, where the sender reads. NAKs and status messages are its steps, and what a NAK asks for
/// is sent again, from the address `local`, once the log's lock is let go. Any other datagram is lost, and counts where its bytes
/// are none.
pub(crate) fn hear_as_sender<R: Wait, S: Stepping, W: Wire>(
    rt: &R,
    steps: &mut S,
    pass: Pass,
    wire: &mut W,
    alloc: Global,
    now: u64,
    local: &Address,
    at: &Address,
    from: &Address,
    bytes: &[u8],
) -> Pass
    ensures known { IsContinuedBy pass result }
    ensures heard { GoesOn (SenderHears now local.now at.now from.now (packet_of bytes.now) pass result) (Trail (S.did steps.old) (W.went wire.old)) (Trail (S.did steps.new) (W.went wire.new)) }
{
    match Datagram::read(bytes) {
        Ok(Packet::Nak(nak)) => {
            steps.note_nak(rt);
            answer(
                rt,
                steps,
                pass,
                wire,
                alloc,
                now,
                local,
                at,
                from,
                Packet::Nak(nak),
            )
        }
        Ok(Packet::Sm(message)) => answer(
            rt,
            steps,
            pass,
            wire,
            alloc,
            now,
            local,
            at,
            from,
            Packet::Sm(message),
        ),
        Ok(_) => pass,
        Err(_) => {
            steps.note(rt, Miss::Unread, from);
            pass
        }
    }
}

/// A SETUP goes to the conductor, or is lost, as [`SetUps::push`] says. Whether it goes.
fn set_up<R: Wait>(
    rt: &R,
    set_ups: &mut SetUps,
    now: u64,
    local: &Address,
    from: &Address,
    setup: Setup,
) -> bool
    ensures { MatchBool result (Goes (SetUp now local.now from.now setup) set_ups.old set_ups.new) (IsLost set_ups.old set_ups.new) }
{
    let event = Event::Setup {
        now,
        local: *local,
        from: *from,
        setup,
    };
    set_ups.push(rt, event)
}

/// A datagram came to an address where subscriptions take them. Data and heartbeats are the receiver's steps, and a SETUP is
/// an event of the conductor. Any other datagram is lost, and counts where its bytes are none.
pub(crate) fn hear_as_receiver<R: Wait, S: Stepping>(
    rt: &R,
    steps: &mut S,
    pass: Pass,
    set_ups: &mut SetUps,
    alloc: Global,
    now: u64,
    local: &Address,
    from: &Address,
    bytes: &[u8],
) -> Pass
    ensures known { IsContinuedBy pass result }
    ensures set_ups { SetsUpIfRead now local.now from.now (packet_of bytes.now) set_ups.old set_ups.new }
    ensures heard { GoesOn (ReceiverHears now local.now from.now (packet_of bytes.now) (pass, set_ups.old) (result, set_ups.new)) (S.did steps.old) (S.did steps.new) }
{
    match Datagram::read(bytes) {
        Ok(Packet::Data(frames)) => {
            frames_are_told();
            frames_are_of_one_term();
            take(
                rt,
                steps,
                pass,
                alloc,
                now,
                local,
                from,
                Packet::Data(frames),
            )
        }
        Ok(Packet::Beat(header)) => take(
            rt,
            steps,
            pass,
            alloc,
            now,
            local,
            from,
            Packet::Beat(header),
        ),
        Ok(Packet::Setup(setup)) => {
            if !set_up(rt, set_ups, now, local, from, setup) {
                steps.note(rt, Miss::QueueFull, from);
            }
            pass
        }
        Ok(_) => pass,
        Err(_) => {
            steps.note(rt, Miss::Unread, from);
            pass
        }
    }
}

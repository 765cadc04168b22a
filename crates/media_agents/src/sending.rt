//! The sender's turns.

ghost use Rattle.media_agents.specs.Acts.{Chain, GoesOn, Trail};
ghost use Rattle.media_agents.specs.Agents.{Sends};
ghost use Rattle.media_agents.specs.declared.stepping.Stepped.{Stepped as It};
ghost use Rattle.media_agents.specs.Passing.{next_turn};
ghost use Rattle.media_agents.specs.Traffic.{HearsOut, SenderTakes, SendsOne, SendsRun, was_due};
ghost use Rattle.published_registry.specs.Histories.{IsContinuedBy};
ghost use Rattle.std.specs.Prelude.{◌≡◌, Bool, false, IfOk, Option, max};

use crate::finding::{find_controls, find_publications};
use crate::gate::{Agent, Gate, Turn};
use crate::hearing::hear_as_sender;
use crate::noting::is_cut;
use crate::reading::{MOST, Room, Sockets, note_length, note_sockets};
use crate::slots::LogAt;
use crate::stepping::Stepping;
use crate::telling::tell;
use channel_uri::Address;
use log_steps::Answer;
use media_wire::Wire;
use published_registry::Pass;
use rows::Rows;
use std::alloc::{AllocError, Global};
use std::marker::Model;
use std::sync::{Arc, Wait};

/// Reads the datagrams at the address `at`: until none is there, a read fails, or 1,024 are read. Whether there was one that may
/// have messages.
fn hear_all<R: Wait, S: Stepping, W: Wire>(
    rt: &R,
    steps: &mut S,
    pass: Pass,
    wire: &mut W,
    room: &mut Room,
    alloc: Global,
    now: u64,
    local: &Address,
    at: &Address,
) -> (Pass, bool)
    ensures known { IsContinuedBy pass result.0 }
    ensures hears { GoesOn (HearsOut (SenderTakes now local.now) at.now pass result.0) (Trail (S.did steps.old) (W.went wire.old)) (Trail (S.did steps.new) (W.went wire.new)) }
{
    let mut pass = pass;
    let mut lively = false;
    for _count in 0..MOST {
        match room.next(rt, steps, wire, at) {
            Some(read) => {
                let bytes = room.datagram(read.0);
                pass = hear_as_sender(rt, steps, pass, wire, alloc, now, local, at, &read.1, bytes);
                note_length(&mut lively, read.0);
            }
            None => return (pass, lively),
        }
    }
    (pass, lively)
}

/// The same at each of these addresses.
fn hear_each<R: Wait, S: Stepping, W: Wire>(
    rt: &R,
    steps: &mut S,
    pass: Pass,
    wire: &mut W,
    room: &mut Room,
    alloc: Global,
    now: u64,
    local: &Address,
    controls: &[Address],
) -> (Pass, bool)
    ensures known { IsContinuedBy pass result.0 }
    ensures hears { GoesOn (Chain (HearsOut (SenderTakes now local.now)) controls.now pass result.0) (Trail (S.did steps.old) (W.went wire.old)) (Trail (S.did steps.new) (W.went wire.new)) }
{
    let mut pass = pass;
    let mut worked = false;
    for at in controls {
        let (next, heard) = hear_all(rt, steps, pass, wire, room, alloc, now, local, at);
        pass = next;
        worked = worked || heard;
    }
    (pass, worked)
}

/// A datagram that was cut may have messages.
fn note_cut(lively: &mut bool, answer: &Answer) {
    if let Answer::Sent { bytes, .. } = answer {
        note_length(lively, bytes.as_slice().len());
    }
}

/// One turn with one log: what is due is noted, and goes out once the log's lock is let go. Whether anything was due.
fn send_one<R: Wait, S: Stepping, W: Wire>(
    rt: &R,
    steps: &mut S,
    pass: Pass,
    wire: &mut W,
    alloc: Global,
    now: u64,
    local: &Address,
    at: LogAt,
    lively: &mut bool,
) -> (Pass, bool)
    ensures known { IsContinuedBy pass result.0 }
    ensures sends { (it : Option It) × (result.1 ≡ was_due it)
        × GoesOn (SendsOne now local.now at it pass result.0) (Trail (S.did steps.old) (W.went wire.old)) (Trail (S.did steps.new) (W.went wire.new)) }
{
    let (pass, it) = steps.send(rt, pass, alloc, now, at);
    match it {
        Some(it) => {
            steps.note_sending(rt, &it);
            tell(rt, steps, wire, local, &it.answer);
            note_cut(lively, &it.answer);
            let due = is_cut(&it.answer);
            (pass, due)
        }
        None => (pass, false),
    }
}

/// How many datagrams of one log go out in a turn at most.
const BURST: u32 = 16;

/// Turns with one log, one after another: until nothing is due, or so many had something due. Whether a datagram may have
/// messages.
fn send_run<R: Wait, S: Stepping, W: Wire>(
    rt: &R,
    steps: &mut S,
    pass: Pass,
    wire: &mut W,
    alloc: Global,
    now: u64,
    local: &Address,
    at: LogAt,
) -> (Pass, bool)
    ensures known { IsContinuedBy pass result.0 }
    ensures sends { GoesOn (SendsRun now local.now at pass result.0) (Trail (S.did steps.old) (W.went wire.old)) (Trail (S.did steps.new) (W.went wire.new)) }
{
    let mut pass = pass;
    let mut lively = false;
    for _count in 0..BURST {
        let (next, sent) = send_one(rt, steps, pass, wire, alloc, now, local, at, &mut lively);
        if !sent {
            return (next, lively);
        }
        pass = next;
    }
    (pass, lively)
}

/// The turns that are due with each of these logs, in their order. Whether a datagram may have messages.
fn send_each<R: Wait, S: Stepping, W: Wire>(
    rt: &R,
    steps: &mut S,
    pass: Pass,
    wire: &mut W,
    alloc: Global,
    now: u64,
    local: &Address,
    all: &[LogAt],
) -> (Pass, bool)
    ensures known { IsContinuedBy pass result.0 }
    ensures sends { GoesOn (Chain (SendsRun now local.now) all.now pass result.0) (Trail (S.did steps.old) (W.went wire.old)) (Trail (S.did steps.new) (W.went wire.new)) }
{
    let mut pass = pass;
    let mut worked = false;
    for at in all {
        let (next, sent) = send_run(rt, steps, pass, wire, alloc, now, local, *at);
        pass = next;
        worked = worked || sent;
    }
    (pass, worked)
}

/// The sender: it sends what publications have, and sends again what NAKs ask for.
#[derive(Drop)]
pub struct SenderAgent<S, G: Gate> {
    steps: S,
    gate: Arc<G>,
    /// It is taken out for as long as a turn lasts.
    pass: Option<Pass>,
    /// The address from which all datagrams are sent.
    local: Address,
    room: Room,
    /// Where the turn reads beside the address that it sends from.
    controls: Rows<Address, 512>,
    /// The logs of the turn.
    all: Rows<LogAt, 256>,
    /// Where it waits for datagrams.
    sockets: Sockets,
    alloc: Global,
    /// The greatest moment of its turns, in nanoseconds.
    moment: u64,
    turn: Turn,
}

impl<S, G: Gate> Model for SenderAgent<S, G> {
    ghost use Rattle.media_agents.specs.Agents.{Sending};
    ghost use Rattle.published_registry.specs.Histories.{history_in};
    ghost use Rattle.std.specs.Prelude.{IsSome};

    ghost Value = { Sending S };

    ghost view = { λ agent. record { steps = agent.steps; local = agent.local; known = history_in agent.pass; moment = agent.moment; turn = agent.turn } };

    ghost invariant = { λ agent. IsSome agent.pass };
}

/// Whether there is an address to read at or a log to send.
fn has_to_watch(controls: &[Address], logs: &[LogAt]) -> bool {
    !controls.is_empty() || !logs.is_empty()
}

impl<S: Stepping + Drop, G: Gate + Drop> SenderAgent<S, G> {
    /// A sender before its first turn, which sends from the address `local`.
    pub fn new(
        alloc: Global,
        steps: S,
        gate: Arc<G>,
        pass: Pass,
        local: Address,
    ) -> Result<SenderAgent<S, G>, AllocError>
        ensures { IfOk result (λ agent. agent ≡ record { steps = steps; local = local; known = pass; moment = 0; turn = record { number = 0; idle = 0; watches = false } }) }
    {
        Ok(SenderAgent {
            steps,
            gate,
            pass: Some(pass),
            local,
            room: Room::new(alloc)?,
            controls: Rows::new(alloc)?,
            all: Rows::new(alloc)?,
            sockets: Rows::new(alloc)?,
            alloc,
            moment: 0,
            turn: Turn::first(),
        })
    }

    /// A turn, at the moment `now` in nanoseconds, once the gate lets it pass. Where an earlier turn had a later moment, that
    /// counts. The datagrams that came to the address that it sends from are read, 1,024 at most, and then those at each address
    /// where publications of a look learn their destinations: a NAK or a status message is a step on its publication. Then each
    /// publication over datagrams of a second look has its steps, in the order of their numbers: one after another until nothing
    /// is due, 16 at most. Each step is one hold of the log's lock, with one look within it; what came of it is written into the
    /// journal, once, and then the datagrams of its answer go out. A send that fails is a datagram lost, and counted, and so is a
    /// read that fails.
    pub fn turn<R: Wait, W: Wire>(&mut self, rt: &R, wire: &mut W, now: u64)
        ensures known { IsContinuedBy self.old.known self.new.known }
        ensures same { self.new ≡ record self.old { steps = self.new.steps; known = self.new.known; moment = max now self.old.moment; turn = self.new.turn } }
        ensures turn { (worked : Bool) × (watches : Bool) × (self.new.turn ≡ next_turn worked watches self.old.turn) }
        ensures sends { GoesOn (Sends self.new.moment self.old.local self.old.known self.new.known) (Trail (S.did self.old.steps) (W.went wire.old)) (Trail (S.did self.new.steps) (W.went wire.new)) }
    {
        self.sockets.clear();
        note_sockets(self.turn, wire, &[self.local], &mut self.sockets);
        note_sockets(self.turn, wire, self.controls.as_slice(), &mut self.sockets);
        self.gate
            .pass(Agent::Sender, self.turn, self.sockets.as_slice());
        let Some(pass) = self.pass.take() else {
            unreachable!()
        };
        let moment = now.max(self.moment);
        self.moment = moment;
        let (pass, heard) = hear_all(
            rt,
            &mut self.steps,
            pass,
            wire,
            &mut self.room,
            self.alloc,
            moment,
            &self.local,
            &self.local,
        );
        let pass = find_controls(&mut self.steps, pass, &mut self.controls);
        let controls = self.controls.as_slice();
        let (pass, told) = hear_each(
            rt,
            &mut self.steps,
            pass,
            wire,
            &mut self.room,
            self.alloc,
            moment,
            &self.local,
            controls,
        );
        let pass = find_publications(&mut self.steps, pass, &mut self.all);
        let all = self.all.as_slice();
        let (pass, sent) = send_each(
            rt,
            &mut self.steps,
            pass,
            wire,
            self.alloc,
            moment,
            &self.local,
            all,
        );
        wire.turn_ended();
        self.pass = Some(pass);
        let watches = has_to_watch(controls, all);
        self.turn = self.turn.next(heard || told || sent, watches);
    }

    /// The turn that is next.
    pub fn upcoming(&self) -> Turn
        ensures { result ≡ self.now.turn }
    {
        self.turn
    }
}

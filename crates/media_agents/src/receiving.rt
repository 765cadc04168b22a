//! The receiver's turns.

ghost use Rattle.media_agents.specs.Acts.{Chain, GoesOn, Trail};
ghost use Rattle.media_agents.specs.Agents.{ReceivesBy};
ghost use Rattle.media_agents.specs.Passing.{next_turn};
ghost use Rattle.media_agents.specs.SetUps.{SetsUp, SetsUpFew};
ghost use Rattle.media_agents.specs.Traffic.{HearsOut, ReceiverTakes, ReportsOne};
ghost use Rattle.published_registry.specs.Histories.{IsContinuedBy};
ghost use Rattle.std.specs.Prelude.{◌≡◌, Bool, false, IfOk, max};

use crate::eliciting::{Elicited, elicit};
use crate::finding::{find_endpoints, find_images};
use crate::gate::{Agent, Gate, Turn};
use crate::hearing::hear_as_receiver;
use crate::listing::ImageAt;
use crate::posting::EventSender;
use crate::reading::{MOST, Room, Sockets, note_length, note_sockets};
use crate::set_ups::SetUps;
use crate::stepping::Stepping;
use crate::tallying::is_asking;
use crate::telling::tell;
use channel_uri::Address;
use media_wire::Wire;
use published_registry::Pass;
use rows::Rows;
use std::alloc::{AllocError, Global};
use std::marker::Model;
use std::sync::{Arc, Wait};

/// Reads the datagrams at an address where subscriptions take them: until none is there, a read fails, or 1,024 are read.
/// Whether there was one that may have messages.
fn hear_all<R: Wait, S: Stepping, W: Wire>(
    rt: &R,
    steps: &mut S,
    pass: Pass,
    wire: &mut W,
    set_ups: &mut SetUps,
    room: &mut Room,
    alloc: Global,
    now: u64,
    local: &Address,
) -> (Pass, bool)
    ensures known { IsContinuedBy pass result.0 }
    ensures hears { GoesOn (HearsOut (ReceiverTakes now) local.now (pass, set_ups.old) (result.0, set_ups.new)) (Trail (S.did steps.old) (W.went wire.old)) (Trail (S.did steps.new) (W.went wire.new)) }
    ensures set_ups { SetsUp now set_ups.old set_ups.new }
{
    let mut pass = pass;
    let mut lively = false;
    for _count in 0..MOST {
        match room.next(rt, steps, wire, local) {
            Some(read) => {
                let bytes = room.datagram(read.0);
                pass = hear_as_receiver(
                    rt, steps, pass, set_ups, alloc, now, local, &read.1, bytes,
                );
                note_length(&mut lively, read.0);
            }
            None => return (pass, lively),
        }
    }
    (pass, lively)
}

/// The same at each of these addresses.
fn hear_each<R: Wait, S: Stepping, W: Wire>(
    rt: &R,
    steps: &mut S,
    pass: Pass,
    wire: &mut W,
    set_ups: &mut SetUps,
    room: &mut Room,
    alloc: Global,
    now: u64,
    endpoints: &[Address],
) -> (Pass, bool)
    ensures known { IsContinuedBy pass result.0 }
    ensures hears { GoesOn (Chain (HearsOut (ReceiverTakes now)) endpoints.now (pass, set_ups.old) (result.0, set_ups.new)) (Trail (S.did steps.old) (W.went wire.old)) (Trail (S.did steps.new) (W.went wire.new)) }
    ensures set_ups { SetsUp now set_ups.old set_ups.new }
{
    let mut pass = pass;
    let mut worked = false;
    for endpoint in endpoints {
        let (next, heard) = hear_all(rt, steps, pass, wire, set_ups, room, alloc, now, endpoint);
        pass = next;
        worked = worked || heard;
    }
    (pass, worked)
}

/// One turn with one image: what is due is noted, and goes out, from the address at which the image reads, once the log's lock is
/// let go. So what is sent again comes to where the image reads it. Whether a NAK was due.
fn report_one<R: Wait, S: Stepping, W: Wire>(
    rt: &R,
    steps: &mut S,
    pass: Pass,
    wire: &mut W,
    alloc: Global,
    now: u64,
    image: &ImageAt,
) -> (Pass, bool)
    ensures known { IsContinuedBy pass result.0 }
    ensures reports { GoesOn (ReportsOne now image.now pass result.0) (Trail (S.did steps.old) (W.went wire.old)) (Trail (S.did steps.new) (W.went wire.new)) }
{
    let (pass, it) = steps.report(rt, pass, alloc, now, image.log);
    match it {
        Some(it) => {
            steps.note_turn(rt, &it);
            tell(rt, steps, wire, &image.endpoint, &it.answer);
            let due = is_asking(&it.answer);
            (pass, due)
        }
        None => (pass, false),
    }
}

/// One turn with each of these images, in their order. Whether a NAK was due.
fn report_each<R: Wait, S: Stepping, W: Wire>(
    rt: &R,
    steps: &mut S,
    pass: Pass,
    wire: &mut W,
    alloc: Global,
    now: u64,
    images: &[ImageAt],
) -> (Pass, bool)
    ensures known { IsContinuedBy pass result.0 }
    ensures reports { GoesOn (Chain (ReportsOne now) images.now pass result.0) (Trail (S.did steps.old) (W.went wire.old)) (Trail (S.did steps.new) (W.went wire.new)) }
{
    let mut pass = pass;
    let mut worked = false;
    for image in images {
        let (next, due) = report_one(rt, steps, pass, wire, alloc, now, image);
        pass = next;
        worked = worked || due;
    }
    (pass, worked)
}

/// The receiver: it takes the datagrams of images, and reports to their publishers what came.
#[derive(Drop)]
pub struct ReceiverAgent<S, G: Gate> {
    steps: S,
    gate: Arc<G>,
    /// It is taken out for as long as a turn lasts.
    pass: Option<Pass>,
    set_ups: SetUps,
    room: Room,
    /// Where the turn reads.
    endpoints: Rows<Address, 512>,
    /// The images of the turn.
    images: Rows<ImageAt, 512>,
    /// Where it waits for datagrams.
    sockets: Sockets,
    elicited: Elicited,
    alloc: Global,
    /// The greatest moment of its turns, in nanoseconds.
    moment: u64,
    turn: Turn,
}

impl<S, G: Gate> Model for ReceiverAgent<S, G> {
    ghost use Rattle.media_agents.specs.Agents.{Receiving};
    ghost use Rattle.published_registry.specs.Histories.{history_in};
    ghost use Rattle.std.specs.Prelude.{IsSome};

    ghost Value = { Receiving S };

    ghost view = { λ agent. record { steps = agent.steps; known = history_in agent.pass; moment = agent.moment; turn = agent.turn; queue = agent.set_ups.queue; eliciting = agent.elicited } };

    ghost invariant = { λ agent. IsSome agent.pass };
}

/// Whether there is an address to read at or an image to report of.
fn has_to_watch(endpoints: &[Address], images: &[ImageAt]) -> bool {
    !endpoints.is_empty() || !images.is_empty()
}

impl<S: Stepping + Drop, G: Gate + Drop> ReceiverAgent<S, G> {
    /// A receiver before its first turn.
    pub fn new(
        alloc: Global,
        steps: S,
        gate: Arc<G>,
        pass: Pass,
        queue: EventSender,
        elicited: Elicited,
    ) -> Result<ReceiverAgent<S, G>, AllocError>
        ensures { IfOk result (λ agent. agent ≡ record { steps = steps; known = pass; moment = 0; turn = record { number = 0; idle = 0; watches = false }; queue = queue; eliciting = elicited }) }
    {
        Ok(ReceiverAgent {
            steps,
            gate,
            pass: Some(pass),
            set_ups: SetUps::new(queue),
            room: Room::new(alloc)?,
            endpoints: Rows::new(alloc)?,
            images: Rows::new(alloc)?,
            sockets: Rows::new(alloc)?,
            elicited,
            alloc,
            moment: 0,
            turn: Turn::first(),
        })
    }

    /// A turn, at the moment `now` in nanoseconds, once the gate lets it pass. Where an earlier turn had a later moment, that
    /// counts. At each address where subscriptions of a look take datagrams those that came are read, 1,024 at most: data and
    /// heartbeats are steps on their image, and a SETUP is pushed as an event, or lost where 64 were pushed in this turn, or
    /// fewer than half of the queue's places are free. Then each image of a second look has one step, in the order of their
    /// numbers. Each step is one hold of the log's lock, with one look within it; what came of it is written into the journal,
    /// once, and then the datagrams of its answer go out from the address at which the image reads. At last one that was handed
    /// over joins those that are to be elicited, and for each of these that is due by a third look a status message goes out. A
    /// send that fails is a datagram lost, and counted, and so is a read that fails.
    pub fn turn<R: Wait, W: Wire>(&mut self, rt: &R, wire: &mut W, now: u64)
        ensures known { IsContinuedBy self.old.known self.new.known }
        ensures turn { (worked : Bool) × (watches : Bool) × (self.new.turn ≡ next_turn worked watches self.old.turn) }
        ensures moment { self.new.moment ≡ max now self.old.moment }
        ensures queue { SetsUpFew self.new.moment self.old.queue self.new.queue }
        ensures receives { ReceivesBy self.old self.new (Trail (S.did self.old.steps) (W.went wire.old)) (Trail (S.did self.new.steps) (W.went wire.new)) }
    {
        self.sockets.clear();
        note_sockets(
            self.turn,
            wire,
            self.endpoints.as_slice(),
            &mut self.sockets,
        );
        self.gate
            .pass(Agent::Receiver, self.turn, self.sockets.as_slice());
        let Some(pass) = self.pass.take() else {
            unreachable!()
        };
        let moment = now.max(self.moment);
        self.moment = moment;
        self.set_ups.begin();
        let pass = find_endpoints(&mut self.steps, pass, &mut self.endpoints);
        let endpoints = self.endpoints.as_slice();
        let (pass, heard) = hear_each(
            rt,
            &mut self.steps,
            pass,
            wire,
            &mut self.set_ups,
            &mut self.room,
            self.alloc,
            moment,
            endpoints,
        );
        let pass = find_images(&mut self.steps, pass, &mut self.images);
        let images = self.images.as_slice();
        let (pass, due) = report_each(rt, &mut self.steps, pass, wire, self.alloc, moment, images);
        let pass = elicit(rt, &mut self.steps, pass, wire, &mut self.elicited, moment);
        wire.turn_ended();
        self.pass = Some(pass);
        let watches = has_to_watch(endpoints, images);
        self.turn = self.turn.next(heard || due, watches);
    }

    /// The turn that is next.
    pub fn upcoming(&self) -> Turn
        ensures { result ≡ self.now.turn }
    {
        self.turn
    }
}

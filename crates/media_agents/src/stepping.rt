//! Steps on logs: each in one hold of the lock of its log, with one look within it.

ghost use Rattle.log_steps.specs.declared.answer.Answer.TheVariants.{NoMemory};
ghost use Rattle.log_steps.specs.Packets.{IsSoundContent, packet_request};
ghost use Rattle.frame_codec.specs.Datagram.{content};
ghost use Rattle.media_agents.specs.Acts.{Access, GoesOn, Writes};
ghost use Rattle.media_agents.specs.Asking.{IsHold};
ghost use Rattle.media_agents.specs.Journals.{after_miss, after_nak, after_packet, after_sending, after_turn, stamp_of};
ghost use Rattle.media_agents.specs.Stepping.{HearsBy, HearsIf, Reports, ReportsBy, Sends, SendsBy, TakesBy, look_of, stray};
ghost use Rattle.published_registry.specs.Histories.{IsContinuedBy, registry_of};
ghost use Rattle.std.specs.Prelude.{◌≡◌, ◌∷◌, [], ⊤, IfErr, IfOk, IfSome, List, None};

use crate::journal::Stamp;
use crate::slots::{LogAt, Slots};
use channel_uri::Address;
use driver_core::Astray;
use drop_tallies::Miss;
use frame_codec::Packet;
use log_slots::{Held, LogSlot, Naming, Slot, lock_soon};
use log_steps::{Answer, Answered, Cause, PacketRequest, packet_request};
use policy_core::Decision;
use published_registry::{Look, Pass};
use std::alloc::Global;
use std::sync::{Mutex, Wait};

/// What came of a step.
#[derive(Debug, Drop)]
pub struct Stepped {
    pub answer: Answer,
    /// What the policy decided of it. That of a datagram that was cut is with its destinations.
    pub decision: Option<Decision>,
    /// By which registry the step was taken.
    pub stamp: Stamp,
}

impl Stepped {
    /// What came of a step, by that registry.
    pub fn of(told: Answered, stamp: Stamp) -> Stepped
        ensures { result ≡ record { answer = told.answer; decision = told.decision; stamp = stamp } }
    {
        Stepped {
            answer: told.answer,
            decision: told.decision,
            stamp,
        }
    }
}

/// A datagram is for no log, or from a stranger.
pub(crate) fn strayed(why: Astray, stamp: Stamp) -> Stepped
    ensures { result ≡ stray why stamp }
{
    Stepped {
        answer: Answer::Dropped(Cause::Astray(why)),
        decision: None,
        stamp,
    }
}

/// The sender has a turn with the log of a source, by a look. `None` where there is no memory.
fn send_in<N: Naming>(
    slot: &mut Slot<N>,
    look: &Look,
    alloc: Global,
    now: u64,
    source: u64,
) -> Option<Stepped>
    ensures { IfSome result (λ it. Sends (IsHold N.home) (registry_of look.now) now source it × (it.stamp ≡ stamp_of look.now)) }
{
    let stamp = Stamp::of(look);
    slot.holds();
    let answer = slot.send(look, alloc, now, source);
    slot.holds();
    match answer {
        Ok(answer) => Some(Stepped {
            answer,
            decision: None,
            stamp,
        }),
        Err(_) => None,
    }
}

/// The receiver has a turn with the log of a source, by a look. `None` where there is no memory.
fn report_in<N: Naming>(
    slot: &mut LogSlot<N>,
    look: &Look,
    alloc: Global,
    now: u64,
    source: u64,
) -> Option<Stepped>
    ensures { IfSome result (λ it. Reports (IsHold N.home) (registry_of look.now) now source it × (it.stamp ≡ stamp_of look.now)) }
{
    let stamp = Stamp::of(look);
    slot.holds();
    let answer = slot.image(look, alloc, now, source);
    slot.holds();
    match answer {
        Ok(answer) => Some(Stepped {
            answer,
            decision: None,
            stamp,
        }),
        Err(_) => None,
    }
}

/// There is no memory for what a datagram would give.
fn lacking(stamp: Stamp) -> Stepped
    ensures { result ≡ record { answer = NoMemory; decision = None; stamp = stamp } }
{
    Stepped {
        answer: Answer::NoMemory,
        decision: None,
        stamp,
    }
}

/// The log takes a datagram, as a registry asks of it.
fn take_in<N: Naming, H: Held<N>>(
    slot: &mut H,
    alloc: Global,
    now: u64,
    from: &Address,
    packet: Packet<'_>,
    request: &PacketRequest,
    stamp: Stamp,
) -> Stepped
    requires { IsSoundContent (content packet) }
    ensures { TakesBy (IsHold N.home) now from.now (content packet.entry) request.now stamp result }
{
    slot.holds();
    let told = slot.packet(alloc, now, from, packet, request);
    slot.holds();
    match told {
        Ok(told) => Stepped {
            answer: told.answer,
            decision: told.decision,
            stamp,
        },
        Err(_) => lacking(stamp),
    }
}

/// A datagram comes to the log, by a look.
fn hear_in<N: Naming, H: Held<N>>(
    slot: &mut H,
    look: &Look,
    alloc: Global,
    now: u64,
    local: &Address,
    from: &Address,
    packet: Packet<'_>,
) -> Stepped
    requires { IsSoundContent (content packet) }
    ensures { HearsBy (IsHold N.home) ⊤ now from.now (content packet.entry) (packet_request (registry_of look.now) local.now from.now (content packet.entry)) (stamp_of look.now) result }
{
    let stamp = Stamp::of(look);
    match packet_request(look, local, from, &packet) {
        Ok(request) => take_in(slot, alloc, now, from, packet, &request, stamp),
        Err(why) => strayed(why, stamp),
    }
}

/// What an agent has access to: the logs, each under the lock of its slot, and the journal, under its own. Each agent has a
/// handle of its own.
pub trait Stepping {
    /// These are all its accesses so far, in their order, as far as is known. What is said over anything of this kind can know
    /// them by calls alone.
    ghost did: { Self → List Access → Type 0 };

    /// A look, for what is not decided.
    fn look(&mut self, pass: Pass) -> Result<Look, Pass>
        ensures looks { IfOk result (λ look. IsContinuedBy pass look) }
        ensures same { IfErr result (λ back. back ≡ pass) }
        ensures did { GoesOn (λ accesses. accesses ≡ look_of result ∷ []) (did self.old) (did self.new) };

    /// The sender has a turn with a log. `None` where it has not.
    fn send<R: Wait>(
        &mut self,
        rt: &R,
        pass: Pass,
        alloc: Global,
        now: u64,
        at: LogAt,
    ) -> (Pass, Option<Stepped>)
        ensures known { IsContinuedBy pass result.0 }
        ensures did { GoesOn (SendsBy now at result.1 pass result.0) (did self.old) (did self.new) };

    /// The receiver has a turn with a log. `None` where it has not.
    fn report<R: Wait>(
        &mut self,
        rt: &R,
        pass: Pass,
        alloc: Global,
        now: u64,
        at: LogAt,
    ) -> (Pass, Option<Stepped>)
        ensures known { IsContinuedBy pass result.0 }
        ensures did { GoesOn (ReportsBy now at result.1 pass result.0) (did self.old) (did self.new) };

    /// A datagram that came to the address `local`, from the address `from`, comes to the log that it is for. `None` where there
    /// was no look, or no such slot.
    fn hear<R: Wait>(
        &mut self,
        rt: &R,
        pass: Pass,
        alloc: Global,
        now: u64,
        local: &Address,
        from: &Address,
        packet: Packet<'_>,
    ) -> (Pass, Option<Stepped>)
        requires { IsSoundContent (content packet) }
        ensures known { IsContinuedBy pass result.0 }
        ensures did { GoesOn (HearsIf now local.now from.now (content packet.entry) result.1 pass result.0) (did self.old) (did self.new) };

    /// It happened once more, to that address or from there, by no verdict.
    fn note<R: Wait>(&mut self, rt: &R, miss: Miss, address: &Address)
        ensures { GoesOn (Writes (after_miss miss address.now)) (did self.old) (did self.new) };

    /// A NAK came.
    fn note_nak<R: Wait>(&mut self, rt: &R)
        ensures { GoesOn (Writes after_nak) (did self.old) (did self.new) };

    /// That came of a datagram from that address.
    fn note_packet<R: Wait>(&mut self, rt: &R, it: &Stepped, from: &Address)
        ensures { GoesOn (Writes (after_packet from.now it.now)) (did self.old) (did self.new) };

    /// That came of the receiver's turn with an image.
    fn note_turn<R: Wait>(&mut self, rt: &R, it: &Stepped)
        ensures { GoesOn (Writes (after_turn it.now)) (did self.old) (did self.new) };

    /// That came of the sender's turn with a publication.
    fn note_sending<R: Wait>(&mut self, rt: &R, it: &Stepped)
        ensures { GoesOn (Writes (after_sending it.now)) (did self.old) (did self.new) };
}

/// One hold of a publication's lock, with one look within it: the sender has a turn.
pub(crate) fn send_at<N: Naming, R: Wait>(
    rt: &R,
    slot: &Mutex<Slot<N>>,
    pass: Pass,
    alloc: Global,
    now: u64,
    source: u64,
) -> (Pass, Option<Stepped>)
    ensures known { IsContinuedBy pass result.0 }
    ensures step { IfSome result.1 (λ it. Sends (IsHold N.home) (registry_of result.0) now source it × (it.stamp ≡ stamp_of result.0)) }
{
    let mut slot = lock_soon(rt, slot);
    match pass.enter() {
        Ok(look) => {
            let it = send_in(&mut *slot, &look, alloc, now, source);
            (look.leave(), it)
        }
        Err(pass) => (pass, None),
    }
}

/// One hold of an image's lock, with one look within it: the receiver has a turn.
pub(crate) fn report_at<N: Naming, R: Wait>(
    rt: &R,
    slot: &Mutex<LogSlot<N>>,
    pass: Pass,
    alloc: Global,
    now: u64,
    source: u64,
) -> (Pass, Option<Stepped>)
    ensures known { IsContinuedBy pass result.0 }
    ensures step { IfSome result.1 (λ it. Reports (IsHold N.home) (registry_of result.0) now source it × (it.stamp ≡ stamp_of result.0)) }
{
    let mut slot = lock_soon(rt, slot);
    match pass.enter() {
        Ok(look) => {
            let it = report_in(&mut *slot, &look, alloc, now, source);
            (look.leave(), it)
        }
        Err(pass) => (pass, None),
    }
}

/// One hold of a log's lock, with one look within it: a datagram comes.
fn hear_at<N: Naming, H: Held<N>, R: Wait>(
    rt: &R,
    slot: &Mutex<H>,
    pass: Pass,
    alloc: Global,
    now: u64,
    local: &Address,
    from: &Address,
    packet: Packet<'_>,
) -> (Pass, Option<Stepped>)
    requires { IsSoundContent (content packet) }
    ensures known { IsContinuedBy pass result.0 }
    ensures heard { IfSome result.1 (λ it. HearsBy (IsHold N.home) ⊤ now from.now (content packet.entry) (packet_request (registry_of result.0) local.now from.now (content packet.entry)) (stamp_of result.0) it) }
{
    let mut slot = lock_soon(rt, slot);
    match pass.enter() {
        Ok(look) => {
            let it = hear_in(&mut *slot, &look, alloc, now, local, from, packet);
            (look.leave(), Some(it))
        }
        Err(pass) => (pass, None),
    }
}

/// A datagram comes to the slot of the log that it is for.
pub(crate) fn come_to<N: Naming, R: Wait>(
    rt: &R,
    slots: &Slots<N>,
    at: LogAt,
    pass: Pass,
    alloc: Global,
    now: u64,
    local: &Address,
    from: &Address,
    packet: Packet<'_>,
) -> (Pass, Option<Stepped>)
    requires { IsSoundContent (content packet) }
    ensures known { IsContinuedBy pass result.0 }
    ensures heard { IfSome result.1 (λ it. HearsBy (IsHold N.home) ⊤ now from.now (content packet.entry) (packet_request (registry_of result.0) local.now from.now (content packet.entry)) (stamp_of result.0) it) }
{
    let place = at.slot as usize;
    if at.published {
        match slots.publications.get(place) {
            Some(slot) => hear_at(rt, slot, pass, alloc, now, local, from, packet),
            None => (pass, None),
        }
    } else {
        match slots.images.get(place) {
            Some(slot) => hear_at(rt, slot, pass, alloc, now, local, from, packet),
            None => (pass, None),
        }
    }
}

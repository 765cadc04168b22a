//! An agent's steps on the logs and the journal of a driver.

ghost use Rattle.log_steps.specs.Packets.{IsSoundContent};
ghost use Rattle.frame_codec.specs.Datagram.{content};
ghost use Rattle.media_agents.specs.Stepping.{IsOf};
ghost use Rattle.std.specs.Prelude.{◌≡◌, All};

use crate::finding::find;
use crate::journal::Stamp;
use crate::noting::{Noting, is_cut, keep_entry, keep_packet, keep_sending, keep_turn};
use crate::slots::{LogAt, Logs, Slots, ask_image, close_in, rejoin_in};
use crate::stepping::{Stepped, Stepping, come_to, report_at, send_at};
use crate::tallying::{is_asking, is_counted};
use crate::unopened::{Unopened, open_in};
use channel_uri::Address;
use driver_core::{Event, Response};
use drop_tallies::Miss;
use frame_codec::Packet;
use log_slots::{Naming, lock_soon};
use log_steps::OpenLog;
use policy_core::Decision;
use published_registry::{Look, Pass};
use std::alloc::Global;
use std::sync::{Arc, Wait};

/// What an agent of a driver has access to. The journal's lock is taken where there is something to write, and for that alone.
#[derive(Drop)]
pub struct Steps<N: Naming> {
    slots: Arc<Slots<N>>,
}

impl<N: Naming> Steps<N> {
    /// An agent's access to these logs.
    pub fn new(slots: Arc<Slots<N>>) -> Steps<N>
        ensures { result ≡ record { slots = slots } }
    {
        Steps { slots }
    }
}

impl<N: Naming> Stepping for Steps<N> {
    ghost did = { λ steps accesses. All (IsOf N.home) accesses };

    fn look(&mut self, pass: Pass) -> Result<Look, Pass> {
        pass.enter()
    }

    fn send<R: Wait>(
        &mut self,
        rt: &R,
        pass: Pass,
        alloc: Global,
        now: u64,
        at: LogAt,
    ) -> (Pass, Option<Stepped>) {
        match self.slots.publications.get(at.slot as usize) {
            Some(slot) => send_at(rt, slot, pass, alloc, now, at.source),
            None => (pass, None),
        }
    }

    fn report<R: Wait>(
        &mut self,
        rt: &R,
        pass: Pass,
        alloc: Global,
        now: u64,
        at: LogAt,
    ) -> (Pass, Option<Stepped>) {
        match self.slots.images.get(at.slot as usize) {
            Some(slot) => report_at(rt, slot, pass, alloc, now, at.source),
            None => (pass, None),
        }
    }

    fn hear<R: Wait>(
        &mut self,
        rt: &R,
        pass: Pass,
        alloc: Global,
        now: u64,
        local: &Address,
        from: &Address,
        packet: Packet<'_>,
    ) -> (Pass, Option<Stepped>) {
        let (pass, found) = find(pass, local, from, &packet);
        match found {
            Some(Ok(at)) => come_to(rt, &*self.slots, at, pass, alloc, now, local, from, packet),
            Some(Err(it)) => (pass, Some(it)),
            None => (pass, None),
        }
    }

    fn note<R: Wait>(&mut self, rt: &R, miss: Miss, address: &Address) {
        self.slots
            .journal
            .lock(rt)
            .tallies
            .note(miss, None, address);
    }

    fn note_nak<R: Wait>(&mut self, rt: &R) {
        self.slots.journal.lock(rt).tallies.hear();
    }

    fn note_packet<R: Wait>(&mut self, rt: &R, it: &Stepped, from: &Address) {
        if it.decision.is_some() || is_counted(&it.answer) {
            keep_packet(&mut *self.slots.journal.lock(rt), it, from);
        }
    }

    fn note_turn<R: Wait>(&mut self, rt: &R, it: &Stepped) {
        if is_asking(&it.answer) {
            keep_turn(&mut *self.slots.journal.lock(rt), it);
        }
    }

    fn note_sending<R: Wait>(&mut self, rt: &R, it: &Stepped) {
        if is_cut(&it.answer) {
            keep_sending(&mut *self.slots.journal.lock(rt), it);
        }
    }
}

impl<N: Naming> Noting for Steps<N> {
    ghost wrote = { λ steps accesses. All (IsOf N.home) accesses };

    fn note_entry<R: Wait>(
        &mut self,
        rt: &R,
        event: &Event,
        response: &Response,
        decisions: &[Decision],
        stamp: Stamp,
    ) {
        if !decisions.is_empty() || matches!(event, Event::Setup { .. }) {
            keep_entry(
                &mut *self.slots.journal.lock(rt),
                event,
                response,
                decisions,
                stamp,
            );
        }
    }
}

impl<N: Naming> Logs<N> for Steps<N> {
    ghost did = { λ steps accesses. All (IsOf N.home) accesses };

    fn rejoin<R: Wait>(&mut self, rt: &R, at: LogAt, subscriptions: &[u64]) -> Option<u64> {
        let slot = at.slot as usize;
        if at.published {
            match self.slots.publications.get(slot) {
                Some(it) => rejoin_in(&mut *lock_soon(rt, it), at.source, subscriptions),
                None => None,
            }
        } else {
            match self.slots.images.get(slot) {
                Some(it) => rejoin_in(&mut *lock_soon(rt, it), at.source, subscriptions),
                None => None,
            }
        }
    }

    fn is_silent<R: Wait>(&mut self, rt: &R, at: LogAt, now: u64, limit: u64) -> bool {
        match self.slots.images.get(at.slot as usize) {
            Some(it) => ask_image(&*lock_soon(rt, it), at.source, now, limit),
            None => false,
        }
    }

    fn open<R: Wait>(
        &mut self,
        rt: &R,
        at: LogAt,
        log: OpenLog,
        session: i32,
        stream: i32,
    ) -> Result<(), Unopened> {
        let slot = at.slot as usize;
        if at.published {
            match self.slots.publications.get(slot) {
                Some(it) => open_in(&mut *lock_soon(rt, it), log, session, stream),
                None => Err(Unopened::no_publication(&*self.slots, at, log)),
            }
        } else {
            match self.slots.images.get(slot) {
                Some(it) => open_in(&mut *lock_soon(rt, it), log, session, stream),
                None => Err(Unopened::no_image(&*self.slots, at, log)),
            }
        }
    }

    fn close<R: Wait>(&mut self, rt: &R, at: LogAt) -> Option<OpenLog> {
        let slot = at.slot as usize;
        if at.published {
            match self.slots.publications.get(slot) {
                Some(it) => close_in(&mut *lock_soon(rt, it), at.source),
                None => None,
            }
        } else {
            match self.slots.images.get(slot) {
                Some(it) => close_in(&mut *lock_soon(rt, it), at.source),
                None => None,
            }
        }
    }
}

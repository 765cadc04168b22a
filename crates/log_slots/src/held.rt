//! What the lock of a slot guards, whether the slot is for publications or for images.

ghost use Rattle.log_steps.specs.declared.answer.Answer.TheVariants.{Gone};
ghost use Rattle.log_steps.specs.Decided.{decision_for, poll_decision};
ghost use Rattle.log_steps.specs.Moves.{for_source, poll_move};
ghost use Rattle.log_steps.specs.Packets.{IsSoundContent, packet_move};
ghost use Rattle.frame_codec.specs.Datagram.{content};
ghost use Rattle.learnt_addresses.specs.Laws.{AreOrderly};
ghost use Rattle.log_slots.specs.Positions.{reading_in};
ghost use Rattle.log_slots.specs.Slots.{DecidesHeard, DecidesIn, GivesHeard, GivesIn, Hears, IsMadeFor, IsSlot, Moves, SlotLog, log_of, packet_decision, reach_in, with_log, with_readers, without_log};
ghost use Rattle.log_traffic.specs.Held.{made_held, messages_held, place_held};
ghost use Rattle.log_traffic.specs.Layout.{HasLayout};
ghost use Rattle.log_traffic.specs.Whole.{HasWhole};
ghost use Rattle.std.specs.Prelude.{◌≡◌, ◌≤◌, length, None, IfErr, IfOk, IfSome, OnErr, OnOk};

use crate::log_slot::LogSlot;
use crate::naming::Naming;
use crate::positions::ReadingPositions;
use crate::slot::Slot;
use driver_core::{Address, View};
use frame_codec::Packet;
use log_steps::{Answered, Asks, OpenLog, PacketRequest};
use std::alloc::{AllocError, Global};

/// What the lock of a slot guards: a log that is open there, or none. What is done with a log of either kind is done by these.
pub trait Held<N: Naming> {
    /// The log, and what is known of the one that is or was there last.
    ghost kept: { Self → SlotLog };

    /// What holds whenever the lock is free, as [`LogSlot::holds`] says.
    fn holds(&self)
        ensures own { IsSlot N.home (kept self.now).source (kept self.now).session (kept self.now).stream (kept self.now).log }
        ensures whole { IfSome (kept self.now).log (λ held. HasWhole held.log) }
        ensures layout { IfSome (kept self.now).log (λ held. HasLayout held.log) }
        ensures learnt { IfSome (kept self.now).log (λ held. AreOrderly held.recovery.learnt) };

    /// A log opens here, that has taken no message yet.
    ///
    /// # Errors
    /// It is handed back where another log is open, or none opens any more. Nothing is changed then.
    fn open(&mut self, log: OpenLog, session: i32, stream: i32) -> Result<(), OpenLog>
        requires home { (place_held log.log).home ≡ N.home }
        requires made { IsMadeFor session stream (made_held log.log) }
        requires fresh { messages_held log.log ≡ 0 }
        ensures free { OnOk result ((kept self.old).log ≡ None) }
        ensures opened { OnOk result (kept self.new ≡ with_log session stream log) }
        ensures back { IfErr result (λ back. back ≡ log) }
        ensures err { OnErr result (kept self.new ≡ kept self.old) };

    /// The log of that source closes, if it is open here: it is handed out, with its lease.
    fn close(&mut self, source: u64) -> Option<OpenLog>
        ensures taken { result ≡ log_of source (kept self.old) }
        ensures left { kept self.new ≡ without_log source (kept self.old) }
        ensures home { IfSome result (λ held. (place_held held.log).home ≡ N.home) };

    /// Exactly these subscriptions read the log of that source, as [`LogSlot::rejoin`] says.
    fn rejoin(&mut self, source: u64, subscriptions: &[u64]) -> Option<u64>
        requires { length subscriptions.now ≤ 512 }
        ensures position { result ≡ reach_in source (kept self.old) }
        ensures left { kept self.new ≡ with_readers source subscriptions.now (kept self.old) };

    /// How far a subscription has come with the log of that source, as [`LogSlot::reading`] says.
    fn reading(&self, source: u64, subscription: u64) -> Option<ReadingPositions>
        ensures { result ≡ reading_in source subscription (kept self.now) };

    /// A client polls the log of a source, as [`LogSlot::poll`] says.
    fn poll<V: View, A: Asks>(
        &mut self,
        view: &V,
        asker: &mut A,
        alloc: Global,
        client: u64,
        subscription: u64,
        source: u64,
        limit: u32,
    ) -> Result<Answered, AllocError>
        requires { A.is_right asker.old (V.shows view.now) }
        ensures moved { IfOk result (λ told. Moves (for_source source (poll_move (V.shows view.now) client subscription limit) Gone) Gone (kept self.old).log (kept self.new).log told.answer) }
        ensures decides { IfOk result (λ told. DecidesIn (decision_for source (poll_decision (V.shows view.now) client subscription)) (kept self.old).log told.decision) }
        ensures same { kept self.new ≡ record (kept self.old) { log = (kept self.new).log } }
        ensures right { A.is_right asker.new (V.shows view.now) }
        ensures err { OnErr result (kept self.new ≡ kept self.old) }
        ensures without_memory { OnErr result (GivesIn (for_source source (poll_move (V.shows view.now) client subscription limit) Gone) (kept self.old).log) };

    /// A datagram comes for the log of a source, as [`LogSlot::packet`] says.
    ///
    /// # Errors
    /// Nothing is changed where there is no memory for what the log gives.
    fn packet(
        &mut self,
        alloc: Global,
        now: u64,
        from: &Address,
        packet: Packet<'_>,
        request: &PacketRequest,
    ) -> Result<Answered, AllocError>
        requires { IsSoundContent (content packet) }
        ensures moved { IfOk result (λ told. Hears (content packet.entry) (packet_move now from.now request.now (content packet.entry)) (kept self.old) (kept self.new).log told.answer) }
        ensures decides { IfOk result (λ told. DecidesHeard (content packet.entry) (packet_decision request.now) (kept self.old) told.decision) }
        ensures same { kept self.new ≡ record (kept self.old) { log = (kept self.new).log } }
        ensures err { OnErr result (kept self.new ≡ kept self.old) }
        ensures without_memory { OnErr result (GivesHeard (content packet.entry) (packet_move now from.now request.now (content packet.entry)) (kept self.old)) };
}

impl<N: Naming> Held<N> for LogSlot<N> {
    ghost kept = { λ slot. slot };

    fn holds(&self) {
        self.holds();
    }

    fn open(&mut self, log: OpenLog, session: i32, stream: i32) -> Result<(), OpenLog> {
        self.open(log, session, stream)
    }

    fn close(&mut self, source: u64) -> Option<OpenLog> {
        self.close(source)
    }

    fn rejoin(&mut self, source: u64, subscriptions: &[u64]) -> Option<u64> {
        self.rejoin(source, subscriptions)
    }

    fn reading(&self, source: u64, subscription: u64) -> Option<ReadingPositions> {
        self.reading(source, subscription)
    }

    fn poll<V: View, A: Asks>(
        &mut self,
        view: &V,
        asker: &mut A,
        alloc: Global,
        client: u64,
        subscription: u64,
        source: u64,
        limit: u32,
    ) -> Result<Answered, AllocError> {
        self.poll(view, asker, alloc, client, subscription, source, limit)
    }

    fn packet(
        &mut self,
        alloc: Global,
        now: u64,
        from: &Address,
        packet: Packet<'_>,
        request: &PacketRequest,
    ) -> Result<Answered, AllocError> {
        self.packet(alloc, now, from, packet, request)
    }
}

impl<N: Naming> Held<N> for Slot<N> {
    ghost kept = { λ slot. slot.kept };

    fn holds(&self) {
        self.holds();
    }

    fn open(&mut self, log: OpenLog, session: i32, stream: i32) -> Result<(), OpenLog> {
        self.open(log, session, stream)
    }

    fn close(&mut self, source: u64) -> Option<OpenLog> {
        self.close(source)
    }

    fn rejoin(&mut self, source: u64, subscriptions: &[u64]) -> Option<u64> {
        self.rejoin(source, subscriptions)
    }

    fn reading(&self, source: u64, subscription: u64) -> Option<ReadingPositions> {
        self.reading(source, subscription)
    }

    fn poll<V: View, A: Asks>(
        &mut self,
        view: &V,
        asker: &mut A,
        alloc: Global,
        client: u64,
        subscription: u64,
        source: u64,
        limit: u32,
    ) -> Result<Answered, AllocError> {
        self.poll(view, asker, alloc, client, subscription, source, limit)
    }

    fn packet(
        &mut self,
        alloc: Global,
        now: u64,
        from: &Address,
        packet: Packet<'_>,
        request: &PacketRequest,
    ) -> Result<Answered, AllocError> {
        self.packet(alloc, now, from, packet, request)
    }
}

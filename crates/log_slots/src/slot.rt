ghost use Rattle.log_steps.specs.declared.answer.Answer.TheVariants.{Gone, Offered as OfferedAs};
ghost use Rattle.log_steps.specs.declared.answer.Offered.TheVariants.{Closed};
ghost use Rattle.log_steps.specs.Decided.{decision_for, offer_decision_by, poll_decision};
ghost use Rattle.log_steps.specs.Moves.{for_source, offer_under, poll_move};
ghost use Rattle.log_steps.specs.Packets.{IsSoundContent, packet_move};
ghost use Rattle.log_steps.specs.Sending.{send_move};
ghost use Rattle.frame_codec.specs.Datagram.{content};
ghost use Rattle.learnt_addresses.specs.Laws.{AreOrderly};
ghost use Rattle.log_slots.specs.Counting.{IsCounted, IsFull, Passes, settled_of, taken_by};
ghost use Rattle.log_slots.specs.Positions.{consumed_in, is_limit, noted_if, positions_in, reading_in};
ghost use Rattle.log_slots.specs.Slots.{DecidesHeard, DecidesIn, GivesHeard, GivesIn, Hears, IsMadeFor, IsSlot, Moves, log_of, messages_in, packet_decision, reach_in, with_readers, without_log};
ghost use Rattle.log_traffic.specs.Held.{made_held, messages_held, place_held};
ghost use Rattle.log_traffic.specs.Layout.{HasLayout};
ghost use Rattle.log_traffic.specs.Whole.{HasWhole};
ghost use Rattle.std.specs.Prelude.{◌≡◌, ◌≢◌, ◌+◌, ◌^◌, ◌<◌, ◌≤◌, ◌⊎◌, [], length, None, Some, false, true, IfErr, IfNone, IfOk, IfSome, IsSome, MatchBool, OnErr, OnOk};

use crate::amount::{Amount, AtEnd};
use crate::log_slot::{LogSlot, closed};
use crate::naming::Naming;
use crate::positions::{PublicationPositions, ReadingPositions, counted_as, is_limit, note_if};
use driver_core::{Address, LogRequest, View};
use frame_codec::Packet;
use log_steps::{Answer, Answered, Asks, Offered, OpenLog, PacketRequest};
use receiver_reports::Reports;
use std::alloc::{AllocError, Global};
use std::marker::Model;
use std::mem;

/// A slot for the log of a publication, with what its logs may still take: 2^55 messages, but for those of the log that is open
/// and of the logs that were closed in it.
///
/// Contracts see the log as [`LogSlot`] shows it, and the numbers as a `SlotCount`.
#[derive(Drop)]
pub struct Slot<N: Naming> {
    kept: LogSlot<N>,
    /// How many messages the logs took that were closed here.
    closed: u64,
    /// Whether all messages were counted.
    exact: bool,
    /// Whether the driver has ended, and what was left was taken out: no log is open then, nor opens any more.
    settled: bool,
    left: Amount<N>,
    /// What the receivers of the log reported that is or was there last.
    reports: Reports,
}

impl<N: Naming> Model for Slot<N> {
    ghost use Rattle.log_slots.specs.Counting.{SlotCount};
    ghost use Rattle.log_slots.specs.Slots.{messages_in};
    ghost use Rattle.std.specs.Prelude.{◌≡◌, ◌+◌, ◌^◌, true, false, None};

    ghost Value = { SlotCount };

    ghost view = { λ slot. record { kept = slot.kept; closed = slot.closed; left = slot.left.number; exact = slot.exact; settled = slot.settled; reports = slot.reports } };

    ghost invariant = { λ slot. (slot.exact ≡ true → slot.left.number + (messages_in slot.kept.log + slot.closed) ≡ 2 ^ 55)
        × (slot.settled ≡ false → slot.left.parts ≡ 1)
        × (slot.settled ≡ true → slot.kept.log ≡ None) };
}

/// Whether the answer says that a log took a message.
fn is_taken(answer: &Answer) -> bool
    ensures { MatchBool result (taken_by answer.now ≡ 1) (taken_by answer.now ≡ 0) }
{
    matches!(answer, Answer::Offered(Offered::At(_)))
}

impl<N: Naming> Slot<N> {
    /// A slot in which no log was opened yet.
    pub fn new(left: Amount<N>) -> Slot<N>
        requires { left ≡ record { parts = 1; number = 2 ^ 55 } }
        ensures kept { (result.kept.source ≡ 0) × (result.kept.log ≡ None) }
        ensures counted { (result.closed ≡ 0) × (result.left ≡ 2 ^ 55) }
        ensures begins { (result.exact ≡ true) × (result.settled ≡ false) × (result.reports ≡ []) }
    {
        Slot {
            kept: LogSlot::new(),
            closed: 0,
            exact: true,
            settled: false,
            left,
            reports: Reports::new(),
        }
    }

    /// What holds whenever the lock is free: what [`LogSlot::holds`] says, and that what is left, the messages of the log that is
    /// open, and those of the logs that were closed here are 2^55, while all were counted.
    pub fn holds(&self)
        ensures own { IsSlot N.home self.now.kept.source self.now.kept.session self.now.kept.stream self.now.kept.log }
        ensures whole { IfSome self.now.kept.log (λ held. HasWhole held.log) }
        ensures layout { IfSome self.now.kept.log (λ held. HasLayout held.log) }
        ensures learnt { IfSome self.now.kept.log (λ held. AreOrderly held.recovery.learnt) }
        ensures counts { IsCounted self.now }
    {
        self.kept.holds();
    }

    /// A client offers a message, as [`LogSlot::offer`] says. One that the log took goes from what the slot has left to what the
    /// client counts. Where the slot has none left, or the client's number is at its greatest value, it is not counted, and
    /// `ended` has that from then on.
    pub fn offer(
        &mut self,
        mine: &mut Amount<N>,
        ended: &mut Option<AtEnd<N>>,
        timeout: u64,
        request: &Option<LogRequest>,
        now: u64,
        message: &[u8],
    ) -> Answered
        requires part { 0 < mine.old.parts }
        ensures moved { Moves (offer_under timeout request.now now message.now) (OfferedAs Closed) self.old.kept.log self.new.kept.log result.answer }
        ensures decides { DecidesIn (offer_decision_by request.now) self.old.kept.log result.decision }
        ensures parts { mine.new.parts ≡ mine.old.parts }
        ensures counted { Passes (taken_by result.answer) mine.old.number mine.new.number self.old.left self.new.left }
        ensures ended { (mine.new.number ≡ mine.old.number + taken_by result.answer) ⊎ IsSome ended.new }
        ensures exact { (self.new.exact ≡ self.old.exact) ⊎ IsFull mine.old.number self.old.left }
        ensures same { self.new ≡ record self.old { kept = record self.old.kept { log = self.new.kept.log }; left = self.new.left; exact = self.new.exact } }
    {
        if self.settled {
            return closed();
        }
        let Slot {
            kept,
            exact,
            left,
            ..
        } = self;
        let told = kept.offer(timeout, request, now, message);
        if is_taken(&told.answer) {
            if let Some(end) = left.pass_one(mine) {
                *exact = false;
                *ended = Some(end);
            }
        }
        told
    }

    /// A client polls the log of a source, as [`LogSlot::poll`] says.
    pub fn poll<V: View, A: Asks>(
        &mut self,
        view: &V,
        asker: &mut A,
        alloc: Global,
        client: u64,
        subscription: u64,
        source: u64,
        limit: u32,
    ) -> Result<Answered, AllocError>
        requires { A.is_right asker.old (V.shows view.now) }
        ensures moved { IfOk result (λ told. Moves (for_source source (poll_move (V.shows view.now) client subscription limit) Gone) Gone self.old.kept.log self.new.kept.log told.answer) }
        ensures decides { IfOk result (λ told. DecidesIn (decision_for source (poll_decision (V.shows view.now) client subscription)) self.old.kept.log told.decision) }
        ensures same { self.new ≡ record self.old { kept = record self.old.kept { log = self.new.kept.log } } }
        ensures right { A.is_right asker.new (V.shows view.now) }
        ensures err { OnErr result (self.new ≡ self.old) }
        ensures without_memory { OnErr result (GivesIn (for_source source (poll_move (V.shows view.now) client subscription limit) Gone) self.old.kept.log) }
    {
        self.kept
            .poll(view, asker, alloc, client, subscription, source, limit)
    }

    /// The sender has a turn with the log of a source, as [`LogSlot::send`] says.
    pub fn send<V: View>(
        &mut self,
        view: &V,
        alloc: Global,
        now: u64,
        source: u64,
    ) -> Result<Answer, AllocError>
        ensures moved { IfOk result (λ answer. Moves (for_source source (send_move (V.shows view.now) now) Gone) Gone self.old.kept.log self.new.kept.log answer) }
        ensures same { self.new ≡ record self.old { kept = record self.old.kept { log = self.new.kept.log } } }
        ensures err { OnErr result (self.new ≡ self.old) }
        ensures without_memory { OnErr result (GivesIn (for_source source (send_move (V.shows view.now) now) Gone) self.old.kept.log) }
    {
        self.kept.send(view, alloc, now, source)
    }

    /// A log opens here, that has taken no message yet, and of which nothing was reported yet.
    ///
    /// # Errors
    /// It is handed back where another log is open, or the driver has ended. Nothing is changed then.
    pub fn open(&mut self, log: OpenLog, session: i32, stream: i32) -> Result<(), OpenLog>
        requires home { (place_held log.log).home ≡ N.home }
        requires made { IsMadeFor session stream (made_held log.log) }
        requires fresh { messages_held log.log ≡ 0 }
        ensures free { OnOk result ((self.old.settled ≡ false) × (self.old.kept.log ≡ None)) }
        ensures opened { OnOk result (self.new ≡ record self.old { kept = record { source = log.source; session = session; stream = stream; log = Some log }; reports = [] }) }
        ensures full { OnErr result ((self.old.settled ≡ true) ⊎ (self.old.kept.log ≢ None)) }
        ensures err { IfErr result (λ back. (back ≡ log) × (self.new ≡ self.old)) }
    {
        if self.settled {
            return Err(log);
        }
        self.kept.open(log, session, stream)?;
        self.reports = Reports::new();
        Ok(())
    }

    /// The log of that source closes, if it is open here: it is handed out, with its lease. Its messages are among those of
    /// closed logs from now on.
    pub fn close(&mut self, source: u64) -> Option<OpenLog>
        ensures taken { result ≡ log_of source self.old.kept }
        ensures left { self.new ≡ record self.old { kept = without_log source self.old.kept; closed = self.new.closed } }
        ensures closed { self.old.exact ≡ true → self.new.closed ≡ self.old.closed + messages_in (log_of source self.old.kept) }
        ensures home { IfSome result (λ held. (place_held held.log).home ≡ N.home) }
    {
        let log = self.kept.close(source)?;
        self.closed = self.closed.saturating_add(log.messages());
        Some(log)
    }

    /// How far the log of that source reaches, if it is open here.
    pub fn reach(&self, source: u64) -> Option<u64>
        ensures { result ≡ reach_in source self.now.kept }
    {
        self.kept.reach(source)
    }

    /// Exactly these subscriptions read the log of that source, as [`LogSlot::rejoin`] says.
    pub fn rejoin(&mut self, source: u64, subscriptions: &[u64]) -> Option<u64>
        requires { length subscriptions.now ≤ 512 }
        ensures position { result ≡ reach_in source self.old.kept }
        ensures left { self.new ≡ record self.old { kept = with_readers source subscriptions.now self.old.kept } }
    {
        self.kept.rejoin(source, subscriptions)
    }

    /// How far the log of that source has come, if it is open here: whether it is connected, and what its receivers have taken
    /// that were heard, not longer before the moment `now` than `timeout`, both in nanoseconds.
    pub fn positions(&self, source: u64, now: u64, timeout: u64) -> Option<PublicationPositions>
        ensures { result ≡ positions_in source now timeout self.now.kept self.now.reports }
    {
        match self.kept.progress(source, now, timeout) {
            Some(progress) => Some(counted_as(progress, self.reports.least(now, timeout))),
            None => None,
        }
    }

    /// How far a subscription has come with the log of that source, as [`LogSlot::reading`] says.
    pub fn reading(&self, source: u64, subscription: u64) -> Option<ReadingPositions>
        ensures { result ≡ reading_in source subscription self.now.kept }
    {
        self.kept.reading(source, subscription)
    }

    /// A NAK or a status message comes for the log of a source, as [`LogSlot::packet`] says. What a status message reports that
    /// the log accepts is noted.
    pub fn packet(
        &mut self,
        alloc: Global,
        now: u64,
        from: &Address,
        packet: Packet<'_>,
        request: &PacketRequest,
    ) -> Result<Answered, AllocError>
        requires { IsSoundContent (content packet) }
        ensures moved { IfOk result (λ told. Hears (content packet.entry) (packet_move now from.now request.now (content packet.entry)) self.old.kept self.new.kept.log told.answer) }
        ensures decides { IfOk result (λ told. DecidesHeard (content packet.entry) (packet_decision request.now) self.old.kept told.decision) }
        ensures same { self.new ≡ record self.old { kept = record self.old.kept { log = self.new.kept.log }; reports = self.new.reports } }
        ensures noted { IfOk result (λ told. self.new.reports ≡ noted_if (is_limit told.answer) (consumed_in (content packet.entry) self.old.kept.log) now from.now self.old.reports) }
        ensures err { OnErr result (self.new ≡ self.old) }
        ensures without_memory { OnErr result (GivesHeard (content packet.entry) (packet_move now from.now request.now (content packet.entry)) self.old.kept) }
    {
        let consumed = self.kept.consumed(&packet);
        let told = self.kept.packet(alloc, now, from, packet, request)?;
        note_if(
            &mut self.reports,
            is_limit(&told.answer),
            consumed,
            now,
            from,
        );
        Ok(told)
    }

    /// The driver ends: what is left is taken out, and the log, if one is open, is let go. A second time there is none, and
    /// nothing is changed.
    pub fn settle(&mut self) -> Option<Amount<N>>
        ensures left_over { IfSome result (λ amount. (self.old.settled ≡ false) × (amount ≡ record { parts = 1; number = self.old.left })) }
        ensures none { IfNone result (self.old.settled ≡ true) }
        ensures left { self.new ≡ settled_of self.old }
    {
        if self.settled {
            return None;
        }
        self.kept.take();
        let empty = self.left.empty();
        let left = mem::replace(&mut self.left, empty);
        self.closed = 0;
        self.exact = false;
        self.settled = true;
        Some(left)
    }
}

ghost use Rattle.log_steps.specs.declared.answer.Answer.TheVariants.{Gone, Offered as OfferedAs};
ghost use Rattle.log_steps.specs.declared.answer.Offered.TheVariants.{Closed};
ghost use Rattle.log_steps.specs.Decided.{decision_for, offer_decision_by, poll_decision};
ghost use Rattle.log_steps.specs.Moves.{for_source, offer_under, poll_move};
ghost use Rattle.log_steps.specs.Packets.{IsSoundContent, packet_move};
ghost use Rattle.log_steps.specs.Receiving.{unheard};
ghost use Rattle.log_steps.specs.Reporting.{image_move};
ghost use Rattle.log_steps.specs.Sending.{send_move};
ghost use Rattle.frame_codec.specs.Datagram.{content};
ghost use Rattle.learnt_addresses.specs.Laws.{AreOrderly};
ghost use Rattle.log_slots.specs.Counting.{taken_by};
ghost use Rattle.log_slots.specs.Positions.{consumed_in, progress_in, reading_in};
ghost use Rattle.log_slots.specs.Slots.{DecidesHeard, DecidesIn, GivesHeard, GivesIn, Hears, IsMadeFor, IsSlot, Moves, is_of, is_silent_in, log_of, messages_in, packet_decision, reach_in, with_readers, without_log};
ghost use Rattle.log_traffic.specs.Held.{made_held, place_held};
ghost use Rattle.log_traffic.specs.Layout.{HasLayout};
ghost use Rattle.log_traffic.specs.Whole.{HasWhole};
ghost use Rattle.std.specs.Prelude.{◌≡◌, ◌≢◌, ◌+◌, ◌≤◌, length, None, Some, IfErr, IfOk, IfSome, OnErr, OnOk};

use crate::naming::Naming;
use crate::positions::{ReadingPositions, consumed_by};
use driver_core::{Address, Astray, LogRequest, View};
use frame_codec::Packet;
use log_steps::{
    Answer, Answered, Asks, Cause, Offered, OpenLog, PacketRequest, Progress, image_step,
    offer_step, packet_step, poll_step, send_step,
};
use std::alloc::{AllocError, Global};
use std::marker::{Model, PhantomData};

/// What the lock of a slot guards: a log that is open, or none, and the number, session and stream of the one that is
/// or was there last.
///
/// The log that is open has that number, is made for that session and stream, and its lease is of the region that `N` names.
#[derive(Drop)]
pub struct LogSlot<N: Naming> {
    source: u64,
    session: i32,
    stream: i32,
    log: Option<OpenLog>,
    of: PhantomData<N>,
}

impl<N: Naming> Model for LogSlot<N> {
    ghost use Rattle.log_slots.specs.Slots.{IsSlot, SlotLog};

    ghost Value = { SlotLog };

    ghost view = { λ slot. record { source = slot.source; session = slot.session; stream = slot.stream; log = slot.log } };

    ghost invariant = { λ slot. IsSlot N.home slot.source slot.session slot.stream slot.log };
}

/// No such subscription of the client reads a log that is open here.
fn gone() -> Answered
    ensures { result ≡ record { answer = Gone; decision = None } }
{
    Answered {
        answer: Answer::Gone,
        decision: None,
    }
}

/// The client's registration is with no log that is open here.
pub(crate) fn closed() -> Answered
    ensures { result ≡ record { answer = OfferedAs Closed; decision = None } }
{
    Answered {
        answer: Answer::Offered(Offered::Closed),
        decision: None,
    }
}

/// No log that is open here hears the datagram.
fn dropped() -> Answered
    ensures { result ≡ record { answer = unheard; decision = None } }
{
    Answered {
        answer: Answer::Dropped(Cause::Astray(Astray::NoStream)),
        decision: None,
    }
}

/// Whether the frames of a datagram are of that session and stream. Any other names what it is for by itself.
fn is_of(packet: &Packet<'_>, session: i32, stream: i32) -> bool
    ensures { result ≡ is_of session stream (content packet.now) }
{
    match packet {
        Packet::Data(frames) => {
            let mut left = *frames;
            match left.next() {
                Some(frame) => {
                    let place = frame.header.place;
                    place.session_id == session && place.stream_id == stream
                }
                None => false,
            }
        }
        _ => true,
    }
}

impl<N: Naming> LogSlot<N> {
    /// A slot in which no log was opened yet.
    pub fn new() -> LogSlot<N>
        ensures { (result.source ≡ 0) × (result.log ≡ None) }
    {
        LogSlot {
            source: 0,
            session: 0,
            stream: 0,
            log: None,
            of: PhantomData,
        }
    }

    /// What holds whenever the lock is free: a log that is open has the slot's number, is made for its session and stream, lies
    /// in the region that `N` names, stands for a whole log, and has learnt no address twice, and 32 at most. No two of its frames
    /// meet, each names its session and stream, beside them are zeros, and each reader stands where a frame begins, or as far as
    /// the log reaches.
    pub fn holds(&self)
        ensures own { IsSlot N.home self.now.source self.now.session self.now.stream self.now.log }
        ensures whole { IfSome self.now.log (λ held. HasWhole held.log) }
        ensures layout { IfSome self.now.log (λ held. HasLayout held.log) }
        ensures learnt { IfSome self.now.log (λ held. AreOrderly held.recovery.learnt) }
    {
        if let Some(log) = &self.log {
            log.has_whole();
            log.learns_orderly();
        }
    }

    /// A log opens here.
    ///
    /// # Errors
    /// It is handed back where another log is open. Nothing is changed then.
    pub fn open(&mut self, log: OpenLog, session: i32, stream: i32) -> Result<(), OpenLog>
        requires home { (place_held log.log).home ≡ N.home }
        requires made { IsMadeFor session stream (made_held log.log) }
        ensures opened { OnOk result ((self.old.log ≡ None) × (self.new ≡ record { source = log.source; session = session; stream = stream; log = Some log })) }
        ensures full { OnErr result (self.old.log ≢ None) }
        ensures err { IfErr result (λ back. (back ≡ log) × (self.new ≡ self.old)) }
    {
        if self.log.is_some() {
            return Err(log);
        }
        self.source = log.source();
        self.session = session;
        self.stream = stream;
        self.log = Some(log);
        Ok(())
    }

    /// The log, if one is open: it is handed out, with its lease.
    pub(crate) fn take(&mut self) -> Option<OpenLog>
        ensures taken { result ≡ self.old.log }
        ensures left { self.new ≡ record self.old { log = None } }
    {
        self.log.take()
    }

    /// The log of that source closes, if it is open here: it is handed out, with its lease.
    pub fn close(&mut self, source: u64) -> Option<OpenLog>
        ensures taken { result ≡ log_of source self.old }
        ensures left { self.new ≡ without_log source self.old }
        ensures home { IfSome result (λ held. (place_held held.log).home ≡ N.home) }
    {
        if self.source != source {
            return None;
        }
        self.log.take()
    }

    /// How far the log of that source reaches, if it is open here.
    pub fn reach(&self, source: u64) -> Option<u64>
        ensures { result ≡ reach_in source self.now }
    {
        if self.source != source {
            return None;
        }
        match &self.log {
            Some(log) => Some(log.reach()),
            None => None,
        }
    }

    /// Exactly these subscriptions read the log of that source from now on, if it is open here: one that read it before from
    /// where it is, a new one from as far as the log reaches: that position is given back.
    pub fn rejoin(&mut self, source: u64, subscriptions: &[u64]) -> Option<u64>
        requires { length subscriptions.now ≤ 512 }
        ensures position { result ≡ reach_in source self.old }
        ensures left { self.new ≡ with_readers source subscriptions.now self.old }
        ensures messages { messages_in self.new.log ≡ messages_in self.old.log }
    {
        if self.source != source {
            return None;
        }
        let Some(log) = &mut self.log else {
            return None;
        };
        let position = log.reach();
        log.rejoin(subscriptions);
        Some(position)
    }

    /// Whether the log of that source is open here, and is that of an image whose publisher was not heard for longer than
    /// `limit` nanoseconds.
    pub fn is_silent(&self, source: u64, now: u64, limit: u64) -> bool
        ensures { result ≡ is_silent_in source now limit self.now }
    {
        if self.source != source {
            return false;
        }
        match &self.log {
            Some(log) => log.is_silent(now, limit),
            None => false,
        }
    }

    /// How far the log of that source has come, if it is open here and that of a publication, and whether it is connected at
    /// the moment `now`, where the last status message stands for `timeout`, both in nanoseconds.
    pub fn progress(&self, source: u64, now: u64, timeout: u64) -> Option<Progress>
        ensures { result ≡ progress_in source now timeout self.now }
    {
        if self.source != source {
            return None;
        }
        match &self.log {
            Some(log) => log.progress(now, timeout),
            None => None,
        }
    }

    /// How far a subscription has come with the log of that source, if it is open here and the subscription reads it.
    pub fn reading(&self, source: u64, subscription: u64) -> Option<ReadingPositions>
        ensures { result ≡ reading_in source subscription self.now }
    {
        if self.source != source {
            return None;
        }
        match &self.log {
            Some(log) => match log.pair_position(subscription) {
                Some(position) => Some(ReadingPositions {
                    position,
                    received: log.reach(),
                }),
                None => None,
            },
            None => None,
        }
    }

    /// Up to which position a receiver has taken all that reports to the log by a datagram, if one is open.
    pub(crate) fn consumed(&self, packet: &Packet<'_>) -> Option<u64>
        ensures { result ≡ consumed_in (content packet.now) self.now.log }
    {
        match &self.log {
            Some(log) => consumed_by(log, packet),
            None => None,
        }
    }

    /// A client offers a message, as [`offer_step`] says.
    pub fn offer(
        &mut self,
        timeout: u64,
        request: &Option<LogRequest>,
        now: u64,
        message: &[u8],
    ) -> Answered
        ensures moved { Moves (offer_under timeout request.now now message.now) (OfferedAs Closed) self.old.log self.new.log result.answer }
        ensures decides { DecidesIn (offer_decision_by request.now) self.old.log result.decision }
        ensures same { self.new ≡ record self.old { log = self.new.log } }
        ensures messages { messages_in self.new.log ≡ messages_in self.old.log + taken_by result.answer }
    {
        let Some(log) = &mut self.log else {
            return closed();
        };
        log.has_whole();
        offer_step(log, timeout, request, now, message)
    }

    /// A client polls the log of a source, as [`poll_step`] says.
    pub fn poll<V: View, A: Asks>(
        &mut self,
        view: &V,
        asker: &mut A,
        alloc: Global,
        client: u64,
        subscription: u64,
        source: u64,
        limit: u32,
    ) -> Result<Answered, AllocError>
        requires { A.is_right asker.old (V.shows view.now) }
        ensures moved { IfOk result (λ told. Moves (for_source source (poll_move (V.shows view.now) client subscription limit) Gone) Gone self.old.log self.new.log told.answer) }
        ensures decides { IfOk result (λ told. DecidesIn (decision_for source (poll_decision (V.shows view.now) client subscription)) self.old.log told.decision) }
        ensures same { self.new ≡ record self.old { log = self.new.log } }
        ensures messages { messages_in self.new.log ≡ messages_in self.old.log }
        ensures right { A.is_right asker.new (V.shows view.now) }
        ensures err { OnErr result (self.new ≡ self.old) }
        ensures without_memory { OnErr result (GivesIn (for_source source (poll_move (V.shows view.now) client subscription limit) Gone) self.old.log) }
    {
        let Some(log) = &mut self.log else {
            return Ok(gone());
        };
        log.has_whole();
        poll_step(view, log, asker, alloc, client, subscription, source, limit)
    }

    /// A datagram comes for the log of a source, as [`packet_step`] says: data, a heartbeat, a NAK or a status message. Frames
    /// that are not of the session and the stream of the log that is open are not heard.
    ///
    /// What was decided is what the request says, where the log of its source is open; else nothing.
    ///
    /// # Errors
    /// Nothing is changed where there is no memory for what the log gives: a word for each frame of data, or the datagrams that
    /// go out on a NAK. Any other datagram takes none.
    pub fn packet(
        &mut self,
        alloc: Global,
        now: u64,
        from: &Address,
        packet: Packet<'_>,
        request: &PacketRequest,
    ) -> Result<Answered, AllocError>
        requires { IsSoundContent (content packet) }
        ensures moved { IfOk result (λ told. Hears (content packet.entry) (packet_move now from.now request.now (content packet.entry)) self.old self.new.log told.answer) }
        ensures decides { IfOk result (λ told. DecidesHeard (content packet.entry) (packet_decision request.now) self.old told.decision) }
        ensures same { self.new ≡ record self.old { log = self.new.log } }
        ensures messages { messages_in self.new.log ≡ messages_in self.old.log }
        ensures err { OnErr result (self.new ≡ self.old) }
        ensures without_memory { OnErr result (GivesHeard (content packet.entry) (packet_move now from.now request.now (content packet.entry)) self.old) }
    {
        let Some(log) = &mut self.log else {
            return Ok(dropped());
        };
        if !is_of(&packet, self.session, self.stream) {
            return Ok(dropped());
        }
        log.has_whole();
        packet_step(log, alloc, now, from, packet, request)
    }

    /// The sender has a turn with the log of a source, as [`send_step`] says.
    pub fn send<V: View>(
        &mut self,
        view: &V,
        alloc: Global,
        now: u64,
        source: u64,
    ) -> Result<Answer, AllocError>
        ensures moved { IfOk result (λ answer. Moves (for_source source (send_move (V.shows view.now) now) Gone) Gone self.old.log self.new.log answer) }
        ensures same { self.new ≡ record self.old { log = self.new.log } }
        ensures messages { messages_in self.new.log ≡ messages_in self.old.log }
        ensures err { OnErr result (self.new ≡ self.old) }
        ensures without_memory { OnErr result (GivesIn (for_source source (send_move (V.shows view.now) now) Gone) self.old.log) }
    {
        let Some(log) = &mut self.log else {
            return Ok(Answer::Gone);
        };
        log.has_whole();
        send_step(view, log, alloc, now, source)
    }

    /// The receiver has a turn with the log of a source, as [`image_step`] says.
    pub fn image<V: View>(
        &mut self,
        view: &V,
        alloc: Global,
        now: u64,
        source: u64,
    ) -> Result<Answer, AllocError>
        ensures moved { IfOk result (λ answer. Moves (for_source source (image_move (V.shows view.now) now) Gone) Gone self.old.log self.new.log answer) }
        ensures same { self.new ≡ record self.old { log = self.new.log } }
        ensures messages { messages_in self.new.log ≡ messages_in self.old.log }
        ensures err { OnErr result (self.new ≡ self.old) }
        ensures without_memory { OnErr result (GivesIn (for_source source (image_move (V.shows view.now) now) Gone) self.old.log) }
    {
        let Some(log) = &mut self.log else {
            return Ok(Answer::Gone);
        };
        log.has_whole();
        image_step(view, log, alloc, now, source)
    }
}

//! The open logs of a driver, in one arena.

ghost use Rattle.driver_core.specs.LogRequests.{offering_of};
ghost use Rattle.driver_core.specs.Pairs.{pairs_of as all_pairs};
ghost use Rattle.driver_core.specs.Readers.{readers_of};
ghost use Rattle.driver_steps.specs.OpenLogs.{IsOpened, is_closed, is_kept, place_at, plots_of, rejoined_held, with_readers, without, DecidesFirst, GivesFirst, MovesFirst, IsForFirst};
ghost use Rattle.log_steps.specs.Decided.{offer_decision, poll_decision};
ghost use Rattle.log_steps.specs.Idents.{heard_at};
ghost use Rattle.log_steps.specs.declared.answer.Answer.TheVariants.{Gone, Offered as OfferedAs};
ghost use Rattle.log_steps.specs.declared.answer.Offered.TheVariants.{Closed};
ghost use Rattle.log_steps.specs.Moves.{offer_move, poll_move};
ghost use Rattle.log_steps.specs.Packets.{content_move};
ghost use Rattle.log_steps.specs.Plots.{IsLeastVacant, taken_pages};
ghost use Rattle.log_steps.specs.Receiving.{unheard};
ghost use Rattle.log_steps.specs.Recovery.{recovering};
ghost use Rattle.log_steps.specs.Reporting.{image_move};
ghost use Rattle.log_steps.specs.Sending.{send_move};
ghost use Rattle.frame_codec.specs.Datagram.{content};
ghost use Rattle.image_log.specs.Rebuilt.{opened};
ghost use Rattle.log_arena.specs.Pages.{holes_of};
ghost use Rattle.log_traffic.specs.Whole.{rebuilt, whole};
ghost use Rattle.std.specs.Prelude.{◌≡◌, ℕ, ◌*◌, ◌%◌, ◌^◌, ◌<◌, ◌≤◌, [], length, map, filter, IfOk, OnOk, OnErr, Some};
ghost use Rattle.stream_registry.specs.LogPages.{pages_of};
ghost use Rattle.term_log.specs.Ident.{IsIdent};
ghost use Rattle.term_log.specs.Whole.{fresh};

use driver_core::{Address, Astray, LogRequest, Registry, Settings, View};
use frame_codec::Packet;
use image_log::ImageRoom;
use log_arena::Arena;
use log_steps::{
    Answer, Answered, Asks, Cause, Offered, OpenLog, PacketRequest, image_step, offer_asked,
    packet_step, poll_step, send_own,
};
use rows::Rows;
use std::alloc::{AllocError, Global};
use std::marker::Model;
use stream_registry::LogPlace;
use term_log::{Ident, LogRoom};

/// The open logs, each in a lease of one arena, of which no other page has a lease.
///
/// Contracts see how many pages the arena has, the logs in the order in which they were opened, and for how many of them
/// there is room.
#[derive(Drop)]
pub(crate) struct OpenLogs {
    arena: Arena,
    logs: Vec<OpenLog>,
}

impl Model for OpenLogs {
    ghost use Rattle.driver_steps.specs.OpenLogs.{HeldLogs, plots_of, IsForFirst};
    ghost use Rattle.log_steps.specs.Packets.{content_move};
    ghost use Rattle.log_steps.specs.Plots.{AreHoused};
    ghost use Rattle.std.specs.Vec.{vec_capacity};

    ghost Value = { HeldLogs };

    ghost view = { λ held. record {
      pages = held.arena.home.pages;
      logs = held.logs.items;
      room = vec_capacity held.logs;
    } };

    ghost invariant = { λ held. AreHoused held.arena (plots_of held.logs.items) };
}

/// Where the first log of that source is in the list.
fn place_of(logs: &[OpenLog], source: u64) -> Option<usize>
    ensures { result ≡ place_at logs.now source }
{
    logs.iter().position(|open| open.source() == source)
}

/// Whether the source is one of those that close.
fn is_closed(closes: &[LogPlace], source: u64) -> bool
    ensures { result ≡ is_closed closes.now source }
{
    closes.iter().any(|closed| closed.source == source)
}

impl OpenLogs {
    /// No log is open yet. There are `pages` pages for all of them, from 1 to 65,536.
    pub(crate) fn new(alloc: Global, pages: usize) -> Result<OpenLogs, AllocError>
        requires { (0 < pages) × (pages ≤ 65536) }
        ensures { IfOk result (λ held. held ≡ record { pages = pages; logs = []; room = 0 }) }
    {
        Ok(OpenLogs {
            arena: Arena::new(alloc, pages)?,
            logs: Vec::new(alloc),
        })
    }

    /// The logs.
    pub(crate) fn as_slice(&self) -> &[OpenLog]
        ensures { result.now ≡ self.now.logs }
    {
        self.logs.as_slice()
    }

    /// The maximal runs of pages that no log has, each as its place and its length in bytes, ascending.
    pub(crate) fn holes(&self) -> &[(usize, usize)]
        ensures { result.now ≡ holes_of (taken_pages self.now.pages (plots_of self.now.logs)) }
    {
        self.arena.holes()
    }

    /// Takes room for one log more.
    pub(crate) fn reserve(&mut self) -> Result<(), AllocError>
        ensures same { self.new ≡ record self.old { room = self.new.room } }
        ensures room { OnOk result (length self.new.logs < self.new.room) }
    {
        self.logs.reserve(1)
    }

    /// Opens a log without frames after the others, in the pages from `place` on, which is the least place for them, and
    /// in memory that was taken before.
    pub(crate) fn open(
        &mut self,
        memory: LogRoom,
        source: u64,
        place: u64,
        ident: Ident,
        settings: Settings,
    )
        requires ident { IsIdent ident }
        requires whole { ident.term_length % 4096 ≡ 0 }
        requires vacant { IsLeastVacant self.old.pages (plots_of self.old.logs) (pages_of ident.term_length) place }
        requires room { length self.old.logs < self.old.room }
        ensures { IsOpened self.old self.new source place (whole (fresh ident)) (recovering settings) }
    {
        let Ok(lease) = self.arena.lease(3 * ident.term_length as usize) else {
            // the place is there
            unreachable!()
        };
        let log = OpenLog::of_publication(memory, lease, source, ident, settings);
        self.logs.push_reserved(log);
    }

    /// Opens the log of a remote stream without frames after the others, which joins at that position, and whose sender is
    /// heard at the moment `now`, as [`OpenLogs::open`] opens that of a publication.
    pub(crate) fn open_image(
        &mut self,
        memory: ImageRoom,
        source: u64,
        place: u64,
        ident: image_log::Ident,
        join: u64,
        now: u64,
        settings: Settings,
    )
        requires memory { memory ≡ 3 * ident.term_length }
        requires terms { (65536 ≤ ident.term_length) × (ident.term_length ≤ 16777216) }
        requires whole { ident.term_length % 4096 ≡ 0 }
        requires join { (join % 32 ≡ 0) × (join < ident.term_length * 2 ^ 31) }
        requires vacant { IsLeastVacant self.old.pages (plots_of self.old.logs) (pages_of ident.term_length) place }
        requires room { length self.old.logs < self.old.room }
        ensures { IsOpened self.old self.new source place (rebuilt (heard_at now (opened ident join))) (recovering settings) }
    {
        let Ok(lease) = self.arena.lease(3 * ident.term_length as usize) else {
            // the place is there
            unreachable!()
        };
        let log = OpenLog::of_image(memory, lease, source, ident, join, now, settings);
        self.logs.push_reserved(log);
    }

    /// Closes the log at that place of the list: its pages are free again.
    fn close_at(&mut self, at: usize)
        requires { at < length self.old.logs }
        ensures { self.new ≡ record self.old { logs = without at self.old.logs } }
    {
        let open = self.logs.remove(at);
        self.arena.give(open.close());
    }

    /// Closes these logs: their pages are free again.
    pub(crate) fn close(&mut self, closes: &[LogPlace])
        ensures { self.new ≡ record self.old { logs = filter (is_kept closes.now) self.old.logs } }
    {
        let mut at = 0;
        while at < self.logs.len() {
            if is_closed(closes, self.logs[at].source()) {
                self.close_at(at);
            } else {
                at += 1;
            }
        }
    }

    /// Exactly these subscriptions read the log at that place of the list.
    fn rejoin_at(&mut self, at: usize, subscriptions: &[u64])
        requires at { at < length self.old.logs }
        requires few { length subscriptions.now ≤ 512 }
        ensures { self.new ≡ record self.old { logs = with_readers at subscriptions.now self.old.logs } }
    {
        self.logs[at].rejoin(subscriptions);
    }

    /// Exactly the subscriptions read the logs that the registry says. `room` is there for those of one log.
    pub(crate) fn rejoin(&mut self, registry: &Registry, room: &mut Rows<u64, 512>)
        requires { (source : ℕ) → length (readers_of (all_pairs registry.now) source) ≤ 512 }
        ensures { self.new ≡ record self.old { logs = map (rejoined_held (all_pairs registry.now)) self.old.logs } }
    {
        for at in 0..self.logs.len() {
            registry.readers(self.logs[at].source(), room);
            self.rejoin_at(at, room.as_slice());
        }
    }

    /// A client offers a message to the first log of the source that its registration is with, where whom it asks answered
    /// that, as [`offer_asked`] says.
    #[inline(always)]
    pub(crate) fn offer<V: View>(
        &mut self,
        view: &V,
        now: u64,
        client: u64,
        registration: u64,
        request: &LogRequest,
        message: &[u8],
    ) -> Answered
        requires { offering_of (V.shows view.now) client registration ≡ Some request.now }
        ensures moved { MovesFirst request.now.source (offer_move (V.shows view.now) now client registration message.now) (OfferedAs Closed) self.old self.new result.answer }
        ensures decides { DecidesFirst request.now.source (offer_decision (V.shows view.now) client registration) result.decision self.old }
    {
        let Some(at) = place_of(self.logs.as_slice(), request.source) else {
            return Answered {
                answer: Answer::Offered(Offered::Closed),
                decision: None,
            };
        };
        offer_asked(
            view,
            &mut self.logs[at],
            now,
            client,
            registration,
            request,
            message,
        )
    }

    /// A client polls the first log of that source, as [`poll_step`] says.
    pub(crate) fn poll<V: View, A: Asks>(
        &mut self,
        view: &V,
        asker: &mut A,
        alloc: Global,
        source: u64,
        client: u64,
        subscription: u64,
        limit: u32,
    ) -> Result<Answered, AllocError>
        requires { A.is_right asker.old (V.shows view.now) }
        ensures moved { IfOk result (λ told. MovesFirst source (poll_move (V.shows view.now) client subscription limit) Gone self.old self.new told.answer) }
        ensures decides { IfOk result (λ told. DecidesFirst source (poll_decision (V.shows view.now) client subscription) told.decision self.old) }
        ensures err { OnErr result (self.new ≡ self.old) }
        ensures without_memory { OnErr result (GivesFirst source (poll_move (V.shows view.now) client subscription limit) self.old) }
        ensures right { A.is_right asker.new (V.shows view.now) }
    {
        let Some(at) = place_of(self.logs.as_slice(), source) else {
            return Ok(Answered {
                answer: Answer::Gone,
                decision: None,
            });
        };
        poll_step(
            view,
            &mut self.logs[at],
            asker,
            alloc,
            client,
            subscription,
            source,
            limit,
        )
    }

    /// A datagram comes to the first log of the source that it is for, as [`packet_step`] says.
    #[inline(always)]
    pub(crate) fn packet(
        &mut self,
        alloc: Global,
        now: u64,
        from: &Address,
        packet: Packet<'_>,
        request: &PacketRequest,
    ) -> Result<Answered, AllocError>
        requires { IsForFirst self.old.logs request.now.source (content packet) }
        ensures moved { IfOk result (λ told. MovesFirst request.now.source (content_move now from.now request.now.decision (content packet.entry)) unheard self.old self.new told.answer) }
        ensures decides { IfOk result (λ told. DecidesFirst request.now.source (λ log. request.now.decision) told.decision self.old) }
        ensures err { OnErr result (self.new ≡ self.old) }
        ensures without_memory { OnErr result (GivesFirst request.now.source (content_move now from.now request.now.decision (content packet.entry)) self.old) }
    {
        let Some(at) = place_of(self.logs.as_slice(), request.source) else {
            return Ok(Answered {
                answer: Answer::Dropped(Cause::Astray(Astray::NoStream)),
                decision: None,
            });
        };
        packet_step(&mut self.logs[at], alloc, now, from, packet, request)
    }

    /// The sender has a turn with the first log of that source, as [`send_own`] says.
    #[inline(always)]
    pub(crate) fn send<V: View>(
        &mut self,
        view: &V,
        alloc: Global,
        source: u64,
        now: u64,
    ) -> Result<Answer, AllocError>
        ensures moved { IfOk result (λ answer. MovesFirst source (send_move (V.shows view.now) now) Gone self.old self.new answer) }
        ensures err { OnErr result (self.new ≡ self.old) }
        ensures without_memory { OnErr result (GivesFirst source (send_move (V.shows view.now) now) self.old) }
    {
        let Some(at) = place_of(self.logs.as_slice(), source) else {
            return Ok(Answer::Gone);
        };
        send_own(view, &mut self.logs[at], alloc, now)
    }

    /// The receiver has a turn with the first log of that source, as [`image_step`] says.
    pub(crate) fn image<V: View>(
        &mut self,
        view: &V,
        alloc: Global,
        source: u64,
        now: u64,
    ) -> Result<Answer, AllocError>
        ensures moved { IfOk result (λ answer. MovesFirst source (image_move (V.shows view.now) now) Gone self.old self.new answer) }
        ensures err { OnErr result (self.new ≡ self.old) }
        ensures without_memory { OnErr result (GivesFirst source (image_move (V.shows view.now) now) self.old) }
    {
        let Some(at) = place_of(self.logs.as_slice(), source) else {
            return Ok(Answer::Gone);
        };
        image_step(view, &mut self.logs[at], alloc, now, source)
    }
}

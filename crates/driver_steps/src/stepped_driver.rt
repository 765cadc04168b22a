ghost use Rattle.std.specs.Prelude.{◌≡◌, ℕ, ◌≤◌, length, None, Ok, IfOk, OnErr, option_copied};
ghost use Rattle.driver_core.specs.Conduct.{conduct, outcome_of};
ghost use Rattle.driver_core.specs.Listing.{value};
ghost use Rattle.driver_core.specs.Pairs.{pairs_of};
ghost use Rattle.driver_core.specs.Soundness.{AreSettings, IsSound, MovesLogs};
ghost use Rattle.driver_steps.specs.Ends.{inputs_of, looks_at};
ghost use Rattle.driver_core.specs.Readers.{readers_of};
ghost use Rattle.driver_steps.specs.OpenLogs.{inputs_held};
ghost use Rattle.log_steps.specs.declared.answer.Answer.TheVariants.{Dropped};
ghost use Rattle.log_steps.specs.declared.cause.Cause.TheVariants.{Unread};
ghost use Rattle.driver_steps.specs.Opening.{CanOpen, Follows, HasRoom, place_of};

use crate::by_view::{offer_by, packet_by, poll_by, report_by, send_by};
use crate::caches::{CACHES, caches};
use crate::inputs::inputs_of;
use crate::open_logs::OpenLogs;
use crate::opening::{Opening, open_next, prepare};
use crate::requests::request_by;
use decision_cache::Cache;
use driver_core::{
    Address, Entry, Event, Peer, Registry, Settings, both, cached_verdicts_stay_right,
};
use frame_codec::{BadPacket, Packet, frames_are_of_one_term, frames_are_told};
use log_steps::{Answer, Answered, Came, Cause, Looked, OpenLog, Uncached};
use policy_core::Policy;
use rows::Rows;
use std::alloc::{AllocError, Global};
use std::marker::Model;
use stream_registry::LogPlace;

/// A driver that is run step by step.
#[derive(Drop)]
pub struct SteppedDriver {
    registry: Registry,
    logs: OpenLogs,
    /// Room for the subscriptions that read one log.
    room: Rows<u64, 512>,
    /// What clients were answered of offers and polls, each by its own cache.
    caches: Vec<Cache>,
}

impl Model for SteppedDriver {
    ghost use Rattle.driver_steps.specs.Caching.{AllCached};
    ghost use Rattle.driver_steps.specs.Standing.{Held, Match};

    ghost Value = { Held };

    ghost view = { λ driver. record { registry = driver.registry; logs = driver.logs.logs } };

    ghost invariant = { λ driver. Match driver.registry driver.logs × AllCached driver.registry driver.caches.items };
}

/// Decides the event on the registry, where the logs are these.
fn plan_for(
    registry: &Registry,
    alloc: Global,
    event: &Event,
    logs: &[OpenLog],
) -> Result<Entry, AllocError>
    ensures exact { IfOk result (λ entry. entry ≡ record { event = event.now; inputs = inputs_held registry.now event.now logs.now; outcome = outcome_of registry.now event.now (inputs_held registry.now event.now logs.now) }) }
    ensures moves { IfOk result (λ entry. IsSound registry.now → MovesLogs registry.now (conduct registry.now event.now (inputs_held registry.now event.now logs.now))) }
{
    let inputs = inputs_of(alloc, registry, event, logs)?;
    let planned = registry.plan(alloc, event, &inputs);
    drop(inputs);
    planned
}

/// The logs follow an event that left this registry: the log that it opens is opened before those are closed that it
/// closes, and then exactly the pairs read. It takes no memory.
fn follow(
    logs: &mut OpenLogs,
    room: &mut Rows<u64, 512>,
    after: &Registry,
    event: &Event,
    opening: Option<Opening>,
    closes: &[LogPlace],
)
    requires opens { CanOpen logs.old after.now event.now (place_of opening) }
    requires room { HasRoom logs.old event.now opening }
    requires few { (source : ℕ) → length (readers_of (pairs_of after.now) source) ≤ 512 }
    ensures { Follows logs.old logs.new after.now (place_of opening) closes.now }
{
    open_next(logs, after, event, opening);
    logs.close(closes);
    logs.rejoin(after, room);
}

/// The registry that an actor looks at: the older one that it names, or the newest.
fn looked_at<'a>(newest: &'a Registry, older: Option<&'a Registry>) -> &'a Registry
    ensures { result.now ≡ looks_at newest.now (option_copied older.entry) }
{
    match older {
        None => newest,
        Some(older) => older,
    }
}

/// The bytes are no datagram, by that fault.
fn unread(fault: BadPacket) -> Answered
    ensures { result ≡ record { answer = Dropped (Unread fault); decision = None } }
{
    Answered {
        answer: Answer::Dropped(Cause::Unread(fault)),
        decision: None,
    }
}

impl SteppedDriver {
    ghost use Rattle.driver_steps.specs.Ends.{on_packet, opening_end};
    ghost use Rattle.driver_steps.specs.Coming.{Comes, content_decided};
    ghost use Rattle.driver_steps.specs.EndDecisions.{DecidesAs, DecidesUnless, LeavesOut, offer_decided, poll_decided, under};
    ghost use Rattle.log_steps.specs.Decided.{shown_decision};
    ghost use Rattle.driver_steps.specs.Requests.{IsOpenContent};
    ghost use Rattle.log_steps.specs.Packets.{IsSoundContent};
    ghost use Rattle.driver_steps.specs.Standing.{StandsForEnd, Serves, ServesAs, Takes, pages_of_logs};
    ghost use Rattle.driver_steps.specs.declared.step.Step.TheVariants.{Offer, Poll, Send, Image, List as Lists, Value};
    ghost use Rattle.frame_codec.specs.Datagram.{content, packet_of};
    ghost use Rattle.frame_codec.specs.Steps.{Equals};
    ghost use Rattle.log_arena.specs.Pages.{holes_of};

    /// A driver to which nothing happened yet.
    #[tactic(auto, unfolding(crate::specs::Ends::opening_end))]
    pub fn new(
        alloc: Global,
        settings: Settings,
        policy: Policy,
        peers: &[Peer],
    ) -> Result<SteppedDriver, AllocError>
        requires { AreSettings settings }
        ensures { IfOk result (λ driver. StandsForEnd driver (opening_end settings policy peers.now)) }
    {
        cached_verdicts_stay_right();
        let parts = both(
            Registry::new(alloc, settings, policy, peers)?,
            OpenLogs::new(alloc, settings.arena_pages as usize),
        )?;
        let parts = both(parts, Rows::new(alloc))?;
        let (((registry, logs), room), caches) = both(parts, caches(alloc))?;
        Ok(SteppedDriver {
            registry,
            logs,
            room,
            caches,
        })
    }

    /// The maximal runs of pages that no live log has, each as its place and its length in bytes, ascending: where a
    /// further log may lie. It takes no memory.
    pub fn holes(&self) -> &[(usize, usize)]
        ensures { result.now ≡ holes_of (pages_of_logs self.now.registry) }
    {
        self.logs.holes()
    }

    /// The newest registry.
    pub fn registry(&self) -> &Registry
        ensures { result.now ≡ self.now.registry }
    {
        &self.registry
    }

    /// The conductor takes an event, and the logs follow. All memory that this needs is taken before anything is changed. What
    /// is handed back is the event with what the logs said at it, and all that it reports.
    pub fn take(&mut self, alloc: Global, event: &Event) -> Result<Entry, AllocError>
        ensures taken { IfOk result (λ entry. Takes self.old self.new event.now entry.outcome) }
        ensures event_is { IfOk result (λ entry. entry.event ≡ event.now) }
        ensures inputs_are { IfOk result (λ entry. entry.inputs ≡ inputs_held self.old.registry event.now self.old.logs) }
        ensures err { OnErr result (self.new ≡ self.old) }
    {
        cached_verdicts_stay_right();
        let entry = plan_for(&self.registry, alloc, event, self.logs.as_slice())?;
        let opening = match prepare(&mut self.logs, alloc, event, entry.outcome.opens) {
            Ok(opening) => opening,
            Err(error) => {
                drop(entry);
                return Err(error);
            }
        };
        self.registry.apply(&entry);
        follow(
            &mut self.logs,
            &mut self.room,
            &self.registry,
            event,
            opening,
            entry.outcome.closes.as_slice(),
        );
        Ok(entry)
    }

    /// A client offers a message, by the newest registry and the client's cache, or by the older registry that it looked at,
    /// which is asked anew: the caches are of the newest. It takes no memory.
    pub fn offer(
        &mut self,
        older: Option<&Registry>,
        now: u64,
        client: u64,
        registration: u64,
        message: &[u8],
    ) -> Answered
        ensures serves { Serves (looks_at self.old.registry (option_copied older.entry)) self.old self.new (Offer now client registration message.now) result.answer }
        ensures decides { DecidesAs (under self.old (looks_at self.old.registry (option_copied older.entry))) (λ e. offer_decided e client registration) result.decision }
    {
        match older {
            None => offer_by(
                &self.registry,
                &mut self.logs,
                &mut self.caches[(client % CACHES) as usize],
                now,
                client,
                registration,
                message,
            ),
            Some(older) => offer_by(
                older,
                &mut self.logs,
                &mut Uncached,
                now,
                client,
                registration,
                message,
            ),
        }
    }

    /// A client polls a log, by the newest registry and the client's cache, or by the older registry, which is asked anew.
    pub fn poll(
        &mut self,
        older: Option<&Registry>,
        alloc: Global,
        _now: u64,
        client: u64,
        subscription: u64,
        source: u64,
        limit: u32,
    ) -> Answered
        ensures serves { Serves (looks_at self.old.registry (option_copied older.entry)) self.old self.new (Poll _now client subscription source limit) result.answer }
        ensures decides { DecidesUnless (under self.old (looks_at self.old.registry (option_copied older.entry))) (λ e. poll_decided e client subscription source) result.answer result.decision }
    {
        match older {
            None => poll_by(
                &self.registry,
                &mut self.logs,
                &mut self.caches[(client % CACHES) as usize],
                alloc,
                client,
                subscription,
                source,
                limit,
            ),
            Some(older) => poll_by(
                older,
                &mut self.logs,
                &mut Uncached,
                alloc,
                client,
                subscription,
                source,
                limit,
            ),
        }
    }

    /// The sender has a turn with a publication, by the newest registry or by the older one.
    pub fn send(&mut self, older: Option<&Registry>, alloc: Global, now: u64, source: u64) -> Answer
        ensures { Serves (looks_at self.old.registry (option_copied older.entry)) self.old self.new (Send now source) result }
    {
        let registry = looked_at(&self.registry, older);
        send_by(registry, &mut self.logs, alloc, now, source)
    }

    /// The receiver has a turn with an image, by the newest registry or by the older one.
    pub fn report(
        &mut self,
        older: Option<&Registry>,
        alloc: Global,
        now: u64,
        source: u64,
    ) -> Answer
        ensures { Serves (looks_at self.old.registry (option_copied older.entry)) self.old self.new (Image now source) result }
    {
        let registry = looked_at(&self.registry, older);
        report_by(registry, &mut self.logs, alloc, now, source)
    }

    /// A client looks at the counters that it may see, by the newest registry or by the older one. The decisions by which the
    /// others are left out are reported.
    pub fn list(&self, older: Option<&Registry>, alloc: Global, _now: u64, client: u64) -> Looked
        ensures serves { Serves (looks_at self.now.registry (option_copied older.entry)) self.now self.now (Lists _now client) result.answer }
        ensures leaves_out { LeavesOut (looks_at self.now.registry (option_copied older.entry)) client result.answer result.denials }
    {
        let registry = looked_at(&self.registry, older);
        let Ok(denials) = registry.left_out(alloc, client) else {
            return Looked::refused(alloc);
        };
        match registry.list(alloc, client) {
            Ok(listed) => Looked {
                answer: Answer::listed(listed),
                denials,
            },
            Err(_) => Looked::refused(alloc),
        }
    }

    /// A client looks at one counter, by the newest registry or by the older one. It takes no memory.
    pub fn value(&self, older: Option<&Registry>, _now: u64, client: u64, number: u64) -> Answered
        ensures serves { Serves (looks_at self.now.registry (option_copied older.entry)) self.now self.now (Value _now client number) result.answer }
        ensures decides { result.decision ≡ shown_decision (value (looks_at self.now.registry (option_copied older.entry)) client number) }
    {
        let registry = looked_at(&self.registry, older);
        Answered::shown(registry.value(client, number))
    }

    /// A datagram came to the address `local`, from the address `from`, that is no SETUP.
    #[inline(always)]
    fn packet(
        &mut self,
        older: Option<&Registry>,
        alloc: Global,
        now: u64,
        local: &Address,
        from: &Address,
        packet: Packet<'_>,
    ) -> Answered
        requires sound { IsSoundContent (content packet) }
        requires other { IsOpenContent (content packet) }
        ensures serves { ServesAs self.old self.new (λ e. on_packet (looks_at self.old.registry (option_copied older.entry)) e now local.now from.now (Ok (content packet.entry))) result.answer }
        ensures decides { DecidesUnless (under self.old (looks_at self.old.registry (option_copied older.entry))) (λ e. content_decided e from.now (Ok (content packet.entry))) result.answer result.decision }
    {
        let request = request_by(&self.registry, older, local, from, &packet);
        packet_by(&mut self.logs, alloc, now, from, packet, request)
    }

    /// A datagram came to the address `local`, from the address `from`: the frames of data and a heartbeat go to the image of
    /// that address, session and stream, where they are from its publisher; a NAK and a status message go to the publication of
    /// their session and stream, whatever address they came to. A SETUP is an event: it is handed back, and nothing is
    /// changed. Frames and heartbeats of an image that the newest registry does not have any more are of no stream. `read` is
    /// what [`Datagram::read`](frame_codec::Datagram::read) says of the bytes: whoever calls asked it whose step this is.
    #[inline(always)]
    pub fn datagram(
        &mut self,
        older: Option<&Registry>,
        alloc: Global,
        now: u64,
        local: &Address,
        from: &Address,
        _bytes: &[u8],
        read: Result<Packet<'_>, BadPacket>,
    ) -> Came
        requires { Equals content read (packet_of _bytes.now) }
        ensures { Comes (looks_at self.old.registry (option_copied older.entry)) self.old self.new now local.now from.now _bytes.now result }
    {
        match read {
            Err(fault) => Came::Answered(unread(fault)),
            Ok(Packet::Setup(setup)) => Came::SetUp(setup),
            Ok(packet) => {
                frames_are_told();
                frames_are_of_one_term();
                Came::Answered(self.packet(older, alloc, now, local, from, packet))
            }
        }
    }
}

//! A client offers a message.

ghost use Rattle.audit_ring.specs.Audit.{KeptOf};
ghost use Rattle.driver_core.specs.Cached.{AreCached};
ghost use Rattle.log_slots.specs.Counting.{taken_by};
ghost use Rattle.media_agents.specs.declared.journal.Dated.{Dated};
ghost use Rattle.media_driver.specs.Audits.{KeepsOffered, ReportsOffer};
ghost use Rattle.media_driver.specs.Clients.{Attached, Looks};
ghost use Rattle.media_driver.specs.Remembering.{IsRemembered};
ghost use Rattle.media_driver.specs.Runs.{IsOffered, Offers, OffersOn, with_offer};
ghost use Rattle.media_driver.specs.Steps.{Counts, IsOffer, offer_answer};
ghost use Rattle.published_registry.specs.Histories.{IsContinuedBy, registry_of};
ghost use Rattle.std.specs.Option.{option_map};
ghost use Rattle.std.specs.Prelude.{◌≡◌, ℕ, ◌≤◌, List, Option, IfErr, IfSome, is_some, None};

use crate::auditing::tell;
use crate::client::Client;
use crate::faults::OfferFault;
use crate::hints::Hints;
use crate::pacing::Pace;
use crate::remembering::{Said, said_now};
use audit_ring::AuditOf;
use channel_uri::Media;
use decision_cache::Cache;
use driver_core::View;
use log_slots::{Amount, AtEnd, Slot, lock_soon};
use log_steps::{Answer, Offered};
use media_agents::{Clock, Dated, DriverNaming, LogAt};
use published_registry::{Pass, caches_stay_right_of_later_looks};
use std::sync::{Mutex, Wait};

/// Where a log is.
#[derive(Clone, Copy, Debug)]
pub(crate) struct Found {
    at: LogAt,
    /// Whether it is in shared memory: then no moment counts for it.
    is_shared: bool,
}

/// Where the log of a registration of the client's own is, by a look that decides nothing. `None` where there is no look.
fn find(pass: Pass, client: u64, registration: u64) -> (Pass, Option<Option<Found>>)
    ensures { IsContinuedBy pass result.0 }
{
    match pass.enter() {
        Ok(look) => {
            let at = log_at(look.registry(), client, registration);
            (look.leave(), Some(at))
        }
        Err(pass) => (pass, None),
    }
}

/// The same, by that registry.
fn log_at(registry: &driver_core::Registry, client: u64, registration: u64) -> Option<Found> {
    let registration = registry.own_registration(client, registration)?;
    let row = registry.source(registration.source)?;
    Some(Found {
        at: LogAt::of(row),
        is_shared: row.channel.media() == Media::Ipc,
    })
}

/// What the answer of a step says.
fn position_of(answer: &Answer) -> Result<u64, OfferFault>
    ensures answer { IfSome (offer_answer result) (λ told. answer.now ≡ told) }
    ensures counted { IfErr result (λ _. taken_by answer.now ≡ 0) }
    ensures seen { (old new : KeptOf Dated) → IfErr result (λ fault. KeepsOffered fault old new) }
{
    match answer {
        Answer::Offered(Offered::At(position)) => Ok(*position),
        Answer::Offered(Offered::TooLong) => Err(OfferFault::TooLong),
        Answer::Offered(Offered::NotConnected) => Err(OfferFault::NotConnected),
        Answer::Offered(Offered::MaxPositionExceeded) => Err(OfferFault::MaxPosition),
        Answer::Offered(Offered::BackPressured) => Err(OfferFault::BackPressured),
        Answer::Offered(Offered::AdminAction) => Err(OfferFault::AdminAction),
        Answer::Denied(verdict) => Err(OfferFault::Denied(*verdict)),
        _ => Err(OfferFault::Closed),
    }
}

/// Offers a message to the log whose lock is held, with one look, or none where what was decided is remembered, and keeps what
/// was decided. Where no more messages are counted, `ended` has that from then on.
fn offer_one<N: DriverNaming>(
    slot: &mut Slot<N>,
    pass: Pass,
    cache: &mut Cache,
    remembered: &mut Option<Said>,
    mine: &mut Amount<N>,
    ended: &mut Option<AtEnd<N>>,
    audit: &mut AuditOf<Dated>,
    now: u64,
    client: u64,
    registration: u64,
    message: &[u8],
) -> (Pass, Result<u64, OfferFault>)
    requires part { mine.old.parts ≡ 1 }
    requires right { AreCached (registry_of pass) cache.old }
    requires remembered { IsRemembered client remembered.old pass }
    ensures known { IsContinuedBy pass result.0 }
    ensures part { mine.new.parts ≡ 1 }
    ensures right { AreCached (registry_of result.0) cache.new }
    ensures remembered { IsRemembered client remembered.new result.0 }
    ensures offered { (attached : Attached) → attached.number ≡ client →
        IsOffered N.home registration message.now result.1
        (with_offer attached pass now mine.old.number (is_some ended.old) audit.old)
        (with_offer attached result.0 now mine.new.number (is_some ended.new) audit.new) }
{
    slot.holds();
    let (pass, said) = said_now(pass, cache, remembered, client, registration);
    let Some(said) = said else {
        return (pass, Err(OfferFault::NoLook));
    };
    let told = slot.offer(mine, ended, said.timeout, &said.request, now, message);
    tell(audit, said.stamp, told.decision);
    (pass, position_of(&told.answer))
}

/// Messages that go one after another.
pub trait Messages {
    /// The next one, if there is one.
    ghost next_is: { Self → Option (List ℕ) };

    /// The next one was taken, and is the next no longer.
    ghost went: { Self → ℕ → Self → Type 0 };

    /// The next one.
    fn next(&self) -> Option<&[u8]>
        ensures { option_map (λ message. message.now) result ≡ next_is self.now };

    /// The log took it: that is the position after it.
    fn taken(&mut self, position: u64)
        ensures { went self.old position self.new };
}

/// Offers messages one after another in one hold of a log's lock, so many at most, until one is not taken. `reached` is then the
/// position after the last one that was taken.
fn offer_run<N: DriverNaming, M: Messages, R: Wait>(
    rt: &R,
    slot: &Mutex<Slot<N>>,
    pass: Pass,
    cache: &mut Cache,
    remembered: &mut Option<Said>,
    mine: &mut Amount<N>,
    ended: &mut Option<AtEnd<N>>,
    audit: &mut AuditOf<Dated>,
    now: u64,
    client: u64,
    registration: u64,
    messages: &mut M,
    most: u32,
    reached: &mut u64,
) -> (Pass, Result<(), OfferFault>)
    requires part { mine.old.parts ≡ 1 }
    requires right { AreCached (registry_of pass) cache.old }
    requires remembered { IsRemembered client remembered.old pass }
    ensures known { IsContinuedBy pass result.0 }
    ensures part { mine.new.parts ≡ 1 }
    ensures right { AreCached (registry_of result.0) cache.new }
    ensures remembered { IsRemembered client remembered.new result.0 }
    ensures offers { (attached : Attached) → attached.number ≡ client →
        OffersOn M.next_is M.went N.home registration most messages.old messages.new result.1
        (with_offer attached pass now mine.old.number (is_some ended.old) audit.old)
        (with_offer attached result.0 now mine.new.number (is_some ended.new) audit.new) }
{
    let mut slot = lock_soon(rt, slot);
    let mut pass = pass;
    for _taken in 0..most {
        let Some(message) = messages.next() else {
            return (pass, Ok(()));
        };
        let (next, offered) = offer_one(
            &mut slot,
            pass,
            cache,
            remembered,
            mine,
            ended,
            audit,
            now,
            client,
            registration,
            message,
        );
        pass = next;
        match offered {
            Ok(position) => {
                *reached = position;
                messages.taken(position);
            }
            Err(fault) => return (pass, Err(fault)),
        }
    }
    (pass, Ok(()))
}

/// Lets those that wait beside that log's lock know how far offers got, if any was taken.
fn tell_readers(hints: &Hints, log: Found, reached: u64) {
    if reached == 0 {
        return;
    }
    if let Some(hint) = hints.of(log.at.slot) {
        hint.offered(reached);
    }
}

/// A client that polls the log to which it just offered waits for no others there: its own offers are in it.
fn expect_own(pace: &mut Pace, polled: Option<LogAt>, offered: LogAt) {
    if let Some(at) = polled {
        if at.published && at.slot == offered.slot {
            *pace = Pace::new();
        }
    }
}

/// One message, and the position after it once it was taken.
#[derive(Drop)]
struct One<'a> {
    message: Option<&'a [u8]>,
    position: u64,
}

impl<'a> Messages for One<'a> {
    ghost next_is = { λ one. option_map (λ message. message.now) one.message };

    ghost went = { λ before position after. (after.message ≡ None) × (after.position ≡ position) };

    fn next(&self) -> Option<&[u8]> {
        self.message
    }

    fn taken(&mut self, position: u64) {
        self.message = None;
        self.position = position;
    }
}

/// The log, with whose registration it is found.
fn remembered(registration: u64, found: Option<Found>) -> Option<(u64, Found)> {
    Some((registration, found?))
}

impl<N: DriverNaming, C: Clock> Client<N, C> {
    /// Where the log of a registration is: it stays there for as long as the log is open. `None` where there is no look.
    fn log_of(&mut self, registration: u64) -> Option<Option<Found>>
        ensures { Looks self.old self.new }
    {
        caches_stay_right_of_later_looks();
        if let Some((known, found)) = self.offered {
            if known == registration {
                return Some(Some(found));
            }
        }
        let Some(pass) = self.pass.take() else {
            unreachable!()
        };
        let (pass, found) = find(pass, self.number, registration);
        self.pass = Some(pass);
        self.offered = remembered(registration, found.flatten());
        found
    }

    /// The moment of an offer to that log: by the clock, and where no moment counts for the log the last one.
    fn offer_moment(&self, log: Found) -> u64
        ensures { self.now.moment ≤ result }
    {
        if log.is_shared {
            self.moment
        } else {
            self.now()
        }
    }

    /// Offers messages one after another to the log of a publication of this client's, `most` at most, until one is not taken.
    /// It is one look, if the client does not remember where that log is, and then one hold of the log's lock, in which each
    /// message is offered as [`Client::offer`] says.
    ///
    /// # Errors
    /// That of the first message that was not taken.
    pub fn offer_many<R: Wait, M: Messages>(
        &mut self,
        rt: &R,
        registration: u64,
        messages: &mut M,
        most: u32,
    ) -> Result<(), OfferFault>
        ensures { Offers M.next_is M.went N.home registration most messages.old messages.new result self.old self.new }
    {
        caches_stay_right_of_later_looks();
        if most == 0 {
            return Ok(());
        }
        let Some(_first) = messages.next() else {
            return Ok(());
        };
        let Some(found) = self.log_of(registration) else {
            return Err(OfferFault::NoLook);
        };
        let Some(log) = found else {
            return Err(OfferFault::Closed);
        };
        let now = self.offer_moment(log);
        let Some(slot) = self.slots.publications.get(log.at.slot as usize) else {
            return Err(OfferFault::NoLook);
        };
        let Some(pass) = self.pass.take() else {
            unreachable!()
        };
        let mut reached = 0;
        let (pass, offered) = offer_run(
            rt,
            slot,
            pass,
            &mut self.cache,
            &mut self.said,
            &mut self.counted,
            &mut self.ended,
            &mut self.audit,
            now,
            self.number,
            registration,
            messages,
            most,
            &mut reached,
        );
        self.pass = Some(pass);
        self.moment = now;
        tell_readers(&self.hints, log, reached);
        expect_own(&mut self.pace, self.polled, log.at);
        if !log.is_shared {
            // what it took is to be sent
            self.queue.wake_sender();
        }
        offered
    }

    /// Offers a message to the log of a publication of this client's, and gives the position after it. It is one look, if
    /// the client does not remember where that log is, and then one hold of the log's lock with one look within it. Instead of
    /// that look what the last one decided counts, where the registry that it was at is still shown. A message that is taken
    /// is counted, unless no more are counted of its slot, or for the client; no other is. What was decided is kept in
    /// the client's audit. It takes no memory.
    ///
    /// # Errors
    /// The first that applies, by the registry of that look: `Closed`, `Denied`, `TooLong`, `NotConnected`, `MaxPosition`,
    /// `BackPressured`, `AdminAction`; or `NoLook`, and then nothing is offered.
    pub fn offer<R: Wait>(
        &mut self,
        rt: &R,
        registration: u64,
        message: &[u8],
    ) -> Result<u64, OfferFault>
        ensures known { IsContinuedBy self.old.known self.new.known }
        ensures moment { self.old.moment ≤ self.new.moment }
        ensures same { self.new ≡ record self.old { known = self.new.known; moment = self.new.moment; counted = self.new.counted; ended = self.new.ended; audited = self.new.audited } }
        ensures counted { Counts result self.old self.new }
        ensures step { IsOffer N.home (registry_of self.new.known) self.new.moment self.old.number registration message.now result }
        ensures audit { ReportsOffer N.home self.new.known self.new.moment self.old.number registration message.now result self.old.audited self.new.audited }
        ensures unseen { IfErr result (λ fault. KeepsOffered fault self.old.audited self.new.audited) }
    {
        let mut one = One {
            message: Some(message),
            position: 0,
        };
        match self.offer_many(rt, registration, &mut one, 1) {
            Ok(()) => Ok(one.position),
            Err(fault) => Err(fault),
        }
    }
}

//! How far the logs of a client's own have come. A look at them decides nothing, and changes nothing.

ghost use Rattle.driver_core.specs.Directing.{own_log};
ghost use Rattle.media_agents.specs.Finding.{log_at};
ghost use Rattle.media_driver.specs.Clients.{Looks};
ghost use Rattle.media_driver.specs.Positions.{IsPublicationShown, IsReadingShown, ShowsPublication, ShowsReading, joined_at, publication_of, reading_of};
ghost use Rattle.published_registry.specs.Histories.{IsContinuedBy, registry_of};
ghost use Rattle.std.specs.Option.{option_map};
ghost use Rattle.std.specs.Prelude.{◌≡◌, IfNone, IfSome};

use crate::client::Client;
use crate::faults::PositionFault;
use driver_core::{Registry, View};
use log_slots::{Held, PublicationPositions, ReadingPositions, Slot, lock_soon};
use media_agents::{Clock, DriverNaming, LogAt, Slots};
use published_registry::{Pass, caches_stay_right_of_later_looks};
use std::sync::{Mutex, Wait};

/// Where the log of a registration of the client's own is.
#[tactic(auto, unfolding(driver_core::specs::Directing::own_log))]
fn publication_at(registry: &Registry, client: u64, registration: u64) -> Option<LogAt>
    ensures { result ≡ option_map log_at (own_log registry.now client registration) }
{
    match registry.own_registration(client, registration) {
        Some(registration) => match registry.source(registration.source) {
            Some(row) => Some(LogAt::of(row)),
            None => None,
        },
        None => None,
    }
}

/// The same, with how long a status message stands, in nanoseconds.
fn publication_of(registry: &Registry, client: u64, registration: u64) -> Option<(LogAt, u64)>
    ensures { result ≡ publication_of registry.now client registration }
{
    match publication_at(registry, client, registration) {
        Some(at) => Some((at, registry.settings().connection_timeout)),
        None => None,
    }
}

/// The same by one look; `None` where there is no look.
fn find_publication(
    pass: Pass,
    client: u64,
    registration: u64,
) -> (Pass, Option<Option<(LogAt, u64)>>)
    ensures known { IsContinuedBy pass result.0 }
    ensures none { IfNone result.1 (result.0 ≡ pass) }
    ensures found { IfSome result.1 (λ found. found ≡ publication_of (registry_of result.0) client registration) }
{
    match pass.enter() {
        Ok(look) => {
            let found = publication_of(look.registry(), client, registration);
            (look.leave(), Some(found))
        }
        Err(pass) => (pass, None),
    }
}

/// How far a publication has come, in one hold of the lock of its log.
fn show_publication<N: DriverNaming, R: Wait>(
    rt: &R,
    slot: &Mutex<Slot<N>>,
    source: u64,
    now: u64,
    timeout: u64,
) -> Option<PublicationPositions>
    ensures { ShowsPublication N.home source now timeout result }
{
    let slot = lock_soon(rt, slot);
    slot.holds();
    slot.positions(source, now, timeout)
}

/// Where the log of a source is, and at which position it begins, where that subscription is the client's own.
fn reading_of(
    registry: &Registry,
    client: u64,
    subscription: u64,
    source: u64,
) -> Option<(LogAt, u64)>
    ensures { result ≡ reading_of registry.now client subscription source }
{
    let own = match registry.subscription(subscription) {
        Some(subscription) => subscription.client == client,
        None => false,
    };
    if !own {
        return None;
    }
    match registry.source(source) {
        Some(row) => Some((LogAt::of(row), row.begins_at())),
        None => None,
    }
}

/// The same by one look; `None` where there is no look.
fn find_reading(
    pass: Pass,
    client: u64,
    subscription: u64,
    source: u64,
) -> (Pass, Option<Option<(LogAt, u64)>>)
    ensures known { IsContinuedBy pass result.0 }
    ensures none { IfNone result.1 (result.0 ≡ pass) }
    ensures found { IfSome result.1 (λ found. found ≡ reading_of (registry_of result.0) client subscription source) }
{
    match pass.enter() {
        Ok(look) => {
            let found = reading_of(look.registry(), client, subscription, source);
            (look.leave(), Some(found))
        }
        Err(pass) => (pass, None),
    }
}

/// How far a subscription has come with a log, in one hold of its lock.
fn show_in<N: DriverNaming, H: Held<N>, R: Wait>(
    rt: &R,
    slot: &Mutex<H>,
    source: u64,
    subscription: u64,
) -> Option<ReadingPositions>
    ensures { ShowsReading N.home source subscription result }
{
    let slot = lock_soon(rt, slot);
    slot.holds();
    slot.reading(source, subscription)
}

/// The same, in the slot that it names. `None` where there is none.
fn show_reading<N: DriverNaming, R: Wait>(
    rt: &R,
    slots: &Slots<N>,
    at: LogAt,
    subscription: u64,
) -> Option<Option<ReadingPositions>>
    ensures { IfSome result (ShowsReading N.home at.source subscription) }
{
    let place = at.slot as usize;
    if at.published {
        match slots.publications.get(place) {
            Some(slot) => Some(show_in(rt, slot, at.source, subscription)),
            None => None,
        }
    } else {
        match slots.images.get(place) {
            Some(slot) => Some(show_in(rt, slot, at.source, subscription)),
            None => None,
        }
    }
}

/// How far a subscription of a client has come with a stream. Each position is in bytes of the stream.
#[derive(Clone, Copy, Debug, PartialEq, Eq)]
pub struct ImagePositions {
    /// The one at which the stream is joined: what was before it is not there. That of a publication of this driver is 0.
    pub joined: u64,
    /// The one up to which the subscription has read.
    pub position: u64,
    /// The one up to which the stream is there without a gap.
    pub received: u64,
}

/// With the position at which the stream is joined.
fn joined_at(joined: u64, reading: ReadingPositions) -> ImagePositions
    ensures { result ≡ joined_at joined reading }
{
    ImagePositions {
        joined,
        position: reading.position,
        received: reading.received,
    }
}

impl<N: DriverNaming, C: Clock> Client<N, C> {
    /// How far a publication of this client's has come: the registration has to be its own, and nobody else is shown that. It
    /// is one look, and one hold of the log's lock. Nothing is decided or changed by it, and it takes no memory.
    ///
    /// # Errors
    /// `Closed` where the client has no such registration, or its log is closed; `NoLook`.
    pub fn publication_positions<R: Wait>(
        &mut self,
        rt: &R,
        registration: u64,
    ) -> Result<PublicationPositions, PositionFault>
        ensures looks { Looks self.old self.new }
        ensures shown { IsPublicationShown N.home self.old.moment (publication_of (registry_of self.new.known) self.old.number registration) result }
    {
        caches_stay_right_of_later_looks();
        let Some(pass) = self.pass.take() else {
            unreachable!()
        };
        let (pass, found) = find_publication(pass, self.number, registration);
        self.pass = Some(pass);
        let Some(found) = found else {
            return Err(PositionFault::NoLook);
        };
        let Some((at, timeout)) = found else {
            return Err(PositionFault::Closed);
        };
        let now = self.now();
        let Some(slot) = self.slots.publications.get(at.slot as usize) else {
            return Err(PositionFault::NoLook);
        };
        match show_publication(rt, slot, at.source, now, timeout) {
            Some(positions) => Ok(positions),
            None => Err(PositionFault::Closed),
        }
    }

    /// How far a subscription of this client's has come with the log of a source: the subscription has to be its own. It is one
    /// look, and one hold of the log's lock. Nothing is decided or changed by it, and it takes no memory.
    ///
    /// # Errors
    /// `Closed` where the client has no such subscription, or it does not read that log; `NoLook`.
    pub fn image_positions<R: Wait>(
        &mut self,
        rt: &R,
        subscription: u64,
        source: u64,
    ) -> Result<ImagePositions, PositionFault>
        ensures looks { Looks self.old self.new }
        ensures shown { IsReadingShown N.home subscription (reading_of (registry_of self.new.known) self.old.number subscription source) result }
    {
        caches_stay_right_of_later_looks();
        let Some(pass) = self.pass.take() else {
            unreachable!()
        };
        let (pass, found) = find_reading(pass, self.number, subscription, source);
        self.pass = Some(pass);
        let Some(found) = found else {
            return Err(PositionFault::NoLook);
        };
        let Some((at, joined)) = found else {
            return Err(PositionFault::Closed);
        };
        match show_reading(rt, &self.slots, at, subscription) {
            Some(Some(reading)) => Ok(joined_at(joined, reading)),
            Some(None) => Err(PositionFault::Closed),
            None => Err(PositionFault::NoLook),
        }
    }
}

ghost use Rattle.stream_registry.specs.Lingering.{closed, closing_of, is_closing, is_image_of, is_number, is_past, is_used, registrations_of, settled, settled_one, stays_live};
ghost use Rattle.std.specs.List.{list_any};
ghost use Rattle.stream_registry.specs.Rest.{RestsBeside, settled_where};
ghost use Rattle.std.specs.Prelude.{◌≡◌, All, IfOk, true};

use crate::row::{LogRow, Registration};
use crate::streams::Streams;
use byte_strings::Items;
use rows::{Change, Test};
use std::alloc::{AllocError, Global};

/// A log, and the page at which its memory begins.
#[derive(Clone, Copy, Debug, PartialEq, Eq)]
pub struct LogPlace {
    /// The log's source number.
    pub source: u64,
    pub place: u64,
}

/// Whether who made the publication of this source number is registered with it still. The publication has the number of
/// that registration, and registrations ascend by their numbers, so it is found without a look at each.
fn is_with_maker(registrations: &[Registration], source: u64) -> bool
    ensures { result ≡ true → is_used registrations.now source ≡ true }
{
    match registrations.binary_search_by_key(&source, |registration| registration.number) {
        Ok(at) => registrations[at].source == source,
        Err(_) => false,
    }
}

/// Whether somebody is registered with the publication of this source number.
fn is_used(registrations: &[Registration], source: u64) -> bool
    ensures { result ≡ is_used registrations.now source }
{
    is_with_maker(registrations, source)
        || registrations
            .iter()
            .any(|registration| registration.source == source)
}

/// Lets the log linger where nobody is registered with it; an image never does.
fn settle_one(log: &mut LogRow, registrations: &[Registration], now: u64)
    ensures { log.new ≡ settled_one registrations.now now log.old }
{
    if !is_used(registrations, log.number) {
        log.origin = log.origin.left_at(now);
    }
}

/// Lets publications linger from `now` on with which none of these is registered.
#[derive(Clone, Copy)]
pub(crate) struct Settling<'a> {
    pub(crate) registrations: &'a [Registration],
    pub(crate) now: u64,
}

impl Change<LogRow> for Settling<'_> {
    ghost changed = { λ change log. settled_one change.registrations.now change.now log };

    fn change(&self, log: &mut LogRow) {
        settle_one(log, self.registrations, self.now);
    }
}

/// Lets the publication of this number linger from `now` on, if none of these is registered with it.
#[derive(Clone, Copy)]
pub(crate) struct SettlingOne<'a> {
    pub(crate) source: u64,
    pub(crate) registrations: &'a [Registration],
    pub(crate) now: u64,
}

impl Change<LogRow> for SettlingOne<'_> {
    ghost changed = { λ change log. settled_where change.source change.registrations.now change.now log };

    fn change(&self, log: &mut LogRow) {
        if log.number == self.source {
            settle_one(log, self.registrations, self.now);
        }
    }
}

/// Whether the log lingers for longer than it may at `now`. No image does.
pub fn is_past(log: &LogRow, now: u64) -> bool
    ensures { result ≡ is_past now log.now }
{
    match log.lingering_since() {
        Some(since) => now.saturating_sub(since) > log.measures.linger,
        None => false,
    }
}

/// Whether the number is one of these.
fn is_named(numbers: &[u64], number: u64) -> bool
    ensures { result ≡ list_any (is_number number) numbers.now }
{
    for other in numbers {
        if *other == number {
            return true;
        }
    }
    false
}

/// Whether the log is the image of one of these numbers.
pub fn is_image_of(log: &LogRow, numbers: &[u64]) -> bool
    ensures { result ≡ is_image_of numbers.now log.now }
{
    !log.is_published() && is_named(numbers, log.number)
}

/// Whether the log closes at `now`, where these images are silent.
pub fn is_closing(log: &LogRow, now: u64, silent: &[u64]) -> bool
    ensures { result ≡ is_closing now silent.now log.now }
{
    is_past(log, now) || is_image_of(log, silent)
}

/// Keeps the logs that don't close at this moment.
#[derive(Clone, Copy)]
pub(crate) struct StaysLive<'a> {
    pub(crate) now: u64,
    pub(crate) silent: &'a [u64],
}

impl Test<LogRow> for StaysLive<'_> {
    ghost keeps = { λ test log. stays_live test.now test.silent.now log };

    fn keeps(&self, log: &LogRow) -> bool {
        !is_closing(log, self.now, self.silent)
    }
}

impl Streams {
    /// How many registrations there are with the publication of this source number.
    pub fn registrations_of(&self, source: u64) -> usize
        ensures { result ≡ registrations_of self.now source }
    {
        self.registrations
            .as_slice()
            .iter()
            .filter(|registration| registration.source == source)
            .count()
    }

    /// Lets each publication linger with which nobody is registered.
    #[tactic(auto, unfolding(crate::specs::Lingering::settled))]
    pub(crate) fn settle(&mut self, now: u64)
        ensures { self.new ≡ settled self.old now }
    {
        self.sources.settle(self.registrations.as_slice(), now);
        self.at_rest = true;
    }

    /// As [`Streams::settle`], where all logs but that one rest.
    #[tactic(auto, unfolding(crate::specs::Lingering::settled))]
    pub(crate) fn settle_beside(&mut self, source: u64, now: u64)
        requires { All (RestsBeside source self.old.registrations) self.old.sources }
        ensures { self.new ≡ settled self.old now }
    {
        self.sources
            .settle_where(source, self.registrations.as_slice(), now);
        self.at_rest = true;
    }

    /// The logs that close at `now`, by their source numbers: of the publications that linger for longer than they may, and
    /// of these images, which are silent.
    #[tactic(auto, unfolding(crate::specs::Lingering::closing_of))]
    pub fn closing(
        &self,
        alloc: Global,
        now: u64,
        silent: &[u64],
    ) -> Result<Items<LogPlace>, AllocError>
        ensures { IfOk result (λ logs. logs ≡ closing_of self.now now silent.now) }
    {
        let mut logs = Items::new(alloc);
        for log in self.sources.as_slice() {
            if is_closing(log, now, silent) {
                logs.push(LogPlace {
                    source: log.number,
                    place: log.place,
                })?;
            }
        }
        Ok(logs)
    }

    /// The logs go that close at `now`: those of [`Streams::closing`]. It takes no memory.
    #[tactic(auto, unfolding(crate::specs::Lingering::closed))]
    pub fn close(&mut self, now: u64, silent: &[u64])
        ensures { self.new ≡ closed self.old now silent.now }
    {
        self.sources.close(now, silent);
    }
}

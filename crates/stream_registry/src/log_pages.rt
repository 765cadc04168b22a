//! Where a new log goes.

ghost use Rattle.stream_registry.specs.LogPages.{fits, free_place, holds_some, is_below, log_pages, pages_of, place_for};
ghost use Rattle.std.specs.List.{list_any};
ghost use Rattle.std.specs.Prelude.{◌≡◌, ◌+◌, ◌-◌, ◌^◌, min, nat_le, not};

use crate::row::LogRow;
use crate::streams::Streams;
use crate::wanted::Wanted;

/// The bytes of a page.
const PAGE: u64 = 4096;

/// How many pages a log has whose terms are so many bytes long.
pub(crate) fn pages_of(term_length: u32) -> u64
    ensures { result ≡ pages_of term_length }
{
    3 * u64::from(term_length) / PAGE
}

/// How many pages this log has.
fn log_pages(log: &LogRow) -> u64
    ensures { result ≡ log_pages log.now }
{
    pages_of(log.measures.term_length)
}

/// The page after the log's last one, or the greatest number where that is too great.
fn end_of(log: &LogRow) -> u64
    ensures { result ≡ min (log.now.place + log_pages log.now) (2 ^ 64 - 1) }
{
    log.place.saturating_add(log_pages(log))
}

/// Whether the log holds one of so many pages from `place` on.
fn holds_some(log: &LogRow, pages: u64, place: u64) -> bool
    ensures { result ≡ holds_some pages place log.now }
{
    let held = log_pages(log);
    if place <= log.place {
        log.place - place < pages && held > 0
    } else {
        place - log.place < held && pages > 0
    }
}

/// Whether none of the logs holds one of them.
fn are_free(logs: &[LogRow], pages: u64, place: u64) -> bool
    ensures { result ≡ not (list_any (holds_some pages place) logs.now) }
{
    for log in logs {
        if holds_some(log, pages, place) {
            return false;
        }
    }
    true
}

/// Whether they are pages of the arena.
fn are_within(arena_pages: u32, pages: u64, place: u64) -> bool
    ensures { result ≡ nat_le (place + pages) arena_pages }
{
    let all = u64::from(arena_pages);
    pages <= all && place <= all - pages
}

/// Whether a log of so many pages can lie there.
fn fits(logs: &[LogRow], arena_pages: u32, pages: u64, place: u64) -> bool
    ensures { result ≡ fits logs.now arena_pages pages place }
{
    are_within(arena_pages, pages, place) && are_free(logs, pages, place)
}

/// Whether the place is below the least one so far.
fn is_below(place: u64, least: Option<u64>) -> bool
    ensures { result ≡ is_below place least }
{
    match least {
        Some(least) => place < least,
        None => true,
    }
}

impl Streams {
    /// The least place for so many pages: place 0, or where a log ends.
    #[tactic(auto, unfolding(crate::specs::LogPages::free_place))]
    pub(crate) fn free_place(&self, arena_pages: u32, pages: u64) -> Option<u64>
        ensures { result ≡ free_place self.now arena_pages pages }
    {
        let logs = self.sources.as_slice();
        if fits(logs, arena_pages, pages, 0) {
            return Some(0);
        }
        let mut least = None;
        for log in logs {
            let end = end_of(log);
            if is_below(end, least) && fits(logs, arena_pages, pages, end) {
                least = Some(end);
            }
        }
        least
    }

    /// The page at which the memory of a log begins that would be made: the least one from which on its three terms are
    /// pages of an arena of `arena_pages` pages, of 4,096 bytes each, and free of all live logs. `None` where there is no
    /// such place. It takes no memory.
    pub fn place_for(&self, arena_pages: u32, wanted: &Wanted) -> Option<u64>
        ensures { result ≡ place_for self.now arena_pages wanted.now }
    {
        let measures = self.defaults.with_those_of(&wanted.channel);
        self.free_place(arena_pages, pages_of(measures.term_length))
    }
}

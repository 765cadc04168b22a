//! Clients take descriptors, of which the process may have so many: each door serves no more of them than an equal part is for.

ghost use Rattle.service_doors.specs.Descriptors.{clients_for};
ghost use Rattle.std.specs.Prelude.{◌≡◌};

use crate::hall::Hall;
use program_parts::{Disk, Machine};
use std::fs;

/// How many descriptors a client takes: its stream, that stream once more for who tells it of the end, and two by which it sleeps
/// and is woken.
const EACH: u64 = 4;

/// How many are left for what else is opened at times: the policy's file, an operator, who is refused, and sockets of streams.
const KEPT: u64 = 8;

/// Where the system says how much a process may have, and what it has open.
const LIMITS: &str = "/proc/self/limits";

const OPEN: &str = "/proc/self/fd";

/// The word before how many descriptors it may have.
const FILES: &str = "Max open files";

/// How many clients each of so many doors serves, where the process may have so many descriptors and has so many open: one at least.
fn clients_for(limit: u64, taken: u64, doors: u64) -> u64
    ensures { result ≡ clients_for limit taken doors }
{
    let left = limit.saturating_sub(taken).saturating_sub(KEPT);
    (left / EACH / doors.max(1)).max(1)
}

/// How many descriptors a process of these limits may have; `None` where nothing says that there is a bound.
fn limit_in(limits: &str) -> Option<u64> {
    let line = limits.lines().find(|line| line.starts_with(FILES))?;
    let words = line.get(FILES.len()..)?;
    words.split_ascii_whitespace().next()?.parse::<u64>().ok()
}

/// How many descriptors this process may have.
fn limit_of<F: Disk>(files: &F) -> Option<u64> {
    let limits = fs::read_to_string(files, LIMITS).ok()?;
    limit_in(limits.as_str())
}

/// How many of them are open.
fn taken_of<F: Disk>(files: &F) -> Option<u64> {
    let entries = fs::read_dir(files, OPEN).ok()?;
    Some(entries.count() as u64)
}

impl<R: Machine> Hall<'_, R> {
    /// Each principal has no more clients than an equal part of this process's descriptors is for. How many that are, where they
    /// are fewer than it had before.
    pub fn part_descriptors<F: Disk>(&mut self, files: &F) -> Option<u64> {
        let limit = limit_of(files)?;
        let taken = taken_of(files)?;
        let each = clients_for(limit, taken, self.holders.len());
        if each >= self.serving.each {
            return None;
        }
        self.serving.each = each;
        Some(each)
    }
}

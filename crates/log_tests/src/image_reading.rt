// Subscriptions that read a log while frames come.
ghost use Rattle.std.specs.Prelude.{◌≡◌, ◌+◌, ◌<◌, length};

use crate::shuffling::hand_in;
use crate::table::{Cell, TERM, Table};
use frame_codec::Flags;
use image_log::{Fragment, FragmentCopies, ImageFrame, ImageLog, Insert};
use std::alloc::Global;

/// A subscription reads the log from now on. The answer is its position.
#[tactic(auto, unfolding(image_log::specs::Rebuilt::settled))]
pub(crate) fn join(log: &mut ImageLog, subscription: u64) -> u64
    requires { length log.old.rebuilt.pairs < 512 }
    ensures { length log.new.rebuilt.pairs ≡ length log.old.rebuilt.pairs + 1 }
{
    log.join_pair(subscription)
}

/// A subscription reads up to a position, one fragment a poll. False where it does not read the log, or can't read so far or
/// back, or there is no memory.
pub(crate) fn read_to(alloc: Global, log: &mut ImageLog, subscription: u64, position: u64) -> bool {
    if position > log.contiguous() {
        return false;
    }
    for _ in 0..4096 {
        let at = log.pair_position(subscription);
        match at {
            Some(at) if at < position => {}
            _ => return at == Some(position),
        }
        if log.poll_copies(alloc, subscription, 1).is_err() {
            return false;
        }
    }
    false
}

/// Hands in frames of 64 bytes from the contiguous position on, at most `count`, until it is `end`; the subscription
/// reads each. Whether each was taken.
pub(crate) fn fill(
    alloc: Global,
    log: &mut ImageLog,
    subscription: u64,
    end: u64,
    count: u32,
) -> bool {
    let mut taken = true;
    for _ in 0..count {
        let position = log.contiguous();
        if position < end {
            taken &= hand_in(log, position, 7) == Some(Insert::Taken);
            let position = log.contiguous();
            taken &= read_to(alloc, log, subscription, position);
        }
    }
    taken && log.contiguous() == end
}

/// Whether so many frames are read from a position on, the last of which ends at `end`.
pub(crate) fn reads(log: &ImageLog, position: u64, bytes: usize, count: u64, end: u64) -> bool {
    if position > log.contiguous() {
        return false;
    }
    let mut given: u64 = 0;
    let mut behind = position;
    for frame in log.frames_from(position, bytes) {
        given = given.saturating_add(1);
        behind = frame.end();
    }
    given == count && behind == end
}

// Where a frame begins, from a position on but not before `position`; without one, where what is read from there ends.
fn start_from(log: &ImageLog, from: u64, position: u64) -> u64 {
    let mut at = from;
    if from > log.contiguous() {
        return at;
    }
    for frame in log.frames_from(from, PORTION) {
        if at >= position {
            return at;
        }
        at = frame.end();
    }
    at
}

/// Whether a frame that is whole begins at a position, or what is whole ends there.
pub(crate) fn is_start(log: &ImageLog, position: u64) -> bool {
    let mut at = log.base();
    for _ in 0..16 {
        if at >= position {
            return at == position;
        }
        at = start_from(log, at, position);
    }
    false
}

// Whether fragments end at these positions, each with 32 bytes of 7.
fn end_at(copies: &FragmentCopies, ends: &[u64]) -> bool {
    let mut same = true;
    let mut count: usize = 0;
    for fragment in copies.iter() {
        same &= count < ends.len() && ends[count] == fragment.position;
        same &= fragment.payload.len() == 32 && fragment.payload.iter().all(|b| *b == 7);
        same &= fragment.flags == Flags::UNFRAGMENTED;
        count = count.saturating_add(1);
    }
    same && count == ends.len()
}

/// Polls, and says whether that gave fragments that end at these positions, and is not taken for one that gives others.
pub(crate) fn gives(
    alloc: Global,
    log: &mut ImageLog,
    subscription: u64,
    limit: usize,
    ends: &[u64],
    others: &[&[u64]],
) -> bool {
    let Ok(copies) = log.poll_copies(alloc, subscription, limit) else {
        return false;
    };
    let mut given = end_at(&copies, ends);
    for other in others {
        given &= !end_at(&copies, other);
    }
    given
}

/// Polls, and says whether that gave fragments that end at these positions and left the subscription at a position.
pub(crate) fn polls(
    alloc: Global,
    log: &mut ImageLog,
    subscription: u64,
    limit: usize,
    ends: &[u64],
    end: u64,
) -> bool {
    let given = gives(alloc, log, subscription, limit, ends, &[]);
    given && log.pair_position(subscription) == Some(end)
}

/// How many bytes are read at a time.
const PORTION: usize = 4096;

/// How many fragments a poll asks for.
const LIMIT: usize = 64;

/// Reads one portion of what is whole, from the base on, and polls the subscription; the table's base moves on as far. Whether
/// both gave what the table has there.
pub(crate) fn read_portion(
    alloc: Global,
    log: &mut ImageLog,
    table: &mut Table,
    subscription: u64,
) -> bool {
    let read = is_portion(log, table);
    let Ok(copies) = log.poll_copies(alloc, subscription, LIMIT) else {
        return false;
    };
    match polled_to(&copies, table) {
        Some(position) => {
            table.base = position;
            read && log.pair_position(subscription) == Some(position)
        }
        None => false,
    }
}

// Whether the portion is what the table has there.
fn is_portion(log: &ImageLog, table: &Table) -> bool {
    if table.base > log.contiguous() {
        return false;
    }
    let mut position = table.base;
    let mut room = PORTION as u64;
    for frame in log.frames_from(table.base, PORTION) {
        let cell = table.cell(position);
        if room < sent(cell) || !is_frame(&frame, position, cell) {
            return false;
        }
        room = if frame.is_pad() {
            0
        } else {
            room.saturating_sub(sent(cell))
        };
        position = frame.end();
    }
    let ended = position == table.contiguous || position != table.base && position % TERM == 0;
    ended || room < sent(table.cell(position))
}

// The position up to which a poll passes that gives these fragments. None where they are not those that the table has from its
// base on, or where there are more.
fn polled_to(copies: &FragmentCopies, table: &Table) -> Option<u64> {
    let mut position = table.base;
    for fragment in copies.iter() {
        let at = table.data_from(position);
        if !is_fragment(&fragment, at, table.cell(at)) {
            return None;
        }
        position = fragment.position;
    }
    if copies.len() == LIMIT {
        return Some(position);
    }
    if table.data_from(position) == table.contiguous {
        Some(table.contiguous)
    } else {
        None
    }
}

// How many bytes of a datagram a frame takes.
fn sent(cell: Cell) -> u64 {
    match cell {
        Cell::Pad => 32,
        _ => cell.span(),
    }
}

// Whether a frame of a cell carries that.
fn is_filled(payload: &[u8], cell: Cell) -> bool {
    match cell {
        Cell::Long(fill) => payload.len() == 32 && payload.iter().all(|b| *b == fill),
        _ => payload.is_empty(),
    }
}

// Whether the frame is that of a cell.
fn is_frame(frame: &ImageFrame, position: u64, cell: Cell) -> bool {
    is_filled(frame.payload(), cell)
        && frame.position() == position
        && frame.end() == position.saturating_add(cell.span())
        && frame.is_pad() == (cell == Cell::Pad)
        && frame.flags() == Flags::UNFRAGMENTED
}

// Whether the fragment is that of the data frame of a cell.
fn is_fragment(fragment: &Fragment<'_>, position: u64, cell: Cell) -> bool {
    is_filled(fragment.payload, cell)
        && fragment.position == position.saturating_add(cell.span())
        && fragment.flags == Flags::UNFRAGMENTED
}

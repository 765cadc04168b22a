// Frames that come in an order that looks random, some of them twice, overlapping, forged, late or not at all, beside a
// plain table of the positions of their stream.
ghost use Rattle.std.specs.Prelude.{◌≡◌, ◌%◌, ◌<◌, ◌≤◌, [], IfOk};

use crate::image_reading::read_portion;
use crate::table::{Cell, Table};
use frame_codec::{Flags, TermPlace, term_of, write_data, write_pad};
use image_log::{Ident, ImageLog, ImageRoom, Insert};
use log_arena::{Arena, NoRoom};
use std::alloc::Global;

/// Hands in a data frame of 64 bytes, whose payload is one byte over and over. None where the log's stream has no such
/// frame.
#[tactic(auto, unfolding(image_log::specs::Rebuilt::after_insert))]
pub(crate) fn hand_in(log: &mut ImageLog, position: u64, fill: u8) -> Option<Insert>
    ensures pairs { log.new.rebuilt.pairs ≡ log.old.rebuilt.pairs }
{
    let ident = log.ident();
    let mut frame = [0; 64];
    let place = place_of(&ident, position)?;
    write_data(&mut frame, Flags::UNFRAGMENTED, &place, &[fill; 32]);
    if ident.admits(position, &frame) {
        Some(log.insert(position, &frame))
    } else {
        None
    }
}

// The place of a frame at a position of the stream.
fn place_of(ident: &Ident, position: u64) -> Option<TermPlace> {
    if ident.term_length == 0 {
        return None;
    }
    let (term_id, term_offset) = term_of(ident.initial_term_id, position, ident.term_length);
    Some(TermPlace {
        session_id: ident.session_id,
        stream_id: ident.stream_id,
        term_id,
        term_offset,
    })
}

// A log in a lease of this arena.
fn open_in(room: ImageRoom, arena: &mut Arena, ident: Ident, join: u64) -> Result<ImageLog, NoRoom>
    requires room { room ≡ 196608 }
    requires terms { ident.term_length ≡ 65536 }
    requires join { (join % 32 ≡ 0) × (join < 65536) }
    ensures pairs { IfOk result (λ log. log.rebuilt.pairs ≡ []) }
{
    let lease = arena.lease(3 * ident.term_length as usize)?;
    Ok(ImageLog::open(room, lease, ident, join))
}

/// A log of three terms of 64 KiB, in an arena of its own, which its lease outlives. `NoRoom` where there is no memory.
pub(crate) fn open(alloc: Global, ident: Ident, join: u64) -> Result<ImageLog, NoRoom>
    requires terms { ident.term_length ≡ 65536 }
    requires join { (join % 32 ≡ 0) × (join < 65536) }
    ensures pairs { IfOk result (λ log. log.rebuilt.pairs ≡ []) }
{
    let Ok(room) = ImageRoom::new(alloc, 196_608) else {
        return Err(NoRoom);
    };
    match Arena::new(alloc, 48) {
        Ok(mut arena) => open_in(room, &mut arena, ident, join),
        Err(_) => Err(NoRoom),
    }
}

/// Hands in a frame as a cell of the table says: a data frame with a payload of 32 bytes or none, or a pad. A forged one
/// is of another session. None where the log's stream has no such frame.
pub(crate) fn hand_in_cell(
    log: &mut ImageLog,
    position: u64,
    cell: Cell,
    forged: bool,
) -> Option<Insert> {
    let ident = log.ident();
    let mut place = place_of(&ident, position)?;
    if forged {
        place.session_id = place.session_id.wrapping_add(1);
    }
    let mut frame = [0; 64];
    let size = lay_out(&mut frame, &place, cell);
    let frame = &frame[..size];
    if ident.admits(position, frame) {
        Some(log.insert(position, frame))
    } else {
        None
    }
}

// Lays a frame out, and says how many bytes of it are handed in.
fn lay_out(out: &mut [u8; 64], place: &TermPlace, cell: Cell) -> usize
    ensures { result ≤ 64 }
{
    match cell {
        Cell::Long(fill) => {
            write_data(out, Flags::UNFRAGMENTED, place, &[fill; 32]);
            64
        }
        Cell::Pad => {
            write_pad(out, Flags::UNFRAGMENTED, place, 64);
            32
        }
        _ => {
            write_data(out, Flags::UNFRAGMENTED, place, &[]);
            32
        }
    }
}

/// Hands in `steps` frames, and says whether each answer, and what the log says after it, were those of the table,
/// and each answer was given a good many times; nothing without memory. Subscription 1 reads the log all the while.
pub(crate) fn agree(alloc: Global, log: &mut ImageLog, steps: u32) -> Option<bool> {
    match Table::new(alloc, 16_384) {
        Ok(mut table) => Some(go_on(alloc, log, &mut table, steps) && table.has_seen_all()),
        Err(_) => None,
    }
}

/// Hands in `steps` frames, and says whether each answer, and what the log says after it, were those of the table.
/// Subscription 1 reads the log all the while.
pub(crate) fn go_on(alloc: Global, log: &mut ImageLog, table: &mut Table, steps: u32) -> bool {
    let mut word: u64 = 1;
    let mut same = true;
    for _ in 0..steps {
        word = next(word);
        same &= step(alloc, log, table, word >> 33);
    }
    same
}

// The next word of a linear congruence, as the C standard's example has it, but for 64 bits (Knuth's MMIX).
fn next(word: u64) -> u64 {
    word.wrapping_mul(6364136223846793005)
        .wrapping_add(1442695040888963407)
}

// Hands in one frame, and now and then reads what is whole.
fn step(alloc: Global, log: &mut ImageLog, table: &mut Table, choice: u64) -> bool {
    let position = table.chosen_position(choice);
    let cell = Cell::chosen(choice / 512);
    let forged = choice / 4096 % 16 == 0;
    let wanted = if forged {
        None
    } else {
        Some(table.insert(position, cell))
    };
    let answer = hand_in_cell(log, position, cell, forged);
    let read = choice / 65_536 % 8 > 0 || read_portion(alloc, log, table, 1);
    (answer == wanted) & read & is_like(log, table)
}

// Whether the log says what the table does.
fn is_like(log: &ImageLog, table: &Table) -> bool {
    (log.contiguous() == table.contiguous) & (log.base() == table.base) & table.has_gap(log.gap())
}

// Messages of many lengths, offered to a log and to a plain list.
use crate::plain::Plain;
use std::alloc::Global;
use term_log::{Offer, TermLog};

/// Lengths of messages: empty, at the edges of a filling and of a frame, and the greatest.
static LENGTHS: [usize; 12] = [0, 1, 31, 32, 33, 1375, 1376, 1377, 2752, 5000, 8191, 8192];

/// Offers `rounds` messages, each until it is taken, while the sender follows. Whether each answer was that of the plain
/// list, for which there was memory.
pub(crate) fn fill(alloc: Global, log: &mut TermLog, plain: &mut Plain, rounds: u32) -> bool {
    let mut same = true;
    let mut word: u64 = 1;
    for _ in 0..rounds {
        word = next(word);
        let length = LENGTHS[(word >> 40) as usize % LENGTHS.len()];
        same &= offer_filled(alloc, log, plain, (word >> 56) as u8 | 1, length);
        follow(log);
    }
    same
}

// Offers a message of so many bytes, all of which are `fill`.
fn offer_filled(
    alloc: Global,
    log: &mut TermLog,
    plain: &mut Plain,
    fill: u8,
    length: usize,
) -> bool {
    match Vec::from_elem(alloc, fill, length) {
        Ok(message) => offer(log, plain, message.as_slice()),
        Err(_) => false,
    }
}

// The next word of a linear congruence (Knuth's MMIX).
fn next(word: u64) -> u64 {
    word.wrapping_mul(6364136223846793005)
        .wrapping_add(1442695040888963407)
}

/// The sender sends all there is.
pub(crate) fn follow(log: &mut TermLog) {
    let _ = log.sender_position();
    let tail = log.tail();
    log.sent(tail);
}

// How many positions a message takes.
fn size_of(length: u64) -> u64 {
    let full = length / 1376;
    let rest = length % 1376;
    let last = rest.wrapping_add(63) / 32 * 32;
    if rest == 0 && full > 0 {
        full.wrapping_mul(1408)
    } else {
        full.wrapping_mul(1408).wrapping_add(last)
    }
}

// Offers a message, and again after a pad. Whether the answers were those of the plain list.
fn offer(log: &mut TermLog, plain: &mut Plain, message: &[u8]) -> bool {
    let size = size_of(message.len() as u64);
    let offset = plain.tail() % 65_536;
    if size > 65_536u64.wrapping_sub(offset) {
        if !plain.put_pad() || log.offer(message) != Offer::AdminAction {
            return false;
        }
        follow(log);
    }
    let put = plain.put_message(message);
    put && log.offer(message) == Offer::At(plain.tail())
}

/// Whether these bytes of a log's lease are the last three terms of all, each in its buffer. After the tail they may be what an
/// older term left, which no reader is given; a log in its first three terms has zeros there.
pub(crate) fn is_held(bytes: &[u8], plain: &Plain) -> bool {
    let newest = plain.tail() / 65_536;
    let mut same = true;
    for (place, byte) in bytes.iter().enumerate() {
        let buffer = place as u64 / 65_536;
        let back = (newest % 3).wrapping_add(3).wrapping_sub(buffer) % 3;
        let position = newest
            .wrapping_sub(back)
            .wrapping_mul(65_536)
            .wrapping_add(place as u64 % 65_536);
        same &= match plain.bytes.get(position as usize) {
            Some(wanted) => *byte == *wanted,
            None => newest >= 3 || *byte == 0,
        };
    }
    same
}

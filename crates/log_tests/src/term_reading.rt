// Frames that are read from a log, and the plain list beside it.
use crate::plain::{Plain, Row};
use term_log::{Content, FramesOver, LogFrame, TermLog};

// Whether bytes of the list from a place on begin with these.
fn has_at(plain: &Plain, at: u64, bytes: &[u8]) -> bool {
    match plain.bytes.get(at as usize..) {
        Some(rest) => rest.starts_with(bytes),
        None => false,
    }
}

// Whether the frame is that of the list.
fn is_row(plain: &Plain, row: &Row, frame: &LogFrame<'_>) -> bool {
    let content = match frame.content {
        Content::Fragment(flags, payload) => {
            row.kind == 1
                && flags.bits == row.flags
                && payload.len() as u64 == u64::from(row.length).wrapping_sub(32)
                && has_at(plain, row.position.wrapping_add(32), payload)
        }
        Content::Pad(length) => row.kind == 0 && length == row.length,
    };
    content
        && frame.position == row.position
        && frame.bytes.len() as u64 == row.sent_size()
        && has_at(plain, row.position, frame.bytes)
}

// Whether a run that was given up to a row could not go on: the list or the term ends there, or the budget does.
fn ends(plain: &Plain, first: usize, row: usize, left: u64) -> bool {
    match plain.rows.get(row) {
        Some(next) => (row > first && next.position % 65_536 == 0) || next.sent_size() > left,
        None => true,
    }
}

/// Whether the frames that the log gives from a row of the list on are the rows that it has to give.
pub(crate) fn gives_rows(log: &TermLog, plain: &Plain, first: usize, budget: u64) -> bool {
    let position = match plain.rows.get(first) {
        Some(row) => row.position,
        None => plain.tail(),
    };
    if position < log.low() || log.tail() < position {
        return false;
    }
    let mut row = first;
    let mut left = budget;
    let mut same = true;
    let frames = log.frames_from(position, budget as usize);
    let (sent, _) = frames.bytes_and_span();
    for frame in frames {
        match plain.rows.get(row) {
            Some(next) => {
                same &= is_row(plain, next, &frame) && next.sent_size() <= left;
                left = left.wrapping_sub(next.sent_size());
            }
            None => return false,
        }
        row = row.wrapping_add(1);
    }
    same && ends(plain, first, row, left)
        && sent.len() as u64 == budget.wrapping_sub(left)
        && has_at(plain, position, sent)
}

/// Whether the log gives the rows that it has to from each of its frames on, for a budget.
pub(crate) fn gives_all(log: &TermLog, plain: &Plain, budget: u64) -> bool {
    let low = log.low();
    let mut same = true;
    for (index, row) in plain.rows.as_slice().iter().enumerate() {
        if row.position >= low {
            same &= gives_rows(log, plain, index, budget);
        }
    }
    same && gives_rows(log, plain, plain.rows.len(), budget)
}

/// Whether the frames begin at these positions.
pub(crate) fn begin_at(frames: FramesOver<'_>, wanted: &[u64]) -> bool {
    let mut count = 0usize;
    let mut same = true;
    for frame in frames {
        same &= wanted.get(count) == Some(&frame.position);
        count = count.wrapping_add(1);
    }
    same && count == wanted.len()
}

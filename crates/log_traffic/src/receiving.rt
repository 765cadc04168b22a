//! The datagrams of its stream that a log is given.

ghost use Rattle.std.specs.Prelude.{◌≡◌, ◌++◌, ◌+◌, ◌≤◌, [], IfOk, OnErr, OnOk, length, vec_capacity};
ghost use Rattle.frame_codec.specs.Frame.{sent};
ghost use Rattle.frame_codec.specs.Frames.{frames_left};
ghost use Rattle.frame_codec.specs.Sound.{IsTold};
ghost use Rattle.image_log.specs.Handed.{position_in};
ghost use Rattle.log_traffic.specs.Receiving.{AreOf, IsIn, after_beat, after_data, after_frame, after_frames, word_of, words_of};

use frame_codec::{Frame, Frames, TermPlace, position};
use image_log::{Ident, ImageLog, Insert, frames_may_be_handed_in};
use log_arena::NoMemory;
use std::alloc::Global;

/// The position of a place in the stream of a log.
fn position_in(ident: &Ident, place: &TermPlace) -> u64
    ensures { result ≡ position_in ident.now place.now }
{
    position(
        ident.initial_term_id,
        place.term_id,
        place.term_offset,
        ident.term_length,
    )
}

/// Room for a word for each of the frames.
fn room_for(alloc: Global, frames: Frames<'_>) -> Result<Vec<Insert>, NoMemory>
    ensures { IfOk result (λ words. (words.items ≡ []) × (length (frames_left frames.entry) ≤ vec_capacity words)) }
{
    Vec::with_capacity(alloc, frames.most())
}

/// Hands in a frame at its header's position.
#[tactic(auto, unfolding(crate::specs::Receiving::word_of, crate::specs::Receiving::after_frame))]
fn hand_in(log: &mut ImageLog, frame: &Frame<'_>) -> Insert
    requires told { IsTold (sent frame.now) }
    requires here { IsIn log.old.rebuilt.ident frame.now.header.place }
    ensures word { result ≡ word_of log.old.rebuilt (sent frame.now) }
    ensures after { log.new ≡ record log.old { rebuilt = after_frame log.old.rebuilt (sent frame.now) } }
{
    frames_may_be_handed_in();
    let position = position_in(&log.ident(), &frame.header.place);
    log.insert(position, frame.bytes)
}

/// Hands in frames one after the other, and puts the word for each after those that are there. A call of its own, so that the
/// walk has the registers to itself.
#[inline(never)]
fn hand_in_all(log: &mut ImageLog, frames: Frames<'_>, words: &mut Vec<Insert>)
    requires of { AreOf log.old.rebuilt.ident (frames_left frames) }
    requires room { length words.old.items + length (frames_left frames) ≤ vec_capacity words.old }
    ensures words { words.new.items ≡ words.old.items ++ words_of log.old.rebuilt (frames_left frames.entry) }
    ensures after { log.new ≡ record log.old { rebuilt = after_frames log.old.rebuilt (frames_left frames.entry) } }
{
    for frame in frames {
        words.push_reserved(hand_in(log, &frame));
    }
}

/// A datagram of data frames and pads of the log's session and stream came at a moment: each frame is handed in at its
/// header's position, in order, and the sender was heard. The answer is what became of each.
///
/// # Errors
/// Without memory for the words nothing is changed.
#[tactic(auto, unfolding(crate::specs::Receiving::after_data))]
#[inline(always)]
pub fn receive(
    log: &mut ImageLog,
    alloc: Global,
    now: u64,
    frames: Frames<'_>,
) -> Result<Vec<Insert>, NoMemory>
    requires { AreOf log.old.rebuilt.ident (frames_left frames) }
    ensures words { IfOk result (λ words. words.items ≡ words_of log.old.rebuilt (frames_left frames.entry)) }
    ensures after { OnOk result (log.new ≡ record log.old { rebuilt = after_data log.old.rebuilt now (frames_left frames.entry) }) }
    ensures err { OnErr result (log.new ≡ log.old) }
{
    let mut words = room_for(alloc, frames)?;
    hand_in_all(log, frames, &mut words);
    log.heard(now);
    Ok(words)
}

/// A heartbeat of the log's session and stream came at a moment, and says where the sender is: the sender was heard, and is
/// as far as that.
#[tactic(auto, unfolding(crate::specs::Receiving::after_beat))]
pub fn receive_beat(log: &mut ImageLog, now: u64, place: &TermPlace)
    ensures { log.new ≡ record log.old { rebuilt = after_beat log.old.rebuilt now place.now } }
{
    let position = position_in(&log.ident(), place);
    log.beat(position);
    log.heard(now);
}

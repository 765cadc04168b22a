//! Frames that are sent again, in datagrams.

ghost use Rattle.log_traffic.specs.Datagrams.{Copies, CopiesFirst, TakesFitting, TakesNext, datagrams_of, first_run, fitting, frames_in};
ghost use Rattle.std.specs.Prelude.{◌≡◌, ◌*◌, ◌/◌, ◌^◌, ◌==◌, ◌<◌, length, IfOk};
ghost use Rattle.std.specs.Option.{option_map};
ghost use Rattle.std.specs.Vec.{vec_items};
ghost use Rattle.term_log.specs.Ranges.{over_left};

use std::alloc::{AllocError, Global};
use std::marker::Model;
use term_log::{FramesOver, LogFrame};

/// Frames, of which the next one was read already: so each is read once.
#[derive(Clone, Copy, Debug)]
struct Ahead<'a> {
    next: Option<LogFrame<'a>>,
    /// Those after it.
    later: FramesOver<'a>,
}

impl<'a> Ahead<'a> {
    fn new(frames: FramesOver<'a>) -> Ahead<'a>
        ensures { frames_in result ≡ over_left frames.entry }
    {
        let mut later = frames;
        let next = later.next();
        Ahead { next, later }
    }
}

/// The datagrams of frames that are sent again: each has as many frames as fit into the MTU, all of one term. The log lends
/// the frames, and nothing is copied but into the datagram.
///
/// Contracts see the bytes of the datagrams that are still to come.
#[derive(Debug, Drop)]
pub struct Datagrams<'a> {
    /// The frames that are still to be sent.
    frames: Ahead<'a>,
    /// How many positions a term has.
    term_length: u64,
    /// How many bytes a datagram has at most.
    mtu: usize,
}

impl<'a> Model for Datagrams<'a> {
    ghost use Rattle.log_traffic.specs.Datagrams.{Resending, datagrams_of, frames_in};
    ghost use Rattle.std.specs.Prelude.{◌<◌};

    ghost Value = { Resending };

    ghost view = { λ d. record { mtu = d.mtu; datagrams = datagrams_of d.term_length d.mtu (frames_in d.frames) } };

    ghost invariant = { λ d. 0 < d.term_length };
}

/// Whether a position lies in the term of that number. Frame by frame is asked, and a division takes long.
fn is_in_term(term_length: u64, number: u64, position: u64) -> bool
    requires some { 0 < term_length }
    requires fits { number * term_length < 2 ^ 64 }
    ensures { result ≡ (position / term_length == number) }
{
    let begin = number * term_length;
    begin <= position && position - begin < term_length
}

/// The next frame, if it is of that term and has at most so many bytes. Else it is left.
fn next_fitting<'a>(
    frames: &mut Ahead<'a>,
    term_length: u64,
    number: u64,
    budget: usize,
) -> Option<LogFrame<'a>>
    requires term { 0 < term_length }
    requires number { number * term_length < 2 ^ 64 }
    ensures { TakesFitting term_length number budget (frames_in frames.old) (frames_in frames.new) result }
{
    let frame = frames.next?;
    if !is_in_term(term_length, number, frame.position) || frame.bytes.len() > budget {
        return None;
    }
    frames.next = frames.later.next();
    Some(frame)
}

/// A copy of the frames of that term that fit, which are taken.
#[tactic(auto, using(crate::proofs::DatagramLemmas::copied_nothing, crate::proofs::DatagramLemmas::copied_all, crate::proofs::DatagramLemmas::fits_within))]
fn copy_run(
    frames: &mut Ahead<'_>,
    alloc: Global,
    term_length: u64,
    number: u64,
    mtu: usize,
) -> Result<Vec<u8>, AllocError>
    requires term { 0 < term_length }
    requires number { number * term_length < 2 ^ 64 }
    ensures { IfOk result (λ copy. Copies (fitting term_length number mtu (frames_in frames.old)) (frames_in frames.old) (frames_in frames.new) copy.items) }
{
    let mut copy = Vec::with_capacity(alloc, mtu)?;
    while let Some(frame) = next_fitting(frames, term_length, number, mtu - copy.len()) {
        copy.extend_from_slice(frame.bytes)?;
    }
    Ok(copy)
}

/// The number of the term in which a frame begins.
#[tactic(auto, using(crate::proofs::DatagramLemmas::starts_before))]
fn term_number(frame: &LogFrame<'_>, term_length: u64) -> u64
    requires { 0 < term_length }
    ensures value { result ≡ frame.now.position / term_length }
    ensures fits { result * term_length < 2 ^ 64 }
{
    frame.position / term_length
}

/// A copy of the frames of the first datagram, which are taken; none where no frame is left.
#[tactic(auto, using(crate::proofs::DatagramLemmas::copied_none, crate::proofs::DatagramLemmas::copied_long, crate::proofs::DatagramLemmas::copied_fits))]
fn copy_first(
    frames: &mut Ahead<'_>,
    alloc: Global,
    term_length: u64,
    mtu: usize,
) -> Result<Option<Vec<u8>>, AllocError>
    requires { 0 < term_length }
    ensures { IfOk result (λ copy. CopiesFirst (first_run term_length mtu (frames_in frames.old)) (frames_in frames.old) (frames_in frames.new) (option_map vec_items copy)) }
{
    let first = match frames.next {
        Some(first) => first,
        None => return Ok(None),
    };
    if first.bytes.len() > mtu {
        return Ok(None);
    }
    let number = term_number(&first, term_length);
    let copy = copy_run(frames, alloc, term_length, number, mtu)?;
    Ok(Some(copy))
}

impl<'a> Datagrams<'a> {
    /// Those of frames of terms of that length.
    pub(crate) fn new(frames: FramesOver<'a>, term_length: u32, mtu: u32) -> Datagrams<'a>
        requires { 0 < term_length }
        ensures { result ≡ record { mtu = mtu; datagrams = datagrams_of term_length mtu (over_left frames.entry) } }
    {
        Datagrams {
            frames: Ahead::new(frames),
            term_length: u64::from(term_length),
            mtu: mtu as usize,
        }
    }

    /// A copy of the next datagram; none where all were given.
    ///
    /// # Errors
    /// Where there is no memory for it.
    #[tactic(auto, using(crate::proofs::DatagramLemmas::takes_first))]
    pub fn next_copy(&mut self, alloc: Global) -> Result<Option<Vec<u8>>, AllocError>
        ensures takes { IfOk result (λ copy. TakesNext self.old.datagrams self.new.datagrams (option_map vec_items copy)) }
        ensures mtu { self.new.mtu ≡ self.old.mtu }
    {
        let copy = copy_first(&mut self.frames, alloc, self.term_length, self.mtu)?;
        Ok(copy)
    }
}

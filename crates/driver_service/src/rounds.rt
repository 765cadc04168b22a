//! Several pairs are polled by one request.

ghost use Rattle.driver_service.specs.Requests.{polled_pairs};
ghost use Rattle.driver_service.specs.Rounds.{AnswersAll, Part, PollsAll, Round, part_refused_bytes};
ghost use Rattle.std.specs.Prelude.{◌≡◌, ◌++◌, OnOk};

use crate::gathering::{FULL, gather};
use crate::reason::Refusal;
use crate::seat::{Pauses, Seat};
use crate::waiting::Waiting;
use service_records::{Answer, Pair, first_pair};
use std::alloc::AllocError;
use std::sync::Wait;
use std::time::Clock;

/// How many pairs one request polls at most.
const PAIRS: u32 = 64;

/// A poll is refused.
fn refuse_part(refusal: &Refusal, out: &mut Vec<u8>) -> Result<(), AllocError>
    ensures { OnOk result (out.new.items ≡ out.old.items ++ part_refused_bytes refusal.now) }
{
    let code = refusal.code();
    Answer::PartRefused { code }.put(refusal.text().as_bytes(), out)
}

/// Polls the pair in that place: 1 where it gave something or was refused, else 0. Its place stands before what it gave.
fn poll_part<S: Seat>(
    seat: &mut S,
    place: u32,
    pair: Pair,
    limit: u32,
    out: &mut Vec<u8>,
) -> Result<u32, AllocError>
    ensures { Part S.does place pair limit seat.old seat.new out.old.items out.new.items result }
{
    let before = out.len();
    let headed = Answer::Part { place }.put(&[], out);
    let polled = gather(seat, pair.subscription, pair.source, limit, out);
    headed?;
    match polled {
        Ok(0) => {
            out.truncate(before);
            Ok(0)
        }
        Ok(_) => Ok(1),
        Err(refusal) => {
            refuse_part(&refusal, out)?;
            Ok(1)
        }
    }
}

/// Polls each of the pairs once, in their order, until much is to be written: how many gave something.
fn poll_round<S: Seat>(
    seat: &mut S,
    pairs: &[u8],
    limit: u32,
    out: &mut Vec<u8>,
) -> Result<u32, AllocError>
    ensures { Round S.does limit (polled_pairs pairs.now) seat.old seat.new out.old.items out.new.items result }
{
    let mut left = pairs;
    let mut count = 0u32;
    for place in 0..PAIRS {
        if out.len() >= FULL {
            return Ok(count);
        }
        let Some(first) = first_pair(left) else {
            return Ok(count);
        };
        count += poll_part(seat, place, first.pair, limit, out)?;
        left = first.rest;
    }
    Ok(count)
}

/// Polls the pairs again, round after round, until one of them gives something or the wait is over.
fn poll_rounds<R: Clock + Wait, P: Pauses, S: Seat>(
    rt: &R,
    pauses: &mut P,
    seat: &mut S,
    pairs: &[u8],
    limit: u32,
    wait: u32,
    out: &mut Vec<u8>,
) -> Result<u32, AllocError>
    ensures { PollsAll S.does limit (polled_pairs pairs.now) seat.old seat.new out.old.items out.new.items result }
{
    let mut waiting = Waiting::new(wait);
    for _ in rt.forever() {
        let count = poll_round(seat, pairs, limit, out)?;
        if count > 0 || waiting.is_over(rt, pauses) {
            return Ok(count);
        }
    }
    unreachable!()
}

/// A poll of several pairs is answered: by the records of each that gives something or is refused, and by the one that closes them.
pub(crate) fn answer_rounds<R: Clock + Wait, P: Pauses, S: Seat>(
    rt: &R,
    pauses: &mut P,
    seat: &mut S,
    pairs: &[u8],
    limit: u32,
    wait: u32,
    out: &mut Vec<u8>,
) -> Result<(), AllocError>
    ensures { AnswersAll S.does limit (polled_pairs pairs.now) seat.old seat.new out.old.items out.new.items result }
{
    let count = poll_rounds(rt, pauses, seat, pairs, limit, wait, out)?;
    Answer::Done { count }.put(&[], out)
}

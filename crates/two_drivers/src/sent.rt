//! Which datagram of those that the first world sent so far has a number.

ghost use Rattle.std.specs.Prelude.{◌≡◌, ◌++◌, List, length};
ghost use Rattle.two_drivers.specs.Drivers.{numbered};
ghost use Rattle.two_drivers.specs.Sent.{Datagram, all_to, let_to, sent_by};
ghost use Rattle.two_drivers.specs.Worlds.{found_or, sent_of, sent_of_all};

use crate::pair_step::PairStep;
use byte_strings::Bytes;
use driver_core::{Address, Outlet};
use driver_world::Answer;
use std::marker::Model;

/// A datagram on its way. Its bytes are lent by the answer that has them.
#[derive(Drop)]
pub(crate) struct OnItsWay<'a> {
    /// Where it goes.
    pub(crate) to: Address,
    pub(crate) bytes: &'a [u8],
}

impl<'a> Model for OnItsWay<'a> {
    ghost use Rattle.two_drivers.specs.Sent.{Datagram};

    ghost Value = { Datagram };

    ghost view = { λ datagram. record { to = datagram.to; bytes = datagram.bytes.now } };
}

/// The datagram of that number, among those that go to a destination which the bytes may go to. Where it is past them, an `Err`
/// says which one it is of those that come later.
fn let_to<'a>(bytes: &'a [u8], outlets: &[Outlet], number: u64) -> Result<OnItsWay<'a>, u64>
    ensures { (later : List Datagram) → numbered number (let_to bytes.now outlets.now ++ later) ≡ found_or result later }
{
    let mut left = number;
    for outlet in outlets {
        if outlet.decision.verdict.allow {
            if left == 0 {
                return Ok(OnItsWay {
                    to: outlet.to,
                    bytes,
                });
            }
            left -= 1;
        }
    }
    Err(left)
}

/// The datagram of that number, among those that all go there.
fn all_to<'a>(to: &Address, datagrams: &'a [Bytes], number: u64) -> Result<OnItsWay<'a>, u64>
    ensures { (later : List Datagram) → numbered number (all_to to.now datagrams.now ++ later) ≡ found_or result later }
{
    let mut left = number;
    for bytes in datagrams {
        if left == 0 {
            return Ok(OnItsWay {
                to: *to,
                bytes: bytes.as_slice(),
            });
        }
        left -= 1;
    }
    Err(left)
}

/// The datagram of that number, among those that were sent by a step with this answer.
fn sent_by(answer: &Answer, number: u64) -> Result<OnItsWay<'_>, u64>
    ensures { (later : List Datagram) → numbered number (sent_by answer.now ++ later) ≡ found_or result later }
{
    match answer {
        Answer::Sent { bytes, outlets } => let_to(bytes.as_slice(), outlets.as_slice(), number),
        Answer::Resent { to, datagrams } => all_to(to, datagrams.as_slice(), number),
        Answer::Reported { to, datagrams } => all_to(to, datagrams.as_slice(), number),
        _ => Err(number),
    }
}

/// The same, where only a step of the first sends.
fn sent_of<'a>(step: &PairStep, answer: &'a Answer, number: u64) -> Result<OnItsWay<'a>, u64>
    ensures { (later : List Datagram) → numbered number (sent_of step.now answer.now ++ later) ≡ found_or result later }
{
    match step {
        PairStep::A(_) => sent_by(answer, number),
        _ => Err(number),
    }
}

/// The datagram of that number, counted from 0, among those that the first sent so far, by steps with these answers. It takes
/// no memory, and walks over the answers.
pub(crate) fn find_sent<'a>(
    steps: &[PairStep],
    answers: &'a [Answer],
    number: u64,
) -> Option<OnItsWay<'a>>
    requires { length steps.now ≡ length answers.now }
    ensures { result ≡ numbered number (sent_of_all steps.now answers.now) }
{
    let mut left = number;
    for (at, answer) in answers.iter().enumerate() {
        match sent_of(&steps[at], answer, left) {
            Ok(datagram) => return Some(datagram),
            Err(rest) => left = rest,
        }
    }
    None
}

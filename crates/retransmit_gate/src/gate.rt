ghost use Rattle.std.specs.Prelude.{◌≡◌, ◌+◌, ◌^◌, ◌<◌, ◌≤◌, unsigned_abs, true};
ghost use Rattle.std.specs.List.{list_any};
ghost use Rattle.retransmit_gate.specs.Gate.{Resends, lingering, meets, is_within, answer_among, answer_of, after_nak, joined, kept_of, opened};

use crate::answer::Answer;
use crate::moment::{is_past, later_of};
use crate::resent::{Resent, ResentList};
use std::marker::Model;
use std::ops::Range;

/// What a sender has sent again of one log, and so which NAKs it answers.
#[derive(Debug, Drop)]
pub struct Gate {
    /// For how long a range that was sent again is not sent again, in nanoseconds.
    linger: u64,
    /// The greatest moment seen, in nanoseconds.
    latest: u64,
    /// What was sent again and lingers, in order.
    resent: ResentList,
}

impl Model for Gate {
    ghost use Rattle.retransmit_gate.specs.Gate.{Resends};

    ghost Value = { Resends };

    ghost view = { λ gate. record { linger = gate.linger; latest = gate.latest; list = gate.resent } };
}

/// The range lies within the window.
fn is_within(position: u64, length: u32, window: &Range<u64>) -> bool
    ensures within { result ≡ is_within position length window.now }
    ensures fits { result ≡ true → position + length < 2 ^ 64 }
{
    window.start <= position && position <= window.end && u64::from(length) <= window.end - position
}

/// The range from `start` to `end` meets one of these.
fn meets_any(start: u64, end: u64, list: &[Resent]) -> bool
    ensures { result ≡ list_any (meets start end) list.now }
{
    list.iter()
        .any(|resent| start.max(resent.start) < end.min(resent.end))
}

/// The first that applies, where these ranges linger.
fn answer_among(resent: &ResentList, position: u64, length: i32, window: &Range<u64>) -> Answer
    ensures answer { result ≡ answer_among resent.now position length window.now }
    ensures within { result ≡ Answer.Resend → position + unsigned_abs length < 2 ^ 64 }
{
    if length <= 0 {
        return Answer::Empty;
    }
    if !is_within(position, length.unsigned_abs(), window) {
        return Answer::OutOfWindow;
    }
    let end = position + u64::from(length.unsigned_abs());
    if meets_any(position, end, resent.as_slice()) {
        return Answer::Lingering;
    }
    if resent.is_full() {
        return Answer::Busy;
    }
    Answer::Resend
}

/// Forgets what no longer lingers and decides; a range that is sent again joins what lingers.
fn decide(
    linger: u64,
    moment: u64,
    resent: &mut ResentList,
    position: u64,
    length: i32,
    window: Range<u64>,
) -> Answer
    ensures answer { result ≡ answer_among (lingering linger moment resent.old) position length window }
    ensures list { resent.new ≡ joined result (lingering linger moment resent.old)
        (record { start = position; end = position + unsigned_abs length; moment = moment }) }
{
    resent.forget(linger, moment);
    let answer = answer_among(resent, position, length, &window);
    if let Answer::Resend = answer {
        resent.push(Resent {
            start: position,
            end: position + u64::from(length.unsigned_abs()),
            moment,
        });
    }
    answer
}

impl Gate {
    /// Another gate, equal to this one. It takes no memory.
    pub fn copy(&self) -> Gate
        ensures { result ≡ self.now }
    {
        Gate {
            linger: self.linger,
            latest: self.latest,
            resent: self.resent.copy(),
        }
    }

    /// The gate of a log of which nothing was sent again. A range that was sent again lingers for `linger` nanoseconds.
    #[tactic(auto, unfolding(crate::specs::Gate::kept_of))]
    pub fn new(linger: u64) -> Gate
        ensures opened { result ≡ opened linger }
        ensures all { result ≡ kept_of (opened linger) }
    {
        Gate {
            linger,
            latest: 0,
            resent: ResentList::new(),
        }
    }

    /// Decides a NAK that came at the moment `now`, in nanoseconds, of `length` bytes from `position` on. `window` is
    /// the range of positions that may be sent again. A range that is sent again lingers from then on.
    ///
    /// A moment earlier than one already seen counts as the one seen. The answer is the first that applies, in the order
    /// [`Answer::Empty`], [`Answer::OutOfWindow`], [`Answer::Lingering`], [`Answer::Busy`], [`Answer::Resend`].
    #[tactic(auto, unfolding(crate::specs::Gate::answer_of))]
    pub fn on_nak(&mut self, now: u64, position: u64, length: i32, window: Range<u64>) -> Answer
        ensures answer { result ≡ answer_of self.old now position length window }
        ensures after { self.new ≡ kept_of (after_nak self.old now position length window) }

        // The same over all that was ever sent again, of which the gate keeps what can still decide.
        ensures answer_of_all { (resends : Resends) → self.old ≡ kept_of resends → result ≡ answer_of resends now position length window }
        ensures after_all { (resends : Resends) → self.old ≡ kept_of resends → self.new ≡ kept_of (after_nak resends now position length window) }
    {
        let moment = later_of(self.latest, now);
        self.latest = moment;
        decide(
            self.linger,
            moment,
            &mut self.resent,
            position,
            length,
            window,
        )
    }
}

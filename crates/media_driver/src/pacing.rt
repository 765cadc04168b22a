//! How long a client waits before it polls a log that it polled before. Where a poll takes the lock as soon as a message is
//! there, it finds that one alone and holds up who offers the next: so a client lets more come first.

use crate::hints::Hint;
use log_slots::rest;
use log_steps::FragmentCopies;

/// How many fragments are enough for one hold of the lock of an image.
const ENOUGH: u64 = 16;

/// How many steps the first rest before an image is polled has. Each further one has twice as many.
const SHORTEST: u32 = 16;

/// How many steps such a rest has at most: two microseconds.
const LONGEST: u32 = 256;

/// How many steps a poll waits for offers at most: some eight microseconds.
const PATIENCE: u32 = 1000;

/// How many steps say that an offer came at once, as in a stream, or that none is to follow: half a microsecond.
const AT_ONCE: u32 = 64;

/// How many positions are enough for one hold of the lock.
const SPAN: u64 = 24_000;

/// How many positions the frame of a short message takes.
const SHORT: u64 = 96;

/// How many polls in a row that give nothing wait for offers.
const TRIES: u32 = 8;

/// What the last polls of one log gave.
#[derive(Clone, Copy, Debug)]
pub(crate) struct Pace {
    /// How many fragments the last one gave.
    given: u64,
    /// The position after the last fragment.
    end: u64,
    /// The position that offers get to where the next one is worth its lock.
    wanted: u64,
    /// How many in a row gave nothing.
    empty: u32,
    /// How many steps the next one rests first, of an image.
    steps: u32,
}

impl Pace {
    /// No poll yet.
    pub(crate) fn new() -> Pace {
        Pace {
            given: 0,
            end: 0,
            wanted: 0,
            empty: TRIES,
            steps: 0,
        }
    }

    /// Waits before a poll for so many fragments: for offers, where the log has a hint and gave something lately.
    pub(crate) fn wait(&self, hint: Option<&Hint>, limit: u32) {
        match hint {
            Some(hint) => {
                if self.empty < TRIES {
                    self.wait_for_offers(hint, limit);
                }
            }
            None => rest(self.steps),
        }
    }

    /// Waits until offers got as far as is wanted. Where a message that is wanted alone comes at once, and another one after it, a
    /// stream begins, and many are waited for.
    fn wait_for_offers(&self, hint: &Hint, limit: u32) {
        let waited = hint.wait(self.wanted, PATIENCE);
        if self.given < 2 && waited < AT_ONCE && hint.moves(AT_ONCE) {
            let many = self.end.saturating_add(span_of(limit, SHORT));
            hint.want(many);
            hint.wait(many, PATIENCE);
        }
    }

    /// The pace after a poll for so many fragments that gave these.
    pub(crate) fn after(self, hint: Option<&Hint>, limit: u32, fragments: &FragmentCopies) -> Pace {
        let mut pace = self;
        pace.polled(hint, limit, fragments);
        pace
    }

    /// A poll for so many fragments gave these.
    fn polled(&mut self, hint: Option<&Hint>, limit: u32, fragments: &FragmentCopies) {
        let mut given = 0u64;
        let mut first = 0u64;
        for fragment in fragments.iter() {
            if given == 0 {
                first = fragment.position;
            }
            self.end = fragment.position;
            given = given.saturating_add(1);
        }
        self.given = given;
        self.empty = if given == 0 {
            self.empty.saturating_add(1)
        } else {
            0
        };
        self.steps = steps_after(self.steps, limit, given);
        let more = if given < 2 {
            1
        } else {
            span_of(limit, self.end.saturating_sub(first) / (given - 1))
        };
        self.wanted = self.end.saturating_add(more);
        if let Some(hint) = hint {
            hint.want(self.wanted);
        }
    }
}

/// How many positions so many frames take, each of so many, but no more than are enough.
fn span_of(limit: u32, frame: u64) -> u64 {
    frame.saturating_mul(u64::from(limit)).min(SPAN)
}

/// How many steps the next poll of an image rests, after one that rested for so many and gave so many fragments of `limit`:
/// fewer where these were enough, so that a reader that is behind catches up. It does not rest where nothing was there, so
/// that the first message after a pause is found at once.
fn steps_after(steps: u32, limit: u32, given: u64) -> u32 {
    if given == 0 {
        0
    } else if given >= ENOUGH || given >= u64::from(limit) {
        steps / 2
    } else {
        steps.saturating_mul(2).max(SHORTEST).min(LONGEST)
    }
}

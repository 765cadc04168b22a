ghost use Rattle.std.specs.Prelude.{◌≡◌};
ghost use Rattle.retransmit_gate.specs.Nakker.{Watch, after_tick, asked_if, is_due_since, known_of, nak_of, watching};

use crate::moment::{is_past, later_of};
use std::marker::Model;

/// A range of positions that is asked for again.
#[derive(Clone, Copy, Debug, PartialEq, Eq)]
pub struct Nak {
    /// The first position.
    pub position: u64,
    /// How many bytes.
    pub length: u32,
}

/// What is known of a gap.
#[derive(Clone, Copy, Debug, PartialEq, Eq)]
pub struct Missing {
    /// The first position that is missing.
    pub position: u64,
    /// When the gap was first seen, in nanoseconds.
    pub seen: u64,
    /// When the last NAK of it was given, in nanoseconds.
    pub asked: Option<u64>,
}

impl Missing {
    /// What is known of the gap at `position`, where `before` was known of the one before it.
    fn known(before: Option<Missing>, position: u64, moment: u64) -> Missing
        ensures { result ≡ known_of before position moment }
    {
        match before {
            Some(missing) if missing.position == position => missing,
            _ => Missing {
                position,
                seen: moment,
                asked: None,
            },
        }
    }

    /// Whether a NAK of it is due.
    fn is_due(&self, delay: u64, repeat: u64, moment: u64) -> bool
        ensures { result ≡ is_due_since delay repeat moment self.now.seen self.now.asked }
    {
        match self.asked {
            None => is_past(moment, self.seen, delay),
            Some(asked) => is_past(moment, asked, repeat),
        }
    }
}

/// Says when a receiver sends a NAK of the gap in an image.
#[derive(Debug, Drop)]
pub struct Nakker {
    /// How long a gap lasts before the first NAK, in nanoseconds.
    delay: u64,
    /// How long after a NAK there is another one, in nanoseconds.
    repeat: u64,
    /// The greatest moment seen, in nanoseconds.
    latest: u64,
    /// The gap that the last tick had.
    missing: Option<Missing>,
}

impl Model for Nakker {
    ghost use Rattle.retransmit_gate.specs.Nakker.{Watch};

    ghost Value = { Watch };

    ghost view = { λ nakker. record {
      delay = nakker.delay;
      repeat = nakker.repeat;
      latest = nakker.latest;
      missing = nakker.missing;
    } };
}

impl Nakker {
    /// The Nakker of an image in which no gap was seen yet. The first NAK of a gap is given past `delay` nanoseconds
    /// since it was first seen, and another one past each `repeat` nanoseconds since the last.
    pub fn new(delay: u64, repeat: u64) -> Nakker
        ensures { result ≡ watching delay repeat }
    {
        Nakker {
            delay,
            repeat,
            latest: 0,
            missing: None,
        }
    }

    /// Another one, equal to this. It takes no memory.
    pub fn copy(&self) -> Nakker
        ensures { result ≡ self.now }
    {
        Nakker {
            delay: self.delay,
            repeat: self.repeat,
            latest: self.latest,
            missing: self.missing,
        }
    }

    /// The NAK that is due at the moment `now`, in nanoseconds. `gap` is the position and the length in bytes of what is
    /// missing next.
    ///
    /// A gap is first seen at the tick that first has it; a gap at another position is a new one, and a tick without a
    /// gap forgets it. A moment earlier than one already seen counts as the one seen.
    #[tactic(auto, unfolding(crate::specs::Nakker::nak_of, crate::specs::Nakker::after_tick))]
    pub fn on_tick(&mut self, now: u64, gap: Option<(u64, u32)>) -> Option<Nak>
        ensures nak { result ≡ nak_of self.old now gap }
        ensures after { self.new ≡ after_tick self.old now gap }
    {
        let moment = later_of(self.latest, now);
        self.latest = moment;
        let Some((position, length)) = gap else {
            self.missing = None;
            return None;
        };
        let mut missing = Missing::known(self.missing, position, moment);
        let due = missing.is_due(self.delay, self.repeat, moment);
        if due {
            missing.asked = Some(moment);
        }
        self.missing = Some(missing);
        if due {
            Some(Nak { position, length })
        } else {
            None
        }
    }
}

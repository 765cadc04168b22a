//! Lines that wait to be written, and how many of a door's are said in a second.

ghost use Rattle.program_parts.specs.Lines.{after_line, after_telling, may_say, one_more, said_in, untold};
ghost use Rattle.std.specs.Prelude.{◌≡◌, ◌⊎◌, ◌++◌, ◌∷◌, ◌≤◌, [], false, vec_len};

use std::alloc::Global;

/// How many texts wait at most, if others do.
const WAITING: usize = 256;

/// How many bytes these have at most.
const BYTES: usize = 1 << 20;

/// How many lines of a door are said in a second.
const SAID: u64 = 10;

/// What waits to be written, and how much did not get there.
#[derive(Drop)]
pub(crate) struct Lines {
    pub(crate) waiting: Vec<String>,
    /// How many bytes these have.
    bytes: usize,
    /// How many texts were dropped.
    pub(crate) dropped: u64,
}

impl Lines {
    pub(crate) fn new(alloc: Global) -> Lines {
        Lines {
            waiting: Vec::new(alloc),
            bytes: 0,
            dropped: 0,
        }
    }

    /// Whether so many more bytes may wait.
    fn has_room(&self, bytes: usize) -> bool
        ensures { 256 ≤ vec_len self.now.waiting → result ≡ false }
    {
        self.waiting.is_empty()
            || self.waiting.len() < WAITING && self.bytes.saturating_add(bytes) <= BYTES
    }

    /// A text could not wait.
    pub(crate) fn drop_one(&mut self)
        ensures { self.new ≡ record self.old { dropped = one_more self.old.dropped } }
    {
        self.dropped = self.dropped.saturating_add(1);
    }

    /// A text waits behind the others, or is one more that was dropped.
    pub(crate) fn take(&mut self, text: String)
        ensures { ((self.new.waiting.items ≡ self.old.waiting.items ++ text ∷ []) × (self.new.dropped ≡ self.old.dropped)) ⊎ ((self.new.waiting.items ≡ self.old.waiting.items) × (self.new.dropped ≡ one_more self.old.dropped)) }
    {
        let bytes = text.len();
        if !self.has_room(bytes) || self.waiting.push(text).is_err() {
            self.drop_one();
            return;
        }
        self.bytes = self.bytes.saturating_add(bytes);
    }

    /// Whether there is nothing to write.
    pub(crate) fn are_none(&self) -> bool {
        self.waiting.is_empty() && self.dropped == 0
    }
}

/// How many lines of a door's connections were said in a second, and how many were not since that was told.
#[derive(Clone, Copy, Debug, PartialEq, Eq)]
pub(crate) struct Pace {
    /// The second, by the machine's clock.
    second: u64,
    said: u64,
    unsaid: u64,
}

impl Pace {
    pub(crate) const NEW: Pace = Pace {
        second: 0,
        said: 0,
        unsaid: 0,
    };

    /// How many were said in that second.
    fn said_in(&self, second: u64) -> u64
        ensures { result ≡ said_in second self.now }
    {
        if self.second == second { self.said } else { 0 }
    }

    /// A line comes in that second. Whether it is said.
    pub(crate) fn says(&mut self, second: u64) -> bool
        ensures said { result ≡ may_say second self.old }
        ensures counted { self.new ≡ after_line second self.old }
    {
        let said = self.said_in(second);
        self.second = second;
        self.said = said;
        if said < SAID {
            self.said = said + 1;
            return true;
        }
        self.unsaid = self.unsaid.saturating_add(1);
        false
    }

    /// How many lines of earlier seconds were not said. They are told by this.
    pub(crate) fn tell(&mut self, second: u64) -> u64
        ensures told { result ≡ untold second self.old }
        ensures counted { self.new ≡ after_telling second self.old }
    {
        if self.second == second {
            return 0;
        }
        let unsaid = self.unsaid;
        self.unsaid = 0;
        unsaid
    }
}

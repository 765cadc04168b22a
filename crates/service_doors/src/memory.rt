//! The memory that records take which are not whole yet, door by door: a connection waits where others of its door take all.

ghost use Rattle.service_doors.specs.Memory.{begun, may_begin, most};
ghost use Rattle.std.specs.Prelude.{◌≡◌, ◌≤◌, ◌-◌};

use crate::share::Room;
use std::sync::{Arc, Wait};

/// How many bytes the long records of a door's connections take together at most, where there are several.
const MOST: u64 = 33_554_432;

/// How many bytes the long records of a door's connections take.
#[derive(Debug, Drop)]
pub(crate) struct LongBytes {
    taken: u64,
}

impl LongBytes {
    /// None has begun.
    pub(crate) fn new() -> LongBytes
        ensures { result.taken ≡ 0 }
    {
        LongBytes { taken: 0 }
    }

    /// Whether a record of so many bytes may begin. Where it may, it takes them from now on.
    pub(crate) fn begin(&mut self, bytes: u64) -> bool
        ensures may { result ≡ may_begin self.old.taken bytes }
        ensures takes { self.new.taken ≡ begun self.old.taken bytes }
    {
        let taken = self.taken.saturating_add(bytes);
        let may = self.taken == 0 || taken <= MOST;
        if may {
            self.taken = taken;
        }
        may
    }

    /// One of so many bytes was answered.
    pub(crate) fn end(&mut self, bytes: u64)
        ensures { self.new.taken ≡ self.old.taken - bytes }
    {
        self.taken = self.taken.saturating_sub(bytes);
    }
}

/// The memory of a door's long records, as one of its connections has it.
#[derive(Drop)]
pub struct DoorMemory {
    room: Arc<Room>,
    /// How many bytes the long record of this connection takes.
    taken: u64,
}

impl DoorMemory {
    pub(crate) fn new(room: Arc<Room>) -> DoorMemory
        ensures room { result.room ≡ room }
        ensures none { result.taken ≡ 0 }
    {
        DoorMemory { room, taken: 0 }
    }

    /// Whether a long record of so many bytes may begin now.
    pub(crate) fn begin<R: Wait>(&mut self, rt: &R, bytes: u64) -> bool
        ensures room { self.new.room ≡ self.old.room }
    {
        let mut long = self.room.long.lock(rt);
        if !long.begin(bytes) {
            return false;
        }
        self.taken = bytes;
        true
    }

    /// The long record of this connection was answered, or is not read on.
    pub(crate) fn end<R: Wait>(&mut self, rt: &R)
        ensures room { self.new.room ≡ self.old.room }
        ensures none { self.new.taken ≡ 0 }
    {
        if self.taken > 0 {
            let mut long = self.room.long.lock(rt);
            long.end(self.taken);
        }
        self.taken = 0;
    }
}

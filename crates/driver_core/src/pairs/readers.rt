//! Which subscriptions read a log.

ghost use Rattle.driver_core.specs.Pairs.{pairs_of};
ghost use Rattle.driver_core.specs.Readers.{readers_of};
ghost use Rattle.log_readers.specs.Unread.{is_of_source};
ghost use Rattle.std.specs.Prelude.{◌≡◌, ◌≤◌, filter, length};

use crate::state::registry::Registry;
use rows::Rows;

/// Puts these numbers into `room`, in place of what is there.
fn put(room: &mut Rows<u64, 512>, numbers: &[u64])
    requires { length numbers.now ≤ 512 }
    ensures { room.new ≡ numbers.now }
{
    room.clear();
    for number in numbers {
        room.push(*number);
    }
}

impl Registry {
    /// How many subscriptions read the log of that source.
    pub(crate) fn reader_count(&self, source: u64) -> usize
        ensures { result ≡ length (filter (is_of_source source) (pairs_of self.now)) }
    {
        self.readers.of_source(&self.streams, source).len()
    }

    /// Puts the subscriptions that read the log of that source into `room`, in place of what is there. It takes no memory.
    pub fn readers(&self, source: u64, room: &mut Rows<u64, 512>)
        requires { length (readers_of (pairs_of self.now) source) ≤ 512 }
        ensures { room.new ≡ readers_of (pairs_of self.now) source }
    {
        put(room, self.readers.of_source(&self.streams, source));
    }
}

// A struct that holds a lease, writes through it and gives it back. All that its user carries is of which region the
// lease is.
ghost use Rattle.std.specs.Prelude.{◌≡◌, ◌+◌, ◌/◌, ◌≤◌, ◌++◌, false, true, length, take, drop};
ghost use Rattle.log_arena.specs.Pages.{marked};

use log_arena::{Arena, Lease};

/// Pages that are written from the front on.
#[derive(Drop)]
pub(crate) struct Journal {
    lease: Lease,
    // how many bytes were written
    written: usize,
    ghost within: { written ≤ lease.bytes.len },
}

impl Journal {
    ghost use Rattle.log_arena.specs.Lease.{IsOf, lease_bytes, lease_home, lease_len, lease_place};

    /// Nothing is written yet.
    pub(crate) fn new(lease: Lease) -> Journal
        ensures { (result.lease ≡ lease) × (result.written ≡ 0) }
    {
        Journal { lease, written: 0 }
    }

    /// Writes `text` after what was written. Whether there was room; else nothing is written.
    pub(crate) fn append(&mut self, text: &[u8]) -> bool
        ensures written { result ≡ true → self.new.written ≡ self.old.written + length text.now }
        ensures bytes { result ≡ true → lease_bytes self.new.lease
            ≡ take self.old.written (lease_bytes self.old.lease) ++ (text.now ++ drop self.new.written (lease_bytes self.old.lease)) }
        ensures same { result ≡ false → self.new ≡ self.old }
        ensures home { lease_home self.new.lease ≡ lease_home self.old.lease }
        ensures span { (lease_place self.new.lease ≡ lease_place self.old.lease)
            × (lease_len self.new.lease ≡ lease_len self.old.lease) }
    {
        let from = self.written;
        if self.lease.len() - from < text.len() {
            return false;
        }
        let to = from + text.len();
        self.lease.bytes_mut()[from..to].copy_from_slice(text);
        self.written = to;
        true
    }

    /// What was written.
    pub(crate) fn text(&self) -> &[u8]
        ensures { result.now ≡ take self.now.written (lease_bytes self.now.lease) }
    {
        &self.lease.bytes()[..self.written]
    }

    /// Gives the pages back to their arena.
    pub(crate) fn close(self, arena: &mut Arena)
        requires { IsOf arena.old self.lease }
        ensures { arena.new ≡ record arena.old {
          leased
              = marked false (lease_place self.lease / 4096) (lease_len self.lease / 4096) arena.old.leased;
        } }
    {
        let Journal { lease, written: _ } = self;
        arena.give(lease);
    }
}

ghost use Rattle.std.specs.Prelude.{◌≡◌, ℕ, ◌+◌, ◌*◌, ◌/◌, ◌%◌, ◌<◌, ◌≤◌, true, false, List, length, replicate, IfOk, OnErr};
ghost use Rattle.log_arena.specs.Lease.{HasItsPages, IsOf, IsSame, lease_place, lease_len, lease_bytes};
ghost use Rattle.log_arena.specs.Pages.{IsLeastPlace, HasNoPlace, marked, holes_of, used_bytes, free_bytes};

use crate::holes::Holes;
use crate::lease::Lease;
use crate::memory::{Deed, attach, detach};
use std::alloc::{AllocError, Global};
use std::marker::Model;
use std::mem::ManuallyDrop;

/// The bytes of a page.
pub const PAGE: usize = 4096;

/// There was no memory for the region or for the list of its holes.
pub type NoMemory = AllocError;

/// No run of pages without a lease is long enough.
#[derive(Debug, Clone, Copy, PartialEq, Eq, Drop)]
pub struct NoRoom;

/// One region of memory in pages of 4,096 bytes, from which leases are taken and to which they are given back.
///
/// Contracts see of it which region it is (where it begins, and how many pages it has), and of each page whether it
/// has a lease.
pub struct Arena {
    pages: usize,
    deed: Deed,
    holes: Holes,
}

/// Pages of zeros. They are written a page at a time: a build that optimizes nothing does that some seventy times faster than
/// a byte at a time.
fn blank(alloc: Global, pages: usize) -> Result<Vec<u8>, NoMemory>
    requires { pages ≤ 65536 }
    ensures { IfOk result (λ bytes. bytes.len ≡ pages * 4096) }
{
    let mut bytes = Vec::with_capacity(alloc, pages * PAGE)?;
    let mut page = 0;
    while page < pages {
        bytes.extend_from_slice(&[0u8; PAGE])?;
        page += 1;
    }
    Ok(bytes)
}

impl Model for Arena {
    ghost use Rattle.log_arena.specs.Pages.{Region, region_code};
    ghost use Rattle.log_arena.specs.Spans.{IsArena, table};

    ghost Value = { Region };

    ghost coded = { region_code };

    ghost view = { λ a. record { home = record { base = a.holes.base; pages = a.pages }; leased = table 0 a.pages a.holes.spans } };

    ghost invariant = { λ a. IsArena a.deed a.pages a.holes };
}

impl Arena {
    /// A region of `pages` pages, from 1 to 65,536, none of which has a lease. No later call takes memory.
    pub fn new(alloc: Global, pages: usize) -> Result<Arena, NoMemory>
        requires { (0 < pages) × (pages ≤ 65536) }
        ensures { IfOk result (λ a. (a.home.pages ≡ pages) × (a.leased ≡ replicate pages false)) }
    {
        let room = Holes::room_for(alloc, pages / 2 + 2)?;
        let mut bytes = blank(alloc, pages)?;
        let base = bytes.as_mut_ptr();
        let (run, deed) = detach(bytes);
        let holes = Holes::whole(base, pages * PAGE, run, room);
        Ok(Arena { pages, deed, holes })
    }

    /// A lease of `len` bytes, a positive multiple of 4,096: at the least place where all of its pages have none,
    /// and all zeros. `NoRoom` where there is no such place; nothing is changed then.
    pub fn lease(&mut self, len: usize) -> Result<Lease, NoRoom>
        requires { (0 < len) × (len % 4096 ≡ 0) }
        ensures least { IfOk result (λ l. IsLeastPlace self.old.leased (len / 4096) (lease_place l / 4096)) }
        ensures none { OnErr result (HasNoPlace self.old.leased (len / 4096)) }
        ensures here { IfOk result (λ l. IsOf self.new l) }
        ensures long { IfOk result (λ l. lease_len l ≡ len) }
        ensures zeros { IfOk result (λ l. lease_bytes l ≡ replicate len 0) }
        ensures taken { IfOk result (λ l. self.new
            ≡ record self.old { leased = marked true (lease_place l / 4096) (len / 4096) self.old.leased }) }
        ensures home { self.new.home ≡ self.old.home }
        ensures sized { length self.new.leased ≡ self.new.home.pages }
        ensures err { OnErr result (self.new ≡ self.old) }
    {
        let at = self.holes.first_fit(len);
        if at == self.holes.len() {
            return Err(NoRoom);
        }
        let (place, run) = self.holes.take_front(at, len);
        let start = self.holes.start_of(place);
        Ok(Lease::zeroed(self.pages, (place, len), start, run))
    }

    /// Takes back a lease of this arena: its pages have none then.
    pub fn give(&mut self, lease: Lease)
        requires { IsOf self.old lease }
        ensures sized { length self.new.leased ≡ self.new.home.pages }
        ensures given { self.new ≡ record self.old {
          leased
              = marked false (lease_place lease / 4096) (lease_len lease / 4096) self.old.leased;
        } }
    {
        let (span, run) = lease.into_run();
        self.holes.put_back(span, run);
    }

    // Looks for a place of a lease's bytes among the holes. None of its pages is in a hole.
    pub(crate) fn beside(&mut self, lease: Lease) -> Lease
        requires { IsOf self.old lease }
        ensures unchanged { self.new ≡ self.old }
        ensures same { IsSame lease result }
        ensures leased { HasItsPages self.old.leased lease }
    {
        let mut lease = lease;
        let (pages, start) = (lease.pages(), lease.start());
        let (span, run) = lease.into_run();
        let (_at, run) = self.holes.place_of(span, run);
        Lease::again(pages, span, start, run)
    }

    /// The maximal runs of pages without a lease, each as its place and its length in bytes, ascending.
    pub fn holes(&self) -> &[(usize, usize)]
        ensures { result.now ≡ holes_of self.now.leased }
    {
        self.holes.as_slice()
    }

    /// How many bytes have a lease, those of leases that were dropped included.
    pub fn used(&self) -> usize
        ensures { result ≡ used_bytes self.now.leased }
    {
        self.pages * PAGE - self.free()
    }

    /// How many bytes have none.
    pub fn free(&self) -> usize
        ensures { result ≡ free_bytes self.now.leased }
    {
        self.holes.total()
    }
}

impl Drop for Arena {
    // With no page used the region goes back. Else it is kept for good, and the leases that are out stay usable.
    fn drop(self) {
        let Arena { pages, deed, holes } = self;
        match holes.into_whole(pages * PAGE) {
            Some(run) => drop(attach(run, deed)),
            None => {
                let _kept = unsafe { ManuallyDrop::new_unchecked(deed) };
            }
        }
    }
}

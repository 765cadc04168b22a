ghost use Rattle.std.specs.Prelude.{◌≡◌, ℕ, ◌^◌, ◌<◌, List, length, replicate};
ghost use Rattle.std.specs.Borrow.{sem};
ghost use denote.RawPtr.{◌+ₚ◌};
ghost use Rattle.log_arena.specs.Homes.{IsHoused, back};

use crate::memory::{Run, house, vacate};
use std_alloc::vec::Lodged;

/// Some pages of an arena, for its holder alone. It may be moved to another thread.
///
/// One that is dropped keeps its pages used: `Arena::give` takes it back.
#[derive(Drop)]
pub struct Lease {
    // how many pages its region has
    pages: usize,
    // where it begins in the region, in bytes
    place: usize,
    bytes: Vec<u8, Lodged>,
    pub ghost housed: { IsHoused pages place bytes.ptr bytes.len },
}

impl Lease {
    ghost use Rattle.log_arena.specs.Lease.{LendsBytes, lease_bytes, lease_home, lease_len, lease_place};

    // `span` is its place and its length, in a region of `pages` pages.
    pub(crate) fn zeroed(pages: usize, span: (usize, usize), start: *mut u8, run: Run) -> Lease
        requires run { (run.ptr ≡ start) × (length run.items ≡ span.1) × (span.1 < 2 ^ 63) }
        requires housed { IsHoused pages span.0 start span.1 }
        ensures home { lease_home result ≡ record { base = back start span.0; pages = pages } }
        ensures place { lease_place result ≡ span.0 }
        ensures len { lease_len result ≡ span.1 }
        ensures zeros { lease_bytes result ≡ replicate span.1 0 }
    {
        let mut bytes = house(start, span.1, run);
        bytes.as_mut_slice().fill(0);
        Lease {
            pages,
            place: span.0,
            bytes,
        }
    }

    // The same lease again.
    pub(crate) fn again(pages: usize, span: (usize, usize), start: *mut u8, run: Run) -> Lease
        requires run { (run.ptr ≡ start) × (length run.items ≡ span.1) × (span.1 < 2 ^ 63) }
        requires housed { IsHoused pages span.0 start span.1 }
        ensures { (result.pages ≡ pages) × (lease_place result ≡ span.0) × (lease_len result ≡ span.1)
            × (lease_bytes result ≡ run.items) × (result.bytes.ptr ≡ start) }
    {
        Lease {
            pages,
            place: span.0,
            bytes: house(start, span.1, run),
        }
    }

    // How many pages its region has.
    pub(crate) fn pages(&self) -> usize
        ensures { result ≡ self.now.pages }
    {
        self.pages
    }

    // Where its bytes are in memory.
    pub(crate) fn start(&mut self) -> *mut u8
        ensures start { result ≡ self.old.bytes.ptr }
        ensures unchanged { self.new ≡ self.old }
    {
        self.bytes.as_mut_ptr()
    }

    // The span and its bytes.
    pub(crate) fn into_run(self) -> ((usize, usize), Run)
        ensures { (result.0 ≡ (lease_place self, lease_len self)) × (result.1.ptr ≡ self.bytes.ptr)
            × (result.1.items ≡ lease_bytes self) }
    {
        let Lease {
            pages: _,
            place,
            bytes,
        } = self;
        let len = bytes.len();
        ((place, len), vacate(bytes))
    }

    /// Where it begins in the region, in bytes.
    pub fn place(&self) -> usize
        ensures { result ≡ lease_place self.now }
    {
        self.place
    }

    /// How many bytes it has.
    pub fn len(&self) -> usize
        ensures { result ≡ lease_len self.now }
    {
        self.bytes.len()
    }

    /// Its bytes.
    pub fn bytes(&self) -> &[u8]
        ensures { result.now ≡ lease_bytes self.now }
    {
        self.bytes.as_slice()
    }

    /// Its bytes, to be written.
    pub fn bytes_mut(&mut self) -> &mut [u8]
        ensures value { result.now ≡ lease_bytes self.old }
        ensures* writes_back { sem 𝓛 (LendsBytes self.entry result) }
    {
        self.bytes.as_mut_slice()
    }
}

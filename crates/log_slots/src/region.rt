ghost use Rattle.log_arena.specs.Lease.{lease_bytes, lease_home, lease_len, lease_place};
ghost use Rattle.log_arena.specs.Pages.{HasNoPlace, IsLeastPlace, marked};
ghost use Rattle.log_traffic.specs.Held.{place_held};
ghost use Rattle.std.specs.Prelude.{◌≡◌, ◌*◌, ◌/◌, ◌%◌, ◌<◌, false, true, IfNone, IfOk, IfSome, IsSome, OnErr, OnSome, replicate};

use crate::naming::Naming;
use log_arena::{Arena, Lease, NoRoom};
use log_steps::OpenLog;
use std::marker::{Model, PhantomData};

/// The region of memory in which the logs of one driver lie, which `N` names.
///
/// Contracts see of each of its pages, of 4,096 bytes, whether it has a lease.
#[derive(Drop)]
pub struct Region<N: Naming> {
    arena: Arena,
    of: PhantomData<N>,
}

impl<N: Naming> Model for Region<N> {
    ghost use Rattle.std.specs.Prelude.{◌≡◌, Bool, List};

    ghost Value = { List Bool };

    ghost view = { λ region. region.arena.leased };

    ghost invariant = { λ region. region.arena.home ≡ N.home };
}

impl<N: Naming> Region<N> {
    /// The region that `N` names.
    pub fn new(arena: Arena) -> Region<N>
        requires { arena.home ≡ N.home }
        ensures { result ≡ arena.leased }
    {
        Region {
            arena,
            of: PhantomData,
        }
    }

    /// A lease of `len` bytes, all zeros, at the least place where its pages have none.
    ///
    /// # Errors
    /// Nothing is changed where there is no such place.
    fn lease(&mut self, len: usize) -> Result<Lease, NoRoom>
        requires { (0 < len) × (len % 4096 ≡ 0) }
        ensures home { IfOk result (λ lease. lease_home lease ≡ N.home) }
        ensures least { IfOk result (λ lease. IsLeastPlace self.old (len / 4096) (lease_place lease / 4096)) }
        ensures none { OnErr result (HasNoPlace self.old (len / 4096)) }
        ensures long { IfOk result (λ lease. lease_len lease ≡ len) }
        ensures zeros { IfOk result (λ lease. lease_bytes lease ≡ replicate len 0) }
        ensures taken { IfOk result (λ lease. self.new ≡ marked true (lease_place lease / 4096) (len / 4096) self.old) }
        ensures err { OnErr result (self.new ≡ self.old) }
    {
        self.arena.lease(len)
    }

    /// A lease of `len` bytes, all zeros, at that page. None where it is not the least place where so many pages have no lease: nothing is
    /// changed then.
    pub fn lease_at(&mut self, len: usize, page: u64) -> Option<Lease>
        requires { (0 < len) × (len % 4096 ≡ 0) }
        ensures home { IfSome result (λ lease. lease_home lease ≡ N.home) }
        ensures place { IfSome result (λ lease. lease_place lease / 4096 ≡ page) }
        ensures least { OnSome result (IsLeastPlace self.old (len / 4096) page) }
        ensures long { IfSome result (λ lease. lease_len lease ≡ len) }
        ensures zeros { IfSome result (λ lease. lease_bytes lease ≡ replicate len 0) }
        ensures taken { OnSome result (self.new ≡ marked true page (len / 4096) self.old) }
        ensures can { IsLeastPlace self.old (len / 4096) page → IsSome result }
        ensures none { IfNone result (self.new ≡ self.old) }
    {
        let lease = self.lease(len).ok()?;
        if lease.place() as u64 / 4096 != page {
            self.give(lease);
            return None;
        }
        Some(lease)
    }

    /// Takes a lease back: its pages have none then.
    pub fn give(&mut self, lease: Lease)
        requires { lease_home lease ≡ N.home }
        ensures { self.new ≡ marked false (lease_place lease / 4096) (lease_len lease / 4096) self.old }
    {
        self.arena.give(lease);
    }

    /// A log closes: its pages have no lease then.
    pub fn close(&mut self, log: OpenLog)
        requires { (place_held log.log).home ≡ N.home }
        ensures { self.new ≡ marked false ((place_held log.log).place / 4096) (3 * (place_held log.log).term_length / 4096) self.old }
    {
        self.arena.give(log.close());
    }
}

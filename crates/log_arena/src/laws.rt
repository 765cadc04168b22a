//! What holds of the holes of every region, of any two leases, and of a lease that is out while others come and go.
ghost use Rattle.std.specs.Prelude.{◌≡◌, ◌/◌, ◌%◌, ◌<◌, false, true, IfOk, OnErr};
ghost use Rattle.log_arena.specs.Lease.{HasItsPages, IsOf, IsSame, ShareNoPage, lease_len, lease_place};
ghost use Rattle.log_arena.specs.Pages.{HolesAreMaximalRuns, HolesAreWholePages, HolesAscend, marked};

use crate::arena::{Arena, NoRoom};
use crate::lease::Lease;
use crate::memory::apart;

/// The holes of a region are its maximal runs of pages without a lease, ascending, with a page or more between two.
pub fn holes_are_the_maximal_runs()
    ensures runs { HolesAreMaximalRuns }
    ensures whole { HolesAreWholePages }
    ensures ascending { HolesAscend }
{}

/// The pages of a lease that is held are marked in its arena: no place for another has them, and `used` counts them.
/// Gives the lease back.
pub fn held_pages_have_a_lease(arena: &mut Arena, held: Lease) -> Lease
    requires { IsOf arena.old held }
    ensures unchanged { arena.new ≡ arena.old }
    ensures same { IsSame held result }
    ensures leased { HasItsPages arena.old.leased held }
{
    arena.beside(held)
}

/// Two leases that are held share no page, if they are of one arena. Gives both back.
pub fn share_no_page(first: Lease, second: Lease) -> (Lease, Lease)
    ensures first { IsSame first result.0 }
    ensures second { IsSame second result.1 }
    ensures apart { ShareNoPage first second }
{
    let (mut first, mut second) = (first, second);
    let (pages, start) = (first.pages(), first.start());
    let (other_pages, other_start) = (second.pages(), second.start());
    let (span, run) = first.into_run();
    let (other_span, other) = second.into_run();
    let (run, other) = apart(run, other);
    (
        Lease::again(pages, span, start, run),
        Lease::again(other_pages, other_span, other_start, other),
    )
}

/// What becomes of other pages leaves a lease and its bytes as they are.
pub fn others_leave_a_lease(
    arena: &mut Arena,
    held: &mut Lease,
    given: Lease,
    len: usize,
) -> Result<Lease, NoRoom>
    requires given { IsOf arena.old given }
    requires len { (0 < len) × (len % 4096 ≡ 0) }
    ensures held { held.new ≡ held.old }
    ensures here { IfOk result (λ l. IsOf arena.new l) }
    ensures taken { IfOk result (λ l. arena.new ≡ record arena.old {
      leased
          = marked true (lease_place l / 4096) (len / 4096)
          (marked false (lease_place given / 4096) (lease_len given / 4096) arena.old.leased);
    }) }
    ensures err { OnErr result (arena.new ≡ record arena.old {
      leased
          = marked false (lease_place given / 4096) (lease_len given / 4096) arena.old.leased;
    }) }
{
    arena.give(given);
    arena.lease(len)
}

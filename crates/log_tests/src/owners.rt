// How a lease changes hands.
ghost use Rattle.std.specs.Prelude.{◌≡◌, ℕ, ◌/◌, ◌≤◌, false, length};
ghost use Rattle.log_arena.specs.Lease.{IsOf, lease_len, lease_place};
ghost use Rattle.log_arena.specs.Pages.{marked};

use log_arena::{Arena, Lease};

/// Gives `old` back and leaves `new` with its holder.
pub(crate) fn hand_over(arena: &mut Arena, old: Lease, new: Lease) -> Lease
    requires { IsOf arena.old old }
    ensures kept { result ≡ new }
    ensures given { arena.new ≡ record arena.old {
      leased
          = marked false (lease_place old / 4096) (lease_len old / 4096) arena.old.leased;
    } }
{
    arena.give(old);
    new
}

ghost use Rattle.compiled_policy.specs.Group.{group_of, include};
ghost use Rattle.std.specs.Prelude.{◌≡◌, ◌<◌, ◌≤◌, ◌&&◌, ℕ, nat_le, nat_lt};

use policy_core::Principals;

/// How many groups of principals there are.
pub(crate) const GROUPS: usize = 64;

/// The group of a principal. Those that are equal by 64 share one, which costs time and decides nothing.
pub(crate) fn group_of(principal: u32) -> usize
    ensures value { result ≡ group_of principal }
    ensures small { result < 64 }
{
    principal as usize % 64
}

/// The groups of those spoken of: from the first one to before the second.
pub(crate) fn groups_of(principals: Principals) -> (usize, usize)
    ensures value { (group : ℕ) → group < 64 → (nat_le result.0 group && nat_lt group result.1) ≡ include group principals }
    ensures small { result.1 ≤ 64 }
{
    match principals {
        Principals::Any => (0, GROUPS),
        Principals::One(principal) => {
            let group = group_of(principal);
            (group, group + 1)
        }
    }
}

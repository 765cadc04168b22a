//! Two worlds in which nothing happened yet.

ghost use Rattle.driver_world.specs.Views.{newest_of};
ghost use Rattle.std.specs.Prelude.{◌≡◌, IfOk};

use driver_core::Settings;
use driver_world::World;
use policy_core::Policy;
use policy_text::{Names, PolicyFault};
use std::alloc::{AllocError, Global};
use two_drivers::TwoWorlds;

/// All is allowed but to stop the driver.
const POLICY: &str = "version = 1\ndefault = \"allow\"\n\
[[rule]]\nname = \"nobody stops it\"\nprincipal = \"*\"\nact = \"terminate\"\nchannel = \"*\"\nallow = false\n";

fn policy(alloc: Global) -> Result<Policy, AllocError> {
    match policy_text::read(alloc, POLICY, &Names::new(alloc)) {
        Ok(policy) => Ok(policy),
        Err(PolicyFault::NoMemory) => Err(AllocError),
        Err(_) => Policy::new(Vec::new(alloc), false),
    }
}

#[tactic(auto, unfolding(driver_world::specs::Ends::opening_end))]
fn world(alloc: Global) -> Result<World, AllocError>
    ensures { IfOk result (λ world. newest_of world.past ≡ 0) }
{
    let policy = policy(alloc)?;
    World::new(alloc, Settings::default(), policy, &[])
}

pub(crate) fn fresh_worlds(alloc: Global) -> Result<TwoWorlds, AllocError> {
    let first = world(alloc)?;
    match world(alloc) {
        Ok(second) => Ok(TwoWorlds::new(first, second)),
        Err(refused) => {
            drop(first);
            Err(refused)
        }
    }
}

//! What the policy decided of a client's last offer is remembered, for as long as the registry by which it did is shown.

ghost use Rattle.driver_core.specs.Cached.{AreCached};
ghost use Rattle.media_driver.specs.Remembering.{IsRemembered, IsSaid};
ghost use Rattle.published_registry.specs.Histories.{History, IsContinuedBy, registry_of};
ghost use Rattle.std.specs.Prelude.{◌≡◌, ℕ, IfSome, Option};

use decision_cache::Cache;
use driver_core::{LogRequest, View};
use media_agents::Stamp;
use published_registry::{Look, Pass, caches_stay_right_of_later_looks};

/// What a registry says of a client's offer.
#[derive(Clone, Copy, Debug)]
pub struct Said {
    /// By which registration the client offers.
    pub(crate) registration: u64,
    /// The number of the registry.
    pub(crate) number: u64,
    /// With which log the registration is, and what the policy decides; none where the client has no such registration.
    pub(crate) request: Option<LogRequest>,
    /// How long a status message stands, in nanoseconds.
    pub(crate) timeout: u64,
    pub(crate) stamp: Stamp,
}

/// What was said by a registry that a client saw stays so of that registry, whatever it sees later.
pub(crate) fn what_was_said_stays()
    ensures { (client : ℕ) (said : Option Said) (earlier later : History) → IsContinuedBy earlier later → IsRemembered client said earlier → IsRemembered client said later }
{}

/// What the registry of a look says.
fn said_by(look: &Look, cache: &mut Cache, client: u64, registration: u64) -> Said
    requires { AreCached (registry_of look.now) cache.old }
    ensures said { IsSaid client result look.now }
    ensures registration { result.registration ≡ registration }
    ensures right { AreCached (registry_of look.now) cache.new }
{
    let registry = look.registry();
    Said {
        registration,
        number: look.number(),
        request: registry.offering_cached(cache, client, registration),
        timeout: registry.settings().connection_timeout,
        stamp: Stamp::of(look),
    }
}

/// What the registry that is shown says of a client's offer by that registration: what is remembered of it, where it is the one
/// that said it, else what a look says. `None` where there is no look.
pub(crate) fn said_now(
    pass: Pass,
    cache: &mut Cache,
    remembered: &mut Option<Said>,
    client: u64,
    registration: u64,
) -> (Pass, Option<Said>)
    requires right { AreCached (registry_of pass) cache.old }
    requires remembered { IsRemembered client remembered.old pass }
    ensures known { IsContinuedBy pass result.0 }
    ensures right { AreCached (registry_of result.0) cache.new }
    ensures remembered { IsRemembered client remembered.new result.0 }
    ensures said { IfSome result.1 (λ said. IsSaid client said result.0 × (said.registration ≡ registration)) }
{
    caches_stay_right_of_later_looks();
    what_was_said_stays();
    if let Some(said) = *remembered {
        if said.registration == registration
            && said.number == pass.number()
            && pass.is_at_newest()
        {
            return (pass, Some(said));
        }
    }
    match pass.enter() {
        Ok(look) => {
            let said = said_by(&look, cache, client, registration);
            *remembered = Some(said);
            (look.leave(), Some(said))
        }
        Err(pass) => (pass, None),
    }
}

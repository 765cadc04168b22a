//! Who is asked what the policy decides of an offer or a poll.

ghost use Rattle.driver_core.specs.Cached.{AreCached};
ghost use Rattle.driver_core.specs.LogRequests.{offering_of, receiving_of};
ghost use Rattle.driver_core.specs.State.{State};
ghost use Rattle.std.specs.Prelude.{◌≡◌};

use decision_cache::Cache;
use driver_core::{LogRequest, Registry};

/// Whoever is asked answers as the registry decides, from what was kept or anew.
pub trait Asks {
    /// What is kept is right for that registry.
    ghost is_right: { Self → State → Type 0 };

    /// As [`Registry::offering`].
    fn offering(
        &mut self,
        registry: &Registry,
        client: u64,
        registration: u64,
    ) -> Option<LogRequest>
        requires { is_right self.old registry.now }
        ensures asked { result ≡ offering_of registry.now client registration }
        ensures right { is_right self.new registry.now };

    /// As [`Registry::receiving`].
    fn receiving(
        &mut self,
        registry: &Registry,
        client: u64,
        subscription: u64,
        source: u64,
    ) -> Option<LogRequest>
        requires { is_right self.old registry.now }
        ensures asked { result ≡ receiving_of registry.now client subscription source }
        ensures right { is_right self.new registry.now };
}

impl Asks for Cache {
    ghost is_right = { λ cache s. AreCached s cache };

    fn offering(
        &mut self,
        registry: &Registry,
        client: u64,
        registration: u64,
    ) -> Option<LogRequest> {
        registry.offering_cached(self, client, registration)
    }

    fn receiving(
        &mut self,
        registry: &Registry,
        client: u64,
        subscription: u64,
        source: u64,
    ) -> Option<LogRequest> {
        registry.receiving_cached(self, client, subscription, source)
    }
}

/// Nothing is kept: each time the policy is asked anew.
#[derive(Drop)]
pub struct Uncached;

impl Asks for Uncached {
    ghost is_right = { λ _ _. Unit {0} };

    fn offering(
        &mut self,
        registry: &Registry,
        client: u64,
        registration: u64,
    ) -> Option<LogRequest> {
        registry.offering(client, registration)
    }

    fn receiving(
        &mut self,
        registry: &Registry,
        client: u64,
        subscription: u64,
        source: u64,
    ) -> Option<LogRequest> {
        registry.receiving(client, subscription, source)
    }
}

// Whom an offer and a poll ask for their verdict: the registry itself, each time.
use driver_core::{LogRequest, Registry};
use log_steps::Asks;

#[derive(Drop)]
pub(crate) struct Anew;

impl Asks for Anew {
    ghost is_right = { λ _ _. Unit {0} };

    fn offering(
        &mut self,
        registry: &Registry,
        client: u64,
        registration: u64,
    ) -> Option<LogRequest> {
        registry.offering(client, registration)
    }

    fn receiving(
        &mut self,
        registry: &Registry,
        client: u64,
        subscription: u64,
        source: u64,
    ) -> Option<LogRequest> {
        registry.receiving(client, subscription, source)
    }
}

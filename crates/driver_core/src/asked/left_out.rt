ghost use Rattle.driver_core.specs.LeftOut.{hidden_counters, hides_counter, hides_source, left_out, with_denial, with_denials};
ghost use Rattle.driver_core.specs.Listing.{counter_decision, source_decision};
ghost use Rattle.std.specs.Prelude.{◌≡◌, map, filter, IfOk, OnOk};

use crate::asked::listing::{counter_decision, source_decision};
use crate::state::registry::Registry;
use byte_strings::Items;
use counters::Counter;
use policy_core::Decision;
use std::alloc::{AllocError, Global};
use stream_registry::LogRow;

/// The denials of those of the counters that the policy in force does not show, in their order.
fn denials_of(
    registry: &Registry,
    alloc: Global,
    principal: u32,
    counters: &[Counter],
) -> Result<Vec<Decision>, AllocError>
    ensures { IfOk result (λ denials. denials.items ≡ map (counter_decision registry.now principal) (filter (hides_counter registry.now principal) counters.now)) }
{
    let mut denials = Vec::new(alloc);
    for counter in counters {
        let decision = counter_decision(registry, principal, counter);
        if !decision.verdict.allow {
            denials.push(decision)?;
        }
    }
    Ok(denials)
}

/// Puts the denial before the first one on a greater number.
fn put_denial(denials: &mut Vec<Decision>, denial: Decision) -> Result<(), AllocError>
    ensures { OnOk result (denials.new.items ≡ with_denial denials.old.items denial) }
{
    let mut at = 0;
    while at < denials.len() && denials[at].subject <= denial.subject {
        at += 1;
    }
    denials.insert(at, denial)?;
    Ok(())
}

/// Puts the denials of those of the logs that the policy in force does not show among the others.
fn put_denials(
    denials: &mut Vec<Decision>,
    registry: &Registry,
    principal: u32,
    logs: &[LogRow],
) -> Result<(), AllocError>
    ensures { OnOk result (denials.new.items ≡ with_denials denials.old.items (map (source_decision registry.now principal) (filter (hides_source registry.now principal) logs.now))) }
{
    for source in logs {
        let decision = source_decision(registry, principal, source);
        if !decision.verdict.allow {
            put_denial(denials, decision)?;
        }
    }
    Ok(())
}

impl Registry {
    /// By which decisions a list leaves out counters, publications and images, by their numbers. None for a client that is
    /// not attached.
    ///
    /// # Errors
    /// Where there is no memory for the list.
    #[tactic(auto, unfolding(crate::specs::LeftOut::left_out))]
    pub fn left_out(&self, alloc: Global, client: u64) -> Result<Items<Decision>, AllocError>
        ensures { IfOk result (λ denials. denials ≡ left_out self.now client) }
    {
        let Some(client) = self.clients.get(client) else {
            return Ok(Items::from(Vec::new(alloc)));
        };
        let mut denials = denials_of(self, alloc, client.principal, self.counters.rows())?;
        put_denials(&mut denials, self, client.principal, self.streams.sources())?;
        Ok(Items::from(denials))
    }
}

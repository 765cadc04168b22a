//! By which decision a call of a client was denied, if it was.

ghost use Rattle.served_clients.specs.Denying.{denied_look, denied_offer, denied_poll, last_of};
ghost use Rattle.std.specs.Prelude.{◌≡◌};

use driver_core::Shown;
use log_steps::FragmentCopies;
use media_driver::{Client, Clock, DriverNaming, LookFault, OfferFault, PollFault};
use policy_core::Decision;

/// What was decided last for a client.
#[tactic(auto, using(crate::proofs::DenyLemmas::last_is))]
fn last_decision<N: DriverNaming, C: Clock>(client: &Client<N, C>) -> Option<Decision>
    ensures { result ≡ last_of client.now.audited.items }
{
    let mut kept = client.audit().items();
    let dated = kept.next_back()?;
    Some(dated.decision)
}

/// That of an offer which gave that.
pub(crate) fn denied_offer<N: DriverNaming, C: Clock>(
    client: &Client<N, C>,
    gave: &Result<u64, OfferFault>,
) -> Option<Decision>
    ensures { result ≡ denied_offer gave.now client.now.audited.items }
{
    match gave {
        Err(OfferFault::Denied(_)) => last_decision(client),
        _ => None,
    }
}

/// That of a poll which gave that.
pub(crate) fn denied_poll<N: DriverNaming, C: Clock>(
    client: &Client<N, C>,
    gave: &Result<FragmentCopies, PollFault>,
) -> Option<Decision>
    ensures { result ≡ denied_poll gave.now client.now.audited.items }
{
    match gave {
        Err(PollFault::Denied(_)) => last_decision(client),
        _ => None,
    }
}

/// That of a look at a counter which gave that.
pub(crate) fn denied_look(gave: &Result<Shown, LookFault>) -> Option<Decision>
    ensures { result ≡ denied_look gave.now }
{
    match gave {
        Ok(Shown::Denied(decision)) => Some(*decision),
        _ => None,
    }
}

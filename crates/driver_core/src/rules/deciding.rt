ghost use Rattle.driver_core.specs.Deciding.{decision_by};
ghost use Rattle.std.specs.Prelude.{◌≡◌};

use crate::state::registry::Registry;
use channel_uri::Channel;
use client_registry::Client;
use policy_core::{Act, Decision, Request};

/// What the policy in force decides on the command of a client.
#[tactic(auto, unfolding(crate::specs::Deciding::decision_by))]
pub(crate) fn decide(
    registry: &Registry,
    client: Client,
    act: Act,
    channel: &Channel,
    stream: i32,
) -> Decision
    ensures { result ≡ decision_by registry.now client act channel.now stream }
{
    let request = Request {
        principal: client.principal,
        act,
        channel,
        stream,
    };
    Decision {
        principal: client.principal,
        act,
        subject: 0,
        stream,
        verdict: registry.compiled.verdict(&request),
    }
}

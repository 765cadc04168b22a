//! What is asked by who looks at the registry.

ghost use Rattle.driver_core.specs.Looking.{IsAtItsMoment, IsSameOrNewer};
ghost use Rattle.driver_core.specs.Conduct.{state_after, state_of};
ghost use Rattle.driver_core.specs.State.{State, opened};
ghost use Rattle.driver_core.specs.declared.state.event.Event.{Event};
ghost use Rattle.driver_core.specs.declared.state.event.Inputs.{Inputs};
ghost use Rattle.driver_core.specs.declared.state.peer.Peer.{Peer};
ghost use Rattle.driver_core.specs.declared.state.settings.Settings.{Settings};
ghost use Rattle.policy_core.specs.Question.{question_of};
ghost use Rattle.policy_core.specs.RuleList.{Rules};
ghost use Rattle.policy_core.specs.Rules.{verdict_of};
ghost use Rattle.std.specs.Prelude.{◌≡◌, List};

use crate::state::registry::Registry;
use counters::Counter;
use policy_core::{Request, Verdict};
use stream_registry::{LogRow, Subscription};

/// After every event the policy in force is the same, under the same number, or another one under a greater number.
pub fn policies_only_get_newer()
    ensures { (s : State) (event : Event) (inputs : Inputs) → IsSameOrNewer s (state_after s event inputs) }
{}

/// After every event the policy is what its text makes of it at the registry's moment, and what it becomes later is what its
/// text says, whatever it was before. So it is in every registry of a run.
pub fn policies_are_of_their_moment()
    ensures after { (s : State) (event : Event) (inputs : Inputs) → IsAtItsMoment (state_after s event inputs) }
    ensures every { (settings : Settings) (policy : Rules) (peers : List Peer) (events : List (Event × Inputs)) →
        IsAtItsMoment (state_of (opened settings policy peers) events) }
{}

impl Registry {
    /// The number of the policy in force.
    pub fn epoch(&self) -> u64
        ensures { result ≡ self.now.epoch }
    {
        self.compiled.epoch()
    }

    /// What the policy in force decides of a request. It takes no memory.
    pub fn verdict(&self, request: &Request<'_>) -> Verdict
        ensures { result ≡ verdict_of self.now.policy self.now.epoch (question_of request.now) }
    {
        self.compiled.verdict(request)
    }

    /// The counters of the clients, in the order in which they came.
    pub fn counters(&self) -> &[Counter]
        ensures { result.now ≡ self.now.counters }
    {
        self.counters.rows()
    }

    /// The live publications and images, in the order in which they came.
    pub fn sources(&self) -> &[LogRow]
        ensures { result.now ≡ self.now.streams.sources }
    {
        self.streams.sources()
    }

    /// The subscriptions, in the order in which they came.
    pub fn subscriptions(&self) -> &[Subscription]
        ensures { result.now ≡ self.now.streams.subscriptions }
    {
        self.streams.subscriptions()
    }
}

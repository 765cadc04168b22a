ghost use Rattle.driver_core.specs.Terminating.{stopped_for_good, terminate, terminated, terminating_of, termination_decision};
ghost use Rattle.driver_core.specs.Commands.{at_asking};
ghost use Rattle.driver_core.specs.Renewal.{outcome_by};
ghost use Rattle.driver_core.specs.Report.{report_of};
ghost use Rattle.driver_core.specs.declared.state.event.Inputs.{Inputs as InputsSpec};
ghost use Rattle.std.specs.Prelude.{◌≡◌, ℕ, map, IfOk};
ghost use Rattle.stream_registry.specs.Lingering.{place_of};

use crate::pairs::renewal;
use crate::rules::asking::Asking;
use crate::rules::deciding;
use crate::state::event::Inputs;
use crate::state::outcome::Outcome;
use crate::state::refused::Refused;
use crate::state::registry::Registry;
use crate::state::replies::Reply;
use crate::state::report::Report;
use byte_strings::Items;
use channel_uri::Channel;
use client_registry::Client;
use policy_core::{Act, Decision};
use std::alloc::{AllocError, Global};
use stream_registry::{LogPlace, LogRow};

/// Where these logs lie, by their source numbers.
fn places_of(alloc: Global, logs: &[LogRow]) -> Result<Items<LogPlace>, AllocError>
    ensures { IfOk result (λ places. places ≡ map place_of logs.now) }
{
    let mut places = Items::new(alloc);
    for log in logs {
        places.push(LogPlace {
            source: log.number,
            place: log.place,
        })?;
    }
    Ok(places)
}

/// What the policy in force decides: the driver goes by shared memory and stream 0.
fn termination_decision(registry: &Registry, client: Client) -> Decision
    ensures { result ≡ termination_decision registry.now client }
{
    let channel = Channel::ipc();
    deciding::decide(registry, client, Act::Terminate, &channel, 0)
}

impl Registry {
    /// What is decided on TERMINATE_DRIVER.
    #[tactic(auto, unfolding(crate::specs::Terminating::terminating_of))]
    fn terminating(&self, client: Client) -> Result<Decision, Refused>
        ensures { result ≡ terminating_of self.now client }
    {
        let decision = termination_decision(self, client);
        if !decision.verdict.allow {
            return Err(Refused::denied(decision));
        }
        Ok(decision)
    }

    /// What is decided on it, once the client was heard of.
    fn terminating_at(&self, asking: Asking) -> Result<Decision, Refused>
        ensures { result ≡ terminating_of (at_asking self.now asking) asking.client }
    {
        self.terminating(asking.client)
    }

    /// The outcome of the driver's end: all logs close and all pairs go, and these are not reported.
    fn outcome_of_terminated(
        &self,
        alloc: Global,
        asking: Asking,
        decision: Decision,
    ) -> Result<Outcome, AllocError>
        requires { decision ≡ termination_decision (at_asking self.now asking) asking.client }
        ensures { (inputs : InputsSpec) → IfOk result (λ outcome. outcome ≡ outcome_by self.now inputs (terminated (at_asking self.now asking) asking.client asking.correlation)) }
    {
        let reply = Reply::OperationSuccess {
            correlation: asking.correlation,
        };
        let mut told = Report::replied_on(alloc, decision, asking.client.number, reply)?;
        told.closes = places_of(alloc, self.streams.sources())?;
        let gone = self.pairs(alloc)?;
        renewal::go_alone(alloc, told, gone)
    }

    /// What the driver's end reports.
    #[tactic(auto, unfolding(crate::specs::Terminating::terminated))]
    fn tell_terminated(
        &self,
        alloc: Global,
        client: Client,
        correlation: u64,
        decision: Decision,
    ) -> Result<Report, AllocError>
        requires { decision ≡ termination_decision self.now client }
        ensures { IfOk result (λ told. told ≡ report_of (terminated self.now client correlation)) }
    {
        let reply = Reply::OperationSuccess { correlation };
        let mut told = Report::replied_on(alloc, decision, client.number, reply)?;
        told.closes = places_of(alloc, self.streams.sources())?;
        Ok(told)
    }

    /// What the command TERMINATE_DRIVER of a client that is there reports.
    #[tactic(auto, unfolding(crate::specs::Terminating::terminate, crate::specs::Terminating::terminating_of, crate::specs::Draft::refused, crate::specs::Draft::replied, crate::specs::Draft::told))]
    pub(crate) fn tell_terminate(
        &self,
        alloc: Global,
        client: Client,
        correlation: u64,
    ) -> Result<Report, AllocError>
        ensures { IfOk result (λ told. told ≡ report_of (terminate self.now client correlation)) }
    {
        match self.terminating(client) {
            Ok(decision) => self.tell_terminated(alloc, client, correlation, decision),
            Err(refused) => Report::refused(alloc, client.number, correlation, refused),
        }
    }

    /// The outcome of the command TERMINATE_DRIVER of a client that is there.
    #[inline(never)]
    pub(crate) fn outcome_of_terminate(
        &self,
        alloc: Global,
        asking: Asking,
        inputs: &Inputs,
    ) -> Result<Outcome, AllocError>
        ensures { IfOk result (λ outcome. outcome ≡ outcome_by self.now inputs.now (terminate (at_asking self.now asking) asking.client asking.correlation)) }
    {
        match self.terminating_at(asking) {
            Ok(decision) => self.outcome_of_terminated(alloc, asking, decision),
            Err(refused) => self.outcome_of_refused(alloc, asking, refused),
        }
    }

    /// All clients go, with all that they registered, and nobody comes any more.
    #[tactic(auto, unfolding(crate::specs::Terminating::stopped_for_good))]
    fn stop(&mut self)
        ensures { self.new ≡ stopped_for_good self.old }
    {
        self.clients.clear();
        self.streams.close_all();
        self.readers.close_all();
        self.destinations.clear();
        self.counters.clear();
        self.stopped = true;
        self.all_read = false;
    }

    /// The command TERMINATE_DRIVER of a client that is there.
    #[tactic(auto, unfolding(crate::specs::Terminating::terminate, crate::specs::Terminating::terminated, crate::specs::Terminating::terminating_of, crate::specs::Draft::refused, crate::specs::Draft::replied, crate::specs::Draft::told))]
    pub(crate) fn do_terminate(&mut self, client: Client)
        ensures { (correlation : ℕ) → self.new ≡ (terminate self.old client correlation).after }
    {
        match self.terminating(client) {
            Ok(_) => self.stop(),
            Err(_) => {}
        }
    }
}

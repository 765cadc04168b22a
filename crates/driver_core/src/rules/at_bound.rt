//! Events before which a bound of a rule comes, so that the policy is another one at their moment. Whatever they are, pairs
//! may go and come with them.

ghost use Rattle.driver_core.specs.Commands.{asked, command, requested};
ghost use Rattle.driver_core.specs.Conduct.{coming_to, drafted};
ghost use Rattle.driver_core.specs.Received.{channel_lent, channel_named};
ghost use Rattle.driver_core.specs.Renewal.{come_to, gone_from, images_decided, images_told, outcome_by};
ghost use Rattle.driver_core.specs.Report.{report_of};
ghost use Rattle.std.specs.Prelude.{◌≡◌, ◌++◌, IfOk, OnOk};

use crate::pairs::renewal;
use crate::rules::commands::refusal_for;
use crate::state::event::{Event, Inputs};
use crate::state::outcome::Outcome;
use crate::state::received::Received;
use crate::state::refusal::Refusal;
use crate::state::refused::Refused;
use crate::state::registry::Registry;
use crate::state::report::Report;
use channel_uri::{Channel, UriError};
use client_registry::Client;
use command_codec::{Body, Command};
use std::alloc::{AllocError, Global};

/// The outcome of an event that made one registry of another, from what its own rule reports: their pairs are compared.
fn outcome_between(
    alloc: Global,
    told: Report,
    before: &Registry,
    after: &Registry,
    inputs: &Inputs,
) -> Result<Outcome, AllocError>
    ensures { IfOk result (λ outcome. outcome ≡ record { response = told.response; replies = told.replies ++ (images_told after.now inputs.now (gone_from before.now after.now) (come_to before.now after.now) ++ told.later); decisions = told.decisions ++ images_decided after.now (gone_from before.now after.now) (come_to before.now after.now); opens = told.opens; closes = told.closes; gone = gone_from before.now after.now; come = come_to before.now after.now }) }
{
    let (stood, left) = (before.pairs(alloc)?, after.pairs(alloc)?);
    let turnover = log_readers::turnover_between(alloc, stood.as_slice(), left.as_slice())?;
    let mut told = told;
    renewal::tell_turnover(
        &mut told,
        after,
        &after.compiled.policy(),
        after.compiled.epoch(),
        inputs,
        &turnover,
    )?;
    Ok(renewal::outcome_from(told, turnover))
}

impl Registry {
    /// What the command of a client that is there reports, before what is reported of images.
    #[tactic(auto, unfolding(crate::specs::Commands::requested))]
    fn tell_requested(
        &self,
        alloc: Global,
        client: Client,
        command: &Command,
        channel: Result<&Channel, UriError>,
    ) -> Result<Report, AllocError>
        requires named { channel_lent channel ≡ channel_named command.now.body }
        ensures { IfOk result (λ told. told ≡ report_of (requested self.now client command.now)) }
    {
        let correlation = command.correlation;
        match &command.body {
            Body::AddPublication(fields) => {
                self.tell_add_publication(alloc, client, correlation, fields, channel, false)
            }
            Body::AddExclusivePublication(fields) => {
                self.tell_add_publication(alloc, client, correlation, fields, channel, true)
            }
            Body::AddSubscription(fields) => {
                self.tell_add_subscription(alloc, client, correlation, fields, channel)
            }
            Body::RemoveSubscription(fields) => {
                self.tell_remove_subscription(alloc, client, correlation, *fields)
            }
            Body::ClientClose => self.tell_close(alloc, client, correlation),
            Body::TerminateDriver(_) => self.tell_terminate(alloc, client, correlation),
            _ => self.tell_quiet(alloc, client, command, channel),
        }
    }

    /// Does the command of a handle, and says what it reports before what is reported of images.
    #[tactic(auto, unfolding(crate::specs::Commands::asked, crate::specs::Draft::refused, crate::specs::Draft::replied, crate::specs::Draft::told))]
    fn take_asked(
        &mut self,
        alloc: Global,
        handle: u64,
        command: &Command,
        channel: Result<&Channel, UriError>,
    ) -> Result<Report, AllocError>
        requires named { channel_lent channel ≡ channel_named command.now.body }
        ensures told { IfOk result (λ told. told ≡ report_of (asked self.old handle command.now)) }
        ensures done { OnOk result (self.new ≡ (asked self.old handle command.now).after) }
    {
        let unknown = Refused::plainly(Refusal::WrongClient);
        if command.client != handle {
            return Report::refused(alloc, handle, command.correlation, unknown);
        }
        let Some(client) = self.clients.get(handle) else {
            return Report::refused(alloc, handle, command.correlation, unknown);
        };
        self.hear(handle);
        let told = self.tell_requested(alloc, client, command, channel)?;
        self.do_requested(client, command, channel);
        Ok(told)
    }

    /// Does a command that came over a handle, and says what it reports before what is reported of images.
    #[tactic(auto, unfolding(crate::specs::Commands::command, crate::specs::Received::channel_in, crate::specs::Draft::refused, crate::specs::Draft::replied, crate::specs::Draft::told))]
    fn take_command(
        &mut self,
        alloc: Global,
        handle: u64,
        received: &Received,
    ) -> Result<Report, AllocError>
        ensures told { IfOk result (λ told. told ≡ report_of (command self.old handle received.now)) }
        ensures done { OnOk result (self.new ≡ (command self.old handle received.now).after) }
    {
        match received.read() {
            Ok(command) => self.take_asked(alloc, handle, command, received.channel()),
            Err(fault) => {
                let correlation = Command::correlation_of(received.as_slice());
                let refused = Refused::plainly(refusal_for(*fault));
                Report::refused(alloc, handle, correlation, refused)
            }
        }
    }

    /// What the event's own rule makes of the registry, and what it reports.
    #[tactic(auto, unfolding(crate::specs::Conduct::drafted))]
    fn take_telling(
        &mut self,
        alloc: Global,
        event: &Event,
        inputs: &Inputs,
    ) -> Result<Report, AllocError>
        ensures told { IfOk result (λ told. told ≡ report_of (drafted self.old event.now inputs.now)) }
        ensures done { OnOk result (self.new ≡ (drafted self.old event.now inputs.now).after) }
    {
        match event {
            Event::Attach { now, principal } => {
                let told = self.tell_attach(alloc);
                self.go_on(*now);
                self.do_attach(*principal);
                Ok(told)
            }
            Event::Command { now, client, bytes } => {
                self.go_on(*now);
                self.take_command(alloc, *client, bytes)
            }
            Event::Reload { now, policy } => {
                let told = self.tell_reload(alloc, *now, policy);
                self.go_on(*now);
                self.do_reload(policy);
                Ok(told)
            }
            Event::Tick { now } => {
                let told = self.tell_tick(alloc, *now, inputs.silent.as_slice())?;
                self.go_on(*now);
                self.do_tick(inputs.silent.as_slice());
                Ok(told)
            }
            Event::Setup {
                now,
                local,
                from,
                setup,
            } => {
                self.go_on(*now);
                let told = self.tell_setup(alloc, local, from, setup);
                self.do_setup(local, from, setup);
                Ok(told)
            }
        }
    }

    /// The event's outcome where the policy is another one at its moment, but for the images that close because none reads
    /// them. What the event makes is made of a copy, and the pairs are compared.
    #[inline(never)]
    pub(crate) fn told_at_bound(
        &self,
        alloc: Global,
        event: &Event,
        inputs: &Inputs,
    ) -> Result<Outcome, AllocError>
        ensures { IfOk result (λ outcome. outcome ≡ outcome_by self.now inputs.now (drafted (coming_to self.now event.now) event.now inputs.now)) }
    {
        let mut after = self.copy(alloc)?;
        after.rule(event.moment());
        let told = after.take_telling(alloc, event, inputs)?;
        outcome_between(alloc, told, self, &after, inputs)
    }
}

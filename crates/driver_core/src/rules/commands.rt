ghost use Rattle.driver_core.specs.Commands.{requested, heard, asked, at_asking, command, keeps_pairs, refusal_for};
ghost use Rattle.driver_core.specs.Draft.{refused};
ghost use Rattle.driver_core.specs.Received.{channel_lent, channel_named};
ghost use Rattle.driver_core.specs.Refusing.{refused_by};
ghost use Rattle.driver_core.specs.Renewal.{outcome_by, outcome_gone};
ghost use Rattle.driver_core.specs.State.{at_moment};
ghost use Rattle.driver_core.specs.Report.{report_of, tells_reply};
ghost use Rattle.driver_core.specs.declared.state.replies.Reply.TheVariants.{OperationSuccess};
ghost use Rattle.driver_core.specs.declared.state.event.Inputs.{Inputs as InputsSpec};
ghost use Rattle.std.specs.Prelude.{◌≡◌, [], is_some, true, IfOk};
ghost use Rattle.client_registry.specs.Clients.{client_at, principal_at};

use crate::pairs::renewal;
use crate::rules::asking::Asking;
use crate::state::event::Inputs;
use crate::state::outcome::Outcome;
use crate::state::received::Received;
use crate::state::refusal::Refusal;
use crate::state::refused::Refused;
use crate::state::registry::Registry;
use crate::state::replies::Reply;
use crate::state::report::Report;
use byte_strings::Items;
use channel_uri::{Channel, UriError};
use client_registry::Client;
use command_codec::{Body, Command, CommandFault};
use std::alloc::{AllocError, Global};
use stream_registry::Pair;

/// The outcome of a command that is done and with which these pairs go: who asked is answered, and the pairs are not
/// reported.
pub(crate) fn outcome_of_done(
    alloc: Global,
    asking: Asking,
    gone: Items<Pair>,
) -> Result<Outcome, AllocError>
    ensures { IfOk result (λ outcome. outcome ≡ outcome_gone (tells_reply [] asking.client.number (OperationSuccess asking.correlation)) gone) }
{
    let reply = Reply::OperationSuccess {
        correlation: asking.correlation,
    };
    let told = Report::replied(alloc, asking.client.number, reply)?;
    renewal::go_alone(alloc, told, gone)
}

/// The refusal of bytes that are no command.
pub(crate) fn refusal_for(fault: CommandFault) -> Refusal
    ensures { result ≡ refusal_for fault }
{
    match fault {
        CommandFault::Unknown => Refusal::UnknownCommandType,
        _ => Refusal::MalformedCommand,
    }
}

impl Registry {
    /// What the command of a client that is there reports where it changes no pair.
    #[tactic(auto, unfolding(crate::specs::Commands::requested))]
    pub(crate) fn tell_quiet(
        &self,
        alloc: Global,
        client: Client,
        command: &Command,
        channel: Result<&Channel, UriError>,
    ) -> Result<Report, AllocError>
        requires quiet { keeps_pairs command.now.body ≡ true }
        requires named { channel_lent channel ≡ channel_named command.now.body }
        ensures { IfOk result (λ told. told ≡ report_of (requested self.now client command.now)) }
    {
        let correlation = command.correlation;
        match &command.body {
            Body::RemovePublication(fields) => {
                self.tell_remove_publication(alloc, client, correlation, *fields)
            }
            Body::AddDestination(fields) => {
                self.tell_add_destination(alloc, client, correlation, fields, channel)
            }
            Body::RemoveDestination(fields) => {
                self.tell_remove_destination(alloc, client, correlation, fields, channel)
            }
            Body::AddCounter(fields) => self.tell_add_counter(alloc, client, correlation, fields),
            Body::RemoveCounter(fields) => {
                self.tell_remove_counter(alloc, client, correlation, *fields)
            }
            Body::SetCounter(fields) => self.tell_set_counter(alloc, client, correlation, *fields),
            _ => Ok(self.tell_keep_alive(alloc)),
        }
    }

    /// What such a command reports, once the client was heard of.
    fn tell_at(
        &self,
        alloc: Global,
        asking: Asking,
        command: &Command,
        channel: Result<&Channel, UriError>,
    ) -> Result<Report, AllocError>
        requires quiet { keeps_pairs command.now.body ≡ true }
        requires named { channel_lent channel ≡ channel_named command.now.body }
        ensures { IfOk result (λ told. told ≡ report_of (requested (at_asking self.now asking) asking.client command.now)) }
    {
        self.tell_quiet(alloc, asking.client, command, channel)
    }

    /// The outcome of the command of a client that is there where it changes no pair.
    fn outcome_of_quiet(
        &self,
        alloc: Global,
        asking: Asking,
        command: &Command,
        channel: Result<&Channel, UriError>,
    ) -> Result<Outcome, AllocError>
        requires quiet { keeps_pairs command.now.body ≡ true }
        requires named { channel_lent channel ≡ channel_named command.now.body }
        ensures { (inputs : InputsSpec) → IfOk result (λ outcome. outcome ≡ outcome_by self.now inputs (requested (at_asking self.now asking) asking.client command.now)) }
    {
        let told = self.tell_at(alloc, asking, command, channel)?;
        renewal::keep_pairs(alloc, told)
    }

    /// The outcome of the command of a client that is there.
    #[tactic(auto, unfolding(crate::specs::Commands::requested))]
    fn outcome_of_requested(
        &self,
        alloc: Global,
        asking: Asking,
        command: &Command,
        channel: Result<&Channel, UriError>,
        inputs: &Inputs,
    ) -> Result<Outcome, AllocError>
        requires named { channel_lent channel ≡ channel_named command.now.body }
        requires own { asking.correlation ≡ command.now.correlation }
        ensures { IfOk result (λ outcome. outcome ≡ outcome_by self.now inputs.now (requested (at_asking self.now asking) asking.client command.now)) }
    {
        match &command.body {
            Body::AddPublication(fields) => {
                self.outcome_of_add_publication(alloc, asking, fields, channel, false, inputs)
            }
            Body::AddExclusivePublication(fields) => {
                self.outcome_of_add_publication(alloc, asking, fields, channel, true, inputs)
            }
            Body::AddSubscription(fields) => {
                self.outcome_of_add_subscription(alloc, asking, fields, channel, inputs)
            }
            Body::RemoveSubscription(fields) => {
                self.outcome_of_remove_subscription(alloc, asking, *fields, inputs)
            }
            Body::ClientClose => self.outcome_of_close(alloc, asking, inputs),
            Body::TerminateDriver(_) => self.outcome_of_terminate(alloc, asking, inputs),
            _ => self.outcome_of_quiet(alloc, asking, command, channel),
        }
    }

    /// The outcome of a command that is refused.
    pub(crate) fn outcome_of_refused(
        &self,
        alloc: Global,
        asking: Asking,
        refused: Refused,
    ) -> Result<Outcome, AllocError>
        ensures { (inputs : InputsSpec) → IfOk result (λ outcome. outcome ≡ outcome_by self.now inputs (refused_by (at_asking self.now asking) asking.client.number asking.correlation refused)) }
    {
        let told = Report::refused(alloc, asking.client.number, asking.correlation, refused)?;
        renewal::keep_pairs(alloc, told)
    }

    /// The outcome of a command that is refused before it is known whose it is.
    fn outcome_of_unknown(
        &self,
        alloc: Global,
        now: u64,
        handle: u64,
        correlation: u64,
        refusal: Refusal,
    ) -> Result<Outcome, AllocError>
        ensures { (inputs : InputsSpec) → IfOk result (λ outcome. outcome ≡ outcome_by self.now inputs (refused (at_moment self.now now) [] handle correlation refusal)) }
    {
        let told = Report::refused(alloc, handle, correlation, Refused::plainly(refusal))?;
        renewal::keep_pairs(alloc, told)
    }

    /// The outcome of the command of a handle.
    #[tactic(auto, unfolding(crate::specs::Commands::asked, crate::specs::State::at_moment))]
    fn outcome_of_asked(
        &self,
        alloc: Global,
        now: u64,
        handle: u64,
        command: &Command,
        channel: Result<&Channel, UriError>,
        inputs: &Inputs,
    ) -> Result<Outcome, AllocError>
        requires { channel_lent channel ≡ channel_named command.now.body }
        ensures { IfOk result (λ outcome. outcome ≡ outcome_by self.now inputs.now (asked (at_moment self.now now) handle command.now)) }
    {
        let correlation = command.correlation;
        if command.client != handle {
            return self.outcome_of_unknown(alloc, now, handle, correlation, Refusal::WrongClient);
        }
        match self.clients.get(handle) {
            Some(client) => {
                let asking = Asking {
                    now,
                    handle,
                    client,
                    correlation,
                };
                self.outcome_of_requested(alloc, asking, command, channel, inputs)
            }
            None => self.outcome_of_unknown(alloc, now, handle, correlation, Refusal::WrongClient),
        }
    }

    /// The outcome of a command that came over a handle.
    #[tactic(auto, unfolding(crate::specs::Commands::command, crate::specs::Received::channel_in))]
    pub(crate) fn outcome_of_command(
        &self,
        alloc: Global,
        now: u64,
        handle: u64,
        received: &Received,
        inputs: &Inputs,
    ) -> Result<Outcome, AllocError>
        ensures { IfOk result (λ outcome. outcome ≡ outcome_by self.now inputs.now (command (at_moment self.now now) handle received.now)) }
    {
        match received.read() {
            Ok(command) => {
                let channel = received.channel();
                self.outcome_of_asked(alloc, now, handle, command, channel, inputs)
            }
            Err(fault) => {
                let correlation = Command::correlation_of(received.as_slice());
                self.outcome_of_unknown(alloc, now, handle, correlation, refusal_for(*fault))
            }
        }
    }

    /// The command of a client that is there.
    #[tactic(auto, unfolding(crate::specs::Commands::requested))]
    pub(crate) fn do_requested(
        &mut self,
        client: Client,
        command: &Command,
        channel: Result<&Channel, UriError>,
    )
        requires named { channel_lent channel ≡ channel_named command.now.body }
        requires owned { is_some (principal_at self.old.clients.rows client.number) ≡ true }
        ensures { self.new ≡ (requested self.old client command.now).after }
    {
        match &command.body {
            Body::AddPublication(fields) => self.do_add_publication(client, fields, channel, false),
            Body::RemovePublication(fields) => self.do_remove_publication(client, *fields),
            Body::AddExclusivePublication(fields) => {
                self.do_add_publication(client, fields, channel, true)
            }
            Body::AddSubscription(fields) => self.do_add_subscription(client, fields, channel),
            Body::RemoveSubscription(fields) => self.do_remove_subscription(client, *fields),
            Body::ClientKeepalive => self.do_keep_alive(),
            Body::AddDestination(fields) => self.do_add_destination(client, fields, channel),
            Body::RemoveDestination(fields) => self.do_remove_destination(client, fields, channel),
            Body::AddCounter(fields) => self.do_add_counter(client, fields),
            Body::RemoveCounter(fields) => self.do_remove_counter(client, *fields),
            Body::ClientClose => self.do_close(client),
            Body::TerminateDriver(_) => self.do_terminate(client),
            Body::SetCounter(fields) => self.do_set_counter(client, *fields),
        }
    }

    /// The client of this handle is heard of, by a command of its own.
    #[tactic(auto, unfolding(crate::specs::Commands::heard))]
    pub(crate) fn hear(&mut self, handle: u64)
        ensures { self.new ≡ heard self.old handle }
    {
        let moment = self.moment;
        self.clients.touch(handle, moment);
    }

    /// The command of a handle.
    #[tactic(auto, unfolding(crate::specs::Commands::asked, crate::specs::Draft::refused, crate::specs::Draft::replied, crate::specs::Draft::told))]
    fn do_asked(&mut self, handle: u64, command: &Command, channel: Result<&Channel, UriError>)
        requires { channel_lent channel ≡ channel_named command.now.body }
        ensures { self.new ≡ (asked self.old handle command.now).after }
    {
        if command.client != handle {
            return;
        }
        let Some(client) = self.clients.get(handle) else {
            return;
        };
        self.hear(handle);
        self.do_requested(client, command, channel);
    }

    /// A command that came over a handle.
    #[tactic(auto, unfolding(crate::specs::Commands::command, crate::specs::Received::channel_in, crate::specs::Draft::refused, crate::specs::Draft::replied, crate::specs::Draft::told))]
    pub(crate) fn do_command(&mut self, handle: u64, received: &Received)
        ensures { self.new ≡ (command self.old handle received.now).after }
    {
        match received.read() {
            Ok(command) => {
                self.do_asked(handle, command, received.channel());
            }
            Err(_) => {}
        }
    }
}

ghost use Rattle.channel_uri.specs.Channel.{denotes};
ghost use Rattle.driver_core.specs.Directing.{add_destination, destination_decision, directed_to, directing_by, directing_of, has_room_for_sole, is_taken, own_log, recalling_of, refused_by_destinations, remove_destination, sole_address, target_address, target_of, with_destination};
ghost use Rattle.driver_core.specs.State.{has_number};
ghost use Rattle.driver_core.specs.Report.{report_of};
ghost use Rattle.destinations.specs.Destinations.{adding, has};
ghost use Rattle.driver_core.specs.Received.{channel_lent};
ghost use Rattle.std.specs.Option.{option_copied};
ghost use Rattle.stream_registry.specs.Places.{is_dynamic, is_manual};
ghost use Rattle.std.specs.Prelude.{◌≡◌, ℕ, IfOk, Ok, true};

use crate::rules::deciding;
use crate::state::refusal::Refusal;
use crate::state::refused::Refused;
use crate::state::registry::Registry;
use crate::state::replies::Reply;
use crate::state::report::Report;
use channel_uri::{Address, Channel, Media, Place, UriError, address_of};
use client_registry::Client;
use command_codec::Destination;
use destinations::DestinationFault;
use policy_core::{Act, Decision};
use std::alloc::{AllocError, Global};
use stream_registry::{Adding, LogRow, Wanted};

/// Which address of which log a command on a destination names.
#[derive(Clone, Copy)]
pub(crate) struct Target {
    /// The number of the log.
    pub(crate) source: u64,
    /// The stream of the log.
    pub(crate) stream: i32,
    /// Whether the log's destinations are named by hand.
    pub(crate) manual: bool,
    pub(crate) address: Address,
}

/// On which decision an address comes to a log.
#[derive(Drop)]
pub(crate) struct Directed {
    pub(crate) decision: Decision,
    pub(crate) target: Target,
    /// The channel that names the address.
    pub(crate) channel: Channel,
}

/// The one destination of a publication on such a channel: its endpoint; or, where destinations are learnt, the address at which
/// they make themselves known, which stands for them all. None where they are named by hand.
#[tactic(auto, unfolding(crate::specs::Directing::sole_address))]
fn sole_address(channel: &Channel) -> Option<Address>
    ensures { result ≡ sole_address channel.now }
{
    match channel.place() {
        Some(Place::Endpoint(text) | Place::Control(text)) => address_of(text),
        _ => None,
    }
}

/// The address that a destination's channel names: `udp` with an endpoint, no spy.
#[tactic(auto, unfolding(crate::specs::Directing::target_address))]
fn target_address(channel: &Channel) -> Option<Address>
    ensures { result ≡ target_address channel.now }
{
    if !channel.is_spy() && channel.media() == Media::Udp {
        channel.endpoint()
    } else {
        None
    }
}

/// Whether the destinations of such a publication are named by hand. Its endpoint is not looked for.
#[tactic(auto, unfolding(stream_registry::specs::Places::is_manual, channel_uri::specs::Place::spot_of))]
pub(crate) fn is_manual(channel: &Channel) -> bool
    ensures { result ≡ is_manual channel.now }
{
    channel.media() == Media::Udp && channel.is_manual()
}

/// Whether the destinations of such a publication are learnt from status messages.
#[tactic(auto, unfolding(stream_registry::specs::Places::is_dynamic))]
pub(crate) fn is_dynamic(channel: &Channel) -> bool
    ensures { result ≡ is_dynamic channel.now }
{
    matches!(channel.place(), Some(Place::Control(_)))
}

/// Why an address is not named.
fn refused_by_destinations(fault: DestinationFault) -> Refusal
    ensures { result ≡ refused_by_destinations fault }
{
    match fault {
        DestinationFault::Conflict => Refusal::Conflict,
        DestinationFault::Full => Refusal::Full,
    }
}

/// What the policy in force decides: the channel is the destination's, the stream the publication's.
fn destination_decision(
    registry: &Registry,
    client: Client,
    channel: &Channel,
    target: Target,
) -> Decision
    ensures { result ≡ destination_decision registry.now client channel.now target }
{
    deciding::decide(registry, client, Act::Destination, channel, target.stream)
}

impl Registry {
    /// Whether a destination's number is left for a publication, where it makes a log that has one destination.
    #[tactic(auto, unfolding(crate::specs::Directing::has_room_for_sole))]
    pub(crate) fn has_room_for_sole(&self, wanted: &Wanted, adding: Adding) -> bool
        requires { has_number self.now ≡ true }
        ensures { result ≡ has_room_for_sole self.now wanted.now adding }
    {
        match adding {
            Adding::Join { .. } => true,
            Adding::Make { .. } => match sole_address(&wanted.channel) {
                Some(address) => {
                    matches!(
                        self.destinations.adding(self.next_number(), &address),
                        Ok(_)
                    )
                }
                None => true,
            },
        }
    }

    /// The endpoint of such a channel, where it has one, becomes a destination of that log, named for the principal by that
    /// channel.
    pub(crate) fn put_sole(&mut self, source: u64, principal: u32, channel: &Channel)
        ensures { self.new ≡ record self.old { destinations = directed_to self.old.destinations source principal channel.now (sole_address channel.now) } }
    {
        match sole_address(channel) {
            Some(address) => match self.destinations.add(source, &address, principal, channel) {
                Ok(_) => {}
                Err(_) => {}
            },
            None => {}
        }
    }

    /// The log that the client's own registration of this number is with.
    #[tactic(auto, unfolding(crate::specs::Directing::own_log))]
    fn own_log(&self, client: u64, number: u64) -> Option<&LogRow>
        ensures { option_copied result ≡ own_log self.now client number }
    {
        let registration = self.own_registration(client, number)?;
        self.source(registration.source)
    }

    /// What such a command names: its channel has to be a destination's, and then the publication the client's own.
    #[tactic(auto, unfolding(crate::specs::Directing::target_of))]
    fn target(&self, client: u64, number: u64, channel: &Channel) -> Result<Target, Refused>
        ensures { result ≡ target_of self.now client number channel.now }
    {
        let Some(address) = target_address(channel) else {
            return Err(Refused::plainly(Refusal::InvalidChannel));
        };
        match self.own_log(client, number) {
            Some(log) => Ok(Target {
                source: log.number,
                stream: log.stream,
                manual: is_manual(&log.channel),
                address,
            }),
            None => Err(Refused::plainly(Refusal::UnknownPublication)),
        }
    }

    /// What is decided on an address that is named for a publication of the client's own.
    fn directing_to(
        &self,
        client: Client,
        channel: &Channel,
        target: Target,
    ) -> Result<Directed, Refused>
        ensures decided { result ≡ directing_by self.now client channel.now (Ok target) }
        ensures taken { IfOk result (λ granted. is_taken (adding self.now.destinations granted.target.source granted.target.address) ≡ true) }
    {
        let decision = destination_decision(self, client, channel, target);
        if !decision.verdict.allow {
            return Err(Refused::denied(decision));
        }
        if !target.manual {
            return Err(Refused::on(decision, Refusal::Conflict));
        }
        match self.destinations.adding(target.source, &target.address) {
            Ok(_) => Ok(Directed {
                decision,
                target,
                channel: channel.copy(),
            }),
            Err(fault) => Err(Refused::on(decision, refused_by_destinations(fault))),
        }
    }

    /// What is decided on ADD_DESTINATION.
    #[tactic(auto, unfolding(crate::specs::Directing::directing_of))]
    fn directing(
        &self,
        client: Client,
        fields: &Destination,
        channel: Result<&Channel, UriError>,
    ) -> Result<Directed, Refused>
        requires { channel_lent channel ≡ denotes fields.now.channel }
        ensures decided { result ≡ directing_of self.now client fields.now }
        ensures taken { IfOk result (λ granted. is_taken (adding self.now.destinations granted.target.source granted.target.address) ≡ true) }
    {
        match channel {
            Ok(channel) => match self.target(client.number, fields.registration, channel) {
                Ok(target) => self.directing_to(client, channel, target),
                Err(refused) => Err(refused),
            },
            Err(_) => Err(Refused::plainly(Refusal::InvalidChannel)),
        }
    }

    /// What the command ADD_DESTINATION of a client that is there reports.
    #[tactic(auto, unfolding(crate::specs::Directing::add_destination, crate::specs::Directing::directed, crate::specs::Draft::refused, crate::specs::Draft::replied, crate::specs::Draft::told))]
    pub(crate) fn tell_add_destination(
        &self,
        alloc: Global,
        client: Client,
        correlation: u64,
        fields: &Destination,
        channel: Result<&Channel, UriError>,
    ) -> Result<Report, AllocError>
        requires { channel_lent channel ≡ denotes fields.now.channel }
        ensures { IfOk result (λ told. told ≡ report_of (add_destination self.now client correlation fields.now)) }
    {
        match self.directing(client, fields, channel) {
            Ok(directed) => {
                let reply = Reply::OperationSuccess { correlation };
                Report::replied_on(alloc, directed.decision, client.number, reply)
            }
            Err(refused) => Report::refused(alloc, client.number, correlation, refused),
        }
    }

    /// The address comes to the log, named by that channel for the principal for whom the client acts.
    #[tactic(auto, unfolding(crate::specs::Directing::with_destination))]
    fn put_destination(&mut self, client: Client, target: Target, channel: &Channel)
        requires { is_taken (adding self.old.destinations target.source target.address) ≡ true }
        ensures { self.new ≡ with_destination self.old client target channel.now }
    {
        match self
            .destinations
            .add(target.source, &target.address, client.principal, channel)
        {
            Ok(_) => {}
            Err(_) => {}
        }
    }

    /// The command ADD_DESTINATION of a client that is there.
    #[tactic(auto, unfolding(crate::specs::Directing::add_destination, crate::specs::Directing::directed, crate::specs::Draft::refused, crate::specs::Draft::replied, crate::specs::Draft::told))]
    pub(crate) fn do_add_destination(
        &mut self,
        client: Client,
        fields: &Destination,
        channel: Result<&Channel, UriError>,
    )
        requires { channel_lent channel ≡ denotes fields.now.channel }
        ensures { (correlation : ℕ) → self.new ≡ (add_destination self.old client correlation fields.now).after }
    {
        match self.directing(client, fields, channel) {
            Ok(directed) => self.put_destination(client, directed.target, &directed.channel),
            Err(_) => {}
        }
    }

    /// What is decided on REMOVE_DESTINATION.
    #[tactic(auto, unfolding(crate::specs::Directing::recalling_of))]
    fn recalling(
        &self,
        client: u64,
        fields: &Destination,
        channel: Result<&Channel, UriError>,
    ) -> Result<Target, Refused>
        requires { channel_lent channel ≡ denotes fields.now.channel }
        ensures decided { result ≡ recalling_of self.now client fields.now }
        ensures known { IfOk result (λ target. has self.now.destinations.rows target.source target.address ≡ true) }
    {
        let target = match channel {
            Ok(channel) => self.target(client, fields.registration, channel)?,
            Err(_) => return Err(Refused::plainly(Refusal::InvalidChannel)),
        };
        if target.manual && self.destinations.has(target.source, &target.address) {
            Ok(target)
        } else {
            Err(Refused::plainly(Refusal::Conflict))
        }
    }

    /// What the command REMOVE_DESTINATION of a client that is there reports.
    #[tactic(auto, unfolding(crate::specs::Directing::remove_destination, crate::specs::Directing::recalled, crate::specs::Draft::refused, crate::specs::Draft::replied, crate::specs::Draft::told))]
    pub(crate) fn tell_remove_destination(
        &self,
        alloc: Global,
        client: Client,
        correlation: u64,
        fields: &Destination,
        channel: Result<&Channel, UriError>,
    ) -> Result<Report, AllocError>
        requires { channel_lent channel ≡ denotes fields.now.channel }
        ensures { IfOk result (λ told. told ≡ report_of (remove_destination self.now client correlation fields.now)) }
    {
        match self.recalling(client.number, fields, channel) {
            Ok(_) => {
                let reply = Reply::OperationSuccess { correlation };
                Report::replied(alloc, client.number, reply)
            }
            Err(refused) => Report::refused(alloc, client.number, correlation, refused),
        }
    }

    /// The command REMOVE_DESTINATION of a client that is there.
    #[tactic(auto, unfolding(crate::specs::Directing::remove_destination, crate::specs::Directing::recalled, crate::specs::Directing::without_destination, crate::specs::Draft::refused, crate::specs::Draft::replied, crate::specs::Draft::told))]
    pub(crate) fn do_remove_destination(
        &mut self,
        client: Client,
        fields: &Destination,
        channel: Result<&Channel, UriError>,
    )
        requires { channel_lent channel ≡ denotes fields.now.channel }
        ensures { (correlation : ℕ) → self.new ≡ (remove_destination self.old client correlation fields.now).after }
    {
        match self.recalling(client.number, fields, channel) {
            Ok(target) => match self.destinations.remove(target.source, &target.address) {
                Ok(()) => {}
                Err(_) => {}
            },
            Err(_) => {}
        }
    }
}

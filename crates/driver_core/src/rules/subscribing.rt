ghost use Rattle.driver_core.specs.Subscribing.{is_subscribable, act_of, decision_of, subscribe, subscribed, subscribing_of, add_subscription, has_room_for_subscription, with_subscription};
ghost use Rattle.channel_uri.specs.Channel.{denotes};
ghost use Rattle.driver_core.specs.Commands.{at_asking};
ghost use Rattle.driver_core.specs.Renewal.{outcome_by, outcome_coming};
ghost use Rattle.stream_registry.specs.Wish.{row_of};
ghost use Rattle.driver_core.specs.Received.{channel_lent};
ghost use Rattle.driver_core.specs.Report.{report_of};
ghost use Rattle.std.specs.Prelude.{◌≡◌, true, length, is_some, ℕ, IfOk};
ghost use Rattle.client_registry.specs.Clients.{principal_at};
ghost use Rattle.driver_core.specs.State.{has_number};
ghost use Rattle.driver_core.specs.Pairs.{pairs_of, prospects_of};

use crate::pairs::{PAIRS, renewal};
use crate::rules::asking::Asking;
use crate::rules::deciding;
use crate::state::event::Inputs;
use crate::state::outcome::Outcome;
use crate::state::refusal::Refusal;
use crate::state::refused::Refused;
use crate::state::registry::Registry;
use crate::state::replies::Reply;
use crate::state::report::Report;
use channel_uri::{Channel, Media, UriError};
use client_registry::Client;
use command_codec::AddSubscription;
use policy_core::{Act, Decision};
use std::alloc::{AllocError, Global};
use stream_registry::Wish;

/// Whether a subscription takes such a channel: a spy needs a place, and `udp` an endpoint and no control mode.
#[tactic(auto, unfolding(crate::specs::Subscribing::is_subscribable))]
pub(crate) fn is_subscribable(channel: &Channel) -> bool
    ensures { result ≡ is_subscribable channel.now }
{
    if channel.is_spy() {
        return channel.place().is_some();
    }
    match channel.media() {
        Media::Ipc => true,
        Media::Udp => channel.get("endpoint").is_some() && channel.get("control-mode").is_none(),
        Media::Counter => false,
    }
}

/// The act that the policy is asked for.
fn act_of(channel: &Channel) -> Act
    ensures { result ≡ act_of channel.now }
{
    if channel.is_spy() {
        Act::Spy
    } else {
        Act::Subscribe
    }
}

impl Registry {
    /// How many pairs there would be with the subscription. It takes no memory.
    #[tactic(auto, unfolding(crate::specs::Pairs::pairs_of, crate::specs::Subscribing::with_subscription))]
    fn pairs_now_with_subscription(&self, client: u64, channel: &Channel, stream: i32) -> usize
        requires { has_number self.now ≡ true }
        ensures { result ≡ length (pairs_of (with_subscription self.now client channel.now stream)) }
    {
        let wish = Wish {
            number: self.next_number(),
            client,
            channel,
            stream,
        };
        self.readers.pair_count_with_subscription(
            &self.streams,
            &self.clients,
            &self.compiled.policy(),
            self.compiled.epoch(),
            &wish,
        )
    }

    /// How many there would be with it, then or later. It takes no memory.
    #[tactic(auto, unfolding(crate::specs::Pairs::prospects_of, crate::specs::Subscribing::with_subscription))]
    fn pairs_ever_with_subscription(&self, client: u64, channel: &Channel, stream: i32) -> usize
        requires { has_number self.now ≡ true }
        ensures { result ≡ length (prospects_of (with_subscription self.now client channel.now stream)) }
    {
        let wish = Wish {
            number: self.next_number(),
            client,
            channel,
            stream,
        };
        log_readers::prospect_count_with_subscription(
            &self.streams,
            &self.clients,
            self.compiled.given(),
            self.compiled.as_of(),
            self.compiled.epoch(),
            &wish,
        )
    }

    /// How many there would be with it, then or later. Where the policy stands for good, those that are kept are counted. It
    /// takes no memory.
    fn pairs_with_subscription(&self, client: u64, channel: &Channel, stream: i32) -> usize
        requires { has_number self.now ≡ true }
        ensures { result ≡ length (prospects_of (with_subscription self.now client channel.now stream)) }
    {
        if self.is_settled() {
            return self.pairs_now_with_subscription(client, channel, stream);
        }
        self.pairs_ever_with_subscription(client, channel, stream)
    }

    /// Whether there is a number for the subscription, and room for it and its pairs. It takes no memory.
    #[tactic(auto, unfolding(crate::specs::Subscribing::has_room_for_subscription, crate::specs::Pairs::is_within_pairs))]
    fn has_room_for_subscription(&self, client: u64, channel: &Channel, stream: i32) -> bool
        ensures { result ≡ has_room_for_subscription self.now client channel.now stream }
    {
        self.has_number()
            && self.streams.has_room_for_subscription()
            && self.pairs_with_subscription(client, channel, stream) <= PAIRS
    }

    /// What is decided on a subscription on a channel that such a command takes.
    #[tactic(auto, unfolding(crate::specs::Subscribing::subscribing_of))]
    fn subscribing(
        &self,
        client: Client,
        channel: &Channel,
        stream: i32,
    ) -> Result<Decision, Refused>
        ensures { result ≡ subscribing_of self.now client channel.now stream }
    {
        let decision = deciding::decide(self, client, act_of(channel), channel, stream);
        if !decision.verdict.allow {
            return Err(Refused::denied(decision));
        }
        if !self.has_room_for_subscription(client.number, channel, stream) {
            return Err(Refused::on(decision, Refusal::Full));
        }
        Ok(decision)
    }

    /// What is decided on it, once the client was heard of.
    pub(crate) fn subscribing_at(
        &self,
        asking: Asking,
        channel: &Channel,
        stream: i32,
    ) -> Result<Decision, Refused>
        ensures { result ≡ subscribing_of (at_asking self.now asking) asking.client channel.now stream }
    {
        self.subscribing(asking.client, channel, stream)
    }

    /// The outcome where a subscription comes, from its own reply and decision.
    fn outcome_of_coming(
        &self,
        alloc: Global,
        inputs: &Inputs,
        wish: &Wish<'_>,
        told: Report,
    ) -> Result<Outcome, AllocError>
        ensures { IfOk result (λ outcome. outcome ≡ outcome_coming self.now inputs.now told (row_of wish.now)) }
    {
        let mut told = told;
        let come = log_readers::pairs_of_subscription(
            alloc,
            &self.streams,
            &self.clients,
            &self.compiled.policy(),
            self.compiled.epoch(),
            wish,
        )?;
        let ends = inputs.ends.as_slice();
        self.push_all_available_on(&mut told.replies, ends, wish, come.as_slice())?;
        self.push_all_decided_with(alloc, &mut told.decisions, wish, come.as_slice())?;
        Ok(renewal::come_alone(alloc, told, come))
    }

    /// The outcome of a subscription that is granted.
    #[tactic(auto, unfolding(crate::specs::Subscribing::subscribed, crate::specs::Subscribing::has_room_for_subscription, crate::specs::Commands::heard, crate::specs::State::at_moment, crate::specs::State::has_number, crate::specs::Draft::replied, crate::specs::Draft::told))]
    pub(crate) fn outcome_of_subscribed(
        &self,
        alloc: Global,
        asking: Asking,
        channel: &Channel,
        stream: i32,
        inputs: &Inputs,
        decision: Decision,
    ) -> Result<Outcome, AllocError>
        requires room { has_room_for_subscription (at_asking self.now asking) asking.client.number channel.now stream ≡ true }
        requires decided { decision ≡ decision_of (at_asking self.now asking) asking.client channel.now stream }
        ensures { IfOk result (λ outcome. outcome ≡ outcome_by self.now inputs.now (subscribed (at_asking self.now asking) asking.client asking.correlation channel.now stream)) }
    {
        let wish = Wish {
            number: self.next_number(),
            client: asking.client.number,
            channel,
            stream,
        };
        let reply = Reply::SubscriptionReady {
            correlation: asking.correlation,
            registration: wish.number,
        };
        let told = Report::replied_on(alloc, decision, asking.client.number, reply)?;
        self.outcome_of_coming(alloc, inputs, &wish, told)
    }

    /// What a subscription that is granted reports, before what is reported of images.
    #[tactic(auto, unfolding(crate::specs::Subscribing::subscribed, crate::specs::Subscribing::with_subscription, crate::specs::Subscribing::has_room_for_subscription, crate::specs::Draft::replied, crate::specs::Draft::told))]
    fn tell_subscribed(
        &self,
        alloc: Global,
        client: Client,
        correlation: u64,
        channel: &Channel,
        stream: i32,
        decision: Decision,
    ) -> Result<Report, AllocError>
        requires room { has_room_for_subscription self.now client.number channel.now stream ≡ true }
        requires decided { decision ≡ decision_of self.now client channel.now stream }
        ensures { IfOk result (λ told. told ≡ report_of (subscribed self.now client correlation channel.now stream)) }
    {
        let reply = Reply::SubscriptionReady {
            correlation,
            registration: self.next_number(),
        };
        Report::replied_on(alloc, decision, client.number, reply)
    }

    /// What a subscription on a channel that such a command takes reports, before what is reported of images.
    #[tactic(auto, unfolding(crate::specs::Subscribing::subscribe, crate::specs::Subscribing::subscribing_of, crate::specs::Draft::refused, crate::specs::Draft::replied, crate::specs::Draft::told))]
    fn tell_subscribe(
        &self,
        alloc: Global,
        client: Client,
        correlation: u64,
        channel: &Channel,
        stream: i32,
    ) -> Result<Report, AllocError>
        ensures { IfOk result (λ told. told ≡ report_of (subscribe self.now client correlation channel.now stream)) }
    {
        match self.subscribing(client, channel, stream) {
            Ok(decision) => {
                self.tell_subscribed(alloc, client, correlation, channel, stream, decision)
            }
            Err(refused) => Report::refused(alloc, client.number, correlation, refused),
        }
    }

    /// What the command ADD_SUBSCRIPTION of a client that is there reports, before what is reported of images.
    #[tactic(auto, unfolding(crate::specs::Subscribing::add_subscription, crate::specs::Draft::refused, crate::specs::Draft::replied, crate::specs::Draft::told))]
    pub(crate) fn tell_add_subscription(
        &self,
        alloc: Global,
        client: Client,
        correlation: u64,
        fields: &AddSubscription,
        channel: Result<&Channel, UriError>,
    ) -> Result<Report, AllocError>
        requires { channel_lent channel ≡ denotes fields.now.channel }
        ensures { IfOk result (λ told. told ≡ report_of (add_subscription self.now client correlation fields.now)) }
    {
        let invalid = Refused::plainly(Refusal::InvalidChannel);
        match channel {
            Ok(channel) => {
                if !is_subscribable(channel) {
                    return Report::refused(alloc, client.number, correlation, invalid);
                }
                self.tell_subscribe(alloc, client, correlation, channel, fields.stream)
            }
            Err(_) => Report::refused(alloc, client.number, correlation, invalid),
        }
    }

    /// The outcome of a subscription on a channel that such a command takes.
    fn outcome_of_subscribe(
        &self,
        alloc: Global,
        asking: Asking,
        channel: &Channel,
        stream: i32,
        inputs: &Inputs,
    ) -> Result<Outcome, AllocError>
        ensures { IfOk result (λ outcome. outcome ≡ outcome_by self.now inputs.now (subscribe (at_asking self.now asking) asking.client asking.correlation channel.now stream)) }
    {
        match self.subscribing_at(asking, channel, stream) {
            Ok(decision) => {
                self.outcome_of_subscribed(alloc, asking, channel, stream, inputs, decision)
            }
            Err(refused) => self.outcome_of_refused(alloc, asking, refused),
        }
    }

    /// The outcome of the command ADD_SUBSCRIPTION of a client that is there.
    #[tactic(auto, unfolding(crate::specs::Subscribing::add_subscription))]
    #[inline(never)]
    pub(crate) fn outcome_of_add_subscription(
        &self,
        alloc: Global,
        asking: Asking,
        fields: &AddSubscription,
        channel: Result<&Channel, UriError>,
        inputs: &Inputs,
    ) -> Result<Outcome, AllocError>
        requires { channel_lent channel ≡ denotes fields.now.channel }
        ensures { IfOk result (λ outcome. outcome ≡ outcome_by self.now inputs.now (add_subscription (at_asking self.now asking) asking.client asking.correlation fields.now)) }
    {
        let invalid = Refused::plainly(Refusal::InvalidChannel);
        match channel {
            Ok(channel) => {
                if !is_subscribable(channel) {
                    return self.outcome_of_refused(alloc, asking, invalid);
                }
                self.outcome_of_subscribe(alloc, asking, channel, fields.stream, inputs)
            }
            Err(_) => self.outcome_of_refused(alloc, asking, invalid),
        }
    }

    /// The client subscribes under the next number.
    #[tactic(auto, unfolding(crate::specs::Subscribing::has_room_for_subscription, crate::specs::Subscribing::with_subscription))]
    pub(crate) fn put_subscription(&mut self, client: u64, channel: &Channel, stream: i32)
        requires owned { is_some (principal_at self.old.clients.rows client) ≡ true }
        requires room { has_room_for_subscription self.old client channel.now stream ≡ true }
        ensures { self.new ≡ with_subscription self.old client channel.now stream }
    {
        let wish = Wish {
            number: self.next_number(),
            client,
            channel,
            stream,
        };
        self.readers.add_subscription(
            &self.streams,
            &self.clients,
            &self.compiled.policy(),
            self.compiled.epoch(),
            &wish,
        );
        self.streams
            .add_subscription(wish.number, client, channel, stream);
        self.last_number = wish.number;
    }

    /// A subscription on a channel that such a command takes.
    #[tactic(auto, unfolding(crate::specs::Subscribing::subscribe, crate::specs::Subscribing::subscribed, crate::specs::Subscribing::subscribing_of, crate::specs::Draft::refused, crate::specs::Draft::replied, crate::specs::Draft::told))]
    fn do_subscribe(&mut self, client: Client, channel: &Channel, stream: i32)
        requires { is_some (principal_at self.old.clients.rows client.number) ≡ true }
        ensures { (correlation : ℕ) → self.new ≡ (subscribe self.old client correlation channel.now stream).after }
    {
        match self.subscribing(client, channel, stream) {
            Ok(_) => self.put_subscription(client.number, channel, stream),
            Err(_) => {}
        }
    }

    /// The command ADD_SUBSCRIPTION of a client that is there.
    #[tactic(auto, unfolding(crate::specs::Subscribing::add_subscription, crate::specs::Draft::refused, crate::specs::Draft::replied, crate::specs::Draft::told))]
    #[inline(never)]
    pub(crate) fn do_add_subscription(
        &mut self,
        client: Client,
        fields: &AddSubscription,
        channel: Result<&Channel, UriError>,
    )
        requires named { channel_lent channel ≡ denotes fields.now.channel }
        requires owned { is_some (principal_at self.old.clients.rows client.number) ≡ true }
        ensures { (correlation : ℕ) → self.new ≡ (add_subscription self.old client correlation fields.now).after }
    {
        match channel {
            Ok(channel) if is_subscribable(channel) => {
                self.do_subscribe(client, channel, fields.stream)
            }
            _ => {}
        }
    }
}

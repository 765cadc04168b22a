ghost use Rattle.driver_core.specs.Publishing.{add_publication, granting_of, has_place, has_room_for_publication, is_joined, is_publishable, new_log, place_of_new, publication_decision, publish, published, publishing_act, publishing_of, ready_for, refused_by_streams, session_of, with_directed_publication, with_publication};
ghost use Rattle.channel_uri.specs.Channel.{denotes};
ghost use Rattle.driver_core.specs.Commands.{at_asking};
ghost use Rattle.driver_core.specs.Renewal.{outcome_by, outcome_opening};
ghost use Rattle.driver_core.specs.Pairs.{pairs_of, prospects_of};
ghost use Rattle.driver_core.specs.Received.{channel_lent};
ghost use Rattle.driver_core.specs.Report.{report_of};
ghost use Rattle.std.specs.Prelude.{◌≡◌, ◌&&◌, true, Ok, Some, length, ℕ, IfOk, unwrap_or};
ghost use Rattle.driver_core.specs.State.{has_number};
ghost use Rattle.stream_registry.specs.Adding.{added, adding_of};
ghost use Rattle.stream_registry.specs.Lingering.{place_of};

use crate::pairs::{PAIRS, renewal};
use crate::rules::asking::Asking;
use crate::rules::deciding;
use crate::state::event::Inputs;
use crate::state::outcome::Outcome;
use crate::state::refusal::Refusal;
use crate::state::refused::Refused;
use crate::state::registry::Registry;
use crate::state::replies::Reply;
use crate::state::report::Report;
use byte_strings::Items;
use channel_uri::{Channel, UriError};
use client_registry::Client;
use command_codec::AddPublication;
use policy_core::{Act, Decision};
use std::alloc::{AllocError, Global};
use stream_registry::{Adding, LogPlace, LogRow, StreamFault, Wanted};

/// On which decision a publication is granted, and what the lists make of it.
#[derive(Clone, Copy)]
pub(crate) struct Granted {
    pub(crate) decision: Decision,
    pub(crate) adding: Adding,
}

/// Whether a publication takes such a channel: no spy, and `udp` with an endpoint or with destinations named by hand.
#[tactic(auto, unfolding(crate::specs::Publishing::is_publishable))]
pub(crate) fn is_publishable(channel: &Channel) -> bool
    ensures { result ≡ is_publishable channel.now }
{
    !channel.is_spy() && channel.place().is_some()
}

/// The act that the policy is asked for.
fn publishing_act(exclusive: bool) -> Act
    ensures { result ≡ publishing_act exclusive }
{
    if exclusive {
        Act::PublishExclusive
    } else {
        Act::Publish
    }
}

/// Why the lists take no such publication.
fn refused_by_streams(fault: StreamFault) -> Refusal
    ensures { result ≡ refused_by_streams fault }
{
    match fault {
        StreamFault::Conflict => Refusal::Conflict,
        _ => Refusal::Full,
    }
}

/// The session of the log that is joined or made.
fn session_of(adding: Adding) -> i32
    ensures { result ≡ session_of adding }
{
    match adding {
        Adding::Join { session, .. } => session,
        Adding::Make { session } => session,
    }
}

/// Whether it is known that each image has a pair still, where that was known: no pair changes where a log is joined.
fn are_read_still(known: bool, adding: Adding) -> bool
    ensures { result ≡ (known && is_joined adding) }
{
    known && matches!(adding, Adding::Join { .. })
}

/// The reply that the publication stands.
fn ready_for(wanted: &Wanted, correlation: u64, number: u64, session: i32) -> Reply
    ensures { result ≡ ready_for wanted.now correlation number session }
{
    let stream = wanted.stream;
    if wanted.exclusive {
        Reply::ExclusivePublicationReady {
            correlation,
            registration: number,
            session,
            stream,
        }
    } else {
        Reply::PublicationReady {
            correlation,
            registration: number,
            session,
            stream,
        }
    }
}

impl Registry {
    /// What the lists make of the publication.
    fn adding(&self, wanted: &Wanted) -> Result<Adding, StreamFault>
        ensures { result ≡ adding_of self.now.streams wanted.now }
    {
        self.streams.adding(wanted)
    }

    /// Whether there is room for the log, which one that is joined has already.
    #[tactic(auto, unfolding(crate::specs::Publishing::has_place))]
    fn has_place(&self, wanted: &Wanted, adding: Adding) -> bool
        ensures { result ≡ has_place self.now wanted.now adding }
    {
        match adding {
            Adding::Join { .. } => true,
            Adding::Make { .. } => {
                self.streams
                    .place_for(self.settings.arena_pages, wanted)
                    .is_some()
            }
        }
    }

    /// The page at which the memory of the log begins that would be made. For one that is joined, which has its place, no
    /// place is looked for.
    fn place_of_added(&self, wanted: &Wanted, adding: Adding) -> u64
        ensures { (number client : ℕ) → added self.now.streams number client wanted.now result adding ≡ added self.now.streams number client wanted.now (unwrap_or (place_of_new self.now wanted.now) 0) adding }
    {
        match adding {
            Adding::Join { .. } => 0,
            Adding::Make { .. } => {
                self.streams
                    .place_for(self.settings.arena_pages, wanted)
                    .unwrap_or(0)
            }
        }
    }

    /// The row of the log that would be made under the next number.
    fn new_log(&self, wanted: &Wanted, session: i32) -> LogRow
        requires { has_number self.now ≡ true }
        ensures { result ≡ new_log self.now wanted.now session }
    {
        let place = self
            .streams
            .place_for(self.settings.arena_pages, wanted)
            .unwrap_or(0);
        self.streams.log(self.next_number(), wanted, place, session)
    }

    /// How many pairs there would be with the publication. It takes no memory.
    #[tactic(auto, unfolding(crate::specs::Pairs::pairs_of, crate::specs::Publishing::with_publication))]
    fn pairs_now_with_publication(&self, client: u64, wanted: &Wanted, adding: Adding) -> usize
        requires { has_number self.now ≡ true }
        ensures { result ≡ length (pairs_of (with_publication self.now client wanted.now adding)) }
    {
        let place = self.place_of_added(wanted, adding);
        self.readers.pair_count_with_publication(
            &self.streams,
            &self.clients,
            &self.compiled.policy(),
            self.compiled.epoch(),
            self.next_number(),
            client,
            wanted,
            place,
            adding,
        )
    }

    /// How many there would be with it, then or later. It takes no memory.
    #[tactic(auto, unfolding(crate::specs::Pairs::prospects_of, crate::specs::Publishing::with_publication))]
    fn pairs_ever_with_publication(&self, client: u64, wanted: &Wanted, adding: Adding) -> usize
        requires { has_number self.now ≡ true }
        ensures { result ≡ length (prospects_of (with_publication self.now client wanted.now adding)) }
    {
        let place = self.place_of_added(wanted, adding);
        log_readers::prospect_count_with_publication(
            &self.streams,
            &self.clients,
            self.compiled.given(),
            self.compiled.as_of(),
            self.compiled.epoch(),
            self.next_number(),
            client,
            wanted,
            place,
            adding,
        )
    }

    /// How many there would be with it, then or later. Where the policy stands for good, those that are kept are counted. It
    /// takes no memory.
    fn pairs_with_publication(&self, client: u64, wanted: &Wanted, adding: Adding) -> usize
        requires { has_number self.now ≡ true }
        ensures { result ≡ length (prospects_of (with_publication self.now client wanted.now adding)) }
    {
        if self.is_settled() {
            return self.pairs_now_with_publication(client, wanted, adding);
        }
        self.pairs_ever_with_publication(client, wanted, adding)
    }

    /// Whether there are numbers for the publication and its destination, and room for its pairs. It takes no memory.
    #[tactic(auto, unfolding(crate::specs::Pairs::is_within_pairs))]
    fn has_room_for_publication(&self, client: u64, wanted: &Wanted, adding: Adding) -> bool
        ensures { result ≡ has_room_for_publication self.now client wanted.now adding }
    {
        self.has_number()
            && self.has_room_for_sole(wanted, adding)
            && self.pairs_with_publication(client, wanted, adding) <= PAIRS
    }

    /// What the policy in force decides.
    fn publication_decision(&self, client: Client, wanted: &Wanted) -> Decision
        ensures { result ≡ publication_decision self.now client wanted.now }
    {
        let act = publishing_act(wanted.exclusive);
        deciding::decide(self, client, act, &wanted.channel, wanted.stream)
    }

    /// What is decided on a publication that the policy allows and the lists take.
    #[tactic(auto, unfolding(crate::specs::Publishing::granting_of))]
    fn granting(
        &self,
        client: Client,
        wanted: &Wanted,
        decision: Decision,
        adding: Adding,
    ) -> Result<Granted, Refused>
        requires { decision ≡ publication_decision self.now client wanted.now }
        ensures { result ≡ granting_of self.now client wanted.now adding }
    {
        if !self.has_room_for_publication(client.number, wanted, adding) {
            return Err(Refused::on(decision, Refusal::Full));
        }
        if !self.has_place(wanted, adding) {
            return Err(Refused::on(decision, Refusal::NoRoom));
        }
        Ok(Granted { decision, adding })
    }

    /// What is decided on a publication on a channel that such a command takes.
    #[tactic(auto, unfolding(crate::specs::Publishing::publishing_of))]
    fn publishing(&self, client: Client, wanted: &Wanted) -> Result<Granted, Refused>
        ensures { result ≡ publishing_of self.now client wanted.now }
    {
        let decision = self.publication_decision(client, wanted);
        if !decision.verdict.allow {
            return Err(Refused::denied(decision));
        }
        match self.adding(wanted) {
            Ok(adding) => self.granting(client, wanted, decision, adding),
            Err(fault) => Err(Refused::on(decision, refused_by_streams(fault))),
        }
    }

    /// What is decided on it, once the client was heard of.
    pub(crate) fn publishing_at(&self, asking: Asking, wanted: &Wanted) -> Result<Granted, Refused>
        ensures { result ≡ publishing_of (at_asking self.now asking) asking.client wanted.now }
    {
        self.publishing(asking.client, wanted)
    }

    /// The outcome where a log is made, from the publication's own reply and decision.
    fn outcome_of_made(
        &self,
        alloc: Global,
        inputs: &Inputs,
        wanted: &Wanted,
        session: i32,
        told: Report,
    ) -> Result<Outcome, AllocError>
        requires { has_number self.now ≡ true }
        ensures { IfOk result (λ outcome. outcome ≡ outcome_opening self.now inputs.now (record told { opens = Some (place_of (new_log self.now wanted.now session)) }) (new_log self.now wanted.now session)) }
    {
        let log = self.new_log(wanted, session);
        let mut told = told;
        told.opens = Some(LogPlace {
            source: log.number,
            place: log.place,
        });
        let mut come = Items::new(alloc);
        self.push_images_of(
            &mut told.replies,
            &mut told.decisions,
            &mut come,
            inputs.ends.as_slice(),
            &log,
            self.streams.subscriptions(),
        )?;
        Ok(renewal::come_alone(alloc, told, come))
    }

    /// The outcome of a publication that is granted.
    pub(crate) fn outcome_of_published(
        &self,
        alloc: Global,
        asking: Asking,
        wanted: &Wanted,
        granted: Granted,
        inputs: &Inputs,
    ) -> Result<Outcome, AllocError>
        requires room { has_room_for_publication (at_asking self.now asking) asking.client.number wanted.now granted.adding ≡ true }
        requires taken { adding_of (at_asking self.now asking).streams wanted.now ≡ Ok granted.adding }
        requires decided { granted.decision ≡ publication_decision (at_asking self.now asking) asking.client wanted.now }
        ensures { IfOk result (λ outcome. outcome ≡ outcome_by self.now inputs.now (published (at_asking self.now asking) asking.client asking.correlation wanted.now granted.adding)) }
    {
        let reply = ready_for(
            wanted,
            asking.correlation,
            self.next_number(),
            session_of(granted.adding),
        );
        let told = Report::replied_on(alloc, granted.decision, asking.client.number, reply)?;
        match granted.adding {
            Adding::Join { .. } => renewal::keep_pairs(alloc, told),
            Adding::Make { session } => {
                self.outcome_of_made(alloc, inputs, wanted, session, told)
            }
        }
    }

    /// What a publication that is granted reports, before what is reported of images.
    #[tactic(auto, unfolding(crate::specs::Publishing::published, crate::specs::Draft::replied_opening, crate::specs::Draft::replied, crate::specs::Draft::told))]
    fn tell_published(
        &self,
        alloc: Global,
        client: Client,
        correlation: u64,
        wanted: &Wanted,
        granted: Granted,
    ) -> Result<Report, AllocError>
        requires room { has_room_for_publication self.now client.number wanted.now granted.adding ≡ true }
        requires decided { granted.decision ≡ publication_decision self.now client wanted.now }
        ensures { IfOk result (λ told. told ≡ report_of (published self.now client correlation wanted.now granted.adding)) }
    {
        let number = self.next_number();
        let reply = ready_for(wanted, correlation, number, session_of(granted.adding));
        let mut told = Report::replied_on(alloc, granted.decision, client.number, reply)?;
        match granted.adding {
            Adding::Join { .. } => Ok(told),
            Adding::Make { session } => {
                let log = self.new_log(wanted, session);
                told.opens = Some(LogPlace {
                    source: log.number,
                    place: log.place,
                });
                Ok(told)
            }
        }
    }

    /// What a publication on a channel that such a command takes reports, before what is reported of images.
    #[tactic(auto, unfolding(crate::specs::Publishing::publish, crate::specs::Publishing::publish_under, crate::specs::Publishing::publishing_of, crate::specs::Draft::refused, crate::specs::Draft::replied, crate::specs::Draft::told))]
    fn tell_publish(
        &self,
        alloc: Global,
        client: Client,
        correlation: u64,
        wanted: &Wanted,
    ) -> Result<Report, AllocError>
        ensures { IfOk result (λ told. told ≡ report_of (publish self.now client correlation wanted.now)) }
    {
        match self.publishing(client, wanted) {
            Ok(granted) => self.tell_published(alloc, client, correlation, wanted, granted),
            Err(refused) => Report::refused(alloc, client.number, correlation, refused),
        }
    }

    /// What the command ADD_PUBLICATION of a client that is there reports, or ADD_EXCLUSIVE_PUBLICATION, before what is
    /// reported of images.
    #[tactic(auto, unfolding(crate::specs::Publishing::add_publication, crate::specs::Draft::refused, crate::specs::Draft::replied, crate::specs::Draft::told))]
    pub(crate) fn tell_add_publication(
        &self,
        alloc: Global,
        client: Client,
        correlation: u64,
        fields: &AddPublication,
        channel: Result<&Channel, UriError>,
        exclusive: bool,
    ) -> Result<Report, AllocError>
        requires { channel_lent channel ≡ denotes fields.now.channel }
        ensures { IfOk result (λ told. told ≡ report_of (add_publication self.now client correlation fields.now exclusive)) }
    {
        let invalid = Refused::plainly(Refusal::InvalidChannel);
        match channel {
            Ok(channel) => {
                if !is_publishable(channel) {
                    return Report::refused(alloc, client.number, correlation, invalid);
                }
                let wanted = Wanted {
                    channel: channel.copy(),
                    stream: fields.stream,
                    exclusive,
                };
                self.tell_publish(alloc, client, correlation, &wanted)
            }
            Err(_) => Report::refused(alloc, client.number, correlation, invalid),
        }
    }

    /// The outcome of a publication on a channel that such a command takes.
    fn outcome_of_publish(
        &self,
        alloc: Global,
        asking: Asking,
        wanted: &Wanted,
        inputs: &Inputs,
    ) -> Result<Outcome, AllocError>
        ensures { IfOk result (λ outcome. outcome ≡ outcome_by self.now inputs.now (publish (at_asking self.now asking) asking.client asking.correlation wanted.now)) }
    {
        match self.publishing_at(asking, wanted) {
            Ok(granted) => self.outcome_of_published(alloc, asking, wanted, granted, inputs),
            Err(refused) => self.outcome_of_refused(alloc, asking, refused),
        }
    }

    /// The outcome of the command ADD_PUBLICATION or ADD_EXCLUSIVE_PUBLICATION of a client that is there.
    #[tactic(auto, unfolding(crate::specs::Publishing::add_publication))]
    pub(crate) fn outcome_of_add_publication(
        &self,
        alloc: Global,
        asking: Asking,
        fields: &AddPublication,
        channel: Result<&Channel, UriError>,
        exclusive: bool,
        inputs: &Inputs,
    ) -> Result<Outcome, AllocError>
        requires { channel_lent channel ≡ denotes fields.now.channel }
        ensures { IfOk result (λ outcome. outcome ≡ outcome_by self.now inputs.now (add_publication (at_asking self.now asking) asking.client asking.correlation fields.now exclusive)) }
    {
        let invalid = Refused::plainly(Refusal::InvalidChannel);
        match channel {
            Ok(channel) => {
                if !is_publishable(channel) {
                    return self.outcome_of_refused(alloc, asking, invalid);
                }
                let wanted = Wanted {
                    channel: channel.copy(),
                    stream: fields.stream,
                    exclusive,
                };
                self.outcome_of_publish(alloc, asking, &wanted, inputs)
            }
            Err(_) => self.outcome_of_refused(alloc, asking, invalid),
        }
    }

    /// The client is registered under the next number.
    #[tactic(auto, unfolding(crate::specs::Publishing::with_publication))]
    fn put_publication(&mut self, client: u64, wanted: &Wanted, adding: Adding)
        requires room { has_room_for_publication self.old client wanted.now adding ≡ true }
        requires taken { adding_of self.old.streams wanted.now ≡ Ok adding }
        ensures { self.new ≡ with_publication self.old client wanted.now adding }
    {
        let number = self.next_number();
        let place = self.place_of_added(wanted, adding);
        self.readers.add_publication(
            &self.streams,
            &self.clients,
            &self.compiled.policy(),
            self.compiled.epoch(),
            number,
            client,
            wanted,
            place,
            adding,
        );
        self.streams
            .add_publication(number, client, wanted, place, adding);
        self.last_number = number;
        self.all_read = are_read_still(self.all_read, adding);
    }

    /// The client is registered under the next number, and a log that is made has its one destination, if its channel
    /// names one.
    #[tactic(auto, unfolding(crate::specs::Publishing::with_directed_publication, crate::specs::Publishing::with_publication, crate::specs::Directing::with_sole))]
    pub(crate) fn put_directed_publication(
        &mut self,
        client: Client,
        wanted: &Wanted,
        adding: Adding,
    )
        requires room { has_room_for_publication self.old client.number wanted.now adding ≡ true }
        requires taken { adding_of self.old.streams wanted.now ≡ Ok adding }
        ensures { self.new ≡ with_directed_publication self.old client wanted.now adding }
    {
        let number = self.next_number();
        self.put_publication(client.number, wanted, adding);
        match adding {
            Adding::Join { .. } => {}
            Adding::Make { .. } => self.put_sole(number, client.principal, &wanted.channel),
        }
    }

    /// A publication on a channel that such a command takes.
    #[tactic(auto, unfolding(crate::specs::Publishing::publish, crate::specs::Publishing::publish_under, crate::specs::Publishing::published, crate::specs::Publishing::publishing_of, crate::specs::Draft::replied_opening, crate::specs::Draft::refused, crate::specs::Draft::replied, crate::specs::Draft::told))]
    fn do_publish(&mut self, client: Client, wanted: &Wanted)
        ensures { (correlation : ℕ) → self.new ≡ (publish self.old client correlation wanted.now).after }
    {
        match self.publishing(client, wanted) {
            Ok(granted) => self.put_directed_publication(client, wanted, granted.adding),
            Err(_) => {}
        }
    }

    /// The command ADD_PUBLICATION of a client that is there, or ADD_EXCLUSIVE_PUBLICATION.
    #[tactic(auto, unfolding(crate::specs::Publishing::add_publication, crate::specs::Draft::refused, crate::specs::Draft::replied, crate::specs::Draft::told))]
    #[inline(never)]
    pub(crate) fn do_add_publication(
        &mut self,
        client: Client,
        fields: &AddPublication,
        channel: Result<&Channel, UriError>,
        exclusive: bool,
    )
        requires { channel_lent channel ≡ denotes fields.now.channel }
        ensures { (correlation : ℕ) → self.new ≡ (add_publication self.old client correlation fields.now exclusive).after }
    {
        match channel {
            Ok(channel) if is_publishable(channel) => {
                let wanted = Wanted {
                    channel: channel.copy(),
                    stream: fields.stream,
                    exclusive,
                };
                self.do_publish(client, &wanted);
            }
            _ => {}
        }
    }
}

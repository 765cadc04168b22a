ghost use Rattle.std.specs.Prelude.{◌≡◌, ◌+◌, true, IfOk, OnOk, OnErr};

use crate::parts::both;
use crate::state::entry::Entry;
use crate::state::event::{Event, Inputs};
use crate::state::outcome::Outcome;
use crate::state::peer::Peer;
use crate::state::settings::Settings;
use client_registry::Clients;
use compiled_policy::Compiled;
use counters::Counters;
use destinations::Destinations;
use log_readers::Readers;
use policy_core::Policy;
use std::alloc::{AllocError, Global};
use std::marker::Model;
use stream_registry::{Measures, Streams};

/// What the conductor knows: its settings, the policy in force, the clients, what they publish and subscribe to, where
/// their publications are directed, and their counters.
#[derive(Drop)]
pub struct Registry {
    pub(crate) settings: Settings,
    pub(crate) peers: Vec<Peer>,
    /// The policy in force and its number.
    pub(crate) compiled: Compiled,
    pub(crate) moment: u64,
    pub(crate) clients: Clients,
    pub(crate) streams: Streams,
    /// Which subscriptions read each log.
    pub(crate) readers: Readers,
    /// Where the datagrams of each log go.
    pub(crate) destinations: Destinations,
    pub(crate) counters: Counters,
    pub(crate) last_number: u64,
    pub(crate) stopped: bool,
    /// Whether it is known that each image has a pair, so that none is looked for that has none.
    pub(crate) all_read: bool,
}

impl Model for Registry {
    ghost use Rattle.driver_core.specs.Kept.{IsTended};
    ghost use Rattle.policy_core.specs.Moments.{at, coming};
    ghost use Rattle.driver_core.specs.State.{State};

    ghost Value = { State };

    ghost view = { λ registry. record {
      settings = registry.settings;
      peers = registry.peers.items;
      given = registry.compiled.given;
      policy = at registry.compiled.given registry.compiled.as_of;
      prospects = coming registry.compiled.given registry.compiled.as_of;
      epoch = registry.compiled.epoch;
      moment = registry.moment;
      clients = registry.clients;
      streams = registry.streams;
      destinations = registry.destinations;
      counters = registry.counters;
      last_number = registry.last_number;
      stopped = registry.stopped;
    } };

    ghost invariant = { λ registry.
        IsTended registry.streams registry.clients.rows (at registry.compiled.given registry.compiled.as_of) registry.compiled.epoch registry.last_number registry.readers registry.all_read };
}

impl Registry {
    ghost use Rattle.log_readers.specs.Numbering.{AreInOrder};
    ghost use Rattle.driver_core.specs.State.{opened, has_number, at_moment, ruled};
    ghost use Rattle.driver_core.specs.Conduct.{coming_to, drafted, conduct, state_after, outcome_of};
    ghost use Rattle.driver_core.specs.Renewal.{outcome_by};
    ghost use Rattle.policy_core.specs.Moments.{at, coming};
    ghost use Rattle.driver_core.specs.Soundness.{IsSound, MovesLogs};

    /// A registry with nobody in it, under a policy that has the number 1. The policy and the peers are taken over.
    #[tactic(auto, unfolding(crate::specs::State::opened))]
    pub fn new(
        alloc: Global,
        settings: Settings,
        policy: Policy,
        peers: &[Peer],
    ) -> Result<Registry, AllocError>
        ensures { IfOk result (λ registry. registry ≡ opened settings policy peers.now) }
    {
        let measures = Measures {
            mtu: settings.mtu,
            term_length: settings.term_length,
            linger: settings.linger,
        };
        let parts = both(
            Compiled::build(alloc, policy, 1)?,
            Vec::from_slice(alloc, peers),
        )?;
        let parts = both(parts, Clients::new(alloc, settings.client_liveness))?;
        let parts = both(parts, Streams::new(alloc, measures, settings.first_session))?;
        let parts = both(parts, Readers::new(alloc))?;
        let parts = both(parts, Destinations::new(alloc))?;
        let (parts, counters) = both(parts, Counters::new(alloc))?;
        let (((((compiled, peers), clients), streams), readers), destinations) = parts;
        Ok(Registry {
            settings,
            peers,
            compiled,
            moment: 0,
            clients,
            streams,
            readers,
            destinations,
            counters,
            last_number: 0,
            stopped: false,
            all_read: true,
        })
    }

    /// Another registry, equal to this one.
    pub fn copy(&self, alloc: Global) -> Result<Registry, AllocError>
        ensures { IfOk result (λ registry. registry ≡ self.now) }
    {
        let parts = both(
            self.compiled.copy(alloc)?,
            Vec::from_slice(alloc, self.peers.as_slice()),
        )?;
        let parts = both(parts, self.clients.copy(alloc))?;
        let parts = both(parts, self.streams.copy(alloc))?;
        let parts = both(parts, self.readers.copy(alloc))?;
        let parts = both(parts, self.destinations.copy(alloc))?;
        let (parts, counters) = both(parts, self.counters.copy(alloc))?;
        let (((((compiled, peers), clients), streams), readers), destinations) = parts;
        Ok(Registry {
            settings: self.settings,
            peers,
            compiled,
            moment: self.moment,
            clients,
            streams,
            readers,
            destinations,
            counters,
            last_number: self.last_number,
            stopped: self.stopped,
            all_read: self.all_read,
        })
    }

    /// What the driver is set to.
    pub fn settings(&self) -> Settings
        ensures { result ≡ self.now.settings }
    {
        self.settings
    }

    /// The greatest moment of its events so far, in nanoseconds.
    pub fn moment(&self) -> u64
        ensures { result ≡ self.now.moment }
    {
        self.moment
    }

    /// Whether the driver was ended: it has no client and no log from then on.
    pub fn is_stopped(&self) -> bool
        ensures { result ≡ self.now.stopped }
    {
        self.stopped
    }

    /// Whether a number is left that was not drawn yet.
    #[tactic(auto, unfolding(crate::specs::State::has_number))]
    pub(crate) fn has_number(&self) -> bool
        ensures { result ≡ has_number self.now }
    {
        self.last_number < u64::MAX
    }

    /// The number that is drawn next.
    #[tactic(auto, unfolding(crate::specs::State::has_number))]
    pub(crate) fn next_number(&self) -> u64
        requires { has_number self.now ≡ true }
        ensures number { result ≡ self.now.last_number + 1 }
        ensures in_order { AreInOrder self.now.streams self.now.clients.rows self.now.last_number }
    {
        self.last_number + 1
    }

    /// Time goes on to this moment, or stays at the one already seen where that is later.
    #[tactic(auto, unfolding(crate::specs::State::at_moment))]
    pub(crate) fn go_on(&mut self, now: u64)
        ensures { self.new ≡ at_moment self.old now }
    {
        self.moment = self.moment.max(now);
    }

    /// Whether the policy is at this moment what it is now, or at the moment already seen where that is later. It takes no
    /// memory.
    #[tactic(auto, unfolding(crate::specs::State::ruled))]
    pub(crate) fn is_ruled_so(&self, now: u64) -> bool
        ensures { result ≡ true → ruled self.now now ≡ self.now }
    {
        self.compiled.stands_so(self.moment.max(now))
    }

    /// The policy becomes what it is at this moment, or at the one already seen where that is later. Each subscription is
    /// asked about again where it becomes another one.
    #[tactic(auto, unfolding(crate::specs::State::ruled))]
    pub(crate) fn rule(&mut self, now: u64)
        ensures { self.new ≡ ruled self.old now }
    {
        if self.is_ruled_so(now) {
            return;
        }
        self.rule_anew(self.moment.max(now));
    }

    /// The policy becomes what it is at this moment, and each subscription is asked about again.
    #[inline(never)]
    fn rule_anew(&mut self, moment: u64)
        ensures { self.new ≡ record self.old { policy = at self.old.given moment; prospects = coming self.old.given moment } }
    {
        self.all_read = false;
        self.compiled.stand(moment);
        self.readers.ask_again(
            &self.streams,
            &self.clients,
            &self.compiled.policy(),
            self.compiled.epoch(),
        );
    }

    /// What the event's own rule makes of the registry. The rules of large events are calls of their own, so that a small event
    /// has no room cleared for them; so in [`Registry::told`].
    #[tactic(auto, unfolding(crate::specs::Conduct::drafted))]
    fn take(&mut self, event: &Event, inputs: &Inputs)
        ensures { self.new ≡ (drafted self.old event.now inputs.now).after }
    {
        match event {
            Event::Attach { now, principal } => {
                self.go_on(*now);
                self.do_attach(*principal);
            }
            Event::Command { now, client, bytes } => {
                self.go_on(*now);
                self.do_command(*client, bytes);
            }
            Event::Reload { now, policy } => {
                self.go_on(*now);
                self.do_reload(policy);
            }
            Event::Tick { now } => {
                self.go_on(*now);
                self.do_tick(inputs.silent.as_slice());
            }
            Event::Setup {
                now,
                local,
                from,
                setup,
            } => {
                self.go_on(*now);
                self.do_setup(local, from, setup);
            }
        }
    }

    /// The event's outcome where the policy is at its moment what it is now, but for the images that close because none
    /// reads them.
    #[tactic(auto, unfolding(crate::specs::Conduct::drafted))]
    fn told(&self, alloc: Global, event: &Event, inputs: &Inputs) -> Result<Outcome, AllocError>
        ensures { IfOk result (λ outcome. outcome ≡ outcome_by self.now inputs.now (drafted self.now event.now inputs.now)) }
    {
        match event {
            Event::Attach { now, principal } => {
                self.outcome_of_attach(alloc, *now, *principal, inputs)
            }
            Event::Command { now, client, bytes } => {
                self.outcome_of_command(alloc, *now, *client, bytes, inputs)
            }
            Event::Reload { now, policy } => self.outcome_of_reload(alloc, *now, policy, inputs),
            Event::Tick { now } => self.outcome_of_tick(alloc, *now, inputs),
            Event::Setup {
                now,
                local,
                from,
                setup,
            } => self.outcome_of_setup(alloc, *now, local, from, setup, inputs),
        }
    }

    /// The event's outcome, but for the images that close because none reads them.
    fn told_then(
        &self,
        alloc: Global,
        event: &Event,
        inputs: &Inputs,
    ) -> Result<Outcome, AllocError>
        ensures { IfOk result (λ outcome. outcome ≡ outcome_by self.now inputs.now (drafted (coming_to self.now event.now) event.now inputs.now)) }
    {
        if self.is_ruled_so(event.moment()) {
            return self.told(alloc, event, inputs);
        }
        self.told_at_bound(alloc, event, inputs)
    }

    /// The event's outcome.
    fn outcome(&self, alloc: Global, event: &Event, inputs: &Inputs) -> Result<Outcome, AllocError>
        ensures { IfOk result (λ outcome. outcome ≡ outcome_of self.now event.now inputs.now) }
    {
        let mut outcome = self.told_then(alloc, event, inputs)?;
        outcome.closes = self.closed(alloc, &outcome)?;
        Ok(outcome)
    }

    /// Does the event, with what the logs say at it.
    fn conduct(&mut self, event: &Event, inputs: &Inputs)
        ensures { self.new ≡ state_after self.old event.now inputs.now }
    {
        self.rule(event.moment());
        self.take(event, inputs);
        self.drop_unread();
    }

    /// Decides one event, with what the logs say at it; the registry stays as it is. Only this takes memory.
    pub fn plan(&self, alloc: Global, event: &Event, inputs: &Inputs) -> Result<Entry, AllocError>
        ensures exact { IfOk result (λ entry. entry ≡ record { event = event.now; inputs = inputs.now; outcome = outcome_of self.now event.now inputs.now }) }
        ensures moves { IfOk result (λ entry. IsSound self.now → MovesLogs self.now (conduct self.now event.now inputs.now)) }
    {
        let outcome = self.outcome(alloc, event, inputs)?;
        Ok(Entry {
            event: event.copy(alloc)?,
            inputs: inputs.copy(alloc)?,
            outcome,
        })
    }

    /// Does what was planned. It takes no memory, and holds of any registry and any entry: what the registry becomes is
    /// by the entry's event and inputs alone.
    pub fn apply(&mut self, entry: &Entry)
        ensures { self.new ≡ state_after self.old entry.now.event entry.now.inputs }
    {
        self.conduct(&entry.event, &entry.inputs);
    }

    /// Takes one event, with what the logs say at it: plans it, and does it.
    ///
    /// # Errors
    /// Where there is no memory for what the event reports, the registry stays as it was.
    pub fn step(
        &mut self,
        alloc: Global,
        event: &Event,
        inputs: &Inputs,
    ) -> Result<Outcome, AllocError>
        ensures answer { IfOk result (λ outcome. outcome ≡ outcome_of self.old event.now inputs.now) }
        ensures state { OnOk result (self.new ≡ state_after self.old event.now inputs.now) }
        ensures err { OnErr result (self.new ≡ self.old) }
    {
        let outcome = self.outcome(alloc, event, inputs)?;
        self.conduct(event, inputs);
        Ok(outcome)
    }
}

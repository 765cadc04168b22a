ghost use Rattle.driver_core.specs.Counting.{counter_decision, counting_of, has_room_for_counter, with_counter, add_counter, set_counter, remove_counter};
ghost use Rattle.driver_core.specs.Report.{report_of};
ghost use Rattle.std.specs.Prelude.{◌≡◌, true, ℕ, IfOk};

use crate::rules::deciding;
use crate::state::refusal::Refusal;
use crate::state::refused::Refused;
use crate::state::registry::Registry;
use crate::state::replies::{Message, Reply};
use crate::state::report::Report;
use channel_uri::Channel;
use client_registry::Client;
use command_codec::{AddCounter, Removal, SetCounter};
use policy_core::{Act, Decision};
use std::alloc::{AllocError, Global};

/// What the policy in force decides: a counter's stream is its type id.
fn counter_decision(registry: &Registry, client: Client, fields: &AddCounter) -> Decision
    ensures { result ≡ counter_decision registry.now client fields.now }
{
    let channel = Channel::counter();
    deciding::decide(registry, client, Act::Counter, &channel, fields.type_id)
}

impl Registry {
    /// Whether there is room for one more counter, and a number for it.
    #[tactic(auto, unfolding(crate::specs::State::has_number))]
    fn has_room_for_counter(&self) -> bool
        ensures { result ≡ has_room_for_counter self.now }
    {
        !self.counters.is_full() && self.has_number()
    }

    /// What is decided on ADD_COUNTER.
    #[tactic(auto, unfolding(crate::specs::Counting::counting_of))]
    fn counting(&self, client: Client, fields: &AddCounter) -> Result<Decision, Refused>
        ensures { result ≡ counting_of self.now client fields.now }
    {
        let decision = counter_decision(self, client, fields);
        if !decision.verdict.allow {
            return Err(Refused::denied(decision));
        }
        if !self.has_room_for_counter() {
            return Err(Refused::on(decision, Refusal::Full));
        }
        Ok(decision)
    }

    /// What the command ADD_COUNTER of a client that is there reports.
    #[tactic(auto, unfolding(crate::specs::Counting::add_counter, crate::specs::Counting::counted, crate::specs::Counting::counting_of, crate::specs::Draft::refused, crate::specs::Draft::replied, crate::specs::Draft::told, crate::specs::State::has_number))]
    pub(crate) fn tell_add_counter(
        &self,
        alloc: Global,
        client: Client,
        correlation: u64,
        fields: &AddCounter,
    ) -> Result<Report, AllocError>
        ensures { IfOk result (λ told. told ≡ report_of (add_counter self.now client correlation fields.now)) }
    {
        match self.counting(client, fields) {
            Ok(decision) => {
                let reply = Reply::CounterReady {
                    correlation,
                    registration: self.next_number(),
                };
                Report::replied_on(alloc, decision, client.number, reply)
            }
            Err(refused) => Report::refused(alloc, client.number, correlation, refused),
        }
    }

    /// The client's counter comes, under the next number.
    #[tactic(auto, unfolding(crate::specs::Counting::with_counter))]
    fn put_counter(&mut self, client: u64, fields: &AddCounter)
        requires { has_room_for_counter self.now ≡ true }
        ensures { self.new ≡ with_counter self.old client fields.now }
    {
        let number = self.last_number + 1;
        self.counters
            .add(number, client, fields.type_id, &fields.key, &fields.label);
        self.last_number = number;
    }

    /// The command ADD_COUNTER of a client that is there.
    #[tactic(auto, unfolding(crate::specs::Counting::add_counter, crate::specs::Counting::counted, crate::specs::Counting::counting_of, crate::specs::Draft::refused, crate::specs::Draft::replied, crate::specs::Draft::told))]
    pub(crate) fn do_add_counter(&mut self, client: Client, fields: &AddCounter)
        ensures { (correlation : ℕ) → self.new ≡ (add_counter self.old client correlation fields.now).after }
    {
        match self.counting(client, fields) {
            Ok(_) => self.put_counter(client.number, fields),
            Err(_) => {}
        }
    }

    /// What the command SET_COUNTER of a client that is there reports.
    #[tactic(auto, unfolding(crate::specs::Counting::set_counter, crate::specs::Counting::valued, crate::specs::Draft::refused, crate::specs::Draft::replied, crate::specs::Draft::told))]
    pub(crate) fn tell_set_counter(
        &self,
        alloc: Global,
        client: Client,
        correlation: u64,
        fields: SetCounter,
    ) -> Result<Report, AllocError>
        ensures { IfOk result (λ told. told ≡ report_of (set_counter self.now client correlation fields)) }
    {
        if !self.counters.has(client.number, fields.registration) {
            let refused = Refused::plainly(Refusal::UnknownCounter);
            return Report::refused(alloc, client.number, correlation, refused);
        }
        let reply = Reply::OperationSuccess { correlation };
        Report::replied(alloc, client.number, reply)
    }

    /// The command SET_COUNTER of a client that is there.
    #[tactic(auto, unfolding(crate::specs::Counting::set_counter, crate::specs::Counting::valued, crate::specs::Draft::refused, crate::specs::Draft::replied, crate::specs::Draft::told))]
    pub(crate) fn do_set_counter(&mut self, client: Client, fields: SetCounter)
        ensures { (correlation : ℕ) → self.new ≡ (set_counter self.old client correlation fields).after }
    {
        match self
            .counters
            .set(client.number, fields.registration, fields.value)
        {
            Ok(()) => {}
            Err(_) => {}
        }
    }

    /// What the command REMOVE_COUNTER of a client that is there reports.
    #[tactic(auto, unfolding(crate::specs::Counting::remove_counter, crate::specs::Counting::uncounted, crate::specs::Draft::refused, crate::specs::Draft::replied, crate::specs::Draft::told))]
    pub(crate) fn tell_remove_counter(
        &self,
        alloc: Global,
        client: Client,
        correlation: u64,
        fields: Removal,
    ) -> Result<Report, AllocError>
        ensures { IfOk result (λ told. told ≡ report_of (remove_counter self.now client correlation fields)) }
    {
        if !self.counters.has(client.number, fields.registration) {
            let refused = Refused::plainly(Refusal::UnknownCounter);
            return Report::refused(alloc, client.number, correlation, refused);
        }
        let done = Reply::OperationSuccess { correlation };
        let mut told = Report::replied(alloc, client.number, done)?;
        let gone = Reply::UnavailableCounter {
            registration: fields.registration,
        };
        told.later.push(Message {
            client: client.number,
            reply: gone,
        })?;
        Ok(told)
    }

    /// The command REMOVE_COUNTER of a client that is there.
    #[tactic(auto, unfolding(crate::specs::Counting::remove_counter, crate::specs::Counting::uncounted, crate::specs::Draft::refused, crate::specs::Draft::replied, crate::specs::Draft::told))]
    pub(crate) fn do_remove_counter(&mut self, client: Client, fields: Removal)
        ensures { (correlation : ℕ) → self.new ≡ (remove_counter self.old client correlation fields).after }
    {
        match self.counters.remove(client.number, fields.registration) {
            Ok(()) => {}
            Err(_) => {}
        }
    }
}

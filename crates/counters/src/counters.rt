ghost use Rattle.counters.specs.Counters.{has_room, made, counter_at, has, is_another, is_of_another, set_one, is_visible};
ghost use Rattle.counters.specs.declared.fault.CounterFault.TheVariants.{UnknownCounter};
ghost use Rattle.std.specs.Option.{option_copied};
ghost use Rattle.std.specs.Prelude.{◌≡◌, ◌↔◌, ◌++◌, ◌∷◌, [], IfOk, IfErr, IsOk, OnOk, OnErr, true, not};

use crate::counter::Counter;
use crate::fault::CounterFault;
use byte_strings::{Items, ShortBytes, ShortText};
use channel_uri::Channel;
use policy_core::{Act, Request, Standing};
use rows::{Change, Rows, Test};
use std::alloc::{AllocError, Global};
use std::marker::Model;

/// How many counters there are at most.
const COUNTERS: usize = 1024;

/// The counters of all clients, in the order of their registration numbers, in room that is there from the beginning.
#[derive(Debug, Drop)]
pub struct Counters {
    rows: Rows<Counter, 1024>,
}

impl Model for Counters {
    ghost use Rattle.counters.specs.declared.counter.Counter.{Counter};
    ghost use Rattle.std.specs.Prelude.{List};

    ghost Value = { List Counter };

    ghost view = { λ counters. counters.rows };
}

/// This client's counter of this number is given a value.
#[derive(Clone, Copy)]
struct Given {
    client: u64,
    number: u64,
    value: i64,
}

impl Change<Counter> for Given {
    ghost changed = { λ given counter. set_one given.client given.number given.value counter };

    fn change(&self, counter: &mut Counter) {
        if counter.client == self.client && counter.number == self.number {
            counter.value = self.value;
        }
    }
}

/// Whether a counter is another one than this client's of this number.
#[derive(Clone, Copy)]
struct Another {
    client: u64,
    number: u64,
}

impl Test<Counter> for Another {
    ghost keeps = { λ another counter. is_another another.client another.number counter };

    fn keeps(&self, counter: &Counter) -> bool {
        !(counter.client == self.client && counter.number == self.number)
    }
}

/// Whether a counter is of another client.
#[derive(Clone, Copy)]
struct OfAnother {
    client: u64,
}

impl Test<Counter> for OfAnother {
    ghost keeps = { λ another counter. is_of_another another.client counter };

    fn keeps(&self, counter: &Counter) -> bool {
        counter.client != self.client
    }
}

/// Whether the policy shows the counter to the principal, by its type id.
#[tactic(auto, unfolding(crate::specs::Counters::is_visible))]
fn is_visible(policy: &Standing<'_>, principal: u32, counter: &Counter) -> bool
    ensures { result ≡ is_visible policy.now principal counter.now }
{
    let channel = Channel::counter();
    let request = Request {
        principal,
        act: Act::List,
        channel: &channel,
        stream: counter.type_id,
    };
    policy.verdict(1, &request).allow
}

impl Counters {
    ghost use Rattle.counters.specs.Counters.{set, without, without_those_of, visible_of};

    /// There are no counters. The room for all that may come is taken here.
    pub fn new(alloc: Global) -> Result<Counters, AllocError>
        ensures { IfOk result (λ counters. counters ≡ []) }
    {
        Ok(Counters {
            rows: Rows::new(alloc)?,
        })
    }

    /// Other counters, equal to these.
    pub fn copy(&self, alloc: Global) -> Result<Counters, AllocError>
        ensures { IfOk result (λ counters. counters ≡ self.now) }
    {
        Ok(Counters {
            rows: self.rows.copy(alloc)?,
        })
    }

    /// The counters, in their order.
    pub fn rows(&self) -> &[Counter]
        ensures { result.now ≡ self.now }
    {
        self.rows.as_slice()
    }

    /// Whether there are as many counters as there may be.
    pub fn is_full(&self) -> bool
        ensures { result ≡ not (has_room self.now) }
    {
        self.rows.len() >= COUNTERS
    }

    /// A client's counter comes, under this registration number. Its value is 0.
    pub fn add(
        &mut self,
        number: u64,
        client: u64,
        type_id: i32,
        key: &ShortBytes<112>,
        label: &ShortText<380>,
    )
        requires room { has_room self.old ≡ true }
        ensures { self.new ≡ self.old ++ made number client type_id key.now label.now ∷ [] }
    {
        self.rows.push(Counter {
            number,
            client,
            type_id,
            key: key.copy(),
            label: label.copy(),
            value: 0,
        });
    }

    /// The counter of this number.
    pub fn get(&self, number: u64) -> Option<&Counter>
        ensures { option_copied result ≡ counter_at self.now number }
    {
        for counter in self.rows.as_slice() {
            if counter.number == number {
                return Some(counter);
            }
        }
        None
    }

    /// Whether the client has a counter of this number.
    pub fn has(&self, client: u64, number: u64) -> bool
        ensures { result ≡ has self.now client number }
    {
        for counter in self.rows.as_slice() {
            if counter.client == client && counter.number == number {
                return true;
            }
        }
        false
    }

    /// The client gives its counter of this number a value.
    ///
    /// # Errors
    /// [`CounterFault::UnknownCounter`] where the client has no such counter; nothing is changed then.
    #[tactic(auto, unfolding(crate::specs::Counters::set))]
    pub fn set(&mut self, client: u64, number: u64, value: i64) -> Result<(), CounterFault>
        ensures known { IsOk result ↔ (has self.old client number ≡ true) }
        ensures unknown { IfErr result (λ fault. fault ≡ UnknownCounter) }
        ensures set { OnOk result (self.new ≡ set self.old client number value) }
        ensures err { OnErr result (self.new ≡ self.old) }
    {
        if !self.has(client, number) {
            return Err(CounterFault::UnknownCounter);
        }
        self.rows.change(&Given {
            client,
            number,
            value,
        });
        Ok(())
    }

    /// The client's counter of this number goes.
    ///
    /// # Errors
    /// [`CounterFault::UnknownCounter`] where the client has no such counter; nothing is changed then.
    #[tactic(auto, unfolding(crate::specs::Counters::without))]
    pub fn remove(&mut self, client: u64, number: u64) -> Result<(), CounterFault>
        ensures known { IsOk result ↔ (has self.old client number ≡ true) }
        ensures unknown { IfErr result (λ fault. fault ≡ UnknownCounter) }
        ensures gone { OnOk result (self.new ≡ without self.old client number) }
        ensures err { OnErr result (self.new ≡ self.old) }
    {
        if !self.has(client, number) {
            return Err(CounterFault::UnknownCounter);
        }
        self.rows.retain(&Another { client, number });
        Ok(())
    }

    /// All counters of the client go, as the client does.
    #[tactic(auto, unfolding(crate::specs::Counters::without_those_of))]
    pub fn remove_those_of(&mut self, client: u64)
        ensures { self.new ≡ without_those_of self.old client }
    {
        self.rows.retain(&OfAnother { client });
    }

    /// All counters go.
    pub fn clear(&mut self)
        ensures { self.new ≡ [] }
    {
        self.rows.clear();
    }

    /// Copies of the counters that the policy shows to the principal, in their order.
    #[tactic(auto, unfolding(crate::specs::Counters::visible_of))]
    pub fn visible(
        &self,
        alloc: Global,
        policy: &Standing<'_>,
        principal: u32,
    ) -> Result<Items<Counter>, AllocError>
        ensures { IfOk result (λ shown. shown ≡ visible_of self.now policy.now principal) }
    {
        let mut shown = Items::new(alloc);
        for counter in self.rows.as_slice() {
            if is_visible(policy, principal, counter) {
                shown.push(counter.copy())?;
            }
        }
        Ok(shown)
    }
}

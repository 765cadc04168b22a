ghost use Rattle.stream_registry.specs.Leaving.{IsOwnAt, has_registration, has_subscription, is_another_registration, is_another_subscription, is_own_registration, is_own_subscription, is_own_with, is_registration_of_another, is_subscription_of_another, left, unregistered, unsubscribed};
ghost use Rattle.stream_registry.specs.declared.fault.StreamFault.TheVariants.{UnknownPublication, UnknownSubscription};
ghost use Rattle.std.specs.List.{Contains, list_any};
ghost use Rattle.std.specs.Option.{option_copied};
ghost use Rattle.std.specs.Prelude.{◌≡◌, ◌↔◌, ℕ, IfErr, IfSome, IsOk, OnOk, OnErr, Some, is_some, true};

use crate::fault::StreamFault;
use crate::row::{Registration, Subscription};
use crate::streams::Streams;
use rows::Test;

/// Keeps all rows but the client's own of this number.
#[derive(Clone, Copy)]
struct Another {
    client: u64,
    number: u64,
}

impl Test<Registration> for Another {
    ghost keeps = { λ test registration. is_another_registration test.client test.number registration };

    fn keeps(&self, registration: &Registration) -> bool {
        !(registration.client == self.client && registration.number == self.number)
    }
}

impl Test<Subscription> for Another {
    ghost keeps = { λ test subscription. is_another_subscription test.client test.number subscription };

    fn keeps(&self, subscription: &Subscription) -> bool {
        !(subscription.client == self.client && subscription.number == self.number)
    }
}

/// Keeps the rows of all clients but this one.
#[derive(Clone, Copy)]
struct OfAnother {
    client: u64,
}

impl Test<Registration> for OfAnother {
    ghost keeps = { λ test registration. is_registration_of_another test.client registration };

    fn keeps(&self, registration: &Registration) -> bool {
        registration.client != self.client
    }
}

impl Test<Subscription> for OfAnother {
    ghost keeps = { λ test subscription. is_subscription_of_another test.client subscription };

    fn keeps(&self, subscription: &Subscription) -> bool {
        subscription.client != self.client
    }
}

/// The log with which the client is registered under this number, where a search finds that registration. Numbers ascend,
/// so it does; what is found is looked at, and nothing else rests on their order.
fn found_registration(rows: &[Registration], client: u64, number: u64) -> Option<u64>
    ensures { (source : ℕ) → result ≡ Some source → list_any (is_own_with client number source) rows.now ≡ true }
{
    match rows.binary_search_by_key(&number, |row| row.number) {
        Ok(at) => {
            let row = &rows[at];
            if row.client == client && row.number == number {
                Some(row.source)
            } else {
                None
            }
        }
        Err(_) => None,
    }
}

/// Whether a search finds the client's registration of this number.
fn finds_registration(rows: &[Registration], client: u64, number: u64) -> bool
    ensures { result ≡ true → list_any (is_own_registration client number) rows.now ≡ true }
{
    match found_registration(rows, client, number) {
        Some(_) => true,
        None => false,
    }
}

/// Where the client's subscription of this number is found by a search, as above.
fn searched_subscription(rows: &[Subscription], client: u64, number: u64) -> Option<usize>
    ensures { IfSome result (λ at. IsOwnAt client number rows.now at) }
{
    match rows.binary_search_by_key(&number, |row| row.number) {
        Ok(at) => {
            if rows[at].client == client && rows[at].number == number {
                Some(at)
            } else {
                None
            }
        }
        Err(_) => None,
    }
}

/// Where the client has the first subscription of this number.
fn first_subscription(rows: &[Subscription], client: u64, number: u64) -> Option<usize>
    ensures found { IfSome result (λ at. IsOwnAt client number rows.now at) }
    ensures known { is_some result ≡ list_any (is_own_subscription client number) rows.now }
{
    for at in 0..rows.len() {
        if rows[at].client == client && rows[at].number == number {
            return Some(at);
        }
    }
    None
}

/// Where the client has a subscription of this number.
fn place_of_subscription(rows: &[Subscription], client: u64, number: u64) -> Option<usize>
    ensures found { IfSome result (λ at. IsOwnAt client number rows.now at) }
    ensures known { is_some result ≡ list_any (is_own_subscription client number) rows.now }
{
    match searched_subscription(rows, client, number) {
        Some(at) => Some(at),
        None => first_subscription(rows, client, number),
    }
}

impl Streams {
    /// Whether the client has a registration of this number.
    pub fn has_registration(&self, client: u64, number: u64) -> bool
        ensures { result ≡ has_registration self.now client number }
    {
        let rows = self.registrations.as_slice();
        finds_registration(rows, client, number)
            || rows
                .iter()
                .any(|row| row.client == client && row.number == number)
    }

    /// Whether the client has a subscription of this number.
    pub fn has_subscription(&self, client: u64, number: u64) -> bool
        ensures { result ≡ has_subscription self.now client number }
    {
        place_of_subscription(self.subscriptions.as_slice(), client, number).is_some()
    }

    /// The client's subscription of this number, where it has one.
    pub fn own_subscription(&self, client: u64, number: u64) -> Option<&Subscription>
        ensures known { is_some (option_copied result) ≡ has_subscription self.now client number }
        ensures there { IfSome (option_copied result) (λ row. Contains self.now.subscriptions row) }
        ensures own { IfSome (option_copied result) (λ row. is_own_subscription client number row ≡ true) }
    {
        let rows = self.subscriptions.as_slice();
        match place_of_subscription(rows, client, number) {
            Some(at) => Some(&rows[at]),
            None => None,
        }
    }

    /// The client's registrations of this number go, and all is settled. Where all logs rested and one registration went, that is
    /// a matter of its own log.
    #[tactic(auto, unfolding(crate::specs::Leaving::unregistered))]
    fn take_registration(&mut self, client: u64, number: u64, now: u64)
        ensures { self.new ≡ unregistered self.old client number now }
    {
        let source = found_registration(self.registrations.as_slice(), client, number);
        let rested = self.at_rest;
        let before = self.registrations.len();
        self.at_rest = false;
        self.registrations.retain(&Another { client, number });
        match source {
            Some(source) if rested && self.registrations.len() + 1 == before => {
                self.settle_beside(source, now)
            }
            _ => self.settle(now),
        }
    }

    /// The client's registration of this number goes. Its publication lingers from `now` on where it was the last one.
    ///
    /// # Errors
    /// [`StreamFault::UnknownPublication`] where the client has no such registration; nothing is changed then.
    pub fn remove_publication(
        &mut self,
        client: u64,
        number: u64,
        now: u64,
    ) -> Result<(), StreamFault>
        ensures known { IsOk result ↔ (has_registration self.old client number ≡ true) }
        ensures unknown { IfErr result (λ fault. fault ≡ UnknownPublication) }
        ensures gone { OnOk result (self.new ≡ unregistered self.old client number now) }
        ensures err { OnErr result (self.new ≡ self.old) }
    {
        if !self.has_registration(client, number) {
            return Err(StreamFault::UnknownPublication);
        }
        self.take_registration(client, number, now);
        Ok(())
    }

    /// The client's subscription of this number goes.
    ///
    /// # Errors
    /// [`StreamFault::UnknownSubscription`] where the client has no such subscription; nothing is changed then.
    #[tactic(auto, unfolding(crate::specs::Leaving::unsubscribed))]
    pub fn remove_subscription(&mut self, client: u64, number: u64) -> Result<(), StreamFault>
        ensures known { IsOk result ↔ (has_subscription self.old client number ≡ true) }
        ensures unknown { IfErr result (λ fault. fault ≡ UnknownSubscription) }
        ensures gone { OnOk result (self.new ≡ unsubscribed self.old client number) }
        ensures err { OnErr result (self.new ≡ self.old) }
    {
        if !self.has_subscription(client, number) {
            return Err(StreamFault::UnknownSubscription);
        }
        self.subscriptions.retain(&Another { client, number });
        Ok(())
    }

    /// A client goes, with all that it registered and subscribed to. The publications linger from `now` on with which
    /// nobody else is registered. It takes no memory.
    #[tactic(auto, unfolding(crate::specs::Leaving::left))]
    pub fn client_left(&mut self, client: u64, now: u64)
        ensures { self.new ≡ left self.old client now }
    {
        self.at_rest = false;
        self.registrations.retain(&OfAnother { client });
        self.subscriptions.retain(&OfAnother { client });
        self.settle(now);
    }
}

ghost use Rattle.driver_core.specs.LogRequests.{registration_at};
ghost use Rattle.driver_core.specs.Renewal.{source_at, subscription_at};
ghost use Rattle.log_readers.specs.Numbering.{Rises, registered_as};
ghost use Rattle.std.specs.Option.{option_copied};
ghost use Rattle.std.specs.Prelude.{◌≡◌, ◌==◌, find};

use crate::state::registry::Registry;
use stream_registry::{LogRow, Registration, Subscription};

impl Registry {
    /// The live log of this number. Numbers rise, so a search finds it.
    pub fn source(&self, number: u64) -> Option<&LogRow>
        ensures { option_copied result ≡ source_at self.now.streams.sources number }
    {
        let logs = self.streams.sources();
        match logs.binary_search_by_key(&number, |log| log.number) {
            Ok(at) => Some(&logs[at]),
            Err(_) => None,
        }
    }

    /// The subscription of this number. Numbers rise, so a search finds it.
    pub fn subscription(&self, number: u64) -> Option<&Subscription>
        ensures { option_copied result ≡ subscription_at self.now.streams.subscriptions number }
    {
        let subscriptions = self.streams.subscriptions();
        match subscriptions.binary_search_by_key(&number, |subscription| subscription.number) {
            Ok(at) => Some(&subscriptions[at]),
            Err(_) => None,
        }
    }

    /// The registration of this number. Numbers rise, so a search finds it.
    fn registration(&self, number: u64) -> Option<&Registration>
        ensures found { option_copied result ≡ find (λ registration. registration.number == number) self.now.streams.registrations }
        ensures order { Rises registered_as 0 self.now.last_number self.now.streams.registrations }
    {
        let registrations = self.streams.registrations();
        match registrations.binary_search_by_key(&number, |registration| registration.number) {
            Ok(at) => Some(&registrations[at]),
            Err(_) => None,
        }
    }

    /// The registration of this number that is the client's own.
    pub fn own_registration(&self, client: u64, number: u64) -> Option<&Registration>
        ensures { option_copied result ≡ registration_at self.now.streams.registrations client number }
    {
        match self.registration(number) {
            Some(registration) => {
                if registration.client == client {
                    Some(registration)
                } else {
                    None
                }
            }
            None => None,
        }
    }
}

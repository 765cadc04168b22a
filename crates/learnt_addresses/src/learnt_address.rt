ghost use Rattle.learnt_addresses.specs.LearntAddresses.{heard_again, stands};
ghost use Rattle.std.specs.Prelude.{◌≡◌};

use channel_uri::Address;

/// An address that was learnt.
#[derive(Clone, Copy, Debug, Default, PartialEq, Eq)]
pub struct LearntAddress {
    pub address: Address,
    /// The greatest moment at which a status message came from it, in nanoseconds.
    pub heard: u64,
}

impl LearntAddress {
    /// Whether a status message came from it not longer ago than `timeout` nanoseconds.
    pub fn stands(&self, now: u64, timeout: u64) -> bool
        ensures { result ≡ stands now timeout self.now }
    {
        now.saturating_sub(self.heard) <= timeout
    }

    /// The same after a status message from that address, at the moment `now`.
    pub(crate) fn heard_again(&self, now: u64, address: &Address) -> LearntAddress
        ensures { result ≡ heard_again now address.now self.now }
    {
        if self.address == *address {
            LearntAddress {
                address: self.address,
                heard: self.heard.max(now),
            }
        } else {
            *self
        }
    }
}

ghost use Rattle.stream_registry.specs.Origins.{address_of, begins_at, is_exclusive, is_of_kind, is_published, left_by, lingering_since};
ghost use Rattle.std.specs.Prelude.{◌≡◌};

use crate::row::{LogRow, Origin};
use channel_uri::Address;

impl Origin {
    /// A publication lingers from `now` on, unless it did before; an image stays as it is.
    pub(crate) fn left_at(self, now: u64) -> Origin
        ensures { result ≡ left_by now self }
    {
        match self {
            Origin::Published {
                exclusive,
                lingering_since,
            } => Origin::Published {
                exclusive,
                lingering_since: Some(lingering_since.unwrap_or(now)),
            },
            Origin::Remote {
                address,
                initial_term,
                join,
            } => Origin::Remote {
                address,
                initial_term,
                join,
            },
        }
    }
}

impl LogRow {
    /// Whether clients of this driver publish there; else it is an image.
    pub fn is_published(&self) -> bool
        ensures { result ≡ is_published self.now }
    {
        match self.origin {
            Origin::Published { .. } => true,
            Origin::Remote { .. } => false,
        }
    }

    /// Whether it is a publication, or else whether it is an image.
    pub(crate) fn is_of_kind(&self, published: bool) -> bool
        ensures { result ≡ is_of_kind published self.now }
    {
        if published {
            self.is_published()
        } else {
            !self.is_published()
        }
    }

    /// Whether it is a publication that nobody else may join.
    pub fn is_exclusive(&self) -> bool
        ensures { result ≡ is_exclusive self.now }
    {
        match self.origin {
            Origin::Published { exclusive, .. } => exclusive,
            Origin::Remote { .. } => false,
        }
    }

    /// The moment since when it lingers. No image lingers.
    pub fn lingering_since(&self) -> Option<u64>
        ensures { result ≡ lingering_since self.now }
    {
        match self.origin {
            Origin::Published {
                lingering_since,
                ..
            } => lingering_since,
            Origin::Remote { .. } => None,
        }
    }

    /// The position at which the log begins: 0 of a publication, of an image the one that its publisher's SETUP states.
    pub fn begins_at(&self) -> u64
        ensures { result ≡ begins_at self.now }
    {
        match self.origin {
            Origin::Published { .. } => 0,
            Origin::Remote { join, .. } => join,
        }
    }

    /// From where the publisher sends, where that is a remote one.
    pub fn address(&self) -> Option<Address>
        ensures { result ≡ address_of self.now }
    {
        match self.origin {
            Origin::Published { .. } => None,
            Origin::Remote { address, .. } => Some(address),
        }
    }
}

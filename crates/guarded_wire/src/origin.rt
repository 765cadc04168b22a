//! From where datagrams may come.

ghost use Rattle.guarded_wire.specs.Origins.{is_address, is_host, place_of};
ghost use Rattle.std.specs.List.{position};
ghost use Rattle.std.specs.Prelude.{◌≡◌, ◌<◌, IfSome, length};
ghost use Rattle.std.specs.Str.{bytes_eq};

use channel_uri::Address;

/// An address, or a host whatever the port is.
#[derive(Clone, Copy, Debug, PartialEq, Eq)]
pub enum Origin {
    Address(Address),
    /// The four numbers of a host's address.
    Host([u8; 4]),
}

/// Whether these four numbers are those.
fn are_same(one: &[u8; 4], other: &[u8; 4]) -> bool
    ensures { result ≡ bytes_eq one.now other.now }
{
    let [a, b, c, d] = *one;
    let [e, f, g, h] = *other;
    a == e && b == f && c == g && d == h
}

impl Origin {
    /// Whether it is that very address.
    fn is_address(&self, from: &Address) -> bool
        ensures { result ≡ is_address from.now self.now }
    {
        match self {
            Origin::Address(own) => own.is(from),
            Origin::Host(_) => false,
        }
    }

    /// Whether it is the host of that address.
    fn is_host(&self, from: &Address) -> bool
        ensures { result ≡ is_host from.now self.now }
    {
        match self {
            Origin::Address(_) => false,
            Origin::Host(octets) => are_same(octets, &from.octets),
        }
    }
}

fn place_of_address(from: &Address, origins: &[Origin]) -> Option<usize>
    ensures within { IfSome result (λ place. place < length origins.now) }
    ensures place { result ≡ position (is_address from.now) origins.now }
{
    origins.iter().position(|origin| origin.is_address(from))
}

fn place_of_host(from: &Address, origins: &[Origin]) -> Option<usize>
    ensures within { IfSome result (λ place. place < length origins.now) }
    ensures place { result ≡ position (is_host from.now) origins.now }
{
    origins.iter().position(|origin| origin.is_host(from))
}

/// Where an address stands: the address itself counts before its host.
pub(crate) fn place_of(from: &Address, origins: &[Origin]) -> Option<usize>
    ensures within { IfSome result (λ place. place < length origins.now) }
    ensures place { result ≡ place_of from.now origins.now }
{
    match place_of_address(from, origins) {
        Some(place) => Some(place),
        None => place_of_host(from, origins),
    }
}

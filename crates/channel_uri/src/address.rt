ghost use Rattle.channel_uri.specs.Address.{address_of, address_text, first_octet_of, is_same, octets_of, plain_below, port_of};
ghost use Rattle.std.specs.Fmt.{decimal};
ghost use Rattle.std.specs.Prelude.{◌≡◌, ◌+◌, ◌≤◌, ◌++◌, Some, length};

use crate::number::number_below;
use crate::syntax::cut;
use arrayvec::ArrayString;
use byte_strings::ShortText;
use itoa::Buffer;
use std::fmt;

/// An address of the Internet Protocol, version 4, and a port of the User Datagram Protocol.
#[derive(Clone, Copy, Debug, Default, PartialEq, Eq)]
pub struct Address {
    pub octets: [u8; 4],
    pub port: u16,
}

/// How long the longest text of an address is: `255.255.255.255:65535`.
const LONGEST: usize = 21;

/// Appends one of the four numbers, and the mark after it.
fn push_octet(text: &mut ArrayString<LONGEST>, octet: u8, mark: &str)
    requires mark { length mark.now ≡ 1 }
    requires room { length text.old.bytes + 4 ≤ 21 }
    ensures text { text.new.bytes ≡ text.old.bytes ++ decimal octet ++ mark.now }
    ensures few { length text.new.bytes ≤ length text.old.bytes + 4 }
{
    let mut buffer = Buffer::new();
    text.push_str(buffer.format(octet));
    text.push_str(mark);
}

impl Address {
    /// Whether both are one address.
    pub fn is(&self, other: &Address) -> bool
        ensures { result ≡ is_same self.now other.now }
    {
        let [a, b, c, d] = self.octets;
        let [e, f, g, h] = other.octets;
        a == e && b == f && c == g && d == h && self.port == other.port
    }

    /// The address as it is written: four numbers with dots between them, `:` and the port, none with leading zeros.
    pub fn text(&self) -> ShortText<21>
        ensures { result ≡ address_text self.now }
    {
        let [a, b, c, d] = self.octets;
        let mut text = ArrayString::new();
        push_octet(&mut text, a, ".");
        push_octet(&mut text, b, ".");
        push_octet(&mut text, c, ".");
        push_octet(&mut text, d, ":");
        let mut buffer = Buffer::new();
        text.push_str(buffer.format(self.port));
        ShortText::new(text.as_str())
    }
}

impl fmt::Display for Address {
    ghost output = { λ address. Some (address_text address) };

    fn fmt<W: fmt::Write>(&self, f: &mut fmt::Formatter<W>) -> fmt::Result {
        f.write_str(self.text().as_str())
    }
}

/// A decimal below the limit that begins with no zero but `0` itself.
fn plain_below(limit: u64, text: &str) -> Option<u64>
    ensures { result ≡ plain_below limit text.now }
{
    if text.len() > 1 {
        if text.starts_with("0") {
            return None;
        }
    }
    number_below(limit, text)
}

/// One of the four numbers.
fn octet_of(text: &str) -> Option<u8>
    ensures { result ≡ plain_below 256 text.now }
{
    let octet = plain_below(256, text)?;
    Some(octet as u8)
}

/// The first of the four numbers: from 224 to 239 it stands for a group of hosts.
fn first_octet_of(text: &str) -> Option<u8>
    ensures { result ≡ first_octet_of text.now }
{
    let octet = octet_of(text)?;
    if octet >= 224 {
        if octet <= 239 {
            return None;
        }
    }
    Some(octet)
}

/// Four numbers with dots between them.
fn octets_of(host: &str) -> Option<[u8; 4]>
    ensures { result ≡ octets_of host.now }
{
    let (first, host) = cut(host, '.')?;
    let (second, host) = cut(host, '.')?;
    let (third, fourth) = cut(host, '.')?;
    let first = first_octet_of(first)?;
    let second = octet_of(second)?;
    let third = octet_of(third)?;
    let fourth = octet_of(fourth)?;
    Some([first, second, third, fourth])
}

/// A port that can be sent to.
fn port_of(text: &str) -> Option<u16>
    ensures { result ≡ port_of text.now }
{
    let port = plain_below(65536, text)?;
    if port == 0 {
        return None;
    }
    Some(port as u16)
}

/// The address that the text is: four numbers from 0 to 255 with dots between them, the first not from 224 to 239, then
/// `:` and a port from 1 to 65535. None of them has leading zeros.
#[tactic(auto, unfolding(crate::specs::Address::address_of))]
pub fn address_of(text: &str) -> Option<Address>
    ensures { result ≡ address_of text.now }
{
    let (host, port) = cut(text, ':')?;
    let octets = octets_of(host)?;
    let port = port_of(port)?;
    Some(Address { octets, port })
}

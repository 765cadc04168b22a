ghost use Rattle.channel_uri.specs.Address.{address_text};
ghost use Rattle.channel_uri.specs.Fault.{Equals};
ghost use Rattle.channel_uri.specs.Channel.{media_of};
ghost use Rattle.channel_uri.specs.Canonical.{mark_of, pairs_text};
ghost use Rattle.channel_uri.specs.Keys.{value_at};
ghost use Rattle.std.specs.Option.{option_map};
ghost use Rattle.std.specs.Prelude.{◌≡◌, ◌++◌, IfOk, OnOk, true, option_copied};
ghost use Rattle.std.specs.String.{string_bytes};

use crate::address::Address;
use crate::error::UriError;
use crate::keys::Keys;
use crate::media::Media;
use crate::place::Place;
use crate::{syntax, values};
use byte_strings::Text;
use std::alloc::{AllocError, Global};
use std::marker::Model;

/// What a publication or a subscription names: a medium with its keys, and whether a spy is asked for.
#[derive(Debug, Drop)]
pub struct Channel {
    spy: bool,
    media: Media,
    keys: Keys,
    /// The address, where it is known that the channel is the one of an address.
    address: Option<Address>,
}

impl Model for Channel {
    ghost use Rattle.channel_uri.specs.Channel.{IsKnownAs, Shape};

    ghost Value = { Shape };

    ghost view = { λ channel. record { spy = channel.spy; media = channel.media; keys = channel.keys } };

    ghost invariant = { λ channel. IsKnownAs (record { spy = channel.spy; media = channel.media; keys = channel.keys }) channel.address };
}

/// The medium of a channel's text; there is no spy of `ipc`.
fn media_of(spy: bool, word: &str) -> Result<Media, UriError>
    ensures { Equals (λ media. media) result (media_of spy word.now) }
{
    if word == "udp" {
        return Ok(Media::Udp);
    }
    if spy {
        return Err(UriError::BadMedia);
    }
    if word == "ipc" {
        return Ok(Media::Ipc);
    }
    Err(UriError::BadMedia)
}

impl Channel {
    ghost use Rattle.channel_uri.specs.Canonical.{canonical_of};
    ghost use Rattle.channel_uri.specs.Channel.{denotes, counter_shape, endpoint_shape, ipc_shape};
    ghost use Rattle.channel_uri.specs.Place.{is_at_text, spot_of, spot_at};

    /// Reads a channel's text: `aeron:udp` or `aeron:ipc`, for a spy of `udp` after `aeron-spy:`, and then perhaps a
    /// `?` and pairs `key=value` with `|` between them. A repeated key keeps its last value; in `endpoint` and `control` a
    /// leading `localhost:` is read as `127.0.0.1:`. Each value that is kept follows the rule of its key. It takes no memory.
    ///
    /// # Errors
    /// [`UriError::TooLong`] is looked at first, then the syntax from the left, and then the values that are kept, in the
    /// byte order of their keys: the first fault is given.
    pub fn parse(text: &str) -> Result<Channel, UriError>
        ensures { Equals (λ channel. channel) result (denotes text.now) }
    {
        let mut channel = Channel::ipc();
        channel.read(text)?;
        Ok(channel)
    }

    /// Becomes the channel of a text, which is read as [`Channel::parse`] reads it. It takes no memory.
    ///
    /// # Errors
    /// Those of [`Channel::parse`]; which channel it is then, is not said.
    #[tactic(auto, unfolding(crate::specs::Channel::denotes))]
    pub fn read(&mut self, text: &str) -> Result<(), UriError>
        ensures { Equals (λ _. self.new) result (denotes text.now) }
    {
        if text.len() > 1024 {
            return Err(UriError::TooLong);
        }
        let (spy, unspied) = syntax::unspied(text);
        let rest = syntax::behind_scheme(unspied)?;
        let (word, pairs) = syntax::halves(rest);
        self.media = media_of(spy, word)?;
        self.spy = spy;
        self.address = None;
        self.keys.read(pairs)?;
        match values::first_fault(&self.keys) {
            Some(fault) => Err(fault),
            None => Ok(()),
        }
    }

    /// The subject of a rule on counters. No text of a channel denotes it.
    pub fn counter() -> Channel
        ensures { result ≡ counter_shape }
    {
        Channel {
            spy: false,
            media: Media::Counter,
            keys: Keys::new(),
            address: None,
        }
    }

    /// Shared memory, without any key: the channel of the text `aeron:ipc`.
    pub fn ipc() -> Channel
        ensures { result ≡ ipc_shape }
    {
        Channel {
            spy: false,
            media: Media::Ipc,
            keys: Keys::new(),
            address: None,
        }
    }

    /// Datagrams to this address: the channel of the text `aeron:udp?endpoint=` and the address. It takes no memory.
    pub fn at_endpoint(address: &Address) -> Channel
        ensures { result ≡ endpoint_shape address.now }
    {
        Channel {
            spy: false,
            media: Media::Udp,
            keys: Keys::one("endpoint", address.text().as_str()),
            address: Some(*address),
        }
    }

    /// Whether the text had the prefix `aeron-spy:`.
    pub fn is_spy(&self) -> bool
        ensures { result ≡ self.now.spy }
    {
        self.spy
    }

    pub fn media(&self) -> Media
        ensures { result ≡ self.now.media }
    {
        self.media
    }

    /// The value of `key`, as it is kept.
    pub fn get(&self, key: &str) -> Option<&str>
        ensures { option_copied result ≡ value_at key.now self.now.keys }
    {
        self.keys.get(key)
    }

    pub(crate) fn keys(&self) -> &Keys
        ensures { result.now ≡ self.now.keys }
    {
        &self.keys
    }

    /// Where the log of the channel is; `None` for a channel that names no such place.
    #[tactic(auto, unfolding(crate::specs::Place::spot_of))]
    pub fn place(&self) -> Option<Place<'_>>
        ensures { option_map spot_at result ≡ spot_of self.now }
    {
        match self.media {
            Media::Ipc => Some(Place::Ipc),
            Media::Udp if self.is_manual() => Some(Place::Manual),
            Media::Udp if self.is_dynamic() => self.keys.get("control").map(Place::Control),
            Media::Udp => self.keys.get("endpoint").map(Place::Endpoint),
            Media::Counter => None,
        }
    }

    /// Whether it is known that the channel is the one of that address.
    #[tactic(auto, using(crate::proofs::EndpointPlace::same_shapes))]
    fn is_known_as(&self, address: &Address) -> bool
        ensures { result ≡ true → self.now ≡ endpoint_shape address.now }
    {
        match self.address {
            Some(known) => known.is(address),
            None => false,
        }
    }

    /// Whether the channel's place is the endpoint of that text.
    fn is_at_text(&self, text: &str) -> bool
        ensures { result ≡ is_at_text text.now (spot_of self.now) }
    {
        match self.place() {
            Some(Place::Endpoint(endpoint)) => endpoint == text,
            _ => false,
        }
    }

    /// Whether the channel's place is the endpoint of that address, as [`Address::text`] writes it.
    #[tactic(auto, using(crate::proofs::EndpointPlace::known_place))]
    pub fn is_at(&self, address: &Address) -> bool
        ensures { result ≡ is_at_text (address_text address.now) (spot_of self.now) }
    {
        if self.is_known_as(address) {
            return true;
        }
        self.is_at_text(address.text().as_str())
    }

    /// The one text of the channel: its keys in byte order.
    #[tactic(auto, unfolding(crate::specs::Canonical::canonical_of))]
    pub fn canonical(&self, alloc: Global) -> Result<Text, AllocError>
        ensures { IfOk result (λ text. text ≡ canonical_of self.now) }
    {
        let mut text = String::new(alloc);
        text.push_str(if self.spy {
            "aeron-spy:aeron:"
        } else {
            "aeron:"
        })?;
        text.push_str(self.media.name())?;
        push_pairs(&mut text, &self.keys)?;
        Ok(Text::from(text))
    }

    /// Becomes equal to another channel. It takes no memory.
    pub fn set_from(&mut self, other: &Channel)
        ensures { self.new ≡ other.now }
    {
        (self.spy, self.media) = (other.spy, other.media);
        self.keys.set_from(&other.keys);
        self.address = other.address;
    }

    /// Another channel, equal to this one. It takes no memory.
    pub fn copy(&self) -> Channel
        ensures { result ≡ self.now }
    {
        Channel {
            spy: self.spy,
            media: self.media,
            keys: self.keys.copy(),
            address: self.address,
        }
    }
}

/// The mark before a pair.
fn mark_of(first: bool) -> &'static str
    ensures { result.now ≡ mark_of first }
{
    if first { "?" } else { "|" }
}

/// Appends each pair after its mark.
fn push_pairs(text: &mut String, keys: &Keys) -> Result<(), AllocError>
    ensures { OnOk result (string_bytes text.new ≡ string_bytes text.old ++ pairs_text true keys.now) }
{
    let mut first = true;
    for at in 0..keys.len() {
        let (key, value) = keys.at(at);
        text.push_str(mark_of(first))?;
        text.push_str(key)?;
        text.push_str("=")?;
        text.push_str(value)?;
        first = false;
    }
    Ok(())
}

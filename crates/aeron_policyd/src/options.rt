//! The words of `publish` and `subscribe`, as what they stand for.

ghost use Rattle.driver_core.specs.Soundness.{AreSettings};
ghost use Rattle.std.specs.Prelude.{IfOk};

use crate::fault::Fault;
use crate::idle_keys::note_idle_keys;
use crate::saying::give_up;
use byte_strings::Text;
use channel_uri::{Address, Channel, Media, UriError, address_of};
use command_line::Join;
use driver_core::{Peer, Settings};
use media_driver::Elicitation;
use policy_text::Names;
use program_parts::Machine;
use script_lines::settings::Choices;
use setting_words::{Kind, kind_of, plain};
use std::alloc::{AllocError, Global};
use std::fmt;

/// The port from which a publisher's driver sends where no other is chosen.
pub(crate) const PUBLISHER: u16 = 40_000;

/// Where the driver of a subscriber listens as a sender, to which nobody answers: it sends from its endpoints alone. The port is
/// one that the system chooses, so that no publisher of this host is in its way.
pub(crate) const NO_PUBLISHER: Address = Address {
    octets: [127, 0, 0, 1],
    port: 0,
};

/// An option of the command line that is at fault.
#[derive(Clone, Copy)]
struct BadOption<'a> {
    option: &'static str,
    word: &'a str,
    why: &'a str,
}

impl fmt::Display for BadOption<'_> {
    fn fmt<W: fmt::Write>(&self, f: &mut fmt::Formatter<W>) -> fmt::Result {
        let BadOption { option, word, why } = self;
        write!(f, "{option} {word}: {why}")
    }
}

/// Says what is wrong with an option.
pub(crate) fn refuse<R: Machine>(rt: &R, option: &'static str, word: &str, why: &str) -> Fault {
    match plain_words::plain(rt.alloc(), word) {
        Ok(word) => give_up(
            rt,
            &BadOption {
                option,
                word: word.as_str(),
                why,
            },
        ),
        Err(_) => Fault::NO_MEMORY,
    }
}

/// What is wrong with a word `KEY=VALUE` that chooses nothing.
fn why_not(key: &str, given: &[&str]) -> &'static str {
    let Some((_, wanted)) = kind_of(key) else {
        return "no such setting: `aeron_policyd publish --help` lists them";
    };
    if chooses(given, key) {
        return "chosen before";
    }
    wanted
}

/// Takes a choice, after those that these words were; whether it is one.
fn chose(
    alloc: Global,
    choices: &mut Choices,
    given: &[&str],
    key: &str,
    value: &str,
) -> Result<bool, AllocError> {
    let Some((kind, _)) = kind_of(key) else {
        return Ok(false);
    };
    let Some(value) = plain(alloc, kind, value)? else {
        return Ok(false);
    };
    if key == "images-per-source" {
        return Ok(!chooses(given, key) && choices.bound_images(value.as_str()));
    }
    choices.choose(Text::new(alloc, key)?, value.as_str())
}

/// Whether one of the words chooses this key.
pub(crate) fn chooses(words: &[&str], key: &str) -> bool {
    words.iter().any(|word| match word.split_once('=') {
        Some((chosen, _)) => chosen == key,
        None => false,
    })
}

/// The settings that words `KEY=VALUE` choose. What is wrong with the first one that chooses nothing is said on standard error.
pub(crate) fn settings_of<R: Machine>(rt: &R, words: &[&str]) -> Result<Settings, Fault>
    ensures { IfOk result (λ settings. AreSettings settings) }
{
    let mut choices = Choices::new(rt.alloc());
    for (place, word) in words.iter().enumerate() {
        let Some((key, value)) = word.split_once('=') else {
            return Err(refuse(rt, "--setting", word, "wanted KEY=VALUE"));
        };
        let given = words.get(..place).unwrap_or(&[]);
        if !chose(rt.alloc(), &mut choices, given, key, value)? {
            return Err(refuse(rt, "--setting", word, why_not(key, given)));
        }
    }
    Ok(choices.settings)
}

/// The address that a text is, where `localhost:` at its head is 127.0.0.1.
pub(crate) fn address_from(alloc: Global, text: &str) -> Result<Option<Address>, AllocError> {
    Ok(match plain(alloc, Kind::Address, text)? {
        Some(address) => address_of(address.as_str()),
        None => None,
    })
}

/// The address that an option names. What is wrong with it is said on standard error.
pub(crate) fn address_in<R: Machine>(
    rt: &R,
    option: &'static str,
    text: &str,
) -> Result<Address, Fault> {
    match address_from(rt.alloc(), text)? {
        Some(address) => Ok(address),
        None => Err(refuse(rt, option, text, ADDRESS)),
    }
}

/// The peer that a word `ADDR=PRINCIPAL` names, or what is wrong with it.
fn peer_of(
    alloc: Global,
    names: &Names,
    word: &str,
) -> Result<Result<Peer, &'static str>, AllocError> {
    let Some((address, principal)) = word.split_once('=') else {
        return Ok(Err("wanted ADDR=PRINCIPAL"));
    };
    let Some(address) = address_from(alloc, address)? else {
        return Ok(Err(ADDRESS));
    };
    Ok(match names.number_of(principal) {
        Some(principal) => Ok(Peer { address, principal }),
        None => Err("unknown principal"),
    })
}

/// What is wanted where an address stands.
const ADDRESS: &str = "wanted an IPv4 address and a port, as 127.0.0.1:40000";

/// How many peers there may be.
const PEERS: usize = 256;

/// The peers that words name: each address once, 256 at most. What is wrong with the first one that names none is said on
/// standard error.
pub(crate) fn peers_of<R: Machine>(
    rt: &R,
    names: &Names,
    words: &[&str],
) -> Result<Vec<Peer>, Fault> {
    let mut peers: Vec<Peer> = Vec::new(rt.alloc());
    for word in words {
        let why = match peer_of(rt.alloc(), names, word)? {
            Err(why) => why,
            Ok(_) if peers.len() >= PEERS => "more than 256 peers",
            Ok(peer) if peers.iter().any(|known| known.address.is(&peer.address)) => {
                "this address was given before"
            }
            Ok(peer) => {
                peers.push(peer)?;
                continue;
            }
        };
        return Err(refuse(rt, "--peer", word, why));
    }
    Ok(peers)
}

/// A text that is no channel.
#[derive(Drop)]
struct NoChannel {
    shown: Text,
    cause: UriError,
}

impl fmt::Display for NoChannel {
    fn fmt<W: fmt::Write>(&self, f: &mut fmt::Formatter<W>) -> fmt::Result {
        let NoChannel { shown, cause } = self;
        write!(f, "{shown}: invalid channel: {cause}")
    }
}

/// The channel that a word of the command line is. Why it is none is said on standard error, and so is which of its keys have no
/// effect.
pub(crate) fn channel_of<R: Machine>(rt: &R, word: &str) -> Result<Channel, Fault> {
    match Channel::parse(word) {
        Ok(channel) => {
            note_idle_keys(rt, word);
            Ok(channel)
        }
        Err(cause) => {
            let shown = plain_words::plain(rt.alloc(), word)?;
            Err(give_up(rt, &NoChannel { shown, cause }))
        }
    }
}

/// Such a channel as reaches other processes; any other one is a fault.
pub(crate) fn reaching<R: Machine>(rt: &R, word: &str) -> Result<Channel, Fault> {
    let channel = channel_of(rt, word)?;
    if channel.media() == Media::Ipc {
        return Err(Fault::Ipc);
    }
    if channel.is_spy() {
        return Err(Fault::Spy);
    }
    Ok(channel)
}

/// The address at which a channel's publication learns its subscribers, if it does.
pub(crate) fn control_of(channel: &Channel) -> Option<Address> {
    if channel.is_dynamic() {
        channel.control()
    } else {
        None
    }
}

/// Which publication is asked to send to the endpoint, if one is.
pub(crate) fn elicitation_of<R: Machine>(
    rt: &R,
    join: Option<Join<'_>>,
    endpoint: Option<Address>,
    stream: i32,
) -> Result<Option<Elicitation>, Fault> {
    let Some(Join { control, session }) = join else {
        return Ok(None);
    };
    let control = address_in(rt, "--control", control)?;
    let Some(endpoint) = endpoint else {
        return Err(Fault::NoEndpoint);
    };
    Ok(Some(Elicitation {
        endpoint,
        control,
        session_id: session,
        stream_id: stream,
    }))
}

/// The address from which a publisher's driver sends: this host's own where subscribers are on it, by an address of theirs or
/// by the one at which it learns them; else any.
pub(crate) fn publisher_address(of: Option<Address>) -> Address {
    let octets = match of {
        Some(address) if address.octets[0] != 127 => [0, 0, 0, 0],
        _ => [127, 0, 0, 1],
    };
    Address {
        octets,
        port: PUBLISHER,
    }
}

/// A text of one's own.
pub(crate) fn owned(alloc: Global, text: &str) -> Result<String, AllocError> {
    String::from_str(alloc, text)
}

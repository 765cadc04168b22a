//! The words that ask for bytes or words of a message: `encode` and `decode`.

ghost use Rattle.clap.specs.Words.{found_of};
ghost use Rattle.command_line.specs.Needs.{Answers, message_needs};
ghost use Rattle.command_line.specs.Tasks.{AreFirst, messages_name, messages_texts};
ghost use Rattle.std.specs.Prelude.{◌≡◌, IfSome};

use crate::rows::{Form, PLACED, PLACED_AGAIN, Row};
use clap::ArgMatches;

/// What `encode` is asked for.
const WORD: Row = Row {
    id: "WORD",
    help: "A name, and then KEY=VALUE for each of its keys",
    ..PLACED_AGAIN
};

const KIND: Row = Row {
    id: "KIND",
    help: "What it is: command, reply or datagram",
    ..PLACED
};

const HEX: Row = Row {
    id: "HEX",
    help: "Its bytes, two digits a byte, with `_` between them where you like",
    ..PLACED
};

/// `encode`.
pub(crate) const ENCODE: Form = Form {
    name: "encode",
    about: "Prints the hexadecimal of a command or a datagram that words denote",
    places: &[WORD],
    options: &[],
    after: "\
Example: the command by which client 1 asks to read stream 10 of this host, for a line `cmd` of a script.

  $ aeron_policyd encode add-subscription client=1 correlation=11 stream=10 channel=aeron:ipc
  04000000_0100000000000000_0b00000000000000_0000000000000000_0a000000_09000000_6165726f6e3a697063

The first word names a command or a datagram of one frame, each other one gives a value to a key of it, in any order. Keys in
brackets need not be given:

  add-publication, add-exclusive-publication    client correlation stream channel
  add-subscription                              client correlation [registration-correlation] stream channel
  remove-publication, remove-subscription, remove-counter
                                                client correlation registration
  add-destination, remove-destination           client correlation registration channel
  add-counter                                   client correlation type-id [key] label
  set-counter                                   client correlation registration value
  client-keepalive, client-close                client correlation
  terminate-driver                              client correlation [token]
  data                                          session stream term [offset] [flags] [payload]
  pad                                           session stream term [offset] [flags] length
  heartbeat                                     session stream term [offset] [flags]
  nak                                           session stream term [offset] length
  status-message                                session stream term [offset] window [receiver]
  setup                                         session stream term [offset] [initial-term] [term-length] [mtu]

Numbers are decimal; flags, key, token and payload are hexadecimal; channel and label are texts, or hexadecimal as channel-hex
and label-hex.

Status: 0; 1 after `aeron_policyd: FAULT` on standard error; 2 for a usage error.",
};

/// `decode`.
pub(crate) const DECODE: Form = Form {
    name: "decode",
    about: "Prints the words of a command, a reply or a datagram",
    places: &[KIND, HEX],
    options: &[],
    after: "\
Example: a reply that a script wrote, and the command that it answers.

  $ aeron_policyd decode reply 010f00000b00000000000000e90300001d00000064656e6965642062792064656661756c7420696e20706f6c6963792031
  on-error correlation=11 code=1001 DENIED text='denied by default in policy 1'
  $ aeron_policyd decode command 04000000_0100000000000000_0b00000000000000_0000000000000000_0a000000_09000000_6165726f6e3a697063
  add-subscription client=1 correlation=11 registration-correlation=0 stream=10 channel=aeron:ipc

A command and a reply have one line, a datagram has one for each frame. What `encode` gave has the same fields again. Bytes
that are no command, no reply or no datagram are refused with the driver's word for the cause.

Status: 0; 1 after `aeron_policyd: FAULT` on standard error; 2 for a usage error.",
};

/// What is asked of a message.
#[derive(Clone, Copy)]
pub enum Messages<'a> {
    /// The hexadecimal of the command or the datagram that words denote.
    Encode(&'a [&'a str]),
    /// The words of what hexadecimal is: a command, a reply or a datagram, as a word says.
    Decode { kind: &'a str, hex: &'a str },
}

/// What the words of such a subcommand ask, if it is one.
pub(crate) fn messages_in<'m, 'a>(name: &str, of: &'m ArgMatches<'a>) -> Option<Messages<'m>>
    ensures name { IfSome result (λ messages. name.now ≡ messages_name messages) }
    ensures given { IfSome result (λ messages. AreFirst (found_of of.now) (messages_texts messages)) }
    ensures answers { Answers (found_of of.now) name.now message_needs result }
{
    if name == "encode" {
        return Some(Messages::Encode(of.get_strs("WORD")?));
    }
    if name == "decode" {
        return Some(Messages::Decode {
            kind: of.get_str("KIND")?,
            hex: of.get_str("HEX")?,
        });
    }
    None
}

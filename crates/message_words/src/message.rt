//! Words as a command or a datagram, and its bytes in hexadecimal.

ghost use Rattle.message_words.specs.Given.{Gives};
ghost use Rattle.message_words.specs.Hex.{grouped as grouped_text};
ghost use Rattle.message_words.specs.Message.{body_widths, encoded, message_as, message_bytes, message_hex, message_named, message_of, sending_widths};
ghost use Rattle.std.specs.Prelude.{◌≡◌, IfOk};

use crate::commands::command;
use crate::fault::WordFault;
use crate::frames::{Sending, sending_of};
use crate::given::unknown_at;
use crate::hexadecimal::grouped;
use crate::name::Name;
use byte_strings::{Bytes, Text};
use command_codec::{Body, Command};
use std::alloc::{AllocError, Global};

/// A command, or a datagram of one frame.
#[derive(Debug, PartialEq, Eq, Drop)]
pub enum Message {
    Command(Command),
    Datagram(Sending),
}

/// What has this name and these fields.
fn message_as(alloc: Global, name: Name, words: &[Text]) -> Result<Message, WordFault>
    ensures { Gives result (message_as name words.now) }
{
    match name {
        Name::Command(name) => Ok(Message::Command(command(alloc, name, words)?)),
        Name::Frame(name) => Ok(Message::Datagram(sending_of(alloc, name, words)?)),
    }
}

/// What has the name that a word is, and these fields.
fn message_named(alloc: Global, name: Option<Name>, words: &[Text]) -> Result<Message, WordFault>
    ensures { Gives result (message_named name words.now) }
{
    let Some(name) = name else {
        return Err(WordFault::UnknownName);
    };
    match unknown_at(name.keys(), words) {
        Some(at) => Err(WordFault::UnknownWord(at + 1)),
        None => message_as(alloc, name, words),
    }
}

/// The command's bytes in hexadecimal, field by field.
fn body_hex(alloc: Global, body: &Body, bytes: &[u8]) -> Result<Text, AllocError>
    ensures { IfOk result (λ text. text ≡ grouped_text (body_widths body.now) bytes.now) }
{
    match body {
        Body::AddPublication(_) | Body::AddExclusivePublication(_) => {
            grouped(alloc, &[8, 8, 4, 4], bytes)
        }
        Body::RemovePublication(_) | Body::RemoveSubscription(_) | Body::RemoveCounter(_) => {
            grouped(alloc, &[8, 8, 8], bytes)
        }
        Body::AddSubscription(_) => grouped(alloc, &[8, 8, 8, 4, 4], bytes),
        Body::ClientKeepalive | Body::ClientClose => grouped(alloc, &[8, 8], bytes),
        Body::AddDestination(_) | Body::RemoveDestination(_) => {
            grouped(alloc, &[8, 8, 8, 4], bytes)
        }
        Body::AddCounter(fields) => {
            let key = fields.key.as_slice().len();
            grouped(alloc, &[8, 8, 4, 4, key, 4], bytes)
        }
        Body::TerminateDriver(_) => grouped(alloc, &[8, 8, 4], bytes),
        Body::SetCounter(_) => grouped(alloc, &[8, 8, 8], bytes),
    }
}

/// The datagram's bytes in hexadecimal, field by field.
fn sending_hex(alloc: Global, sending: &Sending, bytes: &[u8]) -> Result<Text, AllocError>
    ensures { IfOk result (λ text. text ≡ grouped_text (sending_widths sending.now) bytes.now) }
{
    match sending {
        Sending::Data(fields) => {
            let payload = fields.payload.len();
            grouped(alloc, &[4, 4, 4, 4, 4, 8, payload], bytes)
        }
        Sending::Pad(_) | Sending::Heartbeat(_) | Sending::Nak(_) => {
            grouped(alloc, &[4, 4, 4, 4, 4], bytes)
        }
        Sending::StatusMessage(_) => grouped(alloc, &[4, 4, 4, 4, 4, 4], bytes),
        Sending::Setup(_) => grouped(alloc, &[4, 4, 4, 4, 4, 4, 4, 4], bytes),
    }
}

impl Message {
    /// The command or the datagram that words denote: its name, and then a value for each key, `KEY=VALUE`, in any order.
    ///
    /// # Errors
    /// The first of these: there is no word; nothing has that name; a word gives no value to a key of that name; a key, in
    /// the order of the fields, is given twice, is missing, or has a bad value; out of memory.
    #[tactic(auto, unfolding(crate::specs::Message::message_of))]
    pub fn read(alloc: Global, words: &[Text]) -> Result<Message, WordFault>
        ensures { Gives result (message_of words.now) }
    {
        match words.split_first() {
            None => Err(WordFault::NoName),
            Some((name, fields)) => message_named(alloc, Name::from_text(name.as_str()), fields),
        }
    }

    /// Its bytes, as the layouts of commands and frames say.
    #[tactic(auto, unfolding(crate::specs::Message::message_bytes))]
    pub fn write(&self, alloc: Global) -> Result<Bytes, AllocError>
        ensures { IfOk result (λ bytes. bytes ≡ message_bytes self.now) }
    {
        match self {
            Message::Command(command) => command.write(alloc),
            Message::Datagram(sending) => sending.write(alloc),
        }
    }

    /// Its bytes in hexadecimal, as scripts take them.
    #[tactic(auto, unfolding(crate::specs::Message::message_hex))]
    pub fn hex(&self, alloc: Global) -> Result<Text, AllocError>
        ensures { IfOk result (λ text. text ≡ message_hex self.now) }
    {
        let bytes = self.write(alloc)?;
        match self {
            Message::Command(command) => body_hex(alloc, &command.body, bytes.as_slice()),
            Message::Datagram(sending) => sending_hex(alloc, sending, bytes.as_slice()),
        }
    }
}

/// The hexadecimal of the command or the datagram that words denote.
///
/// # Errors
/// Those of [`Message::read`].
pub fn encode(alloc: Global, words: &[Text]) -> Result<Text, WordFault>
    ensures { Gives result (encoded words.now) }
{
    let message = Message::read(alloc, words)?;
    Ok(message.hex(alloc)?)
}

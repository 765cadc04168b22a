//! Bytes in words.

ghost use Rattle.command_codec.specs.Command.{command_of};
ghost use Rattle.command_codec.specs.Reply.{reply_of};
ghost use Rattle.frame_codec.specs.Datagram.{packet_of};
ghost use Rattle.message_words.specs.Decoding.{Answers, bytes_said, command_said, datagram_said, decode_fault_text, decoded, reading_named, reading_text, reply_said};
ghost use Rattle.message_words.specs.Datagrams.{ended};
ghost use Rattle.message_words.specs.Hex.{digits_in};
ghost use Rattle.message_words.specs.declared.decoding.DecodeFault.TheVariants.{NoMemory};
ghost use Rattle.std.specs.Prelude.{◌≡◌, IfOk, Some};

use crate::datagrams::datagram_lines;
use crate::replies::reply_line;
use crate::shown::command_line;
use byte_strings::{Bytes, Text};
use command_codec::{Command, CommandFault, Reply};
use frame_codec::{BadPacket, Datagram};
use hex::FromHexError;
use std::alloc::{AllocError, Global};
use std::error::Error;
use std::fmt;

/// What bytes are read as.
#[derive(Clone, Copy, Debug, PartialEq, Eq)]
pub enum Reading {
    Command,
    Reply,
    Datagram,
}

impl Reading {
    /// Every reading.
    pub const EVERY: [Reading; 3] = [Reading::Command, Reading::Reply, Reading::Datagram];

    /// The word that says so: `command`, `reply` or `datagram`.
    pub fn text(self) -> &'static str
        ensures { result.now ≡ reading_text self }
    {
        match self {
            Reading::Command => "command",
            Reading::Reply => "reply",
            Reading::Datagram => "datagram",
        }
    }

    /// What such a word says that bytes are.
    #[tactic(auto, unfolding(crate::specs::Decoding::reading_named))]
    pub fn from_text(text: &str) -> Option<Reading>
        ensures { result ≡ reading_named text.now }
    {
        Reading::EVERY
            .iter()
            .copied()
            .find(|reading| reading.text() == text)
    }
}

/// Why hexadecimal has no words.
#[derive(Clone, Copy, Debug, PartialEq, Eq)]
pub enum DecodeFault {
    /// It is no hexadecimal: two digits a byte, with `_` between them.
    BadHex,
    /// The bytes are no command.
    Command(CommandFault),
    /// The bytes are no reply.
    Reply(CommandFault),
    /// The bytes are no datagram.
    Datagram(BadPacket),
    NoMemory,
}

impl From<AllocError> for DecodeFault {
    ghost from_gives = { λ _ fault. fault ≡ NoMemory };

    fn from(_error: AllocError) -> DecodeFault {
        DecodeFault::NoMemory
    }
}

impl fmt::Display for DecodeFault {
    ghost output = { λ fault. Some (decode_fault_text fault) };

    fn fmt<W: fmt::Write>(&self, f: &mut fmt::Formatter<W>) -> fmt::Result {
        match self {
            DecodeFault::BadHex => f.write_str("bad hexadecimal"),
            DecodeFault::Command(CommandFault::Unknown) => f.write_str("unknown command type"),
            DecodeFault::Command(CommandFault::Malformed) => f.write_str("malformed command"),
            DecodeFault::Reply(CommandFault::Unknown) => f.write_str("unknown reply type"),
            DecodeFault::Reply(CommandFault::Malformed) => f.write_str("malformed reply"),
            DecodeFault::Datagram(fault) => {
                let fault = *fault;
                write!(f, "{fault}")
            }
            DecodeFault::Command(CommandFault::NoMemory) => f.write_str("no memory"),
            DecodeFault::Reply(CommandFault::NoMemory) => f.write_str("no memory"),
            DecodeFault::NoMemory => f.write_str("no memory"),
        }
    }
}

impl Error for DecodeFault {}

/// The line, ended by a line feed.
fn ended(alloc: Global, line: &Text) -> Result<Text, AllocError>
    ensures { IfOk result (λ text. text ≡ ended line.now) }
{
    Ok(Text::from(format!(in alloc; "{line}\n")?))
}

fn command_said(alloc: Global, bytes: &[u8]) -> Result<Text, DecodeFault>
    ensures { Answers result (command_said (command_of bytes.now)) }
{
    match Command::read(alloc, bytes) {
        Ok(command) => {
            let line = command_line(alloc, &command)?;
            Ok(ended(alloc, &line)?)
        }
        Err(CommandFault::NoMemory) => Err(DecodeFault::NoMemory),
        Err(fault) => Err(DecodeFault::Command(fault)),
    }
}

fn reply_said(alloc: Global, bytes: &[u8]) -> Result<Text, DecodeFault>
    ensures { Answers result (reply_said (reply_of bytes.now)) }
{
    match Reply::read(alloc, bytes) {
        Ok(reply) => {
            let line = reply_line(alloc, &reply)?;
            Ok(ended(alloc, &line)?)
        }
        Err(CommandFault::NoMemory) => Err(DecodeFault::NoMemory),
        Err(fault) => Err(DecodeFault::Reply(fault)),
    }
}

fn datagram_said(alloc: Global, bytes: &[u8]) -> Result<Text, DecodeFault>
    ensures { Answers result (datagram_said (packet_of bytes.now)) }
{
    match Datagram::read(bytes) {
        Ok(packet) => Ok(datagram_lines(alloc, packet)?),
        Err(fault) => Err(DecodeFault::Datagram(fault)),
    }
}

/// What is said of bytes that are read as one of the three.
#[tactic(auto, unfolding(crate::specs::Decoding::bytes_said))]
fn bytes_said(alloc: Global, reading: Reading, bytes: &[u8]) -> Result<Text, DecodeFault>
    ensures { Answers result (bytes_said reading bytes.now) }
{
    match reading {
        Reading::Command => command_said(alloc, bytes),
        Reading::Reply => reply_said(alloc, bytes),
        Reading::Datagram => datagram_said(alloc, bytes),
    }
}

/// The text without each `_`.
fn digits_in(alloc: Global, text: &str) -> Result<Bytes, AllocError>
    ensures { IfOk result (λ digits. digits ≡ digits_in text.now) }
{
    let digits: Vec<u8> = text.bytes().filter(|byte| *byte != b'_').collect(alloc)?;
    Ok(Bytes::from(digits))
}

/// The words of the command, the reply or the datagram that hexadecimal is, each line ended by a line feed: one line, and of
/// a datagram a line a frame. `_` between digits says nothing.
///
/// # Errors
/// Where it is no hexadecimal; where the bytes are no command, no reply or no datagram, with the driver's name of the cause;
/// out of memory.
pub fn decode(alloc: Global, reading: Reading, text: &str) -> Result<Text, DecodeFault>
    ensures { Answers result (decoded reading text.now) }
{
    let digits = digits_in(alloc, text)?;
    match hex::decode(alloc, digits.as_slice()) {
        Ok(bytes) => bytes_said(alloc, reading, bytes.as_slice()),
        Err(FromHexError::OutOfMemory) => Err(DecodeFault::NoMemory),
        Err(_) => Err(DecodeFault::BadHex),
    }
}

ghost use Rattle.channel_uri.specs.Channel.{denotes};
ghost use Rattle.command_codec.specs.Command.{command_of};
ghost use Rattle.driver_core.specs.Received.{channel_in, channel_kept, channel_lent, channel_named};
ghost use Rattle.std.specs.Prelude.{◌≡◌, IfOk};

use byte_strings::Bytes;
use channel_uri::{Channel, UriError};
use command_codec::{Body, Command, CommandFault};
use std::alloc::{AllocError, Global};
use std::marker::Model;

/// The bytes of a command that came, read once: what they are, and the channel that they name, go with them.
#[derive(Debug, Drop)]
pub struct Received {
    bytes: Bytes,
    command: Result<Command, CommandFault>,
    /// A channel is large, so it lies apart: an event is handed on by value.
    channel: Option<Result<Box<Channel>, UriError>>,
}

impl Model for Received {
    ghost use Rattle.command_codec.specs.Command.{command_of};
    ghost use Rattle.driver_core.specs.Received.{channel_in, channel_kept};
    ghost use Rattle.std.specs.Prelude.{◌≡◌, ℕ, List};

    ghost Value = { List ℕ };

    ghost view = { λ received. received.bytes };

    ghost invariant = { λ received. (received.command ≡ command_of received.bytes)
        × (channel_kept received.channel ≡ channel_in (command_of received.bytes)) };
}

/// The channel that a text denotes.
fn parsed(alloc: Global, text: &str) -> Result<Option<Result<Box<Channel>, UriError>>, AllocError>
    ensures { IfOk result (λ channel. channel_kept channel ≡ denotes text.now) }
{
    let mut channel = Box::new(alloc, Channel::ipc())?;
    match channel.read(text) {
        Ok(()) => Ok(Some(Ok(channel))),
        Err(fault) => Ok(Some(Err(fault))),
    }
}

/// The channel that a command names by what it asks for.
fn named(alloc: Global, body: &Body) -> Result<Option<Result<Box<Channel>, UriError>>, AllocError>
    ensures { IfOk result (λ channel. channel_kept channel ≡ channel_named body.now) }
{
    match body {
        Body::AddPublication(fields) => parsed(alloc, fields.channel.as_str()),
        Body::AddExclusivePublication(fields) => parsed(alloc, fields.channel.as_str()),
        Body::AddSubscription(fields) => parsed(alloc, fields.channel.as_str()),
        Body::AddDestination(fields) => parsed(alloc, fields.channel.as_str()),
        Body::RemoveDestination(fields) => parsed(alloc, fields.channel.as_str()),
        _ => Ok(None),
    }
}

/// The channel of what bytes were read as.
#[tactic(auto, unfolding(crate::specs::Received::channel_in))]
fn channel_of(
    alloc: Global,
    command: &Result<Command, CommandFault>,
) -> Result<Option<Result<Box<Channel>, UriError>>, AllocError>
    ensures { IfOk result (λ channel. channel_kept channel ≡ channel_in command.now) }
{
    match command {
        Ok(command) => named(alloc, &command.body),
        Err(_) => Ok(None),
    }
}

/// Another answer, the same as this one.
fn command_copied(
    command: &Result<Command, CommandFault>,
    alloc: Global,
) -> Result<Result<Command, CommandFault>, AllocError>
    ensures { IfOk result (λ copy. copy ≡ command.now) }
{
    match command {
        Ok(command) => Ok(Ok(command.copy(alloc)?)),
        Err(fault) => Ok(Err(*fault)),
    }
}

/// Another channel, the same as this one.
fn channel_copied(
    channel: &Option<Result<Box<Channel>, UriError>>,
    alloc: Global,
) -> Result<Option<Result<Box<Channel>, UriError>>, AllocError>
    ensures { IfOk result (λ copy. channel_kept copy ≡ channel_kept channel.now) }
{
    match channel {
        Some(Ok(channel)) => {
            let mut copy = Box::new(alloc, Channel::ipc())?;
            copy.set_from(channel);
            Ok(Some(Ok(copy)))
        }
        Some(Err(fault)) => Ok(Some(Err(*fault))),
        None => Ok(None),
    }
}

impl Received {
    /// A copy of the bytes of a command, which are read here.
    pub fn new(alloc: Global, bytes: &[u8]) -> Result<Received, AllocError>
        ensures { IfOk result (λ received. received ≡ bytes.now) }
    {
        let command = match Command::read(alloc, bytes) {
            Err(CommandFault::NoMemory) => return Err(AllocError),
            command => command,
        };
        let channel = channel_of(alloc, &command)?;
        Ok(Received {
            bytes: Bytes::new(alloc, bytes)?,
            command,
            channel,
        })
    }

    /// The command that the bytes are.
    pub fn read(&self) -> &Result<Command, CommandFault>
        ensures { result.now ≡ command_of self.now }
    {
        &self.command
    }

    /// The channel that the command names; [`UriError::NoScheme`] where it names none.
    pub fn channel(&self) -> Result<&Channel, UriError>
        ensures { channel_lent result ≡ channel_in (command_of self.now) }
    {
        match &self.channel {
            Some(Ok(channel)) => Ok(&**channel),
            Some(Err(fault)) => Err(*fault),
            None => Err(UriError::NoScheme),
        }
    }

    pub fn as_slice(&self) -> &[u8]
        ensures { result.now ≡ self.now }
    {
        self.bytes.as_slice()
    }

    /// Other bytes, equal to these. They are not read again.
    pub fn copy(&self, alloc: Global) -> Result<Received, AllocError>
        ensures { IfOk result (λ copy. copy ≡ self.now) }
    {
        Ok(Received {
            bytes: self.bytes.copy(alloc)?,
            command: command_copied(&self.command, alloc)?,
            channel: channel_copied(&self.channel, alloc)?,
        })
    }
}

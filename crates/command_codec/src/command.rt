ghost use Rattle.std.specs.Prelude.{◌≡◌, ◌++◌, false, true, IfOk, OnOk};
ghost use Rattle.command_codec.specs.Gives.{Gives, takes_memory};

use crate::add_counter::AddCounter;
use crate::add_publication::AddPublication;
use crate::add_subscription::AddSubscription;
use crate::destination::Destination;
use crate::fault::CommandFault;
use crate::fields;
use crate::removal::Removal;
use crate::set_counter::SetCounter;
use crate::terminate_driver::TerminateDriver;
use byte_strings::Bytes;
use std::alloc::{AllocError, Global};

/// A command of a client.
#[derive(Debug, PartialEq, Eq, Drop)]
pub struct Command {
    /// The id of the client that sends it.
    pub client: u64,
    /// A number of the client's own, by which replies name the command.
    pub correlation: u64,
    pub body: Body,
}

/// What a command asks for.
#[derive(Debug, PartialEq, Eq, Drop)]
pub enum Body {
    AddPublication(AddPublication),
    RemovePublication(Removal),
    AddExclusivePublication(AddPublication),
    AddSubscription(AddSubscription),
    RemoveSubscription(Removal),
    /// The client is there still (CLIENT_KEEPALIVE).
    ClientKeepalive,
    AddDestination(Destination),
    RemoveDestination(Destination),
    AddCounter(AddCounter),
    RemoveCounter(Removal),
    /// The client goes (CLIENT_CLOSE).
    ClientClose,
    TerminateDriver(TerminateDriver),
    SetCounter(SetCounter),
}

/// The types of commands that have a number here.
#[derive(Clone, Copy)]
enum Kind {
    AddPublication,
    RemovePublication,
    AddExclusivePublication,
    AddSubscription,
    RemoveSubscription,
    ClientKeepalive,
    AddDestination,
    RemoveDestination,
    AddCounter,
    RemoveCounter,
    ClientClose,
    TerminateDriver,
    SetCounter,
}

impl Kind {
    ghost use Rattle.command_codec.specs.Command.{fields_of, has_bytes, kind_of};

    #[tactic(auto, unfolding(crate::specs::Command::kind_of, crate::specs::Command::kind_number))]
    #[inline(always)]
    fn from_number(number: u32) -> Result<Kind, CommandFault>
        ensures { result ≡ kind_of number }
    {
        match number {
            1 => Ok(Kind::AddPublication),
            2 => Ok(Kind::RemovePublication),
            3 => Ok(Kind::AddExclusivePublication),
            4 => Ok(Kind::AddSubscription),
            5 => Ok(Kind::RemoveSubscription),
            6 => Ok(Kind::ClientKeepalive),
            7 => Ok(Kind::AddDestination),
            8 => Ok(Kind::RemoveDestination),
            9 => Ok(Kind::AddCounter),
            0x0A => Ok(Kind::RemoveCounter),
            0x0B => Ok(Kind::ClientClose),
            0x0E => Ok(Kind::TerminateDriver),
            0x1001 => Ok(Kind::SetCounter),
            _ => Err(CommandFault::Unknown),
        }
    }

    #[tactic(auto, unfolding(crate::specs::Command::fields_of))]
    fn read(self, alloc: Global, bytes: &[u8]) -> Result<Body, CommandFault>
        ensures exact { Gives result (fields_of self bytes.now) }
        ensures without_memory { takes_memory has_bytes (fields_of self bytes.now) ≡ false
            → result ≡ fields_of self bytes.now }
    {
        match self {
            Kind::AddPublication => Ok(Body::AddPublication(AddPublication::read(alloc, bytes)?)),
            Kind::RemovePublication => Ok(Body::RemovePublication(Removal::read(bytes)?)),
            Kind::AddExclusivePublication => Ok(Body::AddExclusivePublication(AddPublication::read(
                alloc, bytes,
            )?)),
            Kind::AddSubscription => Ok(Body::AddSubscription(AddSubscription::read(
                alloc, bytes,
            )?)),
            Kind::RemoveSubscription => Ok(Body::RemoveSubscription(Removal::read(bytes)?)),
            Kind::ClientKeepalive => fields::end(bytes).map(|()| Body::ClientKeepalive),
            Kind::AddDestination => Ok(Body::AddDestination(Destination::read(alloc, bytes)?)),
            Kind::RemoveDestination => Ok(Body::RemoveDestination(Destination::read(
                alloc, bytes,
            )?)),
            Kind::AddCounter => Ok(Body::AddCounter(AddCounter::read(bytes)?)),
            Kind::RemoveCounter => Ok(Body::RemoveCounter(Removal::read(bytes)?)),
            Kind::ClientClose => fields::end(bytes).map(|()| Body::ClientClose),
            Kind::TerminateDriver => Ok(Body::TerminateDriver(TerminateDriver::read(
                alloc, bytes,
            )?)),
            Kind::SetCounter => Ok(Body::SetCounter(SetCounter::read(bytes)?)),
        }
    }
}

impl Body {
    ghost use Rattle.command_codec.specs.Command.{fields_bytes, kind_in, kind_number};

    #[tactic(auto, unfolding(crate::specs::Command::kind_number))]
    fn type_number(&self) -> u32
        ensures { result ≡ kind_number (kind_in self.now) }
    {
        match self {
            Body::AddPublication(_) => 1,
            Body::RemovePublication(_) => 2,
            Body::AddExclusivePublication(_) => 3,
            Body::AddSubscription(_) => 4,
            Body::RemoveSubscription(_) => 5,
            Body::ClientKeepalive => 6,
            Body::AddDestination(_) => 7,
            Body::RemoveDestination(_) => 8,
            Body::AddCounter(_) => 9,
            Body::RemoveCounter(_) => 0x0A,
            Body::ClientClose => 0x0B,
            Body::TerminateDriver(_) => 0x0E,
            Body::SetCounter(_) => 0x1001,
        }
    }

    #[tactic(auto, unfolding(crate::specs::Command::fields_bytes))]
    fn put(&self, out: &mut Vec<u8>) -> Result<(), AllocError>
        ensures { OnOk result (out.new.items ≡ out.old.items ++ fields_bytes self.now) }
    {
        match self {
            Body::AddPublication(fields) => fields.put(out),
            Body::RemovePublication(fields) => fields.put(out),
            Body::AddExclusivePublication(fields) => fields.put(out),
            Body::AddSubscription(fields) => fields.put(out),
            Body::RemoveSubscription(fields) => fields.put(out),
            Body::ClientKeepalive => Ok(()),
            Body::AddDestination(fields) => fields.put(out),
            Body::RemoveDestination(fields) => fields.put(out),
            Body::AddCounter(fields) => fields.put(out),
            Body::RemoveCounter(fields) => fields.put(out),
            Body::ClientClose => Ok(()),
            Body::TerminateDriver(fields) => fields.put(out),
            Body::SetCounter(fields) => fields.put(out),
        }
    }

    fn copy(&self, alloc: Global) -> Result<Body, AllocError>
        ensures { IfOk result (λ copy. copy ≡ self.now) }
    {
        match self {
            Body::AddPublication(fields) => Ok(Body::AddPublication(fields.copy(alloc)?)),
            Body::RemovePublication(fields) => Ok(Body::RemovePublication(*fields)),
            Body::AddExclusivePublication(fields) => {
                Ok(Body::AddExclusivePublication(fields.copy(alloc)?))
            }
            Body::AddSubscription(fields) => Ok(Body::AddSubscription(fields.copy(alloc)?)),
            Body::RemoveSubscription(fields) => Ok(Body::RemoveSubscription(*fields)),
            Body::ClientKeepalive => Ok(Body::ClientKeepalive),
            Body::AddDestination(fields) => Ok(Body::AddDestination(fields.copy(alloc)?)),
            Body::RemoveDestination(fields) => Ok(Body::RemoveDestination(fields.copy(alloc)?)),
            Body::AddCounter(fields) => Ok(Body::AddCounter(fields.copy())),
            Body::RemoveCounter(fields) => Ok(Body::RemoveCounter(*fields)),
            Body::ClientClose => Ok(Body::ClientClose),
            Body::TerminateDriver(fields) => Ok(Body::TerminateDriver(fields.copy(alloc)?)),
            Body::SetCounter(fields) => Ok(Body::SetCounter(*fields)),
        }
    }
}

impl Command {
    ghost use Rattle.command_codec.specs.Command.{command_bytes, command_of, correlation_of, has_bytes};

    /// The command that the bytes are. Its type is looked at first, so a type that is not known is `Unknown` whatever
    /// follows it. Memory is taken for a text or a byte string, and only once all of the bytes are found sound.
    #[tactic(auto, unfolding(crate::specs::Command::command_of))]
    pub fn read(alloc: Global, bytes: &[u8]) -> Result<Command, CommandFault>
        ensures exact { Gives result (command_of bytes.now) }
        ensures without_memory { takes_memory (λ command. has_bytes command.body) (command_of bytes.now) ≡ false
            → result ≡ command_of bytes.now }
    {
        let (number, rest) = fields::u32_at(bytes)?;
        let kind = Kind::from_number(number)?;
        let (client, rest) = fields::u64_at(rest)?;
        let (correlation, rest) = fields::u64_at(rest)?;
        let body = kind.read(alloc, rest)?;
        Ok(Command {
            client,
            correlation,
            body,
        })
    }

    /// The bytes of the command. They are read again as the same command if its texts are ASCII, a channel is shorter
    /// than 2^31 bytes, and a key, a label or a token is no longer than its field allows. (Each is written whole
    /// whatever its length, of which the lowest four bytes are written.)
    #[tactic(auto, unfolding(crate::specs::Command::command_bytes))]
    pub fn write(&self, alloc: Global) -> Result<Bytes, AllocError>
        ensures { IfOk result (λ bytes. bytes ≡ command_bytes self.now) }
    {
        let mut out = Vec::new(alloc);
        fields::put_u32(&mut out, self.body.type_number())?;
        fields::put_u64(&mut out, self.client)?;
        fields::put_u64(&mut out, self.correlation)?;
        self.body.put(&mut out)?;
        Ok(Bytes::from(out))
    }

    /// The correlation id that an error about these bytes names, also where they are no command: what stands in
    /// its place, or 0 where the bytes end before it does.
    #[tactic(auto, unfolding(crate::specs::Command::correlation_of))]
    pub fn correlation_of(bytes: &[u8]) -> u64
        ensures { result ≡ correlation_of bytes.now }
    {
        if bytes.len() < 20 {
            0
        } else {
            fields::u64_in(&bytes[12..])
        }
    }

    /// Another command that is the same.
    pub fn copy(&self, alloc: Global) -> Result<Command, AllocError>
        ensures { IfOk result (λ copy. copy ≡ self.now) }
    {
        Ok(Command {
            client: self.client,
            correlation: self.correlation,
            body: self.body.copy(alloc)?,
        })
    }
}

//! The commands of a client: each is one push into the driver's queue. It gives the command's correlation id, by which its
//! reply names it; a push that is refused uses none. `QueueFull` refuses it where 256 commands of the client wait in the queue
//! as far as it knows, or where the queue held 1,024 events at one moment.

ghost use Rattle.command_codec.specs.Command.{command_bytes};
ghost use Rattle.command_codec.specs.declared.command.Body.TheVariants as bodies;
ghost use Rattle.media_agents.specs.Sharing.{Sends, SendsNone};
ghost use Rattle.media_driver.specs.Clients.{Commands, HandsOn, MayRefuse};
ghost use Rattle.std.specs.Prelude.{◌≡◌, ◌^◌, ◌-◌, [], IfErr, IfOk, OnOk};

use crate::client::Client;
use crate::faults::PushFault;
use byte_strings::{Bytes, ShortBytes, ShortText, Text};
use command_codec::{
    AddCounter, AddPublication, AddSubscription, Body, Command, Destination, Removal, SetCounter,
    TerminateDriver,
};
use driver_core::{Event, Received};
use media_agents::{Clock, CommandSender, DriverNaming};
use std::alloc::{AllocError, Global};
use std::sync::Wait;

/// The bytes of a command, as the driver reads them.
fn laid_out(alloc: Global, command: Command) -> Result<Received, AllocError>
    ensures { IfOk result (λ bytes. bytes ≡ command_bytes command) }
{
    let bytes = command.write(alloc)?;
    Received::new(alloc, bytes.as_slice())
}

/// Pushes an event over this handle; one that is refused is let go.
fn handed<R: Wait>(queue: &mut CommandSender, rt: &R, event: Event) -> Result<(), PushFault>
    ensures ok { OnOk result (Sends event queue.old queue.new) }
    ensures err { IfErr result (λ fault. SendsNone queue.old queue.new × MayRefuse queue.new fault) }
{
    match queue.push(rt, event) {
        Ok(()) => Ok(()),
        Err(_) => Err(PushFault::QueueFull),
    }
}

impl<N: DriverNaming, C: Clock> Client<N, C> {
    /// Pushes bytes over this client's handle.
    ///
    /// # Errors
    /// `QueueFull`, only where 256 more were pushed than the client knows the conductor to have taken, or where the queue held
    /// 1,024 events at one moment. Nothing is pushed then.
    fn hand_on<R: Wait>(&mut self, rt: &R, bytes: Received) -> Result<(), PushFault>
        ensures { HandsOn self.old self.new bytes result }
    {
        let client = self.number;
        let now = self.now();
        match handed(&mut self.queue, rt, Event::Command { now, client, bytes }) {
            Ok(()) => {
                self.moment = now;
                Ok(())
            }
            Err(fault) => Err(fault),
        }
    }

    /// Pushes a command. Its correlation id is 1 for the first one that was pushed, and one more for each next, up to the
    /// greatest `u64`.
    ///
    /// # Errors
    /// `QueueFull` as for [`Client::command`], or `NoMemory`. Nothing is pushed then, and no id is used.
    fn push<R: Wait>(&mut self, rt: &R, body: Body) -> Result<u64, PushFault>
        ensures { Commands self.old self.new body result }
    {
        let client = self.number;
        let correlation = self.correlation.saturating_add(1);
        let command = Command {
            client,
            correlation,
            body,
        };
        let bytes = laid_out(self.alloc, command)?;
        self.hand_on(rt, bytes)?;
        self.correlation = correlation;
        Ok(correlation)
    }

    /// Hands bytes to the driver as a command over this client's handle, whatever they are: the driver says what is wrong with
    /// them. They have a correlation id of their own.
    ///
    /// # Errors
    /// `QueueFull`, only where 256 more were pushed than the client knows the conductor to have taken, or where the queue held
    /// 1,024 events at one moment; or `NoMemory`. Nothing is pushed then.
    pub fn command<R: Wait>(&mut self, rt: &R, bytes: &[u8]) -> Result<(), PushFault>
        ensures { HandsOn self.old self.new bytes.now result }
    {
        let bytes = Received::new(self.alloc, bytes)?;
        self.hand_on(rt, bytes)
    }

    /// Asks to publish a stream of a channel, together with others that do (ADD_PUBLICATION). Answered by
    /// `PublicationReady`.
    pub fn add_publication<R: Wait>(
        &mut self,
        rt: &R,
        channel: &str,
        stream: i32,
    ) -> Result<u64, PushFault>
        ensures { Commands self.old self.new (bodies.AddPublication (record { stream = stream; channel = channel.now })) result }
    {
        let channel = Text::new(self.alloc, channel)?;
        self.push(rt, Body::AddPublication(AddPublication { stream, channel }))
    }

    /// Asks to publish a stream of a channel alone (ADD_EXCLUSIVE_PUBLICATION).
    pub fn add_exclusive_publication<R: Wait>(
        &mut self,
        rt: &R,
        channel: &str,
        stream: i32,
    ) -> Result<u64, PushFault>
        ensures { Commands self.old self.new (bodies.AddExclusivePublication (record { stream = stream; channel = channel.now })) result }
    {
        let channel = Text::new(self.alloc, channel)?;
        self.push(
            rt,
            Body::AddExclusivePublication(AddPublication { stream, channel }),
        )
    }

    /// Asks to read a stream of a channel (ADD_SUBSCRIPTION).
    pub fn add_subscription<R: Wait>(
        &mut self,
        rt: &R,
        channel: &str,
        stream: i32,
    ) -> Result<u64, PushFault>
        ensures { Commands self.old self.new (bodies.AddSubscription (record { registration_correlation = 2 ^ 64 - 1; stream = stream; channel = channel.now })) result }
    {
        let channel = Text::new(self.alloc, channel)?;
        self.push(
            rt,
            Body::AddSubscription(AddSubscription {
                registration_correlation: u64::MAX,
                stream,
                channel,
            }),
        )
    }

    /// The registration of a publication goes (REMOVE_PUBLICATION).
    pub fn remove_publication<R: Wait>(
        &mut self,
        rt: &R,
        registration: u64,
    ) -> Result<u64, PushFault>
        ensures { Commands self.old self.new (bodies.RemovePublication (record { registration = registration })) result }
    {
        self.push(rt, Body::RemovePublication(Removal { registration }))
    }

    /// A subscription goes (REMOVE_SUBSCRIPTION).
    pub fn remove_subscription<R: Wait>(
        &mut self,
        rt: &R,
        registration: u64,
    ) -> Result<u64, PushFault>
        ensures { Commands self.old self.new (bodies.RemoveSubscription (record { registration = registration })) result }
    {
        self.push(rt, Body::RemoveSubscription(Removal { registration }))
    }

    /// Names one more destination for a publication (ADD_DESTINATION).
    pub fn add_destination<R: Wait>(
        &mut self,
        rt: &R,
        registration: u64,
        channel: &str,
    ) -> Result<u64, PushFault>
        ensures { Commands self.old self.new (bodies.AddDestination (record { registration = registration; channel = channel.now })) result }
    {
        let channel = Text::new(self.alloc, channel)?;
        self.push(
            rt,
            Body::AddDestination(Destination {
                registration,
                channel,
            }),
        )
    }

    /// A destination of a publication goes (REMOVE_DESTINATION).
    pub fn remove_destination<R: Wait>(
        &mut self,
        rt: &R,
        registration: u64,
        channel: &str,
    ) -> Result<u64, PushFault>
        ensures { Commands self.old self.new (bodies.RemoveDestination (record { registration = registration; channel = channel.now })) result }
    {
        let channel = Text::new(self.alloc, channel)?;
        self.push(
            rt,
            Body::RemoveDestination(Destination {
                registration,
                channel,
            }),
        )
    }

    /// Asks for a counter, which begins at 0 (ADD_COUNTER).
    pub fn add_counter<R: Wait>(
        &mut self,
        rt: &R,
        type_id: i32,
        key: ShortBytes<112>,
        label: ShortText<380>,
    ) -> Result<u64, PushFault>
        ensures { Commands self.old self.new (bodies.AddCounter (record { type_id = type_id; key = key; label = label })) result }
    {
        self.push(
            rt,
            Body::AddCounter(AddCounter {
                type_id,
                key,
                label,
            }),
        )
    }

    /// Sets a counter (SET_COUNTER).
    pub fn set_counter<R: Wait>(
        &mut self,
        rt: &R,
        registration: u64,
        value: i64,
    ) -> Result<u64, PushFault>
        ensures { Commands self.old self.new (bodies.SetCounter (record { registration = registration; value = value })) result }
    {
        self.push(
            rt,
            Body::SetCounter(SetCounter {
                registration,
                value,
            }),
        )
    }

    /// A counter goes (REMOVE_COUNTER).
    pub fn remove_counter<R: Wait>(&mut self, rt: &R, registration: u64) -> Result<u64, PushFault>
        ensures { Commands self.old self.new (bodies.RemoveCounter (record { registration = registration })) result }
    {
        self.push(rt, Body::RemoveCounter(Removal { registration }))
    }

    /// Says to the driver that the client is still there (CLIENT_KEEPALIVE).
    pub fn keepalive<R: Wait>(&mut self, rt: &R) -> Result<u64, PushFault>
        ensures { Commands self.old self.new bodies.ClientKeepalive result }
    {
        self.push(rt, Body::ClientKeepalive)
    }

    /// The client goes, with all that it registered (CLIENT_CLOSE).
    pub fn close<R: Wait>(&mut self, rt: &R) -> Result<u64, PushFault>
        ensures { Commands self.old self.new bodies.ClientClose result }
    {
        self.push(rt, Body::ClientClose)
    }

    /// Asks that the driver end (TERMINATE_DRIVER).
    pub fn terminate<R: Wait>(&mut self, rt: &R) -> Result<u64, PushFault>
        ensures { Commands self.old self.new (bodies.TerminateDriver (record { token = [] })) result }
    {
        let token = Bytes::new(self.alloc, &[])?;
        self.push(rt, Body::TerminateDriver(TerminateDriver { token }))
    }
}

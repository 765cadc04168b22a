//! A client's share of the queue: so many of its commands may lie there that the conductor has not taken.
//!
//! For each of them a mark stands in a ring, which the conductor takes out with the command. A mark is put in before its
//! command is pushed, so whoever takes the command finds it. One whose command the queue refused is kept for the next.

ghost use Rattle.media_agents.specs.Sharing.{Acknowledges, IsFull, SendsNone, Sends};
ghost use Rattle.std.specs.Prelude.{◌≡◌, [], IfOk, MatchResult, OnErr};

use crate::posting::EventSender;
use command_queue::Refused;
use driver_core::Event;
use rtrb::{Consumer, Producer, RingBuffer};
use std::alloc::{AllocError, Global};
use std::marker::Model;
use std::sync::Wait;

/// How many commands of one client may lie in the queue that the conductor has not taken.
pub const SHARE: usize = 256;

/// What stands in a ring for one command.
const MARK: u8 = 1;

/// A client's way into the queue, within its share. It may go to another thread.
#[derive(Drop)]
pub struct CommandSender {
    sender: EventSender,
    marks: Producer<u8, Global>,
    /// Whether the last mark is that of the next command.
    spare: bool,
}

impl Model for CommandSender {
    ghost use Rattle.media_agents.specs.Sharing.{Sharing, count_of};
    ghost use Rattle.rtrb.specs.Ring.{known_free, sent};
    ghost use Rattle.std.specs.Prelude.{◌≡◌, ◌≤◌, ◌+◌, ◌-◌, length};

    ghost Value = { Sharing };

    ghost view = { λ it. record { queue = it.sender; acknowledged = (known_free it.marks + length (sent it.marks)) - 256 } };

    ghost invariant = { λ it. (length (sent it.marks) ≡ length it.sender.sent + count_of it.spare)
        × (256 ≤ known_free it.marks + length (sent it.marks)) };
}

impl CommandSender {
    /// A log over datagrams took a message: the sender is woken where it sleeps.
    pub fn wake_sender(&self) {
        self.sender.wake_sender();
    }

    /// Messages of an image were taken: the receiver is woken where it sleeps.
    pub fn wake_receiver(&self) {
        self.sender.wake_receiver();
    }

    /// Puts a command at the back of the queue.
    ///
    /// # Errors
    /// `Refused` hands it back, only where 256 more were pushed by this sender than it knows the conductor to have taken, or
    /// where the queue held 1,024 events at one moment of the call. Nothing was sent then. It takes no memory.
    pub fn push<R: Wait>(&mut self, rt: &R, command: Event) -> Result<(), Refused<Event>>
        ensures sent { MatchResult result (λ _. Sends command self.old self.new) (λ refused. (refused.0 ≡ command) × SendsNone self.old self.new) }
        ensures full { OnErr result (IsFull self.new) }
    {
        let CommandSender {
            sender,
            marks,
            spare,
        } = self;
        if !*spare && marks.push(MARK).is_err() {
            return Err(Refused(command));
        }
        *spare = true;
        sender.push(rt, command)?;
        *spare = false;
        Ok(())
    }
}

/// By what the conductor acknowledges the commands of a client.
#[derive(Drop)]
pub struct Acknowledgements {
    marks: Consumer<u8, Global>,
}

impl Model for Acknowledgements {
    ghost use Rattle.media_agents.specs.Sharing.{Acknowledging};
    ghost use Rattle.rtrb.specs.Ring.{known_items, received};
    ghost use Rattle.std.specs.Prelude.{length};

    ghost Value = { Acknowledging };

    ghost view = { λ it. record { acknowledged = length (received it.marks); marks = length (known_items it.marks) } };
}

impl Acknowledgements {
    /// One command more was taken out of the queue.
    pub(crate) fn add(&mut self)
        ensures { Acknowledges self.old self.new }
    {
        let _ = self.marks.pop();
    }
}

/// A client's share of the queue to which that sender pushes: the client's end, and the conductor's.
pub fn share(
    alloc: Global,
    sender: EventSender,
) -> Result<(CommandSender, Acknowledgements), AllocError>
    requires { sender.sent ≡ [] }
    ensures sender { IfOk result (λ ends. ends.0 ≡ record { queue = sender; acknowledged = 0 }) }
    ensures acknowledged { IfOk result (λ ends. ends.1 ≡ record { acknowledged = 0; marks = 0 }) }
{
    let (producer, consumer) = RingBuffer::new(alloc, SHARE)?;
    let ours = CommandSender {
        sender,
        marks: producer,
        spare: false,
    };
    Ok((ours, Acknowledgements { marks: consumer }))
}

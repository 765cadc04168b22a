//! A client, as a connection uses it.

ghost use Rattle.driver_service.specs.Calls.{Call, Command, Image, Look, Mail as Mailed, Offer, Poll, Publication, Stay, Value, Writes, refusal_of};
ghost use Rattle.std.specs.Prelude.{◌≡◌, [], Ok};

use crate::positions::{ImagePositions, PublicationPositions};
use crate::reason::{Reason, Refusal};

/// A client of a driver, as a connection uses it. Each call is one call of that client, and of no other. What is answered by
/// several records is written at the end of `out`.
pub trait Seat {
    /// What a call makes of the client, by what it was answered.
    ghost does: { Self → Call → Self → Type 0 };

    /// The client is heard of. It says so to the driver often enough.
    fn stay(&mut self)
        ensures { does self.old Stay self.new };

    /// The bytes go to the driver as a command over this client's handle, whatever they are.
    fn command(&mut self, bytes: &[u8]) -> Result<(), Refusal>
        ensures { does self.old (Command bytes.now (refusal_of result)) self.new };

    /// A message is offered. The position after it.
    fn offer(&mut self, registration: u64, message: &[u8]) -> Result<u64, Refusal>
        ensures { does self.old (Offer registration message.now result) self.new };

    /// A log is polled: a FRAGMENT for each fragment. How many there are; of none nothing is written.
    fn poll(
        &mut self,
        subscription: u64,
        source: u64,
        limit: u32,
        out: &mut Vec<u8>,
    ) -> Result<u32, Refusal>
        ensures { Writes out.old.items out.new.items (λ bytes. does self.old (Poll subscription source limit bytes result) self.new × (result ≡ Ok 0 → bytes ≡ [])) };

    /// The next reply is taken: one REPLY. Whether there was one.
    fn mail(&mut self, out: &mut Vec<u8>) -> Result<bool, Refusal>
        ensures { Writes out.old.items out.new.items (λ bytes. does self.old (Mailed bytes result) self.new) };

    /// The counters that the client may see: a ROW for each. How many there are.
    fn list(&mut self, out: &mut Vec<u8>) -> Result<u32, Refusal>
        ensures { Writes out.old.items out.new.items (λ bytes. does self.old (Look bytes result) self.new) };

    /// The value of a counter.
    fn value(&mut self, number: u64) -> Result<i64, Refusal>
        ensures { does self.old (Value number result) self.new };

    /// How far a publication of the client's has come.
    fn publication_positions(&mut self, registration: u64) -> Result<PublicationPositions, Refusal>
        ensures { does self.old (Publication registration result) self.new };

    /// How far a subscription of the client's has come with a log.
    fn image_positions(&mut self, subscription: u64, source: u64) -> Result<ImagePositions, Refusal>
        ensures { does self.old (Image subscription source result) self.new };

    /// Why the client is gone, where it is.
    fn gone(&self) -> Option<Reason>;
}

/// What a connection does while a request waits.
pub trait Pauses {
    /// Lets others go on for a while: until something may have come, and for `longest` nanoseconds at most. `turn` counts the
    /// pauses of this wait. Whether to wait on: not where the other end of the connection is gone.
    fn pause(&mut self, turn: u32, longest: u64) -> bool;

    /// Whether the driver stops.
    fn is_stopping(&self) -> bool;
}

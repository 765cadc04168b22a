ghost use Rattle.media_wire.specs.Events.{Event, counted, read_event, sent_event};
ghost use Rattle.media_wire.specs.Letters.{letter};
ghost use Rattle.std.specs.Prelude.{◌≡◌, ◌≤◌, ◌++◌, ◌∷◌, [], List, IfOk, IfSome, length};

use channel_uri::Address;

/// A call of a wire failed, and its failures count one more.
#[derive(Clone, Copy, Debug, PartialEq, Eq)]
pub struct WireFault;

/// What datagrams are sent and read by. None of its calls waits for a datagram.
pub trait Wire {
    /// These are all calls of the wire so far, as far as is known: what each sent or read, or that it failed.
    ghost went: { Self → List Event → Type 0 };

    /// Sends a datagram from one address to another.
    ///
    /// # Errors
    /// Where it was not sent; the failures count one more.
    fn send(&mut self, local: &Address, to: &Address, bytes: &[u8]) -> Result<(), WireFault>
        ensures { (events : List Event) → went self.old events
            → went self.new (events ++ sent_event (letter local.now to.now bytes.now) result ∷ []) };

    /// Reads the next datagram that came to an address: puts it at the beginning of the buffer, and answers its length and the
    /// address that it came from. `None` where none is there.
    ///
    /// # Errors
    /// Where that is not known; the failures count one more.
    fn recv(
        &mut self,
        local: &Address,
        buffer: &mut [u8],
    ) -> Result<Option<(usize, Address)>, WireFault>
        requires { 65507 ≤ length buffer.old }
        ensures within { IfOk result (λ read. IfSome read (λ datagram. datagram.0 ≤ length buffer.new)) }
        ensures event { (events : List Event) → went self.old events
            → went self.new (events ++ read_event local.now buffer.new result ∷ []) };

    /// A turn of the caller is over, as the caller says once at the end of each. A wire that keeps sockets closes those that were
    /// not used since the turn before ended; others do nothing. Datagrams neither come nor go by it, and it can't fail.
    fn turn_ended(&mut self)
        ensures { (events : List Event) → went self.old events → went self.new events }
    {}

    /// By what it may be waited for that a datagram comes to an address: the descriptor of the socket there. `None` where none is
    /// open, and for a wire without sockets.
    fn descriptor(&self, local: &Address) -> Option<i32> {
        None
    }

    /// How many calls failed so far, or the greatest `u64` where there are more.
    fn failures(&self) -> u64
        ensures { (events : List Event) → went self.now events → result ≡ counted events };
}

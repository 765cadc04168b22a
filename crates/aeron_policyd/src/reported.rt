//! A wire that notes that a stream was announced to nobody, and the least position that was reported. A look at the log may come
//! after both, and after further reports, of which the log keeps the greatest: it is the first that says whether a subscriber goes
//! on where it was. It also notes in which streams something is asked for again: a look at an image does not show that it lacks
//! anything.

ghost use Rattle.media_wire.specs.Events.{Event};
ghost use Rattle.std.specs.Prelude.{List};

use channel_uri::Address;
use frame_codec::{Datagram, Nak, Packet, Setup, StatusMessage, position};
use media_wire::{Wire, WireFault};
use rtrb::Producer;
use std::alloc::Global;
use std::sync::Arc;
use std::sync::atomic::{AtomicU64, Ordering};

/// The least of positions that were noted since it was taken last, as threads share it; the greatest number where none was.
#[derive(Drop)]
struct Least {
    position: AtomicU64,
}

impl Least {
    fn new() -> Least {
        Least {
            position: AtomicU64::new(u64::MAX),
        }
    }

    fn note(&self, position: u64) {
        self.position.fetch_min(position, Ordering::SeqCst);
    }

    fn take(&self) -> u64 {
        self.position.swap(u64::MAX, Ordering::SeqCst)
    }
}

/// What was noted of the stream that is sent.
#[derive(Drop)]
pub(crate) struct Notes {
    reported: Least,
    announced: Least,
}

impl Notes {
    pub(crate) fn new() -> Notes {
        Notes {
            reported: Least::new(),
            announced: Least::new(),
        }
    }

    /// The least position that was reported since this was asked last; the greatest number where none was.
    pub(crate) fn take_reported(&self) -> u64 {
        self.reported.take()
    }

    /// The position of the first SETUP since this was asked last for which nobody had asked: it went since nobody was there.
    pub(crate) fn take_announced(&self) -> Option<u64> {
        let position = self.announced.take();
        if position == u64::MAX {
            None
        } else {
            Some(position)
        }
    }
}

/// The position that a SETUP names.
fn position_at(setup: &Setup) -> u64 {
    position(
        setup.initial_term_id,
        setup.active_term_id,
        setup.term_offset,
        setup.term_length.cast_unsigned(),
    )
}

/// Whether a status message is of the stream that a SETUP announced.
fn is_of(setup: &Setup, message: &StatusMessage) -> bool {
    setup.session_id == message.session_id && setup.stream_id == message.stream_id
}

/// The position that a status message of that stream reports.
fn position_in(setup: &Setup, message: &StatusMessage) -> u64 {
    position(
        setup.initial_term_id,
        message.consumption_term_id,
        message.consumption_term_offset,
        setup.term_length.cast_unsigned(),
    )
}

/// What is known of the stream that is sent.
#[derive(Drop)]
struct Noted {
    notes: Arc<Notes>,
    /// The last SETUP that was sent.
    setup: Option<Setup>,
    /// The address from which it was sent.
    from: Option<Address>,
    /// Whether one was sent since that address was read last. Each turn of the sender reads it first, so all SETUPs of a turn, which
    /// go to one destination each, are of one round.
    begun: bool,
    /// Whether one was asked for since the last round.
    asked: bool,
    /// Takes the session of each NAK that is sent, as long as there is room.
    naks: Producer<i32, Global>,
}

impl Noted {
    /// A round of SETUPs begins with this one, unless it did before.
    fn begin(&mut self, local: &Address, setup: &Setup) {
        if self.begun {
            return;
        }
        if !self.asked {
            self.notes.announced.note(position_at(setup));
        }
        self.asked = false;
        self.begun = true;
        self.from = Some(*local);
    }

    /// A datagram is sent. A SETUP and a NAK have these lengths.
    fn send(&mut self, local: &Address, bytes: &[u8]) {
        if bytes.len() != Setup::SIZE && bytes.len() != Nak::SIZE {
            return;
        }
        match Datagram::read(bytes) {
            Ok(Packet::Setup(setup)) => {
                self.begin(local, &setup);
                self.setup = Some(setup);
            }
            Ok(Packet::Nak(nak)) => {
                // a gap that stands is asked for again
                let _ = self.naks.push(nak.session_id);
            }
            _ => {}
        }
    }

    /// An address is read: that from which SETUPs are sent, in a new turn.
    fn look(&mut self, local: &Address) {
        if let Some(from) = self.from {
            if from.is(local) {
                self.begun = false;
            }
        }
    }

    /// A datagram came. To who sends no SETUP nobody reports.
    fn read(&mut self, bytes: &[u8]) {
        let Some(setup) = self.setup else {
            return;
        };
        let Ok(Packet::Sm(message)) = Datagram::read(bytes) else {
            return;
        };
        if !is_of(&setup, &message) {
            return;
        }
        if message.flags.asks_for_setup() {
            self.asked = true;
        } else {
            self.notes.reported.note(position_in(&setup, &message));
        }
    }
}

/// A wire that notes what is announced and reported.
#[derive(Drop)]
pub(crate) struct Reported<W> {
    wire: W,
    noted: Noted,
}

impl<W> Reported<W> {
    pub(crate) fn new(wire: W, notes: Arc<Notes>, naks: Producer<i32, Global>) -> Reported<W> {
        Reported {
            wire,
            noted: Noted {
                notes,
                setup: None,
                from: None,
                begun: false,
                asked: false,
                naks,
            },
        }
    }
}

impl<W: Wire> Wire for Reported<W> {
    ghost went = { λ reported events. W.went reported.wire events };

    fn send(&mut self, local: &Address, to: &Address, bytes: &[u8]) -> Result<(), WireFault> {
        self.noted.send(local, bytes);
        self.wire.send(local, to, bytes)
    }

    fn recv(
        &mut self,
        local: &Address,
        buffer: &mut [u8],
    ) -> Result<Option<(usize, Address)>, WireFault> {
        self.noted.look(local);
        match self.wire.recv(local, buffer) {
            Ok(Some((length, from))) => {
                self.noted.read(&buffer[..length]);
                Ok(Some((length, from)))
            }
            Ok(None) => Ok(None),
            Err(fault) => Err(fault),
        }
    }

    fn turn_ended(&mut self)
        ensures kept { (events : List Event) → W.went self.old.wire events → W.went self.new.wire events }
    {
        self.wire.turn_ended();
    }

    fn descriptor(&self, local: &Address) -> Option<i32> {
        self.wire.descriptor(local)
    }

    fn failures(&self) -> u64 {
        self.wire.failures()
    }
}

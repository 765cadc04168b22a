//! Endpoints that are to be destinations of publications which learn theirs: from each the receiver sends a status message to
//! its publication, until an image is open there.

ghost use Rattle.media_agents.specs.Acts.{GoesOn, Trail};
ghost use Rattle.media_agents.specs.Eliciting.{Elicits, IsAsked, IsFull, eliciting_bytes, is_among, is_due, is_it, is_past, letters_due, looked_at, with_handed};
ghost use Rattle.media_agents.specs.Traffic.{AreTried};
ghost use Rattle.published_registry.specs.Histories.{IsContinuedBy};
ghost use Rattle.std.specs.Prelude.{◌≡◌, ◌∷◌, [], IfOk, List, MatchResult, Option, map};

use crate::listing::add;
use crate::stepping::Stepping;
use crate::telling::send;
use channel_uri::Address;
use driver_core::{Registry, View};
use frame_codec::{Flags, StatusMessage, write_sm};
use media_wire::Wire;
use published_registry::Pass;
use rows::{Change, Rows};
use rtrb::{Consumer, Producer, RingBuffer};
use std::alloc::{AllocError, Global};
use std::marker::Model;
use std::sync::Wait;

/// How long after one status message the next goes out, in nanoseconds.
const INTERVAL: u64 = 1_000_000_000;

/// An endpoint that is to be a destination of a publication which learns its destinations. As long as no image of that session
/// and stream is open there, the receiver sends a status message that asks for a SETUP, once a second.
#[derive(Clone, Copy, Debug, PartialEq, Eq)]
pub struct Elicitation {
    /// The address from which it is sent, which the publication learns.
    pub endpoint: Address,
    /// The address to which it is sent, at which the publication learns its destinations.
    pub control: Address,
    /// The session id of the publication.
    pub session_id: i32,
    /// The stream id of the publication.
    pub stream_id: i32,
}

/// Why the receiver is not to elicit one more.
#[derive(Clone, Copy, Debug, PartialEq, Eq)]
pub enum ElicitFault {
    /// There are 32 already.
    Full,
}

/// One that the receiver keeps.
#[derive(Clone, Copy, Debug, PartialEq, Eq)]
pub struct Wanted {
    pub elicitation: Elicitation,
    /// The moment at which it was sent last, in nanoseconds; `None` where it never was.
    pub sent: Option<u64>,
    /// Whether it was due by the last look.
    pub due: bool,
}

/// All that the receiver was asked to elicit: the end of a driver's owner.
#[derive(Drop)]
pub struct Elicitations {
    all: Rows<Elicitation, 32>,
    ring: Producer<Elicitation, Global>,
}

impl Model for Elicitations {
    ghost use Rattle.media_agents.specs.declared.eliciting.Elicitation.{Elicitation as It};
    ghost use Rattle.rtrb.specs.Ring.{known_free, sent};
    ghost use Rattle.std.specs.Prelude.{◌≡◌, ◌+◌, List, length};

    ghost Value = { List It };

    ghost view = { λ elicitations. elicitations.all };

    ghost invariant = { λ elicitations. (sent elicitations.ring ≡ elicitations.all)
        × (known_free elicitations.ring + length elicitations.all ≡ 32) };
}

/// Those that the receiver was handed: its own end.
#[derive(Drop)]
pub struct Elicited {
    ring: Consumer<Elicitation, Global>,
    wanted: Rows<Wanted, 32>,
}

impl Model for Elicited {
    ghost use Rattle.media_agents.specs.Eliciting.{Eliciting};
    ghost use Rattle.rtrb.specs.Ring.{received};

    ghost Value = { Eliciting };

    ghost view = { λ elicited. record { handed = received elicited.ring; wanted = elicited.wanted } };
}

/// The two ends, before anything is asked.
pub fn make_elicitations(alloc: Global) -> Result<(Elicitations, Elicited), AllocError>
    ensures { IfOk result (λ ends. (ends.0 ≡ []) × (ends.1 ≡ record { handed = []; wanted = [] })) }
{
    let (producer, consumer) = RingBuffer::new(alloc, 32)?;
    let all = Rows::new(alloc)?;
    let wanted = Rows::new(alloc)?;
    let ours = Elicitations {
        all,
        ring: producer,
    };
    let theirs = Elicited {
        ring: consumer,
        wanted,
    };
    Ok((ours, theirs))
}

impl Elicitation {
    /// Whether the other is the same.
    fn is(&self, other: &Elicitation) -> bool
        ensures { result ≡ is_it other.now self.now }
    {
        self.endpoint.is(&other.endpoint)
            && self.control.is(&other.control)
            && self.session_id == other.session_id
            && self.stream_id == other.stream_id
    }
}

/// Whether it is among these.
fn is_among(all: &[Elicitation], elicitation: &Elicitation) -> bool
    ensures { result ≡ is_among all.now elicitation.now }
{
    all.iter().any(|other| other.is(elicitation))
}

impl Elicitations {
    /// It is handed to the receiver, unless it was before. It takes no memory.
    ///
    /// # Errors
    /// `Full` where there are 32 others, and nothing is changed.
    pub fn add(&mut self, elicitation: Elicitation) -> Result<(), ElicitFault>
        ensures { MatchResult result (λ _. IsAsked elicitation self.old self.new) (λ _. IsFull elicitation self.old × (self.new ≡ self.old)) }
    {
        if is_among(self.all.as_slice(), &elicitation) {
            return Ok(());
        }
        if self.all.len() >= 32 {
            return Err(ElicitFault::Full);
        }
        self.all.push(elicitation);
        self.ring.push_reserved(elicitation);
        Ok(())
    }
}

/// Whether none was sent yet, or the last one a second ago or earlier.
fn is_past(sent: Option<u64>, now: u64) -> bool
    ensures { result ≡ is_past now sent }
{
    match sent {
        Some(sent) => now.saturating_sub(sent) >= INTERVAL,
        None => true,
    }
}

/// Whether one goes out, by that registry.
fn is_due(registry: &Registry, now: u64, wanted: &Wanted) -> bool
    ensures { result ≡ is_due registry.now now wanted.now }
{
    if !is_past(wanted.sent, now) {
        return false;
    }
    let it = &wanted.elicitation;
    let image = registry.image_named(&it.endpoint, it.session_id, it.stream_id);
    image.is_none()
}

/// Those that are due are marked, with the moment.
#[derive(Clone, Copy)]
struct Look<'a> {
    registry: &'a Registry,
    now: u64,
}

impl Change<Wanted> for Look<'_> {
    ghost changed = { λ look wanted. looked_at look.registry.now look.now wanted };

    fn change(&self, row: &mut Wanted) {
        row.due = is_due(self.registry, self.now, row);
        if row.due {
            row.sent = Some(self.now);
        }
    }
}

impl Elicited {
    /// One that was handed over joins the others.
    fn take(&mut self)
        ensures { (handed : Option Elicitation) × (self.new ≡ with_handed handed self.old) }
    {
        if let Ok(elicitation) = self.ring.pop() {
            add(
                &mut self.wanted,
                Wanted {
                    elicitation,
                    sent: None,
                    due: false,
                },
            );
        }
    }

    /// Those that are due by that registry are marked.
    fn look(&mut self, registry: &Registry, now: u64)
        ensures { self.new ≡ record self.old { wanted = map (looked_at registry.now now) self.old.wanted } }
    {
        self.wanted.change(&Look { registry, now });
    }
}

/// The status message of the receiver of that id, as it is written.
fn message_of(receiver_id: u64, elicitation: &Elicitation) -> [u8; StatusMessage::SIZE]
    ensures { result ≡ eliciting_bytes receiver_id elicitation.now }
{
    let message = StatusMessage {
        flags: Flags::SEND_SETUP,
        session_id: elicitation.session_id,
        stream_id: elicitation.stream_id,
        consumption_term_id: 0,
        consumption_term_offset: 0,
        receiver_window: 0,
        receiver_id,
    };
    let mut bytes = [0; StatusMessage::SIZE];
    write_sm(&mut bytes, &message);
    bytes[5] = Flags::SEND_SETUP.bits;
    bytes
}

/// Sends one, if it is due.
fn send_if<R: Wait, S: Stepping, W: Wire>(
    rt: &R,
    steps: &mut S,
    wire: &mut W,
    receiver_id: u64,
    wanted: &Wanted,
)
    ensures { GoesOn (AreTried (letters_due receiver_id (wanted.now ∷ []))) (Trail (S.did steps.old) (W.went wire.old)) (Trail (S.did steps.new) (W.went wire.new)) }
{
    if !wanted.due {
        return;
    }
    let it = &wanted.elicitation;
    let bytes = message_of(receiver_id, it);
    send(rt, steps, wire, &it.endpoint, &it.control, &bytes);
}

/// Sends one for each that is due, in their order.
fn send_each<R: Wait, S: Stepping, W: Wire>(
    rt: &R,
    steps: &mut S,
    wire: &mut W,
    receiver_id: u64,
    all: &[Wanted],
)
    ensures { GoesOn (AreTried (letters_due receiver_id all.now)) (Trail (S.did steps.old) (W.went wire.old)) (Trail (S.did steps.new) (W.went wire.new)) }
{
    for wanted in all {
        send_if(rt, steps, wire, receiver_id, wanted);
    }
}

/// What a turn of the receiver does: one that was handed over joins the others, and then a status message goes out for each that
/// is due by a look. None is where there is no look.
pub(crate) fn elicit<R: Wait, S: Stepping, W: Wire>(
    rt: &R,
    steps: &mut S,
    pass: Pass,
    wire: &mut W,
    elicited: &mut Elicited,
    now: u64,
) -> Pass
    ensures known { IsContinuedBy pass result }
    ensures wire { GoesOn (Elicits now pass result elicited.old elicited.new) (Trail (S.did steps.old) (W.went wire.old)) (Trail (S.did steps.new) (W.went wire.new)) }
{
    elicited.take();
    match steps.look(pass) {
        Ok(look) => {
            let registry = look.registry();
            elicited.look(registry, now);
            let receiver_id = registry.settings().receiver_id;
            let pass = look.leave();
            send_each(rt, steps, wire, receiver_id, elicited.wanted.as_slice());
            pass
        }
        Err(pass) => pass,
    }
}

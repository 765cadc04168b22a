//! All memory that a driver needs beside its parts is taken before a thread begins.

ghost use Rattle.media_driver.specs.Parts.{AreFresh};
ghost use Rattle.std.specs.Prelude.{◌≡◌, ◌+◌, ◌*◌, ◌^◌, [], IfOk, OnOk, length};

use crate::parts::{Blanks, Hands, Pieces, Store};
use crate::seats::{Seats, make_seats};
use crate::starting::{Base, Common, Ledger, make_base, shared};
use crate::works::{Receiving, Sending};
use channel_uri::Address;
use command_queue::Taker;
use driver_core::Event;
use log_arena::Arena;
use media_agents::{
    DriverNaming, Elicitations, Elicited, EventSender, Gate, ReceiverAgent, Rings, SenderAgent,
    Steps, make_elicitations,
};
use media_wire::{Shared, Wire};
use rows::Rows;
use std::alloc::{AllocError, Global};
use std::sync::atomic::AtomicBool;
use std::sync::{Arc, Wait};

/// The two ends of the wire.
#[derive(Drop)]
pub(crate) struct Wires<W: Wire + Drop, R: Wait + Copy + Drop> {
    ours: Shared<W, R>,
    theirs: Shared<W, R>,
}

/// One wire for the sender and the receiver.
fn make_wires<W: Wire + Drop, R: Wait + Copy + Drop>(
    alloc: Global,
    rt: R,
    wire: W,
) -> Result<Wires<W, R>, AllocError> {
    let ours = Shared::new(alloc, rt, wire)?;
    let theirs = ours.another()?;
    Ok(Wires { ours, theirs })
}

/// What a thread begins with: what takes turns on it, and what says that it is to end.
#[derive(Drop)]
pub(crate) struct Ready<T: Drop> {
    pub(crate) turns: T,
    pub(crate) stop: Arc<AtomicBool>,
}

/// The sender before its first turn.
fn make_sender<N: DriverNaming, G: Gate + Drop, W: Wire + Drop>(
    alloc: Global,
    common: &Common<N>,
    gate: &Arc<G>,
    hands: &mut Hands,
    local: Address,
    wire: W,
) -> Result<Ready<Sending<N, G, W>>, AllocError>
    requires fresh { AreFresh N.book hands.old.passes.items hands.old.senders.items }
    requires passes { length hands.old.passes.items ≡ 66 }
    ensures fresh { OnOk result (AreFresh N.book hands.new.passes.items hands.new.senders.items) }
    ensures passes { OnOk result (length hands.new.passes.items ≡ 65) }
    ensures senders { OnOk result (hands.new.senders ≡ hands.old.senders) }
{
    let steps = Steps::new(Arc::try_clone(&common.slots)?);
    let gate = Arc::try_clone(gate)?;
    let agent = SenderAgent::new(alloc, steps, gate, hands.pass::<N>(), local)?;
    Ok(Ready {
        turns: Sending { agent, wire },
        stop: Arc::try_clone(&common.stop)?,
    })
}

/// The receiver before its first turn.
fn make_receiver<N: DriverNaming, G: Gate + Drop, W: Wire + Drop>(
    alloc: Global,
    common: &Common<N>,
    gate: &Arc<G>,
    hands: &mut Hands,
    elicited: Elicited,
    wire: W,
) -> Result<Ready<Receiving<N, G, W>>, AllocError>
    requires fresh { AreFresh N.book hands.old.passes.items hands.old.senders.items }
    requires passes { length hands.old.passes.items ≡ 65 }
    requires senders { length hands.old.senders.items ≡ 66 }
    ensures fresh { OnOk result (AreFresh N.book hands.new.passes.items hands.new.senders.items) }
    ensures passes { OnOk result (length hands.new.passes.items ≡ 64) }
    ensures senders { OnOk result (length hands.new.senders.items ≡ 65) }
{
    let steps = Steps::new(Arc::try_clone(&common.slots)?);
    let gate = Arc::try_clone(gate)?;
    let pass = hands.pass::<N>();
    let queue = hands.sender::<N>();
    let agent = ReceiverAgent::new(alloc, steps, gate, pass, queue, elicited)?;
    Ok(Ready {
        turns: Receiving { agent, wire },
        stop: Arc::try_clone(&common.stop)?,
    })
}

/// The sender and the receiver of a driver, before their first turns.
#[derive(Drop)]
pub(crate) struct Agents<N: DriverNaming, G: Gate + Drop, W: Wire + Drop> {
    pub(crate) sender: Ready<Sending<N, G, W>>,
    pub(crate) receiver: Ready<Receiving<N, G, W>>,
}

/// Takes the memory of both.
fn make_agents<N: DriverNaming, R: Wait + Copy + Drop, G: Gate + Drop, W: Wire + Drop>(
    alloc: Global,
    common: &Common<N>,
    gate: &Arc<G>,
    hands: &mut Hands,
    local: Address,
    elicited: Elicited,
    wires: Wires<W, R>,
) -> Result<Agents<N, G, Shared<W, R>>, AllocError>
    requires fresh { AreFresh N.book hands.old.passes.items hands.old.senders.items }
    requires passes { length hands.old.passes.items ≡ 66 }
    requires senders { length hands.old.senders.items ≡ 66 }
    ensures fresh { OnOk result (AreFresh N.book hands.new.passes.items hands.new.senders.items) }
    ensures passes { OnOk result (length hands.new.passes.items ≡ 64) }
    ensures senders { OnOk result (length hands.new.senders.items ≡ 65) }
{
    let Wires { ours, theirs } = wires;
    let sender = make_sender(alloc, common, gate, hands, local, ours)?;
    let receiver = make_receiver(alloc, common, gate, hands, elicited, theirs)?;
    Ok(Agents { sender, receiver })
}

/// What the owner of a driver keeps of it.
#[derive(Drop)]
pub(crate) struct Kept<N: DriverNaming> {
    pub(crate) common: Common<N>,
    pub(crate) ledger: Ledger<N>,
    pub(crate) queue: EventSender,
    pub(crate) elicitations: Elicitations,
    pub(crate) seats: Seats<N>,
}

/// What the owner keeps, and the rings by which the conductor reaches the clients.
fn keep<N: DriverNaming>(
    alloc: Global,
    base: Base<N>,
    hands: Hands,
    elicitations: Elicitations,
) -> Result<(Kept<N>, Rings<N>), AllocError>
    requires fresh { AreFresh N.book hands.passes.items hands.senders.items }
    requires passes { length hands.passes.items ≡ 64 }
    requires senders { length hands.senders.items ≡ 65 }
    ensures ledger { IfOk result (λ made. made.0.ledger ≡ base.ledger) }
    ensures queue { IfOk result (λ made. made.0.queue.sent ≡ []) }
    ensures elicited { IfOk result (λ made. made.0.elicitations ≡ elicitations) }
    ensures seats { IfOk result (λ made. made.0.seats ≡ 64) }
{
    let mut hands = hands;
    let queue = hands.sender::<N>();
    let (rings, seats) = make_seats(alloc, &mut hands)?;
    let Base { common, ledger } = base;
    let kept = Kept {
        common,
        ledger,
        queue,
        elicitations,
        seats,
    };
    Ok((kept, rings))
}

/// What the conductor works with, but for the publisher.
#[derive(Drop)]
pub(crate) struct Desks<N: DriverNaming, G: Gate + Drop> {
    pub(crate) common: Common<N>,
    pub(crate) notes: Steps<N>,
    pub(crate) rings: Rings<N>,
    pub(crate) room: Rows<u64, 512>,
    pub(crate) gate: Arc<G>,
    pub(crate) arena: Arena,
    pub(crate) taker: Taker<Event>,
}

/// Takes its memory.
fn make_desks<N: DriverNaming, G: Gate + Drop>(
    alloc: Global,
    common: &Common<N>,
    rings: Rings<N>,
    gate: Arc<G>,
    store: Store,
) -> Result<Desks<N, G>, AllocError>
    ensures { IfOk result (λ desks. desks.arena ≡ store.arena) }
{
    let notes = Steps::new(Arc::try_clone(&common.slots)?);
    let common = common.again()?;
    let room = Rows::new(alloc)?;
    let Store { arena, taker } = store;
    Ok(Desks {
        common,
        notes,
        rings,
        room,
        gate,
        arena,
        taker,
    })
}

/// All that a driver is made of, but for the publisher, once its memory is taken.
#[derive(Drop)]
pub(crate) struct Prepared<N: DriverNaming, G: Gate + Drop, A: Drop> {
    pub(crate) kept: Kept<N>,
    pub(crate) desks: Desks<N, G>,
    /// The sender and the receiver.
    pub(crate) agents: A,
}

/// What stands below all agents: their gate, what they have in common, and the owner's end of the elicitations.
#[derive(Drop)]
struct Ground<N: DriverNaming, G: Gate + Drop> {
    gate: Arc<G>,
    base: Base<N>,
    ours: Elicitations,
}

/// What the sender and the receiver alone have: their ends of the wire, and the receiver's end of the elicitations.
#[derive(Drop)]
struct Lines<W: Wire + Drop, R: Wait + Copy + Drop> {
    wires: Wires<W, R>,
    theirs: Elicited,
}

/// Takes the memory of both.
fn make_ground<N: DriverNaming, R: Wait + Copy + Drop, G: Gate + Drop, W: Wire + Drop>(
    rt: R,
    alloc: Global,
    blanks: Blanks,
    gate: G,
    wire: W,
) -> Result<(Ground<N, G>, Lines<W, R>), AllocError>
    requires messages { (blanks.messages.name ≡ N.ledger) × (blanks.messages.parts ≡ N.parts) × (N.parts ≡ 321) }
    requires clients { (blanks.clients.name ≡ N.client_ledger) × (blanks.clients.parts ≡ N.client_parts) × (N.client_parts ≡ 65) }
    ensures counted { IfOk result (λ made. made.0.base.ledger.counted ≡ record { parts = 65; number = 0 }) }
    ensures clients { IfOk result (λ made. made.0.base.ledger.clients.parts ≡ 65) }
    ensures total { IfOk result (λ made. (made.0.base.ledger.total.amount ≡ 256 * 2 ^ 55) × (made.0.base.ledger.total.parts ≡ 321)) }
    ensures elicited { IfOk result (λ made. made.0.ours ≡ []) }
{
    let gate = shared(alloc, gate)?;
    let wires = make_wires(alloc, rt, wire)?;
    let (ours, theirs) = make_elicitations(alloc)?;
    let base = make_base(alloc, blanks)?;
    let ground = Ground { gate, base, ours };
    Ok((ground, Lines { wires, theirs }))
}

/// Takes the rest of the memory, once that of the agents is taken.
fn fit_out<N: DriverNaming, G: Gate + Drop, A: Drop>(
    alloc: Global,
    ground: Ground<N, G>,
    hands: Hands,
    store: Store,
    agents: A,
) -> Result<Prepared<N, G, A>, AllocError>
    requires fresh { AreFresh N.book hands.passes.items hands.senders.items }
    requires passes { length hands.passes.items ≡ 64 }
    requires senders { length hands.senders.items ≡ 65 }
    ensures arena { IfOk result (λ prepared. prepared.desks.arena ≡ store.arena) }
    ensures ledger { IfOk result (λ prepared. prepared.kept.ledger ≡ ground.base.ledger) }
    ensures queue { IfOk result (λ prepared. prepared.kept.queue.sent ≡ []) }
    ensures elicited { IfOk result (λ prepared. prepared.kept.elicitations ≡ ground.ours) }
    ensures seats { IfOk result (λ prepared. prepared.kept.seats ≡ 64) }
{
    let Ground { gate, base, ours } = ground;
    let (kept, rings) = keep(alloc, base, hands, ours)?;
    let desks = make_desks(alloc, &kept.common, rings, gate, store)?;
    Ok(Prepared {
        kept,
        desks,
        agents,
    })
}

/// Takes the memory of the agents, and the rest.
fn build_on<N: DriverNaming, R: Wait + Copy + Drop, G: Gate + Drop, W: Wire + Drop>(
    alloc: Global,
    ground: Ground<N, G>,
    lines: Lines<W, R>,
    hands: Hands,
    store: Store,
    local: Address,
) -> Result<Prepared<N, G, Agents<N, G, Shared<W, R>>>, AllocError>
    requires fresh { AreFresh N.book hands.passes.items hands.senders.items }
    requires passes { length hands.passes.items ≡ 66 }
    requires senders { length hands.senders.items ≡ 66 }
    ensures arena { IfOk result (λ prepared. prepared.desks.arena ≡ store.arena) }
    ensures ledger { IfOk result (λ prepared. prepared.kept.ledger ≡ ground.base.ledger) }
    ensures queue { IfOk result (λ prepared. prepared.kept.queue.sent ≡ []) }
    ensures elicited { IfOk result (λ prepared. prepared.kept.elicitations ≡ ground.ours) }
    ensures seats { IfOk result (λ prepared. prepared.kept.seats ≡ 64) }
{
    let mut hands = hands;
    let Lines { wires, theirs } = lines;
    let agents = make_agents(
        alloc,
        &ground.base.common,
        &ground.gate,
        &mut hands,
        local,
        theirs,
        wires,
    )?;
    fit_out(alloc, ground, hands, store, agents)
}

/// Takes the memory that a driver needs beside its parts.
pub(crate) fn prepare<N: DriverNaming, R: Wait + Copy + Drop, G: Gate + Drop, W: Wire + Drop>(
    rt: R,
    alloc: Global,
    pieces: Pieces,
    gate: G,
    wire: W,
) -> Result<Prepared<N, G, Agents<N, G, Shared<W, R>>>, AllocError>
    requires messages { (pieces.blanks.messages.name ≡ N.ledger) × (pieces.blanks.messages.parts ≡ N.parts) × (N.parts ≡ 321) }
    requires clients { (pieces.blanks.clients.name ≡ N.client_ledger) × (pieces.blanks.clients.parts ≡ N.client_parts) × (N.client_parts ≡ 65) }
    requires fresh { AreFresh N.book pieces.hands.passes.items pieces.hands.senders.items }
    requires passes { length pieces.hands.passes.items ≡ 66 }
    requires senders { length pieces.hands.senders.items ≡ 66 }
    ensures arena { IfOk result (λ prepared. prepared.desks.arena ≡ pieces.store.arena) }
    ensures counted { IfOk result (λ prepared. prepared.kept.ledger.counted ≡ record { parts = 65; number = 0 }) }
    ensures clients { IfOk result (λ prepared. prepared.kept.ledger.clients.parts ≡ 65) }
    ensures total { IfOk result (λ prepared. (prepared.kept.ledger.total.amount ≡ 256 * 2 ^ 55) × (prepared.kept.ledger.total.parts ≡ 321)) }
    ensures queue { IfOk result (λ prepared. prepared.kept.queue.sent ≡ []) }
    ensures elicited { IfOk result (λ prepared. prepared.kept.elicitations ≡ []) }
    ensures seats { IfOk result (λ prepared. prepared.kept.seats ≡ 64) }
{
    let Pieces {
        settings,
        store,
        hands,
        blanks,
        bells: _,
    } = pieces;
    let (ground, lines) = make_ground(rt, alloc, blanks, gate, wire)?;
    build_on(alloc, ground, lines, hands, store, settings.send_address)
}

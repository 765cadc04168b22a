ghost use Rattle.driver_core.specs.Soundness.{AreSettings};
ghost use Rattle.audit_ring.specs.Audit.{kept_of};
ghost use Rattle.driver_world.specs.Past.{IsShown, shown_state};
ghost use Rattle.driver_world.specs.Views.{IsAct, Looks, actor_of, at_moment, moment_of, reader_of};
ghost use Rattle.frame_codec.specs.Datagram.{Content, content, packet_of};
ghost use Rattle.frame_codec.specs.Steps.{Equals};
ghost use Rattle.frame_codec.specs.declared.fault.BadPacket.{BadPacket as Faults};
ghost use Rattle.std.specs.Prelude.{◌≡◌, ℕ, [], Some, None, Ok, Result, max, length, ◌<◌, option_copied, IfOk, IfErr, OnOk, OnErr};

use crate::actor::Actor;
use crate::audits::Audits;
use crate::kept::Kept;
use crate::past::{Registries, Shown};
use crate::reading::Reading;
use crate::seats::{AllSeats, Seat};
use audit_ring::Audit;
use byte_strings::Items;
use channel_uri::Address;
use driver_core::{Entry, Event, Inputs, Outcome, Peer, Registry, Settings, both};
use driver_steps::{Step, SteppedDriver};
use frame_codec::{BadPacket, Datagram, Packet, Setup};
use log_steps::{Answer, Answered, Came};
use policy_core::Policy;
use std::alloc::{AllocError, Global};
use std::marker::Model;

/// A driver that is run step by step, with what was decided for each actor, and the registries that they look at.
#[derive(Drop)]
pub struct World {
    driver: SteppedDriver,
    audits: Audits,
    past: Registries,
    seats: AllSeats,
}

impl Model for World {
    ghost use Rattle.driver_world.specs.Standing.{Held};

    ghost Value = { Held };

    ghost view = { λ world. record {
      driver = world.driver;
      audits = world.audits.audits;
      past = world.past.past;
      seats = world.seats.seats;
    } };
}

/// What an actor looks at.
#[derive(Drop)]
struct Look {
    /// The number of the registry.
    view: u64,
    /// That registry, where it is not the newest.
    older: Option<Shown>,
    /// The greatest moment of the actor's steps so far.
    moment: u64,
}

impl Look {
    /// The moment of a step by it: none is earlier than its actor's before.
    fn at(&self, now: u64) -> u64
        ensures { result ≡ max now self.now.moment }
    {
        now.max(self.moment)
    }

    /// The registry, where it is not the newest.
    fn older(&self) -> Option<&Registry>
        ensures { option_copied result ≡ shown_state self.now.older }
    {
        match &self.older {
            Some(shown) => Some(&shown.registry),
            None => None,
        }
    }
}

/// What the logs said at an event, and what it reports.
fn parts_of(entry: Entry) -> (Inputs, Outcome)
    ensures { result ≡ (entry.inputs, entry.outcome) }
{
    let Entry {
        event,
        inputs,
        outcome,
    } = entry;
    drop(event);
    (inputs, outcome)
}

/// Whose step a datagram is.
fn reader_of(read: &Result<Packet<'_>, BadPacket>) -> Actor
    ensures { (of : Result Content Faults) → Equals content read.now of → result ≡ reader_of of }
{
    match read {
        Ok(Packet::Setup(_)) => Actor::Conductor,
        Ok(Packet::Nak(_)) => Actor::Sender,
        Ok(Packet::Sm(_)) => Actor::Sender,
        _ => Actor::Receiver,
    }
}

/// Whose act it is, and its moment.
fn whose(step: &Step) -> (Actor, u64)
    requires { IsAct step.now }
    ensures is { result ≡ (actor_of step.now, moment_of step.now) }
    ensures looks { Looks (actor_of step.now) }
    ensures at { (moment : ℕ) → moment_of (at_moment moment step.now) ≡ max (moment_of step.now) moment }
{
    match step {
        Step::Offer { now, client, .. }
        | Step::Poll { now, client, .. }
        | Step::List { now, client }
        | Step::Value { now, client, .. } => (Actor::Client(*client), *now),
        Step::Send { now, .. } => (Actor::Sender, *now),
        Step::Image { now, .. } => (Actor::Receiver, *now),
        Step::Conductor(_) | Step::Packet { .. } => unreachable!(),
    }
}

impl World {
    ghost use Rattle.driver_core.specs.declared.state.event.Event.TheVariants.{Setup as SetUp};
    ghost use Rattle.driver_steps.specs.Standing.{pages_of_logs};
    ghost use Rattle.driver_steps.specs.declared.step.Step.TheVariants.{Conductor, Packet as Packets};
    ghost use Rattle.driver_world.specs.Audits.{IsAuditOf, kept_for};
    ghost use Rattle.driver_world.specs.Ends.{opening_end};
    ghost use Rattle.driver_world.specs.Standing.{StandsForEnd, Serves, Runs, Continues, Acts, IsLook, IsNoLook, Sits};
    ghost use Rattle.driver_world.specs.Views.{newest_of, seat_of};
    ghost use Rattle.log_arena.specs.Pages.{holes_of};

    /// A world in which nothing happened yet.
    #[tactic(auto, unfolding(crate::specs::Ends::opening_end))]
    pub fn new(
        alloc: Global,
        settings: Settings,
        policy: Policy,
        peers: &[Peer],
    ) -> Result<World, AllocError>
        requires { AreSettings settings }
        ensures { IfOk result (λ world. StandsForEnd world (opening_end settings policy peers.now)) }
    {
        let driver = SteppedDriver::new(alloc, settings, policy, peers)?;
        let opened = driver.registry().copy(alloc);
        let parts = both(driver, opened)?;
        let ((driver, opened), audits) = both(parts, Audits::new(alloc))?;
        Ok(World {
            driver,
            audits,
            past: Registries::new(alloc, opened),
            seats: AllSeats::new(alloc),
        })
    }

    /// The maximal runs of pages that no live log has, each as its place and its length in bytes, ascending: where a
    /// further log may lie. It takes no memory.
    pub fn holes(&self) -> &[(usize, usize)]
        ensures { result.now ≡ holes_of (pages_of_logs self.now.driver.registry) }
    {
        self.driver.holes()
    }

    /// What its driver is set to.
    pub fn settings(&self) -> Settings
        ensures { result ≡ self.now.driver.registry.settings }
    {
        self.driver.registry().settings()
    }

    /// The number of the newest registry. The opened one is 0, and each event that was taken makes one more.
    pub fn newest(&self) -> u64
        ensures { result ≡ newest_of self.now.past }
    {
        self.past.newest()
    }

    /// The number of the registry that the actor looked at last: a step of its own names none before that. 0 for the
    /// conductor, who names none, and for a client that no attach named.
    pub fn view(&self, actor: Actor) -> u64
        ensures { result ≡ (seat_of actor self.now.seats).view }
    {
        self.seats.get(actor).view
    }

    /// What the actor looks at, where it names that registry, or the newest.
    ///
    /// # Errors
    /// The answer of the step, where it may not look there, or there is no memory for the registry.
    #[inline(always)]
    fn look(&mut self, alloc: Global, actor: Actor, view: Option<u64>) -> Result<Look, Answer>
        ensures same { self.new ≡ self.old }
        ensures ok { IfOk result (λ look. IsLook self.old.past (seat_of actor self.old.seats) view look) }
        ensures err { IfErr result (λ answer. IsNoLook self.old.past (seat_of actor self.old.seats) view answer) }
    {
        let seat = self.seats.get(actor);
        let newest = self.past.newest();
        let view = view.unwrap_or(newest);
        if view < seat.view || newest < view {
            return Err(Answer::BadStep);
        }
        let older = if view == newest {
            None
        } else {
            match self.past.show(alloc, actor, view) {
                Ok(shown) => Some(shown),
                Err(_) => return Err(Answer::NoMemory),
            }
        };
        Ok(Look {
            view,
            older,
            moment: seat.moment,
        })
    }

    /// The actor took a step by that look, at that moment. One that was refused memory leaves it where it stood. The registry
    /// is kept for it, where it is not the newest.
    #[inline(always)]
    fn sit(&mut self, actor: Actor, look: Look, now: u64, answer: &Answer)
        requires { IsShown self.old.past look.older }
        ensures { Sits self.old self.new actor look.view now answer.now }
    {
        if !matches!(answer, Answer::NoMemory) {
            self.seats.set(
                actor,
                Seat {
                    view: look.view,
                    moment: now,
                },
            );
        }
        self.past.keep(actor, look.older);
    }

    /// The conductor takes an event. All memory that this needs is taken before anything is changed: then all that it decided is
    /// reported, a client that it attaches has an audit and a seat, and the event is kept.
    fn conduct(&mut self, alloc: Global, event: &Event) -> Answer
        ensures { Serves self.old self.new (record { view = None; step = Conductor event.now }) result }
    {
        let Ok(()) = self.past.make_room() else {
            return Answer::NoMemory;
        };
        let Ok(()) = self.seats.make_room() else {
            return Answer::NoMemory;
        };
        let Ok(kept) = Kept::of(alloc, event) else {
            return Answer::NoMemory;
        };
        let Ok(audit) = self.audits.make_room(alloc) else {
            return Answer::NoMemory;
        };
        match self.driver.take(alloc, event) {
            Ok(entry) => {
                let (inputs, outcome) = parts_of(entry);
                self.audits.tell_event(&outcome, audit);
                self.past.push(kept, inputs);
                self.seats.attach(outcome.response, self.past.newest());
                Answer::of(outcome)
            }
            Err(_) => {
                self.audits.put_back(audit);
                Answer::NoMemory
            }
        }
    }

    /// The conductor's step: it goes by the newest registry, and names none.
    fn conduct_at(&mut self, alloc: Global, view: Option<u64>, event: &Event) -> Answer
        ensures { Serves self.old self.new (record { view = view; step = Conductor event.now }) result }
    {
        match view {
            None => self.conduct(alloc, event),
            Some(_) => Answer::BadStep,
        }
    }

    /// A SETUP came to the address `local`, from the address `from`. An event is large, so other datagrams come to none.
    #[inline(never)]
    fn set_up(
        &mut self,
        alloc: Global,
        view: Option<u64>,
        now: u64,
        local: &Address,
        from: &Address,
        setup: Setup,
    ) -> Answer
        ensures { Serves self.old self.new (record { view = view; step = Conductor (SetUp now local.now from.now setup) }) result }
    {
        let event = Event::Setup {
            now,
            local: *local,
            from: *from,
            setup,
        };
        self.conduct_at(alloc, view, &event)
    }

    /// The sender or the receiver takes a datagram, of which `read` is what it holds. It is made once for each kind of datagram,
    /// so that each has the answers of its own kind alone.
    #[inline(always)]
    fn take(
        &mut self,
        alloc: Global,
        view: Option<u64>,
        now: u64,
        local: &Address,
        from: &Address,
        bytes: &[u8],
        read: Result<Packet<'_>, BadPacket>,
    ) -> Answer
        requires reads { Equals content read (packet_of bytes.now) }
        requires looks { Looks (reader_of (packet_of bytes.now)) }
        ensures { Serves self.old self.new (record { view = view; step = Packets now local.now from.now bytes.now }) result }
    {
        let actor = reader_of(&read);
        let look = match self.look(alloc, actor, view) {
            Ok(look) => look,
            Err(answer) => return answer,
        };
        let now = look.at(now);
        match self
            .driver
            .datagram(look.older(), alloc, now, local, from, bytes, read)
        {
            Came::SetUp(_) => unreachable!(),
            Came::Answered(told) => {
                self.audits.tell_sender(told.decision);
                self.sit(actor, look, now, &told.answer);
                told.answer
            }
        }
    }

    /// A datagram came to the address `local`, from the address `from`: a SETUP is an event; the frames of data and a
    /// heartbeat go to the image of that address, session and stream, where they are from its publisher; a NAK and a status
    /// message go to the publication of their session and stream, whatever address they came to.
    pub fn packet(
        &mut self,
        alloc: Global,
        view: Option<u64>,
        now: u64,
        local: &Address,
        from: &Address,
        bytes: &[u8],
    ) -> Answer
        ensures { Serves self.old self.new (record { view = view; step = Packets now local.now from.now bytes.now }) result }
    {
        match Datagram::read(bytes) {
            Ok(Packet::Setup(setup)) => self.set_up(alloc, view, now, local, from, setup),
            Ok(Packet::Data(frames)) => {
                self.take(
                    alloc,
                    view,
                    now,
                    local,
                    from,
                    bytes,
                    Ok(Packet::Data(frames)),
                )
            }
            Ok(Packet::Beat(header)) => {
                self.take(
                    alloc,
                    view,
                    now,
                    local,
                    from,
                    bytes,
                    Ok(Packet::Beat(header)),
                )
            }
            Ok(Packet::Nak(nak)) => {
                self.take(alloc, view, now, local, from, bytes, Ok(Packet::Nak(nak)))
            }
            Ok(Packet::Sm(message)) => {
                self.take(
                    alloc,
                    view,
                    now,
                    local,
                    from,
                    bytes,
                    Ok(Packet::Sm(message)),
                )
            }
            Err(fault) => self.take(alloc, view, now, local, from, bytes, Err(fault)),
        }
    }

    /// The driver takes an act by the registry that its actor looks at, and what is decided is reported to the actor.
    fn perform(&mut self, alloc: Global, look: &Look, step: &Step) -> Answer
        requires { IsAct step.now }
        ensures { Acts (shown_state look.now.older) self.old self.new (at_moment look.now.moment step.now) result }
    {
        let older = look.older();
        match step {
            Step::Offer {
                now,
                client,
                registration,
                message,
            } => {
                let now = look.at(*now);
                let message = message.as_slice();
                let told = self
                    .driver
                    .offer(older, now, *client, *registration, message);
                self.audits.tell_client(*client, told.decision);
                told.answer
            }
            Step::Poll {
                now,
                client,
                subscription,
                source,
                limit,
            } => {
                let now = look.at(*now);
                let told = self
                    .driver
                    .poll(older, alloc, now, *client, *subscription, *source, *limit);
                self.audits.tell_client(*client, told.decision);
                told.answer
            }
            Step::Send { now, source } => {
                let answer = self.driver.send(older, alloc, look.at(*now), *source);
                self.audits.tell_sent(&answer);
                answer
            }
            Step::Image { now, source } => {
                self.driver.report(older, alloc, look.at(*now), *source)
            }
            Step::List { now, client } => {
                let looked = self.driver.list(older, alloc, look.at(*now), *client);
                self.audits.tell_denials(*client, looked.denials.as_slice());
                looked.answer
            }
            Step::Value {
                now,
                client,
                number,
            } => {
                let told = self.driver.value(older, look.at(*now), *client, *number);
                self.audits.tell_client(*client, told.decision);
                told.answer
            }
            Step::Conductor(_) | Step::Packet { .. } => unreachable!(),
        }
    }

    /// A step that is neither an event nor a datagram.
    fn act(&mut self, alloc: Global, view: Option<u64>, step: &Step) -> Answer
        requires { IsAct step.now }
        ensures { Serves self.old self.new (record { view = view; step = step.now }) result }
    {
        let (actor, now) = whose(step);
        let look = match self.look(alloc, actor, view) {
            Ok(look) => look,
            Err(answer) => return answer,
        };
        let answer = self.perform(alloc, &look, step);
        let now = look.at(now);
        self.sit(actor, look, now, &answer);
        answer
    }

    /// Takes one step, by the registry that it names. One that its actor may not look at is answered [`Answer::BadStep`], and
    /// changes nothing. By the newest registry, no offer, no look at one counter and no poll that is gone or denied is answered
    /// [`Answer::NoMemory`]; an older registry is made again, which takes memory.
    pub fn step(&mut self, alloc: Global, reading: &Reading) -> Answer
        ensures { Serves self.old self.new reading.now result }
    {
        let view = reading.view;
        match &reading.step {
            Step::Conductor(event) => self.conduct_at(alloc, view, event),
            Step::Packet {
                now,
                local,
                from,
                bytes,
            } => self.packet(alloc, view, *now, local, from, bytes.as_slice()),
            step => self.act(alloc, view, step),
        }
    }

    /// Takes the steps in their order, and gives the answer of each. For every run that led to this world, the answers
    /// continue that run; only steps that may take memory are answered [`Answer::NoMemory`].
    ///
    /// # Errors
    /// Where there is no memory for the list of answers, no step is taken.
    pub fn run(&mut self, alloc: Global, readings: &[Reading]) -> Result<Items<Answer>, AllocError>
        ensures runs { IfOk result (λ answers. Runs self.old self.new readings.now answers) }
        ensures continues { IfOk result (λ answers. Continues self.old self.new readings.now answers) }
        ensures err { OnErr result (self.new ≡ self.old) }
    {
        let mut answers = Vec::with_capacity(alloc, readings.len())?;
        for reading in readings {
            let answer = self.step(alloc, reading);
            match answers.push(answer) {
                Ok(()) => {}
                Err(_) => unreachable!(),
            }
        }
        Ok(Items::from(answers))
    }

    /// The last 4,096 decisions of the actor, and how many came before them: of the conductor those on commands and on pairs
    /// that come or that a policy takes away, of the sender those on destinations and NAKs, of a client those on its offers and
    /// polls, and on counters that it is not shown. `None` of a client that no attach named, for which nothing was decided.
    pub fn audit(&self, actor: Actor) -> Option<&Audit>
        ensures { IsAuditOf (option_copied result) (kept_for actor self.now.audits) }
    {
        self.audits.of(actor)
    }
}

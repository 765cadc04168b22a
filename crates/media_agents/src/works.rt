//! What the conductor works on: the registry that it publishes, and what follows each entry.

ghost use Rattle.driver_core.specs.Conduct.{state_after};
ghost use Rattle.driver_core.specs.Soundness.{IsSound};
ghost use Rattle.log_steps.specs.Rooms.{memory_of};
ghost use Rattle.log_slots.specs.Opening.{room_of};
ghost use Rattle.media_agents.specs.Acts.{Each, GoesOn, Then, Writes};
ghost use Rattle.media_agents.specs.Answering.{Answers, IsAnswer, question_in};
ghost use Rattle.media_agents.specs.Asking.{AreSilent, IsRowClosed, JoinsSome, LeavesIt, Settles, closing};
ghost use Rattle.media_agents.specs.Desks.{Reports, assigned_by};
ghost use Rattle.media_agents.specs.Following.{Follows, Leaves, OpensNext, Undoes, coming};
ghost use Rattle.media_agents.specs.Journals.{after_entry, stamp_of};
ghost use Rattle.media_agents.specs.Mails.{AcknowledgesEvent, PostsEach, TellsAll};
ghost use Rattle.media_agents.specs.Works.{Declines, Does, Makes, MakesWith, Misses, Taking, events_made, known_of, with_entry};
ghost use Rattle.published_registry.specs.Histories.{IsPlannedOn, registry_of};
ghost use Rattle.std.specs.Prelude.{◌≡◌, ◌+◌, ◌<◌, ◌^◌, ◌++◌, ◌∷◌, [], length, All, IfOk, IfSome, MatchBool, OnErr, OnOk, Some};

use crate::aftermath::{Aftermath, Made};
use crate::answering::Question;
use crate::desk::Desks;
use crate::following::{close_live, follow, open_next};
use crate::journal::Stamp;
use crate::mail::ClientReply;
use crate::naming::DriverNaming;
use crate::noting::Noting;
use crate::pairing::settle;
use crate::planning::{Planned, foresee, plan_joined, ready_of};
use crate::rings::Rings;
use crate::slots::Logs;
use crate::turning::Conducts;
use command_codec::Command;
use driver_core::{Entry, Event, Message, Registry, Response};
use log_slots::{LogMemory, Region};
use published_registry::{Publisher, Receipt};
use rows::Rows;
use std::alloc::{AllocError, Global};
use std::marker::Model;
use std::sync::Wait;
use stream_registry::{LogPlace, Pair};

/// What the conductor works on.
pub struct Works<N: DriverNaming, L, D, T> {
    /// It is taken out for as long as an entry is committed.
    publisher: Option<Publisher>,
    rings: Rings<N>,
    /// Where it answers the driver's owner.
    desk: D,
    region: Region<N>,
    logs: L,
    /// Where it notes what came of each entry.
    notes: T,
    /// Room for the subscriptions that read one log.
    room: Rows<u64, 512>,
    alloc: Global,
}

impl<N: DriverNaming, L, D, T> Model for Works<N, L, D, T> {
    ghost use Rattle.driver_core.specs.Soundness.{IsSound};
    ghost use Rattle.media_agents.specs.Works.{WorksState};
    ghost use Rattle.published_registry.specs.Histories.{history_in, registry_of};
    ghost use Rattle.std.specs.Prelude.{◌≡◌, IsSome};

    ghost Value = { WorksState L D T };

    ghost view = { λ works. record {
      history = history_in works.publisher;
      logs = works.logs;
      desk = works.desk;
      notes = works.notes;
      region = works.region;
      rings = works.rings;
    } };

    ghost invariant = { λ works. IsSome works.publisher × ((history_in works.publisher).book ≡ N.book) × IsSound (registry_of (history_in works.publisher)) };
}

/// The entry comes into the history, its log opens, and then readers are shown the registry.
fn publish<N: DriverNaming, L: Logs<N>, R: Wait>(
    rt: &R,
    publisher: Publisher,
    region: &mut Region<N>,
    logs: &mut L,
    room: &mut Rows<u64, 512>,
    entry: Entry,
    memory: LogMemory,
    opens: Option<LogPlace>,
) -> (Publisher, Result<Receipt, AllocError>)
    requires room { length publisher.entries + 1 < 2 ^ 64 }
    requires planned { IsPlannedOn (registry_of publisher) entry }
    requires sound { IsSound (state_after (registry_of publisher) entry.event entry.inputs) }
    ensures published { OnOk result.1 (result.0 ≡ with_entry entry publisher) }
    ensures receipt { IfOk result.1 (λ receipt. receipt ≡ known_of result.0) }
    ensures opens { OnOk result.1 (GoesOn (OpensNext N.home (registry_of result.0) (room_of memory) opens region.old region.new) (L.did logs.old) (L.did logs.new)) }
    ensures err { OnErr result.1 ((result.0 ≡ publisher) × (region.new ≡ region.old) × (logs.new ≡ logs.old)) }
{
    match publisher.begin(entry) {
        Ok(begun) => {
            open_next(rt, region, logs, begun.newest(), room, memory, opens);
            let (publisher, receipt) = begun.show(rt);
            (publisher, Ok(receipt))
        }
        Err((publisher, fault)) => (publisher, Err(fault)),
    }
}

/// The replies of the receipt's entry go out, in their order.
fn deliver<N: DriverNaming>(rings: &mut Rings<N>, receipt: &Receipt, replies: &[Message])
    requires ours { receipt.now.book ≡ N.book }
    requires held { TellsAll receipt.now.entries replies.now }
    ensures { PostsEach receipt.now replies.now rings.old rings.new }
{
    for message in replies {
        rings.post(receipt, message.client, ClientReply::Of(message.reply));
    }
}

/// A client that attached has that ring.
fn assign<N: DriverNaming>(rings: &mut Rings<N>, ring: u16, response: Option<Response>)
    ensures { rings.new ≡ assigned_by response ring rings.old }
{
    if let Some(Response::Attached(client)) = response {
        rings.assign(ring, client);
    }
}

/// The registry is shown to nobody any more, and then each log that it has closes.
fn end_with<N: DriverNaming, L: Logs<N>, R: Wait>(
    rt: &R,
    publisher: Publisher,
    region: &mut Region<N>,
    logs: &mut L,
) -> Registry
    ensures registry { result ≡ registry_of publisher }
    ensures closed { GoesOn (Each IsRowClosed result.streams.sources) (L.did logs.old) (L.did logs.new) }
{
    let registry = publisher.end(rt);
    close_live(rt, region, logs, &registry);
    registry
}

impl<N: DriverNaming, L: Logs<N> + Drop, D: Desks<N> + Drop, T: Noting + Drop> Works<N, L, D, T> {
    /// What a new driver's conductor works on.
    pub fn new(
        publisher: Publisher,
        rings: Rings<N>,
        desk: D,
        region: Region<N>,
        logs: L,
        notes: T,
        room: Rows<u64, 512>,
        alloc: Global,
    ) -> Works<N, L, D, T>
        requires ours { publisher.book ≡ N.book }
        requires sound { IsSound (registry_of publisher) }
        ensures { result ≡ record { history = publisher; logs = logs; desk = desk; notes = notes; region = region; rings = rings } }
    {
        Works {
            publisher: Some(publisher),
            rings,
            desk,
            region,
            logs,
            notes,
            room,
            alloc,
        }
    }

    /// The publisher.
    fn publisher(&self) -> &Publisher
        ensures { result.now ≡ self.now.history }
    {
        match &self.publisher {
            Some(publisher) => publisher,
            None => unreachable!(),
        }
    }

    /// How many entries there are.
    pub(crate) fn number(&self) -> u64
        ensures { result ≡ length self.now.history.entries }
    {
        self.publisher().number()
    }

    /// The entry comes into the history, and its log is open before anybody is shown the registry.
    ///
    /// # Errors
    /// Nothing is changed where the publisher finds no memory.
    fn enter<R: Wait>(
        &mut self,
        rt: &R,
        entry: Entry,
        memory: LogMemory,
        opens: Option<LogPlace>,
    ) -> Result<Receipt, AllocError>
        requires room { length self.old.history.entries + 1 < 2 ^ 64 }
        requires planned { IsPlannedOn (registry_of self.old.history) entry }
        requires sound { IsSound (state_after (registry_of self.old.history) entry.event entry.inputs) }
        ensures done { OnOk result (self.new ≡ record self.old { history = with_entry entry self.old.history; logs = self.new.logs; region = self.new.region }) }
        ensures receipt { IfOk result (λ receipt. receipt ≡ known_of self.new.history) }
        ensures opens { OnOk result (GoesOn (OpensNext N.home (registry_of self.new.history) (room_of memory) opens self.old.region self.new.region) (L.did self.old.logs) (L.did self.new.logs)) }
        ensures err { OnErr result (self.new ≡ self.old) }
    {
        let Some(publisher) = self.publisher.take() else {
            unreachable!()
        };
        let (publisher, published) = publish(
            rt,
            publisher,
            &mut self.region,
            &mut self.logs,
            &mut self.room,
            entry,
            memory,
            opens,
        );
        if let Some(older) = self.publisher.replace(publisher) {
            drop(older.end(rt));
        }
        let receipt = published?;
        Ok(receipt)
    }

    /// Once an entry is shown, the logs follow, and its replies go out.
    fn finish<R: Wait>(&mut self, rt: &R, receipt: &Receipt, aftermath: &Aftermath)
        requires ours { receipt.now.book ≡ N.book }
        requires held { TellsAll receipt.now.entries aftermath.now.replies }
        ensures leaves { GoesOn (Leaves (registry_of self.old.history) aftermath.now.gone aftermath.now.closes self.old.region self.new.region) (L.did self.old.logs) (L.did self.new.logs) }
        ensures mails { PostsEach receipt.now aftermath.now.replies self.old.rings self.new.rings }
        ensures same { self.new ≡ record self.old { logs = self.new.logs; region = self.new.region; rings = self.new.rings } }
    {
        let Some(publisher) = &self.publisher else {
            unreachable!()
        };
        follow(
            rt,
            &mut self.region,
            &mut self.logs,
            publisher.newest(),
            &mut self.room,
            aftermath,
        );
        deliver(&mut self.rings, receipt, aftermath.replies.as_slice());
    }

    /// The entry is committed, and the logs follow: the log that it opens is open before anybody is shown the registry, and
    /// those close after that which it closes. What its event itself is answered is given back, with the receipt.
    ///
    /// # Errors
    /// Nothing is changed where the publisher finds no memory.
    fn commit<R: Wait>(&mut self, rt: &R, ready: Planned) -> Result<Made, AllocError>
        requires room { length self.old.history.entries + 1 < 2 ^ 64 }
        requires planned { IsPlannedOn (registry_of self.old.history) ready.entry }
        requires sound { IsSound (state_after (registry_of self.old.history) ready.entry.event ready.entry.inputs) }
        requires memory { room_of ready.memory ≡ memory_of ready.entry.event }
        requires response { ready.aftermath.response ≡ ready.entry.outcome.response }
        requires opens { ready.aftermath.opens ≡ ready.entry.outcome.opens }
        requires closes { ready.aftermath.closes ≡ closing (registry_of self.old.history) ready.entry.outcome.closes }
        requires gone { ready.aftermath.gone ≡ ready.entry.outcome.gone }
        requires replies { ready.aftermath.replies ≡ ready.entry.outcome.replies }
        requires decisions { ready.aftermath.decisions ≡ ready.entry.outcome.decisions }
        ensures done { OnOk result (self.new ≡ record self.old { history = with_entry ready.entry self.old.history; logs = self.new.logs; region = self.new.region; rings = self.new.rings }) }
        ensures response { IfOk result (λ made. ready.entry.outcome.response ≡ made.response) }
        ensures decisions { IfOk result (λ made. ready.entry.outcome.decisions ≡ made.decisions) }
        ensures receipt { IfOk result (λ made. made.receipt ≡ known_of self.new.history) }
        ensures ours { IfOk result (λ made. made.receipt.book ≡ N.book) }
        ensures follows { OnOk result (GoesOn (Follows N.home (registry_of self.old.history) (registry_of self.new.history) ready.entry self.old.region self.new.region) (L.did self.old.logs) (L.did self.new.logs)) }
        ensures mails { IfOk result (λ made. PostsEach made.receipt ready.entry.outcome.replies self.old.rings self.new.rings) }
        ensures err { OnErr result (self.new ≡ self.old) }
    {
        let _ = &self.publisher;
        let Planned {
            entry,
            memory,
            aftermath,
        } = ready;
        let receipt = self.enter(rt, entry, memory, aftermath.opens)?;
        self.finish(rt, &receipt, &aftermath);
        let Aftermath {
            response,
            decisions,
            ..
        } = aftermath;
        Ok(Made {
            response,
            decisions,
            receipt,
        })
    }

    /// The event is planned, with the pairs that come joined to their logs, and committed.
    fn take_joined<R: Wait>(
        &mut self,
        rt: &R,
        event: &Event,
        draft: &Entry,
    ) -> Result<Made, AllocError>
        requires room { length self.old.history.entries + 1 < 2 ^ 64 }
        requires come { draft.now.outcome.come ≡ coming (registry_of self.old.history) event.now draft.now.inputs.silent }
        ensures makes { IfOk result (λ made. MakesWith L.did N.home draft.now.inputs.silent event.now self.old self.new made.response made.decisions made.receipt) }
        ensures ours { IfOk result (λ made. made.receipt.book ≡ N.book) }
        ensures some { OnErr result (GoesOn (JoinsSome (registry_of self.old.history) draft.now.outcome.come) (L.did self.old.logs) (L.did self.new.logs)) }
        ensures err { OnErr result (self.new ≡ record self.old { logs = self.new.logs }) }
    {
        let Some(publisher) = &self.publisher else {
            unreachable!()
        };
        let ready = plan_joined(
            rt,
            self.alloc,
            &mut self.logs,
            publisher.newest(),
            &mut self.room,
            event,
            draft,
        )?;
        self.commit(rt, ready)
    }

    /// The logs of these pairs are read as the newest registry says.
    fn settle_pairs<R: Wait>(&mut self, rt: &R, pairs: &[Pair])
        ensures settled { GoesOn (Each (Settles (registry_of self.old.history)) pairs.now) (L.did self.old.logs) (L.did self.new.logs) }
        ensures same { self.new ≡ record self.old { logs = self.new.logs } }
    {
        let Some(publisher) = &self.publisher else {
            unreachable!()
        };
        settle(
            rt,
            &mut self.logs,
            publisher.newest(),
            &mut self.room,
            pairs,
        );
    }

    /// The same. Where no entry is made, the logs that were joined for it are read as before.
    fn take_foreseen<R: Wait>(
        &mut self,
        rt: &R,
        event: &Event,
        draft: &Entry,
    ) -> Result<Made, AllocError>
        requires room { length self.old.history.entries + 1 < 2 ^ 64 }
        requires come { draft.now.outcome.come ≡ coming (registry_of self.old.history) event.now draft.now.inputs.silent }
        ensures makes { IfOk result (λ made. MakesWith L.did N.home draft.now.inputs.silent event.now self.old self.new made.response made.decisions made.receipt) }
        ensures ours { IfOk result (λ made. made.receipt.book ≡ N.book) }
        ensures undone { OnErr result (GoesOn (Then (JoinsSome (registry_of self.old.history) draft.now.outcome.come) (Each (Settles (registry_of self.old.history)) draft.now.outcome.come)) (L.did self.old.logs) (L.did self.new.logs)) }
        ensures err { OnErr result (self.new ≡ record self.old { logs = self.new.logs }) }
    {
        let taken = self.take_joined(rt, event, draft);
        if taken.is_err() {
            self.settle_pairs(rt, draft.outcome.come.as_slice());
        }
        taken
    }

    /// A draft with which no pair comes is the entry that is committed.
    fn take_draft<R: Wait>(&mut self, rt: &R, draft: Entry) -> Result<Made, AllocError>
        requires room { length self.old.history.entries + 1 < 2 ^ 64 }
        requires planned { IsPlannedOn (registry_of self.old.history) draft }
        requires sound { IsSound (state_after (registry_of self.old.history) draft.event draft.inputs) }
        requires ends { draft.inputs.ends ≡ [] }
        requires none { draft.outcome.come ≡ [] }
        ensures makes { IfOk result (λ made. MakesWith L.did N.home draft.inputs.silent draft.event self.old self.new made.response made.decisions made.receipt) }
        ensures ours { IfOk result (λ made. made.receipt.book ≡ N.book) }
        ensures err { OnErr result (self.new ≡ self.old) }
    {
        let Some(publisher) = &self.publisher else {
            unreachable!()
        };
        let ready = ready_of(self.alloc, publisher.newest(), draft)?;
        self.commit(rt, ready)
    }

    /// The logs are asked which images are silent, and it is found which pairs would come.
    fn foresee_event<R: Wait>(&mut self, rt: &R, event: &Event) -> Result<Entry, AllocError>
        ensures planned { IfOk result (λ draft. IsPlannedOn (registry_of self.old.history) draft) }
        ensures sound { IfOk result (λ draft. IsSound (state_after (registry_of self.old.history) draft.event draft.inputs)) }
        ensures event_is { IfOk result (λ draft. draft.event ≡ event.now) }
        ensures ends { IfOk result (λ draft. draft.inputs.ends ≡ []) }
        ensures silent { IfOk result (λ draft. GoesOn (AreSilent (registry_of self.old.history) event.now draft.inputs.silent) (L.did self.old.logs) (L.did self.new.logs)) }
        ensures come { IfOk result (λ draft. draft.outcome.come ≡ coming (registry_of self.old.history) event.now draft.inputs.silent) }
        ensures err { OnErr result (GoesOn (All LeavesIt) (L.did self.old.logs) (L.did self.new.logs)) }
        ensures same { self.new ≡ record self.old { logs = self.new.logs } }
    {
        let Some(publisher) = &self.publisher else {
            unreachable!()
        };
        foresee(rt, self.alloc, &mut self.logs, publisher.newest(), event)
    }

    /// The conductor takes an event, and the logs follow.
    ///
    /// # Errors
    /// Nothing is changed where there is no memory: the logs are read as before.
    fn take<R: Wait>(&mut self, rt: &R, event: &Event) -> Result<Made, AllocError>
        requires room { length self.old.history.entries + 1 < 2 ^ 64 }
        ensures makes { IfOk result (λ made. Makes L.did N.home event.now self.old self.new made.response made.decisions made.receipt) }
        ensures ours { IfOk result (λ made. made.receipt.book ≡ N.book) }
        ensures undone { OnErr result (GoesOn (Undoes (registry_of self.old.history) event.now) (L.did self.old.logs) (L.did self.new.logs)) }
        ensures err { OnErr result (self.new ≡ record self.old { logs = self.new.logs }) }
    {
        let draft = self.foresee_event(rt, event)?;
        if draft.outcome.come.is_empty() {
            self.take_draft(rt, draft)
        } else {
            self.take_foreseen(rt, event, &draft)
        }
    }

    /// The desk is told the answer to a question, if there is one, and a client that attached gets its ring.
    fn report<R: Wait>(
        &mut self,
        rt: &R,
        question: Option<Question>,
        response: Option<Response>,
        receipt: Receipt,
    )
        requires ours { receipt.book ≡ N.book }
        requires answer { IfSome question (λ question. IsAnswer question response receipt) }
        ensures reports { Reports D.told question response receipt (self.old.desk, self.old.rings) (self.new.desk, self.new.rings) }
        ensures same { self.new ≡ record self.old { desk = self.new.desk; rings = self.new.rings } }
    {
        if let Some(question) = question {
            let ring = self.desk.answer(rt, question, response, receipt);
            assign(&mut self.rings, ring, response);
        }
    }

    /// What is answered to an event for which there was no memory: the client gets a reply that no entry holds, with the
    /// receipt of the newest one.
    fn refuse<R: Wait>(&mut self, rt: &R, event: &Event)
        ensures declines { Declines D.told event.now (known_of self.old.history) (self.old.desk, self.old.rings) (self.new.desk, self.new.rings) }
        ensures same { self.new ≡ record self.old { desk = self.new.desk; rings = self.new.rings } }
    {
        let receipt = self.publisher().receipt();
        match event {
            Event::Command { client, bytes, .. } => {
                let correlation = Command::correlation_of(bytes.as_slice());
                self.rings
                    .post(&receipt, *client, ClientReply::NoMemory { correlation });
            }
            _ => self.report(rt, Question::of(event), None, receipt),
        }
    }

    /// By which registry the last entry is: the one after it.
    fn stamp(&self) -> Stamp
        ensures { result ≡ stamp_of self.now.history }
    {
        Stamp {
            registry: self.number(),
            moment: self.publisher().newest().moment(),
        }
    }

    /// What came of an entry is noted once: what was decided on it, and a SETUP that makes no image. An event that is a question is
    /// answered with the response of its entry, once that is shown. Its replies went out before.
    fn answer<R: Wait>(&mut self, rt: &R, event: &Event, made: Made)
        requires ours { made.receipt.book ≡ N.book }
        requires answer { Answers event.now made.response made.receipt.entries }
        ensures notes { GoesOn (Writes (after_entry event.now made.response made.decisions (stamp_of self.old.history))) (T.wrote self.old.notes) (T.wrote self.new.notes) }
        ensures reports { Reports D.told (question_in event.now) (Some made.response) made.receipt (self.old.desk, self.old.rings) (self.new.desk, self.new.rings) }
        ensures same { self.new ≡ record self.old { desk = self.new.desk; notes = self.new.notes; rings = self.new.rings } }
    {
        let stamp = self.stamp();
        self.notes.note_entry(rt, event, &made.response, made.decisions.as_slice(), stamp);
        let Made {
            response,
            decisions: _,
            receipt,
        } = made;
        self.report(rt, Question::of(event), Some(response), receipt);
    }

    /// An event was taken out of the queue.
    fn acknowledge(&mut self, event: &Event)
        ensures acknowledges { AcknowledgesEvent event.now self.old.rings self.new.rings }
        ensures same { self.new ≡ record self.old { rings = self.new.rings } }
    {
        if let Event::Command { client, .. } = event {
            self.rings.acknowledge(*client);
        }
    }

    /// An entry is made of the event, and all that follows it is done; or it is refused.
    fn serve<R: Wait>(&mut self, rt: &R, event: &Event) -> bool
        requires room { length self.old.history.entries + 1 < 2 ^ 64 }
        ensures { MatchBool result (Does L.did D.told N.home T.wrote self.old event.now self.new) (Misses L.did D.told N.home self.old event.now self.new) }
    {
        match self.take(rt, event) {
            Ok(made) => {
                self.answer(rt, event, made);
                true
            }
            Err(_) => {
                self.refuse(rt, event);
                false
            }
        }
    }

    /// Ends the driver and gives its last registry, and the way to its logs: nobody gets a look at the registry any more, and
    /// each of its logs closes. It waits until each look has ended.
    pub fn end<R: Wait>(self, rt: &R) -> (Registry, L)
        ensures registry { result.0 ≡ registry_of self.history }
        ensures closed { GoesOn (Each IsRowClosed result.0.streams.sources) (L.did self.logs) (L.did result.1) }
    {
        let Works {
            publisher,
            rings: _,
            desk: _,
            mut region,
            mut logs,
            notes: _,
            room: _,
            alloc: _,
        } = self;
        match publisher {
            Some(publisher) => {
                let registry = end_with(rt, publisher, &mut region, &mut logs);
                (registry, logs)
            }
            None => unreachable!(),
        }
    }
}

impl<N: DriverNaming, L: Logs<N> + Drop, D: Desks<N> + Drop, T: Noting + Drop> Conducts<Event>
    for Works<N, L, D, T> {
    ghost history = { events_made };

    ghost does = { λ old event new. Taking (Does L.did D.told N.home T.wrote) old event new };

    ghost misses = { λ old event new. Taking (Misses L.did D.told N.home) old event new };

    fn is_full(&self) -> bool {
        self.number() == u64::MAX
    }

    fn conduct<R: Wait>(&mut self, rt: &R, event: Event) -> bool {
        self.acknowledge(&event);
        self.serve(rt, &event)
    }
}

//! The last decisions of each actor.

ghost use Rattle.audit_ring.specs.Audit.{Kept, kept_of};
ghost use Rattle.driver_core.specs.declared.state.outcome.Response.{Response as Responds};
ghost use Rattle.driver_world.specs.Audits.{Tells, attached_by, decided_by_outcome, decision_of, kept_all, IsAuditOf, kept_for, nothing_decided, place_at, told, told_one, told_sent};
ghost use Rattle.driver_world.specs.declared.actor.Actor.TheVariants.{Client, Sender};
ghost use Rattle.policy_core.specs.declared.decision.Decision.{Decision as Decides};
ghost use Rattle.std.specs.Prelude.{◌≡◌, ◌<◌, ◌++◌, ◌∷◌, ℕ, List, [], length, map, None, Some, find, ◌==◌, option_copied, IfOk, OnOk};

use crate::actor::Actor;
use audit_ring::Audit;
use driver_core::{Outcome, Outlet, Response};
use log_steps::Answer;
use policy_core::Decision;
use std::alloc::{AllocError, Global};
use std::marker::Model;

/// The last decisions of the conductor, the sender, the receiver, and of each client that ever attached.
///
/// Contracts see what is kept of each actor, and for how many clients there is room.
#[derive(Drop)]
pub(crate) struct Audits {
    conductor: Audit,
    sender: Audit,
    receiver: Audit,
    /// By the clients' ids, in the order in which they attached.
    clients: Vec<(u64, Audit)>,
    /// The audit of the next client, where there is memory for it already.
    spare: Option<Audit>,
}

impl Model for Audits {
    ghost use Rattle.driver_world.specs.Audits.{HeldAudits, IsSpare};
    ghost use Rattle.std.specs.Vec.{vec_capacity};

    ghost Value = { HeldAudits };

    ghost view = { λ held. record {
      audits = record {
        conductor = held.conductor;
        sender = held.sender;
        receiver = held.receiver;
        clients = held.clients.items;
      };
      room = vec_capacity held.clients;
    } };

    ghost invariant = { λ held. IsSpare held.spare };
}

/// Puts decisions after the others.
fn push_all(audit: &mut Audit, decisions: &[Decision])
    ensures { (before : List Decides) → audit.old ≡ kept_of before → audit.new ≡ kept_of (before ++ decisions.now) }
{
    for decision in decisions {
        audit.push(*decision);
    }
}

/// Puts the decisions on a datagram's destinations after the others.
fn push_outlets(audit: &mut Audit, outlets: &[Outlet])
    ensures { (before : List Decides) → audit.old ≡ kept_of before → audit.new ≡ kept_of (before ++ map decision_of outlets.now) }
{
    for outlet in outlets {
        audit.push(outlet.decision);
    }
}

/// Where the first client of that id is in the list.
fn place_of(clients: &[(u64, Audit)], id: u64) -> Option<usize>
    ensures { result ≡ place_at clients.now id }
{
    clients.iter().position(|client| client.0 == id)
}

impl Audits {
    /// Nothing was decided yet.
    #[tactic(auto, unfolding(crate::specs::Audits::nothing_decided))]
    pub(crate) fn new(alloc: Global) -> Result<Audits, AllocError>
        ensures { IfOk result (λ held. held.audits ≡ kept_all nothing_decided) }
    {
        Ok(Audits {
            conductor: Audit::new(alloc)?,
            sender: Audit::new(alloc)?,
            receiver: Audit::new(alloc)?,
            clients: Vec::new(alloc),
            spare: None,
        })
    }

    /// Takes the memory for a further client.
    pub(crate) fn make_room(&mut self, alloc: Global) -> Result<Audit, AllocError>
        ensures same { self.new.audits ≡ self.old.audits }
        ensures room { OnOk result (length self.new.audits.clients < self.new.room) }
        ensures empty { IfOk result (λ audit. audit ≡ kept_of []) }
    {
        self.clients.reserve(1)?;
        match self.spare.take() {
            Some(audit) => Ok(audit),
            None => Audit::new(alloc),
        }
    }

    /// Puts that memory aside again.
    pub(crate) fn put_back(&mut self, audit: Audit)
        requires { audit ≡ kept_of [] }
        ensures { self.new ≡ self.old }
    {
        self.spare = Some(audit);
    }

    /// A client of that id is an actor from here on, or none is.
    fn attach(&mut self, response: Response, audit: Audit)
        requires empty { audit ≡ kept_of [] }
        requires room { length self.old.audits.clients < self.old.room }
        ensures { Tells self.old.audits self.new.audits (attached_by response) }
    {
        match response {
            Response::Attached(id) => self.clients.push_reserved((id, audit)),
            _ => self.put_back(audit),
        }
    }

    /// An event was taken: all that it decided is reported to the conductor, and a client that it attaches has an audit.
    pub(crate) fn tell_event(&mut self, outcome: &Outcome, audit: Audit)
        requires empty { audit ≡ kept_of [] }
        requires room { length self.old.audits.clients < self.old.room }
        ensures { Tells self.old.audits self.new.audits (decided_by_outcome outcome.now) }
    {
        push_all(&mut self.conductor, outcome.decisions.as_slice());
        self.attach(outcome.response, audit);
    }

    /// Whether who asks may have frames again, or may be a destination, is reported to the sender.
    pub(crate) fn tell_sender(&mut self, decision: Option<Decision>)
        ensures { Tells self.old.audits self.new.audits (told_one Sender decision) }
    {
        if let Some(decision) = decision {
            self.sender.push(decision);
        }
    }

    /// Whether a datagram may go to each of its destinations is reported to the sender.
    pub(crate) fn tell_sent(&mut self, answer: &Answer)
        ensures { Tells self.old.audits self.new.audits (told_sent answer.now) }
    {
        if let Answer::Sent { outlets, .. } = answer {
            push_outlets(&mut self.sender, outlets.as_slice());
        }
    }

    /// What was decided for a client is reported to it.
    pub(crate) fn tell_client(&mut self, id: u64, decision: Option<Decision>)
        ensures { Tells self.old.audits self.new.audits (told_one (Client id) decision) }
    {
        let Some(decision) = decision else {
            return;
        };
        match place_of(self.clients.as_slice(), id) {
            Some(at) => self.clients[at].1.push(decision),
            None => {}
        }
    }

    /// The decisions by which a client is not shown counters are reported to it.
    pub(crate) fn tell_denials(&mut self, id: u64, denials: &[Decision])
        ensures { Tells self.old.audits self.new.audits (told (Client id) denials.now) }
    {
        match place_of(self.clients.as_slice(), id) {
            Some(at) => push_all(&mut self.clients[at].1, denials),
            None => {}
        }
    }

    /// The last decisions of the actor. `None` of a client that no attach named.
    pub(crate) fn of(&self, actor: Actor) -> Option<&Audit>
        ensures { IsAuditOf (option_copied result) (kept_for actor self.now.audits) }
    {
        match actor {
            Actor::Conductor => Some(&self.conductor),
            Actor::Sender => Some(&self.sender),
            Actor::Receiver => Some(&self.receiver),
            Actor::Client(id) => match place_of(self.clients.as_slice(), id) {
                Some(at) => Some(&self.clients[at].1),
                None => None,
            },
        }
    }
}

//! What was decided for a client and on the steps of a driver's agents is kept.

ghost use Rattle.log_steps.specs.Decided.{shown_decision};
ghost use Rattle.media_agents.specs.declared.gate.Agent.TheVariants.{Receiver};
ghost use Rattle.media_agents.specs.Journals.{audited_all, audited_if};
ghost use Rattle.std.specs.Prelude.{◌≡◌, [], IfOk};

use crate::client::Client;
use crate::driver::Driver;
use audit_ring::AuditOf;
use byte_strings::Items;
use driver_core::Shown;
use media_agents::{Agent, Clock, Dated, DriverNaming, Stamp, Tallies};
use policy_core::Decision;
use std::alloc::{AllocError, Global};
use std::sync::Wait;
use std::thread::Threads;

/// What is kept of an agent's decisions.
#[derive(Debug, Drop)]
pub struct Audited {
    /// The last 4,096 decisions at most, in their order.
    pub last: Items<Dated>,
    /// How many came before them, up to the greatest number.
    pub dropped: u64,
}

/// Room for all that an audit keeps.
fn room_for_all(alloc: Global) -> Result<Items<Dated>, AllocError>
    ensures { IfOk result (λ room. room ≡ []) }
{
    Ok(Items::from(Vec::with_capacity(alloc, 4096)?))
}

/// The same as the audit has, in that room.
fn copied(audit: &AuditOf<Dated>, room: Items<Dated>) -> Result<Audited, AllocError>
    requires { room ≡ [] }
    ensures { IfOk result (λ it. (it.last ≡ audit.now.items) × (it.dropped ≡ audit.now.dropped)) }
{
    let mut last = room;
    for dated in audit.items() {
        last.push(*dated)?;
    }
    Ok(Audited {
        last,
        dropped: audit.dropped(),
    })
}

/// Keeps the decision of a step after the others, if there is one.
pub(crate) fn tell(audit: &mut AuditOf<Dated>, stamp: Stamp, decision: Option<Decision>)
    ensures { audit.new ≡ audited_if stamp decision audit.old }
{
    if let Some(decision) = decision {
        audit.push(Dated { stamp, decision });
    }
}

/// Keeps decisions after the others, in their order.
pub(crate) fn tell_all(audit: &mut AuditOf<Dated>, stamp: Stamp, decisions: &[Decision])
    ensures { audit.new ≡ audited_all stamp decisions.now audit.old }
{
    for decision in decisions {
        audit.push(Dated {
            stamp,
            decision: *decision,
        });
    }
}

/// The decision by which one counter is not shown.
pub(crate) fn denial_of(shown: &Shown) -> Option<Decision>
    ensures { result ≡ shown_decision shown.now }
{
    match shown {
        Shown::Denied(decision) => Some(*decision),
        _ => None,
    }
}

impl<N: DriverNaming, C: Clock> Client<N, C> {
    /// The last 4,096 decisions on this client's offers and polls, and on counters that it was not shown, in their order, each with
    /// the registry by which it was taken; and how many came before them. What is decided on its commands is the conductor's.
    pub fn audit(&self) -> &AuditOf<Dated>
        ensures { result.now ≡ self.now.audited }
    {
        &self.audit
    }
}

impl<N: DriverNaming, R: Threads + Wait, C: Clock> Driver<N, R, C> {
    /// What the sender and the receiver have dropped, lost or kept back so far, by cause, verdict and address. It is for the
    /// driver's owner alone, and takes no memory.
    pub fn tallies(&self) -> Tallies {
        self.kept.common.slots.journal.lock(&self.rt).tallies.copy()
    }

    /// The last 4,096 decisions on an agent's steps, in their order, each with the registry by which it was taken; and how many came
    /// before them. The conductor's are on commands, pairs and policies; the sender's on what it sends, is asked to send again, and
    /// learns; the receiver's steps decide nothing. It is for the driver's owner alone.
    ///
    /// # Errors
    /// Where there is no memory for 4,096 of them.
    pub fn audit(&self, agent: Agent) -> Result<Audited, AllocError>
        ensures { agent ≡ Receiver → IfOk result (λ audited. (audited.last ≡ []) × (audited.dropped ≡ 0)) }
    {
        let room = room_for_all(self.alloc)?;
        match agent {
            Agent::Conductor => {
                copied(
                    &self.kept.common.slots.journal.lock(&self.rt).conductor,
                    room,
                )
            }
            Agent::Sender => copied(&self.kept.common.slots.journal.lock(&self.rt).sender, room),
            Agent::Receiver => Ok(Audited {
                last: room,
                dropped: 0,
            }),
        }
    }
}

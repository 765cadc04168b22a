//! What a client shares with others, as its replies say it.

ghost use Rattle.aeron_policyd.specs.Keeping.{answer_to, refusal_outcome, reply_answer};
ghost use Rattle.service_bounds.specs.declared.outcome.Outcome.TheVariants.{Stands};
ghost use Rattle.service_doors.specs.Sharing.{AdmittedBy};
ghost use Rattle.std.specs.Prelude.{◌≡◌};

use crate::decided::Taken;
use crate::denials::Denials;
use crate::moments::now;
use driver_core::{Refusal, Reply};
use driver_service::Reason;
use media_driver::ClientReply;
use policy_core::Decision;
use served_clients::{Given, Keeper};
use service_bounds::Outcome;
use service_doors::Share;
use std::sync::{Arc, Wait};
use std::time::{Clock, CpuClock};

/// A client's part of what its principal's clients have, and where is said what is denied to it.
#[derive(Drop)]
pub(crate) struct Kept<R: Clock + CpuClock + Wait + Copy + Drop> {
    pub(crate) rt: R,
    pub(crate) share: Share<R>,
    /// Where is said what is denied to it.
    pub(crate) denials: Arc<Denials>,
}

/// How a refusal answers a command.
fn refused(refusal: &Refusal) -> Outcome
    ensures { result ≡ refusal_outcome refusal.now }
{
    match refusal {
        Refusal::UnknownPublication => Outcome::Missing,
        Refusal::UnknownSubscription => Outcome::Missing,
        Refusal::UnknownCounter => Outcome::Missing,
        _ => Outcome::Refused,
    }
}

/// Which command a reply answers, and how.
fn answer_in(reply: &Reply) -> Option<(u64, Outcome)>
    ensures { result ≡ reply_answer reply.now }
{
    match reply {
        Reply::Error {
            correlation,
            refusal,
        } => Some((*correlation, refused(refusal))),
        Reply::OperationSuccess { correlation } => Some((*correlation, Outcome::Done)),
        Reply::PublicationReady {
            correlation,
            registration,
            ..
        } => Some((*correlation, stands(*registration))),
        Reply::ExclusivePublicationReady {
            correlation,
            registration,
            ..
        } => Some((*correlation, stands(*registration))),
        Reply::SubscriptionReady {
            correlation,
            registration,
        } => Some((*correlation, stands(*registration))),
        Reply::CounterReady {
            correlation,
            registration,
        } => Some((*correlation, stands(*registration))),
        _ => None,
    }
}

/// What was asked for has that registration.
fn stands(registration: u64) -> Outcome
    ensures { result ≡ Stands registration }
{
    Outcome::Stands { registration }
}

/// Which command a reply of the driver answers, and how.
fn answer_to(reply: &ClientReply) -> Option<(u64, Outcome)>
    ensures { result ≡ answer_to reply.now }
{
    match reply {
        ClientReply::NoMemory { correlation } => Some((*correlation, Outcome::Refused)),
        ClientReply::Of(reply) => answer_in(reply),
    }
}

/// What a reply says of what the client has.
fn note_in<R: Clock + CpuClock + Wait + Copy + Drop>(
    share: &Share<R>,
    client: u64,
    reply: &ClientReply,
) {
    if let Some((correlation, outcome)) = answer_to(reply) {
        share.answered(client, correlation, outcome);
    }
}

fn admit_by<R: Clock + CpuClock + Wait + Copy + Drop>(
    share: &mut Share<R>,
    client: u64,
    given: &Given,
) -> Result<(), Reason>
    ensures { AdmittedBy share.old.usual client given.now.correlation given.now.body share.old.heard share.new.heard result }
{
    share.admit(client, given.correlation, &given.body)
}

fn withdraw_by<R: Clock + CpuClock + Wait + Copy + Drop>(
    share: &mut Share<R>,
    client: u64,
    given: &Given,
) {
    share.withdraw(client, given.correlation);
}

fn denied_by<R: Clock + CpuClock + Wait + Copy + Drop>(
    rt: &R,
    denials: &Arc<Denials>,
    decision: &Decision,
) {
    let moment = now(rt).unwrap_or(0);
    denials.note(
        rt,
        Taken {
            moment,
            decision: *decision,
        },
    );
}

fn stir_by<R: Clock + CpuClock + Wait + Copy + Drop>(share: &Share<R>) {
    share.stir();
}

fn give_way_by<R: Clock + CpuClock + Wait + Copy + Drop>(share: &mut Share<R>) {
    share.give_way();
}

fn now_by<R: Clock + CpuClock + Wait + Copy + Drop>(share: &Share<R>) -> u64 {
    share.now()
}

impl<R: Clock + CpuClock + Wait + Copy + Drop> Keeper for Kept<R> {
    ghost use Rattle.service_doors.specs.Sharing.{AdmittedBy};
    ghost use Rattle.std.specs.Prelude.{◌≡◌};

    ghost admits = { λ old client given told new. AdmittedBy old.share.usual client given.correlation given.body old.share.heard new.share.heard told };

    // A denial is said, and counts for nothing that the client shares.
    ghost hears = { λ old decision new. new.share ≡ old.share };

    fn admit(&mut self, client: u64, given: &Given) -> Result<(), Reason> {
        admit_by(&mut self.share, client, given)
    }

    fn withdraw(&mut self, client: u64, given: &Given) {
        withdraw_by(&mut self.share, client, given);
    }

    fn note(&mut self, client: u64, reply: &ClientReply) {
        note_in(&self.share, client, reply);
    }

    fn denied(&mut self, decision: &Decision) {
        denied_by(&self.rt, &self.denials, decision);
    }

    fn stir(&mut self) {
        stir_by(&self.share);
    }

    fn give_way(&mut self) {
        give_way_by(&mut self.share);
    }

    fn now(&self) -> u64 {
        now_by(&self.share)
    }
}

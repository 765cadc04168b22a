//! What came of a step is written into the journal.

ghost use Rattle.media_agents.specs.Acts.{Access, GoesOn, Writes};
ghost use Rattle.media_agents.specs.Journals.{after_entry, after_packet, after_sending, after_turn, audited_all, audited_cut, audited_if, audited_outlet};
ghost use Rattle.media_agents.specs.Traffic.{is_cut};
ghost use Rattle.std.specs.Prelude.{◌≡◌, List, fold};

use crate::journal::{Dated, Journal, Stamp};
use crate::stepping::Stepped;
use crate::tallying::{count_answer, count_cut, count_event, count_report};
use audit_ring::AuditOf;
use channel_uri::Address;
use driver_core::{Event, Outlet, Response};
use log_steps::Answer;
use policy_core::Decision;
use std::sync::Wait;

/// A decision is kept after those before, if there is one.
fn audit_if(audit: &mut AuditOf<Dated>, stamp: Stamp, decision: Option<Decision>)
    ensures { audit.new ≡ audited_if stamp decision audit.old }
{
    if let Some(decision) = decision {
        audit.push(Dated { stamp, decision });
    }
}

/// Decisions are kept after those before, in their order.
fn audit_all(audit: &mut AuditOf<Dated>, stamp: Stamp, decisions: &[Decision])
    ensures { audit.new ≡ audited_all stamp decisions.now audit.old }
{
    for decision in decisions {
        audit.push(Dated {
            stamp,
            decision: *decision,
        });
    }
}

/// The decision on each destination is kept, in their order.
fn audit_outlets(audit: &mut AuditOf<Dated>, stamp: Stamp, outlets: &[Outlet])
    ensures { audit.new ≡ fold (audited_outlet stamp) audit.old outlets.now }
{
    for outlet in outlets {
        audit.push(Dated {
            stamp,
            decision: outlet.decision,
        });
    }
}

/// So it is where a datagram was cut.
fn audit_cut(audit: &mut AuditOf<Dated>, stamp: Stamp, answer: &Answer)
    ensures { audit.new ≡ audited_cut stamp answer.now audit.old }
{
    if let Answer::Sent { outlets, .. } = answer {
        audit_outlets(audit, stamp, outlets.as_slice());
    }
}

/// What came of a datagram.
pub(crate) fn keep_packet(journal: &mut Journal, it: &Stepped, from: &Address)
    ensures { journal.new ≡ after_packet from.now it.now journal.old }
{
    count_answer(&mut journal.tallies, &it.answer, from);
    audit_if(&mut journal.sender, it.stamp, it.decision);
}

/// What came of the receiver's turn with an image.
pub(crate) fn keep_turn(journal: &mut Journal, it: &Stepped)
    ensures { journal.new ≡ after_turn it.now journal.old }
{
    count_report(&mut journal.tallies, &it.answer);
}

/// What came of the sender's turn with a publication.
pub(crate) fn keep_sending(journal: &mut Journal, it: &Stepped)
    ensures { journal.new ≡ after_sending it.now journal.old }
{
    count_cut(&mut journal.tallies, &it.answer);
    audit_cut(&mut journal.sender, it.stamp, &it.answer);
}

/// What came of an entry.
pub(crate) fn keep_entry(
    journal: &mut Journal,
    event: &Event,
    response: &Response,
    decisions: &[Decision],
    stamp: Stamp,
)
    ensures { journal.new ≡ after_entry event.now response.now decisions.now stamp journal.old }
{
    count_event(&mut journal.tallies, event, response);
    audit_all(&mut journal.conductor, stamp, decisions);
}

/// Whether the sender cut a datagram.
pub(crate) fn is_cut(answer: &Answer) -> bool
    ensures { result ≡ is_cut answer.now }
{
    matches!(answer, Answer::Sent { .. })
}

/// Where the conductor notes what came of each entry that it makes. Each handle is the conductor's alone, so what it wrote is in its
/// order, and nothing else is among it.
pub trait Noting {
    /// These are all holds of the journal's lock so far, in their order, as far as is known: what each found there, and what it
    /// left. An entry of which nothing is written leaves the journal as it is.
    ghost wrote: { Self → List Access → Type 0 };

    /// The conductor made an entry of an event. Its response was that, and those are the decisions.
    fn note_entry<R: Wait>(
        &mut self,
        rt: &R,
        event: &Event,
        response: &Response,
        decisions: &[Decision],
        stamp: Stamp,
    )
        ensures { GoesOn (Writes (after_entry event.now response.now decisions.now stamp)) (wrote self.old) (wrote self.new) };
}

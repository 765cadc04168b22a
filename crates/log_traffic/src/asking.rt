//! What receivers ask of a publication's log, by status messages and NAKs.

ghost use Rattle.log_traffic.specs.Asking.{Hears, IsGranted, IsToResend, Keeps, Replies, RepliesTo, after_status};
ghost use Rattle.log_traffic.specs.Held.{Lies};
ghost use Rattle.log_traffic.specs.Resending.{ResendsOver, gate_after, asking_of};
ghost use Rattle.log_traffic.specs.Whole.{Carries};
ghost use Rattle.std.specs.Prelude.{◌≡◌, ◌++◌, ◌≤◌, IfOk, OnErr, OnOk, length};

use crate::any_log::AnyLog;
use crate::datagrams::Datagrams;
use crate::hearing::{StatusAnswer, receive_status};
use crate::resending::{NakAnswer, answer_nak};
use byte_strings::{Bytes, Items};
use frame_codec::{Nak, StatusMessage};
use policy_core::{Decision, Verdict};
use retransmit_gate::Gate;
use std::alloc::{AllocError, Global};
use term_log::TermLog;

/// What becomes of a NAK.
#[derive(Debug, PartialEq, Eq, Drop)]
pub enum NakReply {
    /// The policy does not let who asks have frames again, by this verdict.
    Denied(Verdict),
    /// It asks for nothing.
    Empty,
    /// It asks for what may not be sent again.
    OutOfWindow,
    /// It meets what was sent again lately.
    Lingering,
    /// Too much was sent again lately.
    Busy,
    /// These datagrams go to who asks, in their order.
    Resent(Items<Bytes>),
}

/// Copies of the datagrams, in their order.
fn copies_of(alloc: Global, datagrams: Datagrams<'_>) -> Result<Items<Bytes>, AllocError>
    ensures { IfOk result (λ copies. copies ≡ datagrams.entry.datagrams) }
{
    let mut left = datagrams;
    let mut copies = Items::new(alloc);
    while let Some(copy) = left.next_copy(alloc)? {
        copies.push(Bytes::from(copy))?;
    }
    Ok(copies)
}

/// What becomes of a NAK of the log's session and stream. Where there is no memory for the datagrams, the gate is as it was.
fn reply(
    log: &TermLog,
    alloc: Global,
    gate: &mut Gate,
    now: u64,
    nak: &Nak,
    decision: &Decision,
) -> Result<NakReply, AllocError>
    ensures reply { IfOk result (λ reply. RepliesTo decision.now now nak.now gate.old log.now reply) }
    ensures gate { OnOk result (gate.new ≡ gate_after decision.now.verdict.allow gate.old (asking_of now log.now nak.now)) }
    ensures err { OnErr result (gate.new ≡ gate.old) }
    ensures without_memory { OnErr result (IsGranted decision.now now nak.now gate.old log.now) }
{
    let before = gate.copy();
    match answer_nak(log, gate, now, nak, decision) {
        NakAnswer::Denied(decision) => Ok(NakReply::Denied(decision.verdict)),
        NakAnswer::Empty => Ok(NakReply::Empty),
        NakAnswer::OutOfWindow => Ok(NakReply::OutOfWindow),
        NakAnswer::Lingering => Ok(NakReply::Lingering),
        NakAnswer::Busy => Ok(NakReply::Busy),
        NakAnswer::Resent(datagrams) => match copies_of(alloc, datagrams) {
            Ok(copies) => Ok(NakReply::Resent(copies)),
            Err(refused) => {
                *gate = before;
                Err(refused)
            }
        },
    }
}

impl AnyLog {
    /// A status message of the log's session and stream came at a moment, in nanoseconds. With the flag that asks for a SETUP
    /// it does only that; one that names a position that was not sent is dropped; else the log is connected, and may be sent
    /// as far as the receiver has room. The log of a remote stream hears nothing, which `None` says.
    pub fn hear_status(&mut self, now: u64, message: &StatusMessage) -> Option<StatusAnswer>
        ensures hears { Hears self.old message.now result }
        ensures whole { Carries self.old self.new (after_status now message.now) }
        ensures lies { Lies self.old self.new }
    {
        match self {
            AnyLog::Term(log) => Some(receive_status(log, now, message)),
            AnyLog::Image(_) => None,
        }
    }

    /// A NAK of the log's session and stream came at a moment, in nanoseconds; `decision` is what the policy says of sending
    /// again to who asks, and `gate` has seen all that was sent again of this log. The log of a remote stream is asked
    /// nothing, which `None` says.
    ///
    /// # Errors
    /// The gate is as it was where there is no memory for the datagrams, which alone take some.
    pub fn answer_nak(
        &self,
        alloc: Global,
        gate: &mut Gate,
        now: u64,
        nak: &Nak,
        decision: &Decision,
    ) -> Result<Option<NakReply>, AllocError>
        ensures reply { IfOk result (λ reply. Replies self.now decision.now now nak.now gate.old reply) }
        ensures gate { OnOk result (Keeps self.now decision.now now nak.now gate.old gate.new) }
        ensures err { OnErr result (gate.new ≡ gate.old) }
        ensures without_memory { OnErr result (IsToResend self.now decision.now now nak.now gate.old) }
    {
        let AnyLog::Term(log) = self else {
            return Ok(None);
        };
        Ok(Some(reply(log, alloc, gate, now, nak, decision)?))
    }
}

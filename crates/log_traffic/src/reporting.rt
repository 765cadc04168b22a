//! What the receiver of a remote stream reports to its publisher.

ghost use Rattle.frame_codec.specs.Nak.{nak_bytes};
ghost use Rattle.frame_codec.specs.StatusMessage.{status_bytes};
ghost use Rattle.log_traffic.specs.Frames.{datagrams_of, nak_frame, status_frame};
ghost use Rattle.log_traffic.specs.Held.{Lies};
ghost use Rattle.log_traffic.specs.Reporting.{IsToReport, Receives, Reports, after_report, are_some};
ghost use Rattle.log_traffic.specs.Whole.{Carries};
ghost use Rattle.std.specs.Prelude.{◌≡◌, ◌<◌, true, IfOk, OnErr, OnOk};

use crate::any_log::AnyLog;
use crate::frames::{nak_frame, status_frame};
use crate::receiver::{Due, Receiver, Status};
use byte_strings::{Bytes, Items};
use frame_codec::{StatusMessage, write_nak, write_sm};
use image_log::Ident;
use retransmit_gate::Nak;
use std::alloc::{AllocError, Global};

/// The datagram of a NAK.
fn nak_datagram(alloc: Global, ident: &Ident, nak: &Nak) -> Result<Bytes, AllocError>
    requires { 0 < ident.now.term_length }
    ensures { IfOk result (λ bytes. bytes ≡ nak_bytes (nak_frame ident.now nak.now)) }
{
    let mut bytes = [0; frame_codec::Nak::SIZE];
    write_nak(&mut bytes, &nak_frame(ident, nak));
    Bytes::new(alloc, &bytes)
}

/// The datagram of a status message.
fn status_datagram(
    alloc: Global,
    ident: &Ident,
    receiver_id: u64,
    status: &Status,
) -> Result<Bytes, AllocError>
    requires { 0 < ident.now.term_length }
    ensures { IfOk result (λ bytes. bytes ≡ status_bytes (status_frame ident.now receiver_id status.now)) }
{
    let mut bytes = [0; StatusMessage::SIZE];
    write_sm(&mut bytes, &status_frame(ident, receiver_id, status));
    Bytes::new(alloc, &bytes)
}

/// The datagrams of what is due, the NAK first. Where nothing is, they take no memory.
#[tactic(auto, unfolding(crate::specs::Frames::datagrams_of))]
fn datagrams_of(
    alloc: Global,
    ident: &Ident,
    receiver_id: u64,
    due: &Due,
) -> Result<Items<Bytes>, AllocError>
    requires { 0 < ident.now.term_length }
    ensures exact { IfOk result (λ datagrams. datagrams ≡ datagrams_of ident.now receiver_id due.now) }
    ensures without_memory { OnErr result (are_some (datagrams_of ident.now receiver_id due.now) ≡ true) }
{
    let mut datagrams = Items::new(alloc);
    if let Some(nak) = &due.nak {
        datagrams.push(nak_datagram(alloc, ident, nak)?)?;
    }
    if let Some(status) = &due.status {
        datagrams.push(status_datagram(alloc, ident, receiver_id, status)?)?;
    }
    Ok(datagrams)
}

impl AnyLog {
    /// The receiver of a remote stream, whose id is `receiver_id`, has a turn at a moment, in nanoseconds: the answer is the
    /// datagrams that are due, the NAK first, which count as reported from then on. A publication has no publisher elsewhere,
    /// which `None` says.
    ///
    /// # Errors
    /// Nothing is changed where there is no memory for the datagrams. Where none is due, it takes none.
    pub fn report(
        &mut self,
        alloc: Global,
        receiver: &mut Receiver,
        receiver_id: u64,
        now: u64,
    ) -> Result<Option<Items<Bytes>>, AllocError>
        ensures report { IfOk result (λ report. Reports self.old now receiver_id receiver.old report) }
        ensures whole { OnOk result (Carries self.old self.new (after_report now receiver.old)) }
        ensures receiver { OnOk result (Receives self.old now receiver.old receiver.new) }
        ensures lies { Lies self.old self.new }
        ensures err { OnErr result ((self.new ≡ self.old) × (receiver.new ≡ receiver.old)) }
        ensures without_memory { OnErr result (IsToReport self.old now receiver_id receiver.old) }
    {
        let AnyLog::Image(log) = self else {
            return Ok(None);
        };
        let turn = receiver.due(now, log);
        let datagrams = datagrams_of(alloc, &log.ident(), receiver_id, &turn.due)?;
        receiver.pass(now, log, turn);
        Ok(Some(datagrams))
    }
}

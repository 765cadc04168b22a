//! The frames by which a receiver reports to the sender of an image what is missing, and how far it is.

ghost use Rattle.log_traffic.specs.Frames.{nak_frame, status_frame};
ghost use Rattle.std.specs.Prelude.{◌≡◌, ◌<◌};

use crate::receiver::Status;
use frame_codec::{Flags, StatusMessage, term_of};
use image_log::Ident;
use retransmit_gate::Nak;

/// The greatest length that a NAK can name, in bytes. No gap of a log is as long.
const LONGEST: u32 = 2_147_483_647;

/// The NAK of a gap in the stream of a log: its term and offset are those of the gap's first position.
pub fn nak_frame(ident: &Ident, nak: &Nak) -> frame_codec::Nak
    requires { 0 < ident.now.term_length }
    ensures { result ≡ nak_frame ident.now nak.now }
{
    let (term_id, term_offset) = term_of(ident.initial_term_id, nak.position, ident.term_length);
    frame_codec::Nak {
        flags: Flags::NONE,
        session_id: ident.session_id,
        stream_id: ident.stream_id,
        term_id,
        term_offset,
        length: nak.length.min(LONGEST) as i32,
    }
}

/// The status message of a receiver of that id, for the stream of a log.
pub fn status_frame(ident: &Ident, receiver_id: u64, status: &Status) -> StatusMessage
    requires { 0 < ident.now.term_length }
    ensures { result ≡ status_frame ident.now receiver_id status.now }
{
    let (term_id, term_offset) = term_of(ident.initial_term_id, status.base, ident.term_length);
    StatusMessage {
        flags: Flags::NONE,
        session_id: ident.session_id,
        stream_id: ident.stream_id,
        consumption_term_id: term_id,
        consumption_term_offset: term_offset,
        receiver_window: status.window,
        receiver_id,
    }
}

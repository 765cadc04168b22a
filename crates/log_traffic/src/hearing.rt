//! What receivers report to a publication's log by status messages.

ghost use Rattle.log_traffic.specs.Hearing.{answer_of, heard_of, sending_after};
ghost use Rattle.std.specs.Prelude.{◌≡◌, ◌≤◌};
ghost use Rattle.term_log.specs.Whole.{Carries};

use frame_codec::{StatusMessage, position};
use term_log::{Status, TermLog};

/// What becomes of a status message.
#[derive(Clone, Copy, Debug, PartialEq, Eq)]
pub enum StatusAnswer {
    /// It asks for a SETUP, and does nothing else.
    Elicited,
    /// The log is connected, and may be sent up to this position.
    Limit(u64),
    /// It names a position beyond the sender's, and is dropped.
    OutOfWindow,
}

/// A status message of the log's session and stream came at the moment `now`, in nanoseconds.
///
/// With the flag that asks for a SETUP it does only that, whatever position it names. Beyond the sender's position it is
/// dropped. Else the log is connected from then on, and may be sent as far past that position as the receiver has room,
/// half a term at most; or as far as it might before, where that is further.
#[tactic(auto, unfolding(crate::specs::Hearing::answer_of))]
pub fn receive_status(log: &mut TermLog, now: u64, message: &StatusMessage) -> StatusAnswer
    ensures answer { result ≡ answer_of log.old.kept.ident log.old.sender message.now }
    ensures exact { log.new ≡ record log.old { sender = sending_after now log.old.kept.ident log.old.sender message.now } }
    ensures rises { log.old.sender.limit ≤ log.new.sender.limit }
    ensures whole { Carries log.old log.new (heard_of now message.now) }
{
    if message.flags.asks_for_setup() {
        log.elicit();
        return StatusAnswer::Elicited;
    }
    let ident = log.ident();
    let position = position(
        ident.initial_term,
        message.consumption_term_id,
        message.consumption_term_offset,
        ident.term_length,
    );
    match log.status(now, position, message.receiver_window) {
        Status::Accepted(limit) => StatusAnswer::Limit(limit),
        Status::OutOfWindow => StatusAnswer::OutOfWindow,
    }
}

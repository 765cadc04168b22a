//! What receivers ask of a publication's log by NAKs.

ghost use Rattle.log_traffic.specs.Resending.{IsNakAnswer, asked_at, asking_of, gate_after, window_at};
ghost use Rattle.retransmit_gate.specs.ResendLaws.{answer_to};
ghost use Rattle.std.specs.Prelude.{◌≡◌};
ghost use Rattle.term_log.specs.Ident.{IsIdent};

use crate::datagrams::Datagrams;
use frame_codec::{Nak, position};
use policy_core::Decision;
use retransmit_gate::{Answer, Gate};
use std::ops::Range;
use term_log::{Ident, TermLog};

/// What becomes of a NAK.
#[derive(Debug, Drop)]
pub enum NakAnswer<'a> {
    /// The policy does not let who asked have frames again, by this decision.
    Denied(Decision),
    /// It asks for nothing.
    Empty,
    /// It asks for what may not be sent again.
    OutOfWindow,
    /// It meets what was sent again lately.
    Lingering,
    /// Too much was sent again lately.
    Busy,
    /// These datagrams go to who asked, and to nobody else.
    Resent(Datagrams<'a>),
}

/// The positions that may be sent again.
#[tactic(auto, unfolding(crate::specs::Resending::window_at))]
fn window_of(log: &TermLog) -> Range<u64>
    ensures { result ≡ window_at log.now.kept.ident log.now.kept.tail log.now.sender.position }
{
    let sent = log.sender_position();
    let term_length = u64::from(log.ident().term_length);
    log.low().max(sent.saturating_sub(term_length))..sent
}

/// The position that a NAK asks for.
fn asked_at(ident: &Ident, nak: &Nak) -> u64
    requires { IsIdent ident.now }
    ensures { result ≡ asked_at ident.now nak.now }
{
    position(
        ident.initial_term,
        nak.term_id,
        nak.term_offset,
        ident.term_length,
    )
}

/// A NAK of the log's session and stream came at the moment `now`, in nanoseconds; `decision` is what the policy says of
/// sending again to who asks. A NAK that is denied is not seen by the log's gate. Else the gate decides, of what is held
/// within one term below the sender's position; where it grants, each frame that the NAK's range meets is sent again, whole,
/// and lingers in the gate from then on.
pub fn answer_nak<'a>(
    log: &'a TermLog,
    gate: &mut Gate,
    now: u64,
    nak: &Nak,
    decision: &Decision,
) -> NakAnswer<'a>
    ensures answer { IsNakAnswer decision.now (answer_to gate.old (asking_of now log.now nak.now)) log.now nak.now result }
    ensures gate { gate.new ≡ gate_after decision.now.verdict.allow gate.old (asking_of now log.now nak.now) }
{
    if !decision.verdict.allow {
        return NakAnswer::Denied(*decision);
    }
    let ident = log.ident();
    let position = asked_at(&ident, nak);
    match gate.on_nak(now, position, nak.length, window_of(log)) {
        Answer::Empty => NakAnswer::Empty,
        Answer::OutOfWindow => NakAnswer::OutOfWindow,
        Answer::Lingering => NakAnswer::Lingering,
        Answer::Busy => NakAnswer::Busy,
        Answer::Resend => {
            let frames = log.frames_over(position, u64::from(nak.length.unsigned_abs()));
            NakAnswer::Resent(Datagrams::new(frames, ident.term_length, ident.mtu))
        }
    }
}

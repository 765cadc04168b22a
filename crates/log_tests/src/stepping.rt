// A sender's step over frames, by the public clauses of the log alone.
ghost use Rattle.std.specs.Prelude.{◌≡◌};
ghost use Rattle.term_log.specs.SenderSteps.{sent_on};
ghost use Rattle.term_log.specs.Whole.{Carries};

use term_log::{LogKind, TermLog};

/// Takes the frames of a log's next datagram as sent, and says how many bytes the datagram has. A log over IPC has no
/// sender.
pub(crate) fn send(log: &mut TermLog) -> usize
    ensures { log.old.kept.ident.kind ≡ LogKind.Udp → Carries log.old log.new sent_on }
{
    match log.ident().kind {
        LogKind::Ipc => 0,
        LogKind::Udp => {
            let position = log.sender_position();
            let frames = log.frames_from(position, log.send_budget() as usize);
            let (bytes, span) = frames.bytes_and_span();
            let size = bytes.len();
            log.sent(position + span);
            size
        }
    }
}

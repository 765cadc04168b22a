//! What holds of all datagrams, and of all that is sent again: each function does nothing, and its clause is the law.

ghost use Rattle.frame_codec.specs.Datagram as contents;
ghost use Rattle.frame_codec.specs.Datagram.{packet_of};
ghost use Rattle.frame_codec.specs.Frame.{Sent};
ghost use Rattle.image_log.specs.declared.ident.Ident.{Ident};
ghost use Rattle.log_traffic.specs.Receiving.{AreOf, BeginsIn};
ghost use Rattle.log_traffic.specs.ResendLaws.{HeldLogsAreAskedAsWholes, HeldLogsAreSound, ResendsCarryWhatIsAsked};
ghost use Rattle.std.specs.Prelude.{◌≡◌, List, Ok, ℕ};

use frame_codec::{frames_are_of_one_term, frames_are_told};

/// The frames of a datagram that was read may be received by a log where the first is of its session and stream.
pub fn datagrams_may_be_received()
    ensures { (ident : Ident) (bytes : List ℕ) (frames : List Sent) → packet_of bytes ≡ Ok (contents.frames frames)
        → BeginsIn ident frames → AreOf ident frames }
{
    frames_are_told();
    frames_are_of_one_term();
}

/// Of every log whose sizes are sound, whose frames are no longer than the MTU and do not cross the end of a term, the
/// datagrams of a NAK have together exactly the frames whose ranges meet its range, each whole and once, in order. Each
/// datagram has at most as many bytes as the MTU, and frames of one term; the frame after them is of another term, or does
/// not fit. Each log that is held stands for such logs alone.
pub fn resends_carry_what_is_asked()
    ensures carry { ResendsCarryWhatIsAsked }
    ensures sound { HeldLogsAreSound }
{}

/// A NAK asks of a log that is held what it asks of all frames that were ever appended to it.
pub fn held_logs_are_asked_as_wholes()
    ensures { HeldLogsAreAskedAsWholes }
{}

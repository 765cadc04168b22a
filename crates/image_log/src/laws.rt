//! What holds of all logs: each function does nothing, and its clause is the law.

ghost use Rattle.std.specs.Prelude.{◌≡◌};
ghost use Rattle.frame_codec.specs.Frame.{Sent};
ghost use Rattle.frame_codec.specs.Sound.{IsTold};
ghost use Rattle.image_log.specs.Handed.{IsFor, position_in};
ghost use Rattle.image_log.specs.PollLaws.{PollsGiveFrames};
ghost use Rattle.image_log.specs.declared.ident.Ident.{Ident};

/// A frame of a datagram may be handed in to a log of its session and stream, at its header's position.
pub fn frames_may_be_handed_in()
    ensures { (ident : Ident) (frame : Sent) → IsTold frame → frame.header.place.session_id ≡ ident.session_id
        → frame.header.place.stream_id ≡ ident.stream_id → IsFor ident (position_in ident frame.header.place) frame.bytes }
{}

/// Each fragment that a poll gives is a data frame of the log: it has the frame's flags and what the frame carries, and
/// names the position after it.
pub fn polls_give_frames()
    ensures { PollsGiveFrames }
{}

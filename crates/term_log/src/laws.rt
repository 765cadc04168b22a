//! What holds of all polls, and of all offers.

ghost use Rattle.term_log.specs.Counting.{OffersCountMessages};
ghost use Rattle.term_log.specs.PollLaws.{PollsGiveFrames};

/// Each fragment that a poll gives is a frame that was appended to the log: it has the frame's flags and what the frame
/// carries, and names the position after it.
pub fn polls_give_frames()
    ensures { PollsGiveFrames }
{}

/// An offer has one message more exactly where it is answered by a position: the frames of one message begin one.
pub fn offers_count_messages()
    ensures { OffersCountMessages }
{}

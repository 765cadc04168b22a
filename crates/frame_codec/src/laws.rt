//! What holds of all frames: each function does nothing, and its clause is the law.

ghost use Rattle.std.specs.Prelude.{◌≡◌, ◌+◌, ◌*◌, ◌%◌, ◌^◌, ◌<◌, ◌++◌, ◌∷◌, FitsSigned, List, Ok, drop, pos, ℕ, ℤ};
ghost use Rattle.std.specs.Int.{w32};
ghost use Rattle.frame_codec.specs.Datagram as contents;
ghost use Rattle.frame_codec.specs.Datagram.{packet_of};
ghost use Rattle.frame_codec.specs.Fields.{IsBytes, number_at};
ghost use Rattle.frame_codec.specs.FlagLaws.{FlagsAreRead, FlagsAreWritten};
ghost use Rattle.frame_codec.specs.Frame.{Sent, beat_bytes};
ghost use Rattle.frame_codec.specs.Header.{plain_header};
ghost use Rattle.frame_codec.specs.Join.{JoinsAreSound};
ghost use Rattle.frame_codec.specs.Nak.{nak_bytes};
ghost use Rattle.frame_codec.specs.Position.{position_of, term_id_of};
ghost use Rattle.frame_codec.specs.Setup.{setup_bytes};
ghost use Rattle.frame_codec.specs.Sound.{AreOfOneTerm, AreTold};
ghost use Rattle.frame_codec.specs.StatusMessage.{status_bytes};
ghost use Rattle.frame_codec.specs.Written.{AreBehind, AreKept, ArePlain, IsNak, IsPlace, IsSetup, IsStatusMessage, IsWritten, StandIn, Written, all_bytes, all_frames, all_written, written_frame};
ghost use Rattle.frame_codec.specs.declared.flags.Flags.{Flags};
ghost use Rattle.frame_codec.specs.declared.header.Header.{Header};
ghost use Rattle.frame_codec.specs.declared.header.Kind.TheVariants.{Data};
ghost use Rattle.frame_codec.specs.declared.header.TermPlace.{TermPlace};
ghost use Rattle.frame_codec.specs.declared.nak.Nak.{Nak};
ghost use Rattle.frame_codec.specs.declared.setup.Setup.{Setup};
ghost use Rattle.frame_codec.specs.declared.status_message.StatusMessage.{StatusMessage};

/// Data frames and pads that are written one after another are read as those frames.
pub fn frames_read_back()
    ensures { (first : Written) (later : List Written) → IsWritten first → AreBehind (written_frame first).header later
        → packet_of (all_bytes (first ∷ later)) ≡ Ok (contents.frames (all_frames (first ∷ later))) }
{}

/// A heartbeat that is written is read as that heartbeat.
pub fn heartbeats_read_back()
    ensures { (flags : Flags) (place : TermPlace) → IsPlace place
        → packet_of (beat_bytes flags place) ≡ Ok (contents.beat (plain_header Data 0 flags place)) }
{}

/// A NAK that is written is read as that NAK, whatever stands after it.
pub fn naks_read_back()
    ensures { (nak : Nak) (rest : List ℕ) → IsNak nak → packet_of (nak_bytes nak ++ rest) ≡ Ok (contents.nak nak) }
{}

/// A status message that is written is read as that message, whatever stands after it.
pub fn status_messages_read_back()
    ensures { (message : StatusMessage) (rest : List ℕ) → IsStatusMessage message
        → packet_of (status_bytes message ++ rest) ≡ Ok (contents.status message) }
{}

/// A SETUP that is written is read as that SETUP, whatever stands after it.
pub fn setups_read_back()
    ensures { (setup : Setup) (rest : List ℕ) → IsSetup setup → packet_of (setup_bytes setup ++ rest) ≡ Ok (contents.setup setup) }
{}

/// The bytes of each data frame and pad that was read are those that its header is written with, and then its payload.
pub fn frames_write_back()
    ensures { (bytes : List ℕ) (frames : List Sent) → IsBytes bytes → packet_of bytes ≡ Ok (contents.frames frames) → AreKept frames }
{}

/// The bytes of a datagram of data frames and pads are those of its frames, in order, each with its filling after it up
/// to the next multiple of 32; after the last the filling may be cut off.
pub fn frames_stand_in_datagrams()
    ensures { (bytes : List ℕ) (frames : List Sent) → packet_of bytes ≡ Ok (contents.frames frames) → StandIn frames bytes }
{}

/// Each frame of a datagram of data frames and pads is sound: its bytes are those of one data frame without its filling, or
/// of one pad by its header alone, with a length below 2^31 at an offset that is a multiple of 32, and its header is what
/// stands in them. So it may be handed in to a log of its session and stream.
pub fn frames_are_told()
    ensures { (bytes : List ℕ) (frames : List Sent) → packet_of bytes ≡ Ok (contents.frames frames) → AreTold frames }
{}

/// A datagram of data frames and pads has one frame at least, and all of them are of one session, one stream and one term.
pub fn frames_are_of_one_term()
    ensures { (bytes : List ℕ) (frames : List Sent) → packet_of bytes ≡ Ok (contents.frames frames) → AreOfOneTerm frames }
{}

/// Data frames and pads that are written one after another have the reserved values and the filling that frames are
/// written with here.
pub fn written_frames_are_plain()
    ensures { (frames : List Written) → ArePlain (all_frames frames) (all_bytes frames) }
{}

/// A datagram of data frames and pads that was read, and has the reserved values and the filling that frames are written
/// with here, is written, frame by frame, as the same bytes.
pub fn datagrams_write_back()
    ensures { (bytes : List ℕ) (frames : List Sent) → IsBytes bytes → packet_of bytes ≡ Ok (contents.frames frames)
        → ArePlain frames bytes → all_bytes (all_written frames) ≡ bytes }
{}

/// A heartbeat that was read, and has the reserved value that one is written with here, is written as the same bytes.
pub fn heartbeats_write_back()
    ensures { (bytes : List ℕ) (header : Header) → IsBytes bytes → packet_of bytes ≡ Ok (contents.beat header)
        → header.reserved_value ≡ 0 → beat_bytes header.flags header.place ≡ bytes }
{}

/// A NAK that was read, and has the length and flags that a NAK is written with here, is written as the same bytes.
pub fn naks_write_back()
    ensures { (bytes : List ℕ) (nak : Nak) → IsBytes bytes → packet_of bytes ≡ Ok (contents.nak nak)
        → number_at 0 bytes ≡ 28 → nak.flags.bits ≡ 0 → nak_bytes nak ++ drop 28 bytes ≡ bytes }
{}

/// A status message that was read, and has the length and flags that one is written with here, is written as the same
/// bytes.
pub fn status_messages_write_back()
    ensures { (bytes : List ℕ) (message : StatusMessage) → IsBytes bytes → packet_of bytes ≡ Ok (contents.status message)
        → number_at 0 bytes ≡ 36 → message.flags.bits ≡ 0 → status_bytes message ++ drop 36 bytes ≡ bytes }
{}

/// A SETUP that was read, and has the length, flags and TTL that one is written with here, is written as the same bytes.
pub fn setups_write_back()
    ensures { (bytes : List ℕ) (setup : Setup) → IsBytes bytes → packet_of bytes ≡ Ok (contents.setup setup)
        → number_at 0 bytes ≡ 40 → setup.flags.bits ≡ 0 → setup.ttl ≡ pos 0 → setup_bytes setup ++ drop 40 bytes ≡ bytes }
{}

/// The flags of what is read and written are the sixth byte of its frame, in which [`Flags::begins_message`] and its like
/// name a bit each.
///
/// [`Flags::begins_message`]: crate::Flags::begins_message
pub fn flags_are_the_sixth_byte()
    ensures read { FlagsAreRead }
    ensures written { FlagsAreWritten }
{}

/// The place of a position is the place that it is the position of; ids of terms wrap.
pub fn places_are_told_by_positions()
    ensures term { (initial term : ℤ) (offset size : ℕ) → FitsSigned w32 initial → FitsSigned w32 term → offset < size
        → term_id_of initial (position_of initial term offset size) size ≡ term }
    ensures offset { (initial term : ℤ) (offset size : ℕ) → offset < size → position_of initial term offset size % size ≡ offset }
{}

/// The position of the place of a position is that position, up to 2^32 terms.
pub fn positions_are_told_by_places()
    ensures { (initial : ℤ) (position size : ℕ) → FitsSigned w32 initial → 0 < size → position < size * 2 ^ 32
        → position_of initial (term_id_of initial position size) (position % size) size ≡ position }
{}

/// An image joins at the start of a frame, below the greatest position, in a stream of sizes that a log may have.
pub fn joins_are_sound()
    ensures { JoinsAreSound }
{}

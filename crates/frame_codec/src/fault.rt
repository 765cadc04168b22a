ghost use Rattle.frame_codec.specs.Fault.{fault_text};
ghost use Rattle.std.specs.Prelude.{Some};

use std::error::Error;
use std::fmt;

/// Why a datagram is dropped: the whole of it, by the first fault of its first faulty frame. The faults of a frame are
/// looked for in the order in which they stand here, but for one: whether there are as many bytes as the frame's type has
/// at least is looked at after version and type.
#[derive(Clone, Copy, Debug, PartialEq, Eq)]
pub enum BadPacket {
    /// There are fewer than 8 bytes, or fewer than the frame's type has at least. Of the bytes after a frame and its
    /// filling, or after a pad, there are fewer than 32, and not none.
    TooShort,
    /// The version is not 0.
    BadVersion,
    /// The type is none of those read here.
    OtherType,
    /// The stated length does not fit the frame's type or the bytes that are there; or a term offset or a receiver
    /// window is negative.
    BadLength,
    /// A data frame, pad, NAK or SETUP has a term offset that is not a multiple of 32.
    Unaligned,
    /// A later frame is no data frame and no pad, is of another session, stream or term, or does not begin where the
    /// one before it ends; or it stands after a pad.
    Mixed,
}

impl fmt::Display for BadPacket {
    ghost output = { λ fault. Some (fault_text fault) };

    fn fmt<W: fmt::Write>(&self, f: &mut fmt::Formatter<W>) -> fmt::Result {
        match self {
            BadPacket::TooShort => f.write_str("too-short"),
            BadPacket::BadVersion => f.write_str("bad-version"),
            BadPacket::OtherType => f.write_str("other-type"),
            BadPacket::BadLength => f.write_str("bad-length"),
            BadPacket::Unaligned => f.write_str("unaligned"),
            BadPacket::Mixed => f.write_str("mixed"),
        }
    }
}

impl Error for BadPacket {}

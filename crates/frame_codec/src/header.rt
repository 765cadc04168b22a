ghost use Rattle.frame_codec.specs.Header.{header_bytes, header_of, kind_number};
ghost use Rattle.frame_codec.specs.Writing.{Starts};
ghost use Rattle.std.specs.Prelude.{◌≡◌, ◌≤◌, length};

use crate::flags::Flags;
use crate::{fields, writing};

/// What takes a place in a term.
#[derive(Clone, Copy, Debug, PartialEq, Eq)]
pub enum Kind {
    /// A part of a message.
    Data,
    /// Nothing, up to the end of the term.
    Pad,
}

impl Kind {
    /// The number of the kind's type.
    fn number(self) -> u16
        ensures { result ≡ kind_number self }
    {
        match self {
            Kind::Pad => 0,
            Kind::Data => 1,
        }
    }
}

/// Where a frame stands: in which stream of which session, in which term, and where in the term.
#[derive(Clone, Copy, Debug, PartialEq, Eq)]
pub struct TermPlace {
    pub session_id: i32,
    pub stream_id: i32,
    pub term_id: i32,
    /// In bytes from the start of the term.
    pub term_offset: u32,
}

/// The header of a data frame, a pad or a heartbeat.
#[derive(Clone, Copy, Debug, PartialEq, Eq)]
pub struct Header {
    pub kind: Kind,
    /// In bytes: of a data frame its header and payload, without filling; of a pad all that it covers; of a
    /// heartbeat 0.
    pub length: u32,
    pub flags: Flags,
    pub place: TermPlace,
    pub reserved_value: u64,
}

impl Header {
    /// How many bytes a header has.
    pub const SIZE: usize = 32;

    /// The header in the first 32 bytes, of that kind, length and term offset.
    #[tactic(auto, unfolding(crate::specs::Header::header_of))]
    #[inline(always)]
    pub(crate) fn read(kind: Kind, size: u32, term_offset: u32, bytes: &[u8]) -> Header
        requires { 32 ≤ length bytes.now }
        ensures { result ≡ header_of kind size term_offset bytes.now }
    {
        Header {
            kind,
            length: size,
            flags: Flags {
                bits: fields::byte(bytes, 5),
            },
            place: TermPlace {
                session_id: fields::signed(bytes, 12),
                stream_id: fields::signed(bytes, 16),
                term_id: fields::signed(bytes, 20),
                term_offset,
            },
            reserved_value: fields::long(bytes, 24),
        }
    }

    /// Writes the header at the front.
    pub(crate) fn put(&self, out: &mut [u8])
        requires { 32 ≤ length out.old }
        ensures { Starts out.old out.new 32 (header_bytes self.now) }
    {
        writing::put_front(out, self.length, self.flags, self.kind.number());
        writing::put_u32(out, 8, self.place.term_offset);
        writing::put_i32(out, 12, self.place.session_id);
        writing::put_i32(out, 16, self.place.stream_id);
        writing::put_i32(out, 20, self.place.term_id);
        writing::put_u64(out, 24, self.reserved_value);
    }
}

ghost use Rattle.frame_codec.specs.Nak.{nak_bytes, nak_of};
ghost use Rattle.std.specs.Prelude.{◌≡◌, ◌≤◌, ◌++◌, length, drop};

use crate::fault::BadPacket;
use crate::flags::Flags;
use crate::{fields, writing};

/// A receiver asks for bytes of a term again (NAK).
#[derive(Clone, Copy, Debug, PartialEq, Eq)]
pub struct Nak {
    pub flags: Flags,
    pub session_id: i32,
    pub stream_id: i32,
    pub term_id: i32,
    /// In bytes from the start of the term.
    pub term_offset: u32,
    /// How many bytes are asked for. A length that is not above 0 asks for none.
    pub length: i32,
}

impl Nak {
    /// How many bytes a NAK has.
    pub const SIZE: usize = 28;

    #[tactic(auto, unfolding(crate::specs::Nak::nak_of, crate::specs::Nak::nak_at))]
    #[inline(always)]
    pub(crate) fn read(bytes: &[u8]) -> Result<Nak, BadPacket>
        requires { 28 ≤ length bytes.now }
        ensures { result ≡ nak_of bytes.now }
    {
        fields::stated_length(bytes, 28)?;
        let term_offset = fields::natural(bytes, 20)?;
        let term_offset = fields::aligned(term_offset)?;
        Ok(Nak {
            flags: Flags {
                bits: fields::byte(bytes, 5),
            },
            session_id: fields::signed(bytes, 8),
            stream_id: fields::signed(bytes, 12),
            term_id: fields::signed(bytes, 16),
            term_offset,
            length: fields::signed(bytes, 24),
        })
    }
}

/// Writes a NAK at the front, without flags. What follows it stays.
pub fn write_nak(out: &mut [u8], nak: &Nak)
    requires { 28 ≤ length out.old }
    ensures { out.new ≡ nak_bytes nak.now ++ drop 28 out.old }
{
    writing::put_front(out, 28, Flags::NONE, 2);
    writing::put_i32(out, 8, nak.session_id);
    writing::put_i32(out, 12, nak.stream_id);
    writing::put_i32(out, 16, nak.term_id);
    writing::put_u32(out, 20, nak.term_offset);
    writing::put_i32(out, 24, nak.length);
}

ghost use Rattle.frame_codec.specs.Setup.{setup_bytes, setup_of};
ghost use Rattle.std.specs.Prelude.{◌≡◌, ◌≤◌, ◌++◌, length, drop};

use crate::fault::BadPacket;
use crate::flags::Flags;
use crate::{fields, writing};

/// A sender announces its stream and where it stands (SETUP).
#[derive(Clone, Copy, Debug, PartialEq, Eq)]
pub struct Setup {
    pub flags: Flags,
    /// In bytes from the start of the active term.
    pub term_offset: u32,
    pub session_id: i32,
    pub stream_id: i32,
    pub initial_term_id: i32,
    pub active_term_id: i32,
    /// In bytes, as it was sent: whether a term may be so long is not looked at here.
    pub term_length: i32,
    /// In bytes, as it was sent.
    pub mtu: i32,
    pub ttl: i32,
}

impl Setup {
    /// How many bytes a SETUP has; one that is read may have more.
    pub const SIZE: usize = 40;

    #[tactic(auto, unfolding(crate::specs::Setup::setup_of, crate::specs::Setup::setup_at))]
    #[inline(always)]
    pub(crate) fn read(bytes: &[u8]) -> Result<Setup, BadPacket>
        requires { 40 ≤ length bytes.now }
        ensures { result ≡ setup_of bytes.now }
    {
        fields::stated_length(bytes, 40)?;
        let term_offset = fields::natural(bytes, 8)?;
        let term_offset = fields::aligned(term_offset)?;
        Ok(Setup {
            flags: Flags {
                bits: fields::byte(bytes, 5),
            },
            term_offset,
            session_id: fields::signed(bytes, 12),
            stream_id: fields::signed(bytes, 16),
            initial_term_id: fields::signed(bytes, 20),
            active_term_id: fields::signed(bytes, 24),
            term_length: fields::signed(bytes, 28),
            mtu: fields::signed(bytes, 32),
            ttl: fields::signed(bytes, 36),
        })
    }
}

/// Writes a SETUP at the front, without flags and with TTL 0. What follows it stays.
pub fn write_setup(out: &mut [u8], setup: &Setup)
    requires { 40 ≤ length out.old }
    ensures { out.new ≡ setup_bytes setup.now ++ drop 40 out.old }
{
    writing::put_front(out, 40, Flags::NONE, 5);
    writing::put_u32(out, 8, setup.term_offset);
    writing::put_i32(out, 12, setup.session_id);
    writing::put_i32(out, 16, setup.stream_id);
    writing::put_i32(out, 20, setup.initial_term_id);
    writing::put_i32(out, 24, setup.active_term_id);
    writing::put_i32(out, 28, setup.term_length);
    writing::put_i32(out, 32, setup.mtu);
    writing::put_i32(out, 36, 0);
}

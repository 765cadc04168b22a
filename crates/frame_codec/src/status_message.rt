ghost use Rattle.frame_codec.specs.StatusMessage.{status_bytes, status_of};
ghost use Rattle.std.specs.Prelude.{◌≡◌, ◌≤◌, ◌++◌, length, drop};

use crate::fault::BadPacket;
use crate::flags::Flags;
use crate::{fields, writing};

/// A receiver reports what it has taken, and for how much more it has room (SM).
#[derive(Clone, Copy, Debug, PartialEq, Eq)]
pub struct StatusMessage {
    /// With [`Flags::SEND_SETUP`] a SETUP is asked for.
    pub flags: Flags,
    pub session_id: i32,
    pub stream_id: i32,
    pub consumption_term_id: i32,
    /// In bytes from the start of the term; of any alignment.
    pub consumption_term_offset: u32,
    /// In bytes after the consumption position.
    pub receiver_window: u32,
    pub receiver_id: u64,
}

impl StatusMessage {
    /// How many bytes a status message has; one that is read may have more.
    pub const SIZE: usize = 36;

    #[tactic(auto, unfolding(crate::specs::StatusMessage::status_of, crate::specs::StatusMessage::status_at))]
    #[inline(always)]
    pub(crate) fn read(bytes: &[u8]) -> Result<StatusMessage, BadPacket>
        requires { 36 ≤ length bytes.now }
        ensures { result ≡ status_of bytes.now }
    {
        fields::stated_length(bytes, 36)?;
        let consumption_term_offset = fields::natural(bytes, 20)?;
        let receiver_window = fields::natural(bytes, 24)?;
        Ok(StatusMessage {
            flags: Flags {
                bits: fields::byte(bytes, 5),
            },
            session_id: fields::signed(bytes, 8),
            stream_id: fields::signed(bytes, 12),
            consumption_term_id: fields::signed(bytes, 16),
            consumption_term_offset,
            receiver_window,
            receiver_id: fields::long(bytes, 28),
        })
    }
}

/// Writes a status message at the front, without flags. What follows it stays.
pub fn write_sm(out: &mut [u8], message: &StatusMessage)
    requires { 36 ≤ length out.old }
    ensures { out.new ≡ status_bytes message.now ++ drop 36 out.old }
{
    writing::put_front(out, 36, Flags::NONE, 3);
    writing::put_i32(out, 8, message.session_id);
    writing::put_i32(out, 12, message.stream_id);
    writing::put_i32(out, 16, message.consumption_term_id);
    writing::put_u32(out, 20, message.consumption_term_offset);
    writing::put_u32(out, 24, message.receiver_window);
    writing::put_u64(out, 28, message.receiver_id);
}

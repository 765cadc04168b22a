ghost use Rattle.frame_codec.specs.FrameType.{type_numbered, type_of, type_size};
ghost use Rattle.std.specs.Prelude.{◌≡◌, ◌≤◌, length, IfOk};

use crate::fault::BadPacket;
use crate::fields;

/// The types of frames that are read here.
#[derive(Clone, Copy)]
pub(crate) enum FrameType {
    Pad,
    Data,
    Nak,
    StatusMessage,
    Setup,
}

impl FrameType {
    fn from_number(number: u16) -> Result<FrameType, BadPacket>
        ensures { result ≡ type_numbered number }
    {
        match number {
            0 => Ok(FrameType::Pad),
            1 => Ok(FrameType::Data),
            2 => Ok(FrameType::Nak),
            3 => Ok(FrameType::StatusMessage),
            5 => Ok(FrameType::Setup),
            _ => Err(BadPacket::OtherType),
        }
    }

    /// How many bytes a frame of the type has at least.
    fn size(self) -> usize
        ensures { result ≡ type_size self }
    {
        match self {
            FrameType::Pad | FrameType::Data => 32,
            FrameType::Nak => 28,
            FrameType::StatusMessage => 36,
            FrameType::Setup => 40,
        }
    }

    /// The type of the frame at the front, of which there are as many bytes as its type has at least.
    #[tactic(auto, unfolding(crate::specs::FrameType::type_of))]
    #[inline(always)]
    pub(crate) fn read(bytes: &[u8]) -> Result<FrameType, BadPacket>
        ensures exact { result ≡ type_of bytes.now }
        ensures within { IfOk result (λ kind. type_size kind ≤ length bytes.now) }
    {
        if bytes.len() < 8 {
            return Err(BadPacket::TooShort);
        }
        if fields::byte(bytes, 4) != 0 {
            return Err(BadPacket::BadVersion);
        }
        let frame_type = FrameType::from_number(fields::half(bytes, 6))?;
        if bytes.len() < frame_type.size() {
            return Err(BadPacket::TooShort);
        }
        Ok(frame_type)
    }
}

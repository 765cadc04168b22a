ghost use Rattle.frame_codec.specs.Steps.{Equals};
ghost use Rattle.frame_codec.specs.Datagram.{content, data_content, packet_of};
ghost use Rattle.std.specs.Prelude.{◌≤◌, length};

use crate::fault::BadPacket;
use crate::frame_type::FrameType;
use crate::frames::Frames;
use crate::header::Header;
use crate::nak::Nak;
use crate::setup::Setup;
use crate::status_message::StatusMessage;
use crate::{fields, frame};

/// What a datagram holds.
#[derive(Clone, Copy, Debug)]
pub enum Packet<'a> {
    /// Data frames and pads of one term, one after another: at least one.
    Data(Frames<'a>),
    /// A heartbeat: the sender's position, without data.
    Beat(Header),
    /// A receiver asks for bytes again.
    Nak(Nak),
    /// A receiver reports what it has taken.
    Sm(StatusMessage),
    /// A sender announces its stream.
    Setup(Setup),
}

/// Datagrams are read by [`Datagram::read`].
#[derive(Clone, Copy, Debug)]
pub struct Datagram;

/// A datagram whose first frame is of data: a heartbeat is 32 bytes of which the length is 0.
#[tactic(auto, unfolding(crate::specs::Datagram::data_content))]
#[inline(always)]
fn read_data(bytes: &[u8]) -> Result<Packet<'_>, BadPacket>
    requires { 32 ≤ length bytes.now }
    ensures { Equals content result (data_content bytes.now) }
{
    if bytes.len() != Header::SIZE {
        return Ok(Packet::Data(Frames::read(bytes)?));
    }
    if fields::number(bytes, 0) != 0 {
        return Ok(Packet::Data(Frames::read(bytes)?));
    }
    Ok(Packet::Beat(frame::read_beat(bytes)?))
}

impl Datagram {
    /// What the datagram holds, or the first fault of its first faulty frame. Looked at are, in this order: whether there
    /// are 8 bytes, and 32 of a later frame; the version; the type; whether there are as many bytes as the type has at
    /// least; the length, with term offset and receiver window; the alignment; and of a later frame whether it may stand
    /// there. Bytes after a NAK, a status message or a SETUP are not looked at. Takes no memory.
    #[tactic(auto, unfolding(crate::specs::Datagram::packet_of))]
    pub fn read(bytes: &[u8]) -> Result<Packet<'_>, BadPacket>
        ensures { Equals content result (packet_of bytes.now) }
    {
        match FrameType::read(bytes)? {
            FrameType::Pad => Ok(Packet::Data(Frames::read(bytes)?)),
            FrameType::Data => read_data(bytes),
            FrameType::Nak => Ok(Packet::Nak(Nak::read(bytes)?)),
            FrameType::StatusMessage => Ok(Packet::Sm(StatusMessage::read(bytes)?)),
            FrameType::Setup => Ok(Packet::Setup(Setup::read(bytes)?)),
        }
    }
}

ghost use Rattle.frame_codec.specs.Frame.{IsWithin, beat_bytes, beat_of, data_bytes, data_of, frame_of, pad_bytes, pad_length, pad_of, padded, sent};
ghost use Rattle.frame_codec.specs.Steps.{Equals};
ghost use Rattle.std.specs.Prelude.{◌≡◌, ◌+◌, ◌≤◌, ◌++◌, length, drop, IfOk};

use crate::fault::BadPacket;
use crate::flags::Flags;
use crate::frame_type::FrameType;
use crate::header::{Header, Kind, TermPlace};
use crate::nak::Nak;
use crate::setup::Setup;
use crate::status_message::StatusMessage;
use crate::{fields, writing};

/// A data frame or a pad, as it stands in a datagram.
#[derive(Clone, Copy, Debug)]
pub struct Frame<'a> {
    pub header: Header,
    /// The frame's bytes: of a data frame header and payload, without the filling after them; of a pad its header.
    pub bytes: &'a [u8],
}

/// The length of a pad: a positive multiple of 32.
fn pad_length(length: u32) -> Result<u32, BadPacket>
    ensures { result ≡ pad_length length }
{
    if length == 0 {
        return Err(BadPacket::BadLength);
    }
    if length % fields::ALIGNMENT == 0 {
        Ok(length)
    } else {
        Err(BadPacket::BadLength)
    }
}

impl<'a> Frame<'a> {
    /// The bytes of a message that the frame carries; a pad has none.
    #[tactic(auto, using(std::proofs::lemmas::List::drop_min))]
    pub fn payload(&self) -> &'a [u8]
        ensures { result.now ≡ drop 32 self.now.bytes.now }
    {
        let (_, payload) = self.bytes.split_at(Header::SIZE.min(self.bytes.len()));
        payload
    }

    #[tactic(auto, unfolding(crate::specs::Frame::data_of))]
    #[inline(always)]
    fn read_data(bytes: &'a [u8]) -> Result<Frame<'a>, BadPacket>
        requires { 32 ≤ length bytes.now }
        ensures exact { Equals sent result (data_of bytes.now) }
        ensures within { IfOk result (λ frame. IsWithin frame bytes.now) }
    {
        let length = fields::stated_length(bytes, 32)?;
        let term_offset = fields::natural(bytes, 8)?;
        let term_offset = fields::aligned(term_offset)?;
        Ok(Frame {
            header: Header::read(Kind::Data, length, term_offset, bytes),
            bytes: &bytes[..length as usize],
        })
    }

    #[tactic(auto, unfolding(crate::specs::Frame::pad_of))]
    #[inline(always)]
    fn read_pad(bytes: &'a [u8]) -> Result<Frame<'a>, BadPacket>
        requires { 32 ≤ length bytes.now }
        ensures exact { Equals sent result (pad_of bytes.now) }
        ensures within { IfOk result (λ frame. IsWithin frame bytes.now) }
    {
        let stated = fields::natural(bytes, 0)?;
        let length = pad_length(stated)?;
        let term_offset = fields::natural(bytes, 8)?;
        let term_offset = fields::aligned(term_offset)?;
        Ok(Frame {
            header: Header::read(Kind::Pad, length, term_offset, bytes),
            bytes: &bytes[..Header::SIZE],
        })
    }

    /// The data frame or pad at the front. A sound frame of another type is `Mixed`: it has no place among those.
    #[tactic(auto, unfolding(crate::specs::Frame::frame_of))]
    #[inline(always)]
    pub(crate) fn read(bytes: &'a [u8]) -> Result<Frame<'a>, BadPacket>
        ensures exact { Equals sent result (frame_of bytes.now) }
        ensures within { IfOk result (λ frame. IsWithin frame bytes.now) }
    {
        match FrameType::read(bytes)? {
            FrameType::Pad => Frame::read_pad(bytes),
            FrameType::Data => Frame::read_data(bytes),
            FrameType::Nak => {
                Nak::read(bytes)?;
                Err(BadPacket::Mixed)
            }
            FrameType::StatusMessage => {
                StatusMessage::read(bytes)?;
                Err(BadPacket::Mixed)
            }
            FrameType::Setup => {
                Setup::read(bytes)?;
                Err(BadPacket::Mixed)
            }
        }
    }
}

/// The heartbeat in the first 32 bytes.
#[tactic(auto, unfolding(crate::specs::Frame::beat_of))]
pub(crate) fn read_beat(bytes: &[u8]) -> Result<Header, BadPacket>
    requires { 32 ≤ length bytes.now }
    ensures { result ≡ beat_of bytes.now }
{
    let term_offset = fields::natural(bytes, 8)?;
    let term_offset = fields::aligned(term_offset)?;
    Ok(Header::read(Kind::Data, 0, term_offset, bytes))
}

/// Writes a data frame at the front: header, payload, and zeros up to the next multiple of 32. What follows them
/// stays. The frame is read again as it was written if it is shorter than 2^31 bytes. (Of a longer one's length the
/// lowest four bytes are written.)
pub fn write_data(out: &mut [u8], flags: Flags, place: &TermPlace, payload: &[u8])
    requires { padded (32 + length payload.now) ≤ length out.old }
    ensures { out.new ≡ data_bytes flags place.now payload.now ++ drop (padded (32 + length payload.now)) out.old }
{
    let size = Header::SIZE + payload.len();
    let end = writing::padded(size);
    let header = Header {
        kind: Kind::Data,
        length: (size % (1 << 32)) as u32,
        flags,
        place: *place,
        reserved_value: 0,
    };
    header.put(out);
    writing::put_bytes(out, Header::SIZE, payload);
    writing::put_zeros(out, size, end - size);
}

/// Writes a pad at the front: the header alone, of a pad that covers `size` bytes of its term. What follows it
/// stays.
pub fn write_pad(out: &mut [u8], flags: Flags, place: &TermPlace, size: u32)
    requires { 32 ≤ length out.old }
    ensures { out.new ≡ pad_bytes flags place.now size ++ drop 32 out.old }
{
    let header = Header {
        kind: Kind::Pad,
        length: size,
        flags,
        place: *place,
        reserved_value: 0,
    };
    header.put(out);
}

/// Writes a heartbeat at the front: a header without data, at the sender's position. What follows it stays.
pub fn write_beat(out: &mut [u8], flags: Flags, place: &TermPlace)
    requires { 32 ≤ length out.old }
    ensures { out.new ≡ beat_bytes flags place.now ++ drop 32 out.old }
{
    let header = Header {
        kind: Kind::Data,
        length: 0,
        flags,
        place: *place,
        reserved_value: 0,
    };
    header.put(out);
}

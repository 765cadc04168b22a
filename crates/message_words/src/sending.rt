//! The bytes of datagrams of one frame.

ghost use Rattle.message_words.specs.Frames.{sending_bytes};
ghost use Rattle.frame_codec.specs.Frame.{data_bytes};
ghost use Rattle.std.specs.Prelude.{◌≡◌, IfOk};

use crate::frames::{DataFrame, Sending};
use byte_strings::Bytes;
use frame_codec::{
    Header, Nak, Setup, StatusMessage, write_beat, write_data, write_nak, write_pad, write_setup,
    write_sm,
};
use std::alloc::{AllocError, Global};

fn data_bytes(alloc: Global, fields: &DataFrame) -> Result<Bytes, AllocError>
    ensures { IfOk result (λ bytes. bytes ≡ data_bytes fields.now.flags fields.now.place fields.now.payload) }
{
    let payload = fields.payload.as_slice();
    let size = (Header::SIZE + payload.len() + 31) / 32 * 32;
    let mut out = Vec::from_elem(alloc, 0u8, size)?;
    write_data(out.as_mut_slice(), fields.flags, &fields.place, payload);
    Ok(Bytes::from(out))
}

impl Sending {
    /// The bytes of the datagram, as drivers here write them.
    #[tactic(auto, unfolding(crate::specs::Frames::sending_bytes))]
    pub fn write(&self, alloc: Global) -> Result<Bytes, AllocError>
        ensures { IfOk result (λ bytes. bytes ≡ sending_bytes self.now) }
    {
        match self {
            Sending::Data(fields) => data_bytes(alloc, fields),
            Sending::Pad(fields) => {
                let mut out = Vec::from_elem(alloc, 0u8, Header::SIZE)?;
                write_pad(out.as_mut_slice(), fields.flags, &fields.place, fields.size);
                Ok(Bytes::from(out))
            }
            Sending::Heartbeat(fields) => {
                let mut out = Vec::from_elem(alloc, 0u8, Header::SIZE)?;
                write_beat(out.as_mut_slice(), fields.flags, &fields.place);
                Ok(Bytes::from(out))
            }
            Sending::Nak(fields) => {
                let mut out = Vec::from_elem(alloc, 0u8, Nak::SIZE)?;
                write_nak(out.as_mut_slice(), fields);
                Ok(Bytes::from(out))
            }
            Sending::StatusMessage(fields) => {
                let mut out = Vec::from_elem(alloc, 0u8, StatusMessage::SIZE)?;
                write_sm(out.as_mut_slice(), fields);
                Ok(Bytes::from(out))
            }
            Sending::Setup(fields) => {
                let mut out = Vec::from_elem(alloc, 0u8, Setup::SIZE)?;
                write_setup(out.as_mut_slice(), fields);
                Ok(Bytes::from(out))
            }
        }
    }
}

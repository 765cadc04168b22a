//! The frames that drivers exchange in datagrams, after the Aeron Transport Protocol Specification.
//!
//! `Datagram::read` reads a datagram as what the definition `packet_of` says of its bytes, or names its first fault.
//! Frames of data are lent, not copied. The `write` functions lay frames out as the definitions of their bytes say, in
//! the form that drivers here write: reserved values 0, no flags but those of data. Nothing here takes memory.
#![tactic(auto)]

mod datagram;
mod fault;
mod fields;
mod flags;
mod frame;
mod frame_type;
mod frames;
mod header;
mod join;
mod laws;
mod nak;
mod positions;
mod setup;
mod status_message;
mod writing;

pub use datagram::{Datagram, Packet};
pub use fault::BadPacket;
pub use flags::Flags;
pub use frame::{Frame, write_beat, write_data, write_pad};
pub use frames::{Frames, padded_length};
pub use header::{Header, Kind, TermPlace};
pub use join::Join;
pub use laws::{
    datagrams_write_back, flags_are_the_sixth_byte, frames_are_of_one_term, frames_are_told,
    frames_read_back, frames_stand_in_datagrams, frames_write_back, heartbeats_read_back,
    heartbeats_write_back, joins_are_sound, naks_read_back, naks_write_back,
    places_are_told_by_positions, positions_are_told_by_places, setups_read_back,
    setups_write_back, status_messages_read_back, status_messages_write_back,
    written_frames_are_plain,
};
pub use nak::{Nak, write_nak};
pub use positions::{position, term_of};
pub use setup::{Setup, write_setup};
pub use status_message::{StatusMessage, write_sm};

//! Datagrams of one frame among words, and their bytes.

ghost use Rattle.message_words.specs.Frames.{beat_in, covered_at, covered_of, data_in, nak_in, pad_in, place_in, sending_in, setup_in, status_in};
ghost use Rattle.message_words.specs.Given.{Gives};
ghost use Rattle.std.specs.Prelude.{◌≡◌};

use crate::fault::WordFault;
use crate::given::given;
use crate::key::Key;
use crate::name::FrameName;
use crate::values::{
    bytes_at, flags_at, integer_at, integer_or, natural_at, natural_of, natural_or, number_or,
    offset_or,
};
use byte_strings::{Bytes, Text};
use frame_codec::{Flags, Nak, Setup, StatusMessage, TermPlace};
use std::alloc::Global;

/// The greatest length of a payload, in bytes.
const LONGEST_PAYLOAD: usize = 0x7FFF_FFDF;

/// A data frame that is a datagram.
#[derive(Debug, PartialEq, Eq, Drop)]
pub struct DataFrame {
    pub flags: Flags,
    pub place: TermPlace,
    pub payload: Bytes,
}

/// A pad that is a datagram.
#[derive(Clone, Copy, Debug, PartialEq, Eq)]
pub struct Pad {
    pub flags: Flags,
    pub place: TermPlace,
    /// How much of its term it covers, in bytes.
    pub size: u32,
}

/// A heartbeat.
#[derive(Clone, Copy, Debug, PartialEq, Eq)]
pub struct Beat {
    pub flags: Flags,
    pub place: TermPlace,
}

/// A datagram of one frame, that is to be sent.
#[derive(Debug, PartialEq, Eq, Drop)]
pub enum Sending {
    Data(DataFrame),
    Pad(Pad),
    Heartbeat(Beat),
    Nak(Nak),
    StatusMessage(StatusMessage),
    Setup(Setup),
}

fn place(words: &[Text]) -> Result<TermPlace, WordFault>
    ensures { result ≡ place_in words.now }
{
    let session_id = integer_at(Key::Session, words)?;
    let stream_id = integer_at(Key::Stream, words)?;
    let term_id = integer_at(Key::Term, words)?;
    let term_offset = offset_or(Key::Offset, 0, words)?;
    Ok(TermPlace {
        session_id,
        stream_id,
        term_id,
        term_offset,
    })
}

fn data(alloc: Global, words: &[Text]) -> Result<DataFrame, WordFault>
    ensures { Gives result (data_in words.now) }
{
    let place = place(words)?;
    let flags = flags_at(alloc, Key::Flags, Flags::UNFRAGMENTED, words)?;
    let payload = bytes_at(alloc, LONGEST_PAYLOAD, Key::Payload, words)?;
    Ok(DataFrame {
        flags,
        place,
        payload,
    })
}

/// How much of a term a pad covers.
fn covered_of(text: &str) -> Option<u32>
    ensures { result ≡ covered_of text.now }
{
    let number = natural_of(text)?;
    if number == 0 {
        return None;
    }
    if number % 32 == 0 { Some(number) } else { None }
}

fn covered_at(words: &[Text]) -> Result<u32, WordFault>
    ensures { result ≡ covered_at words.now }
{
    match given(Key::Length, words)? {
        Some(value) => covered_of(value).ok_or(WordFault::BadValue(Key::Length)),
        None => Err(WordFault::Missing(Key::Length)),
    }
}

fn pad_of(alloc: Global, words: &[Text]) -> Result<Pad, WordFault>
    ensures { Gives result (pad_in words.now) }
{
    let place = place(words)?;
    let flags = flags_at(alloc, Key::Flags, Flags::UNFRAGMENTED, words)?;
    let size = covered_at(words)?;
    Ok(Pad { flags, place, size })
}

fn beat_of(alloc: Global, words: &[Text]) -> Result<Beat, WordFault>
    ensures { Gives result (beat_in words.now) }
{
    let place = place(words)?;
    let flags = flags_at(alloc, Key::Flags, Flags::UNFRAGMENTED, words)?;
    Ok(Beat { flags, place })
}

fn nak(words: &[Text]) -> Result<Nak, WordFault>
    ensures { result ≡ nak_in words.now }
{
    let place = place(words)?;
    let length = integer_at(Key::Length, words)?;
    Ok(Nak {
        flags: Flags::NONE,
        session_id: place.session_id,
        stream_id: place.stream_id,
        term_id: place.term_id,
        term_offset: place.term_offset,
        length,
    })
}

fn status_message(words: &[Text]) -> Result<StatusMessage, WordFault>
    ensures { result ≡ status_in words.now }
{
    let session_id = integer_at(Key::Session, words)?;
    let stream_id = integer_at(Key::Stream, words)?;
    let consumption_term_id = integer_at(Key::Term, words)?;
    let consumption_term_offset = natural_or(Key::Offset, 0, words)?;
    let receiver_window = natural_at(Key::Window, words)?;
    let receiver_id = number_or(Key::Receiver, 0, words)?;
    Ok(StatusMessage {
        flags: Flags::NONE,
        session_id,
        stream_id,
        consumption_term_id,
        consumption_term_offset,
        receiver_window,
        receiver_id,
    })
}

fn setup(words: &[Text]) -> Result<Setup, WordFault>
    ensures { result ≡ setup_in words.now }
{
    let place = place(words)?;
    let initial_term_id = integer_or(Key::InitialTerm, place.term_id, words)?;
    let term_length = integer_or(Key::TermLength, 65_536, words)?;
    let mtu = integer_or(Key::Mtu, 1408, words)?;
    Ok(Setup {
        flags: Flags::NONE,
        term_offset: place.term_offset,
        session_id: place.session_id,
        stream_id: place.stream_id,
        initial_term_id,
        active_term_id: place.term_id,
        term_length,
        mtu,
        ttl: 0,
    })
}

/// The datagram of that name whose fields these words give.
#[tactic(auto, unfolding(crate::specs::Frames::sending_in))]
pub(crate) fn sending_of(
    alloc: Global,
    name: FrameName,
    words: &[Text],
) -> Result<Sending, WordFault>
    ensures { Gives result (sending_in name words.now) }
{
    match name {
        FrameName::Data => Ok(Sending::Data(data(alloc, words)?)),
        FrameName::Pad => Ok(Sending::Pad(pad_of(alloc, words)?)),
        FrameName::Heartbeat => Ok(Sending::Heartbeat(beat_of(alloc, words)?)),
        FrameName::Nak => Ok(Sending::Nak(nak(words)?)),
        FrameName::StatusMessage => Ok(Sending::StatusMessage(status_message(words)?)),
        FrameName::Setup => Ok(Sending::Setup(setup(words)?)),
    }
}

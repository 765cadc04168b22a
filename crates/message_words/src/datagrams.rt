//! Datagrams in words, a line a frame.

ghost use Rattle.frame_codec.specs.Datagram.{content};
ghost use Rattle.frame_codec.specs.Frame.{sent};
ghost use Rattle.frame_codec.specs.Frames.{frames_left};
ghost use Rattle.message_words.specs.Datagrams.{beat_line, beat_rest, content_lines, data_rest, ended, flags_text, frame_line, frame_lines, nak_line, nak_place, nak_rest, pad_rest, place_fields, placed_line, reserved_text, setup_line, setup_place, setup_rest, status_line, status_place, status_rest, ttl_text};
ghost use Rattle.message_words.specs.Shown.{fields_text};
ghost use Rattle.message_words.specs.declared.name.FrameName.TheVariants as names;
ghost use Rattle.std.specs.Prelude.{[], ◌≡◌, ◌++◌, ◌∷◌, IfOk, OnOk};
ghost use Rattle.std.specs.String.{string_bytes};

use crate::name::FrameName;
use crate::shown::hex_of;
use byte_strings::Text;
use frame_codec::{
    Flags, Frame, Frames, Header, Kind, Nak, Packet, Setup, StatusMessage, TermPlace,
};
use std::alloc::{AllocError, Global};

#[tactic(auto, unfolding(crate::specs::Datagrams::place_fields))]
fn place_shown(alloc: Global, place: &TermPlace) -> Result<Text, AllocError>
    ensures { IfOk result (λ shown. shown ≡ fields_text (place_fields place.now)) }
{
    let TermPlace {
        session_id,
        stream_id,
        term_id,
        term_offset,
    } = *place;
    Ok(Text::from(format!(in alloc;
        " session={session_id} stream={stream_id} term={term_id} offset={term_offset}"
    )?))
}

/// The line of a frame, with the texts of the fields after its place and of what no word gives.
#[tactic(auto, unfolding(crate::specs::Datagrams::placed_line))]
fn placed(
    alloc: Global,
    name: FrameName,
    place: &TermPlace,
    rest: &Text,
    unnamed: &Text,
) -> Result<Text, AllocError>
    ensures { IfOk result (λ line. line ≡ placed_line name place.now rest.now ++ unnamed.now) }
{
    let name = name.text();
    let place = place_shown(alloc, place)?;
    Ok(Text::from(format!(in alloc; "{name}{place}{rest}{unnamed}")?))
}

/// Flags that no word gives, where there are some.
fn flags_text(alloc: Global, flags: Flags) -> Result<Text, AllocError>
    ensures { IfOk result (λ text. text ≡ flags_text flags) }
{
    if flags.bits == 0 {
        return Text::new(alloc, "");
    }
    let digits = hex_of(alloc, &[flags.bits])?;
    Ok(Text::from(format!(in alloc; " flags={digits}")?))
}

/// A reserved value, which no word gives, where it is not 0.
fn reserved_text(alloc: Global, value: u64) -> Result<Text, AllocError>
    ensures { IfOk result (λ text. text ≡ reserved_text value) }
{
    if value == 0 {
        return Text::new(alloc, "");
    }
    Ok(Text::from(format!(in alloc; " reserved={value}")?))
}

/// A TTL, which no word gives, where it is not 0.
fn ttl_text(alloc: Global, ttl: i32) -> Result<Text, AllocError>
    ensures { IfOk result (λ text. text ≡ ttl_text ttl) }
{
    if ttl == 0 {
        return Text::new(alloc, "");
    }
    Ok(Text::from(format!(in alloc; " ttl={ttl}")?))
}

fn data_rest(alloc: Global, flags: Flags, payload: &[u8]) -> Result<Text, AllocError>
    ensures { IfOk result (λ rest. rest ≡ fields_text (data_rest flags payload.now)) }
{
    let flags = hex_of(alloc, &[flags.bits])?;
    let payload = hex_of(alloc, payload)?;
    Ok(Text::from(format!(in alloc; " flags={flags} payload={payload}")?))
}

fn data_line(alloc: Global, header: &Header, payload: &[u8]) -> Result<Text, AllocError>
    ensures { IfOk result (λ line. line ≡ placed_line names.Data header.now.place (fields_text (data_rest header.now.flags payload.now)) ++ reserved_text header.now.reserved_value) }
{
    let rest = data_rest(alloc, header.flags, payload)?;
    let reserved = reserved_text(alloc, header.reserved_value)?;
    placed(alloc, FrameName::Data, &header.place, &rest, &reserved)
}

fn pad_rest(alloc: Global, flags: Flags, length: u32) -> Result<Text, AllocError>
    ensures { IfOk result (λ rest. rest ≡ fields_text (pad_rest flags length)) }
{
    let flags = hex_of(alloc, &[flags.bits])?;
    Ok(Text::from(format!(in alloc; " flags={flags} length={length}")?))
}

fn pad_line(alloc: Global, header: &Header) -> Result<Text, AllocError>
    ensures { IfOk result (λ line. line ≡ placed_line names.Pad header.now.place (fields_text (pad_rest header.now.flags header.now.length)) ++ reserved_text header.now.reserved_value) }
{
    let rest = pad_rest(alloc, header.flags, header.length)?;
    let reserved = reserved_text(alloc, header.reserved_value)?;
    placed(alloc, FrameName::Pad, &header.place, &rest, &reserved)
}

fn frame_line(alloc: Global, frame: &Frame<'_>) -> Result<Text, AllocError>
    ensures { IfOk result (λ line. line ≡ frame_line (sent frame.now)) }
{
    match frame.header.kind {
        Kind::Data => data_line(alloc, &frame.header, frame.payload()),
        Kind::Pad => pad_line(alloc, &frame.header),
    }
}

fn push_line(alloc: Global, out: &mut String, frame: &Frame<'_>) -> Result<(), AllocError>
    ensures { OnOk result (string_bytes out.new ≡ string_bytes out.old ++ (frame_line (sent frame.now) ++ (10 ∷ []))) }
{
    let line = frame_line(alloc, frame)?;
    out.push_str(line.as_str())?;
    out.push_str("\n")
}

fn frame_lines(alloc: Global, frames: Frames<'_>) -> Result<Text, AllocError>
    ensures { IfOk result (λ lines. lines ≡ frame_lines (frames_left frames.entry)) }
{
    let mut out = String::new(alloc);
    for frame in frames {
        push_line(alloc, &mut out, &frame)?;
    }
    Ok(Text::from(out))
}

fn beat_rest(alloc: Global, flags: Flags) -> Result<Text, AllocError>
    ensures { IfOk result (λ rest. rest ≡ fields_text (beat_rest flags)) }
{
    let flags = hex_of(alloc, &[flags.bits])?;
    Ok(Text::from(format!(in alloc; " flags={flags}")?))
}

fn beat_line(alloc: Global, header: &Header) -> Result<Text, AllocError>
    ensures { IfOk result (λ line. line ≡ beat_line header.now) }
{
    let rest = beat_rest(alloc, header.flags)?;
    let reserved = reserved_text(alloc, header.reserved_value)?;
    placed(alloc, FrameName::Heartbeat, &header.place, &rest, &reserved)
}

fn nak_rest(alloc: Global, nak: &Nak) -> Result<Text, AllocError>
    ensures { IfOk result (λ rest. rest ≡ fields_text (nak_rest nak.now)) }
{
    let length = nak.length;
    Ok(Text::from(format!(in alloc; " length={length}")?))
}

fn nak_line(alloc: Global, nak: &Nak) -> Result<Text, AllocError>
    ensures { IfOk result (λ line. line ≡ nak_line nak.now) }
{
    let rest = nak_rest(alloc, nak)?;
    let flags = flags_text(alloc, nak.flags)?;
    let place = TermPlace {
        session_id: nak.session_id,
        stream_id: nak.stream_id,
        term_id: nak.term_id,
        term_offset: nak.term_offset,
    };
    placed(alloc, FrameName::Nak, &place, &rest, &flags)
}

fn status_rest(alloc: Global, message: &StatusMessage) -> Result<Text, AllocError>
    ensures { IfOk result (λ rest. rest ≡ fields_text (status_rest message.now)) }
{
    let window = message.receiver_window;
    let receiver = message.receiver_id;
    Ok(Text::from(format!(in alloc; " window={window} receiver={receiver}")?))
}

fn status_line(alloc: Global, message: &StatusMessage) -> Result<Text, AllocError>
    ensures { IfOk result (λ line. line ≡ status_line message.now) }
{
    let rest = status_rest(alloc, message)?;
    let flags = flags_text(alloc, message.flags)?;
    let place = TermPlace {
        session_id: message.session_id,
        stream_id: message.stream_id,
        term_id: message.consumption_term_id,
        term_offset: message.consumption_term_offset,
    };
    placed(alloc, FrameName::StatusMessage, &place, &rest, &flags)
}

fn setup_rest(alloc: Global, setup: &Setup) -> Result<Text, AllocError>
    ensures { IfOk result (λ rest. rest ≡ fields_text (setup_rest setup.now)) }
{
    let initial = setup.initial_term_id;
    let length = setup.term_length;
    let mtu = setup.mtu;
    Ok(Text::from(format!(in alloc; " initial-term={initial} term-length={length} mtu={mtu}")?))
}

/// The flags and the TTL of a SETUP.
fn setup_unnamed(alloc: Global, setup: &Setup) -> Result<Text, AllocError>
    ensures { IfOk result (λ text. text ≡ flags_text setup.now.flags ++ ttl_text setup.now.ttl) }
{
    let flags = flags_text(alloc, setup.flags)?;
    let ttl = ttl_text(alloc, setup.ttl)?;
    Ok(Text::from(format!(in alloc; "{flags}{ttl}")?))
}

fn setup_line(alloc: Global, setup: &Setup) -> Result<Text, AllocError>
    ensures { IfOk result (λ line. line ≡ setup_line setup.now) }
{
    let rest = setup_rest(alloc, setup)?;
    let unnamed = setup_unnamed(alloc, setup)?;
    let place = TermPlace {
        session_id: setup.session_id,
        stream_id: setup.stream_id,
        term_id: setup.active_term_id,
        term_offset: setup.term_offset,
    };
    placed(alloc, FrameName::Setup, &place, &rest, &unnamed)
}

/// The line with a line feed after it.
fn ended(alloc: Global, line: &Text) -> Result<Text, AllocError>
    ensures { IfOk result (λ text. text ≡ ended line.now) }
{
    Ok(Text::from(format!(in alloc; "{line}\n")?))
}

/// The lines of a datagram, a line a frame, each ended by a line feed.
#[tactic(auto, unfolding(crate::specs::Datagrams::content_lines))]
pub fn datagram_lines(alloc: Global, packet: Packet<'_>) -> Result<Text, AllocError>
    ensures { IfOk result (λ lines. lines ≡ content_lines (content packet.entry)) }
{
    match packet {
        Packet::Data(frames) => frame_lines(alloc, frames),
        Packet::Beat(header) => ended(alloc, &beat_line(alloc, &header)?),
        Packet::Nak(nak) => ended(alloc, &nak_line(alloc, &nak)?),
        Packet::Sm(message) => ended(alloc, &status_line(alloc, &message)?),
        Packet::Setup(setup) => ended(alloc, &setup_line(alloc, &setup)?),
    }
}

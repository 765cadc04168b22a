//! What the header of a frame says that is handed to a log.

ghost use Rattle.std.specs.Prelude.{◌≡◌, ◌+◌, ◌<◌, ◌≤◌, length, true};
ghost use Rattle.frame_codec.specs.Fields.{byte_at, half_at, number_at, signed_at};
ghost use Rattle.frame_codec.specs.Position.{position_of};
ghost use Rattle.frame_codec.specs.Sound.{IsLaidOut, IsSound};
ghost use Rattle.image_log.specs.Handed.{offset_of, span_of};

use byteorder::{ByteOrder, LittleEndian};
use frame_codec::{padded_length, position};

/// How many positions a frame takes.
#[tactic(auto, unfolding(crate::specs::Handed::span_of, frame_codec::specs::Fields::number_at))]
pub(crate) fn span_of(frame: &[u8]) -> u64
    requires { 32 ≤ length frame.now }
    ensures { result ≡ span_of frame.now }
{
    padded_length(LittleEndian::read_u32(frame))
}

/// The term offset at which a frame begins.
#[tactic(auto, unfolding(crate::specs::Handed::offset_of, frame_codec::specs::Fields::number_at))]
pub(crate) fn offset_of(frame: &[u8]) -> u32
    requires { 32 ≤ length frame.now }
    ensures { result ≡ offset_of frame.now }
{
    LittleEndian::read_u32(&frame[8..])
}

#[tactic(auto, unfolding(frame_codec::specs::Fields::byte_at))]
pub(crate) fn byte_at(frame: &[u8], place: usize) -> u8
    requires { place < length frame.now }
    ensures { result ≡ byte_at place frame.now }
{
    frame[place]
}

#[tactic(auto, unfolding(frame_codec::specs::Fields::half_at))]
pub(crate) fn half_at(frame: &[u8], place: usize) -> u16
    requires { place + 2 ≤ length frame.now }
    ensures { result ≡ half_at place frame.now }
{
    LittleEndian::read_u16(&frame[place..])
}

#[tactic(auto, unfolding(frame_codec::specs::Fields::number_at))]
fn number_at(frame: &[u8], place: usize) -> u32
    requires { place + 4 ≤ length frame.now }
    ensures { result ≡ number_at place frame.now }
{
    LittleEndian::read_u32(&frame[place..])
}

#[tactic(auto, unfolding(frame_codec::specs::Fields::signed_at))]
pub(crate) fn signed_at(frame: &[u8], place: usize) -> i32
    requires { place + 4 ≤ length frame.now }
    ensures { result ≡ signed_at place frame.now }
{
    number_at(frame, place).cast_signed()
}

/// Whether it is one data frame without its filling, or one pad by its header alone.
fn is_laid_out(frame: &[u8]) -> bool
    requires { 32 ≤ length frame.now }
    ensures holds { result ≡ true → IsLaidOut frame.now }
    ensures exact { IsLaidOut frame.now → result ≡ true }
{
    let kind = half_at(frame, 6);
    let size = number_at(frame, 0);
    if kind == 1 {
        return size as usize == frame.len();
    }
    kind == 0 && frame.len() == 32 && size > 0 && size % 32 == 0
}

/// Whether it is a frame in the layout.
pub(crate) fn is_sound(frame: &[u8]) -> bool
    ensures holds { result ≡ true → IsSound frame.now }
    ensures exact { IsSound frame.now → result ≡ true }
{
    if frame.len() < 32 {
        return false;
    }
    if byte_at(frame, 4) != 0 || number_at(frame, 0) >= 1 << 31 {
        return false;
    }
    let offset = number_at(frame, 8);
    offset < 1 << 31 && offset % 32 == 0 && is_laid_out(frame)
}

/// Whether its header's position is this one.
pub(crate) fn is_at(initial_term_id: i32, term_length: u32, wanted: u64, frame: &[u8]) -> bool
    requires { 32 ≤ length frame.now }
    ensures holds { result ≡ true → wanted ≡ position_of initial_term_id (signed_at 20 frame.now) (number_at 8 frame.now) term_length }
    ensures exact { wanted ≡ position_of initial_term_id (signed_at 20 frame.now) (number_at 8 frame.now) term_length → result ≡ true }
{
    let term_id = signed_at(frame, 20);
    let offset = number_at(frame, 8);
    position(initial_term_id, term_id, offset, term_length) == wanted
}

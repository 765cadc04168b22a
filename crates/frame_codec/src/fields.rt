//! The fields that frames are made of.

ghost use Rattle.frame_codec.specs.Fields.{aligned, byte_at, half_at, long_at, natural_at, number_at, signed_at, stated_length};
ghost use Rattle.std.specs.Prelude.{◌≡◌, ◌+◌, ◌^◌, ◌<◌, ◌≤◌, length, IfOk};

use crate::fault::BadPacket;
use byteorder::{ByteOrder, LittleEndian};

/// Frames begin at multiples of this many bytes of a term.
pub(crate) const ALIGNMENT: u32 = 32;

/// The byte at a place.
#[tactic(auto, unfolding(crate::specs::Fields::byte_at))]
#[inline(always)]
pub(crate) fn byte(bytes: &[u8], place: usize) -> u8
    requires { place < length bytes.now }
    ensures { result ≡ byte_at place bytes.now }
{
    bytes[place]
}

/// The number in two bytes.
#[tactic(auto, unfolding(crate::specs::Fields::half_at))]
#[inline(always)]
pub(crate) fn half(bytes: &[u8], place: usize) -> u16
    requires { place + 2 ≤ length bytes.now }
    ensures { result ≡ half_at place bytes.now }
{
    LittleEndian::read_u16(&bytes[place..])
}

/// The number in four bytes.
#[tactic(auto, unfolding(crate::specs::Fields::number_at))]
#[inline(always)]
pub(crate) fn number(bytes: &[u8], place: usize) -> u32
    requires { place + 4 ≤ length bytes.now }
    ensures { result ≡ number_at place bytes.now }
{
    LittleEndian::read_u32(&bytes[place..])
}

/// The number in eight bytes.
#[tactic(auto, unfolding(crate::specs::Fields::long_at))]
#[inline(always)]
pub(crate) fn long(bytes: &[u8], place: usize) -> u64
    requires { place + 8 ≤ length bytes.now }
    ensures { result ≡ long_at place bytes.now }
{
    LittleEndian::read_u64(&bytes[place..])
}

/// The signed number in four bytes.
#[tactic(auto, unfolding(crate::specs::Fields::signed_at))]
#[inline(always)]
pub(crate) fn signed(bytes: &[u8], place: usize) -> i32
    requires { place + 4 ≤ length bytes.now }
    ensures { result ≡ signed_at place bytes.now }
{
    number(bytes, place).cast_signed()
}

/// The signed number in four bytes, which may not be negative.
#[tactic(auto, unfolding(crate::specs::Fields::natural_at))]
#[inline(always)]
pub(crate) fn natural(bytes: &[u8], place: usize) -> Result<u32, BadPacket>
    requires { place + 4 ≤ length bytes.now }
    ensures exact { result ≡ natural_at place bytes.now }
    ensures below { IfOk result (λ number. number < 2 ^ 31) }
{
    let number = number(bytes, place);
    if number < 1 << 31 {
        Ok(number)
    } else {
        Err(BadPacket::BadLength)
    }
}

/// The length that a frame states, at least `least` and no more than the bytes that are there.
#[tactic(auto, unfolding(crate::specs::Fields::stated_length))]
#[inline(always)]
pub(crate) fn stated_length(bytes: &[u8], least: u32) -> Result<u32, BadPacket>
    requires { 4 ≤ length bytes.now }
    ensures exact { result ≡ stated_length least bytes.now }
    ensures within { IfOk result (λ stated. (least ≤ stated) × (stated ≤ length bytes.now) × (stated < 2 ^ 31)) }
{
    let stated = natural(bytes, 0)?;
    if stated < least {
        return Err(BadPacket::BadLength);
    }
    if bytes.len() < stated as usize {
        return Err(BadPacket::BadLength);
    }
    Ok(stated)
}

/// An offset at which a frame may begin.
#[inline(always)]
pub(crate) fn aligned(offset: u32) -> Result<u32, BadPacket>
    ensures { result ≡ aligned offset }
{
    if offset % ALIGNMENT == 0 {
        Ok(offset)
    } else {
        Err(BadPacket::Unaligned)
    }
}

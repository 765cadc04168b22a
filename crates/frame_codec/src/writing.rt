//! Writing fields at their places.

ghost use Rattle.frame_codec.specs.Frame.{padded};
ghost use Rattle.frame_codec.specs.Writing.{Puts, Starts, front_bytes, number_bytes, signed_bytes};
ghost use Rattle.std.specs.Prelude.{◌≡◌, ◌+◌, ◌^◌, ◌<◌, ◌≤◌, ◌∷◌, [], length, replicate};

use crate::flags::Flags;
use byteorder::{ByteOrder, LittleEndian};

pub(crate) fn put_bytes(out: &mut [u8], place: usize, bytes: &[u8])
    requires { place + length bytes.now ≤ length out.old }
    ensures { Puts out.old out.new place (length bytes.now) bytes.now }
{
    out[place..place + bytes.len()].copy_from_slice(bytes);
}

pub(crate) fn put_zeros(out: &mut [u8], place: usize, count: usize)
    requires { place + count ≤ length out.old }
    ensures { Puts out.old out.new place count (replicate count 0) }
{
    out[place..place + count].fill(0);
}

pub(crate) fn put_u8(out: &mut [u8], place: usize, number: u8)
    requires { place + 1 ≤ length out.old }
    ensures { Puts out.old out.new place 1 (number ∷ []) }
{
    put_bytes(out, place, &[number]);
}

#[tactic(auto, unfolding(crate::specs::Writing::number_bytes))]
pub(crate) fn put_u16(out: &mut [u8], place: usize, number: u16)
    requires { place + 2 ≤ length out.old }
    ensures { Puts out.old out.new place 2 (number_bytes 2 number) }
{
    LittleEndian::write_u16(&mut out[place..], number);
}

#[tactic(auto, unfolding(crate::specs::Writing::number_bytes))]
pub(crate) fn put_u32(out: &mut [u8], place: usize, number: u32)
    requires { place + 4 ≤ length out.old }
    ensures { Puts out.old out.new place 4 (number_bytes 4 number) }
{
    LittleEndian::write_u32(&mut out[place..], number);
}

#[tactic(auto, unfolding(crate::specs::Writing::number_bytes))]
pub(crate) fn put_u64(out: &mut [u8], place: usize, number: u64)
    requires { place + 8 ≤ length out.old }
    ensures { Puts out.old out.new place 8 (number_bytes 8 number) }
{
    LittleEndian::write_u64(&mut out[place..], number);
}

#[tactic(auto, unfolding(crate::specs::Writing::signed_bytes))]
pub(crate) fn put_i32(out: &mut [u8], place: usize, number: i32)
    requires { place + 4 ≤ length out.old }
    ensures { Puts out.old out.new place 4 (signed_bytes number) }
{
    LittleEndian::write_i32(&mut out[place..], number);
}

/// What every frame begins with: length, version 0, flags and type.
pub(crate) fn put_front(out: &mut [u8], size: u32, flags: Flags, number: u16)
    requires { 8 ≤ length out.old }
    ensures { Starts out.old out.new 8 (front_bytes size flags number) }
{
    put_u32(out, 0, size);
    put_u8(out, 4, 0);
    put_u8(out, 5, flags.bits);
    put_u16(out, 6, number);
}

/// The next multiple of 32.
pub(crate) fn padded(size: usize) -> usize
    requires { padded size < 2 ^ 64 }
    ensures { result ≡ padded size }
{
    (size + 31) / 32 * 32
}

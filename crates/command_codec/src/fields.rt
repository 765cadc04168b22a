//! The fields that commands and replies are made of.

ghost use Rattle.std.specs.Prelude.{◌≡◌, ◌≤◌, ◌++◌, length, IfOk, OnOk, if◌then◌else◌, Option, Some, None};
ghost use Rattle.std.specs.Char.{is_ascii};
ghost use Rattle.std.specs.Int.{w32, w64};
ghost use Rattle.std.specs.List.{list_all};
ghost use Rattle.std.specs.Option.{option_copied};
ghost use Rattle.command_codec.specs.Gives.{Equals};
ghost use Rattle.command_codec.specs.Fields.{bytes_at, ended, number_at, number_bytes, number_in, one_number, signed_at, signed_bytes, text_at, two_numbers, with_length};

use crate::fault::CommandFault;
use byte_strings::Text;
use byteorder::{ByteOrder, LittleEndian};
use std::alloc::AllocError;
use std::str;

/// The greatest length that a text or a byte string can have: it is a signed number of 32 bits.
pub const LONGEST: u32 = 0x7FFF_FFFF;

/// An unsigned number of 32 bits, and the bytes after it.
#[tactic(auto, unfolding(crate::specs::Fields::number_in))]
pub fn u32_at(bytes: &[u8]) -> Result<(u32, &[u8]), CommandFault>
    ensures { Equals (λ x. (x.0, x.1.now)) result (number_at 4 bytes.now) }
{
    if bytes.len() < 4 {
        return Err(CommandFault::Malformed);
    }
    let (_, rest) = bytes.split_at(4);
    Ok((LittleEndian::read_u32(bytes), rest))
}

/// The unsigned number of 64 bits that the first eight bytes are.
#[tactic(auto, unfolding(crate::specs::Fields::number_in))]
pub fn u64_in(bytes: &[u8]) -> u64
    requires { 8 ≤ length bytes.now }
    ensures { result ≡ number_in 8 bytes.now }
{
    LittleEndian::read_u64(bytes)
}

/// An unsigned number of 64 bits, and the bytes after it.
pub fn u64_at(bytes: &[u8]) -> Result<(u64, &[u8]), CommandFault>
    ensures { Equals (λ x. (x.0, x.1.now)) result (number_at 8 bytes.now) }
{
    if bytes.len() < 8 {
        return Err(CommandFault::Malformed);
    }
    let (_, rest) = bytes.split_at(8);
    Ok((u64_in(bytes), rest))
}

/// A signed number of 32 bits, and the bytes after it.
pub fn i32_at(bytes: &[u8]) -> Result<(i32, &[u8]), CommandFault>
    ensures { Equals (λ x. (x.0, x.1.now)) result (signed_at w32 4 bytes.now) }
{
    let (number, rest) = u32_at(bytes)?;
    Ok((number.cast_signed(), rest))
}

/// A signed number of 64 bits, and the bytes after it.
pub fn i64_at(bytes: &[u8]) -> Result<(i64, &[u8]), CommandFault>
    ensures { Equals (λ x. (x.0, x.1.now)) result (signed_at w64 8 bytes.now) }
{
    let (number, rest) = u64_at(bytes)?;
    Ok((number.cast_signed(), rest))
}

fn is_ascii(bytes: &[u8]) -> bool
    ensures { result ≡ list_all is_ascii bytes.now }
{
    bytes.iter().all(u8::is_ascii)
}

/// The bytes as a text, if all of them are ASCII.
#[tactic(auto, using(crate::proofs::Ascii::is_utf8_if_ascii))]
fn ascii_text(bytes: &[u8]) -> Option<&str>
    ensures { option_copied result ≡ (if list_all is_ascii bytes.now then Some bytes.now else None) }
{
    if !is_ascii(bytes) {
        return None;
    }
    match str::from_utf8(bytes) {
        Ok(text) => Some(text),
        Err(_) => None,
    }
}

/// Bytes that follow their length, and the bytes after them.
#[tactic(auto, unfolding(crate::specs::Fields::bytes_at))]
pub fn bytes_at(bytes: &[u8], greatest: u32) -> Result<(&[u8], &[u8]), CommandFault>
    ensures exact { Equals (λ x. (x.0.now, x.1.now)) result (bytes_at greatest bytes.now) }
    ensures few { IfOk result (λ x. length x.0.now ≤ greatest) }
{
    let (size, rest) = u32_at(bytes)?;
    // A length is a signed number. Read without its sign, a negative one is above the longest.
    if size > greatest {
        return Err(CommandFault::Malformed);
    }
    let size = size as usize;
    if rest.len() < size {
        return Err(CommandFault::Malformed);
    }
    Ok(rest.split_at(size))
}

/// A text of ASCII that follows its length, and the bytes after it.
#[tactic(auto, unfolding(crate::specs::Fields::text_at))]
pub fn text_at(bytes: &[u8], greatest: u32) -> Result<(&str, &[u8]), CommandFault>
    ensures exact { Equals (λ x. (x.0.now, x.1.now)) result (text_at greatest bytes.now) }
    ensures few { IfOk result (λ x. length x.0.now ≤ greatest) }
{
    let (front, rest) = bytes_at(bytes, greatest)?;
    match ascii_text(front) {
        Some(text) => Ok((text, rest)),
        None => Err(CommandFault::Malformed),
    }
}

/// Refuses bytes after the last field.
pub fn end(bytes: &[u8]) -> Result<(), CommandFault>
    ensures { Equals (λ x. x) result (ended record {} bytes.now) }
{
    if bytes.is_empty() {
        Ok(())
    } else {
        Err(CommandFault::Malformed)
    }
}

/// A number of 64 bits, where nothing else stands.
#[tactic(auto, unfolding(crate::specs::Fields::one_number))]
pub fn one_u64(bytes: &[u8]) -> Result<u64, CommandFault>
    ensures { result ≡ one_number bytes.now }
{
    let (number, rest) = u64_at(bytes)?;
    end(rest)?;
    Ok(number)
}

/// Two numbers of 64 bits, where nothing else stands.
#[tactic(auto, unfolding(crate::specs::Fields::two_numbers))]
pub fn two_u64(bytes: &[u8]) -> Result<(u64, u64), CommandFault>
    ensures { result ≡ two_numbers bytes.now }
{
    let (first, rest) = u64_at(bytes)?;
    let second = one_u64(rest)?;
    Ok((first, second))
}

/// Writes an unsigned number of 32 bits at the end.
#[tactic(auto, unfolding(crate::specs::Fields::number_bytes))]
pub fn put_u32(out: &mut Vec<u8>, number: u32) -> Result<(), AllocError>
    ensures { OnOk result (out.new.items ≡ out.old.items ++ number_bytes 4 number) }
{
    let mut bytes = [0; 4];
    LittleEndian::write_u32(&mut bytes, number);
    out.extend_from_slice(&bytes)
}

/// Writes an unsigned number of 64 bits at the end.
#[tactic(auto, unfolding(crate::specs::Fields::number_bytes))]
pub fn put_u64(out: &mut Vec<u8>, number: u64) -> Result<(), AllocError>
    ensures { OnOk result (out.new.items ≡ out.old.items ++ number_bytes 8 number) }
{
    let mut bytes = [0; 8];
    LittleEndian::write_u64(&mut bytes, number);
    out.extend_from_slice(&bytes)
}

/// Writes a signed number of 32 bits at the end.
pub fn put_i32(out: &mut Vec<u8>, number: i32) -> Result<(), AllocError>
    ensures { OnOk result (out.new.items ≡ out.old.items ++ signed_bytes w32 4 number) }
{
    put_u32(out, number.cast_unsigned())
}

/// Writes a signed number of 64 bits at the end.
pub fn put_i64(out: &mut Vec<u8>, number: i64) -> Result<(), AllocError>
    ensures { OnOk result (out.new.items ≡ out.old.items ++ signed_bytes w64 8 number) }
{
    put_u64(out, number.cast_unsigned())
}

/// Writes the length of bytes and then the bytes at the end.
#[tactic(auto, unfolding(crate::specs::Fields::number_bytes))]
pub fn put_bytes(out: &mut Vec<u8>, bytes: &[u8]) -> Result<(), AllocError>
    ensures { OnOk result (out.new.items ≡ out.old.items ++ with_length bytes.now) }
{
    let mut size = [0; 8];
    LittleEndian::write_u64(&mut size, bytes.len() as u64);
    out.extend_from_slice(&size[..4])?;
    out.extend_from_slice(bytes)
}

/// Writes the length of a text and then the text at the end.
pub fn put_text(out: &mut Vec<u8>, text: &Text) -> Result<(), AllocError>
    ensures { OnOk result (out.new.items ≡ out.old.items ++ with_length text.now) }
{
    put_bytes(out, text.as_str().as_bytes())
}

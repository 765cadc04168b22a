//! The fields that records are made of.

ghost use Rattle.std.specs.Prelude.{◌≡◌, ◌≤◌, ◌++◌, length, OnOk};
ghost use Rattle.std.specs.Int.{w32, w64};
ghost use Rattle.service_records.specs.Gives.{Equals};
ghost use Rattle.service_records.specs.Fields.{ended, number_at, number_bytes, number_in, paired, signed_at, signed_bytes};

use crate::fault::RecordFault;
use byteorder::{ByteOrder, LittleEndian};
use std::alloc::AllocError;

/// An unsigned number of 32 bits, and the bytes after it.
#[tactic(auto, unfolding(crate::specs::Fields::number_in))]
pub fn u32_at(bytes: &[u8]) -> Result<(u32, &[u8]), RecordFault>
    ensures { Equals (λ x. (x.0, x.1.now)) result (number_at 4 bytes.now) }
{
    if bytes.len() < 4 {
        return Err(RecordFault::Malformed);
    }
    let (_, rest) = bytes.split_at(4);
    Ok((LittleEndian::read_u32(bytes), rest))
}

/// The unsigned number of 64 bits that the first eight bytes are.
#[tactic(auto, unfolding(crate::specs::Fields::number_in))]
pub fn u64_in(bytes: &[u8]) -> u64
    requires { 8 ≤ length bytes.now }
    ensures { result ≡ number_in 8 bytes.now }
{
    LittleEndian::read_u64(bytes)
}

/// An unsigned number of 64 bits, and the bytes after it.
pub fn u64_at(bytes: &[u8]) -> Result<(u64, &[u8]), RecordFault>
    ensures { Equals (λ x. (x.0, x.1.now)) result (number_at 8 bytes.now) }
{
    if bytes.len() < 8 {
        return Err(RecordFault::Malformed);
    }
    let (_, rest) = bytes.split_at(8);
    Ok((u64_in(bytes), rest))
}

/// A signed number of 32 bits, and the bytes after it.
pub fn i32_at(bytes: &[u8]) -> Result<(i32, &[u8]), RecordFault>
    ensures { Equals (λ x. (x.0, x.1.now)) result (signed_at w32 4 bytes.now) }
{
    let (number, rest) = u32_at(bytes)?;
    Ok((number.cast_signed(), rest))
}

/// A signed number of 64 bits, and the bytes after it.
pub fn i64_at(bytes: &[u8]) -> Result<(i64, &[u8]), RecordFault>
    ensures { Equals (λ x. (x.0, x.1.now)) result (signed_at w64 8 bytes.now) }
{
    let (number, rest) = u64_at(bytes)?;
    Ok((number.cast_signed(), rest))
}

/// Refuses bytes after the last field.
pub fn end(bytes: &[u8]) -> Result<(), RecordFault>
    ensures { Equals (λ x. x) result (ended record {} bytes.now) }
{
    if bytes.is_empty() {
        Ok(())
    } else {
        Err(RecordFault::Malformed)
    }
}

/// Refuses bytes that are no pairs of two numbers of 64 bits each, or more than 64 pairs.
pub fn pairs(bytes: &[u8]) -> Result<(), RecordFault>
    ensures { Equals (λ x. x) result (paired record {} bytes.now) }
{
    if bytes.len() > 1_024 {
        return Err(RecordFault::Malformed);
    }
    if bytes.len() % 16 == 0 {
        Ok(())
    } else {
        Err(RecordFault::Malformed)
    }
}

/// Writes the lowest four bytes of a size at the end.
#[tactic(auto, unfolding(crate::specs::Fields::number_bytes))]
pub fn put_size(out: &mut Vec<u8>, size: usize) -> Result<(), AllocError>
    ensures { OnOk result (out.new.items ≡ out.old.items ++ number_bytes 4 size) }
{
    let mut bytes = [0; 8];
    LittleEndian::write_u64(&mut bytes, size as u64);
    out.extend_from_slice(&bytes[..4])
}

/// Writes an unsigned number of 32 bits at the end.
#[tactic(auto, unfolding(crate::specs::Fields::number_bytes))]
pub fn put_u32(out: &mut Vec<u8>, number: u32) -> Result<(), AllocError>
    ensures { OnOk result (out.new.items ≡ out.old.items ++ number_bytes 4 number) }
{
    let mut bytes = [0; 4];
    LittleEndian::write_u32(&mut bytes, number);
    out.extend_from_slice(&bytes)
}

/// Writes an unsigned number of 64 bits at the end.
#[tactic(auto, unfolding(crate::specs::Fields::number_bytes))]
pub fn put_u64(out: &mut Vec<u8>, number: u64) -> Result<(), AllocError>
    ensures { OnOk result (out.new.items ≡ out.old.items ++ number_bytes 8 number) }
{
    let mut bytes = [0; 8];
    LittleEndian::write_u64(&mut bytes, number);
    out.extend_from_slice(&bytes)
}

/// Writes a signed number of 32 bits at the end.
pub fn put_i32(out: &mut Vec<u8>, number: i32) -> Result<(), AllocError>
    ensures { OnOk result (out.new.items ≡ out.old.items ++ signed_bytes w32 4 number) }
{
    put_u32(out, number.cast_unsigned())
}

/// Writes a signed number of 64 bits at the end.
pub fn put_i64(out: &mut Vec<u8>, number: i64) -> Result<(), AllocError>
    ensures { OnOk result (out.new.items ≡ out.old.items ++ signed_bytes w64 8 number) }
{
    put_u64(out, number.cast_unsigned())
}

ghost use Rattle.script_lines.specs.Hex.{digit_of, byte_of, bytes_of, behind, groups_of, hex_of};
ghost use Rattle.script_lines.specs.LineFault.{Gives, Leaves};
ghost use Rattle.script_lines.specs.Pieces.{pieces};
ghost use Rattle.std.specs.Prelude.{◌≡◌};

use crate::line::LineFault;
use crate::pieces::first_of_bytes;
use byte_strings::Bytes;
use std::alloc::Global;

/// The value of a digit.
fn digit_of(digit: u8) -> Option<u8>
    ensures { result ≡ digit_of digit }
{
    match digit {
        b'0'..=b'9' => Some(digit - b'0'),
        b'a'..=b'f' => Some(digit - b'a' + 10),
        _ => None,
    }
}

/// The byte of two digits.
fn byte_of(high: u8, low: u8) -> Option<u8>
    ensures { result ≡ byte_of high low }
{
    let high = digit_of(high)?;
    let low = digit_of(low)?;
    Some(16 * high + low)
}

/// Puts the bytes of digits, two to a byte, after the others.
fn push_group(bytes: &mut Vec<u8>, digits: &[u8]) -> Result<(), LineFault>
    ensures { Leaves result bytes.new.items (behind bytes.old.items (bytes_of digits.now)) }
{
    let mut rest = digits;
    'bytes: while rest.len() >= 2 {
        let byte = byte_of(rest[0], rest[1]).ok_or(LineFault::Bad)?;
        bytes.push(byte)?;
        rest = rest.split_at(2).1;
    }
    if rest.is_empty() {
        Ok(())
    } else {
        Err(LineFault::Bad)
    }
}

/// The bytes of one group of digits after another, with `_` between them.
fn groups_of(alloc: Global, digits: &[u8]) -> Result<Bytes, LineFault>
    ensures { Gives result (groups_of (pieces 95 digits.now)) }
{
    let mut bytes = Vec::new(alloc);
    let mut left = Some(digits);
    'groups: while let Some(digits) = left {
        let (group, others) = first_of_bytes(digits, b'_');
        push_group(&mut bytes, group)?;
        left = others;
    }
    Ok(Bytes::from(bytes))
}

/// The bytes that a word gives in hexadecimal.
#[tactic(auto, unfolding(crate::specs::Hex::hex_of))]
pub(crate) fn read_hex(alloc: Global, word: &str) -> Result<Bytes, LineFault>
    ensures { Gives result (hex_of word.now) }
{
    if word == "-" {
        return Ok(Bytes::from(Vec::new(alloc)));
    }
    let digits = word.as_bytes();
    if digits.is_empty() {
        return Err(LineFault::Bad);
    }
    if digits[0] == b'_' {
        return Err(LineFault::Bad);
    }
    if digits[digits.len() - 1] == b'_' {
        return Err(LineFault::Bad);
    }
    groups_of(alloc, digits)
}

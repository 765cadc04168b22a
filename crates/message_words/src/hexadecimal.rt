//! Bytes in hexadecimal, with `_` between fields.

ghost use Rattle.message_words.specs.Hex.{fields_hex, grouped, marked};
ghost use Rattle.std.specs.Prelude.{◌≡◌, ◌++◌, IfOk, OnOk};
ghost use Rattle.std.specs.String.{string_bytes};

use byte_strings::Text;
use std::alloc::{AllocError, Global};

/// Writes bytes after a `_`, where there are any.
fn push_marked(alloc: Global, out: &mut String, bytes: &[u8]) -> Result<(), AllocError>
    ensures { OnOk result (string_bytes out.new ≡ string_bytes out.old ++ marked bytes.now) }
{
    if bytes.is_empty() {
        return Ok(());
    }
    let digits = hex::encode(alloc, bytes)?;
    out.push_str("_")?;
    out.push_str(digits.as_str())
}

/// Writes one field after another, and then the rest.
#[tactic(auto, unfolding(crate::specs::Hex::fields_hex))]
fn push_fields(
    alloc: Global,
    out: &mut String,
    widths: &[usize],
    bytes: &[u8],
) -> Result<(), AllocError>
    ensures { OnOk result (string_bytes out.new ≡ string_bytes out.old ++ fields_hex widths.now bytes.now) }
{
    match widths.split_first() {
        None => push_marked(alloc, out, bytes),
        Some((width, later)) => {
            let (field, rest) = bytes.split_at(bytes.len().min(*width));
            push_marked(alloc, out, field)?;
            push_fields(alloc, out, later, rest)
        }
    }
}

/// The bytes in hexadecimal: first four of them, then fields of these widths, and then the rest.
pub(crate) fn grouped(alloc: Global, widths: &[usize], bytes: &[u8]) -> Result<Text, AllocError>
    ensures { IfOk result (λ text. text ≡ grouped widths.now bytes.now) }
{
    let (front, rest) = bytes.split_at(bytes.len().min(4));
    let mut out = hex::encode(alloc, front)?;
    push_fields(alloc, &mut out, widths, rest)?;
    Ok(Text::from(out))
}

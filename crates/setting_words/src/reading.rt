ghost use Rattle.channel_uri.specs.Quantity.{linger_of};
ghost use Rattle.channel_uri.specs.Syntax.{address_read};
ghost use Rattle.setting_words.specs.Plain.{plain, time_of};
ghost use Rattle.std.specs.Fmt.{decimal};
ghost use Rattle.std.specs.Option.{option_map};
ghost use Rattle.std.specs.Prelude.{◌≡◌, ◌++◌, IfOk};

use crate::keys::Kind;
use crate::quantity::{duration_in, size_in};
use byte_strings::Text;
use std::alloc::{AllocError, Global};

/// A duration in nanoseconds that is not 0.
fn time_in(text: &str) -> Option<u64>
    ensures { result ≡ time_of text.now }
{
    let duration = duration_in(text)?;
    if duration == 0 { None } else { Some(duration) }
}

/// A number in decimal.
fn written(alloc: Global, number: Option<u64>) -> Result<Option<Text>, AllocError>
    ensures { IfOk result (λ text. text ≡ option_map decimal number) }
{
    match number {
        Some(number) => Ok(Some(Text::from(format!(in alloc; "{number}")?))),
        None => Ok(None),
    }
}

/// What stands for `localhost:` at the head of an address, and the rest of the address.
fn address_in(value: &str) -> (&'static str, &str)
    ensures { result.0.now ++ result.1.now ≡ address_read value.now }
{
    match value.strip_prefix("localhost:") {
        Some(rest) => ("127.0.0.1:", rest),
        None => ("", value),
    }
}

/// An address without `localhost`.
fn address(alloc: Global, value: &str) -> Result<Text, AllocError>
    ensures { IfOk result (λ text. text ≡ address_read value.now) }
{
    let (head, rest) = address_in(value);
    Ok(Text::from(format!(in alloc; "{head}{rest}")?))
}

/// The value of a setting as a script's `set` has it: a duration in nanoseconds, a size in bytes, and 127.0.0.1 in the place of
/// `localhost`. `None` where it is no duration or no size, or is 0 and must not be. What a driver takes of the others is not
/// looked at.
pub fn plain(alloc: Global, kind: Kind, value: &str) -> Result<Option<Text>, AllocError>
    ensures { IfOk result (λ text. text ≡ plain kind value.now) }
{
    match kind {
        Kind::Duration => written(alloc, duration_in(value)),
        Kind::Time => written(alloc, time_in(value)),
        Kind::Size => written(alloc, size_in(value)),
        Kind::Number => Ok(Some(Text::new(alloc, value)?)),
        Kind::Address => Ok(Some(address(alloc, value)?)),
    }
}

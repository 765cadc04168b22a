ghost use Rattle.channel_uri.specs.Quantity.{linger_of, measured, mtu_from, mtu_of, size_of, term_length_from, term_length_of, times};
ghost use Rattle.std.specs.Prelude.{◌≡◌, map};

use crate::number::number_below;
use crate::syntax::before_end;

/// Sizes and durations are below this.
const LIMIT: u64 = 1 << 63;

/// So many times the factor.
fn times(factor: u64, digits: &str) -> Option<u64>
    ensures { result ≡ times factor digits.now }
{
    let number = number_below(LIMIT, digits)?;
    let product = number.checked_mul(factor)?;
    if product < LIMIT { Some(product) } else { None }
}

/// The number before the first of these units that the text ends in, or of the whole text where it ends in none.
fn measured(units: &[(&str, u64)], text: &str) -> Option<u64>
    ensures { result ≡ measured (map (λ unit. (unit.0.now, unit.1)) units.now) text.now }
{
    for (unit, factor) in units {
        if let Some(digits) = before_end(unit, text) {
            return times(*factor, digits);
        }
    }
    times(1, text)
}

/// A size in bytes.
#[tactic(auto, unfolding(crate::specs::Quantity::size_of))]
fn size_of(text: &str) -> Option<u64>
    ensures { result ≡ size_of text.now }
{
    let units = [
        ("k", 1024),
        ("K", 1024),
        ("m", 1_048_576),
        ("M", 1_048_576),
        ("g", 1_073_741_824),
        ("G", 1_073_741_824),
    ];
    measured(&units, text)
}

/// The greatest length of a datagram that is so many bytes: a multiple of 32 from 64 to 65504.
#[tactic(auto, unfolding(crate::specs::Quantity::mtu_from))]
pub fn mtu_from(size: u64) -> Option<u32>
    ensures { result ≡ mtu_from size }
{
    if size < 64 {
        return None;
    }
    if size > 65504 {
        return None;
    }
    if size % 32 == 0 {
        Some(size as u32)
    } else {
        None
    }
}

/// The greatest length of a datagram, in bytes.
#[tactic(auto, unfolding(crate::specs::Quantity::mtu_of))]
pub(crate) fn mtu_of(text: &str) -> Option<u32>
    ensures { result ≡ mtu_of text.now }
{
    mtu_from(size_of(text)?)
}

/// The length of a term that is so many bytes: a power of two from 64 KiB to 16 MiB.
#[tactic(auto, unfolding(crate::specs::Quantity::term_length_from))]
pub fn term_length_from(size: u64) -> Option<u32>
    ensures { result ≡ term_length_from size }
{
    if size < 65_536 {
        return None;
    }
    if size > 16_777_216 {
        return None;
    }
    if size.is_power_of_two() {
        Some(size as u32)
    } else {
        None
    }
}

/// The length of a term, in bytes.
#[tactic(auto, unfolding(crate::specs::Quantity::term_length_of))]
pub(crate) fn term_length_of(text: &str) -> Option<u32>
    ensures { result ≡ term_length_of text.now }
{
    term_length_from(size_of(text)?)
}

/// For how long a log lingers, in nanoseconds.
#[tactic(auto, unfolding(crate::specs::Quantity::linger_of))]
pub(crate) fn linger_of(text: &str) -> Option<u64>
    ensures { result ≡ linger_of text.now }
{
    let units = [
        ("ns", 1),
        ("us", 1000),
        ("ms", 1_000_000),
        ("s", 1_000_000_000),
    ];
    measured(&units, text)
}

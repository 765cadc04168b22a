ghost use Rattle.channel_uri.specs.Quantity.{linger_of, measured, size_of, times};
ghost use Rattle.channel_uri.specs.Syntax.{before_end};
ghost use Rattle.std.specs.Prelude.{◌≡◌, map, option_copied};

use crate::number::{LIMIT, number_in};

/// What stands before this end of the text.
fn before_end<'a>(end: &str, text: &'a str) -> Option<&'a str>
    ensures { option_copied result ≡ before_end end.now text.now }
{
    text.strip_suffix(end)
}

/// So many times the factor.
fn times(factor: u64, digits: &str) -> Option<u64>
    ensures { result ≡ times factor digits.now }
{
    let number = number_in(digits)?;
    let product = number.checked_mul(factor)?;
    if product < LIMIT { Some(product) } else { None }
}

/// The number before the first of these units that the text ends in, or of the whole text where it ends in none.
fn measured(units: &[(&str, u64)], text: &str) -> Option<u64>
    ensures { result ≡ measured (map (λ unit. (unit.0.now, unit.1)) units.now) text.now }
{
    for (unit, factor) in units {
        if let Some(digits) = before_end(unit, text) {
            return times(*factor, digits);
        }
    }
    times(1, text)
}

/// A size in bytes, with the units of a channel's sizes.
#[tactic(auto, unfolding(channel_uri::specs::Quantity::size_of))]
pub(crate) fn size_in(text: &str) -> Option<u64>
    ensures { result ≡ size_of text.now }
{
    let units = [
        ("k", 1024),
        ("K", 1024),
        ("m", 1_048_576),
        ("M", 1_048_576),
        ("g", 1_073_741_824),
        ("G", 1_073_741_824),
    ];
    measured(&units, text)
}

/// A duration in nanoseconds, with the units of a channel's durations.
#[tactic(auto, unfolding(channel_uri::specs::Quantity::linger_of))]
pub(crate) fn duration_in(text: &str) -> Option<u64>
    ensures { result ≡ linger_of text.now }
{
    let units = [
        ("ns", 1),
        ("us", 1000),
        ("ms", 1_000_000),
        ("s", 1_000_000_000),
    ];
    measured(&units, text)
}

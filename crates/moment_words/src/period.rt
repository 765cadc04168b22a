ghost use Rattle.channel_uri.specs.Quantity.{measured, times};
ghost use Rattle.channel_uri.specs.Syntax.{before_end};
ghost use Rattle.moment_words.specs.Period.{period_of};
ghost use Rattle.std.specs.Prelude.{◌≡◌, map, option_copied};

use crate::number::number_in;

/// Periods are below this, in nanoseconds.
const LIMIT: u64 = 1 << 63;

/// What stands before this end of the text.
fn before_end<'a>(end: &str, text: &'a str) -> Option<&'a str>
    ensures { option_copied result ≡ before_end end.now text.now }
{
    text.strip_suffix(end)
}

/// So many times the factor.
fn times(factor: u64, digits: &str) -> Option<u64>
    ensures { result ≡ times factor digits.now }
{
    let number = number_in(digits)?;
    let product = number.checked_mul(factor)?;
    if product < LIMIT { Some(product) } else { None }
}

/// The number before the first of these units that the text ends in, or of the whole text where it ends in none.
fn measured(units: &[(&str, u64)], text: &str) -> Option<u64>
    ensures { result ≡ measured (map (λ unit. (unit.0.now, unit.1)) units.now) text.now }
{
    for (unit, factor) in units {
        if let Some(digits) = before_end(unit, text) {
            return times(*factor, digits);
        }
    }
    times(1, text)
}

/// How long a word says, in nanoseconds: a number and `d` for days of 24 hours, `h`, `m` or `s`, as `7d`; a number alone is
/// nanoseconds. It is below 2^63.
#[tactic(auto, unfolding(crate::specs::Period::period_of))]
pub fn period_of(text: &str) -> Option<u64>
    ensures { result ≡ period_of text.now }
{
    let units = [
        ("d", 86_400_000_000_000),
        ("h", 3_600_000_000_000),
        ("m", 60_000_000_000),
        ("s", 1_000_000_000),
    ];
    measured(&units, text)
}

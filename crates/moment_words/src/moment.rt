ghost use Rattle.jiff.specs.Words.{parse_timestamp, timestamp_view};
ghost use Rattle.channel_uri.specs.Number.{decimal_of};
ghost use Rattle.moment_words.specs.Moment.{date_from, fault_text, moment_of, moment_or, numbered, within};
ghost use Rattle.std.specs.Prelude.{◌≡◌, Some, is_some, option_copied, true};

use crate::number::{is_decimal, number_in};
use jiff::{Error, Timestamp};
use std::fmt;

/// Why a word names no moment.
#[derive(Clone, Copy, Debug, PartialEq, Eq)]
pub enum MomentFault {
    /// It is neither a number nor a date with a time and an offset.
    NoMoment,
    /// It is before 1970.
    TooEarly,
    /// It is past 2^63 - 1 nanoseconds.
    TooLate,
}

impl fmt::Display for MomentFault {
    ghost output = { λ fault. Some (fault_text fault) };

    fn fmt<W: fmt::Write>(&self, f: &mut fmt::Formatter<W>) -> fmt::Result {
        f.write_str(match self {
            MomentFault::NoMoment => {
                "neither nanoseconds since 1970 nor a date such as 2026-12-01T08:00:00Z"
            }
            MomentFault::TooEarly => "a moment before 1970",
            MomentFault::TooLate => {
                "a moment past 9223372036854775807, which is 2262-04-11T23:47:16.854775807Z"
            }
        })
    }
}

/// Nanoseconds since 1970, where they are a moment.
fn within(nanoseconds: i128) -> Result<u64, MomentFault>
    ensures { result ≡ within nanoseconds }
{
    if nanoseconds < 0 {
        return Err(MomentFault::TooEarly);
    }
    if nanoseconds < 9_223_372_036_854_775_808 {
        return Ok(nanoseconds as u64);
    }
    Err(MomentFault::TooLate)
}

/// The instant that a text is in RFC 3339, as `jiff` reads it.
fn instant_of(text: &str) -> Result<Timestamp, Error>
    ensures { timestamp_view result ≡ parse_timestamp text.now }
{
    text.parse::<Timestamp>()
}

/// The moment of a date's text.
fn date_of(text: &str) -> Result<u64, MomentFault>
    ensures { result ≡ date_from (parse_timestamp text.now) }
{
    match instant_of(text) {
        Ok(instant) => within(instant.as_nanosecond()),
        Err(_) => Err(MomentFault::NoMoment),
    }
}

/// The moment of so many nanoseconds in decimal.
fn number_of(text: &str) -> Result<u64, MomentFault>
    ensures { result ≡ numbered (decimal_of text.now) }
{
    match number_in(text) {
        Some(moment) => Ok(moment),
        None => Err(MomentFault::TooLate),
    }
}

/// The moment that a word names, in nanoseconds since 1970: digits alone are so many of them; another text is a date in
/// RFC 3339, as `2026-12-01T08:00:00Z`, whose fraction of a second may have nine digits and whose offset may be another one
/// than `Z`. What else `jiff` reads as an instant is one too.
///
/// # Errors
/// That it is neither, and that it is before 1970 or past 2^63 - 1 nanoseconds.
#[tactic(auto, unfolding(crate::specs::Moment::moment_of))]
pub fn moment_of(text: &str) -> Result<u64, MomentFault>
    ensures { result ≡ moment_of text.now }
{
    if is_decimal(text) {
        number_of(text)
    } else {
        date_of(text)
    }
}

/// The moment that a word names, as [`moment_of`] has it; the usual one where there is no word.
///
/// # Errors
/// Those of the word.
pub fn moment_or(word: Option<&str>, usual: u64) -> Result<u64, MomentFault>
    ensures { result ≡ moment_or (option_copied word.entry) usual }
{
    match word {
        Some(word) => moment_of(word),
        None => Ok(usual),
    }
}

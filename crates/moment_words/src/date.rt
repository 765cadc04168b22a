ghost use Rattle.jiff.specs.Words.{IsTimestampNanos, civil_nanos};
ghost use Rattle.moment_words.specs.Date.{IsDateOf};
ghost use Rattle.std.specs.Prelude.{◌≡◌, IfOk, pos};

use byte_strings::Text;
use jiff::Timestamp;
use jiff::civil::DateTime;
use jiff::tz::Offset;
use std::alloc::{AllocError, Global};

/// What a clock in UTC shows so many nanoseconds after 1970 began.
fn shown_at(moment: u64) -> DateTime
    ensures { civil_nanos result ≡ pos moment }
{
    match Timestamp::from_nanosecond(i128::from(moment)) {
        Ok(instant) => Offset::UTC.to_datetime(instant),
        Err(_) => unreachable!(),
    }
}

/// The date of a moment in RFC 3339, in UTC, as `2026-12-01T08:00:00Z`; with a fraction of the second where that is not 0, up
/// to its last digit that is not 0.
pub fn date_text(alloc: Global, moment: u64) -> Result<Text, AllocError>
    ensures { IfOk result (λ text. IsDateOf moment text) }
{
    let shown = shown_at(moment);
    Ok(Text::from(format!(in alloc; "{shown}Z")?))
}

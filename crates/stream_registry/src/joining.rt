ghost use Rattle.stream_registry.specs.Joining.{is_joinable, is_open, joined_at, contradicts};
ghost use Rattle.std.specs.Option.{option_copied};
ghost use Rattle.std.specs.Prelude.{◌≡◌};

use crate::measures::Measures;
use crate::places::{is_manual, is_same_place};
use crate::row::LogRow;
use crate::sessions::agrees_with;
use channel_uri::Channel;

/// Whether others may join the publication.
fn is_open(log: &LogRow) -> bool
    ensures { result ≡ is_open log.now }
{
    log.is_published()
        && !log.is_exclusive()
        && !is_manual(&log.channel)
        && log.lingering_since().is_none()
}

/// Whether others may join the publication, and it is of this place and stream. Most are of another stream, and nothing else
/// is looked at there.
#[tactic(auto, unfolding(crate::specs::Joining::is_joinable))]
fn is_joinable(log: &LogRow, channel: &Channel, stream: i32) -> bool
    ensures { result ≡ is_joinable channel.now stream log.now }
{
    log.stream == stream && is_open(log) && is_same_place(&log.channel, channel)
}

/// The publication that others of this place and stream join.
pub(crate) fn joined_at<'a>(
    logs: &'a [LogRow],
    channel: &Channel,
    stream: i32,
) -> Option<&'a LogRow>
    ensures { option_copied result ≡ joined_at logs.now channel.now stream }
{
    for log in logs {
        if is_joinable(log, channel, stream) {
            return Some(log);
        }
    }
    None
}

/// Whether the channel says something else of the log or of the session.
#[tactic(auto, unfolding(crate::specs::Joining::contradicts))]
pub(crate) fn contradicts(defaults: Measures, channel: &Channel, log: &LogRow) -> bool
    ensures { result ≡ contradicts defaults channel.now log.now }
{
    !defaults.with_those_of(channel).is_same(log.measures)
        || !agrees_with(log.session, channel.session_id())
}

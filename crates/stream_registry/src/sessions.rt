ghost use Rattle.stream_registry.specs.Sessions.{after, has_session, is_taken, free_session, agrees_with, has_session_at, is_stated_again};
ghost use Rattle.std.specs.List.{list_any};
ghost use Rattle.std.specs.Prelude.{◌≡◌};

use crate::places::is_same_media;
use crate::row::LogRow;
use channel_uri::Media;

/// The session id after this one; the least comes after the greatest.
pub(crate) fn after(session: i32) -> i32
    ensures { result ≡ after session }
{
    session.wrapping_add(1)
}

/// Whether it is a publication of this session. An image's session is its publisher's, and takes none of ours.
fn has_session(log: &LogRow, session: i32) -> bool
    ensures { result ≡ has_session session log.now }
{
    log.is_published() && log.session == session
}

/// Whether a live publication has this session.
fn is_taken(logs: &[LogRow], session: i32) -> bool
    ensures { result ≡ is_taken logs.now session }
{
    logs.iter().any(|log| has_session(log, session))
}

/// The first session from this one on that no live publication has.
#[tactic(auto, unfolding(crate::specs::Sessions::free_session))]
pub(crate) fn free_session(logs: &[LogRow], first: i32) -> i32
    ensures { result ≡ free_session logs.now first }
{
    let mut session = first;
    for _other in logs {
        if !is_taken(logs, session) {
            return session;
        }
        session = after(session);
    }
    session
}

/// Whether a channel that states this session, or none, is one of the publication's.
pub(crate) fn agrees_with(session: i32, stated: Option<i32>) -> bool
    ensures { result ≡ agrees_with session stated }
{
    match stated {
        Some(stated) => stated == session,
        None => true,
    }
}

/// Whether the publication has the session, on this medium and stream.
#[tactic(auto, unfolding(crate::specs::Sessions::has_session_at))]
fn has_session_at(log: &LogRow, media: Media, stream: i32, session: i32) -> bool
    ensures { result ≡ has_session_at media stream session log.now }
{
    is_same_media(log.channel.media(), media) && log.stream == stream && has_session(log, session)
}

/// Whether a publication has the session, on this medium and stream.
fn is_used_at(logs: &[LogRow], media: Media, stream: i32, session: i32) -> bool
    ensures { result ≡ list_any (has_session_at media stream session) logs.now }
{
    for log in logs {
        if has_session_at(log, media, stream, session) {
            return true;
        }
    }
    false
}

/// Whether a live publication of this medium and stream has the session that is stated.
pub(crate) fn is_stated_again(
    logs: &[LogRow],
    media: Media,
    stream: i32,
    stated: Option<i32>,
) -> bool
    ensures { result ≡ is_stated_again logs.now media stream stated }
{
    match stated {
        Some(session) => is_used_at(logs, media, stream, session),
        None => false,
    }
}

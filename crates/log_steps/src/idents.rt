//! What a log is made for, as its row says.

ghost use Rattle.log_steps.specs.Idents.{ident_of, kind_over, stream_ident};
ghost use Rattle.std.specs.Prelude.{◌≡◌};

use channel_uri::Media;
use driver_core::Settings;
use stream_registry::LogRow;
use term_log::{Ident, LogKind};

/// Over datagrams, or in shared memory.
fn kind_over(media: Media) -> LogKind
    ensures { result ≡ kind_over media }
{
    match media {
        Media::Ipc => LogKind::Ipc,
        Media::Udp | Media::Counter => LogKind::Udp,
    }
}

/// What the log of the publication is made for.
pub fn ident_of(settings: Settings, publication: &LogRow) -> Ident
    ensures { result ≡ ident_of settings publication.now }
{
    Ident {
        kind: kind_over(publication.channel.media()),
        session: publication.session,
        stream: publication.stream,
        initial_term: settings.initial_term,
        term_length: publication.measures.term_length,
        mtu: publication.measures.mtu,
        start: 0,
    }
}

/// The stream of the image, whose log began with that term.
pub fn stream_ident(image: &LogRow, initial_term: i32) -> image_log::Ident
    ensures { result ≡ stream_ident image.now initial_term }
{
    image_log::Ident {
        session_id: image.session,
        stream_id: image.stream,
        initial_term_id: initial_term,
        term_length: image.measures.term_length,
    }
}

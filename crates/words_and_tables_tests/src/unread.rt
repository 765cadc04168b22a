//! Images that no subscription reads.

use crate::reader_play::Play;
use channel_uri::{Address, Channel, UriError};
use stream_registry::{ImageWanted, Measures};

/// The log of a remote publisher.
fn wanted() -> Result<ImageWanted, UriError> {
    Ok(ImageWanted {
        channel: Channel::parse("aeron:udp?endpoint=127.0.0.1:40123")?,
        stream: 10,
        session: 7,
        address: Address {
            octets: [127, 0, 0, 1],
            port: 50_000,
        },
        initial_term: 3,
        join: 64,
        measures: Measures {
            mtu: 1408,
            term_length: 65_536,
            linger: 0,
        },
    })
}

/// Whether an image is reported once its subscriber left, until it goes, and a publication never is.
pub(crate) fn unread_image_is_told(play: &mut Play) -> bool {
    let Ok(wanted) = wanted() else {
        return false;
    };
    let read = play.publishes(1, 1)
        & play.subscribes_to(2, 1, &wanted.channel)
        & play.images(3, &wanted)
        & play.has(3, 2)
        & play.has_unread(&[]);
    play.leaves(1);
    let told = play.reads(0) & play.has_unread(&[3]);
    play.removes_images(&[3]);
    read & told & play.has_unread(&[])
}

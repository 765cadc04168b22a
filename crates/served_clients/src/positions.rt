//! How far the logs of a client have come, as the connection is told.

ghost use Rattle.served_clients.specs.Positions.{TellsImage, TellsPublication, image_told, position_reason, publication_told};
ghost use Rattle.std.specs.Prelude.{◌≡◌};

use driver_service::{ImagePositions, PublicationPositions, Reason, Refusal};
use media_driver::PositionFault;

fn reason_of(fault: PositionFault) -> Reason
    ensures { result ≡ position_reason fault }
{
    match fault {
        PositionFault::Closed => Reason::Closed,
        PositionFault::NoLook => Reason::NoLook,
    }
}

fn publication_told(shown: media_driver::PublicationPositions) -> PublicationPositions
    ensures { result ≡ publication_told shown }
{
    PublicationPositions {
        position: shown.position,
        limit: shown.limit,
        sent: shown.sent,
        consumed: shown.consumed,
        connected: shown.connected,
    }
}

fn image_told(shown: media_driver::ImagePositions) -> ImagePositions
    ensures { result ≡ image_told shown }
{
    ImagePositions {
        joined: shown.joined,
        position: shown.position,
        received: shown.received,
    }
}

/// How far a publication has come, as the connection is told.
pub(crate) fn tell_publication(
    gave: Result<media_driver::PublicationPositions, PositionFault>,
) -> Result<PublicationPositions, Refusal>
    ensures { TellsPublication gave result }
{
    match gave {
        Ok(shown) => Ok(publication_told(shown)),
        Err(fault) => Err(Refusal::Because(reason_of(fault))),
    }
}

/// How far a subscription has come with a log, as the connection is told.
pub(crate) fn tell_image(
    gave: Result<media_driver::ImagePositions, PositionFault>,
) -> Result<ImagePositions, Refusal>
    ensures { TellsImage gave result }
{
    match gave {
        Ok(shown) => Ok(image_told(shown)),
        Err(fault) => Err(Refusal::Because(reason_of(fault))),
    }
}

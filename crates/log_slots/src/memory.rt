//! The memory for a log, which is taken before anything is changed.

ghost use Rattle.log_steps.specs.Rooms.{memory_of};
ghost use Rattle.log_slots.specs.Opening.{room_of};
ghost use Rattle.std.specs.Prelude.{◌≡◌, IfOk};

use driver_core::Event;
use image_log::ImageRoom;
use std::alloc::{AllocError, Global};
use std::marker::Model;
use term_log::LogRoom;

/// The memory for the log of an image, and how long its terms are to be, which is what contracts see.
#[derive(Drop)]
pub struct ImageMemory {
    pub(crate) room: ImageRoom,
    pub(crate) term_length: u32,
}

impl Model for ImageMemory {
    ghost use Rattle.std.specs.Prelude.{◌≡◌, ◌*◌, ℕ};

    ghost Value = { ℕ };

    ghost view = { λ memory. memory.term_length };

    ghost invariant = { λ memory. memory.room ≡ 3 * memory.term_length };
}

/// The memory that the log takes which an event opens.
#[derive(Drop)]
pub enum LogMemory {
    /// That of a publication.
    Publication(LogRoom),
    /// That of an image.
    Image(ImageMemory),
}

/// The memory for an image whose terms are so long.
fn image_memory(alloc: Global, term_length: u32) -> Result<ImageMemory, AllocError>
    ensures { IfOk result (λ memory. memory ≡ term_length) }
{
    let room = ImageRoom::new(alloc, 3 * term_length as usize)?;
    Ok(ImageMemory { room, term_length })
}

/// The memory for the log that the event may open: a SETUP brings an image, and any other event a publication.
pub fn memory_for(alloc: Global, event: &Event) -> Result<LogMemory, AllocError>
    ensures { IfOk result (λ memory. room_of memory ≡ memory_of event.now) }
{
    if let Event::Setup { setup, .. } = event {
        if let Some(join) = setup.join() {
            return Ok(LogMemory::Image(image_memory(alloc, join.term_length)?));
        }
    }
    Ok(LogMemory::Publication(LogRoom::new(alloc)?))
}

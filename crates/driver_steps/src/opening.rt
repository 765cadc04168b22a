//! The log that comes with an event: that of a publication, or of an image.

ghost use Rattle.driver_core.specs.Renewal.{source_at};
ghost use Rattle.driver_steps.specs.OpenLogs.{IsOpening, OpensFor};
ghost use Rattle.driver_steps.specs.Opening.{CanOpen, HasRoom, IsMemoryFor, OpensNext, place_of, room_of};
ghost use Rattle.log_steps.specs.Rooms.{memory_of, room_of_setup};
ghost use Rattle.std.specs.Prelude.{◌≡◌, ◌<◌, IfOk, length};

use crate::open_logs::OpenLogs;
use driver_core::{Event, Registry, Settings};
use frame_codec::Setup;
use image_log::ImageRoom;
use log_steps::{ident_of, stream_ident};
use std::alloc::{AllocError, Global};
use stream_registry::{LogPlace, Origin};
use term_log::LogRoom;

/// The memory that a log takes.
#[derive(Drop)]
pub(crate) enum Memory {
    /// That of a publication.
    Publication(LogRoom),
    /// That of an image.
    Image(ImageRoom),
}

/// The log that an event opens, before it is open: its number and place, and the memory that it takes.
#[derive(Drop)]
pub(crate) struct Opening {
    pub(crate) place: LogPlace,
    pub(crate) memory: Memory,
}

/// The memory for the image that a SETUP brings.
fn memory_of_image(alloc: Global, setup: &Setup) -> Result<Memory, AllocError>
    ensures { IfOk result (λ memory. room_of memory ≡ room_of_setup setup.now) }
{
    match setup.join() {
        Some(join) => Ok(Memory::Image(ImageRoom::new(alloc, 3 * join.term_length as usize)?)),
        None => Ok(Memory::Publication(LogRoom::new(alloc)?)),
    }
}

/// The memory for the log that the event brings: a SETUP brings an image, and any other event a publication.
fn memory_of(alloc: Global, event: &Event) -> Result<Memory, AllocError>
    ensures { IfOk result (λ memory. room_of memory ≡ memory_of event.now) }
{
    match event {
        Event::Setup { setup, .. } => memory_of_image(alloc, setup),
        _ => Ok(Memory::Publication(LogRoom::new(alloc)?)),
    }
}

/// Takes the memory that the log takes which an event opens, if it opens one.
pub(crate) fn prepare(
    logs: &mut OpenLogs,
    alloc: Global,
    event: &Event,
    opens: Option<LogPlace>,
) -> Result<Option<Opening>, AllocError>
    ensures same { logs.new ≡ record logs.old { room = logs.new.room } }
    ensures place { IfOk result (λ opening. place_of opening ≡ opens) }
    ensures room { IfOk result (λ opening. HasRoom logs.new event.now opening) }
{
    let Some(place) = opens else {
        return Ok(None);
    };
    logs.reserve()?;
    let memory = memory_of(alloc, event)?;
    Ok(Some(Opening { place, memory }))
}

/// Opens the log of that source, if the registry has it, at that place. It takes no memory.
fn open_for(logs: &mut OpenLogs, registry: &Registry, opening: Opening)
    requires fits { IsOpening logs.old opening.place.place (source_at registry.now.streams.sources opening.place.source) }
    requires memory { IsMemoryFor (room_of opening.memory) (source_at registry.now.streams.sources opening.place.source) }
    requires room { length logs.old.logs < logs.old.room }
    ensures { OpensFor logs.old logs.new registry.now opening.place.place (source_at registry.now.streams.sources opening.place.source) }
{
    let Opening { place, memory } = opening;
    let Some(log) = registry.source(place.source) else {
        return;
    };
    let settings = registry.settings();
    match (log.origin, memory) {
        (Origin::Published { .. }, Memory::Publication(memory)) => {
            let ident = ident_of(settings, log);
            logs.open(memory, log.number, place.place, ident, settings);
        }
        (
            Origin::Remote {
                initial_term,
                join,
                ..
            },
            Memory::Image(memory),
        ) => {
            let ident = stream_ident(log, initial_term);
            logs.open_image(
                memory,
                log.number,
                place.place,
                ident,
                join,
                registry.moment(),
                settings,
            );
        }
        _ => unreachable!(),
    }
}

/// Opens the log that an event opens, if it opens one. It takes no memory.
pub(crate) fn open_next(
    logs: &mut OpenLogs,
    after: &Registry,
    event: &Event,
    opening: Option<Opening>,
)
    requires opens { CanOpen logs.old after.now event.now (place_of opening) }
    requires room { HasRoom logs.old event.now opening }
    ensures { OpensNext logs.old logs.new after.now (place_of opening) }
{
    match opening {
        Some(opening) => open_for(logs, after, opening),
        None => {}
    }
}

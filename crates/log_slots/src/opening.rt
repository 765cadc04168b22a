//! The log that opens with an event, of a publication or of an image.

ghost use Rattle.driver_core.specs.Soundness.{AreSizes, BeginsSoundly};
ghost use Rattle.log_steps.specs.Idents.{begins_of, heard_at, made_by, stream_ident};
ghost use Rattle.log_steps.specs.Rooms.{IsRoomFor};
ghost use Rattle.image_log.specs.Rebuilt.{opened as image_opened};
ghost use Rattle.log_arena.specs.Lease.{lease_bytes, lease_home, lease_len, lease_place};
ghost use Rattle.log_arena.specs.Pages.{IsLeastPlace, marked};
ghost use Rattle.log_slots.specs.Opening.{OpensAs, room_of};
ghost use Rattle.log_traffic.specs.Held.{for_stream};
ghost use Rattle.log_traffic.specs.Whole.{rebuilt};
ghost use Rattle.std.specs.Prelude.{◌≡◌, ◌*◌, ◌/◌, ◌%◌, ◌<◌, ◌^◌, ℕ, true, replicate, IfNone, IfSome, IsSome, OnSome};
ghost use Rattle.stream_registry.specs.LogPages.{log_pages};
ghost use Rattle.stream_registry.specs.Origins.{is_published};

use crate::memory::{ImageMemory, LogMemory};
use crate::naming::Naming;
use crate::region::Region;
use driver_core::Settings;
use log_arena::Lease;
use log_steps::{OpenLog, ident_of, stream_ident};
use stream_registry::{LogRow, Origin};
use term_log::LogRoom;

/// Opens the log of a publication.
fn open_publication<N: Naming>(
    room: LogRoom,
    lease: Lease,
    row: &LogRow,
    settings: Settings,
) -> OpenLog
    requires kind { is_published row.now ≡ true }
    requires sizes { AreSizes row.now.measures }
    requires home { lease_home lease ≡ N.home }
    requires long { lease_len lease ≡ 3 * row.now.measures.term_length }
    requires zeros { lease_bytes lease ≡ replicate (3 * row.now.measures.term_length) 0 }
    requires place { lease_place lease / 4096 ≡ row.now.place }
    ensures { (now : ℕ) → OpensAs N.home settings now row.now result }
{
    OpenLog::of_publication(room, lease, row.number, ident_of(settings, row), settings)
}

/// Opens the log of an image.
fn open_image<N: Naming>(
    memory: ImageMemory,
    lease: Lease,
    row: &LogRow,
    initial_term: i32,
    join: u64,
    now: u64,
    settings: Settings,
) -> OpenLog
    requires kind { made_by settings row.now row.now.origin ≡ for_stream (stream_ident row.now initial_term) }
    requires begins { begins_of settings now row.now ≡ rebuilt (heard_at now (image_opened (stream_ident row.now initial_term) join)) }
    requires memory { memory ≡ row.now.measures.term_length }
    requires sizes { AreSizes row.now.measures }
    requires join { (join % 32 ≡ 0) × (join < row.now.measures.term_length * 2 ^ 31) }
    requires home { lease_home lease ≡ N.home }
    requires long { lease_len lease ≡ 3 * row.now.measures.term_length }
    requires zeros { lease_bytes lease ≡ replicate (3 * row.now.measures.term_length) 0 }
    requires place { lease_place lease / 4096 ≡ row.now.place }
    ensures { OpensAs N.home settings now row.now result }
{
    let ImageMemory {
        room,
        term_length: _,
    } = memory;
    let ident = stream_ident(row, initial_term);
    OpenLog::of_image(room, lease, row.number, ident, join, now, settings)
}

/// Opens the log of a live source, at the place that its row names, in memory that was taken before.
///
/// None where that place is not the least one that has room, or the memory is that of another log: nothing is changed then.
pub fn open_log<N: Naming>(
    region: &mut Region<N>,
    memory: LogMemory,
    row: &LogRow,
    now: u64,
    settings: Settings,
) -> Option<OpenLog>
    requires sizes { AreSizes row.now.measures }
    requires begins { BeginsSoundly row.now }
    ensures opens { IfSome result (λ held. OpensAs N.home settings now row.now held) }
    ensures taken { OnSome result (region.new ≡ marked true row.now.place (log_pages row.now) region.old) }
    ensures can { IsLeastPlace region.old (log_pages row.now) row.now.place → IsRoomFor (room_of memory) row.now row.now.origin → IsSome result }
    ensures none { IfNone result (region.new ≡ region.old) }
{
    let lease = region.lease_at(3 * row.measures.term_length as usize, row.place)?;
    match (row.origin, memory) {
        (Origin::Published { .. }, LogMemory::Publication(room)) => {
            Some(open_publication::<N>(room, lease, row, settings))
        }
        (
            Origin::Remote {
                initial_term,
                join,
                ..
            },
            LogMemory::Image(memory),
        ) if memory.term_length == row.measures.term_length => Some(open_image::<N>(
            memory,
            lease,
            row,
            initial_term,
            join,
            now,
            settings,
        )),
        _ => {
            region.give(lease);
            None
        }
    }
}

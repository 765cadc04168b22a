ghost use Rattle.log_slots.specs.Slots.{IsMadeFor, SlotLog};
ghost use Rattle.log_traffic.specs.Held.{made_held, messages_held, place_held};
ghost use Rattle.media_agents.specs.Acts.{Access, GoesOn};
ghost use Rattle.media_agents.specs.Asking.{Closes, IsAt, IsHold, Opens, Rejoins, SaysSilent};
ghost use Rattle.media_agents.specs.Finding.{log_at};
ghost use Rattle.std.specs.Prelude.{◌≡◌, ◌≤◌, List, length, IfErr, IfSome};

use crate::journal::Journal;
use crate::unopened::Unopened;
use log_slots::{Held, LogSlot, Naming, Slot};
use log_steps::OpenLog;
use std::sync::{Mutex, Wait};
use stream_registry::LogRow;

/// Which log, and which lock guards it.
#[derive(Clone, Copy, Debug, PartialEq, Eq)]
pub struct LogAt {
    pub source: u64,
    /// It is that of a publication. Else it is that of an image.
    pub published: bool,
    pub slot: u16,
}

impl LogAt {
    /// As the row says.
    pub fn of(row: &LogRow) -> LogAt
        ensures { result ≡ log_at row.now }
    {
        LogAt {
            source: row.number,
            published: row.is_published(),
            slot: row.slot,
        }
    }
}

/// The logs of a driver as the conductor gets at them, each under the lock of its slot. A slot that is not there is as one in
/// which no log is open.
pub trait Logs<N: Naming> {
    /// These are all accesses so far. What is said over any logs can know one by a call alone.
    ghost did: { Self → List Access → Type 0 };

    /// Exactly these subscriptions read the log from now on: from which position on a new one does, if it is open.
    fn rejoin<R: Wait>(&mut self, rt: &R, at: LogAt, subscriptions: &[u64]) -> Option<u64>
        requires { length subscriptions.now ≤ 512 }
        ensures { GoesOn (λ accesses. Rejoins (IsAt at accesses) at.source subscriptions.now result) (did self.old) (did self.new) };

    /// Whether it is the log of an image that is open, whose publisher was not heard for longer than `limit` nanoseconds.
    fn is_silent<R: Wait>(&mut self, rt: &R, at: LogAt, now: u64, limit: u64) -> bool
        ensures { GoesOn (λ accesses. SaysSilent (IsAt at accesses) at.source now limit result) (did self.old) (did self.new) };

    /// The log opens. It comes back where another log is open there, or none opens any more.
    fn open<R: Wait>(
        &mut self,
        rt: &R,
        at: LogAt,
        log: OpenLog,
        session: i32,
        stream: i32,
    ) -> Result<(), Unopened>
        requires home { (place_held log.log).home ≡ N.home }
        requires made { IsMadeFor session stream (made_held log.log) }
        requires fresh { messages_held log.log ≡ 0 }
        ensures opened { GoesOn (λ accesses. Opens (IsAt at accesses) session stream log result) (did self.old) (did self.new) }
        ensures back { IfErr result (λ back. back ≡ log) };

    /// The log closes, if it is open: it is handed out.
    fn close<R: Wait>(&mut self, rt: &R, at: LogAt) -> Option<OpenLog>
        ensures closed { GoesOn (λ accesses. Closes (IsAt at accesses) at.source result) (did self.old) (did self.new) }
        ensures home { IfSome result (λ log. (place_held log.log).home ≡ N.home) };
}

/// The slots of a driver.
#[derive(Drop)]
pub struct Slots<N: Naming> {
    pub publications: Vec<Mutex<Slot<N>>>,
    pub images: Vec<Mutex<LogSlot<N>>>,
    /// What the agents decided, dropped, lost or kept back. The lock is taken last, and for what came of one step.
    pub journal: Mutex<Journal>,
}

/// Exactly these subscriptions read the log of that source, if it is open here.
pub(crate) fn rejoin_in<N: Naming, H: Held<N>>(
    slot: &mut H,
    source: u64,
    subscriptions: &[u64],
) -> Option<u64>
    requires { length subscriptions.now ≤ 512 }
    ensures { Rejoins (IsHold N.home) source subscriptions.now result }
{
    slot.holds();
    let position = slot.rejoin(source, subscriptions);
    slot.holds();
    position
}

/// Whether the log of that image is open here and silent.
pub(crate) fn ask_image<N: Naming>(slot: &LogSlot<N>, source: u64, now: u64, limit: u64) -> bool
    ensures { SaysSilent (IsHold N.home) source now limit result }
{
    slot.holds();
    slot.is_silent(source, now, limit)
}

/// The log of that source closes, if it is open here.
pub(crate) fn close_in<N: Naming, H: Held<N>>(slot: &mut H, source: u64) -> Option<OpenLog>
    ensures closed { Closes (IsHold N.home) source result }
    ensures home { IfSome result (λ log. (place_held log.log).home ≡ N.home) }
{
    slot.holds();
    let log = slot.close(source);
    slot.holds();
    log
}

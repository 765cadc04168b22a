//! What the clients of one principal have together: a command that would pass a bound is not handed on.

ghost use Rattle.service_bounds.specs.Held.{KeepsWithin, bounds_of, flights_of, rows_of};
ghost use Rattle.service_bounds.specs.Changes.{refused_rows};
ghost use Rattle.service_bounds.specs.Flights.{is_other_turn};
ghost use Rattle.service_doors.specs.Budgets.{new_spending};
ghost use Rattle.service_doors.specs.Sharing.{AdmittedBy, Enters, heard_after};
ghost use Rattle.service_doors.specs.Shares.{Admits, AdmitsCommand, AdmitsMore, AdmitsSent, asked_row, bound_reason, counts_on, greatest, is_fresh, removal_in, waits_until};
ghost use Rattle.std.specs.Prelude.{◌≡◌, filter, IfSome, Ok};

use crate::bells::Bells;
use crate::budgets::{Spending, give_way};
use crate::memory::{DoorMemory, LongBytes};
use command_codec::Body;
use driver_service::Reason;
use program_parts::ticks;
use service_bounds::{Asked, Bound, Flight, Holdings, Kind, Outcome, Removal, Row, asked_of};
use std::sync::{Arc, Mutex, Wait};
use std::time::{Clock, CpuClock};

/// What a publication counts where its channel says nothing of it.
#[derive(Clone, Copy, Debug, PartialEq, Eq)]
pub struct Usual {
    /// The length of a term, in bytes.
    pub term_length: u32,
    /// How long a log is kept once its last registration went, in nanoseconds.
    pub linger: u64,
}

/// How long after that its pages are free at the latest, in nanoseconds.
const SLACK: u64 = 1_000_000_000;

/// How long a sign of life counts among the commands that are not answered, in nanoseconds.
const SIGN: u64 = 100_000_000;

/// Which commands of a client are known so far.
#[derive(Clone, Copy)]
struct Heard {
    /// The greatest correlation id of a command that went, if one did.
    last: Option<u64>,
    /// What it was before the last one that went.
    before: Option<u64>,
    /// How many went.
    count: u64,
}

/// What the clients of a principal have together.
#[derive(Drop)]
pub(crate) struct Room {
    pub(crate) principal: u32,
    pub(crate) holdings: Mutex<Holdings>,
    pub(crate) long: Mutex<LongBytes>,
}

/// A client's part of what its principal's clients have.
#[derive(Drop)]
pub struct Share<R: Clock + Wait + Copy + Drop> {
    rt: R,
    usual: Usual,
    room: Arc<Room>,
    bells: Arc<Bells>,
    heard: Heard,
    spending: Spending,
}

/// Why a command is refused that would pass this bound.
fn reason_of(bound: Option<Bound>) -> Reason
    ensures { result ≡ bound_reason bound }
{
    match bound {
        Some(Bound::Publications) => Reason::PublicationBound,
        Some(Bound::Pages) => Reason::PageBound,
        Some(Bound::Subscriptions) => Reason::SubscriptionBound,
        Some(Bound::Counters) => Reason::CounterBound,
        Some(Bound::Commands) => Reason::QueueFull,
        None => Reason::NoMemory,
    }
}

/// How long what a command asks for counts after it was removed, in nanoseconds.
fn counts_for(kind: Kind, linger: u64) -> u64
    ensures { result ≡ counts_on kind linger }
{
    match kind {
        Kind::Publication { .. } => linger.saturating_add(SLACK),
        Kind::Subscription => 0,
        Kind::Counter => 0,
    }
}

/// What a command asks for, as it counts from now on.
fn row_of(client: u64, correlation: u64, kind: Kind, linger: u64) -> Row
    ensures { result ≡ asked_row client correlation kind linger }
{
    Row {
        client,
        kind,
        correlation,
        registration: None,
        linger: counts_for(kind, linger),
        until: None,
    }
}

/// What a command removes, if it removes something.
fn removal_in(asked: Asked) -> Option<Removal>
    ensures { result ≡ removal_in asked }
{
    match asked {
        Asked::Removes(removal) => Some(removal),
        Asked::Adds { .. } => None,
        Asked::Other => None,
    }
}

/// Until when a command counts to which no reply may come, in nanoseconds: no sign of life is answered.
fn waits_until(body: &Option<Body>, now: u64) -> Option<u64>
    ensures { result ≡ waits_until body.now now }
{
    match body {
        Some(Body::ClientKeepalive) => Some(now.saturating_add(SIGN)),
        _ => None,
    }
}

/// The greatest correlation id with one more.
fn greatest(last: Option<u64>, correlation: u64) -> Option<u64>
    ensures { result ≡ greatest last correlation }
{
    match last {
        Some(last) if last >= correlation => Some(last),
        _ => Some(correlation),
    }
}

impl Heard {
    /// Whether a correlation id is greater than all before it.
    fn is_new(&self, correlation: u64) -> bool
        ensures { result ≡ is_fresh self.now.last correlation }
    {
        match self.last {
            Some(last) => correlation > last,
            None => true,
        }
    }

    /// A command goes.
    fn goes(&mut self, correlation: u64)
        ensures { self.new ≡ heard_after self.old correlation }
    {
        self.before = self.last;
        self.last = greatest(self.last, correlation);
        self.count = self.count.saturating_add(1);
    }

    /// The last command that went did not go after all.
    fn did_not_go(&mut self)
        ensures { self.new ≡ record self.old { last = self.old.before } }
    {
        self.last = self.before;
    }
}

/// One more counts from now on, where it passes no bound.
fn admit_row(holdings: &mut Holdings, now: u64, row: Row) -> Result<(), Reason>
    ensures admits { AdmitsMore (bounds_of holdings.old) now row (rows_of holdings.old) (rows_of holdings.new) result }
    ensures bounds { bounds_of holdings.new ≡ bounds_of holdings.old }
    ensures flights { flights_of holdings.new ≡ flights_of holdings.old }
    ensures within { KeepsWithin holdings.old holdings.new }
{
    match holdings.add(now, row) {
        Ok(()) => Ok(()),
        Err(bound) => Err(reason_of(bound)),
    }
}

/// What a command asks for counts from now on, where its correlation id may stand and it passes no bound.
fn admit_asked(
    holdings: &mut Holdings,
    now: u64,
    client: u64,
    correlation: u64,
    is_new: bool,
    asked: Asked,
) -> Result<(), Reason>
    ensures admits { Admits (bounds_of holdings.old) now client correlation is_new asked (flights_of holdings.old) (rows_of holdings.old) (rows_of holdings.new) result }
    ensures bounds { bounds_of holdings.new ≡ bounds_of holdings.old }
    ensures flights { flights_of holdings.new ≡ flights_of holdings.old }
    ensures within { KeepsWithin holdings.old holdings.new }
{
    match asked {
        Asked::Adds { kind, linger } if is_new => {
            let row = row_of(client, correlation, kind, linger);
            admit_row(holdings, now, row)
        }
        Asked::Removes(_) if is_new => Ok(()),
        Asked::Other if !holdings.awaits(client, correlation) => Ok(()),
        _ => Err(Reason::UsedCorrelation),
    }
}

/// What a command asks for counts from now on, where that may be: else it is not waited for.
fn admit_sent(
    holdings: &mut Holdings,
    now: u64,
    flight: Flight,
    is_new: bool,
    asked: Asked,
) -> Result<(), Reason>
    ensures admits { AdmitsSent now flight is_new asked holdings.old holdings.new (Ok tt) result }
    ensures bounds { bounds_of holdings.new ≡ bounds_of holdings.old }
    ensures within { KeepsWithin holdings.old holdings.new }
{
    let Flight {
        client,
        correlation,
        turn: sent,
        ..
    } = flight;
    match admit_asked(holdings, now, client, correlation, is_new, asked) {
        Ok(()) => Ok(()),
        Err(reason) => {
            holdings.take_back(client, sent);
            Err(reason)
        }
    }
}

/// A command goes, where fewer than may be are not answered, its correlation id may stand, and what it asks for passes no bound.
fn admit_command(
    holdings: &mut Holdings,
    now: u64,
    flight: Flight,
    is_new: bool,
    asked: Asked,
) -> Result<(), Reason>
    ensures admits { AdmitsCommand now flight is_new asked holdings.old holdings.new result }
    ensures bounds { bounds_of holdings.new ≡ bounds_of holdings.old }
    ensures within { KeepsWithin holdings.old holdings.new }
{
    match holdings.send(now, flight) {
        Ok(()) => admit_sent(holdings, now, flight, is_new, asked),
        Err(bound) => Err(reason_of(bound)),
    }
}

/// A command that was admitted did not go.
fn withdraw_command(holdings: &mut Holdings, client: u64, correlation: u64, turn: u64)
    ensures rows { rows_of holdings.new ≡ refused_rows client correlation (rows_of holdings.old) }
    ensures flights { flights_of holdings.new ≡ filter (is_other_turn client turn) (flights_of holdings.old) }
    ensures bounds { bounds_of holdings.new ≡ bounds_of holdings.old }
    ensures within { KeepsWithin holdings.old holdings.new }
{
    holdings.drop_asked(client, correlation);
    holdings.take_back(client, turn);
}

impl<R: Clock + Wait + Copy + Drop> Share<R> {
    /// Of a client that the driver lets be silent for `liveness` nanoseconds.
    pub(crate) fn new(
        rt: R,
        usual: Usual,
        room: Arc<Room>,
        bells: Arc<Bells>,
        liveness: u64,
    ) -> Share<R>
        ensures room { result.room ≡ room }
        ensures spending { result.spending ≡ new_spending liveness }
    {
        Share {
            rt,
            usual,
            room,
            bells,
            heard: Heard {
                last: None,
                before: None,
                count: 0,
            },
            spending: Spending::new(liveness),
        }
    }

    /// Whether a command of that client may go to the driver. What it adds counts from then on.
    ///
    /// # Errors
    /// Which bound that would pass, or that a command with that correlation id was there before.
    pub fn admit(
        &mut self,
        client: u64,
        correlation: u64,
        body: &Option<Body>,
    ) -> Result<(), Reason>
        ensures admits { AdmittedBy self.old.usual client correlation body.now self.old.heard self.new.heard result }
        ensures room { self.new.room ≡ self.old.room }
    {
        let Usual {
            term_length,
            linger,
        } = self.usual;
        let asked = asked_of(body, term_length, linger);
        self.enter(client, correlation, body, asked)?;
        self.heard.goes(correlation);
        Ok(())
    }

    /// The same with what the command asks for, under the lock.
    fn enter(
        &self,
        client: u64,
        correlation: u64,
        body: &Option<Body>,
        asked: Asked,
    ) -> Result<(), Reason>
        ensures { Enters client correlation body.now asked self.now.heard result }
    {
        let now = ticks(&self.rt);
        let is_new = self.heard.is_new(correlation);
        let flight = Flight {
            client,
            correlation,
            turn: self.heard.count,
            removes: removal_in(asked),
            until: waits_until(body, now),
        };
        let mut holdings = self.room.holdings.lock(&self.rt);
        admit_command(&mut holdings, now, flight, is_new, asked)
    }

    /// The command that was admitted last did not go.
    pub fn withdraw(&mut self, client: u64, correlation: u64)
        ensures heard { self.new.heard ≡ record self.old.heard { last = self.old.heard.before } }
        ensures room { self.new.room ≡ self.old.room }
    {
        self.heard.did_not_go();
        let turn = self.heard.count.saturating_sub(1);
        let mut holdings = self.room.holdings.lock(&self.rt);
        withdraw_command(&mut holdings, client, correlation, turn);
    }

    /// The command of that correlation id is answered.
    pub fn answered(&self, client: u64, correlation: u64, outcome: Outcome) {
        let now = ticks(&self.rt);
        let mut holdings = self.room.holdings.lock(&self.rt);
        holdings.answered(now, client, correlation, outcome);
    }

    /// The client is gone, and so is what it has.
    pub fn leave(&self, client: u64) {
        let now = ticks(&self.rt);
        let mut holdings = self.room.holdings.lock(&self.rt);
        holdings.leave(now, client);
    }

    /// The memory of the door's long records. `None` where there is no memory for that.
    pub fn memory(&self) -> Option<DoorMemory>
        ensures { IfSome result (λ memory. memory.room.value ≡ self.now.room.value) }
    {
        let room = Arc::try_clone(&self.room).ok()?;
        Some(DoorMemory::new(room))
    }

    /// Messages went into a log, or were read there: whoever waits for that may go on.
    pub fn stir(&self) {
        self.bells.ring(&self.rt);
    }

    /// Now, in nanoseconds from any beginning.
    pub fn now(&self) -> u64 {
        ticks(&self.rt)
    }
}

impl<R: Clock + CpuClock + Wait + Copy + Drop> Share<R> {
    /// A request is answered next: those go first who were kept from the processors by the clients of this door. That takes less
    /// than a second, and no more than an eighth of the time for which the driver lets the client be silent.
    pub fn give_way(&mut self)
        ensures room { self.new.room ≡ self.old.room }
        ensures heard { self.new.heard ≡ self.old.heard }
        ensures usual { self.new.usual ≡ self.old.usual }
        ensures liveness { self.new.spending.liveness ≡ self.old.spending.liveness }
    {
        let principal = self.room.principal;
        give_way(&self.rt, &self.bells, principal, &mut self.spending);
    }
}

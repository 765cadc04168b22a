//! What each turn of an agent passes before it does anything.

ghost use Rattle.media_agents.specs.Passing.{longest_pause, next_turn, pause_after, rest_before};
ghost use Rattle.std.specs.Prelude.{◌≡◌, ◌<◌, false};

use log_slots::rest;
use media_wire::Bell;
use std::sync::{Arc, Wait};
use std::thread;
use std::thread::Parker;
use std::time::{Clock, Duration};

/// One of the agents that run a driver.
#[derive(Clone, Copy, Debug, PartialEq, Eq)]
pub enum Agent {
    /// It takes events: commands, policies, SETUPs and ticks.
    Conductor,
    /// It sends, and sends again on NAKs.
    Sender,
    /// It takes the datagrams of images.
    Receiver,
}

/// A turn of an agent that is about to begin.
#[derive(Clone, Copy, Debug, PartialEq, Eq)]
pub struct Turn {
    /// How many turns of the agent there were before; the greatest `u64` stands for more.
    pub number: u64,
    /// How many of the last ones, one after another, had nothing to do, or no more than what goes on where no messages come; the
    /// greatest `u64` stands for more.
    pub idle: u64,
    /// Whether the agent had logs or addresses to look after in the last one.
    pub watches: bool,
}

impl Turn {
    /// The first turn of an agent.
    pub fn first() -> Turn
        ensures { result ≡ record { number = 0; idle = 0; watches = false } }
    {
        Turn {
            number: 0,
            idle: 0,
            watches: false,
        }
    }

    /// The turn after this one, in which there was something to do, or not, and something to look after, or not.
    pub fn next(&self, worked: bool, watches: bool) -> Turn
        ensures { result ≡ next_turn worked watches self.now }
    {
        Turn {
            number: self.number.saturating_add(1),
            idle: if worked {
                0
            } else {
                self.idle.saturating_add(1)
            },
            watches,
        }
    }

    /// Whether an agent sleeps before it.
    pub(crate) fn sleeps(&self) -> bool {
        self.idle > YIELDS
    }
}

/// What each turn of an agent passes before it does anything. It may hold the agent up: an agent is served by no other thread
/// meanwhile.
pub trait Gate {
    /// The agent may begin the turn once this returns. A datagram at one of these descriptors is a reason to let it pass.
    fn pass(&self, agent: Agent, turn: Turn, sockets: &[i32]);
}

/// How many idle turns an agent spins, before it yields.
const SPINS: u64 = 10;

/// How many idle turns an agent spins and yields, before it sleeps.
const YIELDS: u64 = 60;

/// After how many idle turns an agent that has something to look after sleeps longer than for a moment: some 130 milliseconds.
/// Until then what is due by time, such as a second NAK, is hardly late.
const MOMENTS: u64 = 200;

/// How long an agent sleeps the first time, in nanoseconds. Each further idle turn doubles it.
const SHORTEST: u64 = 1_000;

/// For how long an agent sleeps at most that has something to look after, at first, in nanoseconds.
const MOMENT: u64 = 1_000_000;

/// For how long the conductor sleeps at most: no tick is later than that.
const TICK: u64 = 10_000_000;

/// For how long the sender and the receiver sleep at most that have something to look after: no heartbeat, SETUP or report is
/// later than that. Each turn looks at all logs, so that many idle ones cost little only where turns are few.
const LONGEST: u64 = 50_000_000;

/// For how long the sender and the receiver sleep at most where nothing can be due.
const AT_REST: u64 = 100_000_000;

/// How many steps an agent that spins rests before a turn: a quarter of a microsecond.
const STEPS: u32 = 32;

/// How an agent rests before a turn.
#[derive(Clone, Copy, Debug, PartialEq, Eq)]
pub enum Rest {
    Nothing,
    Spin,
    Yield,
    /// It sleeps for so many nanoseconds.
    Sleep(u64),
}

/// For how long an agent sleeps at most before a turn, in nanoseconds.
fn longest_pause(agent: Agent, turn: Turn) -> u64
    ensures { result ≡ longest_pause agent turn }
{
    match agent {
        Agent::Conductor => TICK,
        Agent::Sender | Agent::Receiver => {
            if !turn.watches {
                AT_REST
            } else if turn.idle <= MOMENTS {
                MOMENT
            } else {
                LONGEST
            }
        }
    }
}

/// For how long an agent sleeps after so many idle turns, in nanoseconds.
fn pause_after(idle: u64, longest: u64) -> u64
    requires { 60 < idle }
    ensures { result ≡ pause_after idle longest }
{
    let doubled = (idle - YIELDS - 1).min(17);
    (SHORTEST << doubled).min(longest)
}

/// How an agent rests before a turn.
fn rest_before(agent: Agent, turn: Turn) -> Rest
    ensures { result ≡ rest_before agent turn }
{
    if turn.idle == 0 {
        Rest::Nothing
    } else if turn.idle <= SPINS {
        Rest::Spin
    } else if turn.idle <= YIELDS {
        Rest::Yield
    } else {
        Rest::Sleep(pause_after(turn.idle, longest_pause(agent, turn)))
    }
}

/// What wakes the agents of a driver that sleep. Each is rung by whoever changed what that one looks at.
#[derive(Drop)]
pub struct Bells {
    /// By whoever pushes an event.
    pub(crate) conductor: Parker,
    /// By the conductor after its entries, and by clients whose messages a log over datagrams took.
    pub(crate) sender: Bell,
    /// By the conductor after its entries, and by clients that took messages of an image.
    pub(crate) receiver: Bell,
}

impl Bells {
    /// Nobody sleeps.
    pub fn new() -> Bells {
        Bells {
            conductor: Parker::new(),
            sender: Bell::new(),
            receiver: Bell::new(),
        }
    }
}

/// The gate of a driver that runs: an agent that has something to do goes on at once. One that has nothing to do spins at
/// first, then yields to other threads, and then sleeps, twice as long each time: the conductor up to ten milliseconds, another
/// one that has logs or addresses to look after up to one for its first 200 idle turns, and then up to fifty; else up to a
/// hundred. What it waits for ends its sleep: a bell, and for the sender and the receiver a datagram. Only a sleep of less than
/// a millisecond of theirs lasts, and after 200 idle turns the first millisecond of a sleep after a datagram.
#[derive(Drop)]
pub struct Backoff<R> {
    /// By which agents sleep.
    rt: R,
    bells: Arc<Bells>,
}

impl<R> Backoff<R> {
    /// The gate of agents that sleep by `rt` and are woken by those bells.
    pub fn new(rt: R, bells: Arc<Bells>) -> Backoff<R> {
        Backoff { rt, bells }
    }
}

impl<R: Clock + Wait> Backoff<R> {
    fn sleep(&self, bell: &Bell, nanoseconds: u64, sockets: &[i32]) {
        if nanoseconds < MOMENT {
            thread::sleep(&self.rt, Duration::from_nanos(nanoseconds));
            return;
        }
        let mut left = (nanoseconds.min(AT_REST) / MOMENT) as i32;
        if left > 1 && bell.has_found() {
            // Heartbeats of many logs come soon after each other, and each turn looks at all logs. Who rings meanwhile ends the
            // wait after it.
            thread::sleep(&self.rt, Duration::from_nanos(MOMENT));
            left -= 1;
        }
        bell.wait(sockets, left);
    }
}

impl<R: Clock + Wait> Gate for Backoff<R> {
    fn pass(&self, agent: Agent, turn: Turn, sockets: &[i32]) {
        let bells = &*self.bells;
        match rest_before(agent, turn) {
            Rest::Nothing => {
                if agent == Agent::Conductor {
                    bells.sender.ring();
                    bells.receiver.ring();
                }
            }
            Rest::Spin => rest(STEPS),
            Rest::Yield => thread::yield_now(),
            Rest::Sleep(nanoseconds) => match agent {
                Agent::Conductor => bells
                    .conductor
                    .park_timeout(&self.rt, Duration::from_nanos(nanoseconds)),
                Agent::Sender => self.sleep(&bells.sender, nanoseconds, sockets),
                Agent::Receiver => self.sleep(&bells.receiver, nanoseconds, sockets),
            },
        }
    }
}

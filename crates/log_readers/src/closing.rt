ghost use Rattle.log_readers.specs.Readers.{all_readers, beside};
ghost use Rattle.client_registry.specs.declared.client.Client.{Client};
ghost use Rattle.policy_core.specs.RuleList.{Rules};
ghost use Rattle.std.specs.Prelude.{◌≡◌, ◌≤◌, ℕ, List, [], length, take};
ghost use Rattle.stream_registry.specs.Images.{stays_beside, without_images};
ghost use Rattle.stream_registry.specs.Lingering.{closed, stays_live};

use crate::readers::Readers;
use rows::{Rows, Test};
use stream_registry::{LogRow, Streams, is_closing, is_image_of};

/// Keeps the logs that don't close at this moment, where these images are silent.
#[derive(Clone, Copy)]
struct Live<'a> {
    now: u64,
    silent: &'a [u64],
}

impl Test<LogRow> for Live<'_> {
    ghost keeps = { λ test log. stays_live test.now test.silent.now log };

    fn keeps(&self, log: &LogRow) -> bool {
        !is_closing(log, self.now, self.silent)
    }
}

/// Keeps all logs but the images of these numbers.
#[derive(Clone, Copy)]
struct Beside<'a> {
    numbers: &'a [u64],
}

impl Test<LogRow> for Beside<'_> {
    ghost keeps = { λ test log. stays_beside test.numbers.now log };

    fn keeps(&self, log: &LogRow) -> bool {
        !is_image_of(log, self.numbers)
    }
}

/// Moves the rows of the logs that pass the test to the front, and says how many they are.
fn settle<S: Test<LogRow>>(slots: &mut [Rows<u64, 512>], logs: &[LogRow], test: &S) -> usize
    requires { length slots.old ≡ length logs.now }
    ensures slots { length slots.new ≡ length slots.old }
    ensures few { result ≤ length logs.now }
    ensures kept { take result slots.new ≡ beside (S.keeps test.now) logs.now slots.old }
{
    let mut kept = 0;
    for at in 0..logs.len() {
        if test.keeps(&logs[at]) {
            slots.swap(kept, at);
            kept += 1;
        }
    }
    kept
}

/// Moves the rows of the logs that pass the test to the front; there may be further slots.
fn settle_used<S: Test<LogRow>>(slots: &mut Vec<Rows<u64, 512>>, logs: &[LogRow], test: &S) -> usize
    requires { length logs.now ≤ length slots.old.items }
    ensures slots { length slots.new.items ≡ length slots.old.items }
    ensures few { result ≤ length logs.now }
    ensures kept { take result slots.new.items ≡ beside (S.keeps test.now) logs.now (take (length logs.now) slots.old.items) }
{
    let (used, _) = slots.as_mut_slice().split_at_mut(logs.len());
    settle(used, logs, test)
}

impl Readers {
    /// The rows go of the logs that fail the test.
    fn stay<S: Test<LogRow>>(&mut self, logs: &[LogRow], test: &S)
        requires { length self.old ≡ length logs.now }
        ensures { self.new ≡ beside (S.keeps test.now) logs.now self.old }
    {
        self.used = settle_used(&mut self.slots, logs, test);
    }

    /// The logs go that close at `now`, where these images are silent: [`Streams::close`] follows.
    pub fn close(&mut self, streams: &Streams, now: u64, silent: &[u64])
        requires { length self.old ≡ length streams.now.sources }
        ensures exact { self.new ≡ beside (stays_live now silent.now) streams.now.sources self.old }
        ensures kept { (clients : List Client) (policy : Rules) (epoch : ℕ) → self.old ≡ all_readers streams.now clients policy epoch → self.new ≡ all_readers (closed streams.now now silent.now) clients policy epoch }
    {
        self.stay(streams.sources(), &Live { now, silent });
    }

    /// The images of these numbers go: [`Streams::remove_images`] follows.
    pub fn remove_images(&mut self, streams: &Streams, numbers: &[u64])
        requires { length self.old ≡ length streams.now.sources }
        ensures exact { self.new ≡ beside (stays_beside numbers.now) streams.now.sources self.old }
        ensures kept { (clients : List Client) (policy : Rules) (epoch : ℕ) → self.old ≡ all_readers streams.now clients policy epoch → self.new ≡ all_readers (without_images streams.now numbers.now) clients policy epoch }
    {
        self.stay(streams.sources(), &Beside { numbers });
    }

    /// All logs go: [`Streams::close_all`] comes before or follows.
    pub fn close_all(&mut self)
        ensures { self.new ≡ [] }
    {
        self.used = 0;
    }
}

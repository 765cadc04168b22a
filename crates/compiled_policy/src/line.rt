ghost use Rattle.compiled_policy.specs.Line.{AreStarts, Ascend, IsPlace, Starts, on_line};
ghost use Rattle.std.specs.Prelude.{◌≡◌, ◌+◌, ◌<◌, ◌≤◌, ℕ, length, vec_capacity, vec_len};

use policy_core::Rule;

/// How many intervals there are at most: before the ranges of 1,024 rules, in them and after them.
pub(crate) const INTERVALS: usize = 2049;

/// Where a stream stands on the line of streams, from the lowest of 32 bits on.
pub(crate) fn on_line(stream: i32) -> u64
    ensures value { result ≡ on_line stream }
    ensures small { result < 4294967296 }
{
    if stream < 0 {
        2_147_483_648 - u64::from(stream.unsigned_abs())
    } else {
        2_147_483_648 + u64::from(stream.unsigned_abs())
    }
}

/// Where the rule's range starts on the line.
pub(crate) fn start_of(rule: &Rule) -> u64
    ensures { result ≡ on_line rule.now.low }
{
    on_line(rule.low)
}

/// Where the streams after the rule's range start on the line.
pub(crate) fn end_of(rule: &Rule) -> u64
    ensures { result ≡ on_line rule.now.high + 1 }
{
    on_line(rule.high) + 1
}

/// How many of the starts are below this point of the line.
pub(crate) fn place_of(starts: &[u64], at: u64) -> usize
    requires { Ascend starts.now }
    ensures { IsPlace starts.now at result }
{
    match starts.binary_search(&at) {
        Ok(place) => place,
        Err(place) => place,
    }
}

/// Starts an interval at this point of the line, unless one starts there.
fn cut(starts: &mut Vec<u64>, at: u64)
    requires room { vec_len starts.old < vec_capacity starts.old }
    requires ascend { Ascend starts.old.items }
    ensures ascend { Ascend starts.new.items }
    ensures few { length starts.new.items ≤ length starts.old.items + 1 }
    ensures here { Starts starts.new.items at }
    ensures kept { (other : ℕ) → Starts starts.old.items other → Starts starts.new.items other }
    ensures room { vec_capacity starts.old ≤ vec_capacity starts.new }
{
    match starts.as_slice().binary_search(&at) {
        Ok(_) => {}
        Err(place) => match starts.insert(place, at) {
            Ok(()) => {}
            Err(_) => unreachable!(),
        },
    }
}

/// Starts an interval where the range of each rule starts, and after it. It takes no memory.
pub(crate) fn cut_by(starts: &mut Vec<u64>, rules: &[Rule])
    requires few { length rules.now ≤ 1024 }
    requires room { 2049 ≤ vec_capacity starts.old }
    ensures starts { AreStarts rules.now (length rules.now) starts.new.items }
    ensures room { 2049 ≤ vec_capacity starts.new }
{
    starts.clear();
    cut(starts, 0);
    for place in 0..rules.len() {
        let rule = &rules[place];
        cut(starts, start_of(rule));
        cut(starts, end_of(rule));
    }
}

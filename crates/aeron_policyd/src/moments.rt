//! When a policy is asked, and how soon a rule has to end to be warned of, by the words of the command line.

ghost use Rattle.moment_words.specs.Moment.{moment_or};
ghost use Rattle.moment_words.specs.Period.{period_of};
ghost use Rattle.std.specs.Prelude.{◌≡◌, IfErr, IfOk, List, None, Ok, Some, false, is_ok, option_copied, ℕ};

use crate::fault::Fault;
use command_line::{Asked, Asking};
use moment_words::{MomentFault, moment_or, period_of};
use std::fmt;
use std::time::Clock;

/// The last moment, in nanoseconds since 1970.
const LAST: u128 = 9_223_372_036_854_775_807;

/// A word of the command line that is at fault.
#[derive(Clone, Copy, Debug)]
pub(crate) enum BadWord<'a> {
    /// That of `--at`, and why.
    At(&'a str, MomentFault),
    /// That of `--soon`.
    Soon(&'a str),
}

impl fmt::Display for BadWord<'_> {
    fn fmt<W: fmt::Write>(&self, f: &mut fmt::Formatter<W>) -> fmt::Result {
        match self {
            BadWord::At(word, fault) => {
                write!(f, "invalid value '{word}' for '--at <MOMENT>': {fault}")
            }
            BadWord::Soon(word) => write!(
                f,
                "invalid value '{word}' for '--soon <PERIOD>': not a number and d, h, m or s, as 7d, below 2^63 nanoseconds"
            ),
        }
    }
}

/// The machine's moment, in nanoseconds since 1970.
pub(crate) fn now<C: Clock>(clock: &C) -> Result<u64, Fault> {
    match clock.since_1970() {
        Ok(since) => Ok(since.as_nanos().min(LAST) as u64),
        Err(_) => Err(Fault::NoClock),
    }
}

/// The moment at which a policy is asked where none is named: 0, but now where it is looked at for what is likely not meant.
pub(crate) fn usual_moment<C: Clock>(clock: &C, asking: &Asking<'_>) -> Result<u64, Fault> {
    match (asking.at, &asking.asked) {
        (None, Asked::Lint { .. }) => now(clock),
        _ => Ok(0),
    }
}

/// The moment that the word of `--at` names, or the usual one where there is no such word.
pub(crate) fn at_of<'a>(at: Option<&'a str>, usual: u64) -> Result<u64, BadWord<'a>>
    ensures found { IfOk result (λ moment. moment_or (option_copied at.entry) usual ≡ Ok moment) }
    ensures refused { IfErr result (λ word. is_ok (moment_or (option_copied at.entry) usual) ≡ false) }
{
    match moment_or(at, usual) {
        Ok(moment) => Ok(moment),
        Err(fault) => Err(BadWord::At(at.unwrap_or(""), fault)),
    }
}

/// The period that the word of `--soon` says, where there is such a word.
pub(crate) fn soon_of<'a>(soon: Option<&'a str>) -> Result<Option<u64>, BadWord<'a>>
    ensures none { option_copied soon.entry ≡ None → IfOk result (λ period. period ≡ None) }
    ensures found { (word : List ℕ) → option_copied soon.entry ≡ Some word → IfOk result (λ period. period ≡ period_of word) }
    ensures refused { IfErr result (λ bad. (word : List ℕ) → option_copied soon.entry ≡ Some word → period_of word ≡ None) }
{
    let Some(word) = soon else {
        return Ok(None);
    };
    match period_of(word) {
        Some(period) => Ok(Some(period)),
        None => Err(BadWord::Soon(word)),
    }
}

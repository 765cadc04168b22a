//! The parts of a rule, in words.

ghost use Rattle.policy_tools.specs.Showing.{AreMoments, IsBetween, IsFrom, IsUntil};
ghost use Rattle.std.specs.Prelude.{IfOk};

use crate::directory::Directory;
use byte_strings::Text;
use moment_words::date_text;
use plain_words::plain;
use policy_core::{Act, Acts, Principals};
use std::alloc::{AllocError, Global};

/// The name of whom a rule speaks of, or `*` for everybody; a number that has no name is written after a `#`.
pub fn principals_text(
    alloc: Global,
    principals: Principals,
    directory: &Directory,
) -> Result<Text, AllocError> {
    let Principals::One(number) = principals else {
        return Text::new(alloc, "*");
    };
    match directory.name_of(number) {
        Some(name) => plain(alloc, name),
        None => Ok(Text::from(format!(in alloc; "#{number}")?)),
    }
}

/// Whether all acts are among these.
fn are_every(acts: Acts) -> bool {
    Act::EVERY.iter().all(|act| acts.hold(*act))
}

/// The names of acts, with commas between them; `*` for all of them.
pub fn acts_text(alloc: Global, acts: Acts) -> Result<Text, AllocError> {
    if are_every(acts) {
        return Text::new(alloc, "*");
    }
    let mut text = String::new(alloc);
    for act in Act::EVERY {
        if acts.hold(act) {
            if !text.is_empty() {
                text.push_str(",")?;
            }
            text.push_str(act.name())?;
        }
    }
    Ok(Text::from(text))
}

/// An interval of streams, as `10..20`; an end that is the least or the greatest stream is left out, and `*` stands for
/// all streams.
pub fn streams_text(alloc: Global, low: i32, high: i32) -> Result<Text, AllocError> {
    let text = if low == i32::MIN && high == i32::MAX {
        format!(in alloc; "*")?
    } else if low == high {
        format!(in alloc; "{low}")?
    } else if low == i32::MIN {
        format!(in alloc; "..{high}")?
    } else if high == i32::MAX {
        format!(in alloc; "{low}..")?
    } else {
        format!(in alloc; "{low}..{high}")?
    };
    Ok(Text::from(text))
}

/// The words for a first moment.
fn from_text(alloc: Global, from: u64) -> Result<Text, AllocError>
    ensures { IfOk result (λ text. IsFrom from text) }
{
    let date = date_text(alloc, from)?;
    Ok(Text::from(format!(in alloc; "from {date}")?))
}

/// The words for an end.
fn until_text(alloc: Global, until: u64) -> Result<Text, AllocError>
    ensures { IfOk result (λ text. IsUntil until text) }
{
    let date = date_text(alloc, until)?;
    Ok(Text::from(format!(in alloc; "until {date}")?))
}

/// The words for both.
fn between_text(alloc: Global, from: u64, until: u64) -> Result<Text, AllocError>
    ensures { IfOk result (λ text. IsBetween from until text) }
{
    let first = from_text(alloc, from)?;
    let last = until_text(alloc, until)?;
    Ok(Text::from(format!(in alloc; "{first} {last}")?))
}

/// When a rule stands, by its dates in UTC: `from 2026-12-01T08:00:00Z until 2026-12-01T18:00:00Z`, or one of the two;
/// `always` where it has no bound.
pub fn moments_text(
    alloc: Global,
    from: Option<u64>,
    until: Option<u64>,
) -> Result<Text, AllocError>
    ensures { IfOk result (λ text. AreMoments from until text) }
{
    match from {
        Some(from) => match until {
            Some(until) => between_text(alloc, from, until),
            None => from_text(alloc, from),
        },
        None => match until {
            Some(until) => until_text(alloc, until),
            None => Text::new(alloc, "always"),
        },
    }
}

/// The word of a rule.
pub fn word_of(allow: bool) -> &'static str {
    if allow { "allow" } else { "deny" }
}

//! An explanation, as lines of text.

ghost use Rattle.std.specs.Prelude.{◌<◌, length};

use crate::explaining::{ChannelMiss, Explanation, Miss, channel_miss};
use crate::written_policy::WrittenPolicy;
use byte_strings::Text;
use channel_uri::Channel;
use plain_words::plain;
use policy_core::{Act, Rule};
use std::alloc::{AllocError, Global};

/// Why a rule does not match.
#[derive(Debug, Drop)]
pub struct Reason {
    /// The place of the rule, counted from 0.
    pub at: usize,
    /// The part of it that does not match, in words.
    pub part: Text,
}

/// What of a channel the pattern of a rule doesn't cover.
fn channel_part(alloc: Global, miss: Option<ChannelMiss<'_>>) -> Result<Text, AllocError> {
    match miss {
        Some(ChannelMiss::Medium) => Text::new(alloc, "medium"),
        Some(ChannelMiss::Key(key)) => {
            let key = plain(alloc, key)?;
            Ok(Text::from(format!(in alloc; "key {key}")?))
        }
        None => Text::new(alloc, "channel"),
    }
}

/// Whether the rule stands at the moment to which its policy is settled: it speaks of some act then.
fn stands(rule: &Rule) -> bool {
    for act in &Act::EVERY {
        if rule.acts.hold(*act) {
            return true;
        }
    }
    false
}

/// The part of a rule that does not match.
fn part_of(
    alloc: Global,
    at: usize,
    source: &WrittenPolicy,
    miss: Miss,
    channel: &Channel,
) -> Result<Text, AllocError>
    requires { at < length source.now.policy.rules }
{
    let rule = &source.rules()[at];
    match miss {
        Miss::Principal => Text::new(alloc, "principal"),
        Miss::Act => Text::new(alloc, if stands(rule) { "act" } else { "moment" }),
        Miss::Channel => channel_part(alloc, channel_miss(source.text(at), &rule.channel, channel)),
        Miss::Stream => Text::new(alloc, "stream"),
    }
}

/// Why the rules at these places do not match, of those before the one that decides; why all of these do not, where no places are
/// given.
pub fn reasons_of(
    alloc: Global,
    source: &WrittenPolicy,
    channel: &Channel,
    found: &Explanation,
    places: Option<&[usize]>,
) -> Result<Vec<Reason>, AllocError> {
    let mut reasons = Vec::new(alloc);
    let count = match places {
        Some(places) => places.len(),
        None => found.misses.len(),
    };
    for index in 0..count {
        let at = match places {
            Some(places) => places.get(index).copied().unwrap_or(0),
            None => index,
        };
        if at < source.rules().len()
            && let Some(miss) = found.misses.get(at)
        {
            let part = part_of(alloc, at, source, *miss, channel)?;
            reasons.push(Reason { at, part })?;
        }
    }
    Ok(reasons)
}

/// The line that names the rule that decides.
fn push_decider(text: &mut String, rules: &[Rule], rule: Option<u32>) -> Result<(), AllocError> {
    let Some(number) = rule else {
        return text.push_str("no rule matches\n");
    };
    let at = number.saturating_sub(1) as usize;
    if at >= rules.len() {
        return text.push_str("no rule matches\n");
    }
    let name = rules[at].name.as_str();
    writeln!(text, "rule {number}, {name}: decides")
}

/// The name of the rule at a place.
pub fn name_at(rules: &[Rule], at: usize) -> &str {
    match rules.get(at) {
        Some(rule) => rule.name.as_str(),
        None => "",
    }
}

/// An explanation as a text: the verdict, the rule that decides, and why others do not match.
pub fn explained(
    alloc: Global,
    source: &WrittenPolicy,
    found: &Explanation,
    reasons: &[Reason],
) -> Result<String, AllocError> {
    let rules = source.rules();
    let verdict = found.verdict;
    let mut text = format!(in alloc; "{verdict}\n")?;
    push_decider(&mut text, rules, verdict.rule)?;
    for reason in reasons {
        let number = reason.at.saturating_add(1);
        let name = name_at(rules, reason.at);
        let part = &reason.part;
        writeln!(text, "rule {number}, {name}: the {part} does not match")?;
    }
    Ok(text)
}

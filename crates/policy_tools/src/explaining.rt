ghost use Rattle.channel_uri.specs.Pattern.{covers, is_fit, pattern_of};
ghost use Rattle.channel_uri.specs.Pieces.{pieces_in};
ghost use Rattle.policy_core.specs.Question.{Question, question_of};
ghost use Rattle.policy_core.specs.Rule.{matches, speaks_of};
ghost use Rattle.policy_core.specs.declared.rule.Rule.{Rule};
ghost use Rattle.policy_tools.specs.Explaining.{AreMisses, Explains, IsFirstMiss, IsUnfit, key_fits};
ghost use Rattle.policy_tools.specs.Wider.{all_keys};
ghost use Rattle.std.specs.Prelude.{◌≡◌, IfNone, IfOk, IfSome, Ok, false, option_copied, true};

use crate::wider::{begins_with, first_piece, front_of, key_of, pairs_in};
use channel_uri::{Channel, Keys, Pattern};
use policy_core::{Policy, Principals, Request, Rule, Verdict};
use std::alloc::{AllocError, Global};

/// The first field of a rule that doesn't match a request, in the order in which they are looked at here.
#[derive(Clone, Copy, Debug, PartialEq, Eq)]
pub enum Miss {
    /// The rule speaks of another principal.
    Principal,
    /// The rule speaks of other acts.
    Act,
    /// The rule's pattern doesn't cover the channel.
    Channel,
    /// The rule's range doesn't hold the stream.
    Stream,
}

/// A part of a pattern that a channel doesn't fit.
#[derive(Clone, Copy, Debug, PartialEq, Eq)]
pub enum ChannelMiss<'a> {
    /// The channel is of another medium.
    Medium,
    /// The channel has no value that fits at this key of the pattern.
    Key(&'a str),
}

/// Why a policy decides as it does.
#[derive(Debug, Drop)]
pub struct Explanation {
    /// What it decides, as policy 1.
    pub verdict: Verdict,
    /// For each rule before the one that decides, the first field that doesn't match; for all rules, where none decides.
    pub misses: Vec<Miss>,
}

/// Whether the principal is among those spoken of.
pub(crate) fn speaks_of(principals: Principals, principal: u32) -> bool
    ensures { result ≡ speaks_of principals principal }
{
    match principals {
        Principals::Any => true,
        Principals::One(one) => one == principal,
    }
}

/// The first field of the rule that doesn't match; `None` where the rule matches.
#[tactic(auto, unfolding(policy_core::specs::Rule::matches))]
pub fn miss_of(rule: &Rule, request: &Request<'_>) -> Option<Miss>
    ensures first { IfSome result (λ miss. IsFirstMiss rule.now (question_of request.now) miss) }
    ensures none { IfNone result (matches rule.now (question_of request.now) ≡ true) }
{
    if !speaks_of(rule.principals, request.principal) {
        return Some(Miss::Principal);
    }
    if !rule.acts.hold(request.act) {
        return Some(Miss::Act);
    }
    if !rule.channel.covers(request.channel) {
        return Some(Miss::Channel);
    }
    if request.stream < rule.low {
        return Some(Miss::Stream);
    }
    if rule.high < request.stream {
        return Some(Miss::Stream);
    }
    None
}

/// The misses of the rules before the first one that matches.
fn misses_of(alloc: Global, rules: &[Rule], request: &Request<'_>) -> Result<Vec<Miss>, AllocError>
    ensures { IfOk result (λ misses. AreMisses rules.now (question_of request.now) misses.items) }
{
    let mut misses = Vec::new(alloc);
    for at in 0..rules.len() {
        match miss_of(&rules[at], request) {
            Some(miss) => misses.push(miss)?,
            None => return Ok(misses),
        }
    }
    Ok(misses)
}

/// What a policy decides of a request, as policy 1, and why: for each rule before the one that decides, the first field
/// that doesn't match.
pub fn explain(
    alloc: Global,
    policy: &Policy,
    request: &Request<'_>,
) -> Result<Explanation, AllocError>
    ensures { IfOk result (λ found. Explains policy.now (question_of request.now) found.verdict found.misses.items) }
{
    let misses = misses_of(alloc, policy.rules(), request)?;
    Ok(Explanation {
        verdict: policy.settled_verdict(1, request),
        misses,
    })
}

/// Whether a value of a channel, where there is one, fits what a pattern wants.
fn is_fit(wanted: &str, value: Option<&str>) -> bool
    ensures { result ≡ is_fit wanted.now (option_copied value.entry) }
{
    let Some(value) = value else {
        return false;
    };
    if wanted == value {
        return true;
    }
    match front_of(wanted) {
        Some(front) => begins_with(value, front),
        None => false,
    }
}

/// Whether the channel has a value that fits at this key, or the pattern has no such key.
fn key_fits(wanted: &Keys, channel: &Channel, key: &str) -> bool
    ensures { result ≡ key_fits wanted.now channel.now.keys key.now }
{
    match wanted.get(key) {
        Some(value) => is_fit(value, channel.get(key)),
        None => true,
    }
}

/// The first key of the text of a pattern's pairs that the channel doesn't fit.
fn unfit_key<'a>(pairs: Option<&'a str>, wanted: &Keys, channel: &Channel) -> Option<&'a str>
    ensures some { IfSome result (λ key. key_fits wanted.now channel.now.keys key.now ≡ false) }
    ensures none { IfNone result (all_keys (key_fits wanted.now channel.now.keys) (pieces_in (option_copied pairs.entry)) ≡ true) }
{
    let mut rest = pairs;
    while let Some(text) = rest {
        let (piece, after) = first_piece(text);
        let key = key_of(piece);
        if !key_fits(wanted, channel, key) {
            return Some(key);
        }
        rest = after;
    }
    None
}

/// The part of a pattern, whose text is handed in, that the channel doesn't fit: the medium, or the first key of the text;
/// `None` where the pattern covers the channel.
#[tactic(auto, unfolding(channel_uri::specs::Pattern::covers))]
pub fn channel_miss<'a>(
    text: &'a str,
    pattern: &Pattern,
    channel: &Channel,
) -> Option<ChannelMiss<'a>>
    requires { pattern_of text.now ≡ Ok pattern.now }
    ensures some { IfSome result (λ miss. IsUnfit pattern.now channel.now miss) }
    ensures none { IfNone result (covers pattern.now channel.now ≡ true) }
{
    let Pattern::Of(media, keys) = pattern else {
        return None;
    };
    if *media != channel.media() {
        return Some(ChannelMiss::Medium);
    }
    match unfit_key(pairs_in(text), keys, channel) {
        Some(key) => Some(ChannelMiss::Key(key)),
        None => None,
    }
}

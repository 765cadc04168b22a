//! How many rules a policy has, what it decides of a question, and why.

ghost use Rattle.policy_answers.specs.Answers.{check_answer, decide_answer, explain_well};
ghost use Rattle.policy_answers.specs.Asked.{channel_of};
ghost use Rattle.policy_answers.specs.Fault.{Gives};
ghost use Rattle.std.specs.Prelude.{◌≡◌, true};

use crate::answer::Answer;
use crate::fault::AskFault;
use channel_uri::Channel;
use policy_core::{Act, Request, Rule};
use policy_query::{DecideFault, Document};
use policy_tools::{Directory, Explanation, Reason, WrittenPolicy, explained, nearest, reasons_of};
use std::alloc::{AllocError, Global};

/// How many rules the policy has: `ok: 2 rules`.
///
/// # Errors
/// The first fault of the policy.
pub fn check(
    alloc: Global,
    policy: &Document<'_>,
    directory: &Directory,
) -> Result<Answer, AskFault>
    ensures { Gives (λ answer. answer) result (check_answer directory.now policy.now) }
{
    let checked = policy_query::check(alloc, policy, directory.names())?;
    Ok(Answer::of(format!(in alloc; "{checked}\n")?))
}

/// What the policy, as policy 1, decides of a question, by names of a principal and an act, a channel's text and a stream:
/// the verdict's text.
///
/// # Errors
/// The first fault of the policy and the question.
pub fn decide(
    alloc: Global,
    policy: &Document<'_>,
    directory: &Directory,
    principal: &str,
    act: &str,
    channel: &str,
    stream: i32,
    moment: u64,
) -> Result<Answer, AskFault>
    ensures { Gives (λ answer. answer) result (decide_answer directory.now policy.now principal.now act.now channel.now stream moment) }
{
    let names = directory.names();
    let verdict = policy_query::decide(
        alloc, policy, names, principal, act, channel, stream, moment,
    )?;
    Ok(Answer::of(format!(in alloc; "{verdict}\n")?))
}

/// The channel that a word is.
#[tactic(auto, unfolding(crate::specs::Asked::channel_of))]
fn channel_of(word: &str) -> Result<Channel, AskFault>
    ensures { Gives (λ channel. channel) result (channel_of word.now) }
{
    if word == "aeron:counter" {
        return Ok(Channel::counter());
    }
    match Channel::parse(word) {
        Ok(channel) => Ok(channel),
        Err(error) => Err(AskFault::Channel(error)),
    }
}

/// What was found of a question, with the policy that was asked.
#[derive(Drop)]
pub(crate) struct Explained {
    pub(crate) source: WrittenPolicy,
    pub(crate) found: Explanation,
    pub(crate) reasons: Vec<Reason>,
}

/// So many of the first rules.
fn before(rules: &[Rule], count: usize) -> &[Rule] {
    rules.get(..count).unwrap_or(rules)
}

/// What a policy that was read decides of a request, and why: of the rules before the one that decides, or of so many of them
/// that come nearest to a match.
fn explained_by(
    alloc: Global,
    source: WrittenPolicy,
    request: &Request<'_>,
    near: Option<u64>,
) -> Result<Explained, AllocError> {
    let found = policy_tools::explain(alloc, source.policy(), request)?;
    let channel = request.channel;
    let reasons = match near {
        Some(most) => {
            let rules = before(source.rules(), found.misses.len());
            let places = nearest(alloc, rules, request, most as usize)?;
            reasons_of(alloc, &source, channel, &found, Some(places.as_slice()))?
        }
        None => reasons_of(alloc, &source, channel, &found, None)?,
    };
    Ok(Explained {
        source,
        found,
        reasons,
    })
}

/// What the policy, as policy 1, decides of a question, and why.
pub(crate) fn explanation(
    alloc: Global,
    policy: &Document<'_>,
    directory: &Directory,
    principal: &str,
    act: &str,
    channel: &str,
    stream: i32,
    moment: u64,
    near: Option<u64>,
) -> Result<Explained, AskFault>
    ensures { Gives (λ explained. true) result (explain_well directory.now policy.now principal.now act.now channel.now) }
{
    let mut source = WrittenPolicy::read(alloc, policy, directory.names())?;
    source.settle(moment);
    let principal = directory
        .number_of(principal)
        .ok_or(AskFault::Decide(DecideFault::UnknownPrincipal))?;
    let act = Act::from_name(act).ok_or(AskFault::Decide(DecideFault::UnknownAct))?;
    let channel = channel_of(channel)?;
    let request = Request {
        principal,
        act,
        channel: &channel,
        stream,
    };
    Ok(explained_by(alloc, source, &request, near)?)
}

/// What the policy, as policy 1, decides of a question, and why. Of the rules before the one that decides all are named or, where a
/// number is given, so many at most, of those that come nearest to a match.
///
/// # Errors
/// The first fault of the policy and the question; a channel's with its cause.
pub fn explain(
    alloc: Global,
    policy: &Document<'_>,
    directory: &Directory,
    principal: &str,
    act: &str,
    channel: &str,
    stream: i32,
    moment: u64,
    near: Option<u64>,
) -> Result<Answer, AskFault>
    ensures { Gives (λ answer. answer.is_well) result (explain_well directory.now policy.now principal.now act.now channel.now) }
{
    let found = explanation(
        alloc, policy, directory, principal, act, channel, stream, moment, near,
    )?;
    let text = explained(alloc, &found.source, &found.found, found.reasons.as_slice())?;
    Ok(Answer::of(text))
}

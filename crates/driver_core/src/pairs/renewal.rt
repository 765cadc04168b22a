ghost use Rattle.driver_core.specs.Renewal.{available_for, decided_on, images_decided, images_told, outcome_gone, outcome_kept, position_at, unavailable_for, under};
ghost use Rattle.std.specs.List.{flat_map};
ghost use Rattle.std.specs.Prelude.{◌≡◌, ◌++◌, [], IfOk, OnOk};

use crate::state::event::{End, Inputs};
use crate::state::outcome::Outcome;
use crate::state::registry::Registry;
use crate::state::replies::{Message, Reply};
use crate::state::report::Report;
use crate::state::source_identity::SourceIdentity;
use byte_strings::Items;
use log_readers::Turnover;
use policy_core::{Act, Decision, Request, Standing};
use std::alloc::{AllocError, Global};
use stream_registry::Pair;

/// How far the log of that source reaches; one that is not reported begins.
pub(crate) fn position_at(ends: &[End], begin: u64, source: u64) -> u64
    ensures { result ≡ position_at ends.now begin source }
{
    for end in ends {
        if end.source == source {
            return end.position;
        }
    }
    begin
}

/// Reports to the client of the subscription, if that is there, that the image is gone.
#[tactic(auto, unfolding(crate::specs::Renewal::unavailable_for))]
pub(crate) fn tell_unavailable(
    messages: &mut Items<Message>,
    registry: &Registry,
    pair: Pair,
) -> Result<(), AllocError>
    ensures { OnOk result (messages.new ≡ messages.old ++ unavailable_for registry.now pair) }
{
    let Some(subscription) = registry.subscription(pair.subscription) else {
        return Ok(());
    };
    let reply = Reply::UnavailableImage {
        source: pair.source,
        subscription: pair.subscription,
        stream: subscription.stream,
    };
    messages.push(Message {
        client: subscription.client,
        reply,
    })
}

/// Reports to the client of the subscription an image that is there now, and from which position on it reads.
#[tactic(auto, unfolding(crate::specs::Renewal::available_for))]
fn tell_available(
    messages: &mut Items<Message>,
    after: &Registry,
    ends: &[End],
    pair: Pair,
) -> Result<(), AllocError>
    ensures { OnOk result (messages.new ≡ messages.old ++ available_for after.now ends.now pair) }
{
    let Some(log) = after.source(pair.source) else {
        return Ok(());
    };
    let Some(subscription) = after.subscription(pair.subscription) else {
        return Ok(());
    };
    let reply = Reply::AvailableImage {
        source: pair.source,
        subscription: pair.subscription,
        session: log.session,
        stream: log.stream,
        position: position_at(ends, log.begins_at(), pair.source),
        identity: SourceIdentity::of(log),
    };
    messages.push(Message {
        client: subscription.client,
        reply,
    })
}

fn tell_all_unavailable(
    messages: &mut Items<Message>,
    after: &Registry,
    gone: &[Pair],
) -> Result<(), AllocError>
    ensures { OnOk result (messages.new ≡ messages.old ++ flat_map (unavailable_for after.now) gone.now) }
{
    for pair in gone {
        tell_unavailable(messages, after, *pair)?;
    }
    Ok(())
}

fn tell_all_available(
    messages: &mut Items<Message>,
    after: &Registry,
    ends: &[End],
    come: &[Pair],
) -> Result<(), AllocError>
    ensures { OnOk result (messages.new ≡ messages.old ++ flat_map (available_for after.now ends.now) come.now) }
{
    for pair in come {
        tell_available(messages, after, ends, *pair)?;
    }
    Ok(())
}

/// Reports the images that went, and then those that came.
#[tactic(auto, unfolding(crate::specs::Renewal::images_told))]
fn tell_images(
    messages: &mut Items<Message>,
    after: &Registry,
    inputs: &Inputs,
    gone: &[Pair],
    come: &[Pair],
) -> Result<(), AllocError>
    ensures { OnOk result (messages.new ≡ messages.old ++ images_told after.now inputs.now gone.now come.now) }
{
    tell_all_unavailable(messages, after, gone)?;
    tell_all_available(messages, after, inputs.ends.as_slice(), come)
}

/// What a policy that goes by the number `epoch` decides on a pair whose log and subscription are there.
#[tactic(auto, unfolding(crate::specs::Renewal::decided_on))]
fn decide_on(
    decisions: &mut Items<Decision>,
    lists: &Registry,
    policy: &Standing<'_>,
    epoch: u64,
    pair: Pair,
) -> Result<(), AllocError>
    ensures { OnOk result (decisions.new ≡ decisions.old ++ decided_on (under lists.now policy.now epoch) pair) }
{
    if lists.source(pair.source).is_none() {
        return Ok(());
    }
    let Some(subscription) = lists.subscription(pair.subscription) else {
        return Ok(());
    };
    let Some(principal) = lists.clients.principal_of(subscription.client) else {
        return Ok(());
    };
    let request = Request {
        principal,
        act: Act::Image,
        channel: &subscription.channel,
        stream: subscription.stream,
    };
    decisions.push(Decision {
        principal,
        act: Act::Image,
        subject: subscription.number,
        stream: subscription.stream,
        verdict: policy.verdict(epoch, &request),
    })
}

fn decide_on_all(
    decisions: &mut Items<Decision>,
    lists: &Registry,
    policy: &Standing<'_>,
    epoch: u64,
    pairs: &[Pair],
) -> Result<(), AllocError>
    ensures { OnOk result (decisions.new ≡ decisions.old ++ flat_map (decided_on (under lists.now policy.now epoch)) pairs.now) }
{
    for pair in pairs {
        decide_on(decisions, lists, policy, epoch, *pair)?;
    }
    Ok(())
}

/// What the policy decides on the images that went, and then on those that came.
#[tactic(auto, unfolding(crate::specs::Renewal::images_decided))]
fn decide_images(
    decisions: &mut Items<Decision>,
    lists: &Registry,
    policy: &Standing<'_>,
    epoch: u64,
    turnover: &Turnover,
) -> Result<(), AllocError>
    ensures { OnOk result (decisions.new ≡ decisions.old ++ images_decided (under lists.now policy.now epoch) turnover.now.gone turnover.now.come) }
{
    decide_on_all(decisions, lists, policy, epoch, turnover.gone.as_slice())?;
    decide_on_all(decisions, lists, policy, epoch, turnover.come.as_slice())
}

/// Puts messages after the others.
fn append(messages: &mut Items<Message>, more: &[Message]) -> Result<(), AllocError>
    ensures { OnOk result (messages.new ≡ messages.old ++ more.now) }
{
    for message in more {
        messages.push(*message)?;
    }
    Ok(())
}

/// Reports the images that went and came, puts the later replies after that, and says what is decided on these images by
/// the policy that is in force then, under the number `epoch`.
pub(crate) fn tell_turnover(
    told: &mut Report,
    lists: &Registry,
    policy: &Standing<'_>,
    epoch: u64,
    inputs: &Inputs,
    turnover: &Turnover,
) -> Result<(), AllocError>
    ensures { OnOk result (told.new ≡ record told.old { replies = told.old.replies ++ (images_told lists.now inputs.now turnover.now.gone turnover.now.come ++ told.old.later); decisions = told.old.decisions ++ images_decided (under lists.now policy.now epoch) turnover.now.gone turnover.now.come }) }
{
    let (gone, come) = (turnover.gone.as_slice(), turnover.come.as_slice());
    tell_images(&mut told.replies, lists, inputs, gone, come)?;
    append(&mut told.replies, told.later.as_slice())?;
    decide_images(&mut told.decisions, lists, policy, epoch, turnover)
}

/// The outcome of what is reported and turned over, where the later replies are among the others already.
pub(crate) fn outcome_from(told: Report, turnover: Turnover) -> Outcome
    ensures { result ≡ record { response = told.response; replies = told.replies; decisions = told.decisions; opens = told.opens; closes = told.closes; gone = turnover.gone; come = turnover.come } }
{
    Outcome {
        response: told.response,
        replies: told.replies,
        decisions: told.decisions,
        opens: told.opens,
        closes: told.closes,
        gone: turnover.gone,
        come: turnover.come,
    }
}

/// The outcome where these pairs come, which are reported already, and none goes.
pub(crate) fn come_alone(alloc: Global, told: Report, come: Items<Pair>) -> Outcome
    ensures { result ≡ record { response = told.response; replies = told.replies; decisions = told.decisions; opens = told.opens; closes = told.closes; gone = []; come = come } }
{
    let gone = Items::new(alloc);
    outcome_from(told, Turnover { gone, come })
}

/// The outcome where these pairs go, which are reported already, and none comes.
pub(crate) fn go_alone(
    alloc: Global,
    told: Report,
    gone: Items<Pair>,
) -> Result<Outcome, AllocError>
    ensures { IfOk result (λ outcome. outcome ≡ outcome_gone told gone) }
{
    let mut told = told;
    append(&mut told.replies, told.later.as_slice())?;
    let come = Items::new(alloc);
    Ok(outcome_from(told, Turnover { gone, come }))
}

/// The outcome where the event's own rule reports this and changes no pair.
pub(crate) fn keep_pairs(alloc: Global, told: Report) -> Result<Outcome, AllocError>
    ensures { IfOk result (λ outcome. outcome ≡ outcome_kept told) }
{
    let gone = Items::new(alloc);
    go_alone(alloc, told, gone)
}

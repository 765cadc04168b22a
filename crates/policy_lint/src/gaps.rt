ghost use Rattle.std.specs.Prelude.{◌<◌, length};

use crate::asking::{Asked, asker, moment_for, stream_in};
use crate::examples::{Spoken, example, learning_example, spoken_at};
use crate::warning::Gap;
use byte_strings::Text;
use channel_uri::{Channel, Media};
use policy_core::{Act, Verdict};
use policy_tools::WrittenPolicy;
use std::alloc::{AllocError, Global};

/// Acts that serve only with another one.
const NEEDED: [(Act, Act); 9] = [
    (Act::Publish, Act::Offer),
    (Act::PublishExclusive, Act::Offer),
    (Act::Offer, Act::Send),
    (Act::Destination, Act::Send),
    (Act::Join, Act::Send),
    (Act::Subscribe, Act::Image),
    (Act::Subscribe, Act::Receive),
    (Act::Spy, Act::Image),
    (Act::Spy, Act::Receive),
];

/// Whether the act needs the other one on such a channel. Datagrams are sent over udp. What is sent to a destination
/// that is named by hand is asked about by that destination's own channel; what is sent to one that is learnt, by the principal
/// that joined, not by the publisher.
fn is_needed(act: Act, channel: &Channel) -> bool {
    let is_udp = channel.media() == Media::Udp;
    match act {
        Act::Spy | Act::Destination => is_udp,
        Act::Offer => is_udp && !channel.is_manual() && !channel.is_dynamic(),
        Act::Join => is_udp && channel.is_dynamic(),
        _ => true,
    }
}

/// An act that a rule grants, one that has to be granted with it, and why that is not.
type Missing = (Act, Act, Verdict);

/// The act that the rule at this place grants, and for which `act` is granted, or would be needed: that act itself, or the one
/// for which it is missing.
fn root_of(asked: Asked<'_>, at: usize, missing: &[Missing], act: Act) -> Option<Act> {
    if asked.is_granted_by(at, act) {
        return Some(act);
    }
    for (root, needed, _verdict) in missing {
        if *needed == act {
            return Some(*root);
        }
    }
    None
}

/// Whether the act is known to be missing.
fn is_missing(missing: &[Missing], act: Act) -> bool {
    missing.iter().any(|gap| gap.1 == act)
}

/// All that is missing for what the rule at this place grants, each act once.
fn missing_at(alloc: Global, asked: Asked<'_>, at: usize) -> Result<Vec<Missing>, AllocError> {
    let mut missing = Vec::new(alloc);
    for (act, needed) in NEEDED {
        if is_needed(act, asked.channel)
            && !is_missing(missing.as_slice(), needed)
            && let Some(root) = root_of(asked, at, missing.as_slice(), act)
        {
            let verdict = asked.verdict(needed);
            if !verdict.allow {
                missing.push((root, needed, verdict))?;
            }
        }
    }
    Ok(missing)
}

/// Channels on which a rule is tried.
#[derive(Clone, Copy)]
enum Among {
    Udp,
    Ipc,
    /// Those on which publications learn their destinations.
    Learning,
}

/// A channel of these that the pattern covers, where one is found.
fn tried(alloc: Global, own: Spoken<'_>, among: Among) -> Result<Option<Channel>, AllocError> {
    match among {
        Among::Udp => example(alloc, own, Media::Udp),
        Among::Ipc => example(alloc, own, Media::Ipc),
        Among::Learning => learning_example(alloc, &[own]),
    }
}

/// What a rule that grants something leaves out on a channel, at `moment` or once it stands. `name` is what the text calls its
/// principal.
fn gaps_on(
    alloc: Global,
    source: &WrittenPolicy,
    at: usize,
    name: &str,
    channel: &Channel,
    moment: u64,
) -> Result<Vec<Gap>, AllocError>
    requires { at < length source.now.policy.rules }
{
    let rule = &source.rules()[at];
    let mut gaps = Vec::new(alloc);
    let Some(principal) = asker(source.rules(), rule) else {
        return Ok(gaps);
    };
    let asked = Asked {
        policy: source.policy(),
        moment: moment_for(rule, moment),
        principal,
        channel,
        stream: stream_in(rule.low, rule.high),
    };
    for (act, needed, verdict) in missing_at(alloc, asked, at)? {
        gaps.push(Gap {
            principal: Text::new(alloc, name)?,
            act,
            needed,
            channel: channel.canonical(alloc)?,
            stream: asked.stream,
            moment: asked.moment,
            verdict,
        })?;
    }
    Ok(gaps)
}

/// What a rule that grants something leaves out, on the first of the channels tried on which it leaves out anything. `name` is
/// what the text calls its principal.
pub(crate) fn gaps_of(
    alloc: Global,
    source: &WrittenPolicy,
    at: usize,
    name: &str,
    moment: u64,
) -> Result<Vec<Gap>, AllocError>
    requires { at < length source.now.policy.rules }
{
    let own = spoken_at(source, at);
    for among in [Among::Udp, Among::Ipc, Among::Learning] {
        if let Some(channel) = tried(alloc, own, among)? {
            let gaps = gaps_on(alloc, source, at, name, &channel, moment)?;
            if !gaps.is_empty() {
                return Ok(gaps);
            }
        }
    }
    Ok(Vec::new(alloc))
}

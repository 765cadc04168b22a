use crate::pairs::Deciders;
use crate::requests::{
    Completion, ENDS, MODES, Written, channel_over, has_beginning, has_mode, medium_of,
};
use channel_uri::{Channel, Media};
use policy_core::{Act, Rule};
use policy_tools::WrittenPolicy;
use std::alloc::{AllocError, Global};

/// A request that is decided by the two of a row.
#[derive(Debug, Drop)]
pub struct Example {
    /// Who asks.
    pub principal: u32,
    /// What is asked.
    pub act: Act,
    /// On which channel.
    pub channel: Channel,
    /// On which stream.
    pub stream: i32,
}

/// The rule that decides, where it is one.
pub(crate) fn rule_at(source: &WrittenPolicy, decider: Option<usize>) -> Option<&Rule> {
    source.rules().get(decider?)
}

/// The pattern of the rule that decides, with its text.
pub(crate) fn written_at(source: &WrittenPolicy, decider: Option<usize>) -> Option<Written<'_>> {
    let at = decider?;
    if at >= source.rules().len() {
        return None;
    }
    Some(Written {
        text: source.text(at),
        pattern: &source.rules()[at].channel,
    })
}

/// Adds the channels over a medium that have the values of both patterns; where a value is a beginning, with several ends.
fn push_in_mode(
    alloc: Global,
    media: Media,
    one: Option<Written<'_>>,
    other: Option<Written<'_>>,
    mode: &'static str,
    channels: &mut Vec<Channel>,
) -> Result<(), AllocError> {
    let ends = if has_beginning(one) || has_beginning(other) {
        &ENDS[..]
    } else {
        &ENDS[..1]
    };
    for end in ends {
        let by = Completion { mode, end: *end };
        if let Some(channel) = channel_over(alloc, media, one, other, by)? {
            channels.push(channel)?;
        }
    }
    Ok(())
}

/// The same in each mode in which their destinations may come, where a pattern speaks of it.
fn push_over(
    alloc: Global,
    media: Media,
    one: Option<Written<'_>>,
    other: Option<Written<'_>>,
    channels: &mut Vec<Channel>,
) -> Result<(), AllocError> {
    let modes = if has_mode(one) || has_mode(other) {
        &MODES[..]
    } else {
        &MODES[..1]
    };
    for mode in modes {
        push_in_mode(alloc, media, one, other, *mode, channels)?;
    }
    Ok(())
}

/// Channels on which the two are likely to decide: those that have the values of both patterns and no other ones.
pub(crate) fn channels_of(
    alloc: Global,
    old: &WrittenPolicy,
    new: &WrittenPolicy,
    deciders: Deciders,
) -> Result<Vec<Channel>, AllocError> {
    let (one, other) = (written_at(old, deciders.old), written_at(new, deciders.new));
    let mut channels = Vec::new(alloc);
    if let Some(media) = medium_of(one, other) {
        push_over(alloc, media, one, other, &mut channels)?;
        return Ok(channels);
    }
    for media in [Media::Ipc, Media::Udp, Media::Counter] {
        push_over(alloc, media, one, other, &mut channels)?;
    }
    Ok(channels)
}

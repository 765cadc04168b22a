ghost use Rattle.std.specs.Prelude.{◌<◌, length};

use crate::pairs::pairs_in;
use channel_uri::{Channel, Media, Pattern};
use policy_tools::{WrittenPolicy, value_wider};
use std::alloc::{AllocError, Global};

/// What may stand after a beginning of an address so that it is one: where some address begins so, one of these does.
const ENDS: [&str; 11] = [
    "",
    "1",
    ":1",
    "1:1",
    ".1:1",
    "1.1:1",
    ".1.1:1",
    "1.1.1:1",
    ".1.1.1:1",
    "1.1.1.1:1",
    "0:1",
];

/// Whether a channel may have this value of the key.
pub(crate) fn is_admitted(alloc: Global, key: &str, value: &str) -> Result<bool, AllocError> {
    let text = format!(in alloc; "aeron:udp?{key}={value}")?;
    Ok(Channel::parse(text.as_str()).is_ok())
}

/// What a beginning of an address, or of a mode, can be completed by; `None` where no value begins so.
pub(crate) fn end_of(
    alloc: Global,
    key: &str,
    front: &str,
) -> Result<Option<&'static str>, AllocError> {
    if key == "control-mode" {
        return Ok(
            "manual"
                .strip_prefix(front)
                .or("dynamic".strip_prefix(front)),
        );
    }
    for end in ENDS {
        let value = format!(in alloc; "{front}{end}")?;
        if is_admitted(alloc, key, value.as_str())? {
            return Ok(Some(end));
        }
    }
    Ok(None)
}

/// Appends a key with a value that fits the wanted one.
fn push_pair(alloc: Global, text: &mut String, key: &str, wanted: &str) -> Result<(), AllocError> {
    let mark = if text.as_str().contains('?') {
        "|"
    } else {
        "?"
    };
    let Some(front) = wanted.strip_suffix("*") else {
        return text.push_str(format!(in alloc; "{mark}{key}={wanted}")?.as_str());
    };
    let end = end_of(alloc, key, front)?.unwrap_or("");
    text.push_str(format!(in alloc; "{mark}{key}={front}{end}")?.as_str())
}

/// A pattern with its text.
#[derive(Clone, Copy)]
pub(crate) struct Spoken<'a> {
    pub text: &'a str,
    pub pattern: &'a Pattern,
}

impl<'a> Spoken<'a> {
    /// What a channel has to have at a key.
    fn wanted(&self, key: &str) -> Option<&'a str> {
        match self.pattern {
            Pattern::Any => None,
            Pattern::Of(_, keys) => keys.get(key),
        }
    }

    /// Whether the pattern may cover channels over the medium.
    fn is_over(&self, media: Media) -> bool {
        match self.pattern {
            Pattern::Any => true,
            Pattern::Of(of, _) => *of == media,
        }
    }
}

/// The rule's pattern at a place, counted from 0.
pub(crate) fn spoken_at(source: &WrittenPolicy, at: usize) -> Spoken<'_>
    requires { at < length source.now.policy.rules }
{
    Spoken {
        text: source.text(at),
        pattern: &source.rules()[at].channel,
    }
}

/// The narrowest of the values that the patterns want of a key. Where some channel has them all, it lies within the others.
fn narrowest<'a>(patterns: &[Spoken<'a>], key: &str) -> Option<&'a str> {
    let mut found: Option<&'a str> = None;
    for spoken in patterns {
        if let Some(value) = spoken.wanted(key) {
            found = match found {
                Some(wanted) if !value_wider(wanted, value) => Some(wanted),
                _ => Some(value),
            };
        }
    }
    found
}

/// Appends a pair for each key of the pattern of that text that the patterns before it do not have, and that is not given.
fn push_own(
    alloc: Global,
    text: &mut String,
    own: &str,
    patterns: (&[Spoken<'_>], &[Spoken<'_>]),
    given: &str,
) -> Result<(), AllocError> {
    let (all, before) = patterns;
    for piece in pairs_in(own).split('|') {
        if let Some((key, _)) = piece.split_once('=')
            && key != given
            && narrowest(before, key).is_none()
        {
            push_pair(alloc, text, key, narrowest(all, key).unwrap_or(""))?;
        }
    }
    Ok(())
}

/// What a publication's channel lacks, so that it says where its datagrams go.
fn missing(channel: &Channel) -> Option<(&'static str, &'static str)> {
    if channel.media() != Media::Udp || channel.is_manual() {
        return None;
    }
    let (endpoint, control) = (channel.endpoint().is_some(), channel.control().is_some());
    if channel.is_dynamic() {
        return if control {
            None
        } else {
            Some(("control", "127.0.0.1:40300"))
        };
    }
    if endpoint {
        return None;
    }
    if control {
        return Some(("control-mode", "dynamic"));
    }
    Some(("endpoint", "127.0.0.1:40123"))
}

/// Whether each of the patterns covers the channel.
fn are_covering(patterns: &[Spoken<'_>], channel: &Channel) -> bool {
    for spoken in patterns {
        if !spoken.pattern.covers(channel) {
            return false;
        }
    }
    true
}

/// A channel that goes on from a beginning of its text, and that all of the patterns cover, where one is found. Over udp it has
/// an endpoint, destinations that are named by hand, or an address at which receivers make themselves known.
fn example_from(
    alloc: Global,
    mut made: String,
    patterns: &[Spoken<'_>],
    given: &str,
) -> Result<Option<Channel>, AllocError> {
    for at in 0..patterns.len() {
        let own = patterns[at].text;
        push_own(alloc, &mut made, own, (patterns, &patterns[..at]), given)?;
    }
    let Ok(first) = Channel::parse(made.as_str()) else {
        return Ok(None);
    };
    if let Some((key, value)) = missing(&first) {
        push_pair(alloc, &mut made, key, value)?;
    }
    match Channel::parse(made.as_str()) {
        Ok(channel) if are_covering(patterns, &channel) => Ok(Some(channel)),
        _ => Ok(None),
    }
}

/// A channel over `media` that the pattern covers, where one is found.
pub(crate) fn example(
    alloc: Global,
    own: Spoken<'_>,
    media: Media,
) -> Result<Option<Channel>, AllocError> {
    common_example(alloc, &[own], media)
}

/// A channel over `media` that all of the patterns cover, where one is found.
pub(crate) fn common_example(
    alloc: Global,
    patterns: &[Spoken<'_>],
    media: Media,
) -> Result<Option<Channel>, AllocError> {
    for own in patterns {
        if !own.is_over(media) {
            return Ok(None);
        }
    }
    let word = media.name();
    example_from(alloc, format!(in alloc; "aeron:{word}")?, patterns, "")
}

/// A channel on which a publication learns its destinations, and which all of the patterns cover, where one is found.
pub(crate) fn learning_example(
    alloc: Global,
    patterns: &[Spoken<'_>],
) -> Result<Option<Channel>, AllocError> {
    let made = format!(in alloc; "aeron:udp?control-mode=dynamic")?;
    example_from(alloc, made, patterns, "control-mode")
}

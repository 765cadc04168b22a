//! Requests that may show a row, channel by channel.

ghost use Rattle.channel_uri.specs.Pattern.{pattern_of};
ghost use Rattle.std.specs.Prelude.{◌≡◌, Ok};

use channel_uri::{Channel, Keys, Media, Pattern};
use policy_tools::{key_of, pairs_in, value_wider};
use std::alloc::{AllocError, Global};

/// What may stand after the beginning of a value so that it is one; an address, mostly.
pub(crate) const ENDS: [&str; 11] = [
    "",
    "1",
    ":1",
    "1:1",
    ".1:1",
    "1.1:1",
    ".1.1:1",
    "1.1.1:1",
    ".1.1.1:1",
    "1.1.1.1:1",
    "0:1",
];

/// The values of `control-mode` that a channel may have.
pub(crate) const MODES: [&str; 2] = ["manual", "dynamic"];

/// The key that has these values alone.
const CONTROL_MODE: &str = "control-mode";

/// What completes values of which only the beginning is said.
#[derive(Clone, Copy)]
pub(crate) struct Completion {
    /// Of `control-mode`, the whole value.
    pub(crate) mode: &'static str,
    /// Of any other key, what stands after the beginning.
    pub(crate) end: &'static str,
}

/// A pattern with its text.
#[derive(Clone, Copy)]
pub(crate) struct Written<'a> {
    pub(crate) text: &'a str,
    pub(crate) pattern: &'a Pattern,
    ghost is_text: { pattern_of text.now ≡ Ok pattern.now },
}

/// The medium of the patterns; `None` where each is `*`, or there are none.
pub(crate) fn medium_of(one: Option<Written<'_>>, other: Option<Written<'_>>) -> Option<Media> {
    if let Some(written) = one
        && let Pattern::Of(media, _keys) = written.pattern
    {
        return Some(*media);
    }
    if let Some(written) = other
        && let Pattern::Of(media, _keys) = written.pattern
    {
        return Some(*media);
    }
    None
}

/// Whether the pattern wants a value of which only the beginning is said.
pub(crate) fn has_beginning(written: Option<Written<'_>>) -> bool {
    match written {
        Some(written) => written.text.contains('*'),
        None => false,
    }
}

/// Whether the pattern wants a `control-mode` of which only the beginning is said.
pub(crate) fn has_mode(written: Option<Written<'_>>) -> bool {
    match wanted_of(written, CONTROL_MODE) {
        Some(wanted) => wanted.ends_with('*'),
        None => false,
    }
}

/// The value that a pattern wants of a key.
fn wanted_of<'a>(written: Option<Written<'a>>, key: &str) -> Option<&'a str> {
    match written?.pattern {
        Pattern::Of(_media, keys) => value_in(keys, key),
        Pattern::Any => None,
    }
}

fn value_in<'a>(keys: &'a Keys, key: &str) -> Option<&'a str> {
    keys.get(key)
}

/// The value within both, of which one is within the other.
fn narrower<'a>(one: &'a str, other: Option<&'a str>) -> &'a str {
    match other {
        Some(other) if value_wider(one, other) => other,
        _ => one,
    }
}

/// Adds a key with a value that fits what is wanted, where a beginning is completed so.
fn push_pair(text: &mut String, key: &str, wanted: &str, by: Completion) -> Result<(), AllocError> {
    let Completion { mode, end } = by;
    let mark = if text.as_str().contains('?') {
        "|"
    } else {
        "?"
    };
    match wanted.strip_suffix("*") {
        Some(_) if key == CONTROL_MODE => write!(text, "{mark}{key}={mode}"),
        Some(front) => write!(text, "{mark}{key}={front}{end}"),
        None => write!(text, "{mark}{key}={wanted}"),
    }
}

/// Adds the keys of a pattern; where the other one has the key too, with a value that fits both.
fn push_keys(
    text: &mut String,
    written: Option<Written<'_>>,
    other: Option<Written<'_>>,
    by: Completion,
) -> Result<(), AllocError> {
    let Some(own) = written else {
        return Ok(());
    };
    let Some(pairs) = pairs_in(own.text) else {
        return Ok(());
    };
    for piece in pairs.split('|') {
        let key = key_of(piece);
        if let Some(wanted) = wanted_of(written, key) {
            let wanted = narrower(wanted, wanted_of(other, key));
            push_pair(text, key, wanted, by)?;
        }
    }
    Ok(())
}

/// The channel over that medium with the keys of both patterns, where a beginning is completed so; `None` where that is no
/// channel.
pub(crate) fn channel_over(
    alloc: Global,
    media: Media,
    one: Option<Written<'_>>,
    other: Option<Written<'_>>,
    by: Completion,
) -> Result<Option<Channel>, AllocError> {
    if media == Media::Counter {
        return Ok(Some(Channel::counter()));
    }
    let word = media.name();
    let mut text = format!(in alloc; "aeron:{word}")?;
    push_keys(&mut text, one, other, by)?;
    push_keys(&mut text, other, one, by)?;
    match Channel::parse(text.as_str()) {
        Ok(channel) => Ok(Some(channel)),
        Err(_) => Ok(None),
    }
}

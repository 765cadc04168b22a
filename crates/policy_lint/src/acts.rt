use channel_uri::{Media, Pattern};
use policy_core::{Act, Rule};
use policy_tools::value_wider;

/// What a rule's pattern says of the channels that it covers.
#[derive(Clone, Copy)]
pub(crate) struct Shape {
    /// Their medium; `None` for every one.
    pub media: Option<Media>,
    /// Whether they have to have a key.
    pub has_keys: bool,
    /// Whether one of them may have `control-mode=dynamic`.
    pub may_learn: bool,
}

/// What the pattern of that text says.
pub(crate) fn shape_of(text: &str, pattern: &Pattern) -> Shape {
    let media = match pattern {
        Pattern::Any => None,
        Pattern::Of(media, _) => Some(*media),
    };
    Shape {
        media,
        has_keys: text.contains('?'),
        may_learn: may_learn(pattern),
    }
}

/// Whether the pattern admits `control-mode=dynamic`.
fn may_learn(pattern: &Pattern) -> bool {
    match pattern {
        Pattern::Any => true,
        Pattern::Of(_, keys) => match keys.get("control-mode") {
            Some(wanted) => value_wider(wanted, "dynamic"),
            None => true,
        },
    }
}

/// Why no request is made of a counter there. It is asked of `aeron:counter`, which has no keys.
fn not_counter(shape: Shape) -> Option<&'static str> {
    match shape.media {
        None => None,
        Some(Media::Counter) if shape.has_keys => Some("the channel aeron:counter has no keys"),
        Some(Media::Counter) => None,
        Some(_) => Some("it is asked on the channel aeron:counter"),
    }
}

/// Why no counter is seen there. Those of clients are asked about by `aeron:counter`, and the driver's by their logs' own.
fn not_listed(shape: Shape) -> Option<&'static str> {
    match shape.media {
        Some(Media::Counter) => not_counter(shape),
        _ => None,
    }
}

/// Why the driver is not ended there. That is asked of `aeron:ipc`, stream 0.
fn not_terminated(shape: Shape, low: i32, high: i32) -> Option<&'static str> {
    match shape.media {
        Some(Media::Udp | Media::Counter) => return Some("it is asked on the channel aeron:ipc"),
        Some(Media::Ipc) if shape.has_keys => {
            return Some("it is asked on aeron:ipc, without any key");
        }
        _ => {}
    }
    if low <= 0 && 0 <= high {
        return None;
    }
    Some("it is asked on stream 0")
}

/// Why no datagrams are sent there.
fn not_sent(shape: Shape) -> Option<&'static str> {
    match shape.media {
        Some(Media::Ipc) => Some("it is asked on channels over udp"),
        Some(Media::Counter) => Some("it is asked on channels over udp"),
        _ => None,
    }
}

/// Why nobody becomes a destination there.
fn not_joined(shape: Shape) -> Option<&'static str> {
    match not_sent(shape) {
        Some(why) => Some(why),
        None if shape.may_learn => None,
        None => Some("it is asked on channels with control-mode=dynamic"),
    }
}

/// Why there are no messages there.
fn not_streamed(shape: Shape) -> Option<&'static str> {
    match shape.media {
        Some(Media::Counter) => Some("it is asked on channels over udp or ipc"),
        _ => None,
    }
}

/// Why no request has the act on such a channel and on a stream from `low` to `high`; `None` where some may.
pub(crate) fn why_never(act: Act, shape: Shape, low: i32, high: i32) -> Option<&'static str> {
    match act {
        Act::Counter => not_counter(shape),
        Act::List => not_listed(shape),
        Act::Terminate => not_terminated(shape, low, high),
        Act::Spy | Act::Destination | Act::Send | Act::Retransmit => not_sent(shape),
        Act::Join => not_joined(shape),
        _ => not_streamed(shape),
    }
}

/// Whether the rule speaks of every act.
pub(crate) fn has_every_act(rule: &Rule) -> bool {
    Act::EVERY.iter().all(|act| rule.acts.hold(*act))
}

/// Whether no request has an act of the rule on its channels and streams.
pub(crate) fn has_no_request(rule: &Rule, shape: Shape) -> bool {
    Act::EVERY.iter().all(|act| {
        !rule.acts.hold(*act) || why_never(*act, shape, rule.low, rule.high).is_some()
    })
}

/// The type under which the driver lists counters of its own, where the range holds one and is not that of all streams.
pub(crate) fn system_type(low: i32, high: i32) -> Option<i32> {
    if low == i32::MIN && high == i32::MAX {
        return None;
    }
    if low <= 10001 && 10001 <= high {
        return Some(10001);
    }
    if low <= 10002 && 10002 <= high {
        return Some(10002);
    }
    None
}

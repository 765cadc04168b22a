//! Keys of Aeron's channels that this driver passes over: whoever wrote one is told. Any other key is a label of one's own, of which
//! rules can speak.

use policy_tools::{key_of, pairs_in};
use program_parts::Machine;

/// Aeron's keys without an effect here (Aeron wiki, channel configuration).
const IDLE: [&str; 20] = [
    "cc",
    "eos",
    "fc",
    "group",
    "gtag",
    "init-term-id",
    "max-resend",
    "nak-delay",
    "pub-wnd",
    "rcv-wnd",
    "rejoin",
    "reliable",
    "so-rcvbuf",
    "so-sndbuf",
    "sparse",
    "ssc",
    "term-id",
    "term-offset",
    "tether",
    "ttl",
];

/// Whether a channel's text has that key.
fn has_key(channel: &str, key: &str) -> bool {
    let Some(pairs) = pairs_in(channel) else {
        return false;
    };
    for pair in pairs.split('|') {
        if key_of(pair) == key {
            return true;
        }
    }
    false
}

/// Says which of Aeron's keys in a channel's text have no effect, each once.
pub(crate) fn note_idle_keys<R: Machine>(rt: &R, channel: &str) {
    for key in &IDLE {
        if has_key(channel, key) {
            let _ = eprintln!(rt; "aeron_policyd: {key}: this key of a channel has no effect");
        }
    }
}

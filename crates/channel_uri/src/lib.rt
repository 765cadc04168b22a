//! Channels, such as `aeron:udp?endpoint=127.0.0.1:40123|mtu=1408`, and the patterns by which a policy speaks of them.
//!
//! The syntax, and the rules of the keys, are those of the Aeron wiki's page on channel configuration. `Channel::parse`
//! and `Pattern::parse` give what a whole text denotes, or its first fault; `Pattern::covers` says whether a channel is one
//! that a rule means.
#![tactic(auto)]

mod address;
mod channel;
mod error;
mod key;
mod keys;
mod laws;
mod media;
mod number;
mod parameters;
mod pattern;
mod place;
mod quantity;
mod session;
mod syntax;
mod table;
mod values;

pub use address::{Address, address_of};
pub use channel::Channel;
pub use error::UriError;
pub use key::Key;
pub use keys::Keys;
pub use laws::{
    addresses_are_read_back, addresses_have_one_text, canonical_denotes, endpoints_are_denoted,
    last_value_stands, stated_is_read, values_keep_their_rules,
};
pub use media::Media;
pub use pattern::Pattern;
pub use place::Place;
pub use quantity::{mtu_from, term_length_from};
pub use session::session_id_of;

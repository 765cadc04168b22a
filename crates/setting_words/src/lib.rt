//! Words by which a command line chooses settings of a driver: `KEY=VALUE`, with the units of a channel's values, and what is
//! wanted where a value is refused.
#![tactic(auto)]

mod keys;
mod number;
mod quantity;
mod reading;

pub use keys::{KEYS, Kind, kind_of};
pub use reading::plain;

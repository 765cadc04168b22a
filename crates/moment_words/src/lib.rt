//! Moments in words: nanoseconds since 1970, as a number or as a date, and how long something takes.
#![tactic(auto)]

mod date;
mod moment;
mod number;
mod period;

pub use date::date_text;
pub use moment::{MomentFault, moment_of, moment_or};
pub use period::period_of;

//! Which subscriptions read each log, kept in place and without memory beside the lists of `stream_registry`.
//!
//! [`Readers`] has a row of numbers for each log, in room that is there from the beginning. Each of its calls follows one
//! call on the lists: where the readers were those of the lists before it, they are those of the lists after it. So an
//! event asks the policy about its own rows alone. [`Readers::unread`] and [`Readers::closed`] say which images no
//! subscription reads, now or after an event.
#![tactic(auto)]

mod closing;
mod coming;
mod counting;
mod finding;
mod imaging;
mod leaving;
mod prospects;
mod publishing;
mod readers;
mod reloading;
mod subscribing;
mod telling;
mod unread;

pub use coming::pairs_of_subscription;
pub use counting::pair_count;
pub use prospects::{
    prospect_count, prospect_count_with_image, prospect_count_with_publication,
    prospect_count_with_subscription,
};
pub use readers::Readers;
pub use reloading::{Turnover, turnover_between};
pub use telling::is_of_any;

//! A client of a driver as the seat of a connection: what each of its calls makes of the client, in the words of `media_driver`.
//!
//! So what [`driver_service::Connection`] promises of calls holds of a real client: a connection does what one client of its
//! principal may do, and nothing else.
#![tactic(auto)]

mod denying;
mod given;
mod habits;
mod keeper;
mod looking;
mod polling;
mod positions;
mod refusing;
mod replying;
mod served;
mod serving;

pub use given::Given;
pub use keeper::Keeper;
pub use served::{Parted, Served, is_ended};
pub use serving::serve;

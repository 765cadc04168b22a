//! A driver that is run step by step, and keeps of each actor what was decided for it.
//!
//! `World::run` takes any list of steps of the conductor, the sender, the receiver and of clients, and its answers continue
//! the run that came before. What a step does is the driver's (crate `driver_steps`); a world also keeps the last 4,096
//! decisions of each actor, and how many came before them.
#![tactic(auto)]

mod actor;
mod audits;
mod kept;
mod laws;
mod past;
mod reading;
mod seats;
mod world;

pub use actor::Actor;
pub use driver_steps::Step;
pub use laws::{registries_were_newest, runs_are_of_the_driver, views_only_rise};
pub use log_steps::{
    Answer, Answered, Cause, CopiedFragments, Fragment, FragmentCopies, Insert, Offered, OpenLog,
};
pub use reading::Reading;
pub use seats::Seat;
pub use world::World;

use crate::state::event::{Event, Inputs};
use crate::state::outcome::Outcome;

/// An event that was planned: with what the logs said at it, and all that it reports and does outside the registry.
#[derive(Debug, Drop)]
pub struct Entry {
    pub event: Event,
    pub inputs: Inputs,
    pub outcome: Outcome,
}

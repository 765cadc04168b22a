//! What an event makes of the registry: a file for each command and each other event, and what they share, as who asks and
//! what the policy decides on it.

pub(crate) mod asking;
pub(crate) mod at_bound;
pub(crate) mod attaching;
pub(crate) mod closing;
pub(crate) mod commands;
pub(crate) mod counting;
pub(crate) mod deciding;
pub(crate) mod directing;
pub(crate) mod leaving;
pub(crate) mod publishing;
pub(crate) mod reloading;
pub(crate) mod setting_up;
pub(crate) mod subscribing;
pub(crate) mod terminating;
pub(crate) mod ticking;
pub(crate) mod unpublishing;
pub(crate) mod unsubscribing;

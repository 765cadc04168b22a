//! Tests of `media_agents`: the three agents of a driver, turned by hand on one thread over a network in memory.
#![tactic(auto)]

#[cfg(test)]
mod commands;
#[cfg(test)]
mod common;
#[cfg(test)]
mod driver;
#[cfg(test)]
mod eliciting;
#[cfg(test)]
mod endpoints;
#[cfg(test)]
mod failing_wires;
#[cfg(test)]
mod hand;
#[cfg(test)]
mod learning;
#[cfg(test)]
mod onlooker;
#[cfg(test)]
mod parts;
#[cfg(test)]
mod sharing;
#[cfg(test)]
mod turned_by_hand;
#[cfg(test)]
mod watched;

//! Tests of `log_slots`: logs after locks, the ledgers of what they took, and threads that offer to one of them.
#![tactic(auto)]

#[cfg(test)]
mod asking;
#[cfg(test)]
mod cases;
#[cfg(test)]
mod closing;
#[cfg(test)]
mod ending;
#[cfg(test)]
mod hands;
#[cfg(test)]
mod images;
#[cfg(test)]
mod offering;
#[cfg(test)]
mod opening;
#[cfg(test)]
mod parts;
#[cfg(test)]
mod registries;
#[cfg(test)]
mod shares;

//! Tests of `media_driver`: drivers that run, on threads of their own, and their clients.
#![tactic(auto)]

#[cfg(test)]
mod asking;
#[cfg(test)]
mod bad_network;
#[cfg(test)]
mod cases;
#[cfg(test)]
mod clients;
#[cfg(test)]
mod clocks;
#[cfg(test)]
mod each_call;
#[cfg(test)]
mod gates;
#[cfg(test)]
mod lost_replies;
#[cfg(test)]
mod moments;
#[cfg(test)]
mod network;
#[cfg(test)]
mod opening;
#[cfg(test)]
mod order;
#[cfg(test)]
mod positions;
#[cfg(test)]
mod publishers;
#[cfg(test)]
mod running;
#[cfg(test)]
mod seats;
#[cfg(test)]
mod shares;
#[cfg(test)]
mod threads;
#[cfg(test)]
mod two_drivers;

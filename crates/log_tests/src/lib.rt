//! Tests of frames, logs, the arena that they lie in and the queue of commands, the plain tables and lists that they compare a
//! log with, and the programs that they run.
#![tactic(auto)]

#[cfg(test)]
mod arenas;
#[cfg(test)]
mod cases;
#[cfg(test)]
mod churning;
#[cfg(test)]
mod copies;
#[cfg(test)]
mod datagrams;
#[cfg(test)]
mod filling;
#[cfg(test)]
mod frames;
#[cfg(test)]
mod image_reading;
#[cfg(test)]
mod images;
#[cfg(test)]
mod journal;
#[cfg(test)]
mod opening;
#[cfg(test)]
mod owners;
#[cfg(test)]
mod plain;
#[cfg(test)]
mod queues;
#[cfg(test)]
mod receiving;
#[cfg(test)]
mod resends;
#[cfg(test)]
mod sending;
#[cfg(test)]
mod shuffling;
#[cfg(test)]
mod stepping;
#[cfg(test)]
mod table;
#[cfg(test)]
mod term_reading;
#[cfg(test)]
mod terms;

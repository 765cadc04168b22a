//! Tests of words, tables and the other small crates: what no clause says and no script shows.
#![tactic(auto)]

#[cfg(test)]
mod addresses;
#[cfg(test)]
mod audits;
#[cfg(test)]
mod channels;
#[cfg(test)]
mod codes;
#[cfg(test)]
mod coming;
#[cfg(test)]
mod commands;
#[cfg(test)]
mod compilations;
#[cfg(test)]
mod desk;
#[cfg(test)]
mod desks;
#[cfg(test)]
mod destination_rows;
#[cfg(test)]
mod differing;
#[cfg(test)]
mod faults;
#[cfg(test)]
mod imaging;
#[cfg(test)]
mod keeping;
#[cfg(test)]
mod layouts;
#[cfg(test)]
mod leaving;
#[cfg(test)]
mod limits;
#[cfg(test)]
mod moments;
#[cfg(test)]
mod pairing;
#[cfg(test)]
mod patterns;
#[cfg(test)]
mod placing;
#[cfg(test)]
mod policies;
#[cfg(test)]
mod policy_texts;
#[cfg(test)]
mod publishing;
#[cfg(test)]
mod reader_play;
#[cfg(test)]
mod readers;
#[cfg(test)]
mod reloading;
#[cfg(test)]
mod replies;
#[cfg(test)]
mod resends;
#[cfg(test)]
mod rooms;
#[cfg(test)]
mod sessions;
#[cfg(test)]
mod stream_play;
#[cfg(test)]
mod streams;
#[cfg(test)]
mod subscribers;
#[cfg(test)]
mod tallies;
#[cfg(test)]
mod texts;
#[cfg(test)]
mod unread;
#[cfg(test)]
mod values;

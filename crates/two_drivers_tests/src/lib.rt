//! Tests of `two_drivers`: two drivers, of which the second is given what the first sent.
#![tactic(auto)]

#[cfg(test)]
mod deeds;
#[cfg(test)]
mod fates;
#[cfg(test)]
mod opening;
#[cfg(test)]
mod table;

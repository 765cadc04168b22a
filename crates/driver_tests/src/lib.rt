//! Tests of `driver_core`, `driver_steps`, `driver_world`, `script_lines`, `driver_script` and `policy_query`, of what no
//! script shows.
#![tactic(auto)]

#[cfg(test)]
mod deciding;
#[cfg(test)]
mod deeds;
#[cfg(test)]
mod ends;
#[cfg(test)]
mod images;
#[cfg(test)]
mod open_logs;
#[cfg(test)]
mod outcomes;
#[cfg(test)]
mod play;
#[cfg(test)]
mod reading;
#[cfg(test)]
mod running;
#[cfg(test)]
mod settings;
#[cfg(test)]
mod worlds;

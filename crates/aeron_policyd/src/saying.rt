//! How it is said on standard error why the program gives up.

use crate::fault::Fault;
use program_parts::Machine;
use std::fmt;

/// How a fault is said.
#[derive(Clone, Copy, Debug)]
pub(crate) enum Saying {
    /// By its own words alone, which are the same in each version of the program.
    Plain,
    /// By its place and what is wanted there.
    Placed,
    /// By its own words, and on a second line by its place.
    Both,
}

impl Saying {
    /// By its own words; also by its place, where that is to be shown.
    pub(crate) fn plain_or_both(shows_places: bool) -> Saying {
        if shows_places {
            Saying::Both
        } else {
            Saying::Plain
        }
    }

    /// Says why the program gives up: by the fault's own words, by its place, or by both.
    pub(crate) fn give_up<R: Machine, T: fmt::Display, P: fmt::Display>(
        self,
        rt: &R,
        fault: &T,
        placed: &P,
    ) -> Fault {
        let _ = match self {
            Saying::Plain => eprintln!(rt; "aeron_policyd: {fault}"),
            Saying::Placed => eprintln!(rt; "aeron_policyd: {placed}"),
            Saying::Both => eprintln!(rt; "aeron_policyd: {fault}\n{placed}"),
        };
        Fault::Said
    }
}

/// Says why the program gives up.
pub(crate) fn give_up<R: Machine, T: fmt::Display>(rt: &R, why: &T) -> Fault {
    let _ = eprintln!(rt; "aeron_policyd: {why}");
    Fault::Said
}

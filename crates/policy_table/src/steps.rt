//! The rows of groups, part by part.

ghost use Rattle.policy_table.specs.Rows.{entries_left, entry_of};
ghost use Rattle.std.specs.Prelude.{◌≡◌, ◌<◌, ◌∷◌, IfOk, length};

use crate::groups::{Group, from_on};
use crate::stretch::{Stretch, stretch_of};
use policy_core::Rule;
use std::alloc::{AllocError, Global};

/// A place in a table, before one of its rows or after them all.
#[derive(Clone, Copy, Debug)]
pub struct Place {
    /// The index of an asker with acts.
    pub(crate) group: usize,
    /// The stream from which on its rows come after the place.
    pub(crate) low: i32,
}

impl Place {
    /// Before the first row.
    pub const FIRST: Place = Place {
        group: 0,
        low: i32::MIN,
    };
}

/// The rows of a group from one stream to another, and the place after them.
#[derive(Drop)]
pub(crate) struct Step {
    pub(crate) group: Group,
    pub(crate) low: i32,
    pub(crate) stretch: Stretch,
    pub(crate) next: Place,
}

impl Step {
    /// How many rows.
    pub(crate) fn rows(&self) -> usize
        ensures { result ≡ length (entry_of self.now).part.places }
    {
        self.stretch.rules.len()
    }
}

/// The rows at a place, if it is not after all.
pub(crate) fn step_at(
    alloc: Global,
    rules: &[Rule],
    groups: &[Group],
    place: Place,
) -> Result<Step, AllocError>
    requires { place.group < length groups.now }
    ensures { IfOk result (λ step. entries_left rules.now groups.now place.group place.low ≡ entry_of step ∷ entries_left rules.now groups.now step.next.group step.next.low) }
{
    let Place { group: index, low } = place;
    let group = groups[index];
    let scope = from_on(group.asker, group.act, low);
    let stretch = stretch_of(alloc, rules, &scope)?;
    let high = stretch.high;
    if high == i32::MAX {
        return Ok(Step {
            group,
            low,
            stretch,
            next: Place {
                group: index + 1,
                low: i32::MIN,
            },
        });
    }
    Ok(Step {
        group,
        low,
        stretch,
        next: Place {
            group: index,
            low: high + 1,
        },
    })
}

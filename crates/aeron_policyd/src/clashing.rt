//! Doors that would have the same socket.

use plain_words::plain;
use service_doors::{Place, Plan};
use std::alloc::{AllocError, Global};

/// The name of the door of operators, which is there beside those that are asked for.
const OPERATOR: &str = "operator";

/// Whether both doors have the same socket.
fn is_one_place(one: &Plan<'_>, other: &Plan<'_>) -> bool {
    match (one.place, other.place) {
        (Place::Own(_), Place::Own(_)) => one.name == other.name,
        (Place::At(one), Place::At(other)) => one == other,
        _ => false,
    }
}

/// Whether the socket of a door is that of another one: of operators, or of one before it.
fn is_taken(before: &[Plan<'_>], plan: &Plan<'_>) -> bool {
    if let Place::Own(_) = plan.place
        && plan.name == OPERATOR
    {
        return true;
    }
    before.iter().any(|other| is_one_place(other, plan))
}

/// Why a door can't be beside those before it, where it can't.
pub(crate) fn clash(
    alloc: Global,
    before: &[Plan<'_>],
    plan: &Plan<'_>,
) -> Result<Option<String>, AllocError> {
    if !is_taken(before, plan) {
        return Ok(None);
    }
    Ok(Some(match plan.place {
        Place::Own(_) => {
            let name = plain(alloc, plan.name)?;
            format!(in alloc; "{name} has two doors")?
        }
        Place::At(path) => {
            let shown = plain(alloc, path)?;
            format!(in alloc; "two doors at {shown}")?
        }
    }))
}

//! The rows of a table, in room that is reserved once for as many as there may be.
//!
//! What changes [`Rows`] takes no memory and can't fail. Contracts see the rows as a plain list, and nothing of the room
//! beside it but that there is place for N.
#![tactic(auto)]

mod change;
mod form;
mod rows;
mod slots;
mod test;
mod twin;

pub use change::Change;
pub use form::Form;
pub use rows::Rows;
pub use test::Test;
pub use twin::Twin;

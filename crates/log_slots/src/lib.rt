//! What the lock of a slot for logs guards, and the ledger of the messages that logs took.
//!
//! A [`LogSlot`] keeps the number of the log that is there, or was there last. Each step names the log that it is for, and
//! finds it closed where the slot has none, or another one. A [`Slot`] is one for the log of a publication, with its [`Amount`]
//! of a ledger: how many messages its logs may still take. [`Held`] is either.
#![tactic(auto)]

mod amount;
mod held;
mod log_slot;
mod memory;
mod naming;
mod opening;
mod patient;
mod positions;
mod region;
mod settling;
mod slot;

pub use amount::{Amount, AtEnd, ROOM};
pub use held::Held;
pub use log_slot::LogSlot;
pub use memory::{ImageMemory, LogMemory, memory_for};
pub use naming::{Naming, OfClients, OfMessages};
pub use opening::open_log;
pub use patient::{lock_soon, rest};
pub use positions::{PublicationPositions, ReadingPositions};
pub use region::Region;
pub use settling::settle_all;
pub use slot::Slot;

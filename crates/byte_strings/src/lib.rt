//! Owned texts, bytes and rows of values that contracts see as plain lists.
//!
//! A `String` or a `Vec` also shows its capacity to a contract, so two that hold the same items may differ. The types
//! here show the items alone: a record, a command or a reply that holds them can be compared with a definition's value.
//! The short ones lie in the value itself: they take no memory, and neither does a copy.
#![tactic(auto)]

mod bytes;
mod items;
mod short_bytes;
mod short_text;
mod text;

pub use bytes::Bytes;
pub use items::Items;
pub use short_bytes::ShortBytes;
pub use short_text::ShortText;
pub use text::Text;

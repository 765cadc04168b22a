//! Who reads a log, and how far: what the log of a publication and that of a remote stream have in common.
//!
//! [`Pairs`] is the list of the subscriptions that read a log, each with its position, in room for 512 that is reserved.
//! [`copy_passed`] is a poll, over [`PolledFrames`]: each log says from where its frames are read. It copies the fragments as
//! it walks, into one piece of memory ([`FragmentCopies`]). But for that and [`Pairs::new`] nothing here takes memory.
#![tactic(auto)]

mod copies;
mod fragment;
mod pair;
mod pairs;
mod polling;

pub use copies::{CopiedFragments, FragmentCopies};
pub use fragment::{Fragment, PolledFrame};
pub use pair::Pair;
pub use pairs::Pairs;
pub use polling::{PolledFrames, copy_passed};

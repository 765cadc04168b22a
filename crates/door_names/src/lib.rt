//! The names of doors and the paths of their sockets: which texts may be one.
//!
//! A name is the name of a file, and each part of a path is one: nothing leads out of a folder, hides there, or moves a
//! terminal's cursor.
#![tactic(auto)]

mod names;

pub use names::{is_name, is_path};

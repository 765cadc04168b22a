//! What tests ask of texts and of scripts. Where no memory is there, nothing is as a test expects.

use crate::ends::Choppy;
use driver_script::{MayFail, RunFault, script};
use std::alloc::Global;
use std::fmt;

/// Whether the value is written as this text.
pub(crate) fn is_shown<T: fmt::Display>(alloc: Global, value: &T, text: &str) -> bool {
    match value.to_string(alloc) {
        Ok(shown) => shown.as_str() == text,
        Err(_) => false,
    }
}

/// What a script writes to a writer that takes this many bytes, and then fails.
pub(crate) fn run_into(
    alloc: Global,
    script: &str,
    room: usize,
) -> (Result<script::Ended, RunFault>, Vec<u8>) {
    let mut writer = MayFail(Choppy::new(alloc, room, true));
    let mut reader = script.as_bytes();
    let ended = script::run(alloc, &mut reader, &mut writer);
    (ended, writer.0.taken)
}

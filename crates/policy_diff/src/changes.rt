//! Rows in parts.

use crate::columns::{asker_cell, channel_cell, example_cell};
use crate::diff_rows::Row;
use crate::examples::Example;
use crate::pairs::Deciders;
use byte_strings::Text;
use policy_core::Acts;
use policy_tools::{Directory, WrittenPolicy};
use std::alloc::{AllocError, Global};

/// What a row says, in parts.
#[derive(Debug, Drop)]
pub struct Change {
    /// Whose requests: a name, `*` for everybody, `all but` a name, or `others` for everybody whom no rule names.
    pub principal: Text,
    /// Of which acts.
    pub acts: Acts,
    /// Of which channels, in words.
    pub channel: Text,
    /// The lowest stream id.
    pub low: i32,
    /// The highest stream id.
    pub high: i32,
    /// What decides in the old policy and in the new one.
    pub deciders: Deciders,
    /// A request that is decided so, in the words of a question; `None` where none was found, so that there may be none.
    pub example: Option<Text>,
}

/// The words of an example, where there is one.
fn example_of(
    alloc: Global,
    example: &Option<Example>,
    directory: &Directory,
) -> Result<Option<Text>, AllocError> {
    match example {
        Some(example) => Ok(Some(example_cell(alloc, example, directory)?)),
        None => Ok(None),
    }
}

/// What a row says.
pub(crate) fn change_of(
    alloc: Global,
    old: &WrittenPolicy,
    new: &WrittenPolicy,
    row: &Row,
    directory: &Directory,
) -> Result<Change, AllocError> {
    let scope = row.scope;
    Ok(Change {
        principal: asker_cell(alloc, scope.asker, directory)?,
        acts: scope.acts,
        channel: channel_cell(alloc, old, new, row.deciders)?,
        low: scope.low,
        high: scope.high,
        deciders: row.deciders,
        example: example_of(alloc, &row.example, directory)?,
    })
}

/// What the rows of two policies say, in their order.
pub fn changes_of(
    alloc: Global,
    old: &WrittenPolicy,
    new: &WrittenPolicy,
    rows: &[Row],
    directory: &Directory,
) -> Result<Vec<Change>, AllocError> {
    let mut changes = Vec::new(alloc);
    for row in rows {
        changes.push(change_of(alloc, old, new, row, directory)?)?;
    }
    Ok(changes)
}

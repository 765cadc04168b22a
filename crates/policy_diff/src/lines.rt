use crate::changes::{Change, change_of};
use crate::columns::change_cell;
use crate::diff_rows::Row;
use byte_strings::Text;
use policy_tools::{Directory, Line, WrittenPolicy, acts_text, in_columns, streams_text};
use std::alloc::{AllocError, Global};

/// What stands in place of an example where none was found.
const MAY: &str = "may differ: no example found";

/// The line of a row.
fn line_of(
    alloc: Global,
    old: &WrittenPolicy,
    new: &WrittenPolicy,
    change: Change,
) -> Result<Line, AllocError> {
    let mut cells = Vec::new(alloc);
    cells.push(change.principal)?;
    cells.push(acts_text(alloc, change.acts)?)?;
    cells.push(change.channel)?;
    cells.push(streams_text(alloc, change.low, change.high)?)?;
    cells.push(change_cell(alloc, old, new, change.deciders)?)?;
    cells.push(match change.example {
        Some(example) => example,
        None => Text::new(alloc, MAY)?,
    })?;
    Ok(Line { cells })
}

/// How many rows have an example.
fn count_shown(rows: &[Row]) -> usize {
    let mut count: usize = 0;
    for row in rows {
        if row.example.is_some() {
            count = count.saturating_add(1);
        }
    }
    count
}

/// Adds how many rows there are: of those that differ, and of those that may.
fn push_count(text: &mut String, shown: usize, open: usize) -> Result<(), AllocError> {
    match (shown, open) {
        (0, 0) => text.push_str("no difference\n"),
        (0, 1) => text.push_str("1 row may differ\n"),
        (0, _) => writeln!(text, "{open} rows may differ"),
        (1, 0) => text.push_str("1 row differs\n"),
        (_, 0) => writeln!(text, "{shown} rows differ"),
        (1, _) => writeln!(text, "1 row differs, {open} may"),
        _ => writeln!(text, "{shown} rows differ, {open} may"),
    }
}

/// The rows of two policies as a text: whose requests, which acts, channels and streams; the word and what decides, in the old policy
/// and in the new one; and a request as an example or, where none was found, that they may differ. After the rows stands how many
/// there are.
pub fn diff_text(
    alloc: Global,
    old: &WrittenPolicy,
    new: &WrittenPolicy,
    rows: &[Row],
    directory: &Directory,
) -> Result<String, AllocError> {
    let mut lines = Vec::new(alloc);
    for row in rows {
        let change = change_of(alloc, old, new, row, directory)?;
        lines.push(line_of(alloc, old, new, change)?)?;
    }
    let mut text = in_columns(alloc, lines.as_slice())?;
    let shown = count_shown(rows);
    push_count(&mut text, shown, rows.len().saturating_sub(shown))?;
    Ok(text)
}

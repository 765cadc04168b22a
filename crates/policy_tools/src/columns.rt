//! Lines of text, in columns.

use byte_strings::Text;
use std::alloc::{AllocError, Global};

/// A line, cell by cell.
#[derive(Debug, Drop)]
pub struct Line {
    pub cells: Vec<Text>,
}

/// Makes the columns as wide as the cells of a line.
fn widen(widths: &mut Vec<usize>, line: &Line) -> Result<(), AllocError> {
    for at in 0..line.cells.len() {
        let width = line.cells[at].as_str().len();
        if at >= widths.len() {
            widths.push(width)?;
        } else if width > widths[at] {
            widths[at] = width;
        }
    }
    Ok(())
}

/// How wide each column is.
fn widths_of(alloc: Global, lines: &[Line]) -> Result<Vec<usize>, AllocError> {
    let mut widths: Vec<usize> = Vec::new(alloc);
    for line in lines {
        widen(&mut widths, line)?;
    }
    Ok(widths)
}

/// Adds spaces.
fn push_spaces(text: &mut String, count: usize) -> Result<(), AllocError> {
    for _ in 0..count {
        text.push_str(" ")?;
    }
    Ok(())
}

/// Adds a line, each cell but the last filled up to its column's width.
fn push_line(text: &mut String, line: &Line, widths: &[usize]) -> Result<(), AllocError> {
    let count = line.cells.len();
    for at in 0..count {
        let cell = line.cells[at].as_str();
        text.push_str(cell)?;
        if at < widths.len() && at < count - 1 {
            push_spaces(text, widths[at].saturating_sub(cell.len()))?;
            text.push_str("  ")?;
        }
    }
    text.push_str("\n")
}

/// The lines as a text, in columns with two spaces between them.
pub fn in_columns(alloc: Global, lines: &[Line]) -> Result<String, AllocError> {
    let widths = widths_of(alloc, lines)?;
    let mut text = String::new(alloc);
    for line in lines {
        push_line(&mut text, line, widths.as_slice())?;
    }
    Ok(text)
}

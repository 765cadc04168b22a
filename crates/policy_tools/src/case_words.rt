//! The words of a line of a file of cases, and the columns at which they stand.

ghost use Rattle.policy_tools.specs.CaseWords.{column_of, cut_at_tabs, pieces_of, words_in};
ghost use Rattle.std.specs.List.{slice_split};
ghost use Rattle.std.specs.Prelude.{◌≡◌, ◌==◌, ◌++◌, IfOk, OnOk, length, map};
ghost use Rattle.std.specs.Str.{chars};

use std::alloc::{AllocError, Global};

/// The text, cut at each space.
fn cut_at_spaces(alloc: Global, text: &str) -> Result<Vec<&str>, AllocError>
    ensures { IfOk result (λ parts. map (λ part. part.now) parts.items ≡ slice_split (λ b. b == 32) text.now) }
{
    text.split(' ').collect(alloc)
}

/// The text, cut at each tab.
fn cut_at_tabs(alloc: Global, text: &str) -> Result<Vec<&str>, AllocError>
    ensures { IfOk result (λ parts. map (λ part. part.now) parts.items ≡ slice_split (λ b. b == 9) text.now) }
{
    text.split('\t').collect(alloc)
}

/// Puts these pieces behind those.
fn push_all<'a>(pieces: &mut Vec<&'a str>, more: &[&'a str]) -> Result<(), AllocError>
    ensures { OnOk result (pieces.new.items ≡ pieces.old.items ++ more.now) }
{
    for piece in more {
        pieces.push(*piece)?;
    }
    Ok(())
}

/// The line, cut at each space and at each tab.
pub(crate) fn pieces_of(alloc: Global, line: &str) -> Result<Vec<&str>, AllocError>
    ensures { IfOk result (λ pieces. map (λ piece. piece.now) pieces.items ≡ pieces_of line.now) }
{
    let parts = cut_at_spaces(alloc, line)?;
    let mut pieces = Vec::new(alloc);
    for part in &parts {
        let more = cut_at_tabs(alloc, *part)?;
        push_all(&mut pieces, more.as_slice())?;
    }
    Ok(pieces)
}

/// The words: the pieces that are not empty.
pub(crate) fn words_in<'a>(alloc: Global, pieces: &[&'a str]) -> Result<Vec<&'a str>, AllocError>
    ensures { IfOk result (λ words. map (λ word. word.now) words.items ≡ words_in (map (λ piece. piece.now) pieces.now)) }
{
    let mut words = Vec::new(alloc);
    for piece in pieces {
        if !piece.is_empty() {
            words.push(*piece)?;
        }
    }
    Ok(words)
}

/// How many characters a text has.
fn width(text: &str) -> usize
    ensures { result ≡ length (chars text.now) }
{
    text.chars().count()
}

/// The column, counted from 1, of the word that so many words precede; past the last word, that of the line's end.
pub(crate) fn column_of(pieces: &[&str], place: usize) -> usize
    ensures { result ≡ column_of (map (λ piece. piece.now) pieces.now) place }
{
    let mut column: usize = 1;
    let mut left = place;
    for piece in pieces {
        if piece.is_empty() {
            column = column.saturating_add(1);
            continue;
        }
        if left == 0 {
            return column;
        }
        left -= 1;
        column = column.saturating_add(width(*piece)).saturating_add(1);
    }
    column.saturating_sub(1)
}

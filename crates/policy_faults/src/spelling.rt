use std::alloc::{AllocError, Global};
use strsim::osa_distance;

/// Whether the texts differ in their digits alone: then neither is a misspelling of the other.
fn differ_in_digits(one: &str, other: &str) -> bool {
    let letters = |byte: &u8| !byte.is_ascii_digit();
    one.bytes()
        .filter(letters)
        .eq(other.bytes().filter(letters))
}

/// The first of these words that is the fewest edits away from `word`: at most two, and at most one in three letters. Two letters
/// that change places are one. A word that
/// differs in the case of its letters alone is the nearest one, and one that differs in its digits alone is none.
pub fn nearest<'a>(
    alloc: Global,
    word: &str,
    words: &[&'a str],
) -> Result<Option<&'a str>, AllocError> {
    let mut found = None;
    let mut least = (word.len() / 3).min(2) + 1;
    if word.len() > 64 {
        return Ok(None);
    }
    for known in words {
        if word.eq_ignore_ascii_case(known) {
            return Ok(Some(*known));
        }
        if !differ_in_digits(word, known) {
            let edits = osa_distance(alloc, word, known)?;
            if edits < least {
                least = edits;
                found = Some(*known);
            }
        }
    }
    Ok(found)
}

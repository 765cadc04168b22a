//! Tests of `byte_strings`.

use byte_strings::{Bytes, Items, ShortBytes, ShortText, Text};
use std::alloc::{AllocError, Global};

/// Whether a text of these bytes and its copy are equal, and the copy shows the wanted ones.
fn is_copied(alloc: Global, bytes: &str, wanted: &str) -> Result<bool, AllocError> {
    let text = Text::new(alloc, bytes)?;
    let copied = match text.copy(alloc) {
        Ok(copy) => {
            let same = (copy == text) & (copy.as_str() == wanted);
            drop(copy);
            Ok(same)
        }
        Err(refused) => Err(refused),
    };
    drop(text);
    copied
}

fn text_of(alloc: Global, text: &str) -> Result<Text, AllocError> {
    Ok(Text::from(String::from_str(alloc, text)?))
}

/// Whether the texts of two strings are equal.
fn are_equal(alloc: Global, left: &str, right: &str) -> Result<bool, AllocError> {
    let left = text_of(alloc, left)?;
    let equal = match text_of(alloc, right) {
        Ok(right) => {
            let same = left == right;
            drop(right);
            Ok(same)
        }
        Err(refused) => Err(refused),
    };
    drop(left);
    equal
}

/// Whether the text is printed so.
fn is_printed(alloc: Global, bytes: &str, wanted: &str) -> Result<bool, AllocError> {
    let text = Text::new(alloc, bytes)?;
    let printed = match format!(in alloc; "<{text}>") {
        Ok(printed) => {
            let same = printed.as_str() == wanted;
            drop(printed);
            Ok(same)
        }
        Err(refused) => Err(refused),
    };
    drop(text);
    printed
}

/// Whether the bytes and their copy are equal, and the copy shows the wanted ones.
fn are_copied(alloc: Global, bytes: &[u8], wanted: &[u8]) -> Result<bool, AllocError> {
    let bytes = Bytes::from(Vec::from_slice(alloc, bytes)?);
    let copied = match bytes.copy(alloc) {
        Ok(copy) => {
            let same = (copy == bytes) & (copy.as_slice() == wanted) & (copy.len() == wanted.len());
            drop(copy);
            Ok(same)
        }
        Err(refused) => Err(refused),
    };
    drop(bytes);
    copied
}

/// Whether the bytes are none, or are equal to others.
fn are_same(alloc: Global, left: &[u8], right: &[u8]) -> Result<bool, AllocError> {
    let bytes = Bytes::new(alloc, left)?;
    let same = match Bytes::new(alloc, right) {
        Ok(other) => {
            let same = bytes.is_empty() || bytes == other;
            drop(other);
            Ok(same)
        }
        Err(refused) => Err(refused),
    };
    drop(bytes);
    same
}

/// Whether two items find memory. They are there then.
fn take_two(items: &mut Items<u64>, first: u64, second: u64) -> bool {
    items.push(first).is_ok() & items.push(second).is_ok()
}

/// Whether 7 and 9 in a row are equal to 7 and another.
fn ends_in(alloc: Global, last: u64) -> Result<bool, AllocError> {
    let other = Items::from(Vec::from_slice(alloc, &[7, last])?);
    let mut items = Items::new(alloc);
    let pushed = items.is_empty() & take_two(&mut items, 7, 9) & (items.len() == 2);
    let same = pushed & (items == other) & (items.as_slice() == [7, last].as_slice());
    drop(items);
    drop(other);
    Ok(same)
}

/// Whether a text of at most four bytes and its copy are equal, and show its bytes, and it is equal to the other where
/// `equal` says so.
fn short_text_tells(left: &str, right: &str, equal: bool) -> bool {
    if left.len() > 4 || right.len() > 4 {
        return false;
    }
    let text: ShortText<4> = ShortText::new(left);
    let copy = text.copy();
    (copy == text) & (copy.as_str() == left) & ((copy == ShortText::new(right)) == equal)
}

/// Whether a short text is printed so.
fn is_printed_short(alloc: Global, bytes: &str, wanted: &str) -> Result<bool, AllocError> {
    if bytes.len() > 4 {
        return Ok(false);
    }
    let text: ShortText<4> = ShortText::new(bytes);
    let printed = format!(in alloc; "<{text}>")?;
    Ok(printed.as_str() == wanted)
}

/// Whether at most four bytes and their copy are equal, and show them, and are equal to the others where `equal` says so.
fn short_bytes_tell(left: &[u8], right: &[u8], equal: bool) -> bool {
    if left.len() > 4 || right.len() > 4 {
        return false;
    }
    let bytes: ShortBytes<4> = ShortBytes::new(left);
    let copy = bytes.copy();
    (copy == bytes) & (copy.as_slice() == left) & ((copy == ShortBytes::new(right)) == equal)
}

/// At most four bytes: these, up to so many of them.
type Few = ([u8; 4], usize);

fn front(few: &Few) -> &[u8] {
    &few.0[..few.1.min(4)]
}

/// What strings show.
#[derive(Clone, Copy)]
enum Case {
    TextIsCopied(&'static str, &'static str),
    TextsAreEqual(&'static str, &'static str),
    TextIsPrinted(&'static str, &'static str),
    BytesAreCopied(Few, Few),
    BytesAreSame(Few, Few),
    ItemsEndIn(u64),
    /// Two short texts, and whether they are equal.
    ShortTexts(&'static str, &'static str, bool),
    ShortTextIsPrinted(&'static str, &'static str),
    ShortBytes(Few, Few, bool),
}

/// Whether it is so.
fn goes(alloc: Global, case: Case) -> Result<bool, AllocError> {
    match case {
        Case::TextIsCopied(bytes, wanted) => is_copied(alloc, bytes, wanted),
        Case::TextsAreEqual(left, right) => are_equal(alloc, left, right),
        Case::TextIsPrinted(bytes, wanted) => is_printed(alloc, bytes, wanted),
        Case::BytesAreCopied(bytes, wanted) => are_copied(alloc, front(&bytes), front(&wanted)),
        Case::BytesAreSame(left, right) => are_same(alloc, front(&left), front(&right)),
        Case::ItemsEndIn(last) => ends_in(alloc, last),
        Case::ShortTexts(left, right, equal) => Ok(short_text_tells(left, right, equal)),
        Case::ShortTextIsPrinted(bytes, wanted) => is_printed_short(alloc, bytes, wanted),
        Case::ShortBytes(left, right, equal) => {
            Ok(short_bytes_tell(front(&left), front(&right), equal))
        }
    }
}

/// What strings show, and whether they do.
static CASES: [(Case, bool); 13] = [
    (Case::TextIsCopied("aeron:ipc", "aeron:ipc"), true),
    (Case::TextIsCopied("aeron:ipc", "aeron:ipd"), false),
    (Case::TextsAreEqual("aeron:udp", "aeron:udp"), true),
    (Case::TextsAreEqual("aeron:ipc", "aeron:udp"), false),
    (Case::TextIsPrinted("aeron:udp", "<aeron:udp>"), true),
    (Case::TextIsPrinted("aeron:udp", "<aeron:udq>"), false),
    (
        Case::BytesAreCopied(([1, 2, 3, 0], 3), ([1, 2, 3, 0], 3)),
        true,
    ),
    (
        Case::BytesAreCopied(([1, 2, 3, 0], 3), ([1, 2, 4, 0], 3)),
        false,
    ),
    (Case::BytesAreSame(([0; 4], 0), ([1, 0, 0, 0], 1)), true),
    (
        Case::BytesAreSame(([1, 2, 3, 0], 3), ([1, 2, 3, 0], 3)),
        true,
    ),
    (
        Case::BytesAreSame(([1, 2, 3, 0], 3), ([1, 2, 4, 0], 3)),
        false,
    ),
    (Case::ItemsEndIn(9), true),
    (Case::ItemsEndIn(8), false),
];

static SHORT_CASES: [(Case, bool); 16] = [
    (Case::ShortTexts("", "", true), true),
    (Case::ShortTexts("", "a", false), true),
    (Case::ShortTexts("ab", "ab", true), true),
    (Case::ShortTexts("ab", "ac", false), true),
    (Case::ShortTexts("abc", "abcd", false), true),
    (Case::ShortTexts("abcd", "abcd", true), true),
    (Case::ShortTexts("abcd", "abce", true), false),
    (Case::ShortTextIsPrinted("abcd", "<abcd>"), true),
    (Case::ShortTextIsPrinted("abcd", "<abce>"), false),
    (Case::ShortBytes(([0; 4], 0), ([0; 4], 0), true), true),
    (Case::ShortBytes(([0; 4], 0), ([0; 4], 1), false), true),
    (
        Case::ShortBytes(([0, 255, 0, 0], 2), ([0, 255, 0, 0], 2), true),
        true,
    ),
    (
        Case::ShortBytes(([0, 255, 0, 0], 2), ([0, 254, 0, 0], 2), false),
        true,
    ),
    (
        Case::ShortBytes(([1, 2, 3, 4], 3), ([1, 2, 3, 4], 4), false),
        true,
    ),
    (
        Case::ShortBytes(([1, 2, 3, 4], 4), ([1, 2, 3, 4], 4), true),
        true,
    ),
    (
        Case::ShortBytes(([1, 2, 3, 4], 4), ([1, 2, 3, 5], 4), true),
        false,
    ),
];

/// Whether each is as it says; without memory nothing is so.
fn are_shown(alloc: Global, cases: &[(Case, bool)]) -> bool {
    for &(case, shown) in cases {
        if (goes(alloc, case) == Ok(true)) != shown {
            return false;
        }
    }
    true
}

#[test]
fn strings_show_themselves(rt: HostRuntime) {
    assert!(rt; are_shown(rt.alloc(), &CASES) & are_shown(rt.alloc(), &SHORT_CASES));
}

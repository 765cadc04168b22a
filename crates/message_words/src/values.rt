//! The values of keys: numbers in decimal, bytes in hexadecimal, texts.

ghost use Rattle.channel_uri.specs.Number.{below, decimal_of};
ghost use Rattle.message_words.specs.Given.{Gives};
ghost use Rattle.message_words.specs.Values.{ascii_within, bytes_at, bytes_in, flags_at, hex_text_in, integer_at, integer_or, long_at, natural_at, natural_of, natural_or, number_at, number_of, number_or, one_byte, offset_of, offset_or, signed_of, text_at, within};
ghost use Rattle.std.specs.Char.{is_ascii, is_ascii_digit};
ghost use Rattle.std.specs.List.{list_all};
ghost use Rattle.std.specs.Option.{option_copied};
ghost use Rattle.std.specs.Prelude.{◌≡◌, ◌≤◌, ◌^◌, length, IfOk, if◌then◌else◌, Some, None};

use crate::fault::WordFault;
use crate::given::given;
use crate::key::Key;
use byte_strings::{Bytes, Text};
use frame_codec::Flags;
use hex::FromHexError;
use std::alloc::Global;
use std::str;

/// Whether there are digits alone, as `parse` also takes a sign.
fn are_digits(text: &str) -> bool
    ensures { result ≡ list_all is_ascii_digit text.now }
{
    text.bytes().all(|b| b.is_ascii_digit())
}

/// The number that the text is in decimal, where it has 64 bits at most.
#[tactic(auto, unfolding(channel_uri::specs::Number::decimal_of, crate::specs::Values::number_of))]
fn number_of(text: &str) -> Option<u64>
    ensures { result ≡ number_of text.now }
{
    if text.is_empty() {
        return None;
    }
    if !are_digits(text) {
        return None;
    }
    text.parse::<u64>().ok()
}

/// The number that the text is in decimal, where it is below `limit`.
#[tactic(auto, unfolding(crate::specs::Values::number_of))]
fn number_below(limit: u64, text: &str) -> Option<u64>
    ensures { result ≡ below limit (decimal_of text.now) }
{
    let number = number_of(text)?;
    if number < limit { Some(number) } else { None }
}

/// An offset, a length or a window.
#[tactic(auto, unfolding(crate::specs::Values::natural_of))]
pub(crate) fn natural_of(text: &str) -> Option<u32>
    ensures { result ≡ natural_of text.now }
{
    let number = number_below(0x8000_0000, text)?;
    Some(number as u32)
}

/// An offset at which a frame may begin.
fn offset_of(text: &str) -> Option<u32>
    ensures { result ≡ offset_of text.now }
{
    let number = natural_of(text)?;
    if number % 32 == 0 { Some(number) } else { None }
}

/// A signed number of 32 bits.
#[tactic(auto, unfolding(crate::specs::Values::signed_of))]
fn integer_of(text: &str) -> Option<i32>
    ensures { result ≡ signed_of (2 ^ 31) text.now }
{
    match text.strip_prefix("-") {
        Some(digits) => {
            let number = number_below(0x8000_0001, digits)?;
            Some((-(number as i64)) as i32)
        }
        None => {
            let number = number_below(0x8000_0000, text)?;
            Some(number as i32)
        }
    }
}

/// A signed number of 64 bits.
#[tactic(auto, unfolding(crate::specs::Values::signed_of))]
fn long_of(text: &str) -> Option<i64>
    ensures { result ≡ signed_of (2 ^ 63) text.now }
{
    match text.strip_prefix("-") {
        Some(digits) => {
            let number = number_below(0x8000_0000_0000_0001, digits)?;
            Some((-(number as i128)) as i64)
        }
        None => {
            let number = number_below(0x8000_0000_0000_0000, text)?;
            Some(number as i64)
        }
    }
}

/// An unsigned number of 64 bits.
pub(crate) fn number_at(key: Key, words: &[Text]) -> Result<u64, WordFault>
    ensures { result ≡ number_at key words.now }
{
    match given(key, words)? {
        Some(value) => number_of(value).ok_or(WordFault::BadValue(key)),
        None => Err(WordFault::Missing(key)),
    }
}

/// An unsigned number of 64 bits that need not be given.
pub(crate) fn number_or(key: Key, default: u64, words: &[Text]) -> Result<u64, WordFault>
    ensures { result ≡ number_or key default words.now }
{
    match given(key, words)? {
        Some(value) => number_of(value).ok_or(WordFault::BadValue(key)),
        None => Ok(default),
    }
}

/// A length or a window.
pub(crate) fn natural_at(key: Key, words: &[Text]) -> Result<u32, WordFault>
    ensures { result ≡ natural_at key words.now }
{
    match given(key, words)? {
        Some(value) => natural_of(value).ok_or(WordFault::BadValue(key)),
        None => Err(WordFault::Missing(key)),
    }
}

/// An offset of any alignment that need not be given.
pub(crate) fn natural_or(key: Key, default: u32, words: &[Text]) -> Result<u32, WordFault>
    ensures { result ≡ natural_or key default words.now }
{
    match given(key, words)? {
        Some(value) => natural_of(value).ok_or(WordFault::BadValue(key)),
        None => Ok(default),
    }
}

/// An offset at which a frame may begin, that need not be given.
pub(crate) fn offset_or(key: Key, default: u32, words: &[Text]) -> Result<u32, WordFault>
    ensures { result ≡ offset_or key default words.now }
{
    match given(key, words)? {
        Some(value) => offset_of(value).ok_or(WordFault::BadValue(key)),
        None => Ok(default),
    }
}

/// A signed number of 32 bits.
pub(crate) fn integer_at(key: Key, words: &[Text]) -> Result<i32, WordFault>
    ensures { result ≡ integer_at key words.now }
{
    match given(key, words)? {
        Some(value) => integer_of(value).ok_or(WordFault::BadValue(key)),
        None => Err(WordFault::Missing(key)),
    }
}

/// A signed number of 32 bits that need not be given.
pub(crate) fn integer_or(key: Key, default: i32, words: &[Text]) -> Result<i32, WordFault>
    ensures { result ≡ integer_or key default words.now }
{
    match given(key, words)? {
        Some(value) => integer_of(value).ok_or(WordFault::BadValue(key)),
        None => Ok(default),
    }
}

/// A signed number of 64 bits.
pub(crate) fn long_at(key: Key, words: &[Text]) -> Result<i64, WordFault>
    ensures { result ≡ long_at key words.now }
{
    match given(key, words)? {
        Some(value) => long_of(value).ok_or(WordFault::BadValue(key)),
        None => Err(WordFault::Missing(key)),
    }
}

/// Bytes in hexadecimal.
fn bytes_in(alloc: Global, key: Key, value: &str) -> Result<Bytes, WordFault>
    ensures { Gives result (bytes_in key value.now) }
{
    match hex::decode(alloc, value.as_bytes()) {
        Ok(bytes) => Ok(Bytes::from(bytes)),
        Err(FromHexError::OutOfMemory) => Err(WordFault::NoMemory),
        Err(_) => Err(WordFault::BadValue(key)),
    }
}

/// Bytes of which there are at most so many.
fn within(most: usize, key: Key, bytes: Bytes) -> Result<Bytes, WordFault>
    ensures exact { result ≡ within most key bytes }
    ensures few { IfOk result (λ bytes. length bytes ≤ most) }
{
    if bytes.len() > most {
        Err(WordFault::BadValue(key))
    } else {
        Ok(bytes)
    }
}

/// At most so many bytes, none where they are not given.
pub(crate) fn bytes_at(
    alloc: Global,
    most: usize,
    key: Key,
    words: &[Text],
) -> Result<Bytes, WordFault>
    ensures exact { Gives result (bytes_at most key words.now) }
    ensures few { IfOk result (λ bytes. length bytes ≤ most) }
{
    match given(key, words)? {
        Some(value) => {
            let bytes = bytes_in(alloc, key, value)?;
            within(most, key, bytes)
        }
        None => Ok(Bytes::from(Vec::new(alloc))),
    }
}

/// The flags that a byte is.
fn one_byte(key: Key, bytes: &[u8]) -> Result<Flags, WordFault>
    ensures { result ≡ one_byte key bytes.now }
{
    match bytes {
        [bits] => Ok(Flags { bits: *bits }),
        _ => Err(WordFault::BadValue(key)),
    }
}

/// Flags that need not be given.
pub(crate) fn flags_at(
    alloc: Global,
    key: Key,
    default: Flags,
    words: &[Text],
) -> Result<Flags, WordFault>
    ensures { Gives result (flags_at key default words.now) }
{
    match given(key, words)? {
        Some(value) => {
            let bytes = bytes_in(alloc, key, value)?;
            one_byte(key, bytes.as_slice())
        }
        None => Ok(default),
    }
}

fn is_ascii(bytes: &[u8]) -> bool
    ensures { result ≡ list_all is_ascii bytes.now }
{
    bytes.iter().all(u8::is_ascii)
}

/// The bytes as a text, if all of them are ASCII.
#[tactic(auto, using(crate::proofs::Ascii::is_utf8_if_ascii))]
fn ascii_text(bytes: &[u8]) -> Option<&str>
    ensures { option_copied result ≡ (if list_all is_ascii bytes.now then Some bytes.now else None) }
{
    if !is_ascii(bytes) {
        return None;
    }
    match str::from_utf8(bytes) {
        Ok(text) => Some(text),
        Err(_) => None,
    }
}

/// A text of ASCII, of at most so many bytes.
fn ascii_within(alloc: Global, most: usize, key: Key, bytes: &[u8]) -> Result<Text, WordFault>
    ensures exact { Gives result (ascii_within most key bytes.now) }
    ensures few { IfOk result (λ text. length text ≤ most) }
{
    match ascii_text(bytes) {
        Some(text) => {
            if text.len() > most {
                return Err(WordFault::BadValue(key));
            }
            Ok(Text::new(alloc, text)?)
        }
        None => Err(WordFault::BadValue(key)),
    }
}

/// A text in hexadecimal.
fn hex_text(alloc: Global, most: usize, key: Key, value: &str) -> Result<Text, WordFault>
    ensures exact { Gives result (hex_text_in most key value.now) }
    ensures few { IfOk result (λ text. length text ≤ most) }
{
    let bytes = bytes_in(alloc, key, value)?;
    ascii_within(alloc, most, key, bytes.as_slice())
}

/// A text of at most so many bytes, as it is or in hexadecimal.
pub(crate) fn text_at(
    alloc: Global,
    most: usize,
    key: Key,
    hex_key: Key,
    words: &[Text],
) -> Result<Text, WordFault>
    ensures exact { Gives result (text_at most key hex_key words.now) }
    ensures few { IfOk result (λ text. length text ≤ most) }
{
    let text = given(key, words)?;
    let value = given(hex_key, words)?;
    match (text, value) {
        (None, None) => Err(WordFault::Missing(key)),
        (Some(text), None) => ascii_within(alloc, most, key, text.as_bytes()),
        (None, Some(value)) => hex_text(alloc, most, hex_key, value),
        (Some(_), Some(_)) => Err(WordFault::Twice(key)),
    }
}

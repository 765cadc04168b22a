//! What stands in a policy's text, as it is shown on a line.

use byte_strings::Text;
use std::alloc::{AllocError, Global};
use toml::Value;

/// Adds the character of this number, of 8 bits at most, as a TOML string has it by its number.
fn push_code(line: &mut String, code: u32) -> Result<(), AllocError> {
    line.push_str("\\u00")?;
    line.push(char::from_digit(code / 16 % 16, 16).unwrap_or('0'))?;
    line.push(char::from_digit(code % 16, 16).unwrap_or('0'))
}

/// Adds the character to a TOML string on one line.
fn push_quoted(line: &mut String, c: char) -> Result<(), AllocError> {
    match c {
        '"' => line.push_str("\\\""),
        '\\' => line.push_str("\\\\"),
        '\n' => line.push_str("\\n"),
        '\r' => line.push_str("\\r"),
        '\t' => line.push_str("\\t"),
        c if c.is_ascii_control() => push_code(line, c as u32),
        c => line.push(c),
    }
}

/// The text as a TOML string on one line.
fn quoted(alloc: Global, text: &str) -> Result<String, AllocError> {
    let mut line = String::new(alloc);
    line.push('"')?;
    for c in text.chars() {
        push_quoted(&mut line, c)?;
    }
    line.push('"')?;
    Ok(line)
}

/// Whether a text has more lines than one.
fn breaks_lines(text: &str) -> bool {
    text.bytes().any(|byte| byte == b'\n' || byte == b'\r')
}

/// The text on one line, each line break as it stands in a string.
fn joined(alloc: Global, text: String) -> Result<String, AllocError> {
    if !breaks_lines(text.as_str()) {
        return Ok(text);
    }
    let mut line = String::new(alloc);
    for c in text.as_str().chars() {
        match c {
            '\n' => line.push_str("\\n")?,
            '\r' => line.push_str("\\r")?,
            c => line.push(c)?,
        }
    }
    Ok(line)
}

/// The value on one line.
fn on_one_line(alloc: Global, value: &Value) -> Result<String, AllocError> {
    match value.as_str() {
        Some(text) if breaks_lines(text) => quoted(alloc, text),
        _ => joined(alloc, format!(in alloc; "{value}")?),
    }
}

/// The key on one line.
pub(crate) fn shown_key(alloc: Global, key: &str) -> Result<Text, AllocError> {
    if breaks_lines(key) {
        return Ok(Text::from(quoted(alloc, key)?));
    }
    Text::new(alloc, key)
}

/// The value as it may stand in a text, cut where it is long.
pub(crate) fn shown(alloc: Global, value: &Value) -> Result<Text, AllocError> {
    let whole = on_one_line(alloc, value)?;
    if whole.len() <= 100 {
        return Ok(Text::from(whole));
    }
    let mut short = String::new(alloc);
    for c in whole.as_str().chars().take(80) {
        short.push(c)?;
    }
    short.push_str(" ..")?;
    Ok(Text::from(short))
}

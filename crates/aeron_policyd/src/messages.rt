//! What is asked of a command, a reply or a datagram, answered by `message_words`.

use crate::fault::Fault;
use crate::print_text;
use byte_strings::Text;
use command_line::Messages;
use message_words::{Reading, decode, encode};
use program_parts::Machine;
use std::alloc::{AllocError, Global};
use std::process::ExitCode;

/// Words as texts of their own.
fn texts_of(alloc: Global, words: &[&str]) -> Result<Vec<Text>, AllocError> {
    let mut texts = Vec::new(alloc);
    for word in words {
        texts.push(Text::new(alloc, word)?)?;
    }
    Ok(texts)
}

/// The line that gives the hexadecimal of what words denote.
fn encoded(alloc: Global, words: &[&str]) -> Result<String, Fault> {
    let words = texts_of(alloc, words)?;
    let hex = encode(alloc, words.as_slice())?;
    Ok(format!(in alloc; "{hex}\n")?)
}

/// The words of what hexadecimal is.
fn decoded(alloc: Global, kind: &str, hex: &str) -> Result<Text, Fault> {
    let Some(reading) = Reading::from_text(kind) else {
        return Err(Fault::UnknownKind);
    };
    Ok(decode(alloc, reading, hex)?)
}

/// Answers what is asked of a message.
pub(crate) fn answer_messages<R: Machine>(rt: &R, asked: Messages<'_>) -> Result<ExitCode, Fault> {
    match asked {
        Messages::Encode(words) => print_text(rt, encoded(rt.alloc(), words)?.as_str()),
        Messages::Decode { kind, hex } => print_text(rt, decoded(rt.alloc(), kind, hex)?.as_str()),
    }
}

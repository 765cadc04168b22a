//! Commands and datagrams in words: the hexadecimal of a command or a datagram that words denote, and the words of bytes.
#![tactic(auto)]

mod commands;
mod datagrams;
mod decoding;
mod fault;
mod frames;
mod given;
mod hexadecimal;
mod key;
mod laws;
mod message;
mod name;
mod replies;
mod sending;
mod shown;
mod values;

pub use datagrams::datagram_lines;
pub use decoding::{DecodeFault, Reading, decode};
pub use fault::WordFault;
pub use frames::{Beat, DataFrame, Pad, Sending};
pub use key::Key;
pub use laws::{
    what_is_encoded_is_decoded, words_denote_sound_messages, words_denote_their_message,
};
pub use message::{Message, encode};
pub use name::{CommandName, FrameName, Name};
pub use replies::reply_line;
pub use shown::command_line;

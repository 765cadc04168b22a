//! The records that a driver which serves and its clients exchange over a stream of bytes, as values and as bytes.
//!
//! A record stands after its length. The client sends requests and the driver answers; each record begins with its kind.
//! What follows the fields of a record is its tail: the bytes of a command, of a message, of a reply or of a text.
#![tactic(auto)]

mod answer;
mod fault;
mod fields;
mod framing;
mod laws;
mod pairs;
mod request;

pub use answer::Answer;
pub use fault::RecordFault;
pub use framing::{Cut, LONGEST, first_record};
pub use laws::{
    answers_read_back, answers_write_back, pairs_read_back, pairs_write_back,
    records_are_cut_again, requests_read_back, requests_write_back,
};
pub use pairs::{FirstPair, Pair, first_pair};
pub use request::Request;

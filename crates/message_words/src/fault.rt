ghost use Rattle.message_words.specs.Fault.{word_fault_text};
ghost use Rattle.message_words.specs.declared.fault.WordFault.TheVariants.{NoMemory};
ghost use Rattle.std.specs.Prelude.{◌≡◌, Some};

use crate::key::Key;
use std::alloc::AllocError;
use std::error::Error;
use std::fmt;

/// Why words are no command and no datagram.
#[derive(Clone, Copy, Debug, PartialEq, Eq)]
pub enum WordFault {
    /// There is no word.
    NoName,
    /// No command and no datagram has the name that the first word is.
    UnknownName,
    /// The word at this place, counted from 1 after the name, gives no value to a key of that name.
    UnknownWord(usize),
    /// A key is given twice; or both as a text and in hexadecimal.
    Twice(Key),
    /// A key that has no value of its own is not given.
    Missing(Key),
    /// What a key is given is no value of it.
    BadValue(Key),
    NoMemory,
}

impl From<AllocError> for WordFault {
    ghost from_gives = { λ _ fault. fault ≡ NoMemory };

    fn from(_error: AllocError) -> WordFault {
        WordFault::NoMemory
    }
}

impl fmt::Display for WordFault {
    ghost output = { λ fault. Some (word_fault_text fault) };

    fn fmt<W: fmt::Write>(&self, f: &mut fmt::Formatter<W>) -> fmt::Result {
        match self {
            WordFault::NoName => f.write_str("no name"),
            WordFault::UnknownName => f.write_str("unknown command or datagram"),
            WordFault::UnknownWord(at) => {
                let at = *at;
                write!(f, "word {at} after the name: unknown key")
            }
            WordFault::Twice(key) => {
                let key = *key;
                write!(f, "{key} is given twice")
            }
            WordFault::Missing(key) => {
                let key = *key;
                write!(f, "{key} is missing")
            }
            WordFault::BadValue(key) => {
                let key = *key;
                write!(f, "{key} has a bad value")
            }
            WordFault::NoMemory => f.write_str("no memory"),
        }
    }
}

impl Error for WordFault {}

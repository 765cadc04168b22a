ghost use Rattle.channel_uri.specs.Fault.{fault_text};
ghost use Rattle.std.specs.Prelude.{Some};

use crate::key::Key;
use std::error::Error;
use std::fmt;

/// Why a text is no channel, or no pattern.
///
/// The length is looked at first; then the first fault of the syntax from the left is named, and then the first value that
/// is kept and is bad, in the byte order of the keys.
#[derive(Clone, Copy, Debug, PartialEq, Eq)]
pub enum UriError {
    /// The text has more than 1,024 bytes.
    TooLong,
    /// The text does not begin with `aeron:`, or with `aeron-spy:aeron:`.
    NoScheme,
    /// What follows the scheme is no medium that is served here, or a spy is asked for over `ipc`.
    BadMedia,
    /// A pair has no key before its `=`, or is empty.
    EmptyKey,
    /// A pair has no `=`.
    KeyWithoutValue,
    /// The value of the key breaks the key's rule.
    BadValue(Key),
    /// The key, or this value of it, is not served here.
    NotServed(Key),
}

impl fmt::Display for UriError {
    ghost output = { λ error. Some (fault_text error) };

    fn fmt<W: fmt::Write>(&self, f: &mut fmt::Formatter<W>) -> fmt::Result {
        match self {
            UriError::TooLong => f.write_str("longer than 1,024 bytes"),
            UriError::NoScheme => f.write_str("no scheme aeron:"),
            UriError::BadMedia => f.write_str("bad media"),
            UriError::EmptyKey => f.write_str("empty key"),
            UriError::KeyWithoutValue => f.write_str("key without value"),
            UriError::BadValue(key) => write!(f, "bad value of {key}"),
            UriError::NotServed(key) => write!(f, "not served: {key}"),
        }
    }
}

impl Error for UriError {}

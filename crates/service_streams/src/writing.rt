//! Bytes that are written whole, or as far as a stream takes them.

ghost use Rattle.service_streams.specs.Streams.{AppendsFront};
ghost use Rattle.std.specs.Io.KnownBytes.{Appends};
ghost use Rattle.std.specs.Prelude.{◌≡◌, true};

use std::io::{ErrorKind, Write};

/// Writes the bytes: whether the stream took all of them.
pub(crate) fn write_whole<T: Write>(stream: &mut T, bytes: &[u8]) -> bool
    ensures whole { result ≡ true → Appends (T.contents stream.old) (T.contents stream.new) bytes.now }
    ensures front { AppendsFront (T.contents stream.old) (T.contents stream.new) bytes.now }
{
    let mut rest = bytes;
    'pieces: for _ in 0..u64::MAX {
        if rest.is_empty() {
            return true;
        }
        match stream.write(rest) {
            Ok(0) => return false,
            Ok(count) => rest = rest.split_at(count).1,
            Err(error) if error.kind() == ErrorKind::Interrupted => {}
            Err(_) => return false,
        }
    }
    false
}

ghost use Rattle.std.specs.Io.{ReadsAtMost, WritesAtMost};
ghost use Rattle.std.specs.Io.KnownBytes.{ReadConsumes, WriteAppends};
ghost use Rattle.std.specs.Prelude.{◌≡◌, ◌<◌, Bool, true, false, IfOk, OnErr, length};

use std::io;
use std::io::{Read, Sink, Write};

/// A reader of which it may be known that it never fails.
pub trait Source: Read {
    /// Whether a read may fail.
    ghost may_fail: { Bool };

    /// Reads as [`Read::read`] does.
    ///
    /// # Errors
    /// Those of the reader, which has none where it never fails.
    fn fetch(&mut self, buf: &mut [u8]) -> io::Result<usize>
        ensures bound { ReadsAtMost result buf.new }
        ensures bytes { ReadConsumes (Self.remaining self.old) (Self.remaining self.new) result buf.new }
        ensures fails { OnErr result (may_fail ≡ true) };
}

/// A writer of which it may be known that it never fails.
pub trait Target: Write {
    /// Whether a write may fail, or take nothing.
    ghost may_fail: { Bool };

    /// Writes as [`Write::write`] does.
    ///
    /// # Errors
    /// Those of the writer, which has none where it never fails.
    fn put(&mut self, bytes: &[u8]) -> io::Result<usize>
        ensures bound { WritesAtMost result bytes.now }
        ensures bytes { WriteAppends (Self.contents self.old) (Self.contents self.new) result bytes.now }
        ensures fails { OnErr result (may_fail ≡ true) }
        ensures none { IfOk result (λ count. count ≡ 0 → 0 < length bytes.now → may_fail ≡ true) };
}

/// Bytes in memory are read without fail.
impl Source for &[u8] {
    ghost may_fail = { false };

    fn fetch(&mut self, buf: &mut [u8]) -> io::Result<usize> {
        self.read(buf)
    }
}

/// Where nothing is kept, writing never fails.
impl Target for Sink {
    ghost may_fail = { false };

    fn put(&mut self, bytes: &[u8]) -> io::Result<usize> {
        self.write(bytes)
    }
}

/// Any reader or writer, as a file, that may fail.
#[derive(Drop)]
pub struct MayFail<T>(pub T);

impl<R: Read> Read for MayFail<R> {
    ghost remaining = { λ reader. R.remaining reader.0 };

    fn read(&mut self, buf: &mut [u8]) -> io::Result<usize> {
        self.0.read(buf)
    }
}

impl<R: Read> Source for MayFail<R> {
    ghost may_fail = { true };

    fn fetch(&mut self, buf: &mut [u8]) -> io::Result<usize> {
        self.0.read(buf)
    }
}

impl<W: Write> Write for MayFail<W> {
    ghost contents = { λ writer. W.contents writer.0 };

    fn write(&mut self, buf: &[u8]) -> io::Result<usize> {
        self.0.write(buf)
    }

    fn flush(&mut self) -> io::Result<()> {
        self.0.flush()
    }
}

impl<W: Write> Target for MayFail<W> {
    ghost may_fail = { true };

    fn put(&mut self, bytes: &[u8]) -> io::Result<usize> {
        self.0.write(bytes)
    }
}

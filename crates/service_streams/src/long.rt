//! Records that take much memory while they are not whole.

ghost use Rattle.service_streams.specs.Long.{long_of};
ghost use Rattle.std.specs.Prelude.{◌≡◌};

use byteorder::{ByteOrder, LittleEndian};

/// What is longer than so many bytes is a long record. The room that it took is given back once it is answered.
pub(crate) const LONG: usize = 524_288;

/// The memory for long records, which several connections share.
pub trait LongRecords {
    /// Waits until a record of so many bytes may be read. Whether it may: not where the other end is gone, or the driver stops.
    fn begin_long(&mut self, bytes: u64) -> bool;

    /// That record was answered.
    fn end_long(&mut self);
}

/// How many bytes the record takes with which these begin, with its length field, where it is a long one; else 0.
pub(crate) fn long_in(bytes: &[u8]) -> u64
    ensures { result ≡ long_of bytes.now }
{
    if bytes.len() < 4 {
        return 0;
    }
    let size = LittleEndian::read_u32(bytes);
    if size as usize > LONG {
        u64::from(size) + 4
    } else {
        0
    }
}

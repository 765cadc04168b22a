//! Three term buffers in one lease.

ghost use Rattle.frame_codec.specs.Frame.{data_bytes, pad_bytes, padded};
ghost use Rattle.log_arena.specs.Lease.{lease_bytes, lease_home, lease_len, lease_place};
ghost use Rattle.std.specs.Prelude.{◌≡◌, ℕ, ◌+◌, ◌*◌, ◌<◌, ◌≤◌, ◌++◌, length, max, take, drop, replicate, true, if◌then◌else◌};
ghost use Rattle.term_log.specs.Buffers.{Buffers, IsBase, settled, turned, written};

use frame_codec::{Flags, Header, TermPlace, padded_length, write_data, write_pad};
use log_arena::Lease;
use std::marker::Model;

/// Three buffers of a term each, in one lease. The oldest is used again as a new term begins. What it has of its old term is
/// written over, frame by frame, or cleared where a pad covers it, so that no term is ever cleared whole.
///
/// Contracts see the bytes of the three terms in the order of their positions, the newest term last, and zeros in place of
/// what the newest term's buffer has left of the old one.
#[derive(Drop)]
pub(crate) struct TermBuffers {
    lease: Lease,
    /// How many bytes a term has.
    term_length: usize,
    /// Where the buffer of the newest term ends in the lease; after it stands the oldest, if not at the front.
    end: usize,
    /// How many bytes at the front of the newest term's buffer are as contracts see them. All after them count as zeros.
    filled: usize,
}

impl Model for TermBuffers {
    ghost use Rattle.term_log.specs.Buffers.{Filled, filled_code};

    ghost Value = { Filled };

    ghost coded = { filled_code };

    ghost use Rattle.term_log.specs.Turning.{IsTurn, buffers_of};

    ghost view = { buffers_of };

    ghost invariant = { IsTurn };
}

/// Writes a data frame at a place, and leaves all else as it is.
fn write_part(bytes: &mut [u8], at: usize, flags: Flags, place: &TermPlace, payload: &[u8])
    requires { at + padded (32 + length payload.now) ≤ length bytes.old }
    ensures { bytes.new ≡ written at (data_bytes flags place.now payload.now) bytes.old }
{
    write_data(&mut bytes[at..], flags, place, payload);
}

/// Writes the header of a pad at a place, and leaves all else as it is.
fn write_padding(bytes: &mut [u8], at: usize, flags: Flags, place: &TermPlace, size: u32)
    requires { at + 32 ≤ length bytes.old }
    ensures { bytes.new ≡ written at (pad_bytes flags place.now size) bytes.old }
{
    write_pad(&mut bytes[at..], flags, place, size);
}

/// Clears some bytes, and leaves all others as they are.
fn clear(bytes: &mut [u8], at: usize, count: usize)
    requires { at + count ≤ length bytes.old }
    ensures { bytes.new ≡ written at (replicate count 0) bytes.old }
{
    bytes[at..at + count].fill(0);
}

impl TermBuffers {
    /// The buffers of a log that begins, with the newest term in the first of them, which is all zeros.
    pub(crate) fn new(lease: Lease, term_length: u32) -> TermBuffers
        requires len { lease_len lease ≡ 3 * term_length }
        requires zeros { lease_bytes lease ≡ replicate (3 * term_length) 0 }
        ensures { result ≡ record {
          seen
              = record {
                home = lease_home lease;
                place = lease_place lease;
                term_length = term_length;
                bytes = replicate (3 * term_length) 0;
              };
          filled = term_length;
        } }
    {
        TermBuffers {
            lease,
            term_length: term_length as usize,
            end: term_length as usize,
            filled: term_length as usize,
        }
    }

    /// Writes a data frame into the newest term.
    pub(crate) fn put_data(
        &mut self,
        offset: usize,
        flags: Flags,
        place: &TermPlace,
        payload: &[u8],
    )
        requires within { offset + padded (32 + length payload.now) ≤ self.old.seen.term_length }
        requires behind { offset ≤ self.old.filled }
        ensures { self.new ≡ record {
          seen
              = record self.old.seen {
                bytes
                    = written (2 * self.old.seen.term_length + offset) (data_bytes flags place.now payload.now) self.old.seen.bytes;
              };
          filled = max self.old.filled (offset + padded (32 + length payload.now));
        } }
    {
        let at = self.end - self.term_length + offset;
        write_part(self.lease.bytes_mut(), at, flags, place, payload);
        let size = padded_length((Header::SIZE + payload.len()) as u32) as usize;
        self.filled = self.filled.max(offset + size);
    }

    /// Writes a pad into the newest term: its header alone, whatever it covers.
    pub(crate) fn put_pad(&mut self, offset: usize, flags: Flags, place: &TermPlace, size: u32)
        requires within { offset + 32 ≤ self.old.seen.term_length }
        requires behind { offset ≤ self.old.filled }
        ensures { self.new ≡ record {
          seen
              = record self.old.seen {
                bytes
                    = written (2 * self.old.seen.term_length + offset) (pad_bytes flags place.now size) self.old.seen.bytes;
              };
          filled = max self.old.filled (offset + 32);
        } }
    {
        let at = self.end - self.term_length + offset;
        write_padding(self.lease.bytes_mut(), at, flags, place, size);
        self.filled = self.filled.max(offset + Header::SIZE);
    }

    /// The newest term is as it is seen up to there: what was not written of it yet is cleared.
    pub(crate) fn fill(&mut self, end: usize)
        requires { end ≤ self.old.seen.term_length }
        ensures { self.new ≡ record self.old { filled = max self.old.filled end } }
    {
        if end <= self.filled {
            return;
        }
        let at = self.end - self.term_length + self.filled;
        clear(self.lease.bytes_mut(), at, end - self.filled);
        self.filled = end;
    }

    /// A new term begins: in the buffer of the oldest, of which nothing is seen any more.
    fn turn(&mut self)
        requires { self.old.seen.term_length ≤ self.old.filled }
        ensures { self.new ≡ record {
          seen = record self.old.seen { bytes = turned self.old.seen.term_length self.old.seen.bytes };
          filled = 0;
        } }
    {
        let term_length = self.term_length;
        let end = if self.end == 3 * term_length {
            term_length
        } else {
            self.end + term_length
        };
        self.end = end;
        self.filled = 0;
    }

    /// A new term begins, if the newest is full.
    pub(crate) fn settle(&mut self, full: bool)
        requires { full ≡ true → self.old.seen.term_length ≤ self.old.filled }
        ensures { self.new ≡ record {
          seen = record self.old.seen { bytes = settled self.old.seen.term_length full self.old.seen.bytes };
          filled = if full then 0 else self.old.filled;
        } }
    {
        if !full {
            return;
        }
        self.turn();
    }

    /// Some bytes of one term, of which the first stands at `base` among those of the three terms in their order. All of them
    /// are as they are seen.
    pub(crate) fn part(&self, base: usize, offset: usize, count: usize) -> &[u8]
        requires base { IsBase self.now.seen.term_length base }
        requires within { offset + count ≤ self.now.seen.term_length }
        requires filled { base + offset + count ≤ 2 * self.now.seen.term_length + self.now.filled }
        ensures bytes { result.now ≡ take count (drop (base + offset) self.now.seen.bytes) }
        ensures size { length result.now ≡ count }
    {
        let behind = 3 * self.term_length - self.end;
        let at = if base < behind {
            self.end + base + offset
        } else {
            base - behind + offset
        };
        let (_, rest) = self.lease.bytes().split_at(at);
        let (part, _) = rest.split_at(count);
        part
    }

    /// The lease, whatever its bytes are.
    pub(crate) fn into_lease(self) -> Lease
        ensures { (lease_home result ≡ self.seen.home) × (lease_place result ≡ self.seen.place)
            × (lease_len result ≡ 3 * self.seen.term_length) }
    {
        self.lease
    }
}

// All frames and bytes of a log in one list each, from position 0 on, laid out by hand.
ghost use Rattle.std.specs.Prelude.{◌<◌};

use std::alloc::Global;

/// A frame of a log.
#[derive(Clone, Copy, Debug)]
pub(crate) struct Row {
    pub(crate) position: u64,
    /// What its header says: of a data frame header and payload, of a pad all that it covers.
    pub(crate) length: u32,
    pub(crate) flags: u8,
    /// 0 of a pad, 1 of a data frame.
    pub(crate) kind: u8,
}

impl Row {
    /// How many bytes of it are sent.
    pub(crate) fn sent_size(&self) -> u64 {
        if self.kind == 0 {
            return 32;
        }
        (u64::from(self.length) + 31) / 32 * 32
    }
}

/// All frames of a log, and their bytes. The log starts at position 0, of session 7 and stream 1001, with terms of 64 KiB from
/// id 5 on and an MTU of 1408.
#[derive(Drop)]
pub(crate) struct Plain {
    pub(crate) bytes: Vec<u8>,
    pub(crate) rows: Vec<Row>,
}

impl Plain {
    pub(crate) fn new(alloc: Global) -> Plain {
        Plain {
            bytes: Vec::new(alloc),
            rows: Vec::new(alloc),
        }
    }

    /// The position after the last frame.
    pub(crate) fn tail(&self) -> u64 {
        self.bytes.len() as u64
    }

    // A header, with its length, flags and type. Whether it found memory, as below.
    fn put_header(&mut self, length: u32, flags: u8, kind: u8) -> bool {
        let tail = self.bytes.len() as u64;
        let offset = (tail % 65_536) as u32;
        let term = 5u32.wrapping_add((tail / 65_536 % 4_294_967_296) as u32);
        let mut header = [
            0, 0, 0, 0, 0, flags, kind, 0, 0, 0, 0, 0, 7, 0, 0, 0, 233, 3, 0, 0, 0, 0, 0, 0, 0, 0,
            0, 0, 0, 0, 0, 0,
        ];
        header[..4].copy_from_slice(&length.to_le_bytes());
        header[8..12].copy_from_slice(&offset.to_le_bytes());
        header[20..24].copy_from_slice(&term.to_le_bytes());
        let row = Row {
            position: tail,
            length,
            flags,
            kind,
        };
        self.rows.push(row).is_ok() && self.bytes.extend_from_slice(&header).is_ok()
    }

    // Zeros up to the next multiple of `size`.
    fn put_filling(&mut self, size: usize) -> bool
        requires { 0 < size }
    {
        let mut put = true;
        let over = self.bytes.len() % size;
        if over != 0 {
            for _ in over..size {
                put &= self.bytes.push(0).is_ok();
            }
        }
        put
    }

    // A frame of this length with its bytes, and its filling.
    fn put_frame(&mut self, part: &[u8], length: u32, flags: u8) -> bool {
        self.put_header(length, flags, 1)
            && self.bytes.extend_from_slice(part).is_ok()
            && self.put_filling(32)
    }

    /// A message, cut into frames of at most 1376 bytes each.
    pub(crate) fn put_message(&mut self, message: &[u8]) -> bool {
        let mut put = true;
        let mut flags = 0x80;
        let last = message.len().saturating_sub(1) / 1376;
        let (front, rest) = message.split_at(last * 1376);
        for part in front.chunks(1376) {
            put &= self.put_frame(part, 1408, flags);
            flags = 0;
        }
        let length = (rest.len() as u32).wrapping_add(32);
        put && self.put_frame(rest, length, flags | 0x40)
    }

    /// A pad up to the end of the term.
    pub(crate) fn put_pad(&mut self) -> bool {
        let over = (self.bytes.len() % 65_536) as u32;
        self.put_header(65_536u32.wrapping_sub(over), 0xC0, 0) && self.put_filling(65_536)
    }
}

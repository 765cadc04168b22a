ghost use Rattle.std.specs.Prelude.{◌≡◌, []};

use std::alloc::Global;
use std::io;
use std::io::{Read, Write};

/// Gives this many line feeds, at most 3,000 at a time, and then fails or ends.
#[derive(Drop)]
pub struct LineFeeds {
    pub left: usize,
    pub fails: bool,
}

impl Read for LineFeeds {
    fn read(&mut self, buf: &mut [u8]) -> io::Result<usize> {
        if self.left == 0 && self.fails {
            return Err(io::ErrorKind::Other.into());
        }
        let count = self.left.min(buf.len()).min(3000);
        for byte in buf[..count].iter_mut() {
            *byte = b'\n';
        }
        self.left -= count;
        Ok(count)
    }
}

/// Takes at most three bytes at a time, and none, or a failure, once it holds this many.
#[derive(Drop)]
pub struct Choppy {
    pub taken: Vec<u8>,
    pub room: usize,
    pub fails: bool,
}

impl Choppy {
    pub fn new(alloc: Global, room: usize, fails: bool) -> Choppy
        ensures { (result.taken.items ≡ []) × (result.room ≡ room) × (result.fails ≡ fails) }
    {
        Choppy {
            taken: Vec::new(alloc),
            room,
            fails,
        }
    }
}

impl Write for Choppy {
    fn write(&mut self, buf: &[u8]) -> io::Result<usize> {
        let count = buf.len().min(3).min(self.room);
        if count == 0 && self.fails {
            return Err(io::ErrorKind::Other.into());
        }
        self.taken.extend_from_slice(&buf[..count])?;
        self.room -= count;
        Ok(count)
    }

    fn flush(&mut self) -> io::Result<()> {
        Ok(())
    }
}

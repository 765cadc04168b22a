//! Standard input, which a thread of its own reads, so that its reader never waits for it.

use crate::fault::PartFault;
use crate::machine::{Machine, pause_until};
use piped_messages::{Cut, LONGEST, first_message};
use rtrb::{Consumer, Producer, PushError, RingBuffer};
use std::alloc::{AllocError, Global};
use std::io::Read;
use std::mem::swap;
use std::sync::{Arc, Wait};
use std::thread;
use std::thread::Parker;
use std::time::Duration;

/// How many bytes are read at once, at most.
const CHUNK: usize = 65_536;

/// How many chunks are read ahead.
const AHEAD: usize = 4;

/// How long the reading thread sleeps where it is ahead, in microseconds.
const SLEEP: u64 = 200;

/// What is read.
#[derive(Drop)]
enum Chunk {
    Bytes(Vec<u8>),
    Ended,
    Failed,
    NoMemory,
}

/// The next chunk.
fn read_chunk<I: Read>(alloc: Global, reader: &mut I) -> Result<Chunk, AllocError> {
    let mut bytes = vec![in alloc; 0u8; CHUNK]?;
    match reader.read(bytes.as_mut_slice()) {
        Ok(0) => Ok(Chunk::Ended),
        Ok(count) => {
            bytes.truncate(count);
            Ok(Chunk::Bytes(bytes))
        }
        Err(_) => Ok(Chunk::Failed),
    }
}

/// Hands a chunk on, once there is room for it. Whether the other end is there.
fn hand_on<R: Machine>(rt: R, chunks: &mut Producer<Chunk, Global>, chunk: Chunk) -> bool {
    let mut chunk = chunk;
    for _ in rt.forever() {
        match chunks.push(chunk) {
            Ok(()) => return true,
            Err(PushError::Full(refused)) => chunk = refused,
        }
        if chunks.is_abandoned() {
            return false;
        }
        thread::sleep(&rt, Duration::from_micros(SLEEP));
    }
    unreachable!()
}

/// Reads standard input to its end. Who waits for it is woken by `bell`.
fn read_on<R: Machine>(rt: R, chunks: Producer<Chunk, Global>, bell: Arc<Parker>) {
    let mut chunks = chunks;
    let mut reader = rt.reader();
    for _ in rt.forever() {
        let chunk = match read_chunk(rt.alloc(), &mut reader) {
            Ok(chunk) => chunk,
            Err(_) => Chunk::NoMemory,
        };
        let goes_on = matches!(&chunk, Chunk::Bytes(_));
        let is_there = hand_on(rt, &mut chunks, chunk);
        bell.unpark();
        if !is_there || !goes_on {
            return;
        }
    }
    unreachable!()
}

/// Standard input, cut into messages.
#[derive(Drop)]
pub struct Input {
    chunks: Consumer<Chunk, Global>,
    /// What wakes who waits for more.
    bell: Arc<Parker>,
    by: Cut,
    /// What was read and is not done with: from `at` on.
    bytes: Vec<u8>,
    at: usize,
    /// Where what is left goes before more that comes. It and `bytes` change places, so that no bytes move within either.
    spare: Vec<u8>,
    ended: bool,
}

impl Input {
    /// Begins to read. The thread ends with the input, or with the program.
    pub fn open<R: Machine>(rt: R, by: Cut) -> Result<Input, PartFault> {
        let (producer, chunks) = RingBuffer::new(rt.alloc(), AHEAD)?;
        let bell = Arc::new(rt.alloc(), Parker::new())?;
        let theirs = Arc::try_clone(&bell)?;
        match thread::spawn(&rt, move || read_on(rt, producer, theirs)) {
            Ok(_) => Ok(Input {
                chunks,
                bell,
                by,
                bytes: Vec::new(rt.alloc()),
                at: 0,
                spare: Vec::new(rt.alloc()),
                ended: false,
            }),
            Err(_) => Err(PartFault::NoThread),
        }
    }

    /// What is read and not done with.
    fn left(&self) -> &[u8] {
        self.bytes.get(self.at..).unwrap_or(&[])
    }

    /// What is read and not done with, how it is cut into messages, and whether the input has ended.
    pub fn uncut(&self) -> (&[u8], Cut, bool) {
        (self.left(), self.by, self.ended)
    }

    /// The first message that is not done with, and how many bytes stand after it.
    pub fn message(&self) -> Option<(&[u8], usize)> {
        let (message, rest) = first_message(self.left(), self.by, self.ended)?;
        Some((message, rest.len()))
    }

    /// All but so many bytes are done with.
    pub fn pass(&mut self, rest: usize) {
        self.at = self.bytes.len().saturating_sub(rest);
    }

    /// Whether the input has ended. What is left then is a message.
    pub fn has_ended(&self) -> bool {
        self.ended
    }

    /// What is done with is let go.
    fn settle(&mut self) -> Result<(), PartFault> {
        if self.at == 0 {
            return Ok(());
        }
        self.spare.clear();
        let left = self.bytes.get(self.at..).unwrap_or(&[]);
        self.spare.extend_from_slice(left)?;
        swap(&mut self.bytes, &mut self.spare);
        self.at = 0;
        Ok(())
    }

    /// More bytes come after those that are left.
    fn append(&mut self, more: &[u8]) -> Result<(), PartFault> {
        let left = self.left().len();
        if left > LONGEST {
            return Err(PartFault::TooLong);
        }
        self.settle()?;
        self.bytes.extend_from_slice(more)?;
        Ok(())
    }

    /// Takes what was read meanwhile. Whether there was anything.
    pub fn take(&mut self) -> Result<bool, PartFault> {
        match self.chunks.pop() {
            Ok(Chunk::Bytes(more)) => {
                self.append(more.as_slice())?;
                Ok(true)
            }
            Ok(Chunk::Ended) => {
                self.ended = true;
                Ok(true)
            }
            Ok(Chunk::Failed) => Err(PartFault::Read),
            Ok(Chunk::NoMemory) => Err(PartFault::NoMemory),
            Err(_) => Ok(false),
        }
    }

    /// A wait for more of it goes on, as by [`pause_until`].
    pub fn pause<R: Wait>(&self, rt: &R, waited: u32) {
        pause_until(rt, &self.bell, waited);
    }
}

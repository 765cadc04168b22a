//! Standard output, to which a thread of its own writes, so that whoever has lines for it never waits for it.

use program_parts::{Machine, PartFault, SECOND, pause_until};
use rtrb::{Consumer, Producer, PushError, RingBuffer};
use std::alloc::Global;
use std::io::Write;
use std::sync::Arc;
use std::sync::atomic::{AtomicBool, AtomicU64, Ordering};
use std::thread::Parker;
use std::{io, thread};

/// How many chunks wait at most.
const AHEAD: usize = 4;

/// How many bytes are written at once, at most.
const PIECE: usize = 16_384;

/// How far the writing thread is, and what wakes it.
#[derive(Drop)]
struct Written {
    bell: Parker,
    /// How many bytes standard output took.
    bytes: AtomicU64,
    /// Whether it takes no more.
    failed: AtomicBool,
}

impl Written {
    fn new() -> Written {
        Written {
            bell: Parker::new(),
            bytes: AtomicU64::new(0),
            failed: AtomicBool::new(false),
        }
    }
}

/// Writes a chunk, piece by piece. Whether standard output took it.
fn write_chunk<R: Machine>(rt: &R, chunk: &[u8], written: &Written) -> bool {
    for piece in chunk.chunks(PIECE) {
        if io::writer(rt).write_all(piece).is_err() {
            written.failed.store(true, Ordering::SeqCst);
            return false;
        }
        written
            .bytes
            .fetch_add(piece.len() as u64, Ordering::SeqCst);
    }
    true
}

/// Writes what comes, until the other end is gone or standard output takes no more.
fn write_on<R: Machine>(rt: R, chunks: Consumer<Vec<u8>, Global>, written: Arc<Written>) {
    let mut chunks = chunks;
    let mut idle = 0u32;
    for _ in rt.forever() {
        match chunks.pop() {
            Ok(chunk) => {
                idle = 0;
                if !write_chunk(&rt, chunk.as_slice(), &written) {
                    return;
                }
            }
            Err(_) if chunks.is_abandoned() => return,
            Err(_) => {
                pause_until(&rt, &written.bell, idle);
                idle = idle.saturating_add(1);
            }
        }
    }
    unreachable!()
}

/// Standard output.
#[derive(Drop)]
pub struct Output {
    chunks: Producer<Vec<u8>, Global>,
    written: Arc<Written>,
    /// How many bytes were handed on.
    handed: u64,
    /// How many of them were written when it was looked at last, and since when they are so many.
    seen: u64,
    since: u64,
    /// After how long in which it takes nothing that is said, in nanoseconds, and whether it was.
    wait: u64,
    said: bool,
}

impl Output {
    /// Begins to write. The thread ends with this value, once all is written.
    pub fn open<R: Machine>(rt: R, now: u64, wait: u64) -> Result<Output, PartFault> {
        let (chunks, consumer) = RingBuffer::new(rt.alloc(), AHEAD)?;
        let written = Arc::new(rt.alloc(), Written::new())?;
        let theirs = Arc::try_clone(&written)?;
        match thread::spawn(&rt, move || write_on(rt, consumer, theirs)) {
            Ok(_) => Ok(Output {
                chunks,
                written,
                handed: 0,
                seen: 0,
                since: now,
                wait,
                said: false,
            }),
            Err(_) => Err(PartFault::NoThread),
        }
    }

    /// Hands a chunk on. It is given back where there is no room for it.
    pub fn hand_on(&mut self, chunk: Vec<u8>) -> Option<Vec<u8>> {
        let length = chunk.len() as u64;
        match self.chunks.push(chunk) {
            Ok(()) => {
                self.written.bell.unpark();
                self.handed = self.handed.saturating_add(length);
                None
            }
            Err(PushError::Full(chunk)) => Some(chunk),
        }
    }

    /// Whether all that was handed on is written.
    pub fn is_done(&self) -> bool {
        self.written.bytes.load(Ordering::SeqCst) >= self.handed
    }

    /// For how long it took nothing of what it has, in nanoseconds.
    fn silence(&mut self, now: u64) -> u64 {
        let written = self.written.bytes.load(Ordering::SeqCst);
        if written != self.seen || written >= self.handed {
            self.seen = written;
            self.since = now;
            self.said = false;
        }
        now.saturating_sub(self.since)
    }

    /// A word says it once where standard output took nothing for so long. Whether that is so.
    ///
    /// # Errors
    /// Where it can't be written to any more.
    pub fn watch<R: Machine>(&mut self, rt: &R, now: u64) -> Result<bool, PartFault> {
        if self.written.failed.load(Ordering::SeqCst) {
            return Err(PartFault::Write);
        }
        if self.silence(now) <= self.wait {
            return Ok(false);
        }
        if !self.said {
            self.said = true;
            let seconds = self.wait / SECOND;
            let _ = eprintln!(rt; "standard output took nothing for {seconds} s");
        }
        Ok(true)
    }
}

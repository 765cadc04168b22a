//! A connection to a driver that serves: requests go over a Unix socket, and answers come.

ghost use Rattle.service_records.specs.Request.{request_bytes};
ghost use Rattle.std.specs.Prelude.{◌≡◌, ◌++◌, OnOk};

use crate::fault::RemoteFault;
use program_parts::Disk;
use service_records::{Answer, Request, first_record};
use std::alloc::Global;
use std::fs;
use std::io::{self, ErrorKind, Read, Write};
use std::mem::swap;
use std::os::unix::fs::MetadataExt;
use std::os::unix::net::UnixStream;
use std::time::Duration;

/// How many bytes are read at once, at most.
const CHUNK: usize = 262_144;

/// How long an answer may take, in seconds.
pub(crate) const PATIENCE: u64 = 30;

/// What came and was not read as records, from `at` on. The tail of the last record stands in front of that, from `tail_at` on.
#[derive(Drop)]
struct Incoming {
    bytes: Vec<u8>,
    at: usize,
    tail_at: usize,
    /// Where what is left goes before more that comes. It and `bytes` change places, so that no bytes move within either.
    spare: Vec<u8>,
    chunk: Vec<u8>,
}

/// A connection to a driver that serves.
#[derive(Drop)]
pub(crate) struct Remote {
    pub(crate) alloc: Global,
    stream: UnixStream,
    /// The requests that go with the next ones.
    pub(crate) out: Vec<u8>,
    incoming: Incoming,
    /// The client's id, by which commands name it.
    pub(crate) client: u64,
    /// The correlation id of the last command.
    pub(crate) correlation: u64,
}

/// The code with which a driver that stops lets a client go.
const STOPPED: i32 = 1010;

/// Why the system let nobody connect there.
fn unconnected<F: Disk>(files: &F, path: &str, error: &io::Error) -> RemoteFault {
    if error.kind() != ErrorKind::PermissionDenied {
        return RemoteFault::NoDriver;
    }
    match fs::metadata(files, path) {
        Ok(found) => RemoteFault::NotOurs(found.uid()),
        Err(_) => RemoteFault::Unseen,
    }
}

/// Connects, and lets no answer take too long.
fn connected<F: Disk>(files: &F, path: &str) -> Result<UnixStream, RemoteFault> {
    let stream = match UnixStream::connect(files, path) {
        Ok(stream) => stream,
        Err(error) => return Err(unconnected(files, path, &error)),
    };
    match stream.set_read_timeout(Some(Duration::from_secs(PATIENCE))) {
        Ok(()) => Ok(stream),
        Err(_) => Err(RemoteFault::NoDriver),
    }
}

/// Nothing was read for that. Whether it is read on.
fn unread(kind: ErrorKind) -> Result<(), RemoteFault> {
    match kind {
        ErrorKind::Interrupted => Ok(()),
        ErrorKind::WouldBlock | ErrorKind::TimedOut => Err(RemoteFault::Late),
        _ => Err(RemoteFault::Closed),
    }
}

impl Incoming {
    fn new(alloc: Global) -> Result<Incoming, RemoteFault> {
        Ok(Incoming {
            bytes: Vec::new(alloc),
            at: 0,
            tail_at: 0,
            spare: Vec::new(alloc),
            chunk: vec![in alloc; 0u8; CHUNK]?,
        })
    }

    /// What was read as records is let go.
    fn settle(&mut self) -> Result<(), RemoteFault> {
        self.tail_at = 0;
        if self.at == 0 {
            return Ok(());
        }
        self.spare.clear();
        let left = self.bytes.get(self.at..).unwrap_or(&[]);
        self.spare.extend_from_slice(left)?;
        swap(&mut self.bytes, &mut self.spare);
        self.at = 0;
        Ok(())
    }

    /// More bytes come.
    fn fill<T: Read>(&mut self, stream: &mut T) -> Result<(), RemoteFault> {
        self.settle()?;
        match stream.read(self.chunk.as_mut_slice()) {
            Ok(0) => Err(RemoteFault::Closed),
            Ok(count) => {
                let more = self.chunk.get(..count).unwrap_or(&[]);
                self.bytes.extend_from_slice(more)?;
                Ok(())
            }
            Err(error) => unread(error.kind()),
        }
    }

    /// The next answer that is there. Its tail is [`Incoming::tail`].
    fn first(&mut self) -> Result<Option<Answer>, RemoteFault> {
        let left = self.bytes.get(self.at..).unwrap_or(&[]);
        let Ok(cut) = first_record(left) else {
            return Err(RemoteFault::Protocol);
        };
        let Some(cut) = cut else {
            return Ok(None);
        };
        let Ok((answer, tail)) = Answer::read(cut.record) else {
            return Err(RemoteFault::Protocol);
        };
        let rest = cut.rest.len();
        let tail = tail.len();
        self.at = self.bytes.len().saturating_sub(rest);
        self.tail_at = self.at.saturating_sub(tail);
        Ok(Some(answer))
    }

    /// The tail of the last answer.
    fn tail(&self) -> &[u8] {
        self.bytes.get(self.tail_at..self.at).unwrap_or(&[])
    }
}

impl Remote {
    pub(crate) fn open<F: Disk>(files: &F, path: &str) -> Result<Remote, RemoteFault> {
        let alloc = files.alloc();
        Ok(Remote {
            alloc,
            stream: connected(files, path)?,
            out: Vec::new(alloc),
            incoming: Incoming::new(alloc)?,
            client: 0,
            correlation: 0,
        })
    }

    /// Takes the greeting of the driver.
    pub(crate) fn enter(&mut self) -> Result<(), RemoteFault> {
        match self.answer()? {
            Answer::Welcome {
                version: 1,
                client,
                ..
            } => {
                self.client = client;
                Ok(())
            }
            _ => Err(RemoteFault::Protocol),
        }
    }

    /// A request is written with the next ones.
    pub(crate) fn ask(&mut self, request: Request, tail: &[u8]) -> Result<(), RemoteFault>
        ensures { OnOk result (self.new.out.items ≡ self.old.out.items ++ request_bytes request tail.now) }
    {
        request.put(tail, &mut self.out)?;
        Ok(())
    }

    /// The requests go.
    pub(crate) fn flush(&mut self) -> Result<(), RemoteFault> {
        let written = self.stream.write_all(self.out.as_slice());
        self.out.clear();
        match written {
            Ok(()) => Ok(()),
            Err(_) => Err(self.last_words()),
        }
    }

    /// Why the connection ended, at which nothing can be written any more: what the driver said last.
    fn last_words(&mut self) -> RemoteFault {
        for _ in 0..u64::MAX {
            if let Err(fault) = self.answer() {
                return fault;
            }
        }
        RemoteFault::Closed
    }

    /// The next answer. One that says that the connection ends is a fault.
    pub(crate) fn answer(&mut self) -> Result<Answer, RemoteFault> {
        for _ in 0..u64::MAX {
            match self.incoming.first()? {
                Some(Answer::Bye { code }) => return Err(self.farewell(code)),
                Some(answer) => return Ok(answer),
                None => self.incoming.fill(&mut self.stream)?,
            }
        }
        Err(RemoteFault::Protocol)
    }

    /// Why the connection ends, as the last answer says by that code.
    fn farewell(&self, code: i32) -> RemoteFault {
        if code == STOPPED {
            RemoteFault::Stopped
        } else {
            self.refusal()
        }
    }

    /// The tail of the last answer.
    pub(crate) fn tail(&self) -> &[u8] {
        self.incoming.tail()
    }

    /// The refusal that the last answer puts into words.
    pub(crate) fn refusal(&self) -> RemoteFault {
        RemoteFault::told(self.alloc, self.incoming.tail())
    }

    /// The answer that closes a request which is answered by nothing else.
    pub(crate) fn done(&mut self) -> Result<u32, RemoteFault> {
        match self.answer()? {
            Answer::Done { count } => Ok(count),
            Answer::Refused { .. } => Err(self.refusal()),
            _ => Err(RemoteFault::Protocol),
        }
    }
}

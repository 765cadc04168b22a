//! Files that are read.

ghost use Rattle.aeron_policyd.specs.Files.{rest_after};
ghost use Rattle.std.specs.Prelude.{◌≡◌, ◌≤◌};

use crate::fault::Fault;
use crate::saying::Saying;
use driver_script::{MayFail, RunFault, read_input};
use program_parts::{Disk, Machine, SECOND};
use std::alloc::AllocError;
use std::fs::{File, Metadata};
use std::os::unix::fs::MetadataExt;
use std::rt::{Files, LibcRuntime};
use std::time::{Clock, Duration};
use std::{fmt, fs, io, thread};

/// How many bytes a policy's file has at most.
const LONGEST: u64 = 16_777_216;

/// What a thread of its own takes of the machine to read files. It is handed on to threads, so the types that it gives are named.
pub(crate) trait SharedFiles: Files<File = File, Dir = <LibcRuntime as Files>::Dir>
    + AllocGlobal
    + Copy
    + Drop
    + Send
    + Sync
    + 'static {}

impl<
    F: Files<File = File, Dir = <LibcRuntime as Files>::Dir>
        + AllocGlobal
        + Copy
        + Drop
        + Send
        + Sync
        + 'static,
> SharedFiles for F {}

/// Why a file is not read, with its path.
#[derive(Clone, Copy)]
pub(crate) struct Unread<'a> {
    pub(crate) path: &'a str,
    pub(crate) fault: Fault,
}

impl fmt::Display for Unread<'_> {
    fn fmt<W: fmt::Write>(&self, f: &mut fmt::Formatter<W>) -> fmt::Result {
        let Unread { path, fault } = self;
        match fault {
            Fault::CannotRead(io::ErrorKind::NotFound) => {
                write!(f, "cannot read {path}: no such file")
            }
            Fault::CannotRead(io::ErrorKind::IsADirectory) => {
                write!(f, "cannot read {path}: it is a folder")
            }
            Fault::CannotRead(cause) => write!(f, "cannot read {path}: {cause}"),
            Fault::NotRegular => write!(f, "cannot read {path}: it is no regular file"),
            _ => write!(f, "{path}: {fault}"),
        }
    }
}

/// Opens a file to read, which is no folder.
fn open<R: Files + AllocGlobal>(rt: &R, path: &str) -> Result<R::File, Fault> {
    if let Ok(found) = fs::metadata(rt, path)
        && found.is_dir()
    {
        return Err(Fault::CannotRead(io::ErrorKind::IsADirectory));
    }
    match fs::open(rt, path) {
        Ok(file) => Ok(file),
        Err(error) if error.kind() == io::ErrorKind::OutOfMemory => Err(Fault::NO_MEMORY),
        Err(error) => Err(Fault::CannotRead(error.kind())),
    }
}

/// All bytes of a file.
pub(crate) fn file_bytes<R: Files + AllocGlobal>(rt: &R, path: &str) -> Result<Vec<u8>, Fault> {
    let mut file = MayFail(open(rt, path)?);
    Ok(read_input(rt.alloc(), &mut file)?)
}

/// What is seen of a file that is not read: which it is, how long, and when it was changed last, in seconds and nanoseconds.
#[derive(Clone, Copy, PartialEq, Eq)]
struct Look {
    inode: u64,
    size: u64,
    seconds: i64,
    nanoseconds: i64,
}

/// What is seen of a regular file that is not too long.
fn look_of(found: &Metadata) -> Result<Look, Fault> {
    if !found.is_file() {
        return Err(Fault::NotRegular);
    }
    if found.len() > LONGEST {
        return Err(Fault::Run(RunFault::TooLong));
    }
    Ok(Look {
        inode: found.ino(),
        size: found.len(),
        seconds: found.ctime(),
        nanoseconds: found.ctime_nsec(),
    })
}

/// What is seen of a regular file that is not too long.
fn looked<F: Files>(files: &F, path: &str) -> Result<Look, Fault> {
    match fs::metadata(files, path) {
        Ok(found) => look_of(&found),
        Err(error) => Err(Fault::CannotRead(error.kind())),
    }
}

/// All bytes of a regular file, whose size is looked at first.
pub(crate) fn regular_bytes<F: Files + AllocGlobal>(
    files: &F,
    path: &str,
) -> Result<Vec<u8>, Fault> {
    let _ = looked(files, path)?;
    file_bytes(files, path)
}

/// For how long a file that was changed at that moment is left alone, in nanoseconds: until it stood still for a second.
fn rest_after(changed: u64, now: u64) -> u64
    ensures rest { result ≡ rest_after changed now }
    ensures most { result ≤ 1000000000 }
{
    if changed > now {
        return SECOND;
    }
    SECOND.saturating_sub(now - changed)
}

impl Look {
    /// When the file was changed last, in nanoseconds since 1970.
    fn changed(&self) -> u64 {
        let seconds = self.seconds.max(0) as u64;
        let nanoseconds = self.nanoseconds.max(0) as u64;
        seconds.saturating_mul(SECOND).saturating_add(nanoseconds)
    }

    /// For how long the file is left alone, in nanoseconds.
    fn rest<R: Clock>(&self, rt: &R) -> u64 {
        let now = match rt.since_1970() {
            Ok(since) => since.as_nanos().min(u64::MAX as u128) as u64,
            Err(_) => 0,
        };
        rest_after(self.changed(), now)
    }
}

/// All bytes of a regular file, read twice, of which that was seen before.
fn same_bytes<F: Files + AllocGlobal>(
    files: &F,
    path: &str,
    before: Look,
) -> Result<Vec<u8>, Fault> {
    let first = regular_bytes(files, path)?;
    let second = regular_bytes(files, path)?;
    if looked(files, path)? != before || first.as_slice() != second.as_slice() {
        return Err(Fault::Written);
    }
    Ok(second)
}

/// All bytes of a regular file that stood still for a second, which is waited for.
///
/// # Errors
/// [`Fault::Written`] where its size, the moment of its last change or its bytes did not stay as they were.
pub(crate) fn steady_bytes<R: Clock, F: Files + AllocGlobal>(
    rt: &R,
    files: &F,
    path: &str,
) -> Result<Vec<u8>, Fault> {
    let before = looked(files, path)?;
    thread::sleep(rt, Duration::from_nanos(before.rest(rt)));
    same_bytes(files, path, before)
}

/// The same at once.
///
/// # Errors
/// [`Fault::Written`] also where it did not stand still for a second yet.
pub(crate) fn still_bytes<R: Clock, F: Files + AllocGlobal>(
    rt: &R,
    files: &F,
    path: &str,
) -> Result<Vec<u8>, Fault> {
    let before = looked(files, path)?;
    if before.rest(rt) > 0 {
        return Err(Fault::Written);
    }
    same_bytes(files, path, before)
}

/// The same as [`steady_bytes`], or why they can't be read, with the file's path.
pub(crate) fn steady_or_why<R: Clock, F: Files + AllocGlobal>(
    rt: &R,
    files: &F,
    path: &str,
) -> Result<Result<Vec<u8>, String>, AllocError> {
    match steady_bytes(rt, files, path) {
        Ok(bytes) => Ok(Ok(bytes)),
        Err(Fault::Run(RunFault::NoMemory)) => Err(AllocError),
        Err(fault) => {
            let unread = Unread { path, fault };
            Ok(Err(format!(in files.alloc(); "{unread}")?))
        }
    }
}

/// All bytes of a regular file. Why it can't be read is said on standard error.
pub(crate) fn regular_bytes_of<R: Machine, F: Disk>(
    rt: &R,
    files: &F,
    saying: Saying,
    path: &str,
) -> Result<Vec<u8>, Fault> {
    said(rt, saying, path, regular_bytes(files, path))
}

/// What was read. Why it can't be read is said on standard error.
fn said<R: Machine>(
    rt: &R,
    saying: Saying,
    path: &str,
    read: Result<Vec<u8>, Fault>,
) -> Result<Vec<u8>, Fault> {
    match read {
        Ok(bytes) => Ok(bytes),
        Err(Fault::Run(RunFault::NoMemory)) => Err(Fault::NO_MEMORY),
        Err(fault) => {
            let unread = Unread { path, fault };
            Err(saying.give_up(rt, &fault, &unread))
        }
    }
}

/// All bytes of a file. Why it can't be read is said on standard error.
pub(crate) fn bytes_of<R: Machine, F: Disk>(
    rt: &R,
    files: &F,
    saying: Saying,
    path: &str,
) -> Result<Vec<u8>, Fault> {
    said(rt, saying, path, file_bytes(files, path))
}

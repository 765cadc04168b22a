//! What an operator asks a driver that serves.

use crate::fault::RemoteFault;
use crate::looking::print_line;
use crate::remote::Remote;
use program_parts::Disk;
use service_records::{Answer, Request};

/// An operator asks once, and the lines that answer it are printed.
pub fn print_order<R: Print, F: Disk>(
    rt: &R,
    files: &F,
    path: &str,
    request: Request,
) -> Result<(), RemoteFault> {
    let mut remote = Remote::open(files, path)?;
    remote.ask(request, &[])?;
    remote.flush()?;
    for _ in 0..u64::MAX {
        match remote.answer()? {
            Answer::Line => print_line(rt, remote.alloc, remote.tail())?,
            Answer::Done { .. } => return Ok(()),
            Answer::Refused { .. } => return Err(remote.refusal()),
            _ => return Err(RemoteFault::Protocol),
        }
    }
    Ok(())
}

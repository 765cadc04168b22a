//! `stat`: the counters that a principal may see, in columns.

use crate::fault::RemoteFault;
use crate::remote::Remote;
use command_codec::Body;
use plain_words::plain;
use program_parts::{Disk, Machine, SECOND, ticks};
use service_records::{Answer, Request};
use std::alloc::Global;
use std::time::Duration;
use std::{str, thread};

/// The head of the columns.
const HEAD: &str = "    NUMBER       TYPE                 VALUE  LABEL";

/// A line is printed, whose bytes others may have chosen.
pub(crate) fn print_line<R: Print>(rt: &R, alloc: Global, line: &[u8]) -> Result<(), RemoteFault> {
    let Ok(line) = str::from_utf8(line) else {
        return Err(RemoteFault::Protocol);
    };
    match rt.println(plain(alloc, line)?.as_str()) {
        Ok(()) => Ok(()),
        Err(_) => Err(RemoteFault::WRITE),
    }
}

/// A counter is printed.
fn print_row<R: Print>(
    rt: &R,
    alloc: Global,
    number: u64,
    type_id: i32,
    value: i64,
    label: &[u8],
) -> Result<(), RemoteFault> {
    let Ok(label) = str::from_utf8(label) else {
        return Err(RemoteFault::Protocol);
    };
    let label = plain(alloc, label)?;
    match println!(rt; "{number:>10} {type_id:>10} {value:>21}  {label}") {
        Ok(()) => Ok(()),
        Err(_) => Err(RemoteFault::WRITE),
    }
}

/// The counters that a principal may see are printed.
fn print_rows<R: Print>(rt: &R, remote: &mut Remote) -> Result<(), RemoteFault> {
    remote.ask(Request::List, &[])?;
    remote.flush()?;
    print_line(rt, remote.alloc, HEAD.as_bytes())?;
    for _ in 0..u64::MAX {
        match remote.answer()? {
            Answer::Row {
                number,
                type_id,
                value,
            } => print_row(rt, remote.alloc, number, type_id, value, remote.tail())?,
            Answer::Done { .. } => return Ok(()),
            Answer::Refused { .. } => return Err(remote.refusal()),
            _ => return Err(RemoteFault::Protocol),
        }
    }
    Ok(())
}

/// A client that only looks says that it is there, for so many nanoseconds.
fn stay_for<R: Machine>(rt: &R, remote: &mut Remote, every: u64) -> Result<(), RemoteFault> {
    let until = ticks(rt).saturating_add(every);
    for _ in rt.forever() {
        let left = until.saturating_sub(ticks(rt));
        if left == 0 {
            return Ok(());
        }
        thread::sleep(rt, Duration::from_nanos(left.min(SECOND)));
        remote.command(Body::ClientKeepalive)?;
    }
    unreachable!()
}

/// The counters that a principal may see are printed, once, or again after so many nanoseconds each time.
pub fn print_counters<R: Machine, F: Disk>(
    rt: &R,
    files: &F,
    path: &str,
    every: Option<u64>,
) -> Result<(), RemoteFault> {
    let mut remote = Remote::open(files, path)?;
    remote.enter()?;
    for _ in rt.forever() {
        print_rows(rt, &mut remote)?;
        let Some(every) = every else {
            return Ok(());
        };
        stay_for(rt, &mut remote, every)?;
    }
    unreachable!()
}

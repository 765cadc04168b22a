//! `script`: a script is run.

use crate::fault::Fault;
use crate::files::bytes_of;
use crate::saying::Saying;
use driver_script::script::Ended;
use driver_script::{MayFail, script};
use program_parts::{Disk, Machine};
use std::io;
use std::process::ExitCode;

/// Runs the script in a file to standard output.
pub(crate) fn run_script<R: Machine, F: Disk>(
    rt: &R,
    files: &F,
    path: &str,
) -> Result<ExitCode, Fault> {
    let bytes = bytes_of(rt, files, Saying::Plain, path)?;
    let mut rest = bytes.as_slice();
    Ok(
        match script::run(rt.alloc(), &mut rest, &mut MayFail(io::writer(rt)))? {
            Ended::Done => ExitCode::SUCCESS,
            Ended::BadLine(_) => ExitCode::FAILURE,
        },
    )
}

//! `aeron_policyd`: the shared part of an Aeron media driver under a channel policy, on the command line.
//!
//! The words of its command line are read in `command_line`. The work is done in `policy_answers`, `driver_script` and
//! `media_driver`. Here are the files, and what the program ends with: 0, or 1 after a fault, a bad line of a script or a
//! case that fails, or 2 where the command line is at fault, or 3 where messages were lost and later ones came.
#![tactic(auto)]

mod asking;
mod audited;
mod book;
mod causes;
mod clashing;
mod connecting;
mod decided;
mod denials;
mod fault;
mod files;
mod hosting;
mod idle_keys;
mod keeping;
mod looks;
mod messages;
mod moments;
mod named;
mod one_client;
mod options;
mod policies;
mod publishing;
mod replies;
mod reported;
mod rereading;
mod running;
mod saying;
mod scripts;
mod serving;
mod standing;
mod starting;
mod station;
mod strangers;
mod subscribing;
mod usual;
mod vetting;
mod waking;

use crate::fault::Fault;
use crate::files::SharedFiles;
use crate::messages::answer_messages;
use crate::policies::answer_asking;
use crate::scripts::run_script;
use crate::starting::start;
use clap::ArgMatches;
use clap::error::ErrorKind;
use command_line::{Task, command, task_in};
use program_parts::{Disk, Machine};
use std::io::{IsTerminal, StdinLock};
use std::net::{Net, TcpListener, TcpStream};
use std::process::ExitCode;
use std::rt::{Env, Files};
use std::sync::Wait;
use std::thread::Threads;
use std::time::{Clock, CpuClock};
use std::{env, io};

/// The status of a command line that is at fault.
const USAGE: u8 = 2;

/// The words of the command line; `None` where one is not UTF-8.
fn words<R: Env + AllocGlobal>(rt: &R) -> Result<Option<Vec<String>>, Fault> {
    match env::args(rt) {
        Ok(words) => Ok(Some(words.collect(rt.alloc())?)),
        Err(error) if error.kind() == io::ErrorKind::OutOfMemory => Err(Fault::NO_MEMORY),
        Err(_) => Ok(None),
    }
}

/// Prints the help that was asked for, or what is at fault with the command line.
fn explain<R: Print + Eprint>(rt: &R, error: &clap::Error) -> Result<ExitCode, Fault> {
    if error.kind() == ErrorKind::OutOfMemory {
        return Err(Fault::NO_MEMORY);
    }
    if error.print(rt).is_err() {
        return Err(Fault::WRITE);
    }
    Ok(if error.use_stderr() {
        ExitCode::from(USAGE)
    } else {
        ExitCode::SUCCESS
    })
}

/// Prints lines that answer the command line.
fn print_text<R: Print>(rt: &R, text: &str) -> Result<ExitCode, Fault> {
    match rt.print(text) {
        Ok(()) => Ok(ExitCode::SUCCESS),
        Err(_) => Err(Fault::WRITE),
    }
}

/// Does a task. Standard error may be a terminal.
fn perform<R: Machine, F: Disk + SharedFiles>(
    rt: &R,
    files: &F,
    task: Task<'_>,
    is_terminal: bool,
) -> Result<ExitCode, Fault> {
    match task {
        Task::Messages(asked) => answer_messages(rt, asked),
        Task::Script { file } => run_script(rt, files, file),
        Task::Ask(asking) => answer_asking(rt, files, &asking, is_terminal),
        Task::Start(asked) => {
            start(rt, files, asked, is_terminal)?;
            Ok(ExitCode::SUCCESS)
        }
    }
}

/// Does what the words of the command line were found to say.
fn obey<R: Machine, F: Disk + SharedFiles>(
    rt: &R,
    files: &F,
    matches: &ArgMatches<'_>,
    is_terminal: bool,
) -> Result<ExitCode, Fault> {
    match task_in(matches) {
        Some(task) => perform(rt, files, task, is_terminal),
        None => Ok(ExitCode::from(USAGE)),
    }
}

/// Does what the words of the command line say.
fn answer<R: Machine, F: Disk + SharedFiles>(
    rt: &R,
    files: &F,
    words: &[String],
    is_terminal: bool,
) -> Result<ExitCode, Fault> {
    match command(rt.alloc())?.try_get_matches_from(words) {
        Ok(matches) => obey(rt, files, &matches, is_terminal),
        Err(error) => explain(rt, &error),
    }
}

/// Does what the command line says. The types that the machine gives are named here too, where the machine is known.
fn serve<
    R: Input
        + Print
        + Eprint
        + AllocGlobal
        + Clock
        + CpuClock
        + Net
        + Threads
        + Wait
        + Copy
        + Drop
        + Send
        + Sync
        + 'static,
    F: Disk + SharedFiles + Env,
>(rt: &R, files: &F, is_terminal: bool) -> Result<ExitCode, Fault>
where
    R: Input<Reader = StdinLock<'static>>,
    R: Net<Listener = TcpListener, Stream = TcpStream>,
{
    let Some(words) = words(files)? else {
        let _ = rt.eprintln("error: invalid UTF-8 was detected in one or more arguments");
        return Ok(ExitCode::from(USAGE));
    };
    answer(rt, files, words.as_slice(), is_terminal)
}

fn main(rt: HostRuntime) -> ExitCode {
    match serve(&rt, &rt, rt.stderr().is_terminal()) {
        Ok(status) => status,
        Err(Fault::Said) => ExitCode::FAILURE,
        Err(fault) => {
            let _ = eprintln!(rt; "aeron_policyd: {fault}");
            fault.status()
        }
    }
}

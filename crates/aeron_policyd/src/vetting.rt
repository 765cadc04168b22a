//! Cases that each policy of a driver that serves has to keep: one that fails a case is not put in force.

ghost use Rattle.aeron_policyd.specs.Vetting.{keeps};
ghost use Rattle.std.specs.Prelude.{◌≡◌, IfOk, is_some, not};

use crate::fault::Fault;
use crate::files::regular_bytes_of;
use crate::moments::now;
use crate::named::Named;
use crate::saying::{Saying, give_up};
use plain_words::plain;
use policy_answers::{AskFault, try_cases};
use policy_query::{DecideFault, Document};
use policy_text::PolicyFault;
use policy_tools::{CasesFault, Directory};
use program_parts::{Disk, Machine};
use std::alloc::{AllocError, Global};
use std::fmt;

/// The bytes of a file of cases, with its path.
#[derive(Clone, Copy)]
pub(crate) struct Wanted<'a> {
    pub(crate) path: &'a str,
    pub(crate) bytes: &'a [u8],
}

/// What is wrong with a file of cases, with its path.
#[derive(Clone, Copy)]
pub(crate) struct BadCases<'a> {
    pub(crate) path: &'a str,
    pub(crate) fault: CasesFault,
}

impl fmt::Display for BadCases<'_> {
    fn fmt<W: fmt::Write>(&self, f: &mut fmt::Formatter<W>) -> fmt::Result {
        let BadCases { path, fault } = self;
        match fault {
            CasesFault::BadLine(place, why) => write!(f, "{path}:{place}: {why}"),
            CasesFault::BadChannel(place, error) => {
                write!(f, "{path}:{place}: invalid channel: {error}")
            }
            CasesFault::NotText => write!(f, "{path}: not UTF-8"),
            CasesFault::NoMemory => f.write_str("out of memory"),
        }
    }
}

/// The first case that failed, as the first of these lines says it, with the path of its file.
fn first_of(alloc: Global, path: &str, lines: &str) -> Result<String, AllocError> {
    let first = lines.lines().next().unwrap_or("");
    let shown = plain(alloc, first)?;
    format!(in alloc; "{path}: {shown}")
}

/// Why a policy does not keep each of the cases at a moment, in nanoseconds since 1970: the first one that fails, or what is wrong
/// with the cases or with the policy. `None` where it keeps them.
pub(crate) fn why_unkept(
    alloc: Global,
    wanted: Wanted<'_>,
    document: &Document<'_>,
    directory: &Directory,
    moment: u64,
) -> Result<Option<String>, AllocError>
    ensures { IfOk result (λ why. is_some why ≡ not (keeps directory.now document.now wanted.entry.bytes.now moment)) }
{
    let Wanted { path, bytes } = wanted;
    match try_cases(alloc, document, directory, bytes, moment) {
        Ok(answer) if answer.is_well => Ok(None),
        Ok(answer) => Ok(Some(first_of(alloc, path, answer.text.as_str())?)),
        Err(
            AskFault::NoMemory
            | AskFault::Policy(PolicyFault::NoMemory)
            | AskFault::Decide(DecideFault::NoMemory)
            | AskFault::Cases(CasesFault::NoMemory),
        ) => Err(AllocError),
        Err(AskFault::Cases(fault)) => {
            let bad = BadCases { path, fault };
            Ok(Some(format!(in alloc; "{bad}")?))
        }
        Err(fault) => Ok(Some(format!(in alloc; "{fault}")?)),
    }
}

/// The policy that bytes are keeps the cases of a file, where there is one. Why it does not is said on standard error.
pub(crate) fn keep<R: Machine, F: Disk>(
    rt: &R,
    files: &F,
    names: &Named,
    policy: &[u8],
    cases: Option<&str>,
) -> Result<(), Fault> {
    let Some(path) = cases else {
        return Ok(());
    };
    let cases = regular_bytes_of(rt, files, Saying::Placed, path)?;
    let document = Document::read(rt.alloc(), policy)?;
    let bytes = cases.as_slice();
    let moment = now(rt)?;
    let wanted = Wanted { path, bytes };
    match why_unkept(rt.alloc(), wanted, &document, &names.directory, moment)? {
        Some(why) => Err(give_up(rt, &why)),
        None => Ok(()),
    }
}

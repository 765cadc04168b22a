//! The names of principals, with the file that they are from.

use crate::fault::Fault;
use crate::files::{SharedFiles, bytes_of, steady_or_why};
use crate::options::owned;
use crate::saying::{Saying, give_up};
use policy_answers::{Origin, refusal};
use policy_core::Policy;
use policy_query::Document;
use policy_text::PolicyFault;
use policy_tools::{Directory, NamesFault};
use program_parts::{Disk, Machine};
use std::alloc::{AllocError, Global};
use std::fmt;

/// What is wanted of a line of names.
const LINE: &str =
    "wanted `principal NAME NUMBER`, with a number from 0 to 4294967295 and each name once";

/// What is wanted of a name.
const NAME: &str =
    "wanted a name that has no `/`, no `..` and no control byte, and does not begin with `.`";

/// Why a file gives no names, with its path.
#[derive(Drop)]
struct Nameless<'a> {
    path: &'a str,
    fault: NamesFault,
}

impl fmt::Display for Nameless<'_> {
    fn fmt<W: fmt::Write>(&self, f: &mut fmt::Formatter<W>) -> fmt::Result {
        let path = self.path;
        match &self.fault {
            NamesFault::NoMemory => f.write_str("out of memory"),
            NamesFault::NotText => write!(f, "{path}: not UTF-8"),
            NamesFault::BadLine(line) => write!(f, "{path}:{line}: {LINE}"),
            NamesFault::BadName(line, name) => write!(f, "{path}:{line}: {name}: {NAME}"),
        }
    }
}

/// The names of principals, and the file of names, where one was given.
#[derive(Drop)]
pub(crate) struct Named {
    pub(crate) directory: Directory,
    file: Option<String>,
}

/// What was read of a file's names, or why it gives none.
fn again_of(
    alloc: Global,
    path: &str,
    read: Result<Directory, NamesFault>,
) -> Result<Result<Named, String>, AllocError> {
    match read {
        Ok(directory) => Ok(Ok(Named {
            directory,
            file: Some(String::from_str(alloc, path)?),
        })),
        Err(NamesFault::NoMemory) => Err(AllocError),
        Err(fault) => {
            let nameless = Nameless { path, fault };
            Ok(Err(format!(in alloc; "{nameless}")?))
        }
    }
}

impl Named {
    /// The names of a file, where one is given; `nobody` and `p1` to `p63` otherwise. What is wrong with the file is said on
    /// standard error.
    pub(crate) fn read<R: Machine, F: Disk>(
        rt: &R,
        files: &F,
        saying: Saying,
        path: Option<&str>,
    ) -> Result<Named, Fault> {
        let Some(path) = path else {
            return Ok(Named {
                directory: Directory::usual(rt.alloc())?,
                file: None,
            });
        };
        let bytes = bytes_of(rt, files, saying, path)?;
        match Directory::read(rt.alloc(), bytes.as_slice()) {
            Ok(directory) => Ok(Named {
                directory,
                file: Some(owned(rt.alloc(), path)?),
            }),
            Err(NamesFault::NoMemory) => Err(Fault::NO_MEMORY),
            Err(fault) => Err(give_up(rt, &Nameless { path, fault })),
        }
    }

    /// The names that their file has now, or why it gives none.
    pub(crate) fn again<R: Machine, F: SharedFiles>(
        &self,
        rt: &R,
        files: &F,
    ) -> Result<Result<Named, String>, AllocError> {
        let alloc = rt.alloc();
        let Some(file) = &self.file else {
            return Ok(Ok(Named {
                directory: Directory::usual(alloc)?,
                file: None,
            }));
        };
        let path = file.as_str();
        match steady_or_why(rt, files, path)? {
            Ok(bytes) => again_of(alloc, path, Directory::read(alloc, bytes.as_slice())),
            Err(why) => Ok(Err(why)),
        }
    }

    /// Where the text of a policy in a file stands, which is read with these names.
    pub(crate) fn origin<'a>(&'a self, path: &'a str) -> Origin<'a> {
        let names = match &self.file {
            Some(file) => Some(file.as_str()),
            None => None,
        };
        Origin { path, names }
    }

    /// Says what is wrong with what a file holds, of which this is the first fault; `None` where it is a policy.
    pub(crate) fn refuse<R: Machine>(
        &self,
        rt: &R,
        saying: Saying,
        path: &str,
        document: &Document<'_>,
        fault: PolicyFault,
    ) -> Result<Option<Fault>, AllocError> {
        match refusal(rt.alloc(), document, &self.directory, self.origin(path))? {
            Some(why) => Ok(Some(saying.give_up(rt, &fault, &why))),
            None => Ok(None),
        }
    }

    /// The policy that the bytes of a file are. What is wrong with them is said on standard error.
    pub(crate) fn policy<R: Machine>(
        &self,
        rt: &R,
        saying: Saying,
        path: &str,
        bytes: &[u8],
    ) -> Result<Policy, Fault> {
        let document = Document::read(rt.alloc(), bytes)?;
        match document.policy(rt.alloc(), self.directory.names()) {
            Ok(policy) => Ok(policy),
            Err(PolicyFault::NoMemory) => Err(Fault::NO_MEMORY),
            Err(fault) => Err(
                self.refuse(rt, saying, path, &document, fault)?
                    .unwrap_or(Fault::NO_MEMORY),
            ),
        }
    }
}

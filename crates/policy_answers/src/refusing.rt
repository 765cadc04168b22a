//! What is said of a text that is no policy, wherever one is read.

ghost use Rattle.policy_query.specs.Document.{policy_in};
ghost use Rattle.std.specs.Prelude.{◌≡◌, ◌<◌, IfOk, is_ok, is_some, length, not};

use byte_strings::Text;
use plain_words::plain;
use policy_faults::{Fault, Place, faults_of};
use policy_query::Document;
use policy_text::PolicyFault;
use policy_tools::Directory;
use std::alloc::{AllocError, Global};

/// Where a policy's text stands: in a file, which may be read with a file of names.
#[derive(Clone, Copy, Debug)]
pub struct Origin<'a> {
    pub path: &'a str,
    pub names: Option<&'a str>,
}

impl Origin<'_> {
    /// Appends where a part of the text stands.
    fn push_place(&self, text: &mut String, place: Place) -> Result<(), AllocError> {
        let path = self.path;
        let Place { line, column } = place;
        write!(text, "{path}:{line}:{column}")
    }

    /// Appends where to see the other faults.
    fn push_more(&self, text: &mut String) -> Result<(), AllocError> {
        let path = self.path;
        match self.names {
            None => write!(text, "; see: aeron_policyd lint {path}"),
            Some(names) => write!(text, "; see: aeron_policyd lint --names {names} {path}"),
        }
    }
}

/// The first of these faults in words, and whether there are more.
fn said(alloc: Global, faults: &[Fault], origin: Origin<'_>) -> Result<Text, AllocError> {
    let mut text = String::new(alloc);
    if let Some(fault) = faults.first() {
        origin.push_place(&mut text, fault.place)?;
        text.push_str(": ")?;
        let words = plain(alloc, format!(in alloc; "{fault}")?.as_str())?;
        text.push_str(words.as_str())?;
    }
    if faults.len() > 1 {
        origin.push_more(&mut text)?;
    }
    Ok(Text::from(text))
}

/// What is said of a document that is no policy: the first fault in the words of `lint`, with its place, and where there are more,
/// how to see them. `None` where it is one.
pub fn refusal(
    alloc: Global,
    document: &Document<'_>,
    directory: &Directory,
    origin: Origin<'_>,
) -> Result<Option<Text>, AllocError>
    ensures { IfOk result (λ said. is_some said ≡ not (is_ok (policy_in directory.now document.now))) }
{
    match document.policy(alloc, directory.names()) {
        Ok(_) => Ok(None),
        Err(PolicyFault::NoMemory) => Err(AllocError),
        Err(fault) => {
            let faults = faults_of(alloc, document, directory, fault)?;
            Ok(Some(said(alloc, faults.as_slice(), origin)?))
        }
    }
}

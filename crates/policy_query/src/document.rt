//! What a policy's file holds: it is parsed once, for all that is asked of it.

ghost use Rattle.policy_query.specs.Document.{document_in, document_of, policy_in, text_in, text_of};
ghost use Rattle.policy_text.specs.Fault.{Gives};
ghost use Rattle.std.specs.Prelude.{◌≡◌, IfOk, Some, None, option_copied, if◌then◌else◌};
ghost use Rattle.std.specs.Str.{is_utf8};
ghost use Rattle.toml.specs.Parse.{parse_document};

use policy_core::Policy;
use policy_text::{Names, PolicyFault, policy_from};
use std::alloc::{AllocError, Global};
use std::str;
use toml::Table;
use toml::de::Error;

/// What the bytes of a policy's file are, for all that is asked of them.
#[derive(Drop)]
pub enum Document<'a> {
    /// A TOML document, with its text.
    Toml { text: &'a str, table: Table },
    /// A text that is none, and why.
    NotToml { text: &'a str, error: Error },
    /// Bytes that are not UTF-8: those before the first that can't be.
    NotText { before: &'a [u8] },
}

/// What a text is.
fn parsed(alloc: Global, text: &str) -> Result<Document<'_>, AllocError>
    ensures exact { IfOk result (λ document. document_of document ≡ parse_document text.now) }
    ensures text { IfOk result (λ document. text_of document ≡ text.now) }
{
    match toml::table_from_str(alloc, text) {
        Ok(table) => Ok(Document::Toml { text, table }),
        Err(error) if error.is_memory() => Err(AllocError),
        Err(error) => Ok(Document::NotToml { text, error }),
    }
}

impl<'a> Document<'a> {
    /// What the bytes of a file are.
    pub fn read(alloc: Global, bytes: &'a [u8]) -> Result<Document<'a>, AllocError>
        ensures exact { IfOk result (λ document. document_of document ≡ document_in bytes.now) }
        ensures text { IfOk result (λ document. text_of document ≡ text_in bytes.now) }
    {
        match str::from_utf8(bytes) {
            Ok(text) => parsed(alloc, text),
            Err(error) => {
                let before = bytes.get(..error.valid_up_to()).unwrap_or(&[]);
                Ok(Document::NotText { before })
            }
        }
    }

    /// The text; empty, where the bytes are none.
    pub fn text(&self) -> &'a str
        ensures { result.now ≡ text_of self.now }
    {
        match self {
            Document::Toml { text, .. } => *text,
            Document::NotToml { text, .. } => *text,
            Document::NotText { .. } => "",
        }
    }

    /// The policy that it is.
    ///
    /// # Errors
    /// The first fault of the text, as [`policy_text::read`] names it; bytes that are not UTF-8 are no TOML.
    #[tactic(auto, unfolding(crate::specs::Document::policy_in))]
    pub fn policy(&self, alloc: Global, names: &Names) -> Result<Policy, PolicyFault>
        ensures { Gives (λ policy. policy) result (policy_in names.now self.now) }
    {
        match self {
            Document::Toml { table, .. } => policy_from(alloc, table, names),
            _ => Err(PolicyFault::NotToml),
        }
    }
}

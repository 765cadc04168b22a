ghost use Rattle.policy_text.specs.Version.{version_of};
ghost use Rattle.std.specs.Prelude.{◌≡◌};
ghost use Rattle.toml.specs.View.{table_view};

use crate::members::integer_at;
use toml::Table;

/// Which version of the language a document is of.
#[derive(Clone, Copy, Debug, PartialEq, Eq)]
pub enum Version {
    /// Rules stand at every moment.
    One,
    /// Rules may stand for a time.
    Two,
}

/// The version of a document, if it is one of the language.
pub(crate) fn version_of(table: &Table) -> Option<Version>
    ensures { result ≡ version_of (table_view table.now) }
{
    match integer_at(table, "version") {
        Some(1) => Some(Version::One),
        Some(2) => Some(Version::Two),
        _ => None,
    }
}

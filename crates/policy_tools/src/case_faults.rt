//! What is wrong with a line of a file of cases, and where.

ghost use Rattle.policy_tools.specs.declared.case_faults.BadWord.TheVariants.{NoMemory};
ghost use Rattle.std.specs.Prelude.{◌≡◌};

use channel_uri::UriError;
use std::alloc::{AllocError, AllocFailed};
use std::fmt;

/// A place in a file of cases. Both numbers count from 1; a column counts characters.
#[derive(Clone, Copy, Debug, PartialEq, Eq)]
pub struct CasePlace {
    pub line: u32,
    pub column: usize,
}

impl fmt::Display for CasePlace {
    fn fmt<W: fmt::Write>(&self, f: &mut fmt::Formatter<W>) -> fmt::Result {
        let (line, column) = (self.line, self.column);
        write!(f, "{line}:{column}")
    }
}

/// What is wrong at a word of a case, or where one is wanting.
#[derive(Clone, Copy, Debug, PartialEq, Eq)]
pub enum CaseCause {
    /// The line has no word.
    NoPrincipal,
    /// There is no principal of that name.
    UnknownPrincipal,
    /// The line ends before the act.
    NoAct,
    /// There is no act of that name.
    UnknownAct,
    /// The line ends before the channel.
    NoChannel,
    /// The line ends before the stream.
    NoStream,
    /// The word is no stream.
    BadStream,
    /// The word is neither `allow` nor `deny`, or the line ends before it.
    NoDecision,
    /// The words do not say by what.
    BadBy,
    /// The case has ended before the word.
    ExtraWord,
    /// No line of the file is a case.
    NoCase,
}

impl fmt::Display for CaseCause {
    fn fmt<W: fmt::Write>(&self, f: &mut fmt::Formatter<W>) -> fmt::Result {
        f.write_str(match self {
            CaseCause::NoPrincipal => "no principal",
            CaseCause::UnknownPrincipal => "unknown principal",
            CaseCause::NoAct => "no act",
            CaseCause::UnknownAct => "unknown act",
            CaseCause::NoChannel => "no channel",
            CaseCause::NoStream => "no stream",
            CaseCause::BadStream => "bad stream",
            CaseCause::NoDecision => "no allow or deny",
            CaseCause::BadBy => "bad by",
            CaseCause::ExtraWord => "a word too many",
            CaseCause::NoCase => "no case in the file",
        })
    }
}

/// Why the words of a line are no case.
#[derive(Clone, Copy, Debug)]
pub(crate) enum BadWord {
    /// The word at this place is at fault, counted from 0; or it is wanting.
    At(usize, CaseCause),
    /// The third word is no channel.
    NoChannel(UriError),
    /// There is no memory for the case.
    NoMemory,
}

impl From<AllocError> for BadWord {
    ghost from_gives = { λ _ bad. bad ≡ NoMemory };

    fn from(_error: AllocError) -> BadWord {
        BadWord::NoMemory
    }
}

impl<T: Drop> From<AllocFailed<T>> for BadWord {
    ghost from_gives = { λ _ bad. bad ≡ NoMemory };

    fn from(_error: AllocFailed<T>) -> BadWord {
        BadWord::NoMemory
    }
}

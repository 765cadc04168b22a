ghost use Rattle.policy_answers.specs.declared.fault.AskFault.TheVariants as faults;
ghost use Rattle.std.specs.Prelude.{◌≡◌};

use channel_uri::UriError;
use policy_query::DecideFault;
use policy_text::PolicyFault;
use policy_tools::CasesFault;
use std::alloc::{AllocError, AllocFailed};
use std::fmt;
use thiserror::Error;

/// A count of rows; in digits, by threes.
#[derive(Clone, Copy, Debug)]
pub struct RowCount(pub u64);

impl fmt::Display for RowCount {
    fn fmt<W: fmt::Write>(&self, f: &mut fmt::Formatter<W>) -> fmt::Result {
        let mut begun = false;
        let mut left = self.0;
        let (units, last) = (THOUSANDS, self.0 % 1000);
        for unit in units {
            let (digits, rest) = (
                left.checked_div(unit).unwrap_or(0),
                left.checked_rem(unit).unwrap_or(0),
            );
            left = rest;
            if begun {
                write!(f, "{digits:03},")?;
            } else if digits > 0 {
                begun = true;
                write!(f, "{digits},")?;
            }
        }
        if begun {
            write!(f, "{last:03}")
        } else {
            write!(f, "{last}")
        }
    }
}

/// Each power of a thousand that 64 bits hold, but 1.
const THOUSANDS: [u64; 6] = [
    1_000_000_000_000_000_000,
    1_000_000_000_000_000,
    1_000_000_000_000,
    1_000_000_000,
    1_000_000,
    1_000,
];

/// Why a question is not answered.
#[derive(Clone, Copy, Debug, Error)]
pub enum AskFault {
    /// The file is no policy.
    #[error("{0}")]
    Policy(PolicyFault),
    /// The policy or the question is at fault.
    #[error("{0}")]
    Decide(DecideFault),
    /// The text is no channel.
    #[error("invalid channel: {0}")]
    Channel(UriError),
    /// The cases are at fault.
    #[error("{0}")]
    Cases(CasesFault),
    /// There is no principal of that name.
    #[error("unknown principal")]
    UnknownPrincipal,
    /// The table has too many rows.
    #[error("table: {0} rows; at most 1,000,000: name principals by --principal NAME")]
    ManyRows(RowCount),
    /// There is no memory for the answer.
    #[error("no memory")]
    NoMemory,
}

impl From<PolicyFault> for AskFault {
    ghost from_gives = { λ fault made. made ≡ faults.Policy fault };

    fn from(fault: PolicyFault) -> AskFault {
        AskFault::Policy(fault)
    }
}

impl From<DecideFault> for AskFault {
    ghost from_gives = { λ fault made. made ≡ faults.Decide fault };

    fn from(fault: DecideFault) -> AskFault {
        AskFault::Decide(fault)
    }
}

impl From<CasesFault> for AskFault {
    ghost from_gives = { λ fault made. made ≡ faults.Cases fault };

    fn from(fault: CasesFault) -> AskFault {
        AskFault::Cases(fault)
    }
}

impl From<AllocError> for AskFault {
    ghost from_gives = { λ _ made. made ≡ faults.NoMemory };

    fn from(_error: AllocError) -> AskFault {
        AskFault::NoMemory
    }
}

impl<T: Drop> From<AllocFailed<T>> for AskFault {
    ghost from_gives = { λ _ made. made ≡ faults.NoMemory };

    fn from(_error: AllocFailed<T>) -> AskFault {
        AskFault::NoMemory
    }
}

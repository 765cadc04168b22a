ghost use Rattle.policy_text.specs.Fault.{fault_text, field_name};
ghost use Rattle.policy_text.specs.declared.fault.PolicyFault.TheVariants.{NoMemory};
ghost use Rattle.std.specs.Prelude.{◌≡◌, Some};

use std::alloc::{AllocError, AllocFailed};
use std::error::Error;
use std::fmt;

/// A part of a policy's text that can be bad.
#[derive(Clone, Copy, Debug, PartialEq, Eq)]
pub enum Field {
    /// A key that has no meaning where it stands.
    Unknown,
    /// The word that stands where no rule matches.
    Default,
    /// The array of the rules.
    Rule,
    /// A rule's name.
    Name,
    /// A rule's principal.
    Principal,
    /// A rule's acts.
    Act,
    /// A rule's pattern.
    Channel,
    /// A rule's range of stream ids.
    Stream,
    /// The first moment at which a rule stands.
    From,
    /// The moment from which on a rule stands no more.
    Until,
    /// A rule's word.
    Allow,
}

impl Field {
    /// What a fault calls the part.
    pub fn name(self) -> &'static str
        ensures { result.now ≡ field_name self }
    {
        match self {
            Field::Unknown => "unknown",
            Field::Default => "default",
            Field::Rule => "rule",
            Field::Name => "name",
            Field::Principal => "principal",
            Field::Act => "act",
            Field::Channel => "channel",
            Field::Stream => "stream",
            Field::From => "from",
            Field::Until => "until",
            Field::Allow => "allow",
        }
    }
}

/// Why a text is no policy: its first fault. Rules are counted from 1; rule 0 is the document around them.
#[derive(Clone, Copy, Debug, PartialEq, Eq)]
pub enum PolicyFault {
    /// The text is no TOML document.
    NotToml,
    /// The document's version is missing, or is neither the integer 1 nor 2.
    BadVersion,
    /// This part is missing, or is not of its form; or there is a key without a meaning.
    BadField { rule: u32, field: Field },
    /// There are more than 1,024 rules.
    TooManyRules,
    /// The rule names a principal that is not known.
    UnknownPrincipal { rule: u32 },
    /// The rule names an act that is none.
    UnknownAct { rule: u32 },
    /// The rule's range of stream ids has its low end above its high one, or an end outside 32 bits. Or a bound of the
    /// moments at which it stands is negative, or the first of them is not below their end.
    BadRange { rule: u32 },
    /// There is no memory for the policy.
    NoMemory,
}

impl From<AllocError> for PolicyFault {
    ghost from_gives = { λ _ fault. fault ≡ NoMemory };

    fn from(_error: AllocError) -> PolicyFault {
        PolicyFault::NoMemory
    }
}

impl<T: Drop> From<AllocFailed<T>> for PolicyFault {
    ghost from_gives = { λ _ fault. fault ≡ NoMemory };

    fn from(_error: AllocFailed<T>) -> PolicyFault {
        PolicyFault::NoMemory
    }
}

impl fmt::Display for PolicyFault {
    ghost output = { λ fault. Some (fault_text fault) };

    fn fmt<W: fmt::Write>(&self, f: &mut fmt::Formatter<W>) -> fmt::Result {
        match *self {
            PolicyFault::NotToml => f.write_str("not toml"),
            PolicyFault::BadVersion => f.write_str("bad version"),
            PolicyFault::BadField { rule, field } => {
                let name = field.name();
                write!(f, "rule {rule}: bad field {name}")
            }
            PolicyFault::TooManyRules => f.write_str("too many rules"),
            PolicyFault::UnknownPrincipal { rule } => write!(f, "rule {rule}: unknown principal"),
            PolicyFault::UnknownAct { rule } => write!(f, "rule {rule}: unknown act"),
            PolicyFault::BadRange { rule } => write!(f, "rule {rule}: bad range"),
            PolicyFault::NoMemory => f.write_str("no memory"),
        }
    }
}

impl Error for PolicyFault {}

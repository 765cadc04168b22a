ghost use Rattle.policy_faults.specs.Fault.{bad_part, field_of, refusal_by, refusal_of};
ghost use Rattle.std.specs.Prelude.{◌≡◌};

use crate::places::Place;
use byte_strings::Text;
use channel_uri::UriError;
use policy_text::{Field, PolicyFault};
use std::fmt;

/// Why a part of a text can be no part of a policy.
#[derive(Drop)]
pub enum Cause {
    /// The bytes are no UTF-8.
    NotText,
    /// The text is no TOML document; what its reader says of it.
    NotToml(Text),
    /// The key has to be there.
    Missing,
    /// The key has no meaning there; perhaps this one is meant.
    UnknownKey(Option<&'static str>),
    /// The key has a meaning in version 2 of the language alone.
    LaterKey,
    /// The value is a date, and its nanoseconds since 1970 are wanted, which are these.
    Date(u64),
    /// This is wanted in place of the value.
    Wanted(&'static str),
    /// The value is of its form, and this is wanted of what it says.
    BadRange(&'static str),
    /// There is no principal of that name; perhaps this one is meant.
    UnknownPrincipal(Option<Text>),
    /// There is no act of that name; perhaps this one is meant.
    UnknownAct(Option<&'static str>),
    /// The value is no pattern.
    BadPattern(UriError),
    /// There are so many rules, and 1,024 at most are allowed.
    TooManyRules(usize),
    /// The fault as `check` names it.
    Refused(PolicyFault),
}

fn write_meant<W: fmt::Write>(f: &mut fmt::Formatter<W>, meant: Option<&str>) -> fmt::Result {
    match meant {
        Some(word) => write!(f, "; is `{word}` meant?"),
        None => Ok(()),
    }
}

impl fmt::Display for Cause {
    fn fmt<W: fmt::Write>(&self, f: &mut fmt::Formatter<W>) -> fmt::Result {
        match self {
            Cause::NotText => f.write_str("not UTF-8"),
            Cause::NotToml(message) => write!(f, "not TOML: {message}"),
            Cause::Missing => f.write_str("missing"),
            Cause::UnknownKey(meant) => {
                f.write_str("no such key")?;
                write_meant(f, *meant)
            }
            Cause::LaterKey => f.write_str("no such key in version 1; is `version = 2` meant?"),
            Cause::Date(moment) => {
                write!(
                    f,
                    "wanted nanoseconds since 1970; of that date they are {moment}"
                )
            }
            Cause::Wanted(wanted) => write!(f, "wanted {wanted}"),
            Cause::BadRange(wanted) => f.write_str(wanted),
            Cause::UnknownPrincipal(meant) => {
                f.write_str("no such principal")?;
                match meant {
                    Some(name) => write!(f, "; is `{name}` meant?"),
                    None => Ok(()),
                }
            }
            Cause::UnknownAct(meant) => {
                f.write_str("no such act")?;
                write_meant(f, *meant)
            }
            Cause::BadPattern(error) => write!(f, "no pattern: {error}"),
            Cause::TooManyRules(count) => write!(f, "{count} rules, and 1024 at most are allowed"),
            Cause::Refused(fault) => write!(f, "{fault}"),
        }
    }
}

/// A fault of a policy's text.
#[derive(Drop)]
pub struct Fault {
    /// Where it is.
    pub place: Place,
    /// The number of the rule, counted from 1; 0 for the document around the rules.
    pub rule: u32,
    /// What the rule is called, where that can be read.
    pub name: Option<Text>,
    /// The key; `None` for the text as a whole.
    pub key: Option<Text>,
    /// What stands at the key.
    pub value: Option<Text>,
    pub cause: Cause,
}

/// The part of a policy's text that a key is.
fn field_of(key: &str) -> Field
    ensures { result ≡ field_of key.now }
{
    if key == "default" {
        return Field::Default;
    }
    if key == "rule" {
        return Field::Rule;
    }
    if key == "name" {
        return Field::Name;
    }
    if key == "principal" {
        return Field::Principal;
    }
    if key == "act" {
        return Field::Act;
    }
    if key == "channel" {
        return Field::Channel;
    }
    if key == "stream" {
        return Field::Stream;
    }
    if key == "from" {
        return Field::From;
    }
    if key == "until" {
        return Field::Until;
    }
    if key == "allow" {
        return Field::Allow;
    }
    Field::Unknown
}

/// The refusal of a part that is missing, or not of its form.
fn bad_part(rule: u32, key: &str) -> PolicyFault
    ensures { result ≡ bad_part rule key.now }
{
    if key == "version" {
        return PolicyFault::BadVersion;
    }
    let field = field_of(key);
    PolicyFault::BadField { rule, field }
}

impl Cause {
    /// The refusal that this is the cause of, at a key of a rule; rule 0 is the document.
    fn refusal(&self, rule: u32, key: &str) -> PolicyFault
        ensures { result ≡ refusal_by rule key.now self.now }
    {
        match self {
            Cause::NotText | Cause::NotToml(_) => PolicyFault::NotToml,
            Cause::UnknownKey(_) | Cause::LaterKey => PolicyFault::BadField {
                rule,
                field: Field::Unknown,
            },
            Cause::Missing | Cause::Date(_) | Cause::Wanted(_) | Cause::BadPattern(_) => {
                bad_part(rule, key)
            }
            Cause::BadRange(_) => PolicyFault::BadRange { rule },
            Cause::UnknownPrincipal(_) => PolicyFault::UnknownPrincipal { rule },
            Cause::UnknownAct(_) => PolicyFault::UnknownAct { rule },
            Cause::TooManyRules(_) => PolicyFault::TooManyRules,
            Cause::Refused(fault) => *fault,
        }
    }
}

impl Fault {
    /// What `check` calls the fault.
    pub fn refusal(&self) -> PolicyFault
        ensures { result ≡ refusal_of self.now }
    {
        match &self.key {
            Some(key) => self.cause.refusal(self.rule, key.as_str()),
            None => self.cause.refusal(self.rule, ""),
        }
    }
}

impl fmt::Display for Fault {
    fn fmt<W: fmt::Write>(&self, f: &mut fmt::Formatter<W>) -> fmt::Result {
        if self.rule > 0 {
            let rule = self.rule;
            write!(f, "rule {rule}")?;
            if let Some(name) = &self.name {
                write!(f, " ({name})")?;
            }
            f.write_str(": ")?;
        }
        if let Some(key) = &self.key {
            write!(f, "{key}")?;
            if let Some(value) = &self.value {
                write!(f, " = {value}")?;
            }
            f.write_str(": ")?;
        }
        let cause = &self.cause;
        write!(f, "{cause}")
    }
}

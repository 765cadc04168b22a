use byte_strings::Text;
use channel_uri::{Key, UriError};
use policy_core::{Act, Verdict};
use policy_faults::Place;
use std::fmt;

/// A request that a policy grants, and one that has to be granted with it and is not.
#[derive(Drop)]
pub struct Gap {
    /// Who asks, as the rule has it; for `*` it is one of whom no rule speaks by name.
    pub principal: Text,
    /// What is granted.
    pub act: Act,
    /// What is not.
    pub needed: Act,
    /// On this channel.
    pub channel: Text,
    pub stream: i32,
    /// At this moment, in nanoseconds since 1970.
    pub moment: u64,
    /// Why it is not.
    pub verdict: Verdict,
}

/// What is likely not meant by a rule.
#[derive(Drop)]
pub enum Doubt {
    /// No request has this act on such a channel and stream; why.
    Impossible(Act, &'static str),
    /// No request has any act on such a channel and stream.
    NoRequest,
    /// The key has no effect in any channel; perhaps this one is meant.
    UnusedKey(Text, Option<&'static str>),
    /// No channel has this value of the key; why.
    NoSuchValue(Key, Text, UriError),
    /// No channel has a value of the key that begins so.
    NoSuchBeginning(Key, Text),
    /// The beginning ends inside a number.
    CutNumber(Key, Text),
    /// The rule denies by a key without which, or with another text of which, a channel does the same.
    Evaded(Text),
    /// What is granted does not serve alone.
    Gap(Gap),
    /// Without the rule each request has the same word: whether that is to allow it.
    ChangesNothing(bool),
    /// The rule at this place, counted from 0, has the same name.
    SameName(usize),
    /// The rule allows everybody everything.
    AllowsAll,
    /// The rule does so as long as it stands.
    AllowsAllThen,
    /// There is no rule, and the default allows everything.
    AllowsByDefault,
    /// The rule grants counters of this type, one of those under which the driver's own are listed.
    SystemType(i32),
    /// The rule is about seeing counters of this type, and the driver's own are asked about otherwise.
    SystemList(i32),
}

/// A doubt about a rule, or about the document.
#[derive(Drop)]
pub struct Warning {
    /// The place of the rule in its policy, counted from 0; of the document it is how many rules there are.
    pub at: usize,
    /// Where it stands in the text.
    pub place: Place,
    pub doubt: Doubt,
}

impl fmt::Display for Gap {
    fn fmt<W: fmt::Write>(&self, f: &mut fmt::Formatter<W>) -> fmt::Result {
        match self.principal.as_str() {
            "*" => f.write_str("a principal that no rule names")?,
            name => f.write_str(name)?,
        }
        let act = self.act.name();
        let needed = self.needed.name();
        let channel = &self.channel;
        let stream = self.stream;
        write!(
            f,
            " may `{act}` but not `{needed}`: on {channel}, stream {stream}, that is denied by "
        )?;
        match self.verdict.rule {
            Some(rule) => write!(f, "rule {rule}"),
            None => f.write_str("default"),
        }
    }
}

fn write_type<W: fmt::Write>(f: &mut fmt::Formatter<W>, number: i32) -> fmt::Result {
    if number == 10001 {
        f.write_str("the driver lists publications as counters of type 10001")
    } else {
        f.write_str("the driver lists images as counters of type 10002")
    }
}

impl fmt::Display for Doubt {
    fn fmt<W: fmt::Write>(&self, f: &mut fmt::Formatter<W>) -> fmt::Result {
        match self {
            Doubt::Impossible(act, why) => {
                let act = act.name();
                write!(f, "no request has the act `{act}` here: {why}")
            }
            Doubt::NoRequest => f.write_str("no request has any act on these channels and streams"),
            Doubt::UnusedKey(key, meant) => {
                write!(f, "the key `{key}` has no effect in any channel")?;
                match meant {
                    Some(word) => write!(f, "; is `{word}` meant?"),
                    None => Ok(()),
                }
            }
            Doubt::NoSuchValue(key, value, error) => {
                write!(f, "no channel has `{key}={value}`: {error}")
            }
            Doubt::NoSuchBeginning(key, value) => write!(
                f,
                "no channel has `{key}={value}`: no value of {key} begins so"
            ),
            Doubt::CutNumber(key, value) => write!(
                f,
                "`{key}={value}` ends inside a number, and covers each number that begins so"
            ),
            Doubt::Evaded(key) => write!(
                f,
                "a client can bypass a denial by the key `{key}`: it may leave the key out or write its value otherwise; \
                 deny by acts, streams or endpoint"
            ),
            Doubt::Gap(gap) => write!(f, "{gap}"),
            Doubt::ChangesNothing(true) => f.write_str(
                "changes nothing: the default allows these requests, and no later rule denies one",
            ),
            Doubt::ChangesNothing(false) => f.write_str(
                "changes nothing: the default denies these requests, and no later rule allows one",
            ),
            Doubt::SameName(at) => {
                let number = at.saturating_add(1);
                write!(f, "rule {number} has the same name")
            }
            Doubt::AllowsAll => f.write_str(
                "everybody may do everything: no later rule and no default decides",
            ),
            Doubt::AllowsAllThen => f.write_str(
                "everybody may do everything while it stands: no later rule and no default decides then",
            ),
            Doubt::AllowsByDefault => {
                f.write_str("there is no rule, and the default allows everybody everything")
            }
            Doubt::SystemType(number) => {
                write_type(f, *number)?;
                f.write_str(", and a client's counter of that type looks like one")
            }
            Doubt::SystemList(number) => {
                write_type(f, *number)?;
                f.write_str(", and asks about them by their own channel and stream")
            }
        }
    }
}

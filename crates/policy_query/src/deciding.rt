ghost use Rattle.policy_query.specs.Deciding.{principals, principals_to, rules_in, subject_of, decided, sound, checked_text, fault_text, Gives};
ghost use Rattle.policy_query.specs.Document.{policy_in};
ghost use Rattle.policy_query.specs.declared.deciding.DecideFault.TheVariants.{NoMemory};
ghost use Rattle.policy_text.specs.Fault.{Gives as GivesPolicy};
ghost use Rattle.std.specs.Prelude.{◌≡◌, Some, IfOk};

use crate::document::Document;
use byte_strings::Text;
use channel_uri::{Channel, UriError};
use policy_core::{Act, Policy, Request, Verdict};
use policy_text::{Names, PolicyFault};
use std::alloc::{AllocError, Global};
use std::error::Error;
use std::fmt;

/// What is said of a file that is a policy.
#[derive(Clone, Copy, Debug, PartialEq, Eq)]
pub struct Checked {
    /// How many rules the policy has.
    pub rules: usize,
}

impl fmt::Display for Checked {
    ghost output = { λ checked. Some (checked_text checked.rules) };

    fn fmt<W: fmt::Write>(&self, f: &mut fmt::Formatter<W>) -> fmt::Result {
        let rules = self.rules;
        write!(f, "ok: {rules} rules")
    }
}

/// Why a policy's file decides nothing of a question. Of several faults the first one in this order is named.
#[derive(Clone, Copy, Debug, PartialEq, Eq)]
pub enum DecideFault {
    /// The file is no policy.
    Policy(PolicyFault),
    /// There is no principal of that name.
    UnknownPrincipal,
    /// There is no act of that name.
    UnknownAct,
    /// The text is no channel, for this reason.
    InvalidChannel(UriError),
    /// There is no memory for the policy.
    NoMemory,
}

impl From<AllocError> for DecideFault {
    ghost from_gives = { λ _ made. made ≡ NoMemory };

    fn from(_error: AllocError) -> DecideFault {
        DecideFault::NoMemory
    }
}

impl fmt::Display for DecideFault {
    ghost output = { λ fault. Some (fault_text fault) };

    fn fmt<W: fmt::Write>(&self, f: &mut fmt::Formatter<W>) -> fmt::Result {
        match self {
            DecideFault::Policy(fault) => write!(f, "{fault}"),
            DecideFault::UnknownPrincipal => f.write_str("unknown principal"),
            DecideFault::UnknownAct => f.write_str("unknown act"),
            DecideFault::InvalidChannel(_) => f.write_str("invalid channel"),
            DecideFault::NoMemory => f.write_str("no memory"),
        }
    }
}

impl Error for DecideFault {}

/// The names that a policy's file may use for principals: `nobody`, which is 0, and `p1` to `p63`.
#[tactic(auto, unfolding(crate::specs::Deciding::principals))]
pub fn principals(alloc: Global) -> Result<Names, AllocError>
    ensures { IfOk result (λ names. names ≡ principals) }
{
    let mut names = Names::new(alloc);
    let mut count = 0;
    'names: while count < 63 {
        count += 1;
        let name = format!(in alloc; "p{count}")?;
        names.add(Text::from(name), count)?;
    }
    Ok(names)
}

/// The policy that a document is, which has to be one.
fn sound_policy(
    alloc: Global,
    document: &Document<'_>,
    names: &Names,
) -> Result<Policy, DecideFault>
    ensures { Gives (λ policy. policy) result (sound (policy_in names.now document.now)) }
{
    match document.policy(alloc, names) {
        Ok(policy) => Ok(policy),
        Err(PolicyFault::NoMemory) => Err(DecideFault::NoMemory),
        Err(fault) => Err(DecideFault::Policy(fault)),
    }
}

/// The channel that a word is. Rules on counters are asked about `aeron:counter`.
#[tactic(auto, unfolding(crate::specs::Deciding::subject_of))]
fn subject_of(word: &str) -> Result<Channel, DecideFault>
    ensures { Gives (λ channel. channel) result (subject_of word.now) }
{
    if word == "aeron:counter" {
        return Ok(Channel::counter());
    }
    match Channel::parse(word) {
        Ok(channel) => Ok(channel),
        Err(error) => Err(DecideFault::InvalidChannel(error)),
    }
}

/// Whether a document is a policy over these names of principals, and how many rules it has.
///
/// # Errors
/// The first fault of the document.
#[tactic(auto, unfolding(crate::specs::Deciding::rules_in))]
pub fn check(alloc: Global, document: &Document<'_>, names: &Names) -> Result<Checked, PolicyFault>
    ensures { GivesPolicy (λ checked. checked.rules) result (rules_in names.now document.now) }
{
    let policy = document.policy(alloc, names)?;
    Ok(Checked {
        rules: policy.rules().len(),
    })
}

/// What the policy that a document is, whose number is 1, decides of a question at a moment: may this principal do this on this
/// channel and stream? The names are those of principals, in the policy and in the question. The channel is a channel's text, or
/// `aeron:counter`; a spy is decided like the channel that it reads.
///
/// # Errors
/// The first fault, in the order of [`DecideFault`].
#[tactic(auto, unfolding(crate::specs::Deciding::decided))]
pub fn decide(
    alloc: Global,
    document: &Document<'_>,
    names: &Names,
    principal: &str,
    act: &str,
    channel: &str,
    stream: i32,
    moment: u64,
) -> Result<Verdict, DecideFault>
    ensures { Gives (λ verdict. verdict) result (decided names.now document.now principal.now act.now channel.now stream moment) }
{
    let policy = sound_policy(alloc, document, names)?;
    let principal = names
        .number_of(principal)
        .ok_or(DecideFault::UnknownPrincipal)?;
    let act = Act::from_name(act).ok_or(DecideFault::UnknownAct)?;
    let channel = subject_of(channel)?;
    let request = Request {
        principal,
        act,
        channel: &channel,
        stream,
    };
    Ok(policy.verdict(1, moment, &request))
}

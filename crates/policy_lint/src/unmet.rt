ghost use Rattle.policy_core.specs.Moments.{at as policy_at};
ghost use Rattle.policy_core.specs.RuleList.{Rules};
ghost use Rattle.policy_lint.specs.Nobody.{IsAlone, IsThere, IsUnmet, Lacks, may};
ghost use Rattle.std.specs.List.{All};
ghost use Rattle.std.specs.Prelude.{◌≡◌, ◌<◌, IfOk, IfSome, OnOk, length, true};

use crate::asking::{Asked, asker, moment_for, nobody_may, stream_in};
use crate::examples::{Spoken, common_example, example, learning_example, spoken_at};
use byte_strings::Text;
use channel_uri::{Channel, Media};
use policy_core::{Act, Acts, Policy, Rule};
use policy_faults::{Place, Places};
use policy_tools::WrittenPolicy;
use std::alloc::{AllocError, Global};
use std::fmt;

/// What nobody may do that is needed.
#[derive(Clone, Copy, Debug, PartialEq, Eq)]
pub enum Lack {
    /// Be the other end of a publication that learns its destinations.
    Other,
    /// Ask a publication over udp for what was lost on its way.
    Resend,
}

/// A rule that grants an end of a publication, where the policy denies everybody what that end needs.
#[derive(Drop)]
pub struct Unmet {
    /// What nobody may do.
    pub lack: Lack,
    /// The place of the rule in its policy, counted from 0.
    pub at: usize,
    /// Where its acts stand in the text.
    pub place: Place,
    /// Who asks, as the rule has it; for `*` it is one of whom no rule speaks by name.
    pub name: Text,
    /// The number of who asks.
    pub principal: u32,
    /// What is granted: `publish`, `publish-exclusive` or `join`.
    pub act: Act,
    /// On this channel.
    pub channel: Channel,
    pub stream: i32,
    /// At this moment, in nanoseconds since 1970.
    pub moment: u64,
}

/// Whether whoever does the act there at that moment is alone: nobody may join the publication, or publish what is to be joined.
fn is_alone(policy: &Policy, moment: u64, act: Act, channel: &Channel, stream: i32) -> bool
    ensures { result ≡ true → IsAlone (policy_at policy.now moment) act channel.now stream }
{
    match act {
        Act::Publish => nobody_may(policy, moment, Act::Join, channel, stream),
        Act::PublishExclusive => nobody_may(policy, moment, Act::Join, channel, stream),
        Act::Join => {
            nobody_may(policy, moment, Act::Publish, channel, stream)
                && nobody_may(policy, moment, Act::PublishExclusive, channel, stream)
        }
        _ => false,
    }
}

/// Whether nobody may do there at that moment what is looked for.
fn is_lacking(
    policy: &Policy,
    moment: u64,
    lack: Lack,
    act: Act,
    channel: &Channel,
    stream: i32,
) -> bool
    ensures { result ≡ true → Lacks lack (policy_at policy.now moment) act channel.now stream }
{
    match lack {
        Lack::Other => is_alone(policy, moment, act, channel, stream),
        Lack::Resend => nobody_may(policy, moment, Act::Retransmit, channel, stream),
    }
}

/// Whether the acts have one of those that the act needs.
fn has_needed(acts: Acts, lack: Lack, act: Act) -> bool {
    match (lack, act) {
        (Lack::Resend, _) => acts.hold(Act::Retransmit),
        (Lack::Other, Act::Join) => acts.hold(Act::Publish) || acts.hold(Act::PublishExclusive),
        (Lack::Other, _) => acts.hold(Act::Join),
    }
}

/// Whether the policy allows one of those acts.
fn may_needed(asked: Asked<'_>, lack: Lack, act: Act) -> bool {
    match (lack, act) {
        (Lack::Resend, _) => asked.may(Act::Retransmit),
        (Lack::Other, Act::Join) => asked.may(Act::Publish) || asked.may(Act::PublishExclusive),
        (Lack::Other, _) => asked.may(Act::Join),
    }
}

/// Whether the channel is one on which that is looked for.
fn is_there(lack: Lack, channel: &Channel) -> bool
    ensures { result ≡ true → IsThere lack channel.now }
{
    match lack {
        Lack::Other => channel.is_dynamic(),
        Lack::Resend => channel.media() == Media::Udp,
    }
}

/// One end, as a rule grants it.
#[derive(Clone, Copy)]
struct End<'a> {
    source: &'a WrittenPolicy,
    /// The place of the rule, counted from 0.
    at: usize,
    /// What is looked for.
    lack: Lack,
    act: Act,
    /// Who asks.
    principal: u32,
    /// When, in nanoseconds since 1970.
    moment: u64,
}

/// A stream of both rules.
fn stream_of_both(one: &Rule, other: &Rule) -> Option<i32> {
    let (low, high) = (one.low.max(other.low), one.high.min(other.high));
    if low > high {
        return None;
    }
    Some(stream_in(low, high))
}

impl End<'_> {
    /// A channel of the rule on which that is looked for: one over udp. For the other end it is one on which a publication
    /// learns its destinations, and a rule on publications has to speak of no other ones: what else it grants needs nobody to
    /// join.
    fn channel(&self, alloc: Global) -> Result<Option<Channel>, AllocError>
        requires { self.now.at < length self.now.source.now.policy.rules }
        ensures { IfOk result (λ found. IfSome found (λ channel. IsThere self.now.lack channel)) }
    {
        let own = spoken_at(self.source, self.at);
        let found = match self.act {
            Act::Join => learning_example(alloc, &[own])?,
            _ => example(alloc, own, Media::Udp)?,
        };
        match found {
            Some(channel) if is_there(self.lack, &channel) => Ok(Some(channel)),
            _ => Ok(None),
        }
    }

    /// A channel of this pattern and that one on which that is looked for.
    fn common(
        &self,
        alloc: Global,
        patterns: &[Spoken<'_>],
    ) -> Result<Option<Channel>, AllocError> {
        match self.lack {
            Lack::Other => learning_example(alloc, patterns),
            Lack::Resend => common_example(alloc, patterns, Media::Udp),
        }
    }

    /// Whether the rule itself grants the act there then.
    fn is_granted(&self, channel: &Channel, stream: i32) -> bool
        ensures { result ≡ true → may (policy_at self.now.source.now.policy self.now.moment) self.now.act channel.now stream self.now.principal ≡ true }
    {
        let asked = Asked {
            policy: self.source.policy(),
            moment: self.moment,
            principal: self.principal,
            channel,
            stream,
        };
        asked.is_granted_by(self.at, self.act)
    }

    /// Whether both ends come together by the rule and the one at `beside`, on a channel and a stream of both, once both
    /// stand.
    fn meets(&self, alloc: Global, beside: usize) -> Result<bool, AllocError>
        requires own { self.now.at < length self.now.source.now.policy.rules }
        requires other { beside < length self.now.source.now.policy.rules }
    {
        let rules = self.source.rules();
        let (own, other) = (&rules[self.at], &rules[beside]);
        if !other.allow || !has_needed(other.acts, self.lack, self.act) {
            return Ok(false);
        }
        let (Some(stream), Some(principal)) = (stream_of_both(own, other), asker(rules, other))
        else {
            return Ok(false);
        };
        let (here, there) = (
            spoken_at(self.source, self.at),
            spoken_at(self.source, beside),
        );
        let Some(channel) = self.common(alloc, &[here, there])? else {
            return Ok(false);
        };
        let policy = self.source.policy();
        let moment = moment_for(other, self.moment);
        let asked = Asked {
            policy,
            moment,
            principal: self.principal,
            channel: &channel,
            stream,
        };
        let across = Asked {
            policy,
            moment,
            principal,
            channel: &channel,
            stream,
        };
        Ok(asked.may(self.act) && may_needed(across, self.lack, self.act))
    }

    /// Whether both ends come together by the rule and some other one.
    fn is_met(&self, alloc: Global) -> Result<bool, AllocError>
        requires { self.now.at < length self.now.source.now.policy.rules }
    {
        for beside in 0..self.source.rules().len() {
            if self.meets(alloc, beside)? {
                return Ok(true);
            }
        }
        Ok(false)
    }

    /// What is found of the end, on a channel and a stream of the rule: it is granted there, and whoever does it is alone.
    /// `name` is what the text calls who asks, and `place` is where its acts stand.
    fn unmet(&self, alloc: Global, name: &str, place: Place) -> Result<Option<Unmet>, AllocError>
        requires { self.now.at < length self.now.source.now.policy.rules }
        ensures { IfOk result (λ found. IfSome found (IsUnmet self.now.source.now.policy)) }
    {
        let rule = &self.source.rules()[self.at];
        let stream = stream_in(rule.low, rule.high);
        let Some(channel) = self.channel(alloc)? else {
            return Ok(None);
        };
        if !self.is_granted(&channel, stream) {
            return Ok(None);
        }
        if !is_lacking(
            self.source.policy(),
            self.moment,
            self.lack,
            self.act,
            &channel,
            stream,
        ) {
            return Ok(None);
        }
        if self.is_met(alloc)? {
            return Ok(None);
        }
        Ok(Some(Unmet {
            lack: self.lack,
            at: self.at,
            place,
            name: Text::new(alloc, name)?,
            principal: self.principal,
            act: self.act,
            channel,
            stream,
            moment: self.moment,
        }))
    }
}

/// What is found of a rule, at `moment` or once it stands: of its first act that is granted so. `name` is what the text calls
/// its principal.
fn unmet_at(
    alloc: Global,
    source: &WrittenPolicy,
    lack: Lack,
    at: usize,
    name: &str,
    place: Place,
    moment: u64,
) -> Result<Option<Unmet>, AllocError>
    requires { at < length source.now.policy.rules }
    ensures { IfOk result (λ found. IfSome found (IsUnmet source.now.policy)) }
{
    let rule = &source.rules()[at];
    let Some(principal) = asker(source.rules(), rule) else {
        return Ok(None);
    };
    for act in [Act::Publish, Act::PublishExclusive, Act::Join] {
        if rule.allow && rule.acts.hold(act) && (lack == Lack::Other || act != Act::Join) {
            let end = End {
                source,
                at,
                lack,
                act,
                principal,
                moment: moment_for(rule, moment),
            };
            let found = end.unmet(alloc, name, place)?;
            if found.is_some() {
                return Ok(found);
            }
        }
    }
    Ok(None)
}

/// Takes what is found of a rule.
fn put_unmet(
    alloc: Global,
    source: &WrittenPolicy,
    lack: Lack,
    at: usize,
    name: &str,
    place: Place,
    moment: u64,
    found: &mut Vec<Unmet>,
) -> Result<(), AllocError>
    requires { at < length source.now.policy.rules }
    ensures { All (IsUnmet source.now.policy) found.old.items → OnOk result (All (IsUnmet source.now.policy) found.new.items) }
{
    let Some(unmet) = unmet_at(alloc, source, lack, at, name, place, moment)? else {
        return Ok(());
    };
    found.push(unmet)?;
    Ok(())
}

/// What is found of the rules of a policy at a moment, in their order.
pub(crate) fn unmet_in(
    alloc: Global,
    source: &WrittenPolicy,
    places: &Places,
    moment: u64,
) -> Result<Vec<Unmet>, AllocError>
    ensures { IfOk result (λ found. All (IsUnmet source.now.policy) found.items) }
{
    let mut found = Vec::new(alloc);
    for at in 0..source.rules().len() {
        let name = source.principal(at);
        let place = places.of(at.saturating_add(1), "act");
        put_unmet(
            alloc,
            source,
            Lack::Other,
            at,
            name,
            place,
            moment,
            &mut found,
        )?;
        put_unmet(
            alloc,
            source,
            Lack::Resend,
            at,
            name,
            place,
            moment,
            &mut found,
        )?;
    }
    Ok(found)
}

impl fmt::Display for Unmet {
    fn fmt<W: fmt::Write>(&self, f: &mut fmt::Formatter<W>) -> fmt::Result {
        match self.name.as_str() {
            "*" => f.write_str("a principal that no rule names")?,
            name => f.write_str(name)?,
        }
        let act = self.act.name();
        write!(f, " may `{act}` but nobody may ")?;
        match (self.lack, self.act) {
            (Lack::Resend, _) => f.write_str("`retransmit`, so what is lost stays lost"),
            (Lack::Other, Act::Join) => f.write_str("`publish` or `publish-exclusive`"),
            (Lack::Other, _) => f.write_str("`join`"),
        }
    }
}

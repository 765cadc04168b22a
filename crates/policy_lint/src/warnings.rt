ghost use Rattle.std.specs.Prelude.{◌<◌, length};

use crate::acts::{Shape, has_every_act, has_no_request, shape_of, system_type, why_never};
use crate::gaps::gaps_of;
use crate::hiding::Hidden;
use crate::keys::{Wanted, is_by_control};
use crate::pairs::pairs_in;
use crate::warning::{Doubt, Warning};
use channel_uri::{Keys, Media, Pattern};
use policy_core::{Act, Principals, Rule};
use policy_faults::Places;
use policy_tools::{WrittenPolicy, may_meet};
use std::alloc::{AllocError, Global};

/// The warnings about the rules of a policy, as they are found.
#[derive(Drop)]
pub(crate) struct Warned {
    places: Places,
    /// The moment at which the policy is looked at, in nanoseconds since 1970.
    moment: u64,
    warnings: Vec<Warning>,
}

/// The rule that is looked at.
#[derive(Clone, Copy)]
struct Looked<'a> {
    /// Its place, counted from 0.
    at: usize,
    rule: &'a Rule,
    /// The text of its pattern.
    text: &'a str,
    shape: Shape,
}

impl Warned {
    /// Takes a doubt about what stands at a key of a rule.
    fn take(&mut self, at: usize, key: &str, doubt: Doubt) -> Result<(), AllocError> {
        let place = self.places.of(at.saturating_add(1), key);
        self.warnings.push(Warning { at, place, doubt })?;
        Ok(())
    }

    fn take_any(&mut self, at: usize, key: &str, doubt: Option<Doubt>) -> Result<(), AllocError> {
        match doubt {
            Some(doubt) => self.take(at, key, doubt),
            None => Ok(()),
        }
    }

    /// Looks for acts that no request has there.
    fn acts(&mut self, looked: Looked<'_>) -> Result<(), AllocError> {
        let rule = looked.rule;
        if has_every_act(rule) {
            if has_no_request(rule, looked.shape) {
                self.take(looked.at, "channel", Doubt::NoRequest)?;
            }
            return Ok(());
        }
        for act in Act::EVERY {
            if rule.acts.hold(act)
                && let Some(why) = why_never(act, looked.shape, rule.low, rule.high)
            {
                self.take(looked.at, "act", Doubt::Impossible(act, why))?;
            }
        }
        Ok(())
    }

    /// Looks at a key of a pattern.
    fn key(
        &mut self,
        alloc: Global,
        looked: Looked<'_>,
        wanted: Wanted<'_>,
    ) -> Result<(), AllocError> {
        let doubt = wanted.doubt(alloc)?;
        self.take_any(looked.at, "channel", doubt)?;
        let denial = wanted.denial(alloc, looked.rule)?;
        self.take_any(looked.at, "channel", denial)
    }

    /// Looks at the keys of a pattern.
    fn keys(
        &mut self,
        alloc: Global,
        looked: Looked<'_>,
        media: Media,
        keys: &Keys,
    ) -> Result<(), AllocError> {
        let by_control = is_by_control(keys);
        for piece in pairs_in(looked.text).split('|') {
            if let Some((key, _)) = piece.split_once('=') {
                let wanted = Wanted {
                    media,
                    key,
                    value: keys.get(key).unwrap_or(""),
                    by_control,
                };
                self.key(alloc, looked, wanted)?;
            }
        }
        Ok(())
    }

    /// Looks at the types of counters.
    fn types(&mut self, looked: Looked<'_>) -> Result<(), AllocError> {
        let rule = looked.rule;
        let Some(number) = system_type(rule.low, rule.high) else {
            return Ok(());
        };
        if looked.shape.media != Some(Media::Counter) {
            return Ok(());
        }
        if rule.acts.hold(Act::Counter) && rule.allow {
            return self.take(looked.at, "stream", Doubt::SystemType(number));
        }
        if rule.acts.hold(Act::List) {
            return self.take(looked.at, "stream", Doubt::SystemList(number));
        }
        Ok(())
    }

    /// Looks at a rule. `principal` is what the text calls its principal.
    fn rule(
        &mut self,
        alloc: Global,
        source: &WrittenPolicy,
        looked: Looked<'_>,
        principal: &str,
    ) -> Result<(), AllocError>
        requires { looked.at < length source.now.policy.rules }
    {
        self.acts(looked)?;
        if let Pattern::Of(media, keys) = &looked.rule.channel {
            self.keys(alloc, looked, *media, keys)?;
        }
        self.types(looked)?;
        for gap in gaps_of(alloc, source, looked.at, principal, self.moment)? {
            self.take(looked.at, "act", Doubt::Gap(gap))?;
        }
        Ok(())
    }

    /// Looks whether the rule changes nothing.
    fn effect(&mut self, source: &WrittenPolicy, looked: Looked<'_>) -> Result<(), AllocError>
        requires { looked.at < length source.now.policy.rules }
    {
        if changes_nothing(source, looked.at) {
            let doubt = Doubt::ChangesNothing(looked.rule.allow);
            self.take(looked.at, "allow", doubt)?;
        }
        Ok(())
    }

    /// Looks for an earlier rule of the same name, and whether the rule allows everybody everything.
    fn whole(&mut self, source: &WrittenPolicy, looked: Looked<'_>) -> Result<(), AllocError>
        requires { looked.at < length source.now.policy.rules }
    {
        let mut earlier = source.rules().iter().take(looked.at);
        let name = looked.rule.name.as_str();
        if let Some(at) = earlier.position(|rule| rule.name.as_str() == name) {
            self.take(looked.at, "name", Doubt::SameName(at))?;
        }
        if !is_everything(looked.rule) {
            return Ok(());
        }
        let is_timed = looked.rule.from.is_some() || looked.rule.until.is_some();
        let doubt = if is_timed {
            Doubt::AllowsAllThen
        } else {
            Doubt::AllowsAll
        };
        self.take(looked.at, "allow", doubt)
    }
}

/// Whether the rule allows everybody every act on every channel and stream.
fn is_everything(rule: &Rule) -> bool {
    let is_of_all = match (rule.principals, &rule.channel) {
        (Principals::Any, Pattern::Any) => true,
        _ => false,
    };
    is_of_all && has_every_act(rule) && rule.low == i32::MIN && rule.high == i32::MAX && rule.allow
}

/// Whether the policy decides all requests with the same words without the rule at a place: the default has its word, and so has
/// each later rule that may match a request of it.
fn changes_nothing(source: &WrittenPolicy, at: usize) -> bool
    requires { at < length source.now.policy.rules }
{
    let rule = &source.rules()[at];
    if rule.allow != source.policy().default_allows() {
        return false;
    }
    for later in &source.rules()[at + 1..] {
        if later.allow != rule.allow && may_meet(source.text(at), rule, later) {
            return false;
        }
    }
    true
}

/// The warnings about the rules of a policy at a moment, but for those about hidden rules, and about rules that end.
pub(crate) fn warnings_of(
    alloc: Global,
    source: &WrittenPolicy,
    hidden: &[Hidden],
    places: Places,
    moment: u64,
) -> Result<Vec<Warning>, AllocError> {
    let mut warned = Warned {
        places,
        moment,
        warnings: Vec::new(alloc),
    };
    for at in 0..source.rules().len() {
        let rule = &source.rules()[at];
        let text = source.text(at);
        let looked = Looked {
            at,
            rule,
            text,
            shape: shape_of(text, &rule.channel),
        };
        warned.whole(source, looked)?;
        if !hidden.iter().any(|rule| rule.at == at) {
            warned.effect(source, looked)?;
        }
        warned.rule(alloc, source, looked, source.principal(at))?;
    }
    if source.rules().is_empty() && source.policy().default_allows() {
        let place = warned.places.of(0, "default");
        let doubt = Doubt::AllowsByDefault;
        warned.warnings.push(Warning {
            at: 0,
            place,
            doubt,
        })?;
    }
    Ok(warned.warnings)
}

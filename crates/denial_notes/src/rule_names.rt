ghost use Rattle.denial_notes.specs.RuleNames.{called_of, name_in, name_of, numbered};
ghost use Rattle.std.specs.Prelude.{◌≡◌, IfOk, map, option_copied};

use byte_strings::Text;
use policy_core::{Policy, Rule, Verdict};
use std::alloc::{AllocError, Global};
use std::marker::Model;

/// What the rules of a policy are called.
#[derive(Debug, Drop)]
pub struct RuleNames {
    /// The number of the policy.
    epoch: u64,
    names: Vec<Text>,
}

impl Model for RuleNames {
    ghost use Rattle.denial_notes.specs.RuleNames.{Called};

    ghost Value = { Called };

    ghost view = { λ called. record { epoch = called.epoch; names = called.names.items } };
}

/// The names of rules, in their order.
fn names_of(alloc: Global, rules: &[Rule]) -> Result<Vec<Text>, AllocError>
    ensures { IfOk result (λ names. names.items ≡ map name_in rules.now) }
{
    let mut names = Vec::new(alloc);
    for rule in rules {
        names.push(Text::new(alloc, rule.name.as_str())?)?;
    }
    Ok(names)
}

/// The rule of that number, counted from 1.
fn numbered(number: Option<u32>, names: &[Text]) -> Option<&str>
    ensures { option_copied result ≡ numbered number names.now }
{
    let place = number?.checked_sub(1)?;
    let name = names.get(place as usize)?;
    Some(name.as_str())
}

impl RuleNames {
    /// Those of a policy, whose number is that.
    pub fn of(alloc: Global, policy: &Policy, epoch: u64) -> Result<RuleNames, AllocError>
        ensures { IfOk result (λ called. called ≡ called_of epoch policy.now) }
    {
        Ok(RuleNames {
            epoch,
            names: names_of(alloc, policy.rules())?,
        })
    }

    /// The number of the policy.
    pub fn epoch(&self) -> u64
        ensures { result ≡ self.now.epoch }
    {
        self.epoch
    }

    /// The name of the rule that decided, where it is one of that policy.
    pub fn name_of(&self, verdict: &Verdict) -> Option<&str>
        ensures { option_copied result ≡ name_of verdict.now self.now }
    {
        if verdict.epoch != self.epoch {
            return None;
        }
        numbered(verdict.rule, self.names.as_slice())
    }
}

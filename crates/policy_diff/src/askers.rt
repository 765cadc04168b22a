ghost use Rattle.policy_diff.specs.Scope.{is_named, names};
ghost use Rattle.policy_diff.specs.Askers.{AddsNamed, is_among};
ghost use Rattle.std.specs.Prelude.{◌≡◌, OnOk};

use policy_core::{Principals, Rule};
use policy_tools::{Directory, WrittenPolicy};
use std::alloc::AllocError;

/// Whether the number is one of these.
fn is_among(numbers: &[u32], number: u32) -> bool
    ensures { result ≡ is_among numbers.now number }
{
    numbers.iter().any(|other| *other == number)
}

/// Adds the number that a rule names, unless it is there.
fn push_one(named: &mut Vec<u32>, principals: Principals) -> Result<(), AllocError>
    ensures { OnOk result (AddsNamed named.old.items named.new.items (λ principal. names principal principals)) }
{
    if let Principals::One(number) = principals {
        if !is_among(named, number) {
            named.push(number)?;
        }
    }
    Ok(())
}

/// Adds the principals that rules name.
pub(crate) fn push_named(named: &mut Vec<u32>, rules: &[Rule]) -> Result<(), AllocError>
    ensures { OnOk result (AddsNamed named.old.items named.new.items (is_named rules.now)) }
{
    for at in 0..rules.len() {
        let rule = &rules[at];
        push_one(named, rule.principals)?;
    }
    Ok(())
}

/// Whether a rule names the principal.
pub(crate) fn is_named(rules: &[Rule], principal: u32) -> bool
    ensures { result ≡ is_named rules.now principal }
{
    rules.iter().any(|rule| names(rule.principals, principal))
}

/// Whether the principal is named, and not spoken of with everybody.
fn names(principals: Principals, principal: u32) -> bool
    ensures { result ≡ names principal principals }
{
    match principals {
        Principals::Any => false,
        Principals::One(one) => one == principal,
    }
}

/// Somebody whom no rule of either policy names: the first one from 1 on that has a name in the directory; else the first one from
/// 0 on.
pub(crate) fn stranger_in(old: &WrittenPolicy, new: &WrittenPolicy, directory: &Directory) -> u32 {
    let mut stranger = None;
    for number in 0..4096 {
        if !is_named(old.rules(), number) && !is_named(new.rules(), number) {
            if number > 0 && directory.name_of(number).is_some() {
                return number;
            }
            if stranger.is_none() {
                stranger = Some(number);
            }
        }
    }
    stranger.unwrap_or(0)
}

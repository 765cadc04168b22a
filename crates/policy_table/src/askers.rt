ghost use Rattle.policy_table.specs.Scope.{AddsNamed, is_among, is_named, names};
ghost use Rattle.std.specs.Prelude.{◌≡◌, OnOk};

use policy_core::{Principals, Rule};
use std::alloc::AllocError;

/// Whether the number is one of these.
pub(crate) fn is_among(numbers: &[u32], number: u32) -> bool
    ensures { result ≡ is_among numbers.now number }
{
    numbers.iter().any(|other| *other == number)
}

/// Adds the number that a rule names, unless it is there.
fn push_one(named: &mut Vec<u32>, principals: Principals) -> Result<(), AllocError>
    ensures { OnOk result (AddsNamed named.old.items named.new.items (λ principal. names principal principals)) }
{
    if let Principals::One(number) = principals {
        if !is_among(named, number) {
            named.push(number)?;
        }
    }
    Ok(())
}

/// Adds the principals that rules name, each once.
pub(crate) fn push_named(named: &mut Vec<u32>, rules: &[Rule]) -> Result<(), AllocError>
    ensures { OnOk result (AddsNamed named.old.items named.new.items (is_named rules.now)) }
{
    for at in 0..rules.len() {
        let rule = &rules[at];
        push_one(named, rule.principals)?;
    }
    Ok(())
}

//! Acts of which the same is said of an asker.

ghost use Rattle.policy_core.specs.Act.{act_number, every_act};
ghost use Rattle.policy_core.specs.Acts.{with_act};
ghost use Rattle.policy_table.specs.Lane.{from_on};
ghost use Rattle.policy_table.specs.Rows.{acts_like, alike, group_of, groups_of, is_repeated};
ghost use Rattle.std.specs.Ordering.{int_eq};
ghost use Rattle.std.specs.Prelude.{◌≡◌, ◌<◌, ◌&&◌, ◌||◌, ◌++◌, IfOk, if◌then◌else◌, slice_index_or};
ghost use Rattle.std.specs.Str.{bytes_eq};

use crate::scope::{Asker, Scope};
use crate::stretch::{Stretch, stretch_of};
use policy_core::{Act, Acts, Rule};
use std::alloc::{AllocError, Global};

/// An asker and an act, whose rows those acts share of which the same is said.
#[derive(Clone, Copy, Debug)]
pub(crate) struct Group {
    pub(crate) asker: Asker,
    pub(crate) act: Act,
    /// The act, and the others of which the same is said.
    pub(crate) acts: Acts,
}

/// The requests of an asker and an act, from a stream on.
pub(crate) fn from_on(asker: Asker, act: Act, low: i32) -> Scope
    ensures { result ≡ from_on asker act low }
{
    Scope {
        asker,
        act,
        low,
        high: i32::MAX,
    }
}

impl Stretch {
    /// Whether the same rules decide, up to the same stream.
    fn is_like(&self, other: &Stretch) -> bool
        ensures { result ≡ (int_eq self.now.high other.now.high && bytes_eq self.now.rules.items other.now.rules.items) }
    {
        self.high == other.high && self.rules.as_slice() == other.rules.as_slice()
    }
}

/// Whether of two acts the same is said.
fn are_alike(
    alloc: Global,
    rules: &[Rule],
    asker: Asker,
    one: Act,
    other: Act,
) -> Result<bool, AllocError>
    ensures { IfOk result (λ same. same ≡ alike rules.now asker one other) }
{
    let mut low = i32::MIN;
    loop {
        let of_one = from_on(asker, one, low);
        let of_other = from_on(asker, other, low);
        let first = stretch_of(alloc, rules, &of_one)?;
        let second = stretch_of(alloc, rules, &of_other)?;
        if !first.is_like(&second) {
            return Ok(false);
        }
        let high = first.high;
        if high == i32::MAX {
            return Ok(true);
        }
        low = high + 1;
    }
}

/// The act of this number.
fn act_at(number: usize) -> Act
    requires { number < 14 }
    ensures number { act_number result ≡ number }
    ensures place { result ≡ slice_index_or every_act number Act.Publish }
{
    Act::EVERY[number]
}

/// Whether an act was found of which the same is said, or is this one before it.
fn or_alike(
    alloc: Global,
    rules: &[Rule],
    asker: Asker,
    before: Act,
    act: Act,
    found: bool,
) -> Result<bool, AllocError>
    ensures { IfOk result (λ repeated. repeated ≡ (found || alike rules.now asker before act)) }
{
    if found {
        return Ok(true);
    }
    are_alike(alloc, rules, asker, before, act)
}

/// Whether the same is said of an act before the one of this number.
fn is_repeated(
    alloc: Global,
    rules: &[Rule],
    asker: Asker,
    act: Act,
    number: usize,
) -> Result<bool, AllocError>
    requires small { number < 14 }
    requires is_number { act_number act ≡ number }
    ensures { IfOk result (λ repeated. repeated ≡ is_repeated rules.now asker act) }
{
    let mut found = false;
    for before in 0..number {
        let other = act_at(before);
        found = or_alike(alloc, rules, asker, other, act, found)?;
    }
    Ok(found)
}

/// The acts, and the other one if the same is said of it.
fn with_alike(
    alloc: Global,
    rules: &[Rule],
    asker: Asker,
    act: Act,
    other: Act,
    acts: Acts,
) -> Result<Acts, AllocError>
    ensures { IfOk result (λ more. more ≡ (if alike rules.now asker act other then with_act acts other else acts)) }
{
    if are_alike(alloc, rules, asker, act, other)? {
        return Ok(acts.with(other));
    }
    Ok(acts)
}

/// The acts of which the same is said as of this one.
fn acts_like(alloc: Global, rules: &[Rule], asker: Asker, act: Act) -> Result<Acts, AllocError>
    ensures { IfOk result (λ acts. acts ≡ acts_like rules.now asker act) }
{
    let mut acts = Acts::none();
    for number in 0..14 {
        let other = act_at(number);
        acts = with_alike(alloc, rules, asker, act, other, acts)?;
    }
    Ok(acts)
}

/// Adds the group of an act, which has this number, if it is the first of those of which the same is said.
fn push_group(
    alloc: Global,
    rules: &[Rule],
    asker: Asker,
    act: Act,
    number: usize,
    groups: &mut Vec<Group>,
) -> Result<(), AllocError>
    requires small { number < 14 }
    requires is_number { act_number act ≡ number }
    ensures { IfOk result (λ _. groups.new.items ≡ groups.old.items ++ group_of rules.now asker act) }
{
    if is_repeated(alloc, rules, asker, act, number)? {
        return Ok(());
    }
    let acts = acts_like(alloc, rules, asker, act)?;
    groups.push(Group { asker, act, acts })?;
    Ok(())
}

/// Adds the groups of an asker.
pub(crate) fn push_groups(
    alloc: Global,
    rules: &[Rule],
    asker: Asker,
    groups: &mut Vec<Group>,
) -> Result<(), AllocError>
    ensures { IfOk result (λ _. groups.new.items ≡ groups.old.items ++ groups_of rules.now asker) }
{
    for number in 0..14 {
        let act = act_at(number);
        push_group(alloc, rules, asker, act, number, groups)?;
    }
    Ok(())
}

ghost use Rattle.policy_core.specs.Act.{act_number};
ghost use Rattle.policy_core.specs.Rule.{speaks_of};
ghost use Rattle.policy_core.specs.RuleList.{Rules};
ghost use Rattle.policy_core.specs.declared.act.Act.{Act};
ghost use Rattle.policy_core.specs.declared.rule.Rule.{Rule};
ghost use Rattle.policy_lint.specs.Held.{HeldAt};
ghost use Rattle.channel_uri.specs.Pattern.{pattern_of};
ghost use Rattle.policy_lint.specs.Hiding.{ActIsHeld, AreFound, AreOver, Holds, IsHeld, IsHider, IsHiddenBy, IsOverAt, NeverDecides, hides};
ghost use Rattle.std.specs.List.{All, Contains};
ghost use Rattle.std.specs.Prelude.{◌≡◌, ◌+◌, ◌<◌, ◌≤ℤ◌, ◌<ℤ◌, ℕ, ℤ, List, IfNone, IfOk, IfSome, IsSome, Ok, OnOk, Some, length, map, slice_get, slice_index_or, true};

use crate::lasting::outlasts;
use policy_core::{Act, Principals, Rule};
use policy_tools::{WrittenPolicy, is_wider};
use std::alloc::{AllocError, Global};

/// A rule that never decides, with rules before it that take each request from it.
#[derive(Drop)]
pub struct Hidden {
    /// The place of the rule in its policy, counted from 0.
    pub at: usize,
    /// The places of the rules that hide it.
    pub by: Vec<usize>,
}

/// Whether everybody among the narrow ones is found among the wide ones.
fn includes(wide: Principals, narrow: Principals) -> bool
    ensures { result ≡ true → (principal : ℕ) → speaks_of narrow principal ≡ true → speaks_of wide principal ≡ true }
{
    match wide {
        Principals::Any => true,
        Principals::One(one) => match narrow {
            Principals::Any => false,
            Principals::One(other) => one == other,
        },
    }
}

/// Whether the wide rule, whose pattern has that text, hides the narrow one by itself: it stands whenever that one does, and
/// each part of it is as wide.
fn hides(text: &str, wide: &Rule, narrow: &Rule) -> bool
    requires { pattern_of text.now ≡ Ok wide.now.channel }
    ensures { result ≡ hides wide.now narrow.now }
{
    outlasts(wide, narrow) && policy_tools::is_over(text, wide, narrow)
}

/// Whether the rule at a place hides that one by itself.
fn hides_at(source: &WrittenPolicy, place: usize, narrow: &Rule) -> bool
    requires { place < length source.now.policy.rules }
    ensures { result ≡ hides (slice_index_or source.now.policy.rules place narrow.now) narrow.now }
{
    let wide = &source.rules()[place];
    hides(source.text(place), wide, narrow)
}

/// The first rule before `at` that hides the one there by itself.
fn first_hider(source: &WrittenPolicy, at: usize) -> Option<usize>
    requires { at < length source.now.policy.rules }
    ensures some { IfSome result (λ place. IsHider source.now.policy.rules place at) }
    ensures none { IfNone result ((place : ℕ) → IsHider source.now.policy.rules place at → ⊥) }
{
    let narrow = &source.rules()[at];
    for place in 0..at {
        if hides_at(source, place, narrow) {
            return Some(place);
        }
    }
    None
}

/// Whether the rule at `place` is found to be over the one at `at`: acts and streams apart, it stands whenever that one does
/// and matches what that one matches.
fn is_over(source: &WrittenPolicy, place: usize, at: usize) -> bool
    requires place_within { place < length source.now.policy.rules }
    requires at_within { at < length source.now.policy.rules }
    ensures { result ≡ true → IsOverAt source.now.policy.rules place at }
{
    let wide = &source.rules()[place];
    let narrow = &source.rules()[at];
    includes(wide.principals, narrow.principals)
        && outlasts(wide, narrow)
        && is_wider(source.text(place), &wide.channel, &narrow.channel)
}

/// Whether `place` is before `at`, with a rule that is found to be over the one there.
fn is_over_before(source: &WrittenPolicy, place: usize, at: usize) -> bool
    requires { at < length source.now.policy.rules }
    ensures before { result ≡ true → place < at }
    ensures over { result ≡ true → IsOverAt source.now.policy.rules place at }
{
    if place >= at {
        return false;
    }
    is_over(source, place, at)
}

/// Whether it is so of each of these places.
fn are_over(source: &WrittenPolicy, places: &[usize], at: usize) -> bool
    requires { at < length source.now.policy.rules }
    ensures { result ≡ true → AreOver source.now.policy.rules places.now at }
{
    for place in places {
        if !is_over_before(source, *place, at) {
            return false;
        }
    }
    true
}

/// The first stream, from `from` on, for which the rule doesn't hold the act.
fn next_left(rule: &Rule, act: Act, from: i64) -> i64
    ensures { (stream : ℤ) → from ≤ℤ stream → stream <ℤ result → Holds rule.now act stream }
{
    let (low, high) = (i64::from(rule.low), i64::from(rule.high));
    if rule.acts.hold(act) && low <= from && from <= high {
        return high + 1;
    }
    from
}

/// The same of the rule at a place; `from` where there is none.
fn next_left_at(rules: &[Rule], place: usize, act: Act, from: i64) -> i64
    ensures { (stream : ℤ) → from ≤ℤ stream → stream <ℤ result → HeldAt rules.now place act stream }
{
    let len = rules.len();
    if place >= len {
        return from;
    }
    let rule = &rules[place];
    next_left(rule, act, from)
}

/// A stream up to which, from `low` on, one of the rules at these places holds the act. Where they are in the order of
/// their lowest streams it is the first one for which none does.
fn first_left(rules: &[Rule], places: &[usize], act: Act, low: i64) -> i64
    ensures { (stream : ℤ) → low ≤ℤ stream → stream <ℤ result → IsHeld rules.now places.now act stream }
{
    let mut from = low;
    for place in places {
        from = next_left_at(rules, *place, act, from);
    }
    from
}

/// Whether the rules at these places are found to hold the act wherever the rule at `at` does.
fn act_is_held(rules: &[Rule], places: &[usize], at: usize, act: Act) -> bool
    requires { at < length rules.now }
    ensures { result ≡ true → ActIsHeld rules.now places.now at act }
{
    let rule = &rules[at];
    if !rule.acts.hold(act) {
        return true;
    }
    let (low, high) = (i64::from(rule.low), i64::from(rule.high));
    let left = first_left(rules, places, act, low);
    if left <= high {
        return false;
    }
    true
}

/// The same of each act.
fn acts_are_held(rules: &[Rule], places: &[usize], at: usize) -> bool
    requires { at < length rules.now }
    ensures { result ≡ true → (act : Act) → ActIsHeld rules.now places.now at act }
{
    for number in 0..14 {
        if !act_is_held(rules, places, at, Act::EVERY[number]) {
            return false;
        }
    }
    true
}

/// Whether the rules at these places are found to hide the rule at `at`: each is before it, speaks of everybody and of each
/// channel of whom it speaks, and for each of its acts and streams one of them has both.
fn hide(source: &WrittenPolicy, places: &[usize], at: usize) -> bool
    requires { at < length source.now.policy.rules }
    ensures { result ≡ true → IsHiddenBy source.now.policy.rules at places.now }
{
    if !are_over(source, places, at) {
        return false;
    }
    acts_are_held(source.rules(), places, at)
}

/// The places of the rules, in the order of their lowest streams.
fn by_low(alloc: Global, rules: &[Rule]) -> Result<Vec<(i32, usize)>, AllocError> {
    let mut places = Vec::new(alloc);
    for (at, rule) in rules.iter().enumerate() {
        places.push((rule.low, at))?;
    }
    places.sort_unstable();
    Ok(places)
}

/// Whether the rule at `place` may have a part in hiding the one at `at`.
fn may_hide(source: &WrittenPolicy, place: usize, at: usize) -> bool
    requires { at < length source.now.policy.rules }
{
    let narrow = &source.rules()[at];
    match source.rules().get(place) {
        Some(wide) => {
            wide.low <= narrow.high && narrow.low <= wide.high && is_over_before(source, place, at)
        }
        None => false,
    }
}

/// The places of the rules before `at` that are over the one there, in the same order.
fn candidates(
    alloc: Global,
    source: &WrittenPolicy,
    order: &[(i32, usize)],
    at: usize,
) -> Result<Vec<usize>, AllocError>
    requires { at < length source.now.policy.rules }
{
    let mut places = Vec::new(alloc);
    for (_low, place) in order {
        if may_hide(source, *place, at) {
            places.push(*place)?;
        }
    }
    Ok(places)
}

/// Takes the places whose rules are needed for an act.
fn put_needed(
    needed: &mut Vec<usize>,
    rules: &[Rule],
    places: &[usize],
    act: Act,
    range: (i32, i32),
) -> Result<(), AllocError> {
    let mut from = i64::from(range.0);
    for place in places {
        if from <= i64::from(range.1) {
            let next = next_left_at(rules, *place, act, from);
            if next != from && !needed.contains(place) {
                needed.push(*place)?;
            }
            from = next;
        }
    }
    Ok(())
}

/// Those of the places that are among the needed ones, in the same order.
fn in_order(alloc: Global, places: &[usize], needed: &[usize]) -> Result<Vec<usize>, AllocError> {
    let mut ordered = Vec::new(alloc);
    for place in places {
        if needed.contains(place) {
            ordered.push(*place)?;
        }
    }
    Ok(ordered)
}

/// Those of the places whose rules are needed to hide the one at `at`, in the same order.
fn needed(
    alloc: Global,
    rules: &[Rule],
    places: &[usize],
    at: usize,
) -> Result<Vec<usize>, AllocError>
    requires { at < length rules.now }
{
    let rule = &rules[at];
    let mut needed = Vec::new(alloc);
    for act in Act::EVERY {
        if rule.acts.hold(act) {
            put_needed(&mut needed, rules, places, act, (rule.low, rule.high))?;
        }
    }
    in_order(alloc, places, needed.as_slice())
}

/// The places of rules that are likely to hide the one at `at` together; none where none are found.
fn hiders(
    alloc: Global,
    source: &WrittenPolicy,
    order: &[(i32, usize)],
    at: usize,
) -> Result<Vec<usize>, AllocError>
    requires { at < length source.now.policy.rules }
{
    let places = candidates(alloc, source, order, at)?;
    if !acts_are_held(source.rules(), places.as_slice(), at) {
        return Ok(Vec::new(alloc));
    }
    needed(alloc, source.rules(), places.as_slice(), at)
}

/// What is found of the rule at `at` where several rules hide it together.
fn hidden_together(
    alloc: Global,
    source: &WrittenPolicy,
    order: &[(i32, usize)],
    at: usize,
) -> Result<Option<Hidden>, AllocError>
    requires { at < length source.now.policy.rules }
    ensures sound { IfOk result (λ found. IfSome found (λ hidden. IsHiddenBy source.now.policy.rules hidden.at hidden.by.items)) }
    ensures here { IfOk result (λ found. IfSome found (λ hidden. hidden.at ≡ at)) }
{
    let by = hiders(alloc, source, order, at)?;
    if !hide(source, by.as_slice(), at) {
        return Ok(None);
    }
    Ok(Some(Hidden { at, by }))
}

/// The rule at `at`, hidden by the one at `place` alone.
fn hidden_by(alloc: Global, place: usize, at: usize) -> Result<Hidden, AllocError>
    ensures sound { (rules : List Rule) → IsHider rules place at → IfOk result (λ hidden. IsHiddenBy rules hidden.at hidden.by.items) }
    ensures here { IfOk result (λ hidden. hidden.at ≡ at) }
{
    let mut by = Vec::new(alloc);
    by.push(place)?;
    Ok(Hidden { at, by })
}

/// What is found of the rule at `at`: it is found to be hidden at least where one rule hides it by itself.
fn hidden_at(
    alloc: Global,
    source: &WrittenPolicy,
    order: &[(i32, usize)],
    at: usize,
) -> Result<Option<Hidden>, AllocError>
    requires { at < length source.now.policy.rules }
    ensures sound { IfOk result (λ found. IfSome found (λ hidden. IsHiddenBy source.now.policy.rules hidden.at hidden.by.items)) }
    ensures here { IfOk result (λ found. IfSome found (λ hidden. hidden.at ≡ at)) }
    ensures found { (place : ℕ) → IsHider source.now.policy.rules place at → IfOk result IsSome }
{
    match first_hider(source, at) {
        Some(place) => {
            let hidden = hidden_by(alloc, place, at)?;
            Ok(Some(hidden))
        }
        None => hidden_together(alloc, source, order, at),
    }
}

/// Takes the rule at `at`, where it is found to be hidden.
fn put_hidden(
    alloc: Global,
    source: &WrittenPolicy,
    order: &[(i32, usize)],
    at: usize,
    found: &mut Vec<Hidden>,
) -> Result<(), AllocError>
    requires { at < length source.now.policy.rules }
    ensures sound { All (λ hidden. IsHiddenBy source.now.policy.rules hidden.at hidden.by.items) found.old.items → OnOk result (All (λ hidden. IsHiddenBy source.now.policy.rules hidden.at hidden.by.items) found.new.items) }
    ensures found { AreFound source.now.policy.rules found.old.items at → OnOk result (AreFound source.now.policy.rules found.new.items (at + 1)) }
{
    let Some(hidden) = hidden_at(alloc, source, order, at)? else {
        return Ok(());
    };
    found.push(hidden)?;
    Ok(())
}

/// The rules that never decide, as far as they are found, in their order: at least those that one rule hides by itself.
pub fn hidden_in(alloc: Global, source: &WrittenPolicy) -> Result<Vec<Hidden>, AllocError>
    ensures sound { IfOk result (λ found. All (λ hidden. IsHiddenBy source.now.policy.rules hidden.at hidden.by.items) found.items) }
    ensures found { IfOk result (λ found. (at : ℕ) (place : ℕ) → IsHider source.now.policy.rules place at → Contains (map (λ hidden. hidden.at) found.items) at) }
{
    let order = by_low(alloc, source.rules())?;
    let mut found = Vec::new(alloc);
    for at in 0..source.rules().len() {
        put_hidden(alloc, source, order.as_slice(), at, &mut found)?;
    }
    Ok(found)
}

/// A rule that rules before it hide is no verdict's rule.
pub fn hidden_rules_never_decide()
    ensures { (policy : Rules) (at : ℕ) (places : List ℕ) → IsHiddenBy policy.rules at places → NeverDecides policy (at + 1) }
{}

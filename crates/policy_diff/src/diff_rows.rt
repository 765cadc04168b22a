//! The rows of two policies.

ghost use Rattle.policy_core.specs.Acts.{holds};
ghost use Rattle.policy_core.specs.Question.{Question};
ghost use Rattle.policy_core.specs.RuleList.{Rules};
ghost use Rattle.policy_diff.specs.Adding.{Adds, AddsScope, AreNamed, AreWordsApart, IsOfOne, IsPairOf, IsTakenOff, IsWholePair, NoneIsLeft};
ghost use Rattle.policy_diff.specs.Deciding.{IsExample};
ghost use Rattle.policy_core.specs.declared.act.Act.{Act};
ghost use Rattle.policy_diff.specs.Diff.{AreApart, IsDiff, IsSound, word_of};
ghost use Rattle.std.specs.List.{All};
ghost use Rattle.std.specs.Prelude.{◌≡◌, ◌≤ℤ◌, IfOk, IfSome, OnOk, false, true};

use crate::acts::{act_at, acts_of_both};
use crate::askers::{push_named, stranger_in};
use crate::cutting::{Naming, acts_like, end_among, named_with, rivals_of};
use crate::examples::{Example, channels_of};
use crate::narrowing::scope_of;
use crate::pairs::{Deciders, pairs_of, word_of};
use crate::scope::{Asker, Scope};
use crate::showing::example_among;
use crate::taking::is_taken;
use channel_uri::Channel;
use policy_core::{Act, Acts};
use policy_tools::{Directory, WrittenPolicy};
use std::alloc::{AllocError, Global};

/// Requests that are decided otherwise by the new policy than by the old one.
#[derive(Debug, Drop)]
pub struct Row {
    /// What decides them, in the old policy and in the new one.
    pub deciders: Deciders,
    /// Whose they are, of which acts, and on which streams.
    pub scope: Scope,
    /// One of them, on whose channel all of the scope are decided so; `None` where none was found, so that there may be none.
    pub example: Option<Example>,
}

/// What is looked at for a pair of what decides.
#[derive(Drop)]
struct Pair<'a> {
    before: &'a WrittenPolicy,
    after: &'a WrittenPolicy,
    deciders: Deciders,
    /// The places of the old policy's rules that may take requests from the two.
    old_rivals: Vec<usize>,
    /// The same of the new policy.
    new_rivals: Vec<usize>,
    /// Channels on which the two are likely to decide.
    channels: Vec<Channel>,
    /// Somebody whom no rule names, mostly.
    stranger: u32,
}

impl Pair<'_> {
    /// Whether a rule before either of the two takes each request of the scope.
    fn is_taken(&self, scope: &Scope) -> bool
        ensures { result ≡ true → NoneIsLeft self.now.before.now.policy self.now.after.now.policy self.now.deciders scope.now }
    {
        let (old, new, deciders) = (self.before, self.after, self.deciders);
        is_taken(
            old,
            &self.old_rivals,
            deciders.old,
            old,
            new,
            deciders,
            scope,
        ) || is_taken(
            new,
            &self.new_rivals,
            deciders.new,
            old,
            new,
            deciders,
            scope,
        )
    }

    /// An example of the scope, where one is found.
    fn example(&self, scope: &Scope) -> Option<Example>
        ensures { IfSome result (λ example. IsExample self.now.before.now.policy self.now.after.now.policy self.now.deciders scope.now example) }
    {
        example_among(
            self.before.policy(),
            self.after.policy(),
            self.deciders,
            scope,
            &self.channels,
            self.stranger,
        )
    }

    /// Whether something is found of the scope as a whole.
    fn is_settled(&self, scope: &Scope) -> bool {
        self.is_taken(scope) || self.example(scope).is_some()
    }

    /// Whom the principals of the scope are to be told apart from: where nothing is found of them all, those whom a rule names that
    /// may take requests of it.
    fn told_apart(&self, scope: &Scope) -> Naming {
        if scope.asker != Asker::Every || self.is_settled(scope) {
            return Naming::Nobody;
        }
        let old = named_with(self.before.rules(), &self.old_rivals, scope, Naming::Nobody);
        named_with(self.after.rules(), &self.new_rivals, scope, old)
    }

    /// The last stream, from the lowest one of the scope on, up to which no rule that may take requests begins or ends.
    fn end_of(&self, scope: &Scope) -> i32
        requires { scope.now.low ≤ℤ scope.now.high }
        ensures from { scope.now.low ≤ℤ result }
        ensures upto { result ≤ℤ scope.now.high }
    {
        let end = end_among(self.before.rules(), &self.old_rivals, scope, scope.high);
        end_among(self.after.rules(), &self.new_rivals, scope, end)
    }

    /// The acts of those left that are like one of them.
    fn acts_like(&self, act: Act, left: Acts) -> Acts {
        let (old, new) = (self.before.rules(), self.after.rules());
        acts_like(old, &self.old_rivals, new, &self.new_rivals, act, left)
    }

    /// Adds the row of the scope, unless it is known that there is no request of it.
    fn push_row(&self, scope: Scope, rows: &mut Vec<Row>) -> Result<(), AllocError>
        requires { AreWordsApart self.now.before.now.policy self.now.after.now.policy self.now.deciders }
        ensures { OnOk result (AddsScope self.now.before.now.policy self.now.after.now.policy self.now.deciders scope rows.old.items rows.new.items) }
    {
        if self.is_taken(&scope) {
            return Ok(());
        }
        let deciders = self.deciders;
        let example = self.example(&scope);
        rows.push(Row {
            deciders,
            scope,
            example,
        })?;
        Ok(())
    }

    /// Adds the rows of the scope, of one principal and of all but that one.
    fn push_two(&self, scope: Scope, number: u32, rows: &mut Vec<Row>) -> Result<(), AllocError>
        requires { AreWordsApart self.now.before.now.policy self.now.after.now.policy self.now.deciders }
        ensures { OnOk result (AddsScope self.now.before.now.policy self.now.after.now.policy self.now.deciders scope rows.old.items rows.new.items) }
    {
        let asker = Asker::One(number);
        self.push_row(Scope { asker, ..scope }, rows)?;
        let asker = Asker::But(number);
        self.push_row(Scope { asker, ..scope }, rows)
    }

    /// Adds the rows of the scope, of each principal that is named and of all others.
    fn push_each(&self, scope: Scope, named: &[u32], rows: &mut Vec<Row>) -> Result<(), AllocError>
        requires words { AreWordsApart self.now.before.now.policy self.now.after.now.policy self.now.deciders }
        requires named { AreNamed self.now.before.now.policy self.now.after.now.policy named.now }
        ensures { OnOk result (AddsScope self.now.before.now.policy self.now.after.now.policy self.now.deciders scope rows.old.items rows.new.items) }
    {
        for at in 0..named.len() {
            let asker = Asker::One(named[at]);
            self.push_row(Scope { asker, ..scope }, rows)?;
        }
        let asker = Asker::Others;
        self.push_row(Scope { asker, ..scope }, rows)
    }

    /// Adds the rows of the scope, whose principals are told apart only where that matters.
    fn push_scope(&self, scope: Scope, named: &[u32], rows: &mut Vec<Row>) -> Result<(), AllocError>
        requires words { AreWordsApart self.now.before.now.policy self.now.after.now.policy self.now.deciders }
        requires named { AreNamed self.now.before.now.policy self.now.after.now.policy named.now }
        ensures { OnOk result (AddsScope self.now.before.now.policy self.now.after.now.policy self.now.deciders scope rows.old.items rows.new.items) }
    {
        match self.told_apart(&scope) {
            Naming::Nobody => self.push_row(scope, rows),
            Naming::Only(number) => self.push_two(scope, number, rows),
            Naming::Several => self.push_each(scope, named, rows),
        }
    }

    /// Adds the rows of the scope, from its lowest stream to its highest, cut where a rule that may take requests begins or ends.
    fn push_streams(
        &self,
        scope: Scope,
        named: &[u32],
        rows: &mut Vec<Row>,
    ) -> Result<(), AllocError>
        requires words { AreWordsApart self.now.before.now.policy self.now.after.now.policy self.now.deciders }
        requires named { AreNamed self.now.before.now.policy self.now.after.now.policy named.now }
        ensures { OnOk result (AddsScope self.now.before.now.policy self.now.after.now.policy self.now.deciders scope rows.old.items rows.new.items) }
    {
        if scope.low > scope.high {
            return Ok(());
        }
        let mut low = scope.low;
        loop {
            let rest = Scope { low, ..scope };
            let high = self.end_of(&rest);
            self.push_scope(Scope { high, ..rest }, named, rows)?;
            if high == scope.high {
                return Ok(());
            }
            low = high + 1;
        }
    }

    /// Adds the rows of the scope, whose streams are cut only where nothing is found of them all.
    fn push_part(&self, scope: Scope, named: &[u32], rows: &mut Vec<Row>) -> Result<(), AllocError>
        requires words { AreWordsApart self.now.before.now.policy self.now.after.now.policy self.now.deciders }
        requires named { AreNamed self.now.before.now.policy self.now.after.now.policy named.now }
        ensures { OnOk result (AddsScope self.now.before.now.policy self.now.after.now.policy self.now.deciders scope rows.old.items rows.new.items) }
    {
        if self.is_settled(&scope) {
            return self.push_row(scope, rows);
        }
        self.push_streams(scope, named, rows)
    }

    /// Adds the rows of those of the acts left that are like one of them, if it is, and gives the acts that are left then.
    fn push_like(
        &self,
        scope: Scope,
        act: Act,
        left: Acts,
        named: &[u32],
        rows: &mut Vec<Row>,
    ) -> Result<Acts, AllocError>
        requires words { AreWordsApart self.now.before.now.policy self.now.after.now.policy self.now.deciders }
        requires named { AreNamed self.now.before.now.policy self.now.after.now.policy named.now }
        ensures done { IfOk result (λ acts. holds acts act ≡ false) }
        ensures fewer { IfOk result (λ acts. (other : Act) → holds left other ≡ false → holds acts other ≡ false) }
        ensures adds { IfOk result (λ acts. Adds self.now.before.now.policy self.now.after.now.policy (IsTakenOff self.now.before.now.policy self.now.after.now.policy self.now.deciders scope left acts) rows.old.items rows.new.items) }
    {
        if !left.hold(act) {
            return Ok(left);
        }
        let acts = self.acts_like(act, left).with(act);
        self.push_part(Scope { acts, ..scope }, named, rows)?;
        Ok(acts_of_both(left, acts, false))
    }

    /// Adds the rows of the scope, where acts of which the same is said share their rows.
    fn push_acts(&self, scope: Scope, named: &[u32], rows: &mut Vec<Row>) -> Result<(), AllocError>
        requires words { AreWordsApart self.now.before.now.policy self.now.after.now.policy self.now.deciders }
        requires named { AreNamed self.now.before.now.policy self.now.after.now.policy named.now }
        ensures { OnOk result (AddsScope self.now.before.now.policy self.now.after.now.policy self.now.deciders scope rows.old.items rows.new.items) }
    {
        let mut left = scope.acts;
        for number in 0..14 {
            let act = act_at(number);
            left = self.push_like(scope, act, left, named, rows)?;
        }
        Ok(())
    }

    /// Adds the rows of the scope, which is cut only where nothing is found of it as a whole.
    fn push_whole(&self, scope: Scope, named: &[u32], rows: &mut Vec<Row>) -> Result<(), AllocError>
        requires words { AreWordsApart self.now.before.now.policy self.now.after.now.policy self.now.deciders }
        requires named { AreNamed self.now.before.now.policy self.now.after.now.policy named.now }
        ensures { OnOk result (AddsScope self.now.before.now.policy self.now.after.now.policy self.now.deciders scope rows.old.items rows.new.items) }
    {
        if self.is_settled(&scope) {
            return self.push_row(scope, rows);
        }
        self.push_acts(scope, named, rows)
    }
}

/// What is looked at for the two.
fn pair_of<'a>(
    alloc: Global,
    old: &'a WrittenPolicy,
    new: &'a WrittenPolicy,
    deciders: Deciders,
    scope: &Scope,
    stranger: u32,
) -> Result<Pair<'a>, AllocError>
    ensures { IfOk result (λ pair. IsPairOf old.now.policy new.now.policy deciders pair) }
{
    Ok(Pair {
        before: old,
        after: new,
        deciders,
        old_rivals: rivals_of(alloc, old, deciders.old, old, new, deciders, scope)?,
        new_rivals: rivals_of(alloc, new, deciders.new, old, new, deciders, scope)?,
        channels: channels_of(alloc, old, new, deciders)?,
        stranger,
    })
}

/// Whether the two have one word.
fn have_one_word(old: &WrittenPolicy, new: &WrittenPolicy, deciders: Deciders) -> bool
    ensures same { result ≡ true → word_of old.now.policy deciders.old ≡ word_of new.now.policy deciders.new }
    ensures apart { result ≡ false → AreWordsApart old.now.policy new.now.policy deciders }
{
    word_of(old.policy(), deciders.old) == word_of(new.policy(), deciders.new)
}

/// Adds the rows of the two, if they have different words.
fn push_pair(
    alloc: Global,
    old: &WrittenPolicy,
    new: &WrittenPolicy,
    deciders: Deciders,
    named: &[u32],
    stranger: u32,
    rows: &mut Vec<Row>,
) -> Result<(), AllocError>
    requires { AreNamed old.now.policy new.now.policy named.now }
    ensures { OnOk result (Adds old.now.policy new.now.policy (IsWholePair old.now.policy new.now.policy deciders) rows.old.items rows.new.items) }
{
    if have_one_word(old, new, deciders) {
        return Ok(());
    }
    let scope = scope_of(old, new, deciders);
    let pair = pair_of(alloc, old, new, deciders, &scope, stranger)?;
    pair.push_whole(scope, named, rows)
}

/// The principals that rules of the policies name.
fn named_of(alloc: Global, old: &WrittenPolicy, new: &WrittenPolicy) -> Result<Vec<u32>, AllocError>
    ensures { IfOk result (λ named. AreNamed old.now.policy new.now.policy named.items) }
{
    let mut named = Vec::new(alloc);
    push_named(&mut named, old.rules())?;
    push_named(&mut named, new.rules())?;
    Ok(named)
}

/// Adds the rows of each of the pairs.
fn push_pairs(
    alloc: Global,
    old: &WrittenPolicy,
    new: &WrittenPolicy,
    pairs: &[Deciders],
    named: &[u32],
    stranger: u32,
    rows: &mut Vec<Row>,
) -> Result<(), AllocError>
    requires { AreNamed old.now.policy new.now.policy named.now }
    ensures { OnOk result (Adds old.now.policy new.now.policy (IsOfOne old.now.policy new.now.policy pairs.now) rows.old.items rows.new.items) }
{
    for at in 0..pairs.len() {
        push_pair(alloc, old, new, pairs[at], named, stranger, rows)?;
    }
    Ok(())
}

/// The rows of two policies. Each request that one policy allows and the other denies is of a row, and is decided by the two of
/// it. Where a row has an example, each request of it on the example's channel is decided so; where it has none, there may be no
/// such request. Rows stand in the order of the old policy's rules, and under each in that of the new one's; the default is the
/// last one.
pub fn differences(
    alloc: Global,
    old: &WrittenPolicy,
    new: &WrittenPolicy,
    directory: &Directory,
) -> Result<Vec<Row>, AllocError>
    ensures { IfOk result (λ rows. IsDiff old.now.policy new.now.policy rows.items) }
{
    let pairs = pairs_of(alloc, old, new)?;
    let named = named_of(alloc, old, new)?;
    let stranger = stranger_in(old, new, directory);
    let mut rows = Vec::new(alloc);
    push_pairs(alloc, old, new, &pairs, &named, stranger, &mut rows)?;
    Ok(rows)
}

/// Whether the row has an example, so that the policies decide some request otherwise.
fn is_shown(row: &Row) -> bool
    ensures { result ≡ true → (old : Rules) (new : Rules) → IsSound old new row.now → (question : Question) × AreApart old new question }
{
    match row.example {
        Some(_) => true,
        None => false,
    }
}

/// Whether one of the rows has an example.
pub fn are_apart(rows: &[Row]) -> bool
    ensures { result ≡ true → (old : Rules) (new : Rules) → All (IsSound old new) rows.now → (question : Question) × AreApart old new question }
{
    for at in 0..rows.len() {
        if is_shown(&rows[at]) {
            return true;
        }
    }
    false
}

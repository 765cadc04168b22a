ghost use Rattle.compiled_policy.specs.Class.{is_in};
ghost use Rattle.compiled_policy.specs.Decider.{IsDecider};
ghost use Rattle.compiled_policy.specs.Group.{is_of};
ghost use Rattle.compiled_policy.specs.Index.{IsIndex, IsIndexAt};
ghost use Rattle.compiled_policy.specs.Line.{AreStarts, Ascend, is_on};
ghost use Rattle.compiled_policy.specs.RuleSet.{AddsWhere, AreEmpty, AreSetsOf};
ghost use Rattle.policy_core.specs.Question.{question_of};
ghost use Rattle.std.specs.Prelude.{◌≡◌, ◌<◌, ◌≤◌, length};

use crate::candidates::{Candidates, first_match};
use crate::class::{CLASSES, class_of, is_in};
use crate::group::{GROUPS, group_of, groups_of};
use crate::line::{INTERVALS, cut_by, end_of, on_line, place_of, start_of};
use crate::room::replace;
use crate::rule_set::{RuleSet, clear, insert_into};
use policy_core::{Request, Rule, Standing};
use std::alloc::{AllocError, Global};
use std::marker::Model;

/// The rules of each class, of each group and of each interval of streams.
#[derive(Debug, Drop)]
pub(crate) struct Index {
    /// For each class its rules.
    classes: Vec<RuleSet>,
    /// For each group the rules on everybody or on one of it.
    groups: Vec<RuleSet>,
    /// For each interval the rules whose range holds it.
    intervals: Vec<RuleSet>,
    /// Where the intervals start.
    starts: Vec<u64>,
}

impl Model for Index {
    ghost use Rattle.std.specs.Prelude.{◌≤◌, length};
    ghost use Rattle.std.specs.Vec.{vec_capacity};
    ghost use Rattle.compiled_policy.specs.Index.{Tables};

    ghost Value = { Tables };

    ghost view = { λ index. record {
      classes = index.classes.items;
      groups = index.groups.items;
      intervals = index.intervals.items;
      starts = index.starts.items;
    } };

    ghost invariant = { λ index.
        ((length index.classes.items ≤ 42) × (42 ≤ vec_capacity index.classes))
        × ((length index.groups.items ≤ 64) × (64 ≤ vec_capacity index.groups))
        × ((length index.intervals.items ≤ 2049) × (2049 ≤ vec_capacity index.intervals))
        × ((length index.starts.items ≤ 2049) × (2049 ≤ vec_capacity index.starts)) };
}

/// Puts the rule at this place into the sets of its classes.
fn insert_into_classes(classes: &mut [RuleSet], rule: &Rule, place: usize)
    requires place { place < 1024 }
    requires classes { length classes.old ≡ 42 }
    ensures { AddsWhere classes.old classes.new (λ class. is_in class rule.now) place }
{
    for class in 0..CLASSES {
        if is_in(class, rule) {
            classes[class].insert(place);
        }
    }
}

/// Each class gets its rules.
fn fill_classes(classes: &mut [RuleSet], rules: &[Rule])
    requires few { length rules.now ≤ 1024 }
    requires classes { length classes.old ≡ 42 }
    requires empty { AreEmpty classes.old }
    ensures classes { length classes.new ≡ 42 }
    ensures sets { AreSetsOf rules.now is_in (length rules.now) classes.new }
{
    for place in 0..rules.len() {
        insert_into_classes(classes, &rules[place], place);
    }
}

/// Each group gets its rules.
fn fill_groups(groups: &mut [RuleSet], rules: &[Rule])
    requires few { length rules.now ≤ 1024 }
    requires groups { length groups.old ≡ 64 }
    requires empty { AreEmpty groups.old }
    ensures groups { length groups.new ≡ 64 }
    ensures sets { AreSetsOf rules.now is_of (length rules.now) groups.new }
{
    for place in 0..rules.len() {
        let rule = &rules[place];
        let (from, to) = groups_of(rule.principals);
        insert_into(groups, from, to, place);
    }
}

/// Each interval gets the rules whose range holds it.
fn fill_intervals(intervals: &mut [RuleSet], starts: &[u64], rules: &[Rule])
    requires few { length rules.now ≤ 1024 }
    requires starts { AreStarts rules.now (length rules.now) starts.now }
    requires intervals { length intervals.old ≡ length starts.now }
    requires empty { AreEmpty intervals.old }
    ensures intervals { length intervals.new ≡ length starts.now }
    ensures sets { AreSetsOf rules.now (is_on starts.now) (length rules.now) intervals.new }
{
    for place in 0..rules.len() {
        let rule = &rules[place];
        let from = place_of(starts, start_of(rule));
        let to = place_of(starts, end_of(rule));
        insert_into(intervals, from, to, place);
    }
}

impl Index {
    /// An index with room for every rule, which has none yet.
    pub(crate) fn new(alloc: Global) -> Result<Index, AllocError> {
        Ok(Index {
            classes: Vec::with_capacity(alloc, CLASSES)?,
            groups: Vec::with_capacity(alloc, GROUPS)?,
            intervals: Vec::with_capacity(alloc, INTERVALS)?,
            starts: Vec::with_capacity(alloc, INTERVALS)?,
        })
    }

    /// Becomes the index of these rules. It takes no memory.
    pub(crate) fn link(&mut self, rules: &[Rule])
        requires { length rules.now ≤ 1024 }
        ensures { IsIndex rules.now self.new }
    {
        cut_by(&mut self.starts, rules);
        clear(&mut self.classes, CLASSES);
        fill_classes(&mut self.classes, rules);
        clear(&mut self.groups, GROUPS);
        fill_groups(&mut self.groups, rules);
        clear(&mut self.intervals, self.starts.len());
        fill_intervals(&mut self.intervals, &self.starts, rules);
    }

    /// Becomes equal to another index. It takes no memory.
    pub(crate) fn set_from(&mut self, other: &Index)
        ensures { self.new ≡ other.now }
    {
        replace(&mut self.classes, &other.classes);
        replace(&mut self.groups, &other.groups);
        replace(&mut self.intervals, &other.intervals);
        replace(&mut self.starts, &other.starts);
    }

    /// The place of the first rule that matches.
    pub(crate) fn first_match(&self, policy: &Standing<'_>, request: &Request<'_>) -> Option<usize>
        requires few { length policy.now.rules ≤ 1024 }
        requires index { IsIndexAt policy.now.rules self.now }
        ensures { IsDecider policy.now.rules (question_of request.now) result }
    {
        let interval = place_of(&self.starts, on_line(request.stream) + 1) - 1;
        let sets = Candidates {
            group: &self.groups[group_of(request.principal)],
            class: &self.classes[class_of(request)],
            interval: &self.intervals[interval],
        };
        first_match(policy, request, &sets)
    }
}

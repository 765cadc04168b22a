ghost use Rattle.compiled_policy.specs.Decider.{IsDecider};
ghost use Rattle.compiled_policy.specs.Search.{AreCandidates, IsApart, IsFirst, IsFirstWithin, common_word};
ghost use Rattle.policy_core.specs.Question.{question_of};
ghost use Rattle.std.specs.Int.{bit_at};
ghost use Rattle.std.specs.Prelude.{◌≡◌, ◌+◌, ◌*◌, ◌<◌, ◌≤◌, ℕ, false, length};

use crate::bits::{lowest, without};
use crate::rule_set::RuleSet;
use policy_core::{Request, Standing};

/// The sets of a request, whose common rules are looked at.
#[derive(Clone, Copy)]
pub(crate) struct Candidates<'a> {
    /// The rules on everybody or the asker's group.
    pub(crate) group: &'a RuleSet,
    /// Those of the request's class.
    pub(crate) class: &'a RuleSet,
    /// Those whose range holds the stream's interval.
    pub(crate) interval: &'a RuleSet,
}

/// What the sets have in common in one word.
fn common_word(sets: &Candidates<'_>, word: usize) -> u64
    requires { word < 16 }
    ensures { result ≡ common_word sets.now word }
{
    sets.group.words[word] & sets.class.words[word] & sets.interval.words[word]
}

/// The sets have something in common in the four words from this one on.
fn meet(sets: &Candidates<'_>, word: usize) -> bool
    requires { word + 4 ≤ 16 }
    ensures { result ≡ false → IsApart sets.now word (word + 4) }
{
    let common = common_word(sets, word)
        | common_word(sets, word + 1)
        | common_word(sets, word + 2)
        | common_word(sets, word + 3);
    common != 0
}

/// The place of the first rule that matches, of those from `from` on whose bit the word has.
fn first_of(policy: &Standing<'_>, request: &Request<'_>, word: u64, from: usize) -> Option<usize>
    requires few { from < 1024 }
    requires inside { (bit : ℕ) → bit < 64 → bit_at word bit ≡ 1 → from + bit < length policy.now.rules }
    ensures { IsFirst policy.now.rules (question_of request.now) word from result }
{
    let mut left = word;
    while left != 0 {
        let bit = lowest(left);
        if policy.matches(from + bit, request) {
            return Some(from + bit);
        }
        left = without(left, bit);
    }
    None
}

/// The first block of four words, from this one on, in which the sets have something in common, or 4.
fn next_block(sets: &Candidates<'_>, from: usize) -> usize
    requires { from ≤ 4 }
    ensures low { from ≤ result }
    ensures high { result ≤ 4 }
    ensures nothing { IsApart sets.now (4 * from) (4 * result) }
{
    let mut block = from;
    while block < 4 && !meet(sets, 4 * block) {
        block += 1;
    }
    block
}

/// The place of the first rule that matches, of the 256 of a block that the sets may have in common.
fn first_within(
    policy: &Standing<'_>,
    request: &Request<'_>,
    sets: &Candidates<'_>,
    block: usize,
) -> Option<usize>
    requires few { length policy.now.rules ≤ 1024 }
    requires block { block < 4 }
    requires candidates { AreCandidates policy.now.rules (question_of request.now) sets.now }
    ensures { IsFirstWithin policy.now.rules (question_of request.now) (256 * block) (256 * (block + 1)) result }
{
    for word in 4 * block..4 * block + 4 {
        match first_of(policy, request, common_word(sets, word), 64 * word) {
            Some(index) => return Some(index),
            None => {}
        }
    }
    None
}

/// The place of the first rule that matches, of those that the sets have in common.
pub(crate) fn first_match(
    policy: &Standing<'_>,
    request: &Request<'_>,
    sets: &Candidates<'_>,
) -> Option<usize>
    requires few { length policy.now.rules ≤ 1024 }
    requires candidates { AreCandidates policy.now.rules (question_of request.now) sets.now }
    ensures { IsDecider policy.now.rules (question_of request.now) result }
{
    let mut block = next_block(sets, 0);
    while block < 4 {
        match first_within(policy, request, sets, block) {
            Some(index) => return Some(index),
            None => block = next_block(sets, block + 1),
        }
    }
    None
}

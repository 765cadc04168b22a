ghost use Rattle.channel_uri.specs.Pattern.{pattern_of};
ghost use Rattle.policy_core.specs.Moments.{at};
ghost use Rattle.policy_query.specs.Document.{document_of, policy_in};
ghost use Rattle.policy_text.specs.Fault.{Gives};
ghost use Rattle.policy_tools.specs.WrittenPolicy.{text_in, words_at, words_in, words_of};
ghost use Rattle.std.specs.Option.{option_map};
ghost use Rattle.std.specs.Prelude.{◌≡◌, ◌≤◌, ◌<◌, Ok, IfOk, length, slice_get, Some};
ghost use Rattle.toml.specs.Data.{as_table, get_member};
ghost use Rattle.toml.specs.View.{array_view, table_view, view};

use byte_strings::Text;
use policy_core::{Policy, Rule};
use policy_query::Document;
use policy_text::{Names, PolicyFault, policy_from};
use std::alloc::{AllocError, Global};
use std::marker::Model;
use toml::value::Array;
use toml::{Table, Value};

/// What the text has of a rule.
#[derive(Debug, Drop)]
pub(crate) struct Words {
    /// Its pattern.
    channel: Text,
    /// What it calls the principal; `*` for all.
    principal: Text,
}

/// A policy, with the words of its rules as its file has them.
#[derive(Debug, Drop)]
pub struct WrittenPolicy {
    policy: Policy,
    words: Vec<Words>,
}

impl Model for WrittenPolicy {
    ghost use Rattle.policy_tools.specs.WrittenPolicy.{AreWords, Sourced};

    ghost Value = { Sourced };

    ghost view = { λ source. record { policy = source.policy; words = source.words.items } };

    ghost invariant = { λ source. AreWords source.words.items source.policy.rules };
}

/// The value of a key.
fn member<'a>(table: &'a Table, key: &str) -> Option<&'a Value>
    ensures { option_map (λ value. view value.now) result ≡ get_member key.now (table_view table.now) }
{
    table.get(key)
}

/// The text that the rule that a value is has under a key.
fn text_in<'a>(value: &'a Value, key: &str) -> &'a str
    ensures { result.now ≡ text_in key.now (as_table (view value.now)) }
{
    let Some(table) = value.as_table() else {
        return "";
    };
    let Some(value) = member(table, key) else {
        return "";
    };
    match value.as_str() {
        Some(text) => text,
        None => "",
    }
}

/// The words of the rules that the items are.
fn words_of(alloc: Global, items: &Array) -> Result<Vec<Words>, AllocError>
    ensures { IfOk result (λ words. words.items ≡ words_of (array_view items.now)) }
{
    let mut words = Vec::new(alloc);
    for value in items {
        words.push(Words {
            channel: Text::new(alloc, text_in(value, "channel"))?,
            principal: Text::new(alloc, text_in(value, "principal"))?,
        })?;
    }
    Ok(words)
}

/// The words of the rules of a document.
fn words_in(alloc: Global, table: &Table) -> Result<Vec<Words>, AllocError>
    ensures { IfOk result (λ words. words.items ≡ words_in (table_view table.now)) }
{
    let Some(value) = member(table, "rule") else {
        return Ok(Vec::new(alloc));
    };
    match value.as_array() {
        Some(items) => words_of(alloc, items),
        None => Ok(Vec::new(alloc)),
    }
}

impl WrittenPolicy {
    /// The policy that a document is, with its words.
    ///
    /// # Errors
    /// The first fault of the document, as [`Document::policy`] names it.
    #[tactic(auto, unfolding(policy_query::specs::Document::policy_in))]
    pub fn read(
        alloc: Global,
        document: &Document<'_>,
        names: &Names,
    ) -> Result<WrittenPolicy, PolicyFault>
        ensures exact { Gives (λ source. source.policy) result (policy_in names.now document.now) }
        ensures words { IfOk result (λ source. source.words ≡ words_at (document_of document.now)) }
    {
        let Document::Toml { table, .. } = document else {
            return Err(PolicyFault::NotToml);
        };
        let policy = policy_from(alloc, table, names)?;
        let words = words_in(alloc, table)?;
        Ok(WrittenPolicy { policy, words })
    }

    /// The policy becomes what it is at this moment, for good: rules that do not stand then speak of nothing.
    pub fn settle(&mut self, moment: u64)
        ensures { self.new.policy ≡ at self.old.policy moment }
    {
        self.policy.settle(moment);
    }

    /// The policy.
    pub fn policy(&self) -> &Policy
        ensures { result.now ≡ self.now.policy }
    {
        &self.policy
    }

    /// The rules, in their order.
    pub fn rules(&self) -> &[Rule]
        ensures value { result.now ≡ self.now.policy.rules }
        ensures few { length result.now ≤ 1024 }
    {
        self.policy.rules()
    }

    /// The text of the pattern of a rule, counted from 0.
    pub fn text(&self, at: usize) -> &str
        requires { at < length self.now.policy.rules }
        ensures { (rule : Rule) → slice_get self.now.policy.rules at ≡ Some rule → pattern_of result.now ≡ Ok rule.channel }
    {
        self.words[at].channel.as_str()
    }

    /// What the text calls the principal of a rule, counted from 0.
    pub fn principal(&self, at: usize) -> &str
        requires { at < length self.now.policy.rules }
        ensures { option_map (λ words. words.principal) (slice_get self.now.words at) ≡ Some result.now }
    {
        self.words[at].principal.as_str()
    }
}

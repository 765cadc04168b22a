ghost use Rattle.policy_text.specs.Document.{default_of, rule_at, rules_from, listed_rules, rules_of, policy_from, policy_of, has_rules};
ghost use Rattle.policy_text.specs.Fault.{Equals, Gives};
ghost use Rattle.std.specs.Prelude.{◌≡◌, ◌≤◌, IfOk, false, is_ok, length};
ghost use Rattle.toml.specs.Errors.{IsBlank};
ghost use Rattle.toml.specs.View.{array_view, table_view, view};

use crate::fault::{Field, PolicyFault};
use crate::fields::rule_of;
use crate::members::{all_known, all_tables, len_of, member, text_at};
use crate::names::Names;
use crate::version::{Version, version_of};
use policy_core::{Policy, Rule};
use std::alloc::Global;
use toml::value::Array;
use toml::{Table, Value};

/// Whether what no rule speaks of is allowed.
fn default_of(table: &Table) -> Result<bool, PolicyFault>
    ensures { Equals (λ allow. allow) result (default_of (table_view table.now)) }
{
    let bad = PolicyFault::BadField {
        rule: 0,
        field: Field::Default,
    };
    let Some(word) = text_at(table, "default") else {
        return Err(bad);
    };
    if word == "allow" {
        return Ok(true);
    }
    if word == "deny" {
        return Ok(false);
    }
    Err(bad)
}

/// The rule of this number that a value is.
fn rule_at(version: Version, number: u32, value: &Value, names: &Names) -> Result<Rule, PolicyFault>
    ensures { Equals (λ rule. rule) result (rule_at names.now version number (view value.now)) }
{
    match value.as_table() {
        Some(table) => rule_of(version, number, table, names),
        None => Err(PolicyFault::BadField {
            rule: 0,
            field: Field::Rule,
        }),
    }
}

/// The rules of an array, counted from 1.
fn rules_from(
    alloc: Global,
    version: Version,
    items: &Array,
    names: &Names,
) -> Result<Vec<Rule>, PolicyFault>
    requires { length items.now.items ≤ 1024 }
    ensures exact { Gives (λ rules. rules.items) result (rules_from names.now version 1 (array_view items.now)) }
    ensures few { IfOk result (λ rules. length rules.items ≤ 1024) }
{
    let mut rules = Vec::new(alloc);
    let mut number = 1;
    for value in items {
        rules.push(rule_at(version, number, value, names)?)?;
        number += 1;
    }
    Ok(rules)
}

/// The rules of an array of tables that is not too long.
fn listed_rules(
    alloc: Global,
    version: Version,
    items: &Array,
    names: &Names,
) -> Result<Vec<Rule>, PolicyFault>
    ensures exact { Gives (λ rules. rules.items) result (listed_rules names.now version (array_view items.now)) }
    ensures few { IfOk result (λ rules. length rules.items ≤ 1024) }
{
    if !all_tables(items) {
        return Err(PolicyFault::BadField {
            rule: 0,
            field: Field::Rule,
        });
    }
    if len_of(items) > 1024 {
        return Err(PolicyFault::TooManyRules);
    }
    rules_from(alloc, version, items, names)
}

/// The rules of a document; none where it has no array of them.
fn rules_of(
    alloc: Global,
    version: Version,
    table: &Table,
    names: &Names,
) -> Result<Vec<Rule>, PolicyFault>
    ensures exact { Gives (λ rules. rules.items) result (rules_of names.now version (table_view table.now)) }
    ensures without_memory { has_rules (table_view table.now) ≡ false → Equals (λ rules. rules.items) result (rules_of names.now version (table_view table.now)) }
    ensures few { IfOk result (λ rules. length rules.items ≤ 1024) }
{
    let Some(value) = member(table, "rule") else {
        return Ok(Vec::new(alloc));
    };
    match value.as_array() {
        Some(items) => listed_rules(alloc, version, items, names),
        None => Err(PolicyFault::BadField {
            rule: 0,
            field: Field::Rule,
        }),
    }
}

/// The policy that a document is, whose text [`read`] would read.
///
/// # Errors
/// The first fault, as there.
#[tactic(auto, unfolding(crate::specs::Document::policy_from))]
pub fn policy_from(alloc: Global, table: &Table, names: &Names) -> Result<Policy, PolicyFault>
    ensures exact { Gives (λ policy. policy) result (policy_from names.now (table_view table.now)) }
    ensures without_memory { has_rules (table_view table.now) ≡ false → is_ok (policy_from names.now (table_view table.now)) ≡ false → Equals (λ policy. policy) result (policy_from names.now (table_view table.now)) }
{
    let Some(version) = version_of(table) else {
        return Err(PolicyFault::BadVersion);
    };
    if !all_known(table, &["version", "default", "rule"]) {
        return Err(PolicyFault::BadField {
            rule: 0,
            field: Field::Unknown,
        });
    }
    let default = default_of(table)?;
    let rules = rules_of(alloc, version, table, names)?;
    Ok(Policy::new(rules, default)?)
}

/// Reads a policy's text: a TOML document whose principals are among `names`.
///
/// # Errors
/// The first fault of the text. Looked at are, in this order: whether it is TOML; the version; the keys of the document;
/// the default; whether the rules are an array of tables; how many they are; and then the rules, one by one. Of a rule:
/// its keys, name, principal, acts, pattern, range of stream ids, moments and word. Of a principal, an act or a range its
/// form is looked at first, and then whether it is known or sound; of a list of acts the form of each before any is asked
/// for, and of moments the form of both bounds. In version 1 no rule has bounds of moments: their keys are unknown.
/// [`PolicyFault::NoMemory`] comes where memory is wanting before a fault is found.
#[tactic(auto, unfolding(crate::specs::Document::policy_of))]
pub fn read(alloc: Global, text: &str, names: &Names) -> Result<Policy, PolicyFault>
    ensures exact { Gives (λ policy. policy) result (policy_of names.now text.now) }
    ensures blank { IsBlank text.now → result ≡ Err PolicyFault.BadVersion }
{
    match toml::table_from_str(alloc, text) {
        Ok(table) => policy_from(alloc, &table, names),
        Err(error) if error.is_memory() => Err(PolicyFault::NoMemory),
        Err(_) => Err(PolicyFault::NotToml),
    }
}

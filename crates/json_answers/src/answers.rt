//! The answers.

ghost use Rattle.json_answers.specs.Answers.{checked_data, decided_data, differing_data, explained_data, linted_data, passed_data, shown_data, tabled_data, tested_data};
ghost use Rattle.json_answers.specs.Line.{IsLine};
ghost use Rattle.json_answers.specs.Rows.{number_or_null, taken_data, text_or_null};
ghost use Rattle.serde_json.specs.View.{view};
ghost use Rattle.std.specs.Prelude.{◌≡◌, IfOk, option_copied};
ghost use Rattle.std.specs.String.{string_bytes};

use crate::line::{Shown, line_of, list_of};
use crate::rows::{
    Change, Failed, Finding, Grant, Miss, Rule, Taken, number_or_null, text_or_null,
};
use serde_json::{Value, json};
use std::alloc::{AllocError, Global};

fn checked_value(alloc: Global, rules: u64) -> Result<Value, AllocError>
    ensures { IfOk result (λ value. view value ≡ checked_data rules) }
{
    json!(in alloc; {"rules": rules})
}

/// How many rules a policy has: `{"rules":2}`.
pub fn checked(alloc: Global, rules: u64) -> Result<String, AllocError>
    ensures { IfOk result (λ line. IsLine (string_bytes line) (checked_data rules)) }
{
    line_of(alloc, &checked_value(alloc, rules)?)
}

fn decided_value(
    alloc: Global,
    allow: bool,
    rule: Option<u64>,
    policy: u64,
) -> Result<Value, AllocError>
    ensures { IfOk result (λ value. view value ≡ decided_data allow rule policy) }
{
    let rule = number_or_null(rule);
    json!(in alloc; {"allow": allow, "policy": policy, "rule": rule})
}

/// What the policy of this number decides, and by which rule, counted from 1; by the default where it is none.
pub fn decided(
    alloc: Global,
    allow: bool,
    rule: Option<u64>,
    policy: u64,
) -> Result<String, AllocError>
    ensures { IfOk result (λ line. IsLine (string_bytes line) (decided_data allow rule policy)) }
{
    line_of(alloc, &decided_value(alloc, allow, rule, policy)?)
}

/// A decision of a driver that serves.
pub fn taken(alloc: Global, taken: &Taken<'_>) -> Result<String, AllocError>
    ensures { IfOk result (λ line. IsLine (string_bytes line) (taken_data taken.now)) }
{
    line_of(alloc, &taken.value(alloc)?)
}

fn passed_value(alloc: Global, count: u64) -> Result<Value, AllocError>
    ensures { IfOk result (λ value. view value ≡ passed_data count) }
{
    json!(in alloc; {"passed_over": count})
}

/// How many decisions are not told, as they are not kept any more.
pub fn passed_over(alloc: Global, count: u64) -> Result<String, AllocError>
    ensures { IfOk result (λ line. IsLine (string_bytes line) (passed_data count)) }
{
    line_of(alloc, &passed_value(alloc, count)?)
}

fn explained_value(
    alloc: Global,
    decision: (bool, Option<u64>, u64),
    name: Option<&str>,
    misses: &[Miss<'_>],
) -> Result<Value, AllocError>
    ensures { IfOk result (λ value. view value ≡ explained_data decision.0 decision.1 decision.2 (option_copied name.entry) misses.now) }
{
    let misses = list_of(alloc, misses)?;
    let name = text_or_null(alloc, name)?;
    let (allow, rule, policy) = decision;
    let rule = number_or_null(rule);
    json!(in alloc; {"allow": allow, "misses": misses, "name": name, "policy": policy, "rule": rule})
}

/// The same of a decision, which is whether it allows, by which rule, and the policy's number; with the name of the rule, and with
/// rules that do not match.
pub fn explained(
    alloc: Global,
    decision: (bool, Option<u64>, u64),
    name: Option<&str>,
    misses: &[Miss<'_>],
) -> Result<String, AllocError>
    ensures { IfOk result (λ line. IsLine (string_bytes line) (explained_data decision.0 decision.1 decision.2 (option_copied name.entry) misses.now)) }
{
    line_of(alloc, &explained_value(alloc, decision, name, misses)?)
}

fn linted_value(
    alloc: Global,
    file: &str,
    faults: &[Finding<'_>],
    warnings: &[Finding<'_>],
) -> Result<Value, AllocError>
    ensures { IfOk result (λ value. view value ≡ linted_data file.now faults.now warnings.now) }
{
    let faults = list_of(alloc, faults)?;
    let warnings = list_of(alloc, warnings)?;
    json!(in alloc; {"faults": faults, "file": file, "warnings": warnings})
}

/// What is found in a file that is to be a policy.
pub fn linted(
    alloc: Global,
    file: &str,
    faults: &[Finding<'_>],
    warnings: &[Finding<'_>],
) -> Result<String, AllocError>
    ensures { IfOk result (λ line. IsLine (string_bytes line) (linted_data file.now faults.now warnings.now)) }
{
    line_of(alloc, &linted_value(alloc, file, faults, warnings)?)
}

fn shown_value(alloc: Global, rules: &[Rule<'_>], allows: bool) -> Result<Value, AllocError>
    ensures { IfOk result (λ value. view value ≡ shown_data rules.now allows) }
{
    let rules = list_of(alloc, rules)?;
    let word = if allows { "allow" } else { "deny" };
    json!(in alloc; {"default": word, "rules": rules})
}

/// The rules of a policy, and whether its default allows.
pub fn shown(alloc: Global, rules: &[Rule<'_>], allows: bool) -> Result<String, AllocError>
    ensures { IfOk result (λ line. IsLine (string_bytes line) (shown_data rules.now allows)) }
{
    line_of(alloc, &shown_value(alloc, rules, allows)?)
}

fn tested_value(alloc: Global, failed: &[Failed<'_>], passed: u64) -> Result<Value, AllocError>
    ensures { IfOk result (λ value. view value ≡ tested_data failed.now passed) }
{
    let failed = list_of(alloc, failed)?;
    json!(in alloc; {"failed": failed, "passed": passed})
}

/// Which cases failed, and how many passed.
pub fn tested(alloc: Global, failed: &[Failed<'_>], passed: u64) -> Result<String, AllocError>
    ensures { IfOk result (λ line. IsLine (string_bytes line) (tested_data failed.now passed)) }
{
    line_of(alloc, &tested_value(alloc, failed, passed)?)
}

fn tabled_value(alloc: Global, rows: &[Grant<'_>]) -> Result<Value, AllocError>
    ensures { IfOk result (λ value. view value ≡ tabled_data rows.now) }
{
    let rows = list_of(alloc, rows)?;
    json!(in alloc; {"rows": rows})
}

/// The rows of a table.
pub fn tabled(alloc: Global, rows: &[Grant<'_>]) -> Result<String, AllocError>
    ensures { IfOk result (λ line. IsLine (string_bytes line) (tabled_data rows.now)) }
{
    line_of(alloc, &tabled_value(alloc, rows)?)
}

fn differing_value(alloc: Global, rows: &[Change<'_>]) -> Result<Value, AllocError>
    ensures { IfOk result (λ value. view value ≡ differing_data rows.now) }
{
    let rows = list_of(alloc, rows)?;
    json!(in alloc; {"rows": rows})
}

/// The rows of a difference.
pub fn differing(alloc: Global, rows: &[Change<'_>]) -> Result<String, AllocError>
    ensures { IfOk result (λ line. IsLine (string_bytes line) (differing_data rows.now)) }
{
    line_of(alloc, &differing_value(alloc, rows)?)
}

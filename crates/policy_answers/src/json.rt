//! The same answers as JSON, each on one line.

ghost use Rattle.policy_answers.specs.Answers.{DecideAlike, DecideApart, both_read, explain_well, list_well, table_well, try_well};
ghost use Rattle.policy_answers.specs.Fault.{Gives};
ghost use Rattle.json_answers.specs.Answers.{decided_data};
ghost use Rattle.policy_answers.specs.Json.{GivesLine, IsAnswer, checked_content, decided_content};
ghost use Rattle.policy_answers.specs.Tables.{GivesTableLine, IsOfOneNamed, policy_then};
ghost use Rattle.policy_answers.specs.declared.fault.AskFault.TheVariants as faults;
ghost use Rattle.policy_core.specs.Moments.{at};
ghost use Rattle.policy_core.specs.RuleList.{Rules};
ghost use Rattle.policy_query.specs.Document.{policy_in};
ghost use Rattle.policy_table.specs.Printed.{IsWhole};
ghost use Rattle.policy_tools.specs.Cases.{passes};
ghost use Rattle.std.specs.List.{list_all};
ghost use Rattle.std.specs.Prelude.{◌≡◌, ◌<◌, IfErr, IfOk, Ok, false, is_ok, length, true};

use crate::answer::Answer;
use crate::fault::AskFault;
use crate::listing::{table_of_all, table_of_one};
use crate::questions::{Explained, explanation};
use crate::trials::compared;
use byte_strings::Text;
use json_answers::{Failed, Finding, Grant, Miss};
use policy_core::{Act, Acts, Policy, Rule, Verdict};
use policy_diff::{Change, changes_of, differences};
use policy_lint::{Fault, Note, Report, lint};
use policy_query::Document;
use policy_table::{Table, TableRow};
use policy_tools::{Case, Directory, WrittenPolicy, cases_in, name_at, principals_text};
use std::alloc::{AllocError, Global};

/// The number of a rule, with more bits.
fn wide(rule: Option<u32>) -> Option<u64>
    ensures { result ≡ rule }
{
    match rule {
        Some(rule) => Some(rule as u64),
        None => None,
    }
}

/// How many rules the policy has: `{"rules":2}`.
///
/// # Errors
/// The first fault of the policy.
pub fn check_json(
    alloc: Global,
    policy: &Document<'_>,
    directory: &Directory,
) -> Result<Answer, AskFault>
    ensures { GivesLine result (checked_content directory.now policy.now) }
{
    let checked = policy_query::check(alloc, policy, directory.names())?;
    Ok(Answer::of(json_answers::checked(alloc, checked.rules as u64)?))
}

/// What a verdict says.
fn verdict_line(alloc: Global, verdict: Verdict) -> Result<Answer, AllocError>
    ensures { IfOk result (λ answer. IsAnswer answer (decided_data verdict.allow verdict.rule verdict.epoch)) }
{
    let rule = wide(verdict.rule);
    Ok(Answer::of(json_answers::decided(alloc, verdict.allow, rule, verdict.epoch)?))
}

/// What the policy, as policy 1, decides of a question: `{"allow":true,"policy":1,"rule":2}`.
///
/// # Errors
/// The first fault of the policy and the question.
pub fn decide_json(
    alloc: Global,
    policy: &Document<'_>,
    directory: &Directory,
    principal: &str,
    act: &str,
    channel: &str,
    stream: i32,
    moment: u64,
) -> Result<Answer, AskFault>
    ensures { GivesLine result (decided_content directory.now policy.now principal.now act.now channel.now stream moment) }
{
    let names = directory.names();
    let verdict = policy_query::decide(
        alloc, policy, names, principal, act, channel, stream, moment,
    )?;
    Ok(verdict_line(alloc, verdict)?)
}

/// The rules that do not match, as JSON has them.
fn misses_of<'a>(alloc: Global, found: &'a Explained) -> Result<Vec<Miss<'a>>, AllocError> {
    let mut misses = Vec::new(alloc);
    for reason in &found.reasons {
        misses.push(Miss {
            rule: reason.at.saturating_add(1) as u64,
            name: name_at(found.source.rules(), reason.at),
            part: reason.part.as_str(),
        })?;
    }
    Ok(misses)
}

/// What was found of a question.
fn explained_line(alloc: Global, found: &Explained) -> Result<Answer, AllocError>
    ensures { IfOk result (λ answer. answer.is_well ≡ true) }
{
    let Verdict { allow, rule, epoch } = found.found.verdict;
    let name = match rule {
        Some(number) => {
            let at = number.saturating_sub(1) as usize;
            Some(name_at(found.source.rules(), at))
        }
        None => None,
    };
    let misses = misses_of(alloc, found)?;
    let decision = (allow, wide(rule), epoch);
    Ok(Answer::of(json_answers::explained(alloc, decision, name, misses.as_slice())?))
}

/// What the policy, as policy 1, decides of a question, and why, as [`crate::explain`] has it.
///
/// # Errors
/// The first fault of the policy and the question; a channel's with its cause.
pub fn explain_json(
    alloc: Global,
    policy: &Document<'_>,
    directory: &Directory,
    principal: &str,
    act: &str,
    channel: &str,
    stream: i32,
    moment: u64,
    near: Option<u64>,
) -> Result<Answer, AskFault>
    ensures { Gives (λ answer. answer.is_well) result (explain_well directory.now policy.now principal.now act.now channel.now) }
{
    let found = explanation(
        alloc, policy, directory, principal, act, channel, stream, moment, near,
    )?;
    Ok(explained_line(alloc, &found)?)
}

/// The names of acts.
fn names_of(alloc: Global, acts: Acts) -> Result<Vec<Text>, AllocError> {
    let mut names = Vec::new(alloc);
    for act in Act::EVERY {
        if acts.hold(act) {
            names.push(Text::new(alloc, act.name())?)?;
        }
    }
    Ok(names)
}

/// What of a rule is made for its row.
#[derive(Drop)]
struct Made {
    principal: Text,
    acts: Vec<Text>,
}

fn made_of(alloc: Global, rule: &Rule, directory: &Directory) -> Result<Made, AllocError> {
    Ok(Made {
        principal: principals_text(alloc, rule.principals, directory)?,
        acts: names_of(alloc, rule.acts)?,
    })
}

/// The row of a rule, whose place is counted from 0.
fn row_of<'a>(
    source: &'a WrittenPolicy,
    at: usize,
    rule: &'a Rule,
    made: &'a Made,
) -> json_answers::Rule<'a>
    requires { at < length source.now.policy.rules }
{
    json_answers::Rule {
        rule: at.saturating_add(1) as u64,
        name: rule.name.as_str(),
        principal: made.principal.as_str(),
        acts: made.acts.as_slice(),
        channel: source.text(at),
        low: rule.low,
        high: rule.high,
        from: rule.from,
        until: rule.until,
        allow: rule.allow,
    }
}

/// The rules of a policy, and its default.
fn shown_line(
    alloc: Global,
    source: &WrittenPolicy,
    directory: &Directory,
) -> Result<Answer, AllocError>
    ensures { IfOk result (λ answer. answer.is_well ≡ true) }
{
    let rules = source.rules();
    let mut made = Vec::new(alloc);
    for rule in rules {
        made.push(made_of(alloc, rule, directory)?)?;
    }
    let mut rows = Vec::new(alloc);
    for at in 0..rules.len() {
        if let Some(made) = made.get(at) {
            rows.push(row_of(source, at, &rules[at], made))?;
        }
    }
    let allows = source.policy().default_allows();
    Ok(Answer::of(json_answers::shown(alloc, rows.as_slice(), allows)?))
}

/// The rules of the policy, and its default.
///
/// # Errors
/// The first fault of the policy.
pub fn show_json(
    alloc: Global,
    policy: &Document<'_>,
    directory: &Directory,
) -> Result<Answer, AskFault>
    ensures { Gives (λ answer. answer.is_well) result (list_well directory.now policy.now) }
{
    let source = WrittenPolicy::read(alloc, policy, directory.names())?;
    Ok(shown_line(alloc, &source, directory)?)
}

/// What is wrong at each place, in words.
fn fault_texts(alloc: Global, faults: &[Fault]) -> Result<Vec<Text>, AllocError> {
    let mut texts = Vec::new(alloc);
    for fault in faults {
        let cause = &fault.cause;
        texts.push(Text::from(format!(in alloc; "{cause}")?))?;
    }
    Ok(texts)
}

/// The text, where there is one.
fn known(text: &Option<Text>) -> Option<&str> {
    match text {
        Some(text) => Some(text.as_str()),
        None => None,
    }
}

/// The number of a rule, where it is not 0.
fn rule_of(number: usize) -> Option<u64> {
    if number > 0 {
        Some(number as u64)
    } else {
        None
    }
}

/// The row of a warning.
fn note_row(note: &Note) -> Finding<'_> {
    Finding {
        line: note.place.line as u64,
        column: note.place.column as u64,
        rule: rule_of(note.rule),
        name: known(&note.name),
        key: None,
        value: None,
        text: note.text.as_str(),
    }
}

/// The row of a fault.
fn fault_row<'a>(fault: &'a Fault, text: &'a Text) -> Finding<'a> {
    Finding {
        line: fault.place.line as u64,
        column: fault.place.column as u64,
        rule: rule_of(fault.rule as usize),
        name: known(&fault.name),
        key: known(&fault.key),
        value: known(&fault.value),
        text: text.as_str(),
    }
}

/// What is found in a file, as a line.
fn report_line(alloc: Global, report: &Report, path: &str) -> Result<String, AllocError> {
    let faults = report.faults.as_slice();
    let texts = fault_texts(alloc, faults)?;
    let mut rows = Vec::new(alloc);
    for (fault, text) in faults.iter().zip(texts.as_slice()) {
        rows.push(fault_row(fault, text))?;
    }
    let notes = report.notes(alloc)?;
    let mut warnings = Vec::new(alloc);
    for note in notes.as_slice() {
        warnings.push(note_row(note))?;
    }
    json_answers::linted(alloc, path, rows.as_slice(), warnings.as_slice())
}

/// What is wrong with a file as a policy, and what is likely not meant, as [`crate::find_faults`] has it.
///
/// # Errors
/// That there is no memory.
pub fn find_faults_json(
    alloc: Global,
    policy: &Document<'_>,
    directory: &Directory,
    path: &str,
    strict: bool,
    moment: u64,
    soon: Option<u64>,
) -> Result<Answer, AskFault>
    ensures sound { IfOk result (λ answer. answer.is_well ≡ true → is_ok (policy_in directory.now policy.now) ≡ true) }
    ensures exact { IfOk result (λ answer. strict ≡ false → answer.is_well ≡ is_ok (policy_in directory.now policy.now)) }
    ensures err { IfErr result (λ fault. fault ≡ faults.NoMemory) }
{
    let report = lint(alloc, policy, directory, moment, soon)?;
    Ok(Answer {
        text: Text::from(report_line(alloc, &report, path)?),
        is_well: report.is_clean(strict),
        is_sure: true,
    })
}

/// What came of cases.
fn report_of(alloc: Global, policy: &Policy, cases: &[Case]) -> Result<Answer, AllocError>
    ensures { IfOk result (λ answer. answer.is_well ≡ list_all (passes policy.now) cases.now) }
{
    let report = policy_tools::Report::of(alloc, policy, cases)?;
    let mut failed = Vec::new(alloc);
    for failure in report.failures.as_slice() {
        failed.push(Failed {
            line: failure.line as u64,
            text: failure.text.as_str(),
            principal: failure.principal.as_str(),
            act: failure.act.name(),
            stream: failure.stream,
            allow: failure.verdict.allow,
            rule: wide(failure.verdict.rule),
        })?;
    }
    let line = json_answers::tested(alloc, failed.as_slice(), report.passed as u64)?;
    Ok(Answer {
        text: Text::from(line),
        is_well: report.failures.is_empty(),
        is_sure: true,
    })
}

/// Asks the policy, as it is at a moment, the questions of a file of cases, as [`crate::try_cases`] does.
///
/// # Errors
/// The first fault of the policy, or of the cases.
pub fn try_cases_json(
    alloc: Global,
    policy: &Document<'_>,
    directory: &Directory,
    cases: &[u8],
    moment: u64,
) -> Result<Answer, AskFault>
    ensures { Gives (λ answer. answer.is_well) result (try_well directory.now policy.now cases.now moment) }
{
    let mut source = WrittenPolicy::read(alloc, policy, directory.names())?;
    source.settle(moment);
    let cases = cases_in(alloc, cases, directory)?;
    Ok(report_of(alloc, source.policy(), cases.as_slice())?)
}

/// The number of a rule that decides, counted from 1.
fn number_of(place: Option<usize>) -> Option<u64> {
    match place {
        Some(at) => Some(at.saturating_add(1) as u64),
        None => None,
    }
}

/// The names of the acts of each change.
fn acts_of(alloc: Global, changes: &[Change]) -> Result<Vec<Vec<Text>>, AllocError> {
    let mut acts = Vec::new(alloc);
    for change in changes {
        acts.push(names_of(alloc, change.acts)?)?;
    }
    Ok(acts)
}

/// Whether the old policy allows what a row says.
fn allowed_before(old: &WrittenPolicy, place: Option<usize>) -> bool {
    match place {
        Some(at) => match old.rules().get(at) {
            Some(rule) => rule.allow,
            None => false,
        },
        None => old.policy().default_allows(),
    }
}

/// The row of a change.
fn change_row<'a>(
    old: &WrittenPolicy,
    change: &'a Change,
    acts: &'a [Text],
) -> json_answers::Change<'a> {
    json_answers::Change {
        principal: change.principal.as_str(),
        acts,
        channel: change.channel.as_str(),
        low: change.low,
        high: change.high,
        allow: !allowed_before(old, change.deciders.old),
        old: number_of(change.deciders.old),
        new: number_of(change.deciders.new),
        example: known(&change.example),
    }
}

/// The rows of a difference, as a line.
fn changes_line(
    alloc: Global,
    old: &WrittenPolicy,
    changes: &[Change],
) -> Result<String, AllocError> {
    let acts = acts_of(alloc, changes)?;
    let mut rows = Vec::new(alloc);
    for (change, acts) in changes.iter().zip(acts.as_slice()) {
        rows.push(change_row(old, change, acts.as_slice()))?;
    }
    json_answers::differing(alloc, rows.as_slice())
}

/// Which decisions differ at a moment if the new policy took the old one's place, as [`crate::compare`] has it.
///
/// # Errors
/// The first fault of the old policy, or of the new one.
pub fn compare_json(
    alloc: Global,
    old: &Document<'_>,
    new: &Document<'_>,
    directory: &Directory,
    moment: u64,
) -> Result<Answer, AskFault>
    ensures read { Gives (λ answer. true) result (both_read directory.now old.now new.now) }
    ensures alike { IfOk result (λ answer. answer.is_well ≡ true → (before : Rules) (after : Rules) → policy_in directory.now old.now ≡ Ok before → policy_in directory.now new.now ≡ Ok after → DecideAlike (at before moment) (at after moment)) }
    ensures apart { IfOk result (λ answer. answer.is_well ≡ false → answer.is_sure ≡ true → (before : Rules) (after : Rules) → policy_in directory.now old.now ≡ Ok before → policy_in directory.now new.now ≡ Ok after → DecideApart (at before moment) (at after moment)) }
{
    let mut old = WrittenPolicy::read(alloc, old, directory.names())?;
    let mut new = WrittenPolicy::read(alloc, new, directory.names())?;
    old.settle(moment);
    new.settle(moment);
    let rows = differences(alloc, &old, &new, directory)?;
    let changes = changes_of(alloc, &old, &new, rows.as_slice(), directory)?;
    let text = changes_line(alloc, &old, changes.as_slice())?;
    Ok(compared(text, rows.as_slice()))
}

/// The names of the acts of each row.
fn row_acts(alloc: Global, rows: &[TableRow]) -> Result<Vec<Vec<Text>>, AllocError> {
    let mut acts = Vec::new(alloc);
    for row in rows {
        acts.push(names_of(alloc, row.acts)?)?;
    }
    Ok(acts)
}

/// The word for a medium; `*` for all.
fn medium_word(medium: &str) -> &'static str {
    match medium {
        "udp" => "udp",
        "ipc" => "ipc",
        "counter" => "counter",
        _ => "*",
    }
}

/// The row of a table's row.
fn grant_row<'a>(row: &'a TableRow, acts: &'a [Text]) -> Grant<'a> {
    Grant {
        principal: row.principal.as_str(),
        acts,
        medium: medium_word(row.medium),
        channel: row.pattern.as_str(),
        low: row.low,
        high: row.high,
        allow: row.allow,
        rule: row.place.saturating_add(1) as u64,
    }
}

/// The rows of a table, as a line.
fn rows_line(alloc: Global, rows: &[TableRow]) -> Result<String, AllocError> {
    let acts = row_acts(alloc, rows)?;
    let mut grants = Vec::new(alloc);
    for (row, acts) in rows.iter().zip(acts.as_slice()) {
        grants.push(grant_row(row, acts.as_slice()))?;
    }
    json_answers::tabled(alloc, grants.as_slice())
}

/// The rows of a table.
fn table_line(alloc: Global, table: &Table, directory: &Directory) -> Result<Answer, AllocError>
    ensures { IfOk result (λ answer. answer.is_well ≡ true) }
{
    let rows = table.all_rows(alloc, directory)?;
    Ok(Answer::of(rows_line(alloc, rows.as_slice())?))
}

/// Who may do what under the policy at a moment: the principals that a rule names, and at last all others.
///
/// # Errors
/// The first fault of the policy, or that there are more than a million rows.
pub fn table_of_all_json(
    alloc: Global,
    policy: &Document<'_>,
    directory: &Directory,
    moment: u64,
) -> Result<Answer, AskFault>
    ensures { GivesTableLine IsWhole result (list_well directory.now policy.now) (policy_then directory.now policy.now moment) }
{
    let table = table_of_all(alloc, policy, directory, moment)?;
    Ok(table_line(alloc, &table, directory)?)
}

/// What the principal of this name may do under the policy at a moment.
///
/// # Errors
/// The first fault of the policy, that there is no such principal, or that there are more than a million rows.
pub fn table_of_one_json(
    alloc: Global,
    policy: &Document<'_>,
    directory: &Directory,
    principal: &str,
    moment: u64,
) -> Result<Answer, AskFault>
    ensures { GivesTableLine (IsOfOneNamed directory.now principal.now) result (table_well directory.now policy.now principal.now) (policy_then directory.now policy.now moment) }
{
    let table = table_of_one(alloc, policy, directory, principal, moment)?;
    Ok(table_line(alloc, &table, directory)?)
}

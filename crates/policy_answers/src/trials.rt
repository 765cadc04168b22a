//! What is wrong with a policy, whether it gives the answers that are wanted, and what another one would change.

ghost use Rattle.policy_answers.specs.Answers.{DecideAlike, DecideApart, both_read, try_well};
ghost use Rattle.policy_answers.specs.Fault.{Fails, Gives};
ghost use Rattle.policy_answers.specs.declared.answer.Answer.{Answer};
ghost use Rattle.policy_answers.specs.declared.fault.AskFault.TheVariants as faults;
ghost use Rattle.policy_core.specs.Moments.{at};
ghost use Rattle.policy_core.specs.RuleList.{Rules};
ghost use Rattle.policy_diff.specs.Diff.{IsDiff};
ghost use Rattle.policy_query.specs.Document.{policy_in};
ghost use Rattle.policy_tools.specs.Cases.{passes};
ghost use Rattle.std.specs.List.{list_all};
ghost use Rattle.std.specs.Prelude.{◌≡◌, IfErr, IfOk, Ok, false, is_ok, true};

use crate::answer::Answer;
use crate::fault::AskFault;
use byte_strings::Text;
use plain_words::plain;
use policy_core::Policy;
use policy_diff::{Row, are_apart, diff_text, differences};
use policy_lint::lint;
use policy_query::Document;
use policy_tools::{Case, Directory, Failure, Report, WrittenPolicy, cases_in};
use std::alloc::{AllocError, Global};

/// What is wrong with a file as a policy, and what is likely not meant at a moment: `soon` is the period within which a rule that
/// ends is warned of, if one is. It is well where there is no fault and, under `strict`, no warning. The file is named by its
/// path.
///
/// # Errors
/// That there is no memory.
pub fn find_faults(
    alloc: Global,
    policy: &Document<'_>,
    directory: &Directory,
    path: &str,
    strict: bool,
    moment: u64,
    soon: Option<u64>,
) -> Result<Answer, AskFault>
    ensures sound { IfOk result (λ answer. answer.is_well ≡ true → is_ok (policy_in directory.now policy.now) ≡ true) }
    ensures exact { IfOk result (λ answer. strict ≡ false → answer.is_well ≡ is_ok (policy_in directory.now policy.now)) }
    ensures err { IfErr result (λ fault. fault ≡ faults.NoMemory) }
{
    let report = lint(alloc, policy, directory, moment, soon)?;
    Ok(Answer {
        text: report.text(alloc, path)?,
        is_well: report.is_clean(strict),
        is_sure: true,
    })
}

/// The lines of the cases that failed.
fn failures_text(alloc: Global, failures: &[Failure]) -> Result<String, AllocError> {
    let mut text = String::new(alloc);
    for failure in failures {
        let line = plain(alloc, failure.to_string(alloc)?.as_str())?;
        text.push_str(line.as_str())?;
        text.push_str("\n")?;
    }
    Ok(text)
}

/// The cases that failed, a line each, and how many passed and failed.
fn report_text(alloc: Global, report: &Report) -> Result<String, AllocError> {
    let mut text = failures_text(alloc, report.failures.as_slice())?;
    let passed = report.passed;
    let failed = report.failures.len();
    text.push_str(format!(in alloc; "{passed} passed, {failed} failed\n")?.as_str())?;
    Ok(text)
}

/// Asks the policy the questions of cases.
fn tried(alloc: Global, policy: &Policy, cases: &[Case]) -> Result<Answer, AllocError>
    ensures { IfOk result (λ answer. answer.is_well ≡ list_all (passes policy.now) cases.now) }
{
    let report = Report::of(alloc, policy, cases)?;
    Ok(Answer {
        text: Text::from(report_text(alloc, &report)?),
        is_well: report.failures.is_empty(),
        is_sure: true,
    })
}

/// Asks the policy, as it is at a moment, the questions of a file of cases. It is well where each case has the answer that it wants.
///
/// # Errors
/// The first fault of the policy, or of the cases.
pub fn try_cases(
    alloc: Global,
    policy: &Document<'_>,
    directory: &Directory,
    cases: &[u8],
    moment: u64,
) -> Result<Answer, AskFault>
    ensures { Gives (λ answer. answer.is_well) result (try_well directory.now policy.now cases.now moment) }
{
    let mut source = WrittenPolicy::read(alloc, policy, directory.names())?;
    source.settle(moment);
    let cases = cases_in(alloc, cases, directory)?;
    Ok(tried(alloc, source.policy(), cases.as_slice())?)
}

/// A text about the rows of two policies.
pub(crate) fn compared(text: String, rows: &[Row]) -> Answer
    ensures alike { (old : Rules) (new : Rules) → IsDiff old new rows.now → result.is_well ≡ true → DecideAlike old new }
    ensures apart { (old : Rules) (new : Rules) → IsDiff old new rows.now → result.is_well ≡ false → result.is_sure ≡ true → DecideApart old new }
{
    Answer {
        text: Text::from(text),
        is_well: rows.is_empty(),
        is_sure: rows.is_empty() || are_apart(rows),
    }
}

/// What would be decided otherwise at a moment if the new policy took the old one's place. It is well where nothing would, and sure
/// where something would.
///
/// # Errors
/// The first fault of the old policy, or of the new one.
pub fn compare(
    alloc: Global,
    old: &Document<'_>,
    new: &Document<'_>,
    directory: &Directory,
    moment: u64,
) -> Result<Answer, AskFault>
    ensures read { Gives (λ answer. true) result (both_read directory.now old.now new.now) }
    ensures alike { IfOk result (λ answer. answer.is_well ≡ true → (before : Rules) (after : Rules) → policy_in directory.now old.now ≡ Ok before → policy_in directory.now new.now ≡ Ok after → DecideAlike (at before moment) (at after moment)) }
    ensures apart { IfOk result (λ answer. answer.is_well ≡ false → answer.is_sure ≡ true → (before : Rules) (after : Rules) → policy_in directory.now old.now ≡ Ok before → policy_in directory.now new.now ≡ Ok after → DecideApart (at before moment) (at after moment)) }
{
    let mut old = WrittenPolicy::read(alloc, old, directory.names())?;
    let mut new = WrittenPolicy::read(alloc, new, directory.names())?;
    old.settle(moment);
    new.settle(moment);
    let rows = differences(alloc, &old, &new, directory)?;
    let text = diff_text(alloc, &old, &new, rows.as_slice(), directory)?;
    Ok(compared(text, rows.as_slice()))
}

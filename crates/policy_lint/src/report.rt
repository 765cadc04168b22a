ghost use Rattle.policy_core.specs.RuleList.{Rules};
ghost use Rattle.policy_lint.specs.Ending.{IsGone, ended_from, ending_of, is_among};
ghost use Rattle.policy_lint.specs.Report.{IsOf, is_clean};
ghost use Rattle.policy_lint.specs.declared.ending.Ends.TheVariants.{Past};
ghost use Rattle.policy_query.specs.Document.{policy_in};
ghost use Rattle.policy_text.specs.declared.fault.PolicyFault.{PolicyFault};
ghost use Rattle.std.specs.List.{All};
ghost use Rattle.policy_faults.specs.Fault.{IsFirst};
ghost use Rattle.std.specs.Prelude.{◌≡◌, Err, IfOk, Ok, length};

use crate::ending::{Ended, Ends, ended_in};
use crate::hiding::{Hidden, hidden_in};
use crate::notes::{Findings, Named, Note, notes_of, rules_of};
use crate::unmet::{Unmet, unmet_in};
use crate::warning::Warning;
use crate::warnings::warnings_of;
use byte_strings::Text;
use plain_words::plain;
use policy_faults::{Fault, faults_of, places_in};
use policy_query::Document;
use policy_text::PolicyFault;
use policy_tools::{Directory, WrittenPolicy};
use std::alloc::{AllocError, Global};

/// What is found in a policy's text.
#[derive(Drop)]
pub struct Report {
    /// Why the text is no policy; none where it is one.
    pub faults: Vec<Fault>,
    /// The rules that never decide, in their order.
    pub hidden: Vec<Hidden>,
    /// The rules that grant one end of what nobody may be the other end of, in their order.
    pub unmet: Vec<Unmet>,
    /// The rules that are over, in their order.
    pub over: Vec<Ended>,
    /// The rules that end soon, in their order.
    pub ending: Vec<Ended>,
    /// The other warnings, in the order of their rules.
    pub warnings: Vec<Warning>,
    rules: Vec<Named>,
    /// The moment at which the policy was looked at, in nanoseconds since 1970.
    moment: u64,
}

/// The rules that end within a period from a moment, if one is given.
fn ending_in(
    alloc: Global,
    source: &WrittenPolicy,
    moment: u64,
    soon: Option<u64>,
) -> Result<Vec<Ended>, AllocError>
    ensures exact { IfOk result (λ found. found.items ≡ ending_of moment soon source.now.policy.rules) }
    ensures ends { IfOk result (λ found. All (λ ended. IsGone source.now.policy.rules ended.until ended.at) found.items) }
{
    match soon {
        Some(period) => ended_in(alloc, source.rules(), Ends::Soon(moment, period)),
        None => Ok(Vec::new(alloc)),
    }
}

/// The rules that are over at a moment.
fn over_in(alloc: Global, source: &WrittenPolicy, moment: u64) -> Result<Vec<Ended>, AllocError>
    ensures exact { IfOk result (λ found. found.items ≡ ended_from 0 (is_among (Past moment)) source.now.policy.rules) }
    ensures gone { IfOk result (λ found. All (λ ended. IsGone source.now.policy.rules moment ended.at) found.items) }
{
    ended_in(alloc, source.rules(), Ends::Past(moment))
}

/// What is found in the text of a policy.
fn warned(
    alloc: Global,
    source: &WrittenPolicy,
    text: &str,
    moment: u64,
    soon: Option<u64>,
) -> Result<Report, AllocError>
    ensures { IfOk result (λ report. IsOf source.now.policy moment soon report) }
{
    let places = places_in(alloc, text)?;
    let rules = rules_of(alloc, source, &places)?;
    let unmet = unmet_in(alloc, source, &places, moment)?;
    let hidden = hidden_in(alloc, source)?;
    let warnings = warnings_of(alloc, source, hidden.as_slice(), places, moment)?;
    Ok(Report {
        faults: Vec::new(alloc),
        hidden,
        unmet,
        over: over_in(alloc, source, moment)?,
        ending: ending_in(alloc, source, moment, soon)?,
        warnings,
        rules,
        moment,
    })
}

/// What is found in a document that is no policy.
fn refused(
    alloc: Global,
    document: &Document<'_>,
    directory: &Directory,
    fault: PolicyFault,
) -> Result<Report, AllocError>
    ensures { IfOk result (λ report. IsFirst fault report.faults.items) }
{
    Ok(Report {
        faults: faults_of(alloc, document, directory, fault)?,
        hidden: Vec::new(alloc),
        unmet: Vec::new(alloc),
        over: Vec::new(alloc),
        ending: Vec::new(alloc),
        warnings: Vec::new(alloc),
        rules: Vec::new(alloc),
        moment: 0,
    })
}

/// Looks at a document: for its faults, where it is no policy, and else for what is likely not meant, at a moment in nanoseconds
/// since 1970: for rules that are over then and, if `soon` is given, for those that end within so many nanoseconds from it. There
/// is a fault exactly where [`Document::policy`] refuses the document, and the first one is that for which it does.
pub fn lint(
    alloc: Global,
    document: &Document<'_>,
    directory: &Directory,
    moment: u64,
    soon: Option<u64>,
) -> Result<Report, AllocError>
    ensures accepted { (policy : Rules) → policy_in directory.now document.now ≡ Ok policy → IfOk result (λ report. IsOf policy moment soon report) }
    ensures refused { (fault : PolicyFault) → policy_in directory.now document.now ≡ Err fault → IfOk result (λ report. IsFirst fault report.faults.items) }
{
    match WrittenPolicy::read(alloc, document, directory.names()) {
        Ok(source) => warned(alloc, &source, document.text(), moment, soon),
        Err(PolicyFault::NoMemory) => Err(AllocError),
        Err(fault) => refused(alloc, document, directory, fault),
    }
}

/// A count in words.
fn counted(alloc: Global, count: usize, one: &str) -> Result<Text, AllocError> {
    match count {
        0 => Ok(Text::from(format!(in alloc; "no {one}s")?)),
        1 => Ok(Text::from(format!(in alloc; "1 {one}")?)),
        _ => Ok(Text::from(format!(in alloc; "{count} {one}s")?)),
    }
}

/// Appends a line for each fault.
fn push_faults(
    alloc: Global,
    text: &mut String,
    file: &str,
    faults: &[Fault],
) -> Result<(), AllocError> {
    for fault in faults {
        let place = fault.place;
        let words = plain(alloc, format!(in alloc; "{fault}")?.as_str())?;
        writeln!(text, "{file}:{place}: error: {words}")?;
    }
    Ok(())
}

/// Appends a line for each note.
fn push_notes(
    alloc: Global,
    text: &mut String,
    file: &str,
    notes: &[Note],
) -> Result<(), AllocError> {
    for note in notes {
        let (place, rule) = (note.place, note.rule);
        write!(text, "{file}:{place}: warning: ")?;
        if let Some(name) = &note.name {
            let name = plain(alloc, name.as_str())?;
            write!(text, "rule {rule} ({name}): ")?;
        }
        let words = plain(alloc, note.text.as_str())?;
        writeln!(text, "{words}")?;
    }
    Ok(())
}

impl Report {
    /// How many faults there are.
    pub fn faults_len(&self) -> usize
        ensures { result ≡ length self.now.faults.items }
    {
        self.faults.len()
    }

    /// How many warnings there are.
    pub fn warnings_len(&self) -> usize {
        let own = self.warnings.len();
        self.hidden
            .len()
            .saturating_add(self.unmet.len())
            .saturating_add(self.over.len())
            .saturating_add(self.ending.len())
            .saturating_add(own)
    }

    /// Whether there is no fault and, under `strict`, no warning.
    pub fn is_clean(&self, strict: bool) -> bool
        ensures { result ≡ is_clean strict self.now }
    {
        self.faults.is_empty()
            && (!strict
                || self.hidden.is_empty()
                    && self.unmet.is_empty()
                    && self.over.is_empty()
                    && self.ending.is_empty()
                    && self.warnings.is_empty())
    }

    /// The warnings in words, rule by rule.
    pub fn notes(&self, alloc: Global) -> Result<Vec<Note>, AllocError> {
        notes_of(
            alloc,
            Findings {
                rules: self.rules.as_slice(),
                hidden: self.hidden.as_slice(),
                unmet: self.unmet.as_slice(),
                over: self.over.as_slice(),
                ending: self.ending.as_slice(),
                warnings: self.warnings.as_slice(),
                moment: self.moment,
            },
        )
    }

    /// The report in words: a line for each fault and each warning, and one that counts them.
    pub fn text(&self, alloc: Global, file: &str) -> Result<Text, AllocError> {
        let notes = self.notes(alloc)?;
        let mut text = String::new(alloc);
        push_faults(alloc, &mut text, file, self.faults.as_slice())?;
        push_notes(alloc, &mut text, file, notes.as_slice())?;
        let faults = counted(alloc, self.faults_len(), "fault")?;
        let warnings = counted(alloc, notes.len(), "warning")?;
        writeln!(text, "{faults}, {warnings}")?;
        Ok(Text::from(text))
    }
}

//! The warnings of a report, in words.

use crate::ending::Ended;
use crate::hiding::Hidden;
use crate::unmet::Unmet;
use crate::warning::{Doubt, Warning};
use byte_strings::Text;
use moment_words::date_text;
use policy_faults::{Place, Places};
use policy_tools::WrittenPolicy;
use std::alloc::{AllocError, Global};

/// What a rule is called, and where it stands.
#[derive(Drop)]
pub(crate) struct Named {
    name: Text,
    place: Place,
    /// Where its end stands.
    until: Place,
}

/// A warning in words.
#[derive(Drop)]
pub struct Note {
    /// Where what it warns of stands in the text.
    pub place: Place,
    /// The number of the rule, counted from 1; 0 for the document around the rules.
    pub rule: usize,
    /// What the rule is called.
    pub name: Option<Text>,
    /// The warning itself.
    pub text: Text,
}

/// What the rules are called, and where they stand.
pub(crate) fn rules_of(
    alloc: Global,
    source: &WrittenPolicy,
    places: &Places,
) -> Result<Vec<Named>, AllocError> {
    let mut rules = Vec::new(alloc);
    let mut number: usize = 0;
    for rule in source.rules() {
        number = number.saturating_add(1);
        rules.push(Named {
            name: Text::new(alloc, rule.name.as_str())?,
            place: places.of(number, ""),
            until: places.of(number, "until"),
        })?;
    }
    Ok(rules)
}

/// A note about the rule at `at`; about the document where there is none.
fn note_of(
    alloc: Global,
    rules: &[Named],
    at: usize,
    place: Place,
    text: Text,
) -> Result<Note, AllocError> {
    let (rule, name) = match rules.get(at) {
        Some(rule) => (at.saturating_add(1), Some(rule.name.copy(alloc)?)),
        None => (0, None),
    };
    Ok(Note {
        place,
        rule,
        name,
        text,
    })
}

/// The rules that hide another one, in words.
fn hiders_text(alloc: Global, rules: &[Named], by: &[usize]) -> Result<Text, AllocError> {
    if by.len() == 1
        && let Some(at) = by.first()
        && let Some(rule) = rules.get(*at)
    {
        let number = at.saturating_add(1);
        let name = &rule.name;
        return Ok(Text::from(format!(in alloc;
            "never decides: rule {number} ({name}) already decides every request of this rule"
        )?));
    }
    let mut text = String::new(alloc);
    text.push_str("never decides: rules ")?;
    let mut mark = "";
    for at in 0..rules.len() {
        if by.contains(&at) {
            let number = at.saturating_add(1);
            write!(text, "{mark}{number}")?;
            mark = ", ";
        }
    }
    text.push_str(" together already decide every request of this rule")?;
    Ok(Text::from(text))
}

/// Adds a note for each of these that is about the rule at `at`.
fn push_hidden(
    alloc: Global,
    rules: &[Named],
    hidden: &[Hidden],
    at: usize,
    notes: &mut Vec<Note>,
) -> Result<(), AllocError> {
    let Some(rule) = rules.get(at) else {
        return Ok(());
    };
    for found in hidden {
        if found.at == at {
            let text = hiders_text(alloc, rules, found.by.as_slice())?;
            notes.push(note_of(alloc, rules, at, rule.place, text)?)?;
        }
    }
    Ok(())
}

/// The same of rules with an end, of which `what` says what is to be said.
fn push_ended(
    alloc: Global,
    rules: &[Named],
    ended: &[Ended],
    what: &str,
    at: usize,
    notes: &mut Vec<Note>,
) -> Result<(), AllocError> {
    let Some(rule) = rules.get(at) else {
        return Ok(());
    };
    for found in ended {
        if found.at == at {
            let date = date_text(alloc, found.until)?;
            let text = Text::from(format!(in alloc; "{what} {date}")?);
            notes.push(note_of(alloc, rules, at, rule.until, text)?)?;
        }
    }
    Ok(())
}

/// When something is so: a date, where the moment is after that at which the policy was looked at.
fn when_text(alloc: Global, looked_at: u64, moment: u64) -> Result<Text, AllocError> {
    if moment <= looked_at {
        return Text::new(alloc, "");
    }
    let date = date_text(alloc, moment)?;
    Ok(Text::from(format!(in alloc; "at {date} ")?))
}

/// The same of ends that nobody may be.
fn push_unmet(
    alloc: Global,
    rules: &[Named],
    unmet: &[Unmet],
    looked_at: u64,
    at: usize,
    notes: &mut Vec<Note>,
) -> Result<(), AllocError> {
    for found in unmet {
        if found.at == at {
            let when = when_text(alloc, looked_at, found.moment)?;
            let channel = found.channel.canonical(alloc)?;
            let stream = found.stream;
            let text = format!(in alloc; "{when}{found}: on {channel}, stream {stream}")?;
            notes.push(note_of(alloc, rules, at, found.place, Text::from(text))?)?;
        }
    }
    Ok(())
}

/// The same of other warnings.
fn push_warnings(
    alloc: Global,
    rules: &[Named],
    warnings: &[Warning],
    looked_at: u64,
    at: usize,
    notes: &mut Vec<Note>,
) -> Result<(), AllocError> {
    for warning in warnings {
        if warning.at == at {
            let doubt = &warning.doubt;
            let moment = match doubt {
                Doubt::Gap(gap) => gap.moment,
                _ => 0,
            };
            let when = when_text(alloc, looked_at, moment)?;
            let text = Text::from(format!(in alloc; "{when}{doubt}")?);
            notes.push(note_of(alloc, rules, at, warning.place, text)?)?;
        }
    }
    Ok(())
}

/// What is found, of which notes are made.
#[derive(Clone, Copy)]
pub(crate) struct Findings<'a> {
    pub(crate) rules: &'a [Named],
    pub(crate) hidden: &'a [Hidden],
    pub(crate) unmet: &'a [Unmet],
    pub(crate) over: &'a [Ended],
    pub(crate) ending: &'a [Ended],
    pub(crate) warnings: &'a [Warning],
    /// The moment at which the policy was looked at, in nanoseconds since 1970.
    pub(crate) moment: u64,
}

/// A note for each finding, rule by rule, and at last those about the document.
pub(crate) fn notes_of(alloc: Global, found: Findings<'_>) -> Result<Vec<Note>, AllocError> {
    let Findings {
        rules,
        hidden,
        unmet,
        over,
        ending,
        warnings,
        moment,
    } = found;
    let mut notes = Vec::new(alloc);
    for at in 0..rules.len() {
        push_hidden(alloc, rules, hidden, at, &mut notes)?;
        push_ended(alloc, rules, over, "is over since", at, &mut notes)?;
        push_ended(alloc, rules, ending, "ends at", at, &mut notes)?;
        push_unmet(alloc, rules, unmet, moment, at, &mut notes)?;
        push_warnings(alloc, rules, warnings, moment, at, &mut notes)?;
    }
    push_warnings(alloc, rules, warnings, moment, rules.len(), &mut notes)?;
    Ok(notes)
}

//! What principals and rules are called, for lines that say what was decided.

ghost use Rattle.std.specs.Prelude.{◌≡◌};

use crate::decided::Taken;
use byte_strings::Text;
use denial_notes::{Again, Decider, Denial, Repeated, RuleNames, Worded};
use moment_words::date_text;
use plain_words::plain;
use policy_core::{Policy, Principals, Verdict};
use policy_tools::{Directory, principals_text};
use std::alloc::{AllocError, Global};
use std::mem;

/// What is called how while a policy is in force.
#[derive(Drop)]
pub(crate) struct Book {
    rules: RuleNames,
    principals: Directory,
}

/// The same names of principals.
fn copied(alloc: Global, directory: &Directory) -> Result<Directory, AllocError> {
    let mut copy = Directory::new(alloc);
    for (name, number) in directory.given() {
        copy = copy.with(alloc, name.copy(alloc)?, *number)?;
    }
    Ok(copy)
}

/// The number of a rule, with more bits.
fn wide(rule: Option<u32>) -> Option<u64>
    ensures { result ≡ rule }
{
    match rule {
        Some(rule) => Some(rule as u64),
        None => None,
    }
}

/// The name of a rule, where it is known.
fn known(name: &str) -> Option<&str> {
    if name.is_empty() {
        return None;
    }
    Some(name)
}

impl Book {
    /// The names under the policy of that number.
    pub(crate) fn of(
        alloc: Global,
        directory: &Directory,
        policy: &Policy,
        epoch: u64,
    ) -> Result<Book, AllocError> {
        Ok(Book {
            rules: RuleNames::of(alloc, policy, epoch)?,
            principals: copied(alloc, directory)?,
        })
    }
}

/// The names under the newest policy, and under the one before it.
#[derive(Drop)]
pub(crate) struct Books {
    newest: Book,
    before: Option<Book>,
}

impl Books {
    pub(crate) fn new(first: Book) -> Books {
        Books {
            newest: first,
            before: None,
        }
    }

    /// A policy is put in force. One of the same number was not.
    pub(crate) fn enter(&mut self, book: Book) {
        let same = book.rules.epoch() == self.newest.rules.epoch();
        let before = mem::replace(&mut self.newest, book);
        if !same {
            self.before = Some(before);
        }
    }

    /// The name of the rule that decided; empty where it is not known.
    fn rule_of(&self, verdict: &Verdict) -> &str {
        if let Some(name) = self.newest.rules.name_of(verdict) {
            return name;
        }
        match &self.before {
            Some(book) => book.rules.name_of(verdict).unwrap_or(""),
            None => "",
        }
    }

    /// The name of a principal, or its number.
    pub(crate) fn principal(&self, alloc: Global, number: u32) -> Result<Text, AllocError> {
        principals_text(alloc, Principals::One(number), &self.newest.principals)
    }

    /// The line that says a denial.
    pub(crate) fn first(&self, alloc: Global, denial: &Denial) -> Result<String, AllocError> {
        let principal = self.principal(alloc, denial.principal)?;
        let worded = Worded {
            principal: principal.as_str(),
            rule: self.rule_of(&denial.verdict),
            denial: *denial,
        };
        format!(in alloc; "{worded}")
    }

    /// The line that says a decision.
    fn taken_line(&self, alloc: Global, taken: &Taken) -> Result<String, AllocError> {
        let Taken { moment, decision } = *taken;
        let Verdict { allow, rule, epoch } = decision.verdict;
        let moment = date_text(alloc, moment)?;
        let principal = self.principal(alloc, decision.principal)?;
        let act = decision.act.name();
        let stream = decision.stream;
        let word = if allow { "allowed" } else { "denied" };
        let name = self.rule_of(&decision.verdict);
        let decider = Decider { rule, name };
        format!(in alloc;
            "{moment} {principal}: {act} on stream {stream} {word} by {decider} in policy {epoch}\n"
        )
    }

    /// The same as JSON.
    fn taken_json(&self, alloc: Global, taken: &Taken) -> Result<String, AllocError> {
        let Taken { moment, decision } = *taken;
        let Verdict { allow, rule, epoch } = decision.verdict;
        let moment = date_text(alloc, moment)?;
        let principal = self.principal(alloc, decision.principal)?;
        let name = plain(alloc, self.rule_of(&decision.verdict))?;
        let name = known(name.as_str());
        let taken = json_answers::Taken {
            moment: moment.as_str(),
            principal: principal.as_str(),
            act: decision.act.name(),
            stream: decision.stream,
            subject: decision.subject,
            allow,
            policy: epoch,
            rule: wide(rule),
            name,
        };
        json_answers::taken(alloc, &taken)
    }

    /// The line that a decision is.
    pub(crate) fn taken(
        &self,
        alloc: Global,
        taken: &Taken,
        json: bool,
    ) -> Result<String, AllocError> {
        if json {
            self.taken_json(alloc, taken)
        } else {
            self.taken_line(alloc, taken)
        }
    }

    /// The line that says how many decisions are not kept any more.
    pub(crate) fn passed_over(
        &self,
        alloc: Global,
        count: u64,
        json: bool,
    ) -> Result<String, AllocError> {
        if json {
            json_answers::passed_over(alloc, count)
        } else {
            format!(in alloc; "{count} decisions were passed over\n")
        }
    }

    /// The line that says how often it came again.
    pub(crate) fn again(&self, alloc: Global, repeated: &Repeated) -> Result<String, AllocError> {
        let Repeated { denial, times } = *repeated;
        let principal = self.principal(alloc, denial.principal)?;
        let worded = Worded {
            principal: principal.as_str(),
            rule: self.rule_of(&denial.verdict),
            denial,
        };
        let again = Again { worded, times };
        format!(in alloc; "{again}")
    }
}

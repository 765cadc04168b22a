//! The parts of answers.

ghost use Rattle.json_answers.specs.Rows.{change_data, failed_data, finding_data, grant_data, miss_data, number_or_null, rule_data, taken_data, text_or_null, texts_data};
ghost use Rattle.serde_json.specs.View.{view};
ghost use Rattle.std.specs.Prelude.{◌≡◌, IfOk, option_copied};

use crate::line::Shown;
use byte_strings::Text;
use serde_json::{Value, json};
use std::alloc::{AllocError, Global};

/// A rule that does not match a request.
#[derive(Clone, Copy)]
pub struct Miss<'a> {
    /// The number of the rule, counted from 1.
    pub rule: u64,
    /// Its name.
    pub name: &'a str,
    /// The first part of it that does not match.
    pub part: &'a str,
}

/// A fault of a policy's text, or a warning about it.
#[derive(Clone, Copy)]
pub struct Finding<'a> {
    /// Where it stands; both count from 1.
    pub line: u64,
    pub column: u64,
    /// The number of the rule, counted from 1; `None` for the document around the rules.
    pub rule: Option<u64>,
    /// The rule's name, where it has one.
    pub name: Option<&'a str>,
    /// The key that is at fault, and what stands there.
    pub key: Option<&'a str>,
    pub value: Option<&'a str>,
    /// What is wrong, in words.
    pub text: &'a str,
}

/// A case that failed.
#[derive(Clone, Copy)]
pub struct Failed<'a> {
    /// The number of its line, counted from 1.
    pub line: u64,
    /// Its line.
    pub text: &'a str,
    /// Who asked what was not decided as it is wanted,
    pub principal: &'a str,
    /// of which act,
    pub act: &'a str,
    /// on which stream.
    pub stream: i32,
    /// What the policy decided.
    pub allow: bool,
    /// By which rule, counted from 1; `None` for the default.
    pub rule: Option<u64>,
}

/// A decision of a driver that serves.
#[derive(Clone, Copy)]
pub struct Taken<'a> {
    /// When it was taken, as a date.
    pub moment: &'a str,
    /// Who asked,
    pub principal: &'a str,
    /// for which act,
    pub act: &'a str,
    /// on which stream,
    pub stream: i32,
    /// and about what, by its number; 0 where it has none.
    pub subject: u64,
    /// What the policy of that number decided.
    pub allow: bool,
    pub policy: u64,
    /// By which rule, counted from 1; `None` for the default.
    pub rule: Option<u64>,
    /// The name of the rule, where it is known.
    pub name: Option<&'a str>,
}

/// A rule of a policy.
#[derive(Clone, Copy)]
pub struct Rule<'a> {
    /// Its number, counted from 1.
    pub rule: u64,
    pub name: &'a str,
    /// Of whom it speaks; `*` for everybody.
    pub principal: &'a str,
    /// Of which acts, by their names.
    pub acts: &'a [Text],
    /// The text of its pattern.
    pub channel: &'a str,
    /// The lowest and the highest stream.
    pub low: i32,
    pub high: i32,
    /// When it stands, in nanoseconds since 1970: from this moment on, and up to that one.
    pub from: Option<u64>,
    pub until: Option<u64>,
    pub allow: bool,
}

/// A row of a table.
#[derive(Clone, Copy)]
pub struct Grant<'a> {
    /// Who asks; `others` for all of whom no rule speaks by name.
    pub principal: &'a str,
    /// Which acts, by their names.
    pub acts: &'a [Text],
    /// The medium; `*` for all.
    pub medium: &'a str,
    /// The text of the pattern.
    pub channel: &'a str,
    /// The lowest and the highest stream.
    pub low: i32,
    pub high: i32,
    pub allow: bool,
    /// The number of the rule, counted from 1.
    pub rule: u64,
}

/// What decides in an old policy and in a new one, with different words.
#[derive(Clone, Copy)]
pub struct Change<'a> {
    /// Of whom both speak; `*` for everybody.
    pub principal: &'a str,
    /// Of which acts, by their names.
    pub acts: &'a [Text],
    /// Of which channels, as the row has them in words.
    pub channel: &'a str,
    /// The lowest and the highest stream.
    pub low: i32,
    pub high: i32,
    /// Whether the new policy allows it; the old one does not then, or the other way round.
    pub allow: bool,
    /// The rules that decide, counted from 1; `None` for the default.
    pub old: Option<u64>,
    pub new: Option<u64>,
    /// A request that is decided so, in words; `None` where none was found.
    pub example: Option<&'a str>,
}

/// A text, or null.
pub(crate) fn text_or_null(alloc: Global, text: Option<&str>) -> Result<Value, AllocError>
    ensures { IfOk result (λ value. view value ≡ text_or_null (option_copied text.entry)) }
{
    match text {
        Some(text) => Value::try_from_str(alloc, text),
        None => Ok(Value::Null),
    }
}

/// A number, or null.
pub(crate) fn number_or_null(number: Option<u64>) -> Value
    ensures { view result ≡ number_or_null number }
{
    match number {
        Some(number) => Value::from(number),
        None => Value::Null,
    }
}

/// The list of texts.
fn texts(alloc: Global, texts: &[Text]) -> Result<Value, AllocError>
    ensures { IfOk result (λ value. view value ≡ texts_data texts.now) }
{
    let mut list = Vec::new(alloc);
    for text in texts {
        serde_json::push(&mut list, Value::try_from_str(alloc, text.as_str())?)?;
    }
    Ok(Value::Array(list))
}

impl Shown for Miss<'_> {
    ghost content = { miss_data };

    fn value(&self, alloc: Global) -> Result<Value, AllocError> {
        json!(in alloc; {"name": self.name, "part": self.part, "rule": self.rule})
    }
}

impl Shown for Finding<'_> {
    ghost content = { finding_data };

    fn value(&self, alloc: Global) -> Result<Value, AllocError> {
        let name = text_or_null(alloc, self.name)?;
        let key = text_or_null(alloc, self.key)?;
        let stands = text_or_null(alloc, self.value)?;
        let rule = number_or_null(self.rule);
        json!(in alloc; {
            "column": self.column,
            "key": key,
            "line": self.line,
            "name": name,
            "rule": rule,
            "text": self.text,
            "value": stands
        })
    }
}

impl Shown for Failed<'_> {
    ghost content = { failed_data };

    fn value(&self, alloc: Global) -> Result<Value, AllocError> {
        let rule = number_or_null(self.rule);
        json!(in alloc; {
            "act": self.act,
            "allow": self.allow,
            "line": self.line,
            "principal": self.principal,
            "rule": rule,
            "stream": self.stream,
            "text": self.text
        })
    }
}

impl Shown for Rule<'_> {
    ghost content = { rule_data };

    fn value(&self, alloc: Global) -> Result<Value, AllocError> {
        let acts = texts(alloc, self.acts)?;
        let from = number_or_null(self.from);
        let until = number_or_null(self.until);
        json!(in alloc; {
            "acts": acts,
            "allow": self.allow,
            "channel": self.channel,
            "from": from,
            "high": self.high,
            "low": self.low,
            "name": self.name,
            "principal": self.principal,
            "rule": self.rule,
            "until": until
        })
    }
}

impl Shown for Grant<'_> {
    ghost content = { grant_data };

    fn value(&self, alloc: Global) -> Result<Value, AllocError> {
        let acts = texts(alloc, self.acts)?;
        json!(in alloc; {
            "acts": acts,
            "allow": self.allow,
            "channel": self.channel,
            "high": self.high,
            "low": self.low,
            "medium": self.medium,
            "principal": self.principal,
            "rule": self.rule
        })
    }
}

impl Shown for Taken<'_> {
    ghost content = { taken_data };

    fn value(&self, alloc: Global) -> Result<Value, AllocError> {
        let name = text_or_null(alloc, self.name)?;
        let rule = number_or_null(self.rule);
        json!(in alloc; {
            "act": self.act,
            "allow": self.allow,
            "moment": self.moment,
            "name": name,
            "policy": self.policy,
            "principal": self.principal,
            "rule": rule,
            "stream": self.stream,
            "subject": self.subject
        })
    }
}

impl Shown for Change<'_> {
    ghost content = { change_data };

    fn value(&self, alloc: Global) -> Result<Value, AllocError> {
        let acts = texts(alloc, self.acts)?;
        let old = number_or_null(self.old);
        let new = number_or_null(self.new);
        let example = text_or_null(alloc, self.example)?;
        json!(in alloc; {
            "acts": acts,
            "allow": self.allow,
            "channel": self.channel,
            "example": example,
            "high": self.high,
            "low": self.low,
            "new": new,
            "old": old,
            "principal": self.principal
        })
    }
}

ghost use Rattle.policy_faults.specs.Fault.{IsFirst, refusal_of};
ghost use Rattle.std.specs.Prelude.{◌≡◌, IfOk, None, true};

use crate::fault::{Cause, Fault};
use crate::places::{Place, Places, place_after, places_in};
use crate::showing::{shown, shown_key};
use crate::spelling::nearest;
use byte_strings::Text;
use channel_uri::Pattern;
use moment_words::{MomentFault, moment_of};
use policy_core::Act;
use policy_query::Document;
use policy_text::PolicyFault;
use policy_tools::Directory;
use std::alloc::{AllocError, Global};
use toml::value::Array;
use toml::{Table, Value};

/// The keys of a document.
const DOCUMENT: [&str; 3] = ["version", "default", "rule"];

/// The keys of a rule.
const RULE: [&str; 6] = ["name", "principal", "act", "channel", "stream", "allow"];

/// The keys of a rule in version 2.
const TIMED: [&str; 8] = [
    "name",
    "principal",
    "act",
    "channel",
    "stream",
    "from",
    "until",
    "allow",
];

/// The table of a rule, counted from 1; that of the document for 0.
#[derive(Clone, Copy)]
struct Part<'a> {
    number: u32,
    table: &'a Table,
}

impl Part<'_> {
    fn value(&self, key: &str) -> Option<&Value> {
        self.table.get(key)
    }

    fn text(&self, key: &str) -> Option<&str> {
        self.value(key)?.as_str()
    }

    /// What the rule is called.
    fn name(&self, alloc: Global) -> Result<Option<Text>, AllocError> {
        match self.text("name") {
            Some(name) if is_name(name) => Ok(Some(Text::new(alloc, name)?)),
            _ => Ok(None),
        }
    }
}

/// Whether the text can name a rule.
fn is_name(text: &str) -> bool {
    !text.is_empty() && text.len() <= 64 && text.bytes().all(|byte| byte >= b' ' && byte <= b'~')
}

/// The faults of a text, as they are found.
#[derive(Drop)]
struct Found {
    places: Places,
    faults: Vec<Fault>,
}

impl Found {
    /// Takes a fault of a key, with the value that is to be shown.
    fn take(
        &mut self,
        alloc: Global,
        part: Part<'_>,
        key: &str,
        value: Option<&Value>,
        cause: Cause,
    ) -> Result<(), AllocError> {
        let value = match value {
            Some(value) => Some(shown(alloc, value)?),
            None => None,
        };
        let name = part.name(alloc)?;
        self.faults.push(Fault {
            place: self.places.of(part.number as usize, key),
            rule: part.number,
            name,
            key: Some(shown_key(alloc, key)?),
            value,
            cause,
        })?;
        Ok(())
    }

    /// Takes a fault of a key's value, or that the key is missing.
    fn wrong(
        &mut self,
        alloc: Global,
        part: Part<'_>,
        key: &str,
        cause: Cause,
    ) -> Result<(), AllocError> {
        match part.value(key) {
            Some(value) => self.take(alloc, part, key, Some(value), cause),
            None => self.take(alloc, part, key, None, Cause::Missing),
        }
    }

    /// Looks for keys that are none of these words.
    fn keys(
        &mut self,
        alloc: Global,
        part: Part<'_>,
        words: &[&'static str],
    ) -> Result<(), AllocError> {
        for (key, value) in part.table.iter() {
            let key = key.as_str();
            if !words.iter().any(|word| *word == key) {
                let cause = if part.number > 0 && (key == "from" || key == "until") {
                    Cause::LaterKey
                } else {
                    Cause::UnknownKey(nearest(alloc, key, words)?)
                };
                self.take(alloc, part, key, Some(value), cause)?;
            }
        }
        Ok(())
    }

    fn principal(
        &mut self,
        alloc: Global,
        part: Part<'_>,
        directory: &Directory,
    ) -> Result<(), AllocError> {
        let Some(name) = part.text("principal") else {
            let wanted = Cause::Wanted("a principal's name, or \"*\"");
            return self.wrong(alloc, part, "principal", wanted);
        };
        if name == "*" || directory.number_of(name).is_some() {
            return Ok(());
        }
        let meant = nearest_name(alloc, name, directory)?;
        self.wrong(alloc, part, "principal", Cause::UnknownPrincipal(meant))
    }

    /// Looks at the name of an act.
    fn act(&mut self, alloc: Global, part: Part<'_>, value: &Value) -> Result<(), AllocError> {
        let name = value.as_str().unwrap_or("");
        if !value.is_str() || Act::from_name(name).is_some() {
            return Ok(());
        }
        let meant = nearest_act(alloc, name)?;
        self.take(alloc, part, "act", Some(value), Cause::UnknownAct(meant))
    }

    /// Looks at the names of a list of acts.
    fn listed_acts(
        &mut self,
        alloc: Global,
        part: Part<'_>,
        items: &Array,
    ) -> Result<(), AllocError> {
        if items.is_empty() {
            return self.wrong(alloc, part, "act", Cause::Wanted("at least one act"));
        }
        for value in items {
            if !value.is_str() {
                let wanted = Cause::Wanted("the name of an act");
                self.take(alloc, part, "act", Some(value), wanted)?;
            }
        }
        for value in items {
            self.act(alloc, part, value)?;
        }
        Ok(())
    }

    fn acts(&mut self, alloc: Global, part: Part<'_>) -> Result<(), AllocError> {
        if part.text("act") == Some("*") {
            return Ok(());
        }
        let wanted = Cause::Wanted("an act's name, a list of such names, or \"*\"");
        match part.value("act") {
            Some(Value::Array(items)) => self.listed_acts(alloc, part, items),
            Some(value) if value.is_str() => self.act(alloc, part, value),
            _ => self.wrong(alloc, part, "act", wanted),
        }
    }

    fn channel(&mut self, alloc: Global, part: Part<'_>) -> Result<(), AllocError> {
        let Some(text) = part.text("channel") else {
            return self.wrong(alloc, part, "channel", Cause::Wanted("a pattern"));
        };
        match Pattern::parse(text) {
            Ok(_) => Ok(()),
            Err(error) => self.wrong(alloc, part, "channel", Cause::BadPattern(error)),
        }
    }

    fn stream(&mut self, alloc: Global, part: Part<'_>) -> Result<(), AllocError> {
        let Some(value) = part.value("stream") else {
            return Ok(());
        };
        let Some((low, high)) = two_integers(value) else {
            let wanted = Cause::Wanted("[LOW, HIGH], two integers");
            return self.wrong(alloc, part, "stream", wanted);
        };
        if -2147483648 <= low && low <= high && high <= 2147483647 {
            return Ok(());
        }
        let why = if low > high {
            "the range is reversed: wanted [LOW, HIGH]"
        } else {
            "wanted streams of 32 bits, from -2147483648 to 2147483647"
        };
        self.wrong(alloc, part, "stream", Cause::BadRange(why))
    }

    /// A bound of the moments at which a rule stands, if it has one.
    fn bound(
        &mut self,
        alloc: Global,
        part: Part<'_>,
        key: &'static str,
    ) -> Result<Option<i64>, AllocError> {
        let Some(value) = part.value(key) else {
            return Ok(None);
        };
        let bound = value.as_integer();
        if bound.is_none() {
            let cause = no_moment(alloc, value)?;
            self.wrong(alloc, part, key, cause)?;
        }
        Ok(bound)
    }

    /// Looks whether a bound is below 0.
    fn early(
        &mut self,
        alloc: Global,
        part: Part<'_>,
        key: &'static str,
        bound: Option<i64>,
    ) -> Result<(), AllocError> {
        match bound {
            Some(bound) if bound < 0 => {
                let wanted = "wanted a moment in nanoseconds since 1970, 0 or more";
                self.wrong(alloc, part, key, Cause::BadRange(wanted))
            }
            _ => Ok(()),
        }
    }

    fn moments(&mut self, alloc: Global, part: Part<'_>) -> Result<(), AllocError> {
        let from = self.bound(alloc, part, "from")?;
        let until = self.bound(alloc, part, "until")?;
        self.early(alloc, part, "from", from)?;
        self.early(alloc, part, "until", until)?;
        match (from, until) {
            (Some(from), Some(until)) if 0 <= until && from >= until => {
                let wanted = Cause::BadRange("wanted a moment after `from`");
                self.wrong(alloc, part, "until", wanted)
            }
            _ => Ok(()),
        }
    }

    fn rule(
        &mut self,
        alloc: Global,
        part: Part<'_>,
        directory: &Directory,
        is_timed: bool,
    ) -> Result<(), AllocError> {
        if is_timed {
            self.keys(alloc, part, &TIMED)?;
        } else {
            self.keys(alloc, part, &RULE)?;
        }
        if !is_name(part.text("name").unwrap_or("")) {
            let wanted = Cause::Wanted("1 to 64 printable ASCII characters");
            self.wrong(alloc, part, "name", wanted)?;
        }
        self.principal(alloc, part, directory)?;
        self.acts(alloc, part)?;
        self.channel(alloc, part)?;
        self.stream(alloc, part)?;
        if is_timed {
            self.moments(alloc, part)?;
        }
        match part.value("allow") {
            Some(Value::Boolean(_)) => Ok(()),
            _ => self.wrong(alloc, part, "allow", Cause::Wanted("true or false")),
        }
    }

    fn rules(
        &mut self,
        alloc: Global,
        part: Part<'_>,
        items: &Array,
        directory: &Directory,
        is_timed: bool,
    ) -> Result<(), AllocError> {
        for value in items {
            if !value.is_table() {
                let wanted = Cause::Wanted("a table for each rule");
                self.take(alloc, part, "rule", Some(value), wanted)?;
            }
        }
        if items.len() > 1024 {
            let cause = Cause::TooManyRules(items.len());
            return self.take(alloc, part, "rule", None, cause);
        }
        let mut number: u32 = 0;
        for value in items {
            number = number.saturating_add(1);
            if let Some(table) = value.as_table() {
                self.rule(alloc, Part { number, table }, directory, is_timed)?;
            }
        }
        Ok(())
    }

    fn document(
        &mut self,
        alloc: Global,
        table: &Table,
        directory: &Directory,
    ) -> Result<(), AllocError> {
        let part = Part { number: 0, table };
        let mut is_timed = true;
        match part.value("version") {
            Some(Value::Integer(1)) => is_timed = false,
            Some(Value::Integer(2)) => {}
            _ => self.wrong(alloc, part, "version", Cause::Wanted("1 or 2"))?,
        }
        self.keys(alloc, part, &DOCUMENT)?;
        match part.text("default") {
            Some("allow" | "deny") => {}
            _ => {
                let wanted = Cause::Wanted("\"allow\" or \"deny\"");
                self.wrong(alloc, part, "default", wanted)?
            }
        }
        match part.value("rule") {
            None => Ok(()),
            Some(Value::Array(items)) => self.rules(alloc, part, items, directory, is_timed),
            Some(_) => self.wrong(
                alloc,
                part,
                "rule",
                Cause::Wanted("an array of tables, with `[[rule]]` before each"),
            ),
        }
    }
}

/// What is wrong with a value that is to be a moment: where it is a date, its nanoseconds are meant.
fn no_moment(alloc: Global, value: &Value) -> Result<Cause, AllocError> {
    let meant = match value {
        Value::String(date) => moment_of(date.as_str()),
        Value::Datetime(_) => moment_of(format!(in alloc; "{value}")?.as_str()),
        _ => Err(MomentFault::NoMoment),
    };
    Ok(match meant {
        Ok(moment) => Cause::Date(moment),
        Err(_) => Cause::Wanted("a moment in nanoseconds since 1970, 0 or more"),
    })
}

/// The act whose name is nearest.
fn nearest_act(alloc: Global, name: &str) -> Result<Option<&'static str>, AllocError> {
    let mut names = Vec::new(alloc);
    for act in &Act::EVERY {
        names.push(act.name())?;
    }
    nearest(alloc, name, names.as_slice())
}

/// The principal whose name is nearest.
fn nearest_name(
    alloc: Global,
    name: &str,
    directory: &Directory,
) -> Result<Option<Text>, AllocError> {
    let mut names = Vec::new(alloc);
    names.push("nobody")?;
    for (given, _number) in directory.given() {
        names.push(given.as_str())?;
    }
    match nearest(alloc, name, names.as_slice())? {
        Some(meant) => Ok(Some(Text::new(alloc, meant)?)),
        None => Ok(None),
    }
}

/// The integers of a list that is two integers.
fn two_integers(value: &Value) -> Option<(i64, i64)> {
    match value.as_array()?.as_slice() {
        [low, high] => Some((low.as_integer()?, high.as_integer()?)),
        _ => None,
    }
}

/// A fault of the text as a whole.
fn whole(place: Place, cause: Cause) -> Fault
    ensures no_key { result.key ≡ None }
    ensures cause { result.cause ≡ cause }
{
    Fault {
        place,
        rule: 0,
        name: None,
        key: None,
        value: None,
        cause,
    }
}

/// What is said of a text that is none of a document: what its reader says of the place, and what is meant where two kinds of
/// headers of rules stand in it.
fn message_at(
    alloc: Global,
    error: &toml::de::Error,
    place: Place,
    places: &Places,
) -> Result<Text, AllocError> {
    let message = error.message();
    if message == "duplicate key" && places.mixes_headers(place) {
        let meant = "`[[rule]]` begins each rule, and `[rule]` is a table of its own";
        return Ok(Text::from(format!(in alloc; "{message}; {meant}")?));
    }
    Text::new(alloc, message)
}

/// What is wrong with a text that is none of a document.
fn unreadable(
    alloc: Global,
    text: &str,
    error: &toml::de::Error,
    places: &Places,
) -> Result<Fault, AllocError> {
    let Some(span) = error.span() else {
        return Err(AllocError);
    };
    let before = text.as_bytes().get(..span.start).unwrap_or(&[]);
    let place = place_after(before);
    let message = message_at(alloc, error, place, places)?;
    Ok(whole(place, Cause::NotToml(message)))
}

/// What is found in a document.
fn found_of(
    alloc: Global,
    document: &Document<'_>,
    directory: &Directory,
) -> Result<Vec<Fault>, AllocError> {
    let mut found = Found {
        places: places_in(alloc, document.text())?,
        faults: Vec::new(alloc),
    };
    match document {
        Document::Toml { table, .. } => found.document(alloc, table, directory)?,
        Document::NotToml { text, error } => {
            let fault = unreadable(alloc, text, error, &found.places)?;
            found.faults.push(fault)?;
        }
        Document::NotText { before } => {
            let fault = whole(place_after(before), Cause::NotText);
            found.faults.push(fault)?;
        }
    }
    Ok(found.faults)
}

/// A fault that is that refusal, where no place of it is found.
fn refused(refusal: PolicyFault) -> Fault
    ensures { refusal_of result ≡ refusal }
{
    whole(Place { line: 1, column: 1 }, Cause::Refused(refusal))
}

/// Whether the first of the faults is this refusal.
fn is_first(refusal: PolicyFault, faults: &[Fault]) -> bool
    ensures { result ≡ true → IsFirst refusal faults.now }
{
    match faults.first() {
        Some(fault) => fault.refusal() == refusal,
        None => false,
    }
}

/// The faults of a document, which was refused with `refusal`: all that are found, and at least that one. It is the first of
/// them.
pub fn faults_of(
    alloc: Global,
    document: &Document<'_>,
    directory: &Directory,
    refusal: PolicyFault,
) -> Result<Vec<Fault>, AllocError>
    ensures { IfOk result (λ faults. IsFirst refusal faults.items) }
{
    let mut faults = found_of(alloc, document, directory)?;
    if is_first(refusal, faults.as_slice()) {
        return Ok(faults);
    }
    faults.insert(0, refused(refusal))?;
    Ok(faults)
}

use std::alloc::{AllocError, Global};
use std::collections::BTreeMap;
use std::fmt;

/// A place in a text. Both numbers count from 1; a column counts characters.
#[derive(Clone, Copy, PartialEq, Eq)]
pub struct Place {
    pub line: usize,
    pub column: usize,
}

impl fmt::Display for Place {
    fn fmt<W: fmt::Write>(&self, f: &mut fmt::Formatter<W>) -> fmt::Result {
        let (line, column) = (self.line, self.column);
        write!(f, "{line}:{column}")
    }
}

/// What is open at a place of a TOML text, outside brackets. A `char` is the quote of a string.
#[derive(Clone, Copy)]
enum Open {
    Nothing,
    Comment,
    /// One quote stands there: it begins a string, or the empty one, or one of many lines.
    Quote(char),
    /// Two quotes stand there: the empty string, if no third one follows.
    Quotes(char),
    /// A string on one line.
    Line(char),
    /// After a backslash there.
    LineEscape,
    /// A string of many lines, with so many quotes just before.
    Long(char, u8),
    /// After a backslash there.
    LongEscape,
    /// Three quotes ended a string of many lines; two more belong to it.
    End(char),
}

/// After this character, where nothing is open.
fn after_nothing(c: char) -> Open {
    match c {
        '"' | '\'' => Open::Quote(c),
        '#' => Open::Comment,
        _ => Open::Nothing,
    }
}

/// After this character, in a string on one line.
fn after_line(quote: char, c: char) -> Open {
    if c == quote || c == '\n' {
        return Open::Nothing;
    }
    if c == '\\' && quote == '"' {
        return Open::LineEscape;
    }
    Open::Line(quote)
}

/// After this character, in a string of many lines.
fn after_long(quote: char, quotes: u8, c: char) -> Open {
    if c == quote {
        return if quotes >= 2 {
            Open::End(quote)
        } else {
            Open::Long(quote, quotes + 1)
        };
    }
    if c == '\\' && quote == '"' {
        return Open::LongEscape;
    }
    Open::Long(quote, 0)
}

impl Open {
    /// What is open after this character.
    fn after(self, c: char) -> Open {
        match self {
            Open::Nothing => after_nothing(c),
            Open::Comment => {
                if c == '\n' {
                    Open::Nothing
                } else {
                    Open::Comment
                }
            }
            Open::Quote(quote) => {
                if c == quote {
                    Open::Quotes(quote)
                } else {
                    after_line(quote, c)
                }
            }
            Open::Quotes(quote) => {
                if c == quote {
                    Open::Long(quote, 0)
                } else {
                    after_nothing(c)
                }
            }
            Open::Line(quote) => after_line(quote, c),
            Open::LineEscape => Open::Line('"'),
            Open::Long(quote, quotes) => after_long(quote, quotes, c),
            Open::LongEscape => Open::Long('"', 0),
            Open::End(quote) => { if c == quote { self } else { after_nothing(c) } }
        }
    }

    /// Whether this character is one of the document itself, and in no string and no comment.
    fn is_plain(self, c: char) -> bool {
        match self {
            Open::Nothing => true,
            Open::Quotes(quote) | Open::End(quote) => c != quote,
            _ => false,
        }
    }
}

/// Where the keys of a table stand: of one that stands there twice, where it is first.
type Keys = BTreeMap<String, Place>;

/// Where the rules of a policy and their keys stand in its text.
#[derive(Drop)]
pub struct Places {
    /// The headers `[[rule]]`.
    rules: Vec<Place>,
    /// The keys of the document.
    document: Keys,
    /// Those of each rule.
    of_rules: Vec<Keys>,
    /// The headers `[rule]`, of which none is one of a rule.
    tables: Vec<Place>,
    /// Whose keys come next: a rule's, counted from 1, or the document's for 0, or those of a table that is no rule for `None`.
    of: Option<usize>,
}

/// A key stands there, unless it stands somewhere before.
fn note(alloc: Global, keys: &mut Keys, key: &str, place: Place) -> Result<(), AllocError> {
    if keys.get(key).is_none() {
        keys.insert(String::from_str(alloc, key)?, place)?;
    }
    Ok(())
}

/// The key in a text, without blanks and quotes around it.
fn key_in(text: &str) -> &str {
    let text = text.trim();
    for quote in ['"', '\''] {
        if let Some(rest) = text.strip_prefix(quote) {
            return match rest.strip_suffix(quote) {
                Some(key) => key,
                None => rest,
            };
        }
    }
    text
}

/// The key of a header of an array of tables.
fn array_in(head: &str) -> Option<&str> {
    Some(key_in(head.strip_prefix("[[")?.strip_suffix("]]")?))
}

/// The key of a header of one table.
fn table_in(head: &str) -> Option<&str> {
    if head.starts_with("[[") {
        return None;
    }
    Some(key_in(head.strip_prefix("[")?.strip_suffix("]")?))
}

impl Places {
    fn new(alloc: Global) -> Places {
        Places {
            rules: Vec::new(alloc),
            document: BTreeMap::new(alloc),
            of_rules: Vec::new(alloc),
            tables: Vec::new(alloc),
            of: Some(0),
        }
    }

    /// Takes a key of the table whose keys come.
    fn take_key(&mut self, alloc: Global, key: &str, place: Place) -> Result<(), AllocError> {
        match self.of {
            None => Ok(()),
            Some(0) => note(alloc, &mut self.document, key, place),
            Some(_) => match self.of_rules.last_mut() {
                Some(keys) => note(alloc, keys, key, place),
                None => Ok(()),
            },
        }
    }

    /// Takes the header of a rule.
    fn take_rule(&mut self, alloc: Global, place: Place) -> Result<(), AllocError> {
        self.rules.push(place)?;
        self.of_rules.push(BTreeMap::new(alloc))?;
        self.of = Some(self.rules.len());
        Ok(())
    }

    /// Takes what stands before a `=`, or a header.
    fn take(&mut self, alloc: Global, head: &str, place: Place) -> Result<(), AllocError> {
        let head = head.trim();
        if head.is_empty() {
            return Ok(());
        }
        if !head.starts_with("[") {
            return self.take_key(alloc, key_in(head), place);
        }
        self.of = None;
        if let Some(key) = table_in(head) {
            if key == "rule" {
                self.tables.push(place)?;
            }
            note(alloc, &mut self.document, key, place)?;
        }
        match array_in(head) {
            Some("rule") => self.take_rule(alloc, place),
            Some(key) => note(alloc, &mut self.document, key, place),
            None => Ok(()),
        }
    }

    /// The place of a key of a rule, counted from 1; of one of the document for 0.
    fn key(&self, rule: usize, key: &str) -> Option<Place> {
        if rule == 0 {
            return self.document.get(key).copied();
        }
        self.of_rules.get(rule.checked_sub(1)?)?.get(key).copied()
    }

    /// Whether a header `[[rule]]` or `[rule]` is at this place, in a text that has one of the second kind.
    pub(crate) fn mixes_headers(&self, place: Place) -> bool {
        let is_there = self.tables.contains(&place) || self.rules.contains(&place);
        is_there && !self.tables.is_empty()
    }

    /// The place of a rule's header, counted from 1.
    fn rule(&self, rule: usize) -> Option<Place> {
        self.rules.get(rule.checked_sub(1)?).copied()
    }

    /// The place of a key of a rule, counted from 1; else that of the rule, else that of the array of rules, and else the
    /// first one. For 0 the key is one of the document.
    pub fn of(&self, rule: usize, key: &str) -> Place {
        if let Some(place) = self.key(rule, key) {
            return place;
        }
        if let Some(place) = self.rule(rule) {
            return place;
        }
        match self.key(0, "rule") {
            Some(place) if rule > 0 => place,
            _ => Place { line: 1, column: 1 },
        }
    }
}

/// The look at a text, character by character.
#[derive(Drop)]
struct Scan {
    open: Open,
    /// How many brackets are open.
    depth: usize,
    here: Place,
    /// Whether nothing but blanks stand before on the line, outside strings and brackets.
    is_fresh: bool,
    /// What stands before a `=`, or a header, as far as it is read.
    head: String,
    /// Where that begins; `None` where none is read.
    begun: Option<Place>,
}

impl Scan {
    fn new(alloc: Global) -> Scan {
        Scan {
            open: Open::Nothing,
            depth: 0,
            here: Place { line: 1, column: 1 },
            is_fresh: true,
            head: String::new(alloc),
            begun: None,
        }
    }

    /// Hands what is read to the places.
    fn end(&mut self, alloc: Global, places: &mut Places) -> Result<(), AllocError> {
        if let Some(place) = self.begun {
            places.take(alloc, self.head.as_str(), place)?;
        }
        self.begun = None;
        self.head.clear();
        Ok(())
    }

    /// Counts the brackets.
    fn count(&mut self, c: char) {
        match c {
            '[' | '{' => self.depth = self.depth.saturating_add(1),
            ']' | '}' => self.depth = self.depth.saturating_sub(1),
            _ => {}
        }
    }

    /// Goes on to the next character.
    fn go_on(&mut self, c: char) {
        self.open = self.open.after(c);
        if c == '\n' {
            self.here.line = self.here.line.saturating_add(1);
            self.here.column = 1;
            self.is_fresh = self.depth == 0 && self.open.is_plain(c);
        } else {
            self.here.column = self.here.column.saturating_add(1);
        }
    }

    /// Takes a character.
    fn take(&mut self, alloc: Global, c: char, places: &mut Places) -> Result<(), AllocError> {
        let is_plain = self.open.is_plain(c);
        if self.is_fresh && is_plain && !c.is_ascii_whitespace() {
            self.is_fresh = false;
            self.begun = Some(self.here);
        }
        if is_plain && (c == '#' || self.depth == 0 && (c == '=' || c == '\n')) {
            self.end(alloc, places)?;
        }
        if self.begun.is_some() {
            self.head.push(c)?;
        }
        if is_plain {
            self.count(c);
        }
        self.go_on(c);
        Ok(())
    }
}

/// Where the rules and keys of a policy's text stand.
pub fn places_in(alloc: Global, text: &str) -> Result<Places, AllocError> {
    let mut places = Places::new(alloc);
    let mut scan = Scan::new(alloc);
    for c in text.chars() {
        scan.take(alloc, c, &mut places)?;
    }
    scan.end(alloc, &mut places)?;
    Ok(places)
}

/// The place that so many bytes of a text are before.
pub(crate) fn place_after(before: &[u8]) -> Place {
    let mut place = Place { line: 1, column: 1 };
    for byte in before {
        if *byte == b'\n' {
            place.line = place.line.saturating_add(1);
            place.column = 1;
        } else if *byte & 0xc0 != 0x80 {
            place.column = place.column.saturating_add(1);
        }
    }
    place
}

//! Cases, as the lines of a file.

ghost use Rattle.policy_tools.specs.CaseLines.{Gives, Tells, behind_quote, place_of, acts_of, allow_from, allow_of, by_of, case_by, case_of, cases_from, cases_of, channel_from, channel_of, ended, fault_of, named, numbered, principals_of, quoted, some_cases, spaced, streams_of, which_of, word_at};
ghost use Rattle.policy_tools.specs.declared.case_lines.CasesFault.TheVariants as faults;
ghost use Rattle.channel_uri.specs.Syntax.{before_end};
ghost use Rattle.std.specs.Prelude.{◌≡◌, ◌==◌, IfOk, Some, None, codes, drop, if◌then◌else◌, map, option_copied};
ghost use Rattle.std.specs.Str.{is_utf8};
ghost use Rattle.std.specs.Str.Lines.{lines};

use crate::case_faults::{BadWord, CaseCause, CasePlace};
use crate::case_lists::{acts_from, principals_from, streams_of_word};
use crate::case_words::{column_of, pieces_of, words_in};
use crate::cases::{By, Case};
use crate::directory::{Directory, is_blank};
use crate::numbers::small_number;
use crate::wider::begins_with;
use byte_strings::{ShortText, Text};
use channel_uri::{Channel, UriError};
use policy_core::Act;
use std::alloc::{AllocError, AllocFailed, Global};
use std::error::Error;
use std::{fmt, str};

/// Why a file is no list of cases.
#[derive(Clone, Copy, Debug, PartialEq, Eq)]
pub enum CasesFault {
    /// The line is no case, for what is wrong at this place; or there is no case at all.
    BadLine(CasePlace, CaseCause),
    /// The word at this place is no channel.
    BadChannel(CasePlace, UriError),
    /// The file is not UTF-8.
    NotText,
    /// There is no memory for the cases.
    NoMemory,
}

impl From<AllocError> for CasesFault {
    ghost from_gives = { λ _ fault. fault ≡ faults.NoMemory };

    fn from(_error: AllocError) -> CasesFault {
        CasesFault::NoMemory
    }
}

impl<T: Drop> From<AllocFailed<T>> for CasesFault {
    ghost from_gives = { λ _ fault. fault ≡ faults.NoMemory };

    fn from(_error: AllocFailed<T>) -> CasesFault {
        CasesFault::NoMemory
    }
}

impl fmt::Display for CasesFault {
    fn fmt<W: fmt::Write>(&self, f: &mut fmt::Formatter<W>) -> fmt::Result {
        match self {
            CasesFault::BadLine(place, cause) => write!(f, "cases:{place}: {cause}"),
            CasesFault::BadChannel(place, error) => {
                write!(f, "cases:{place}: invalid channel: {error}")
            }
            CasesFault::NotText => f.write_str("cases: not text"),
            CasesFault::NoMemory => f.write_str("no memory"),
        }
    }
}

impl Error for CasesFault {}

/// The word at a place, counted from 0.
fn word_at<'a>(words: &[&'a str], place: usize, missing: CaseCause) -> Result<&'a str, BadWord>
    ensures { Tells (λ word. word.now) result (word_at (map (λ word. word.now) words.now) place missing) }
{
    match words.get(place) {
        Some(word) => Ok(*word),
        None => Err(BadWord::At(place, missing)),
    }
}

/// Who ask.
fn principals_of(
    alloc: Global,
    words: &[&str],
    directory: &Directory,
) -> Result<Vec<(Text, u32)>, BadWord>
    ensures { Tells (λ principals. principals.items) result (principals_of directory.now (map (λ word. word.now) words.now)) }
{
    let word = word_at(words, 0, CaseCause::NoPrincipal)?;
    match principals_from(alloc, word, directory)? {
        Some(principals) => Ok(principals),
        None => Err(BadWord::At(0, CaseCause::UnknownPrincipal)),
    }
}

/// What is asked.
fn acts_of(alloc: Global, words: &[&str]) -> Result<Vec<Act>, BadWord>
    ensures { Tells (λ acts. acts.items) result (acts_of (map (λ word. word.now) words.now)) }
{
    let word = word_at(words, 1, CaseCause::NoAct)?;
    match acts_from(alloc, word)? {
        Some(acts) => Ok(acts),
        None => Err(BadWord::At(1, CaseCause::UnknownAct)),
    }
}

/// From which stream to which.
fn streams_of(words: &[&str]) -> Result<(i32, i32), BadWord>
    ensures { Tells (λ streams. streams) result (streams_of (map (λ word. word.now) words.now)) }
{
    let word = word_at(words, 3, CaseCause::NoStream)?;
    match streams_of_word(word) {
        Some(streams) => Ok(streams),
        None => Err(BadWord::At(3, CaseCause::BadStream)),
    }
}

/// The wanted word.
fn allow_from(word: &str) -> Option<bool>
    ensures { result ≡ allow_from word.now }
{
    if word == "allow" {
        return Some(true);
    }
    if word == "deny" {
        return Some(false);
    }
    None
}

/// What is wanted.
fn allow_of(words: &[&str]) -> Result<bool, BadWord>
    ensures { Tells (λ allow. allow) result (allow_of (map (λ word. word.now) words.now)) }
{
    let word = word_at(words, 4, CaseCause::NoDecision)?;
    match allow_from(word) {
        Some(allow) => Ok(allow),
        None => Err(BadWord::At(4, CaseCause::NoDecision)),
    }
}

/// The channel that a word is. Rules on counters are asked about `aeron:counter`.
fn channel_from(word: &str) -> Result<Channel, BadWord>
    ensures { Tells (λ channel. channel) result (channel_from word.now) }
{
    if word == "aeron:counter" {
        return Ok(Channel::counter());
    }
    match Channel::parse(word) {
        Ok(channel) => Ok(channel),
        Err(error) => Err(BadWord::NoChannel(error)),
    }
}

/// On which channel.
fn channel_of(words: &[&str]) -> Result<Channel, BadWord>
    ensures { Tells (λ channel. channel) result (channel_of (map (λ word. word.now) words.now)) }
{
    let word = word_at(words, 2, CaseCause::NoChannel)?;
    channel_from(word)
}

/// By what, where no word stands at this place or behind it.
fn ended(place: usize, words: &[&str], by: By) -> Result<By, BadWord>
    ensures { Tells (λ by. by) result (ended place (map (λ word. word.now) words.now) by) }
{
    if words.len() <= place {
        Ok(by)
    } else {
        Err(BadWord::At(place, CaseCause::ExtraWord))
    }
}

/// The words, with a blank before each.
fn spaced(alloc: Global, words: &[&str]) -> Result<Text, AllocError>
    ensures { IfOk result (λ text. text ≡ spaced (map (λ word. word.now) words.now)) }
{
    let mut text = String::new(alloc);
    for word in words {
        text.push_str(" ")?;
        text.push_str(*word)?;
    }
    Ok(Text::from(text))
}

/// What stands behind a blank and a quote.
fn behind_quote(text: &str) -> Option<&str>
    ensures { option_copied result ≡ behind_quote text.now }
{
    text.strip_prefix(" \"")
}

/// What stands before a final quote.
fn before_quote(text: &str) -> Option<&str>
    ensures { option_copied result ≡ before_end (codes "\"") text.now }
{
    text.strip_suffix("\"")
}

/// What stands between the quotes of a text, the first of which follows a blank.
fn quoted(text: &str) -> Option<&str>
    ensures { option_copied result ≡ quoted text.now }
{
    before_quote(behind_quote(text)?)
}

/// The words from a place on.
fn words_from<'a, 'b>(words: &'b [&'a str], place: usize) -> &'b [&'a str]
    ensures { map (λ word. word.now) result.now ≡ drop place (map (λ word. word.now) words.now) }
{
    let at = place.min(words.len());
    words.split_at(at).1
}

/// A rule of that name.
fn named(name: Option<&str>) -> Result<By, BadWord>
    ensures { Tells (λ by. by) result (named (option_copied name.entry)) }
{
    let bad = BadWord::At(6, CaseCause::BadBy);
    let Some(name) = name else {
        return Err(bad);
    };
    if name.is_empty() || name.len() > 64 {
        return Err(bad);
    }
    Ok(By::Name(ShortText::new(name)))
}

/// By what, from the words from the seventh on.
fn which_of(alloc: Global, words: &[&str], which: &str) -> Result<By, BadWord>
    ensures { Tells (λ by. by) result (which_of (map (λ word. word.now) words.now) which.now) }
{
    if which == "default" {
        return ended(7, words, By::Default);
    }
    if begins_with(which, "\"") {
        let text = spaced(alloc, words_from(words, 6))?;
        return named(quoted(text.as_str()));
    }
    match small_number(which) {
        Some(rule) => ended(7, words, By::Rule(rule)),
        None => Err(BadWord::At(6, CaseCause::BadBy)),
    }
}

/// By what: a rule by its number or its name, or the default, behind the word `by`; by whatever it is, where no word is left.
fn by_of(alloc: Global, words: &[&str]) -> Result<By, BadWord>
    ensures { Tells (λ by. by) result (by_of (map (λ word. word.now) words.now)) }
{
    let Some(word) = words.get(5) else {
        return Ok(By::Any);
    };
    if *word != "by" {
        return Err(BadWord::At(5, CaseCause::BadBy));
    }
    let which = word_at(words, 6, CaseCause::BadBy)?;
    which_of(alloc, words, which)
}

/// What the words of a line ask and want.
fn case_by(
    alloc: Global,
    number: u32,
    line: &str,
    words: &[&str],
    directory: &Directory,
) -> Result<Case, BadWord>
    ensures { Tells (λ case. case) result (case_by directory.now number line.now (map (λ word. word.now) words.now)) }
{
    let principals = principals_of(alloc, words, directory)?;
    let acts = acts_of(alloc, words)?;
    word_at(words, 2, CaseCause::NoChannel)?;
    let (low, high) = streams_of(words)?;
    let allow = allow_of(words)?;
    let by = by_of(alloc, words)?;
    let channel = channel_of(words)?;
    Ok(Case {
        line: number,
        text: Text::new(alloc, line)?,
        principals,
        acts,
        channel,
        low,
        high,
        allow,
        by,
    })
}

/// The place of a word, in the line of this number.
fn place_of(number: u32, pieces: &[&str], place: usize) -> CasePlace
    ensures { result ≡ place_of number (map (λ piece. piece.now) pieces.now) place }
{
    CasePlace {
        line: number,
        column: column_of(pieces, place),
    }
}

/// The fault of the line of this number.
fn fault_of(number: u32, pieces: &[&str], bad: BadWord) -> CasesFault
    ensures { result ≡ fault_of number (map (λ piece. piece.now) pieces.now) bad }
{
    match bad {
        BadWord::At(place, cause) => { CasesFault::BadLine(place_of(number, pieces, place), cause) }
        BadWord::NoChannel(error) => CasesFault::BadChannel(place_of(number, pieces, 2), error),
        BadWord::NoMemory => CasesFault::NoMemory,
    }
}

/// The case that the line of this number is.
fn case_of(
    alloc: Global,
    number: u32,
    line: &str,
    directory: &Directory,
) -> Result<Case, CasesFault>
    ensures { Gives (λ case. case) result (case_of directory.now number line.now) }
{
    let pieces = pieces_of(alloc, line)?;
    let words = words_in(alloc, pieces.as_slice())?;
    match case_by(alloc, number, line, words.as_slice(), directory) {
        Ok(case) => Ok(case),
        Err(bad) => Err(fault_of(number, pieces.as_slice(), bad)),
    }
}

/// The lines of a text.
fn lines_of(alloc: Global, text: &str) -> Result<Vec<&str>, AllocError>
    ensures { IfOk result (λ found. map (λ line. line.now) found.items ≡ lines text.now) }
{
    text.lines().collect(alloc)
}

/// The cases of the lines of a text, the first of which has the number 1.
fn cases_from(alloc: Global, lines: &[&str], directory: &Directory) -> Result<Vec<Case>, CasesFault>
    ensures { Gives (λ cases. cases.items) result (cases_from directory.now 1 (map (λ line. line.now) lines.now)) }
{
    let mut cases = Vec::new(alloc);
    let mut number: u32 = 1;
    for line in lines {
        if is_blank(*line) {
            number = number.saturating_add(1);
            continue;
        }
        cases.push(case_of(alloc, number, *line, directory)?)?;
        number = number.saturating_add(1);
    }
    Ok(cases)
}

/// The cases, one at least.
fn some_cases(cases: Vec<Case>) -> Result<Vec<Case>, CasesFault>
    ensures { Gives (λ cases. cases.items) result (some_cases cases.items) }
{
    if cases.is_empty() {
        let place = CasePlace { line: 1, column: 1 };
        return Err(CasesFault::BadLine(place, CaseCause::NoCase));
    }
    Ok(cases)
}

/// The bytes as a text, where they are UTF-8.
fn text_in(bytes: &[u8]) -> Option<&str>
    ensures { option_copied result ≡ (if is_utf8 bytes.now then Some bytes.now else None) }
{
    match str::from_utf8(bytes) {
        Ok(text) => Some(text),
        Err(_) => None,
    }
}

/// The cases of a file: lines `PRINCIPAL ACT CHANNEL STREAM allow|deny`, and perhaps at their end `by NUMBER`, `by "NAME"` or
/// `by default`. There may be several principals and acts, with commas between them, and `*` is every act. There may be a range of
/// streams, as `LOW..HIGH`. Empty lines, and those that begin with `#`, say nothing.
///
/// # Errors
/// The first line that is no case; or that there is no case in the file.
#[tactic(auto, unfolding(crate::specs::CaseLines::cases_of))]
pub fn cases_in(alloc: Global, bytes: &[u8], directory: &Directory) -> Result<Vec<Case>, CasesFault>
    ensures { Gives (λ cases. cases.items) result (cases_of directory.now bytes.now) }
{
    let Some(text) = text_in(bytes) else {
        return Err(CasesFault::NotText);
    };
    let lines = lines_of(alloc, text)?;
    some_cases(cases_from(alloc, lines.as_slice(), directory)?)
}

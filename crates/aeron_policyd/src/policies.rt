//! What is asked of the policy in a file: the files are read, each once, and `policy_answers` answers.

use crate::fault::Fault;
use crate::files::bytes_of;
use crate::moments::{BadWord, at_of, soon_of, usual_moment};
use crate::named::Named;
use crate::saying::{Saying, give_up};
use crate::vetting::BadCases;
use crate::{USAGE, print_text};
use command_line::{Asked, Asking, Question};
use plain_words::plain;
use policy_answers::{
    Answer, AskFault, Place, Table, check, check_json, compare, compare_json, decide, decide_json,
    explain, explain_json, find_faults, find_faults_json, rows_text, show, show_json, table_of_all,
    table_of_all_json, table_of_one, table_of_one_json, try_cases, try_cases_json,
};
use policy_query::{DecideFault, Document};
use policy_text::PolicyFault;
use policy_tools::CasesFault;
use program_parts::{Disk, Machine};
use std::fmt;
use std::process::ExitCode;

/// What is asked, with what was read for it.
#[derive(Clone, Copy)]
struct Read<'a> {
    asking: &'a Asking<'a>,
    /// How a fault is said.
    saying: Saying,
    names: &'a Named,
    policy: &'a Document<'a>,
    /// The file of cases that the question names, if it names one.
    cases: &'a [u8],
    /// The other policy that it names, if it does.
    new: &'a Document<'a>,
    /// The moment at which the policy is asked, in nanoseconds since 1970.
    moment: u64,
    /// Within how many nanoseconds a rule has to end to be warned of, if it is to be.
    soon: Option<u64>,
}

impl Read<'_> {
    /// What the policy decides of a question.
    fn decided<R: Machine>(&self, rt: &R, question: &Question<'_>) -> Result<Answer, AskFault> {
        let Question {
            principal,
            act,
            channel,
            stream,
        } = *question;
        let (alloc, policy, moment) = (rt.alloc(), self.policy, self.moment);
        let directory = &self.names.directory;
        if self.asking.json {
            decide_json(
                alloc, policy, directory, principal, act, channel, stream, moment,
            )
        } else {
            decide(
                alloc, policy, directory, principal, act, channel, stream, moment,
            )
        }
    }

    /// What it decides of a question, and why.
    fn explained<R: Machine>(
        &self,
        rt: &R,
        question: &Question<'_>,
        near: Option<u64>,
    ) -> Result<Answer, AskFault> {
        let Question {
            principal,
            act,
            channel,
            stream,
        } = *question;
        let (alloc, policy, moment) = (rt.alloc(), self.policy, self.moment);
        let directory = &self.names.directory;
        if self.asking.json {
            explain_json(
                alloc, policy, directory, principal, act, channel, stream, moment, near,
            )
        } else {
            explain(
                alloc, policy, directory, principal, act, channel, stream, moment, near,
            )
        }
    }

    /// What is wrong with it, or likely not meant.
    fn linted<R: Machine>(&self, rt: &R, strict: bool) -> Result<Answer, AskFault> {
        let (alloc, policy, moment) = (rt.alloc(), self.policy, self.moment);
        let directory = &self.names.directory;
        let path = self.asking.policy;
        if self.asking.json {
            find_faults_json(alloc, policy, directory, path, strict, moment, self.soon)
        } else {
            find_faults(alloc, policy, directory, path, strict, moment, self.soon)
        }
    }

    /// Who may do what under it: one principal, or each.
    fn table<R: Machine>(&self, rt: &R, principal: Option<&str>) -> Result<Table, AskFault> {
        let (alloc, policy, moment) = (rt.alloc(), self.policy, self.moment);
        let directory = &self.names.directory;
        match principal {
            Some(name) => table_of_one(alloc, policy, directory, name, moment),
            None => table_of_all(alloc, policy, directory, moment),
        }
    }

    /// The same as JSON.
    fn table_json<R: Machine>(&self, rt: &R, principal: Option<&str>) -> Result<Answer, AskFault> {
        let (alloc, policy, moment) = (rt.alloc(), self.policy, self.moment);
        let directory = &self.names.directory;
        match principal {
            Some(name) => table_of_one_json(alloc, policy, directory, name, moment),
            None => table_of_all_json(alloc, policy, directory, moment),
        }
    }

    /// Prints a table, page by page, and how many rows it has.
    fn print_table<R: Machine>(&self, rt: &R, table: &Table) -> Result<ExitCode, Fault> {
        let directory = &self.names.directory;
        let mut place = Place::FIRST;
        for _ in 0..u64::MAX {
            if table.is_end(place) {
                break;
            }
            let page = table.page(rt.alloc(), directory, place)?;
            print_text(rt, page.text.as_str())?;
            place = page.next;
        }
        print_text(rt, rows_text(rt.alloc(), table.rows())?.as_str())
    }

    /// What is answered as one text.
    fn answer<R: Machine>(&self, rt: &R) -> Result<Answer, AskFault> {
        let alloc = rt.alloc();
        let directory = &self.names.directory;
        let json = self.asking.json;
        match &self.asking.asked {
            Asked::Check { .. } if json => check_json(alloc, self.policy, directory),
            Asked::Check { .. } => check(alloc, self.policy, directory),
            Asked::Show if json => show_json(alloc, self.policy, directory),
            Asked::Show => show(alloc, self.policy, directory),
            Asked::Decide(question) => self.decided(rt, question),
            Asked::Explain { question, near } => self.explained(rt, question, *near),
            Asked::Lint { strict, .. } => self.linted(rt, *strict),
            Asked::Test(_) if json => {
                try_cases_json(alloc, self.policy, directory, self.cases, self.moment)
            }
            Asked::Test(_) => try_cases(alloc, self.policy, directory, self.cases, self.moment),
            Asked::Table { principal } => self.table_json(rt, *principal),
            Asked::Diff(_) if json => {
                compare_json(alloc, self.policy, self.new, directory, self.moment)
            }
            Asked::Diff(_) => compare(alloc, self.policy, self.new, directory, self.moment),
        }
    }

    /// Answers, and prints the answer; what it ends with.
    fn respond<R: Machine>(&self, rt: &R) -> Result<Result<ExitCode, Fault>, AskFault> {
        match &self.asking.asked {
            Asked::Table { principal } if !self.asking.json => {
                let table = self.table(rt, *principal)?;
                Ok(self.print_table(rt, &table))
            }
            _ => {
                let answer = self.answer(rt)?;
                Ok(print_answer(rt, &answer))
            }
        }
    }

    /// Says what is wrong with the first file that is no policy: the policy's, or that of another one.
    fn refuse<R: Machine>(&self, rt: &R, fault: PolicyFault) -> Result<Fault, Fault> {
        let (names, saying) = (self.names, self.saying);
        let path = self.asking.policy;
        if let Some(said) = names.refuse(rt, saying, path, self.policy, fault)? {
            return Ok(said);
        }
        if let Asked::Diff(path) = &self.asking.asked {
            if let Some(said) = names.refuse(rt, saying, path, self.new, fault)? {
                return Ok(said);
            }
        }
        Ok(Fault::NO_MEMORY)
    }
}

/// The file that a question names beside the policy's.
fn other_file<'a>(asked: &Asked<'a>) -> Option<&'a str> {
    match asked {
        Asked::Test(path) | Asked::Diff(path) => Some(path),
        _ => None,
    }
}

/// The bytes of that file as cases, and as a policy: those of the other kind are none.
fn by_kind<'a>(asked: &Asked<'_>, bytes: &'a [u8]) -> (&'a [u8], &'a [u8]) {
    match asked {
        Asked::Diff(_) => (&[], bytes),
        _ => (bytes, &[]),
    }
}

/// The status of an answer that is not well, where it is not known that something failed.
const UNSURE: u8 = 4;

/// The status of an answer.
fn status_of(answer: &Answer) -> ExitCode {
    if answer.is_well {
        return ExitCode::SUCCESS;
    }
    if answer.is_sure {
        ExitCode::FAILURE
    } else {
        ExitCode::from(UNSURE)
    }
}

/// Prints what is answered.
fn print_answer<R: Machine>(rt: &R, answer: &Answer) -> Result<ExitCode, Fault> {
    print_text(rt, answer.text.as_str())?;
    Ok(status_of(answer))
}

/// Prints which word of the command line is at fault.
fn refuse<R: Machine>(rt: &R, word: BadWord<'_>) -> Result<ExitCode, Fault> {
    let alloc = rt.alloc();
    let why = plain(alloc, format!(in alloc; "{word}")?.as_str())?;
    match eprintln!(rt; "error: {why}\n\nFor more information, try '--help'.") {
        Ok(()) => Ok(ExitCode::from(USAGE)),
        Err(_) => Err(Fault::WRITE),
    }
}

/// The word that says how soon a rule has to end to be warned of.
fn soon_word<'a>(asked: &Asked<'a>) -> Option<&'a str> {
    match asked {
        Asked::Lint { soon, .. } => *soon,
        _ => None,
    }
}

/// A word of a question that is at fault.
#[derive(Clone, Copy)]
struct BadQuestion<'a> {
    word: &'a str,
    cause: AskFault,
}

impl fmt::Display for BadQuestion<'_> {
    fn fmt<W: fmt::Write>(&self, f: &mut fmt::Formatter<W>) -> fmt::Result {
        let BadQuestion { word, cause } = self;
        write!(f, "{word}: {cause}")
    }
}

/// Says what is wrong with a file of cases.
fn refuse_cases<R: Machine>(rt: &R, path: &str, fault: CasesFault) -> Fault {
    match fault {
        CasesFault::NoMemory => Fault::NO_MEMORY,
        _ => give_up(rt, &BadCases { path, fault }),
    }
}

/// Why a word is no channel, where it was to be one.
fn with_cause(fault: AskFault) -> AskFault {
    match fault {
        AskFault::Decide(DecideFault::InvalidChannel(error)) => AskFault::Channel(error),
        _ => fault,
    }
}

/// Says why a question is not answered, with the word of it that is at fault.
fn name_fault<R: Machine>(rt: &R, saying: Saying, asked: &Asked<'_>, fault: AskFault) -> Fault {
    let word = match (fault, asked) {
        (AskFault::Cases(fault), Asked::Test(path)) => return refuse_cases(rt, path, fault),
        (
            AskFault::Decide(DecideFault::UnknownPrincipal),
            Asked::Decide(question) | Asked::Explain { question, .. },
        ) => question.principal,
        (
            AskFault::Decide(DecideFault::UnknownAct),
            Asked::Decide(question) | Asked::Explain { question, .. },
        ) => question.act,
        (
            AskFault::Decide(DecideFault::InvalidChannel(_)) | AskFault::Channel(_),
            Asked::Decide(question) | Asked::Explain { question, .. },
        ) => question.channel,
        (AskFault::UnknownPrincipal, Asked::Table { principal }) => principal.unwrap_or(""),
        _ => return Fault::Ask(fault),
    };
    let cause = with_cause(fault);
    match plain(rt.alloc(), word) {
        Ok(word) => {
            let word = word.as_str();
            saying.give_up(rt, &fault, &BadQuestion { word, cause })
        }
        Err(_) => Fault::NO_MEMORY,
    }
}

/// How a fault of a question is said. The answers to `check` and `decide` are read by other programs too.
fn saying_of(asked: &Asked<'_>, is_terminal: bool) -> Saying {
    match asked {
        Asked::Check { places } => Saying::plain_or_both(*places || is_terminal),
        Asked::Decide(_) => Saying::plain_or_both(is_terminal),
        _ => Saying::Placed,
    }
}

/// Reads the files, and answers what is asked at a moment.
fn read_and_answer<R: Machine, F: Disk>(
    rt: &R,
    files: &F,
    asking: &Asking<'_>,
    saying: Saying,
    moment: u64,
    soon: Option<u64>,
) -> Result<ExitCode, Fault> {
    let names = Named::read(rt, files, saying, asking.names)?;
    let policy = bytes_of(rt, files, saying, asking.policy)?;
    let other = match other_file(&asking.asked) {
        Some(path) => bytes_of(rt, files, saying, path)?,
        None => Vec::new(rt.alloc()),
    };
    let (cases, new) = by_kind(&asking.asked, other.as_slice());
    let document = Document::read(rt.alloc(), policy.as_slice())?;
    let new = Document::read(rt.alloc(), new)?;
    let read = Read {
        asking,
        saying,
        names: &names,
        policy: &document,
        cases,
        new: &new,
        moment,
        soon,
    };
    match read.respond(rt) {
        Ok(printed) => printed,
        Err(AskFault::Policy(fault) | AskFault::Decide(DecideFault::Policy(fault))) => {
            Err(read.refuse(rt, fault)?)
        }
        Err(fault) => Err(name_fault(rt, saying, &asking.asked, fault)),
    }
}

/// Answers what is asked of the policy in a file. Standard error may be a terminal.
pub(crate) fn answer_asking<R: Machine, F: Disk>(
    rt: &R,
    files: &F,
    asking: &Asking<'_>,
    is_terminal: bool,
) -> Result<ExitCode, Fault> {
    let saying = saying_of(&asking.asked, is_terminal);
    let moment = match at_of(asking.at, usual_moment(rt, asking)?) {
        Ok(moment) => moment,
        Err(word) => return refuse(rt, word),
    };
    let soon = match soon_of(soon_word(&asking.asked)) {
        Ok(soon) => soon,
        Err(word) => return refuse(rt, word),
    };
    read_and_answer(rt, files, asking, saying, moment, soon)
}

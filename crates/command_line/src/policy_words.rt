//! The words that ask what a policy says: `check`, `decide`, `show`, `explain`, `lint`, `test`, `table` and `diff`.

ghost use Rattle.clap.specs.Words.{found_of};
ghost use Rattle.command_line.specs.Needs.{Answers, HasAll, HasSigned, HasText, ask_needs, word_needs};
ghost use Rattle.command_line.specs.Tasks.{AreFound, asked_numbers, asked_texts, asked_word, asking_texts, every_word, question_texts, stream_alone, word_name};
ghost use Rattle.std.specs.List.{AllByRecursion};
ghost use Rattle.std.specs.Prelude.{◌≡◌, ◌∷◌, [], IfSome, Some, codes, is_some, true};

use crate::numbers::{number_in, signed_in};
use crate::rows::{FLAG, Form, NATURAL, OPTION, PLACED, Row};
use clap::ArgMatches;
use clap::builder::ValueParser;

/// The policy's file.
const POLICY: Row = Row {
    id: "POLICY",
    help: "The policy's file, of at most 16,777,216 bytes",
    ..PLACED
};

const PRINCIPAL: Row = Row {
    id: "PRINCIPAL",
    help: "Who asks: nobody, p1 to p63, or a name that --names gives",
    ..PLACED
};

const ACT: Row = Row {
    id: "ACT",
    help: "What is asked, one of the acts below",
    ..PLACED
};

const CHANNEL: Row = Row {
    id: "CHANNEL",
    help: "On which channel, such as aeron:ipc; aeron:counter where a counter is meant",
    ..PLACED
};

const STREAM: Row = Row {
    id: "STREAM",
    takes: NATURAL,
    help: "On which stream, 0 to 2147483647; for a counter its type id",
    ..PLACED
};

/// The file of the cases that `test` runs.
const CASES: Row = Row {
    id: "CASES",
    help: "The file of the cases, of at most 16,777,216 bytes",
    ..PLACED
};

/// The file of the policy with which `diff` compares.
const NEW: Row = Row {
    id: "NEW",
    help: "The file of the policy that would take its place, of at most 16,777,216 bytes",
    ..PLACED
};

/// The file of the principals' names.
pub(crate) const NAMES: Row = Row {
    id: "names",
    value: &["FILE"],
    help: "Names of principals, lines `principal NAME NUMBER`, instead of p1 to p63",
    ..OPTION
};

/// The moment at which a policy is asked.
const AT: Row = Row {
    id: "at",
    value: &["MOMENT"],
    help: "When it is asked: nanoseconds since 1970, or a date as 2026-12-01T08:00:00Z; 0 if not given",
    ..OPTION
};

/// The moment at which `lint` looks at a policy.
const LOOKED_AT: Row = Row {
    help: "When it is looked at: nanoseconds since 1970, or a date as 2026-12-01T08:00:00Z; now if not given",
    ..AT
};

/// How soon a rule has to end, so that it is warned of.
const SOON: Row = Row {
    id: "soon",
    value: &["PERIOD"],
    help: "Warns of rules that end within this: a number and d, h, m or s, as 7d, or nanoseconds",
    ..OPTION
};

/// Whether it is said where the first fault is.
const PLACES: Row = Row {
    id: "places",
    help: "Says where the first fault is, too, as on a terminal",
    ..FLAG
};

/// Whether the answer is JSON.
const JSON: Row = Row {
    id: "json",
    help: "Prints the answer as JSON, on one line",
    ..FLAG
};

/// How many rules are explained at most.
const NEAR: Row = Row {
    id: "near",
    value: &["N"],
    takes: ValueParser::Unsigned(0, 1024),
    help: "Names only the N rules that come nearest to a match, nearest first",
    ..OPTION
};

/// Whether a warning counts as a fault.
const STRICT: Row = Row {
    id: "strict",
    help: "Ends with status 1 where there is a warning, too",
    ..FLAG
};

/// Whose rows alone `table` shows.
const OF_PRINCIPAL: Row = Row {
    id: "principal",
    value: &["PRINCIPAL"],
    help: "Shows the rows of this principal alone",
    ..OPTION
};

/// `check`.
pub(crate) const CHECK: Form = Form {
    name: "check",
    about: "Validates a policy: says how many rules it has, or its first fault",
    places: &[POLICY],
    options: &[PLACES, JSON, NAMES],
    after: "\
Example: a policy of two rules, and one whose first rule has its range of streams reversed.

  $ aeron_policyd check policy.toml
  ok: 2 rules
  $ aeron_policyd check swapped.toml
  aeron_policyd: rule 1: bad range

A policy is TOML: `version = 1`, `default = \"allow\"` or `\"deny\"`, and any `[[rule]]` with `name`, `principal`, `act`,
`channel`, `allow` and perhaps `stream = [LOW, HIGH]`. With `version = 2` a rule may hold from `from` on and up to `until`, in
nanoseconds since 1970. Principals are `nobody` and `p1` to `p63`, or `*` for everybody.

With --names FILE principals have the names of that file, whose lines are `principal NAME NUMBER` as in a script.

  $ aeron_policyd check named.toml
  aeron_policyd: rule 1: unknown principal
  $ aeron_policyd check --names desk.names named.toml
  ok: 1 rules

With --places, and where standard error is a terminal, a second line says where the fault is and what is wanted, in the words of
`lint`; where there are more faults it ends in `see: aeron_policyd lint FILE`. With --json the answer is `{\"rules\":2}`.

  $ aeron_policyd check --places swapped.toml
  aeron_policyd: rule 1: bad range
  swapped.toml:9:1: rule 1 (the house keeps streams 10 to 20): stream = [20, 10]: the range is reversed: wanted [LOW, HIGH]

Status: 0; 1 after `aeron_policyd: FAULT` on standard error: a file that can't be read, or is larger than 16 MiB; the first
fault of the names or of the policy; write failed; no memory. 2 for a usage error.",
};

/// `decide`.
pub(crate) const DECIDE: Form = Form {
    name: "decide",
    about: "Says what a policy decides of a request, and by which rule",
    places: &[POLICY, PRINCIPAL, ACT, CHANNEL, STREAM],
    options: &[AT, JSON, NAMES],
    after: "\
Example: rule 1 of the policy denies everybody streams 10 to 20; rule 2 allows p1 to subscribe to `aeron:ipc`.

  $ aeron_policyd decide policy.toml p1 subscribe aeron:ipc 10
  denied by rule 1 in policy 1
  $ aeron_policyd decide policy.toml p1 subscribe aeron:ipc 9
  allowed by rule 2 in policy 1
  $ aeron_policyd decide policy.toml p2 subscribe aeron:ipc 9
  denied by default in policy 1
  $ aeron_policyd decide policy.toml p64 subscribe aeron:ipc 9
  aeron_policyd: unknown principal

The first rule that matches decides, whatever the others say; where none does, the default stands. Acts are publish,
publish-exclusive, subscribe, spy, destination, counter, terminate, offer, image, receive, send, retransmit, join
and list.

With --names FILE principals have the names of that file, whose lines are `principal NAME NUMBER` as in a script.

  $ aeron_policyd decide --names desk.names named.toml gateway publish aeron:ipc 1010
  allowed by rule 1 in policy 1

With --at MOMENT it is asked at that moment, a number of nanoseconds since 1970 or a date: here the desk publishes from 8 to 18.

  $ aeron_policyd decide --names desk.names --at 2026-12-01T08:00:00Z operating/hours.toml gateway publish aeron:ipc 1010
  allowed by rule 1 in policy 1
  $ aeron_policyd decide --names desk.names --at 1796148000000000000 operating/hours.toml gateway publish aeron:ipc 1010
  denied by default in policy 1
  $ aeron_policyd decide --names desk.names operating/hours.toml gateway publish aeron:ipc 1010
  denied by default in policy 1

With --json the answer is an object, whose `rule` is null where the default decides.

  $ aeron_policyd decide --json policy.toml p1 subscribe aeron:ipc 9
  {\"allow\":true,\"policy\":1,\"rule\":2}

Status: 0, whatever the policy decides; 1 after `aeron_policyd: FAULT` on standard error, the first of: a fault of a file, as
`check` has it; unknown principal; unknown act; invalid channel; write failed; no memory. 2 for a usage error.",
};

/// `show`.
pub(crate) const SHOW: Form = Form {
    name: "show",
    about: "Lists the rules of a policy with their numbers",
    places: &[POLICY],
    options: &[JSON, NAMES],
    after: "\
Example: a verdict says `rule 2`; which one is that?

  $ aeron_policyd show policy.toml
  1  the house keeps streams 10 to 20  *   *                        *          10..20  deny
  2  p1 reads in this host             p1  subscribe,image,receive  aeron:ipc  *       allow
  default deny

The columns are the rule's number, its name, its principal, its acts, its pattern, its streams and its word; `*` is every
one. The first rule that matches decides; where none does, the default stands. Where a rule holds for a time, the dates between
which it does stand before the word:

  $ aeron_policyd show --names operating/contractor.names operating/contractor.toml
  1  the contractor reads telemetry to the end of 2026  contractor  subscribe,image,receive  aeron:ipc  3000..3019  until 2027-01-01T00:00:00Z  allow
  2  the pricer publishes telemetry                     pricer      publish,offer            aeron:ipc  3000..3019  always                      allow
  default deny

With --names FILE principals have the names of that file, whose lines are `principal NAME NUMBER` as in a script, instead of p1
to p63. A principal that has no name there is written by its number, as `#7`. With --json the answer is an object with the
rules and the default.

Status: 0; 1 after `aeron_policyd: FAULT` on standard error, as of `check`; 2 for a usage error.",
};

/// `explain`.
pub(crate) const EXPLAIN: Form = Form {
    name: "explain",
    about: "Says what a policy decides of a request, and why",
    places: &[POLICY, PRINCIPAL, ACT, CHANNEL, STREAM],
    options: &[AT, JSON, NAMES, NEAR],
    after: "\
Example: may p1 subscribe to `aeron:ipc`, stream 9, may p2, and why?

  $ aeron_policyd explain policy.toml p1 subscribe aeron:ipc 9
  allowed by rule 2 in policy 1
  rule 2, p1 reads in this host: decides
  rule 1, the house keeps streams 10 to 20: the stream does not match
  $ aeron_policyd explain policy.toml p2 subscribe aeron:ipc 9
  denied by default in policy 1
  no rule matches
  rule 1, the house keeps streams 10 to 20: the stream does not match
  rule 2, p1 reads in this host: the principal does not match
  $ aeron_policyd explain policy.toml p1 subscribe 'aeron:udp?endpoint=10.0.0.1:99999' 9
  aeron_policyd: aeron:udp?endpoint=10.0.0.1:99999: invalid channel: bad value of endpoint

The first line is what `decide` says. Of each rule before the one that decides, the first part that does not match is
named: the principal, the act, the medium or a key of the channel, or the stream. Of a rule that does not hold at the moment of
--at, which is 0 if none is given, it is the moment:

  $ aeron_policyd explain --names operating/contractor.names --at 2027-01-01T00:00:00Z operating/contractor.toml contractor receive aeron:ipc 3000
  denied by default in policy 1
  no rule matches
  rule 1, the contractor reads telemetry to the end of 2026: the moment does not match
  rule 2, the pricer publishes telemetry: the principal does not match

With --near N only the N rules that come nearest to a match are named: those first of which one part does not match, then those
of which two do not, and so on.

  $ aeron_policyd explain --near 1 policy.toml p2 subscribe aeron:ipc 9
  denied by default in policy 1
  no rule matches
  rule 1, the house keeps streams 10 to 20: the stream does not match

With --json the answer is an object with the decision and with `misses`, a list of these rules.

Status: 0, whatever the policy decides; 1 after `aeron_policyd: FAULT` on standard error, as of `decide`; 2 for a usage error.",
};

/// `lint`.
pub(crate) const LINT: Form = Form {
    name: "lint",
    about: "Reports errors and suspicious rules",
    places: &[POLICY],
    options: &[STRICT, LOOKED_AT, SOON, JSON, NAMES],
    after: "\
Example: nothing is wrong with one policy, and a range of another one ends before it begins.

  $ aeron_policyd lint policy.toml
  no faults, no warnings
  $ aeron_policyd lint swapped.toml
  swapped.toml:9:1: error: rule 1 (the house keeps streams 10 to 20): stream = [20, 10]: the range is reversed: wanted [LOW, HIGH]
  1 fault, no warnings

All faults are said, each with the line and the column of its key. Where there is none, warnings are of rules that are
likely not meant as they stand: a rule that never decides, and by which rules it is hidden; an act that no request of that
channel or stream has; a key or a value that no channel has; a beginning that ends inside a number; a denial that a channel
evades by leaving a key out; a grant that does not serve without another one; a type of counters that is the driver's own. A
rule that is over is one too, as of now or of the moment of --at; and with --soon PERIOD a rule that ends within that time:

  $ aeron_policyd lint --names operating/contractor.names --at 2026-12-28T00:00:00Z --soon 7d operating/contractor.toml
  operating/contractor.toml:10:1: warning: rule 1 (the contractor reads telemetry to the end of 2026): ends at 2027-01-01T00:00:00Z
  no faults, 1 warning
  $ aeron_policyd lint --names operating/contractor.names --at 2027-01-01T00:00:00Z operating/contractor.toml
  operating/contractor.toml:10:1: warning: rule 1 (the contractor reads telemetry to the end of 2026): is over since 2027-01-01T00:00:00Z
  no faults, 1 warning

With --json the answer is an object with the faults and the warnings, each with its line and its column.

Status: 0; 1 where there is a fault, with --strict also where there is a warning, and after `aeron_policyd: FAULT` on standard
error: no clock; a file that can't be read, or is larger than 16 MiB; a fault of the names; write failed; no memory. 2 for a usage
error.",
};

/// `test`.
pub(crate) const TEST: Form = Form {
    name: "test",
    about: "Runs test cases against a policy",
    places: &[POLICY, CASES],
    options: &[AT, JSON, NAMES],
    after: "\
Example: four questions with the answers that are wanted, one of which the policy does not give.

  $ cat wanted.cases
  # PRINCIPAL ACT CHANNEL STREAM allow|deny [by RULE | by default]
  p1 subscribe aeron:ipc 9 allow
  p1 subscribe aeron:ipc 10 deny by 1
  p2 subscribe aeron:ipc 9 deny by default
  p2 subscribe aeron:ipc 10 deny by default
  $ aeron_policyd test policy.toml wanted.cases
  line 5: p2 subscribe aeron:ipc 10 deny by default: denied by rule 1 in policy 1
  3 passed, 1 failed

A case is a question, the word that is wanted, and perhaps by what: the number of a rule, its name in quotes, or the default.
Words have spaces between them, one or more. Principals and acts may be several, with commas between them, and streams a range,
as 10..20; `*` is each act, or each stream. Then all of it has to be decided so. Empty lines, and those that begin with `#`, say
nothing. With --at all are asked at that moment:

  $ aeron_policyd test --names desk.names --at 2026-12-01T08:00:00Z operating/hours.toml operating/hours.cases
  3 passed, 0 failed
  $ aeron_policyd test --names desk.names --at 2026-12-01T18:00:00Z operating/hours.toml operating/after_hours.cases
  3 passed, 0 failed

Status: 0 where each case passes; 1 where one fails, and after `aeron_policyd: FAULT` on standard error: those of `check`, the
first line that is no case, as `wanted.cases:5:4: unknown act`, or that there is no case; 2 for a usage error.",
};

/// `table`.
pub(crate) const TABLE: Form = Form {
    name: "table",
    about: "Says who may do what under a policy",
    places: &[POLICY],
    options: &[OF_PRINCIPAL, AT, JSON, NAMES],
    after: "\
Example: what may p1 do?

  $ aeron_policyd table policy.toml --principal p1
  p1  publish,publish-exclusive,spy,destination,counter,terminate,offer,send,retransmit,join,list  *    *          10..20  deny   rule 1
  p1  subscribe,image,receive                                                                      ipc  aeron:ipc  ..9     allow  rule 2
  p1  subscribe,image,receive                                                                      *    *          10..20  deny   rule 1
  p1  subscribe,image,receive                                                                      ipc  aeron:ipc  21..    allow  rule 2
  4 rows

A row has the principal, the acts, the medium, the pattern, the streams, the word and the rule. Rows of one principal, act
and stream interval stand in order: the first whose pattern covers a channel decides it. What only the default decides is
left out. Without --principal the rows of each principal that a rule names follow one another, and at last those of all
others. Rules that do not hold at the moment of --at, which is 0 if none is given, have no row:

  $ aeron_policyd table --names desk.names --at 2026-12-01T08:00:00Z --principal gateway operating/hours.toml
  gateway  publish,offer  ipc  aeron:ipc  1000..1099  allow  rule 1
  1 row
  $ aeron_policyd table --names desk.names --at 2026-12-01T18:00:00Z --principal gateway operating/hours.toml
  0 rows

Rows are printed as they are made. More than a million are refused before the first.

Status: 0; 1 after `aeron_policyd: FAULT` on standard error: those of `check`, unknown principal, or too many rows; 2 for a usage
error.",
};

/// `diff`.
pub(crate) const DIFF: Form = Form {
    name: "diff",
    about: "Shows which decisions differ between two policies",
    places: &[POLICY, NEW],
    options: &[AT, JSON, NAMES],
    after: "\
Example: which decisions differ between policy.toml and open.toml?

  $ aeron_policyd diff policy.toml open.toml
  *  *                                                                                            *  10..20  deny by rule 1 (the house keeps streams 10 to 20) -> allow by default  p2 publish aeron:ipc 10
  *  publish,publish-exclusive,spy,destination,counter,terminate,offer,send,retransmit,join,list  *  ..9     deny by default -> allow by default                                    p2 publish aeron:ipc 0
  *  publish,publish-exclusive,spy,destination,counter,terminate,offer,send,retransmit,join,list  *  21..    deny by default -> allow by default                                    p2 publish aeron:ipc 21
  *  subscribe,image,receive                                                                      *  ..9     deny by default -> allow by default                                    p2 subscribe aeron:udp 0
  *  subscribe,image,receive                                                                      *  21..    deny by default -> allow by default                                    p2 subscribe aeron:udp 21
  5 rows differ

Each row is of what decides under the old policy and under the new one, a rule or the default, with different words. It has whose
requests it is of, the acts, the channels, the streams, the change, and a request as an example, on whose channel all requests of
the row are decided so. Where no example is found, a row says `may differ`. A request that one policy allows and the other denies
is in a row. Requests are those of a principal, of everybody (*), of all but one, or of all others, whom no rule names. Both
policies are looked at at the moment of --at, which is 0 if none is given: at other ones other requests may differ.

Status: 0 where nothing would be decided otherwise; 1 where something would, and after `aeron_policyd: FAULT` on standard
error: those of `check`, for the old policy and then for the new one; 2 for a usage error; 4 where
there are rows, and each only may differ.",
};

/// What is asked of a policy.
#[derive(Clone, Copy)]
pub enum Asked<'a> {
    /// How many rules it has; whether its first fault is named by its place, too.
    Check {
        places: bool,
    },
    /// Its rules.
    Show,
    /// What it decides of a question.
    Decide(Question<'a>),
    /// What it decides of a question, and why; of so many rules at most, those that fit best, if a number is given.
    Explain {
        question: Question<'a>,
        near: Option<u64>,
    },
    /// What is wrong with it, or likely not meant; whether a warning counts as a fault, and how soon a rule has to end for one.
    Lint {
        strict: bool,
        soon: Option<&'a str>,
    },
    /// Whether it gives the answers that the cases in a file want.
    Test(&'a str),
    /// Who may do what under it; of one principal, if one is named.
    Table {
        principal: Option<&'a str>,
    },
    /// What would be decided otherwise under the policy in another file.
    Diff(&'a str),
}

/// The words of a question.
#[derive(Clone, Copy)]
pub struct Question<'a> {
    pub principal: &'a str,
    pub act: &'a str,
    pub channel: &'a str,
    pub stream: i32,
}

/// A question about the policy in a file.
#[derive(Clone, Copy)]
pub struct Asking<'a> {
    /// The policy's file.
    pub policy: &'a str,
    /// The file of the names of principals, where one is given.
    pub names: Option<&'a str>,
    /// The moment at which it is asked, where one is given.
    pub at: Option<&'a str>,
    /// Whether the answer is JSON.
    pub json: bool,
    pub asked: Asked<'a>,
}

fn question_in<'m, 'a>(of: &'m ArgMatches<'a>) -> Option<Question<'m>>
    ensures given { IfSome result (λ question. AreFound (found_of of.now) (question_texts question) (stream_alone question.stream)) }
    ensures answers { AllByRecursion (HasText (found_of of.now)) (codes "PRINCIPAL" ∷ codes "ACT" ∷ codes "CHANNEL" ∷ []) → HasSigned (found_of of.now) (codes "STREAM") → is_some result ≡ true }
{
    Some(Question {
        principal: of.get_str("PRINCIPAL")?,
        act: of.get_str("ACT")?,
        channel: of.get_str("CHANNEL")?,
        stream: signed_in(of, "STREAM")?,
    })
}

/// A subcommand that asks what a policy says.
#[derive(Clone, Copy)]
enum Word {
    Check,
    Decide,
    Show,
    Explain,
    Lint,
    Test,
    Table,
    Diff,
}

impl Word {
    /// The subcommand of that name, if it is one of these.
    fn named(name: &str) -> Option<Word>
        ensures name { IfSome result (λ word. name.now ≡ word_name word) }
        ensures answers { AllByRecursion (λ word. name.now ≡ word_name word → result ≡ Some word) every_word }
    {
        match name {
            "check" => Some(Word::Check),
            "decide" => Some(Word::Decide),
            "show" => Some(Word::Show),
            "explain" => Some(Word::Explain),
            "lint" => Some(Word::Lint),
            "test" => Some(Word::Test),
            "table" => Some(Word::Table),
            "diff" => Some(Word::Diff),
            _ => None,
        }
    }
}

/// What the words of such a subcommand ask.
fn asked_in<'m, 'a>(word: Word, of: &'m ArgMatches<'a>) -> Option<Asked<'m>>
    ensures word { IfSome result (λ asked. asked_word asked ≡ word) }
    ensures given { IfSome result (λ asked. AreFound (found_of of.now) (asked_texts asked) (asked_numbers asked)) }
    ensures answers { HasAll (found_of of.now) (word_needs word) → is_some result ≡ true }
{
    Some(match word {
        Word::Check => Asked::Check {
            places: of.get_flag("places"),
        },
        Word::Decide => Asked::Decide(question_in(of)?),
        Word::Show => Asked::Show,
        Word::Explain => Asked::Explain {
            question: question_in(of)?,
            near: number_in(of, "near"),
        },
        Word::Lint => Asked::Lint {
            strict: of.get_flag("strict"),
            soon: of.get_str("soon"),
        },
        Word::Test => Asked::Test(of.get_str("CASES")?),
        Word::Table => Asked::Table {
            principal: of.get_str("principal"),
        },
        Word::Diff => Asked::Diff(of.get_str("NEW")?),
    })
}

/// What the words of such a subcommand ask, if it is one.
pub(crate) fn asking_in<'m, 'a>(name: &str, of: &'m ArgMatches<'a>) -> Option<Asking<'m>>
    ensures name { IfSome result (λ asking. name.now ≡ word_name (asked_word asking.asked)) }
    ensures given { IfSome result (λ asking. AreFound (found_of of.now) (asking_texts asking) (asked_numbers asking.asked)) }
    ensures answers { Answers (found_of of.now) name.now ask_needs result }
{
    let asked = asked_in(Word::named(name)?, of)?;
    Some(Asking {
        policy: of.get_str("POLICY")?,
        names: of.get_str("names"),
        at: of.get_str("at"),
        json: of.get_flag("json"),
        asked,
    })
}

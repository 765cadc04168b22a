//! The words of `serve`, and of the subcommands that speak to a driver that serves: `stat`, `stop`, `reload`, `clients` and
//! `decisions`.

ghost use Rattle.clap.specs.Words.{found_of};
ghost use Rattle.command_line.specs.Needs.{Answers, HasAll, HasText, serve_needs, serving_needs};
ghost use Rattle.command_line.specs.Tasks.{AreFound, doors_texts, order_name, start_name, start_numbers, start_texts};
ghost use Rattle.std.specs.Prelude.{◌≡◌, [], IfSome, codes, is_some, true};

use crate::numbers::number_in;
use crate::policy_words;
use crate::rows::{AGAIN, FLAG, Form, OPTION, Row, SECONDS, UP_TO_BILLION};
use crate::running_line::{ASKS, PEER, POLICY, RELOAD_EVERY, SETTING, STRANGERS, Start};
use clap::ArgMatches;
use clap::builder::ValueParser;

/// The folder of the sockets.
const FOLDER: Row = Row {
    id: "folder",
    value: &["FOLDER"],
    required: true,
    help: "The folder of the sockets, in which nobody else may write",
    ..OPTION
};

/// A socket for a principal.
const DOOR: Row = Row {
    id: "door",
    value: &["PRINCIPAL=OWNER"],
    help: "A socket for a principal, and whose it is; may be given again for other principals",
    ..AGAIN
};

/// The file of the principals' names.
const NAMES: Row = Row {
    value: &["NAMES"],
    ..policy_words::NAMES
};

/// The file of cases that each policy has to keep.
const CASES: Row = Row {
    id: "cases",
    value: &["CASES"],
    help: "Cases that each policy has to keep, as `test` reads them",
    ..OPTION
};

/// The mode of a socket that is named by its path.
const MODE: Row = Row {
    id: "mode",
    value: &["MODE"],
    default: &["660"],
    help: "The mode of a socket that is named by its path, as chmod has it",
    ..OPTION
};

/// A bound for each principal.
const BOUND: Row = Row {
    value: &["N"],
    takes: UP_TO_BILLION,
    ..OPTION
};

const EACH: Row = Row {
    id: "each",
    takes: ValueParser::Unsigned(1, 64),
    help: "How many clients a principal may have at once [default: an equal part of 64]",
    ..BOUND
};

const PUBLICATIONS: Row = Row {
    id: "publications",
    help: "How many publications the clients of a principal may have at once",
    ..BOUND
};

const PAGES: Row = Row {
    id: "pages",
    help: "How many pages of 4,096 bytes the logs of these may take",
    ..BOUND
};

const SUBSCRIPTIONS: Row = Row {
    id: "subscriptions",
    help: "How many subscriptions they may have at once",
    ..BOUND
};

const COUNTERS: Row = Row {
    id: "counters",
    help: "How many counters they may have at once",
    ..BOUND
};

/// How long a client that has something to read may not go on with it.
const POLL_WITHIN: Row = Row {
    id: "poll-within",
    value: &["SECONDS"],
    takes: UP_TO_BILLION,
    default: &["10"],
    help: "Lets a client go that has something to read and does not go on for so long; 0 for never",
    ..OPTION
};

/// The socket of the driver that is spoken to.
const DRIVER: Row = Row {
    id: "driver",
    value: &["SOCKET"],
    required: true,
    help: "The socket of a driver that serves",
    ..OPTION
};

/// How often `stat` prints.
const EVERY: Row = Row {
    id: "every",
    value: &["SECONDS"],
    takes: SECONDS,
    help: "Prints them again after so many seconds each time",
    ..OPTION
};

/// `serve`.
pub(crate) const SERVE: Form = Form {
    name: "serve",
    about: "Starts a driver whose clients are in other processes",
    places: &[],
    options: &[
        POLICY,
        FOLDER,
        DOOR,
        NAMES,
        CASES,
        MODE,
        SETTING,
        PEER,
        STRANGERS,
        ASKS,
        RELOAD_EVERY,
        EACH,
        PUBLICATIONS,
        PAGES,
        SUBSCRIPTIONS,
        COUNTERS,
        POLL_WITHIN,
    ],
    after: "\
Example: nobody else may be able to write in the folder of the sockets.

  $ aeron_policyd serve --policy open.toml --folder /no/such/folder --door p1
  aeron_policyd: no folder /no/such

Services of two users share a driver. Whoever the system lets open p1.sock acts for p1:

  mkdir -m 755 /run/aeron_policyd
  aeron_policyd serve --policy policy.toml --folder /run/aeron_policyd --door p1=$(id -u trading) --door p2=$(id -u telemetry)

Then, as the user telemetry and as the user trading:

  aeron_policyd subscribe --driver /run/aeron_policyd/p2.sock --count 1 aeron:ipc 10
  echo 'bid 99' | aeron_policyd publish --driver /run/aeron_policyd/p1.sock aeron:ipc 10

Each --door makes a Unix socket in the folder, named after the principal, and gives it an owner:

  p1               p1.sock, for the user who starts the driver
  p1=1001          p1.sock, for the user 1001: mode 0600
  p1=1001:2002     p1.sock, for the user 1001 and the group 2002: mode 0660
  p1=/run/p1/bus   that path, in a folder that is there, with the mode of --mode; who may search the folder is the system's to
                   say. For a driver that may give no file away

With --cases each policy has to keep the cases of a file, as `test` reads them and at the moment at which it is to be in force. A
driver does not start under one that fails a case, and a reload, which reads the cases again, then changes nothing:

  $ aeron_policyd serve --policy policy.toml --cases wanted.cases --folder /no/such/folder --door p1
  aeron_policyd: wanted.cases: line 5: p2 subscribe aeron:ipc 10 deny by default: denied by rule 1 in policy 1

operator.sock is for the user who starts the driver: `stop`, `reload`, `clients` and `decisions` speak to it. Nobody else may be able to
write in the folder. Where another driver answers at a socket, this one gives up.

The folder of each socket is root's or the driver's own user's, and nobody else may write there; in a folder above it others may,
where it is sticky, as /tmp. No name has a / or begins with a dot, and no part of a path does.

A principal has --each clients at most at once, an equal part of 64 if that is not given. Its clients have so many
--publications, --subscriptions and --counters among them, and logs of so many --pages; where one of these is not given, each
door has an equal part of what the driver has room for. What is asked for beyond is refused by the name of the bound, as
`bound on publications`. A publication counts until its log is gone, which is the setting `linger` after it was removed. Of
1,024 commands each door has an equal part that may be without an answer; one more is refused as `queue full`.

A client that has something to read of a source and does not go on with it for --poll-within seconds is let go, so that it does
not hold up those who publish: it goes on where it reads a quarter of what is there. With 0 nobody is let go for that.

Services speak records over the socket; docs/SERVICE.md has them, with clients in Python and C. A client of which no record
comes for the setting `client-liveness` is gone, and one whose process dies is gone at once.

What is denied is a line on standard error when it first comes, as `p2: publish on stream 10 denied by rule 3 \"desk alone\" in
policy 1`, and ten seconds later another one says how often it came again. Sixteen denials of a principal are said in ten seconds,
and then how many others there were. What is withheld, denied or of no use on the wire is said once each, as `publish` says it.

With --strangers drop the driver drops what comes from an address that no --peer names, as `publish --help` says. How much it
dropped is a line at its end.

The settings are those of `publish --help`. With --names FILE the policy, the doors and the peers have the names of that file,
which a reload reads again.

Status: 0 after `stop`; 1 after `aeron_policyd: FAULT` on standard error; 2 for a usage error. Faults are those of `run`, and: the
first case that fails, or what is wrong with the cases; no folder FOLDER; folder FOLDER belongs to user USER; others may write in
FOLDER; another driver serves there; PRINCIPAL has two doors; PATH is there, and is no socket; cannot make a socket at PATH; cannot
give PATH to its owner; what is wrong with a --door or with --mode.",
};

/// `stat`.
pub(crate) const STAT: Form = Form {
    name: "stat",
    about: "Prints the counters that a principal may see",
    places: &[],
    options: &[DRIVER, EVERY],
    after: "\
Example: no driver serves at that socket.

  $ aeron_policyd stat --driver /no/such/p2.sock
  aeron_policyd: no driver serves there

Where one does, it prints what p2 may see, such as a publication with one registration:

      NUMBER       TYPE                 VALUE  LABEL
           2      10001                     1  aeron:ipc

Of a publication (type 10001) the value is how many are registered with it, of an image (10002) how many subscriptions read it;
any other counter is a client's own. What the policy does not let the socket's principal list is left out.

Status: 0; 1 after `aeron_policyd: FAULT` on standard error, such as no driver serves there; 2 for a usage error.",
};

/// `stop`.
pub(crate) const STOP: Form = Form {
    name: "stop",
    about: "Tells a driver that serves to stop",
    places: &[],
    options: &[DRIVER],
    after: "\
Example: no driver serves at that socket.

  $ aeron_policyd stop --driver /no/such/operator.sock
  aeron_policyd: no driver serves there

Where one does, all connections end, the sockets go, and the driver ends.

Status: 0 once the driver took it; 1 after `aeron_policyd: FAULT` on standard error; 2 for a usage error.",
};

/// `reload`.
pub(crate) const RELOAD: Form = Form {
    name: "reload",
    about: "Has a driver that serves read its policy again",
    places: &[],
    options: &[DRIVER],
    after: "\
Example: no driver serves at that socket.

  $ aeron_policyd reload --driver /no/such/operator.sock
  aeron_policyd: no driver serves there

Where one does, the policy's file is read again and put in force. It prints `policy 2 in force`, and then what
`aeron_policyd diff` says of the policy before and of this one now. Where the file is at fault, or the policy fails a case of
`serve --cases`, the policy in force stays. It is read once it stood still for a second: write a new one beside it, and rename it
with mv.

Status: 0 where the policy is in force; 1 after `aeron_policyd: FAULT` on standard error; 2 for a usage error.",
};

/// `clients`.
pub(crate) const CLIENTS: Form = Form {
    name: "clients",
    about: "Prints the connections of a driver that serves",
    places: &[],
    options: &[DRIVER],
    after: "\
Example: no driver serves at that socket.

  $ aeron_policyd clients --driver /no/such/operator.sock
  aeron_policyd: no driver serves there

Where one does, it prints a line for each connection, as `client 4 of p2 for 12 s: 0 publications, 1 subscriptions, 0 counters`.

Status: 0; 1 after `aeron_policyd: FAULT` on standard error; 2 for a usage error.",
};

/// Whether denials alone are printed.
const DENIED: Row = Row {
    id: "denied",
    help: "Prints denials alone",
    ..FLAG
};

/// Whether what is decided from then on is printed too.
const FOLLOW: Row = Row {
    id: "follow",
    help: "Goes on with what is decided from now on",
    ..FLAG
};

/// Whether each is JSON.
const JSON: Row = Row {
    id: "json",
    help: "Prints each as JSON, on one line",
    ..FLAG
};

/// `decisions`.
pub(crate) const DECISIONS: Form = Form {
    name: "decisions",
    about: "Prints what a driver that serves decided",
    places: &[],
    options: &[DRIVER, DENIED, FOLLOW, JSON],
    after: "\
Example: no driver serves at that socket.

  $ aeron_policyd decisions --driver /no/such/operator.sock
  aeron_policyd: no driver serves there

Where one does, it prints a line for each of the last 4,096 decisions, as
`2026-12-01T08:00:00.25Z p2: publish on stream 10 denied by rule 3 \"desk alone\" in policy 1`. With --denied the lines are the last
4,096 denials. With --follow it goes on with what is decided, within half a second, until the driver ends.

A line is of a command, of a pair of a log and a subscription that comes or goes, or of what is sent; of offers and polls denials
alone have lines. What is allowed once more as it was before has none. Where more was decided than is kept, `N decisions were passed
over` stands in their place.

With --json a line is an object: `moment`, `principal`, `act`, `stream`, `subject` (what it is about, by its number; or 0), `allow`,
`policy`, `rule` (null for the default) and `name` (of the rule, or null); or `passed_over`, how many were.

Status: 0; 1 after `aeron_policyd: FAULT` on standard error; 2 for a usage error.",
};

/// What `serve` is asked for.
#[derive(Clone, Copy)]
pub struct Doors<'a> {
    /// The policy's file.
    pub policy: &'a str,
    /// The file of the principals' names, if there is one.
    pub names: Option<&'a str>,
    /// The file of cases that each policy has to keep, if there is one.
    pub cases: Option<&'a str>,
    /// The folder of the sockets.
    pub folder: &'a str,
    /// Words `PRINCIPAL`, `PRINCIPAL=UID`, `PRINCIPAL=UID:GID` or `PRINCIPAL=PATH`.
    pub doors: &'a [&'a str],
    /// The mode of a socket that is named by its path, in base 8.
    pub mode: &'a str,
    /// Words `KEY=VALUE`.
    pub settings: &'a [&'a str],
    /// Words `ADDR=PRINCIPAL`.
    pub peers: &'a [&'a str],
    /// What becomes of datagrams from other addresses, if it is said.
    pub strangers: Option<&'a str>,
    /// How many NAKs and status messages one address may send in the time, if a number is given.
    pub asks: Option<u64>,
    /// After how many seconds the policy's file is read again, if it is.
    pub reload_every: Option<u64>,
    /// How many clients a principal may have at once; an equal part of all where none is given, and so the next four.
    pub each: Option<u64>,
    /// How many publications its clients may have at once.
    pub publications: Option<u64>,
    /// How many pages of 4,096 bytes the logs of these may take.
    pub pages: Option<u64>,
    pub subscriptions: Option<u64>,
    pub counters: Option<u64>,
    /// After how many seconds a client is let go that has something to read and does not go on; 0 for never.
    pub poll_within: u64,
}

/// What an operator asks of a driver that serves.
#[derive(Clone, Copy)]
pub enum Order {
    Stop,
    Reload,
    /// Its connections.
    Status,
}

/// What `serve` is asked for.
fn doors_in<'m, 'a>(of: &'m ArgMatches<'a>) -> Option<Doors<'m>>
    ensures given { IfSome result (λ doors. AreFound (found_of of.now) (doors_texts doors) []) }
    ensures answers { HasAll (found_of of.now) serve_needs → is_some result ≡ true }
{
    let policy = of.get_str("policy")?;
    let folder = of.get_str("folder")?;
    let mode = of.get_str("mode")?;
    Some(Doors {
        policy,
        names: of.get_str("names"),
        cases: of.get_str("cases"),
        folder,
        doors: of.get_strs("door").unwrap_or(&[]),
        mode,
        settings: of.get_strs("setting").unwrap_or(&[]),
        peers: of.get_strs("peer").unwrap_or(&[]),
        strangers: of.get_str("strangers"),
        asks: number_in(of, "asks"),
        reload_every: number_in(of, "reload-every"),
        each: number_in(of, "each"),
        publications: number_in(of, "publications"),
        pages: number_in(of, "pages"),
        subscriptions: number_in(of, "subscriptions"),
        counters: number_in(of, "counters"),
        poll_within: number_in(of, "poll-within")?,
    })
}

fn serve_in<'m, 'a>(of: &'m ArgMatches<'a>) -> Option<Start<'m>>
    ensures name { IfSome result (λ start. start_name start ≡ codes "serve") }
    ensures given { IfSome result (λ start. AreFound (found_of of.now) (start_texts start) (start_numbers start)) }
    ensures answers { HasAll (found_of of.now) serve_needs → is_some result ≡ true }
{
    Some(Start::Serve {
        doors: doors_in(of)?,
    })
}

fn stat_in<'m, 'a>(of: &'m ArgMatches<'a>) -> Option<Start<'m>>
    ensures name { IfSome result (λ start. start_name start ≡ codes "stat") }
    ensures given { IfSome result (λ start. AreFound (found_of of.now) (start_texts start) (start_numbers start)) }
    ensures answers { HasText (found_of of.now) (codes "driver") → is_some result ≡ true }
{
    Some(Start::Stat {
        driver: of.get_str("driver")?,
        every: number_in(of, "every"),
    })
}

fn order_in<'m, 'a>(of: &'m ArgMatches<'a>, order: Order) -> Option<Start<'m>>
    ensures name { IfSome result (λ start. start_name start ≡ order_name order) }
    ensures given { IfSome result (λ start. AreFound (found_of of.now) (start_texts start) (start_numbers start)) }
    ensures answers { HasText (found_of of.now) (codes "driver") → is_some result ≡ true }
{
    Some(Start::Order {
        driver: of.get_str("driver")?,
        order,
    })
}

fn decisions_in<'m, 'a>(of: &'m ArgMatches<'a>) -> Option<Start<'m>>
    ensures name { IfSome result (λ start. start_name start ≡ codes "decisions") }
    ensures given { IfSome result (λ start. AreFound (found_of of.now) (start_texts start) (start_numbers start)) }
    ensures answers { HasText (found_of of.now) (codes "driver") → is_some result ≡ true }
{
    Some(Start::Decisions {
        driver: of.get_str("driver")?,
        denied: of.get_flag("denied"),
        follow: of.get_flag("follow"),
        json: of.get_flag("json"),
    })
}

/// What the words of such a subcommand ask for, once they were found to be of the form.
pub(crate) fn serving_in<'m, 'a>(name: &str, of: &'m ArgMatches<'a>) -> Option<Start<'m>>
    ensures name { IfSome result (λ start. name.now ≡ start_name start) }
    ensures given { IfSome result (λ start. AreFound (found_of of.now) (start_texts start) (start_numbers start)) }
    ensures answers { Answers (found_of of.now) name.now serving_needs result }
{
    if name == "serve" {
        return serve_in(of);
    }
    if name == "stat" {
        return stat_in(of);
    }
    if name == "stop" {
        return order_in(of, Order::Stop);
    }
    if name == "reload" {
        return order_in(of, Order::Reload);
    }
    if name == "clients" {
        return order_in(of, Order::Status);
    }
    if name == "decisions" {
        return decisions_in(of);
    }
    None
}

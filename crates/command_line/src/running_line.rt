//! The words of the subcommands that start a driver of this process, or speak to one as its client: `run`, `publish` and
//! `subscribe`.

ghost use Rattle.clap.specs.Words.{found_of};
ghost use Rattle.command_line.specs.Needs.{Answers, HasAll, HasNumber, StandTogether, publish_needs, run_needs, start_needs, subscribe_needs, talk_needs};
ghost use Rattle.command_line.specs.Tasks.{AreFound, joined_numbers, joined_texts, start_name, start_numbers, start_texts, stream_alone, talk_texts};
ghost use Rattle.std.specs.Prelude.{◌≡◌, [], IfSome, codes, is_some, true};

use crate::numbers::{number_in, signed_in};
use crate::policy_words::NAMES;
use crate::rows::{AGAIN, FLAG, Form, NATURAL, OPTION, PLACED, Row, SECONDS, UP_TO_BILLION};
use crate::serving_line::{self, Doors, Order};
use clap::ArgMatches;
use clap::builder::ValueParser;
use piped_messages::{Cut, Form as Printed};

/// The policy's file.
pub(crate) const POLICY: Row = Row {
    id: "policy",
    value: &["POLICY"],
    required: true,
    help: "The policy's file, of at most 16,777,216 bytes",
    ..OPTION
};

/// The same, where a driver of another process may be named in its place.
const OWN_POLICY: Row = Row {
    required: false,
    unless: &["driver"],
    help: "The policy's file, of at most 16,777,216 bytes, for a driver of this process",
    ..POLICY
};

/// The socket of a driver that serves, in place of a policy and of all that a driver of this process is told.
const DRIVER: Row = Row {
    id: "driver",
    value: &["SOCKET"],
    apart: &[
        "policy",
        "names",
        "as",
        "setting",
        "peer",
        "strangers",
        "asks",
        "reload-every",
        "stats",
        "fail-on-gap",
    ],
    help: "The socket of a driver that serves, instead of a driver of this process",
    ..OPTION
};

/// For whom the client acts.
const AS: Row = Row {
    id: "as",
    value: &["PRINCIPAL"],
    default: &["p1"],
    help: "For whom the client acts: nobody, p1 to p63, or a name that --names gives",
    ..OPTION
};

/// How long `run` waits.
const TURNS: Row = Row {
    id: "turns",
    value: &["N"],
    takes: ValueParser::Unsigned(0, u64::MAX),
    required: true,
    help: "After how many attempts each wait stops",
    ..OPTION
};

/// Whether `run` prints what was decided.
const AUDIT: Row = Row {
    id: "audit",
    help: "Prints what was decided",
    ..FLAG
};

/// A setting of the driver.
pub(crate) const SETTING: Row = Row {
    id: "setting",
    value: &["KEY=VALUE"],
    help: "A setting of the driver, as mtu=8k or linger=2s; may be given again for other keys",
    ..AGAIN
};

/// Who sends from an address.
pub(crate) const PEER: Row = Row {
    id: "peer",
    value: &["ADDR=PRINCIPAL"],
    help: "Who sends from this address is this principal; may be given again for other addresses",
    ..AGAIN
};

/// What becomes of datagrams from other addresses.
pub(crate) const STRANGERS: Row = Row {
    id: "strangers",
    value: &["WORD"],
    help: "`drop` drops what comes from an address that no --peer names; `allow` is the default",
    ..OPTION
};

/// How much one address may ask for.
pub(crate) const ASKS: Row = Row {
    id: "asks",
    value: &["N"],
    takes: ValueParser::Unsigned(1, 1_000_000_000),
    needs: &["strangers"],
    help: "How many NAKs and status messages one address may send in 60 ms [default: 2048]",
    ..OPTION
};

/// How often the policy's file is read again.
pub(crate) const RELOAD_EVERY: Row = Row {
    id: "reload-every",
    value: &["SECONDS"],
    takes: SECONDS,
    help: "Reads the policy's file again every SECONDS, and applies it if it changed",
    ..OPTION
};

/// Whether figures are printed.
const STATS: Row = Row {
    id: "stats",
    help: "Prints figures every second, on standard error",
    ..FLAG
};

/// Whether it ends at the first gap.
const FAIL_ON_GAP: Row = Row {
    id: "fail-on-gap",
    help: "Ends at the first gap in a stream, in place of going on after it",
    ..FLAG
};

const CHANNEL: Row = Row {
    id: "CHANNEL",
    help: "The channel, such as aeron:udp?endpoint=127.0.0.1:40123",
    ..PLACED
};

const STREAM: Row = Row {
    id: "STREAM",
    takes: NATURAL,
    help: "The stream, 0 to 2147483647",
    ..PLACED
};

/// How `publish` cuts its input.
const BYTES: Row = Row {
    id: "bytes",
    value: &["N"],
    takes: ValueParser::Unsigned(1, 16_777_216),
    help: "Each N bytes are a message, instead of each line",
    ..OPTION
};

/// How long a message of `publish` may wait.
const WAIT: Row = Row {
    id: "wait",
    value: &["SECONDS"],
    takes: UP_TO_BILLION,
    default: &["10"],
    help: "How long a message may wait for a missing or slow subscriber",
    ..OPTION
};

/// How long the last messages may wait to be consumed.
const LINGER: Row = Row {
    id: "linger",
    value: &["SECONDS"],
    takes: UP_TO_BILLION,
    default: &["5"],
    apart: &["driver"],
    help: "How long the last messages may wait until each subscriber has taken them",
    ..OPTION
};

/// A destination of a publication whose mode is manual.
const TO: Row = Row {
    id: "to",
    value: &["ADDR"],
    apart: &["driver"],
    help: "Sends to this address too, with control-mode=manual; may be given again for others",
    ..AGAIN
};

/// The address of a publisher that is joined.
const CONTROL: Row = Row {
    id: "control",
    value: &["ADDR"],
    needs: &["session"],
    help: "Joins a publisher with control-mode=dynamic, whose control address this is",
    ..OPTION
};

/// The session of a publisher that is joined.
const SESSION: Row = Row {
    id: "session",
    value: &["N"],
    takes: ValueParser::Signed(-2_147_483_648, 2_147_483_647),
    needs: &["control"],
    help: "The session of that publisher, which it prints",
    ..OPTION
};

/// After how many messages `subscribe` ends.
const COUNT: Row = Row {
    id: "count",
    value: &["N"],
    takes: ValueParser::Unsigned(1, u64::MAX),
    help: "Ends after N messages",
    ..OPTION
};

/// Whether messages are printed without a line feed.
const RAW: Row = Row {
    id: "raw",
    help: "Prints messages as they are, with no line feed after each",
    ..FLAG
};

/// Whether the length of a message is printed before it.
const LENGTH_PREFIX: Row = Row {
    id: "length-prefix",
    needs: &["raw"],
    help: "With --raw: before each message how many bytes it has, in four bytes, the least significant first",
    ..FLAG
};

/// After how many seconds `subscribe` ends.
const UNTIL: Row = Row {
    id: "until",
    value: &["SECONDS"],
    takes: UP_TO_BILLION,
    apart: &["driver"],
    help: "Ends after so many seconds",
    ..OPTION
};

/// Whether it ends once no publisher is there.
const UNTIL_GONE: Row = Row {
    id: "until-gone",
    help: "Exits when all publishers seen so far are gone",
    ..FLAG
};

/// How long standard output may take nothing.
const OUTPUT_WAIT: Row = Row {
    apart: &["driver"],
    help: "Says so when standard output took nothing for so long",
    ..WAIT
};

/// `run`.
pub(crate) const RUN: Form = Form {
    name: "run",
    about: "Starts a driver with one client, which sends itself a message",
    places: &[],
    options: &[POLICY, NAMES, AS, TURNS, AUDIT],
    after: "\
Example: p1 may do all that it asks for, so it receives the five bytes that it sends.

  $ aeron_policyd run --policy open.toml --turns 1000000
  subscription ready
  publication ready
  received 68656c6c6f
  stopped
  $ aeron_policyd run --policy open.toml --turns 1000000 --audit
  subscription ready
  publication ready
  received 68656c6c6f
  conductor: subscribe on stream 1001 allowed by default in policy 1
  conductor: publish on stream 1001 allowed by default in policy 1
  conductor: image on stream 1001 allowed by default in policy 1
  client: offer on stream 1001 allowed by default in policy 1
  client: receive on stream 1001 allowed by default in policy 1
  stopped

A driver starts, on threads of its own and with UDP sockets, and one client of p1, or of the principal of --as, attaches to it.
The client subscribes to `aeron:ipc`, stream 1001, publishes there, offers `hello` and polls. Where its subscription or its
publication is refused, the refusal stands instead of `ready`. Each wait stops after N attempts. With --audit what was decided last
is printed before `stopped`, by the audits of the conductor, the sender and the client: 4,096 decisions of each at most, and those
that are the same in a row once.

Status: 0, even if requests are denied or waits time out; 1 after `aeron_policyd: FAULT` on standard error: those of
`aeron_policyd check`; --as names no principal; no thread could be started. 2 for a usage error.",
};

/// `publish`.
pub(crate) const PUBLISH: Form = Form {
    name: "publish",
    about: "Sends standard input to subscribers, each line as a message",
    places: &[CHANNEL, STREAM],
    options: &[
        OWN_POLICY,
        DRIVER,
        NAMES,
        AS,
        SETTING,
        PEER,
        STRANGERS,
        ASKS,
        RELOAD_EVERY,
        STATS,
        FAIL_ON_GAP,
        BYTES,
        WAIT,
        LINGER,
        TO,
    ],
    after: "\
Example: what goes through shared memory reaches no other process.

  $ aeron_policyd publish --policy open.toml aeron:ipc 10
  aeron_policyd: aeron:ipc reaches no other process

On one terminal a subscriber waits for two lines, and prints them:

  aeron_policyd subscribe --policy open.toml --count 2 'aeron:udp?endpoint=127.0.0.1:40123' 10

On another one, two lines are sent:

  printf 'hello\\nworld\\n' | aeron_policyd publish --policy open.toml 'aeron:udp?endpoint=127.0.0.1:40123' 10

Up to 32 subscribers hear one publisher whose channel has `control-mode=dynamic`. Each has an endpoint of its own, and asks
for the publisher's session at its control address:

  aeron_policyd publish --policy open.toml --setting first-session=7 \\
      'aeron:udp?control-mode=dynamic|control=127.0.0.1:40100' 10

  aeron_policyd subscribe --policy open.toml --control 127.0.0.1:40100 --session 7 'aeron:udp?endpoint=127.0.0.1:40123' 10

  aeron_policyd subscribe --policy open.toml --control 127.0.0.1:40100 --session 7 'aeron:udp?endpoint=127.0.0.1:40124' 10

A driver starts, on threads of its own and with UDP sockets, and one client attaches to it and adds the publication. Its
session is then a line on standard error, as `session 7`. Each line of standard input is offered as a message, without its
line feed. While nobody subscribes, or the fastest subscriber is behind, a message waits; no other one holds it up. At the
end the driver goes on until each subscriber has taken all, or for --linger seconds. One of which nothing was heard for
longer than `destination-timeout` is not waited for. Then the last line on standard error says what went:

  sent 2 messages 10 bytes position 128 consumed 128 naks 0 resent 0 bad 0 failed 0

Where not all of them were taken it ends with 1 and `not taken: N messages from position P`. A subscriber that comes after the
others were gone for `connection-timeout` does not get what they had not taken: `gap: session S, N bytes from P lost` says so,
the rest is sent, and the status is 3 in the end, or with --fail-on-gap at once. Other lines say, each once, what is withheld
from which address and by which rule, which NAK or status message is denied, is for no stream that is here, or is above what was
sent, what came that is none of the protocol, and where the system sends or reads nothing.

It gives the position after the last message, and the one up to which each subscriber said that it took them; how many NAKs
came, and how many datagrams of data were sent again; how many invalid datagrams were received, and how many sends and reads
failed. --stats prints that line every second.

The driver sends from `send-address`. Where no --setting names another one, that is 127.0.0.1:40000, or 0.0.0.0:40000 where
the endpoint, or the control address, is not 127.x. Each publisher of a host needs an address of its own. The policy is
asked about the acts publish, offer and send of the client's principal, and about retransmit of the principal that --peer
binds to the subscriber's endpoint; an address that nobody is bound to is nobody's. With `control-mode=dynamic` it is asked
about join and send of that principal, and about send of no other. Sessions begin at a number that is drawn at each start, if
no setting `first-session` is given.

With --strangers drop the driver drops what comes from an address that no --peer names, as it reads it: that is as if it was lost.
A --peer is needed then for each subscriber's endpoint. --peer 10.0.0.7=nobody, without a port, lets in what comes from any port
of that host, and binds none: to the policy it is nobody's, if no --peer with the port says otherwise. What an honest peer never
sends is dropped, too: a NAK for more than half a term or 131,072 bytes, which is the greatest window, and more than --asks NAKs and status messages of
one address, or of one host without a port, in 60 milliseconds. At the end, and with --stats, a line says what was dropped, by
its kind, where anything was; the last two numbers are of peers:

  dropped setups 0 data 0 status 4655 naks 0 others 0 too-much 0 too-often 0

With `control-mode=manual` the datagrams go to each --to, and the policy is asked about the act destination, on the channel of
that address, such as `aeron:udp?endpoint=10.1.0.5:40123`.

With --driver no driver starts: the messages go to one that serves (`serve --help`), by the socket of a principal.

  aeron_policyd publish --driver /run/aeron_policyd/p1.sock aeron:ipc 10

It ends once that driver took them all. The last line is `sent 2 messages 10 bytes position 128 refusals 0` then. Of the other
options --bytes and --wait alone may be given with it: the others are for a driver of this process.

Settings, each as --setting KEY=VALUE. Durations are in ns, us, ms or s, and in nanoseconds without a unit; sizes are in bytes, or
in k, m or g of 1,024, 1,024^2 and 1,024^3 bytes. In an address `localhost` is 127.0.0.1.

  client-liveness       how long a client may be silent; above 0; 10s
  image-liveness        how long the publisher of an image may be silent; above 0; 10s
  linger                how long a publication stays after its last registration was removed; 5s
  connection-timeout    how long a status message keeps a publication connected; above 0; 5s
  destination-timeout   how long one keeps a subscriber that was learnt; above 0; 5s
  resend-linger         how long a range that was resent is not resent again; 9ms
  nak-delay             how long a gap stands before it is asked for; 200us
  nak-repeat            how long until it is asked for again; above 0; 10ms
  setup-interval        from one SETUP to the next; above 0; 100ms
  heartbeat-interval    how long a sender is silent before a heartbeat; above 0; 100ms
  status-interval       from one status message to the next; above 0; 200ms, with subscribe 20ms
  term-length           a power of two from 64k to 16m, where a channel names none; 1m, with serve 64k
  mtu                   a multiple of 32 from 64 to 65504, where a channel names none; 1408
  arena-pages           how many pages of 4 KiB all logs share, 1 to 65536; 4096, with subscribe 16384
  images-per-source     how many images one source address may have open, 1 to 512; 512
  first-session         the first session, of 32 bits; drawn at each start
  initial-term          the first term id, of 32 bits; 0
  receiver-id           by which status messages name this driver, of 64 bits; 1
  send-address          from which it sends; 127.0.0.1:40000, or 0.0.0.0:40000 as said above

Status: 0; 1 after `aeron_policyd: FAULT` on standard error; 2 for a usage error; 3 after a gap, with `messages were
lost`. Faults are those of `run`, and: not taken; no driver serves there; what is wrong with a --setting, a --peer or a --to; aeron:ipc reaches no other process; cannot open ADDR; the refusal of the
publication or of an offer, such as `denied by rule 3 in policy 1`; no subscriber, or back pressure, after --wait seconds; message
too long; greatest position reached; queue full; no client could attach; client gone; why a word is no channel; with --driver also
permission denied, and that the driver stopped, ended or does not answer.",
};

/// `subscribe`.
pub(crate) const SUBSCRIBE: Form = Form {
    name: "subscribe",
    about: "Prints the messages of publishers, each on a line",
    places: &[CHANNEL, STREAM],
    options: &[
        OWN_POLICY,
        DRIVER,
        NAMES,
        AS,
        SETTING,
        PEER,
        STRANGERS,
        ASKS,
        RELOAD_EVERY,
        STATS,
        FAIL_ON_GAP,
        CONTROL,
        SESSION,
        COUNT,
        RAW,
        LENGTH_PREFIX,
        UNTIL,
        UNTIL_GONE,
        OUTPUT_WAIT,
    ],
    after: "\
Example: a spy reads what the driver of its own process publishes, and nothing else.

  $ aeron_policyd subscribe --policy open.toml 'aeron-spy:aeron:udp?endpoint=127.0.0.1:40123' 10
  aeron_policyd: a spy reads its own driver alone

Example: who joins a publisher is sent to at an endpoint of its own.

  $ aeron_policyd subscribe --policy open.toml --control 127.0.0.1:40100 --session 7 'aeron:udp?control-mode=dynamic' 10
  aeron_policyd: no endpoint to join from

The help of `publish` has terminals that talk.

With --control and --session the channel's endpoint joins a publisher of that session, which learns its subscribers at that
address: a status message asks for it once a second, as long as nothing of it is read. So either may start first. Where the
publisher's policy denies it nothing comes, and no fault says so.

A driver starts, on threads of its own and with UDP sockets, and one client attaches to it and adds the subscription. Each
message that comes is printed on a line, at once; its fragments are joined. It ends after --count messages, after --until
seconds, with --until-gone when the last publisher that it heard has been silent for `image-liveness`, or when it is
interrupted: then what it took and did not print yet is lost. At the end a line on standard error says what came, as --stats does every
second:

  received 2 messages 10 bytes position 128 images 1 naks 0 resent 0 bad 0 failed 0

A stream that was read before and comes back further on has lost what is between: `gap: session S, N bytes from P lost` says so,
what comes after it is printed, and the status is 3 in the end, or with --fail-on-gap at once. Where bytes are asked for and do
not come for `image-liveness`, `gap: session S, bytes from P not retransmitted` says so, and the subscription is made anew, to
read on from where the publisher announces its stream again; the status is as after the other gap. Other lines say, each once, which
SETUP is denied by which rule, is for no subscription or opens no image, and what came that is invalid. A subscriber takes no more
than it prints. Where standard output takes nothing it waits, and its publisher in the end; after --wait seconds a line says so.

It gives the position after the last fragment, how many streams are read, how many NAKs were sent, how many invalid datagrams
were received, and how many sends and reads failed.

The driver reads at the channel's endpoint, which has to be an address of this host, and sends from there. Each subscriber
of a host needs an endpoint of its own. The policy is asked about the acts subscribe, image and receive of the client's
principal. With subscribe and without image nothing comes, and no fault says so.

With --driver no driver starts: the messages are those of one that serves (`serve --help`), which the socket's principal may
read.

  aeron_policyd subscribe --driver /run/aeron_policyd/p2.sock --count 2 aeron:ipc 10

The last line is `received 2 messages 10 bytes position 128` then. Of the other options --count, --raw, --length-prefix and
--until-gone alone may be given with it: the others are for a driver of this process.

With --strangers drop the address from which each publisher sends has to be named by --peer, such as --peer 127.0.0.1:40000=p1;
what comes from any other is dropped, as `publish --help` says.

The settings are those of `publish --help`.

Status: 0; 1 after `aeron_policyd: FAULT` on standard error; 2 for a usage error; 3 after a gap, with `messages were
lost`. Faults are those of `publish`, and: a spy reads its own driver alone; --control is no address; no endpoint to join from; the denial of a poll; --control needs a driver of this
process.",
};

/// What `publish` and `subscribe` have in common.
#[derive(Clone, Copy)]
pub struct Talk<'a> {
    /// The policy's file, which a driver of this process needs.
    pub policy: Option<&'a str>,
    /// The socket of a driver that serves, if it is not a driver of this process.
    pub driver: Option<&'a str>,
    /// The file of the principals' names, if there is one.
    pub names: Option<&'a str>,
    /// For whom the client acts.
    pub principal: &'a str,
    /// Words `KEY=VALUE`.
    pub settings: &'a [&'a str],
    /// Words `ADDR=PRINCIPAL`.
    pub peers: &'a [&'a str],
    /// What becomes of datagrams from other addresses, if it is said.
    pub strangers: Option<&'a str>,
    /// How many NAKs and status messages one address may send in the time, if a number is given.
    pub asks: Option<u64>,
    pub channel: &'a str,
    pub stream: i32,
    /// After how many seconds the policy's file is read again, if it is.
    pub reload_every: Option<u64>,
    /// Whether figures are printed every second.
    pub stats: bool,
    /// Whether it ends at the first gap.
    pub fail_on_gap: bool,
}

/// A publication that is asked to send to the subscription's endpoint.
#[derive(Clone, Copy)]
pub struct Join<'a> {
    /// The address at which it learns its subscribers.
    pub control: &'a str,
    pub session: i32,
}

/// How messages that come are printed, and when that ends.
#[derive(Clone, Copy)]
pub struct Reading {
    /// After so many messages, if a number is given.
    pub count: Option<u64>,
    /// After so many seconds, if a number is given.
    pub until: Option<u64>,
    /// When no publisher is there any more that was heard.
    pub until_gone: bool,
    pub form: Printed,
    /// After how many seconds in which standard output takes nothing that is said.
    pub wait: u64,
}

/// What a subcommand that starts a driver is asked to do.
#[derive(Clone, Copy)]
pub enum Start<'a> {
    /// To try a driver with one client that sends itself a message.
    Run {
        policy: &'a str,
        /// The file of the principals' names, if there is one.
        names: Option<&'a str>,
        /// For whom the client acts.
        principal: &'a str,
        tries: u64,
        /// Whether what was decided is printed.
        audit: bool,
    },
    /// To send standard input as messages.
    Publish {
        talk: Talk<'a>,
        by: Cut,
        /// How many seconds a message may wait.
        wait: u64,
        /// How many seconds the last messages may wait to be consumed.
        linger: u64,
        /// Addresses to which they go too, as words.
        to: &'a [&'a str],
    },
    /// To print messages that come.
    Subscribe {
        talk: Talk<'a>,
        join: Option<Join<'a>>,
        reading: Reading,
    },
    /// To let clients of other processes in.
    Serve {
        doors: Doors<'a>,
    },
    /// To print the counters that the socket's principal may see.
    Stat {
        driver: &'a str,
        /// After how many seconds they are printed again, if they are.
        every: Option<u64>,
    },
    /// To print what a driver that serves decided.
    Decisions {
        driver: &'a str,
        /// Denials alone.
        denied: bool,
        /// Also what is decided from then on.
        follow: bool,
        /// Each as JSON.
        json: bool,
    },
    /// To tell a driver that serves what to do.
    Order {
        driver: &'a str,
        order: Order,
    },
}

/// What `publish` and `subscribe` have in common.
fn talk_in<'m, 'a>(of: &'m ArgMatches<'a>) -> Option<Talk<'m>>
    ensures given { IfSome result (λ talk. AreFound (found_of of.now) (talk_texts talk) (stream_alone talk.stream)) }
    ensures answers { HasAll (found_of of.now) (talk_needs [] []) → is_some result ≡ true }
{
    let principal = of.get_str("as")?;
    let channel = of.get_str("CHANNEL")?;
    let stream = signed_in(of, "STREAM")?;
    Some(Talk {
        policy: of.get_str("policy"),
        driver: of.get_str("driver"),
        names: of.get_str("names"),
        principal,
        settings: of.get_strs("setting").unwrap_or(&[]),
        peers: of.get_strs("peer").unwrap_or(&[]),
        strangers: of.get_str("strangers"),
        asks: number_in(of, "asks"),
        channel,
        stream,
        reload_every: number_in(of, "reload-every"),
        stats: of.get_flag("stats"),
        fail_on_gap: of.get_flag("fail-on-gap"),
    })
}

/// How `publish` cuts its input.
fn cut_in(of: &ArgMatches<'_>) -> Cut {
    match number_in(of, "bytes") {
        Some(length) => Cut::Pieces(length as usize),
        None => Cut::Lines,
    }
}

fn publish_in<'m, 'a>(of: &'m ArgMatches<'a>) -> Option<Start<'m>>
    ensures name { IfSome result (λ start. start_name start ≡ codes "publish") }
    ensures given { IfSome result (λ start. AreFound (found_of of.now) (start_texts start) (start_numbers start)) }
    ensures answers { HasAll (found_of of.now) publish_needs → is_some result ≡ true }
{
    Some(Start::Publish {
        talk: talk_in(of)?,
        by: cut_in(of),
        wait: number_in(of, "wait")?,
        linger: number_in(of, "linger")?,
        to: of.get_strs("to").unwrap_or(&[]),
    })
}

/// The publication that is asked to send here, if one is named. `None` where it has a control address and no session, or a
/// session alone.
fn join_in<'m, 'a>(of: &'m ArgMatches<'a>) -> Option<Option<Join<'m>>>
    ensures given { IfSome result (λ join. AreFound (found_of of.now) (joined_texts join) (joined_numbers join)) }
    ensures answers { StandTogether (found_of of.now) (codes "control", codes "session") → is_some result ≡ true }
{
    match (of.get_str("control"), of.get_str("session")) {
        (Some(control), Some(_)) => Some(Some(Join {
            control,
            session: signed_in(of, "session")?,
        })),
        (None, None) => Some(None),
        _ => None,
    }
}

/// How `subscribe` prints messages.
fn form_in(of: &ArgMatches<'_>) -> Printed {
    if !of.get_flag("raw") {
        Printed::Lines
    } else if of.get_flag("length-prefix") {
        Printed::Prefixed
    } else {
        Printed::Raw
    }
}

/// How `subscribe` prints, and when it ends.
fn reading_in(of: &ArgMatches<'_>) -> Option<Reading>
    ensures { HasNumber (found_of of.now) (codes "wait") → is_some result ≡ true }
{
    Some(Reading {
        count: number_in(of, "count"),
        until: number_in(of, "until"),
        until_gone: of.get_flag("until-gone"),
        form: form_in(of),
        wait: number_in(of, "wait")?,
    })
}

fn subscribe_in<'m, 'a>(of: &'m ArgMatches<'a>) -> Option<Start<'m>>
    ensures name { IfSome result (λ start. start_name start ≡ codes "subscribe") }
    ensures given { IfSome result (λ start. AreFound (found_of of.now) (start_texts start) (start_numbers start)) }
    ensures answers { HasAll (found_of of.now) subscribe_needs → is_some result ≡ true }
{
    Some(Start::Subscribe {
        talk: talk_in(of)?,
        join: join_in(of)?,
        reading: reading_in(of)?,
    })
}

fn run_in<'m, 'a>(of: &'m ArgMatches<'a>) -> Option<Start<'m>>
    ensures name { IfSome result (λ start. start_name start ≡ codes "run") }
    ensures given { IfSome result (λ start. AreFound (found_of of.now) (start_texts start) (start_numbers start)) }
    ensures answers { HasAll (found_of of.now) run_needs → is_some result ≡ true }
{
    Some(Start::Run {
        policy: of.get_str("policy")?,
        names: of.get_str("names"),
        principal: of.get_str("as")?,
        tries: number_in(of, "turns")?,
        audit: of.get_flag("audit"),
    })
}

/// What the words of a subcommand that starts a driver ask for, once they were found to be of the form.
pub(crate) fn start_in<'m, 'a>(name: &str, of: &'m ArgMatches<'a>) -> Option<Start<'m>>
    ensures name { IfSome result (λ start. name.now ≡ start_name start) }
    ensures given { IfSome result (λ start. AreFound (found_of of.now) (start_texts start) (start_numbers start)) }
    ensures answers { Answers (found_of of.now) name.now start_needs result }
{
    if name == "run" {
        return run_in(of);
    }
    if name == "publish" {
        return publish_in(of);
    }
    if name == "subscribe" {
        return subscribe_in(of);
    }
    serving_line::serving_in(name, of)
}

//! The words of the whole command line, and of `script`.

ghost use Rattle.clap.specs.Words.{found_of, rows_of, subcommand_rows_of};
ghost use Rattle.clap.specs.declared.parser.matches.Found.{Found};
ghost use Rattle.command_line.specs.Needs.{Answers, HasText, all_needs};
ghost use Rattle.command_line.specs.Tasks.{AreFound, IsTask, task_name, task_numbers, task_texts};
ghost use Rattle.std.specs.Prelude.{◌≡◌, ℕ, IfSome, List, Some, codes, is_some, true};

use crate::message_words::{self, Messages, messages_in};
use crate::policy_words::{self, Asking, asking_in};
use crate::rows::{Form, PLACED, Row, with_form};
use crate::running_line::{self, Start};
use crate::serving_line;
use clap::{ArgMatches, Command};
use std::alloc::{AllocError, Global};

/// What the program is.
const ABOUT: &str =
    "The shared part of an Aeron media driver (conductor, sender, receiver) under a written channel policy";

/// The version of the program.
const VERSION: &str = "0.1.0";

/// How the program is used, and what it ends with.
const USES: &str = "\
Example: may p1 subscribe to `aeron:ipc`, stream 10, under the policy in `policy.toml`?

  $ cat policy.toml
  version = 1
  default = \"deny\"

  [[rule]]
  name = \"the house keeps streams 10 to 20\"
  principal = \"*\"
  act = \"*\"
  channel = \"*\"
  stream = [10, 20]
  allow = false

  [[rule]]
  name = \"p1 reads in this host\"
  principal = \"p1\"
  act = [\"subscribe\", \"image\", \"receive\"]
  channel = \"aeron:ipc\"
  allow = true
  $ aeron_policyd check policy.toml
  ok: 2 rules
  $ aeron_policyd decide policy.toml p1 subscribe aeron:ipc 10
  denied by rule 1 in policy 1
  $ aeron_policyd decide policy.toml p1 subscribe aeron:ipc 9
  allowed by rule 2 in policy 1

`aeron_policyd script --help` shows scripts with their answers.

Status: 0 for an answer; 1 after `aeron_policyd: FAULT` on standard error, and after a bad line of a script; 2 for a usage error.";

/// The file of a script.
const FILE: Row = Row {
    id: "FILE",
    help: "The script, of at most 16,777,216 bytes",
    ..PLACED
};

/// `script`.
const SCRIPT: Form = Form {
    name: "script",
    about: "Runs a script, and writes its answers to standard output",
    places: &[FILE],
    options: &[],
    after: "\
Example: a client of alice, attached at moment 0, asks to subscribe to `aeron:ipc`, stream 10, by a command with
correlation id 11. The policy denies it, so the reply is an ON_ERROR (0x0f01) with code 1001 and the text
`denied by default in policy 1`. Then a policy that allows is put in force, as policy 2.

  $ cat second.txt
  principal alice 7
  policy
  version = 1
  default = \"deny\"
  .
  attach 0 7
  cmd 0 1 04000000_0100000000000000_0b00000000000000_0000000000000000_0a000000_09000000_6165726f6e3a697063
  policy
  version = 1
  default = \"allow\"
  .
  $ aeron_policyd script second.txt
  attached 1
  reply 1 010f00000b00000000000000e90300001d00000064656e6965642062792064656661756c7420696e20706f6c6963792031
  policy 2

Example: client 1 subscribes there, by registration 1, and publishes there, by registration 2, which makes log 2. It
offers a message of 5 bytes by registration 2, and polls log 2 by its subscription 1 for 10 fragments at most. The offer
answers the position behind the message; the poll gives that one fragment, with the same position, whole (c0).

  $ cat offered.txt
  principal alice 7
  policy
  version = 1
  default = \"allow\"
  .
  attach 0 7
  cmd 0 1 04000000_0100000000000000_0b00000000000000_0000000000000000_0a000000_09000000_6165726f6e3a697063
  cmd 0 1 01000000_0100000000000000_0c00000000000000_0a000000_09000000_6165726f6e3a697063
  offer 0 1 2 68656c6c6f
  poll 0 1 1 2 10
  $ aeron_policyd script offered.txt
  attached 1
  reply 1 070f00000b000000000000000100000000000000
  reply 1 030f00000c000000000000000200000000000000010000000a000000
  reply 1 020f000002000000000000000100000000000000010000000a0000000000000000000000090000006165726f6e3a697063
  offer 64
  poll 1
  fragment 64 c0 68656c6c6f

Lines of a script:
  principal NAME NUMBER   before the first policy: rules may name this principal
  peer ADDR NUMBER        before the first policy: who sends from this address is the principal of that number, and who
                          sends from any other is nobody
  set KEY VALUE           before the first policy: the driver has this setting; durations are in nanoseconds, sizes in
                          bytes, as in `set client-liveness 5000000000` or `set term-length 131072`
  policy                  the lines up to one that is `.` are a policy, in TOML; the first one opens the driver, and
                          each later one is put in force in its turn
  attach NOW P            a client comes for principal P; NOW is in nanoseconds
  cmd NOW C HEX           client C gives a command: two lower-case digits for a byte, `_` between bytes, `-` for none
  offer NOW C REG HEX     client C offers a message by its registration REG; the answer is the position behind it, or
                          -1 nobody reads the log, -2 a reader is too far behind, -3 offer it again, -4 no such
                          registration, -5 past the greatest position; or the policy's denial
  poll NOW C SUB SOURCE LIMIT
                          client C takes up to LIMIT fragments of log SOURCE by its subscription SUB; or is denied, or
                          told `gone`
  packet NOW LOCAL FROM HEX
                          a datagram came to the address LOCAL from the address FROM, as 127.0.0.1:40123: a SETUP makes
                          an image, data goes to it; a status message says how far a publication may be sent, a NAK has
                          what is missing sent again to FROM; what is for none is dropped by a word
  send NOW SOURCE         the sender sends the one datagram of publication SOURCE that is due, if one is, to each of its
                          destinations that the policy allows
  image NOW SOURCE        the receiver tells the publisher of image SOURCE what is due: a NAK of what is missing, and a
                          status message
  tick NOW                time goes on: clients and images of which nothing was heard for too long are gone
  list NOW C              client C looks at the counters that the policy shows it
  value NOW C REG         client C looks at the value of counter REG
  audit A                 the last 4,096 decisions of actor A, and how many came before them: `conductor`, `sender`,
                          `receiver`, or a client by its id
  # ...                   a comment; empty lines are skipped too
A line offer, poll, send, image, list or value, and a packet that is no SETUP, may end in ` @K`: it goes by the registry
behind event K instead of the newest one, but by none before the one that the same client, the sender or the receiver
went by last.
Any other line answers `line N: bad line`, and ends the script.

Status: 0 when the script ended; 1 after a bad line, and after `aeron_policyd: FAULT` on standard error (cannot read
file, read failed, too long, write failed, no memory); 2 for a usage error.",
};

/// Every subcommand, in the order of the help.
const FORMS: [Form; 20] = [
    policy_words::CHECK,
    policy_words::DECIDE,
    policy_words::SHOW,
    policy_words::EXPLAIN,
    policy_words::LINT,
    policy_words::TEST,
    policy_words::TABLE,
    policy_words::DIFF,
    SCRIPT,
    message_words::ENCODE,
    message_words::DECODE,
    running_line::RUN,
    running_line::PUBLISH,
    running_line::SUBSCRIBE,
    serving_line::SERVE,
    serving_line::STAT,
    serving_line::STOP,
    serving_line::RELOAD,
    serving_line::CLIENTS,
    serving_line::DECISIONS,
];

/// What the command line asks for.
#[derive(Clone, Copy)]
pub enum Task<'a> {
    /// To answer what is asked of the policy in a file.
    Ask(Asking<'a>),
    /// To run the script in a file.
    Script { file: &'a str },
    /// To answer what is asked of a message.
    Messages(Messages<'a>),
    /// To start a driver.
    Start(Start<'a>),
}

/// The words that the program takes.
pub fn command<'a>(alloc: Global) -> Result<Command<'a>, AllocError> {
    let mut command = Command::new(alloc, "aeron_policyd")
        .version(VERSION)
        .about(ABOUT)
        .after_help(USES)
        .subcommand_required(true);
    for form in &FORMS {
        command = with_form(alloc, command, form)?;
    }
    Ok(command)
}

fn script_task<'m, 'a>(of: &'m ArgMatches<'a>) -> Option<Task<'m>>
    ensures name { IfSome result (λ task. task_name task ≡ codes "script") }
    ensures given { IfSome result (λ task. AreFound (found_of of.now) (task_texts task) (task_numbers task)) }
    ensures answers { HasText (found_of of.now) (codes "FILE") → is_some result ≡ true }
{
    let file = of.get_str("FILE")?;
    Some(Task::Script { file })
}

/// What the words of the subcommand ask for.
fn subcommand_task<'m, 'a>(name: &str, of: &'m ArgMatches<'a>) -> Option<Task<'m>>
    ensures name { IfSome result (λ task. name.now ≡ task_name task) }
    ensures given { IfSome result (λ task. AreFound (found_of of.now) (task_texts task) (task_numbers task)) }
    ensures answers { Answers (found_of of.now) name.now all_needs result }
{
    if name == "script" {
        return script_task(of);
    }
    if let Some(messages) = messages_in(name, of) {
        return Some(Task::Messages(messages));
    }
    match running_line::start_in(name, of) {
        Some(start) => Some(Task::Start(start)),
        None => Some(Task::Ask(asking_in(name, of)?)),
    }
}

/// What the words ask for, once they were found to be of the form.
pub fn task_in<'m, 'a>(matches: &'m ArgMatches<'a>) -> Option<Task<'m>>
    ensures given { IfSome result (λ task. IsTask matches.now task) }
    ensures answers { (name : List ℕ) (found : Found) → subcommand_rows_of matches.now ≡ Some (name, rows_of found) → Answers found name all_needs result }
{
    let (name, of) = matches.subcommand()?;
    subcommand_task(name, of)
}

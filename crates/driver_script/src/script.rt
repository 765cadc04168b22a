ghost use Rattle.driver_core.specs.Replies.{layout_of};
ghost use Rattle.command_codec.specs.Reply.{reply_bytes};
ghost use Rattle.audit_ring.specs.Audit.{Kept};
ghost use Rattle.driver_world.specs.Audits.{IsAuditOf, kept_for};
ghost use Rattle.driver_script.specs.Answers.{data_line, decision_line, line_text, list_line, poll_line, sent_line, withheld_line, word_behind};
ghost use Rattle.driver_script.specs.Ends.{OfAnswering, OfRunning};
ghost use Rattle.driver_script.specs.Output.{AppendsFront};
ghost use Rattle.driver_script.specs.Script.{audit_text, message_text, counter_text, fragment_text, outlet_text, outlets_text, sent_text, answer_text, is_bad_step, told_text, ended_text, is_peer_at, may_peer, no_preface};
ghost use Rattle.log_pairs.specs.Polling.{fetched_of};
ghost use Rattle.std.specs.Io.KnownBytes.{Appends};
ghost use Rattle.std.specs.List.{flat_map, list_any};
ghost use Rattle.driver_script.specs.declared.script.Ended.TheVariants.{BadLine};
ghost use Rattle.script_lines.specs.declared.statements.Said.TheVariants.{Principal, Peer as PeerGiven, Set, Policy};
ghost use Rattle.driver_script.specs.declared.fault.RunFault.TheVariants.{TooLong};
ghost use Rattle.script_lines.specs.declared.statements.TheConstants.{LIMIT};
ghost use Rattle.script_lines.specs.Statements.{statements_of};
ghost use Rattle.script_lines.specs.Left.{left};
ghost use Rattle.driver_script.specs.Script.{opening_of};
ghost use Rattle.driver_script.specs.Turns.{TakesHead, IsHead, Steps, GivesUpStep, told_of_fault, TakesStep, GivesUp, WritesWhole, WritesFront, FollowsHead, BeginsHead, WritesScript, BeginsScript, IsBegun, IsUnread};
ghost use Rattle.std.specs.Prelude.{◌≡◌, ◌<◌, ◌≤◌, ◌++◌, [], Some, None, Err, IfOk, IfErr, IfSome, OnOk, OnErr, length, option_copied};
ghost use Rattle.std.specs.String.{string_bytes};

use crate::answers::{AnswerLine, InsertWord};
use crate::ends::{Source, Target};
use crate::fault::RunFault;
use crate::input::read_input;
use crate::output::write_whole;
use audit_ring::Audit;
use byte_strings::{Bytes, Items, Text};
use driver_core::{Address, Event, ListedCounter, Message, Outlet, Peer};
use driver_world::{Actor, Answer, Fragment, FragmentCopies, Insert, Reading, Step, World};
use policy_text::{Names, PolicyFault};
use script_lines::settings::Choices;
use script_lines::statements::{LIMIT, Said, Statement, Statements};
use std::alloc::{AllocError, Global};

/// How the run of a script ended.
#[derive(Clone, Copy, Debug, PartialEq, Eq)]
pub enum Ended {
    /// All its lines were taken.
    Done,
    /// The line of this number, counted from 1, is no line of a script, or stands out of its order.
    BadLine(u64),
}

/// Appends the line of a reply.
#[tactic(auto, unfolding(crate::specs::Answers::line_text))]
fn push_message(text: &mut String, alloc: Global, message: &Message) -> Result<(), AllocError>
    ensures { OnOk result (string_bytes text.new ≡ string_bytes text.old ++ message_text message.now) }
{
    let bytes = message.reply.bytes(alloc)?;
    let line = AnswerLine::Reply {
        client: message.client,
        bytes: bytes.as_slice(),
    };
    write!(text, "{line}")
}

/// Appends the line of each reply.
fn push_messages(text: &mut String, alloc: Global, messages: &[Message]) -> Result<(), AllocError>
    ensures { OnOk result (string_bytes text.new ≡ string_bytes text.old ++ flat_map message_text messages.now) }
{
    for message in messages {
        push_message(text, alloc, message)?;
    }
    Ok(())
}

/// Appends the line of a counter.
#[tactic(auto, unfolding(crate::specs::Answers::line_text))]
fn push_counter(text: &mut String, counter: &ListedCounter) -> Result<(), AllocError>
    ensures { OnOk result (string_bytes text.new ≡ string_bytes text.old ++ counter_text counter.now) }
{
    let line = AnswerLine::Counter {
        number: counter.number,
        type_id: counter.type_id,
        value: counter.value,
        label: counter.label.as_str().as_bytes(),
    };
    write!(text, "{line}")
}

/// Appends the line of each counter.
fn push_counters(text: &mut String, counters: &[ListedCounter]) -> Result<(), AllocError>
    ensures { OnOk result (string_bytes text.new ≡ string_bytes text.old ++ flat_map counter_text counters.now) }
{
    for counter in counters {
        push_counter(text, counter)?;
    }
    Ok(())
}

/// Appends the line of a fragment.
#[tactic(auto, unfolding(crate::specs::Answers::line_text))]
fn push_fragment(text: &mut String, fragment: &Fragment<'_>) -> Result<(), AllocError>
    ensures { OnOk result (string_bytes text.new ≡ string_bytes text.old ++ fragment_text (fetched_of fragment.now)) }
{
    let line = AnswerLine::Fragment {
        position: fragment.position,
        flags: fragment.flags,
        payload: fragment.payload,
    };
    write!(text, "{line}")
}

/// Appends the line of each fragment.
fn push_fragments(text: &mut String, fragments: &FragmentCopies) -> Result<(), AllocError>
    ensures { OnOk result (string_bytes text.new ≡ string_bytes text.old ++ flat_map fragment_text fragments.now) }
{
    for fragment in fragments.iter() {
        push_fragment(text, &fragment)?;
    }
    Ok(())
}

/// The text of a line.
fn text_of_line(alloc: Global, line: AnswerLine<'_>) -> Result<String, AllocError>
    ensures { IfOk result (λ text. string_bytes text ≡ line_text line.entry) }
{
    format!(in alloc; "{line}")
}

/// The text of replies alone.
fn text_of_replies(alloc: Global, messages: &[Message]) -> Result<String, AllocError>
    ensures { IfOk result (λ text. string_bytes text ≡ flat_map message_text messages.now) }
{
    let mut text = String::new(alloc);
    push_messages(&mut text, alloc, messages)?;
    Ok(text)
}

/// The text of a line, and of the replies that come with it.
fn text_of_replied(
    alloc: Global,
    line: AnswerLine<'_>,
    replies: &[Message],
) -> Result<String, AllocError>
    ensures { IfOk result (λ text. string_bytes text ≡ line_text line.entry ++ flat_map message_text replies.now) }
{
    let mut text = text_of_line(alloc, line)?;
    push_messages(&mut text, alloc, replies)?;
    Ok(text)
}

/// Appends the word for each frame.
fn push_words(text: &mut String, words: &[Insert]) -> Result<(), AllocError>
    ensures { OnOk result (string_bytes text.new ≡ string_bytes text.old ++ flat_map word_behind words.now) }
{
    for word in words {
        let word = InsertWord(*word);
        write!(text, "{word}")?;
    }
    Ok(())
}

/// The text of the frames that came to an image.
fn text_of_data(alloc: Global, words: &[Insert]) -> Result<String, AllocError>
    ensures { IfOk result (λ text. string_bytes text ≡ data_line words.now) }
{
    let mut text = String::new(alloc);
    text.push_str("data")?;
    push_words(&mut text, words)?;
    text.push_str("\n")?;
    Ok(text)
}

/// Appends the line of each datagram that is sent to an address.
#[tactic(auto, unfolding(crate::specs::Answers::line_text))]
fn push_sent(text: &mut String, to: &Address, datagrams: &[Bytes]) -> Result<(), AllocError>
    ensures { OnOk result (string_bytes text.new ≡ string_bytes text.old ++ sent_text to.now datagrams.now) }
{
    for datagram in datagrams {
        let line = AnswerLine::Sent {
            to: *to,
            bytes: datagram.as_slice(),
        };
        write!(text, "{line}")?;
    }
    Ok(())
}

/// The text of the datagrams that are sent to an address.
fn text_of_sent(alloc: Global, to: &Address, datagrams: &[Bytes]) -> Result<String, AllocError>
    ensures { IfOk result (λ text. string_bytes text ≡ sent_text to.now datagrams.now) }
{
    let mut text = String::new(alloc);
    push_sent(&mut text, to, datagrams)?;
    Ok(text)
}

/// Appends the line of a destination: the datagram goes there, or it may not.
#[tactic(auto, unfolding(crate::specs::Answers::line_text))]
fn push_outlet(text: &mut String, bytes: &[u8], outlet: &Outlet) -> Result<(), AllocError>
    ensures { OnOk result (string_bytes text.new ≡ string_bytes text.old ++ outlet_text bytes.now outlet.now) }
{
    let to = outlet.to;
    let verdict = outlet.decision.verdict;
    let line = if verdict.allow {
        AnswerLine::Sent { to, bytes }
    } else {
        AnswerLine::Withheld { to, verdict }
    };
    write!(text, "{line}")?;
    Ok(())
}

/// Appends the line of each destination.
fn push_outlets(text: &mut String, bytes: &[u8], outlets: &[Outlet]) -> Result<(), AllocError>
    ensures { OnOk result (string_bytes text.new ≡ string_bytes text.old ++ outlets_text bytes.now outlets.now) }
{
    for outlet in outlets {
        push_outlet(text, bytes, outlet)?;
    }
    Ok(())
}

/// The text of a datagram's destinations.
fn text_of_outlets(alloc: Global, bytes: &[u8], outlets: &[Outlet]) -> Result<String, AllocError>
    ensures { IfOk result (λ text. string_bytes text ≡ outlets_text bytes.now outlets.now) }
{
    let mut text = String::new(alloc);
    push_outlets(&mut text, bytes, outlets)?;
    Ok(text)
}

/// The text of a poll and its fragments.
#[tactic(auto, unfolding(crate::specs::Answers::line_text))]
fn text_of_poll(alloc: Global, fragments: &FragmentCopies) -> Result<String, AllocError>
    ensures { IfOk result (λ text. string_bytes text ≡ poll_line (length fragments.now) ++ flat_map fragment_text fragments.now) }
{
    let mut text = text_of_line(alloc, AnswerLine::Poll(fragments.len() as u64))?;
    push_fragments(&mut text, fragments)?;
    Ok(text)
}

/// The text of a list and its counters.
#[tactic(auto, unfolding(crate::specs::Answers::line_text))]
fn text_of_list(alloc: Global, counters: &[ListedCounter]) -> Result<String, AllocError>
    ensures { IfOk result (λ text. string_bytes text ≡ list_line (length counters.now) ++ flat_map counter_text counters.now) }
{
    let mut text = text_of_line(alloc, AnswerLine::List(counters.len() as u64))?;
    push_counters(&mut text, counters)?;
    Ok(text)
}

/// The text of an answer.
#[tactic(auto, unfolding(crate::specs::Script::answer_text, crate::specs::Answers::line_text))]
fn text_of(alloc: Global, answer: &Answer) -> Result<String, AllocError>
    ensures { IfOk result (λ text. string_bytes text ≡ answer_text answer.now) }
{
    match answer {
        Answer::NoMemory => text_of_line(alloc, AnswerLine::NoMemory),
        Answer::Attached { client, replies } => {
            text_of_replied(alloc, AnswerLine::Attached(*client), replies.as_slice())
        }
        Answer::Full(replies) => text_of_replied(alloc, AnswerLine::Full, replies.as_slice()),
        Answer::Stopped(replies) => text_of_replied(alloc, AnswerLine::Stopped, replies.as_slice()),
        Answer::PolicyInForce { epoch, replies } => {
            text_of_replied(alloc, AnswerLine::PolicyInForce(*epoch), replies.as_slice())
        }
        Answer::PolicyFull(replies) => {
            text_of_replied(alloc, AnswerLine::PolicyFull, replies.as_slice())
        }
        Answer::Imaged { source, replies } => {
            text_of_replied(alloc, AnswerLine::Setup(*source), replies.as_slice())
        }
        Answer::Unimaged { why, replies } => {
            text_of_replied(alloc, AnswerLine::Unimaged(*why), replies.as_slice())
        }
        Answer::Received(words) => text_of_data(alloc, words.as_slice()),
        Answer::Heard => text_of_line(alloc, AnswerLine::Beat),
        Answer::Limited(position) => text_of_line(alloc, AnswerLine::Status(*position)),
        Answer::Elicited => text_of_line(alloc, AnswerLine::Elicit),
        Answer::Idle => Ok(String::new(alloc)),
        Answer::Sent { bytes, outlets } => {
            text_of_outlets(alloc, bytes.as_slice(), outlets.as_slice())
        }
        Answer::Resent { to, datagrams } => text_of_sent(alloc, to, datagrams.as_slice()),
        Answer::Reported { to, datagrams } => text_of_sent(alloc, to, datagrams.as_slice()),
        Answer::Dropped(why) => text_of_line(alloc, AnswerLine::Dropped(*why)),
        Answer::Replies(messages) => text_of_replies(alloc, messages.as_slice()),
        Answer::Offered(offered) => text_of_line(alloc, AnswerLine::Offer(*offered)),
        Answer::Polled(fragments) => text_of_poll(alloc, fragments),
        Answer::Gone => text_of_line(alloc, AnswerLine::Gone),
        Answer::Counters(counters) => text_of_list(alloc, counters.as_slice()),
        Answer::Value(value) => text_of_line(alloc, AnswerLine::Value(*value)),
        Answer::Denied(verdict) => text_of_line(alloc, AnswerLine::Denied(*verdict)),
        Answer::UnknownCounter => text_of_line(alloc, AnswerLine::UnknownCounter),
        Answer::WrongClient => text_of_line(alloc, AnswerLine::WrongClient),
        // (its line is bad)
        Answer::BadStep => Ok(String::new(alloc)),
    }
}

/// Whether the peer sends from this address.
fn is_peer_at(peer: &Peer, address: &Address) -> bool
    ensures { result ≡ is_peer_at address.now peer.now }
{
    peer.address == *address
}

/// What the lines before the first policy give.
#[derive(Drop)]
struct Preface {
    names: Names,
    peers: Items<Peer>,
    choices: Choices,
}

/// How many peers a driver takes.
const PEERS: usize = 256;

impl Preface {
    /// No name and no peer is given, and nothing is chosen. It takes no memory.
    fn new(alloc: Global) -> Preface
        ensures { result ≡ no_preface }
    {
        Preface {
            names: Names::new(alloc),
            peers: Items::new(alloc),
            choices: Choices::new(alloc),
        }
    }

    /// Whether a peer is given at this address.
    fn has_peer(&self, address: &Address) -> bool
        ensures { result ≡ list_any (is_peer_at address.now) self.now.peers }
    {
        self.peers
            .as_slice()
            .iter()
            .any(|peer| is_peer_at(peer, address))
    }

    /// Whether a further peer may be given, at this address.
    fn may_peer(&self, address: &Address) -> bool
        ensures { result ≡ may_peer self.now.peers address.now }
    {
        if self.has_peer(address) {
            return false;
        }
        self.peers.as_slice().len() < PEERS
    }
}

/// What the head of a script comes to.
#[derive(Drop)]
enum Head {
    /// The script ends before a policy.
    Ended,
    /// The line of this number is bad.
    Refused(u64),
    /// The world is open.
    Opened(World),
}

/// Gives the name of a principal, unless it is given.
fn take_name(
    preface: &mut Preface,
    line: u64,
    name: Text,
    number: u32,
) -> Result<Option<Head>, AllocError>
    ensures { IfOk result (λ head. TakesHead preface.old preface.new (record { line = line; said = Principal name number }) head) }
{
    if preface.names.number_of(name.as_str()).is_some() {
        return Ok(Some(Head::Refused(line)));
    }
    preface.names.add(name, number)?;
    Ok(None)
}

/// Gives a peer, unless its address is given, or as many are as a driver takes.
fn take_peer(preface: &mut Preface, line: u64, peer: Peer) -> Result<Option<Head>, AllocError>
    ensures { IfOk result (λ head. TakesHead preface.old preface.new (record { line = line; said = PeerGiven peer }) head) }
{
    if !preface.may_peer(&peer.address) {
        return Ok(Some(Head::Refused(line)));
    }
    preface.peers.push(peer)?;
    Ok(None)
}

/// Chooses a setting, where it is one and was not chosen.
fn take_setting(
    preface: &mut Preface,
    line: u64,
    key: Text,
    value: &str,
) -> Result<Option<Head>, AllocError>
    ensures { IfOk result (λ head. TakesHead preface.old preface.new (record { line = line; said = Set key value.now }) head) }
{
    if preface.choices.choose(key, value)? {
        Ok(None)
    } else {
        Ok(Some(Head::Refused(line)))
    }
}

/// Opens the world under the policy that the text is, where it is one.
fn open_world(
    alloc: Global,
    preface: &Preface,
    line: u64,
    text: &str,
) -> Result<Option<Head>, AllocError>
    ensures { IfOk result (λ head. TakesHead preface.now preface.now (record { line = line; said = Policy text.now }) head) }
{
    match policy_text::read(alloc, text, &preface.names) {
        Ok(policy) => {
            let world = World::new(
                alloc,
                preface.choices.settings,
                policy,
                preface.peers.as_slice(),
            )?;
            Ok(Some(Head::Opened(world)))
        }
        Err(PolicyFault::NoMemory) => Err(AllocError),
        Err(_) => Ok(Some(Head::Refused(line))),
    }
}

/// Takes one statement of the head: it gives a name, a peer or a setting, or it decides what the head comes to.
fn take_head(
    alloc: Global,
    preface: &mut Preface,
    statement: Statement,
) -> Result<Option<Head>, AllocError>
    ensures { IfOk result (λ head. TakesHead preface.old preface.new statement head) }
{
    let Statement { line, said } = statement;
    match said {
        Said::Principal { name, number } => take_name(preface, line, name, number),
        Said::Peer(peer) => take_peer(preface, line, peer),
        Said::Set { key, value } => take_setting(preface, line, key, value.as_str()),
        Said::Policy(text) => open_world(alloc, preface, line, text.as_str()),
        Said::Does(_) => Ok(Some(Head::Refused(line))),
        Said::Audit(_) => Ok(Some(Head::Refused(line))),
        Said::Bad => Ok(Some(Head::Refused(line))),
    }
}

/// Takes the statements up to the first policy.
fn take_heads(
    alloc: Global,
    preface: &mut Preface,
    statements: &mut Statements<'_>,
) -> Result<Head, AllocError>
    ensures { IfOk result (λ head. IsHead (opening_of preface.old (left statements.old)) preface.new.names (left statements.new) head) }
{
    'statements: while let Some(statement) = statements.next(alloc)? {
        if let Some(head) = take_head(alloc, preface, statement)? {
            return Ok(head);
        }
    }
    Ok(Head::Ended)
}

/// Writes the line that ends a script which is bad at a line.
#[tactic(auto, unfolding(crate::specs::Answers::line_text))]
fn write_bad_line<W: Target>(alloc: Global, line: u64, writer: &mut W) -> Result<Ended, RunFault>
    ensures ended { IfOk result (λ ended. ended ≡ BadLine line) }
    ensures ok { OnOk result (Appends (W.contents writer.old) (W.contents writer.new) (ended_text (BadLine line))) }
    ensures err { OnErr result (AppendsFront (W.contents writer.old) (W.contents writer.new) (ended_text (BadLine line))) }
    ensures begun { IfErr result (OfAnswering W.may_fail) }
{
    let text = text_of_line(alloc, AnswerLine::BadLine(line))?;
    write_whole(writer, text.as_bytes())?;
    Ok(Ended::BadLine(line))
}

/// Writes that a line is bad, at which the script ends.
fn stop_at<W: Target>(alloc: Global, line: u64, writer: &mut W) -> Result<Option<Ended>, RunFault>
    ensures ok { IfOk result (λ ended. (ended ≡ Some (BadLine line)) × Appends (W.contents writer.old) (W.contents writer.new) (ended_text (BadLine line))) }
    ensures err { OnErr result (AppendsFront (W.contents writer.old) (W.contents writer.new) (ended_text (BadLine line))) }
    ensures begun { IfErr result (OfAnswering W.may_fail) }
{
    let ended = write_bad_line(alloc, line, writer)?;
    Ok(Some(ended))
}

/// Writes the text of an answer, and goes on.
fn go_on_by_answer<W: Target>(
    alloc: Global,
    answer: &Answer,
    writer: &mut W,
) -> Result<Option<Ended>, RunFault>
    ensures ok { IfOk result (λ ended. (ended ≡ None) × Appends (W.contents writer.old) (W.contents writer.new) (answer_text answer.now)) }
    ensures err { OnErr result (AppendsFront (W.contents writer.old) (W.contents writer.new) (answer_text answer.now)) }
    ensures begun { IfErr result (OfAnswering W.may_fail) }
{
    let text = text_of(alloc, answer)?;
    write_whole(writer, text.as_bytes())?;
    Ok(None)
}

/// Whether the step named a registry at which its actor may not look.
fn is_bad_step(answer: &Answer) -> bool
    ensures { result ≡ is_bad_step answer.now }
{
    matches!(answer, Answer::BadStep)
}

/// Takes the step of a line, and writes its answer; or that the line is bad, at which the script ends.
fn go_on_by_step<W: Target>(
    alloc: Global,
    world: &mut World,
    line: u64,
    reading: &Reading,
    writer: &mut W,
) -> Result<Option<Ended>, RunFault>
    ensures ok { IfOk result (λ ended. Steps world.old world.new line reading.now ended (W.contents writer.old) (W.contents writer.new)) }
    ensures err { OnErr result (GivesUpStep world.old line reading.now (W.contents writer.old) (W.contents writer.new)) }
    ensures begun { IfErr result (OfAnswering W.may_fail) }
{
    let answer = world.step(alloc, reading);
    if is_bad_step(&answer) {
        return stop_at(alloc, line, writer);
    }
    go_on_by_answer(alloc, &answer, writer)
}

/// The text of a policy's refusal, or that there was no memory for it.
#[tactic(auto, unfolding(crate::specs::Answers::line_text, crate::specs::Script::answer_text))]
fn refusal_of(alloc: Global, fault: PolicyFault) -> Result<String, AllocError>
    ensures { IfOk result (λ text. string_bytes text ≡ told_text (told_of_fault fault)) }
{
    match fault {
        PolicyFault::NoMemory => text_of_line(alloc, AnswerLine::NoMemory),
        fault => text_of_line(alloc, AnswerLine::PolicyRefused(fault)),
    }
}

/// Writes why the text of a policy is refused, and goes on.
fn go_on_by_refusal<W: Target>(
    alloc: Global,
    fault: PolicyFault,
    writer: &mut W,
) -> Result<Option<Ended>, RunFault>
    ensures ok { IfOk result (λ ended. (ended ≡ None) × Appends (W.contents writer.old) (W.contents writer.new) (told_text (told_of_fault fault))) }
    ensures err { OnErr result (AppendsFront (W.contents writer.old) (W.contents writer.new) (told_text (told_of_fault fault))) }
    ensures begun { IfErr result (OfAnswering W.may_fail) }
{
    let text = refusal_of(alloc, fault)?;
    write_whole(writer, text.as_bytes())?;
    Ok(None)
}

/// Puts the policy that a text is in force, and writes the answer; or why the text is refused, which is no event.
fn go_on_by_policy<W: Target>(
    alloc: Global,
    names: &Names,
    world: &mut World,
    line: u64,
    text: &str,
    writer: &mut W,
) -> Result<Option<Ended>, RunFault>
    ensures ok { IfOk result (λ ended. TakesStep names.now world.old world.new (record { line = line; said = Policy text.now }) ended (W.contents writer.old) (W.contents writer.new)) }
    ensures err { OnErr result (GivesUp names.now world.old (record { line = line; said = Policy text.now }) (W.contents writer.old) (W.contents writer.new)) }
    ensures begun { IfErr result (OfAnswering W.may_fail) }
{
    match policy_text::read(alloc, text, names) {
        Ok(policy) => {
            let step = Step::Conductor(Event::Reload { now: 0, policy });
            let reading = Reading::newest(step);
            let result = go_on_by_step(alloc, world, line, &reading, writer);
            drop(reading);
            result
        }
        Err(fault) => go_on_by_refusal(alloc, fault, writer),
    }
}

/// Appends the line of each decision.
#[tactic(auto, unfolding(crate::specs::Answers::line_text))]
fn push_decisions(text: &mut String, audit: &Audit) -> Result<(), AllocError>
    ensures { OnOk result (string_bytes text.new ≡ string_bytes text.old ++ flat_map decision_line audit.now.items) }
{
    for decision in audit.items() {
        let line = AnswerLine::Decided(*decision);
        write!(text, "{line}")?;
    }
    Ok(())
}

/// The text of an actor's last decisions.
#[tactic(auto, unfolding(crate::specs::Answers::line_text))]
fn text_of_kept(alloc: Global, audit: &Audit) -> Result<String, AllocError>
    ensures { IfOk result (λ text. string_bytes text ≡ audit_text audit.now) }
{
    let count = audit.items().len() as u64;
    let dropped = audit.dropped();
    let mut text = text_of_line(alloc, AnswerLine::Audit { count, dropped })?;
    push_decisions(&mut text, audit)?;
    Ok(text)
}

/// The text of an audit. An actor that has none decided nothing.
#[tactic(auto, unfolding(crate::specs::Answers::line_text))]
fn text_of_audit(alloc: Global, audit: Option<&Audit>) -> Result<String, AllocError>
    ensures { IfOk result (λ text. (kept : Kept) → IsAuditOf (option_copied audit.entry) kept → string_bytes text ≡ audit_text kept) }
{
    match audit {
        Some(audit) => text_of_kept(alloc, audit),
        None => text_of_line(
            alloc,
            AnswerLine::Audit {
                count: 0,
                dropped: 0,
            },
        ),
    }
}

/// Writes what is kept of the actor's decisions, and goes on.
fn go_on_by_audit<W: Target>(
    alloc: Global,
    world: &World,
    actor: Actor,
    writer: &mut W,
) -> Result<Option<Ended>, RunFault>
    ensures ok { IfOk result (λ ended. (ended ≡ None) × Appends (W.contents writer.old) (W.contents writer.new) (audit_text (kept_for actor world.now.audits))) }
    ensures err { OnErr result (AppendsFront (W.contents writer.old) (W.contents writer.new) (audit_text (kept_for actor world.now.audits))) }
    ensures begun { IfErr result (OfAnswering W.may_fail) }
{
    let text = text_of_audit(alloc, world.audit(actor))?;
    write_whole(writer, text.as_bytes())?;
    Ok(None)
}

/// Takes one statement after the head: a step, a policy, or what is bad there.
fn take_step<W: Target>(
    alloc: Global,
    names: &Names,
    world: &mut World,
    statement: Statement,
    writer: &mut W,
) -> Result<Option<Ended>, RunFault>
    ensures ok { IfOk result (λ ended. TakesStep names.now world.old world.new statement ended (W.contents writer.old) (W.contents writer.new)) }
    ensures err { OnErr result (GivesUp names.now world.old statement (W.contents writer.old) (W.contents writer.new)) }
    ensures begun { IfErr result (OfAnswering W.may_fail) }
{
    let Statement { line, said } = statement;
    match said {
        Said::Does(reading) => {
            let result = go_on_by_step(alloc, world, line, &reading, writer);
            drop(reading);
            result
        }
        Said::Audit(actor) => go_on_by_audit(alloc, world, actor, writer),
        Said::Policy(text) => go_on_by_policy(alloc, names, world, line, text.as_str(), writer),
        Said::Principal { .. } => stop_at(alloc, line, writer),
        Said::Peer(_) => stop_at(alloc, line, writer),
        Said::Set { .. } => stop_at(alloc, line, writer),
        Said::Bad => stop_at(alloc, line, writer),
    }
}

/// Takes the statements after the head.
fn take_steps<W: Target>(
    alloc: Global,
    names: &Names,
    statements: &mut Statements<'_>,
    world: &mut World,
    writer: &mut W,
) -> Result<Ended, RunFault>
    ensures whole { IfOk result (λ ended. WritesWhole names.now world.old (left statements.old) ended (W.contents writer.old) (W.contents writer.new)) }
    ensures front { OnErr result (WritesFront names.now world.old (left statements.old) (W.contents writer.old) (W.contents writer.new)) }
    ensures begun { IfErr result (OfAnswering W.may_fail) }
{
    'statements: loop {
        let statement = match statements.next(alloc)? {
            Some(statement) => statement,
            None => return Ok(Ended::Done),
        };
        match take_step(alloc, names, world, statement, writer)? {
            Some(ended) => return Ok(ended),
            None => {}
        }
    }
}

/// Takes the statements after the head by a world that ends with them.
fn take_all_steps<W: Target>(
    alloc: Global,
    names: &Names,
    statements: &mut Statements<'_>,
    world: World,
    writer: &mut W,
) -> Result<Ended, RunFault>
    ensures whole { IfOk result (λ ended. WritesWhole names.now world (left statements.old) ended (W.contents writer.old) (W.contents writer.new)) }
    ensures front { OnErr result (WritesFront names.now world (left statements.old) (W.contents writer.old) (W.contents writer.new)) }
    ensures begun { IfErr result (OfAnswering W.may_fail) }
{
    let mut world = world;
    let result = take_steps(alloc, names, statements, &mut world, writer);
    drop(world);
    result
}

/// Goes on from what the head came to.
fn follow_head<W: Target>(
    alloc: Global,
    names: &Names,
    head: Head,
    statements: &mut Statements<'_>,
    writer: &mut W,
) -> Result<Ended, RunFault>
    ensures whole { IfOk result (λ ended. FollowsHead names.now (left statements.old) head ended (W.contents writer.old) (W.contents writer.new)) }
    ensures front { OnErr result (BeginsHead names.now (left statements.old) head (W.contents writer.old) (W.contents writer.new)) }
    ensures begun { IfErr result (OfAnswering W.may_fail) }
{
    match head {
        Head::Ended => Ok(Ended::Done),
        Head::Refused(line) => write_bad_line(alloc, line, writer),
        Head::Opened(world) => take_all_steps(alloc, names, statements, world, writer),
    }
}

/// Runs a script that was read.
fn run_script<W: Target>(alloc: Global, script: &[u8], writer: &mut W) -> Result<Ended, RunFault>
    requires { length script.now ≤ LIMIT }
    ensures whole { IfOk result (λ ended. WritesScript (statements_of script.now) ended (W.contents writer.old) (W.contents writer.new)) }
    ensures front { OnErr result (BeginsScript (statements_of script.now) (W.contents writer.old) (W.contents writer.new)) }
    ensures begun { IfErr result (OfAnswering W.may_fail) }
{
    let mut preface = Preface::new(alloc);
    let mut statements = Statements::new(script);
    let head = take_heads(alloc, &mut preface, &mut statements)?;
    follow_head(alloc, &preface.names, head, &mut statements, writer)
}

/// Runs the script that `reader` gives, and writes the answers to `writer`. What it writes is the text of the script,
/// which the script's bytes determine, but for the steps that are refused memory: these are answered `no memory`.
///
/// # Errors
/// Where it gives up, what it wrote is a front of such a text; nothing at all, where the reader failed or has more than
/// [`LIMIT`] bytes.
pub fn run<R: Source, W: Target>(
    alloc: Global,
    reader: &mut R,
    writer: &mut W,
) -> Result<Ended, RunFault>
    ensures whole { IfOk result (λ ended. IfSome (R.remaining reader.old) (λ script. WritesScript (statements_of script) ended (W.contents writer.old) (W.contents writer.new))) }
    ensures front { IfErr result (λ fault. IsBegun fault → IfSome (R.remaining reader.old) (λ script. BeginsScript (statements_of script) (W.contents writer.old) (W.contents writer.new))) }
    ensures nothing { IfErr result (λ fault. IsUnread fault → W.contents writer.new ≡ W.contents writer.old) }
    ensures long { OnErr result (IfSome (R.remaining reader.old) (λ script. LIMIT < length script → W.contents writer.new ≡ W.contents writer.old)) }
    ensures bound { IfOk result (λ _. IfSome (R.remaining reader.old) (λ script. length script ≤ LIMIT)) }
    ensures too_long { result ≡ Err TooLong → IfSome (R.remaining reader.old) (λ script. LIMIT < length script) }
    ensures faults { IfErr result (OfRunning R.may_fail W.may_fail) }
{
    let script = read_input(alloc, reader)?;
    run_script(alloc, script.as_slice(), writer)
}

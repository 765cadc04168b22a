ghost use Rattle.script_lines.specs.Line.{is_plain, line_of, or_bad, said_by, step_by, plain_step_by, one, two, three, two_at, three_at, four_at, five_at, view_of, view_in, name_of, principal_of, peer_of, set_of, policy_of, attach_of, command_of, offer_of, packet_of, tick_of, poll_of, send_of, image_of, list_of, value_of, actor_of, audit_of, keeps_fields};
ghost use Rattle.script_lines.specs.LineFault.{Gives, HasMemory};
ghost use Rattle.script_lines.specs.Pieces.{pieces, pieces_behind};
ghost use Rattle.script_lines.specs.declared.line.LineFault.TheVariants.{NoMemory};
ghost use Rattle.std.specs.Option.{option_map};
ghost use Rattle.std.specs.Prelude.{◌≡◌, Some, None, [], ◌∷◌, false, IfOk, IsOk, option_copied, if◌then◌else◌};

use crate::hex;
use crate::number::{number, small_number};
use crate::pieces::first_piece;
use byte_strings::Text;
use channel_uri::address_of;
use driver_core::{Event, Peer, Received};
use driver_world::{Actor, Reading, Step};
use std::alloc::{AllocError, AllocFailed, Global};

/// What a line of a script says.
#[derive(Debug, Drop)]
pub enum Line {
    /// Nothing: it is empty, or a comment.
    Skipped,
    /// `principal NAME NUMBER`: rules of the policy may name this principal.
    Principal { name: Text, number: u32 },
    /// `peer ADDR NUMBER`: who sends from this address is this principal.
    Peer(Peer),
    /// `set KEY VALUE`: the driver has this setting, if the key is one and the value is in its range.
    Set { key: Text, value: Text },
    /// `policy`: the lines up to one that is `.` are the text of a policy.
    Policy,
    /// A step of the run, by the newest registry or by the one that the line names.
    Does(Reading),
    /// `audit A`: the last decisions of this actor are shown.
    Audit(Actor),
    /// It is no line of a script.
    Bad,
}

/// Why words are no line.
#[derive(Clone, Copy, Debug, PartialEq, Eq)]
pub(crate) enum LineFault {
    Bad,
    NoMemory,
}

impl From<AllocError> for LineFault {
    ghost from_gives = { λ _ fault. fault ≡ NoMemory };

    fn from(_error: AllocError) -> LineFault {
        LineFault::NoMemory
    }
}

impl<T: Drop> From<AllocFailed<T>> for LineFault {
    ghost from_gives = { λ _ fault. fault ≡ NoMemory };

    fn from(_error: AllocFailed<T>) -> LineFault {
        LineFault::NoMemory
    }
}

/// Whether all bytes are ASCII.
fn is_plain(line: &[u8]) -> bool
    ensures { result ≡ is_plain line.now }
{
    line.iter().all(|b| b.is_ascii())
}

/// The line as a text, where all its bytes are ASCII.
pub(crate) fn plain_text(line: &[u8]) -> Option<&str>
    ensures { option_copied result ≡ (if is_plain line.now then Some line.now else None) }
{
    if !is_plain(line) {
        return None;
    }
    match str::from_utf8(line) {
        Ok(text) => Some(text),
        Err(_) => None,
    }
}

/// The one word after the first one.
fn one_word(fields: Option<&str>) -> Option<&str>
    ensures { option_copied result ≡ one (pieces_behind 32 (option_copied fields.entry)) }
{
    let (first, fields) = first_piece(fields?, ' ');
    match fields {
        None => Some(first),
        Some(_) => None,
    }
}

/// The two words after the first one.
fn two_words(fields: Option<&str>) -> Option<(&str, &str)>
    ensures { option_map (λ words. (words.0.now, words.1.now)) result ≡ two (pieces_behind 32 (option_copied fields.entry)) }
{
    let (first, fields) = first_piece(fields?, ' ');
    let (second, fields) = first_piece(fields?, ' ');
    match fields {
        None => Some((first, second)),
        Some(_) => None,
    }
}

/// The three words after the first one.
fn three_words(fields: Option<&str>) -> Option<(&str, &str, &str)>
    ensures { option_map (λ words. (words.0.now, words.1.now, words.2.now)) result ≡ three (pieces_behind 32 (option_copied fields.entry)) }
{
    let (first, fields) = first_piece(fields?, ' ');
    let (second, fields) = first_piece(fields?, ' ');
    let (third, fields) = first_piece(fields?, ' ');
    match fields {
        None => Some((first, second, third)),
        Some(_) => None,
    }
}

/// The number of a registry, as `@K` names it.
#[tactic(auto, unfolding(crate::specs::Line::view_of))]
fn view_of(word: &str) -> Option<u64>
    ensures { result ≡ view_of word.now }
{
    match word.strip_prefix("@") {
        Some(digits) => number(digits),
        None => None,
    }
}

/// The registry that the last word names, where there is one.
fn view_in(fields: Option<&str>) -> Option<Option<u64>>
    ensures { result ≡ view_in (pieces_behind 32 (option_copied fields.entry)) }
{
    match fields {
        None => Some(None),
        Some(text) => {
            let (word, fields) = first_piece(text, ' ');
            match fields {
                None => match view_of(word) {
                    Some(view) => Some(Some(view)),
                    None => None,
                },
                Some(_) => None,
            }
        }
    }
}

/// The two words after the first one, and the registry that is named after these.
fn two_words_at(fields: Option<&str>) -> Option<(&str, &str, Option<u64>)>
    ensures { option_map (λ words. (words.0.now, words.1.now, words.2)) result ≡ two_at (pieces_behind 32 (option_copied fields.entry)) }
{
    let (first, fields) = first_piece(fields?, ' ');
    let (second, fields) = first_piece(fields?, ' ');
    let view = view_in(fields)?;
    Some((first, second, view))
}

/// The three words after the first one, and the registry that is named after these.
fn three_words_at(fields: Option<&str>) -> Option<(&str, &str, &str, Option<u64>)>
    ensures { option_map (λ words. (words.0.now, words.1.now, words.2.now, words.3)) result ≡ three_at (pieces_behind 32 (option_copied fields.entry)) }
{
    let (first, fields) = first_piece(fields?, ' ');
    let (second, fields) = first_piece(fields?, ' ');
    let (third, fields) = first_piece(fields?, ' ');
    let view = view_in(fields)?;
    Some((first, second, third, view))
}

/// The four words after the first one, and the registry that is named after these.
fn four_words_at(fields: Option<&str>) -> Option<(&str, &str, &str, &str, Option<u64>)>
    ensures { option_map (λ words. (words.0.now, words.1.now, words.2.now, words.3.now, words.4)) result ≡ four_at (pieces_behind 32 (option_copied fields.entry)) }
{
    let (first, fields) = first_piece(fields?, ' ');
    let (second, fields) = first_piece(fields?, ' ');
    let (third, fields) = first_piece(fields?, ' ');
    let (fourth, fields) = first_piece(fields?, ' ');
    let view = view_in(fields)?;
    Some((first, second, third, fourth, view))
}

/// The five words after the first one, and the registry that is named after these.
fn five_words_at(fields: Option<&str>) -> Option<(&str, &str, &str, &str, &str, Option<u64>)>
    ensures { option_map (λ words. (words.0.now, words.1.now, words.2.now, words.3.now, words.4.now, words.5)) result ≡ five_at (pieces_behind 32 (option_copied fields.entry)) }
{
    let (first, fields) = first_piece(fields?, ' ');
    let (second, fields) = first_piece(fields?, ' ');
    let (third, fields) = first_piece(fields?, ' ');
    let (fourth, fields) = first_piece(fields?, ' ');
    let (fifth, fields) = first_piece(fields?, ' ');
    let view = view_in(fields)?;
    Some((first, second, third, fourth, fifth, view))
}

/// A word as a name.
fn name_of(alloc: Global, word: &str) -> Result<Text, LineFault>
    ensures { Gives result (name_of word.now) }
{
    if word.is_empty() {
        return Err(LineFault::Bad);
    }
    Ok(Text::new(alloc, word)?)
}

#[tactic(auto, unfolding(crate::specs::Line::principal_of))]
fn principal_of(alloc: Global, fields: Option<&str>) -> Result<Line, LineFault>
    ensures { Gives result (principal_of (pieces_behind 32 (option_copied fields.entry))) }
{
    let (name, number) = two_words(fields).ok_or(LineFault::Bad)?;
    let name = name_of(alloc, name)?;
    let number = small_number(number).ok_or(LineFault::Bad)?;
    Ok(Line::Principal { name, number })
}

#[tactic(auto, unfolding(crate::specs::Line::peer_of))]
fn peer_of(fields: Option<&str>) -> Option<Line>
    ensures { result ≡ peer_of (pieces_behind 32 (option_copied fields.entry)) }
{
    let (address, principal) = two_words(fields)?;
    let address = address_of(address)?;
    let principal = small_number(principal)?;
    Some(Line::Peer(Peer { address, principal }))
}

fn set_of(alloc: Global, fields: Option<&str>) -> Result<Line, LineFault>
    ensures { Gives result (set_of (pieces_behind 32 (option_copied fields.entry))) }
{
    let (key, value) = two_words(fields).ok_or(LineFault::Bad)?;
    let key = Text::new(alloc, key)?;
    let value = Text::new(alloc, value)?;
    Ok(Line::Set { key, value })
}

fn policy_of(fields: Option<&str>) -> Option<Line>
    ensures { result ≡ policy_of (pieces_behind 32 (option_copied fields.entry)) }
{
    match fields {
        None => Some(Line::Policy),
        Some(_) => None,
    }
}

#[tactic(auto, unfolding(crate::specs::Line::attach_of))]
fn attach_of(fields: Option<&str>) -> Option<Reading>
    ensures { result ≡ attach_of (pieces_behind 32 (option_copied fields.entry)) }
{
    let (now, principal) = two_words(fields)?;
    let now = number(now)?;
    let principal = small_number(principal)?;
    let step = Step::Conductor(Event::Attach { now, principal });
    Some(Reading::newest(step))
}

#[tactic(auto, unfolding(crate::specs::Line::command_of))]
fn command_of(alloc: Global, fields: Option<&str>) -> Result<Reading, LineFault>
    ensures { Gives result (command_of (pieces_behind 32 (option_copied fields.entry))) }
{
    let (now, client, bytes) = three_words(fields).ok_or(LineFault::Bad)?;
    let now = number(now).ok_or(LineFault::Bad)?;
    let client = number(client).ok_or(LineFault::Bad)?;
    let bytes = hex::read_hex(alloc, bytes)?;
    let bytes = Received::new(alloc, bytes.as_slice())?;
    let step = Step::Conductor(Event::Command { now, client, bytes });
    Ok(Reading::newest(step))
}

#[tactic(auto, unfolding(crate::specs::Line::offer_of))]
fn offer_of(alloc: Global, fields: Option<&str>) -> Result<Reading, LineFault>
    ensures { Gives result (offer_of (pieces_behind 32 (option_copied fields.entry))) }
{
    let (now, client, registration, message, view) = four_words_at(fields).ok_or(LineFault::Bad)?;
    let now = number(now).ok_or(LineFault::Bad)?;
    let client = number(client).ok_or(LineFault::Bad)?;
    let registration = number(registration).ok_or(LineFault::Bad)?;
    let message = hex::read_hex(alloc, message)?;
    let step = Step::Offer {
        now,
        client,
        registration,
        message,
    };
    Ok(Reading { view, step })
}

#[tactic(auto, unfolding(crate::specs::Line::packet_of))]
fn packet_of(alloc: Global, fields: Option<&str>) -> Result<Reading, LineFault>
    ensures { Gives result (packet_of (pieces_behind 32 (option_copied fields.entry))) }
{
    let (now, local, from, bytes, view) = four_words_at(fields).ok_or(LineFault::Bad)?;
    let now = number(now).ok_or(LineFault::Bad)?;
    let local = address_of(local).ok_or(LineFault::Bad)?;
    let from = address_of(from).ok_or(LineFault::Bad)?;
    let bytes = hex::read_hex(alloc, bytes)?;
    let step = Step::Packet {
        now,
        local,
        from,
        bytes,
    };
    Ok(Reading { view, step })
}

#[tactic(auto, unfolding(crate::specs::Line::poll_of))]
fn poll_of(fields: Option<&str>) -> Option<Reading>
    ensures { result ≡ poll_of (pieces_behind 32 (option_copied fields.entry)) }
{
    let (now, client, subscription, source, limit, view) = five_words_at(fields)?;
    let now = number(now)?;
    let client = number(client)?;
    let subscription = number(subscription)?;
    let source = number(source)?;
    let limit = small_number(limit)?;
    let step = Step::Poll {
        now,
        client,
        subscription,
        source,
        limit,
    };
    Some(Reading { view, step })
}

#[tactic(auto, unfolding(crate::specs::Line::send_of))]
fn send_of(fields: Option<&str>) -> Option<Reading>
    ensures { result ≡ send_of (pieces_behind 32 (option_copied fields.entry)) }
{
    let (now, source, view) = two_words_at(fields)?;
    let now = number(now)?;
    let source = number(source)?;
    let step = Step::Send { now, source };
    Some(Reading { view, step })
}

#[tactic(auto, unfolding(crate::specs::Line::image_of))]
fn image_of(fields: Option<&str>) -> Option<Reading>
    ensures { result ≡ image_of (pieces_behind 32 (option_copied fields.entry)) }
{
    let (now, source, view) = two_words_at(fields)?;
    let now = number(now)?;
    let source = number(source)?;
    let step = Step::Image { now, source };
    Some(Reading { view, step })
}

#[tactic(auto, unfolding(crate::specs::Line::tick_of))]
fn tick_of(fields: Option<&str>) -> Option<Reading>
    ensures { result ≡ tick_of (pieces_behind 32 (option_copied fields.entry)) }
{
    let now = number(one_word(fields)?)?;
    Some(Reading::newest(Step::Conductor(Event::Tick { now })))
}

#[tactic(auto, unfolding(crate::specs::Line::list_of))]
fn list_of(fields: Option<&str>) -> Option<Reading>
    ensures { result ≡ list_of (pieces_behind 32 (option_copied fields.entry)) }
{
    let (now, client, view) = two_words_at(fields)?;
    let now = number(now)?;
    let client = number(client)?;
    let step = Step::List { now, client };
    Some(Reading { view, step })
}

#[tactic(auto, unfolding(crate::specs::Line::value_of))]
fn value_of(fields: Option<&str>) -> Option<Reading>
    ensures { result ≡ value_of (pieces_behind 32 (option_copied fields.entry)) }
{
    let (now, client, number_word, view) = three_words_at(fields)?;
    let now = number(now)?;
    let client = number(client)?;
    let number = number(number_word)?;
    let step = Step::Value {
        now,
        client,
        number,
    };
    Some(Reading { view, step })
}

/// The actor that a word names.
#[tactic(auto, unfolding(crate::specs::Line::actor_of))]
fn actor_of(word: &str) -> Option<Actor>
    ensures { result ≡ actor_of word.now }
{
    if word == "conductor" {
        return Some(Actor::Conductor);
    }
    if word == "sender" {
        return Some(Actor::Sender);
    }
    if word == "receiver" {
        return Some(Actor::Receiver);
    }
    let client = number(word)?;
    Some(Actor::Client(client))
}

fn audit_of(fields: Option<&str>) -> Option<Line>
    ensures { result ≡ audit_of (pieces_behind 32 (option_copied fields.entry)) }
{
    let actor = actor_of(one_word(fields)?)?;
    Some(Line::Audit(actor))
}

/// What the words of a step say that keeps no bytes.
#[tactic(auto, unfolding(crate::specs::Line::plain_step_by))]
fn plain_step_by(word: &str, fields: Option<&str>) -> Option<Reading>
    ensures { result ≡ plain_step_by word.now (pieces_behind 32 (option_copied fields.entry)) }
{
    if word == "attach" {
        return attach_of(fields);
    }
    if word == "tick" {
        return tick_of(fields);
    }
    if word == "poll" {
        return poll_of(fields);
    }
    if word == "send" {
        return send_of(fields);
    }
    if word == "image" {
        return image_of(fields);
    }
    if word == "list" {
        return list_of(fields);
    }
    if word == "value" {
        return value_of(fields);
    }
    None
}

/// What the words of a step say.
#[tactic(auto, unfolding(crate::specs::Line::step_by))]
fn step_by(alloc: Global, word: &str, fields: Option<&str>) -> Result<Reading, LineFault>
    ensures exact { Gives result (step_by word.now (pieces_behind 32 (option_copied fields.entry))) }
    ensures without_memory { keeps_fields (word.now ∷ []) ≡ false → HasMemory result }
{
    if word == "cmd" {
        return command_of(alloc, fields);
    }
    if word == "offer" {
        return offer_of(alloc, fields);
    }
    if word == "packet" {
        return packet_of(alloc, fields);
    }
    plain_step_by(word, fields).ok_or(LineFault::Bad)
}

#[tactic(auto, unfolding(crate::specs::Line::said_by))]
fn said_by(alloc: Global, word: &str, fields: Option<&str>) -> Result<Line, LineFault>
    ensures exact { Gives result (said_by word.now (pieces_behind 32 (option_copied fields.entry))) }
    ensures without_memory { keeps_fields (word.now ∷ []) ≡ false → HasMemory result }
{
    if word == "principal" {
        return principal_of(alloc, fields);
    }
    if word == "peer" {
        return peer_of(fields).ok_or(LineFault::Bad);
    }
    if word == "set" {
        return set_of(alloc, fields);
    }
    if word == "policy" {
        return policy_of(fields).ok_or(LineFault::Bad);
    }
    if word == "audit" {
        return audit_of(fields).ok_or(LineFault::Bad);
    }
    let reading = step_by(alloc, word, fields)?;
    Ok(Line::Does(reading))
}

/// Reads a line, without the line feed at its end.
#[tactic(auto, unfolding(crate::specs::Line::line_of))]
pub fn read_line(alloc: Global, line: &[u8]) -> Result<Line, AllocError>
    ensures exact { IfOk result (λ said. said ≡ line_of line.now) }
    ensures without_memory { keeps_fields (pieces 32 line.now) ≡ false → IsOk result }
{
    let Some(text) = plain_text(line) else {
        return Ok(Line::Bad);
    };
    if line.is_empty() {
        return Ok(Line::Skipped);
    }
    if line[0] == b'#' {
        return Ok(Line::Skipped);
    }
    let (word, fields) = first_piece(text, ' ');
    match said_by(alloc, word, fields) {
        Ok(said) => Ok(said),
        Err(LineFault::Bad) => Ok(Line::Bad),
        Err(LineFault::NoMemory) => Err(AllocError),
    }
}

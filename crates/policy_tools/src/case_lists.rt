//! The words of a case that name more than one principal, act or stream.

ghost use Rattle.policy_core.specs.Act.{every_act};
ghost use Rattle.policy_tools.specs.CaseLists.{acts_from, acts_named, end_from, ends_from, listed, principals_from, principals_named, streams_of_word};
ghost use Rattle.std.specs.Option.{option_map};
ghost use Rattle.channel_uri.specs.Session.{session_id_of};
ghost use Rattle.std.specs.Prelude.{◌≡◌, ◌∷◌, [], IfOk, map};

use crate::directory::Directory;
use byte_strings::Text;
use channel_uri::session_id_of;
use policy_core::Act;
use std::alloc::{AllocError, Global};

/// The word, cut at each comma.
fn listed(alloc: Global, word: &str) -> Result<Vec<&str>, AllocError>
    ensures { IfOk result (λ parts. map (λ part. part.now) parts.items ≡ listed word.now) }
{
    word.split(',').collect(alloc)
}

/// Each of these names with its number, where each is known.
fn principals_named(
    alloc: Global,
    names: &[&str],
    directory: &Directory,
) -> Result<Option<Vec<(Text, u32)>>, AllocError>
    ensures { IfOk result (λ found. option_map (λ principals. principals.items) found ≡ principals_named directory.now (map (λ name. name.now) names.now)) }
{
    let mut found = Vec::new(alloc);
    for name in names {
        match directory.number_of(*name) {
            Some(number) => found.push((Text::new(alloc, *name)?, number))?,
            None => return Ok(None),
        }
    }
    Ok(Some(found))
}

/// The one principal of that name and number.
fn principal_named(alloc: Global, name: &str, number: u32) -> Result<Vec<(Text, u32)>, AllocError>
    ensures { IfOk result (λ principals. principals.items ≡ (name.now, number) ∷ []) }
{
    let mut found = Vec::new(alloc);
    found.push((Text::new(alloc, name)?, number))?;
    Ok(found)
}

/// The principals that a word names: one, or several with commas between them.
pub(crate) fn principals_from(
    alloc: Global,
    word: &str,
    directory: &Directory,
) -> Result<Option<Vec<(Text, u32)>>, AllocError>
    ensures { IfOk result (λ found. option_map (λ principals. principals.items) found ≡ principals_from directory.now word.now) }
{
    match directory.number_of(word) {
        Some(number) => Ok(Some(principal_named(alloc, word, number)?)),
        None => principals_named(alloc, listed(alloc, word)?.as_slice(), directory),
    }
}

/// The acts of these names, where each is one.
fn acts_named(alloc: Global, names: &[&str]) -> Result<Option<Vec<Act>>, AllocError>
    ensures { IfOk result (λ found. option_map (λ acts. acts.items) found ≡ acts_named (map (λ name. name.now) names.now)) }
{
    let mut found = Vec::new(alloc);
    for name in names {
        match Act::from_name(*name) {
            Some(act) => found.push(act)?,
            None => return Ok(None),
        }
    }
    Ok(Some(found))
}

/// Every act.
fn every_act(alloc: Global) -> Result<Vec<Act>, AllocError>
    ensures { IfOk result (λ acts. acts.items ≡ every_act) }
{
    let mut acts = Vec::new(alloc);
    for act in &Act::EVERY {
        acts.push(*act)?;
    }
    Ok(acts)
}

/// The acts that a word names: one, several with commas between them, or all as `*`.
pub(crate) fn acts_from(alloc: Global, word: &str) -> Result<Option<Vec<Act>>, AllocError>
    ensures { IfOk result (λ found. option_map (λ acts. acts.items) found ≡ acts_from word.now) }
{
    if word == "*" {
        return Ok(Some(every_act(alloc)?));
    }
    acts_named(alloc, listed(alloc, word)?.as_slice())
}

/// The end of a range: a stream, or the usual end where nothing stands.
fn end_from(usual: i32, word: &str) -> Option<i32>
    ensures { result ≡ end_from usual word.now }
{
    if word.is_empty() {
        return Some(usual);
    }
    session_id_of(word)
}

/// The ends of a range, of which none is empty.
fn ends_from(low: &str, high: &str) -> Option<(i32, i32)>
    ensures { result ≡ ends_from low.now high.now }
{
    let low = end_from(i32::MIN, low)?;
    let high = end_from(i32::MAX, high)?;
    if low <= high { Some((low, high)) } else { None }
}

/// The one stream that a word is.
fn one_stream(word: &str) -> Option<(i32, i32)>
    ensures { result ≡ option_map (λ stream. (stream, stream)) (session_id_of word.now) }
{
    let stream = session_id_of(word)?;
    Some((stream, stream))
}

/// The streams that a word names: one, those from one to another as `LOW..HIGH`, of which an end may be left out, or all as
/// `*`.
pub(crate) fn streams_of_word(word: &str) -> Option<(i32, i32)>
    ensures { result ≡ streams_of_word word.now }
{
    if word == "*" {
        return Some((i32::MIN, i32::MAX));
    }
    match word.split_once('.') {
        Some((low, rest)) => ends_from(low, rest.strip_prefix(".")?),
        None => one_stream(word),
    }
}

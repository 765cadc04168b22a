//! Cells of rows.

use crate::examples::{Example, rule_at, written_at};
use crate::pairs::Deciders;
use crate::requests::Written;
use crate::scope::Asker;
use byte_strings::Text;
use channel_uri::Media;
use plain_words::plain;
use policy_core::Principals;
use policy_tools::{Directory, Relation, WrittenPolicy, patterns_pass, principals_text, word_of};
use std::alloc::{AllocError, Global};

/// The channels that both patterns may cover: the text of the one that the other covers, or both texts.
fn common_channels(
    alloc: Global,
    one: Written<'_>,
    other: Written<'_>,
) -> Result<Text, AllocError> {
    if patterns_pass(Relation::Covers, one.text, one.pattern, other.pattern) {
        return plain(alloc, other.text);
    }
    if patterns_pass(Relation::Covers, other.text, other.pattern, one.pattern) {
        return plain(alloc, one.text);
    }
    let (first, second) = (plain(alloc, one.text)?, plain(alloc, other.text)?);
    Ok(Text::from(format!(in alloc; "{first} and {second}")?))
}

/// The channels of a row.
pub(crate) fn channel_cell(
    alloc: Global,
    old: &WrittenPolicy,
    new: &WrittenPolicy,
    deciders: Deciders,
) -> Result<Text, AllocError> {
    match (written_at(old, deciders.old), written_at(new, deciders.new)) {
        (Some(one), Some(other)) => common_channels(alloc, one, other),
        (Some(one), None) => plain(alloc, one.text),
        (None, Some(other)) => plain(alloc, other.text),
        (None, None) => Text::new(alloc, "*"),
    }
}

/// The word of what decides, and what that is.
fn decider_text(
    alloc: Global,
    source: &WrittenPolicy,
    decider: Option<usize>,
) -> Result<Text, AllocError> {
    let Some(rule) = rule_at(source, decider) else {
        let word = word_of(source.policy().default_allows());
        return Ok(Text::from(format!(in alloc; "{word} by default")?));
    };
    let word = word_of(rule.allow);
    let name = rule.name.as_str();
    let number = decider.unwrap_or(0).saturating_add(1);
    Ok(Text::from(format!(in alloc; "{word} by rule {number} ({name})")?))
}

/// What decides now, and what would.
pub(crate) fn change_cell(
    alloc: Global,
    old: &WrittenPolicy,
    new: &WrittenPolicy,
    deciders: Deciders,
) -> Result<Text, AllocError> {
    let (before, after) = (
        decider_text(alloc, old, deciders.old)?,
        decider_text(alloc, new, deciders.new)?,
    );
    Ok(Text::from(format!(in alloc; "{before} -> {after}")?))
}

/// The channel of an example.
fn channel_text(alloc: Global, example: &Example) -> Result<Text, AllocError> {
    if example.channel.media() == Media::Counter {
        return Text::new(alloc, "aeron:counter");
    }
    example.channel.canonical(alloc)
}

/// An example, in the words of a question.
pub(crate) fn example_cell(
    alloc: Global,
    example: &Example,
    directory: &Directory,
) -> Result<Text, AllocError> {
    let asker = principals_text(alloc, Principals::One(example.principal), directory)?;
    let channel = plain(alloc, channel_text(alloc, example)?.as_str())?;
    let (act, stream) = (example.act.name(), example.stream);
    Ok(Text::from(format!(in alloc; "{asker} {act} {channel} {stream}")?))
}

/// Whose requests a row is of: a name, `*` for everybody, `all but` a name, or `others` for everybody whom no rule names.
pub(crate) fn asker_cell(
    alloc: Global,
    asker: Asker,
    directory: &Directory,
) -> Result<Text, AllocError> {
    match asker {
        Asker::Every => principals_text(alloc, Principals::Any, directory),
        Asker::One(number) => principals_text(alloc, Principals::One(number), directory),
        Asker::But(number) => {
            let name = principals_text(alloc, Principals::One(number), directory)?;
            Ok(Text::from(format!(in alloc; "all but {name}")?))
        }
        Asker::Others => Text::new(alloc, "others"),
    }
}

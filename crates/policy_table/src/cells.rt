//! Cells of rows, and how wide their columns are.

use crate::scope::Asker;
use crate::steps::Step;
use byte_strings::Text;
use channel_uri::{Media, Pattern};
use plain_words::plain;
use policy_core::Principals;
use policy_tools::{Directory, WrittenPolicy, acts_text, principals_text, streams_text, word_of};
use std::alloc::{AllocError, Global};

/// The name of an asker.
pub(crate) fn asker_cell(
    alloc: Global,
    asker: Asker,
    directory: &Directory,
) -> Result<Text, AllocError> {
    match asker {
        Asker::One(number) => principals_text(alloc, Principals::One(number), directory),
        Asker::Others => Text::new(alloc, "others"),
    }
}

/// The medium of a pattern; `*` for all of them.
fn medium_of(pattern: &Pattern) -> &'static str {
    match pattern {
        Pattern::Any => "*",
        Pattern::Of(Media::Udp, _keys) => "udp",
        Pattern::Of(Media::Ipc, _keys) => "ipc",
        Pattern::Of(Media::Counter, _keys) => "counter",
    }
}

/// The cells of a rule.
#[derive(Debug, Drop)]
pub(crate) struct RuleCells {
    pub(crate) medium: &'static str,
    pub(crate) pattern: Text,
    pub(crate) allow: bool,
}

impl RuleCells {
    /// Those of no rule.
    pub(crate) fn none(alloc: Global) -> Result<RuleCells, AllocError> {
        Ok(RuleCells {
            medium: "*",
            pattern: Text::new(alloc, "")?,
            allow: false,
        })
    }
}

/// The cells of the rule at a place, if there is one.
pub(crate) fn rule_cells(
    alloc: Global,
    source: &WrittenPolicy,
    place: usize,
) -> Result<Option<RuleCells>, AllocError> {
    let rules = source.rules();
    if place >= rules.len() {
        return Ok(None);
    }
    let pattern = plain(alloc, source.text(place))?;
    Ok(Some(RuleCells {
        medium: medium_of(&rules[place].channel),
        pattern,
        allow: rules[place].allow,
    }))
}

/// The cells that all rows of a part have.
#[derive(Debug, Drop)]
pub(crate) struct PartCells {
    pub(crate) principal: Text,
    pub(crate) acts: Text,
    pub(crate) streams: Text,
}

impl PartCells {
    pub(crate) fn of(
        alloc: Global,
        step: &Step,
        directory: &Directory,
    ) -> Result<PartCells, AllocError> {
        Ok(PartCells {
            principal: asker_cell(alloc, step.group.asker, directory)?,
            acts: acts_text(alloc, step.group.acts)?,
            streams: streams_text(alloc, step.low, step.stretch.high)?,
        })
    }
}

/// How many bytes wide each column is, but the last.
#[derive(Clone, Copy, Debug)]
pub(crate) struct Widths {
    principal: usize,
    acts: usize,
    medium: usize,
    pattern: usize,
    streams: usize,
    word: usize,
}

impl Widths {
    pub(crate) const NONE: Widths = Widths {
        principal: 0,
        acts: 0,
        medium: 0,
        pattern: 0,
        streams: 0,
        word: 0,
    };

    /// As wide as the cells of a rule too.
    fn with_rule(self, cells: &RuleCells) -> Widths {
        Widths {
            medium: self.medium.max(cells.medium.len()),
            pattern: self.pattern.max(cells.pattern.as_str().len()),
            word: self.word.max(word_of(cells.allow).len()),
            ..self
        }
    }

    /// As wide as the cells of a part too.
    fn with_part(self, cells: &PartCells) -> Widths {
        Widths {
            principal: self.principal.max(cells.principal.as_str().len()),
            acts: self.acts.max(cells.acts.as_str().len()),
            streams: self.streams.max(cells.streams.as_str().len()),
            ..self
        }
    }

    /// As wide as the rows of a step too.
    pub(crate) fn with(
        self,
        alloc: Global,
        source: &WrittenPolicy,
        step: &Step,
        directory: &Directory,
    ) -> Result<Widths, AllocError> {
        if step.stretch.rules.is_empty() {
            return Ok(self);
        }
        let mut widths = self.with_part(&PartCells::of(alloc, step, directory)?);
        for place in step.stretch.rules.as_slice() {
            if let Some(cells) = rule_cells(alloc, source, *place)? {
                widths = widths.with_rule(&cells);
            }
        }
        Ok(widths)
    }
}

/// Adds a cell, filled up to a width, and two spaces.
fn push_cell(text: &mut String, cell: &str, width: usize) -> Result<(), AllocError> {
    text.push_str(cell)?;
    for _ in cell.len()..width {
        text.push_str(" ")?;
    }
    text.push_str("  ")
}

/// The cells of a row, but the last.
pub(crate) fn front_of(
    alloc: Global,
    part: &PartCells,
    rule: &RuleCells,
    widths: &Widths,
) -> Result<String, AllocError> {
    let mut text = String::new(alloc);
    push_cell(&mut text, part.principal.as_str(), widths.principal)?;
    push_cell(&mut text, part.acts.as_str(), widths.acts)?;
    push_cell(&mut text, rule.medium, widths.medium)?;
    push_cell(&mut text, rule.pattern.as_str(), widths.pattern)?;
    push_cell(&mut text, part.streams.as_str(), widths.streams)?;
    push_cell(&mut text, word_of(rule.allow), widths.word)?;
    Ok(text)
}

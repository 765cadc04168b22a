//! The rules of a policy, as lines of text.

ghost use Rattle.policy_tools.specs.Showing.{heads, numbered};
ghost use Rattle.std.specs.Fmt.{decimal};
ghost use Rattle.std.specs.Prelude.{◌≡◌, ◌<◌, ◌∷◌, [], IfOk, length, take};

use crate::columns::{Line, in_columns};
use crate::directory::Directory;
use crate::words::{acts_text, moments_text, principals_text, streams_text, word_of};
use crate::written_policy::WrittenPolicy;
use byte_strings::Text;
use plain_words::plain;
use policy_core::Rule;
use std::alloc::{AllocError, Global};

/// The number and the name of a rule.
fn head(alloc: Global, number: usize, rule: &Rule) -> Result<Line, AllocError>
    ensures { IfOk result (λ line. line.cells.items ≡ decimal number ∷ rule.now.name ∷ []) }
{
    let mut cells = Vec::new(alloc);
    cells.push(Text::from(format!(in alloc; "{number}")?))?;
    cells.push(Text::new(alloc, rule.name.as_str())?)?;
    Ok(Line { cells })
}

/// The line of a rule.
fn rule_line(
    alloc: Global,
    number: usize,
    rule: &Rule,
    pattern: &str,
    directory: &Directory,
    is_timed: bool,
) -> Result<Line, AllocError>
    ensures { IfOk result (λ line. take 2 line.cells.items ≡ decimal number ∷ rule.now.name ∷ []) }
{
    let mut line = head(alloc, number, rule)?;
    line.cells
        .push(principals_text(alloc, rule.principals, directory)?)?;
    line.cells.push(acts_text(alloc, rule.acts)?)?;
    line.cells.push(plain(alloc, pattern)?)?;
    line.cells.push(streams_text(alloc, rule.low, rule.high)?)?;
    if is_timed {
        line.cells
            .push(moments_text(alloc, rule.from, rule.until)?)?;
    }
    line.cells.push(Text::new(alloc, word_of(rule.allow))?)?;
    Ok(line)
}

/// Whether one of the rules has bounds of the moments at which it stands.
fn are_timed(rules: &[Rule]) -> bool {
    for rule in rules {
        if rule.from.is_some() || rule.until.is_some() {
            return true;
        }
    }
    false
}

/// The lines of the rules, each rule once, in their order.
fn rule_lines(
    alloc: Global,
    source: &WrittenPolicy,
    directory: &Directory,
) -> Result<Vec<Line>, AllocError>
    ensures { IfOk result (λ lines. heads lines.items ≡ numbered 1 source.now.policy.rules) }
{
    let rules = source.rules();
    let is_timed = are_timed(rules);
    let mut lines = Vec::new(alloc);
    for at in 0..rules.len() {
        lines.push(rule_line(
            alloc,
            at + 1,
            &rules[at],
            source.text(at),
            directory,
            is_timed,
        )?)?;
    }
    Ok(lines)
}

/// The policy as a text: a line for each rule with its number, name, principal, acts, pattern, streams and word; then the
/// default. Where a rule has bounds of the moments at which it stands, each line has them after the streams.
pub fn show(
    alloc: Global,
    source: &WrittenPolicy,
    directory: &Directory,
) -> Result<String, AllocError> {
    let lines = rule_lines(alloc, source, directory)?;
    let mut text = in_columns(alloc, lines.as_slice())?;
    text.push_str("default ")?;
    text.push_str(word_of(source.policy().default_allows()))?;
    text.push_str("\n")?;
    Ok(text)
}

//! The rows of a table, in parts.

ghost use Rattle.policy_table.specs.Printed.{row_at, row_of};
ghost use Rattle.policy_table.specs.Rows.{entry_of, entry_rows, rows_of};
ghost use Rattle.std.specs.Prelude.{◌≡◌, ◌++◌, IfOk, map};

use crate::cells::{RuleCells, asker_cell, rule_cells};
use crate::scope::Asker;
use crate::steps::{Place, Step, step_at};
use crate::table::Table;
use byte_strings::Text;
use policy_core::Acts;
use policy_tools::{Directory, WrittenPolicy};
use std::alloc::{AllocError, Global};

/// Requests of an asker, and a rule that decides those of them whose channel its pattern covers, where that of no row above does
/// for the same requests.
#[derive(Debug, Drop)]
pub struct TableRow {
    /// Who asks.
    pub asker: Asker,
    /// Its name; `others` is everybody whom no rule names.
    pub principal: Text,
    /// What is asked.
    pub acts: Acts,
    /// The medium of the pattern; `*` for all.
    pub medium: &'static str,
    /// The pattern.
    pub pattern: Text,
    /// The lowest stream id.
    pub low: i32,
    /// The highest stream id.
    pub high: i32,
    /// The word of the rule.
    pub allow: bool,
    /// The place of the rule, counted from 0.
    pub place: usize,
}

/// The row of the rule at a place.
fn table_row(
    alloc: Global,
    source: &WrittenPolicy,
    step: &Step,
    place: usize,
    directory: &Directory,
) -> Result<TableRow, AllocError>
    ensures { IfOk result (λ row. row_of row ≡ row_at step.now place) }
{
    let principal = asker_cell(alloc, step.group.asker, directory)?;
    let RuleCells {
        medium,
        pattern,
        allow,
    } = match rule_cells(alloc, source, place)? {
        Some(cells) => cells,
        None => RuleCells::none(alloc)?,
    };
    Ok(TableRow {
        asker: step.group.asker,
        principal,
        acts: step.group.acts,
        medium,
        pattern,
        low: step.low,
        high: step.stretch.high,
        allow,
        place,
    })
}

/// Adds the rows of a part.
fn push_rows(
    alloc: Global,
    source: &WrittenPolicy,
    step: &Step,
    directory: &Directory,
    rows: &mut Vec<TableRow>,
) -> Result<(), AllocError>
    ensures { IfOk result (λ _. map row_of rows.new.items ≡ map row_of rows.old.items ++ entry_rows (entry_of step.now)) }
{
    for place in step.stretch.rules.as_slice() {
        rows.push(table_row(alloc, source, step, *place, directory)?)?;
    }
    Ok(())
}

impl Table {
    /// All rows at once.
    pub fn all_rows(
        &self,
        alloc: Global,
        directory: &Directory,
    ) -> Result<Vec<TableRow>, AllocError>
        ensures { IfOk result (λ rows. map row_of rows.items ≡ rows_of self.now.source.policy.rules self.now.groups.items) }
    {
        let mut rows = Vec::new(alloc);
        let mut place = Place::FIRST;
        while place.group < self.groups.len() {
            let step = step_at(alloc, self.source.rules(), self.groups.as_slice(), place)?;
            push_rows(alloc, &self.source, &step, directory, &mut rows)?;
            place = step.next;
        }
        Ok(rows)
    }
}

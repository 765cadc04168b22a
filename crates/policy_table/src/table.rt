//! A table, which is counted first and then printed page by page.

ghost use Rattle.policy_table.specs.Printed.{IsCounted, IsOfOne, IsPage, IsWhole};
ghost use Rattle.policy_table.specs.Rows.{AddsLine, AddsLines, all_groups, capped, entry_of, entry_rows, rows_of};
ghost use Rattle.policy_table.specs.Scope.{AddsNamed, is_named};
ghost use Rattle.policy_table.specs.Table.{askers_of};
ghost use Rattle.std.specs.Prelude.{◌≡◌, ◌⊎◌, ◌+◌, ◌<◌, ◌≤◌, ◌↔◌, [], false, IfOk, IsTrue, List, ℕ, length, true};
ghost use Rattle.std.specs.String.{string_bytes};

use crate::askers::push_named;
use crate::cells::{PartCells, Widths, front_of, rule_cells};
use crate::groups::{Group, push_groups};
use crate::scope::Asker;
use crate::steps::{Place, Step, step_at};
use byte_strings::Text;
use policy_core::Rule;
use policy_tools::{Directory, WrittenPolicy};
use std::alloc::{AllocError, Global};

/// So many bytes fill a page.
pub const FULL_PAGE: usize = 65_536;

/// The most rows that a table is printed with.
pub const MOST_ROWS: u64 = 1_000_000;

/// Who may do what under a policy: rows that are made as they are printed, so that their number takes no memory.
#[derive(Debug, Drop)]
pub struct Table {
    pub(crate) source: WrittenPolicy,
    pub(crate) groups: Vec<Group>,
    widths: Widths,
    rows: u64,
}

/// Rows of a table as lines, and the place after them.
#[derive(Debug, Drop)]
pub struct Page {
    /// Whole lines: a page is full, or the last one.
    pub text: Text,
    /// Where the next page begins.
    pub next: Place,
}

/// The sum, or the greatest number where it is beyond.
fn capped_sum(count: u64, more: usize) -> u64
    ensures { result ≡ capped (count + more) }
{
    let more = more as u64;
    if more > u64::MAX - count {
        u64::MAX
    } else {
        count + more
    }
}

/// How many rows groups have, and how wide their columns are.
#[derive(Clone, Copy, Debug)]
struct Measure {
    rows: u64,
    widths: Widths,
}

/// Measures the rows of groups.
fn measured(
    alloc: Global,
    source: &WrittenPolicy,
    groups: &[Group],
    directory: &Directory,
) -> Result<Measure, AllocError>
    ensures { IfOk result (λ measure. measure.rows ≡ capped (length (rows_of source.now.policy.rules groups.now))) }
{
    let rules = source.rules();
    let mut rows = 0;
    let mut widths = Widths::NONE;
    let mut place = Place::FIRST;
    while place.group < groups.len() {
        let step = step_at(alloc, rules, groups, place)?;
        let more = step.rows();
        rows = capped_sum(rows, more);
        if rows <= MOST_ROWS {
            widths = widths.with(alloc, source, &step, directory)?;
        }
        place = step.next;
    }
    Ok(Measure { rows, widths })
}

/// The groups of each principal that a rule names, and at last of all others.
fn groups_of_all(alloc: Global, rules: &[Rule]) -> Result<Vec<Group>, AllocError>
    ensures { IfOk result (λ groups. (named : List ℕ) × AddsNamed [] named (is_named rules.now) × (groups.items ≡ all_groups rules.now (askers_of named))) }
{
    let mut named = Vec::new(alloc);
    push_named(&mut named, rules)?;
    let mut groups = Vec::new(alloc);
    for at in 0..named.len() {
        push_groups(alloc, rules, Asker::One(named[at]), &mut groups)?;
    }
    push_groups(alloc, rules, Asker::Others, &mut groups)?;
    Ok(groups)
}

/// Adds the line of the rule at a place.
fn push_line(
    alloc: Global,
    source: &WrittenPolicy,
    cells: &PartCells,
    place: usize,
    widths: &Widths,
    text: &mut String,
) -> Result<(), AllocError>
    ensures { IfOk result (λ _. AddsLine place (string_bytes text.old) (string_bytes text.new)) }
{
    let front = match rule_cells(alloc, source, place)? {
        Some(rule) => front_of(alloc, cells, &rule, widths)?,
        None => String::new(alloc),
    };
    push_numbered(text, front.as_str(), place)
}

/// Adds a line that ends with the number of the rule at a place.
fn push_numbered(text: &mut String, front: &str, place: usize) -> Result<(), AllocError>
    ensures { IfOk result (λ _. AddsLine place (string_bytes text.old) (string_bytes text.new)) }
{
    let number = place as u128 + 1;
    writeln!(text, "{front}rule {number}")
}

/// Adds the lines of a part.
fn push_lines(
    alloc: Global,
    source: &WrittenPolicy,
    step: &Step,
    directory: &Directory,
    widths: &Widths,
    text: &mut String,
) -> Result<(), AllocError>
    ensures { IfOk result (λ _. AddsLines (entry_rows (entry_of step.now)) (string_bytes text.old) (string_bytes text.new)) }
{
    let cells = PartCells::of(alloc, step, directory)?;
    for place in step.stretch.rules.as_slice() {
        push_line(alloc, source, &cells, *place, widths, text)?;
    }
    Ok(())
}

impl Table {
    /// A table of these groups.
    fn of(
        alloc: Global,
        source: WrittenPolicy,
        groups: Vec<Group>,
        directory: &Directory,
    ) -> Result<Table, AllocError>
        ensures { IfOk result (λ table. IsCounted source groups.items table) }
    {
        let Measure { rows, widths } = measured(alloc, &source, groups.as_slice(), directory)?;
        Ok(Table {
            source,
            groups,
            widths,
            rows,
        })
    }

    /// Who may do what: the principals that a rule names, and at last all others.
    pub fn of_all(
        alloc: Global,
        source: WrittenPolicy,
        directory: &Directory,
    ) -> Result<Table, AllocError>
        ensures { IfOk result (λ table. IsWhole source table) }
    {
        let groups = groups_of_all(alloc, source.rules())?;
        let table = Table::of(alloc, source, groups, directory)?;
        Ok(table)
    }

    /// What one principal may do.
    pub fn of_one(
        alloc: Global,
        source: WrittenPolicy,
        directory: &Directory,
        principal: u32,
    ) -> Result<Table, AllocError>
        ensures { IfOk result (λ table. IsOfOne source principal table) }
    {
        let mut groups = Vec::new(alloc);
        push_groups(alloc, source.rules(), Asker::One(principal), &mut groups)?;
        let table = Table::of(alloc, source, groups, directory)?;
        Ok(table)
    }

    /// How many rows it has; the greatest number where there are more.
    pub fn rows(&self) -> u64
        ensures { result ≡ self.now.rows }
    {
        self.rows
    }

    /// Whether no row comes after a place.
    pub fn is_end(&self, place: Place) -> bool
        ensures { IsTrue result ↔ length self.now.groups.items ≤ place.group }
    {
        place.group >= self.groups.len()
    }

    /// Whether a page of so many bytes goes on at a place: it is not full, and rows are left.
    fn is_open(&self, place: Place, len: usize) -> bool
        ensures open { result ≡ true → place.group < length self.now.groups.items }
        ensures shut { result ≡ false → (65536 ≤ len) ⊎ (length self.now.groups.items ≤ place.group) }
    {
        len < FULL_PAGE && place.group < self.groups.len()
    }

    /// The rows from a place on as lines in columns, as many as fill a page. Principals are named by the directory by which
    /// the table was made.
    pub fn page(
        &self,
        alloc: Global,
        directory: &Directory,
        from: Place,
    ) -> Result<Page, AllocError>
        ensures { IfOk result (λ page. IsPage self.now from page) }
    {
        let mut text = String::new(alloc);
        let mut next = from;
        while self.is_open(next, text.as_str().len()) {
            let step = step_at(alloc, self.source.rules(), self.groups.as_slice(), next)?;
            push_lines(
                alloc,
                &self.source,
                &step,
                directory,
                &self.widths,
                &mut text,
            )?;
            next = step.next;
        }
        Ok(Page {
            text: Text::from(text),
            next,
        })
    }
}

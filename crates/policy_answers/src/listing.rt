//! The rules of a policy, and who may do what under it.

ghost use Rattle.policy_answers.specs.Answers.{list_well, table_well};
ghost use Rattle.policy_answers.specs.Fault.{Gives};
ghost use Rattle.policy_answers.specs.Tables.{GivesTable, IsOfOneNamed, policy_then};
ghost use Rattle.policy_answers.specs.declared.fault.AskFault.TheVariants as faults;
ghost use Rattle.policy_table.specs.Printed.{IsWhole};
ghost use Rattle.std.specs.Prelude.{◌≡◌, ◌<◌, ◌≤◌, IfErr, IfOk};

use crate::answer::Answer;
use crate::fault::{AskFault, RowCount};
use byte_strings::Text;
use policy_query::Document;
use policy_table::{MOST_ROWS, Table};
use policy_tools::{Directory, WrittenPolicy};
use std::alloc::{AllocError, Global};

/// The rules of the policy, a line each, and its default.
///
/// # Errors
/// The first fault of the policy.
pub fn show(alloc: Global, policy: &Document<'_>, directory: &Directory) -> Result<Answer, AskFault>
    ensures { Gives (λ answer. answer.is_well) result (list_well directory.now policy.now) }
{
    let source = WrittenPolicy::read(alloc, policy, directory.names())?;
    Ok(Answer::of(policy_tools::show(alloc, &source, directory)?))
}

/// The table, if it has no more rows than one is printed with.
fn short_enough(table: Table) -> Result<Table, AskFault>
    ensures short { IfOk result (λ same. (same ≡ table) × (table.rows ≤ 1000000)) }
    ensures long { IfErr result (λ fault. (fault ≡ faults.ManyRows (record { 0 = table.rows })) × (1000000 < table.rows)) }
{
    let rows = table.rows();
    if rows > MOST_ROWS {
        return Err(AskFault::ManyRows(RowCount(rows)));
    }
    Ok(table)
}

/// Who may do what under the policy at a moment: the principals that a rule names, and at last all others.
///
/// # Errors
/// The first fault of the policy, or that there are more than a million rows.
pub fn table_of_all(
    alloc: Global,
    policy: &Document<'_>,
    directory: &Directory,
    moment: u64,
) -> Result<Table, AskFault>
    ensures { GivesTable IsWhole result (list_well directory.now policy.now) (policy_then directory.now policy.now moment) }
{
    let mut source = WrittenPolicy::read(alloc, policy, directory.names())?;
    source.settle(moment);
    short_enough(Table::of_all(alloc, source, directory)?)
}

/// What the principal of this name may do under the policy at a moment.
///
/// # Errors
/// The first fault of the policy, that there is no such principal, or that there are more than a million rows.
pub fn table_of_one(
    alloc: Global,
    policy: &Document<'_>,
    directory: &Directory,
    principal: &str,
    moment: u64,
) -> Result<Table, AskFault>
    ensures { GivesTable (IsOfOneNamed directory.now principal.now) result (table_well directory.now policy.now principal.now) (policy_then directory.now policy.now moment) }
{
    let mut source = WrittenPolicy::read(alloc, policy, directory.names())?;
    source.settle(moment);
    let number = directory
        .number_of(principal)
        .ok_or(AskFault::UnknownPrincipal)?;
    short_enough(Table::of_one(alloc, source, directory, number)?)
}

/// How many rows were printed: `1 row`, `9 rows`.
pub fn rows_text(alloc: Global, rows: u64) -> Result<Text, AllocError> {
    if rows == 1 {
        return Text::new(alloc, "1 row\n");
    }
    Ok(Text::from(format!(in alloc; "{rows} rows\n")?))
}

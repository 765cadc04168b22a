//! What a look at counters gave, as records.

ghost use Rattle.driver_service.specs.Calls.{Writes};
ghost use Rattle.served_clients.specs.Telling.{TellsList, TellsRows, TellsValue, row_bytes};
ghost use Rattle.std.specs.List.{flat_map};
ghost use Rattle.std.specs.Prelude.{◌≡◌, ◌++◌, OnOk};

use crate::polling::{append, few};
use crate::refusing::{denied, reason_of_look};
use driver_core::{Listed, ListedCounter, Shown};
use driver_service::{Reason, Refusal};
use media_driver::LookFault;
use service_records::Answer;
use std::alloc::{AllocError, Global};

fn put_row(row: &ListedCounter, out: &mut Vec<u8>) -> Result<(), AllocError>
    ensures { OnOk result (out.new.items ≡ out.old.items ++ row_bytes row.now) }
{
    let fields = Answer::Row {
        number: row.number,
        type_id: row.type_id,
        value: row.value,
    };
    fields.put(row.label.as_str().as_bytes(), out)
}

/// Appends the record of each counter.
fn put_rows(rows: &[ListedCounter], out: &mut Vec<u8>) -> Result<(), AllocError>
    ensures { OnOk result (out.new.items ≡ out.old.items ++ flat_map row_bytes rows.now) }
{
    for row in rows {
        put_row(row, out)?;
    }
    Ok(())
}

/// Appends the records of all counters, or nothing where there is no memory for them.
fn tell_rows(
    rows: &[ListedCounter],
    scratch: &mut Vec<u8>,
    out: &mut Vec<u8>,
) -> Result<u32, Refusal>
    ensures { Writes out.old.items out.new.items (λ bytes. TellsRows row_bytes rows.now bytes result) }
{
    scratch.clear();
    if put_rows(rows, scratch).is_err() {
        return Err(Refusal::Because(Reason::NoMemory));
    }
    append(scratch.as_slice(), out)?;
    Ok(few(rows.len()))
}

/// Tells which counters a client may see: how many, and their records stand at the end of `out` then.
pub(crate) fn tell_list(
    gave: &Result<Listed, LookFault>,
    scratch: &mut Vec<u8>,
    out: &mut Vec<u8>,
) -> Result<u32, Refusal>
    ensures { Writes out.old.items out.new.items (λ bytes. TellsList gave.now bytes result) }
{
    match gave {
        Ok(Listed::Counters(rows)) => tell_rows(rows.as_slice(), scratch, out),
        Ok(Listed::WrongClient) => Err(Refusal::Because(Reason::WrongClient)),
        Err(fault) => Err(Refusal::Because(reason_of_look(*fault))),
    }
}

/// Tells what a client is shown of a counter.
pub(crate) fn tell_value(alloc: Global, gave: &Result<Shown, LookFault>) -> Result<i64, Refusal>
    ensures { TellsValue gave.now result }
{
    match gave {
        Ok(Shown::Value(value)) => Ok(*value),
        Ok(Shown::Denied(decision)) => Err(denied(alloc, &decision.verdict)),
        Ok(Shown::UnknownCounter) => Err(Refusal::Because(Reason::UnknownCounter)),
        Ok(Shown::WrongClient) => Err(Refusal::Because(Reason::WrongClient)),
        Err(fault) => Err(Refusal::Because(reason_of_look(*fault))),
    }
}

//! What a poll gave, as records.

ghost use Rattle.driver_service.specs.Calls.{Writes};
ghost use Rattle.driver_service.specs.declared.reason.Reason.TheVariants.{NoMemory};
ghost use Rattle.driver_service.specs.declared.reason.Refusal.TheVariants.{Because};
ghost use Rattle.log_pairs.specs.Polling.{fetched_of};
ghost use Rattle.served_clients.specs.Telling.{PollRefusal, TellsPoll, TellsRows, fragment_bytes};
ghost use Rattle.std.specs.List.{flat_map};
ghost use Rattle.std.specs.Prelude.{◌≡◌, ◌++◌, ◌-◌, ◌^◌, min, IfErr, OnOk};

use crate::refusing::denied;
use driver_service::{Reason, Refusal};
use log_steps::{Fragment, FragmentCopies};
use media_driver::PollFault;
use service_records::Answer;
use std::alloc::{AllocError, Global};

fn put_fragment(fragment: &Fragment<'_>, out: &mut Vec<u8>) -> Result<(), AllocError>
    ensures { OnOk result (out.new.items ≡ out.old.items ++ fragment_bytes (fetched_of fragment.now)) }
{
    let fields = Answer::Fragment {
        position: fragment.position,
        flags: u32::from(fragment.flags.bits),
    };
    fields.put(fragment.payload, out)
}

/// Appends the record of each fragment.
fn put_fragments(fragments: &FragmentCopies, out: &mut Vec<u8>) -> Result<(), AllocError>
    ensures { OnOk result (out.new.items ≡ out.old.items ++ flat_map fragment_bytes fragments.now) }
{
    for fragment in fragments.iter() {
        put_fragment(&fragment, out)?;
    }
    Ok(())
}

/// So many, at most the greatest number of 32 bits.
pub(crate) fn few(count: usize) -> u32
    ensures { result ≡ min count (2 ^ 32 - 1) }
{
    count.min(u32::MAX as usize) as u32
}

/// Appends bytes, or nothing where there is no memory for them.
pub(crate) fn append(bytes: &[u8], out: &mut Vec<u8>) -> Result<(), Refusal>
    ensures ok { OnOk result (out.new.items ≡ out.old.items ++ bytes.now) }
    ensures err { IfErr result (λ refusal. (refusal ≡ Because NoMemory) × (out.new.items ≡ out.old.items)) }
{
    match out.extend_from_slice(bytes) {
        Ok(()) => Ok(()),
        Err(_) => Err(Refusal::Because(Reason::NoMemory)),
    }
}

/// Appends the records of all fragments, or nothing where there is no memory for them.
fn tell_fragments(
    fragments: &FragmentCopies,
    scratch: &mut Vec<u8>,
    out: &mut Vec<u8>,
) -> Result<u32, Refusal>
    ensures { Writes out.old.items out.new.items (λ bytes. TellsRows fragment_bytes fragments.now bytes result) }
{
    scratch.clear();
    if put_fragments(fragments, scratch).is_err() {
        return Err(Refusal::Because(Reason::NoMemory));
    }
    append(scratch.as_slice(), out)?;
    Ok(few(fragments.len()))
}

/// Why a poll gave nothing.
fn refusal_of(alloc: Global, fault: PollFault) -> Refusal
    ensures { PollRefusal fault result }
{
    match fault {
        PollFault::Denied(verdict) => denied(alloc, &verdict),
        PollFault::Gone => Refusal::Because(Reason::Closed),
        PollFault::NoLook => Refusal::Because(Reason::NoLook),
        PollFault::NoMemory => Refusal::Because(Reason::NoMemory),
    }
}

/// Tells what a poll gave: how many fragments, whose records stand at the end of `out` then.
pub(crate) fn tell_poll(
    alloc: Global,
    gave: Result<FragmentCopies, PollFault>,
    scratch: &mut Vec<u8>,
    out: &mut Vec<u8>,
) -> Result<u32, Refusal>
    ensures { Writes out.old.items out.new.items (λ bytes. TellsPoll gave bytes result) }
{
    match gave {
        Ok(fragments) => tell_fragments(&fragments, scratch, out),
        Err(fault) => Err(refusal_of(alloc, fault)),
    }
}

//! Why a call of a client is refused, as the connection is told.

ghost use Rattle.served_clients.specs.Telling.{IsDenial, OfferRefusal, TellsOffer, look_reason, push_reason};
ghost use Rattle.std.specs.Prelude.{◌≡◌};

use driver_service::{Reason, Refusal};
use media_driver::{LookFault, OfferFault, PushFault};
use policy_core::Verdict;
use std::alloc::Global;

/// A denial in the words of its verdict, where there is memory for them.
pub(crate) fn denied(alloc: Global, verdict: &Verdict) -> Refusal
    ensures { IsDenial verdict.now result }
{
    match verdict.text(alloc) {
        Ok(text) => Refusal::Denied(text),
        Err(_) => Refusal::Because(Reason::NoMemory),
    }
}

pub(crate) fn reason_of_push(fault: PushFault) -> Reason
    ensures { result ≡ push_reason fault }
{
    match fault {
        PushFault::QueueFull => Reason::QueueFull,
        PushFault::NoMemory => Reason::NoMemory,
    }
}

pub(crate) fn reason_of_look(fault: LookFault) -> Reason
    ensures { result ≡ look_reason fault }
{
    match fault {
        LookFault::NoLook => Reason::NoLook,
        LookFault::NoMemory => Reason::NoMemory,
    }
}

/// Why an offer was not taken.
fn refusal_of(alloc: Global, fault: OfferFault) -> Refusal
    ensures { OfferRefusal fault result }
{
    match fault {
        OfferFault::Denied(verdict) => denied(alloc, &verdict),
        OfferFault::Closed => Refusal::Because(Reason::Closed),
        OfferFault::TooLong => Refusal::Because(Reason::TooLong),
        OfferFault::NotConnected => Refusal::Because(Reason::NotConnected),
        OfferFault::MaxPosition => Refusal::Because(Reason::MaxPosition),
        OfferFault::BackPressured => Refusal::Because(Reason::BackPressured),
        OfferFault::AdminAction => Refusal::Because(Reason::AdminAction),
        OfferFault::NoLook => Refusal::Because(Reason::NoLook),
    }
}

/// What an offer gave, as the connection is told.
pub(crate) fn tell_offer(alloc: Global, gave: Result<u64, OfferFault>) -> Result<u64, Refusal>
    ensures { TellsOffer gave result }
{
    match gave {
        Ok(position) => Ok(position),
        Err(fault) => Err(refusal_of(alloc, fault)),
    }
}

//! The datagrams of a step's answer go over the wire, once no lock is held.

ghost use Rattle.media_agents.specs.Acts.{GoesOn, Trail};
ghost use Rattle.media_agents.specs.Traffic.{AreTried, IsTried, letters_of, letters_out, letters_to};
ghost use Rattle.media_wire.specs.Letters.{letter};
ghost use Rattle.std.specs.Prelude.{◌∷◌, []};

use crate::stepping::Stepping;
use byte_strings::Bytes;
use channel_uri::Address;
use driver_core::Outlet;
use drop_tallies::Miss;
use log_steps::Answer;
use media_wire::Wire;
use std::sync::Wait;

/// Sends a datagram. Where that fails the datagram is lost, and counted.
pub(crate) fn send<R: Wait, S: Stepping, W: Wire>(
    rt: &R,
    steps: &mut S,
    wire: &mut W,
    local: &Address,
    to: &Address,
    bytes: &[u8],
)
    ensures { GoesOn (IsTried (letter local.now to.now bytes.now)) (Trail (S.did steps.old) (W.went wire.old)) (Trail (S.did steps.new) (W.went wire.new)) }
{
    if wire.send(local, to, bytes).is_err() {
        steps.note(rt, Miss::Unsent, to);
    }
}

/// Sends the datagram to a destination, if it may go there.
fn send_if<R: Wait, S: Stepping, W: Wire>(
    rt: &R,
    steps: &mut S,
    wire: &mut W,
    local: &Address,
    bytes: &[u8],
    outlet: &Outlet,
)
    ensures { GoesOn (AreTried (letters_out local.now bytes.now (outlet.now ∷ []))) (Trail (S.did steps.old) (W.went wire.old)) (Trail (S.did steps.new) (W.went wire.new)) }
{
    if !outlet.decision.verdict.allow {
        return;
    }
    send(rt, steps, wire, local, &outlet.to, bytes);
}

/// Sends the datagram to each destination that it may go to, in their order.
fn send_out<R: Wait, S: Stepping, W: Wire>(
    rt: &R,
    steps: &mut S,
    wire: &mut W,
    local: &Address,
    bytes: &[u8],
    outlets: &[Outlet],
)
    ensures { GoesOn (AreTried (letters_out local.now bytes.now outlets.now)) (Trail (S.did steps.old) (W.went wire.old)) (Trail (S.did steps.new) (W.went wire.new)) }
{
    for outlet in outlets {
        send_if(rt, steps, wire, local, bytes, outlet);
    }
}

/// Sends the datagrams to one address, in their order.
fn send_all<R: Wait, S: Stepping, W: Wire>(
    rt: &R,
    steps: &mut S,
    wire: &mut W,
    local: &Address,
    to: &Address,
    datagrams: &[Bytes],
)
    ensures { GoesOn (AreTried (letters_to local.now to.now datagrams.now)) (Trail (S.did steps.old) (W.went wire.old)) (Trail (S.did steps.new) (W.went wire.new)) }
{
    for datagram in datagrams {
        send(rt, steps, wire, local, to, datagram.as_slice());
    }
}

/// Sends the datagrams of a step's answer, from the address `local`. One whose send fails is lost, and counted.
pub(crate) fn tell<R: Wait, S: Stepping, W: Wire>(
    rt: &R,
    steps: &mut S,
    wire: &mut W,
    local: &Address,
    answer: &Answer,
)
    ensures { GoesOn (AreTried (letters_of local.now answer.now)) (Trail (S.did steps.old) (W.went wire.old)) (Trail (S.did steps.new) (W.went wire.new)) }
{
    match answer {
        Answer::Sent { bytes, outlets } => {
            send_out(rt, steps, wire, local, bytes.as_slice(), outlets.as_slice());
        }
        Answer::Resent { to, datagrams } => {
            send_all(rt, steps, wire, local, to, datagrams.as_slice());
        }
        Answer::Reported { to, datagrams } => {
            send_all(rt, steps, wire, local, to, datagrams.as_slice());
        }
        _ => {}
    }
}

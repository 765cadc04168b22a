// What a driver is made of, before it starts.
ghost use Rattle.driver_core.specs.Soundness.{AreSettings, IsSound};
ghost use Rattle.published_registry.specs.Histories.{registry_of};
ghost use Rattle.std.specs.Prelude.{◌≡◌, IfOk, IfSome};

use driver_core::{Address, Peer, Registry, Settings};
use log_arena::Arena;
use policy_core::Policy;
use published_registry::{Pass, Publisher, make};
use std::alloc::{AllocError, Global};
use std::sync::Wait;
use std::sync::ledger::Blank;

// What of it may be let go.
#[derive(Drop)]
pub struct Pieces {
    pub arena: Arena,
    pub passes: Vec<Pass>,
    // The ledger of messages, before it is opened: a part for each of three slots, and one more.
    pub messages: Blank,
    // From where datagrams are sent.
    pub local: Address,
}

// It can't be let go, since its publisher can't.
pub struct Parts {
    pub publisher: Publisher,
    pub pieces: Pieces,
}

// The one address to which a principal is bound: the first.
pub const MEMBER: Address = Address {
    octets: [127, 0, 0, 1],
    port: 50_001,
};

const PEER: Peer = Peer {
    address: MEMBER,
    principal: 1,
};

// A registry before its first event, under a policy that allows all.
fn opened_with(alloc: Global, settings: Settings, peers: &[Peer]) -> Result<Registry, AllocError>
    requires { AreSettings settings }
    ensures { IfOk result (λ registry. IsSound registry) }
{
    let policy = Policy::new(Vec::new(alloc), true)?;
    let registry = Registry::new(alloc, settings, policy, peers)?;
    Ok(registry)
}

// The same, with one principal that is bound to an address.
fn opened(alloc: Global, settings: Settings) -> Result<Registry, AllocError>
    requires { AreSettings settings }
    ensures { IfOk result (λ registry. IsSound registry) }
{
    opened_with(alloc, settings, &[PEER])
}

// The registry, shown to three passes.
#[tactic(auto, using(crate::proofs::PartLemmas::begins_sound))]
fn shown<R: Wait>(rt: &R, alloc: Global, registry: Registry) -> Option<(Publisher, Vec<Pass>)>
    requires { IsSound registry }
    ensures { IfSome result (λ made. IsSound (registry_of made.0)) }
{
    match make(rt, alloc, registry, 3) {
        Ok((publisher, passes)) => Some((publisher, passes)),
        Err(_) => None,
    }
}

// A registry, shown to three passes.
fn published<R: Wait>(rt: &R, alloc: Global, settings: Settings) -> Option<(Publisher, Vec<Pass>)>
    requires { AreSettings settings }
    ensures { IfSome result (λ made. IsSound (registry_of made.0)) }
{
    match opened(alloc, settings) {
        Ok(registry) => shown(rt, alloc, registry),
        Err(_) => None,
    }
}

impl Parts {
    // The parts of a driver with such settings; `None` where there is no memory.
    pub fn make<R: Wait>(rt: &R, alloc: Global, settings: Settings) -> Option<Parts>
        requires { AreSettings settings }
        ensures sound { IfSome result (λ parts. IsSound (registry_of parts.publisher)) }
        ensures four { IfSome result (λ parts. parts.pieces.messages.parts ≡ 4) }
    {
        let arena = Arena::new(alloc, settings.arena_pages as usize).ok()?;
        let (publisher, passes) = published(rt, alloc, settings)?;
        Some(Parts {
            publisher,
            pieces: Pieces {
                arena,
                passes,
                messages: Blank::new(4),
                local: settings.send_address,
            },
        })
    }
}

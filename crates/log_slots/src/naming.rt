ghost use Rattle.log_arena.specs.Homes.{Home};
ghost use Rattle.std.specs.Prelude.{ℕ};
ghost use denote.RawPtr.{null_ptr};

use std::marker::{Brand, PhantomData};
use std::sync::ledger::Ledger;

/// Names the parts of one driver, so that what belongs to another one has another type: this one parameter says which region
/// its logs lie in, which ledger counts their messages, and which its clients.
pub trait Naming {
    /// The region of memory in which its logs lie.
    ghost home: { Home };

    /// The ledger of the messages that its logs took: which it is, and into how many parts it is cut.
    ghost ledger: { ℕ };

    ghost parts: { ℕ };

    /// The ledger of its clients.
    ghost client_ledger: { ℕ };

    ghost client_parts: { ℕ };
}

/// The ledger in which each slot and each client has a share. No value of it is made.
pub struct OfMessages<N: Naming> {
    of: PhantomData<N>,
}

impl<N: Naming> Ledger for OfMessages<N> {
    ghost name = { N.ledger };

    ghost parts = { N.parts };
}

/// The ledger in which each client has a part, and nothing else: so many as have one are out. No value of it is made.
pub struct OfClients<N: Naming> {
    of: PhantomData<N>,
}

impl<N: Naming> Ledger for OfClients<N> {
    ghost name = { N.client_ledger };

    ghost parts = { N.client_parts };
}

/// Whoever makes the parts of a driver picks here what they are, where a function over `N` is called.
impl Naming for Brand {
    ghost home = { record { base = null_ptr; pages = 0 } };

    ghost ledger = { 0 };

    ghost parts = { 0 };

    ghost client_ledger = { 0 };

    ghost client_parts = { 0 };
}

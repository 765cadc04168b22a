//! Which datagrams may go on.

ghost use Rattle.guarded_wire.specs.Guards.{Judged, Spends, none_spent};
ghost use Rattle.guarded_wire.specs.Origins.{place_of};
ghost use Rattle.std.specs.Prelude.{◌≡◌, ◌<◌, IfOk, IfSome, length, replicate};

use crate::cause::Cause;
use crate::kind::Kind;
use crate::origin::{Origin, place_of};
use crate::spent::Spent;
use channel_uri::Address;
use std::alloc::{AllocError, Global};
use std::marker::Model;
use std::time::Clock;

/// Whether anything is dropped, from where datagrams may come, for how many bytes a NAK may ask, how many NAKs and status
/// messages of one address may come in 60 milliseconds, and how many did.
#[derive(Drop)]
pub struct Guard {
    drops: bool,
    origins: Vec<Origin>,
    window: u32,
    budget: u64,
    spent: Vec<Spent>,
}

impl Model for Guard {
    ghost use Rattle.guarded_wire.specs.Guards.{Watch};
    ghost use Rattle.std.specs.Prelude.{◌≡◌, vec_len};

    ghost Value = { Watch };

    ghost view = { λ guard. record { rules = record { drops = guard.drops; origins = guard.origins.items; window = guard.window; budget = guard.budget }; spent = guard.spent.items } };

    ghost invariant = { λ guard. vec_len guard.spent ≡ vec_len guard.origins };
}

/// What the clock stands at, in nanoseconds; 0 where it can't be read.
fn moment<C: Clock>(clock: &C) -> u64 {
    match clock.monotonic() {
        Ok(since) => since.as_nanos().min(u64::MAX as u128) as u64,
        Err(_) => 0,
    }
}

impl Guard {
    /// One that drops what comes from elsewhere, or nothing.
    pub fn new(
        alloc: Global,
        drops: bool,
        origins: Vec<Origin>,
        window: u32,
        budget: u64,
    ) -> Result<Guard, AllocError>
        ensures { IfOk result (λ guard. guard ≡ record {
          rules = record { drops = drops; origins = origins.items; window = window; budget = budget };
          spent = replicate (length origins.items) none_spent;
        }) }
    {
        let none = Spent { since: 0, asked: 0 };
        let spent = vec![in alloc; none; origins.len()]?;
        Ok(Guard {
            drops,
            origins,
            window,
            budget,
            spent,
        })
    }

    fn drops(&self) -> bool
        ensures { result ≡ self.now.rules.drops }
    {
        self.drops
    }

    fn window(&self) -> u32
        ensures { result ≡ self.now.rules.window }
    {
        self.window
    }

    /// Where an address stands.
    fn place_of(&self, from: &Address) -> Option<usize>
        ensures within { IfSome result (λ place. place < length self.now.spent) }
        ensures place { result ≡ place_of from.now self.now.rules.origins }
    {
        place_of(from, self.origins.as_slice())
    }

    /// Who is bound at a place asks for something. Whether they may.
    fn ask<C: Clock>(&mut self, clock: &C, place: usize) -> bool
        requires { place < length self.old.spent }
        ensures { Spends self.old place result self.new }
    {
        let now = moment(clock);
        self.spent[place].ask(now, self.budget)
    }

    /// Why a datagram that came is dropped, if it is.
    pub(crate) fn judge<C: Clock>(
        &mut self,
        clock: &C,
        from: &Address,
        bytes: &[u8],
    ) -> Option<Cause>
        ensures { Judged self.old from.now bytes.now result self.new }
    {
        if !self.drops() {
            return None;
        }
        let kind = Kind::of(bytes);
        let Some(place) = self.place_of(from) else {
            return Some(Cause::Stranger(kind));
        };
        if !kind.is_ask() {
            return None;
        }
        if kind.asks_too_much(self.window(), bytes) {
            return Some(Cause::TooMuch);
        }
        if self.ask(clock, place) {
            return None;
        }
        Some(Cause::TooOften(kind))
    }
}

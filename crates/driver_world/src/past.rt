//! The registries that a run went through.

ghost use Rattle.driver_core.specs.Conduct.{state_after};
ghost use Rattle.driver_world.specs.Past.{IsAt, IsShown};
ghost use Rattle.driver_world.specs.Views.{newest_of};
ghost use Rattle.std.specs.Prelude.{◌≡◌, ◌<◌, ◌≤◌, ◌++◌, [], ◌∷◌, length, IfOk, IfSome, OnOk};

use crate::actor::Actor;
use crate::kept::Kept;
use driver_core::{Inputs, Registry};
use std::alloc::{AllocError, Global};
use std::marker::Model;

/// The opened registry, and the events that were taken, each with what the logs said at it: a registry between is made of
/// these again. For each actor that looks at an older one, the one that it looked at is kept, and goes on with it.
#[derive(Drop)]
pub(crate) struct Registries {
    opened: Registry,
    taken: Vec<(Kept, Inputs)>,
    /// By actors, each once; none is kept of one that looks at the newest.
    shown: Vec<(Actor, Option<Shown>)>,
}

impl Model for Registries {
    ghost use Rattle.driver_world.specs.Past.{AreShown};
    ghost use Rattle.driver_world.specs.Views.{HeldPast};
    ghost use Rattle.std.specs.Vec.{vec_capacity};

    ghost Value = { HeldPast };

    ghost view = { λ held. record {
      past = record { opened = held.opened; taken = held.taken.items };
      room = vec_capacity held.taken;
    } };

    ghost invariant = { λ held. AreShown (record { opened = held.opened; taken = held.taken.items }) held.shown.items };
}

/// A registry of a run, with its number. A registry is large, and a step hands on what it looks at, so it lies apart.
#[derive(Drop)]
pub(crate) struct Shown {
    pub(crate) number: u64,
    pub(crate) registry: Box<Registry>,
}

/// Takes an event again that was kept.
fn retake(
    registry: &mut Registry,
    alloc: Global,
    kept: &Kept,
    inputs: &Inputs,
) -> Result<(), AllocError>
    ensures { OnOk result (registry.new ≡ state_after registry.old kept.now inputs.now) }
{
    let event = kept.event(alloc)?;
    let taken = registry.step(alloc, &event, inputs);
    drop(event);
    drop(taken?);
    Ok(())
}

/// Where what is kept for the actor is in the list.
fn place_of(shown: &[(Actor, Option<Shown>)], actor: Actor) -> Option<usize>
    ensures { IfSome result (λ at. at < length shown.now) }
{
    shown.iter().position(|one| one.0 == actor)
}

impl Registries {
    /// No event was taken yet.
    pub(crate) fn new(alloc: Global, opened: Registry) -> Registries
        ensures { result.past ≡ record { opened = opened; taken = [] } }
    {
        Registries {
            opened,
            taken: Vec::new(alloc),
            shown: Vec::new(alloc),
        }
    }

    /// Takes the memory for a further event.
    pub(crate) fn make_room(&mut self) -> Result<(), AllocError>
        ensures same { self.new.past ≡ self.old.past }
        ensures room { OnOk result (length self.new.past.taken < self.new.room) }
    {
        self.taken.reserve(1)
    }

    /// An event was taken.
    pub(crate) fn push(&mut self, event: Kept, inputs: Inputs)
        requires { length self.old.past.taken < self.old.room }
        ensures { self.new.past ≡ record self.old.past { taken = self.old.past.taken ++ (event, inputs) ∷ [] } }
    {
        self.taken.push_reserved((event, inputs));
    }

    /// The number of the newest registry.
    pub(crate) fn newest(&self) -> u64
        ensures { result ≡ newest_of self.now.past }
    {
        self.taken.len() as u64
    }

    /// What is kept for the actor, which is taken out.
    fn take_kept(&mut self, actor: Actor) -> Option<Shown>
        ensures same { self.new ≡ self.old }
        ensures kept { IsShown self.old.past result }
    {
        match place_of(self.shown.as_slice(), actor) {
            Some(at) => self.shown[at].1.take(),
            None => None,
        }
    }

    /// The opened registry.
    fn opening(&self, alloc: Global) -> Result<Shown, AllocError>
        ensures { IfOk result (λ shown. IsAt self.now.past shown × (shown.number ≡ 0)) }
    {
        Ok(Shown {
            number: 0,
            registry: Box::new(alloc, self.opened.copy(alloc)?)?,
        })
    }

    /// The registry of number k, made of that one.
    fn go_on(&self, alloc: Global, shown: Shown, k: u64) -> Result<Shown, AllocError>
        requires at { IsAt self.now.past shown }
        requires before { shown.number ≤ k }
        requires within { k ≤ newest_of self.now.past }
        ensures { IfOk result (λ shown. IsAt self.now.past shown × (shown.number ≡ k)) }
    {
        let mut shown = shown;
        while shown.number < k {
            let one = &self.taken[shown.number as usize];
            match retake(&mut shown.registry, alloc, &one.0, &one.1) {
                Ok(()) => shown.number += 1,
                Err(error) => {
                    drop(shown);
                    return Err(error);
                }
            }
        }
        Ok(shown)
    }

    /// The one that is kept, where that is none past number k; else the opened one.
    fn start(&self, alloc: Global, kept: Option<Shown>, k: u64) -> Result<Shown, AllocError>
        requires { IsShown self.now.past kept }
        ensures { IfOk result (λ shown. IsAt self.now.past shown × shown.number ≤ k) }
    {
        match kept {
            Some(shown) => {
                if k < shown.number {
                    drop(shown);
                    return self.opening(alloc);
                }
                Ok(shown)
            }
            None => self.opening(alloc),
        }
    }

    /// The registry of that number, for the actor: the one that is kept for it goes on, or it is made anew.
    ///
    /// # Errors
    /// Where there is no memory for it.
    pub(crate) fn show(&mut self, alloc: Global, actor: Actor, k: u64) -> Result<Shown, AllocError>
        requires { k ≤ newest_of self.old.past }
        ensures same { self.new ≡ self.old }
        ensures there { IfOk result (λ shown. IsAt self.old.past shown × (shown.number ≡ k)) }
    {
        let kept = self.take_kept(actor);
        let start = self.start(alloc, kept, k)?;
        self.go_on(alloc, start, k)
    }

    /// The actor looked at that registry, which is kept for it, or at the newest. Where there is no memory it is not kept, and
    /// is made anew the next time.
    #[inline(always)]
    pub(crate) fn keep(&mut self, actor: Actor, shown: Option<Shown>)
        requires { IsShown self.old.past shown }
        ensures { self.new ≡ self.old }
    {
        match place_of(self.shown.as_slice(), actor) {
            Some(at) => self.shown[at].1 = shown,
            None => match self.shown.reserve(1) {
                Ok(()) => self.shown.push_reserved((actor, shown)),
                Err(_) => drop(shown),
            },
        }
    }
}

//! Two worlds, of which the second is given what the first sent.

ghost use Rattle.driver_world.specs.Views.{newest_of};
ghost use Rattle.std.specs.Prelude.{◌≡◌, ◌++◌, [], List, length, IfOk, OnErr};
ghost use Rattle.two_drivers.specs.Drivers.{is_quiet};
ghost use Rattle.two_drivers.specs.Sent.{Datagram};
ghost use Rattle.two_drivers.specs.Standing.{AnswerBoth, RunBoth, ServesBoth, held_both};
ghost use Rattle.two_drivers.specs.Worlds.{sent_of, sent_of_all};
ghost use Rattle.two_drivers.specs.declared.pair_step.PairStep.TheVariants.{Deliver, B};

use crate::pair_step::PairStep;
use crate::sent::find_sent;
use byte_strings::Items;
use driver_core::Event;
use driver_world::{Answer, Reading, Step, World};
use std::alloc::{AllocError, Global};
use std::marker::Model;

/// Two worlds, of which the second is given datagrams that the first sent: each of them any number of times, in any order.
///
/// Contracts see both worlds, and that nothing was sent yet.
#[derive(Drop)]
pub struct TwoWorlds {
    first: World,
    second: World,
}

impl Model for TwoWorlds {
    ghost use Rattle.std.specs.Prelude.{[]};
    ghost use Rattle.two_drivers.specs.Standing.{HeldBoth, held_both};

    ghost Value = { HeldBoth };

    ghost view = { λ both. held_both both.first both.second [] };
}

/// Whether nothing comes by the step: no datagram, and no SETUP as an event.
fn is_quiet(step: &Step) -> bool
    ensures { result ≡ is_quiet step.now }
{
    match step {
        Step::Packet { .. } => false,
        Step::Conductor(Event::Setup { .. }) => false,
        _ => true,
    }
}

/// The second takes a step, if nothing comes by it. Nothing is sent by it.
fn second_takes(first: &World, second: &mut World, alloc: Global, reading: &Reading) -> Answer
    ensures { (sent : List Datagram) → ServesBoth (held_both first.now second.old sent) (held_both first.now second.new sent) (B reading.now) result }
{
    if !is_quiet(&reading.step) {
        return Answer::BadStep;
    }
    second.step(alloc, reading)
}

/// The datagram of that number, if there is one, comes to the second.
fn deliver(
    first: &World,
    second: &mut World,
    alloc: Global,
    steps: &[PairStep],
    answers: &[Answer],
    sent: u64,
    now: u64,
    view: Option<u64>,
) -> Answer
    requires { length steps.now ≡ length answers.now }
    ensures { ServesBoth (held_both first.now second.old (sent_of_all steps.now answers.now)) (held_both first.now second.new (sent_of_all steps.now answers.now)) (Deliver sent now view) result }
{
    let from = first.settings().send_address;
    match find_sent(steps, answers, sent) {
        Some(datagram) => second.packet(alloc, view, now, &datagram.to, &from, datagram.bytes),
        None => Answer::BadStep,
    }
}

/// Takes one step, after steps with these answers.
fn step_both(
    first: &mut World,
    second: &mut World,
    alloc: Global,
    steps: &[PairStep],
    answers: &[Answer],
    step: &PairStep,
) -> Answer
    requires { length steps.now ≡ length answers.now }
    ensures { ServesBoth (held_both first.old second.old (sent_of_all steps.now answers.now)) (held_both first.new second.new (sent_of_all steps.now answers.now ++ sent_of step.now result)) step.now result }
{
    match step {
        PairStep::A(reading) => first.step(alloc, reading),
        PairStep::B(reading) => second_takes(first, second, alloc, reading),
        PairStep::Deliver { sent, now, view } => {
            deliver(first, second, alloc, steps, answers, *sent, *now, *view)
        }
    }
}

/// Takes the steps in their order, and gives the answer of each.
///
/// # Errors
/// Where there is no memory for the list of answers, no step is taken.
fn run_both(
    first: &mut World,
    second: &mut World,
    alloc: Global,
    steps: &[PairStep],
) -> Result<Items<Answer>, AllocError>
    ensures ok { IfOk result (λ answers. RunBoth (held_both first.old second.old []) (held_both first.new second.new (sent_of_all steps.now answers)) steps.now answers) }
    ensures err { OnErr result ((first.new ≡ first.old) × (second.new ≡ second.old)) }
{
    let mut answers = Vec::with_capacity(alloc, steps.len())?;
    for step in steps {
        let done = answers.as_slice();
        let answer = step_both(first, second, alloc, &steps[..done.len()], done, step);
        match answers.push(answer) {
            Ok(()) => {}
            Err(_) => unreachable!(),
        }
    }
    Ok(Items::from(answers))
}

impl TwoWorlds {
    /// Two worlds, in neither of which the conductor took an event yet.
    pub fn new(first: World, second: World) -> TwoWorlds
        requires first { newest_of first.past ≡ 0 }
        requires second { newest_of second.past ≡ 0 }
        ensures { result ≡ held_both first second [] }
    {
        TwoWorlds { first, second }
    }

    /// Takes the steps in their order, which ends both worlds, and gives the answer of each: of a step of the first what the
    /// first answers, of a step of the second what the second does, and of a delivery what the second answers to that
    /// datagram, at the address that it was sent to, from the address that the first sends from. A step of the second by which
    /// something comes, and a delivery of a datagram that was not sent, are answered [`Answer::BadStep`], and change nothing.
    ///
    /// A datagram counts as sent to each destination where the policy let it go, and as often as it is sent again. A delivery
    /// copies no bytes: it walks over the answers so far.
    ///
    /// # Errors
    /// Where there is no memory for the list of answers, no step is taken.
    pub fn run(self, alloc: Global, steps: &[PairStep]) -> Result<Items<Answer>, AllocError>
        ensures { IfOk result (λ answers. AnswerBoth self steps.now answers) }
    {
        let TwoWorlds {
            mut first,
            mut second,
        } = self;
        let answers = run_both(&mut first, &mut second, alloc, steps);
        drop(first);
        drop(second);
        answers
    }
}

//! A driver with logs: runs of it, and the pages that no log has. What is large is let go by a call, which costs the proof
//! less than the end of a scope.

use crate::deeds::{Deed, PUBLISH_ALONE, UNPUBLISH_1, event};
use byte_strings::Items;
use driver_core::{Address, Astray, Settings};
use driver_world::{Answer, Cause, Reading, Step, World};
use policy_core::Policy;
use std::alloc::{AllocError, Global};

/// Events; of each the id of the client that came by it, if it was one; and the runs of pages that are free of logs
/// after all of them, as their places and lengths in bytes.
type Row = (
    &'static [Deed],
    &'static [Option<u64>],
    &'static [(usize, usize)],
);

/// In 48 pages, which one log has, also while it lingers.
static ROWS: [Row; 4] = [
    (&[Deed::Attach], &[Some(1)], &[(0, 196_608)]),
    (&[Deed::Tick(0), PUBLISH_ALONE], &[None; 2], &[]),
    (&[UNPUBLISH_1, Deed::Tick(5_000_000_000)], &[None; 2], &[]),
    (&[Deed::Tick(5_000_000_001)], &[None], &[(0, 196_608)]),
];

/// The client that came by a step.
fn comer(answer: Option<&Answer>) -> Option<u64> {
    match answer {
        Some(Answer::Attached { client, .. }) => Some(*client),
        _ => None,
    }
}

/// Whether there is an answer to each step, in the steps' order.
fn are_answered(answers: &[Answer], comers: &[Option<u64>]) -> bool {
    let mut at = 0usize;
    for wanted in comers {
        if comer(answers.get(at)) != *wanted {
            return false;
        }
        at = at.wrapping_add(1);
    }
    answers.len() == comers.len()
}

fn are_free(world: &World, runs: &[(usize, usize)]) -> bool {
    world.holes() == runs
}

/// A world of 48 pages, in which nothing happened yet, and where everything is allowed.
fn world(alloc: Global) -> Result<World, AllocError> {
    let mut settings = Settings::default();
    settings.arena_pages = 48;
    let policy = Policy::new(Vec::new(alloc), true)?;
    World::new(alloc, settings, policy, &[])
}

fn step_of(alloc: Global, deed: Deed) -> Result<Reading, AllocError> {
    Ok(Reading::newest(Step::Conductor(event(alloc, deed)?)))
}

fn fill(alloc: Global, steps: &mut Vec<Reading>, deeds: &[Deed]) -> Result<(), AllocError> {
    for &deed in deeds {
        steps.push(step_of(alloc, deed)?)?;
    }
    Ok(())
}

fn steps_of(alloc: Global, deeds: &[Deed]) -> Result<Vec<Reading>, AllocError> {
    let mut steps = Vec::new(alloc);
    match fill(alloc, &mut steps, deeds) {
        Ok(()) => Ok(steps),
        Err(refused) => {
            drop(steps);
            Err(refused)
        }
    }
}

fn answers_to(
    alloc: Global,
    world: &mut World,
    deeds: &[Deed],
) -> Result<Items<Answer>, AllocError> {
    let steps = steps_of(alloc, deeds)?;
    let answers = world.run(alloc, steps.as_slice());
    drop(steps);
    answers
}

fn runs_to(alloc: Global, world: &mut World, row: &Row) -> Result<bool, AllocError> {
    let answers = answers_to(alloc, world, row.0)?;
    let answered = are_answered(answers.as_slice(), row.1);
    drop(answers);
    Ok(answered & are_free(world, row.2))
}

fn all_run_to(alloc: Global, world: &mut World, rows: &[Row]) -> Result<bool, AllocError> {
    for row in rows {
        if !runs_to(alloc, world, row)? {
            return Ok(false);
        }
    }
    Ok(true)
}

/// Whether the rows' events come to the rows, one after another.
fn run_to(alloc: Global, rows: &[Row]) -> Result<bool, AllocError> {
    let mut world = world(alloc)?;
    let run = all_run_to(alloc, &mut world, rows);
    drop(world);
    run
}

/// Another client, no client, and no page that is free.
static OTHERS: [Row; 3] = [
    (&[Deed::Attach], &[None], &[(0, 196_608)]),
    (&[Deed::Attach], &[], &[(0, 196_608)]),
    (&[], &[], &[]),
];

/// Whether none of these rows comes about by itself. It is asked with ample memory.
fn none_run_to(alloc: Global, others: &[Row]) -> bool {
    for &row in others {
        if run_to(alloc, &[row]) != Ok(false) {
            return false;
        }
    }
    true
}

#[test]
fn runs_leave_the_pages_without_a_log(rt: HostRuntime) {
    let others = none_run_to(rt.alloc(), &OTHERS);
    assert!(rt; others & (run_to(rt.alloc(), &ROWS) == Ok(true)));
}

/// A data frame without a payload.
const EMPTY_FRAME: [u8; 32] = [
    32, 0, 0, 0, 0, 0xc0, 1, 0, 0, 0, 0, 0, 9, 0, 0, 0, 10, 0, 0, 0, 5, 0, 0, 0, 0, 0, 0, 0, 0, 0,
    0, 0,
];

fn is_no_stream(answer: &Answer) -> bool {
    matches!(answer, Answer::Dropped(Cause::Astray(Astray::NoStream)))
}

fn finds_no_stream(alloc: Global, world: &mut World, bytes: &[u8]) -> bool {
    let address = Address {
        octets: [127, 0, 0, 1],
        port: 40_123,
    };
    let answer = world.packet(alloc, None, 0, &address, &address, bytes);
    let is_none = is_no_stream(&answer);
    drop(answer);
    is_none
}

/// Whether a datagram is one for no image, in a world in which nothing happened yet.
fn is_astray(alloc: Global, bytes: &[u8]) -> Result<bool, AllocError> {
    let mut world = world(alloc)?;
    let finds_none = finds_no_stream(alloc, &mut world, bytes);
    drop(world);
    Ok(finds_none)
}

#[test]
fn a_datagram_needs_no_step(rt: HostRuntime) {
    let empty = is_astray(rt.alloc(), &[]) == Ok(false);
    assert!(rt; empty & (is_astray(rt.alloc(), &EMPTY_FRAME) == Ok(true)));
}

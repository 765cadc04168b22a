//! How many images one source address may have, which no line of a script says.

ghost use Rattle.driver_core.specs.Soundness.{AreSettings};

use driver_core::{Settings, SetupFault};
use driver_world::{Answer, Reading, World};
use policy_core::Policy;
use script_lines::statements::{LIMIT, Said, Statement, Statements};
use std::alloc::{AllocError, Global};

/// What came of a step.
#[derive(Clone, Copy, Debug, PartialEq, Eq)]
enum Came {
    /// An image of this source number.
    Image(u64),
    /// A limit stood against it.
    Full,
    /// The arena has no place for its log.
    NoRoom,
    /// Something else.
    Other,
}

/// A client subscribes at two endpoints. Two images may be open whose publisher sends from one address, at whichever endpoint
/// they are: another port is the same address, and another host is another one. An image that goes, as its subscription is
/// removed, leaves its place to the next one of that address.
const STEPS: &str = "\
policy
.
attach 0 1
cmd 0 1 04000000_0100000000000000_0b00000000000000_0000000000000000_0a000000_22000000_6165726f6e3a7564703f656e64706f696e743d3132372e302e302e313a3430313233
cmd 0 1 04000000_0100000000000000_0c00000000000000_0000000000000000_0a000000_22000000_6165726f6e3a7564703f656e64706f696e743d3132372e302e302e313a3430313234
packet 0 127.0.0.1:40123 127.0.0.1:40000 28000000_00000500_00000000_01000000_0a000000_05000000_05000000_00000100_80050000_00000000
packet 0 127.0.0.1:40124 127.0.0.1:40000 28000000_00000500_00000000_01000000_0a000000_05000000_05000000_00000100_80050000_00000000
packet 0 127.0.0.1:40123 127.0.0.1:40001 28000000_00000500_00000000_02000000_0a000000_05000000_05000000_00000100_80050000_00000000
packet 0 127.0.0.1:40124 127.0.0.1:40000 28000000_00000500_00000000_02000000_0a000000_05000000_05000000_00000100_80050000_00000000
packet 0 127.0.0.1:40123 127.0.0.3:40000 28000000_00000500_00000000_02000000_0a000000_05000000_05000000_00000100_80050000_00000000
cmd 0 1 05000000_0100000000000000_0d00000000000000_0200000000000000
packet 0 127.0.0.1:40123 127.0.0.1:40000 28000000_00000500_00000000_04000000_0a000000_05000000_05000000_00000100_80050000_00000000
packet 0 127.0.0.1:40123 127.0.0.1:40000 28000000_00000500_00000000_05000000_0a000000_05000000_05000000_00000100_80050000_00000000
";

/// What comes of these steps where an address may have two images.
static TWO: [Came; 11] = [
    Came::Other,
    Came::Other,
    Came::Other,
    Came::Image(3),
    Came::Image(4),
    Came::Full,
    Came::Full,
    Came::Image(5),
    Came::Other,
    Came::Image(6),
    Came::Full,
];

/// And where it may have one, and the arena has room for one log: a limit is told before the arena.
static ONE: [Came; 11] = [
    Came::Other,
    Came::Other,
    Came::Other,
    Came::Image(3),
    Came::Full,
    Came::Full,
    Came::Full,
    Came::NoRoom,
    Came::Other,
    Came::Full,
    Came::Full,
];

/// A world with these settings, under a policy that allows all.
fn world_of(alloc: Global, settings: Settings) -> Result<World, AllocError>
    requires { AreSettings settings }
{
    World::new(alloc, settings, Policy::new(Vec::new(alloc), true)?, &[])
}

fn came_of(answer: &Answer) -> Came {
    match answer {
        Answer::Imaged { source, .. } => Came::Image(*source),
        Answer::Unimaged {
            why: SetupFault::Full,
            ..
        } => Came::Full,
        Answer::Unimaged {
            why: SetupFault::NoRoom,
            ..
        } => Came::NoRoom,
        _ => Came::Other,
    }
}

fn step(alloc: Global, world: &mut World, reading: &Reading) -> Came {
    let answer = world.step(alloc, reading);
    let came = came_of(&answer);
    drop(answer);
    came
}

/// The next step of a script.
fn next_step(
    alloc: Global,
    statements: &mut Statements<'_>,
) -> Result<Option<Reading>, AllocError> {
    let Some(statement) = statements.next(alloc)? else {
        return Ok(None);
    };
    let Statement { line: _, said } = statement;
    Ok(match said {
        Said::Does(reading) => Some(reading),
        _other => None,
    })
}

/// Whether this comes of the next step.
fn comes(
    alloc: Global,
    world: &mut World,
    statements: &mut Statements<'_>,
    wanted: Came,
) -> Result<bool, AllocError> {
    Ok(match next_step(alloc, statements)? {
        Some(reading) => step(alloc, world, &reading) == wanted,
        None => false,
    })
}

/// Whether this comes of the steps behind the policy, one after the other.
fn come(alloc: Global, world: &mut World, wanted: &[Came]) -> Result<bool, AllocError> {
    let script = STEPS.as_bytes();
    if script.len() > LIMIT {
        return Ok(false);
    }
    let mut statements = Statements::new(script);
    let begins = next_step(alloc, &mut statements)?.is_none();
    for came in wanted {
        if !comes(alloc, world, &mut statements, *came)? {
            return Ok(false);
        }
    }
    Ok(begins)
}

fn come_in(alloc: Global, settings: Settings, wanted: &[Came]) -> Result<bool, AllocError>
    requires { AreSettings settings }
{
    let mut world = world_of(alloc, settings)?;
    let come = come(alloc, &mut world, wanted);
    drop(world);
    come
}

#[test]
fn images_of_one_source_are_bounded(rt: HostRuntime) {
    let settings = Settings {
        images_per_source: 2,
        ..Settings::default()
    };
    assert!(rt; come_in(rt.alloc(), settings, &TWO) == Ok(true));
}

#[test]
fn images_are_full_by_their_source_before_the_arena(rt: HostRuntime) {
    let settings = Settings {
        images_per_source: 1,
        arena_pages: 48,
        ..Settings::default()
    };
    assert!(rt; come_in(rt.alloc(), settings, &ONE) == Ok(true));
}

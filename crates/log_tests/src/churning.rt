// Leases that come and go in an order that looks random, beside a plain page table.
ghost use Rattle.log_tests.specs.Leases.{AllOf};

use log_arena::{Arena, Lease, NoRoom, PAGE};
use std::alloc::{AllocError, Global};

/// Takes `steps` steps in an arena without a lease, beside a page table of `listed` pages. How many leases that took; none
/// where after some step the holes weren't those of the page table, or the bytes used and free not its counts. The leases
/// that are left then are dropped, so the arena stays as the last step left it.
pub(crate) fn churn(
    alloc: Global,
    arena: &mut Arena,
    listed: usize,
    steps: u32,
) -> Result<Option<u32>, AllocError> {
    let mut leases = Vec::new(alloc);
    let mut table = Vec::from_elem(alloc, false, listed)?;
    let mut word = 1;
    let mut taken: u32 = 0;
    let mut same = true;
    for _ in 0..steps {
        word = next(word);
        if step(arena, &mut leases, &mut table, word)? {
            taken = taken.wrapping_add(1);
        }
        same &= agrees(alloc, arena, &table);
    }
    Ok(if same { Some(taken) } else { None })
}

// The next word of a linear congruence, as the C standard's example has it, but for 64 bits (Knuth's MMIX).
fn next(word: u64) -> u64 {
    word.wrapping_mul(6364136223846793005)
        .wrapping_add(1442695040888963407)
}

// Leases 1 to 5 pages, or gives a lease back. Whether a lease was taken.
fn step(
    arena: &mut Arena,
    leases: &mut Vec<Lease>,
    table: &mut Vec<bool>,
    word: u64,
) -> Result<bool, AllocError>
    requires { AllOf arena.old.home leases.old.items }
    ensures { AllOf arena.new.home leases.new.items }
{
    let choice = word >> 33;
    let held = leases.len();
    if choice % 5 < 3 || held == 0 {
        let count = (choice / 5 % 5 + 1) as usize;
        let lease = match arena.lease(count * PAGE) {
            Ok(lease) => lease,
            Err(NoRoom) => return Ok(false),
        };
        mark(table, lease.place() / PAGE, count, true);
        leases.push(lease)?;
        return Ok(true);
    }
    let at = (choice / 25) as usize % held;
    let lease = leases.remove(at);
    mark(table, lease.place() / PAGE, lease.len() / PAGE, false);
    arena.give(lease);
    Ok(false)
}

// Writes down whether the `count` pages from `at` on have a lease.
fn mark(table: &mut Vec<bool>, at: usize, count: usize, leased: bool) {
    for page in table.iter_mut().skip(at).take(count) {
        *page = leased;
    }
}

// One page more that has no lease. Whether there was memory.
fn put_page(holes: &mut Vec<(usize, usize)>, at: usize, goes_on: bool) -> bool {
    match holes.last_mut() {
        Some(hole) if goes_on => {
            hole.1 = hole.1.wrapping_add(PAGE);
            true
        }
        _ => holes.push((at, PAGE)).is_ok(),
    }
}

/// Whether the arena's holes, used and free bytes are those of the table; false without memory.
pub(crate) fn agrees(alloc: Global, arena: &Arena, table: &[bool]) -> bool {
    let mut holes: Vec<(usize, usize)> = Vec::new(alloc);
    let mut free: usize = 0;
    let mut all: usize = 0;
    let mut last = true;
    let mut put = true;
    for leased in table {
        if !*leased {
            free = free.wrapping_add(PAGE);
            put &= put_page(&mut holes, all, !last);
        }
        last = *leased;
        all = all.wrapping_add(PAGE);
    }
    let same = (arena.holes() == holes.as_slice()) & (arena.free() == free);
    put & same & (arena.used() == all.wrapping_sub(free))
}

/// A step that is chosen, the place of the lease that was taken last of those that are left, and the holes then.
pub(crate) type Chosen = (u64, Option<usize>, &'static [(usize, usize)]);

fn last_is_at(leases: &[Lease], place: Option<usize>) -> bool {
    match leases.last() {
        Some(lease) => place == Some(lease.place()),
        None => place.is_none(),
    }
}

/// Whether an arena without a lease, of ten pages, goes as the rows say, and each time as a plain page table.
pub(crate) fn follow(
    alloc: Global,
    arena: &mut Arena,
    rows: &[Chosen],
) -> Result<bool, AllocError> {
    let mut leases = Vec::new(alloc);
    let mut table = Vec::from_elem(alloc, false, 10)?;
    let mut same = true;
    for &(choice, place, holes) in rows {
        same &= step(arena, &mut leases, &mut table, choice << 33).is_ok();
        same &= (arena.holes() == holes) & last_is_at(leases.as_slice(), place);
        same &= agrees(alloc, arena, table.as_slice());
    }
    Ok(same)
}

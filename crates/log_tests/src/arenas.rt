ghost use Rattle.log_arena.specs.Lease.{lease_home};
ghost use Rattle.std.specs.Prelude.{◌≡◌};

use crate::churning::{Chosen, agrees, churn, follow};
use crate::journal::Journal;
use crate::owners::hand_over;
use log_arena::laws::{
    held_pages_have_a_lease, holes_are_the_maximal_runs, others_leave_a_lease, share_no_page,
};
use log_arena::{Arena, Lease, NoRoom, PAGE};
use std::alloc::{AllocError, Global};
use std::thread::{self, Threads};

const TERM: usize = 65_536;

fn is_filled(bytes: &[u8], value: u8) -> bool {
    bytes.iter().all(|b| *b == value)
}

// Whether a log of three terms takes the whole arena, with zeros. It is filled, and given back.
fn is_taken_and_given(arena: &mut Arena) -> Result<bool, NoRoom> {
    let mut lease = arena.lease(3 * TERM)?;
    let placed = (lease.place() == 0) & (lease.len() == 196_608);
    let zeros = is_filled(lease.bytes(), 0);
    let full = arena.holes().is_empty() & (arena.used() == 196_608) & (arena.free() == 0);
    let refused = arena.lease(PAGE).is_err();
    lease.bytes_mut().fill(0xa5);
    let filled = is_filled(lease.bytes(), 0xa5);
    arena.give(lease);
    let hole = arena.holes() == [(0, 196_608)].as_slice();
    Ok(placed & zeros & full & refused & filled & hole)
}

// Three pages, one, two and one are leased; the first and the third lease are given back. Two pages fit exactly into the
// second hole, and go into the first. Then the others are given back, the one taken first first.
static FITS: [Chosen; 10] = [
    (10, Some(0), &[(3 * PAGE, 7 * PAGE)]),
    (0, Some(3 * PAGE), &[(4 * PAGE, 6 * PAGE)]),
    (5, Some(4 * PAGE), &[(6 * PAGE, 4 * PAGE)]),
    (0, Some(6 * PAGE), &[(7 * PAGE, 3 * PAGE)]),
    (3, Some(6 * PAGE), &[(0, 3 * PAGE), (7 * PAGE, 3 * PAGE)]),
    (
        28,
        Some(6 * PAGE),
        &[(0, 3 * PAGE), (4 * PAGE, 2 * PAGE), (7 * PAGE, 3 * PAGE)],
    ),
    (
        5,
        Some(0),
        &[(2 * PAGE, PAGE), (4 * PAGE, 2 * PAGE), (7 * PAGE, 3 * PAGE)],
    ),
    (3, Some(0), &[(2 * PAGE, 4 * PAGE), (7 * PAGE, 3 * PAGE)]),
    (3, Some(0), &[(2 * PAGE, 8 * PAGE)]),
    (3, None, &[(0, 10 * PAGE)]),
];

// How many leases are taken, and the holes that are left, were worked out beside the arena, by the same steps on a page
// table alone; a step fewer and a step more leave other holes.
static LEFT: [(usize, usize); 7] = [
    (0, 2 * PAGE),
    (17 * PAGE, 2 * PAGE),
    (25 * PAGE, 2 * PAGE),
    (46 * PAGE, 2 * PAGE),
    (49 * PAGE, PAGE),
    (57 * PAGE, 3 * PAGE),
    (63 * PAGE, PAGE),
];

fn are_left(alloc: Global, arena: &mut Arena) -> Result<bool, AllocError> {
    Ok(churn(alloc, arena, 64, 1001)? == Some(418) && arena.holes() == LEFT.as_slice())
}

fn single_page_is_left(alloc: Global, arena: &mut Arena) -> Result<bool, AllocError> {
    Ok(churn(alloc, arena, 1, 95)? == Some(16) && arena.holes().is_empty())
}

// Whether the holes are those of a page table of so many pages.
fn is_told_by(alloc: Global, arena: &mut Arena, listed: usize) -> Result<bool, AllocError> {
    Ok(churn(alloc, arena, listed, 10)?.is_some())
}

/// Page tables, and whether they are that of four pages of which the first two have a lease.
static TABLES: [(&[bool], bool); 6] = [
    (&[true, true, false, false], true),
    (&[true, false, false, false], false),
    (&[true, true, true, false], false),
    (&[false, false, true, true], false),
    (&[true, true, false], false),
    (&[true, true, false, false, true], false),
];

fn tells_tables(alloc: Global, arena: &Arena) -> bool {
    let mut told = true;
    for &(table, same) in &TABLES {
        told &= agrees(alloc, arena, table) == same;
    }
    told
}

fn is_written(journal: &mut Journal) -> bool
    ensures { lease_home journal.new.lease ≡ lease_home journal.old.lease }
{
    journal.append(b"one ")
        && journal.append(b"two")
        && journal.text() == b"one two".as_slice()
        && !journal.append([0u8; 4090].as_slice())
        && journal.text() == b"one two".as_slice()
}

fn journal_writes(arena: &mut Arena) -> Result<bool, NoRoom> {
    let first = arena.lease(PAGE)?;
    let mut journal = Journal::new(arena.lease(PAGE)?);
    let written = is_written(&mut journal);
    let first = held_pages_have_a_lease(arena, first);
    let holes = arena.holes() == [(2 * PAGE, 2 * PAGE)].as_slice();
    let placed = (first.place() == 0) & holes;
    journal.close(arena);
    Ok(written & placed & (arena.holes() == [(PAGE, 3 * PAGE)].as_slice()))
}

fn change_hands(arena: &mut Arena) -> Result<bool, NoRoom> {
    let a = arena.lease(PAGE)?;
    let b = arena.lease(PAGE)?;
    let (a, b) = share_no_page(a, b);
    let placed = (a.place() == 0) & (b.place() == PAGE);
    let mut b = hand_over(arena, a, b);
    b.bytes_mut().fill(9);
    let c = arena.lease(PAGE)?;
    let d = others_leave_a_lease(arena, &mut b, c, 2 * PAGE);
    Ok(placed & d.is_err() & is_filled(b.bytes(), 9))
}

fn lease_is_dropped(arena: &mut Arena) -> bool {
    let leased = arena.lease(2 * PAGE).is_ok();
    leased & (arena.used() == 2 * PAGE) & (arena.holes() == [(2 * PAGE, 2 * PAGE)].as_slice())
}

/// What an arena shows.
#[derive(Clone, Copy)]
enum Case {
    /// Of three terms of 64 KiB, it holds one log: the next has no room until it is gone, and starts from zeros.
    PlaceIsReused,
    /// The first hole that fits, not the best; neighbours merge.
    FirstFitAndMerge,
    /// In an order that looks random, the holes are those of a plain page table.
    PlainPageTable,
    SinglePage,
    /// They are not those of a page table that has a page less or more.
    PageLess,
    PageMore,
    /// Dropping a lease is no way to give it back.
    DroppedLease,
    /// A holder of a lease writes into it, and gives it back.
    Journal,
    LeasesChangeHands,
}

/// Whether an arena without a lease goes as the case says.
fn goes(alloc: Global, arena: &mut Arena, case: Case) -> bool {
    match case {
        Case::PlaceIsReused => {
            is_taken_and_given(arena) == Ok(true) && is_taken_and_given(arena) == Ok(true)
        }
        Case::FirstFitAndMerge => follow(alloc, arena, &FITS) == Ok(true),
        Case::PlainPageTable => are_left(alloc, arena) == Ok(true),
        Case::SinglePage => single_page_is_left(alloc, arena) == Ok(true),
        Case::PageLess => is_told_by(alloc, arena, 63) == Ok(false),
        Case::PageMore => is_told_by(alloc, arena, 65) == Ok(false),
        Case::DroppedLease => lease_is_dropped(arena) && tells_tables(alloc, arena),
        Case::Journal => journal_writes(arena) == Ok(true),
        Case::LeasesChangeHands => change_hands(arena) == Ok(true),
    }
}

/// How many pages an arena has, and what it shows.
static CASES: [(usize, Case); 9] = [
    (48, Case::PlaceIsReused),
    (10, Case::FirstFitAndMerge),
    (64, Case::PlainPageTable),
    (1, Case::SinglePage),
    (64, Case::PageLess),
    (64, Case::PageMore),
    (4, Case::DroppedLease),
    (4, Case::Journal),
    (3, Case::LeasesChangeHands),
];

/// Whether an arena of so many pages goes as the case says; false without memory.
fn is_shown(alloc: Global, pages: usize, case: Case) -> bool {
    if pages == 0 || pages > 65_536 {
        return false;
    }
    match Arena::new(alloc, pages) {
        Ok(mut arena) => goes(alloc, &mut arena, case),
        Err(_) => false,
    }
}

fn are_shown(alloc: Global, cases: &[(usize, Case)]) -> bool {
    for &(pages, case) in cases {
        if !is_shown(alloc, pages, case) {
            return false;
        }
    }
    true
}

#[test]
fn arenas_go_as_they_should(rt: HostRuntime) {
    holes_are_the_maximal_runs();
    let told = !is_filled(&[7, 7, 6], 7) & !is_filled(&[0, 7], 7) & !is_filled(&[7], 0);
    assert!(rt; told & are_shown(rt.alloc(), &CASES) & lease_outlives_its_arena(rt.alloc()));
}

fn lease_of_two(alloc: Global) -> Option<Lease> {
    let mut arena = Arena::new(alloc, 4).ok()?;
    arena.lease(2 * PAGE).ok()
}

// A lease outlives its arena, whose region is kept for it.
fn lease_outlives_its_arena(alloc: Global) -> bool {
    match lease_of_two(alloc) {
        Some(mut lease) => {
            lease.bytes_mut().fill(3);
            is_filled(lease.bytes(), 3)
        }
        None => false,
    }
}

// Whether a lease is written in another thread, and comes back as it was left there.
fn moves_into_a_thread(rt: &impl Threads, mut lease: Lease) -> bool {
    let spawned = thread::spawn(rt, move || {
        lease.bytes_mut().fill(7);
        lease
    });
    match spawned {
        Ok(child) => {
            let lease = child.join(rt);
            (lease.place() == 0) & is_filled(lease.bytes(), 7)
        }
        Err(_) => false,
    }
}

fn comes_back(rt: &impl Threads, alloc: Global) -> bool {
    match lease_of_two(alloc) {
        Some(lease) => moves_into_a_thread(rt, lease),
        None => false,
    }
}

#[test]
fn a_lease_moves_into_a_thread(rt: HostRuntime) {
    assert!(rt; comes_back(&rt, rt.alloc()));
}

//! Plays that go as they should, each from its beginning.

use crate::coming::{is_read_beside_two, subscriptions_would_read};
use crate::keeping::{
    all_read, are_told, closed_logs_are_not_read, denied_reads_nothing, numbers_go, one_is_left,
};
use crate::reader_play::{Play, pair, policy};
use crate::reloading::{first_is_found, turns_over};
use crate::unread::unread_image_is_told;
use std::alloc::{AllocError, Global};
use stream_registry::Pair;

/// The pairs of the second client's subscription, where two logs are there.
static BOTH_OF_SECOND: [Pair; 2] = [
    Pair {
        source: 3,
        subscription: 2,
    },
    Pair {
        source: 4,
        subscription: 2,
    },
];

/// What a play shows.
#[derive(Clone, Copy)]
enum Case {
    LogsHaveReaders,
    DeniedSubscriptionsReadNothing,
    NumbersGo,
    ClientsLeave,
    LogsClose,
    PairsAreTold,
    ReadersAreFound,
    PoliciesTakeAway,
    PoliciesBring,
    PoliciesChangeNothing,
    SubscriptionHasPairs,
    LogHasPairs,
    LogHasFewerPairs,
    UnreadImagesAreTold,
}

/// Whether a play in which nothing happened yet goes as the case says.
fn goes(alloc: Global, play: &mut Play, case: Case) -> bool {
    match case {
        Case::LogsHaveReaders => all_read(play),
        Case::DeniedSubscriptionsReadNothing => denied_reads_nothing(play),
        Case::NumbersGo => numbers_go(alloc, play),
        Case::ClientsLeave => one_is_left(alloc, play),
        Case::LogsClose => closed_logs_are_not_read(alloc, play),
        Case::PairsAreTold => are_told(alloc, play),
        Case::ReadersAreFound => first_is_found(alloc, play),
        Case::PoliciesTakeAway => turns_over(alloc, play, true, &BOTH_OF_SECOND, &[]),
        Case::PoliciesBring => turns_over(alloc, play, false, &[], &BOTH_OF_SECOND),
        Case::PoliciesChangeNothing => turns_over(alloc, play, false, &[], &[]),
        Case::SubscriptionHasPairs => subscriptions_would_read(alloc, play),
        Case::LogHasPairs => is_read_beside_two(alloc, play, &[pair(9, 1), pair(9, 2)]),
        Case::LogHasFewerPairs => is_read_beside_two(alloc, play, &[pair(9, 1)]),
        Case::UnreadImagesAreTold => unread_image_is_told(play),
    }
}

/// Whether `image` is denied to the second client, and what goes then.
static CASES: [(bool, Case); 14] = [
    (false, Case::LogsHaveReaders),
    (true, Case::DeniedSubscriptionsReadNothing),
    (false, Case::NumbersGo),
    (false, Case::ClientsLeave),
    (false, Case::LogsClose),
    (false, Case::PairsAreTold),
    (true, Case::ReadersAreFound),
    (false, Case::PoliciesTakeAway),
    (true, Case::PoliciesBring),
    (false, Case::PoliciesChangeNothing),
    (true, Case::SubscriptionHasPairs),
    (false, Case::LogHasPairs),
    (true, Case::LogHasFewerPairs),
    (false, Case::UnreadImagesAreTold),
];

fn play(alloc: Global, is_denied: bool) -> Result<Play, AllocError> {
    let policy = policy(alloc, is_denied)?;
    Play::new(alloc, policy)
}

/// Whether a play goes as the case says; false without memory.
fn is_shown(alloc: Global, is_denied: bool, case: Case) -> bool {
    match play(alloc, is_denied) {
        Ok(mut play) => {
            let so = goes(alloc, &mut play, case);
            drop(play);
            so
        }
        Err(_) => false,
    }
}

fn are_shown(alloc: Global, cases: &[(bool, Case)]) -> bool {
    for &(is_denied, case) in cases {
        if !is_shown(alloc, is_denied, case) {
            return false;
        }
    }
    true
}

#[test]
fn readers_are_those_of_the_lists(rt: HostRuntime) {
    assert!(rt; are_shown(rt.alloc(), &CASES));
}

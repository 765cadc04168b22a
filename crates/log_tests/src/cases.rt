//! Logs that go as they should, each from its beginning.
ghost use Rattle.std.specs.Prelude.{◌≡◌, [], IfOk};

use crate::opening::opened;
use crate::resends::are_sent;
use crate::sending::{
    CONNECTS, LIMITS, OPENS, SETUPS_AND_HEARTBEATS, are_taken, connects_by_pairs,
};
use crate::terms::{
    begin_with_abc, counts_each, ends_at_the_greatest, follows_the_slowest, ident, meets_ranges,
    other_answers_are_told, pads_the_rest, put_three, tells_lists, terms_are_used_again,
    waits_for_the_slowest,
};
use log_arena::NoRoom;
use std::alloc::Global;
use term_log::{LogKind, TermLog};

/// What a log shows.
#[derive(Clone, Copy)]
enum Case {
    OtherListsAreTold,
    /// The rest of a term has no room for a message.
    RestIsPadded,
    /// A message would end past the greatest position.
    GreatestPosition,
    /// The slowest pair limits the log; without a pair it takes nothing.
    SlowestPairLimits,
    OtherAnswersAreTold,
    FramesOfAPaddedLog,
    StatusOpensTheLog,
    StatusMessagesLimit,
    StatusConnects,
    PairsConnect,
    SetupsAndHeartbeats,
}

/// A log for the case.
fn log_for(alloc: Global, case: Case) -> Result<TermLog, NoRoom>
    ensures { IfOk result (λ log. log.pairs ≡ []) }
{
    match case {
        Case::RestIsPadded => opened(alloc, ident(LogKind::Ipc, 65_504)),
        Case::GreatestPosition => opened(alloc, ident(LogKind::Ipc, 140_737_488_355_264)),
        Case::SlowestPairLimits | Case::PairsConnect => opened(alloc, ident(LogKind::Ipc, 0)),
        Case::FramesOfAPaddedLog => opened(alloc, ident(LogKind::Udp, 65_504)),
        Case::StatusMessagesLimit => opened(alloc, ident(LogKind::Udp, 65_440)),
        _ => opened(alloc, ident(LogKind::Udp, 0)),
    }
}

fn frames_are_met(log: &mut TermLog) -> bool {
    put_three(log);
    (log.tail() == 65_760) & counts_each(log) & meets_ranges(log)
}

/// Whether a log in which nothing happened yet goes as the case says.
fn goes(alloc: Global, log: &mut TermLog, case: Case) -> bool
    requires { log.old.pairs ≡ [] }
{
    match case {
        Case::OtherListsAreTold => tells_lists(alloc, log),
        Case::RestIsPadded => pads_the_rest(log),
        Case::GreatestPosition => ends_at_the_greatest(log),
        Case::SlowestPairLimits => waits_for_the_slowest(log) & follows_the_slowest(log),
        Case::OtherAnswersAreTold => other_answers_are_told(alloc, log),
        Case::FramesOfAPaddedLog => frames_are_met(log),
        Case::StatusOpensTheLog => are_taken(log, &OPENS),
        Case::StatusMessagesLimit => are_taken(log, &LIMITS),
        Case::StatusConnects => are_taken(log, &CONNECTS),
        Case::PairsConnect => connects_by_pairs(log),
        Case::SetupsAndHeartbeats => are_taken(log, &SETUPS_AND_HEARTBEATS),
    }
}

static CASES: [Case; 11] = [
    Case::OtherListsAreTold,
    Case::RestIsPadded,
    Case::GreatestPosition,
    Case::SlowestPairLimits,
    Case::OtherAnswersAreTold,
    Case::FramesOfAPaddedLog,
    Case::StatusOpensTheLog,
    Case::StatusMessagesLimit,
    Case::StatusConnects,
    Case::PairsConnect,
    Case::SetupsAndHeartbeats,
];

/// Whether the log for the case goes as it says; false without memory.
fn is_shown(alloc: Global, case: Case) -> bool {
    match log_for(alloc, case) {
        Ok(mut log) => {
            let so = goes(alloc, &mut log, case);
            drop(log);
            so
        }
        Err(_) => false,
    }
}

fn are_shown(alloc: Global, cases: &[Case]) -> bool {
    for &case in cases {
        if !is_shown(alloc, case) {
            return false;
        }
    }
    true
}

/// Whether a log ends with the bytes that a list has: of one message, or of all those of many terms.
fn bytes_are_kept(alloc: Global, many: bool) -> bool {
    match opened(alloc, ident(LogKind::Udp, 0)) {
        Ok(log) => {
            if many {
                terms_are_used_again(alloc, log)
            } else {
                begin_with_abc(alloc, log)
            }
        }
        Err(_) => false,
    }
}

#[test]
fn logs_go_as_they_should(rt: HostRuntime) {
    let kept = bytes_are_kept(rt.alloc(), false) & bytes_are_kept(rt.alloc(), true);
    assert!(rt; kept & are_shown(rt.alloc(), &CASES) & are_sent(rt.alloc()));
}

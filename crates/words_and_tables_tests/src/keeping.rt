//! Readers as lists change.

ghost use Rattle.std.specs.Prelude.{◌≡◌, IfOk, length};

use crate::reader_play::{LINGER, Play, pair};
use log_readers::Readers;
use std::alloc::{AllocError, Global};

/// Whether two subscriptions, a log, and one subscription more are there.
fn two_read(play: &mut Play) -> bool {
    play.subscribes(1, 1) & play.subscribes(2, 2) & play.publishes(3, 1) & play.subscribes(4, 1)
}

/// Whether subscriptions and logs that come have readers where all is allowed.
pub(crate) fn all_read(play: &mut Play) -> bool {
    play.reads(0) & two_read(play) & play.reads(3) & play.publishes(5, 2) & play.reads(6)
}

/// Whether a subscription that is denied reads nothing.
pub(crate) fn denied_reads_nothing(play: &mut Play) -> bool {
    two_read(play) & play.reads(2)
}

/// The readers in the play, from the beginning.
#[tactic(auto, using(log_readers::proofs::ReaderLemmas::as_many_as_logs))]
fn asked(alloc: Global, play: &Play) -> Result<Readers, AllocError>
    ensures { IfOk result (λ readers. length readers ≡ length play.now.sources) }
{
    let mut readers = Readers::new(alloc)?;
    readers.ask_again(&play.streams, &play.clients, &play.policy.at(0), 1);
    Ok(readers)
}

/// Whether the readers of a subscription go with it, and all of them where everything closes.
pub(crate) fn numbers_go(alloc: Global, play: &mut Play) -> bool {
    let there = two_read(play);
    let Ok(mut readers) = asked(alloc, play) else {
        return false;
    };
    let all = readers.total() == 3;
    let fewer = match play.streams.own_subscription(2, 2) {
        Some(row) => {
            readers.remove_row(&play.streams, &row.wish());
            readers.total() == 2
        }
        None => false,
    };
    let unknown = play.streams.own_subscription(1, 2).is_none();
    readers.close_all();
    let none = readers.total() == 0;
    drop(readers);
    there & all & fewer & unknown & none
}

/// Whether one reader is left of those where the first client leaves.
pub(crate) fn one_is_left(alloc: Global, play: &mut Play) -> bool {
    let there = two_read(play);
    let Ok(mut readers) = asked(alloc, play) else {
        return false;
    };
    readers.client_left(&play.streams, 1);
    let one = readers.total() == 1;
    drop(readers);
    there & one
}

/// Whether logs that their clients left are read up to their moment, and no longer.
pub(crate) fn closed_logs_are_not_read(alloc: Global, play: &mut Play) -> bool {
    let there = play.publishes(1, 1)
        & play.publishes(2, 2)
        & play.publishes(3, 1)
        & play.subscribes(4, 2)
        & play.reads(3);
    play.leaves(1);
    play.closes(LINGER);
    let lingering = play.reads(3);
    play.closes(LINGER + 1);
    there & lingering & play.reads(1) & play.has_number(alloc, 4, &[pair(2, 4)])
}

/// Whether the pairs of a subscription, a client and a log are those.
pub(crate) fn are_told(alloc: Global, play: &mut Play) -> bool {
    let of_first = [pair(3, 1), pair(3, 4), pair(5, 1), pair(5, 4)];
    two_read(play)
        & play.publishes(5, 2)
        & play.has_number(alloc, 2, &[pair(3, 2), pair(5, 2)])
        & play.has_number(alloc, 3, &[])
        & play.has_client(alloc, 1, &of_first)
        & play.has_log(alloc, 5, &[pair(5, 1), pair(5, 2), pair(5, 4)])
}

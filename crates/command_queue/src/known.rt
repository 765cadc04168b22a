use crate::letter::{Letter, SentBy};
use crate::rule::View;
use crossbeam_queue::Pass;
use std::collections::LinkedList;

/// What is known of a queue. Contracts alone speak of it.
#[derive(Drop)]
pub struct Facts<E> {
    /// What senders sent at least: each list is a beginning of what its sender has sent by now.
    pub at_least: LinkedList<SentBy<E>>,
    /// What senders sent in all that have ended.
    pub in_all: LinkedList<SentBy<E>>,
    /// What the taker took at least, each list in the order taken.
    pub taken: LinkedList<LinkedList<Letter<E>>>,
}

/// What whoever holds it knows of a queue. It is a pass of the queue itself, with no bytes and no other state, so that no
/// call can look at it while it runs: an answer has to fit whatever is known. It may go to another thread.
pub type Known<E> = Pass<Letter<E>, View<E>>;

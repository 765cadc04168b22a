// The rule under which a queue is kept, and what each step says. No value of these types is made.
use crate::known::Facts;
use crate::letter::Letter;
use crossbeam_queue::protocol::{Join, Lesson, Outcome, Protocol, Split};
use crossbeam_queue::{Pass, RuledArrayQueue};
use std::collections::LinkedList;

// What a pass knows: whether it is the taker's or a sender's; how many senders there are to be; as which of them it
// sends, and what it sent; how many senders were made, and what was taken; and what it has heard of the others.
pub struct View<E> {
    pub takes: bool,
    pub sends: bool,
    pub total: u64,
    pub number: u64,
    pub sent: LinkedList<E>,
    pub made: u64,
    pub taken: LinkedList<Letter<E>>,
    pub facts: Facts<E>,
}

// Each event once, and each sender's in its order.
pub struct Mailbox;

impl<E> Protocol<Letter<E>, View<E>> for Mailbox {
    ghost use Rattle.command_queue.specs.Views.{Delivers, taking};

    ghost holds = { Delivers };

    ghost first = { taking 0 0 };
}

// One more sender is to be made.
pub struct Counts;

impl<E> Split<View<E>> for Counts {
    ghost use Rattle.command_queue.specs.Views.{counted, resting};

    ghost left = { counted };

    ghost right = { λ view. resting };
}

// A sender is made.
pub struct Hires;

impl<E> Split<View<E>> for Hires {
    ghost use Rattle.command_queue.specs.Views.{hiring, hired};

    ghost left = { hiring };

    ghost right = { hired };
}

// A sender says what it sent so far.
pub struct TellsSent;

impl<E> Split<View<E>> for TellsSent {
    ghost use Rattle.command_queue.specs.Facts.{at_least};
    ghost use Rattle.command_queue.specs.Views.{knowing};

    ghost left = { λ view. view };

    ghost right = { λ view. knowing (at_least view.number view.sent) };
}

// A sender ends, and says what it sent in all.
pub struct Ends;

impl<E> Split<View<E>> for Ends {
    ghost use Rattle.command_queue.specs.Facts.{in_all};
    ghost use Rattle.command_queue.specs.Views.{knowing, resting};

    ghost left = { λ view. resting };

    ghost right = { λ view. knowing (in_all view.number view.sent) };
}

// The taker says what it took so far.
pub struct TellsTaken;

impl<E> Split<View<E>> for TellsTaken {
    ghost use Rattle.command_queue.specs.Facts.{were_taken};
    ghost use Rattle.command_queue.specs.Views.{knowing};

    ghost left = { λ view. view };

    ghost right = { λ view. knowing (were_taken view.taken) };
}

// What is known is passed on.
pub struct Copies;

impl<E> Split<View<E>> for Copies {
    ghost use Rattle.command_queue.specs.Views.{knowing};

    ghost left = { λ view. view };

    ghost right = { λ view. knowing view.facts };
}

// The taker or a sender hears what is known.
pub struct Hears;

impl<E> Join<View<E>> for Hears {
    ghost use Rattle.command_queue.specs.Views.{hearing, resting};

    ghost both = { hearing };

    ghost spent = { resting };
}

// An event is put into the queue, or the queue is full.
pub struct Sends;

impl<E> Outcome<Letter<E>, View<E>> for Sends {
    ghost use Rattle.command_queue.specs.Views.{with_sent};
    ghost use Rattle.std.specs.Prelude.{◌≡◌};

    ghost then = { λ before letter after. after ≡ with_sent before letter };
}

impl<E> Lesson<Letter<E>, View<E>> for Sends {
    ghost use Rattle.command_queue.specs.Facts.{AreSent};

    ghost fact = { λ view letters. AreSent view.total view.number view.sent view.facts letters };
}

// An event is taken out of the queue, or the queue is empty.
pub struct Takes;

impl<E> Outcome<Letter<E>, View<E>> for Takes {
    ghost use Rattle.command_queue.specs.Facts.{AreTaken};
    ghost use Rattle.command_queue.specs.Views.{with_taken};
    ghost use Rattle.std.specs.Prelude.{◌≡◌};

    ghost then = { λ before letter after. (after ≡ with_taken before letter) × AreTaken after.taken before.facts };
}

impl<E> Lesson<Letter<E>, View<E>> for Takes {
    ghost use Rattle.command_queue.specs.Facts.{Fits};

    ghost fact = { λ view letters. Fits view.taken letters view.facts };
}

// A queue under the rule.
pub type Queue<E> = RuledArrayQueue<Letter<E>, View<E>, Mailbox>;

// What the taker or a sender knows of it.
pub type QueuePass<E> = Pass<Letter<E>, View<E>>;

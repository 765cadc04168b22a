ghost use Rattle.log_steps.specs.Answers.{answer_of, answer_listed, answer_shown, offered_as};
ghost use Rattle.std.specs.Prelude.{◌≡◌};

use crate::cause::Cause;
use byte_strings::{Bytes, Items};
use driver_core::{
    Address, Listed, ListedCounter, Message, Outcome, Outlet, Response, SetupFault, Shown,
};
use image_log::Insert;
use log_traffic::FragmentCopies;
use policy_core::Verdict;
use term_log::Offer;

/// What becomes of a message that a client offers.
#[derive(Clone, Copy, Debug, PartialEq, Eq)]
pub enum Offered {
    /// It is appended; the position after it.
    At(u64),
    /// The client has no such registration, or its log is closed.
    Closed,
    /// It is longer than the log's terms allow.
    TooLong,
    /// Nobody reads the log.
    NotConnected,
    /// It would end past the greatest position.
    MaxPositionExceeded,
    /// The slowest reader is too far behind.
    BackPressured,
    /// The rest of the term was too short for it, and is filled now: to be offered again.
    AdminAction,
}

/// What a step is answered.
#[derive(Debug, PartialEq, Eq, Drop)]
pub enum Answer {
    /// There was no memory for the step, and it changed nothing. Only an event, a look at all counters, a poll that is
    /// neither gone nor denied, a datagram of data that came to its image, a NAK by which frames are sent again and a turn of
    /// the sender or the receiver in which something is due are answered so.
    NoMemory,
    /// A client is attached.
    Attached {
        /// Its id.
        client: u64,
        /// The replies on images that the moment takes and brings, in their order.
        replies: Items<Message>,
    },
    /// A limit of the driver would be broken. With the replies on images that the moment takes and brings, in their order.
    Full(Items<Message>),
    /// The driver was stopped, and no client comes to it any more. With the replies on images that the moment takes and
    /// brings, in their order.
    Stopped(Items<Message>),
    /// The policy is in force, under this number.
    PolicyInForce {
        epoch: u64,
        /// The replies that it gives, in their order.
        replies: Items<Message>,
    },
    /// A limit of the driver would be broken under the policy, which is not in force. With the replies on images that the
    /// moment takes and brings, in their order.
    PolicyFull(Items<Message>),
    /// A SETUP makes no image, and is dropped.
    Unimaged {
        /// Why.
        why: SetupFault,
        /// The replies on images that the moment takes and brings, in their order.
        replies: Items<Message>,
    },
    /// An image comes.
    Imaged {
        /// Its source number.
        source: u64,
        /// The replies that it gives, in their order.
        replies: Items<Message>,
    },
    /// The frames of a datagram came to their image: what became of each, in their order.
    Received(Items<Insert>),
    /// A heartbeat came to its image.
    Heard,
    /// A status message came to its publication, which may be sent up to this position.
    Limited(u64),
    /// A status message came to its publication and asks for a SETUP.
    Elicited,
    /// No datagram of the publication is due.
    Idle,
    /// The sender cut a datagram.
    Sent {
        bytes: Bytes,
        /// The destinations of the publication, in the order in which they were named, and whether it goes there.
        outlets: Items<Outlet>,
    },
    /// Frames are sent again on a NAK.
    Resent {
        /// Where they go: to who asks, and to nobody else.
        to: Address,
        /// The datagrams, in their order.
        datagrams: Items<Bytes>,
    },
    /// What the receiver reports to the publisher of an image.
    Reported {
        /// Where the publisher is.
        to: Address,
        /// What is due, the NAK first.
        datagrams: Items<Bytes>,
    },
    /// A datagram is dropped.
    Dropped(Cause),
    /// The replies that a command gives, in their order.
    Replies(Items<Message>),
    /// What became of the message that was offered.
    Offered(Offered),
    /// The fragments that were polled, in their order.
    Polled(FragmentCopies),
    /// The client's subscription does not read that log; or there is no publication
    /// over datagrams, or no image, of that number.
    Gone,
    /// The counters that the client may see, by their numbers. One that it may not see looks like one that is not
    /// there.
    Counters(Items<ListedCounter>),
    /// The value of the counter that was asked for.
    Value(i64),
    /// The policy does not allow that, by this verdict.
    Denied(Verdict),
    /// There is no counter of that number.
    UnknownCounter,
    /// The client that looks is not attached.
    WrongClient,
    /// The step named a registry that its actor may not look at: one before the last that it looked at, or past the newest; or
    /// it is the conductor's, who names none. Only a world answers so, and it changed nothing.
    BadStep,
}

impl Answer {
    /// What an event is answered. It takes no memory.
    #[tactic(auto, unfolding(crate::specs::Answers::answer_of))]
    pub fn of(outcome: Outcome) -> Answer
        ensures { result ≡ answer_of outcome }
    {
        match outcome.response {
            Response::Nothing => Answer::Replies(outcome.replies),
            Response::Attached(client) => Answer::Attached {
                client,
                replies: outcome.replies,
            },
            Response::Full => Answer::Full(outcome.replies),
            Response::Stopped => Answer::Stopped(outcome.replies),
            Response::PolicyInForce(epoch) => Answer::PolicyInForce {
                epoch,
                replies: outcome.replies,
            },
            Response::PolicyFull => Answer::PolicyFull(outcome.replies),
            Response::Imaged(source) => Answer::Imaged {
                source,
                replies: outcome.replies,
            },
            Response::Dropped(why) => Answer::Unimaged {
                why,
                replies: outcome.replies,
            },
        }
    }

    /// What a look at all counters is answered. It takes no memory.
    pub fn listed(listed: Listed) -> Answer
        ensures { result ≡ answer_listed listed }
    {
        match listed {
            Listed::Counters(rows) => Answer::Counters(rows),
            Listed::WrongClient => Answer::WrongClient,
        }
    }

    /// What a look at one counter is answered. It takes no memory.
    pub fn shown(shown: Shown) -> Answer
        ensures { result ≡ answer_shown shown }
    {
        match shown {
            Shown::Value(value) => Answer::Value(value),
            Shown::Denied(decision) => Answer::Denied(decision.verdict),
            Shown::UnknownCounter => Answer::UnknownCounter,
            Shown::WrongClient => Answer::WrongClient,
        }
    }
}

impl Offered {
    /// What the log made of the message. It takes no memory.
    pub(crate) fn of(offer: Offer) -> Offered
        ensures { result ≡ offered_as offer }
    {
        match offer {
            Offer::At(position) => Offered::At(position),
            Offer::TooLong => Offered::TooLong,
            Offer::MaxPosition => Offered::MaxPositionExceeded,
            Offer::BackPressured => Offered::BackPressured,
            Offer::AdminAction => Offered::AdminAction,
        }
    }
}

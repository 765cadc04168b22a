//! What the owner of a driver asks the conductor, and what the conductor answers.

ghost use Rattle.media_agents.specs.Answering.{IsAnswer, question_in};
ghost use Rattle.std.specs.Prelude.{◌≡◌};

use crate::naming::DriverNaming;
use driver_core::{Event, Response};
use published_registry::Receipt;
use std::marker::{Model, PhantomData};

/// What the owner of a driver asks, as far as an answer names it.
#[derive(Clone, Copy, Debug, PartialEq, Eq)]
pub enum Question {
    /// A client comes, which acts for this principal.
    Attach { now: u64, principal: u32 },
    /// A policy is to be in force.
    Reload { now: u64 },
}

impl Question {
    /// The question that an event is, if it is one.
    pub fn of(event: &Event) -> Option<Question>
        ensures { result ≡ question_in event.now }
    {
        match event {
            Event::Attach { now, principal } => Some(Question::Attach {
                now: *now,
                principal: *principal,
            }),
            Event::Reload { now, .. } => Some(Question::Reload { now: *now }),
            Event::Command { .. } | Event::Tick { .. } | Event::Setup { .. } => None,
        }
    }
}

/// An answer to a question: the response of the entry that was made of it, with the receipt of that entry.
#[derive(Drop)]
pub struct Answered<N: DriverNaming> {
    question: Question,
    response: Option<Response>,
    receipt: Receipt,
    of: PhantomData<N>,
}

impl<N: DriverNaming> Model for Answered<N> {
    ghost use Rattle.media_agents.specs.Answering.{GivenAnswer, IsAnswer};
    ghost use Rattle.std.specs.Prelude.{◌≡◌};

    ghost Value = { GivenAnswer };

    ghost view = { λ answered. record { question = answered.question; response = answered.response; receipt = answered.receipt } };

    ghost invariant = { λ answered. (answered.receipt.book ≡ N.book) × IsAnswer answered.question answered.response answered.receipt };
}

impl<N: DriverNaming> Answered<N> {
    pub(crate) fn new(
        question: Question,
        response: Option<Response>,
        receipt: Receipt,
    ) -> Answered<N>
        requires ours { receipt.book ≡ N.book }
        requires answer { IsAnswer question response receipt }
        ensures { result ≡ record { question = question; response = response; receipt = receipt } }
    {
        Answered {
            question,
            response,
            receipt,
            of: PhantomData,
        }
    }

    /// Which question it answers.
    pub fn question(&self) -> Question
        ensures { result ≡ self.now.question }
    {
        self.question
    }

    /// The response of the question's entry. `None` where there was no memory for it: then no entry was made.
    pub fn response(&self) -> Option<Response>
        ensures response { result ≡ self.now.response }
        ensures answer { IsAnswer self.now.question result self.now.receipt }
    {
        self.response
    }

    /// It names the registry after the question's entry, or the newest one where no entry was made.
    pub fn receipt(&self) -> &Receipt
        ensures receipt { result.now ≡ self.now.receipt }
        ensures ours { result.now.book ≡ N.book }
    {
        &self.receipt
    }
}

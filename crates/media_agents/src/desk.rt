//! Where the owner of a driver asks the conductor: one question at a time.

ghost use Rattle.media_agents.specs.Answering.{IsAnswer};
ghost use Rattle.media_agents.specs.Desks.{DeskState, IsTold, answered_with};
ghost use Rattle.std.specs.Prelude.{◌≡◌, List, ⊤, None};

use crate::answering::{Answered, Question};
use crate::naming::DriverNaming;
use driver_core::Response;
use published_registry::Receipt;
use std::marker::Model;
use std::sync::{Arc, Mutex, Wait};

/// Where a question is until it is answered: a client that attaches, or a policy that is put in force. A lock guards it.
#[derive(Drop)]
pub struct Desk<N: DriverNaming> {
    /// The ring that a client gets that attaches.
    ring: u16,
    answered: Option<Answered<N>>,
}

impl<N: DriverNaming> Model for Desk<N> {
    ghost use Rattle.media_agents.specs.Desks.{DeskState};

    ghost Value = { DeskState };

    ghost view = { λ desk. record { ring = desk.ring; answered = desk.answered } };
}

impl<N: DriverNaming> Desk<N> {
    /// A desk with no question.
    pub fn new() -> Desk<N>
        ensures { result ≡ record { ring = 0; answered = None } }
    {
        Desk {
            ring: 0,
            answered: None,
        }
    }

    /// A question is asked: an earlier answer is let go. A client that attaches by it gets that ring.
    pub fn ask(&mut self, ring: u16)
        ensures { self.new ≡ record { ring = ring; answered = None } }
    {
        self.ring = ring;
        self.answered = None;
    }

    /// The answer, once there is one: it is there no longer.
    pub fn take(&mut self) -> Option<Answered<N>>
        ensures answer { result ≡ self.old.answered }
        ensures left { self.new ≡ record self.old { answered = None } }
    {
        self.answered.take()
    }

    /// The question is answered: by the response of its entry, or by none where there was no memory. The ring of a client that
    /// attaches by it.
    fn answer(&mut self, question: Question, response: Option<Response>, receipt: Receipt) -> u16
        requires ours { receipt.book ≡ N.book }
        requires answer { IsAnswer question response receipt }
        ensures ring { result ≡ self.old.ring }
        ensures answered { self.new ≡ answered_with question response receipt self.old }
    {
        self.answered = Some(Answered::new(question, response, receipt));
        self.ring
    }
}

/// Where the conductor answers the owner of a driver. Each handle is the conductor's alone, so what it told is in its order, and
/// nothing else is among it.
pub trait Desks<N: DriverNaming> {
    /// At each hold of the desk's lock so far, in their order, that was found there and this was left, as far as is known.
    ghost told: { Self → List (DeskState × DeskState) → Type 0 };

    /// The question is answered: by the response of its entry, or by none where there was no memory. The ring of a client that
    /// attaches by it.
    fn answer<R: Wait>(
        &mut self,
        rt: &R,
        question: Question,
        response: Option<Response>,
        receipt: Receipt,
    ) -> u16
        requires ours { receipt.book ≡ N.book }
        requires answer { IsAnswer question response receipt }
        ensures { IsTold (told self.old) (told self.new) question response receipt result };
}

/// The desk alone, in one hold.
fn tell<N: DriverNaming>(
    desk: &mut Desk<N>,
    question: Question,
    response: Option<Response>,
    receipt: Receipt,
) -> u16
    requires ours { receipt.book ≡ N.book }
    requires answer { IsAnswer question response receipt }
    ensures { IsTold (λ holds. ⊤) (λ holds. ⊤) question response receipt result }
{
    desk.answer(question, response, receipt)
}

/// The conductor's way to a driver's desk.
#[derive(Drop)]
pub struct DeskAnswers<N: DriverNaming> {
    desk: Arc<Mutex<Desk<N>>>,
}

impl<N: DriverNaming> DeskAnswers<N> {
    /// That to this desk.
    pub fn new(desk: Arc<Mutex<Desk<N>>>) -> DeskAnswers<N>
        ensures { result.desk ≡ desk }
    {
        DeskAnswers { desk }
    }
}

impl<N: DriverNaming> Desks<N> for DeskAnswers<N> {
    ghost told = { λ desk holds. ⊤ };

    fn answer<R: Wait>(
        &mut self,
        rt: &R,
        question: Question,
        response: Option<Response>,
        receipt: Receipt,
    ) -> u16 {
        tell(&mut *self.desk.lock(rt), question, response, receipt)
    }
}

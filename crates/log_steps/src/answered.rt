ghost use Rattle.log_steps.specs.Answers.{answer_shown};
ghost use Rattle.log_steps.specs.Decided.{shown_decision};
ghost use Rattle.std.specs.Prelude.{◌≡◌, []};

use crate::answer::Answer;
use byte_strings::Items;
use driver_core::Shown;
use frame_codec::Setup;
use policy_core::Decision;
use std::alloc::Global;

/// What a step is answered, and what the policy decided for it.
#[derive(Debug, PartialEq, Eq, Drop)]
pub struct Answered {
    pub answer: Answer,
    /// `None` where the policy was not asked, or the step was refused memory.
    pub decision: Option<Decision>,
}

/// What a look at all counters is answered, and by what the others are left out.
#[derive(Debug, PartialEq, Eq, Drop)]
pub struct Looked {
    pub answer: Answer,
    /// By the numbers of what is left out. None where the look was refused memory.
    pub denials: Items<Decision>,
}

/// What a datagram comes to.
#[derive(Debug, PartialEq, Eq, Drop)]
pub enum Came {
    /// An event for the conductor.
    SetUp(Setup),
    /// An answer.
    Answered(Answered),
}

/// The decision by which one counter is not shown.
fn denial_of(shown: &Shown) -> Option<Decision>
    ensures { result ≡ shown_decision shown.now }
{
    match shown {
        Shown::Denied(decision) => Some(*decision),
        _ => None,
    }
}

impl Answered {
    /// What a look at one counter is answered. It takes no memory.
    pub fn shown(shown: Shown) -> Answered
        ensures { result ≡ record { answer = answer_shown shown; decision = shown_decision shown } }
    {
        let decision = denial_of(&shown);
        Answered {
            answer: Answer::shown(shown),
            decision,
        }
    }
}

impl Looked {
    ghost use Rattle.log_steps.specs.declared.answer.Answer.TheVariants.{NoMemory};

    /// A look that was refused memory.
    pub fn refused(alloc: Global) -> Looked
        ensures { result ≡ record { answer = NoMemory; denials = [] } }
    {
        Looked {
            answer: Answer::NoMemory,
            denials: Items::from(Vec::new(alloc)),
        }
    }
}

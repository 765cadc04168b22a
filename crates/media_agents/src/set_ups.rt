//! The SETUPs of a turn, which are few: what commands come by is the same queue.

ghost use Rattle.media_agents.specs.SetUps.{Goes, IsLost};
ghost use Rattle.std.specs.Prelude.{◌≡◌, MatchBool};

use crate::posting::EventSender;
use command_queue::EVENTS;
use driver_core::Event;
use std::marker::Model;
use std::sync::Wait;

/// How many SETUPs a turn pushes at most.
const FEW: u32 = 64;

/// Who pushes the receiver's SETUPs into a driver's queue.
#[derive(Drop)]
pub(crate) struct SetUps {
    queue: EventSender,
    /// How many more it may push in this turn.
    left: u32,
}

impl Model for SetUps {
    ghost use Rattle.media_agents.specs.SetUps.{SettingUp};

    ghost Value = { SettingUp };

    ghost view = { λ set_ups. record { queue = set_ups.queue; left = set_ups.left } };
}

impl SetUps {
    /// They go by this sender of the queue. None does before a turn begins.
    pub(crate) fn new(queue: EventSender) -> SetUps
        ensures { result ≡ record { queue = queue; left = 0 } }
    {
        SetUps { queue, left: 0 }
    }

    /// A turn begins: it may push 64.
    pub(crate) fn begin(&mut self)
        ensures { self.new ≡ record self.old { left = 64 } }
    {
        self.left = FEW;
    }

    /// A SETUP goes to the conductor. It is lost where the turn pushed 64, or where fewer than half of the queue's places were
    /// free at one moment of the call. Whether it goes. It takes no memory.
    #[tactic(auto, using(crate::proofs::SetUpLemmas::full_has_none))]
    pub(crate) fn push<R: Wait>(&mut self, rt: &R, event: Event) -> bool
        ensures { MatchBool result (Goes event self.old self.new) (IsLost self.old self.new) }
    {
        if self.left == 0 {
            drop(event);
            return false;
        }
        if self.queue.len(rt) > EVENTS / 2 {
            drop(event);
            return false;
        }
        match self.queue.push(rt, event) {
            Ok(()) => {
                self.left -= 1;
                true
            }
            Err(refused) => {
                drop(refused);
                false
            }
        }
    }
}

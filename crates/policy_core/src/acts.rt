ghost use Rattle.policy_core.specs.Act.{act_number};
ghost use Rattle.policy_core.specs.Acts.{every_act_held, no_act_held, with_act, holds};
ghost use Rattle.std.specs.Prelude.{◌≡◌, ◌==◌, ◌||◌, true, false};

use crate::act::Act;

/// The acts that a rule speaks of.
#[derive(Clone, Copy, Debug)]
pub struct Acts {
    /// For each act, by its number, whether it is among them.
    held: [bool; 14],
}

impl Acts {
    /// Every act.
    pub fn every() -> Acts
        ensures exact { result ≡ every_act_held }
        ensures all { (act : Act) → holds result act ≡ true }
    {
        Acts { held: [true; 14] }
    }

    /// No act.
    pub fn none() -> Acts
        ensures exact { result ≡ no_act_held }
        ensures all { (act : Act) → holds result act ≡ false }
    {
        Acts { held: [false; 14] }
    }

    /// These acts and `act`.
    pub fn with(self, act: Act) -> Acts
        ensures exact { result ≡ with_act self act }
        ensures all { (other : Act) → holds result other ≡ (holds self other || (act_number act == act_number other)) }
    {
        let mut held = self.held;
        held[act.number()] = true;
        Acts { held }
    }

    /// Whether `act` is one of them.
    pub fn hold(self, act: Act) -> bool
        ensures { result ≡ holds self act }
    {
        self.held[act.number()]
    }
}

//! Endpoints ask to be destinations.

ghost use Rattle.media_agents.specs.Eliciting.{IsAsked, IsFull};
ghost use Rattle.std.specs.Prelude.{◌≡◌, MatchResult};

use crate::driver::Driver;
use media_agents::{Clock, DriverNaming, ElicitFault, Elicitation};
use std::sync::Wait;
use std::thread::Threads;

impl<N: DriverNaming, R: Threads + Wait, C: Clock> Driver<N, R, C> {
    /// From now on a status message that asks for a SETUP goes out of the endpoint to the control address, once a second, as long
    /// as no image of that session and stream is open there. It takes no memory, and waits for nobody.
    ///
    /// # Errors
    /// `Full` where 32 others are elicited, and nothing is changed.
    pub fn elicit(&mut self, elicitation: Elicitation) -> Result<(), ElicitFault>
        ensures asked { MatchResult result (λ _. IsAsked elicitation self.old.elicited self.new.elicited)
            (λ _. IsFull elicitation self.old.elicited × (self.new ≡ self.old)) }
        ensures same { self.new ≡ record self.old { elicited = self.new.elicited } }
    {
        self.kept.elicitations.add(elicitation)
    }
}

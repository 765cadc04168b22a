//! Policies are put in force.

ghost use Rattle.media_driver.specs.Reloading.{ReloadFails, Reloads};
ghost use Rattle.std.specs.Prelude.{◌≡◌, IfErr, IfOk};

use crate::asking::ask;
use crate::driver::Driver;
use crate::faults::ReloadFault;
use driver_core::{Event, Response};
use media_agents::{Clock, DriverNaming, Question};
use policy_text::{Names, PolicyFault};
use published_registry::Receipt;
use std::sync::Wait;
use std::thread::Threads;

impl<N: DriverNaming, R: Threads + Wait, C: Clock + Copy> Driver<N, R, C> {
    /// Puts the policy of that text in force, which may name these principals. It waits until the queue takes the event, and
    /// the conductor answers it: whoever learns the receipt is under this policy, or a later one.
    ///
    /// # Errors
    /// The text's fault, and then nothing is asked; else as the conductor answers.
    pub fn reload(&mut self, names: &Names, text: &str) -> Result<Receipt, ReloadFault>
        ensures ours { IfOk result (λ receipt. receipt.book ≡ N.book) }
        ensures done { IfOk result (λ receipt. Reloads names.now text.now receipt self.old self.new) }
        ensures err { IfErr result (λ fault. ReloadFails names.now text.now fault self.old self.new) }
    {
        let policy = match policy_text::read(self.alloc, text, names) {
            Ok(policy) => policy,
            Err(PolicyFault::NoMemory) => return Err(ReloadFault::NoMemory),
            Err(fault) => return Err(ReloadFault::Policy(fault)),
        };
        let now = self.clock.now();
        let answered = ask(
            &self.rt,
            &self.kept.common.desk,
            &mut self.kept.queue,
            0,
            Question::Reload { now },
            Event::Reload { now, policy },
        );
        match answered.response() {
            Some(Response::PolicyInForce(_)) => Ok(answered.receipt().again()),
            Some(_) => Err(ReloadFault::Full),
            None => Err(ReloadFault::NoMemory),
        }
    }
}

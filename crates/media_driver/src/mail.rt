//! What a client is sent.

ghost use Rattle.media_driver.specs.Clients.{Pops, TakesMail};

use crate::client::Client;
use media_agents::{Clock, DriverNaming, Mail};

/// How many replies a ring holds at most.
pub(crate) const REPLIES: usize = 256;

impl<N: DriverNaming, C: Clock> Client<N, C> {
    /// The mail that is at the front of the ring, whosever it is.
    fn pop(&mut self) -> Option<Mail<N>>
        ensures { Pops self.old self.new result }
    {
        self.mails.pop().ok()
    }

    /// The next reply to this client, if there is one, with the receipt of the entry that holds it, which the client learns.
    /// Replies to an earlier client of its ring are passed over, and none of its own is. It waits for nobody.
    pub fn next_mail(&mut self) -> Option<Mail<N>>
        ensures { TakesMail self.old self.new result }
    {
        for _passed in 0..REPLIES + 1 {
            let mail = self.pop()?;
            if mail.client() == self.number {
                self.learn(mail.receipt());
                return Some(mail);
            }
        }
        None
    }
}

//! A client asks for a subscription or a publication, and waits for the answer.

use crate::fault::Fault;
use crate::replies::{Answered, Ready, RefusalText, answer_in};
use crate::station::Station;
use media_driver::DriverNaming;
use program_parts::{Disk, Machine, pause};

impl<N: DriverNaming + Send + Sync + 'static, R: Machine, F: Disk> Station<N, R, F> {
    /// What stands by the command of this correlation id. A driver answers each command.
    fn ready(&mut self, command: u64) -> Result<Ready, Fault> {
        let rt = self.rt;
        for _ in rt.forever() {
            let Some(reply) = self.next_reply() else {
                pause(&rt, 0);
                continue;
            };
            match answer_in(&reply, command)? {
                Some(Answered::Ready(ready)) => return Ok(ready),
                Some(Answered::Refused(refusal)) => return Err(Fault::Refused(RefusalText(
                    refusal,
                ))),
                None => {}
            }
        }
        unreachable!()
    }

    /// Subscribes to a stream of a channel. The registration id.
    pub(crate) fn subscription(&mut self, channel: &str, stream: i32) -> Result<u64, Fault> {
        let command = self.client.add_subscription(&self.rt, channel, stream)?;
        Ok(self.ready(command)?.registration)
    }

    /// The same in place of an earlier subscription, with which nothing of it stays.
    pub(crate) fn subscription_anew(
        &mut self,
        earlier: u64,
        channel: &str,
        stream: i32,
    ) -> Result<u64, Fault> {
        let removal = self.client.remove_subscription(&self.rt, earlier)?;
        let command = self.client.add_subscription(&self.rt, channel, stream)?;
        self.ready(removal)?;
        Ok(self.ready(command)?.registration)
    }

    /// Publishes a stream of a channel, and prints its session.
    pub(crate) fn publication(&mut self, channel: &str, stream: i32) -> Result<Ready, Fault> {
        let command = self.client.add_publication(&self.rt, channel, stream)?;
        let ready = self.ready(command)?;
        if let Some(session) = ready.session {
            let _ = eprintln!(self.rt; "session {session}");
        }
        Ok(ready)
    }

    /// Adds a destination to a publication of the client's.
    pub(crate) fn destination(&mut self, registration: u64, channel: &str) -> Result<(), Fault> {
        let command = self
            .client
            .add_destination(&self.rt, registration, channel)?;
        self.ready(command)?;
        Ok(())
    }
}

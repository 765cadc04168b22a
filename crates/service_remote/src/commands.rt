//! Commands to a driver that serves, and the replies to them.

use crate::fault::RemoteFault;
use crate::remote::{PATIENCE, Remote};
use byte_strings::Text;
use command_codec::{Body, Command, Reply};
use service_records::{Answer, Request};
use std::alloc::Global;

/// How long a reply is waited for at once, in milliseconds.
const WAIT: u32 = 200;

/// What a reply says of the command of that correlation id.
fn answered(alloc: Global, reply: &Reply, command: u64) -> Option<Result<u64, RemoteFault>> {
    match reply {
        Reply::SubscriptionReady(ready) if ready.correlation == command => {
            Some(Ok(ready.registration))
        }
        Reply::PublicationReady(ready) if ready.correlation == command => {
            Some(Ok(ready.registration))
        }
        Reply::Error(error) if error.correlation == command => {
            let words = error.text.as_str().as_bytes();
            Some(Err(RemoteFault::told(alloc, words)))
        }
        _ => None,
    }
}

impl Remote {
    /// A text as commands have it.
    pub(crate) fn text(&self, text: &str) -> Result<Text, RemoteFault> {
        Ok(Text::new(self.alloc, text)?)
    }

    /// A command goes. Its correlation id.
    pub(crate) fn command(&mut self, body: Body) -> Result<u64, RemoteFault> {
        self.correlation = self.correlation.saturating_add(1);
        let command = Command {
            client: self.client,
            correlation: self.correlation,
            body,
        };
        let bytes = command.write(self.alloc)?;
        self.ask(Request::Command, bytes.as_slice())?;
        self.flush()?;
        self.done()?;
        Ok(self.correlation)
    }

    /// Asks for the replies that are there, or come within so many milliseconds.
    pub(crate) fn ask_for_replies(&mut self, wait: u32) -> Result<(), RemoteFault> {
        self.ask(Request::Mail { wait }, &[])?;
        self.flush()
    }

    /// The next reply of those that answer a request for them; `None` where there is none any more.
    pub(crate) fn reply(&mut self) -> Result<Option<Reply>, RemoteFault> {
        match self.answer()? {
            Answer::Reply { .. } => match Reply::read(self.alloc, self.tail()) {
                Ok(reply) => Ok(Some(reply)),
                Err(_) => Err(RemoteFault::Protocol),
            },
            Answer::Done { .. } => Ok(None),
            Answer::Refused { .. } => Err(self.refusal()),
            _ => Err(RemoteFault::Protocol),
        }
    }

    /// What the replies that are there say of a command, if they do; other replies are handed on.
    fn found(
        &mut self,
        correlation: u64,
        others: &mut Vec<Reply>,
    ) -> Result<Option<Result<u64, RemoteFault>>, RemoteFault> {
        let mut found = None;
        for _ in 0..u64::MAX {
            let Some(reply) = self.reply()? else {
                break;
            };
            match answered(self.alloc, &reply, correlation) {
                Some(answered) => found = Some(answered),
                None => others.push(reply)?,
            }
        }
        Ok(found)
    }

    /// The registration that answers a command; other replies are handed on.
    pub(crate) fn registered(
        &mut self,
        correlation: u64,
        others: &mut Vec<Reply>,
    ) -> Result<u64, RemoteFault> {
        for _tries in 0..PATIENCE * 5 {
            self.ask_for_replies(WAIT)?;
            if let Some(found) = self.found(correlation, others)? {
                return found;
            }
        }
        Err(RemoteFault::NoClient)
    }
}

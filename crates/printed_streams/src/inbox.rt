//! The streams that are read, and the messages that come of them.

ghost use Rattle.std.specs.Prelude.{◌≡◌, IfOk, min};
ghost use Rattle.stream_gaps.specs.Gaps.{gap_after};
ghost use Rattle.stream_gaps.specs.Sessions.{read_to};

use crate::output::Output;
use frame_codec::Flags;
use piped_messages::{Form, Joiner, print_message};
use program_parts::PartFault;
use std::alloc::{AllocError, Global};
use std::io::Write;
use std::{io, mem};
use stream_gaps::{Gap, Sessions};

/// A stream that is read.
#[derive(Drop)]
pub struct Image {
    pub source: u64,
    pub session: i32,
    pub joiner: Joiner,
}

/// The streams that are read.
#[derive(Drop)]
pub struct Images {
    pub rows: Vec<Image>,
    /// How far each session was read.
    pub read: Sessions,
    /// How many gaps there were.
    pub gaps: u64,
    /// Whether there ever was one.
    had_any: bool,
}

impl Images {
    pub fn new(alloc: Global) -> Images {
        Images {
            rows: Vec::new(alloc),
            read: Sessions::new(alloc),
            gaps: 0,
            had_any: false,
        }
    }

    /// A stream is there, which is read from this position on. The gap before that, if there is one.
    pub fn add(
        &mut self,
        alloc: Global,
        source: u64,
        session: i32,
        position: u64,
    ) -> Result<Option<Gap>, AllocError>
        ensures { IfOk result (λ gap. gap ≡ gap_after session (read_to self.old.read session) position) }
    {
        self.had_any = true;
        let joiner = Joiner::new(alloc);
        self.rows.push(Image {
            source,
            session,
            joiner,
        })?;
        let gap = self.read.begin(session, position)?;
        if gap.is_some() {
            self.gaps = self.gaps.saturating_add(1);
        }
        Ok(gap)
    }

    /// A stream is gone.
    pub fn remove(&mut self, source: u64) {
        self.rows.retain(|image| image.source != source);
    }

    /// Whether there was a stream, and none is left.
    pub fn are_gone(&self) -> bool {
        self.had_any && self.rows.is_empty()
    }
}

/// What came so far, and what of it is not printed yet.
#[derive(Drop)]
pub struct Inbox {
    lines: Vec<u8>,
    form: Form,
    /// How many messages are still wanted.
    pub left: u64,
    pub messages: u64,
    pub bytes: u64,
    pub position: u64,
}

impl Inbox {
    /// No message is there, and so many are wanted, if that is bounded.
    pub fn new(alloc: Global, form: Form, count: Option<u64>) -> Inbox {
        Inbox {
            lines: Vec::new(alloc),
            form,
            left: count.unwrap_or(u64::MAX),
            messages: 0,
            bytes: 0,
            position: 0,
        }
    }

    /// A message is there.
    fn deliver(&mut self, message: &[u8]) -> Result<(), AllocError> {
        if self.left == 0 {
            return Ok(());
        }
        print_message(&mut self.lines, self.form, message)?;
        self.left -= 1;
        self.messages = self.messages.saturating_add(1);
        self.bytes = self.bytes.saturating_add(message.len() as u64);
        Ok(())
    }

    /// A fragment of a stream is joined to those before it.
    pub fn join_one(
        &mut self,
        joiner: &mut Joiner,
        position: u64,
        flags: Flags,
        payload: &[u8],
    ) -> Result<(), AllocError> {
        self.position = position;
        joiner.add(flags.begins_message(), payload)?;
        if flags.ends_message() {
            if let Some(message) = joiner.message() {
                self.deliver(message)?;
            }
            joiner.clear();
        }
        Ok(())
    }

    /// How many fragments may be polled, so that no more messages come than are wanted.
    pub fn limit(&self, most: u32) -> u32
        ensures { result ≡ min self.now.left most }
    {
        self.left.min(u64::from(most)) as u32
    }

    /// Whether all is printed.
    pub fn is_empty(&self) -> bool {
        self.lines.is_empty()
    }

    /// What is not printed yet goes to standard output, as far as that has room for it.
    pub fn hand_on(&mut self, alloc: Global, output: &mut Output) {
        if self.lines.is_empty() {
            return;
        }
        let lines = mem::replace(&mut self.lines, Vec::new(alloc));
        if let Some(back) = output.hand_on(lines) {
            self.lines = back;
        }
    }

    /// What is not printed yet is printed.
    pub fn flush<R: Print>(&mut self, rt: &R) -> Result<(), PartFault> {
        if self.lines.is_empty() {
            return Ok(());
        }
        let written = io::writer(rt).write_all(self.lines.as_slice());
        self.lines.clear();
        match written {
            Ok(()) => Ok(()),
            Err(_) => Err(PartFault::Write),
        }
    }
}

ghost use Rattle.piped_messages.specs.Joining.{held, joined, whole};
ghost use Rattle.std.specs.Prelude.{◌≡◌, ◌++◌, None, IfOk, OnErr, OnOk, option_copied};

use crate::LONGEST;
use std::alloc::{AllocError, Global};
use std::marker::Model;

/// Joins the fragments of one stream to messages, by the flags that a message's first and last fragment have. What comes
/// before a first fragment is passed over, and so is a message that grows too long.
#[derive(Debug, Drop)]
pub struct Joiner {
    is_open: bool,
    bytes: Vec<u8>,
}

impl Model for Joiner {
    ghost use Rattle.piped_messages.specs.Joining.{held};
    ghost use Rattle.std.specs.Prelude.{ℕ, List, Option};

    ghost Value = { Option (List ℕ) };

    ghost view = { λ joiner. held joiner.is_open joiner.bytes.items };
}

/// More bytes come after those that are there. `false`, and what is there then is of no use, where they are too many.
///
/// # Errors
/// Where there is no memory for them.
fn extend(bytes: &mut Vec<u8>, more: &[u8]) -> Result<bool, AllocError>
    ensures { IfOk result (λ fits. held fits bytes.new.items ≡ whole (bytes.old.items ++ more.now)) }
{
    if more.len() > LONGEST {
        return Ok(false);
    }
    if bytes.len() > LONGEST - more.len() {
        return Ok(false);
    }
    match bytes.extend_from_slice(more) {
        Ok(()) => Ok(true),
        Err(_) => Err(AllocError),
    }
}

impl Joiner {
    /// No message has begun. It takes no memory.
    pub fn new(alloc: Global) -> Joiner
        ensures { result ≡ None }
    {
        Joiner {
            is_open: false,
            bytes: Vec::new(alloc),
        }
    }

    /// The next fragment comes, which begins a message or goes on with the one that is there.
    ///
    /// # Errors
    /// Where there is no memory for it, no message is there any more.
    pub fn add(&mut self, begins: bool, payload: &[u8]) -> Result<(), AllocError>
        ensures ok { OnOk result (self.new ≡ joined begins payload.now self.old) }
        ensures err { OnErr result (self.new ≡ None) }
    {
        if begins {
            self.bytes.clear();
        } else if !self.is_open {
            return Ok(());
        }
        self.is_open = false;
        self.is_open = extend(&mut self.bytes, payload)?;
        Ok(())
    }

    /// What is joined so far, where a message has begun: the whole message, once its last fragment came.
    pub fn message(&self) -> Option<&[u8]>
        ensures { option_copied result ≡ self.now }
    {
        if self.is_open {
            Some(self.bytes.as_slice())
        } else {
            None
        }
    }

    /// The message is done with.
    pub fn clear(&mut self)
        ensures { self.new ≡ None }
    {
        self.is_open = false;
    }
}

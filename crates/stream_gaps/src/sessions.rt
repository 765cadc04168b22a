ghost use Rattle.stream_gaps.specs.Gaps.{gap_after};
ghost use Rattle.stream_gaps.specs.Sessions.{is_session, read_to};
ghost use Rattle.std.specs.Prelude.{◌≡◌, ℤ, [], Some, false, IfOk, OnErr, OnOk};

use crate::gap::Gap;
use std::alloc::{AllocError, Global};
use std::collections::BTreeMap;
use std::marker::Model;

/// Up to which position each session of a stream was read.
#[derive(Drop)]
pub struct Sessions {
    rows: BTreeMap<i32, u64>,
}

impl Model for Sessions {
    ghost use Rattle.std.specs.Prelude.{ℕ, ℤ, List};

    ghost Value = { List (ℤ × ℕ) };

    ghost view = { λ sessions. sessions.rows.entries };
}

impl Sessions {
    /// None was read yet. It takes no memory.
    pub fn new(alloc: Global) -> Sessions
        ensures { result ≡ [] }
    {
        Sessions {
            rows: BTreeMap::new(alloc),
        }
    }

    /// Up to which position a session was read, if it was.
    pub fn read_to(&self, session: i32) -> Option<u64>
        ensures { result ≡ read_to self.now session }
    {
        self.rows.get(&session).copied()
    }

    /// A session was read up to this position.
    ///
    /// # Errors
    /// Nothing is changed where there is no memory for it: only where the session was not read before.
    pub fn read(&mut self, session: i32, position: u64) -> Result<(), AllocError>
        ensures here { OnOk result (read_to self.new session ≡ Some position) }
        ensures others { OnOk result ((other : ℤ) → is_session session other ≡ false → read_to self.new other ≡ read_to self.old other) }
        ensures err { OnErr result (self.new ≡ self.old) }
    {
        self.rows.insert(session, position)?;
        Ok(())
    }

    /// A session is read from this position on: the gap before it, if it was read before and does not go on where that ended.
    ///
    /// # Errors
    /// Nothing is changed where there is no memory for it: only where the session was not read before.
    pub fn begin(&mut self, session: i32, position: u64) -> Result<Option<Gap>, AllocError>
        ensures gap { IfOk result (λ gap. gap ≡ gap_after session (read_to self.old session) position) }
        ensures here { OnOk result (read_to self.new session ≡ Some position) }
        ensures others { OnOk result ((other : ℤ) → is_session session other ≡ false → read_to self.new other ≡ read_to self.old other) }
        ensures err { OnErr result (self.new ≡ self.old) }
    {
        let gap = Gap::after(session, self.read_to(session), position);
        self.read(session, position)?;
        Ok(gap)
    }
}

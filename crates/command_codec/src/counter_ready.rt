ghost use Rattle.std.specs.Prelude.{◌≡◌, ◌++◌, OnOk};

use crate::fault::CommandFault;
use crate::fields;
use std::alloc::AllocError;

/// A counter was added (ON_COUNTER_READY).
#[derive(Clone, Copy, Debug, PartialEq, Eq)]
pub struct CounterReady {
    /// The correlation id of the command that asked for it.
    pub correlation: u64,
    /// The number by which later commands name the counter.
    pub registration: u64,
}

impl CounterReady {
    ghost use Rattle.command_codec.specs.CounterReady.{counter_ready_bytes, counter_ready_of};

    /// The fields after a reply's type.
    #[tactic(auto, unfolding(crate::specs::CounterReady::counter_ready_of))]
    pub(crate) fn read(bytes: &[u8]) -> Result<CounterReady, CommandFault>
        ensures { result ≡ counter_ready_of bytes.now }
    {
        let (correlation, registration) = fields::two_u64(bytes)?;
        Ok(CounterReady {
            correlation,
            registration,
        })
    }

    /// Writes the fields at the end.
    #[tactic(auto, unfolding(crate::specs::CounterReady::counter_ready_bytes))]
    pub(crate) fn put(&self, out: &mut Vec<u8>) -> Result<(), AllocError>
        ensures { OnOk result (out.new.items ≡ out.old.items ++ counter_ready_bytes self.now) }
    {
        fields::put_u64(out, self.correlation)?;
        fields::put_u64(out, self.registration)
    }
}

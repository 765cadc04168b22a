ghost use Rattle.std.specs.Prelude.{◌≡◌, ◌++◌, OnOk};

use crate::fault::CommandFault;
use crate::fields;
use std::alloc::AllocError;

/// A client gives one of its counters a value (SET_COUNTER).
#[derive(Clone, Copy, Debug, PartialEq, Eq)]
pub struct SetCounter {
    /// The number under which the counter was registered.
    pub registration: u64,
    pub value: i64,
}

impl SetCounter {
    ghost use Rattle.command_codec.specs.SetCounter.{set_counter_bytes, set_counter_of};

    /// The fields after a command's head.
    #[tactic(auto, unfolding(crate::specs::SetCounter::set_counter_of))]
    pub(crate) fn read(bytes: &[u8]) -> Result<SetCounter, CommandFault>
        ensures { result ≡ set_counter_of bytes.now }
    {
        let (registration, rest) = fields::u64_at(bytes)?;
        let (value, rest) = fields::i64_at(rest)?;
        fields::end(rest)?;
        Ok(SetCounter {
            registration,
            value,
        })
    }

    /// Writes the fields at the end.
    #[tactic(auto, unfolding(crate::specs::SetCounter::set_counter_bytes))]
    pub(crate) fn put(&self, out: &mut Vec<u8>) -> Result<(), AllocError>
        ensures { OnOk result (out.new.items ≡ out.old.items ++ set_counter_bytes self.now) }
    {
        fields::put_u64(out, self.registration)?;
        fields::put_i64(out, self.value)
    }
}

ghost use Rattle.std.specs.Prelude.{◌≡◌, ◌++◌, OnOk};

use crate::fault::CommandFault;
use crate::fields;
use byte_strings::{ShortBytes, ShortText};
use std::alloc::AllocError;

/// The greatest length of a counter's key, in bytes.
const LONGEST_KEY: u32 = 112;

/// The greatest length of a counter's label, in bytes.
const LONGEST_LABEL: u32 = 380;

/// A client asks for a counter of its own (ADD_COUNTER).
#[derive(Debug, PartialEq, Eq, Drop)]
pub struct AddCounter {
    /// What kind of counter it is, in the client's own numbering.
    pub type_id: i32,
    /// The client's own name for it: any bytes.
    pub key: ShortBytes<112>,
    /// What it is called. A label that was read is ASCII.
    pub label: ShortText<380>,
}

impl AddCounter {
    ghost use Rattle.command_codec.specs.AddCounter.{add_counter_bytes, add_counter_of};

    /// The fields after a command's head.
    #[tactic(auto, unfolding(crate::specs::AddCounter::add_counter_of))]
    pub(crate) fn read(bytes: &[u8]) -> Result<AddCounter, CommandFault>
        ensures { result ≡ add_counter_of bytes.now }
    {
        let (type_id, rest) = fields::i32_at(bytes)?;
        let (key, rest) = fields::bytes_at(rest, LONGEST_KEY)?;
        let (label, rest) = fields::text_at(rest, LONGEST_LABEL)?;
        fields::end(rest)?;
        Ok(AddCounter {
            type_id,
            key: ShortBytes::new(key),
            label: ShortText::new(label),
        })
    }

    /// Writes the fields at the end.
    #[tactic(auto, unfolding(crate::specs::AddCounter::add_counter_bytes))]
    pub(crate) fn put(&self, out: &mut Vec<u8>) -> Result<(), AllocError>
        ensures { OnOk result (out.new.items ≡ out.old.items ++ add_counter_bytes self.now) }
    {
        fields::put_i32(out, self.type_id)?;
        fields::put_bytes(out, self.key.as_slice())?;
        fields::put_bytes(out, self.label.as_str().as_bytes())
    }

    /// Another command with the same fields.
    pub(crate) fn copy(&self) -> AddCounter
        ensures { result ≡ self.now }
    {
        AddCounter {
            type_id: self.type_id,
            key: self.key.copy(),
            label: self.label.copy(),
        }
    }
}

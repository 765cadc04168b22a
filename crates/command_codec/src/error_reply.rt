ghost use Rattle.std.specs.Prelude.{◌≡◌, ◌++◌, false, true, IfOk, OnOk};
ghost use Rattle.command_codec.specs.Gives.{Gives, takes_memory};

use crate::error_code::ErrorCode;
use crate::fault::CommandFault;
use crate::fields;
use byte_strings::Text;
use std::alloc::{AllocError, Global};

/// A command was refused (ON_ERROR).
#[derive(Debug, PartialEq, Eq, Drop)]
pub struct ErrorReply {
    /// The correlation id of the refused command.
    pub correlation: u64,
    pub code: ErrorCode,
    /// The code's text, or the verdict's where the code is `Denied`.
    pub text: Text,
}

impl ErrorReply {
    ghost use Rattle.command_codec.specs.ErrorReply.{error_bytes, error_of};

    /// The fields after a reply's type.
    #[tactic(auto, unfolding(crate::specs::ErrorReply::error_of))]
    pub(crate) fn read(alloc: Global, bytes: &[u8]) -> Result<ErrorReply, CommandFault>
        ensures exact { Gives result (error_of bytes.now) }
        ensures without_memory { takes_memory (λ _. true) (error_of bytes.now) ≡ false
            → result ≡ error_of bytes.now }
    {
        let (correlation, rest) = fields::u64_at(bytes)?;
        let (number, rest) = fields::i32_at(rest)?;
        let Some(code) = ErrorCode::from_number(number) else {
            return Err(CommandFault::Malformed);
        };
        let (text, rest) = fields::text_at(rest, fields::LONGEST)?;
        fields::end(rest)?;
        Ok(ErrorReply {
            correlation,
            code,
            text: Text::new(alloc, text)?,
        })
    }

    /// Writes the fields at the end.
    #[tactic(auto, unfolding(crate::specs::ErrorReply::error_bytes))]
    pub(crate) fn put(&self, out: &mut Vec<u8>) -> Result<(), AllocError>
        ensures { OnOk result (out.new.items ≡ out.old.items ++ error_bytes self.now) }
    {
        fields::put_u64(out, self.correlation)?;
        fields::put_i32(out, self.code.number())?;
        fields::put_text(out, &self.text)
    }

    /// Another reply with the same fields.
    pub(crate) fn copy(&self, alloc: Global) -> Result<ErrorReply, AllocError>
        ensures { IfOk result (λ copy. copy ≡ self.now) }
    {
        Ok(ErrorReply {
            correlation: self.correlation,
            code: self.code,
            text: self.text.copy(alloc)?,
        })
    }
}

ghost use Rattle.piped_messages.specs.Forms.{laid_out};
ghost use Rattle.std.specs.Prelude.{◌≡◌, ◌++◌, OnOk};

use std::alloc::AllocError;

/// How messages are printed.
#[derive(Clone, Copy, Debug, PartialEq, Eq)]
pub enum Form {
    /// A line feed comes after each.
    Lines,
    /// Nothing comes between them.
    Raw,
    /// How many bytes a message has comes before it, in four bytes, the least significant first.
    Prefixed,
}

/// Prints a message after what is printed already. A message of 2^32 bytes or more counts as one byte less than that.
///
/// # Errors
/// Where there is no memory for it: a part of it may be printed then.
pub fn print_message(out: &mut Vec<u8>, form: Form, message: &[u8]) -> Result<(), AllocError>
    ensures { OnOk result (out.new.items ≡ out.old.items ++ laid_out form message.now) }
{
    if form == Form::Prefixed {
        let length = message.len().min(u32::MAX as usize) as u32;
        out.extend_from_slice(&length.to_le_bytes())?;
    }
    out.extend_from_slice(message)?;
    if form == Form::Lines {
        out.push(b'\n')?;
    }
    Ok(())
}

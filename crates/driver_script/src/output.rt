ghost use Rattle.driver_script.specs.Output.{AppendsFront};
ghost use Rattle.std.specs.Io.KnownBytes.{Appends};
ghost use Rattle.std.specs.Prelude.{◌≡◌, true, IfErr, OnOk, OnErr};
ghost use Rattle.driver_script.specs.declared.fault.RunFault.TheVariants.{Write};

use crate::ends::Target;
use crate::fault::RunFault;

/// Writes all of `text`.
///
/// # Errors
/// [`RunFault::Write`] where the writer fails or takes nothing. It took a front of the text then.
pub fn write_whole<W: Target>(writer: &mut W, text: &[u8]) -> Result<(), RunFault>
    ensures ok { OnOk result (Appends (W.contents writer.old) (W.contents writer.new) text.now) }
    ensures err { OnErr result (AppendsFront (W.contents writer.old) (W.contents writer.new) text.now) }
    ensures fault { IfErr result (λ fault. (fault ≡ Write) × (W.may_fail ≡ true)) }
{
    let mut rest = text;
    'pieces: while !rest.is_empty() {
        match writer.put(rest) {
            Ok(0) => return Err(RunFault::Write),
            Ok(count) => rest = rest.split_at(count).1,
            Err(_) => return Err(RunFault::Write),
        }
    }
    Ok(())
}

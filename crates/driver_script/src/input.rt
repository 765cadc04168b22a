ghost use Rattle.driver_script.specs.Ends.{OfReading};
ghost use Rattle.driver_script.specs.declared.fault.RunFault.TheVariants.{TooLong};
ghost use Rattle.std.specs.Prelude.{◌≡◌, ◌<◌, ◌≤◌, IfErr, IfOk, IfSome, Err, length, vec_len};

use crate::ends::Source;
use crate::fault::RunFault;
use script_lines::statements::LIMIT;
use std::alloc::Global;

/// All that the reader gives.
///
/// # Errors
/// [`RunFault::TooLong`] as soon as there are more bytes than [`LIMIT`], [`RunFault::Read`] where the reader fails.
pub fn read_input<R: Source>(alloc: Global, reader: &mut R) -> Result<Vec<u8>, RunFault>
    ensures all { IfOk result (λ input. IfSome (R.remaining reader.old) (λ bytes. input.items ≡ bytes)) }
    ensures bound { IfOk result (λ input. vec_len input ≤ LIMIT) }
    ensures too_long { result ≡ Err TooLong → IfSome (R.remaining reader.old) (λ bytes. LIMIT < length bytes) }
    ensures fault { IfErr result (OfReading R.may_fail) }
{
    let mut input = Vec::new(alloc);
    let mut buffer = [0u8; 4096];
    'chunks: loop {
        let count = match reader.fetch(&mut buffer) {
            Ok(count) => count,
            Err(_) => return Err(RunFault::Read),
        };
        if count == 0 {
            return Ok(input);
        }
        if count > LIMIT - input.len() {
            return Err(RunFault::TooLong);
        }
        input.extend_from_slice(&buffer[..count])?;
    }
}

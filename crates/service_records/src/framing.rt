//! Records in a stream of bytes.

ghost use Rattle.service_records.specs.Framing.{IsCut, IsFront, cut_of};

use crate::fault::RecordFault;
use crate::fields;

/// How long a record is at most, without its length.
pub const LONGEST: u32 = 16_777_280;

/// A record that was cut from the front of a stream.
#[derive(Clone, Copy, Debug)]
pub struct Cut<'a> {
    /// The record, without its length.
    pub record: &'a [u8],
    /// What follows it.
    pub rest: &'a [u8],
}

#[tactic(auto, unfolding(crate::specs::Framing::cut_of))]
fn cut_first(bytes: &[u8]) -> Result<Option<Cut<'_>>, RecordFault>
    ensures { IsCut result (cut_of bytes.now) }
{
    if bytes.len() < 4 {
        return Ok(None);
    }
    let (size, rest) = fields::u32_at(bytes)?;
    if size > LONGEST {
        return Err(RecordFault::TooLong);
    }
    let size = size as usize;
    if rest.len() < size {
        return Ok(None);
    }
    let (record, rest) = rest.split_at(size);
    Ok(Some(Cut { record, rest }))
}

/// The first record of a stream; `None` where not all of it is there yet.
///
/// # Errors
/// `TooLong` where its length says that it is longer than a record may be.
pub fn first_record(bytes: &[u8]) -> Result<Option<Cut<'_>>, RecordFault>
    ensures cut { IsCut result (cut_of bytes.now) }
    ensures front { IsFront result bytes.now }
{
    cut_first(bytes)
}

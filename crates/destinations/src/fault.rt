/// Why a destination does not come or go.
#[derive(Clone, Copy, Debug, PartialEq, Eq)]
pub enum DestinationFault {
    /// The log has the address already, or has it not.
    Conflict,
    /// The log has 32 destinations, or there are 8,192 in all, or no number is left.
    Full,
}

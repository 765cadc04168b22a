/// Why bytes were not read as a record.
#[derive(Clone, Copy, Debug, PartialEq, Eq)]
pub enum RecordFault {
    /// The kind is of no record of that side.
    Unknown,
    /// A field passes the end, or bytes stand after the last field.
    Malformed,
    /// It is longer than a record may be.
    TooLong,
}

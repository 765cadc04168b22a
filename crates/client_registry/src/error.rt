/// Why a client does not come.
#[derive(Clone, Copy, Debug, PartialEq, Eq)]
pub enum AdmitError {
    /// There are 64 clients, or the greatest id was given.
    Full,
}

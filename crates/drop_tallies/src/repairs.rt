/// How often lost data was asked for, and sent again. Each number stays at the greatest one.
#[derive(Clone, Copy, Debug, Default, PartialEq, Eq)]
pub struct Repairs {
    /// How many NAKs came.
    pub heard: u64,
    /// How many NAKs were due to publishers.
    pub asked: u64,
    /// How many datagrams were cut again on NAKs.
    pub resent: u64,
}

/// Where a frame is kept.
#[derive(Clone, Copy, Debug)]
pub(crate) struct Place {
    /// The position at which the frame begins.
    pub(crate) position: u64,
    /// How many positions the frame takes.
    pub(crate) span: u32,
    /// How many bytes of it are kept.
    pub(crate) size: u32,
}

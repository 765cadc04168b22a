/// What became of a frame.
#[derive(Clone, Copy, Debug, PartialEq, Eq)]
pub enum Insert {
    /// It is kept.
    Taken,
    /// The same header and payload stand at its position already.
    Repeat,
    /// It meets a frame that is kept, and which stays.
    Overlap,
    /// It begins below what is kept.
    Below,
    /// It begins past the window, or would cross its term's end.
    Beyond,
}

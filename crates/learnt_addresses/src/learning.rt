/// What becomes of an address from which a status message came.
#[derive(Clone, Copy, Debug, PartialEq, Eq)]
pub enum Learning {
    /// It is a destination from now on, after the others.
    Learnt,
    /// It was one already, and was heard of again.
    Renewed,
    /// There are 32 others, and no room for it.
    Full,
}

use policy_core::Verdict;

/// Why a SETUP makes no image: the first of these that holds.
#[derive(Clone, Copy, Debug, PartialEq, Eq)]
pub enum SetupFault {
    /// No sender may send it: a length, the term offset or the active term is none that a stream has.
    BadSetup,
    /// There is an image of that endpoint, session and stream.
    Exists,
    /// No subscription has that endpoint and stream, and that session where it states one.
    NoSubscription,
    /// The policy in force allows the image to none of these subscriptions. This is the verdict for the one of the lowest
    /// number.
    Denied(Verdict),
    /// A limit of the driver would be broken.
    Full,
    /// The arena has no place for the log.
    NoRoom,
}

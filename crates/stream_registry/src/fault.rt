/// Why nothing is done about a publication or a subscription.
#[derive(Clone, Copy, Debug, PartialEq, Eq)]
pub enum StreamFault {
    /// The client has no registration of this number.
    UnknownPublication,
    /// The client has no subscription of this number.
    UnknownSubscription,
    /// The channel says something else than the publication that it would join, or states the session of another one.
    Conflict,
    /// There would be too many logs or registrations.
    Full,
}

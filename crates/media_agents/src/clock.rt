/// By what an agent's turns know the time.
pub trait Clock {
    /// The moment, in nanoseconds since 1970. One before an earlier moment counts as that one.
    fn now(&self) -> u64;
}

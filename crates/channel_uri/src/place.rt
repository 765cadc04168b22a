/// Where the log of a channel is. Publications and spies of one place and stream meet, as do subscriptions and images.
#[derive(Clone, Copy, Debug)]
pub enum Place<'a> {
    /// Shared memory, within one driver.
    Ipc,
    /// Destinations that the publisher names by hand (`control-mode=manual`).
    Manual,
    /// The address at which receivers make themselves known (`control-mode=dynamic`).
    Control(&'a str),
    /// The address at which the datagrams arrive.
    Endpoint(&'a str),
}

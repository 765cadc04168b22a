/// Who asks the policy, or is asked about.
#[derive(Clone, Copy, Debug, PartialEq, Eq)]
pub enum Actor {
    /// It takes events: commands, policies, SETUPs and ticks.
    Conductor,
    /// It sends, and sends again on NAKs.
    Sender,
    /// It takes the datagrams of images.
    Receiver,
    /// A client, by its id: it offers and polls.
    Client(u64),
}

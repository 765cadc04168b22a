use channel_uri::Address;

/// The principal that is bound to an address. An address that no peer has is nobody's, principal 0.
#[derive(Clone, Copy, Debug, PartialEq, Eq)]
pub struct Peer {
    pub address: Address,
    pub principal: u32,
}

use client_registry::Client;

/// The command of a client that is there: when and over which handle it came, and by which number replies name it.
#[derive(Clone, Copy)]
pub(crate) struct Asking {
    pub(crate) now: u64,
    pub(crate) handle: u64,
    pub(crate) client: Client,
    pub(crate) correlation: u64,
}

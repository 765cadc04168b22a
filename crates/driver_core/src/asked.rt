//! What an actor asks of a registry, which changes nothing: what may be offered, polled, sent and resent, for which image a
//! datagram is, and what a client is shown.

pub(crate) mod cached;
pub(crate) mod finding;
pub(crate) mod image_request;
pub(crate) mod left_out;
pub(crate) mod listing;
pub(crate) mod log_request;
pub(crate) mod looking;
pub(crate) mod publication_request;
pub(crate) mod send_request;
pub(crate) mod view;

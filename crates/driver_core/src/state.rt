//! What a registry is made of: itself, its settings and peers. What it is handed, an event, and what it answers: replies,
//! refusals, the outcome, and the entry that has all of them.

pub(crate) mod entry;
pub(crate) mod event;
pub(crate) mod outcome;
pub(crate) mod peer;
pub(crate) mod received;
pub(crate) mod refusal;
pub(crate) mod refused;
pub(crate) mod registry;
pub(crate) mod replies;
pub(crate) mod report;
pub(crate) mod settings;
pub(crate) mod setup_fault;
pub(crate) mod source_identity;

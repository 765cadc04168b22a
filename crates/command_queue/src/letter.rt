use std::collections::LinkedList;

/// An event with its sender, as it lies in the queue.
#[derive(Drop)]
pub struct Letter<E> {
    /// The sender's number, counted from 0.
    pub from: u64,
    /// What was sent.
    pub event: E,
}

/// What a sender sent. Contracts alone speak of it.
#[derive(Drop)]
pub struct SentBy<E> {
    /// The sender's number, counted from 0.
    pub number: u64,
    /// Its events, in their order.
    pub sent: LinkedList<E>,
}

/// An event that found the queue full, handed back.
#[derive(Debug, Drop)]
pub struct Refused<E>(pub E);

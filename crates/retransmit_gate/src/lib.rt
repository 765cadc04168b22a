//! Loss repair at both ends: which NAKs a sender answers by sending frames again, and when a receiver sends a NAK.
//!
//! `Gate::on_nak` says whether the frames of a range are sent again; `Nakker::on_tick` says when a NAK of a gap is due.
//! Both are for one log, and neither takes memory. Loss recovery is that of the Aeron Transport Protocol Specification.
#![tactic(auto)]

mod answer;
mod gate;
mod laws;
mod moment;
mod nakker;
mod resent;

pub use answer::Answer;
pub use gate::Gate;
pub use laws::{
    gaps_are_asked_exactly, gaps_stand_somewhere, ranges_are_resent_exactly,
    ranges_meet_where_they_share_a_position, resends_are_a_linger_apart, resends_are_few,
    resends_were_asked_for,
};
pub use nakker::{Missing, Nak, Nakker};
pub use resent::Resent;

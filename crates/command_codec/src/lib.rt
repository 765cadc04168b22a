//! The commands that clients send to the driver and the replies that it gives, as values and as bytes.
//!
//! Bytes are read to what the definitions `command_of` and `reply_of` say of them, faults too, and values are written
//! as `command_bytes` and `reply_bytes` say. The laws in this crate tie the two: what is written is read again, and
//! what was read is written as the same bytes.
#![tactic(auto)]

mod add_counter;
mod add_publication;
mod add_subscription;
mod available_image;
mod client_timeout;
mod command;
mod counter_ready;
mod destination;
mod error_code;
mod error_reply;
mod fault;
mod fields;
mod laws;
mod operation_success;
mod publication_ready;
mod removal;
mod reply;
mod set_counter;
mod subscription_ready;
mod terminate_driver;
mod unavailable_counter;
mod unavailable_image;

pub use add_counter::AddCounter;
pub use add_publication::AddPublication;
pub use add_subscription::AddSubscription;
pub use available_image::AvailableImage;
pub use client_timeout::ClientTimeout;
pub use command::{Body, Command};
pub use counter_ready::CounterReady;
pub use destination::Destination;
pub use error_code::ErrorCode;
pub use error_reply::ErrorReply;
pub use fault::CommandFault;
pub use laws::{
    codes_are_told_by_their_numbers, commands_read_back, commands_write_back,
    correlation_is_in_place, destinations_read_back, replies_read_back, replies_write_back,
};
pub use operation_success::OperationSuccess;
pub use publication_ready::PublicationReady;
pub use removal::Removal;
pub use reply::Reply;
pub use set_counter::SetCounter;
pub use subscription_ready::SubscriptionReady;
pub use terminate_driver::TerminateDriver;
pub use unavailable_counter::UnavailableCounter;
pub use unavailable_image::UnavailableImage;

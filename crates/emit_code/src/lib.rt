//! The code that puts messages into buffers and delivers them.
#![tactic(auto)]

mod delivery;
pub mod laws;
mod message;
mod placing;
mod subscribers;

pub use delivery::{Target, own_frame, target_of};
pub use message::message_words;
pub use placing::{place_delivery, place_emit};
pub use subscribers::channel_subscribers;

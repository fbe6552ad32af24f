//! A layer that holds written values back from the store below.
#![tactic(auto)]

mod buffer;
mod entries;
mod laws;

pub use buffer::WriteBuffer;
pub use laws::{buffers_are_bounded, buffers_are_not_seen};

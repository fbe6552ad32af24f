//! The lines that answer a run sheet.
#![tactic(auto)]

mod decoded;
mod stored;

pub use decoded::decode_answer;
pub use stored::{build_answer, cell_answer};

//! The order telegram: how its bytes are read, and what they say.
#![tactic(auto)]

mod laws;
mod list;
mod reader;
mod record;
mod refusal;
mod whole;

pub use laws::{
    decoding_goes_forward, decoding_is_local, numbers_agree, records_are_sound,
    refusals_are_placed, telegrams_are_whole,
};
pub use list::CellList;
pub use reader::Reader;
pub use record::Record;
pub use refusal::{Refusal, Refused};
pub use whole::decode;

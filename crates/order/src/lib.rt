//! Stock orders and their lists of cells.
#![tactic(auto)]

mod cells;
mod laws;
mod refusal;
mod stock;

pub use cells::Cells;
pub use laws::lists_are_sound;
pub use refusal::ListRefusal;
pub use stock::Order;

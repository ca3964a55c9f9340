// Plans of any kind, and their reading from a text.
#![tactic(auto)]

mod error;
mod items;
mod methods;
mod plan;
mod reading;

pub use error::ReadError;
pub use plan::Plan;
pub use reading::MOST_BYTES;

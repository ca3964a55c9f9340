// What other code asks of a kind of guard, and what a kind promises. Each kind has a crate of its own, and nothing
// above this crate but the programs names one.
#![tactic(auto)]

mod kind;
mod spelling;

pub use kind::Kind;
pub use spelling::Spelling;

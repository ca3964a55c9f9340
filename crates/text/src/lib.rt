// From bytes to tokens: a text is cut into lines and each line into tokens, and a token is read as a number
// or a letter. Nothing here knows what the lines of a plan are.
#![tactic(auto)]

mod cursor;
mod numbers;
mod tokens;

pub use tokens::Tokens;

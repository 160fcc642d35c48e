//! Instruction data, between bytes and instructions: decoding with the first broken rule, and the one spelling.
#![tactic(auto)]

mod codes;
mod decoding;
mod encoding;
mod laws;
mod numbers;
mod reading;
mod rules;

pub use decoding::decode;
pub use encoding::encode;
pub use laws::{decodes_again, one_spelling};

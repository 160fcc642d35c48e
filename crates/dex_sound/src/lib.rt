//! The laws of a market's steps: what refused rows, cranks and fills leave, what every step keeps, and when a market is
//! sound. Each law is a function that does nothing, whose contract says it.
#![tactic(auto)]

pub mod bounds;
pub mod cranks;
pub mod fields;
pub mod fills;
pub mod keeping;
pub mod made;
pub mod orders;
pub mod places;
pub mod refusals;
pub mod soundness;

//! Delay changes no trade: cranks that come late change no fill and nobody's worth. The definitions of worth and of a
//! market that pays at once, and their laws. Each law is a function that does nothing, whose contract says it.
#![tactic(auto)]

pub mod delay;
pub mod steps;

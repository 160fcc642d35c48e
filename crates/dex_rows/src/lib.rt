//! Reading of scripts and dumps at the level of rows and words: the records of a text, and the words in their fields.
//!
//! Each call gives what a definition of `specs/` says of the bytes, for all bytes. Only memory may be wanting.
#![tactic(auto)]

pub mod addresses;
pub mod base64_words;
pub(crate) mod lines;
pub mod numbers;
pub mod plain;
pub mod printable;
pub(crate) mod quoted;
pub mod records;

//! The lines that a run writes where it has no report, dump, script or summary: what refuses its input, and what an
//! audit says.
#![tactic(auto)]

mod lines;
mod names;
mod texts;

pub use lines::ScriptRefused;
pub use texts::{
    audit_failed_text, audit_ok_text, dump_refused_text, migrate_refused_text, script_refused_text,
};

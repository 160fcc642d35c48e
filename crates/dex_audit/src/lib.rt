//! What an audit of accounts finds: each place where a rule over several accounts fails.
#![tactic(auto)]

mod auditing;
mod laws;
mod supplies;

pub use auditing::{audit, audit_markets};
pub use dex_audit_rules::Finding;
pub use laws::{
    accounts_without_findings_are_of_sound_markets,
    an_audit_finds_nothing_exactly_where_markets_are_sound_and_mints_conserved,
    markets_without_findings_are_sound, mints_without_findings_are_conserved,
};

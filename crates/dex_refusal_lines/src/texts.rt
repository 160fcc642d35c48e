//! The lines as texts. Each call answers otherwise only for lack of memory.

ghost use Rattle.std.specs.Prelude.{◌≡◌, ◌++◌, IfOk, OnOk};
ghost use Rattle.std.specs.List.{flat_map};
ghost use Rattle.std.specs.String.{string_bytes};
ghost use Rattle.dex_refusal_lines.specs.Lines as lines;

use crate::lines::{DumpRefused, FindingLine, MigrateRefused, ScriptRefused};
use dex_audit::Finding;
use dex_dump::DumpFault;
use dex_migrate::MigrateFault;
use std::alloc::{AllocError, Global};
use std::fmt::Write;

/// The line that names the first faulty row of a script: `script refused row R: K NAME`, and behind it the setup code
/// where it is not 0.
pub fn script_refused_text(alloc: Global, fault: ScriptRefused) -> Result<String, AllocError>
    ensures { IfOk result (λ text. string_bytes text ≡ lines.script_refused fault) }
{
    format!(in alloc; "{fault}")
}

/// The line that names the first faulty row of a dump: `dump refused row R: K NAME ACCOUNT PLACE FOUND WANTED`.
pub fn dump_refused_text(alloc: Global, fault: DumpFault) -> Result<String, AllocError>
    ensures { IfOk result (λ text. string_bytes text ≡ lines.dump_refused fault) }
{
    let line = DumpRefused(fault);
    format!(in alloc; "{line}")
}

/// The lines of an audit with findings: `finding KIND ACCOUNT PLACE FOUND WANTED` for each of them, and `audit failed
/// COUNT`.
pub fn audit_failed_text(alloc: Global, found: &[Finding]) -> Result<String, AllocError>
    ensures { IfOk result (λ text. string_bytes text ≡ lines.audit_failed found.now) }
{
    let mut text = String::new(alloc);
    write_findings(&mut text, found)?;
    let count = found.len();
    write!(text, "audit failed {count}\n")?;
    Ok(text)
}

fn write_findings(text: &mut String, found: &[Finding]) -> Result<(), AllocError>
    ensures { OnOk result (string_bytes text.new ≡ string_bytes text.old ++ flat_map lines.finding_line found.now) }
{
    'findings: for finding in found {
        write!(text, "{}", FindingLine(*finding))?;
    }
    Ok(())
}

/// The line of an audit without a finding, of this many markets and wallets: `audit ok MARKETS WALLETS`.
pub fn audit_ok_text(alloc: Global, markets: usize, wallets: usize) -> Result<String, AllocError>
    ensures { IfOk result (λ text. string_bytes text ≡ lines.audit_ok markets wallets) }
{
    let mut text = String::new(alloc);
    write!(text, "audit ok {markets} {wallets}\n")?;
    Ok(text)
}

/// The line that names what does not fit: `migrate refused MARKET WHAT NEEDED GIVEN`.
pub fn migrate_refused_text(alloc: Global, fault: MigrateFault) -> Result<String, AllocError>
    ensures { IfOk result (λ text. string_bytes text ≡ lines.migrate_refused fault) }
{
    let line = MigrateRefused(fault);
    format!(in alloc; "{line}")
}

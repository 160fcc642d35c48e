//! The lines.

ghost use Rattle.std.specs.Prelude.{◌≡◌, Some};
ghost use Rattle.dex_refusal_lines.specs.Lines as lines;

use crate::names::{AccountWord, CodeWord, DumpFaultName, ScriptFaultName, WhatWord};
use dex_audit::Finding;
use dex_dump::DumpFault;
use dex_migrate::MigrateFault;
use std::fmt;

/// The first faulty row of a script, counted from 1, with the number of the lowest of its faults, from 1 to 11, and
/// that of the setup code, 0 where it has none. It prints as the line that a run writes.
#[derive(Clone, Copy, Debug, PartialEq, Eq)]
pub struct ScriptRefused {
    pub row: u32,
    pub kind: u8,
    pub code: u8,
}

impl fmt::Display for ScriptRefused {
    ghost output = { λ fault. Some (lines.script_refused fault) };

    fn fmt<W: fmt::Write>(&self, f: &mut fmt::Formatter<W>) -> fmt::Result {
        let ScriptRefused { row, kind, code } = *self;
        let name = ScriptFaultName(kind);
        let code = CodeWord(code);
        write!(f, "script refused row {row}: {kind} {name}{code}\n")
    }
}

/// The line of a faulty dump.
#[derive(Clone, Copy)]
pub(crate) struct DumpRefused(pub(crate) DumpFault);

impl fmt::Display for DumpRefused {
    ghost output = { λ l. Some (lines.dump_refused l.0) };

    fn fmt<W: fmt::Write>(&self, f: &mut fmt::Formatter<W>) -> fmt::Result {
        let DumpFault {
            row,
            account,
            fault,
        } = self.0;
        let kind = fault.kind;
        let name = DumpFaultName(kind);
        let account = AccountWord(account);
        let place = fault.place;
        let found = fault.found;
        let wanted = fault.wanted;
        write!(
            f,
            "dump refused row {row}: {kind} {name} {account} {place} {found} {wanted}\n"
        )
    }
}

/// The line of a finding.
#[derive(Clone, Copy)]
pub(crate) struct FindingLine(pub(crate) Finding);

impl fmt::Display for FindingLine {
    ghost output = { λ l. Some (lines.finding_line l.0) };

    fn fmt<W: fmt::Write>(&self, f: &mut fmt::Formatter<W>) -> fmt::Result {
        let Finding {
            kind,
            account,
            place,
            found,
            wanted,
        } = self.0;
        write!(f, "finding {kind} {account} {place} {found} {wanted}\n")
    }
}

/// The line of a market that does not fit.
#[derive(Clone, Copy)]
pub(crate) struct MigrateRefused(pub(crate) MigrateFault);

impl fmt::Display for MigrateRefused {
    ghost output = { λ l. Some (lines.migrate_refused l.0) };

    fn fmt<W: fmt::Write>(&self, f: &mut fmt::Formatter<W>) -> fmt::Result {
        let MigrateFault {
            market,
            what,
            needed,
            given,
        } = self.0;
        let what = WhatWord(what);
        write!(f, "migrate refused {market} {what} {needed} {given}\n")
    }
}

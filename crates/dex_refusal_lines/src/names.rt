//! Names of faults.

ghost use Rattle.std.specs.Prelude.{◌≡◌, Some};
ghost use Rattle.dex_refusal_lines.specs.Lines as lines;

use dex_migrate::MigrateWhat;
use dex_types::Address;
use std::fmt;

/// The name of a fault of a row of a script.
#[derive(Clone, Copy)]
pub(crate) struct ScriptFaultName(pub(crate) u8);

impl fmt::Display for ScriptFaultName {
    ghost output = { λ kind. Some (lines.script_fault_name kind.0) };

    fn fmt<W: fmt::Write>(&self, f: &mut fmt::Formatter<W>) -> fmt::Result {
        match self.0 {
            1 => write!(f, "BadCsv"),
            2 => write!(f, "UnknownRow"),
            3 => write!(f, "FieldCount"),
            4 => write!(f, "BadNumber"),
            5 => write!(f, "BadLabel"),
            6 => write!(f, "UnknownLabel"),
            7 => write!(f, "Duplicate"),
            8 => write!(f, "OverLimit"),
            9 => write!(f, "SetupRefused"),
            10 => write!(f, "BadSwap"),
            _ => write!(f, "NoBatch"),
        }
    }
}

/// A setup code after a space, and nothing for 0.
#[derive(Clone, Copy)]
pub(crate) struct CodeWord(pub(crate) u8);

impl fmt::Display for CodeWord {
    ghost output = { λ code. Some (lines.code_text code.0) };

    fn fmt<W: fmt::Write>(&self, f: &mut fmt::Formatter<W>) -> fmt::Result {
        let code = self.0;
        if code == 0 {
            Ok(())
        } else {
            write!(f, " {code}")
        }
    }
}

/// The name of a fault of a dump.
#[derive(Clone, Copy)]
pub(crate) struct DumpFaultName(pub(crate) u8);

impl fmt::Display for DumpFaultName {
    ghost output = { λ kind. Some (lines.dump_fault_name kind.0) };

    fn fmt<W: fmt::Write>(&self, f: &mut fmt::Formatter<W>) -> fmt::Result {
        match self.0 {
            1 => write!(f, "Grammar"),
            2 => write!(f, "Size"),
            3 => write!(f, "Padding"),
            4 => write!(f, "Flags"),
            5 => write!(f, "Field"),
            6 => write!(f, "Slab"),
            7 => write!(f, "Ring"),
            8 => write!(f, "Event"),
            9 => write!(f, "Slots"),
            _ => write!(f, "Token"),
        }
    }
}

/// The address of an account, or `-` where there is none.
#[derive(Clone, Copy)]
pub(crate) struct AccountWord(pub(crate) Option<Address>);

impl fmt::Display for AccountWord {
    ghost output = { λ account. Some (lines.account_text account.0) };

    fn fmt<W: fmt::Write>(&self, f: &mut fmt::Formatter<W>) -> fmt::Result {
        match self.0 {
            Some(address) => write!(f, "{address}"),
            None => write!(f, "-"),
        }
    }
}

/// What does not fit.
#[derive(Clone, Copy)]
pub(crate) struct WhatWord(pub(crate) MigrateWhat);

impl fmt::Display for WhatWord {
    ghost output = { λ what. Some (lines.what_text what.0) };

    fn fmt<W: fmt::Write>(&self, f: &mut fmt::Formatter<W>) -> fmt::Result {
        match self.0 {
            MigrateWhat::Bids => write!(f, "bids"),
            MigrateWhat::Asks => write!(f, "asks"),
            MigrateWhat::Events => write!(f, "events"),
        }
    }
}

//! A flaw as numbers.

ghost use Rattle.std.specs.Prelude.{◌≡◌};
ghost use Rattle.dex_abi.specs.Flaws as spec;

use crate::numbers::Wide;
use crate::telling::wide;
use dex_check::{Finding, Flaw};
use dex_types::{AccountFault, Address};

/// The first thing that is wrong with accounts, as numbers. A field that `what` does not name is 0:
///
/// | `what` | Flaw | Fields |
/// |---|---|---|
/// | 0 | none | |
/// | 1 | `Fault` | `kind` of a faulty dump, `account`, `place`, `found`, `wanted` |
/// | 2 | `Twice` | `account` |
/// | 3 | `Found` | `kind` of an audit's finding, `account`, `place`, `found`, `wanted` |
#[repr(C)]
#[derive(Clone, Copy)]
pub struct FlawNumbers {
    pub what: u8,
    pub kind: u8,
    pub place: u32,
    pub found: Wide,
    pub wanted: Wide,
    pub account: [u8; 32],
}

/// The numbers of no flaw: all are 0.
fn no_flaw() -> FlawNumbers
    ensures { result ≡ spec.no_flaw }
{
    let zero = Wide { low: 0, high: 0 };
    FlawNumbers {
        what: 0,
        kind: 0,
        place: 0,
        found: zero,
        wanted: zero,
        account: [0; 32],
    }
}

/// The numbers of a flaw, or of none.
pub fn flaw_numbers(flaw: Option<Flaw>) -> FlawNumbers
    ensures { result ≡ spec.flaw_numbers flaw }
{
    match flaw {
        None => no_flaw(),
        Some(Flaw::Fault(account, fault)) => fault_numbers(account, fault),
        Some(Flaw::Twice(account)) => twice_numbers(account),
        Some(Flaw::Found(finding)) => finding_numbers(finding),
    }
}

/// The numbers of an address that two accounts have.
fn twice_numbers(account: Address) -> FlawNumbers
    ensures { result ≡ spec.twice_numbers account }
{
    let Address(account) = account;
    FlawNumbers {
        what: 2,
        account,
        ..no_flaw()
    }
}

/// The numbers of an account's fault.
fn fault_numbers(account: Address, fault: AccountFault) -> FlawNumbers
    ensures { result ≡ spec.fault_numbers account fault }
{
    let Address(account) = account;
    FlawNumbers {
        what: 1,
        kind: fault.kind,
        place: fault.place,
        found: wide(fault.found),
        wanted: wide(fault.wanted),
        account,
    }
}

/// The numbers of a finding.
fn finding_numbers(finding: Finding) -> FlawNumbers
    ensures { result ≡ spec.finding_numbers finding }
{
    let Address(account) = finding.account;
    FlawNumbers {
        what: 3,
        kind: finding.kind,
        place: finding.place,
        found: wide(finding.found),
        wanted: wide(finding.wanted),
        account,
    }
}

//! A script as far as it is read.

ghost use Rattle.std.specs.Prelude.{◌≡◌, ◌++◌, IfOk, map};
ghost use Rattle.dex_types.specs.Accounts.{accounts_of};
ghost use Rattle.dex_types.specs.Rows.{row_of};
ghost use Rattle.dex_state.specs.Accepted.{AreAccepted};
ghost use Rattle.dex_script_types.specs.Facts.{IsScript};
ghost use Rattle.dex_script_types.specs.Places.{AreBeside, ArePlaced};
ghost use Rattle.dex_script.specs.Drafts as spec;
ghost use Rattle.dex_script.specs.Telling.{draft_of, start_of};

use crate::market::DeclaredMarket;
use crate::markets::{all_accounts, declared};
use crate::mints::Mints;
use crate::taken::taken_addresses;
use dex_dump::TakenAddresses;
use dex_script_types::{RowList, Script};
use dex_types::{Accounts, Address, Limits, Named, NoMemory, Program, Row};
use dex_world::RowPlaces;
use std::alloc::Global;

/// The accounts with which a script starts, as far as they are declared.
#[derive(Drop)]
pub(crate) struct Start {
    pub(crate) mints: Mints,
    pub(crate) srm: Option<Address>,
    pub(crate) msrm: Option<Address>,
    pub(crate) wallets: Vec<Named>,
    pub(crate) markets: Vec<DeclaredMarket>,
}

/// A script as far as its rows are read, with what the next rows are held against.
#[derive(Drop)]
pub(crate) struct Draft {
    pub(crate) start: Start,
    /// The rows of pieces that were read before.
    pub(crate) before: RowList,
    /// The rows of the piece that is read.
    pub(crate) rows: Vec<Row>,
    pub(crate) lanes: u32,
    pub(crate) program: Program,
    /// Every address that is taken.
    pub(crate) taken: TakenAddresses,
    /// The clock of the next instruction row.
    pub(crate) clock: i64,
    /// No row stands before the next one, but those of a dump.
    pub(crate) is_first: bool,
    /// Setup rows come too late.
    pub(crate) is_late: bool,
    /// How many instruction rows there are, where a swap is one.
    pub(crate) items: u32,
    /// The script is to act in batches.
    pub(crate) batch: bool,
    /// How much is read.
    pub(crate) limits: Limits,
}

impl Draft {
    /// The draft without rows.
    pub(crate) fn new(alloc: Global, batch: bool, limits: Limits) -> Draft
        ensures { draft_of result ≡ spec.no_rows limits batch }
    {
        Draft {
            start: Start {
                mints: Mints::new(alloc),
                srm: None,
                msrm: None,
                wallets: Vec::new(alloc),
                markets: Vec::new(alloc),
            },
            before: RowList::new(alloc),
            rows: Vec::new(alloc),
            lanes: 1,
            program: Program::Serum,
            taken: TakenAddresses::new(alloc),
            clock: 0,
            is_first: true,
            is_late: false,
            items: 0,
            batch,
            limits,
        }
    }

    /// After the dump of these accounts.
    pub(crate) fn behind_dump(
        alloc: Global,
        accounts: Accounts,
        batch: bool,
        limits: Limits,
    ) -> Result<Draft, NoMemory>
        requires { AreAccepted limits (accounts_of accounts) }
        ensures { IfOk result (λ draft. draft_of draft ≡ spec.behind_dump limits batch (accounts_of accounts)) }
    {
        let taken = taken_addresses(alloc, &accounts)?;
        let markets = declared(alloc, accounts.markets)?;
        Ok(Draft {
            start: Start {
                mints: Mints::of(accounts.mints),
                srm: accounts.srm,
                msrm: accounts.msrm,
                wallets: accounts.wallets,
                markets,
            },
            before: RowList::new(alloc),
            rows: Vec::new(alloc),
            lanes: 1,
            program: Program::Serum,
            taken,
            clock: 0,
            is_first: true,
            is_late: true,
            items: 0,
            batch,
            limits,
        })
    }

    /// What was read, as a script, with the places of each row.
    pub(crate) fn into_script(
        self,
        alloc: Global,
        places: Vec<RowPlaces>,
    ) -> Result<Script, NoMemory>
        requires script { IsScript (draft_of self).script }
        requires placed { ArePlaced (start_of self.start) (map row_of (self.before ++ self.rows.items)) places.items }
        requires beside { AreBeside (map row_of (self.before ++ self.rows.items)) places.items }
        ensures { IfOk result (λ script. script ≡ (draft_of self).script) }
    {
        let Start {
            mints,
            srm,
            msrm,
            wallets,
            markets,
        } = self.start;
        let markets = all_accounts(alloc, markets)?;
        let mut rows = self.before;
        rows.push_piece(self.rows)?;
        Ok(Script {
            start: Accounts {
                mints: mints.into_accounts(),
                srm,
                msrm,
                wallets,
                markets,
            },
            rows,
            places,
            lanes: self.lanes,
            program: self.program,
            limits: self.limits,
        })
    }
}

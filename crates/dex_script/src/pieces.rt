//! Rows after an instruction row, read in pieces: each beside the others, and then put together.

ghost use Rattle.std.specs.Prelude.{◌≡◌, ◌≤◌, ◌+◌, ◌&&◌, IfOk, map, not, true};
ghost use Rattle.dex_types.specs.Accounts.{accounts_of, named_of};
ghost use Rattle.dex_script_types.specs.Facts.{IsScript};
ghost use Rattle.dex_script.specs.Pieces as spec;

use crate::draft::{Draft, Start};
use crate::market::DeclaredMarket;
use crate::mints::Mints;
use crate::reader::Reader;
use dex_dump::TakenAddresses;
use dex_script_types::{RowList, Script};
use dex_types::{Accounts, Named, NoMemory};
use std::alloc::{AllocError, Global};

impl Reader {
    /// Whether an instruction row was read, or any row after a dump: neither setup rows nor one that chooses the
    /// program may follow.
    pub fn is_underway(&self) -> bool
        ensures { result ≡ (self.now.is_late && not self.now.is_first) }
    {
        self.draft.is_late && !self.draft.is_first
    }

    /// The clock of the next instruction row.
    pub fn clock(&self) -> i64
        ensures { result ≡ self.now.clock }
    {
        self.draft.clock
    }

    /// How many instruction rows were read, where a swap is one.
    pub fn items(&self) -> u32
        ensures { result ≡ self.now.items }
    {
        self.draft.items
    }

    /// A reader of rows further on, for the same markets and wallets, which has read none of them; their clock is this
    /// one.
    pub fn beside(&self, alloc: Global, clock: i64) -> Result<Reader, AllocError>
        ensures { IfOk result (λ piece. piece ≡ spec.beside self.now clock) }
    {
        let start = Start {
            mints: Mints::new(alloc),
            srm: None,
            msrm: None,
            wallets: bare_wallets(alloc, &self.draft.start.wallets)?,
            markets: bare_markets(alloc, &self.draft.start.markets)?,
        };
        let draft = Draft {
            start,
            before: RowList::new(alloc),
            rows: Vec::new(alloc),
            lanes: 0,
            program: self.draft.program,
            taken: TakenAddresses::new(alloc),
            clock,
            is_first: false,
            is_late: true,
            items: 0,
            batch: self.draft.batch,
            limits: self.draft.limits,
        };
        Ok(Reader {
            draft,
            places: Vec::new(alloc),
            names: None,
        })
    }

    /// Whether there is room for as many instruction rows as a piece has.
    pub fn has_room(&self, piece: &Reader) -> bool
        ensures { result ≡ true → self.now.items + piece.now.items ≤ self.now.script.limits.items }
    {
        let most = self.draft.limits.items;
        piece.draft.items <= most && self.draft.items <= most - piece.draft.items
    }

    /// The rows that were read, as a script that starts with other accounts of the same markets and wallets; and this
    /// reader without them, for the rows behind. No row is moved, and the names stay.
    pub fn into_part(self, alloc: Global, start: Accounts) -> Result<(Script, Reader), NoMemory>
        requires script { IsScript (spec.part_of self (accounts_of start)) }
        requires places { spec.HaveSamePlaces self.script.start (accounts_of start) }
        ensures script { IfOk result (λ both. both.0 ≡ spec.part_of self (accounts_of start)) }
        ensures reader { IfOk result (λ both. both.1 ≡ spec.cleared self) }
    {
        let mut draft = self.draft;
        let mut rows = draft.before;
        rows.push_piece(draft.rows)?;
        let script = Script {
            start,
            rows,
            places: self.places,
            lanes: draft.lanes.max(1),
            program: draft.program,
            limits: draft.limits,
        };
        draft.before = RowList::new(alloc);
        draft.rows = Vec::new(alloc);
        draft.lanes = 0;
        draft.items = 0;
        let reader = Reader {
            draft,
            places: Vec::new(alloc),
            names: self.names,
        };
        Ok((script, reader))
    }

    /// What is read with the rows of a piece after, which name the same markets and wallets. No row is moved.
    pub fn join(self, piece: Reader) -> Result<Reader, NoMemory>
        requires alike { spec.AreAlike self piece }
        requires room { self.items + piece.items ≤ self.script.limits.items }
        ensures { IfOk result (λ both. both ≡ spec.joined self piece) }
    {
        let mut draft = self.draft;
        let mut places = self.places;
        let more = piece.draft;
        let mut others = piece.places;
        let read = draft.rows;
        draft.rows = more.rows;
        draft.before.push_piece(read)?;
        draft.before.append(more.before)?;
        places.append(&mut others)?;
        draft.lanes = draft.lanes.max(more.lanes);
        draft.clock = more.clock;
        draft.items += more.items;
        Ok(Reader {
            draft,
            places,
            names: self.names,
        })
    }
}

// Wallets of these addresses without bytes.
fn bare_wallets(alloc: Global, wallets: &[Named]) -> Result<Vec<Named>, AllocError>
    ensures { IfOk result (λ bare. map named_of bare.items ≡ map spec.bare_wallet (map named_of wallets.now)) }
{
    let mut bare = Vec::new(alloc);
    for wallet in wallets {
        bare.push(Named {
            address: wallet.address,
            bytes: Vec::new(alloc),
        })?;
    }
    Ok(bare)
}

// These markets without accounts.
fn bare_markets(
    alloc: Global,
    markets: &[DeclaredMarket],
) -> Result<Vec<DeclaredMarket>, AllocError>
    ensures { IfOk result (λ bare. bare.items ≡ map spec.bare_market markets.now) }
{
    let mut bare = Vec::new(alloc);
    for market in markets {
        bare.push(market.bare(alloc))?;
    }
    Ok(bare)
}

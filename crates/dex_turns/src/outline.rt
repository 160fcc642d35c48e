//! What a bank keeps of its script.

ghost use Rattle.std.specs.Prelude.{◌≡◌, ◌<◌, ◌≤◌, IfOk, IfSome, Some, length, true};
ghost use Rattle.std.specs.List.{position};
ghost use Rattle.dex_types.specs.Addresses.{is_same};
ghost use Rattle.dex_types.specs.Rows.{row_of};
ghost use Rattle.dex_script_types.specs.Facts.{IsRowOf};
ghost use Rattle.dex_script_types.specs.Known.{has_market};
ghost use Rattle.dex_script_types.specs.Places.{IsPlaced, market_place};
ghost use Rattle.dex_world.specs.Places.{AreWalletsAt};
ghost use Rattle.dex_turns.specs.Turns.{place_of};

use dex_act::{AsRow, Terms};
use dex_script_types::{
    FindsWallets, Script, addresses_of_markets, addresses_of_wallets, wallets_at,
};
use dex_stamps::Kept;
use dex_types::{Address, NoMemory, Row, is_same};
use dex_world::{RowPlaces, RowWallets};
use std::alloc::Global;
use std::marker::Model;

/// What a bank keeps of its script beside the cells: how many lanes it has, what its rows see beside their wallets, and
/// the addresses of its markets and wallets.
#[derive(Drop)]
pub struct Outline {
    pub(crate) lanes: u32,
    pub(crate) terms: Terms,
    pub(crate) markets: Vec<Address>,
    pub(crate) wallets: Vec<Address>,
    pub(crate) script: Kept<Script>,
}

impl Model for Outline {
    ghost use Rattle.dex_script_types.specs.PlainScript.{PlainScript};
    ghost use Rattle.dex_turns.specs.Outline.{IsOutline, outlined};

    ghost Value = { PlainScript };

    ghost view = { outlined };

    ghost invariant = { IsOutline };
}

impl Outline {
    /// The outline of a script. Asks memory.
    pub fn of(alloc: Global, script: &Script) -> Result<Outline, NoMemory>
        ensures { IfOk result (λ outline. outline ≡ script.now) }
    {
        let markets = addresses_of_markets(alloc, &script.start.markets)?;
        let wallets = addresses_of_wallets(alloc, &script.start.wallets)?;
        Ok(Outline {
            lanes: script.lanes,
            terms: Terms {
                srm: script.start.srm,
                msrm: script.start.msrm,
                program: script.program,
            },
            markets,
            wallets,
            script: Kept::of(script),
        })
    }

    /// How many lanes the script has.
    pub fn lanes(&self) -> u32
        ensures lanes { result ≡ self.now.lanes }
        ensures some { 1 ≤ result }
        ensures few { result ≤ 16 }
    {
        self.lanes
    }

    /// The script, for clauses.
    pub fn kept(&self) -> Kept<Script>
        ensures { result.value ≡ self.now }
    {
        self.script.same()
    }

    /// What stands beside a row: its number, its lane, and the places of its market and wallets among those of the
    /// script.
    pub(crate) fn places_of<W: AsRow>(&self, row: &W) -> RowPlaces
        requires row { IsRowOf self.now.start (row_of (W.is row.now)) }
        requires placed { IfSome (W.at row.now) (IsPlaced self.now.start (row_of (W.is row.now))) }
        ensures { IsPlaced self.now.start (row_of (W.is row.entry.now)) result }
    {
        match row.places() {
            Some(places) => places,
            None => self.look_up(row.row()),
        }
    }

    // The places of a row, looked up.
    fn look_up(&self, row: &Row) -> RowPlaces
        requires { IsRowOf self.now.start (row_of row.now) }
        ensures { IsPlaced self.now.start (row_of row.entry.now) result }
    {
        RowPlaces {
            number: row.number,
            lane: row.lane,
            market: self.market_of(row.market),
            wallets: self.wallets_of(row),
        }
    }

    // The place of the market of an address.
    fn market_of(&self, address: Address) -> u16
        requires { has_market address self.now.start.markets ≡ true }
        ensures { market_place address self.now.start.markets ≡ Some result }
    {
        match place_among(&self.markets, address) {
            Some(place) => place,
            // By the condition it is among them.
            None => unreachable!(),
        }
    }

    // The places of the wallets of a row.
    fn wallets_of(&self, row: &Row) -> RowWallets
        requires { IsRowOf self.now.start (row_of row.now) }
        ensures { AreWalletsAt (place_of self.now) (row_of row.entry.now).coin (row_of row.entry.now).pc
            (row_of row.entry.now).discount (row_of row.entry.now).referrer result }
    {
        match wallets_at(self, row.coin, row.pc, row.discount, row.referrer) {
            Some(wallets) => wallets,
            // By the condition all of them are found.
            None => unreachable!(),
        }
    }
}

impl FindsWallets for Outline {
    ghost place = { place_of };

    fn find(&self, address: Address) -> Option<u16> {
        place_among(&self.wallets, address)
    }
}

/// The place of an address among these.
fn place_among(addresses: &[Address], address: Address) -> Option<u16>
    requires few { length addresses.now ≤ 65535 }
    ensures { result ≡ position (is_same address) addresses.now }
{
    match find(addresses, address) {
        Some(place) => Some(place as u16),
        None => None,
    }
}

/// The place of an address among these.
fn find(addresses: &[Address], address: Address) -> Option<usize>
    ensures within { IfSome result (λ place. place < length addresses.now) }
    ensures place { result ≡ position (is_same address) addresses.now }
{
    addresses.iter().position(|other| is_same(address, *other))
}

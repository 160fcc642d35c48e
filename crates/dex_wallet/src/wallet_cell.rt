//! A wallet's cell.

ghost use Rattle.std.specs.Prelude.{◌≡◌, ◌+◌, ◌-◌, ◌<◌, ◌≤◌, ◌^◌, length, IfOk};

use crate::account::{balance, set_balance};
use crate::parcel::{Parcel, Share};
use dex_token::WalletRef;
use dex_types::{Address, MoveKind, NoMemory, WalletEntry, WalletSeen};
use std::alloc::Global;
use std::marker::Model;

/// A wallet: its token account, the parcel that the account's amount is, and the journal of its movements.
///
/// The token account is always the one that the cell was made with, with the amount after all movements. Where a cell
/// is dropped its parcel is given up. What a cell keeps stays where it is when the cell goes from hand to hand.
#[derive(Debug, Drop)]
pub struct WalletCell {
    kept: Box<Kept>,
}

/// What a cell keeps.
#[derive(Debug, Drop)]
struct Kept {
    address: Address,
    bytes: Vec<u8>,
    share: Share,
    starting: u64,
    entries: Vec<WalletEntry>,
    room: usize,
}

impl Model for WalletCell {
    ghost use Rattle.dex_wallet.specs.CellState.{CellState};

    ghost Value = { CellState };

    ghost use Rattle.dex_wallet.specs.CellInside.{IsKept, kept_cell};

    ghost view = { λ cell. kept_cell cell.kept.value };

    ghost invariant = { λ cell. IsKept cell.kept.value };
}

impl WalletCell {
    ghost use Rattle.dex_token.specs.TokenAccount.{IsWallet, wallet_words};
    ghost use Rattle.dex_wallet.specs.TokenAmount.{held_in};
    ghost use Rattle.dex_wallet.specs.CellState.{HasSpare, IsWalletCell, balance_of, movement, new_cell};
    ghost use Rattle.dex_wallet.specs.CellState.{moved_by, seen_of};

    /// The cell of a token account and of the parcel that its amount is, with room for this many movements. Where there
    /// is no memory for them, both are given up.
    pub fn new(
        alloc: Global,
        address: Address,
        bytes: Vec<u8>,
        share: Parcel,
        room: usize,
    ) -> Result<WalletCell, NoMemory>
        requires accepted { IsWallet bytes.items }
        requires share { share ≡ held_in bytes.items }
        ensures { IfOk result (λ cell. cell ≡ new_cell address bytes.items room) }
    {
        let share = Share { parcel: share };
        let entries = Vec::with_capacity(alloc, room)?;
        let starting = balance(&bytes);
        let kept = Kept {
            address,
            bytes,
            share,
            starting,
            entries,
            room,
        };
        Ok(WalletCell {
            kept: Box::new(alloc, kept)?,
        })
    }

    /// The address of the token account.
    pub fn address(&self) -> Address
        ensures address { result ≡ self.now.address }
        ensures cell { IsWalletCell self.now }
    {
        self.kept.address
    }

    /// What a row sees of the wallet.
    pub fn seen(&self) -> WalletSeen
        ensures seen { result ≡ seen_of self.now }
        ensures cell { IsWalletCell self.now }
    {
        let wallet = WalletRef {
            bytes: &self.kept.bytes,
        };
        WalletSeen {
            address: self.kept.address,
            mint: wallet.mint(),
            owner: wallet.owner(),
            balance: wallet.amount(),
        }
    }

    /// For how many further movements there is room.
    pub fn spare(&self) -> usize
        ensures spare { result ≡ self.now.room - length self.now.entries }
        ensures cell { IsWalletCell self.now }
    {
        self.kept.room - self.kept.entries.len()
    }

    /// The movements, from the first to the last.
    pub fn entries(&self) -> &[WalletEntry]
        ensures entries { result.now ≡ self.now.entries }
        ensures cell { IsWalletCell self.now }
    {
        &self.kept.entries
    }

    /// The token account.
    pub fn bytes(&self) -> &[u8]
        ensures bytes { result.now ≡ self.now.bytes }
        ensures cell { IsWalletCell self.now }
    {
        &self.kept.bytes
    }

    /// A movement, by a row of this number that this lane submits to this market.
    fn movement(
        &self,
        market: Address,
        lane: u32,
        row: u32,
        kind: MoveKind,
        amount: u64,
    ) -> WalletEntry
        ensures entry { result ≡ movement self.now market lane row kind amount }
        ensures fits { balance_of self.now.bytes < 2 ^ 64 }
        ensures cell { IsWalletCell self.now }
    {
        WalletEntry {
            market,
            lane,
            row,
            kind,
            amount,
            before: balance(&self.kept.bytes),
        }
    }

    /// A row of this number, which this lane submits to this market, looks at the balance.
    pub fn probe(&mut self, market: Address, lane: u32, row: u32)
        requires { HasSpare self.old }
        ensures moved { self.new ≡ moved_by self.old market lane row MoveKind.Probe 0 }
        ensures bytes { self.new.bytes ≡ self.old.bytes }
        ensures cell { IsWalletCell self.new }
    {
        let probe = self.movement(market, lane, row, MoveKind::Probe, 0);
        self.kept.entries.push_reserved(probe);
    }

    /// A row of this number, which this lane submits to this market, takes an amount out, as a parcel.
    pub fn debit(&mut self, market: Address, lane: u32, row: u32, amount: u64) -> Parcel
        requires spare { HasSpare self.old }
        requires some { 1 ≤ amount }
        requires funds { amount ≤ balance_of self.old.bytes }
        ensures parcel { result ≡ record { mint = (wallet_words self.old.bytes).mint; amount = amount } }
        ensures moved { self.new ≡ moved_by self.old market lane row MoveKind.Debit amount }
        ensures words { wallet_words self.new.bytes
            ≡ record (wallet_words self.old.bytes) { amount = balance_of self.old.bytes - amount } }
        ensures cell { IsWalletCell self.new }
    {
        let debit = self.movement(market, lane, row, MoveKind::Debit, amount);
        let kept = self.kept.as_mut();
        kept.entries.push_reserved(debit);
        set_balance(&mut kept.bytes, debit.before - amount);
        kept.share.parcel.take(amount)
    }

    /// A row of this number, which this lane submits to this market, puts a parcel in.
    pub fn credit(&mut self, market: Address, lane: u32, row: u32, parcel: Parcel)
        requires spare { HasSpare self.old }
        requires mint { parcel.mint ≡ (wallet_words self.old.bytes).mint }
        requires some { 1 ≤ parcel.amount }
        requires fits { balance_of self.old.bytes + parcel.amount < 2 ^ 64 }
        ensures moved { self.new ≡ moved_by self.old market lane row MoveKind.Credit parcel.amount }
        ensures words { wallet_words self.new.bytes
            ≡ record (wallet_words self.old.bytes) { amount = balance_of self.old.bytes + parcel.amount } }
        ensures cell { IsWalletCell self.new }
    {
        let amount = parcel.amount();
        let credit = self.movement(market, lane, row, MoveKind::Credit, amount);
        let kept = self.kept.as_mut();
        kept.entries.push_reserved(credit);
        set_balance(&mut kept.bytes, credit.before + amount);
        kept.share.parcel.put(parcel);
    }

    /// The token account and the movements, as they are. The parcel is given up.
    pub fn into_parts(self) -> (Vec<u8>, Vec<WalletEntry>)
        ensures bytes { result.0.items ≡ self.bytes }
        ensures entries { result.1.items ≡ self.entries }
        ensures cell { IsWalletCell self }
    {
        let WalletCell { kept } = self;
        let Kept { bytes, entries, .. } = Box::into_inner(kept);
        (bytes, entries)
    }
}

//! Parcels of a supply, and a wallet's cell.

use dex_token::{WalletRef, check_wallet};
use dex_types::{Address, MoveKind, WalletEntry};
use dex_wallet::{Parcel, WalletCell};
use std::alloc::Global;
use std::process::Abort;
use std::test::Fail;

const MARKET: Address = Address([3; 32]);

/// A token account of 400 native units.
fn account() -> [u8; 165] {
    let mut bytes = [0; 165];
    bytes[..32].copy_from_slice(&[1; 32]);
    bytes[32..64].copy_from_slice(&[2; 32]);
    bytes[64..66].copy_from_slice(&[144, 1]);
    bytes[108] = 1;
    bytes
}

/// A cell of what the account holds of a supply of 1000, with room for two movements, and the rest of the supply.
fn cell(rt: &impl Abort, alloc: Global) -> Result<(WalletCell, Parcel), Fail> {
    let bytes = account().to_vec(alloc)?;
    check_wallet(&bytes)?;
    let wallet = WalletRef { bytes: &bytes };
    let (mint, amount) = (wallet.mint(), wallet.amount());
    assert!(rt; amount == 400);
    let (first, rest) = Parcel::of_supply(mint, 1000).split(amount);
    match WalletCell::new(alloc, Address([4; 32]), bytes, first, 2) {
        Ok(cell) => Ok((cell, rest)),
        Err(error) => {
            rest.give_up();
            Err(error)?
        }
    }
}

/// A movement of a row of this number.
fn moved(row: u32, kind: MoveKind, amount: u64, before: u64) -> WalletEntry {
    WalletEntry {
        market: MARKET,
        lane: 3,
        row,
        kind,
        amount,
        before,
    }
}

#[test]
fn amounts_move_as_parcels(rt: HostRuntime) -> Result<(), Fail> {
    let (mut cell, rest) = cell(&rt, rt.alloc())?;
    assert!(rt; cell.spare() == 2);
    assert!(rt; cell.seen().balance == 400);
    let taken = cell.debit(MARKET, 3, 7, 150);
    assert!(rt; cell.spare() == 1);
    let (back, kept) = taken.split(50);
    assert!(rt; back.mint() == cell.seen().mint);
    assert!(rt; cell.seen().balance == 250);
    cell.credit(MARKET, 3, 8, back);
    assert!(rt; cell.seen().balance == 300);
    assert!(rt; cell.spare() == 0);
    let entries = [
        moved(7, MoveKind::Debit, 150, 400),
        moved(8, MoveKind::Credit, 50, 250),
    ];
    assert!(rt; cell.entries() == entries.as_slice());
    assert!(rt; (kept.amount(), rest.amount()) == (100, 600));
    kept.give_up();
    rest.give_up();
    Ok(())
}

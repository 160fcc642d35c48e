//! Parcels that a row pays into the vaults and out of them.

ghost use Rattle.std.specs.Prelude.{◌≡◌, ◌+◌, ◌-◌, ◌<◌, ◌≤◌, ◌^◌};
ghost use Rattle.dex_cell.specs.Paying.{CanMoveShare, moved_share, parcel_of};

use dex_movements::Amounts;
use dex_wallet::Parcel;

/// The parcels that a row's wallets pay in, each None exactly where it pays nothing: the `coin` wallet's in the base
/// mint of the market, the `pc` wallet's in its quote mint.
#[derive(Debug)]
pub struct Deposits {
    pub coin: Option<Parcel>,
    pub pc: Option<Parcel>,
}

/// The parcels that a row pays out, each None exactly where it pays nothing: the `coin` wallet's in the market's base
/// mint, the `pc` wallet's and the `referrer` wallet's in its quote mint.
#[derive(Debug)]
pub struct Payouts {
    pub coin: Option<Parcel>,
    pub pc: Option<Parcel>,
    pub referrer: Option<Parcel>,
}

/// The parcels that a market's two vaults are. They are given up where its cell is dropped.
pub(crate) struct Vaults {
    pub(crate) coin: Parcel,
    pub(crate) pc: Parcel,
}

impl Drop for Vaults {
    fn drop(self) {
        let Vaults { coin, pc } = self;
        coin.give_up();
        pc.give_up();
    }
}

/// Puts what a wallet pays into a vault's parcel.
fn bring_in(share: &mut Parcel, parcel: Option<Parcel>, amount: u64)
    requires fits { share.old.amount + amount < 2 ^ 64 }
    requires brought { parcel ≡ parcel_of share.old.mint amount }
    ensures { share.new ≡ record share.old { amount = share.old.amount + amount } }
{
    let _ = amount;
    match parcel {
        Some(parcel) => share.put(parcel),
        None => {}
    }
}

/// Takes a parcel out of a vault's, None where it is to be nothing.
fn take_out(share: &mut Parcel, amount: u64) -> Option<Parcel>
    requires { amount ≤ share.old.amount }
    ensures taken { result ≡ parcel_of share.old.mint amount }
    ensures rest { share.new ≡ record share.old { amount = share.old.amount - amount } }
{
    if amount == 0 {
        None
    } else {
        Some(share.take(amount))
    }
}

/// Takes the payouts of a row out of the parcels of its market's vaults, and puts in what its wallets pay.
pub(crate) fn pay(
    coin: &mut Parcel,
    pc: &mut Parcel,
    amounts: &Amounts,
    deposits: Deposits,
) -> Payouts
    requires coin { CanMoveShare coin.old amounts.now.coin_out amounts.now.coin_in deposits.coin }
    requires pc { CanMoveShare pc.old (amounts.now.pc_out + amounts.now.referrer_out) amounts.now.pc_in deposits.pc }
    ensures paid { result ≡ record {
      coin = parcel_of coin.old.mint amounts.now.coin_out;
      pc = parcel_of pc.old.mint amounts.now.pc_out;
      referrer = parcel_of pc.old.mint amounts.now.referrer_out;
    } }
    ensures coin { coin.new ≡ moved_share coin.old amounts.now.coin_out amounts.now.coin_in }
    ensures pc { pc.new ≡ moved_share pc.old (amounts.now.pc_out + amounts.now.referrer_out) amounts.now.pc_in }
{
    let Deposits {
        coin: coin_in,
        pc: pc_in,
    } = deposits;
    let payouts = Payouts {
        coin: take_out(coin, amounts.coin_out),
        pc: take_out(pc, amounts.pc_out),
        referrer: take_out(pc, amounts.referrer_out),
    };
    bring_in(coin, coin_in, amounts.coin_in);
    bring_in(pc, pc_in, amounts.pc_in);
    payouts
}

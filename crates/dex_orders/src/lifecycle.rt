//! How an open-orders account is opened and closed.

ghost use Rattle.std.specs.Prelude.{◌≡◌, ◌↔◌, length};
ghost use Rattle.dex_fields.specs.Bytes.{IsWithin, with_bytes, with_number};
ghost use Rattle.dex_types.specs.Trader.{no_slots};
ghost use Rattle.dex_orders.specs.OrdersAccount.{IsBlank, IsClosed, IsEmptyAccount, IsOpen, IsOrders, account_of, market_of, opened};

use bitflags::Flags;
use dex_fields::open_orders::{ACCOUNT_FLAGS, FREE_SLOT_BITS, MARKET, OWNER, PADDING, SERUM};
use dex_fields::{END_TEXT, FRONT_TEXT, Field, get_u64, put_addr, put_u64, put_u128};
use dex_types::{AccountFlags, Address};

/// What became of an open-orders account so far.
#[derive(Clone, Copy, Debug, PartialEq, Eq)]
pub enum OrdersState {
    /// Reserved, and never opened.
    Blank,
    /// A trader's account.
    Open,
    /// Closed for good.
    Closed,
}

/// Whether the account was opened, and whether it was closed since.
pub fn state_of(bytes: &[u8]) -> OrdersState
    requires { IsOrders bytes.now }
    ensures blank { (result ≡ OrdersState.Blank) ↔ IsBlank bytes.now }
    ensures open { (result ≡ OrdersState.Open) ↔ IsOpen bytes.now }
    ensures closed { (result ≡ OrdersState.Closed) ↔ IsClosed bytes.now }
{
    let flags = AccountFlags::from_bits_retain(get_u64(bytes, ACCOUNT_FLAGS));
    if flags == AccountFlags::OPEN_ORDERS_ACCOUNT {
        OrdersState::Open
    } else if flags == AccountFlags::CLOSED_ACCOUNT {
        OrdersState::Closed
    } else {
        OrdersState::Blank
    }
}

fn write_text(bytes: &mut [u8], field: Field, text: &[u8])
    requires within { IsWithin field bytes.old }
    requires whole { length text.now ≡ field.len }
    ensures { bytes.new ≡ with_bytes bytes.old field text.now }
{
    bytes[field.at..field.at + field.len].copy_from_slice(text);
}

/// Opens a blank account for its owner on the market: without funds, and with 128 free slots.
pub fn init(bytes: &mut [u8], market: Address, owner: Address)
    requires { IsBlank bytes.old }
    ensures bytes { bytes.new ≡ opened bytes.old market owner }
    ensures market { market_of bytes.new ≡ market }
    ensures words { account_of bytes.new ≡ record {
      person = owner;
      coin = record { free = 0; total = 0 };
      pc = record { free = 0; total = 0 };
      referrer = 0;
      slots = no_slots;
    } }
    ensures accepted { IsOpen bytes.new }
{
    write_text(bytes, SERUM, &FRONT_TEXT);
    put_u64(bytes, ACCOUNT_FLAGS, AccountFlags::OPEN_ORDERS_ACCOUNT.0);
    put_addr(bytes, MARKET, market.0);
    put_addr(bytes, OWNER, owner.0);
    put_u128(bytes, FREE_SLOT_BITS, u128::MAX);
    write_text(bytes, PADDING, &END_TEXT);
}

/// Closes an account without funds and orders for good. It writes the flags; all other bytes stay.
pub fn close(bytes: &mut [u8])
    requires accepted { IsOpen bytes.old }
    requires empty { IsEmptyAccount (account_of bytes.old) }
    ensures bytes { bytes.new ≡ with_number bytes.old ACCOUNT_FLAGS 256 }
    ensures market { market_of bytes.new ≡ market_of bytes.old }
    ensures words { account_of bytes.new ≡ account_of bytes.old }
    ensures accepted { IsClosed bytes.new }
{
    put_u64(bytes, ACCOUNT_FLAGS, AccountFlags::CLOSED_ACCOUNT.0);
}

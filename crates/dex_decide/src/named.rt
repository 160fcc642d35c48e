//! The open-orders account that a row names first.

ghost use Rattle.std.specs.Prelude.{◌≡◌, MatchOption, None, Some};
ghost use Rattle.std.specs.List.{All};
ghost use Rattle.dex_types.specs.Accounts.{PlainAccount};
ghost use Rattle.dex_types.specs.declared.addresses.Address.{Address};
ghost use Rattle.dex_types.specs.Requests.{party_of};
ghost use Rattle.dex_orders.specs.OrdersAccount.{IsOrders};
ghost use Rattle.dex_orders.specs.StandsFor.{traders_of};
ghost use Rattle.dex_decide.specs.Named.{IsActing, account_by, named_in};

use dex_lent::ReadMarket;
use dex_orders::{OrdersState, state_of};
use dex_types::Address;

/// An account of a market, lent for reading: its address and its bytes.
#[derive(Clone, Copy, Debug)]
pub struct Acting<'a> {
    pub address: Address,
    pub bytes: &'a [u8],
}

/// The account that is named first, if it is one of these.
pub fn named_first<'a, M: ReadMarket>(accounts: &'a M, named: &[Address]) -> Option<Acting<'a>>
    ensures { MatchOption result (named_in named.now (M.held accounts.now).orders ≡ None)
        (λ acting. named_in named.now (M.held accounts.now).orders
        ≡ Some (account_by acting.address acting.bytes.now)) }
{
    let address = *named.first()?;
    let bytes = accounts.find_orders(address)?;
    Some(Acting { address, bytes })
}

/// The account that is named first, where it is open.
pub fn open_named<'a, M: ReadMarket>(accounts: &'a M, named: &[Address]) -> Option<Acting<'a>>
    requires { All (λ (account : PlainAccount). IsOrders account.bytes) (M.held accounts.now).orders }
    ensures { MatchOption result (party_of named.now (traders_of (M.held accounts.now).orders) ≡ None)
        (λ acting. IsActing named.now (M.held accounts.now).orders acting.address acting.bytes.now) }
{
    match named_first(accounts, named) {
        None => None,
        Some(acting) => match state_of(acting.bytes) {
            OrdersState::Open => Some(acting),
            OrdersState::Blank | OrdersState::Closed => None,
        },
    }
}

//! Copies of accounts, in buffers of their own.

ghost use Rattle.std.specs.Prelude.{◌≡◌, IfOk, map};
ghost use Rattle.dex_types.specs.Accounts.{accounts_of};

use dex_types::{Accounts, MarketAccounts, Named, NoMemory, OrdersAccount, add};
use std::alloc::Global;

/// What can be copied into buffers of its own.
trait Copied: Drop {
    /// What it holds, but for its buffers.
    ghost Held: { Type 0 };

    ghost held: { Self → Held };

    /// A copy in buffers of its own.
    fn copied(&self, alloc: Global) -> Result<Self, NoMemory>
        ensures { IfOk result (λ copy. held copy ≡ held self.now) };
}

/// A copy of each.
fn copies<T: Copied>(alloc: Global, items: &[T]) -> Result<Vec<T>, NoMemory>
    ensures { IfOk result (λ copies. map T.held copies.items ≡ map T.held items.now) }
{
    let mut copies = Vec::new(alloc);
    for item in items {
        add(&mut copies, item.copied(alloc)?)?;
    }
    Ok(copies)
}

impl Copied for Named {
    ghost use Rattle.dex_types.specs.Accounts.{PlainAccount, named_of};

    ghost Held = { PlainAccount };

    ghost held = { named_of };

    fn copied(&self, alloc: Global) -> Result<Named, NoMemory> {
        Ok(Named {
            address: self.address,
            bytes: Vec::from_slice(alloc, &self.bytes)?,
        })
    }
}

impl Copied for OrdersAccount {
    ghost use Rattle.dex_types.specs.Accounts.{PlainAccount, orders_account_of};

    ghost Held = { PlainAccount };

    ghost held = { orders_account_of };

    fn copied(&self, alloc: Global) -> Result<OrdersAccount, NoMemory> {
        Ok(OrdersAccount {
            address: self.address,
            bytes: Vec::from_slice(alloc, &self.bytes)?,
        })
    }
}

impl Copied for MarketAccounts {
    ghost use Rattle.dex_types.specs.Accounts.{PlainMarketAccounts, market_accounts_of};

    ghost Held = { PlainMarketAccounts };

    ghost held = { market_accounts_of };

    fn copied(&self, alloc: Global) -> Result<MarketAccounts, NoMemory> {
        Ok(MarketAccounts {
            address: self.address,
            authority: self.authority,
            market: Vec::from_slice(alloc, &self.market)?,
            coin_vault: Vec::from_slice(alloc, &self.coin_vault)?,
            pc_vault: Vec::from_slice(alloc, &self.pc_vault)?,
            requests: Vec::from_slice(alloc, &self.requests)?,
            events: Vec::from_slice(alloc, &self.events)?,
            bids: Vec::from_slice(alloc, &self.bids)?,
            asks: Vec::from_slice(alloc, &self.asks)?,
            orders: copies(alloc, &self.orders)?,
        })
    }
}

/// A copy of all accounts.
pub(crate) fn accounts_copy(alloc: Global, accounts: &Accounts) -> Result<Accounts, NoMemory>
    ensures { IfOk result (λ copy. accounts_of copy ≡ accounts_of accounts.now) }
{
    Ok(Accounts {
        mints: copies(alloc, &accounts.mints)?,
        srm: accounts.srm,
        msrm: accounts.msrm,
        wallets: copies(alloc, &accounts.wallets)?,
        markets: copies(alloc, &accounts.markets)?,
    })
}

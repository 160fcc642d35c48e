//! The rule of mints: a mint's supply is what wallets and vaults hold of it.

ghost use Rattle.std.specs.Prelude.{◌≡◌, ◌+◌, ◌<◌, ◌^◌, ◌++◌, All, map, OnOk};
ghost use Rattle.std.specs.List.{flat_map};
ghost use Rattle.dex_types.specs.Accounts.{PlainAccount, PlainMarketAccounts, accounts_of, market_accounts_of, named_of};
ghost use Rattle.dex_token.specs.MintAccount.{IsMint};
ghost use Rattle.dex_token.specs.TokenAccount.{IsWallet};
ghost use Rattle.dex_accounts.specs.Accepted.{IsAccepted};
ghost use Rattle.dex_state.specs.Accepted.{AreAccepted};
ghost use Rattle.dex_types.specs.declared.limits.TheConstants.{WIDE};
ghost use Rattle.dex_state.specs.Conserved as spec;
ghost use Rattle.dex_audit.specs.Supplies.{supply_off};
ghost use Rattle.dex_totals.specs.Sums.{capped};

use dex_audit_rules::{Finding, tell_differs};
use dex_token::{MintRef, WalletRef};
use dex_types::{Accounts, Address, MarketAccounts, Named, NoMemory, is_same};

/// The amount of a token account, where it is of the mint.
fn amount_of(mint: Address, bytes: &[u8]) -> u128
    requires { IsWallet bytes.now }
    ensures value { result ≡ spec.amount_of mint bytes.now }
    ensures small { result < 2 ^ 64 }
{
    let wallet = WalletRef { bytes };
    if is_same(mint, wallet.mint()) {
        u128::from(wallet.amount())
    } else {
        0
    }
}

/// What wallets hold of a mint.
fn in_wallets(mint: Address, wallets: &[Named]) -> u128
    requires { All (λ (wallet : PlainAccount). IsWallet wallet.bytes) (map named_of wallets.now) }
    ensures { result ≡ capped (spec.in_wallets mint (map named_of wallets.now)) }
{
    let mut sum: u128 = 0;
    for place in 0..wallets.len() {
        let more = amount_of(mint, &wallets[place].bytes);
        sum = sum.saturating_add(more);
    }
    sum
}

/// What the two vaults of a market hold of a mint.
fn in_vaults_of(mint: Address, market: &MarketAccounts) -> u128
    requires { IsAccepted (market_accounts_of market.now) }
    ensures value { result
        ≡ spec.amount_of mint market.now.coin_vault.items + spec.amount_of mint market.now.pc_vault.items }
    ensures small { result < 2 ^ 65 }
{
    amount_of(mint, &market.coin_vault) + amount_of(mint, &market.pc_vault)
}

/// What the vaults of markets hold of a mint.
fn in_vaults(mint: Address, markets: &[MarketAccounts]) -> u128
    requires { All IsAccepted (map market_accounts_of markets.now) }
    ensures { result ≡ capped (spec.in_vaults mint (map market_accounts_of markets.now)) }
{
    let mut sum: u128 = 0;
    for place in 0..markets.len() {
        let more = in_vaults_of(mint, &markets[place]);
        sum = sum.saturating_add(more);
    }
    sum
}

/// What the accounts hold of a mint.
fn held_of(mint: Address, accounts: &Accounts) -> u128
    requires { AreAccepted WIDE (accounts_of accounts.now) }
    ensures { result ≡ capped (spec.held_of mint (accounts_of accounts.now)) }
{
    let wallets = in_wallets(mint, &accounts.wallets);
    wallets.saturating_add(in_vaults(mint, &accounts.markets))
}

/// Tells which of these mints have another supply than what wallets and vaults hold.
pub fn tell_supplies(
    found: &mut Vec<Finding>,
    mints: &[Named],
    accounts: &Accounts,
) -> Result<(), NoMemory>
    requires mints { All (λ (mint : PlainAccount). IsMint mint.bytes) (map named_of mints.now) }
    requires accounts { AreAccepted WIDE (accounts_of accounts.now) }
    ensures { OnOk result (found.new.items ≡ found.old.items
        ++ flat_map (supply_off (accounts_of accounts.now)) (map named_of mints.now)) }
{
    for place in 0..mints.len() {
        let mint = &mints[place];
        let supply = MintRef { bytes: &mint.bytes }.supply();
        let held = held_of(mint.address, accounts);
        tell_differs(found, 12, mint.address, 36, supply, held)?;
    }
    Ok(())
}

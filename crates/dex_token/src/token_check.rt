//! The checks of a token account and of a mint, by the rules that need that account alone.

ghost use Rattle.std.specs.Prelude.{◌≡◌, ◌↔◌, length, IsOk};
ghost use Rattle.std.specs.Result.{result_err};
ghost use Rattle.dex_token.specs.TokenAccount.{IsWallet};
ghost use Rattle.dex_token.specs.MintAccount.{IsMint};
ghost use Rattle.dex_token.specs.Faults.{mint_fault, rest_rule, wallet_fault};

use crate::rules::{byte_rule, zero_rule};
use dex_fields::mint::IS_INITIALIZED;
use dex_fields::token_account::{
    CLOSE_AUTHORITY, DELEGATE, DELEGATED_AMOUNT, IS_NATIVE, LAYOUT, STATE,
};
use dex_types::AccountFault;

/// Whether the bytes are a token account that the exchange takes, by the rules that need this account alone; else the
/// first rule that is broken.
///
/// In their order the rules are: the length is 165; after the amount the state is 1, and every other byte is 0. The
/// first byte that is not so is reported.
pub fn check_wallet(bytes: &[u8]) -> Result<(), AccountFault>
    ensures ok { IsOk result ↔ IsWallet bytes.now }
    ensures fault { result_err result ≡ wallet_fault bytes.now }
{
    match wallet_fault(bytes) {
        Some(fault) => Err(fault),
        None => Ok(()),
    }
}

/// Whether the bytes are a mint, by the rules that need this account alone; else the first rule that is broken.
///
/// In their order the rules are: the length is 82; the byte that says whether the mint is initialized is 1. No other
/// byte is looked at.
pub fn check_mint(bytes: &[u8]) -> Result<(), AccountFault>
    ensures ok { IsOk result ↔ IsMint bytes.now }
    ensures fault { result_err result ≡ mint_fault bytes.now }
{
    match mint_fault(bytes) {
        Some(fault) => Err(fault),
        None => Ok(()),
    }
}

#[tactic(auto, unfolding(crate::specs::Faults::wallet_fault))]
fn wallet_fault(bytes: &[u8]) -> Option<AccountFault>
    ensures { result ≡ wallet_fault bytes.now }
{
    if bytes.len() != LAYOUT.size {
        return Some(AccountFault::size(bytes.len(), LAYOUT.size));
    }
    rest_rule(bytes)
}

#[tactic(auto, unfolding(crate::specs::Faults::rest_rule))]
fn rest_rule(bytes: &[u8]) -> Option<AccountFault>
    requires { length bytes.now ≡ 165 }
    ensures { result ≡ rest_rule bytes.now }
{
    zero_rule(bytes, DELEGATE)
        .or(byte_rule(bytes, STATE, 1))
        .or(zero_rule(bytes, IS_NATIVE))
        .or(zero_rule(bytes, DELEGATED_AMOUNT))
        .or(zero_rule(bytes, CLOSE_AUTHORITY))
}

#[tactic(auto, unfolding(crate::specs::Faults::mint_fault))]
fn mint_fault(bytes: &[u8]) -> Option<AccountFault>
    ensures { result ≡ mint_fault bytes.now }
{
    let size = dex_fields::mint::LAYOUT.size;
    if bytes.len() != size {
        return Some(AccountFault::size(bytes.len(), size));
    }
    byte_rule(bytes, IS_INITIALIZED, 1)
}

//! Mints and token accounts as they are made.

ghost use Rattle.std.specs.Prelude.{◌≡◌, IfOk, length, replicate};
ghost use Rattle.dex_fields.specs.Writes.{wrote};
ghost use Rattle.dex_token.specs.MintAccount.{IsMint, mint_words};
ghost use Rattle.dex_token.specs.TokenAccount.{IsWallet, wallet_words};
ghost use Rattle.dex_make.specs.TokenBytes.{mint_bytes, mint_writes, wallet_bytes, wallet_writes};

use crate::zeroed::zeros;
use dex_fields::{mint, put_addr, put_u8, put_u64, token_account};
use dex_types::{Address, NoMemory};
use std::alloc::Global;

/// A mint of this supply, in native units, that shows amounts with this many decimals. All other bytes are zero, but
/// for the one that says that it is initialized.
pub fn make_mint(alloc: Global, supply: u64, decimals: u8) -> Result<Vec<u8>, NoMemory>
    ensures bytes { IfOk result (λ bytes. bytes.items ≡ mint_bytes supply decimals) }
    ensures words { IfOk result (λ bytes. mint_words bytes.items ≡ record { supply = supply; decimals = decimals }) }
    ensures accepted { IfOk result (λ bytes. IsMint bytes.items) }
{
    let mut bytes = zeros(alloc, mint::LAYOUT.size)?;
    write_mint(&mut bytes, supply, decimals);
    Ok(bytes)
}

/// A token account of this mint and owner, with this amount in native units. Its state is 1, and all other bytes are
/// zero.
pub fn make_wallet(
    alloc: Global,
    mint: Address,
    owner: Address,
    amount: u64,
) -> Result<Vec<u8>, NoMemory>
    ensures bytes { IfOk result (λ bytes. bytes.items ≡ wallet_bytes mint owner amount) }
    ensures words { IfOk result (λ bytes. wallet_words bytes.items
        ≡ record { mint = mint; owner = owner; amount = amount }) }
    ensures accepted { IfOk result (λ bytes. IsWallet bytes.items) }
{
    let mut bytes = zeros(alloc, token_account::LAYOUT.size)?;
    write_wallet(&mut bytes, mint, owner, amount);
    Ok(bytes)
}

/// Writes the fields of a mint over zeros.
fn write_mint(bytes: &mut [u8], supply: u64, decimals: u8)
    requires { bytes.old ≡ replicate 82 0 }
    ensures bytes { bytes.new ≡ mint_bytes supply decimals }
    ensures words { mint_words bytes.new ≡ record { supply = supply; decimals = decimals } }
    ensures accepted { IsMint bytes.new }
{
    put_u64(bytes, mint::SUPPLY, supply);
    put_u8(bytes, mint::DECIMALS, decimals);
    put_u8(bytes, mint::IS_INITIALIZED, 1);
}

/// Writes the fields of a token account over zeros.
fn write_wallet(bytes: &mut [u8], mint: Address, owner: Address, amount: u64)
    requires { bytes.old ≡ replicate 165 0 }
    ensures bytes { bytes.new ≡ wallet_bytes mint owner amount }
    ensures words { wallet_words bytes.new ≡ record { mint = mint; owner = owner; amount = amount } }
    ensures accepted { IsWallet bytes.new }
{
    put_addr(bytes, token_account::MINT, mint.0);
    put_addr(bytes, token_account::OWNER, owner.0);
    put_u64(bytes, token_account::AMOUNT, amount);
    put_u8(bytes, token_account::STATE, 1);
}

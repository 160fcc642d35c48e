//! Mints that rows declare.

ghost use Rattle.std.specs.Prelude.{◌≡◌, ◌<◌, ◌+◌, ◌^◌, [], ◌∷◌, ◌++◌, IfSome, OnOk, length, map, option_map};
ghost use Rattle.std.specs.List.{position};
ghost use Rattle.dex_types.specs.Accounts.{named_of};
ghost use Rattle.dex_types.specs.Addresses.{is_same};
ghost use Rattle.dex_make.specs.TokenBytes.{mint_bytes};
ghost use Rattle.dex_token.specs.MintAccount.{IsMint, mint_words};
ghost use Rattle.dex_script_types.specs.Known as facts;
ghost use Rattle.dex_script.specs.Known as spec;
ghost use Rattle.dex_script.specs.Mints.{AreMints, words_of};

use crate::known::has_account;
use dex_fields::{get_u64, mint, put_u64};
use dex_make::make_mint;
use dex_token::MintRef;
use dex_types::{Address, Named, NoMemory, is_same};
use std::alloc::Global;
use std::marker::Model;

/// What a mint says: how many native units its wallets hold together, and with how many decimals an amount is shown.
#[derive(Clone, Copy, Debug)]
pub(crate) struct Words {
    pub(crate) supply: u64,
    pub(crate) decimals: u8,
}

/// Mints that rows declared. A contract sees them as their accounts.
#[derive(Drop)]
pub(crate) struct Mints {
    accounts: Vec<Named>,
}

impl Model for Mints {
    ghost use Rattle.std.specs.Prelude.{List, map};
    ghost use Rattle.dex_types.specs.Accounts.{PlainAccount, named_of};
    ghost use Rattle.dex_script.specs.Mints.{AreMints};

    ghost Value = { List PlainAccount };

    ghost view = { λ s. map named_of s.accounts.items };

    ghost invariant = { λ s. AreMints (map named_of s.accounts.items) };
}

impl Mints {
    /// No mints.
    pub(crate) fn new(alloc: Global) -> Mints
        ensures { result ≡ [] }
    {
        Mints {
            accounts: Vec::new(alloc),
        }
    }

    /// These mints.
    pub(crate) fn of(accounts: Vec<Named>) -> Mints
        requires { AreMints (map named_of accounts.items) }
        ensures { result ≡ map named_of accounts.items }
    {
        Mints { accounts }
    }

    /// How many mints.
    pub(crate) fn len(&self) -> usize
        ensures { result ≡ length self.now }
    {
        self.accounts.len()
    }

    /// Whether one of them has this address.
    pub(crate) fn has(&self, address: Address) -> bool
        ensures { result ≡ facts.has_account address self.now }
    {
        has_account(address, &self.accounts)
    }

    /// What the mint of an address says.
    pub(crate) fn find(&self, address: Address) -> Option<Words>
        ensures { option_map words_of result ≡ spec.mint_at address self.now }
    {
        find(address, &self.accounts)
    }

    /// One more mint, without supply.
    pub(crate) fn add(
        &mut self,
        alloc: Global,
        address: Address,
        decimals: u8,
    ) -> Result<(), NoMemory>
        ensures { OnOk result (self.new
            ≡ self.old ++ record { address = address; bytes = mint_bytes 0 decimals } ∷ []) }
    {
        let bytes = make_mint(alloc, 0, decimals)?;
        match self.accounts.push(Named { address, bytes }) {
            Ok(()) => Ok(()),
            Err(_) => Err(NoMemory),
        }
    }

    /// The mint of an address has so much more supply.
    pub(crate) fn raise(&mut self, address: Address, amount: u64)
        requires { IfSome (spec.mint_at address self.old) (λ words. words.supply + amount < 2 ^ 64) }
        ensures { self.new ≡ spec.with_supply address amount self.old }
    {
        raise(&mut self.accounts, address, amount);
    }

    /// Their accounts.
    pub(crate) fn into_accounts(self) -> Vec<Named>
        ensures { map named_of result.items ≡ self }
    {
        self.accounts
    }
}

/// The place of the first mint of an address.
fn place_of_mint(address: Address, mints: &[Named]) -> Option<usize>
    ensures within { IfSome result (λ place. place < length mints.now) }
    ensures place { result ≡ position (λ mint. is_same address mint.address) mints.now }
{
    mints.iter().position(|mint| is_same(address, mint.address))
}

/// What the first mint of an address says.
fn find(address: Address, mints: &[Named]) -> Option<Words>
    requires { AreMints (map named_of mints.now) }
    ensures { option_map words_of result ≡ spec.mint_at address (map named_of mints.now) }
{
    match place_of_mint(address, mints) {
        Some(place) => Some(words_in(&mints[place].bytes)),
        None => None,
    }
}

/// What the bytes of a mint say.
fn words_in(bytes: &[u8]) -> Words
    requires { IsMint bytes.now }
    ensures { words_of result ≡ mint_words bytes.now }
{
    let mint = MintRef { bytes };
    Words {
        supply: mint.supply(),
        decimals: mint.decimals(),
    }
}

/// The first mint of an address has so much more supply.
fn raise(mints: &mut [Named], address: Address, amount: u64)
    requires mints { AreMints (map named_of mints.old) }
    requires fits { IfSome (spec.mint_at address (map named_of mints.old)) (λ words. words.supply + amount < 2 ^ 64) }
    ensures { map named_of mints.new ≡ spec.with_supply address amount (map named_of mints.old) }
{
    if let Some(place) = place_of_mint(address, mints) {
        let mint = &mut mints[place];
        raise_supply(&mut mint.bytes, amount);
    }
}

/// A mint has so much more supply.
fn raise_supply(bytes: &mut Vec<u8>, amount: u64)
    requires mint { IsMint bytes.old.items }
    requires fits { (mint_words bytes.old.items).supply + amount < 2 ^ 64 }
    ensures { bytes.new.items ≡ spec.raised amount bytes.old.items }
{
    let supply = get_u64(bytes, mint::SUPPLY);
    put_u64(bytes, mint::SUPPLY, supply + amount);
}

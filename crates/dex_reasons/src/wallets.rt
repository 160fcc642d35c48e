//! Reasons that ask for the wallets that a row names.

ghost use Rattle.std.specs.Prelude.{◌≡◌, ◌^◌, ◌<◌};
ghost use Rattle.dex_types.specs.declared.addresses.Address.{Address};
ghost use Rattle.dex_types.specs.Reasons as reasons;
ghost use Rattle.dex_types.specs.Wallets as wallets;
ghost use Rattle.dex_types.specs.Why as why;
ghost use Rattle.dex_reasons.specs.Reading as reading;

use dex_types::{Address, Refusal, Seen, Side, WalletSeen, is_same};

/// What a row brings to the wallets of its roles, in native amounts.
#[derive(Clone, Copy, Debug, PartialEq, Eq)]
pub struct Payout {
    pub coin: u64,
    pub pc: u64,
    pub referrer: u64,
}

/// The wallet that pays for an order or a take of the side: a bid's quote wallet, an ask's base wallet.
pub fn payer(side: Side, seen: &Seen) -> Option<WalletSeen>
    ensures { result ≡ why.payer side seen.now }
{
    match side {
        Side::Bid => seen.pc,
        Side::Ask => seen.coin,
    }
}

/// No wallet is named in a role that is used.
pub fn missing(role: Option<WalletSeen>) -> Option<Refusal>
    ensures { result ≡ reasons.missing role }
{
    match role {
        None => Some(Refusal::NoAccount),
        Some(_) => None,
    }
}

fn wrong_mint(wanted: Address, mint: Address) -> Option<Refusal>
    ensures { result ≡ reasons.wrong_mint wanted mint }
{
    if is_same(wanted, mint) {
        None
    } else {
        Some(Refusal::WrongMint { mint })
    }
}

/// A wallet, where one is named, is of another token than this mint's.
pub fn other_mint(mint: Address, role: Option<WalletSeen>) -> Option<Refusal>
    ensures { result ≡ reasons.other_mint mint role }
{
    match role {
        None => None,
        Some(wallet) => wrong_mint(mint, wallet.mint),
    }
}

/// The mint is this one, where there is one.
pub fn is_mint(known: Option<Address>, mint: Address) -> bool
    ensures { result ≡ reasons.is_mint known mint }
{
    match known {
        None => false,
        Some(known) => is_same(known, mint),
    }
}

/// A discount wallet, where one is named, is of neither SRM nor MSRM.
pub fn other_discount_mint(seen: &Seen, role: Option<WalletSeen>) -> Option<Refusal>
    ensures { result ≡ reasons.other_discount_mint seen.now role }
{
    let wallet = role?;
    if is_mint(seen.srm, wallet.mint) || is_mint(seen.msrm, wallet.mint) {
        None
    } else {
        Some(Refusal::WrongMint { mint: wallet.mint })
    }
}

/// A wallet, where one is named, is another person's than the signer.
pub fn not_signed(signer: Address, role: Option<WalletSeen>) -> Option<Refusal>
    ensures { result ≡ reasons.not_signed_by signer role }
{
    let wallet = role?;
    if is_same(wallet.owner, signer) {
        None
    } else {
        Some(Refusal::WalletNotSigned {
            owner: wallet.owner,
        })
    }
}

/// The amount of a role, where its wallet has this address.
fn amount_at(address: Address, role: Option<WalletSeen>, amount: u64) -> u64
    ensures { result ≡ wallets.amount_at address role amount }
{
    match role {
        None => 0,
        Some(wallet) => {
            if is_same(address, wallet.address) {
                amount
            } else {
                0
            }
        }
    }
}

/// What is brought to the wallet of an address, under all its roles together.
fn brought_to(seen: &Seen, paid: Payout, address: Address) -> u64
    requires { wallets.brought_to seen.now (reading.brought_by paid) address < 2 ^ 64 }
    ensures { result ≡ wallets.brought_to seen.now (reading.brought_by paid) address }
{
    amount_at(address, seen.coin, paid.coin)
        + amount_at(address, seen.pc, paid.pc)
        + amount_at(address, seen.referrer, paid.referrer)
}

/// A balance does not take this amount more.
fn overfull(balance: u64, amount: u64) -> Option<Refusal>
    ensures { result ≡ reasons.overfull balance amount }
{
    if u64::MAX - balance < amount {
        Some(Refusal::BalanceTooLarge { balance, amount })
    } else {
        None
    }
}

/// With all that is brought to it, a wallet would hold 2^64 or more.
pub fn too_full(seen: &Seen, paid: Payout, role: Option<WalletSeen>) -> Option<Refusal>
    requires { (address : Address) → wallets.brought_to seen.now (reading.brought_by paid) address < 2 ^ 64 }
    ensures { result ≡ reasons.too_full seen.now (reading.brought_by paid) role }
{
    match role {
        None => None,
        Some(wallet) => overfull(wallet.balance, brought_to(seen, paid, wallet.address)),
    }
}

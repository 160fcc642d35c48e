//! The market account as it is made.

ghost use Rattle.std.specs.Prelude.{◌≡◌, [], length};
ghost use Rattle.dex_fields.specs.Bytes.{IsWithin, with_bytes};
ghost use Rattle.dex_fields.specs.Writes.{wrote};
ghost use Rattle.dex_market.specs.StandsFor.{StandsForMarket};
ghost use Rattle.dex_sound.specs.Made.{made_market};
ghost use Rattle.dex_make.specs.Derived as parts;
ghost use Rattle.dex_make.specs.MarketBytes.{HasAddresses, address_writes, market_bytes, term_writes};
ghost use Rattle.dex_make.specs.MarketSet.{CanTrade, IsInitialize, IsMarketSet, initial_terms, listing_of};

use crate::market::MarketSet;
use crate::parts::{MarketPart, derived};
use dex_fields::{Field, market, put_addr, put_u64, write_empty_account};
use dex_types::{AccountFlags, Address, Ix};

/// What an InitializeMarket instruction says of the market that it makes: lot sizes are native amounts, the fee rate is
/// in hundredths of a percent, and the dust threshold is in native quote.
#[derive(Clone, Copy, Debug, PartialEq, Eq)]
pub struct InitialTerms {
    pub coin_lot: u64,
    pub pc_lot: u64,
    pub fee_rate_bps: u16,
    pub nonce: u64,
    pub dust: u64,
}

/// What the instruction says of the market that it makes.
fn initial_terms(ix: Ix) -> InitialTerms
    requires { IsInitialize ix }
    ensures { result ≡ initial_terms ix }
{
    match ix {
        Ix::InitializeMarket {
            coin_lot,
            pc_lot,
            fee_rate_bps,
            nonce,
            dust,
        } => InitialTerms {
            coin_lot,
            pc_lot,
            fee_rate_bps,
            nonce,
            dust,
        },
        // By the condition it is of that kind.
        _ => unreachable!(),
    }
}

/// Makes the bytes the account of the market as it is made, whatever stood there.
pub fn write_market(bytes: &mut [u8], set: &MarketSet)
    requires size { length bytes.old ≡ 388 }
    requires set { IsMarketSet set.now }
    ensures bytes { bytes.new ≡ market_bytes set.now }
    ensures addresses { HasAddresses set.now }
    ensures stands { CanTrade set.now → StandsForMarket bytes.new (made_market (listing_of set.now) []) }
{
    write_empty_account(bytes, AccountFlags::MARKET_ACCOUNT.0);
    write_addresses(bytes, set);
    write_terms(bytes, initial_terms(set.ix));
}

/// Writes the addresses of a market account.
fn write_addresses(bytes: &mut [u8], set: &MarketSet)
    requires { length bytes.old ≡ 388 }
    ensures bytes { bytes.new ≡ wrote bytes.old (address_writes set.now) }
    ensures addresses { HasAddresses set.now }
{
    put_addr(bytes, market::OWN_ADDRESS, set.address.0);
    put_addr(bytes, market::COIN_MINT, set.coin.0);
    put_addr(bytes, market::PC_MINT, set.pc.0);
    put_part(
        bytes,
        market::COIN_VAULT,
        set.address,
        MarketPart::CoinVault,
    );
    put_part(bytes, market::PC_VAULT, set.address, MarketPart::PcVault);
    put_part(bytes, market::REQ_Q, set.address, MarketPart::RequestQueue);
    put_part(bytes, market::EVENT_Q, set.address, MarketPart::EventQueue);
    put_part(bytes, market::BIDS, set.address, MarketPart::Bids);
    put_part(bytes, market::ASKS, set.address, MarketPart::Asks);
}

/// Writes the address of a part of the market into a field.
fn put_part(bytes: &mut [u8], field: Field, market: Address, part: MarketPart)
    requires within { IsWithin field bytes.old }
    requires wide { field.len ≡ 32 }
    ensures { bytes.new ≡ with_bytes bytes.old field (parts.derived market part).0 }
{
    put_addr(bytes, field, derived(market, part).0);
}

/// Writes the numbers of a market account that never change.
fn write_terms(bytes: &mut [u8], terms: InitialTerms)
    requires { length bytes.old ≡ 388 }
    ensures { bytes.new ≡ wrote bytes.old (term_writes terms) }
{
    put_u64(bytes, market::VAULT_SIGNER_NONCE, terms.nonce);
    put_u64(bytes, market::PC_DUST_THRESHOLD, terms.dust);
    put_u64(bytes, market::COIN_LOT_SIZE, terms.coin_lot);
    put_u64(bytes, market::PC_LOT_SIZE, terms.pc_lot);
    put_u64(bytes, market::FEE_RATE_BPS, u64::from(terms.fee_rate_bps));
}

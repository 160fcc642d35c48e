//! How long parts are.

ghost use Rattle.dex_types.specs.Accounts.{accounts_of};
ghost use Rattle.dex_types.specs.declared.limits.Limits.{Limits};
ghost use Rattle.dex_state.specs.Accepted.{AreAccepted};

use dex_ring::RingRef;
use dex_types::Accounts;

/// A part is about so many bytes of a text, or more. Its rows and what they leave then take some 100 KB in all, and the
/// rows before as much. The C library keeps lists so short from part to part, while longer ones are given back and
/// taken anew.
pub(crate) const PART: usize = 12_288;

/// How many bytes the next part is: more where its cells take long to open. To read a byte and let it act takes some
/// 50 ns, to open a wallet some 300, an open-orders account 100, and a pending event 15.
pub(crate) fn size_of_part(accounts: &Accounts) -> usize
    requires { (limits : Limits) × AreAccepted limits (accounts_of accounts.now) }
{
    let mut named = accounts.wallets.len();
    let mut pending: usize = 0;
    for place in 0..accounts.markets.len() {
        let market = &accounts.markets[place];
        let events = RingRef {
            bytes: &market.events,
        };
        named = named.saturating_add(market.orders.len());
        pending = pending.saturating_add(events.len() as usize);
    }
    PART.max(
        named
            .saturating_mul(64)
            .saturating_add(pending.saturating_mul(4)),
    )
}

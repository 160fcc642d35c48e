//! What a row sees.

ghost use Rattle.std.specs.Prelude.{◌≡◌, None, map};
ghost use Rattle.std.specs.List.{All};
ghost use Rattle.dex_types.specs.Rows.{row_of};
ghost use Rattle.dex_world.specs.World as world;
ghost use Rattle.dex_act.specs.Steps as spec;
ghost use Rattle.dex_act.specs.Steps.{world_in_hand};
ghost use Rattle.dex_act.specs.Wallets.{AreApart, ArePlacesAmong, Fits, IsRoleAt, roles_of, wallet_state_of};

use crate::steps::RowAt;
use dex_process::Terms;
use dex_types::{Address, Seen, WalletSeen};
use dex_wallet::WalletCell;

/// What a row sees that names no wallet.
#[inline]
pub(crate) fn nothing_seen(terms: &Terms) -> Seen
    ensures { result ≡ spec.nothing_seen terms.now }
{
    Seen {
        coin: None,
        pc: None,
        discount: None,
        referrer: None,
        srm: terms.srm,
        msrm: terms.msrm,
        program: terms.program,
    }
}

/// Writes down what a row sees of the wallet that a role names, which stands at the place, where there was nothing.
fn note(wallets: &[WalletCell], role: &Option<Address>, place: usize, seen: &mut Option<WalletSeen>)
    requires nothing { seen.old ≡ None }
    requires here { IsRoleAt wallets.now role.now place }
    requires apart { AreApart wallets.now }
    ensures seen { seen.new ≡ world.role_at role.entry.now (map wallet_state_of wallets.entry.now) }
    ensures fits { Fits seen.new }
{
    match role {
        Some(_) => *seen = Some(wallets[place].seen()),
        None => {}
    }
}

/// Writes down what a row sees of the wallets in hand.
pub(crate) fn see(wallets: &[WalletCell], terms: &Terms, asking: &RowAt<'_>, seen: &mut Seen)
    requires apart { AreApart wallets.now }
    requires at { ArePlacesAmong wallets.now (row_of asking.now.row.now) asking.now.places }
    requires nothing { seen.old ≡ spec.nothing_seen terms.now }
    ensures seen { seen.new ≡ world.seen_by (row_of asking.now.row.now) (world_in_hand terms.now wallets.now) }
    ensures fits { All Fits (roles_of seen.new) }
{
    let RowAt { row, places } = asking;
    note(wallets, &row.coin, places.coin, &mut seen.coin);
    note(wallets, &row.pc, places.pc, &mut seen.pc);
    note(wallets, &row.discount, places.discount, &mut seen.discount);
    note(wallets, &row.referrer, places.referrer, &mut seen.referrer);
}

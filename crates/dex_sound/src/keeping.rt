//! Laws of what every step keeps.

ghost use Rattle.std.specs.Prelude.{◌≡◌, ◌≤◌, Some};
ghost use Rattle.dex_types.specs.declared.addresses.Address.{Address};
ghost use Rattle.dex_types.specs.declared.rows.Seen.{Seen};
ghost use Rattle.dex_types.specs.Market.{Market};
ghost use Rattle.dex_types.specs.Side.{Token};
ghost use Rattle.dex_types.specs.Soundness.{IsSound};
ghost use Rattle.dex_types.specs.Trader.{Account, Open, balance, trader_at};
ghost use Rattle.dex_sound.specs.Kept.{KeepsMarket};
ghost use Rattle.dex_types.specs.Requests.{Request};
ghost use Rattle.dex_types.specs.Steps.{step};

/// Vaults change by what moves between them and wallets alone, and what a market is listed with never changes, nor do
/// its accounts' addresses.
pub fn only_transfers_move_vaults()
    ensures { (request : Request) (seen : Seen) (m : Market) → KeepsMarket m (step request seen m) }
{}

/// In a sound market the free funds of an account are part of its total.
pub fn free_funds_are_part_of_the_total()
    ensures { (m : Market) (owner : Address) (account : Account) (token : Token) → IsSound m →
        trader_at owner m.traders ≡ Some (Open account)
        → (balance token account).free ≤ (balance token account).total }
{}

//! Laws of the wallets that an instruction names. A law is a function without a body, and its clause is the law.

ghost use Rattle.std.specs.Prelude.{◌≡◌};
ghost use Rattle.dex_history.specs.Journal.{Asked, Sees};
ghost use Rattle.dex_history.specs.Moves.{Moves};
ghost use Rattle.dex_types.specs.declared.addresses.Address.{Address};
ghost use Rattle.dex_types.specs.declared.rows.Seen.{Seen};
ghost use Rattle.dex_types.specs.Transfers.{Transfers};
ghost use Rattle.dex_types.specs.Wallets as wallets;
ghost use Rattle.dex_purse.specs.declared.lent_wallets.Roles.{Roles};
ghost use Rattle.dex_purse.specs.declared.lent_wallets.Slot.{Slot};
ghost use Rattle.dex_purse.specs.Purse as purse;

/// Where no two of the wallets that an instruction names have one address, what is taken from and brought to a place is
/// what the instruction takes from and brings to its wallet; and where that can be moved, so can each place.
pub fn wallets_move_as_their_row_says()
    ensures taken { (roles : Roles) (held : purse.Purse) (seen : Seen) (t : Transfers) → purse.Sees roles held seen
        → purse.AreApart roles held → (slot : Slot) → purse.IsNamed slot roles
        → wallets.taken_from seen t (purse.wallet_at slot held).address ≡ purse.taken_at slot roles t }
    ensures brought { (roles : Roles) (held : purse.Purse) (seen : Seen) (t : Transfers) → purse.Sees roles held seen
        → purse.AreApart roles held → (slot : Slot) → purse.IsNamed slot roles
        → wallets.brought_to seen t (purse.wallet_at slot held).address ≡ purse.brought_at slot roles t }
    ensures can { (roles : Roles) (held : purse.Purse) (seen : Seen) (t : Transfers) → purse.Sees roles held seen
        → purse.AreApart roles held → purse.AreWallets roles held
        → ((address : Address) → Moves seen t address) → purse.CanMoveEach roles t held }
{}

/// Where no two of the wallets that an instruction names have one address, it sees what a row sees that names them.
pub fn wallets_are_seen_as_a_row_sees_them()
    ensures { (asked : Asked) (roles : Roles) (held : purse.Purse) (seen : Seen) → purse.Names asked roles held
        → purse.Sees roles held seen → purse.AreApart roles held → Sees asked seen }
{}

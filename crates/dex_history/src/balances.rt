//! Laws of the wallets' balances.

ghost use Rattle.std.specs.Prelude.{◌≡◌, ◌≢◌, ◌+◌, ℕ, Some};
ghost use Rattle.std.specs.List.{All};
ghost use Rattle.dex_types.specs.declared.addresses.Address.{Address};
ghost use Rattle.dex_types.specs.declared.movements.Movement.{Movement};
ghost use Rattle.dex_types.specs.declared.refusals.Refusal.TheVariants.{BalanceTooLarge};
ghost use Rattle.dex_types.specs.declared.rows.Seen.{Seen};
ghost use Rattle.dex_types.specs.Market.{Market};
ghost use Rattle.dex_types.specs.Side.{Token};
ghost use Rattle.dex_types.specs.Solvency.{vault};
ghost use Rattle.dex_types.specs.Soundness.{IsSound};
ghost use Rattle.dex_types.specs.Wallets.{movements};
ghost use Rattle.dex_types.specs.WalletJournal.{CanMove};
ghost use Rattle.dex_types.specs.Why.{why};
ghost use Rattle.dex_history.specs.Balances.{FitVaults, mint_of};
ghost use Rattle.dex_history.specs.Journal.{Asked, Sees, asked_step};
ghost use Rattle.dex_history.specs.Mints.{MeetVaults, all_debited, all_credited};
ghost use Rattle.dex_history.specs.Moves.{Moves};

/// No row is refused for a balance that would be too large, where each wallet that it sees has a balance that is below
/// 2^64 together with the market's vault of the same mint. So it is wherever wallets and vaults of a mint add up to its
/// supply.
pub fn no_balance_is_too_large_within_a_supply()
    ensures { (asked : Asked) (seen : Seen) (m : Market) (balance amount : ℕ) → IsSound m → Sees asked seen
        → FitVaults seen m →
        why asked.request seen m ≢ Some (BalanceTooLarge balance amount) }
{}

/// On a sound market a row moves each wallet as its transfers say: they take from it or bring to it and never both, and
/// its movement is a debit of all that they take, a credit of all that they bring, or a probe. Each movement is
/// possible at the balance that it states.
pub fn a_row_moves_wallets_as_its_transfers_say()
    ensures each { (asked : Asked) (seen : Seen) (m : Market) (address : Address) → IsSound m → Sees asked seen →
        Moves seen (asked_step asked seen m).transfers address }
    ensures possible { (asked : Asked) (seen : Seen) (m : Market) → IsSound m → Sees asked seen →
        All (λ (move : Movement). CanMove move.kind move.amount move.before)
        (movements seen (asked_step asked seen m).transfers) }
{}

/// A row makes and loses no amount. Of each token of a sound market, what the row's movements take from wallets of its
/// mint enters its vault, and what they bring to them leaves it; so wallets and vault of the mint hold together what
/// they held. It moves no wallet of another mint.
pub fn a_row_keeps_what_wallets_and_vaults_hold()
    ensures meets { (asked : Asked) (seen : Seen) (m : Market) → IsSound m → Sees asked seen →
        let t = (asked_step asked seen m).transfers in MeetVaults seen m t (movements seen t) }
    ensures keeps { (asked : Asked) (seen : Seen) (m : Market) (token : Token) → IsSound m → Sees asked seen →
        let s = asked_step asked seen m in
        let moves = movements seen s.transfers in
        vault token s.market + all_credited seen (mint_of token m) moves
        ≡ vault token m + all_debited seen (mint_of token m) moves }
{}

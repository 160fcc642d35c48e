//! Laws of histories of markets and wallets.

ghost use Rattle.std.specs.Prelude.{◌≡◌, ℕ, ◌↔◌, List, [], ◌∷◌, ◌++◌, map};
ghost use Rattle.dex_types.specs.declared.movements.Movement.{Movement};
ghost use Rattle.dex_types.specs.declared.movements.WalletEntry.{WalletEntry};
ghost use Rattle.dex_types.specs.declared.rows.Seen.{Seen};
ghost use Rattle.dex_types.specs.Market.{Market};
ghost use Rattle.dex_types.specs.Steps.{Step};
ghost use Rattle.dex_types.specs.Transfers.{Transfers};
ghost use Rattle.dex_types.specs.Wallets.{movements};
ghost use Rattle.dex_types.specs.WalletJournal.{IsWalletLegal, CanMove, balance_after, moved_balance};
ghost use Rattle.dex_history.specs.Journal.{Asked, Call, IsLegal, Sees, Stands, asked_wallets, entry_by, front, market_after, step_of};

/// A history is legal exactly where its front is, and what follows is from the market that the front leaves. So one
/// more call keeps it legal exactly where it stands there: its row is one of the market, it saw the wallets that its
/// row names, and it has the entry that it makes now.
pub fn a_history_grows_at_its_end()
    ensures parts { (calls later : List Call) (m : Market)
        → IsLegal m (calls ++ later) ↔ (IsLegal m calls × IsLegal (market_after m calls) later) }
    ensures one_more { (calls : List Call) (call : Call) (m : Market) →
        IsLegal m (calls ++ (call ∷ [])) ↔ (IsLegal m calls × Stands call (market_after m calls)) }
    ensures after { (calls later : List Call) (m : Market)
        → market_after m (calls ++ later) ≡ market_after (market_after m calls) later }
    ensures after_one { (calls : List Call) (call : Call) (m : Market) →
        market_after m (calls ++ (call ∷ [])) ≡ (step_of call (market_after m calls)).market }
{}

/// A wallet's journal is legal from a balance on exactly where its front is and the rest is from the balance after it.
pub fn a_wallet_journal_grows_at_its_end()
    ensures parts { (entries later : List WalletEntry) (balance : ℕ) →
        IsWalletLegal balance (entries ++ later) ↔ (IsWalletLegal balance entries
        × IsWalletLegal (balance_after balance entries) later) }
    ensures after { (entries later : List WalletEntry) (balance : ℕ) →
        balance_after balance (entries ++ later) ≡ balance_after (balance_after balance entries) later }
    ensures one_more { (entries : List WalletEntry) (entry : WalletEntry) (balance : ℕ)
        → IsWalletLegal balance entries →
        entry.before ≡ balance_after balance entries → CanMove entry.kind entry.amount entry.before
        → IsWalletLegal balance (entries ++ (entry ∷ [])) }
{}

/// A row makes exactly one movement of each wallet that it names, by rising address.
pub fn a_row_moves_the_wallets_that_it_names()
    ensures { (asked : Asked) (seen : Seen) (t : Transfers) → Sees asked seen
        → map (λ (move : Movement). move.wallet) (movements seen t) ≡ asked_wallets asked }
{}

/// An entry loses no movement: the front of its four places is exactly the movements of its row.
pub fn an_entry_holds_each_movement()
    ensures { (call : Call) (s : Step) → front (entry_by call s).moves ≡ movements call.seen s.transfers }
{}

//! Laws of what runs of scripts leave.

ghost use Rattle.std.specs.Prelude.{◌≡◌, ◌==◌, ◌<◌, ℕ, List, false, map};
ghost use Rattle.std.specs.List.{All, AllPairs, filter};
ghost use Rattle.dex_types.specs.declared.addresses.Address.{Address};
ghost use Rattle.dex_types.specs.declared.movements.Entry.{Entry};
ghost use Rattle.dex_types.specs.declared.movements.WalletEntry.{WalletEntry};
ghost use Rattle.dex_types.specs.Accounts.{PlainAccount, PlainMarketAccounts};
ghost use Rattle.dex_types.specs.Rows.{PlainRow};
ghost use Rattle.dex_world.specs.Groups.{alone};
ghost use Rattle.dex_world.specs.Items.{Item, items_of};
ghost use Rattle.dex_state.specs.Outcomes.{PlainMarketJournal, PlainOutcome, PlainWalletJournal};
ghost use Rattle.dex_script_types.specs.PlainScript.{PlainScript};
ghost use Rattle.dex_script_types.specs.Facts.{AreRows, HasNoSwap, IsScript};
ghost use Rattle.dex_replay.specs.Alike.{AreAlike};
ghost use Rattle.dex_replay.specs.Lawful.{IsLawful, IsLawfulMarket, IsLawfulWallet, rows_of_market, rows_of_wallet};
ghost use Rattle.dex_replay.specs.Lawful.{was_held};
ghost use Rattle.dex_replay.specs.Replays.{IsLeftBy, IsLeftByRows, IsReplayOf};
ghost use Rattle.dex_replay.specs.Runs.{IsOneOrder, IsOneOrderOfRows, IsRunOf};

/// What is left when a script's items act one after the other, in an order that keeps each lane's, is lawful, its
/// accounts are accepted and those of sound markets, and wallets and vaults hold each mint's supply. So whoever shows
/// that his way to run a script is one order of its items has all of that.
pub fn what_one_order_leaves_is_a_run()
    ensures { (script : PlainScript) (outcome : PlainOutcome) → IsScript script → IsOneOrder script outcome
        → IsRunOf script outcome }
{}

/// A replay is in one order: the script's own, which keeps that of each lane.
pub fn a_replay_is_in_one_order()
    ensures { (script : PlainScript) (outcome : PlainOutcome) → IsScript script → IsReplayOf script outcome
        → IsOneOrder script outcome }
{}

/// In a script of which no two rows have one number each item is a row: a replay is what its rows leave one after the
/// other, an order of its items is one of its rows, and no row is held back.
pub fn without_swaps_rows_act_one_by_one()
    ensures items { (rows : List PlainRow) → HasNoSwap rows → items_of rows ≡ map alone rows }
    ensures replay { (script : PlainScript) (outcome : PlainOutcome) → HasNoSwap script.rows
        → IsReplayOf script outcome → IsLeftByRows script script.rows outcome }
    ensures order { (script : PlainScript) (outcome : PlainOutcome) → HasNoSwap script.rows
        → IsOneOrder script outcome → IsOneOrderOfRows script outcome }
    ensures own { (script : PlainScript) (outcome : PlainOutcome) → HasNoSwap script.rows → IsLawful script outcome
        → All (λ (row : PlainRow). was_held outcome.markets row ≡ false) script.rows }
{}

/// In a lawful journal the entries of each lane have the numbers of the script's rows of that lane on the market, or
/// that name the wallet, in their order; and these numbers rise, so none stands twice.
pub fn each_row_has_one_entry()
    ensures markets { (script : PlainScript) (first last : PlainMarketAccounts) (journal : PlainMarketJournal)
        → (lane : ℕ) → IsLawfulMarket script first last journal
        → map (λ (entry : Entry). entry.row) (filter (λ (entry : Entry). entry.lane == lane) journal.entries)
        ≡ map (λ (row : PlainRow). row.number) (rows_of_market lane first.address script.rows) }
    ensures wallets { (script : PlainScript) (first last : PlainAccount) (journal : PlainWalletJournal)
        → (lane : ℕ) → IsLawfulWallet script first last journal
        → map (λ (entry : WalletEntry). entry.row)
        (filter (λ (entry : WalletEntry). entry.lane == lane) journal.entries)
        ≡ map (λ (row : PlainRow). row.number) (rows_of_wallet lane first.address script.rows) }
    ensures rising_on_market { (script : PlainScript) (lane : ℕ) (address : Address) → AreRows script
        → AllPairs (λ (one other : PlainRow). one.number < other.number) (rows_of_market lane address script.rows) }
    ensures rising_of_wallet { (script : PlainScript) (lane : ℕ) (address : Address) → AreRows script
        → AllPairs (λ (one other : PlainRow). one.number < other.number) (rows_of_wallet lane address script.rows) }
{}

/// A replay is a function of its script: two outcomes of one script have the same journals, the same mints and the same
/// bytes of wallets, and their accounts of each market stand for one market. So it is of items in any one order.
pub fn a_script_has_one_replay()
    ensures replay { (script : PlainScript) (one other : PlainOutcome) → IsReplayOf script one
        → IsReplayOf script other → AreAlike one other }
    ensures order { (script : PlainScript) (order : List Item) (one other : PlainOutcome) → IsLeftBy script order one
        → IsLeftBy script order other → AreAlike one other }
{}

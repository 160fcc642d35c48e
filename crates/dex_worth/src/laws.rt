//! Laws of entries.

ghost use Rattle.std.specs.Prelude.{◌≡◌, ◌+◌, List, map};
ghost use Rattle.dex_types.specs.declared.addresses.Address.{Address};
ghost use Rattle.dex_types.specs.Market.{Market};
ghost use Rattle.dex_types.specs.Accounts.{PlainMarketAccounts};
ghost use Rattle.dex_accounts.specs.Decoded.{market_in};
ghost use Rattle.dex_replay.specs.EntryCalls.{TellsHistory};
ghost use Rattle.dex_eager.specs.Histories.{deals, eager_end, moves_of};
ghost use Rattle.dex_replay.specs.Lawful.{IsLawful};
ghost use Rattle.dex_state.specs.Outcomes.{PlainMarketJournal, PlainOutcome};
ghost use Rattle.dex_script_types.specs.Facts.{IsScript};
ghost use Rattle.dex_script_types.specs.PlainScript.{PlainScript};
ghost use Rattle.dex_replay.specs.WorthTold.{rows_told, table_told, worths_told};
ghost use Rattle.dex_worth.specs.Tables.{ArePaidAtOnce, PaysAtOnce, deals_told, worth_in_row};
ghost use Rattle.dex_types.specs.Side.{Token};
ghost use Rattle.dex_types.specs.Soundness.{IsSound};
ghost use Rattle.dex_types.specs.Totals.{total};
ghost use Rattle.dex_history.specs.Journal.{Call, IsLegal, Stands, step_of};
ghost use Rattle.dex_replay.specs.Debits.{debits_in};
ghost use Rattle.dex_worth.specs.Flows.{AddUp};
ghost use Rattle.dex_replay.specs.Told.{told_in, told_out};

use dex_replay::calls::an_entry_tells_its_call;

/// What an entry debits is what its row deposits.
pub fn an_entry_debits_what_its_row_deposits()
    ensures { (call : Call) (m : Market) → IsSound m → Stands call m
        → debits_in call.entry ≡ (step_of call m).transfers.coin_in + (step_of call m).transfers.pc_in }
{}

/// The entries of a history tell what moved for each account.
pub fn entries_tell_what_moved()
    ensures deposited { (token : Token) (owner : Address) (m : Market) (calls : List Call)
        → IsSound m → IsLegal m calls
        → (moves_of m calls).deposited token owner ≡ total (told_in token owner) calls }
    ensures settled { (token : Token) (owner : Address) (m : Market) (calls : List Call)
        → IsSound m → IsLegal m calls
        → (moves_of m calls).settled token owner ≡ total (told_out token owner) calls }
{}

/// What a journal and the last accounts tell of worth is what a market has that pays at once.
pub fn what_a_journal_tells_is_paid_at_once()
    ensures { (script : PlainScript) (first last : PlainMarketAccounts) (journal : PlainMarketJournal)
        → (tells : TellsHistory script first last journal) → IsSound (market_in first)
        → (eager_end (market_in first) tells.calls).worths ≡ worths_told last tells.calls }
{}

/// Each market of a lawful outcome left what a market leaves that pays each fill at once.
pub fn a_table_tells_what_a_market_pays_at_once()
    ensures { (script : PlainScript) → IsScript script → (outcome : PlainOutcome) → IsLawful script outcome
        → ArePaidAtOnce script outcome }
{
    an_entry_tells_its_call();
}

/// Nothing is made or lost: of each token of a market, what all accounts are worth at the end of a history, what the
/// market has taken, and what takes took away, is what stood in the vault at the start and what takes brought.
pub fn nothing_is_made_or_lost()
    ensures { (token : Token) (m : Market) (calls : List Call)
        → IsSound m → IsLegal m calls → AddUp token m calls }
{}

/// However late cranks come, and in whatever order lanes act: where the journals of a market in two lawful outcomes
/// tell the same requests of accepted rows but cranks, in one order, with the same tiers and program, its rows are the
/// same. Where this is so of each market, the two outcomes have one table. The rows may have other lanes, numbers and
/// wallets.
pub fn equal_trades_give_one_table()
    ensures market { (script other : PlainScript) (first last late : PlainMarketAccounts)
        (journal second : PlainMarketJournal) → (one : PaysAtOnce script first last journal)
        → (two : PaysAtOnce other first late second) → deals one.calls ≡ deals two.calls
        → map worth_in_row (rows_told script last journal) ≡ map worth_in_row (rows_told other late second) }
    ensures table { (script other : PlainScript) (outcome second : PlainOutcome) → IsScript script → IsScript other
        → IsLawful script outcome → IsLawful other second → script.start.markets ≡ other.start.markets
        → deals_told script outcome.markets ≡ deals_told other second.markets
        → table_told script outcome ≡ table_told other second }
{
    an_entry_tells_its_call();
}

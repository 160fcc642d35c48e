//! The calls of a market's history, told by the script and the entries of the market's journal. The law is a function
//! without a body, and its clauses are the law.

ghost use Rattle.std.specs.Prelude.{◌≡◌, Some};
ghost use Rattle.dex_types.specs.Accounts.{PlainMarketAccounts};
ghost use Rattle.dex_types.specs.Market.{Market};
ghost use Rattle.dex_types.specs.Rows.{PlainRow};
ghost use Rattle.dex_history.specs.Journal.{Call};
ghost use Rattle.dex_state.specs.Outcomes.{PlainMarketJournal, PlainOutcome};
ghost use Rattle.dex_replay.specs.Lawful.{AllThree, IsLawful, IsLawfulMarket};
ghost use Rattle.dex_script_types.specs.PlainScript.{PlainScript};
ghost use Rattle.dex_script_types.specs.Facts.{IsScript};
ghost use Rattle.dex_replay.specs.EntryCalls.{IsCallOf, TellsHistory, call_told, calls_told};

/// The call of an entry of a lawful journal is the one that the script, the market and the entry tell.
pub fn an_entry_tells_its_call()
    ensures call { (script : PlainScript) → IsScript script → (row : PlainRow) (m : Market) (call : Call)
        → IsCallOf script row m call → call_told script row.market call.entry ≡ Some call }
    ensures calls { (script : PlainScript) → IsScript script
        → (first last : PlainMarketAccounts) (journal : PlainMarketJournal)
        → (lawful : IsLawfulMarket script first last journal)
        → calls_told script first.address journal.entries ≡ Some lawful.calls }
    ensures history { (script : PlainScript) → IsScript script
        → (first last : PlainMarketAccounts) (journal : PlainMarketJournal)
        → IsLawfulMarket script first last journal → TellsHistory script first last journal }
    ensures outcome { (script : PlainScript) → IsScript script
        → (outcome : PlainOutcome) → IsLawful script outcome
        → AllThree (TellsHistory script) script.start.markets outcome.accounts.markets outcome.markets }
{}

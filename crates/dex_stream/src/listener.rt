//! Who hears what the parts of a script leave.

ghost use Rattle.std.specs.Prelude.{◌≡◌, ◌≤◌, [], IfOk, OnOk, map};
ghost use Rattle.std.specs.List.{AllPairs};
ghost use Rattle.dex_types.specs.Accounts.{accounts_of};
ghost use Rattle.dex_types.specs.Rows.{PlainRow, row_of};
ghost use Rattle.dex_state.specs.Outcomes.{PlainOutcome, market_journal_of, wallet_journal_of};
ghost use Rattle.dex_script_types.specs.PlainScript.{PlainScript};
ghost use Rattle.dex_parts.specs.Chains.{outcome_behind};
ghost use Rattle.dex_stream.specs.Heard.{IsNext, unplayed};

use dex_state::{MarketJournal, WalletJournal};
use dex_types::{Accounts, NoMemory, Row};
use std::alloc::Global;

/// Hears of each part of a script its rows and what they left in the journals, and keeps of it what it wants.
pub trait Listener: Drop {
    /// It has heard what this script left in the journals of this outcome.
    ghost heard: { Self → PlainScript → PlainOutcome → Type 0 };

    /// A listener before the first row of a script that starts with these accounts.
    fn begin(alloc: Global, start: &Accounts) -> Result<Self, NoMemory>
        ensures { IfOk result (λ listener. (script : PlainScript)
            → script.start ≡ accounts_of start.now → script.rows ≡ []
            → heard listener script (unplayed (accounts_of start.now))) };

    /// Hears the next part: its rows, by numbers that never fall, and the journals that they left.
    fn hear(
        &mut self,
        alloc: Global,
        rows: &[Row],
        markets: Vec<MarketJournal>,
        wallets: Vec<WalletJournal>,
    ) -> Result<(), NoMemory>
        requires rising { AllPairs (λ (one other : PlainRow). one.number ≤ other.number) (map row_of rows.now) }
        ensures { OnOk result ((before part whole : PlainScript) (left outcome : PlainOutcome)
            → IsNext before left part outcome whole → map row_of rows.now ≡ part.rows
            → map market_journal_of markets.items ≡ outcome.markets
            → map wallet_journal_of wallets.items ≡ outcome.wallets
            → heard self.old before left → heard self.new whole (outcome_behind left outcome)) };
}

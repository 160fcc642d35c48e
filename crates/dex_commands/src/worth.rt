//! The command `worth`: ledgers of all markets take what the parts of a script leave in the journals.

ghost use Rattle.std.specs.Prelude.{◌≡◌, IfOk, length, map};
ghost use Rattle.std.specs.List.{All};
ghost use Rattle.dex_types.specs.declared.account_bytes.MarketAccounts.{MarketAccounts as MarketAccountsOf};
ghost use Rattle.dex_types.specs.Accounts.{market_accounts_of};
ghost use Rattle.dex_types.specs.Limits.{AreLimits};
ghost use Rattle.dex_accounts.specs.Accepted.{IsAccepted};
ghost use Rattle.dex_words.specs.declared.command.Command.TheVariants.{Worth};
ghost use Rattle.dex_replay.specs.WorthText.{worth_text};
ghost use Rattle.dex_replay.specs.WorthTold.{table_told};
ghost use Rattle.dex_replay.specs.Lawful.{IsLawful};
ghost use Rattle.dex_state.specs.Outcomes.{PlainOutcome};
ghost use Rattle.dex_script_types.specs.PlainScript.{PlainScript};
ghost use Rattle.dex_worth.specs.Ledgers.{AreLedgersOf};
ghost use Rattle.dex_answers.specs.Answers.{AnswersWithin};
ghost use Rattle.dex_answers.specs.Telling.{IsText};
ghost use Rattle.dex_answers.specs.Told.{text_of};
ghost use Rattle.dex_answers.specs.declared.status.Status.TheVariants as status;
ghost use Rattle.dex_commands.specs.Worths.{HasHeard};

use dex_answers::{Status, StatusText, no_script};
use dex_replay::calls::an_entry_tells_its_call;
use dex_replay::laws::without_swaps_rows_act_one_by_one;
use dex_state::{MarketJournal, WalletJournal};
use dex_stream::{Listener, play};
use dex_types::{Accounts, Limits, MarketAccounts, NoMemory, Row};
use dex_worth::{Ledger, ledgers_of, table_of, take_journals, worth_text};
use std::alloc::Global;

/// The ledgers of a script's markets, while its parts are played.
#[derive(Drop)]
struct Worths {
    ledgers: Vec<Ledger>,
}

impl Listener for Worths {
    ghost heard = { λ worths script outcome. HasHeard worths.ledgers.items script outcome };

    fn begin(alloc: Global, start: &Accounts) -> Result<Worths, NoMemory> {
        let ledgers = ledgers_of(alloc, &start.markets)?;
        Ok(Worths { ledgers })
    }

    fn hear(
        &mut self,
        alloc: Global,
        rows: &[Row],
        markets: Vec<MarketJournal>,
        wallets: Vec<WalletJournal>,
    ) -> Result<(), NoMemory> {
        an_entry_tells_its_call();
        take_journals(&mut self.ledgers, rows, &markets);
        Ok(())
    }
}

/// The worth of each account when all rows of a script have acted, or why the bytes are no script within these limits.
pub(crate) fn worth_answer(
    alloc: Global,
    bytes: &[u8],
    limits: &Limits,
) -> Result<StatusText, NoMemory>
    requires { AreLimits limits.now }
    ensures { IfOk result (λ told. AnswersWithin limits.now Worth bytes.now told.status (text_of told)) }
{
    match play::<Worths>(alloc, bytes, limits) {
        Ok(played) => {
            without_swaps_rows_act_one_by_one();
            table_text(alloc, &played.listener.ledgers, &played.accounts.markets)
        }
        Err(error) => no_script(alloc, error),
    }
}

/// The text of the table that these ledgers and these last accounts tell.
fn table_text(
    alloc: Global,
    ledgers: &[Ledger],
    lasts: &[MarketAccounts],
) -> Result<StatusText, NoMemory>
    requires { All (λ (last : MarketAccountsOf). IsAccepted (market_accounts_of last)) lasts.now }
    ensures { IfOk result (λ told. (script : PlainScript) (outcome : PlainOutcome) → IsLawful script outcome
        → map market_accounts_of lasts.now ≡ outcome.accounts.markets → AreLedgersOf script ledgers.now outcome
        → IsText told status.Ok (worth_text (length lasts.now) (table_told script outcome))) }
{
    let table = table_of(alloc, ledgers, lasts)?;
    let text = worth_text(alloc, lasts.len(), &table)?;
    StatusText::of(alloc, Status::Ok, text.into_bytes())
}

//! The command `replay`.

ghost use Rattle.std.specs.Prelude.{ℕ, IfOk, List};
ghost use Rattle.dex_words.specs.declared.command.Command.TheVariants.{Replay};
ghost use Rattle.dex_types.specs.declared.limits.Limits.{Limits};
ghost use Rattle.dex_types.specs.Limits.{AreLimits};
ghost use Rattle.dex_stream.specs.Heard.{IsHeard};
ghost use Rattle.dex_answers.specs.Answers.{AnswersWithin};
ghost use Rattle.dex_answers.specs.Hearing.{HasTold};
ghost use Rattle.dex_answers.specs.Told.{text_of};

use crate::refused::no_script;
use crate::status::Status;
use crate::told::StatusText;
use dex_report::JournalTexts;
use dex_state::{MarketJournal, WalletJournal};
use dex_stream::{Listener, Played, play};
use dex_types::{Accounts, Limits, NoMemory, Row};
use std::alloc::Global;

/// Tells the journals of each part as text, and lets them go.
#[derive(Drop)]
pub(crate) struct Reporting {
    pub texts: JournalTexts,
}

impl Listener for Reporting {
    ghost heard = { HasTold };

    fn begin(alloc: Global, start: &Accounts) -> Result<Reporting, NoMemory> {
        let texts = JournalTexts::of(alloc, start)?;
        Ok(Reporting { texts })
    }

    fn hear(
        &mut self,
        alloc: Global,
        _rows: &[Row],
        markets: Vec<MarketJournal>,
        wallets: Vec<WalletJournal>,
    ) -> Result<(), NoMemory> {
        self.texts.take(alloc, markets, wallets)?;
        Ok(())
    }
}

/// The report of what is left when all rows of a script have acted, or why the bytes are no script within
/// these limits.
pub fn replay_answer(alloc: Global, bytes: &[u8], limits: &Limits) -> Result<StatusText, NoMemory>
    requires { AreLimits limits.now }
    ensures { IfOk result (λ told. AnswersWithin limits.now Replay bytes.now told.status (text_of told)) }
{
    match play::<Reporting>(alloc, bytes, limits) {
        Ok(played) => report_of(alloc, played),
        Err(error) => no_script(alloc, error),
    }
}

/// The report of what was heard.
fn report_of(alloc: Global, played: Played<Reporting>) -> Result<StatusText, NoMemory>
    ensures { (limits : Limits) (bytes : List ℕ)
        → IsHeard HasTold limits bytes played
        → IfOk result (λ told. AnswersWithin limits Replay bytes told.status (text_of told)) }
{
    let pieces = played
        .listener
        .texts
        .into_report(alloc, played.accounts, played.items)?;
    Ok(StatusText {
        status: Status::Ok,
        pieces,
    })
}

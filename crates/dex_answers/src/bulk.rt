//! The command `bulk`.

ghost use Rattle.std.specs.Prelude.{[], IfOk};
ghost use Rattle.dex_words.specs.Spelling.{AreMade};
ghost use Rattle.dex_words.specs.declared.command.Command.TheVariants.{Bulk};
ghost use Rattle.dex_answers.specs.Answers.{Answers};
ghost use Rattle.dex_answers.specs.Hearing.{HasCounted};
ghost use Rattle.dex_answers.specs.Told.{text_of};

use crate::status::Status;
use crate::told::StatusText;
use dex_report::{Counts, make_script, summary_text};
use dex_state::{MarketJournal, WalletJournal};
use dex_stream::{Listener, play};
use dex_types::{Accounts, NoMemory, Row, STANDARD};
use std::alloc::Global;

/// Counts the entries of journals, and lets them go.
#[derive(Drop)]
pub(crate) struct Counting {
    pub counts: Counts,
}

impl Listener for Counting {
    ghost heard = { HasCounted };

    fn begin(_alloc: Global, _start: &Accounts) -> Result<Counting, NoMemory> {
        Ok(Counting {
            counts: Counts {
                accepted: 0,
                refused: 0,
            },
        })
    }

    fn hear(
        &mut self,
        _alloc: Global,
        _rows: &[Row],
        markets: Vec<MarketJournal>,
        _wallets: Vec<WalletJournal>,
    ) -> Result<(), NoMemory> {
        self.counts.take(&markets)?;
        Ok(())
    }
}

/// The summary of the made script of this number with this many drawn rows, which is read back and replayed.
///
/// That a made script is one is tested and not proved: where it were none, the answer is lack of memory.
pub fn bulk_answer(alloc: Global, number: u64, rows: u32) -> Result<StatusText, NoMemory>
    requires { AreMade number rows }
    ensures { IfOk result (λ told. Answers (Bulk number rows) [] told.status (text_of told)) }
{
    let script = make_script(alloc, number, rows)?;
    let Ok(played) = play::<Counting>(alloc, &script, &STANDARD) else {
        return Err(NoMemory);
    };
    let text = summary_text(
        alloc,
        number,
        rows,
        played.listener.counts,
        &played.accounts,
    )?;
    StatusText::of(alloc, Status::Ok, text)
}

//! The command `dump`.

ghost use Rattle.std.specs.Prelude.{IfOk};
ghost use Rattle.dex_dump.specs.DumpText.{dump_text};
ghost use Rattle.dex_types.specs.Limits.{AreLimits};
ghost use Rattle.dex_types.specs.Accounts.{accounts_of};
ghost use Rattle.dex_words.specs.declared.command.Command.TheVariants.{Dump};
ghost use Rattle.dex_answers.specs.Answers.{AnswersWithin};
ghost use Rattle.dex_answers.specs.Telling.{IsText};
ghost use Rattle.dex_answers.specs.Told.{text_of};
ghost use Rattle.dex_answers.specs.declared.status.Status.TheVariants as status;

use crate::refused::no_script;
use crate::status::Status;
use crate::told::StatusText;
use dex_dump::{Pieces, room_of_dump, take_accounts};
use dex_state::{MarketJournal, WalletJournal};
use dex_stream::{Listener, play};
use dex_types::{Accounts, Limits, NoMemory, Row};
use std::alloc::Global;

/// Lets all journals go.
#[derive(Drop)]
pub(crate) struct Deaf;

impl Listener for Deaf {
    ghost heard = { λ deaf script outcome. Unit {0} };

    fn begin(_alloc: Global, _start: &Accounts) -> Result<Deaf, NoMemory> {
        Ok(Deaf)
    }

    fn hear(
        &mut self,
        _alloc: Global,
        _rows: &[Row],
        _markets: Vec<MarketJournal>,
        _wallets: Vec<WalletJournal>,
    ) -> Result<(), NoMemory> {
        Ok(())
    }
}

/// The dump of the accounts when all rows of a script have acted, or why the bytes are no script within
/// these limits.
pub fn dump_answer(alloc: Global, bytes: &[u8], limits: &Limits) -> Result<StatusText, NoMemory>
    requires { AreLimits limits.now }
    ensures { IfOk result (λ told. AnswersWithin limits.now Dump bytes.now told.status (text_of told)) }
{
    match play::<Deaf>(alloc, bytes, limits) {
        Ok(played) => dump_of(alloc, played.accounts),
        Err(error) => no_script(alloc, error),
    }
}

/// The dump of accounts, each market of which is let go when it is written.
pub(crate) fn dump_of(alloc: Global, accounts: Accounts) -> Result<StatusText, NoMemory>
    ensures { IfOk result (λ told. IsText told status.Ok (dump_text (accounts_of accounts))) }
{
    let mut text = Pieces::with_capacity(alloc, room_of_dump(&accounts))?;
    take_accounts(&mut text, accounts)?;
    let pieces = text.into_pieces()?;
    Ok(StatusText {
        status: Status::Ok,
        pieces,
    })
}

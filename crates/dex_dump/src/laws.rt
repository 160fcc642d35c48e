//! Laws of dumps. A law is a function without a body, and its clause is the law.

ghost use Rattle.std.specs.Prelude.{◌≡◌, ◌↔◌, ℕ, List, ◌++◌, Ok, length};
ghost use Rattle.dex_types.specs.Accounts.{PlainAccounts, PlainMarketAccounts};
ghost use Rattle.dex_accounts.specs.Accepted.{IsAccepted};
ghost use Rattle.dex_dump_rows.specs.Lines.{Fields};
ghost use Rattle.dex_state.specs.Accepted.{AreAccepted};
ghost use Rattle.dex_state.specs.Held.{HoldBytes};
ghost use Rattle.dex_types.specs.Limits.{AreLimits};
ghost use Rattle.dex_types.specs.declared.limits.Limits.{Limits};
ghost use Rattle.dex_dump.specs.Answers.{AnswersDump, AnswersText, AreReadAs, IsReadAs, PlainDump};
ghost use Rattle.dex_dump.specs.Checks.{AllHold, market_checks};
ghost use Rattle.dex_dump.specs.DumpText.{dump_rows, dump_text};

/// One text is the dump of one exchange: accounts of bytes at addresses of 32 bytes that are written as one text are
/// the same accounts, and where something stands after two dumps, that is the same too.
pub fn one_text_is_of_one_exchange()
    ensures alone { (accounts others : PlainAccounts) → HoldBytes accounts → HoldBytes others
        → dump_text accounts ≡ dump_text others → accounts ≡ others }
    ensures behind { (accounts others : PlainAccounts) (rest more : List ℕ)
        → HoldBytes accounts → HoldBytes others
        → dump_text accounts ++ rest ≡ dump_text others ++ more → (accounts ≡ others) × (rest ≡ more) }
{}

/// What is read is accepted within the limits, and holds bytes: the accounts of a text that is a dump, and those of a
/// dump after which something stands.
pub fn what_is_read_is_accepted()
    ensures alone { (limits : Limits) (text : List ℕ) (accounts : PlainAccounts) → AreLimits limits
        → AnswersText limits text (Ok accounts) → AreAccepted limits accounts × HoldBytes accounts }
    ensures behind { (limits : Limits) (rows : List Fields) (dump : PlainDump) → AreLimits limits
        → AnswersDump limits rows (Ok dump) → AreAccepted limits dump.accounts × HoldBytes dump.accounts }
{}

/// What is written of accepted accounts is read back as them, and as nothing else, also where rows stand after it.
pub fn what_is_written_is_read_back()
    ensures alone { (limits : Limits) (accounts : PlainAccounts) → AreAccepted limits accounts → HoldBytes accounts
        → IsReadAs limits (dump_text accounts) accounts }
    ensures behind { (limits : Limits) (accounts : PlainAccounts) (rows : List Fields) → AreAccepted limits accounts
        → HoldBytes accounts → AreReadAs limits (dump_rows accounts ++ rows) accounts rows }
{}

/// The checks of one market's accounts all hold exactly where they are accepted.
pub fn checks_of_a_market_hold_exactly_where_it_is_accepted()
    ensures { (accounts : PlainMarketAccounts) → length accounts.address.0 ≡ 32
        → AllHold (market_checks accounts) ↔ IsAccepted accounts }
{}

//! A market's cell and the wallets beside it, on which rows of scripts act.

ghost use Rattle.dex_accounts.specs.Decoded.{AreSound};
ghost use Rattle.dex_cell.specs.CellState.{IsFor};
ghost use Rattle.dex_types.specs.Accounts.{market_accounts_of};
ghost use Rattle.std.specs.Prelude.{IfSome};

use crate::acting::{act, role, sees};
use crate::making::new_cell;
use crate::words::{add_line, row_of};
use dex_cell::MarketCell;
use dex_rows::records::{Fields, Rows};
use dex_statement::{InstructionWords, Statement, statement_of};
use dex_types::{MarketAccounts, MoveKind, Movement, Program, Row, Seen, WalletSeen};
use std::alloc::Global;
use std::test::Fail;

/// A market's cell, the wallets that rows may name, and the number of the last row.
#[derive(Drop)]
pub(crate) struct Exchange {
    alloc: Global,
    pub cell: MarketCell,
    wallets: Vec<WalletSeen>,
    number: u32,
}

/// What no test is to come to: a row of another market, no room for a row more, a row that is no wallet's and no
/// instruction, and a row without an entry.
#[derive(Debug, Drop)]
pub(crate) enum Unfit {
    OtherMarket,
    NoSpare,
    OtherRow,
    NoEntry,
}

/// Wallets, and the rows that open the accounts `amy` of `ann` and `ben` of `bob`.
const BASE: &[u8] = b"wallet,ann_coin,coin,ann,1000
wallet,ann_usd,usd,ann,0
wallet,bob_coin,coin,bob,0
wallet,bob_usd,usd,bob,5000
do,0,m,ann,amy,-,-,-,-,init
do,1,m,bob,ben,-,-,-,-,init
";

impl Exchange {
    /// A market as it is made, with the accounts `amy` of `ann` and `ben` of `bob` opened by the rows 10 and 11.
    pub fn open(alloc: Global) -> Result<Exchange, Fail> {
        let cell = new_cell(alloc)?;
        let mut exchange = Exchange {
            alloc,
            cell,
            wallets: Vec::new(alloc),
            number: 9,
        };
        exchange.run(BASE)?;
        Ok(exchange)
    }

    /// The market's accounts, as they are.
    pub fn into_accounts(self) -> MarketAccounts
        ensures { AreSound (market_accounts_of result) }
    {
        let (accounts, _) = self.cell.into_parts();
        accounts
    }

    /// Takes each row of a text, and answers the lines of the entries that it adds to the journal.
    pub fn run(&mut self, text: &[u8]) -> Result<String, Fail> {
        let mut lines = String::new(self.alloc);
        let mut rows = Rows::new(self.alloc, text);
        let mut row = Fields::new();
        for _ in 0..u64::MAX {
            if !rows.next_row(&mut row)? {
                return Ok(lines);
            }
            let statement = statement_of(self.alloc, &row)?;
            self.take(statement, &mut lines)?;
        }
        Ok(lines)
    }

    /// Takes one row. Only instructions have numbers.
    fn take(&mut self, statement: Statement, lines: &mut String) -> Result<(), Fail> {
        match statement {
            Statement::Wallet {
                address,
                mint,
                owner,
                amount,
            } => self.keep(WalletSeen {
                address,
                mint,
                owner,
                balance: amount,
            }),
            Statement::Instruction(words) => self.submit(words, lines),
            _ => return Err(Unfit::OtherRow)?,
        }
    }

    /// Keeps a wallet, in place of one that has its address.
    fn keep(&mut self, wallet: WalletSeen) -> Result<(), Fail> {
        for kept in self.wallets.iter_mut() {
            if kept.address == wallet.address {
                *kept = wallet;
                return Ok(());
            }
        }
        self.wallets.push(wallet)?;
        Ok(())
    }

    /// An instruction acts on the market and on the wallets that it names.
    fn submit(&mut self, words: InstructionWords, lines: &mut String) -> Result<(), Fail> {
        self.number = self.number.wrapping_add(1);
        self.act(&row_of(words, self.number))?;
        let Some(entry) = self.cell.entries().last() else {
            return Err(Unfit::NoEntry)?;
        };
        let entry = *entry;
        for movement in entry.moves {
            self.pay(movement);
        }
        add_line(lines, &entry)?;
        Ok(())
    }

    /// A row acts on the market.
    fn act(&mut self, row: &Row) -> Result<(), Fail> {
        let Some(seen) = self.seen_by(row) else {
            return Err(Unfit::OtherMarket)?;
        };
        if self.cell.spare() == 0 {
            return Err(Unfit::NoSpare)?;
        }
        act(&mut self.cell, row, &seen);
        Ok(())
    }

    /// What a row of the market sees; none of a row of another market.
    fn seen_by(&self, row: &Row) -> Option<Seen>
        ensures { IfSome result (λ seen. IsFor row.entry.now seen self.now.cell) }
    {
        let seen = Seen {
            coin: role(&self.wallets, row.coin),
            pc: role(&self.wallets, row.pc),
            discount: role(&self.wallets, row.discount),
            referrer: role(&self.wallets, row.referrer),
            srm: None,
            msrm: None,
            program: Program::Serum,
        };
        if self.cell.accounts().address == row.market && sees(row, &seen) {
            Some(seen)
        } else {
            None
        }
    }

    /// A movement changes its wallet.
    fn pay(&mut self, movement: Option<Movement>) {
        if let Some(movement) = movement {
            for wallet in self.wallets.iter_mut() {
                if wallet.address == movement.wallet {
                    wallet.balance = left_by(&movement);
                }
            }
        }
    }
}

/// What a movement leaves in its wallet.
fn left_by(movement: &Movement) -> u64 {
    match movement.kind {
        MoveKind::Probe => movement.before,
        MoveKind::Debit => movement.before.wrapping_sub(movement.amount),
        MoveKind::Credit => movement.before.wrapping_add(movement.amount),
    }
}

//! Setup rows, and the row that chooses the program, after the rows before them. After a fault the draft is as it was;
//! where memory is wanting, what is left of it does not matter.

ghost use Rattle.std.specs.Prelude.{◌≡◌, ℕ, OnOk};
ghost use Rattle.dex_script.specs.Rows as spec;
ghost use Rattle.dex_script.specs.Rows.{IsSetup};
ghost use Rattle.dex_script.specs.Telling.{TellsAdded, draft_of};

use crate::draft::Draft;
use crate::known::{is_any_among, made_addresses};
use crate::market::DeclaredMarket;
use crate::markets::{add_orders, exceeds_market, orders_at, set_of};
use crate::taken::take_all;
use dex_make::{make_orders, make_wallet};
use dex_statement::{FaultKind, MarketWords, RowError, SetupCode, Statement};
use dex_types::{Address, Named, NoMemory, OrdersAccount, Program};
use std::alloc::Global;

impl Draft {
    /// Adds what a setup row states, or one that chooses the program.
    pub(crate) fn add_setup(&mut self, alloc: Global, statement: Statement) -> Result<(), RowError>
        requires { IsSetup statement }
        ensures { (number : ℕ)
            → TellsAdded result (draft_of self.old) (draft_of self.new)
            (spec.with_statement (draft_of self.old) number statement) }
    {
        match statement {
            Statement::Program(program) => self.set_program(program),
            Statement::Mint { address, decimals } => self.add_mint(alloc, address, decimals),
            Statement::Srm(mint) => self.name_srm(mint),
            Statement::Msrm(mint) => self.name_msrm(mint),
            Statement::Wallet {
                address,
                mint,
                owner,
                amount,
            } => self.add_wallet(alloc, address, mint, owner, amount),
            Statement::Market(words) => self.add_market(alloc, &words),
            Statement::Orders { market, address } => self.add_orders(alloc, market, address),
            // By the condition it is a setup row.
            Statement::Clock(_) | Statement::Instruction(_) | Statement::Swap(_) => unreachable!(),
        }
    }

    /// A `program` row.
    #[tactic(auto, unfolding(crate::specs::Rows::with_program))]
    fn set_program(&mut self, program: Program) -> Result<(), RowError>
        ensures { TellsAdded result (draft_of self.old) (draft_of self.new)
            (spec.with_program (draft_of self.old) program) }
    {
        if !self.is_first {
            return Err(RowError::Fault(FaultKind::SetupRefused(SetupCode::Program)));
        }
        self.program = program;
        self.is_first = false;
        Ok(())
    }

    /// What refuses a row that declares addresses: one of them is taken, or there is no room for what they are of.
    #[tactic(auto, unfolding(crate::specs::Rows::checked_new))]
    fn check_new(&self, is_taken: bool, is_full: bool) -> Result<(), FaultKind>
        ensures { result ≡ spec.checked_new (draft_of self.now) is_taken is_full }
    {
        if is_taken {
            return Err(FaultKind::Duplicate);
        }
        if is_full {
            return Err(FaultKind::OverLimit);
        }
        if self.is_late {
            return Err(FaultKind::SetupRefused(SetupCode::Late));
        }
        Ok(())
    }

    /// Takes the addresses that a row declares.
    fn take(&mut self, new: &[Address]) -> Result<(), NoMemory>
        ensures { OnOk result (draft_of self.new
            ≡ spec.with_start (draft_of self.old) new.now (draft_of self.old).script.start) }
    {
        take_all(&mut self.taken, new)?;
        self.is_first = false;
        Ok(())
    }

    /// A `mint` row.
    #[tactic(auto, unfolding(crate::specs::Rows::with_mint))]
    fn add_mint(&mut self, alloc: Global, address: Address, decimals: u8) -> Result<(), RowError>
        ensures { TellsAdded result (draft_of self.old) (draft_of self.new)
            (spec.with_mint (draft_of self.old) address decimals) }
    {
        self.check_new(
            self.taken.has(address),
            self.limits.mints <= self.start.mints.len(),
        )?;
        self.start.mints.add(alloc, address, decimals)?;
        self.take(&[address])?;
        Ok(())
    }

    /// An `srm` row.
    #[tactic(auto, unfolding(crate::specs::Rows::with_srm))]
    fn name_srm(&mut self, mint: Address) -> Result<(), RowError>
        ensures { TellsAdded result (draft_of self.old) (draft_of self.new)
            (spec.with_srm (draft_of self.old) mint) }
    {
        self.check_name(mint, self.start.srm, 6)?;
        self.start.srm = Some(mint);
        self.is_first = false;
        Ok(())
    }

    /// An `msrm` row.
    #[tactic(auto, unfolding(crate::specs::Rows::with_msrm))]
    fn name_msrm(&mut self, mint: Address) -> Result<(), RowError>
        ensures { TellsAdded result (draft_of self.old) (draft_of self.new)
            (spec.with_msrm (draft_of self.old) mint) }
    {
        self.check_name(mint, self.start.msrm, 0)?;
        self.start.msrm = Some(mint);
        self.is_first = false;
        Ok(())
    }

    /// Whether a row may give a name to a mint, which must have this many decimals: `named` is who has it already.
    #[tactic(auto, unfolding(crate::specs::Rows::checked_name))]
    fn check_name(
        &self,
        mint: Address,
        named: Option<Address>,
        decimals: u8,
    ) -> Result<(), FaultKind>
        ensures { result ≡ spec.checked_name (draft_of self.now) mint named decimals }
    {
        let Some(words) = self.start.mints.find(mint) else {
            return Err(FaultKind::UnknownLabel);
        };
        if named.is_some() {
            return Err(FaultKind::Duplicate);
        }
        if self.is_late {
            return Err(FaultKind::SetupRefused(SetupCode::Late));
        }
        if words.decimals != decimals {
            return Err(FaultKind::SetupRefused(SetupCode::Decimals));
        }
        Ok(())
    }

    /// A `wallet` row.
    #[tactic(auto, unfolding(crate::specs::Rows::with_wallet))]
    fn add_wallet(
        &mut self,
        alloc: Global,
        address: Address,
        mint: Address,
        owner: Address,
        amount: u64,
    ) -> Result<(), RowError>
        ensures { TellsAdded result (draft_of self.old) (draft_of self.new)
            (spec.with_wallet (draft_of self.old) address mint owner amount) }
    {
        let Some(words) = self.start.mints.find(mint) else {
            return Err(RowError::Fault(FaultKind::UnknownLabel));
        };
        self.check_new(
            self.taken.has(address),
            self.limits.wallets <= self.start.wallets.len(),
        )?;
        if words.supply.checked_add(amount).is_none() {
            return Err(RowError::Fault(FaultKind::SetupRefused(SetupCode::Supply)));
        }
        self.start.mints.raise(mint, amount);
        let bytes = make_wallet(alloc, mint, owner, amount)?;
        self.start.wallets.push(Named { address, bytes })?;
        self.take(&[address])?;
        Ok(())
    }

    /// A `market` row.
    #[tactic(auto, unfolding(crate::specs::Rows::with_market))]
    fn add_market(&mut self, alloc: Global, words: &MarketWords) -> Result<(), RowError>
        ensures { TellsAdded result (draft_of self.old) (draft_of self.new)
            (spec.with_market (draft_of self.old) words.now) }
    {
        if !self.start.mints.has(words.coin) || !self.start.mints.has(words.pc) {
            return Err(RowError::Fault(FaultKind::UnknownLabel));
        }
        let new = made_addresses(words.address);
        let is_full = (self.limits.markets <= self.start.markets.len()) | exceeds_market(words);
        self.check_new(is_any_among(&new, &self.taken), is_full)?;
        let set = set_of(words)?;
        self.start
            .markets
            .push(DeclaredMarket::of_set(alloc, set)?)?;
        self.take(&new)?;
        Ok(())
    }

    /// An `orders` row.
    #[tactic(auto, unfolding(crate::specs::Rows::with_orders_row))]
    fn add_orders(
        &mut self,
        alloc: Global,
        market: Address,
        address: Address,
    ) -> Result<(), RowError>
        ensures { TellsAdded result (draft_of self.old) (draft_of self.new)
            (spec.with_orders_row (draft_of self.old) market address) }
    {
        let Some(count) = orders_at(market, &self.start.markets) else {
            return Err(RowError::Fault(FaultKind::UnknownLabel));
        };
        self.check_new(self.taken.has(address), self.limits.orders <= count)?;
        let bytes = make_orders(alloc)?;
        add_orders(
            &mut self.start.markets,
            market,
            OrdersAccount { address, bytes },
        )?;
        self.take(&[address])?;
        Ok(())
    }
}

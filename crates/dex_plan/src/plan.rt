//! What a row is to do, once it was decided.

ghost use Rattle.std.specs.Prelude.{◌≡◌};
ghost use Rattle.dex_types.specs.Side.{locked_token};
ghost use Rattle.dex_types.specs.Transfers.{deposit};
ghost use Rattle.dex_plan.specs.Owing.{deposit_of, entering};

use dex_cancel::CancelWhat;
use dex_fills::PendingFills;
use dex_match::{OrderPlan, Taker};
use dex_settle::SettlePlan;
use dex_take::TakePlan;
use dex_types::Side;

/// What an instruction is to do on its market. The accounts that it names are those of its row.
#[derive(Clone, Copy, Debug)]
pub enum Plan {
    /// Nothing: orders are matched as they come in.
    Nothing,
    /// Consume events, up to the limit.
    Consume {
        limit: u16,
    },
    /// Pay out all free funds of the named account, and its referrer part.
    Settle(SettlePlan),
    /// Disable the market for good.
    Disable,
    /// Pay out all pc fees, which are these, in native pc.
    Sweep(u64),
    /// A new order of the named account, as its trader states it; what it does; and what pending makers' fills are to
    /// take off totals once it is done.
    Order {
        taker: Taker,
        plan: OrderPlan,
        pending: PendingFills,
    },
    /// A take, as its taker states it; what it does; and the same sums once it is done.
    Take {
        taker: Taker,
        plan: TakePlan,
        pending: PendingFills,
    },
    /// Take these resting orders of the named account off the book.
    Cancel(CancelWhat),
    /// Close the named account for good.
    Close,
    /// Open the named account for the signer.
    Init,
}

/// What a row takes from its signer's wallets into the vaults, in native base and in native quote.
#[derive(Clone, Copy, Debug, PartialEq, Eq)]
pub struct Deposit {
    pub coin: u64,
    pub pc: u64,
}

/// The deposit of an order or a take of the side: a bid's is quote, an ask's base.
fn deposit_on(side: Side, amount: u64) -> Deposit
    ensures { result ≡ entering (deposit (locked_token side) amount) }
{
    match side {
        Side::Bid => Deposit {
            coin: 0,
            pc: amount,
        },
        Side::Ask => Deposit {
            coin: amount,
            pc: 0,
        },
    }
}

impl Plan {
    /// What the plan takes into the vaults, in native amounts: what a new order or a take deposits, a bid in quote and
    /// an ask in base; all other plans take nothing.
    pub fn deposit(&self) -> Deposit
        ensures { result ≡ deposit_of self.now }
    {
        match self {
            Plan::Order { taker, plan, .. } => deposit_on(taker.id_side, plan.deposit),
            Plan::Take { taker, plan, .. } => deposit_on(taker.id_side, plan.deposit),
            _ => Deposit { coin: 0, pc: 0 },
        }
    }
}

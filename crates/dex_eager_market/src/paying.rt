//! Makers are paid as they are met.

ghost use Rattle.std.specs.Prelude.{◌≡◌, ◌+◌, ◌*◌, ◌^◌, ◌<◌, ◌≤◌, map};
ghost use Rattle.std.specs.List.{All};
ghost use Rattle.dex_eager.specs.Eager.{with_fills};
ghost use Rattle.dex_eager.specs.Slots.{maker_fills};
ghost use Rattle.dex_fills.specs.Taker.{demand, met_by, taking};
ghost use Rattle.dex_types.specs.Meeting as meeting;
ghost use Rattle.dex_types.specs.Side as book;
ghost use Rattle.dex_eager_market.specs.Accounts.{Grows, IsSmall, IsWithin, entry_of};
ghost use Rattle.dex_eager_market.specs.Trading.{maker_change};
ghost use Rattle.dex_eager_market.specs.Foreseen.{CanFill, IsModest};

use crate::accounts::{Account, Change, add, traded};
use dex_fills::fills::{Fill, fill_met, want_after};
use dex_fills::taking::{is_own, taken};
use dex_fills::{MeetingTerms, Want};
use dex_types::{Order, Side};

/// What a fill of the taker's side changes for the maker: an ask pays base and gets quote and the rebate, a bid gets
/// base and pays quote less the rebate.
fn maker_change(side: Side, fill: Fill) -> Change
    requires { fill.rebate ≤ fill.pc }
    ensures value { result ≡ maker_change side fill }
    ensures small { IsSmall (2 ^ 65) result }
{
    let base = u128::from(fill.base);
    let pc = u128::from(fill.pc);
    let rebate = u128::from(fill.rebate);
    match side {
        Side::Bid => traded(Side::Ask, base, pc + rebate),
        Side::Ask => traded(Side::Bid, base, pc - rebate),
    }
}

/// Pays the maker of an order that was met and lost these lots; an order of the taker's own pays nothing.
fn pay(accounts: &mut Vec<Account>, side: Side, taker: MeetingTerms, order: Order, lots: u64)
    requires tier { order.tier < 7 }
    requires base { meeting.met_lots (taking taker) order lots * taker.sizes.coin < 2 ^ 64 }
    requires pc { meeting.met_pc (taking taker) order lots < 2 ^ 64 }
    requires accounts { All (IsWithin (2 ^ 126)) accounts.old.items }
    ensures worths { map entry_of accounts.new.items
        ≡ with_fills (maker_fills (meeting.met_events side (taking taker) order lots))
        (map entry_of accounts.old.items) }
    ensures within { Grows (2 ^ 65) accounts.old.items accounts.new.items }
{
    if is_own(taker.owner, order) {
        return;
    }
    let fill = fill_met(taker, order, lots);
    add(accounts, order.owner, maker_change(side, fill));
}

/// Pays the makers of all orders that a taker of the side meets among these, from the best one on.
pub fn pay_makers(
    accounts: &mut Vec<Account>,
    side: Side,
    taker: MeetingTerms,
    want: Want,
    orders: &[Order],
)
    requires modest { IsModest side taker.sizes (demand want) }
    requires orders { All (CanFill (book.opposite side) taker.sizes) orders.now }
    requires accounts { All (IsWithin (2 ^ 125)) accounts.old.items }
    ensures worths { map entry_of accounts.new.items
        ≡ with_fills (maker_fills (met_by side taker want orders.now).events) (map entry_of accounts.old.items) }
    ensures within { Grows (2 ^ 81) accounts.old.items accounts.new.items }
{
    let mut left = want;
    let mut place = 0;
    'orders: while place < orders.len() {
        let order = orders[place];
        let lots = taken(side, taker, left, order);
        if lots == 0 {
            return;
        }
        pay(accounts, side, taker, order, lots);
        if lots < order.lots {
            return;
        }
        left = want_after(side, taker, left, order, lots);
        place += 1;
    }
}

//! The instruction whose fields stand in data that breaks no rule.

ghost use Rattle.std.specs.Prelude.{◌≡◌, ◌≤◌, ◌-◌, length, true, false, None};
ghost use Rattle.dex_instruction.specs.IdList.{ids_in};
ghost use Rattle.dex_instruction.specs.Rules.{broken, is_body_length, is_retired};
ghost use Rattle.dex_instruction.specs.Reading.{market_in, latest_in, order_in, take_in, tagged, instruction};

use crate::codes::{order_type_of, self_trade_of, side_of, time_of};
use crate::numbers::{u16_at, u32_at, u64_at, u128_at};
use dex_types::{ClientIds, Ix};

fn market_in(bytes: &[u8]) -> Ix
    requires { length bytes.now ≡ 39 }
    ensures { result ≡ market_in bytes.now }
{
    Ix::InitializeMarket {
        coin_lot: u64_at(bytes, 5),
        pc_lot: u64_at(bytes, 13),
        fee_rate_bps: u16_at(bytes, 21),
        nonce: u64_at(bytes, 23),
        dust: u64_at(bytes, 31),
    }
}

fn latest_in(bytes: &[u8]) -> Option<i64>
    ensures { result ≡ latest_in bytes.now }
{
    if bytes.len() == 59 {
        Some(time_of(u64_at(bytes, 51)))
    } else {
        None
    }
}

fn order_in(bytes: &[u8]) -> Ix
    requires { 51 ≤ length bytes.now }
    ensures { result ≡ order_in bytes.now }
{
    Ix::NewOrderV3 {
        side: side_of(u32_at(bytes, 5)),
        limit_price: u64_at(bytes, 9),
        max_coin_qty: u64_at(bytes, 17),
        max_native_pc_qty_including_fees: u64_at(bytes, 25),
        self_trade_behavior: self_trade_of(u32_at(bytes, 33)),
        order_type: order_type_of(u32_at(bytes, 37)),
        client_order_id: u64_at(bytes, 41),
        limit: u16_at(bytes, 49),
        max_ts: latest_in(bytes),
    }
}

fn take_in(bytes: &[u8]) -> Ix
    requires { length bytes.now ≡ 51 }
    ensures { result ≡ take_in bytes.now }
{
    Ix::SendTake {
        side: side_of(u32_at(bytes, 5)),
        limit_price: u64_at(bytes, 9),
        max_coin_qty: u64_at(bytes, 17),
        max_native_pc_qty_including_fees: u64_at(bytes, 25),
        min_coin_qty: u64_at(bytes, 33),
        min_native_pc_qty: u64_at(bytes, 41),
        limit: u16_at(bytes, 49),
    }
}

fn ids_in(bytes: &[u8]) -> ClientIds
    requires some { 13 ≤ length bytes.now }
    requires at_most_eight { length bytes.now ≤ 69 }
    ensures { result ≡ ids_in bytes.now }
{
    let count = (bytes.len() - 5) / 8;
    let mut ids = [0; 8];
    'ids: for i in 0..count {
        ids[i] = u64_at(bytes, 5 + 8 * i);
    }
    ClientIds {
        ids,
        count: count as u8,
    }
}

/// The instruction that has the tag, with the data's fields.
fn tagged(tag: u32, bytes: &[u8]) -> Ix
    requires behind_tag { 5 ≤ length bytes.now }
    requires known { tag ≤ 18 }
    requires current { is_retired tag ≡ false }
    requires whole { is_body_length tag (length bytes.now - 5) ≡ true }
    ensures { result ≡ tagged tag bytes.now }
{
    match tag {
        0 => market_in(bytes),
        2 => Ix::MatchOrders {
            limit: u16_at(bytes, 5),
        },
        3 => Ix::ConsumeEvents {
            limit: u16_at(bytes, 5),
        },
        5 => Ix::SettleFunds,
        7 => Ix::DisableMarket,
        8 => Ix::SweepFees,
        10 => order_in(bytes),
        11 => Ix::CancelOrderV2 {
            side: side_of(u32_at(bytes, 5)),
            order_id: u128_at(bytes, 9),
        },
        12 => Ix::CancelOrderByClientIdV2 {
            client_order_id: u64_at(bytes, 5),
        },
        13 => take_in(bytes),
        14 => Ix::CloseOpenOrders,
        15 => Ix::InitOpenOrders,
        16 => Ix::Prune {
            limit: u16_at(bytes, 5),
        },
        _ => Ix::CancelOrdersByClientIds { ids: ids_in(bytes) },
    }
}

/// The instruction that data which breaks no rule spells.
#[tactic(auto, unfolding(crate::specs::Reading::instruction))]
pub(crate) fn instruction(bytes: &[u8]) -> Ix
    requires { broken bytes.now ≡ None }
    ensures { result ≡ instruction bytes.now }
{
    tagged(u32_at(bytes, 1), bytes)
}

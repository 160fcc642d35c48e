//! Encoding an instruction as bytes.

ghost use Rattle.std.specs.Prelude.{◌≡◌, ◌≤◌, ◌+◌, ◌∷◌, [], length, take, drop, if◌then◌else◌, Ok, Err, IfSome, FitsSigned};
ghost use Rattle.std.specs.Int.{w64};
ghost use Rattle.dex_types.specs.declared.instructions.BadData.TheVariants.{ZeroField};
ghost use Rattle.dex_instruction.specs.Codes.{side_code, self_trade_code, order_type_code};
ghost use Rattle.dex_instruction.specs.Numbers.{spelled, widths};
ghost use Rattle.dex_instruction.specs.Reading.{decoded};
ghost use Rattle.dex_instruction.specs.Spelling.{tag_of, fields_of, id_fields, latest_fields, spelling, has_zero, AllFit, Fits};
ghost use Rattle.dex_instruction.specs.Writing.{written};

use crate::codes::{order_type_code, self_trade_code, side_code, time_code};
use crate::numbers::put;
use dex_types::{ClientIds, Ix, OrderType, SelfTrade, Side};

/// The instruction's tag.
fn tag_of(ix: &Ix) -> u32
    ensures { result ≡ tag_of ix.now }
{
    match ix {
        Ix::InitializeMarket { .. } => 0,
        Ix::MatchOrders { .. } => 2,
        Ix::ConsumeEvents { .. } => 3,
        Ix::SettleFunds => 5,
        Ix::DisableMarket => 7,
        Ix::SweepFees => 8,
        Ix::NewOrderV3 { .. } => 10,
        Ix::CancelOrderV2 { .. } => 11,
        Ix::CancelOrderByClientIdV2 { .. } => 12,
        Ix::SendTake { .. } => 13,
        Ix::CloseOpenOrders => 14,
        Ix::InitOpenOrders => 15,
        Ix::Prune { .. } => 16,
        Ix::CancelOrdersByClientIds { .. } => 18,
    }
}

/// Writes the fields of a market, and answers the place after them.
fn put_market(
    out: &mut [u8; 128],
    coin_lot: u64,
    pc_lot: u64,
    fee_rate_bps: u16,
    nonce: u64,
    dust: u64,
) -> usize
    ensures end { result ≡ 39 }
    ensures bytes { out.new ≡ written 5 (spelled ((8, coin_lot) ∷ (8, pc_lot) ∷ (2, fee_rate_bps) ∷ (8, nonce)
        ∷ (8, dust) ∷ [])) out.old }
{
    let at = put(out, 5, coin_lot.to_le_bytes());
    let at = put(out, at, pc_lot.to_le_bytes());
    let at = put(out, at, fee_rate_bps.to_le_bytes());
    let at = put(out, at, nonce.to_le_bytes());
    put(out, at, dust.to_le_bytes())
}

/// Writes side, price and most quantities, with which an order and a take begin.
fn put_terms(out: &mut [u8; 128], side: Side, price: u64, lots: u64, pc: u64) -> usize
    ensures end { result ≡ 33 }
    ensures bytes { out.new
        ≡ written 5 (spelled ((4, side_code side) ∷ (8, price) ∷ (8, lots) ∷ (8, pc) ∷ [])) out.old }
{
    let at = put(out, 5, side_code(side).to_le_bytes());
    let at = put(out, at, price.to_le_bytes());
    let at = put(out, at, lots.to_le_bytes());
    put(out, at, pc.to_le_bytes())
}

/// Writes the latest time, where there is one, after the other fields of an order.
fn put_latest(out: &mut [u8; 128], latest: Option<i64>) -> usize
    ensures end { result ≡ 51 + widths (latest_fields latest) }
    ensures bytes { out.new ≡ written 51 (spelled (latest_fields latest)) out.old }
    ensures typed { IfSome latest (λ time. FitsSigned w64 time) }
{
    match latest {
        None => 51,
        Some(time) => put(out, 51, time_code(time).to_le_bytes()),
    }
}

/// Writes what stands after the terms of an order.
fn put_order(
    out: &mut [u8; 128],
    self_trade: SelfTrade,
    order_type: OrderType,
    client: u64,
    limit: u16,
    latest: Option<i64>,
) -> usize
    ensures end { result ≡ 51 + widths (latest_fields latest) }
    ensures bytes { out.new ≡ written 33 (spelled ((4, self_trade_code self_trade) ∷ (4, order_type_code order_type)
        ∷ (8, client) ∷ (2, limit) ∷ latest_fields latest)) out.old }
    ensures typed { IfSome latest (λ time. FitsSigned w64 time) }
{
    let at = put(out, 33, self_trade_code(self_trade).to_le_bytes());
    let at = put(out, at, order_type_code(order_type).to_le_bytes());
    let at = put(out, at, client.to_le_bytes());
    put(out, at, limit.to_le_bytes());
    put_latest(out, latest)
}

/// Writes what stands after the terms of a take.
fn put_take(out: &mut [u8; 128], least_lots: u64, least_pc: u64, limit: u16) -> usize
    ensures end { result ≡ 51 }
    ensures bytes { out.new ≡ written 33 (spelled ((8, least_lots) ∷ (8, least_pc) ∷ (2, limit) ∷ [])) out.old }
{
    let at = put(out, 33, least_lots.to_le_bytes());
    let at = put(out, at, least_pc.to_le_bytes());
    put(out, at, limit.to_le_bytes())
}

/// Writes the fields of a cancel by id.
fn put_cancel(out: &mut [u8; 128], side: Side, order_id: u128) -> usize
    ensures end { result ≡ 25 }
    ensures bytes { out.new ≡ written 5 (spelled ((4, side_code side) ∷ (16, order_id) ∷ [])) out.old }
{
    let at = put(out, 5, side_code(side).to_le_bytes());
    put(out, at, order_id.to_le_bytes())
}

/// Writes the client ids one after the other.
fn put_ids(out: &mut [u8; 128], ids: &ClientIds) -> usize
    ensures end { result ≡ 5 + widths (id_fields ids.now) }
    ensures bytes { out.new ≡ written 5 (spelled (id_fields ids.now)) out.old }
    ensures fits { AllFit (id_fields ids.now) }
    ensures typed { length ids.now.ids ≡ 8 }
{
    let mut at = 5;
    'ids: for i in 0..ids.count as usize {
        at = put(out, at, ids.ids[i].to_le_bytes());
    }
    at
}

/// Writes the fields of the body, and answers the place after them.
fn put_fields(ix: &Ix, out: &mut [u8; 128]) -> usize
    ensures end { result ≡ 5 + widths (fields_of ix.now) }
    ensures bytes { out.new ≡ written 5 (spelled (fields_of ix.now)) out.old }
    ensures fits { Fits ix.now }
{
    match *ix {
        Ix::InitializeMarket {
            coin_lot,
            pc_lot,
            fee_rate_bps,
            nonce,
            dust,
        } => put_market(out, coin_lot, pc_lot, fee_rate_bps, nonce, dust),
        Ix::MatchOrders { limit } | Ix::ConsumeEvents { limit } | Ix::Prune { limit } => {
            put(out, 5, limit.to_le_bytes())
        }
        Ix::NewOrderV3 {
            side,
            limit_price,
            max_coin_qty,
            max_native_pc_qty_including_fees,
            self_trade_behavior,
            order_type,
            client_order_id,
            limit,
            max_ts,
        } => {
            put_terms(
                out,
                side,
                limit_price,
                max_coin_qty,
                max_native_pc_qty_including_fees,
            );
            put_order(
                out,
                self_trade_behavior,
                order_type,
                client_order_id,
                limit,
                max_ts,
            )
        }
        Ix::CancelOrderV2 { side, order_id } => put_cancel(out, side, order_id),
        Ix::CancelOrderByClientIdV2 { client_order_id } => put(
            out,
            5,
            client_order_id.to_le_bytes(),
        ),
        Ix::SendTake {
            side,
            limit_price,
            max_coin_qty,
            max_native_pc_qty_including_fees,
            min_coin_qty,
            min_native_pc_qty,
            limit,
        } => {
            put_terms(
                out,
                side,
                limit_price,
                max_coin_qty,
                max_native_pc_qty_including_fees,
            );
            put_take(out, min_coin_qty, min_native_pc_qty, limit)
        }
        Ix::CancelOrdersByClientIds { ref ids } => put_ids(out, ids),
        Ix::SettleFunds
        | Ix::DisableMarket
        | Ix::SweepFees
        | Ix::CloseOpenOrders
        | Ix::InitOpenOrders => 5,
    }
}

/// Writes the one spelling of the instruction at the front, and answers how many bytes it has, at most 69. The bytes
/// after it stay. Takes no memory.
pub fn encode(ix: &Ix, out: &mut [u8; 128]) -> usize
    ensures front { take result out.new ≡ spelling ix.now }
    ensures behind { drop result out.new ≡ drop result out.old }
    ensures few { result ≤ 69 }
    // What was written decodes to the instruction again; where a field is 0 that must not be, that rule is the one that
    // is broken.
    ensures decodes { decoded (take result out.new) ≡ (if has_zero ix.now then Err ZeroField else Ok ix.now) }
{
    put(out, 0, [0]);
    put(out, 1, tag_of(ix).to_le_bytes());
    put_fields(ix, out)
}

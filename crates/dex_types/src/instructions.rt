ghost use Rattle.std.specs.Prelude.{◌≡◌};
ghost use Rattle.dex_types.specs.Text.{bad_data_number};

use crate::client_ids::ClientIds;
use crate::terms::{OrderType, SelfTrade, Side};
use thiserror::Error;

/// A decoded instruction (Serum DEX v3, `MarketInstruction`). Prices are in quote lots per base lot, `max_coin_qty`
/// is in base lots, `max_native_pc_qty_including_fees` in native quote, and each `limit` counts orders or events.
#[derive(Clone, Copy, Debug, PartialEq, Eq)]
pub enum Ix {
    /// `coin_lot` is the native base of a base lot and `pc_lot` the native quote of a quote lot, `fee_rate_bps` is in
    /// hundredths of a percent, and `dust` in native quote.
    InitializeMarket {
        coin_lot: u64,
        pc_lot: u64,
        fee_rate_bps: u16,
        nonce: u64,
        dust: u64,
    },
    MatchOrders {
        limit: u16,
    },
    ConsumeEvents {
        limit: u16,
    },
    SettleFunds,
    DisableMarket,
    SweepFees,
    /// `max_ts` is the latest clock at which the order is taken (OpenBook v1); None says any.
    NewOrderV3 {
        side: Side,
        limit_price: u64,
        max_coin_qty: u64,
        max_native_pc_qty_including_fees: u64,
        self_trade_behavior: SelfTrade,
        order_type: OrderType,
        client_order_id: u64,
        limit: u16,
        max_ts: Option<i64>,
    },
    CancelOrderV2 {
        side: Side,
        order_id: u128,
    },
    CancelOrderByClientIdV2 {
        client_order_id: u64,
    },
    /// `min_coin_qty` is in base lots, `min_native_pc_qty` in native quote.
    SendTake {
        side: Side,
        limit_price: u64,
        max_coin_qty: u64,
        max_native_pc_qty_including_fees: u64,
        min_coin_qty: u64,
        min_native_pc_qty: u64,
        limit: u16,
    },
    CloseOpenOrders,
    InitOpenOrders,
    Prune {
        limit: u16,
    },
    CancelOrdersByClientIds {
        ids: ClientIds,
    },
}

/// Why instruction data does not decode: the first broken rule, in this order.
#[derive(Clone, Copy, Debug, PartialEq, Eq, Error)]
pub enum BadData {
    #[error("the data is shorter than a version and a tag")]
    Short = 1,
    #[error("the version is not 0")]
    Version,
    #[error("no instruction has the tag")]
    UnknownTag,
    #[error("the tag is retired")]
    RetiredTag,
    #[error("the body has another length than its instruction's")]
    Length,
    #[error("a price, a quantity or a lot size is 0")]
    ZeroField,
    #[error("a side, a self-trade rule or an order type is none")]
    BadEnum,
}

impl BadData {
    /// The number of the broken rule, counted from 1.
    pub fn number(self) -> u8
        ensures { result ≡ bad_data_number self }
    {
        self as u8
    }
}

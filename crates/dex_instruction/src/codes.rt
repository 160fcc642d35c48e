//! Sides, self-trade rules and order types as numbers, and back.

ghost use Rattle.std.specs.Prelude.{◌≡◌};
ghost use Rattle.dex_instruction.specs.Codes.{side_code, side_of, self_trade_code, self_trade_of, order_type_code, order_type_of, time_code, time_of};

use dex_types::{OrderType, SelfTrade, Side};

/// The side that the code names; a code above 1 is none, and is read as 1.
pub(crate) fn side_of(code: u32) -> Side
    ensures { result ≡ side_of code }
{
    if code == 0 { Side::Bid } else { Side::Ask }
}

pub(crate) fn side_code(side: Side) -> u32
    ensures { result ≡ side_code side }
{
    match side {
        Side::Bid => 0,
        Side::Ask => 1,
    }
}

/// The self-trade rule that the code names; a code above 2 is none, and is read as 2.
pub(crate) fn self_trade_of(code: u32) -> SelfTrade
    ensures { result ≡ self_trade_of code }
{
    if code == 0 {
        SelfTrade::Decrement
    } else if code == 1 {
        SelfTrade::CancelProvide
    } else {
        SelfTrade::Abort
    }
}

pub(crate) fn self_trade_code(rule: SelfTrade) -> u32
    ensures { result ≡ self_trade_code rule }
{
    match rule {
        SelfTrade::Decrement => 0,
        SelfTrade::CancelProvide => 1,
        SelfTrade::Abort => 2,
    }
}

/// The order type that the code names; a code above 2 is none, and is read as 2.
pub(crate) fn order_type_of(code: u32) -> OrderType
    ensures { result ≡ order_type_of code }
{
    if code == 0 {
        OrderType::Limit
    } else if code == 1 {
        OrderType::Ioc
    } else {
        OrderType::PostOnly
    }
}

pub(crate) fn order_type_code(kind: OrderType) -> u32
    ensures { result ≡ order_type_code kind }
{
    match kind {
        OrderType::Limit => 0,
        OrderType::Ioc => 1,
        OrderType::PostOnly => 2,
    }
}

/// The signed number whose two's complement it is.
pub(crate) fn time_of(code: u64) -> i64
    ensures { result ≡ time_of code }
{
    code.cast_signed()
}

pub(crate) fn time_code(time: i64) -> u64
    ensures { result ≡ time_code time }
{
    time.cast_unsigned()
}

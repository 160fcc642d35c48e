//! The setup rows of made scripts.

ghost use Rattle.std.specs.Prelude.{Some};
ghost use Rattle.dex_report.specs.MadeSetup as setup;

use crate::made_rows::MadeMarket;
use std::fmt;

/// The rows of a trader's two wallets.
#[derive(Clone, Copy)]
pub struct WalletLines(pub u32);

impl fmt::Display for WalletLines {
    ghost output = { λ l. Some (setup.wallet_lines l.0) };

    fn fmt<W: fmt::Write>(&self, f: &mut fmt::Formatter<W>) -> fmt::Result {
        let k = self.0;
        write!(f, "wallet,c{k},base,u{k},1000000000\n")?;
        write!(f, "wallet,q{k},quote,u{k},1000000000\n")
    }
}

/// The row that makes a market.
#[derive(Clone, Copy)]
pub struct MarketLine(pub MadeMarket);

impl fmt::Display for MarketLine {
    ghost output = { λ l. Some (setup.market_line l.0) };

    fn fmt<W: fmt::Write>(&self, f: &mut fmt::Formatter<W>) -> fmt::Result {
        let market = self.0;
        write!(
            f,
            "market,{market},base,quote,admin,909,909,2978,AAAAAABkAAAAAAAAAAoAAAAAAAAAAAAAAAAAAAAAAAEAAAAAAAAA\n"
        )
    }
}

/// The row of a trader's open-orders account on a market.
#[derive(Clone, Copy)]
pub struct OrdersLine {
    pub market: MadeMarket,
    pub trader: u32,
}

impl fmt::Display for OrdersLine {
    ghost output = { λ l. Some (setup.orders_line l.market l.trader) };

    #[tactic(auto, unfolding(crate::specs::MadeRows::account_text))]
    fn fmt<W: fmt::Write>(&self, f: &mut fmt::Formatter<W>) -> fmt::Result {
        let OrdersLine { market, trader } = *self;
        match market {
            MadeMarket::First => write!(f, "orders,m0,a{trader}\n"),
            MadeMarket::Second => write!(f, "orders,m1,b{trader}\n"),
        }
    }
}

//! Making the accounts of markets.

ghost use Rattle.std.specs.Prelude.{◌≡◌, IfOk};

use crate::market::DeclaredMarket;
use dex_types::NoMemory;
use std::alloc::Global;

/// How the accounts of a script's markets are made.
pub trait MakeMarkets {
    /// What a way to make them needs.
    ghost ready: { Self → Type 0 };

    /// What else is done meanwhile.
    ghost ran: { Self → Self → Type 0 };

    /// Makes the accounts of these markets.
    fn make_markets(
        &mut self,
        alloc: Global,
        markets: Vec<DeclaredMarket>,
    ) -> Result<Vec<DeclaredMarket>, NoMemory>
        requires { ready self.old }
        ensures made { IfOk result (λ made. made.items ≡ markets.items) }
        ensures ran { ran self.old self.new };
}

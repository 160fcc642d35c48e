//! What a row moves between wallets and vaults.

ghost use Rattle.std.specs.Prelude.{◌≡◌};

/// What a row moves between the wallets of its roles and the vaults of its market, in native amounts: what the `coin`
/// and the `pc` wallet pay in, and what the `coin`, the `pc` and the `referrer` wallet are paid out.
#[derive(Clone, Copy, Debug, PartialEq, Eq)]
pub struct Amounts {
    pub coin_in: u64,
    pub pc_in: u64,
    pub coin_out: u64,
    pub pc_out: u64,
    pub referrer_out: u64,
}

impl Amounts {
    /// Nothing moves.
    pub fn none() -> Amounts
        ensures { result ≡ record { coin_in = 0; pc_in = 0; coin_out = 0; pc_out = 0; referrer_out = 0 } }
    {
        Amounts {
            coin_in: 0,
            pc_in: 0,
            coin_out: 0,
            pc_out: 0,
            referrer_out: 0,
        }
    }
}

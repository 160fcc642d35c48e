use crate::addresses::Address;
use crate::terms::Program;

/// An instruction row of a script: the instruction data in `bytes`, for one market, signed by one person.
///
/// `lane` is the lane that submits it, `number` its place among the script's records, counted from 1. `named` are the
/// open-orders accounts that it names, and the four wallets are named by their roles. `now` is the clock at which it
/// runs.
#[derive(Debug, Drop, PartialEq, Eq)]
pub struct Row {
    pub lane: u32,
    pub number: u32,
    pub market: Address,
    pub signer: Address,
    pub named: Vec<Address>,
    pub coin: Option<Address>,
    pub pc: Option<Address>,
    pub discount: Option<Address>,
    pub referrer: Option<Address>,
    pub bytes: Vec<u8>,
    pub now: i64,
}

/// A wallet as a row sees it: its address, the mint of its token, its owning person, and its native balance before the
/// row.
#[derive(Clone, Copy, Debug, PartialEq, Eq)]
pub struct WalletSeen {
    pub address: Address,
    pub mint: Address,
    pub owner: Address,
    pub balance: u64,
}

/// What a row sees beside its market: the wallets that it names, by their roles, the mints of SRM and MSRM where the
/// script has them, and the program that runs.
#[derive(Clone, Copy, Debug, PartialEq, Eq)]
pub struct Seen {
    pub coin: Option<WalletSeen>,
    pub pc: Option<WalletSeen>,
    pub discount: Option<WalletSeen>,
    pub referrer: Option<WalletSeen>,
    pub srm: Option<Address>,
    pub msrm: Option<Address>,
    pub program: Program,
}

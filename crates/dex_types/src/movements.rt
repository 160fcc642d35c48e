ghost use Rattle.std.specs.Prelude.{Some};
ghost use Rattle.dex_types.specs.MovementText.{kind_text, movement_text};

use crate::addresses::Address;
use crate::replies::Reply;
use std::fmt;

/// What a row does to a wallet that it names: it takes native tokens out, puts them in, or only looks at the balance.
#[derive(Clone, Copy, Debug, PartialEq, Eq, Hash)]
pub enum MoveKind {
    Probe,
    Debit,
    Credit,
}

impl fmt::Display for MoveKind {
    ghost output = { λ kind. Some (kind_text kind) };

    fn fmt<W: fmt::Write>(&self, f: &mut fmt::Formatter<W>) -> fmt::Result {
        match self {
            MoveKind::Probe => write!(f, "probe"),
            MoveKind::Debit => write!(f, "debit"),
            MoveKind::Credit => write!(f, "credit"),
        }
    }
}

/// One movement of one wallet by one row: the native amount, which is 0 for a probe, and the native balance before it.
///
/// It prints as the wallet's address, the kind, the amount and the balance, with one space between two of them.
#[derive(Clone, Copy, Debug, PartialEq, Eq)]
pub struct Movement {
    pub wallet: Address,
    pub kind: MoveKind,
    pub amount: u64,
    pub before: u64,
}

impl fmt::Display for Movement {
    ghost output = { λ movement. Some (movement_text movement) };

    fn fmt<W: fmt::Write>(&self, f: &mut fmt::Formatter<W>) -> fmt::Result {
        let Movement {
            wallet,
            kind,
            amount,
            before,
        } = self;
        write!(f, "{wallet} {kind} {amount} {before}")
    }
}

/// One event of a market's journal: the row of this number, which this lane submitted, was answered so, and moved the
/// wallets that it names. The movements stand by rising address of the wallet, from the front.
#[derive(Clone, Copy, Debug, PartialEq, Eq)]
pub struct Entry {
    pub lane: u32,
    pub row: u32,
    pub reply: Reply,
    pub moves: [Option<Movement>; 4],
}

/// One event of a wallet's journal: a movement by the row of this number, which this lane submitted to this market. The
/// amounts are native.
#[derive(Clone, Copy, Debug, PartialEq, Eq)]
pub struct WalletEntry {
    pub market: Address,
    pub lane: u32,
    pub row: u32,
    pub kind: MoveKind,
    pub amount: u64,
    pub before: u64,
}

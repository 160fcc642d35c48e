//! A law of instructions that rows of a replay are. A law is a function without a body, and its clauses are the law.

ghost use Rattle.std.specs.Prelude.{◌≡◌, ◌++◌, List, Some, map};
ghost use Rattle.dex_check.specs.Rows.{AreOfRows, replies_at};
ghost use Rattle.dex_process.specs.Histories.{AreProcessed, Processed, left_by};
ghost use Rattle.dex_types.specs.Market.{Market};
ghost use Rattle.dex_types.specs.Rows.{PlainRow};
ghost use Rattle.dex_world.specs.Fold.{fold};
ghost use Rattle.dex_world.specs.World.{World, market_at};

/// Instructions on one market that ask what rows ask, and saw what the rows see where they act one after the other,
/// leave the market that the rows leave, and have the replies that the rows have in its journal. A replay of rows
/// without swaps is that fold (`dex_replay`).
pub fn instructions_of_rows_are_answered_as_the_rows()
    ensures market { (m : Market) (world : World) (rows : List PlainRow) (all : List Processed)
        → market_at m.listing.address world.markets ≡ Some m → AreProcessed m all → AreOfRows world rows all
        → market_at m.listing.address (fold rows world).markets ≡ Some (left_by m all) }
    ensures replies { (m : Market) (world : World) (rows : List PlainRow) (all : List Processed)
        → market_at m.listing.address world.markets ≡ Some m → AreProcessed m all → AreOfRows world rows all
        → replies_at m.listing.address (fold rows world).markets
        ≡ replies_at m.listing.address world.markets ++ map (λ (one : Processed). one.reply) all }
{}

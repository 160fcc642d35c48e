//! A law of instructions that are processed one after the other. A law is a function without a body, and its clauses
//! are the law.

ghost use Rattle.std.specs.Prelude.{◌≡◌, List, map};
ghost use Rattle.dex_accounts.specs.Decoded.{market_in};
ghost use Rattle.dex_history.specs.Journal.{Call, IsLegal, market_after};
ghost use Rattle.dex_process.specs.Histories.{AreProcessed, Done, IsDone, IsProcessed, Processed};
ghost use Rattle.dex_process.specs.Histories.{calls_of, left_by, processed_as};
ghost use Rattle.dex_types.specs.Market.{Market};

/// What `process` does is one of a sequence (`done`). Instructions of a sequence on one market, each on what the last
/// one left, are a legal history of it, as that of a replay is: the market in the end is the one at the end of the
/// history, and its entries have their replies.
pub fn instructions_one_after_another_are_a_legal_history()
    ensures done { (one : Done) → IsDone one → IsProcessed (processed_as one) (market_in one.before.accounts) }
    ensures legal { (m : Market) (all : List Processed) → AreProcessed m all → IsLegal m (calls_of m all) }
    ensures market { (m : Market) (all : List Processed) → AreProcessed m all
        → market_after m (calls_of m all) ≡ left_by m all }
    ensures replies { (m : Market) (all : List Processed) → AreProcessed m all
        → map (λ (call : Call). call.entry.reply) (calls_of m all) ≡ map (λ (one : Processed). one.reply) all }
{}

//! Laws of scripts in parts. Each is a function without a body, and its clauses are the law.

ghost use Rattle.std.specs.Prelude.{◌≡◌, ◌++◌, ◌∷◌, ◌<◌, ℕ, List, All, map};
ghost use Rattle.std.specs.List.{AllPairs};
ghost use Rattle.dex_types.specs.declared.addresses.Address.{Address};
ghost use Rattle.dex_types.specs.Accounts.{PlainAccount, PlainAccounts, PlainMarketAccounts};
ghost use Rattle.dex_world.specs.Items.{Item, fold_items, items_of};
ghost use Rattle.dex_world.specs.World.{World};
ghost use Rattle.dex_state.specs.Conserved.{held_of};
ghost use Rattle.dex_state.specs.Outcomes.{PlainOutcome};
ghost use Rattle.dex_script_types.specs.PlainScript.{PlainScript};
ghost use Rattle.dex_replay.specs.Acting.{NeverFalls};
ghost use Rattle.dex_replay.specs.Alike.{AreAlike};
ghost use Rattle.dex_replay.specs.Replays.{IsLeftIn, IsReplayOf, world_after};
ghost use Rattle.dex_parts.specs.Chains.{AreLinked, AreTwoParts, IsChainOf, outcome_behind, outcomes_behind};
ghost use Rattle.dex_parts.specs.Cuts.{AreCutBy, numbers_of, parts_by};
ghost use Rattle.dex_parts.specs.Numbered.{KeepsApart, outcome_with, script_with};
ghost use Rattle.dex_parts.specs.Shards.{FallsInto, IsItemOfOneShard, IsLeftInShard, IsShardOf, Sharding};
ghost use Rattle.dex_parts.specs.Shards.{accounts_in, items_in, sum_over, world_in};
ghost use Rattle.dex_parts.specs.Together.{bare_world, world_behind};

use dex_replay::laws::a_script_has_one_replay;

/// Items that act behind others leave the markets and wallets that they leave by themselves, and each journal goes on
/// behind the one that was there: so it makes no difference where rows are cut into parts.
pub fn items_behind_others_act_as_by_themselves()
    ensures cut { (items later : List Item) (world : World)
        → fold_items (items ++ later) world ≡ fold_items later (fold_items items world) }
    ensures behind { (items : List Item) (world : World)
        → fold_items items world ≡ world_behind world (fold_items items (bare_world world)) }
{}

/// A script in parts, each of which starts with the accounts that the part before left, under the same program, is one
/// replay: the journals of the parts, each behind those before, and the accounts of the last part. Two of its replays
/// are alike, so it makes no difference where it is cut.
pub fn a_chain_is_one_replay()
    ensures two { (script first second : PlainScript) (one two : PlainOutcome)
        → AreTwoParts script first one second → IsReplayOf first one → IsReplayOf second two
        → IsReplayOf script (outcome_behind one two) }
    ensures many { (script part : PlainScript) (parts : List PlainScript)
        → (one : PlainOutcome) (others : List PlainOutcome) → IsChainOf script (part ∷ parts) (one ∷ others)
        → IsReplayOf script (outcomes_behind one others) }
    ensures alike { (script part : PlainScript) (parts : List PlainScript)
        → (whole one : PlainOutcome) (others : List PlainOutcome) → IsReplayOf script whole
        → IsChainOf script (part ∷ parts) (one ∷ others) → AreAlike whole (outcomes_behind one others) }
{
    a_script_has_one_replay();
}

/// Rows that are counted anew leave the same: entries have the new numbers, and all else is as it was.
pub fn rows_counted_anew_leave_the_same()
    ensures { (number : ℕ → ℕ) → KeepsApart number → (script : PlainScript) (outcome : PlainOutcome)
        → IsReplayOf script outcome → IsReplayOf (script_with number script) (outcome_with number outcome) }
{}

/// A script that falls into shards is these shards: a replay of a shard leaves what the whole leaves of the shard's
/// markets and wallets, also where the whole has more rows, markets or wallets than a script may have. So shards may be
/// replayed apart.
pub fn shards_are_the_whole()
    ensures world { (sharding : Sharding) (shard : ℕ) (items : List Item) (world : World)
        → All (IsItemOfOneShard sharding) items
        → fold_items (items_in sharding shard items) (world_in sharding shard world)
        ≡ world_in sharding shard (fold_items items world) }
    ensures leaves { (sharding : Sharding) (script : PlainScript) → AllPairs NeverFalls script.rows
        → FallsInto sharding script → (shard : ℕ) (part : PlainScript) (left : PlainOutcome)
        → IsShardOf sharding shard script part → IsReplayOf part left
        → IsLeftIn part (world_in sharding shard (world_after script (items_of script.rows))) left }
    ensures outcome { (sharding : Sharding) (script : PlainScript) → AllPairs NeverFalls script.rows
        → FallsInto sharding script → (shard : ℕ) (part : PlainScript) (all left : PlainOutcome)
        → IsShardOf sharding shard script part → IsReplayOf script all → IsReplayOf part left
        → IsLeftInShard sharding shard all left }
{}

/// What wallets and vaults hold of a mint is the sum of what they hold in the shards: a mint's supply is of all shards
/// together.
pub fn shards_hold_together_what_the_whole_holds()
    ensures { (sharding : Sharding) (count : ℕ) (accounts : PlainAccounts)
        → All (λ (market : PlainMarketAccounts). sharding.market market.address < count) accounts.markets
        → All (λ (wallet : PlainAccount). sharding.wallet wallet.address < count) accounts.wallets
        → (mint : Address) → held_of mint accounts
        ≡ sum_over count (λ (shard : ℕ). held_of mint (accounts_in sharding shard accounts)) }
{}

/// A script that is cut so (`chained`) is a chain: whatever parts have these rows, each from where the one before ends,
/// under the script's program. There is one way to cut it so.
pub fn a_script_that_is_cut_is_a_chain()
    ensures chain { (most : ℕ) (counts : List ℕ) (script : PlainScript) (parts : List PlainScript)
        → (outcomes : List PlainOutcome) → AreCutBy most counts (numbers_of script.rows)
        → map (λ (part : PlainScript). part.rows) parts ≡ parts_by counts script.rows
        → AreLinked script.limits script.program script.start parts outcomes → IsChainOf script parts outcomes }
    ensures one { (most : ℕ) (counts others numbers : List ℕ) → 0 < most → AreCutBy most counts numbers
        → AreCutBy most others numbers → counts ≡ others }
{}

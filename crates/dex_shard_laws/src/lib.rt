//! Laws of what an audit finds, and of what accounts are worth, in the shards of a script. Each is a function without a
//! body, and its clauses are the law.
#![tactic(auto)]

ghost use Rattle.std.specs.Prelude.{◌≡◌, ◌<◌, ◌↔◌, ℕ, List, All};
ghost use Rattle.std.specs.List.{AllPairs, Contains, filter};
ghost use Rattle.dex_types.specs.Accounts.{PlainAccount, PlainAccounts, PlainMarketAccounts};
ghost use Rattle.dex_token.specs.MintAccount.{mint_words};
ghost use Rattle.dex_audit.specs.Findings.{told};
ghost use Rattle.dex_audit.specs.Supplies.{supply_off};
ghost use Rattle.dex_audit_rules.specs.Funds.{differs};
ghost use Rattle.dex_audit_rules.specs.declared.finding.Finding.{Finding};
ghost use Rattle.dex_audit_rules.specs.declared.market.Rule.{Rule};
ghost use Rattle.dex_state.specs.Conserved.{held_of};
ghost use Rattle.dex_state.specs.Outcomes.{PlainOutcome};
ghost use Rattle.dex_script_types.specs.PlainScript.{PlainScript};
ghost use Rattle.dex_replay.specs.Acting.{NeverFalls};
ghost use Rattle.dex_replay.specs.Replays.{IsReplayOf};
ghost use Rattle.dex_replay.specs.WorthTold.{PlainWorthRow, table_told};
ghost use Rattle.dex_parts.specs.Shards.{FallsInto, IsShardOf, Sharding};
ghost use Rattle.dex_parts.specs.Shards.{accounts_in, has_market, sum_over};
ghost use Rattle.dex_shard_laws.specs.Audits.{IsFoundIn};

/// The table of worth of a shard's replay has just the rows of the shard's markets that the whole's has.
pub fn shards_have_the_worth_of_the_whole()
    ensures { (sharding : Sharding) (script : PlainScript) → AllPairs NeverFalls script.rows
        → FallsInto sharding script → (shard : ℕ) (part : PlainScript) (all left : PlainOutcome)
        → IsShardOf sharding shard script part → IsReplayOf script all → IsReplayOf part left
        → table_told part left
        ≡ filter (λ (row : PlainWorthRow). has_market sharding shard row.market) (table_told script all) }
{}

/// What an audit finds of markets, by each of its rules, it finds in their shards; and what it compares a mint's supply
/// with is what all shards hold together.
pub fn an_audit_finds_in_shards_what_it_finds_in_all()
    ensures markets { (sharding : Sharding) (count : ℕ) (rule : Rule) (markets : List PlainMarketAccounts)
        → All (λ (market : PlainMarketAccounts). sharding.market market.address < count) markets
        → (finding : Finding) → Contains (told rule markets) finding ↔ IsFoundIn sharding count rule markets finding }
    ensures mints { (sharding : Sharding) (count : ℕ) (accounts : PlainAccounts)
        → All (λ (market : PlainMarketAccounts). sharding.market market.address < count) accounts.markets
        → All (λ (wallet : PlainAccount). sharding.wallet wallet.address < count) accounts.wallets
        → (mint : PlainAccount) → supply_off accounts mint
        ≡ differs 12 mint.address 36 (mint_words mint.bytes).supply
        (sum_over count (λ (shard : ℕ). held_of mint.address (accounts_in sharding shard accounts))) }
{}

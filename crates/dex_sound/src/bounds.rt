//! Laws of refusals for sums that would be too large.

ghost use Rattle.std.specs.Prelude.{◌≡◌, ◌≢◌, ◌↔◌, ◌≤◌, ◌+◌, ◌^◌, ℕ, Some, None};
ghost use Rattle.dex_types.specs.declared.refusals.Refusal.TheVariants.{SumTooLarge};
ghost use Rattle.dex_types.specs.declared.rows.Seen.{Seen};
ghost use Rattle.dex_types.specs.Market.{Market};
ghost use Rattle.dex_types.specs.Requests.{Request, HasPrice};
ghost use Rattle.dex_types.specs.Side.{Token};
ghost use Rattle.dex_types.specs.Solvency.{vault, all_leaving};
ghost use Rattle.dex_types.specs.Soundness.{IsSound};
ghost use Rattle.dex_types.specs.Why.{why};
ghost use Rattle.dex_sound.specs.Bounds.{IsBeyond, BreaksBound, IsRefusedForSum, HasNoOtherReason, would_leave};

/// A row is refused for a sum only where the market that it would leave passes the bound, with the values of that
/// market. And a row that would leave a sound market beyond the bound is always refused: for the sum, or for a reason
/// that comes before it. So it is refused for a sum exactly where the bound would break and no other reason holds.
pub fn a_sum_is_too_large_where_the_bound_would_break()
    ensures only { (request : Request) (seen : Seen) (m : Market) (held pending : ℕ) →
        why request seen m ≡ Some (SumTooLarge held pending) → IsBeyond (would_leave request seen m) held pending }
    ensures always { (request : Request) (seen : Seen) (m : Market) (token : Token) → IsSound m
        → HasPrice request.instruction →
        let after = would_leave request seen m in 2 ^ 64 ≤ vault token after + all_leaving token after.events
        → why request seen m ≢ None }
    ensures exactly { (request : Request) (seen : Seen) (m : Market) → IsSound m → HasPrice request.instruction →
        IsRefusedForSum request seen m
        ↔ (BreaksBound (would_leave request seen m) × HasNoOtherReason request seen m) }
{}

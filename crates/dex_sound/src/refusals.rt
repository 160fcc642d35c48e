//! Laws of refused rows.

ghost use Rattle.std.specs.Prelude.{◌≡◌, ◌↔◌, Some};
ghost use Rattle.dex_types.specs.declared.refusals.Refusal.{Refusal};
ghost use Rattle.dex_types.specs.declared.replies.Reply.TheVariants.{Refused};
ghost use Rattle.dex_types.specs.declared.rows.Seen.{Seen};
ghost use Rattle.dex_types.specs.Market.{Market};
ghost use Rattle.dex_types.specs.Transfers.{no_transfers};
ghost use Rattle.dex_types.specs.Requests.{Request};
ghost use Rattle.dex_types.specs.Steps.{step};
ghost use Rattle.dex_types.specs.Why.{why};

/// A row is answered by a refusal exactly where there is a reason for it, and then the market is as before, and nothing
/// moves between wallets and vaults.
pub fn a_refused_row_leaves_the_market()
    ensures exactly { (request : Request) (seen : Seen) (m : Market) (refusal : Refusal) →
        ((step request seen m).reply ≡ Refused refusal) ↔ (why request seen m ≡ Some refusal) }
    ensures market { (request : Request) (seen : Seen) (m : Market) (refusal : Refusal) →
        why request seen m ≡ Some refusal → (step request seen m).market ≡ m }
    ensures transfers { (request : Request) (seen : Seen) (m : Market) (refusal : Refusal) →
        why request seen m ≡ Some refusal → (step request seen m).transfers ≡ no_transfers }
{}

//! Laws of the fees: each function does nothing, and its contract is the law.

ghost use Rattle.std.specs.Prelude.{◌≡◌, ℕ, ◌+◌, ◌*◌, ◌≤◌, ◌<◌};
ghost use Rattle.dex_types.specs.declared.terms.Program.{Program};
ghost use Rattle.dex_types.specs.declared.terms.Tier.{Tier};
ghost use Rattle.dex_types.specs.Fees.{taker_rate, maker_rate, taker_fee, maker_rebate, referrer_part, spendable};
ghost use Rattle.dex_fees.specs.Rates.{greatest_maker_rate, IsLeast, IsGreatest, Covers, Pays};

/// The taker's fee is the least whole amount that covers its rate of the quote.
pub fn fee_is_least()
    ensures { (program : Program) (tier : Tier) (pc : ℕ) →
        IsLeast (Covers program tier pc) (taker_fee program tier pc) }
{}

/// What a bid can spend is the most quote that its lock pays together with the fee on it.
pub fn spendable_is_greatest()
    ensures { (program : Program) (tier : Tier) (lock : ℕ) →
        IsGreatest (Pays program tier lock) (spendable program tier lock) }
{}

/// A fee is at most the quote that it is taken of.
pub fn fee_is_part_of_quote()
    ensures { (program : Program) (tier : Tier) (pc : ℕ) → taker_fee program tier pc ≤ pc }
{}

/// Twice a maker's rate is at most every taker's rate of the program, whatever the two tiers.
pub fn makers_get_at_most_half()
    ensures rates { (program : Program) (maker taker : Tier) →
        2 * maker_rate program maker ≤ taker_rate program taker }
    ensures greatest { (program : Program) (maker : Tier) →
        maker_rate program maker ≤ greatest_maker_rate program }
    ensures half { (program : Program) (taker : Tier) →
        2 * greatest_maker_rate program ≤ taker_rate program taker }
{}

/// A fee covers its referrer's part and the rebates on the same quote: of a maker of any tier, and of many makers
/// whose rebates together are at most the greatest rate of it.
pub fn fee_covers_parts()
    ensures one_maker { (program : Program) (maker taker : Tier) (pc : ℕ) →
        referrer_part (taker_fee program taker pc) + maker_rebate program maker pc ≤ taker_fee program taker pc }
    ensures many_makers { (program : Program) (taker : Tier) (pc rebates : ℕ) →
        10000 * rebates ≤ greatest_maker_rate program * pc →
        referrer_part (taker_fee program taker pc) + rebates ≤ taker_fee program taker pc }
{}

//! Laws of what fills pay and take.

ghost use Rattle.std.specs.Prelude.{◌≡◌, ℕ, ◌+◌, ◌-◌, ◌≤◌, List};
ghost use Rattle.dex_types.specs.declared.orders.Order.{Order};
ghost use Rattle.dex_types.specs.declared.terms.Lots.{Lots};
ghost use Rattle.dex_types.specs.declared.terms.Side.{Side};
ghost use Rattle.dex_types.specs.Fees.{referrer_part};
ghost use Rattle.dex_types.specs.Meeting.{Meeting, meet};
ghost use Rattle.dex_types.specs.NewOrder.{NewOrder, terms_of, demand_of, fee_of, spent, got, fees_kept};
ghost use Rattle.dex_types.specs.Side.{Token, locked_token, gained_token};
ghost use Rattle.dex_types.specs.Take.{Take, take_meeting, take_fee, take_paid, take_got, take_lock};
ghost use Rattle.dex_sound.specs.Exchange.{taker_pays, taker_gets, IsBalanced};

/// Of each token, what a taker and its makers pay for the fills is what they get, and of quote the fee less the makers'
/// rebates on top.
pub fn fills_pay_the_fee_less_the_rebates()
    ensures orders { (side : Side) (sizes : Lots) (n : NewOrder) (opposing : List Order) (token : Token) →
        let met = meet side (terms_of sizes n) (demand_of side sizes n) opposing in
        IsBalanced side sizes met (fee_of n met) token }
    ensures takes { (side : Side) (sizes : Lots) (t : Take) (opposing : List Order) (token : Token) →
        let met = take_meeting side sizes t opposing in IsBalanced side sizes met (take_fee t met) token }
{}

/// What an order and a take spend and get is what their fills pay and get, and a take pays no more than it may use.
/// What is withheld of an order's quote is shared by the market and the referrer.
pub fn what_is_spent_is_what_fills_pay()
    ensures order_spends { (side : Side) (sizes : Lots) (n : NewOrder) (met : Meeting) →
        spent side sizes n met ≡ taker_pays side sizes met (fee_of n met) (locked_token side) }
    ensures order_gets { (side : Side) (sizes : Lots) (n : NewOrder) (met : Meeting) →
        got side sizes n met ≡ taker_gets side sizes met (fee_of n met) (gained_token side) }
    ensures take_pays { (side : Side) (sizes : Lots) (t : Take) (met : Meeting) →
        take_paid side sizes t met ≡ taker_pays side sizes met (take_fee t met) (locked_token side) }
    ensures take_gets { (side : Side) (sizes : Lots) (t : Take) (met : Meeting) →
        take_got side sizes t met ≡ taker_gets side sizes met (take_fee t met) (gained_token side) }
    ensures take_within { (side : Side) (sizes : Lots) (t : Take) (opposing : List Order) →
        take_paid side sizes t (take_meeting side sizes t opposing) ≤ take_lock side sizes t }
    ensures shares { (side : Side) (sizes : Lots) (n : NewOrder) (opposing : List Order) →
        let met = meet side (terms_of sizes n) (demand_of side sizes n) opposing in
        fees_kept n met + referrer_part (fee_of n met) ≡ fee_of n met - met.rebates }
{}

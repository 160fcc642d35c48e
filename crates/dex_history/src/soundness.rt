//! Each place of a history of a sound market is sound.

ghost use Rattle.std.specs.Prelude.{◌≡◌, ℕ, List, Ok, take};
ghost use Rattle.dex_types.specs.declared.instructions.Ix.TheVariants.{ConsumeEvents};
ghost use Rattle.dex_types.specs.declared.replies.Reply.TheVariants.{Consumed};
ghost use Rattle.dex_types.specs.declared.rows.Seen.{Seen};
ghost use Rattle.dex_types.specs.Market.{Market};
ghost use Rattle.dex_types.specs.Payment.{consumable};
ghost use Rattle.dex_types.specs.Requests.{HasPrice};
ghost use Rattle.dex_types.specs.Rows.{PlainRow};
ghost use Rattle.dex_types.specs.Soundness.{IsSound};
ghost use Rattle.dex_instruction.specs.Reading.{decoded};
ghost use Rattle.dex_history.specs.Journal.{Asked, Call, IsLegal, asked_step, market_after, row_step};

/// Whatever bytes decode to states a price of at least 1, where it is an order or a take.
pub fn what_decodes_states_a_price()
    ensures { (bytes : List ℕ) → HasPrice (decoded bytes) }
{}

/// Every row leaves a sound market sound, whatever its bytes are, whoever signs it, whatever accounts and wallets it
/// names and whatever balances it sees.
pub fn every_row_keeps_a_market_sound()
    ensures { (row : PlainRow) (seen : Seen) (m : Market) → IsSound m → IsSound (row_step row seen m).market }
{}

/// So does whatever is asked for that states a price, where it is an order or a take.
pub fn what_is_asked_keeps_a_market_sound()
    ensures { (asked : Asked) (seen : Seen) (m : Market) → IsSound m → HasPrice asked.request.instruction
        → IsSound (asked_step asked seen m).market }
{}

/// From a sound market each place of each legal history is sound: the market after its first n calls, and after all.
pub fn each_place_of_a_history_is_sound()
    ensures places { (m : Market) (calls : List Call) (count : ℕ) → IsSound m → IsLegal m calls
        → IsSound (market_after m (take count calls)) }
    ensures end { (m : Market) (calls : List Call) → IsSound m → IsLegal m calls
        → IsSound (market_after m calls) }
{}

/// A row whose data decodes to a crank is never refused: it is answered how many events it consumed.
pub fn a_crank_row_is_never_refused()
    ensures { (row : PlainRow) (seen : Seen) (m : Market) (limit : ℕ)
        → decoded row.bytes ≡ Ok (ConsumeEvents limit) →
        (row_step row seen m).reply ≡ Consumed (consumable limit row.named m.events) }
{}

//! Laws of rows that act.

ghost use Rattle.std.specs.Prelude.{◌≡◌, ◌≤◌, List, ◌++◌, ◌∷◌, [], length, true};
ghost use Rattle.dex_types.specs.Rows.{PlainRow};
ghost use Rattle.dex_world.specs.Fold.{act, fold};
ghost use Rattle.dex_world.specs.Groups.{alone, members};
ghost use Rattle.dex_world.specs.Items.{Item, ShareNothing, act_item, is_any_refused, items_of, why_in};
ghost use Rattle.dex_world.specs.World.{World, markets_in, seen_by, wallets_in};
ghost use Rattle.std.specs.List.{flat_map};

/// Rows that act after others act on the world that these leave.
pub fn rows_act_one_after_the_other()
    ensures parts { (rows later : List PlainRow) (world : World)
        → fold (rows ++ later) world ≡ fold later (fold rows world) }
    ensures one_more { (rows : List PlainRow) (row : PlainRow) (world : World)
        → fold (rows ++ row ∷ []) world ≡ act row (fold rows world) }
{}

/// An item of one row acts as the row. The items of rows are these rows, one after the other, and no more than they.
pub fn a_row_is_an_item()
    ensures alone { (row : PlainRow) (world : World) → act_item (alone row) world ≡ act row world }
    ensures flat { (rows : List PlainRow) → flat_map members (items_of rows) ≡ rows }
    ensures few { (rows : List PlainRow) → length (items_of rows) ≤ length rows }
{}

/// A row leaves what another row sees and finds that shares no market and no wallet with it.
pub fn rows_that_share_nothing_leave_each_other()
    ensures why { (row other : PlainRow) (world : World) → ShareNothing row other
        → why_in (act row world) other ≡ why_in world other }
    ensures sees { (row other : PlainRow) (world : World) → ShareNothing row other
        → seen_by other (act row world) ≡ seen_by other world }
{}

/// An item of which a row would be refused moves nothing: each market is as it was, and so is what a row sees of each
/// wallet, its amount among it. Journals alone have entries more.
pub fn an_item_of_which_one_is_refused_moves_nothing()
    ensures markets { (item : Item) (world : World) → is_any_refused world (members item) ≡ true
        → markets_in (act_item item world) ≡ markets_in world }
    ensures wallets { (item : Item) (world : World) → is_any_refused world (members item) ≡ true
        → wallets_in (act_item item world) ≡ wallets_in world }
{}

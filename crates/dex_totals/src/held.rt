//! What a slot holds, against an order that rests for it or an event of it.

ghost use Rattle.std.specs.Prelude.{◌≡◌};
ghost use Rattle.dex_totals.specs.Held.{id_held, is_held};
ghost use Rattle.dex_totals.specs.Reading.{held_in};

use dex_types::Side;

/// Whether a slot holds just the order of this id, side and client id.
pub fn is_held(held: Option<(u128, Side, u64)>, id: u128, side: Side, client: u64) -> bool
    ensures { result ≡ is_held (held_in held) (record { id = id; side = side; client = client }) }
{
    match held {
        Some((held_id, held_side, held_client)) => {
            held_id == id && held_side == side && held_client == client
        }
        None => false,
    }
}

/// The id in a slot, or 0 where it is free.
pub fn id_held(held: Option<(u128, Side, u64)>) -> u128
    ensures { result ≡ id_held (held_in held) }
{
    match held {
        Some((id, _, _)) => id,
        None => 0,
    }
}

//! What the gate does with its words and its slot.
ghost use Rattle.std.specs.Prelude.{◌≡◌, ℕ, ◌<◌, IfOk, OnErr, IfErr, ◌≢◌};
ghost use Rattle.dex_gate.specs.declared.stage.Stage.TheVariants.{Idle};
ghost use Rattle.dex_gate.specs.Rule.{claims, IsEnd};
ghost use Rattle.dex_gate.specs.Seats.{IsBoard, IsWaiting, TakesTurn, MayPassOn, PassesTurn};

use crate::board::{Board, BoardSeat, SERVED, Top};
use crate::journaled::Journaled;
use crate::plays::{Look, PassOn};
use std::hint;

/// How often who is next looks at the turn before it sleeps: some 26 microseconds on the processor seen, which is many
/// turns, and about as long as to sleep and to be woken.
const LOOKS: u32 = 30_000;

/// Whether the turn of the ticket has come, or comes while it is looked for. Who is next looks for a while; who is
/// further back looks once. Where it says yes, nobody else can take the turn. Nobody gives its processor way instead:
/// where others have work for it, the system may let it wait for milliseconds, and all who wait for its turn with it.
pub(crate) fn comes<V: Journaled>(top: &Top<V>, ticket: u64) -> bool
    requires { IsBoard top.now.table_id }
{
    for _ in 0..LOOKS {
        match ticket.wrapping_sub(top.peek(SERVED)) {
            0 => return true,
            1 => hint::spin_loop(),
            _ => return false,
        }
    }
    false
}

/// Takes the value, if the turn of the ticket has come, and else gives the ticket whose turn it is.
pub(crate) fn look<V: Journaled>(
    top: &Top<V>,
    seat: &mut BoardSeat<V>,
    ticket: u64,
) -> Result<V, u64>
    requires table { IsBoard top.now.table_id × (seat.old.table_id ≡ top.now.table_id) }
    requires waiting { IsWaiting ticket seat.old.me }
    ensures table { seat.new.table_id ≡ seat.old.table_id }
    ensures took { IfOk result (TakesTurn V.entries V.lane V.origin ticket seat.old.me seat.new.me) }
    ensures kept { OnErr result (seat.new.me ≡ seat.old.me) }
    ensures other { IfErr result (λ served. served ≢ ticket) }
{
    let served = top.load::<Look<V>>(seat, SERVED);
    if served != ticket {
        return Err(served);
    }
    Ok(top.exchange(seat, 0, None).unwrap())
}

/// Gives the value back, passes the turn on, and tells whose ticket is next.
pub(crate) fn pass_on<V: Journaled>(top: &Top<V>, seat: &mut BoardSeat<V>, value: V) -> u64
    requires table { IsBoard top.now.table_id × (seat.old.table_id ≡ top.now.table_id) }
    requires turn { MayPassOn V.entries V.lane V.origin seat.old.me value }
    ensures table { seat.new.table_id ≡ seat.old.table_id }
    ensures passed { PassesTurn V.entries seat.old.me seat.new.me value }
{
    // Its clause bounds the list, so that the word has room for one turn more.
    let _count = value.count();
    let left = top.exchange(seat, 0, Some(value));
    // While the value was out, its slot was empty.
    let None = left else { unreachable!() };
    let passed = top.fetch_add::<PassOn<V>>(seat, SERVED, 1);
    passed.wrapping_add(1)
}

/// The value that is in the slot of a table whose passes have all come back to one seat.
pub(crate) fn take_out<V: Journaled>(table: Board<V>, seat: BoardSeat<V>) -> V
    requires table { IsBoard table.shared.table_id × (seat.table_id ≡ table.shared.table_id) }
    requires all { (seat.me.0.stage ≡ Idle)
        × ((k : ℕ) → k < table.shared.key.passes → 0 < claims k seat.me.0) }
    ensures { IsEnd V.entries V.lane V.origin table.shared.key.value.value table.shared.key.passes seat.me.0.cards
        result }
{
    let mut closed = table.close_with(seat);
    let value = closed.take(0);
    closed.free();
    value.unwrap()
}

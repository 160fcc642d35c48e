//! What the types of an entry's parts say of them. No code stands here.

ghost use Rattle.dex_state.specs.Held.{IsAddress};
ghost use Rattle.dex_report.specs.Telling.{FitEntry, FitMove, FitRefusal, FitReply};

use dex_types::{Address, Entry, Movement, Refusal, Reply};

/// The values of an entry of a market's journal fit.
pub(crate) fn entry_fits(entry: &Entry)
    ensures { FitEntry entry.now }
{
    let Entry {
        lane: _,
        row: _,
        reply,
        moves: [first, second, third, fourth],
    } = *entry;
    reply_fits(reply);
    move_fits(first);
    move_fits(second);
    move_fits(third);
    move_fits(fourth);
}

fn move_fits(movement: Option<Movement>)
    ensures { FitMove movement }
{
    if let Some(movement) = movement {
        address_fits(movement.wallet);
    }
}

fn reply_fits(reply: Reply)
    ensures { FitReply reply }
{
    if let Reply::Refused(why) = reply {
        refusal_fits(why);
    }
}

fn refusal_fits(why: Refusal)
    ensures { FitRefusal why }
{
    match why {
        Refusal::NotOwner { owner } => address_fits(owner),
        Refusal::NotAuthority { authority } => address_fits(authority),
        Refusal::WrongMint { mint } => address_fits(mint),
        Refusal::WalletNotSigned { owner } => address_fits(owner),
        Refusal::OrderNotYours { owner } => address_fits(owner),
        _ => {}
    }
}

/// An address has 32 bytes.
pub(crate) fn address_fits(address: Address)
    ensures { IsAddress address }
{}

//! What the rules of a market read, by owners.

ghost use Rattle.std.specs.Prelude.{◌≡◌, IfOk};
ghost use Rattle.dex_types.specs.Market.{Market};
ghost use Rattle.dex_audit_rules.specs.Books.{IsBook, IsOf};
ghost use Rattle.dex_audit_rules.specs.Own.{IsOwnOf};

use crate::book::Book;
use dex_totals::{ByOwner, Owners, events_by_owner, orders_by_owner};
use dex_types::{Event, NoMemory, Order};
use std::alloc::Global;

/// A book, with its accounts by their addresses, and each owner's orders and events.
#[derive(Drop)]
pub struct Own<'a> {
    pub book: Book<'a>,
    pub owners: Owners<'a>,
    pub bids: ByOwner<Order>,
    pub asks: ByOwner<Order>,
    pub events: ByOwner<Event>,
}

impl<'a> Own<'a> {
    /// This book, by owners.
    pub fn of(alloc: Global, book: &Book<'a>) -> Result<Own<'a>, NoMemory>
        requires { IsBook book.now }
        ensures book { IfOk result (λ own. IsBook own.book) }
        ensures of { (m : Market) → IsOf book.now m → IfOk result (λ own. IsOwnOf own m) }
    {
        Ok(Own {
            book: *book,
            owners: Owners::of(alloc, book.accounts)?,
            bids: orders_by_owner(alloc, book.bids)?,
            asks: orders_by_owner(alloc, book.asks)?,
            events: events_by_owner(alloc, book.events)?,
        })
    }
}

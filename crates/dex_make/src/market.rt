//! A market's accounts as they are made.

ghost use Rattle.std.specs.Prelude.{◌≡◌, ◌≤◌, [], length, replicate, IfOk};
ghost use Rattle.dex_fields.specs.Empty.{empty_account};
ghost use Rattle.dex_market.specs.RequestQueue.{IsRequestQueue, next_sequence};
ghost use Rattle.dex_orders.specs.OrdersAccount.{IsBlank, IsOrders};
ghost use Rattle.dex_ring.specs.Blank as queue;
ghost use Rattle.dex_ring.specs.Ring.{IsEventQueue, ring_of};
ghost use Rattle.dex_slab.specs.Blank as slab;
ghost use Rattle.dex_slab.specs.Nodes.{room_of};
ghost use Rattle.dex_slab.specs.Slab.{resting, room_in};
ghost use Rattle.dex_slab.specs.StandsFor.{IsSideAccount};
ghost use Rattle.dex_sound.specs.Made.{made_market};
ghost use Rattle.dex_types.specs.Accounts.{market_accounts_of};
ghost use Rattle.dex_make.specs.MarketBytes.{HasAddresses, blank_orders, made_accounts, market_bytes, request_bytes};
ghost use Rattle.dex_make.specs.MarketSet.{CanTrade, IsMarketSet, listing_of};
ghost use Rattle.dex_accounts.specs.StandsFor.{StandsFor};
ghost use Rattle.dex_market.specs.StandsFor.{StandsForMarket};

use crate::market_bytes::write_market;
use crate::parts::{MarketPart, derived};
use crate::tokens::make_wallet;
use crate::zeroed::{room_for, zeros, zeros_in};
use dex_fields::{
    END_TEXT, FLAGS, FRONT, FRONT_TEXT, Field, market, open_orders, put_piece, put_u64,
    write_empty_account,
};
use dex_slab::side_flags;
use dex_types::{AccountFlags, Address, Ix, MarketAccounts, NoMemory, Side};
use std::alloc::Global;

/// What a market is made of: its address, the person who signs for it, the mints of base (coin) and quote (pc), how
/// many nodes each side and how many events the queue is to have, and the instruction that says the rest.
#[derive(Clone, Copy, Debug, PartialEq, Eq)]
pub struct MarketSet {
    pub address: Address,
    pub authority: Address,
    pub coin: Address,
    pub pc: Address,
    pub bid_nodes: u32,
    pub ask_nodes: u32,
    pub events: u32,
    pub ix: Ix,
}

/// How many bytes a request queue is made with.
const REQUEST_QUEUE_SIZE: usize = 5_132;

/// Room for the event queue and both sides of a market, where they are large. They are made in it.
#[derive(Drop)]
pub struct MarketRoom {
    pub events: Vec<u8>,
    pub bids: Vec<u8>,
    pub asks: Vec<u8>,
}

impl MarketRoom {
    /// Room for the accounts that are made of this, each large one with room for the text of the largest. It takes
    /// memory, and touches none.
    pub fn new(alloc: Global, set: &MarketSet) -> Result<MarketRoom, NoMemory>
        requires { IsMarketSet set.now }
    {
        let events = dex_ring::made_size(set.events);
        let bids = dex_slab::made_size(set.bid_nodes);
        let asks = dex_slab::made_size(set.ask_nodes);
        let most = events.max(bids).max(asks);
        Ok(MarketRoom {
            events: room_for(alloc, events, most)?,
            bids: room_for(alloc, bids, most)?,
            asks: room_for(alloc, asks, most)?,
        })
    }
}

/// The accounts of a market as it is made: an empty book, empty queues and vaults, and no open-orders accounts.
///
/// The instruction is InitializeMarket, a side has 1 to 65,536 nodes, the queue room for 1 to 65,535 events, and the
/// address 0 as its last byte. The addresses of vaults, queues and sides, and of the vaults' owner, are those that
/// `derived` gives.
pub fn make_market(alloc: Global, set: &MarketSet) -> Result<MarketAccounts, NoMemory>
    requires { IsMarketSet set.now }
    ensures bytes { IfOk result (λ made. market_accounts_of made ≡ made_accounts set.now) }
    ensures stands { CanTrade set.now → IfOk result (λ made.
        StandsFor (market_accounts_of made) (made_market (listing_of set.now) [])) }
{
    make_market_in(alloc, set, MarketRoom::new(alloc, set)?)
}

/// Like `make_market`, the large accounts in room that is there, whatever stands in it.
pub fn make_market_in(
    alloc: Global,
    set: &MarketSet,
    room: MarketRoom,
) -> Result<MarketAccounts, NoMemory>
    requires { IsMarketSet set.now }
    ensures bytes { IfOk result (λ made. market_accounts_of made ≡ made_accounts set.now) }
    ensures stands { CanTrade set.now → IfOk result (λ made.
        StandsFor (market_accounts_of made) (made_market (listing_of set.now) [])) }
{
    let owner = derived(set.address, MarketPart::VaultOwner);
    Ok(MarketAccounts {
        address: set.address,
        authority: set.authority,
        market: market_account(alloc, set)?,
        coin_vault: make_wallet(alloc, set.coin, owner, 0)?,
        pc_vault: make_wallet(alloc, set.pc, owner, 0)?,
        requests: request_queue(alloc)?,
        events: event_queue(alloc, room.events, set.events)?,
        bids: side_account(alloc, room.bids, Side::Bid, set.bid_nodes)?,
        asks: side_account(alloc, room.asks, Side::Ask, set.ask_nodes)?,
        orders: Vec::new(alloc),
    })
}

/// An open-orders account that is reserved and not opened: 3,228 zeros.
pub fn make_orders(alloc: Global) -> Result<Vec<u8>, NoMemory>
    ensures bytes { IfOk result (λ bytes. bytes.items ≡ blank_orders) }
    ensures blank { IfOk result (λ bytes. IsBlank bytes.items) }
    ensures accepted { IfOk result (λ bytes. IsOrders bytes.items) }
{
    let bytes = zeros(alloc, open_orders::LAYOUT.size)?;
    Ok(bytes)
}

/// The market account as it is made.
fn market_account(alloc: Global, set: &MarketSet) -> Result<Vec<u8>, NoMemory>
    requires { IsMarketSet set.now }
    ensures bytes { IfOk result (λ bytes. bytes.items ≡ market_bytes set.now) }
    ensures stands { IfOk result (λ bytes. CanTrade set.now
        → StandsForMarket bytes.items (made_market (listing_of set.now) [])) }
{
    let mut bytes = zeros(alloc, market::LAYOUT.size)?;
    write_market(&mut bytes, set);
    Ok(bytes)
}

/// The request queue as it is made.
fn request_queue(alloc: Global) -> Result<Vec<u8>, NoMemory>
    ensures bytes { IfOk result (λ bytes. bytes.items ≡ request_bytes) }
    ensures accepted { IfOk result (λ bytes. IsRequestQueue bytes.items) }
    ensures next { IfOk result (λ bytes. next_sequence bytes.items ≡ 0) }
{
    let mut bytes = zeros(alloc, REQUEST_QUEUE_SIZE)?;
    write_requests(&mut bytes);
    Ok(bytes)
}

/// Makes the bytes a request queue as it is made, whatever stood there: the next sequence number is 0.
fn write_requests(bytes: &mut [u8])
    requires { length bytes.old ≡ 5132 }
    ensures bytes { bytes.new ≡ request_bytes }
    ensures accepted { IsRequestQueue bytes.new }
    ensures next { next_sequence bytes.new ≡ 0 }
{
    write_empty_account(bytes, AccountFlags::REQUEST_QUEUE_ACCOUNT.0);
}

/// An event queue as it is made, with room for this many events.
fn event_queue(alloc: Global, room: Vec<u8>, events: u32) -> Result<Vec<u8>, NoMemory>
    requires some { 1 ≤ events }
    requires few { events ≤ 65535 }
    ensures bytes { IfOk result (λ bytes. bytes.items ≡ queue.blank_queue (queue.made_size events)) }
    ensures accepted { IfOk result (λ bytes. IsEventQueue bytes.items) }
    ensures ring { IfOk result (λ bytes. ring_of bytes.items
        ≡ record { events = []; capacity = events; seq_num = 0 }) }
{
    let size = dex_ring::made_size(events);
    let bytes = empty_account(alloc, room, size, AccountFlags::EVENT_QUEUE_ACCOUNT.0)?;
    Ok(bytes)
}

/// A side's account as it is made, with this many nodes.
fn side_account(alloc: Global, room: Vec<u8>, side: Side, nodes: u32) -> Result<Vec<u8>, NoMemory>
    requires some { 1 ≤ nodes }
    requires few { nodes ≤ 65536 }
    ensures bytes { IfOk result (λ bytes. bytes.items ≡ slab.blank_side side (slab.made_size nodes)) }
    ensures accepted { IfOk result (λ bytes. IsSideAccount side bytes.items) }
    ensures orders { IfOk result (λ bytes. resting side bytes.items ≡ []) }
    ensures room { IfOk result (λ bytes. room_in bytes.items ≡ room_of nodes) }
{
    let size = dex_slab::made_size(nodes);
    let bytes = empty_account(alloc, room, size, side_flags(side))?;
    Ok(bytes)
}

/// An account of this many bytes with nothing in it, which has these flags. It stands where these bytes stood, if there
/// is room for it; else elsewhere.
fn empty_account(alloc: Global, room: Vec<u8>, size: usize, flags: u64) -> Result<Vec<u8>, NoMemory>
    requires { 20 ≤ size }
    ensures { IfOk result (λ bytes. bytes.items ≡ empty_account size flags) }
{
    let mut bytes = zeros_in(alloc, room, size)?;
    write_on_zeros(&mut bytes, size, flags);
    Ok(bytes)
}

/// Makes this many zeros an account with nothing in it, as `write_empty_account` makes any bytes one. Large accounts
/// are written once so.
fn write_on_zeros(bytes: &mut [u8], size: usize, flags: u64)
    requires zeros { bytes.old ≡ replicate size 0 }
    requires size { length bytes.old ≡ size }
    requires long { 20 ≤ size }
    ensures { bytes.new ≡ empty_account size flags }
{
    let end = Field {
        at: size - END_TEXT.len(),
        len: END_TEXT.len(),
    };
    put_piece(bytes, FRONT, &FRONT_TEXT);
    put_piece(bytes, end, &END_TEXT);
    put_u64(bytes, FLAGS, flags);
}

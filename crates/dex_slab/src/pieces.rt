//! The 72 bytes of a node, as they are written.

ghost use Rattle.dex_slab.specs.Held.{HasFreePadding, HasInnerPadding, HasLeafPadding, IsFree, IsInner, IsLeaf};

use crate::nodes::{Branch, INNER, LEAF, NODE_SIZE};
use dex_fields::{free_node, inner_node, leaf_node, put_addr, put_u8, put_u32, put_u64, put_u128};
use dex_types::Order;

/// A leaf with this order.
pub fn leaf_piece(order: Order) -> [u8; 72]
    ensures leaf { IsLeaf result order }
    ensures padding { HasLeafPadding result }
{
    let mut piece = [0u8; NODE_SIZE];
    put_u32(&mut piece, leaf_node::TAG, LEAF);
    put_u8(&mut piece, leaf_node::OWNER_SLOT, order.slot);
    put_u8(&mut piece, leaf_node::FEE_TIER, order.tier);
    put_u128(&mut piece, leaf_node::KEY, order.id);
    put_addr(&mut piece, leaf_node::OWNER, order.owner.0);
    put_u64(&mut piece, leaf_node::QUANTITY, order.lots);
    put_u64(&mut piece, leaf_node::CLIENT_ORDER_ID, order.client);
    piece
}

/// An inner node.
pub fn inner_piece(branch: Branch) -> [u8; 72]
    ensures inner { IsInner result branch.prefix branch.key branch.first branch.second }
    ensures padding { HasInnerPadding result }
{
    let mut piece = [0u8; NODE_SIZE];
    put_u32(&mut piece, inner_node::TAG, INNER);
    put_u32(&mut piece, inner_node::PREFIX_LEN, branch.prefix);
    put_u128(&mut piece, inner_node::KEY, branch.key);
    put_u32(&mut piece, inner_node::FIRST_CHILD, branch.first);
    put_u32(&mut piece, inner_node::SECOND_CHILD, branch.second);
    piece
}

/// A free node with this tag, before the free node `next`.
pub fn free_piece(tag: u32, next: u32) -> [u8; 72]
    ensures free { IsFree result tag next }
    ensures padding { HasFreePadding result }
{
    let mut piece = [0u8; NODE_SIZE];
    put_u32(&mut piece, free_node::TAG, tag);
    put_u32(&mut piece, free_node::NEXT, next);
    piece
}

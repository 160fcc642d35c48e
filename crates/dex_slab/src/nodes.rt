//! The nodes of a side's account: where they stand, and reading them.

ghost use Rattle.std.specs.Prelude.{◌≡◌, ◌+◌, ◌*◌, ◌≤◌, length};
ghost use Rattle.dex_fields.specs.Bytes.{end_of};
ghost use Rattle.dex_slab.specs.Nodes.{branch_of, node_bytes, node_field, nodes_within, order_of, tag_of};

use dex_fields::slab::LAYOUT as HEADER;
use dex_fields::{END_TEXT, get_addr, get_u8, get_u32, get_u64, get_u128, inner_node, leaf_node};
use dex_types::{Address, Order};

/// How many bytes a node has.
pub const NODE_SIZE: usize = 72;

const _: () = prove!(NODE_SIZE == inner_node::LAYOUT.size);

/// The tag of an inner node.
pub const INNER: u32 = 1;

/// The tag of a leaf.
pub const LEAF: u32 = 2;

/// The tag of a free node that has another one after it.
pub const FREE: u32 = 3;

/// The tag of the last free node.
pub const LAST_FREE: u32 = 4;

/// What an inner node says: the prefix of all keys below it, and the nodes below whose keys have 0 and 1 as their next
/// bit.
#[derive(Clone, Copy, Debug, PartialEq, Eq)]
pub struct Branch {
    /// How many leading bits all keys below have in common.
    pub prefix: u32,
    /// A key that begins with those bits.
    pub key: u128,
    /// The number of the node below whose keys have 0 as their next bit.
    pub first: u32,
    /// The number of the node below whose keys have 1 as their next bit.
    pub second: u32,
}

/// How many nodes an account of this many bytes has.
pub fn nodes_within(size: usize) -> usize
    ensures { result ≡ nodes_within size }
{
    size.saturating_sub(HEADER.size + END_TEXT.len()) / NODE_SIZE
}

/// The place of a node's first byte.
pub fn start_of(node: u32) -> usize
    ensures { result ≡ 45 + node * 72 }
{
    HEADER.size + node as usize * NODE_SIZE
}

/// The 72 bytes of a node.
pub fn node_bytes(bytes: &[u8], node: u32) -> &[u8]
    requires { end_of (node_field node) ≤ length bytes.now }
    ensures value { result.now ≡ node_bytes bytes.now node }
    ensures size { length result.now ≡ 72 }
{
    let start = start_of(node);
    &bytes[start..start + NODE_SIZE]
}

/// Which kind of node it is.
pub fn tag_of(bytes: &[u8], node: u32) -> u32
    requires { end_of (node_field node) ≤ length bytes.now }
    ensures { result ≡ tag_of bytes.now node }
{
    get_u32(node_bytes(bytes, node), inner_node::TAG)
}

/// What an inner node says; None of any other node.
pub fn branch_of(bytes: &[u8], node: u32) -> Option<Branch>
    requires { end_of (node_field node) ≤ length bytes.now }
    ensures { result ≡ branch_of bytes.now node }
{
    let piece = node_bytes(bytes, node);
    if get_u32(piece, inner_node::TAG) == INNER {
        Some(Branch {
            prefix: get_u32(piece, inner_node::PREFIX_LEN),
            key: get_u128(piece, inner_node::KEY),
            first: get_u32(piece, inner_node::FIRST_CHILD),
            second: get_u32(piece, inner_node::SECOND_CHILD),
        })
    } else {
        None
    }
}

/// The order that a leaf is.
#[tactic(auto, unfolding(crate::specs::Nodes::order_in))]
pub fn order_of(bytes: &[u8], node: u32) -> Order
    requires { end_of (node_field node) ≤ length bytes.now }
    ensures { result ≡ order_of bytes.now node }
{
    let piece = node_bytes(bytes, node);
    Order {
        id: get_u128(piece, leaf_node::KEY),
        owner: Address(get_addr(piece, leaf_node::OWNER)),
        slot: get_u8(piece, leaf_node::OWNER_SLOT),
        tier: get_u8(piece, leaf_node::FEE_TIER),
        lots: get_u64(piece, leaf_node::QUANTITY),
        client: get_u64(piece, leaf_node::CLIENT_ORDER_ID),
    }
}

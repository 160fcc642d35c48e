//! Numbers in a slab's nodes.

ghost use Rattle.std.specs.Prelude.{◌≡◌, ◌<◌, length};
ghost use Rattle.dex_slab.specs.Nodes.{key_of, next_of, nodes_within};

use crate::nodes::node_bytes;
use dex_fields::{free_node, get_u32, get_u128, inner_node};

/// The key of an inner node or a leaf.
pub fn key_of(bytes: &[u8], node: u32) -> u128
    requires { node < nodes_within (length bytes.now) }
    ensures { result ≡ key_of bytes.now node }
{
    get_u128(node_bytes(bytes, node), inner_node::KEY)
}

/// The free node after a free node.
pub fn next_of(bytes: &[u8], node: u32) -> u32
    requires { node < nodes_within (length bytes.now) }
    ensures { result ≡ next_of bytes.now node }
{
    get_u32(node_bytes(bytes, node), free_node::NEXT)
}

//! The numbers in a slab's header, and in an inner node.

ghost use Rattle.std.specs.Prelude.{◌≡◌, ◌<◌, length};
ghost use Rattle.dex_slab.specs.Nodes.{bump_of, count_of, first_child_of, free_head_of, free_len_of, nodes_within, prefix_of, root_of, second_child_of};
ghost use Rattle.dex_slab.specs.Slab.{IsSlabSize};

use dex_fields::slab::{BUMP_INDEX, FREE_LIST_HEAD, FREE_LIST_LEN, LEAF_COUNT, ROOT_NODE};
use dex_fields::{get_u32, get_u64, inner_node};
use dex_slab::nodes::node_bytes;

/// The first node that was never used.
pub(crate) fn bump(bytes: &[u8]) -> u64
    requires { IsSlabSize (length bytes.now) }
    ensures { result ≡ bump_of bytes.now }
{
    get_u64(bytes, BUMP_INDEX)
}

/// How many nodes are free again.
pub(crate) fn free_len(bytes: &[u8]) -> u64
    requires { IsSlabSize (length bytes.now) }
    ensures { result ≡ free_len_of bytes.now }
{
    get_u64(bytes, FREE_LIST_LEN)
}

/// The first of the free nodes.
pub(crate) fn free_head(bytes: &[u8]) -> u32
    requires { IsSlabSize (length bytes.now) }
    ensures { result ≡ free_head_of bytes.now }
{
    get_u32(bytes, FREE_LIST_HEAD)
}

/// The root of the tree.
pub(crate) fn root(bytes: &[u8]) -> u32
    requires { IsSlabSize (length bytes.now) }
    ensures { result ≡ root_of bytes.now }
{
    get_u32(bytes, ROOT_NODE)
}

/// How many orders rest.
pub(crate) fn leaf_count(bytes: &[u8]) -> u64
    requires { IsSlabSize (length bytes.now) }
    ensures { result ≡ count_of bytes.now }
{
    get_u64(bytes, LEAF_COUNT)
}

/// How many leading bits all keys below an inner node have in common.
pub(crate) fn prefix_len(bytes: &[u8], node: u32) -> u32
    requires { node < nodes_within (length bytes.now) }
    ensures { result ≡ prefix_of bytes.now node }
{
    get_u32(node_bytes(bytes, node), inner_node::PREFIX_LEN)
}

/// The node below whose keys have 0 as their next bit.
pub(crate) fn first_child(bytes: &[u8], node: u32) -> u32
    requires { node < nodes_within (length bytes.now) }
    ensures { result ≡ first_child_of bytes.now node }
{
    get_u32(node_bytes(bytes, node), inner_node::FIRST_CHILD)
}

/// The node below whose keys have 1 as their next bit.
pub(crate) fn second_child(bytes: &[u8], node: u32) -> u32
    requires { node < nodes_within (length bytes.now) }
    ensures { result ≡ second_child_of bytes.now node }
{
    get_u32(node_bytes(bytes, node), inner_node::SECOND_CHILD)
}

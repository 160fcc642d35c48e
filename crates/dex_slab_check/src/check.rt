//! The check of a side's account by the ten rules of slabs.

ghost use Rattle.std.specs.Prelude.{◌≡◌, ◌<◌, ◌≤◌, ◌↔◌, length, IfErr, IsOk, IsTrue, MatchResult};
ghost use Rattle.dex_slab_check.specs.Faults.{BreaksBump, BreaksCount, BreaksWhole, IsFault, fault_of, met_in};
ghost use Rattle.dex_slab.specs.Nodes.{bump_of, count_of, free_len_of, nodes_within};
ghost use Rattle.dex_slab.specs.Slab.{IsSlab, IsSlabSize, leaves_in, nodes_in, tree_of};

use crate::check_free::check_free;
use crate::check_tree::{TreeSize, check_root};
use crate::numbers::{bump, free_len, leaf_count};
use crate::slab_fault::SlabFault;
use dex_slab::nodes::nodes_within;
use dex_types::Side;

/// The greatest number of nodes that a side may have.
const MOST_NODES: usize = 65_536;

/// Whether an account of this many bytes can be a side's: it has at least one node, and no more than a side may have.
pub fn is_slab_size(size: usize) -> bool
    ensures { IsTrue result ↔ IsSlabSize size }
{
    let nodes = nodes_within(size);
    1 <= nodes && nodes <= MOST_NODES
}

/// Whether the bytes keep the rules of slabs, which are the same for both sides; else one that they break.
///
/// The rules, by their kinds: 1, bump_index is at most the number of nodes; 2, leaf_count is the number of leaves; 3,
/// the nodes that are met, in the tree and in the free list, are below bump_index; 4, those of the tree are inner
/// nodes and leaves; 5, none is met twice; 6, the prefixes have fewer than 128 bits and grow on the way down; 7, keys
/// begin with the prefixes above them; 8, the free list has free_list_len nodes, marked as free, and the last as the
/// last; 9, the nodes that are met are bump_index many; 10, each leaf is an order that can rest.
///
/// No memory is taken, and whatever the bytes are, no node of the tree is gone to twice and the free list is walked
/// only as far as there are nodes.
pub fn is_well_formed(bytes: &[u8], _side: Side) -> Result<(), SlabFault>
    requires { IsSlabSize (length bytes.now) }
    ensures ok { IsOk result ↔ IsSlab bytes.now }
    ensures fault { IfErr result (λ fault. IsFault bytes.now fault) }
{
    bump_rule(bytes)?;
    let size = check_root(bytes)?;
    count_rule(bytes, size.leaves)?;
    whole_rule(bytes, size.nodes)?;
    check_free(bytes)
}

/// Rule 1: the nodes that were ever used are nodes of the account.
fn bump_rule(bytes: &[u8]) -> Result<(), SlabFault>
    requires { IsSlabSize (length bytes.now) }
    ensures { MatchResult result
        (λ _. bump_of bytes.now ≤ nodes_within (length bytes.now))
        (λ fault. BreaksBump bytes.now fault) }
{
    let used = bump(bytes);
    let nodes = nodes_within(bytes.len());
    if used <= nodes as u64 {
        Ok(())
    } else {
        Err(SlabFault::of_header(1, u128::from(used), nodes as u128))
    }
}

/// Rule 2: as many leaves are reached as the header says.
fn count_rule(bytes: &[u8], leaves: u32) -> Result<(), SlabFault>
    requires size { IsSlabSize (length bytes.now) }
    requires leaves { leaves ≡ leaves_in (tree_of bytes.now) }
    ensures { MatchResult result
        (λ _. count_of bytes.now ≡ leaves_in (tree_of bytes.now))
        (λ fault. BreaksCount bytes.now fault) }
{
    let count = leaf_count(bytes);
    if count == u64::from(leaves) {
        Ok(())
    } else {
        Err(SlabFault::of_header(2, u128::from(count), u128::from(leaves)))
    }
}

/// Rule 9: the nodes of the tree and the free nodes are all nodes that were ever used.
fn whole_rule(bytes: &[u8], nodes: u32) -> Result<(), SlabFault>
    requires size { IsSlabSize (length bytes.now) }
    requires nodes { nodes ≡ length (nodes_in (tree_of bytes.now)) }
    ensures { MatchResult result
        (λ _. length (met_in bytes.now) ≡ bump_of bytes.now)
        (λ fault. BreaksWhole bytes.now fault) }
{
    let met = u128::from(nodes) + u128::from(free_len(bytes));
    let used = u128::from(bump(bytes));
    if met == used {
        Ok(())
    } else {
        Err(SlabFault::of_header(9, met, used))
    }
}

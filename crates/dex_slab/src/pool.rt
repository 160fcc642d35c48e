//! The nodes that are not in use: taking one, and giving one back.

ghost use Rattle.std.specs.Prelude.{◌≡◌, ◌≢◌, ◌+◌, ◌-◌, ◌<◌, ◌≤◌, ◌∷◌, List, ℕ, length, slice_index};
ghost use Rattle.dex_slab.specs.Changes.{ChangesHeader, IsBeside, header};
ghost use Rattle.dex_slab.specs.Nodes.{bump_of, count_of, free_len_of, next_of, node_bytes, node_field, nodes_within, root_of};
ghost use Rattle.dex_slab.specs.Pool.{HasSpare, IsUsed};
ghost use Rattle.dex_slab.specs.Slab.{IsShared, free_of};

use crate::node_reads::next_of;
use crate::node_writes::put_node;
use crate::nodes::{FREE, LAST_FREE};
use crate::pieces::free_piece;
use dex_fields::slab::{BUMP_INDEX, FREE_LIST_HEAD, FREE_LIST_LEN};
use dex_fields::{get_u32, get_u64, put_u32, put_u64};

/// Takes the node that was never used before and has the lowest number.
fn take_unused(bytes: &mut [u8]) -> u32
    requires spare { HasSpare bytes.old }
    requires none_free { free_len_of bytes.old ≡ 0 }
    ensures shared { (used : List ℕ) → IsShared bytes.old used (free_of bytes.old)
        → length used < nodes_within (length bytes.old)
        → IsShared bytes.new (result ∷ used) (free_of bytes.new) }
    ensures bump { bump_of bytes.new ≡ bump_of bytes.old + (1 - free_len_of bytes.old) }
    ensures freed { free_len_of bytes.new ≡ free_len_of bytes.old - 1 }
    ensures root { root_of bytes.new ≡ root_of bytes.old }
    ensures count { count_of bytes.new ≡ count_of bytes.old }
    ensures changes { ChangesHeader bytes.old bytes.new }
{
    let node = get_u64(bytes, BUMP_INDEX);
    put_u64(bytes, BUMP_INDEX, node + 1);
    node as u32
}

/// Takes the first node of the free list.
fn take_freed(bytes: &mut [u8]) -> u32
    requires spare { HasSpare bytes.old }
    requires some_free { 1 ≤ free_len_of bytes.old }
    ensures shared { (used : List ℕ) → IsShared bytes.old used (free_of bytes.old)
        → IsShared bytes.new (result ∷ used) (free_of bytes.new) }
    ensures bump { bump_of bytes.new ≡ bump_of bytes.old + (1 - free_len_of bytes.old) }
    ensures freed { free_len_of bytes.new ≡ free_len_of bytes.old - 1 }
    ensures root { root_of bytes.new ≡ root_of bytes.old }
    ensures count { count_of bytes.new ≡ count_of bytes.old }
    ensures changes { ChangesHeader bytes.old bytes.new }
{
    let node = get_u32(bytes, FREE_LIST_HEAD);
    let next = next_of(bytes, node);
    let freed = get_u64(bytes, FREE_LIST_LEN);
    put_u32(bytes, FREE_LIST_HEAD, next);
    put_u64(bytes, FREE_LIST_LEN, freed - 1);
    node
}

/// Takes a node: the first of the free list, else the first that was never used. Its bytes are as they were left.
pub fn take_node(bytes: &mut [u8]) -> u32
    requires { HasSpare bytes.old }
    ensures shared { (used : List ℕ) → IsShared bytes.old used (free_of bytes.old)
        → length used < nodes_within (length bytes.old)
        → IsShared bytes.new (result ∷ used) (free_of bytes.new) }
    ensures bump { bump_of bytes.new ≡ bump_of bytes.old + (1 - free_len_of bytes.old) }
    ensures freed { free_len_of bytes.new ≡ free_len_of bytes.old - 1 }
    ensures root { root_of bytes.new ≡ root_of bytes.old }
    ensures count { count_of bytes.new ≡ count_of bytes.old }
    ensures changes { ChangesHeader bytes.old bytes.new }
{
    if get_u64(bytes, FREE_LIST_LEN) == 0 {
        take_unused(bytes)
    } else {
        take_freed(bytes)
    }
}

/// Gives a node back: it becomes the first of the free list.
pub fn free_node(bytes: &mut [u8], node: u32)
    requires { IsUsed node bytes.old }
    ensures shared { (used : List ℕ) → IsShared bytes.old (node ∷ used) (free_of bytes.old)
        → IsShared bytes.new used (free_of bytes.new) }
    ensures bump { bump_of bytes.new ≡ bump_of bytes.old }
    ensures freed { free_len_of bytes.new ≡ free_len_of bytes.old + 1 }
    ensures root { root_of bytes.new ≡ root_of bytes.old }
    ensures count { count_of bytes.new ≡ count_of bytes.old }
    ensures nodes { (other : ℕ) → other ≢ node → node_bytes bytes.new other ≡ node_bytes bytes.old other }
    ensures places { (place : ℕ) → IsBeside header place → IsBeside (node_field node) place
        → slice_index bytes.new place ≡ slice_index bytes.old place }
{
    let freed = get_u64(bytes, FREE_LIST_LEN);
    let next = get_u32(bytes, FREE_LIST_HEAD);
    let tag = if freed == 0 { LAST_FREE } else { FREE };
    put_node(bytes, node, &free_piece(tag, next));
    put_u32(bytes, FREE_LIST_HEAD, node);
    put_u64(bytes, FREE_LIST_LEN, freed + 1);
}

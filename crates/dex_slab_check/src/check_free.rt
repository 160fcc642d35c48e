//! The rules of a slab's free list, node by node from its head.

ghost use Rattle.std.specs.Prelude.{◌≡◌, ◌≤◌, ◌<◌, ◌⊎◌, List, ℕ, length, MatchResult, IsTrue};
ghost use Rattle.dex_slab_check.specs.Checked.{IsSoundFree};
ghost use Rattle.dex_slab_check.specs.Faults.{BreaksBelow, BreaksFree, BreaksTag, fault_of, tag_wanted};
ghost use Rattle.dex_slab.specs.Nodes.{bump_of, free_len_of, nodes_within, tag_of};
ghost use Rattle.dex_slab.specs.Slab.{IsSlabSize, free_of};

use crate::check_nodes::below_rule;
use crate::numbers::{free_head, free_len};
use crate::slab_fault::SlabFault;
use dex_slab::node_reads::next_of;
use dex_slab::nodes::{FREE, LAST_FREE, tag_of};

/// The rules of the free nodes, of which there are no more than nodes that were ever used: 3 and 8.
pub(crate) fn check_free(bytes: &[u8]) -> Result<(), SlabFault>
    requires size { IsSlabSize (length bytes.now) }
    requires bump { bump_of bytes.now ≤ nodes_within (length bytes.now) }
    requires few { free_len_of bytes.now ≤ bump_of bytes.now }
    ensures { MatchResult result
        (λ _. IsSoundFree bytes.now (free_of bytes.now))
        (λ fault. BreaksFree bytes.now (free_of bytes.now) fault) }
{
    let mut node = free_head(bytes);
    let mut left = free_len(bytes);
    while left != 0 {
        left -= 1;
        below_rule(bytes, node)?;
        tag_rule(bytes, node, left)?;
        node = next_of(bytes, node);
    }
    Ok(())
}

/// Rule 8, of one free node with this many others after it: it is marked as free, and the last as the last.
fn tag_rule(bytes: &[u8], node: u32, behind: u64) -> Result<(), SlabFault>
    requires { node < nodes_within (length bytes.now) }
    ensures { MatchResult result
        (λ _. tag_of bytes.now node ≡ tag_wanted behind)
        (λ fault. BreaksTag bytes.now node behind fault) }
{
    let found = tag_of(bytes, node);
    let wanted = if behind == 0 { LAST_FREE } else { FREE };
    if found == wanted {
        Ok(())
    } else {
        Err(SlabFault::of_node(8, node, u128::from(found), u128::from(wanted)))
    }
}

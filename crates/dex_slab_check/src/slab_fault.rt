//! What the check of a slab answers where a rule is broken.

/// A rule that the bytes of a side break: its kind, from 1 to 10, the node at which it is broken, and the values found
/// and wanted there. For the rules of the whole slab, which have no node, it is 0.
#[derive(Clone, Copy, Debug, PartialEq, Eq)]
pub struct SlabFault {
    pub kind: u8,
    pub node: u32,
    pub found: u128,
    pub wanted: u128,
}

impl SlabFault {
    ghost use Rattle.std.specs.Prelude.{◌≡◌};
    ghost use Rattle.dex_slab_check.specs.Faults.{fault_of};

    /// A broken rule of one node.
    pub(crate) fn of_node(kind: u8, node: u32, found: u128, wanted: u128) -> SlabFault
        ensures { result ≡ fault_of kind node found wanted }
    {
        SlabFault {
            kind,
            node,
            found,
            wanted,
        }
    }

    /// A broken rule of the whole slab.
    pub(crate) fn of_header(kind: u8, found: u128, wanted: u128) -> SlabFault
        ensures { result ≡ fault_of kind 0 found wanted }
    {
        SlabFault::of_node(kind, 0, found, wanted)
    }
}

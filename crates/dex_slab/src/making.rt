//! A side's account as it is made.

ghost use Rattle.std.specs.Prelude.{◌≡◌, ◌≤◌, [], length};
ghost use Rattle.dex_fields.specs.Bytes.{number_in};
ghost use Rattle.dex_fields.specs.Frame.{IsFramed};
ghost use Rattle.dex_fields.specs.declared.slab.TheConstants.{ACCOUNT_FLAGS};
ghost use Rattle.dex_slab.specs.Blank.{IsMadeSize, blank_side, made_size, side_flags};
ghost use Rattle.dex_slab.specs.Slab.{IsSlab, resting, room_in};

use crate::nodes::NODE_SIZE;
use dex_fields::slab::LAYOUT;
use dex_fields::{END_TEXT, write_empty_account};
use dex_types::{AccountFlags, Side};

/// How many bytes a side's account that is made with this many nodes has; with 1 to 65,536 nodes it can be one.
pub fn made_size(nodes: u32) -> usize
    ensures size { result ≡ made_size nodes }
    ensures made { 1 ≤ nodes → nodes ≤ 65536 → IsMadeSize result }
{
    LAYOUT.size + NODE_SIZE * nodes as usize + END_TEXT.len()
}

/// The flags of a side's account.
pub fn side_flags(side: Side) -> u64
    ensures { result ≡ side_flags side }
{
    match side {
        Side::Bid => AccountFlags::BIDS_ACCOUNT.0,
        Side::Ask => AccountFlags::ASKS_ACCOUNT.0,
    }
}

/// Makes the bytes a side's account as it is made, whatever stood there: no order rests, and no node was ever used. The
/// length must be that of an account that is made with 1 to 65,536 nodes, as `made_size` has it.
pub fn blank(bytes: &mut [u8], side: Side)
    requires { IsMadeSize (length bytes.old) }
    ensures bytes { bytes.new ≡ blank_side side (length bytes.old) }
    ensures framed { IsFramed bytes.new }
    ensures flags { number_in bytes.new ACCOUNT_FLAGS ≡ side_flags side }
    ensures holds { IsSlab bytes.new }
    ensures orders { resting side bytes.new ≡ [] }
    ensures room { room_in bytes.new ≡ room_in bytes.old }
{
    write_empty_account(bytes, side_flags(side));
}

//! Bytes that are all zero.

ghost use Rattle.std.specs.Prelude.{◌≡◌, [], IfOk, replicate};

use dex_types::NoMemory;
use std::alloc::Global;

/// Fewer bytes get no room before they are made.
const LARGE: usize = 1_048_576;

/// So many zeros; NoMemory where there is not so much memory.
pub fn zeros(alloc: Global, size: usize) -> Result<Vec<u8>, NoMemory>
    ensures { IfOk result (λ bytes. bytes.items ≡ replicate size 0) }
{
    let bytes = vec![in alloc; 0; size]?;
    Ok(bytes)
}

/// Room for this many bytes, where they are many: so much that a text of up to `most` bytes in base64 can stand there
/// later. It takes memory, and touches none.
pub(crate) fn room_for(alloc: Global, size: usize, most: usize) -> Result<Vec<u8>, NoMemory>
    ensures { IfOk result (λ room. room.items ≡ []) }
{
    if size < LARGE {
        return Ok(Vec::new(alloc));
    }
    let room = Vec::with_capacity(alloc, most.saturating_add(most / 3).saturating_add(8))?;
    Ok(room)
}

/// So many zeros where these bytes stand, which are given up, if there is room for them; else elsewhere.
pub(crate) fn zeros_in(alloc: Global, room: Vec<u8>, size: usize) -> Result<Vec<u8>, NoMemory>
    ensures { IfOk result (λ bytes. bytes.items ≡ replicate size 0) }
{
    if room.capacity() < size {
        return zeros(alloc, size);
    }
    let mut bytes = room;
    bytes.clear();
    bytes.resize(size, 0)?;
    Ok(bytes)
}

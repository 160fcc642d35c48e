ghost use Rattle.std.specs.Prelude.{◌≡◌, IfOk, option_map};
ghost use Rattle.dex_rows.specs.Base64.{base64_of};

use base64::DecodeAllocError;
use base64::engine::general_purpose::STANDARD;
use dex_types::NoMemory;
use std::alloc::Global;

/// The bytes that a word writes in base64, with the standard alphabet and padding; None where it is no such text.
pub fn base64_word(alloc: Global, text: &[u8]) -> Result<Option<Vec<u8>>, NoMemory>
    ensures { IfOk result (λ bytes. option_map (λ b. b.items) bytes ≡ base64_of text.now) }
{
    match STANDARD.decode(alloc, text) {
        Ok(bytes) => Ok(Some(bytes)),
        Err(DecodeAllocError::DecodeError(_)) => Ok(None),
        Err(DecodeAllocError::OutOfMemory) => Err(NoMemory),
    }
}

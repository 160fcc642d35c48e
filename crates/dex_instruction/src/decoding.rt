//! Decoding bytes as an instruction.

ghost use Rattle.std.specs.Prelude.{◌≡◌, ◌↔◌, None, Some, Ok, Err, IfOk};
ghost use Rattle.dex_types.specs.declared.instructions.BadData.{BadData};
ghost use Rattle.dex_types.specs.declared.instructions.Ix.{Ix};
ghost use Rattle.dex_instruction.specs.Rules.{broken};
ghost use Rattle.dex_instruction.specs.Reading.{decoded};
ghost use Rattle.dex_instruction.specs.Spelling.{Fits, spelling};

use crate::reading::instruction;
use crate::rules::broken;
use dex_types::{BadData, Ix};

/// The instruction that the bytes spell, where they break no rule, and else the first rule that they break.
/// Takes no memory.
pub fn decode(bytes: &[u8]) -> Result<Ix, BadData>
    // What is decoded is spelled so, each byte of it.
    ensures spelled { IfOk result (λ ix. (bytes.now ≡ spelling ix) × (broken bytes.now ≡ None) × Fits ix) }
    // What is spelled so is decoded, where it breaks no rule.
    ensures only { (ix : Ix) → Fits ix
        → bytes.now ≡ spelling ix → broken bytes.now ≡ None → result ≡ Ok ix }
    // Which refusal it is.
    ensures refused { (fault : BadData) → (result ≡ Err fault) ↔ (broken bytes.now ≡ Some fault) }
    // The result as a function of the bytes.
    ensures value { result ≡ decoded bytes.now }
{
    match broken(bytes) {
        Some(fault) => Err(fault),
        None => Ok(instruction(bytes)),
    }
}

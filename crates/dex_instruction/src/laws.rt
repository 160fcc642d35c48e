//! What holds of all instructions and their spellings.

ghost use Rattle.std.specs.Prelude.{◌≡◌, if◌then◌else◌, Ok, Err};
ghost use Rattle.dex_types.specs.declared.instructions.BadData.TheVariants.{ZeroField};
ghost use Rattle.dex_types.specs.declared.instructions.Ix.{Ix};
ghost use Rattle.dex_instruction.specs.Reading.{decoded};
ghost use Rattle.dex_instruction.specs.Spelling.{Fits, spelling, has_zero};

/// No two instructions have one spelling.
pub fn one_spelling()
    ensures { (a b : Ix) → Fits a → Fits b → spelling a ≡ spelling b → a ≡ b }
{}

/// What an instruction is spelled as decodes to it again; where a field is 0 that must not be, that rule is the one
/// that is broken.
pub fn decodes_again()
    ensures { (ix : Ix) → Fits ix → decoded (spelling ix) ≡ (if has_zero ix then Err ZeroField else Ok ix) }
{}

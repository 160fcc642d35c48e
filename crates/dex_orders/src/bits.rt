//! One bit of a mask of 128.

ghost use Rattle.std.specs.Prelude.{◌≡◌, ◌≢◌, ℕ, ◌<◌, true, false};
ghost use Rattle.dex_orders.specs.Bits.{is_set, with_bit, without_bit};

/// Whether the bit is set.
pub fn is_set(bits: u128, place: u8) -> bool
    requires { place < 128 }
    ensures { result ≡ is_set bits place }
{
    bits >> place & 1 == 1
}

/// The bits with this one set.
pub fn with_bit(bits: u128, place: u8) -> u128
    requires { place < 128 }
    ensures bits { result ≡ with_bit bits place }
    ensures same { is_set result place ≡ true }
    ensures others { (other : ℕ) → other < 128 → other ≢ place → is_set result other ≡ is_set bits other }
{
    bits | 1 << place
}

/// The bits with this one clear.
pub fn without_bit(bits: u128, place: u8) -> u128
    requires { place < 128 }
    ensures bits { result ≡ without_bit bits place }
    ensures same { is_set result place ≡ false }
    ensures others { (other : ℕ) → other < 128 → other ≢ place → is_set result other ≡ is_set bits other }
{
    bits & !(1 << place)
}

use thiserror::Error;

/// What is wrong with an account's bytes: the kind of rule that is broken, the place, and the values found and wanted
/// there. The place is a byte offset, or the number of an event, a node or a slot, as the kind says.
#[derive(Clone, Copy, Debug, PartialEq, Eq, Error)]
#[error("fault {kind} at {place}: found {found}, wanted {wanted}")]
pub struct AccountFault {
    pub kind: u8,
    pub place: u32,
    pub found: u128,
    pub wanted: u128,
}

impl AccountFault {
    ghost use Rattle.std.specs.Prelude.{◌≡◌, ◌<◌, ◌^◌};
    ghost use Rattle.dex_types.specs.AccountFaults.{flags_fault, size_fault, text_fault, word_fault};

    /// Kind 2: the account has another length than it can have; the nearest one that it can have is wanted.
    pub fn size(found: usize, wanted: usize) -> Self
        ensures { result ≡ size_fault found wanted }
    {
        AccountFault {
            kind: 2,
            place: 0,
            found: found as u128,
            wanted: wanted as u128,
        }
    }

    /// Kind 3: a byte differs from the text that stands at the front or at the end. A place above the largest u32 is
    /// reported as that.
    pub fn text(place: usize, found: u8, wanted: u8) -> Self
        ensures { result ≡ text_fault place found wanted }
    {
        AccountFault {
            kind: 3,
            place: place.min(u32::MAX as usize) as u32,
            found: u128::from(found),
            wanted: u128::from(wanted),
        }
    }

    /// Kind 4: the flags are not the account's.
    pub fn flags(found: u64, wanted: u64) -> Self
        ensures { result ≡ flags_fault found wanted }
    {
        AccountFault {
            kind: 4,
            place: 5,
            found: u128::from(found),
            wanted: u128::from(wanted),
        }
    }

    /// Kind 5: a word, or the first byte of an address, is not what it must be.
    pub fn word(place: usize, found: u64, wanted: u64) -> Self
        requires { place < 2 ^ 32 }
        ensures { result ≡ word_fault place found wanted }
    {
        AccountFault {
            kind: 5,
            place: place as u32,
            found: u128::from(found),
            wanted: u128::from(wanted),
        }
    }
}

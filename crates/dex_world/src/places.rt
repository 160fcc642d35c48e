//! Where what a row names stands.

ghost use Rattle.std.specs.Prelude.{◌≡◌};
ghost use Rattle.dex_world.specs.Places.{place_at};

/// Where the wallets that a row names stand in the list of those with which its script starts: each once, by rising
/// address, from the front of `places`, and behind the last one `u16::MAX`. Of each role its index there; 4 of a role
/// that names none.
#[derive(Clone, Copy, Debug, PartialEq, Eq)]
pub struct RowWallets {
    pub places: [u16; 4],
    pub coin: u8,
    pub pc: u8,
    pub discount: u8,
    pub referrer: u8,
}

/// What a walk over all rows asks of each, kept beside it: its number, its lane, where its market stands in the list of
/// those with which its script starts, and where its wallets stand.
#[derive(Clone, Copy, Debug, PartialEq, Eq)]
pub struct RowPlaces {
    pub number: u32,
    pub lane: u32,
    pub market: u16,
    pub wallets: RowWallets,
}

impl RowWallets {
    /// The place of the wallet of a role of this index; `u16::MAX`, at which none stands, of a role that names none.
    pub fn at(&self, index: u8) -> u16
        ensures { result ≡ place_at self.now index }
    {
        match self.places.get(index as usize) {
            Some(place) => *place,
            None => u16::MAX,
        }
    }
}

ghost use Rattle.std.specs.Prelude.{◌≡◌, ℕ, ◌<◌, ◌≤◌, length, slice_index, take, replicate, ◌++◌, ◌-◌};

/// From one to eight client order ids: the first `count` of `ids`, and zeros behind them.
#[derive(Clone, Copy, Debug, PartialEq, Eq)]
pub struct ClientIds {
    pub ids: [u64; 8],
    pub count: u8,
    pub ghost some: { 1 ≤ count },
    pub ghost at_most_eight: { count ≤ 8 },
    pub ghost zeros_behind: { (i : ℕ) → count ≤ i → slice_index ids i ≡ 0 },
}

impl ClientIds {
    /// These client ids, which are from one to eight.
    pub fn new(ids: &[u64]) -> ClientIds
        requires some { 1 ≤ length ids.now }
        requires at_most_eight { length ids.now ≤ 8 }
        ensures count { result.count ≡ length ids.now }
        ensures ids { take (length ids.now) result.ids ≡ ids.now }
    {
        let mut all = [0; 8];
        all[..ids.len()].copy_from_slice(ids);
        ClientIds {
            ids: all,
            count: ids.len() as u8,
        }
    }
}

//! A law of records. A law is a function without a body, and its clause is the law.

ghost use Rattle.std.specs.Prelude.{◌≡◌, ◌*◌, ℕ, List, length};
ghost use Rattle.dex_lent.specs.Flat.{accounts_in};

/// Where nothing stands behind the last account, the accounts of records tell all their bytes. So what leaves each
/// account as it was changes no byte.
pub fn whole_records_are_told_by_their_accounts()
    ensures { (count : ℕ) (bytes other : List ℕ) → length bytes ≡ 3260 * count → length other ≡ 3260 * count
        → accounts_in bytes ≡ accounts_in other → bytes ≡ other }
{}

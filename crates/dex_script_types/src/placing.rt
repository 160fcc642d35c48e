//! Where the wallets of a row stand, as whoever finds a wallet by its address tells.

ghost use Rattle.std.specs.Prelude.{◌≡◌, ℕ, IfSome, None, Option, Some, false};
ghost use Rattle.std.specs.List.{position};
ghost use Rattle.dex_types.specs.declared.addresses.Address.{Address as AddressOf};
ghost use Rattle.dex_types.specs.Addresses as addresses;
ghost use Rattle.dex_world.specs.Fold as fold;
ghost use Rattle.dex_world.specs.Places.{AreWalletsAt};
ghost use Rattle.dex_script_types.specs.Found as spec;

use dex_locks::{is_lower, plan_wallets};
use dex_types::{Address, is_same};
use dex_world::RowWallets;

/// Who finds a wallet by its address.
pub trait FindsWallets {
    /// The place of the wallet of an address, if it is one of theirs.
    ghost place: { Self → AddressOf → Option ℕ };

    /// The place of the wallet of this address, if it is one of theirs.
    fn find(&self, address: Address) -> Option<u16>
        ensures { result ≡ place self.now address };
}

/// Where the wallets that four roles name stand, if all are found. Each is looked for once.
pub fn wallets_at<F: FindsWallets>(
    finder: &F,
    coin: Option<Address>,
    pc: Option<Address>,
    discount: Option<Address>,
    referrer: Option<Address>,
) -> Option<RowWallets>
    ensures found { IfSome result (AreWalletsAt (F.place finder.now) coin pc discount referrer) }
    ensures none { result ≡ None → spec.are_found (F.place finder.now) coin pc discount referrer ≡ false }
{
    if let (Some(one), Some(other), None, None) = (&coin, &pc, &discount, &referrer) {
        if !is_same(*one, *other) {
            return two_at(finder, *one, *other);
        }
    }
    let wallets = plan_wallets(&coin, &pc, &discount, &referrer);
    let places = places_by(finder, &wallets)?;
    Some(RowWallets {
        places,
        coin: index_of(&wallets, coin),
        pc: index_of(&wallets, pc),
        discount: index_of(&wallets, discount),
        referrer: index_of(&wallets, referrer),
    })
}

/// `wallets_at` of two wallets, as nearly all rows name.
fn two_at<F: FindsWallets>(finder: &F, coin: Address, pc: Address) -> Option<RowWallets>
    requires { addresses.is_same coin pc ≡ false }
    ensures found { IfSome result (AreWalletsAt (F.place finder.now) (Some coin) (Some pc) None None) }
    ensures none { result ≡ None → spec.are_found (F.place finder.now) (Some coin) (Some pc) None None ≡ false }
{
    let at_coin = finder.find(coin)?;
    let at_pc = finder.find(pc)?;
    if is_lower(coin, pc) {
        Some(RowWallets {
            places: [at_coin, at_pc, u16::MAX, u16::MAX],
            coin: 0,
            pc: 1,
            discount: 4,
            referrer: 4,
        })
    } else {
        Some(RowWallets {
            places: [at_pc, at_coin, u16::MAX, u16::MAX],
            coin: 1,
            pc: 0,
            discount: 4,
            referrer: 4,
        })
    }
}

/// Where these wallets stand, if all are found; `u16::MAX` for none.
fn places_by<F: FindsWallets>(finder: &F, wallets: &[Option<Address>; 4]) -> Option<[u16; 4]>
    ensures { result ≡ spec.places_by (F.place finder.now) wallets.now }
{
    all_four(
        place_of(finder, wallets[0]),
        place_of(finder, wallets[1]),
        place_of(finder, wallets[2]),
        place_of(finder, wallets[3]),
    )
}

/// Where this wallet stands, if it is found; `u16::MAX` for none.
fn place_of<F: FindsWallets>(finder: &F, wallet: Option<Address>) -> Option<u16>
    ensures { result ≡ spec.role_place (F.place finder.now) wallet }
{
    match wallet {
        None => Some(u16::MAX),
        Some(address) => finder.find(address),
    }
}

/// Four places, if all are there.
fn all_four(
    first: Option<u16>,
    second: Option<u16>,
    third: Option<u16>,
    fourth: Option<u16>,
) -> Option<[u16; 4]>
    ensures { result ≡ spec.all_four first second third fourth }
{
    Some([first?, second?, third?, fourth?])
}

/// The index of a role's wallet among these; 4 of a role that names none, or none of these.
fn index_of(wallets: &[Option<Address>; 4], role: Option<Address>) -> u8
    ensures { result ≡ spec.index_among wallets.now role }
{
    match role {
        None => 4,
        Some(address) => match find(wallets, address) {
            Some(index) => index as u8,
            None => 4,
        },
    }
}

/// The index of the first of these that is this wallet.
fn find(wallets: &[Option<Address>], address: Address) -> Option<usize>
    ensures { result ≡ position (λ wallet. fold.is_role wallet address) wallets.now }
{
    wallets.iter().position(|wallet| is_role(*wallet, address))
}

/// Whether a role names a wallet.
pub fn is_role(role: Option<Address>, address: Address) -> bool
    ensures { result ≡ fold.is_role role address }
{
    match role {
        Some(wallet) => is_same(address, wallet),
        None => false,
    }
}

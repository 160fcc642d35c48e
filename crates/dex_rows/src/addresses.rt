ghost use Rattle.std.specs.Prelude.{◌≡◌, Some, true};
ghost use Rattle.std.specs.Option.{option_map};
ghost use Rattle.std.specs.List.{list_all};
ghost use Rattle.dex_types.specs.Text.{is_label, is_label_character, label_address};
ghost use Rattle.dex_rows.specs.Addresses.{IsRead, address_of, digits_address, is_lower_hexdigit, prefixed_address, role_of};

use dex_types::Address;
use hex::FromHex;

/// The address that a word names: a label's, or that of `0x` and 64 lower-case hexadecimal digits.
pub fn address_word(text: &[u8]) -> Option<Address>
    ensures { result ≡ address_of text.now }
{
    let mut address = Address([0; 32]);
    if read_address(text, &mut address) {
        Some(address)
    } else {
        None
    }
}

/// Puts the address that a word names where it is to stand, and answers whether the word names one.
#[tactic(auto, unfolding(crate::specs::Addresses::address_of))]
pub fn read_address(text: &[u8], address: &mut Address) -> bool
    ensures { IsRead result (address_of text.now) address.new }
{
    read_label(text, address) || read_prefixed(text, address)
}

/// The wallet that a word gives to a role: none, for `-`, or the address that it names. It is None for any other word.
pub fn role_word(text: &[u8]) -> Option<Option<Address>>
    ensures { result ≡ role_of text.now }
{
    let mut role = None;
    if read_role(text, &mut role) {
        Some(role)
    } else {
        None
    }
}

/// Puts the wallet that a word gives to a role where it is to stand, and answers whether the word gives one, or none.
#[tactic(auto, unfolding(crate::specs::Addresses::role_of))]
pub fn read_role(text: &[u8], role: &mut Option<Address>) -> bool
    ensures { IsRead result (role_of text.now) role.new }
{
    if let [b'-'] = text {
        *role = None;
        true
    } else {
        read_wallet(text, role)
    }
}

// Like `read_role`, of a word that is to name a wallet: its bytes are written where they stay.
fn read_wallet(text: &[u8], role: &mut Option<Address>) -> bool
    ensures { IsRead result (option_map Some (address_of text.now)) role.new }
{
    read_address(text, role.insert(Address([0; 32])))
}

/// Whether a word is a label: from 1 to 24 characters of `a` to `z`, `0` to `9` and `_`.
pub fn is_label_word(text: &[u8]) -> bool
    ensures { result ≡ is_label text.now }
{
    1 <= text.len() && text.len() <= 24 && has_label_characters(text)
}

// Whether each byte is one that a label may have.
fn has_label_characters(text: &[u8]) -> bool
    ensures { result ≡ list_all is_label_character text.now }
{
    text.iter().all(|&c| is_label_character(c))
}

// Whether a byte is one that a label may have.
fn is_label_character(c: u8) -> bool
    ensures { result ≡ is_label_character c }
{
    c.is_ascii_lowercase() || c.is_ascii_digit() || c == b'_'
}

// Whether a byte is a hexadecimal digit in lower case.
fn is_lower_hexdigit(c: u8) -> bool
    ensures { result ≡ is_lower_hexdigit c }
{
    c.is_ascii_digit() || (b'a' <= c && c <= b'f')
}

// Puts the address of a word that is a label where it is to stand: one pass over its bytes.
fn read_label(text: &[u8], address: &mut Address) -> bool
    ensures label { result ≡ is_label text.now }
    ensures address { result ≡ true → address.new ≡ label_address text.now }
{
    if text.is_empty() || 24 < text.len() {
        return false;
    }
    address.0 = [0; 32];
    'label: for place in 0..text.len() {
        let byte = text[place];
        if !is_label_character(byte) {
            return false;
        }
        address.0[place] = byte;
    }
    true
}

// Puts the address of `0x` and 64 digits where it is to stand. It is not inlined: a label needs nothing of it.
#[inline(never)]
fn read_prefixed(text: &[u8], address: &mut Address) -> bool
    ensures { IsRead result (prefixed_address text.now) address.new }
{
    let [b'0', b'x', digits @ ..] = text else {
        return false;
    };
    let Some(found) = digits_address(digits) else {
        return false;
    };
    *address = found;
    true
}

// Whether each byte is a hexadecimal digit in lower case.
fn has_lower_hexdigits(text: &[u8]) -> bool
    ensures { result ≡ list_all is_lower_hexdigit text.now }
{
    text.iter().all(|&c| is_lower_hexdigit(c))
}

// The address of 64 hexadecimal digits in lower case.
#[tactic(auto, unfolding(crate::specs::Addresses::digits_address))]
fn digits_address(digits: &[u8]) -> Option<Address>
    ensures { result ≡ digits_address digits.now }
{
    if has_lower_hexdigits(digits) {
        <[u8; 32]>::from_hex(digits).ok().map(Address)
    } else {
        None
    }
}

//! What replies and refusals print: a name and what stands after it, a space before each.

ghost use Rattle.std.specs.Fmt.{DisplaysOnOk, decimal};
ghost use Rattle.std.specs.Prelude.{◌++◌, Some};
ghost use Rattle.dex_types.specs.Text.{address_text, spaced};

use crate::addresses::Address;
use itoa::Buffer;
use std::fmt;

/// A name, and a number after it.
pub(crate) fn with_one<W: fmt::Write>(
    f: &mut fmt::Formatter<W>,
    name: &str,
    number: u128,
) -> fmt::Result
    ensures { DisplaysOnOk W.write_str_gives f.old result (Some (name.now ++ spaced (decimal number))) f.new }
{
    let mut buffer = Buffer::new();
    let number = buffer.format(number);
    write!(f, "{name} {number}")
}

/// A name, and two numbers after it.
pub(crate) fn with_two<W: fmt::Write>(
    f: &mut fmt::Formatter<W>,
    name: &str,
    first: u128,
    second: u128,
) -> fmt::Result
    ensures { DisplaysOnOk W.write_str_gives f.old result
        (Some (name.now ++ spaced (decimal first) ++ spaced (decimal second))) f.new }
{
    let (mut front, mut back) = (Buffer::new(), Buffer::new());
    let first = front.format(first);
    let second = back.format(second);
    write!(f, "{name} {first} {second}")
}

/// A name, and an address after it.
pub(crate) fn with_address<W: fmt::Write>(
    f: &mut fmt::Formatter<W>,
    name: &str,
    address: Address,
) -> fmt::Result
    ensures { DisplaysOnOk W.write_str_gives f.old result
        (Some (name.now ++ spaced (address_text address))) f.new }
{
    write!(f, "{name} {address}")
}

/// A name, and three numbers after it.
pub(crate) fn with_three<W: fmt::Write>(
    f: &mut fmt::Formatter<W>,
    name: &str,
    first: u64,
    second: u64,
    third: u64,
) -> fmt::Result
    ensures { DisplaysOnOk W.write_str_gives f.old result
        (Some (name.now ++ spaced (decimal first) ++ spaced (decimal second) ++ spaced (decimal third))) f.new }
{
    write!(f, "{name} {first} {second} {third}")
}

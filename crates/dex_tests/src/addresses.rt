//! Addresses: a word is read as the address that prints as it.

use dex_rows::addresses::address_word;
use std::fmt::Write;
use std::test::Fail;

// Labels; and addresses that are none: all zeros, a part of a market, 25 characters, a capital, and a zero between
// characters.
const WORDS: &str = "m
ann_usd
0x12
abcdefghijklmnopqrstuv_9
0x0000000000000000000000000000000000000000000000000000000000000000
0x6d00000000000000000000000000000000000000000000000000000000000002
0x6162636465666768696a6b6c6d6e6f707172737475765f393000000000000000
0x416d790000000000000000000000000000000000000000000000000000000000
0x5f5f5f5f5f5f5f5f5f5f5f5f5f5f5f5f5f5f5f5f5f5f5f5f005f5f5f5f5f5f5f
";

#[test]
fn an_address_is_printed_as_it_is_read(rt: HostRuntime) -> Result<(), Fail> {
    let mut printed = String::new(rt.alloc());
    for word in WORDS.split('\n') {
        if let Some(address) = address_word(word.as_bytes()) {
            write!(printed, "{address}\n")?;
        }
    }
    assert_eq!(rt; printed.as_str(), WORDS);
    Ok(())
}

//! In which order a row takes the turns of its wallets.

use dex_locks::plan_locks;
use dex_types::{Address, Row};

/// The address of a label.
fn label(text: [u8; 8]) -> Address {
    let mut bytes = [0; 32];
    for (place, byte) in bytes.iter_mut().zip(text.iter()) {
        *place = *byte;
    }
    Address(bytes)
}

#[test]
fn wallets_rise_and_stand_once(rt: HostRuntime) {
    let coin = label(*b"bob_coin");
    let usd = label(*b"ann_usd\0");
    let market = label(*b"m\0\0\0\0\0\0\0");
    let plan = plan_locks(&Row {
        lane: 0,
        number: 1,
        market,
        signer: label(*b"ann\0\0\0\0\0"),
        named: Vec::new(rt.alloc()),
        coin: Some(coin),
        pc: Some(usd),
        discount: None,
        referrer: Some(usd),
        bytes: Vec::new(rt.alloc()),
        now: 0,
    });
    assert!(rt; plan.market == market);
    assert!(rt; plan.wallets == [Some(usd), Some(coin), None, None]);
}

//! Rows of a script by themselves: each with the number of the fault that is told.

use dex_rows::records::{Fields, Rows};
use dex_statement::{RowError, statement_of};
use dex_types::NoMemory;
use std::alloc::Global;
use std::test::Fail;

// The number of the fault that the one row of a text has by itself; 0 where it has none.
fn fault_of(alloc: Global, text: &[u8]) -> Result<u8, NoMemory> {
    let mut rows = Rows::new(alloc, text);
    let mut row = Fields::new();
    if !rows.next_row(&mut row)? {
        return Ok(100);
    }
    match statement_of(alloc, &row) {
        Ok(_) => Ok(0),
        Err(RowError::Fault(kind)) => Ok(kind.number()),
        Err(RowError::NoMemory) => Err(NoMemory),
    }
}

// Whether a row has the lowest fault whose number stands before it, with a sign between.
fn is_told(alloc: Global, line: &[u8]) -> Result<bool, NoMemory> {
    if line.len() < 2 {
        return Ok(false);
    }
    Ok(fault_of(alloc, &line[2..])? == line[0].wrapping_sub(b'0'))
}

// The number of the lowest fault, 0 where there is none, and the row after it. A sign stands between the rows.
const ROWS: &str = "1:mint,coin,6\x7f;1:mint,co\x1fin,6;1:\u{feff}mint,co\u{e9}n,6
;2:grant,amy,1,1;2:dump,x;2:program,solana;2:do,0,m,ann,amy,-,-,-,-,new foo 50;2:do,0,m,ann,amy,-,-,-,-,buy
;3:program,solana,2;3:do,0,m,ann,amy,-,-,-,-,new bid 50
;4:clock,9223372036854775808;4:wallet,AMY,coin,ann,007;4:mint,coin,256;4:wallet,a,coin,ann,18446744073709551616
;4:wallet,a,coin,ann,;4:wallet,a,coin,ann,+7;4:wallet,a,coin,ann,-7;4:wallet,a,coin,ann, 7;4:wallet,a,coin,ann,7 ;4:wallet,a,coin,ann,0x7
;4:wallet,a,coin,ann,7.0;4:ix,0,m,ann,amy,-,-,-,-,AAAA=;4:ix,0,m,ann,amy,-,-,-,-,AQAAAAA;4:ix,0,m,ann,amy,-,-,-,-,AQAAAAB=
;5:market,0x0000000000000000000000000000000000000000000000000000000000000001,a,b,c,1,1,1,
;5:do,0,m,ann,amy -,-,-,-,-,settle;5:wallet,,coin,ann,7;5:wallet,Ann,coin,ann,7;5:wallet,a b,coin,ann,7
;5:mint,abcdefghijklmnopqrstuvwxy,6;5:do,0,m,ann,amy,--,-,-,-,settle
;0:mint,abcdefghijklmnopqrstuvwx,255;0:wallet,a,coin,ann,18446744073709551615;0:clock,9223372036854775807\r
;0:ix,0,m,ann,amy,-,-,-,-,AQAAAAA=;0:ix,0,m,ann,amy,-,-,-,-,
;1:swap,0,ann,m,-,-,A\x1f,n,-,-;2:swop,0,ann,m,-,-,,n,-,-,;3:swap,x,ann,m,-,-,,n,-,-;3:swap,0,ann,m,-,-,,n,-,-,,
;4:swap,x,Ann,m,-,-,,n,-,-,;4:swap,0,Ann,m,-,-,AA,n,-,-,;4:swap,0,ann,M,-,-,,n,-,-,AB==;4:swap,4294967296,ann,m,-,-,,n,-,-,
;5:swap,0,-,m,-,-,,n,-,-,;5:swap,0,ann,-,-,-,,n,-,-,;5:swap,0,ann,m,,-,,n,-,-,;5:swap,0,ann,m,-,a b,,n,-,-,;5:swap,0,ann,m,-,-,,,-,-,
;5:swap,0,ann,m,-,-,,n,-,Bob,;0:swap,4294967295,ann,m,-,-,,m,-,-,;0:swap,0,ann,m,a,a,AQAAAAA=,n,a,a,AAEAAAA=
;0:\u{feff}\"do\",0,m,ann,amy ben,c,-,-,-,cancels 1 2 3 4 5 6 7 8;0:\n\nprogram,openbook";

#[test]
fn the_lowest_fault_of_a_row_is_told(rt: HostRuntime) -> Result<(), Fail> {
    let mut others = String::new(rt.alloc());
    for line in ROWS.split(';') {
        if !is_told(rt.alloc(), line.as_bytes())? {
            others.push_str(line)?;
        }
    }
    assert_eq!(rt; others.as_str(), "");
    Ok(())
}

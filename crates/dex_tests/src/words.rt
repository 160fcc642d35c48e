//! Words after the program's name, with one space between them.

use dex_words::{WordsError, read_words};
use std::alloc::{AllocError, Global};
use std::test::Fail;

// The words of a line.
fn words(alloc: Global, line: &str) -> Result<Vec<String>, AllocError> {
    let mut words = Vec::new(alloc);
    for word in line.split(' ') {
        words.push(String::from_str(alloc, word)?)?;
    }
    Ok(words)
}

// Numbers at their limits.
const COMMANDS: &str = "replay
run
dump
audit
worth
make 0 1
make 18446744073709551615 20000
bulk 7 300
migrate 1 1
migrate 65536 65535
batch 1
batch 16";

#[test]
fn each_command_is_read(rt: HostRuntime) -> Result<(), Fail> {
    let mut others = String::new(rt.alloc());
    for line in COMMANDS.split('\n') {
        if read_words(rt.alloc(), &words(rt.alloc(), line)?).is_err() {
            others.push_str(line)?;
        }
    }
    assert_eq!(rt; others.as_str(), "");
    Ok(())
}

const NEAR_MISSES: &str =
    "\n \nrun 1\nhelp\nReplay\nreplay \n replay\nreplay replay\nreplay 1 2\ndump 1\nworth 1\naudit audit audit
-\n--\n-h\n--help\n-- replay\nreplay --\nreplay -x\nreplay --help\nrun -x
make\nmake 1\nmake -1 5\nmake 1 -5\nmake +1 5\nmake 01 5\nmake 1 05\nmake 1 0\nmake 1 20001\nmake 1 4294967297
make 18446744073709551616 5\nmake 1 5 6\nmake 1 5 6 7\nmake one 5\nmake 1  5
bulk 1 20001\nbulk 0x1 5\nmigrate 0 1\nmigrate 65537 1\nmigrate 1 65536
batch\nbatch 0\nbatch 17\nbatch 04\nbatch -1\nbatch 2 2\nbatch four";

#[test]
fn other_words_are_no_command(rt: HostRuntime) -> Result<(), Fail> {
    let mut others = String::new(rt.alloc());
    for line in NEAR_MISSES.split('\n') {
        match read_words(rt.alloc(), &words(rt.alloc(), line)?) {
            Err(WordsError::Usage) => {}
            _ => others.push_str(line)?,
        }
    }
    assert_eq!(rt; others.as_str(), "");
    Ok(())
}

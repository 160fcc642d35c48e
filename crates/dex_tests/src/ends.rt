//! Reads and writes that fail, and sinks with little room.

use dex_io::{MemSink, MemSource, ReadAll, SureSink, WriteStop, read_all, write_all};
use std::alloc::Global;
use std::test::Fail;

// What stops the reading of five bytes up to a limit, where the read of this number, from 0, fails.
fn reading(alloc: Global, call: u64, limit: usize) -> Result<Option<ReadAll>, Fail> {
    let bytes = b"order".to_vec(alloc)?;
    let mut source = MemSource::new(bytes, vec![in alloc; call]?);
    Ok(read_all(alloc, &mut source, limit).err())
}

// All bytes come at the first read, and at the second the source says that it is at its end.
#[test]
fn each_read_fails_in_turn(rt: HostRuntime) -> Result<(), Fail> {
    for (call, limit, told) in [
        (0, 5, Some(ReadAll::Fault)),
        (1, 5, Some(ReadAll::Fault)),
        (2, 5, None),
        (2, 4, Some(ReadAll::TooLong)),
    ] {
        assert!(rt; reading(rt.alloc(), call, limit)? == told);
    }
    Ok(())
}

// How writing five bytes ends, and how many the sink took, where the write of this number fails and there is so much
// room.
fn writing(alloc: Global, call: u64, room: usize) -> Result<(Option<WriteStop>, usize), Fail> {
    let mut sink = MemSink::with_room(alloc, room, vec![in alloc; call]?)?;
    let stop = write_all(&mut sink, b"order").err();
    Ok((stop, sink.bytes().len()))
}

#[test]
fn each_write_fails_in_turn(rt: HostRuntime) -> Result<(), Fail> {
    for (call, room, sent) in [(0, 5, 0), (1, 3, 3), (2, 4, 4), (2, 0, 0)] {
        let told = (Some(WriteStop { sent }), sent);
        assert!(rt; writing(rt.alloc(), call, room)? == told);
    }
    Ok(())
}

#[test]
fn a_sink_with_room_takes_all(rt: HostRuntime) -> Result<(), Fail> {
    let mut sink = SureSink::with_room(rt.alloc(), 5)?;
    assert!(rt; write_all(&mut sink, b"order").is_ok());
    assert!(rt; sink.bytes() == b"order".as_slice());
    Ok(())
}

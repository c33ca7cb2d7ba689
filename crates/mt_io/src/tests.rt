use crate::{IoFault, MemSink, MemSource, Sink, Source, send};
use std::test::Fail;

#[test]
fn pieces_of_reads(rt: HostRuntime) -> Result<(), Fail> {
    let alloc = rt.alloc();
    let table: [(&[usize], &[usize]); 6] = [
        (&[], &[5, 5, 2, 0, 0]),
        (&[3], &[3, 3, 3, 3, 0]),
        (&[0], &[1, 1, 1, 1, 1]),
        (&[1, 0, 4], &[1, 1, 4, 4, 2]),
        (&[9, 2], &[5, 2, 2, 2, 1]),
        (&[9, 9, 2], &[5, 5, 2, 0, 0]),
    ];
    for (pieces, counts) in table {
        let bytes = Vec::from_slice(alloc, b"twelve bytes")?;
        let mut source = MemSource::new(bytes, Vec::from_slice(alloc, pieces)?, Vec::new(alloc));
        let mut place = [0u8; 5];
        for count in counts {
            assert!(rt; source.read(&mut place) == Ok(*count));
        }
    }
    Ok(())
}

#[test]
fn listed_and_later_reads(rt: HostRuntime) -> Result<(), Fail> {
    let alloc = rt.alloc();
    let failing = Vec::from_array(alloc, [2, 5])?;
    let pieces = Vec::from_array(alloc, [1, 2])?;
    let mut source = MemSource::new(Vec::from_slice(alloc, b"abcd")?, pieces, failing).numbered(3);
    let mut place = [0u8; 8];
    for (answer, left) in [
        (Ok(1), "bcd"),
        (Err(IoFault::Failed), "bcd"),
        (Ok(2), "d"),
        (Ok(1), ""),
        (Err(IoFault::Failed), ""),
        (Ok(0), ""),
    ] {
        assert!(rt; source.read(&mut place) == answer);
        assert!(rt; source.left() == left.as_bytes());
    }
    assert!(rt; place.starts_with(b"dc"));
    source.close();
    assert!(rt; source.read(&mut place) == Err(IoFault::Failed));
    Ok(())
}

#[test]
fn listed_and_later_calls_of_a_sink(rt: HostRuntime) -> Result<(), Fail> {
    let alloc = rt.alloc();
    let mut sink = MemSink::new(alloc, Vec::from_array(alloc, [3, 4])?).numbered(3);
    assert!(rt; send(&mut sink, b"abc").is_ok());
    assert!(rt; sink.flush().is_ok());
    assert!(rt; sink.flush() == Err(IoFault::Failed));
    assert!(rt; send(&mut sink, b"def") == Err(IoFault::Failed));
    assert!(rt; send(&mut sink, b"").is_ok());
    assert!(rt; sink.write(b"g") == Ok(1));
    sink.close();
    assert!(rt; sink.write(b"h") == Err(IoFault::Failed));
    assert!(rt; sink.flush() == Err(IoFault::Failed));
    assert!(rt; sink.held() == b"abcg".as_slice());
    Ok(())
}

use super::{ReadSource, WriteSink};
use crate::{IoFault, Sink, Source, send};
use std::io;
use std::io::{ErrorKind, Read, Write};
use std::test::Fail;

/// What a call of a fake reader or writer answers: one byte, or an error of this kind.
#[derive(Clone, Copy, Drop)]
enum Turn {
    One,
    Fails(ErrorKind),
}

/// A reader and writer of one byte a turn, which fails at the turns that say so. After the last
/// turn it takes and gives nothing.
#[derive(Drop)]
struct Fake<'a> {
    turns: &'a [Turn],
    at: usize,
}

impl<'a> Fake<'a> {
    fn turn(&mut self) -> io::Result<usize> {
        let Some(turn) = self.turns.get(self.at) else {
            return Ok(0);
        };
        self.at = self.at.saturating_add(1);
        match *turn {
            Turn::One => Ok(1),
            Turn::Fails(kind) => Err(io::Error::from(kind)),
        }
    }
}

impl<'a> Read for Fake<'a> {
    fn read(&mut self, buf: &mut [u8]) -> io::Result<usize> {
        Ok(self.turn()?.min(buf.len()))
    }
}

impl<'a> Write for Fake<'a> {
    fn write(&mut self, buf: &[u8]) -> io::Result<usize> {
        Ok(self.turn()?.min(buf.len()))
    }

    fn flush(&mut self) -> io::Result<()> {
        self.turn()?;
        Ok(())
    }
}

const TURNS: [Turn; 6] = [
    Turn::One,
    Turn::Fails(ErrorKind::Interrupted),
    Turn::Fails(ErrorKind::Interrupted),
    Turn::One,
    Turn::Fails(ErrorKind::BrokenPipe),
    Turn::One,
];

#[test]
fn reads_go_on_after_a_signal_and_fail_at_other_errors(rt: HostRuntime) -> Result<(), Fail> {
    let mut source = ReadSource::new(
        Fake {
            turns: &TURNS,
            at: 0,
        },
        7,
    );
    let mut place = [0u8; 4];
    for (answer, faults) in [
        (Ok(1), 0),
        (Ok(1), 2),
        (Err(IoFault::Failed), 3),
        (Ok(1), 3),
        (Ok(0), 3),
    ] {
        assert!(rt; source.read(&mut place) == answer);
        assert_eq!(rt; source.faults, faults);
    }
    source.close();
    assert!(rt; source.read(&mut place) == Err(IoFault::Failed));
    assert_eq!(rt; (source.number, source.calls, source.faults), (7, 7, 4));
    Ok(())
}

#[test]
fn writes_go_on_after_a_signal_and_fail_at_other_errors(rt: HostRuntime) -> Result<(), Fail> {
    let mut sink = WriteSink::new(
        Fake {
            turns: &TURNS,
            at: 0,
        },
        7,
    );
    for (answer, faults) in [
        (Ok(1), 0),
        (Ok(1), 2),
        (Err(IoFault::Failed), 3),
        (Ok(1), 3),
        (Err(IoFault::Failed), 4),
    ] {
        assert!(rt; sink.write(b"text") == answer);
        assert_eq!(rt; sink.faults, faults);
    }
    assert!(rt; sink.flush().is_ok());
    sink.close();
    assert!(rt; sink.flush() == Err(IoFault::Failed));
    assert!(rt; sink.write(b"text") == Err(IoFault::Failed));
    assert_eq!(rt; (sink.number, sink.calls, sink.faults), (7, 9, 6));
    let mut interrupted = WriteSink::new(
        Fake {
            turns: &TURNS[1..],
            at: 0,
        },
        0,
    );
    assert!(rt; interrupted.flush().is_ok());
    assert_eq!(rt; interrupted.faults, 2);
    Ok(())
}

#[test]
fn over_memory_of_std(rt: HostRuntime) -> Result<(), Fail> {
    let alloc = rt.alloc();
    let text: &[u8] = b"a text";
    let mut source = ReadSource::new(text, 0);
    let mut place = [0u8; 4];
    assert!(rt; source.read(&mut place) == Ok(4));
    assert!(rt; place == *b"a te");
    assert!(rt; source.read(&mut place) == Ok(2));
    assert!(rt; source.read(&mut place) == Ok(0));
    let mut bytes = Vec::new(alloc);
    let mut sink = WriteSink::new(&mut bytes, 0);
    assert!(rt; send(&mut sink, text).is_ok());
    assert!(rt; sink.flush().is_ok());
    assert_eq!(rt; sink.faults, 0);
    assert!(rt; bytes.as_slice() == text);
    Ok(())
}
